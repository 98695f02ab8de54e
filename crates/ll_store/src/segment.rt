//! What leads from one state of a store to a later one, for stores that stand in the first.
ghost use Rattle.std.specs.Prelude.{◌≡◌, ◌≤◌, nat_lt, [], ◌++◌, length, map, take, drop, IfOk, OnOk, OnErr, IsTrue};
ghost use Rattle.ll_bank.specs.Nodes.{Extends};
ghost use Rattle.ll_store.specs.Cells.{update, before};
ghost use Rattle.ll_store.specs.Packed.{cell_of, change_of};
ghost use Rattle.ll_store.specs.Stored.{stored, state_of, state_at, IsGood, IsBefore, KeepsMarks};
ghost use Rattle.ll_store.specs.Segments.{changed_in, renewed_of, renew, renewal, kept_if, renewals, BeginsCells, LeadsCells, Begins, Leads, Continues};

use crate::cells::{Cells, take_back};
use crate::packed::{Entry, Slot, are_same_slots};
use crate::store::{Mark, Store};
use ll_bank::{BankTail, OutOfMemory};
use std::alloc::Global;
use std::marker::Model;

/// A change of a cell, and what the cell is in the end.
#[derive(Clone, Copy, PartialEq, Eq)]
pub struct Renewal {
    entry: Entry,
    slot: Slot,
}

/// What leads from cells to later ones: changes of the earlier cells, and the cells behind them.
#[derive(Drop)]
pub struct CellSegment {
    count: usize,
    renewed: Vec<Renewal>,
    more: Vec<Slot>,
}

impl Model for CellSegment {
    ghost use Rattle.std.specs.Prelude.{map};
    ghost use Rattle.ll_store.specs.Packed.{cell_of};
    ghost use Rattle.ll_store.specs.Segments.{CellSight, renewed_of};

    ghost Value = { CellSight };

    ghost view = { λ s. record { count = s.count; renewed = map renewed_of s.renewed.items; more = map cell_of s.more.items } };
}

impl CellSegment {
    /// Whether another one has the same changes and cells. Their numbers are compared first, and it takes no memory.
    pub fn is_same(&self, other: &CellSegment) -> bool
        ensures { IsTrue result → self.now ≡ other.now }
    {
        self.count == other.count
            && are_same_renewals(&self.renewed, &other.renewed)
            && are_same_slots(&self.more, &other.more)
    }
}

// Whether changes with what their cells are in the end are the same.
fn are_same_renewals(renewed: &[Renewal], others: &[Renewal]) -> bool
    ensures { IsTrue result → renewed.now ≡ others.now }
{
    renewed == others
}

impl Cells {
    /// What leads from the cells as a cut to `from` leaves them to those that a later one leaves. Each is a number of cells and one of changes.
    pub fn segment(
        &self,
        from: (usize, usize),
        to: (usize, usize),
    ) -> Result<CellSegment, OutOfMemory>
        requires cells { (from.0 ≤ to.0) × (to.0 ≤ length self.now.cells) }
        requires changes { (from.1 ≤ to.1) × (to.1 ≤ length self.now.changes) }
        ensures { IfOk result (λ s. LeadsCells s (take from.0 (before (drop from.1 self.now.changes) self.now.cells))
            (take to.0 (before (drop to.1 self.now.changes) self.now.cells))) }
    {
        let alloc = *self.slots.allocator();
        let mut now = Vec::from_slice(alloc, &self.slots[..to.0])?;
        take_back(&mut now, self.trail.as_slice(), to.1);
        let renewed = renewals(alloc, self.trail.as_slice(), (from.1, to.1), &now, from.0)?;
        let more = behind(alloc, &now, from.0)?;
        Ok(CellSegment {
            count: from.0,
            renewed,
            more,
        })
    }

    /// Goes on to the cells to which the segment leads. After a refusal they are as before.
    pub fn extend(&mut self, segment: &CellSegment) -> Result<(), OutOfMemory>
        requires { BeginsCells segment.now self.old.cells }
        ensures continues { OnOk result (Continues segment.now self.old self.new) }
        ensures refused { OnErr result (self.new ≡ self.old) }
    {
        let changes = self.trail.len();
        note_changes(&mut self.trail, &segment.renewed)?;
        renew(&mut self.slots, &segment.renewed);
        match self.slots.extend_from_slice(&segment.more) {
            Ok(()) => Ok(()),
            Err(refused) => {
                self.cut(segment.count, changes);
                Err(refused)
            }
        }
    }
}

// Those of a range of changes that are of the first cells, each with what its cell is.
fn renewals(
    alloc: Global,
    changes: &[Entry],
    range: (usize, usize),
    cells: &[Slot],
    count: usize,
) -> Result<Vec<Renewal>, OutOfMemory>
    requires range { (range.0 ≤ range.1) × (range.1 ≤ length changes.now) }
    requires count { count ≤ length cells.now }
    ensures { IfOk result (λ made. map renewed_of made.items
        ≡ renewals count (map cell_of cells.now) (map change_of (drop range.0 (take range.1 changes.now)))) }
{
    let mut made = Vec::new(alloc);
    for at in range.0..range.1 {
        note(&mut made, changes[at], cells, count)?;
    }
    Ok(made)
}

// Notes a change with what its cell is, where it is one of the first cells.
fn note(
    made: &mut Vec<Renewal>,
    entry: Entry,
    cells: &[Slot],
    count: usize,
) -> Result<(), OutOfMemory>
    requires { count ≤ length cells.now }
    ensures { OnOk result (map renewed_of made.new.items ≡ map renewed_of made.old.items
        ++ kept_if (nat_lt (changed_in (change_of entry)) count)
        (renewal (map cell_of cells.now) (change_of entry)) []) }
{
    let var = entry.var();
    if count <= var {
        return Ok(());
    }
    let slot = cells[var];
    made.push(Renewal { entry, slot })?;
    Ok(())
}

// The cells behind the first ones.
fn behind(alloc: Global, cells: &[Slot], count: usize) -> Result<Vec<Slot>, OutOfMemory>
    requires { count ≤ length cells.now }
    ensures { IfOk result (λ more. more.items ≡ drop count cells.now) }
{
    let more = Vec::from_slice(alloc, &cells[count..])?;
    Ok(more)
}

// Notes the changes. After a refusal the trail is as before.
fn note_changes(trail: &mut Vec<Entry>, renewed: &[Renewal]) -> Result<(), OutOfMemory>
    ensures noted { OnOk result (map change_of trail.new.items ≡ map change_of trail.old.items ++ map (λ r. r.change)
        (map renewed_of renewed.now)) }
    ensures refused { OnErr result (map change_of trail.new.items ≡ map change_of trail.old.items) }
{
    trail.reserve(renewed.len())?;
    for renewal in renewed {
        trail.push_reserved(renewal.entry);
    }
    Ok(())
}

// Makes cells what they are in the end.
fn renew(cells: &mut Vec<Slot>, renewed: &[Renewal])
    ensures { map cell_of cells.new.items ≡ renew (map renewed_of renewed.now) (map cell_of cells.old.items) }
{
    for renewal in renewed {
        set_slot(cells, renewal.entry.var(), renewal.slot);
    }
}

// Makes a cell what it is in the end, if there is one.
fn set_slot(cells: &mut Vec<Slot>, at: usize, slot: Slot)
    ensures { map cell_of cells.new.items ≡ update at (λ c. cell_of slot) (map cell_of cells.old.items) }
{
    if at < cells.len() {
        cells[at] = slot;
    }
}

/// What leads from one state of a store to a later one, which stores that stand in the first can take over.
///
/// Contracts see the changes, the cells and the nodes that are new. They say which state is the first, and with it they fix the second.
pub struct Segment {
    cells: CellSegment,
    nodes: BankTail,
}

// Written out, so that a proof sees one call where it goes, and not one for each part.
impl Drop for Segment {
    fn drop(self) {
        let Segment { cells: _, nodes: _ } = self;
    }
}

impl Model for Segment {
    ghost use Rattle.ll_store.specs.Segments.{SegmentSight};

    ghost Value = { SegmentSight };

    ghost view = { λ s. record { cells = s.cells; tail = s.nodes } };
}

impl Segment {
    /// Whether another one holds the same, and so leads from each state where this one does. Its parts are compared as data, their lengths
    /// first, and it takes no memory.
    pub fn is_same(&self, other: &Segment) -> bool
        ensures { IsTrue result → self.now ≡ other.now }
    {
        self.cells.is_same(&other.cells) && self.nodes.is_same(&other.nodes)
    }
}

impl Store {
    /// What leads from the state at a good mark to that at another, with no number of the first past that of the second.
    pub fn segment(&self, from: Mark, to: Mark) -> Result<Segment, OutOfMemory>
        requires from { IsGood from (stored self.now) }
        requires to { IsGood to (stored self.now) }
        requires order { IsBefore from to }
        ensures { IfOk result (λ s. Leads s (state_at from (stored self.now)) (state_at to (stored self.now))) }
    {
        let cells = self
            .cells
            .segment((from.cells, from.trail), (to.cells, to.trail))?;
        let nodes = self.bank.tail(from.bank, to.bank)?;
        Ok(Segment { cells, nodes })
    }

    /// Goes on from the first state of the segment to the second. Each good mark stays good, with its state. After a refusal the store is as
    /// before.
    pub fn apply_segment(&mut self, segment: &Segment) -> Result<(), OutOfMemory>
        requires { Begins segment.now (state_of (stored self.old)) }
        ensures state { OnOk result (Leads segment.now (state_of (stored self.old)) (state_of (stored self.new))) }
        ensures marks { OnOk result (KeepsMarks (stored self.old) (stored self.new)) }
        ensures refused { OnErr result (stored self.new ≡ stored self.old) }
    {
        let size = self.bank.size();
        match self.take_over(segment) {
            Ok(()) => Ok(()),
            Err(refused) => {
                self.bank.cut(size);
                Err(refused)
            }
        }
    }

    // The same, but after a refusal the bank may have some of the nodes.
    fn take_over(&mut self, segment: &Segment) -> Result<(), OutOfMemory>
        requires { Begins segment.now (state_of (stored self.old)) }
        ensures state { OnOk result (Leads segment.now (state_of (stored self.old)) (state_of (stored self.new))) }
        ensures marks { OnOk result (KeepsMarks (stored self.old) (stored self.new)) }
        ensures bank { Extends self.old.bank self.new.bank }
        ensures cells { OnErr result (self.new.cells ≡ self.old.cells) }
    {
        self.bank.extend(&segment.nodes)?;
        self.cells.extend(&segment.cells)?;
        Ok(())
    }
}
