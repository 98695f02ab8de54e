//! Cells with their trail.
ghost use Rattle.std.specs.Prelude.{◌≡◌, ◌<◌, ◌≤◌, ◌++◌, ◌∷◌, [], length, map, take, drop, Some, None, IfOk, OnOk, OnErr, IsTrue};
ghost use Rattle.ll_store.specs.Cells.{update, with_to, with_level, taken_back, before};
ghost use Rattle.ll_store.specs.Packed.{place_of, cell_of, change_of};
ghost use Rattle.ll_store.specs.Trails.{Trailed, Grows, IsUnbound, IsAtMost, cell_to, cell_level};

use crate::packed::{Entry, NOTHING, Slot, are_same_slots, packed};
use ll_bank::{At, OutOfMemory};
use std::alloc::Global;
use std::marker::Model;

/// What a variable is bound to, and its level.
#[derive(Clone, Copy)]
pub struct Cell {
    pub to: Option<At>,
    pub level: u32,
}

/// A change of a cell, with what takes it back.
#[derive(Clone, Copy)]
pub enum Change {
    /// The variable was unbound.
    Bound(u64),
    /// The variable had this level.
    Lowered(u64, u32),
}

/// Cells with a trail of their changes, each in eight bytes. Contracts see the cells, and the changes from the oldest on.
///
/// There is no memory for a change of a variable past 32 bits, for a place from 4,294,967,295 on, nor for lowering the level
/// 4,294,967,295.
pub struct Cells {
    pub(crate) slots: Vec<Slot>,
    pub(crate) trail: Vec<Entry>,
}

// Written out, so that a proof sees one call where it goes, and not one for each part.
impl Drop for Cells {
    fn drop(self) {
        let Cells { slots: _, trail: _ } = self;
    }
}

impl Model for Cells {
    ghost use Rattle.std.specs.Prelude.{map};
    ghost use Rattle.ll_store.specs.Packed.{cell_of, change_of};
    ghost use Rattle.ll_store.specs.Trails.{Trailed};

    ghost Value = { Trailed };

    ghost view = { λ s. record { cells = map cell_of s.slots.items; changes = map change_of s.trail.items } };
}

impl Cells {
    /// No cells.
    pub fn new(alloc: Global) -> Self
        ensures { result ≡ record { cells = []; changes = [] } }
    {
        Cells {
            slots: Vec::new(alloc),
            trail: Vec::new(alloc),
        }
    }

    /// The number of cells.
    pub fn len(&self) -> usize
        ensures { result ≡ length self.now.cells }
    {
        self.slots.len()
    }

    /// The number of changes on the trail.
    pub fn changes(&self) -> usize
        ensures { result ≡ length self.now.changes }
    {
        self.trail.len()
    }

    /// A new unbound variable of this level. After a refusal the cells are as before.
    pub fn fresh(&mut self, level: u32) -> Result<u64, OutOfMemory>
        ensures number { IfOk result (λ var. var ≡ length self.old.cells) }
        ensures cells { OnOk result (self.new.cells ≡ self.old.cells ++ (record { to = None; level = level }) ∷ []) }
        ensures changes { self.new.changes ≡ self.old.changes }
        ensures refused { OnErr result (self.new ≡ self.old) }
    {
        let var = self.slots.len() as u64;
        self.slots.push(Slot { to: NOTHING, level })?;
        Ok(var)
    }

    /// Binds an unbound variable to a place. After a refusal the cells are as before.
    pub fn bind(&mut self, var: u64, to: At) -> Result<(), OutOfMemory>
        requires { IsUnbound self.old.cells var }
        ensures cells { OnOk result (self.new.cells ≡ update var (with_to (Some to)) self.old.cells) }
        ensures grows { Grows self.old self.new }
        ensures refused { OnErr result (self.new ≡ self.old) }
    {
        let kept = packed(to)?;
        let entry = Entry::bound(var)?;
        self.trail.push(entry)?;
        set_to(&mut self.slots, var as usize, kept);
        Ok(())
    }

    /// Gives a variable a level that is not above its own. After a refusal the cells are as before.
    pub fn lower(&mut self, var: u64, level: u32) -> Result<(), OutOfMemory>
        requires { IsAtMost level self.old.cells var }
        ensures cells { OnOk result (self.new.cells ≡ update var (with_level level) self.old.cells) }
        ensures grows { Grows self.old self.new }
        ensures refused { OnErr result (self.new ≡ self.old) }
    {
        let old = self.slots[var as usize].level;
        let entry = Entry::lowered(var, old)?;
        self.trail.push(entry)?;
        set_level(&mut self.slots, var as usize, level);
        Ok(())
    }

    /// What a variable is bound to.
    pub fn value(&self, var: u64) -> Option<At>
        requires { var < length self.now.cells }
        ensures { cell_to self.now.cells var ≡ Some result }
    {
        self.slots[var as usize].cell().to
    }

    /// The level of a variable.
    pub fn level(&self, var: u64) -> u32
        requires { var < length self.now.cells }
        ensures { cell_level self.now.cells var ≡ Some result }
    {
        self.slots[var as usize].level
    }

    /// Takes back all but the first changes, and leaves out all but the first cells.
    pub fn cut(&mut self, cells: usize, changes: usize)
        requires { changes ≤ length self.old.changes }
        ensures cells { self.new.cells ≡ take cells (before (drop changes self.old.changes) self.old.cells) }
        ensures changes { self.new.changes ≡ take changes self.old.changes }
    {
        take_back(&mut self.slots, self.trail.as_slice(), changes);
        self.trail.truncate(changes);
        self.slots.truncate(cells);
    }

    /// Cells of their own, as they are after such a cut.
    pub fn image(&self, cells: usize, changes: usize) -> Result<Self, OutOfMemory>
        requires cells { cells ≤ length self.now.cells }
        requires changes { changes ≤ length self.now.changes }
        ensures cells { IfOk result (λ image. image.cells
            ≡ take cells (before (drop changes self.now.changes) self.now.cells)) }
        ensures changes { IfOk result (λ image. image.changes ≡ take changes self.now.changes) }
    {
        let alloc = *self.slots.allocator();
        let mut slots = Vec::from_slice(alloc, &self.slots[..cells])?;
        take_back(&mut slots, self.trail.as_slice(), changes);
        let trail = Vec::from_slice(alloc, &self.trail[..changes])?;
        Ok(Cells { slots, trail })
    }

    /// Whether other cells are the same, whatever changes led to them. Their numbers are compared first, and it takes no memory.
    pub fn has_same_cells(&self, other: &Cells) -> bool
        ensures { IsTrue result → self.now.cells ≡ other.now.cells }
    {
        are_same_slots(&self.slots, &other.slots)
    }
}

// Binds the variable at a place of the cells, or unbinds it, if there is one.
fn set_to(cells: &mut Vec<Slot>, at: usize, to: u32)
    ensures { map cell_of cells.new.items ≡ update at (with_to (place_of to)) (map cell_of cells.old.items) }
{
    if at < cells.len() {
        cells[at].to = to;
    }
}

// Gives the variable at a place of the cells another level, if there is one.
fn set_level(cells: &mut Vec<Slot>, at: usize, level: u32)
    ensures { map cell_of cells.new.items ≡ update at (with_level level) (map cell_of cells.old.items) }
{
    if at < cells.len() {
        cells[at].level = level;
    }
}

// Takes a change back.
fn take_one_back(cells: &mut Vec<Slot>, change: Change)
    ensures { map cell_of cells.new.items ≡ taken_back change (map cell_of cells.old.items) }
{
    match change {
        Change::Bound(var) => set_to(cells, var as usize, NOTHING),
        Change::Lowered(var, level) => set_level(cells, var as usize, level),
    }
}

/// Takes back all but the first `from` of changes that were made one after another.
pub(crate) fn take_back(cells: &mut Vec<Slot>, changes: &[Entry], from: usize)
    requires { from ≤ length changes.now }
    ensures { map cell_of cells.new.items ≡ before (drop from (map change_of changes.now))
        (map cell_of cells.old.items) }
{
    let mut at = changes.len();
    while at > from {
        at -= 1;
        take_one_back(cells, changes[at].change());
    }
}
