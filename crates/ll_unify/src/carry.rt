//! Terms with all bindings applied, carried into another bank.
ghost use Rattle.std.specs.Prelude.{◌≡◌, ◌≤◌, ◌-◌, length, take, drop, map, All, IfOk, OnOk, Some};
ghost use Rattle.ll_bank.specs.declared.At.{At as AtView};
ghost use Rattle.ll_bank.specs.Term.{sub};
ghost use Rattle.ll_bank.specs.Nodes.{term_tree, term_trees, HasTerm, ShowsTerm, AllInTerms, Extends};
ghost use Rattle.ll_unify.specs.Bindings.{IsTable, IsPlaceOf, IsEnd, found};
ghost use Rattle.ll_unify.specs.Copied.{AreCopies, AddsCopy};
ghost use Rattle.ll_unify.specs.Carried.{unpacked, listed, IsCarried};

use crate::{Bindings, Frame, argument, walk};
use ll_bank::{At, Bank, OutOfMemory, TermView};
use std::alloc::{AllocError, Global};

// The copy that is kept as this number.
fn unpacked(kept: u32) -> Option<At>
    ensures { result ≡ unpacked kept }
{
    let place = kept.checked_sub(1)?;
    Some(At(place as usize))
}

// A copy as it is kept. There is no memory for places from 4,294,967,295 on.
fn packed(copy: At) -> Result<u32, OutOfMemory>
    ensures { IfOk result (λ kept. unpacked kept ≡ Some copy) }
{
    if copy.0 < u32::MAX as usize {
        Ok(copy.0 as u32 + 1)
    } else {
        Err(AllocError)
    }
}

// The copy of a place, if it is known.
fn copy_at(known: &[u32], at: At) -> Option<At>
    ensures { result ≡ listed known.now at.0 }
{
    if at.0 < known.len() {
        unpacked(known[at.0])
    } else {
        None
    }
}

// Remembers the copy of a place.
fn remember(known: &mut Vec<u32>, at: At, copy: At) -> Result<(), OutOfMemory>
    ensures { OnOk result (AddsCopy (listed known.old.items) (listed known.new.items) at.0 copy) }
{
    let Some(size) = at.0.checked_add(1) else {
        return Err(AllocError);
    };
    let kept = packed(copy)?;
    if known.len() < size {
        known.resize(size, 0)?;
    }
    known[at.0] = kept;
    Ok(())
}

// A copy of the term at a place, over these copies of its arguments.
fn build(bank: &Bank, at: At, own: &[At], other: &mut Bank) -> Result<At, OutOfMemory>
    requires inside { HasTerm bank.now at.0 }
    requires places { AllInTerms other.old own.now }
    ensures built { IfOk result (λ copy. IsCarried bank.now other.old other.new at.0 own.now copy.0) }
    ensures keeps { Extends other.old other.new }
{
    match bank.term_at(at) {
        TermView::Var(number) => other.var(number),
        TermView::Int(value) => other.int(value),
        TermView::App(head, _) => other.app(head, own),
    }
}

// A copy of the term of a frame, whose arguments' copies are the last ones made.
fn close(bank: &Bank, frame: Frame, made: &mut Vec<At>, other: &mut Bank) -> Result<At, OutOfMemory>
    requires inside { HasTerm bank.now frame.at.0 }
    requires enough { frame.next ≤ length made.old.items }
    requires places { AllInTerms other.old (drop (length made.old.items - frame.next) made.old.items) }
    ensures built { IfOk result (λ copy. IsCarried bank.now other.old other.new frame.at.0
        (drop (length made.old.items - frame.next) made.old.items) copy.0) }
    ensures made { IfOk result (λ _. made.new.items ≡ take (length made.old.items - frame.next) made.old.items) }
    ensures keeps { Extends other.old other.new }
{
    let from = made.len() - frame.next;
    let copy = build(bank, frame.at, &made[from..], other)?;
    made.truncate(from);
    Ok(copy)
}

// A copy of what a place shows with all bindings applied. Copies that are known are shared. The two stacks are to work with.
fn carry<T: Bindings>(
    bank: &Bank,
    table: &T,
    known: &mut Vec<u32>,
    frames: &mut Vec<Frame>,
    made: &mut Vec<At>,
    start: At,
    other: &mut Bank,
) -> Result<At, OutOfMemory>
    requires table { IsTable bank.now (T.table table.now) }
    requires known { AreCopies bank.now other.old (T.table table.now) (listed known.old.items) }
    requires start { IsEnd bank.now (T.table table.now) start.0 }
    ensures copy { IfOk result (λ copy. ShowsTerm other.new copy.0
        (sub (found bank.now (T.table table.now)) (term_tree bank.now start.0))) }
    ensures known { IfOk result (λ _. AreCopies bank.now other.new (T.table table.now) (listed known.new.items)) }
    ensures keeps { Extends other.old other.new }
{
    let mut last = start;
    made.clear();
    frames.clear();
    frames.push(Frame { at: start, next: 0 })?;
    while let Some(frame) = frames.pop() {
        match argument(bank, frame.at, frame.next) {
            Some(arg) => {
                frames.push(Frame {
                    at: frame.at,
                    next: frame.next + 1,
                })?;
                let end = walk(bank, table, arg);
                match copy_at(known, end) {
                    Some(copy) => made.push(copy)?,
                    None => frames.push(Frame { at: end, next: 0 })?,
                }
            }
            None => {
                last = close(bank, frame, made, other)?;
                remember(known, frame.at, last)?;
                made.push(last)?;
            }
        }
    }
    Ok(last)
}

// A copy of what a place shows with all bindings applied, known or made. The two stacks are to work with.
fn carry_one<T: Bindings>(
    bank: &Bank,
    table: &T,
    known: &mut Vec<u32>,
    frames: &mut Vec<Frame>,
    made: &mut Vec<At>,
    at: At,
    other: &mut Bank,
) -> Result<At, OutOfMemory>
    requires table { IsTable bank.now (T.table table.now) }
    requires known { AreCopies bank.now other.old (T.table table.now) (listed known.old.items) }
    requires at { IsPlaceOf bank.now (T.table table.now) at.0 }
    ensures copy { IfOk result (λ copy. ShowsTerm other.new copy.0
        (sub (found bank.now (T.table table.now)) (term_tree bank.now at.0))) }
    ensures known { IfOk result (λ _. AreCopies bank.now other.new (T.table table.now) (listed known.new.items)) }
    ensures keeps { Extends other.old other.new }
{
    let end = walk(bank, table, at);
    match copy_at(known, end) {
        Some(copy) => Ok(copy),
        None => carry(bank, table, known, frames, made, end, other),
    }
}

/// What terms are carried into another bank with. It is kept, so that many calls take memory once.
pub struct Carrier {
    // Copies by the places of the first bank, each in four bytes.
    known: Vec<u32>,
    // Terms whose copies are not done, and copies that wait for them.
    frames: Vec<Frame>,
    made: Vec<At>,
}

// Written out, so that a proof sees one call where it goes, and not one for each part.
impl Drop for Carrier {
    fn drop(self) {
        let Carrier {
            known: _,
            frames: _,
            made: _,
        } = self;
    }
}

impl Carrier {
    /// It takes no memory until it is used.
    pub fn new(alloc: Global) -> Self {
        Carrier {
            known: Vec::new(alloc),
            frames: Vec::new(alloc),
            made: Vec::new(alloc),
        }
    }
}

/// Places of another bank that show what these show with all bindings applied. What stands twice is shared.
///
/// The other bank gets copies of what is reached, and nothing else. It takes time for the places that are reached, each of which is
/// passed through once, and for a list up to the last of them, which the carrier keeps. After a refusal the other bank may hold further
/// nodes.
pub fn read_into<T: Bindings>(
    alloc: Global,
    carrier: &mut Carrier,
    bank: &Bank,
    table: &T,
    places: &[At],
    other: &mut Bank,
) -> Result<Vec<At>, OutOfMemory>
    requires table { IsTable bank.now (T.table table.now) }
    requires places { All (λ (at : AtView). IsPlaceOf bank.now (T.table table.now) at.0) places.now }
    ensures inside { IfOk result (λ made. AllInTerms other.new made.items) }
    ensures shows { IfOk result (λ made. term_trees other.new made.items
        ≡ map (sub (found bank.now (T.table table.now))) (term_trees bank.now places.now)) }
    ensures keeps { Extends other.old other.new }
{
    carrier.known.clear();
    let mut copies = Vec::with_capacity(alloc, places.len())?;
    for place in places {
        let copy = carry_one(
            bank,
            table,
            &mut carrier.known,
            &mut carrier.frames,
            &mut carrier.made,
            *place,
            other,
        )?;
        copies.push(copy)?;
    }
    Ok(copies)
}
