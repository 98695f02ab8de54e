//! Terms with all bindings applied.
ghost use Rattle.std.specs.Prelude.{◌≡◌, ◌≤◌, ◌<◌, ◌-◌, ℕ, true, length, take, drop, map, All, IfOk, OnOk, nat_eq, Some};
ghost use Rattle.std.specs.HashMap.{get};
ghost use Rattle.ll_bank.specs.declared.At.{At as AtView};
ghost use Rattle.ll_bank.specs.Term.{sub};
ghost use Rattle.ll_bank.specs.Nodes.{term_tree, term_trees, HasTerm, ShowsTerm, AllInTerms, Extends};
ghost use Rattle.ll_unify.specs.Bindings.{IsTable, IsPlaceOf, BindsPlaces, IsEnd, found};
ghost use Rattle.ll_unify.specs.Copied.{AreCopies, AddsCopy, IsChanged, IsBuilt, IsCellCopy, AreFinal};

use crate::{Bindings, Frame, argument, walk};
use ll_bank::{At, Bank, Head, OutOfMemory, TermView};
use std::alloc::Global;
use std::collections::HashMap;

// Whether two lists of places are one.
fn are_same(left: &[At], right: &[At]) -> bool
    ensures { result ≡ true → left.now ≡ right.now }
{
    if left.len() != right.len() {
        return false;
    }
    for index in 0..left.len() {
        if left[index].0 != right[index].0 {
            return false;
        }
    }
    true
}

// The head that a copy of the term at a place needs, with these copies of its arguments. None where the place itself serves.
fn changed_head(bank: &Bank, at: At, copied: &[At]) -> Option<Head>
    requires { HasTerm bank.now at.0 }
    ensures { IsChanged bank.now at.0 copied.now result }
{
    match bank.term_at(at) {
        TermView::Var(_) => None,
        TermView::Int(_) => None,
        TermView::App(head, args) => {
            if are_same(args, copied) {
                None
            } else {
                Some(head)
            }
        }
    }
}

// A copy of the term at a place with these copies of its arguments.
fn built(bank: &mut Bank, at: At, copied: &[At]) -> Result<At, OutOfMemory>
    requires inside { HasTerm bank.old at.0 }
    requires places { AllInTerms bank.old copied.now }
    ensures built { IfOk result (λ copy. IsBuilt bank.old bank.new at.0 copied.now copy.0) }
    ensures keeps { Extends bank.old bank.new }
{
    match changed_head(bank, at, copied) {
        None => Ok(at),
        Some(head) => bank.app(head, copied),
    }
}

// A copy of the term at a place, whose arguments' copies are the last ones made.
fn build(bank: &mut Bank, frame: Frame, made: &mut Vec<At>) -> Result<At, OutOfMemory>
    requires inside { HasTerm bank.old frame.at.0 }
    requires enough { frame.next ≤ length made.old.items }
    requires places { AllInTerms bank.old (drop (length made.old.items - frame.next) made.old.items) }
    ensures built { IfOk result (λ copy. IsBuilt bank.old bank.new frame.at.0
        (drop (length made.old.items - frame.next) made.old.items) copy.0) }
    ensures made { IfOk result (λ _. made.new.items ≡ take (length made.old.items - frame.next) made.old.items) }
    ensures keeps { Extends bank.old bank.new }
{
    let from = made.len() - frame.next;
    let copy = built(bank, frame.at, &made[from..])?;
    made.truncate(from);
    Ok(copy)
}

// Remembers the copy of an application. Other copies are at hand without.
fn remember(known: &mut HashMap<usize, At>, frame: Frame, copy: At) -> Result<(), OutOfMemory>
    ensures { OnOk result (AddsCopy (get nat_eq known.old) (get nat_eq known.new) frame.at.0 copy) }
{
    if frame.next > 0 {
        known.insert(frame.at.0, copy)?;
    }
    Ok(())
}

// A copy of what a place shows with all bindings applied. Copies that are known are shared.
fn copy<T: Bindings>(
    alloc: Global,
    bank: &mut Bank,
    table: &T,
    known: &mut HashMap<usize, At>,
    start: At,
) -> Result<At, OutOfMemory>
    requires table { IsTable bank.old (T.table table.now) }
    requires known { AreCopies bank.old bank.old (T.table table.now) (get nat_eq known.old) }
    requires start { IsEnd bank.old (T.table table.now) start.0 }
    ensures copy { IfOk result (λ copy. ShowsTerm bank.new copy.0
        (sub (found bank.old (T.table table.now)) (term_tree bank.old start.0))) }
    ensures known { IfOk result (λ _. AreCopies bank.old bank.new (T.table table.now) (get nat_eq known.new)) }
    ensures keeps { Extends bank.old bank.new }
{
    let mut last = start;
    let mut made = Vec::new(alloc);
    let mut frames = Vec::new(alloc);
    frames.push(Frame { at: start, next: 0 })?;
    while let Some(frame) = frames.pop() {
        match argument(bank, frame.at, frame.next) {
            Some(arg) => {
                frames.push(Frame {
                    at: frame.at,
                    next: frame.next + 1,
                })?;
                let end = walk(bank, table, arg);
                match known.get(&end.0) {
                    Some(copy) => made.push(*copy)?,
                    None => frames.push(Frame { at: end, next: 0 })?,
                }
            }
            None => {
                last = build(bank, frame, &mut made)?;
                remember(known, frame, last)?;
                made.push(last)?;
            }
        }
    }
    Ok(last)
}

// A copy of what a place shows with all bindings applied, known or made.
fn copy_of<T: Bindings>(
    alloc: Global,
    bank: &mut Bank,
    table: &T,
    known: &mut HashMap<usize, At>,
    at: At,
) -> Result<At, OutOfMemory>
    requires table { IsTable bank.old (T.table table.now) }
    requires known { AreCopies bank.old bank.old (T.table table.now) (get nat_eq known.old) }
    requires at { IsPlaceOf bank.old (T.table table.now) at.0 }
    ensures copy { IfOk result (λ copy. ShowsTerm bank.new copy.0
        (sub (found bank.old (T.table table.now)) (term_tree bank.old at.0))) }
    ensures known { IfOk result (λ _. AreCopies bank.old bank.new (T.table table.now) (get nat_eq known.new)) }
    ensures keeps { Extends bank.old bank.new }
{
    let end = walk(bank, table, at);
    match known.get(&end.0) {
        Some(copy) => Ok(*copy),
        None => copy(alloc, bank, table, known, end),
    }
}

// A copy of what a cell is bound to with all bindings applied, none of an unbound one.
fn cell_copy<T: Bindings>(
    alloc: Global,
    bank: &mut Bank,
    table: &T,
    known: &mut HashMap<usize, At>,
    to: Option<At>,
) -> Result<Option<At>, OutOfMemory>
    requires table { IsTable bank.old (T.table table.now) }
    requires known { AreCopies bank.old bank.old (T.table table.now) (get nat_eq known.old) }
    requires to { (at : AtView) → to ≡ Some at → IsPlaceOf bank.old (T.table table.now) at.0 }
    ensures copy { IfOk result (IsCellCopy bank.old bank.new (T.table table.now) to) }
    ensures known { IfOk result (λ _. AreCopies bank.old bank.new (T.table table.now) (get nat_eq known.new)) }
    ensures keeps { Extends bank.old bank.new }
{
    match to {
        None => Ok(None),
        Some(at) => {
            let copy = copy_of(alloc, bank, table, known, at)?;
            Ok(Some(copy))
        }
    }
}

/// For each of so many variables, which are all, a place that shows what stands for it with all bindings applied, none where it is
/// unbound. What stands in two terms is shared.
///
/// It takes time and memory for the places that are reached, each of which is passed through once. After a refusal the bank may hold
/// further nodes.
pub fn read_cells<T: Bindings>(
    alloc: Global,
    bank: &mut Bank,
    table: &T,
    count: usize,
) -> Result<Vec<Option<At>>, OutOfMemory>
    requires table { IsTable bank.old (T.table table.now) }
    requires places { BindsPlaces bank.old (T.table table.now) }
    requires count { count ≡ length (T.table table.now).levels }
    ensures cells { IfOk result (λ cells. AreFinal bank.old bank.new (T.table table.now) count cells.items) }
    ensures keeps { Extends bank.old bank.new }
{
    let mut known = HashMap::new(alloc);
    let mut cells = Vec::new(alloc);
    for var in 0..count {
        let to = table.value(var);
        let copy = cell_copy(alloc, bank, table, &mut known, to)?;
        cells.push(copy)?;
    }
    Ok(cells)
}

/// Places of the bank that show what these show with all bindings applied. What does not change is shared, and so is what stands
/// twice.
///
/// It takes time and memory for the places that are reached, each of which is passed through once. After a refusal the bank may hold
/// further nodes.
pub fn read_all<T: Bindings>(
    alloc: Global,
    bank: &mut Bank,
    table: &T,
    places: &[At],
) -> Result<Vec<At>, OutOfMemory>
    requires table { IsTable bank.old (T.table table.now) }
    requires places { All (λ (at : AtView). IsPlaceOf bank.old (T.table table.now) at.0) places.now }
    ensures inside { IfOk result (λ made. AllInTerms bank.new made.items) }
    ensures shows { IfOk result (λ made. term_trees bank.new made.items
        ≡ map (sub (found bank.old (T.table table.now))) (term_trees bank.old places.now)) }
    ensures keeps { Extends bank.old bank.new }
{
    let mut known = HashMap::new(alloc);
    let mut made = Vec::new(alloc);
    for place in places {
        let copy = copy_of(alloc, bank, table, &mut known, *place)?;
        made.push(copy)?;
    }
    Ok(made)
}
