//! Copies of the terms of a derivation.
//!
//! Each place gets one copy, so terms that share places share their copies too.
ghost use Rattle.std.specs.Prelude.{◌≡◌, ◌<◌, ◌≤◌, length, All, IfOk, OnOk, slice_index_or};
ghost use Rattle.ll_bank.specs.Nodes.{term_tree, HasTerm, AllInTerms, ShowsTerm, Extends};
ghost use Rattle.ll_laws.specs.ShownLines.{HasLine, HasLines};
ghost use Rattle.ll_sequent.specs.Copied.{AreCopies, AreBelow, IsLineBelow, copied_places};

use ll_bank::{At, Bank, OutOfMemory, TermView};
use ll_laws::Rule;
use std::alloc::Global;

/// Copies of the terms at the first places of another bank: of those for the query's variables, of those of the nodes, and of all that stand
/// in front of these.
pub(crate) fn copies_of(
    alloc: Global,
    terms: &Bank,
    asked: &[At],
    rules: &[Rule],
    bank: &mut Bank,
) -> Result<Vec<At>, OutOfMemory>
    requires asked { AllInTerms terms.now asked.now }
    requires lines { HasLines terms.now rules.now }
    ensures copies { IfOk result (λ copies. AreCopies terms.now bank.new copies.items) }
    ensures asked { IfOk result (λ copies. AreBelow (length copies.items) asked.now) }
    ensures lines { IfOk result (λ copies. All (IsLineBelow (length copies.items)) rules.now) }
    ensures keeps { Extends bank.old bank.new }
{
    let mut copies = Vec::new(alloc);
    let mut args = Vec::new(alloc);
    copy_all(terms, asked, &mut copies, &mut args, bank)?;
    for i in 0..rules.len() {
        copy_line(terms, &rules[i], &mut copies, &mut args, bank)?;
    }
    Ok(copies)
}

/// Copies the terms of a node that have no copies yet.
fn copy_line(
    terms: &Bank,
    rule: &Rule,
    copies: &mut Vec<At>,
    args: &mut Vec<At>,
    bank: &mut Bank,
) -> Result<(), OutOfMemory>
    requires line { HasLine terms.now rule.now }
    requires copies { AreCopies terms.now bank.old copies.old.items }
    ensures copies { OnOk result (AreCopies terms.now bank.new copies.new.items) }
    ensures reach { OnOk result (IsLineBelow (length copies.new.items) rule.now) }
    ensures more { OnOk result (length copies.old.items ≤ length copies.new.items) }
    ensures keeps { Extends bank.old bank.new }
{
    match rule {
        Rule::Exists(term) => copy_up_to(terms, *term, copies, args, bank),
        Rule::Clause { terms: places, .. } => copy_all(terms, places, copies, args, bank),
        _ => Ok(()),
    }
}

/// Copies the terms at places that have no copies yet.
fn copy_all(
    terms: &Bank,
    places: &[At],
    copies: &mut Vec<At>,
    args: &mut Vec<At>,
    bank: &mut Bank,
) -> Result<(), OutOfMemory>
    requires places { AllInTerms terms.now places.now }
    requires copies { AreCopies terms.now bank.old copies.old.items }
    ensures copies { OnOk result (AreCopies terms.now bank.new copies.new.items) }
    ensures reach { OnOk result (AreBelow (length copies.new.items) places.now) }
    ensures more { OnOk result (length copies.old.items ≤ length copies.new.items) }
    ensures keeps { Extends bank.old bank.new }
{
    for i in 0..places.len() {
        copy_up_to(terms, places[i], copies, args, bank)?;
    }
    Ok(())
}

/// Copies the terms that have no copies yet, up to a place.
fn copy_up_to(
    terms: &Bank,
    last: At,
    copies: &mut Vec<At>,
    args: &mut Vec<At>,
    bank: &mut Bank,
) -> Result<(), OutOfMemory>
    requires last { HasTerm terms.now last.0 }
    requires copies { AreCopies terms.now bank.old copies.old.items }
    ensures copies { OnOk result (AreCopies terms.now bank.new copies.new.items) }
    ensures reach { OnOk result (last.0 < length copies.new.items) }
    ensures more { OnOk result (length copies.old.items ≤ length copies.new.items) }
    ensures keeps { Extends bank.old bank.new }
{
    while copies.len() <= last.0 {
        let copy = copied(terms, At(copies.len()), copies, args, bank)?;
        copies.push(copy)?;
    }
    Ok(())
}

/// A copy of a term whose arguments have theirs. The list is for these.
fn copied(
    terms: &Bank,
    at: At,
    copies: &[At],
    args: &mut Vec<At>,
    bank: &mut Bank,
) -> Result<At, OutOfMemory>
    requires inside { HasTerm terms.now at.0 }
    requires next { at.0 ≤ length copies.now }
    requires copies { AreCopies terms.now bank.old copies.now }
    ensures shows { IfOk result (λ copy. ShowsTerm bank.new copy.0 (term_tree terms.now at.0)) }
    ensures keeps { Extends bank.old bank.new }
{
    match terms.term_at(at) {
        TermView::Var(number) => bank.var(number),
        TermView::Int(value) => bank.int(value),
        TermView::App(head, places) => {
            put_copies(copies, places, args)?;
            bank.app(head, args)
        }
    }
}

/// Makes a list that of the copies at these places.
fn put_copies(copies: &[At], places: &[At], found: &mut Vec<At>) -> Result<(), OutOfMemory>
    requires { AreBelow (length copies.now) places.now }
    ensures { OnOk result (found.new.items ≡ copied_places copies.now places.now) }
{
    found.clear();
    for place in places {
        found.push(copy_at(copies, *place))?;
    }
    Ok(())
}

/// The copies at these places.
pub(crate) fn copies_at(alloc: Global, copies: &[At], places: &[At]) -> Result<Vec<At>, OutOfMemory>
    requires { AreBelow (length copies.now) places.now }
    ensures { IfOk result (λ found. found.items ≡ copied_places copies.now places.now) }
{
    let mut found = Vec::new(alloc);
    put_copies(copies, places, &mut found)?;
    Ok(found)
}

/// The copy of the term at a place.
pub(crate) fn copy_at(copies: &[At], place: At) -> At
    requires { place.0 < length copies.now }
    ensures { result ≡ slice_index_or copies.now place.0 place }
{
    copies[place.0]
}
