//! Parts of an inference on an atom.
ghost use Rattle.std.specs.Prelude.{◌≡◌, ◌<◌, ◌≤◌, ◌-◌, ℕ, true, ◌++◌, ◌∷◌, [], length, Some, None, IfOk, IfSome, IfNone, OnOk, replicate};
ghost use Rattle.std.specs.List.{Contains};
ghost use Rattle.ll_bank.specs.Term.{app};
ghost use Rattle.ll_bank.specs.Nodes.{term_tree, HasTerm};
ghost use Rattle.ll_unify.specs.Bindings.{IsTable, IsPlaceOf};
ghost use Rattle.ll_unify.specs.Spines.{args_in};
ghost use Rattle.ll_bind.specs.Built.{begins_fixed};
ghost use Rattle.ll_store.specs.Stored.{stored, KeepsMarks};
ghost use Rattle.ll_store.specs.Tables.{table_of};
ghost use Rattle.ll_laws.specs.Attempt.{entry_at, tries};
ghost use Rattle.ll_laws.specs.Unify.{mgu};
ghost use Rattle.ll_freeze.specs.Parts.{parts_of, Later};
ghost use Rattle.ll_freeze.specs.Shown.{state_of};
ghost use Rattle.ll_freeze.specs.Fits.{Fits};
ghost use Rattle.ll_engine.specs.Attempts.{Attempts};
ghost use Rattle.ll_engine.specs.Front.{IsFront, IsAsked};
ghost use Rattle.ll_engine.specs.Taking.{read_in, Unifies};
ghost use Rattle.ll_engine.specs.Placed.{AreAtTheirLabels};
ghost use Rattle.ll_resources.specs.Resources.{after_pick};
ghost use Rattle.ll_resources.specs.Places.{label_place};
ghost use Rattle.ll_resources.specs.History.{KeepsMarks as KeepsContextMarks};
ghost use Rattle.ll_resources.specs.Seen.{resource};

use crate::attempt::Position;
use crate::open::{Leaf, open_leaf};
use ll_agenda::Top;
use ll_bank::{At, Bank, FormAt, FormNode, Head, OutOfMemory, TermView};
use ll_bind::{read_args, unify, unify_args};
use ll_freeze::Machine;
use ll_laws::{Candidate, Step};
use ll_resources::{Context, Entry};
use ll_store::Store;
use std::alloc::Global;

/// The place of the entry with a label, the newest being 0. Those of so many program clauses come last: one of them is found at once, and so is
/// another entry where none has gone that came before it. Else it is found by a walk from the front.
pub fn place_with(context: &Context<FormAt>, clauses: usize, label: u32) -> Option<usize>
    requires { AreAtTheirLabels context.now.present.entries }
    ensures inside { IfSome result (λ place. place < length context.now.present.entries) }
    ensures some { IfSome result (λ place. place ≡ label_place label context.now.present.entries) }
    ensures none { IfNone result (entry_at context.now.present.entries label ≡ None) }
{
    if let Some(place) = clause_place(context, clauses, label) {
        return Some(place);
    }
    if let Some(place) = loaded_place(context, label) {
        return Some(place);
    }
    for from_front in 0..context.len() {
        let entry = context.entry(from_front);
        if entry.label == label {
            return Some(from_front);
        }
    }
    None
}

/// The place of the entry with a label, if it is that of a program clause with this label, of which there are so many.
fn clause_place(context: &Context<FormAt>, clauses: usize, label: u32) -> Option<usize>
    requires { AreAtTheirLabels context.now.present.entries }
    ensures inside { IfSome result (λ place. place < length context.now.present.entries) }
    ensures some { IfSome result (λ place. place ≡ label_place label context.now.present.entries) }
{
    let loaded = context.len().checked_sub(clauses)?;
    let place = loaded.checked_add(label as usize)?;
    if place >= context.len() {
        return None;
    }
    let entry = context.entry(place);
    if entry.label == label {
        return Some(place);
    }
    None
}

/// The place of the entry with a label, if as many entries stand behind it as there are labels before it.
fn loaded_place(context: &Context<FormAt>, label: u32) -> Option<usize>
    requires { AreAtTheirLabels context.now.present.entries }
    ensures inside { IfSome result (λ place. place < length context.now.present.entries) }
    ensures some { IfSome result (λ place. place ≡ label_place label context.now.present.entries) }
{
    let left = context.len().checked_sub(label as usize)?;
    let place = left.checked_sub(1)?;
    let entry = context.entry(place);
    if entry.label == label {
        return Some(place);
    }
    None
}

/// Makes so many variables of a level. After a refusal there may be more of them.
pub fn add_cells(store: &mut Store, level: u32, count: u32) -> Result<(), OutOfMemory>
    ensures cells { OnOk result (store.new.cells.cells
        ≡ store.old.cells.cells ++ replicate count (record { to = None; level = level })) }
    ensures bank { store.new.bank ≡ store.old.bank }
    ensures marks { KeepsMarks (stored store.old) (stored store.new) }
{
    for _ in 0..count {
        store.fresh(level)?;
    }
    Ok(())
}

/// Uses the entry with a label, which is at this place: a live one loses its live mark. After a refusal the context is as before.
fn use_entry(
    context: &mut Context<FormAt>,
    label: u32,
    place: usize,
    entry: Entry<FormAt>,
) -> Result<(), OutOfMemory>
    requires found { entry_at context.old.present.entries label ≡ Some (resource entry) }
    requires place { place ≡ label_place label context.old.present.entries }
    ensures used { OnOk result (context.new.present ≡ after_pick label context.old.present) }
    ensures marks { KeepsContextMarks context.old context.new }
{
    if entry.live {
        context.pick_at(label, place)?;
    }
    Ok(())
}

/// Unifies two terms, read under the bindings that are there; false where they don't unify.
pub fn unify_under(
    alloc: Global,
    store: &mut Store,
    left: At,
    right: At,
) -> Result<bool, OutOfMemory>
    requires table { IsTable store.old.bank (table_of store.old.cells.cells) }
    requires left { IsPlaceOf store.old.bank (table_of store.old.cells.cells) left.0 }
    requires right { IsPlaceOf store.old.bank (table_of store.old.cells.cells) right.0 }
    ensures found { IfOk result (Unifies store.old.bank store.old.bank (table_of store.old.cells.cells)
        (table_of store.new.cells.cells) (mgu (read_in store.old left ∷ []) (read_in store.old right ∷ [])
        (table_of store.old.cells.cells).levels)) }
    ensures bank { store.new.bank ≡ store.old.bank }
    ensures marks { KeepsMarks (stored store.old) (stored store.new) }
{
    let answer = unify(alloc, store, &[left], &[right])?;
    Ok(answer)
}

/// Takes the leaf that a candidate names for the atom in front of the agenda.
///
/// False where its head and the atom don't unify. Then the machine can only go back to a mark. After a refusal it is spent.
pub fn take_leaf(
    machine: &mut Machine<'_>,
    atom: At,
    position: Position,
    candidate: Candidate,
) -> Result<bool, OutOfMemory>
    requires fits { Fits (parts_of machine.old) }
    requires left { 0 < machine.old.left }
    requires front { IsFront (parts_of machine.old) (FormNode.Atom atom) position }
    requires candidate { Contains (tries (state_of (parts_of machine.old))) candidate }
    ensures attempts { IfOk result (Attempts (parts_of machine.old) candidate (parts_of machine.new)) }
    ensures later { IfOk result (λ _. Later machine.old machine.new) }
{
    let problem = machine.problem;
    let clauses = problem.clauses.len();
    let Some(place) = place_with(&machine.context, clauses, candidate.label) else {
        return Ok(false);
    };
    let sign = sign_of_atom(&machine.store.bank, atom);
    let environment = position.environment;
    read_args(&mut machine.store, environment, atom, &mut machine.args)?;
    take_leaf_of(machine, sign, position, candidate, place)
}

/// The sign that an atom begins with.
#[inline]
fn sign_of_atom(bank: &Bank, atom: At) -> Head
    requires inside { HasTerm bank.now atom.0 }
    requires begins { begins_fixed (term_tree bank.now atom.0) ≡ true }
    ensures { term_tree bank.now atom.0 ≡ app result (args_in (term_tree bank.now atom.0)) }
{
    match bank.term_at(atom) {
        TermView::App(head, _) => head,
        TermView::Var(_) => unreachable!(),
        TermView::Int(_) => unreachable!(),
    }
}

/// Takes a leaf of the entry at a place for the atom in front, whose arguments have their places, as `take_leaf` does.
fn take_leaf_of(
    machine: &mut Machine<'_>,
    sign: Head,
    position: Position,
    candidate: Candidate,
    place: usize,
) -> Result<bool, OutOfMemory>
    requires fits { Fits (parts_of machine.old) }
    requires left { 0 < machine.old.left }
    requires front { IsAsked (parts_of machine.old) sign machine.old.args.items position }
    requires inside { place < length machine.old.context.present.entries }
    requires place { place ≡ label_place candidate.label machine.old.context.present.entries }
    requires candidate { Contains (tries (state_of (parts_of machine.old))) candidate }
    ensures attempts { IfOk result (Attempts (parts_of machine.old) candidate (parts_of machine.new)) }
    ensures later { IfOk result (λ _. Later machine.old machine.new) }
{
    let entry = machine.context.entry(place);
    let label = candidate.label;
    let leaf = candidate.leaf;
    let opened = open_leaf(
        &mut machine.store.bank,
        &mut machine.agenda,
        &mut machine.terms,
        Leaf {
            clause: entry.clause,
            number: leaf,
        },
        position.rest,
    )?;
    let own = opened.environment;
    add_cells(&mut machine.store, machine.eigens, own.count)?;
    if !unify_args(&mut machine.store, own, sign, &machine.args, opened.head)? {
        return Ok(false);
    }
    use_entry(&mut machine.context, label, place, entry)?;
    machine.steps.reserve(1)?;
    machine.steps.push_reserved(Step::Clause { label, leaf });
    machine.top = opened.top;
    machine.left -= 1;
    Ok(true)
}
