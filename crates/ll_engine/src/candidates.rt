//! The candidates for a goal.
ghost use Rattle.std.specs.Prelude.{◌≡◌, ℕ, ◌+◌, ◌-◌, ◌^◌, ◌≤◌, ◌<◌, ◌++◌, ◌∷◌, [], Some, length, All, IsTrue, IfOk, OnOk};
ghost use Rattle.std.specs.Prelude.{map, flat_map, take, drop, MatchResult};
ghost use Rattle.ll_bank.specs.declared.Head.TheVariants.{Name};
ghost use Rattle.ll_bank.specs.Nodes.{form_tree, HasForm};
ghost use Rattle.ll_bank.specs.Term.{Term, head_of, arity};
ghost use Rattle.ll_unify.specs.Bindings.{IsTable};
ghost use Rattle.ll_store.specs.Tables.{table_of};
ghost use Rattle.ll_laws.specs.Leaf.{ways};
ghost use Rattle.ll_laws.specs.Attempt.{is_open};
ghost use Rattle.ll_resources.specs.Seen.{resource};
ghost use Rattle.ll_index.specs.Context.{AreOfProgram};
ghost use Rattle.ll_index.specs.First.{entry_matches};
ghost use Rattle.ll_freeze.specs.Parts.{parts_of};
ghost use Rattle.ll_freeze.specs.Shown.{state_of};
ghost use Rattle.ll_freeze.specs.Fits.{Fits};
ghost use Rattle.ll_freeze.specs.Indexed.{IsIndexOf};
ghost use Rattle.ll_freeze.specs.Keyed.{AreKeyed};
ghost use Rattle.ll_engine.specs.Front.{HasAtom};
ghost use Rattle.ll_engine.specs.Leaves.{heads, head_tries, open_tries, standing_entry};
ghost use Rattle.ll_engine.specs.Matches.{matches, head_fits, HeadsHaveCells, all_found, shown_context};

use crate::found::Found;
use crate::heads::{Asked, asked_by, can_match, in_32_bits};
use crate::keys::head_key;
use ll_bank::{At, Bank, Environment, FormAt, FormNode, Head, OutOfMemory};
use ll_freeze::{Item, Machine};
use ll_index::Index;
use ll_laws::{Candidate, Kind};
use ll_resources::{Context, Entry};
use ll_store::Store;
use std::alloc::{AllocError, Global};

/// The candidates for the goal in front that can match, in the order in which they are tried; none where no goal is in front.
///
/// Those of loaded entries are found by their keys, those of the program's clauses by the index. A single one takes no memory.
#[inline(always)]
pub fn candidates(machine: &Machine<'_>, index: &Index, alloc: Global) -> Result<Found, OutOfMemory>
    requires fits { Fits (parts_of machine.now) }
    requires index { IsIndexOf machine.now.problem.now index.now }
    ensures { IfOk result (λ found. all_found found ≡ matches (state_of (parts_of machine.now))) }
{
    let Some((item, _)) = machine.agenda.item(machine.top) else {
        return Ok(Found::none(alloc));
    };
    let Item::Goal(goal, environment) = item else {
        return Ok(Found::none(alloc));
    };
    match machine.store.bank.form_at(goal) {
        FormNode::Atom(atom) => atom_candidates(machine, index, alloc, atom, environment),
        FormNode::Plus(_, _) => {
            let mut found = Found::one(alloc, Candidate { label: 0, leaf: 0 });
            found.push(Candidate { label: 0, leaf: 1 })?;
            Ok(found)
        }
        _ => Ok(Found::one(alloc, Candidate { label: 0, leaf: 0 })),
    }
}

/// Whether the goal in front has one candidate, whatever there is: it is neither an atom nor `;`.
pub fn is_sure(machine: &Machine<'_>) -> bool
    requires fits { Fits (parts_of machine.now) }
    ensures { IsTrue result → matches (state_of (parts_of machine.now)) ≡ record { label = 0; leaf = 0 } ∷ [] }
{
    let Some((item, _)) = machine.agenda.item(machine.top) else {
        return false;
    };
    let Item::Goal(goal, _) = item else {
        return false;
    };
    match machine.store.bank.form_at(goal) {
        FormNode::Atom(_) => false,
        FormNode::Plus(_, _) => false,
        _ => true,
    }
}

/// The candidates for the atom in front that can match, in order.
#[inline(always)]
fn atom_candidates(
    machine: &Machine<'_>,
    index: &Index,
    alloc: Global,
    atom: At,
    environment: Environment,
) -> Result<Found, OutOfMemory>
    requires fits { Fits (parts_of machine.now) }
    requires index { IsIndexOf machine.now.problem.now index.now }
    requires front { HasAtom (parts_of machine.now) atom environment }
    ensures { IfOk result (λ found. all_found found ≡ matches (state_of (parts_of machine.now))) }
{
    let mut found = Found::none(alloc);
    let asked = asked_by(&machine.store, environment, atom)?;
    let problem = machine.problem;
    let loaded = machine.context.len() - problem.clauses.len();
    add_newer(machine, alloc, loaded, asked, &mut found)?;
    if let Head::Name(name) = asked.predicate.head {
        add_program(machine, index, loaded, name, asked, &mut found)?;
    }
    Ok(found)
}

/// Adds the candidates among the loaded entries, of which there are so many.
fn add_newer(
    machine: &Machine<'_>,
    alloc: Global,
    loaded: usize,
    asked: Asked,
    found: &mut Found,
) -> Result<(), OutOfMemory>
    requires fits { Fits (parts_of machine.now) }
    requires count { length machine.now.context.present.entries - length machine.now.problem.now.clauses ≡ loaded }
    ensures { OnOk result (all_found found.new
        ≡ all_found found.old ++ flat_map (open_tries (head_fits machine.now.store asked))
        (map (standing_entry machine.now.store.bank) (take loaded machine.now.context.present.entries))) }
{
    if loaded == 0 {
        return Ok(());
    }
    add_loaded(alloc, &machine.store, &machine.context, asked, found)
}

/// Adds the candidates among the loaded entries of a context.
fn add_loaded(
    alloc: Global,
    store: &Store,
    context: &Context<FormAt>,
    asked: Asked,
    found: &mut Found,
) -> Result<(), OutOfMemory>
    requires table { IsTable store.now.bank (table_of store.now.cells.cells) }
    requires inside { All (λ e. HasForm store.now.bank e.clause.0) context.now.present.entries }
    requires cells { All (λ e. HeadsHaveCells store.now e.clause) context.now.present.entries }
    ensures { (count : ℕ) → AreKeyed store.now.bank count context.now.present
        → OnOk result (all_found found.new ≡ all_found found.old ++ flat_map (open_tries (head_fits store.now asked))
        (map (standing_entry store.now.bank)
        (take (length context.now.present.entries - count) context.now.present.entries))) }
{
    let mut waiting = Vec::new(alloc);
    let mut keyed = context.keyed(head_key(asked.predicate.head));
    while let Some((entry, older)) = context.next_keyed(keyed) {
        add_entry(store, asked, entry, &mut waiting, found)?;
        keyed = older;
    }
    Ok(())
}

/// Adds the candidates of an entry. `waiting` is as for `add_leaves`.
#[inline(always)]
fn add_entry(
    store: &Store,
    asked: Asked,
    entry: Entry<FormAt>,
    waiting: &mut Vec<FormAt>,
    found: &mut Found,
) -> Result<(), OutOfMemory>
    requires table { IsTable store.now.bank (table_of store.now.cells.cells) }
    requires inside { HasForm store.now.bank entry.clause.0 }
    requires cells { HeadsHaveCells store.now entry.clause }
    requires none { waiting.old.items ≡ [] }
    ensures found { OnOk result (all_found found.new ≡ all_found found.old
        ++ open_tries (head_fits store.now asked) (standing_entry store.now.bank (resource entry))) }
    ensures none { OnOk result (waiting.new.items ≡ []) }
{
    if !is_open(entry) {
        return Ok(());
    }
    match store.bank.form_at(entry.clause) {
        FormNode::Atom(head) => {
            if can_match(store, asked, head)? {
                found.push(Candidate {
                    label: entry.label,
                    leaf: 0,
                })?;
            }
            Ok(())
        }
        _ => add_leaves(store, asked, entry.label, entry.clause, waiting, found),
    }
}

/// Whether an entry can be picked: an unbounded one, or a linear one that is live.
fn is_open(entry: Entry<FormAt>) -> bool
    ensures { result ≡ is_open (resource entry) }
{
    entry.kind == Kind::Unbounded || entry.live
}

/// Adds the leaves of a clause whose heads can match, from left to right. `waiting` is a list to work with, empty before and after.
fn add_leaves(
    store: &Store,
    asked: Asked,
    label: u32,
    clause: FormAt,
    waiting: &mut Vec<FormAt>,
    found: &mut Found,
) -> Result<(), OutOfMemory>
    requires table { IsTable store.now.bank (table_of store.now.cells.cells) }
    requires inside { HasForm store.now.bank clause.0 }
    requires cells { HeadsHaveCells store.now clause }
    requires none { waiting.old.items ≡ [] }
    ensures found { OnOk result (all_found found.new ≡ all_found found.old
        ++ head_tries (head_fits store.now asked) label 0 (heads (form_tree store.now.bank clause.0))) }
    ensures none { OnOk result (waiting.new.items ≡ []) }
{
    waiting.push(clause)?;
    let mut leaf = 0;
    while let Some(form) = waiting.pop() {
        match store.bank.form_at(form) {
            FormNode::Atom(head) => {
                if can_match(store, asked, head)? {
                    found.push(Candidate { label, leaf })?;
                }
                leaf = next_leaf(leaf)?;
            }
            FormNode::With(left, right) => {
                waiting.push(right)?;
                waiting.push(left)?;
            }
            FormNode::Lolli(_, rest) => waiting.push(rest)?,
            FormNode::Imp(_, rest) => waiting.push(rest)?,
            FormNode::Forall(rest) => waiting.push(rest)?,
            _ => {}
        }
    }
    Ok(())
}

/// Adds the candidates among the program's clauses, whose entries come behind so many loaded ones. Entries that can't be picked are left
/// out.
fn add_program(
    machine: &Machine<'_>,
    index: &Index,
    loaded: usize,
    name: u32,
    asked: Asked,
    found: &mut Found,
) -> Result<(), OutOfMemory>
    requires index { IsIndexOf machine.now.problem.now index.now }
    requires room { length machine.now.context.present.entries < 2 ^ 64 }
    requires program { AreOfProgram 0 machine.now.problem.now.clauses
        (drop loaded (shown_context (parts_of machine.now))) }
    ensures { (atom : Term) → head_of atom ≡ Some (Name name) → arity atom ≡ asked.predicate.arity
        → OnOk result (all_found found.new ≡ all_found found.old
        ++ flat_map (entry_matches asked.first atom) (drop loaded (shown_context (parts_of machine.now)))) }
{
    let arity = in_32_bits(asked.predicate.arity)?;
    let mut cursor = index.candidates(name, arity, asked.first);
    while let Some((leaf, next)) = index.next(cursor) {
        let entry = machine
            .context
            .entry(loaded + leaf.candidate.label as usize);
        if is_open(entry) {
            found.push(leaf.candidate)?;
        }
        cursor = next;
    }
    Ok(())
}

/// The number after that of a leaf. No clause of a problem has so many leaves that there is none.
fn next_leaf(leaf: u32) -> Result<u32, OutOfMemory>
    ensures { MatchResult result (λ next. next ≡ leaf + 1) (λ _. 4294967295 ≤ leaf) }
{
    match leaf.checked_add(1) {
        Some(next) => Ok(next),
        None => Err(AllocError),
    }
}

/// The number of leaves of a clause. It takes memory for the sides of `&` alone.
pub fn count_leaves(alloc: Global, bank: &Bank, clause: FormAt) -> Result<u32, OutOfMemory>
    requires { HasForm bank.now clause.0 }
    ensures { IfOk result (λ count. count ≡ length (ways (form_tree bank.now clause.0))) }
{
    let choice = behind_premises(bank, clause);
    match bank.form_at(choice) {
        FormNode::Atom(_) => Ok(1),
        _ => count_all(alloc, bank, choice),
    }
}

/// What stands behind the first premises and quantifiers of a clause. It has as many leaves.
fn behind_premises(bank: &Bank, clause: FormAt) -> FormAt
    requires { HasForm bank.now clause.0 }
    ensures inside { HasForm bank.now result.0 }
    ensures same { length (ways (form_tree bank.now result.0)) ≡ length (ways (form_tree bank.now clause.0)) }
{
    let mut form = clause;
    'parts: loop {
        match bank.form_at(form) {
            FormNode::Lolli(_, rest) => form = rest,
            FormNode::Imp(_, rest) => form = rest,
            FormNode::Forall(rest) => form = rest,
            _ => return form,
        }
    }
}

/// The number of leaves of a clause, by a walk through all of it.
fn count_all(alloc: Global, bank: &Bank, clause: FormAt) -> Result<u32, OutOfMemory>
    requires { HasForm bank.now clause.0 }
    ensures { IfOk result (λ count. count ≡ length (ways (form_tree bank.now clause.0))) }
{
    let mut waiting = Vec::new(alloc);
    waiting.push(clause)?;
    let mut count = 0;
    while let Some(form) = waiting.pop() {
        match bank.form_at(form) {
            FormNode::Atom(_) => count = next_leaf(count)?,
            FormNode::With(left, right) => {
                waiting.push(right)?;
                waiting.push(left)?;
            }
            FormNode::Lolli(_, rest) => waiting.push(rest)?,
            FormNode::Imp(_, rest) => waiting.push(rest)?,
            FormNode::Forall(rest) => waiting.push(rest)?,
            _ => {}
        }
    }
    Ok(count)
}
