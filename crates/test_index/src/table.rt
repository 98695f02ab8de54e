//! 100,000 clauses, in which look-ups find what a walk through all of them finds.
ghost use Rattle.std.specs.Prelude.{◌≡◌, ◌≤◌, length, IfOk, OnOk};
ghost use Rattle.ll_bank.specs.Nodes.{HasTerm};
ghost use Rattle.ll_laws.specs.Shown.{HasClauses};

use ll_bank::{At, Bank, FormNode, Head, OutOfMemory};
use ll_index::{First, Index};
use ll_laws::{Clause, Kind};
use std::alloc::Global;
use std::test::Fail;

const CLAUSES: u32 = 100_000;

// So many names have clauses, and the first arguments of their heads so many signs.
const NAMES: u32 = 7;

const SIGNS: u32 = 13;

// The name of a clause's head.
fn name_of(label: u32) -> u32 {
    label % NAMES
}

// The sign of the first argument of a clause's head.
fn first_of(label: u32) -> First {
    let sign = label / NAMES % SIGNS;
    if sign == 0 {
        First::Open
    } else if sign < 5 {
        First::Int(sign as i64)
    } else {
        First::Head(sign, 0)
    }
}

// A term with this sign, under one quantifier.
pub(crate) fn term_of(bank: &mut Bank, first: First) -> Result<At, OutOfMemory>
    ensures inside { IfOk result (λ at. HasTerm bank.new at.0) }
    ensures forms { length bank.old.forms ≤ length bank.new.forms }
{
    match first {
        First::Open => bank.app(Head::Bound(0), &[]),
        First::Int(value) => bank.int(value),
        First::Head(name, _) => bank.app(Head::Name(name), &[]),
    }
}

// Adds the clause with this label, a fact with one argument.
fn add_clause(bank: &mut Bank, clauses: &mut Vec<Clause>, label: u32) -> Result<(), OutOfMemory>
    requires { HasClauses bank.old clauses.old.items }
    ensures { OnOk result (HasClauses bank.new clauses.new.items) }
{
    let argument = term_of(bank, first_of(label))?;
    let atom = bank.app(Head::Name(name_of(label)), &[argument])?;
    let fact = bank.form(FormNode::Atom(atom))?;
    let form = bank.form(FormNode::Forall(fact))?;
    clauses.push(Clause {
        kind: Kind::Unbounded,
        form,
    })?;
    Ok(())
}

// The index of all clauses. It can be sent to threads, and shared between them.
fn index_of_all(alloc: Global) -> Result<Index, OutOfMemory> {
    let mut bank = Bank::new(alloc);
    let mut clauses = Vec::new(alloc);
    for label in 0..CLAUSES {
        add_clause(&mut bank, &mut clauses, label)?;
    }
    let index = Index::over(alloc, &bank, &clauses)?;
    Ok(shared(index))
}

// A value that can be sent to threads and shared between them.
fn shared<T: Send + Sync>(value: T) -> T {
    value
}

// Whether no term has both signs.
pub(crate) fn clash(first: First, other: First) -> bool {
    first != First::Open && other != First::Open && first != other
}

// The labels of the clauses that match, by a walk through all of them.
fn walked(alloc: Global, name: u32, first: First) -> Result<Vec<u32>, OutOfMemory> {
    let mut found = Vec::new(alloc);
    for label in 0..CLAUSES {
        if name_of(label) == name && !clash(first, first_of(label)) {
            found.push(label)?;
        }
    }
    Ok(found)
}

// The labels of the clauses that match, by the index.
pub(crate) fn looked_up(
    alloc: Global,
    index: &Index,
    name: u32,
    arity: u32,
    first: First,
) -> Result<Vec<u32>, OutOfMemory> {
    let mut found = Vec::new(alloc);
    let mut cursor = index.candidates(name, arity, first);
    for _ in 0..CLAUSES {
        let Some((leaf, next)) = index.next(cursor) else {
            return Ok(found);
        };
        found.push(leaf.candidate.label)?;
        cursor = next;
    }
    Ok(found)
}

#[test]
fn finds_what_a_walk_finds(rt: HostRuntime) -> Result<(), Fail> {
    let alloc = rt.alloc();
    let index = index_of_all(alloc)?;
    for name in 0..NAMES + 1 {
        for first in [
            First::Open,
            First::Int(3),
            First::Int(99),
            First::Head(6, 0),
            First::Head(6, 1),
        ] {
            let walked = walked(alloc, name, first)?;
            let looked_up = looked_up(alloc, &index, name, 1, first)?;
            assert_eq!(rt; looked_up.as_slice(), walked.as_slice(), "name {name}");
        }
    }
    Ok(())
}

#[test]
fn finds_so_many(rt: HostRuntime) -> Result<(), Fail> {
    let alloc = rt.alloc();
    let index = index_of_all(alloc)?;
    assert_eq!(rt; looked_up(alloc, &index, 0, 1, First::Open)?.len(), 14_286);
    assert_eq!(rt; looked_up(alloc, &index, 0, 1, First::Int(3))?.len(), 2_198);
    assert_eq!(rt;
        looked_up(alloc, &index, 6, 1, First::Int(99))?.len(),
        1_099
    );
    assert_eq!(rt; looked_up(alloc, &index, 7, 1, First::Open)?.len(), 0);
    Ok(())
}
