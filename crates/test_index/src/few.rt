//! Names with few leaves and with several numbers of arguments, for which look-ups find what a walk through all clauses finds.
ghost use Rattle.std.specs.Prelude.{OnOk};
ghost use Rattle.ll_laws.specs.Shown.{HasClauses};

use crate::table::{clash, looked_up, term_of};
use ll_bank::{Bank, FormNode, Head, OutOfMemory};
use ll_index::{First, Index};
use ll_laws::{Clause, Kind};
use std::alloc::Global;
use std::test::Fail;

const CLAUSES: u32 = 36;

// So many leaves a name has; what is left is the last name's.
fn leaves_of(name: u32) -> u32 {
    match name {
        0 => 3,
        1 => 7,
        2 => 8,
        _ => 9,
    }
}

// The name of a clause's head.
fn name_of(label: u32) -> u32 {
    let name = label % 4;
    if label / 4 < leaves_of(name) { name } else { 4 }
}

// How many arguments it has: the fourth name's have one and two in turn, the last name's have none.
fn arity_of(label: u32) -> u32 {
    match name_of(label) {
        3 => 1 + label / 4 % 2,
        4 => 0,
        _ => 1,
    }
}

// The sign of the first argument of a clause's head.
fn first_of(label: u32) -> First {
    match label / 4 % 4 {
        _ if arity_of(label) == 0 => First::Open,
        0 => First::Int(1),
        1 => First::Head(6, 0),
        2 => First::Open,
        _ => First::Int(2),
    }
}

// Adds the clause with this label, a fact.
fn add_clause(bank: &mut Bank, clauses: &mut Vec<Clause>, label: u32) -> Result<(), OutOfMemory>
    requires { HasClauses bank.old clauses.old.items }
    ensures { OnOk result (HasClauses bank.new clauses.new.items) }
{
    let argument = term_of(bank, first_of(label))?;
    let head = Head::Name(name_of(label));
    let atom = match arity_of(label) {
        0 => bank.app(head, &[])?,
        1 => bank.app(head, &[argument])?,
        _ => bank.app(head, &[argument, argument])?,
    };
    let fact = bank.form(FormNode::Atom(atom))?;
    let form = bank.form(FormNode::Forall(fact))?;
    clauses.push(Clause {
        kind: Kind::Unbounded,
        form,
    })?;
    Ok(())
}

// The index of all clauses.
fn index_of_all(alloc: Global) -> Result<Index, OutOfMemory> {
    let mut bank = Bank::new(alloc);
    let mut clauses = Vec::new(alloc);
    for label in 0..CLAUSES {
        add_clause(&mut bank, &mut clauses, label)?;
    }
    Index::over(alloc, &bank, &clauses)
}

// The labels of the clauses that match, by a walk through all of them.
fn walked(alloc: Global, name: u32, arity: u32, first: First) -> Result<Vec<u32>, OutOfMemory> {
    let mut found = Vec::new(alloc);
    for label in 0..CLAUSES {
        if name_of(label) == name && arity_of(label) == arity && !clash(first, first_of(label)) {
            found.push(label)?;
        }
    }
    Ok(found)
}

#[test]
fn finds_what_a_walk_finds(rt: HostRuntime) -> Result<(), Fail> {
    let alloc = rt.alloc();
    let index = index_of_all(alloc)?;
    for name in [0, 1, 2, 3, 4, 5, 4_294_967_295] {
        for arity in 0..4 {
            for first in [
                First::Open,
                First::Int(1),
                First::Int(2),
                First::Int(99),
                First::Head(6, 0),
                First::Head(6, 1),
            ] {
                let walked = walked(alloc, name, arity, first)?;
                let looked_up = looked_up(alloc, &index, name, arity, first)?;
                assert_eq!(rt;
                    looked_up.as_slice(),
                    walked.as_slice(),
                    "name {name}, {arity} arguments"
                );
            }
        }
    }
    Ok(())
}

#[test]
fn finds_so_many(rt: HostRuntime) -> Result<(), Fail> {
    let alloc = rt.alloc();
    let index = index_of_all(alloc)?;
    assert_eq!(rt; looked_up(alloc, &index, 0, 1, First::Open)?.len(), 3);
    assert_eq!(rt; looked_up(alloc, &index, 1, 1, First::Int(1))?.len(), 4);
    assert_eq!(rt; looked_up(alloc, &index, 2, 1, First::Int(1))?.len(), 4);
    assert_eq!(rt; looked_up(alloc, &index, 3, 2, First::Int(1))?.len(), 0);
    assert_eq!(rt; looked_up(alloc, &index, 3, 1, First::Int(1))?.len(), 5);
    assert_eq!(rt; looked_up(alloc, &index, 4, 0, First::Open)?.len(), 9);
    assert_eq!(rt; looked_up(alloc, &index, 5, 1, First::Open)?.len(), 0);
    Ok(())
}
