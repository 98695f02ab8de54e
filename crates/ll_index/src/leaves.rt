//! The leaves of a program's clauses.
ghost use Rattle.std.specs.Prelude.{◌≡◌, ◌+◌, ◌++◌, ◌∷◌, [], All, map, IfOk, OnOk};
ghost use Rattle.ll_agenda.specs.Frames.{HasTop};
ghost use Rattle.ll_bank.specs.Nodes.{form_tree, HasForm};
ghost use Rattle.ll_laws.specs.Shown.{clause_tree, HasClauses};
ghost use Rattle.ll_index.specs.Standing.{standing_leaves};
ghost use Rattle.ll_index.specs.Listed.{IsStored, listed, numbered, program_leaves};
ghost use Rattle.ll_index.specs.Walks.{IsPart, AddsLeaves, TakesPart, PutsUnder};

use crate::key::in_32_bits;
use ll_agenda::{Agenda, Top};
use ll_bank::{At, Bank, FormAt, FormNode, OutOfMemory};
use ll_laws::{Candidate, Clause, Kind};
use std::alloc::{AllocError, Global};

/// A leaf of a clause of the program.
#[derive(Clone, Copy)]
pub struct Leaf {
    /// The clause's label, which is its place in the program, and the number of the leaf.
    pub candidate: Candidate,
    /// The head as it stands in the clause, under its quantifiers.
    pub head: At,
    /// How many quantifiers are on the way to it.
    pub quantifiers: u32,
    /// Its premises, the one nearest the head first: the top of a list that `Index::premise` reads.
    pub premises: Top,
}

/// A premise of a leaf.
#[derive(Clone, Copy)]
pub struct Premise {
    /// The goal as it stands in the clause.
    pub goal: FormAt,
    /// `Linear` for a bounded one, which `-o` brought, and `Unbounded` for an unbounded one, which `=>` brought.
    pub kind: Kind,
    /// How many of the quantifiers on the way to the leaf stand round it: the outermost ones.
    pub quantifiers: u32,
}

/// A part of a clause that is still to be gone through, with what stands round it.
#[derive(Clone, Copy)]
struct Waiting {
    form: FormAt,
    quantifiers: u32,
    premises: Top,
}

/// The leaves of clauses in order, and the lists of their premises. What leaves share of premises is kept once.
pub(crate) fn leaves_of(
    alloc: Global,
    bank: &Bank,
    clauses: &[Clause],
) -> Result<(Vec<Leaf>, Agenda<Premise>), OutOfMemory>
    requires { HasClauses bank.now clauses.now }
    ensures leaves { IfOk result (λ made. map (listed bank.now made.1) made.0.items
        ≡ program_leaves 0 (map (clause_tree bank.now) clauses.now)) }
    ensures stored { IfOk result (λ made. All (IsStored bank.now made.1) made.0.items) }
{
    let mut walk = Walk {
        waiting: Vec::new(alloc),
        leaves: Vec::new(alloc),
        premises: Agenda::new(alloc),
    };
    for place in 0..clauses.len() {
        let label = in_32_bits(place)?;
        walk.add_clause(bank, clauses[place].form, label)?;
    }
    Ok((walk.leaves, walk.premises))
}

/// A walk through clauses, from left to right.
#[derive(Drop)]
struct Walk {
    // Parts of the clause that are still to be gone through, the next one last.
    waiting: Vec<Waiting>,
    leaves: Vec<Leaf>,
    premises: Agenda<Premise>,
}

impl Walk {
    /// Adds the leaves of a clause.
    fn add_clause(&mut self, bank: &Bank, clause: FormAt, label: u32) -> Result<(), OutOfMemory>
        requires inside { HasForm bank.now clause.0 }
        requires idle { self.old.waiting.items ≡ [] }
        ensures idle { OnOk result (self.new.waiting.items ≡ []) }
        ensures added { OnOk result (AddsLeaves bank.now self.old self.new
            (numbered label 0 (standing_leaves (form_tree bank.now clause.0)))) }
    {
        self.put(clause, 0, Agenda::<Premise>::none())?;
        let mut leaf = 0;
        while let Some(part) = self.waiting.pop() {
            leaf = self.take(bank, label, leaf, part)?;
        }
        Ok(())
    }

    /// Takes a part of a clause apart; the answer is the number of the next leaf.
    fn take(
        &mut self,
        bank: &Bank,
        label: u32,
        leaf: u32,
        part: Waiting,
    ) -> Result<u32, OutOfMemory>
        requires part { IsPart bank.now self.old.premises part }
        requires waiting { All (IsPart bank.now self.old.premises) self.old.waiting.items }
        ensures { IfOk result (λ next. TakesPart bank.now label leaf part self.old self.new next) }
    {
        match bank.form_at(part.form) {
            FormNode::Atom(head) => {
                self.leaves.push(Leaf {
                    candidate: Candidate { label, leaf },
                    head,
                    quantifiers: part.quantifiers,
                    premises: part.premises,
                })?;
                one_more(leaf)
            }
            FormNode::With(left, right) => {
                self.put(right, part.quantifiers, part.premises)?;
                self.put(left, part.quantifiers, part.premises)?;
                Ok(leaf)
            }
            FormNode::Lolli(goal, rest) => {
                self.put_under(part, goal, Kind::Linear, rest)?;
                Ok(leaf)
            }
            FormNode::Imp(goal, rest) => {
                self.put_under(part, goal, Kind::Unbounded, rest)?;
                Ok(leaf)
            }
            FormNode::Forall(rest) => {
                self.put(rest, one_more(part.quantifiers)?, part.premises)?;
                Ok(leaf)
            }
            _ => Ok(leaf),
        }
    }

    /// A part of a clause waits, with what stands round it.
    fn put(&mut self, form: FormAt, quantifiers: u32, premises: Top) -> Result<(), OutOfMemory>
        ensures waiting { OnOk result (self.new.waiting.items ≡ self.old.waiting.items ++ record {
          form = form;
          quantifiers = quantifiers;
          premises = premises;
        } ∷ []) }
        ensures leaves { self.new.leaves ≡ self.old.leaves }
        ensures premises { self.new.premises ≡ self.old.premises }
    {
        self.waiting.push(Waiting {
            form,
            quantifiers,
            premises,
        })?;
        Ok(())
    }

    /// What is left of a part behind a premise.
    fn put_under(
        &mut self,
        part: Waiting,
        goal: FormAt,
        kind: Kind,
        rest: FormAt,
    ) -> Result<(), OutOfMemory>
        requires { HasTop self.old.premises part.premises }
        ensures { OnOk result (PutsUnder part (record {
          goal = goal;
          kind = kind;
          quantifiers = part.quantifiers;
        }) rest self.old self.new) }
    {
        let premise = Premise {
            goal,
            kind,
            quantifiers: part.quantifiers,
        };
        let premises = self.premises.push(premise, part.premises)?;
        self.put(rest, part.quantifiers, premises)
    }
}

/// One more than a number. No clause of a problem has so many leaves or quantifiers that there is none.
fn one_more(number: u32) -> Result<u32, OutOfMemory>
    ensures { IfOk result (λ next. next ≡ number + 1) }
{
    match number.checked_add(1) {
        Some(next) => Ok(next),
        None => Err(AllocError),
    }
}
