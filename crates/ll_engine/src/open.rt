//! Leaves of clauses, opened with new variables.
ghost use Rattle.std.specs.Prelude.{◌≡◌, ◌<◌, ◌≤◌, ◌-◌, length, IfOk, OnOk};
ghost use Rattle.ll_bank.specs.Nodes.{term_trees, form_tree, HasForm, AllInTerms, Extends};
ghost use Rattle.ll_agenda.specs.Frames.{HasTop, items_at, Extends as ExtendsFrames};
ghost use Rattle.ll_laws.specs.Leaf.{ways};
ghost use Rattle.ll_laws.specs.Attempt.{vars_from};
ghost use Rattle.ll_engine.specs.Opening.{IsClause, Opens, IsSide, Appends};

use crate::candidates::count_leaves;
use crate::heads::in_32_bits;
use ll_agenda::{Agenda, Top};
use ll_bank::{At, Bank, Environment, FormAt, FormNode, OutOfMemory};
use ll_freeze::Item;
use std::alloc::Global;

/// A leaf that is open: its head, the environment of the head's bound places, and the agenda with its premises in front.
#[derive(Clone, Copy)]
pub struct Opened {
    pub head: At,
    pub environment: Environment,
    pub top: Top,
}

/// A leaf of a clause, by its number.
#[derive(Clone, Copy)]
pub struct Leaf {
    pub clause: FormAt,
    pub number: u32,
}

/// One side of a clause, and the number of a leaf there.
#[derive(Clone, Copy)]
pub struct Side {
    pub form: FormAt,
    pub leaf: u32,
}

/// Opens a leaf of a clause: new variables come behind `terms` for the quantifiers on its way, the outermost first, and its premises
/// come in front of the agenda, the nearest to its head first. They are shared with the clause. After a refusal the
/// agenda and the variables may have grown.
pub fn open_leaf(
    bank: &mut Bank,
    agenda: &mut Agenda<Item>,
    terms: &mut Vec<At>,
    leaf: Leaf,
    rest: Top,
) -> Result<Opened, OutOfMemory>
    requires inside { HasForm bank.old leaf.clause.0 }
    requires clause { IsClause (form_tree bank.old leaf.clause.0) }
    requires among { leaf.number < length (ways (form_tree bank.old leaf.clause.0)) }
    requires top { HasTop agenda.old rest }
    requires terms { AllInTerms bank.old terms.old.items }
    requires variables { term_trees bank.old terms.old.items ≡ vars_from 0 (length terms.old.items) }
    ensures opened { IfOk result (λ found. Opens bank.old (items_at agenda.old rest)
        (length terms.old.items) leaf.clause.0 leaf.number bank.new agenda.new terms.new.items found.head found.environment found.top) }
    ensures keeps { Extends bank.old bank.new }
    ensures frames { OnOk result (ExtendsFrames agenda.old agenda.new) }
    ensures more { OnOk result (Appends terms.old.items terms.new.items) }
{
    let alloc = bank.alloc();
    let from = terms.len();
    let mut form = leaf.clause;
    let mut number = leaf.number;
    let mut top = rest;
    loop {
        match bank.form_at(form) {
            FormNode::Atom(atom) => {
                let environment = variables_from(terms, from)?;
                return Ok(Opened {
                    head: atom,
                    environment,
                    top,
                });
            }
            FormNode::With(left, right) => {
                let side = side_of(alloc, bank, left, right, number)?;
                form = side.form;
                number = side.leaf;
            }
            FormNode::Lolli(premise, next) => {
                let environment = variables_from(terms, from)?;
                top = agenda.push(Item::Goal(premise, environment), top)?;
                form = next;
            }
            FormNode::Imp(premise, next) => {
                let environment = variables_from(terms, from)?;
                let free = bank.form(FormNode::Bang(premise))?;
                top = agenda.push(Item::Goal(free, environment), top)?;
                form = next;
            }
            FormNode::Forall(body) => {
                let variable = bank.var(terms.len() as u64)?;
                terms.push(variable)?;
                form = body;
            }
            _ => unreachable!(),
        }
    }
}

/// The variables from a number on, of which these are places. Where there are more than a `u32` counts it answers that memory ran out.
#[inline]
fn variables_from(terms: &[At], from: usize) -> Result<Environment, OutOfMemory>
    requires { from ≤ length terms.now }
    ensures end { IfOk result (λ made. made.end ≡ length terms.now) }
    ensures count { IfOk result (λ made. made.count ≡ length terms.now - from) }
{
    let end = in_32_bits(terms.len())?;
    let count = in_32_bits(terms.len() - from)?;
    Ok(Environment { end, count })
}

/// The side of `&` on which a leaf is, and its number there.
fn side_of(
    alloc: Global,
    bank: &Bank,
    left: FormAt,
    right: FormAt,
    leaf: u32,
) -> Result<Side, OutOfMemory>
    requires { HasForm bank.now left.0 }
    ensures { IfOk result (IsSide (ways (form_tree bank.now left.0)) left right leaf) }
{
    let count = count_leaves(alloc, bank, left)?;
    if leaf < count {
        Ok(Side { form: left, leaf })
    } else {
        Ok(Side {
            form: right,
            leaf: leaf - count,
        })
    }
}
