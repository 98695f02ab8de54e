//! The rules that open no formula and load no unbounded clause.
ghost use Rattle.std.specs.Prelude.{◌≡◌, [], ◌∷◌, IfOk};
ghost use Rattle.ll_bank.specs.Nodes.{HasForm};
ghost use Rattle.ll_laws.specs.Line.{OneLine, EraseLine, TensorLine, WithLine, LeftLine, RightLine, BangLine};
ghost use Rattle.ll_sequent.specs.Named.{IsLeaving, Makes};

use crate::labels::{deal, part_of};
use crate::sequents::{Sequent, Step};
use ll_bank::{Bank, FormNode, OutOfMemory};
use std::alloc::Global;

/// The rule does not fit the goal.
pub(crate) const OTHER_FORM: u8 = 1;

/// Bounded clauses are left.
pub(crate) const BOUNDED_LEFT: u8 = 2;

/// The sets of labels do not hold each label exactly once, or hold another.
pub(crate) const NOT_DEALT: u8 = 3;

/// `true`.
pub(crate) fn one(alloc: Global, bank: &Bank, sequent: Sequent) -> Step
    requires { HasForm bank.now sequent.goal.0 }
    ensures { Makes bank.now OneLine sequent result }
{
    match bank.form_at(sequent.goal) {
        FormNode::One => {
            if sequent.bounded.is_empty() {
                Step::Leaves(Vec::new(alloc))
            } else {
                Step::Refused(BOUNDED_LEFT)
            }
        }
        _ => Step::Refused(OTHER_FORM),
    }
}

/// `erase`.
pub(crate) fn erase(alloc: Global, bank: &Bank, sequent: Sequent) -> Step
    requires { HasForm bank.now sequent.goal.0 }
    ensures { Makes bank.now EraseLine sequent result }
{
    match bank.form_at(sequent.goal) {
        FormNode::Top => Step::Leaves(Vec::new(alloc)),
        _ => Step::Refused(OTHER_FORM),
    }
}

/// `G , H`.
pub(crate) fn tensor(
    alloc: Global,
    bank: &Bank,
    left: &[u32],
    right: &[u32],
    sequent: Sequent,
) -> Result<Step, OutOfMemory>
    requires { HasForm bank.now sequent.goal.0 }
    ensures { IfOk result (Makes bank.now (TensorLine left.now right.now) sequent) }
{
    match bank.form_at(sequent.goal) {
        FormNode::Tensor(g, h) => {
            if !deal(left, right, &sequent.bounded) {
                return Ok(Step::Refused(NOT_DEALT));
            }
            let first = Sequent {
                free: sequent.free,
                bounded: part_of(alloc, left, &sequent.bounded)?,
                goal: g,
            };
            let second = Sequent {
                free: sequent.free,
                bounded: part_of(alloc, right, &sequent.bounded)?,
                goal: h,
            };
            leave_two(alloc, first, second)
        }
        _ => Ok(Step::Refused(OTHER_FORM)),
    }
}

/// `G & H`.
pub(crate) fn with(alloc: Global, bank: &Bank, sequent: Sequent) -> Result<Step, OutOfMemory>
    requires { HasForm bank.now sequent.goal.0 }
    ensures { IfOk result (Makes bank.now WithLine sequent) }
{
    match bank.form_at(sequent.goal) {
        FormNode::With(g, h) => {
            let first = Sequent {
                free: sequent.free,
                bounded: Vec::from_slice(alloc, &sequent.bounded)?,
                goal: g,
            };
            let second = Sequent { goal: h, ..sequent };
            leave_two(alloc, first, second)
        }
        _ => Ok(Step::Refused(OTHER_FORM)),
    }
}

/// `G ; H` by its left side.
pub(crate) fn left(alloc: Global, bank: &Bank, sequent: Sequent) -> Result<Step, OutOfMemory>
    requires { HasForm bank.now sequent.goal.0 }
    ensures { IfOk result (Makes bank.now LeftLine sequent) }
{
    match bank.form_at(sequent.goal) {
        FormNode::Plus(g, _) => { leave_one(alloc, Sequent { goal: g, ..sequent }) }
        _ => Ok(Step::Refused(OTHER_FORM)),
    }
}

/// `G ; H` by its right side.
pub(crate) fn right(alloc: Global, bank: &Bank, sequent: Sequent) -> Result<Step, OutOfMemory>
    requires { HasForm bank.now sequent.goal.0 }
    ensures { IfOk result (Makes bank.now RightLine sequent) }
{
    match bank.form_at(sequent.goal) {
        FormNode::Plus(_, h) => { leave_one(alloc, Sequent { goal: h, ..sequent }) }
        _ => Ok(Step::Refused(OTHER_FORM)),
    }
}

/// `{G}`.
pub(crate) fn bang(alloc: Global, bank: &Bank, sequent: Sequent) -> Result<Step, OutOfMemory>
    requires { HasForm bank.now sequent.goal.0 }
    ensures { IfOk result (Makes bank.now BangLine sequent) }
{
    match bank.form_at(sequent.goal) {
        FormNode::Bang(g) => {
            if !sequent.bounded.is_empty() {
                return Ok(Step::Refused(BOUNDED_LEFT));
            }
            leave_one(alloc, Sequent { goal: g, ..sequent })
        }
        _ => Ok(Step::Refused(OTHER_FORM)),
    }
}

/// One sequent is left.
pub(crate) fn leave_one(alloc: Global, sequent: Sequent) -> Result<Step, OutOfMemory>
    ensures { IfOk result (IsLeaving (sequent ∷ [])) }
{
    let mut sequents = Vec::new(alloc);
    sequents.push(sequent)?;
    Ok(Step::Leaves(sequents))
}

/// Two sequents are left.
fn leave_two(alloc: Global, first: Sequent, second: Sequent) -> Result<Step, OutOfMemory>
    ensures { IfOk result (IsLeaving (first ∷ second ∷ [])) }
{
    let mut sequents = Vec::new(alloc);
    sequents.push(first)?;
    sequents.push(second)?;
    Ok(Step::Leaves(sequents))
}
