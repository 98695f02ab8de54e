//! Whole-number goals.
ghost use Rattle.std.specs.Prelude.{◌≡◌, IfOk, MatchOption, Some, None};
ghost use Rattle.ll_bank.specs.Form.{Is, Less, Most};
ghost use Rattle.ll_bank.specs.Nodes.{term_tree, HasTerm, HasForm};
ghost use Rattle.ll_laws.specs.Line.{NumLine};
ghost use Rattle.ll_laws.specs.Number.{holds, operators_of};
ghost use Rattle.ll_sequent.specs.Named.{MakesBy};
ghost use Rattle.ll_sequent.specs.Numbered.{IsTested};

use crate::plain::{BOUNDED_LEFT, OTHER_FORM};
use crate::sequents::{Sequent, Step};
use ll_bank::{At, Bank, FormNode, Names, OutOfMemory, TermView};
use ll_modules::value;
use std::alloc::Global;

/// The expressions have no value, or the goal does not hold of them.
const OTHER_NUMBERS: u8 = 12;

/// `X is E`, `E < F` and `E =< F`.
pub(crate) fn num(
    alloc: Global,
    bank: &Bank,
    names: &Names,
    sequent: Sequent,
) -> Result<Step, OutOfMemory>
    requires { HasForm bank.now sequent.goal.0 }
    ensures { IfOk result (MakesBy (operators_of names.now) bank.now NumLine sequent) }
{
    match bank.form_at(sequent.goal) {
        FormNode::Is(left, right) => {
            let test = is_value(alloc, bank, names, left, right)?;
            Ok(tested(alloc, sequent, test))
        }
        FormNode::Less(left, right) => {
            let test = is_less(alloc, bank, names, left, right)?;
            Ok(tested(alloc, sequent, test))
        }
        FormNode::Most(left, right) => {
            let test = is_at_most(alloc, bank, names, left, right)?;
            Ok(tested(alloc, sequent, test))
        }
        _ => Ok(Step::Refused(OTHER_FORM)),
    }
}

/// What a test makes of its sequent.
fn tested(alloc: Global, sequent: Sequent, test: bool) -> Step
    ensures { IsTested sequent test result }
{
    if !sequent.bounded.is_empty() {
        return Step::Refused(BOUNDED_LEFT);
    }
    if !test {
        return Step::Refused(OTHER_NUMBERS);
    }
    Step::Leaves(Vec::new(alloc))
}

/// Whether a term is the value of an expression.
fn is_value(
    alloc: Global,
    bank: &Bank,
    names: &Names,
    left: At,
    right: At,
) -> Result<bool, OutOfMemory>
    requires left { HasTerm bank.now left.0 }
    requires right { HasTerm bank.now right.0 }
    ensures { IfOk result (λ test. test ≡ holds (operators_of names.now) Is (term_tree bank.now left.0)
        (term_tree bank.now right.0)) }
{
    let found = value(alloc, bank, names, right)?;
    match bank.term_at(left) {
        TermView::Var(_) => Ok(false),
        TermView::Int(number) => match found {
            Some(other) => Ok(number == other),
            None => Ok(false),
        },
        TermView::App(_, _) => Ok(false),
    }
}

/// Whether the value of one expression is less than that of another.
fn is_less(
    alloc: Global,
    bank: &Bank,
    names: &Names,
    left: At,
    right: At,
) -> Result<bool, OutOfMemory>
    requires left { HasTerm bank.now left.0 }
    requires right { HasTerm bank.now right.0 }
    ensures { IfOk result (λ test. test ≡ holds (operators_of names.now) Less (term_tree bank.now left.0)
        (term_tree bank.now right.0)) }
{
    let first = value(alloc, bank, names, left)?;
    let second = value(alloc, bank, names, right)?;
    match first {
        Some(x) => match second {
            Some(y) => Ok(x < y),
            None => Ok(false),
        },
        None => Ok(false),
    }
}

/// Whether the value of one expression is at most that of another.
fn is_at_most(
    alloc: Global,
    bank: &Bank,
    names: &Names,
    left: At,
    right: At,
) -> Result<bool, OutOfMemory>
    requires left { HasTerm bank.now left.0 }
    requires right { HasTerm bank.now right.0 }
    ensures { IfOk result (λ test. test ≡ holds (operators_of names.now) Most (term_tree bank.now left.0)
        (term_tree bank.now right.0)) }
{
    let first = value(alloc, bank, names, left)?;
    let second = value(alloc, bank, names, right)?;
    match first {
        Some(x) => match second {
            Some(y) => Ok(x <= y),
            None => Ok(false),
        },
        None => Ok(false),
    }
}
