//! The values of expressions.
ghost use Rattle.std.specs.Prelude.{◌≡◌, ◌++◌, ◌∷◌, [], ◌*◌, IfOk, OnOk, length};
ghost use Rattle.std.specs.Ordering.{nat_cmp};
ghost use Rattle.std.specs.BTreeMap.{get};
ghost use Rattle.ll_bank.specs.Term.{Con};
ghost use Rattle.ll_bank.specs.Nodes.{Nodes, term_tree, HasTerm};
ghost use Rattle.ll_bank.specs.Opened.{term_size};
ghost use Rattle.ll_laws.specs.Output.{name_text};
ghost use Rattle.ll_laws.specs.Number.{Operators, operated, exactly, operator_spelled, operator_of, operators_of, value_of};
ghost use Rattle.ll_modules.specs.Values.{shown_operator, seen_operator, AreInside, AreNoted, AreKnown, IsNoting, IsStep};

use ll_bank::{At, Bank, Head, Names, OutOfMemory, TermView};
use std::alloc::Global;
use std::collections::BTreeMap;

/// What an expression does with two whole numbers.
#[derive(Clone, Copy)]
enum Operator {
    Sum,
    Difference,
    Product,
}

/// What stands round the part that is being evaluated.
#[derive(Clone, Copy)]
enum Frame {
    /// An operator whose left side is being evaluated, with its right side.
    Left(Operator, At),
    /// An operator whose right side is being evaluated, with the left one's value.
    Right(Operator, i64),
    /// The value is that of the term at this place, and is to be noted.
    Note(At),
}

/// What is next: to evaluate an expression, or to go on with a value, if there is one.
#[derive(Clone, Copy)]
enum Todo {
    Enter(At),
    Leave(Option<i64>),
}

/// The value of an expression, or none where it has none.
///
/// The operators round the part that is being evaluated are kept in memory, not on the call stack. A part that is shared is evaluated
/// once. Nothing wraps: a part whose exact result does not fit in 64 bits has no value.
pub fn value(alloc: Global, bank: &Bank, names: &Names, at: At) -> Result<Option<i64>, OutOfMemory>
    requires { HasTerm bank.now at.0 }
    ensures { IfOk result (λ found. found ≡ value_of (operators_of names.now) (term_tree bank.now at.0)) }
{
    let mut frames = Vec::new(alloc);
    let mut known = BTreeMap::new(alloc);
    let mut todo = Todo::Enter(at);
    loop {
        match todo {
            Todo::Enter(at) => {
                todo = enter(bank, names, at, &known, &mut frames)?;
            }
            Todo::Leave(value) => {
                let Some(frame) = frames.pop() else {
                    return Ok(value);
                };
                todo = leave(frame, value, &mut known, &mut frames)?;
            }
        }
    }
}

/// The first step of evaluating an expression: its value, if it is known, or else an operator comes behind those round it, and its left
/// side is next.
fn enter(
    bank: &Bank,
    names: &Names,
    at: At,
    known: &BTreeMap<usize, i64>,
    frames: &mut Vec<Frame>,
) -> Result<Todo, OutOfMemory>
    requires place { HasTerm bank.now at.0 }
    requires frames { AreInside bank.now frames.old.items }
    requires known { AreKnown (operators_of names.now) bank.now (get nat_cmp known.now) }
    ensures { IfOk result (IsStep (operators_of names.now) bank.now frames.old.items
        (value_of (operators_of names.now) (term_tree bank.now at.0))
        (2 * term_size (term_tree bank.now at.0)) frames.new.items) }
{
    match bank.term_at(at) {
        TermView::Var(_) => Ok(Todo::Leave(None)),
        TermView::Int(number) => Ok(Todo::Leave(Some(number))),
        TermView::App(head, args) => {
            if args.len() != 2 {
                return Ok(Todo::Leave(None));
            }
            if let Some(value) = known.get(&at.0).copied() {
                return Ok(Todo::Leave(Some(value)));
            }
            match operator_at(names, head) {
                Some(operator) => {
                    note(at, frames)?;
                    frames.push(Frame::Left(operator, args[1]))?;
                    Ok(Todo::Enter(args[0]))
                }
                None => Ok(Todo::Leave(None)),
            }
        }
    }
}

/// Wants the value of a term noted, unless nothing stands round it.
fn note(at: At, frames: &mut Vec<Frame>) -> Result<(), OutOfMemory>
    ensures { OnOk result (IsNoting at frames.old.items frames.new.items) }
{
    if !frames.is_empty() {
        frames.push(Frame::Note(at))?;
    }
    Ok(())
}

/// The step from the value of one side of an operator: to its right side, or to its own value.
fn leave(
    frame: Frame,
    value: Option<i64>,
    known: &mut BTreeMap<usize, i64>,
    frames: &mut Vec<Frame>,
) -> Result<Todo, OutOfMemory>
    ensures known { OnOk result ((ops : Operators) → (bank : Nodes)
        → AreNoted ops bank (frames.old.items ++ frame ∷ []) value → AreKnown ops bank (get nat_cmp known.old)
        → AreKnown ops bank (get nat_cmp known.new)) }
    ensures step { IfOk result (λ todo. (ops : Operators) → (bank : Nodes)
        → AreInside bank (frames.old.items ++ frame ∷ [])
        → IsStep ops bank (frames.old.items ++ frame ∷ []) value 0 frames.new.items todo) }
{
    let Some(number) = value else {
        return Ok(Todo::Leave(None));
    };
    match frame {
        Frame::Left(operator, right) => {
            frames.push(Frame::Right(operator, number))?;
            Ok(Todo::Enter(right))
        }
        Frame::Right(operator, left) => Ok(Todo::Leave(operate(operator, left, number))),
        Frame::Note(at) => {
            known.insert(at.0, number)?;
            Ok(Todo::Leave(value))
        }
    }
}

/// What an operator makes of two numbers, where the result has 64 bits.
fn operate(operator: Operator, left: i64, right: i64) -> Option<i64>
    ensures { result ≡ exactly (operated (shown_operator operator) left right) }
{
    match operator {
        Operator::Sum => left.checked_add(right),
        Operator::Difference => left.checked_sub(right),
        Operator::Product => left.checked_mul(right),
    }
}

/// The operator of a head.
fn operator_at(names: &Names, head: Head) -> Option<Operator>
    ensures { seen_operator result ≡ operator_of (operators_of names.now) (Con head) }
{
    match head {
        Head::Name(number) => spelled(name_of(names, number)),
        Head::Eigen(_) => None,
        Head::Bound(_) => None,
    }
}

/// The operator that is spelled so.
fn spelled(text: &str) -> Option<Operator>
    ensures { seen_operator result ≡ operator_spelled text.now }
{
    if text == "+" {
        Some(Operator::Sum)
    } else if text == "-" {
        Some(Operator::Difference)
    } else if text == "*" {
        Some(Operator::Product)
    } else {
        None
    }
}

/// The text of a name, or none where its number has none.
fn name_of(names: &Names, number: u32) -> &str
    ensures { result.now ≡ name_text names.now number }
{
    if (number as usize) < names.len() {
        names.text(number)
    } else {
        ""
    }
}
