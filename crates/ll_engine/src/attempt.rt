//! One inference of a machine.
ghost use Rattle.std.specs.Prelude.{◌≡◌, ◌<◌, ◌++◌, false, IfOk, OnOk};
ghost use Rattle.std.specs.List.{Contains};
ghost use Rattle.ll_agenda.specs.Frames.{HasTop, ShowsItems, Extends, items_at};
ghost use Rattle.ll_laws.specs.Attempt.{tries};
ghost use Rattle.ll_freeze.specs.Parts.{parts_of, Later};
ghost use Rattle.ll_freeze.specs.Shown.{state_of};
ghost use Rattle.ll_freeze.specs.Fits.{Fits};
ghost use Rattle.ll_bank.specs.Nodes.{form_tree};
ghost use Rattle.ll_laws.specs.declared.Candidate.{Candidate};
ghost use Rattle.ll_engine.specs.Attempts.{Attempts};
ghost use Rattle.ll_engine.specs.Front.{IsGoal, IsClosedGoal, IsSameSearch, hands_on};
ghost use Rattle.ll_engine.specs.Rows.{GoesOn};
ghost use Rattle.ll_engine.specs.Turned.{is_empty};

use crate::connectives::{
    take_bang, take_imp, take_lolli, take_one, take_plus, take_tensor, take_top, take_with,
};
use crate::numbers::{take_is, take_less, take_most};
use crate::quantifiers::{take_exists, take_forall, take_load};
use crate::take::take_leaf;
use ll_agenda::{Agenda, Top};
use ll_bank::{Environment, FormAt, FormNode, OutOfMemory, Values, close_form};
use ll_freeze::{Item, Machine};
use ll_laws::{Candidate, Step};
use std::alloc::Global;

/// Where the goal in front stands: the environment of its free bound places, and the agenda behind it.
#[derive(Clone, Copy)]
pub struct Position {
    pub environment: Environment,
    pub rest: Top,
}

/// One inference: the first goal taken apart by one of its candidates; false where this gives nothing.
///
/// Then the machine can only go back to a mark. After a refusal it is spent.
pub fn attempt(
    machine: &mut Machine<'_>,
    alloc: Global,
    candidate: Candidate,
) -> Result<bool, OutOfMemory>
    requires fits { Fits (parts_of machine.old) }
    requires goal { is_empty (state_of (parts_of machine.old)).agenda ≡ false }
    requires left { 0 < machine.old.left }
    requires candidate { Contains (tries (state_of (parts_of machine.old))) candidate }
    ensures attempts { IfOk result (λ ok. Attempts (parts_of machine.old) candidate (parts_of machine.new) ok) }
    ensures later { IfOk result (λ _. Later machine.old machine.new) }
{
    let Some((item, rest)) = machine.agenda.item(machine.top) else {
        unreachable!()
    };
    let Item::Goal(goal, environment) = item else {
        unreachable!()
    };
    let position = Position { environment, rest };
    match machine.store.bank.form_at(goal) {
        FormNode::One => take_one(machine, position),
        FormNode::Top => take_top(machine, position),
        FormNode::Tensor(first, second) => take_tensor(machine, first, second, position),
        FormNode::Plus(left, right) => take_plus(machine, left, right, position, candidate),
        FormNode::With(first, second) => take_with(machine, first, second, position),
        FormNode::Bang(body) => take_bang(machine, body, position),
        FormNode::Atom(atom) => take_leaf(machine, atom, position, candidate),
        _ => {
            let closed = close_front(machine, goal, position)?;
            take_closed(machine, alloc, closed, rest)
        }
    }
}

/// Takes the goal in front, which has no free bound place and is none of those that hand an environment on, as `attempt` does.
fn take_closed(
    machine: &mut Machine<'_>,
    alloc: Global,
    goal: FormAt,
    rest: Top,
) -> Result<bool, OutOfMemory>
    requires fits { Fits (parts_of machine.old) }
    requires left { 0 < machine.old.left }
    requires front { IsClosedGoal (parts_of machine.old) goal rest }
    requires closes { hands_on (form_tree machine.old.store.bank goal.0) ≡ false }
    ensures attempts { (candidate : Candidate)
        → IfOk result (Attempts (parts_of machine.old) candidate (parts_of machine.new)) }
    ensures later { IfOk result (λ _. Later machine.old machine.new) }
{
    match machine.store.bank.form_at(goal) {
        FormNode::Lolli(clause, body) => take_lolli(machine, clause, body, rest),
        FormNode::Imp(clause, body) => take_imp(machine, clause, body, rest),
        FormNode::Forall(body) => {
            take_forall(machine, body, rest)?;
            Ok(true)
        }
        FormNode::Exists(body) => {
            take_exists(machine, body, rest)?;
            Ok(true)
        }
        FormNode::Use(number, args, body) => {
            let args = Vec::from_slice(alloc, args)?;
            let modules = machine.modules;
            take_load(machine, &modules[number as usize], &args, body, rest)?;
            Ok(true)
        }
        FormNode::Is(target, expression) => take_is(machine, alloc, target, expression, rest),
        FormNode::Less(left, right) => take_less(machine, alloc, left, right, rest),
        FormNode::Most(left, right) => take_most(machine, alloc, left, right, rest),
        _ => unreachable!(),
    }
}

/// Puts the goal in front closed in its own place, with the values of its environment. A goal with no environment stays. After a refusal
/// the bank may have more places.
fn close_front(
    machine: &mut Machine<'_>,
    goal: FormAt,
    position: Position,
) -> Result<FormAt, OutOfMemory>
    requires fits { Fits (parts_of machine.old) }
    requires front { IsGoal (parts_of machine.old) goal position }
    ensures same { IfOk result (λ _. IsSameSearch (parts_of machine.old) (parts_of machine.new)) }
    ensures front { IfOk result (λ closed. IsClosedGoal (parts_of machine.new) closed position.rest) }
    ensures hands { IfOk result (λ closed. hands_on (form_tree machine.new.store.bank closed.0)
        ≡ hands_on (form_tree machine.old.store.bank goal.0)) }
    ensures later { IfOk result (λ _. Later machine.old machine.new) }
{
    if position.environment.count == 0 {
        return Ok(goal);
    }
    let alloc = machine.store.bank.alloc();
    let values = Values::Variables(position.environment);
    let closed = close_form(alloc, &mut machine.store.bank, goal, values)?;
    machine.top = machine.agenda.push(Item::closed(closed), position.rest)?;
    Ok(closed)
}

/// Makes the items in front of the rest the agenda of a machine, and notes one inference. After a refusal the machine is spent.
#[inline(always)]
pub fn go_on(
    machine: &mut Machine<'_>,
    items: &[Item],
    rest: Top,
    step: Step,
) -> Result<(), OutOfMemory>
    requires rest { HasTop machine.old.agenda rest }
    requires left { 0 < machine.old.left }
    ensures goes { OnOk result (GoesOn (parts_of machine.old) items.now (items_at machine.old.agenda rest) step
        (parts_of machine.new)) }
    ensures later { OnOk result (Later machine.old machine.new) }
{
    machine.top = push_all(&mut machine.agenda, items, rest)?;
    machine.steps.reserve(1)?;
    machine.steps.push_reserved(step);
    machine.left -= 1;
    Ok(())
}

// The list of these items in front of another list.
#[inline(always)]
fn push_all(agenda: &mut Agenda<Item>, items: &[Item], rest: Top) -> Result<Top, OutOfMemory>
    requires { HasTop agenda.old rest }
    ensures shows { IfOk result (λ top. ShowsItems agenda.new top (items.now ++ items_at agenda.old rest)) }
    ensures keeps { OnOk result (Extends agenda.old agenda.new) }
{
    let mut top = rest;
    let mut at = items.len();
    while at > 0 {
        at -= 1;
        top = agenda.push(items[at], top)?;
    }
    Ok(top)
}
