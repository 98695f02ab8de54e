//! Inferences on connectives. Each takes the goal in front of the agenda apart.
//!
//! The answer is true, as each of these goals gives a state. After a refusal the machine is spent.
ghost use Rattle.std.specs.Prelude.{◌<◌, IfOk};
ghost use Rattle.ll_laws.specs.declared.Candidate.{Candidate};
ghost use Rattle.ll_freeze.specs.Parts.{parts_of, Later};
ghost use Rattle.ll_freeze.specs.Fits.{Fits};
ghost use Rattle.ll_engine.specs.Attempts.{Attempts};
ghost use Rattle.ll_engine.specs.Front.{IsFront, IsClosedFront};

use crate::attempt::{Position, go_on};
use crate::keys::key_of;
use ll_agenda::Top;
use ll_bank::{FormAt, FormNode, OutOfMemory};
use ll_freeze::{Item, Machine};
use ll_laws::{Candidate, Kind, Step};

/// Takes `true`: the goal goes.
pub fn take_one(machine: &mut Machine<'_>, position: Position) -> Result<bool, OutOfMemory>
    requires fits { Fits (parts_of machine.old) }
    requires left { 0 < machine.old.left }
    requires front { IsFront (parts_of machine.old) FormNode.One position }
    ensures attempts { (candidate : Candidate)
        → IfOk result (Attempts (parts_of machine.old) candidate (parts_of machine.new)) }
    ensures later { IfOk result (λ _. Later machine.old machine.new) }
{
    go_on(machine, &[], position.rest, Step::Plain)?;
    Ok(true)
}

/// Takes `erase`: the goal goes, and what is left may be left.
pub fn take_top(machine: &mut Machine<'_>, position: Position) -> Result<bool, OutOfMemory>
    requires fits { Fits (parts_of machine.old) }
    requires left { 0 < machine.old.left }
    requires front { IsFront (parts_of machine.old) FormNode.Top position }
    ensures attempts { (candidate : Candidate)
        → IfOk result (Attempts (parts_of machine.old) candidate (parts_of machine.new)) }
    ensures later { IfOk result (λ _. Later machine.old machine.new) }
{
    machine.context.erase()?;
    go_on(machine, &[], position.rest, Step::Plain)?;
    Ok(true)
}

/// Takes `first , second`: both come in front.
pub fn take_tensor(
    machine: &mut Machine<'_>,
    first: FormAt,
    second: FormAt,
    position: Position,
) -> Result<bool, OutOfMemory>
    requires fits { Fits (parts_of machine.old) }
    requires left { 0 < machine.old.left }
    requires front { IsFront (parts_of machine.old) (FormNode.Tensor first second) position }
    ensures attempts { (candidate : Candidate)
        → IfOk result (Attempts (parts_of machine.old) candidate (parts_of machine.new)) }
    ensures later { IfOk result (λ _. Later machine.old machine.new) }
{
    let items = [
        Item::Goal(first, position.environment),
        Item::Goal(second, position.environment),
    ];
    go_on(machine, &items, position.rest, Step::Plain)?;
    Ok(true)
}

/// Takes `left ; right`: the side that the candidate names comes in front.
pub fn take_plus(
    machine: &mut Machine<'_>,
    left: FormAt,
    right: FormAt,
    position: Position,
    candidate: Candidate,
) -> Result<bool, OutOfMemory>
    requires fits { Fits (parts_of machine.old) }
    requires left { 0 < machine.old.left }
    requires front { IsFront (parts_of machine.old) (FormNode.Plus left right) position }
    ensures attempts { IfOk result (Attempts (parts_of machine.old) candidate (parts_of machine.new)) }
    ensures later { IfOk result (λ _. Later machine.old machine.new) }
{
    if candidate.leaf == 0 {
        go_on(
            machine,
            &[Item::Goal(left, position.environment)],
            position.rest,
            Step::Left,
        )?;
        return Ok(true);
    }
    go_on(
        machine,
        &[Item::Goal(right, position.environment)],
        position.rest,
        Step::Right,
    )?;
    Ok(true)
}

/// Takes `first & second`: both come in front, with the resources from before for each.
pub fn take_with(
    machine: &mut Machine<'_>,
    first: FormAt,
    second: FormAt,
    position: Position,
) -> Result<bool, OutOfMemory>
    requires fits { Fits (parts_of machine.old) }
    requires left { 0 < machine.old.left }
    requires front { IsFront (parts_of machine.old) (FormNode.With first second) position }
    ensures attempts { (candidate : Candidate)
        → IfOk result (Attempts (parts_of machine.old) candidate (parts_of machine.new)) }
    ensures later { IfOk result (λ _. Later machine.old machine.new) }
{
    let saved = machine.context.save()?;
    let items = [
        Item::Goal(first, position.environment),
        Item::Mid(saved),
        Item::Goal(second, position.environment),
        Item::WithEnd(saved, saved),
    ];
    go_on(machine, &items, position.rest, Step::Plain)?;
    Ok(true)
}

/// Takes `{ body }`: it comes in front, with no live entry.
pub fn take_bang(
    machine: &mut Machine<'_>,
    body: FormAt,
    position: Position,
) -> Result<bool, OutOfMemory>
    requires fits { Fits (parts_of machine.old) }
    requires left { 0 < machine.old.left }
    requires front { IsFront (parts_of machine.old) (FormNode.Bang body) position }
    ensures attempts { (candidate : Candidate)
        → IfOk result (Attempts (parts_of machine.old) candidate (parts_of machine.new)) }
    ensures later { IfOk result (λ _. Later machine.old machine.new) }
{
    let saved = machine.context.save()?;
    machine.context.bang()?;
    let items = [Item::Goal(body, position.environment), Item::BangEnd(saved)];
    go_on(machine, &items, position.rest, Step::Plain)?;
    Ok(true)
}

/// Takes `clause -o body`: the body comes in front, with the clause as a linear entry.
pub fn take_lolli(
    machine: &mut Machine<'_>,
    clause: FormAt,
    body: FormAt,
    rest: Top,
) -> Result<bool, OutOfMemory>
    requires fits { Fits (parts_of machine.old) }
    requires left { 0 < machine.old.left }
    requires front { IsClosedFront (parts_of machine.old) (FormNode.Lolli clause body) rest }
    ensures attempts { (candidate : Candidate)
        → IfOk result (Attempts (parts_of machine.old) candidate (parts_of machine.new)) }
    ensures later { IfOk result (λ _. Later machine.old machine.new) }
{
    let flag = machine.context.flag();
    let key = key_of(&machine.store.bank, clause);
    machine.context.load_keyed(Kind::Linear, clause, key)?;
    let items = [Item::closed(body), Item::LolliEnd(flag)];
    go_on(machine, &items, rest, Step::Plain)?;
    Ok(true)
}

/// Takes `clause => body`: the body comes in front, with the clause as an unbounded entry.
pub fn take_imp(
    machine: &mut Machine<'_>,
    clause: FormAt,
    body: FormAt,
    rest: Top,
) -> Result<bool, OutOfMemory>
    requires fits { Fits (parts_of machine.old) }
    requires left { 0 < machine.old.left }
    requires front { IsClosedFront (parts_of machine.old) (FormNode.Imp clause body) rest }
    ensures attempts { (candidate : Candidate)
        → IfOk result (Attempts (parts_of machine.old) candidate (parts_of machine.new)) }
    ensures later { IfOk result (λ _. Later machine.old machine.new) }
{
    let key = key_of(&machine.store.bank, clause);
    machine.context.load_keyed(Kind::Unbounded, clause, key)?;
    go_on(
        machine,
        &[Item::closed(body), Item::ImpEnd],
        rest,
        Step::Plain,
    )?;
    Ok(true)
}
