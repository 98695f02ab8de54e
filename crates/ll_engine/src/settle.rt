//! Settling: the ends in front of an agenda are worked off.
ghost use Rattle.std.specs.Prelude.{◌≡◌, ◌∷◌, IfOk, OnOk};
ghost use Rattle.ll_agenda.specs.Frames.{HasTop, items_at};
ghost use Rattle.ll_freeze.specs.Parts.{parts_of, Later};
ghost use Rattle.ll_freeze.specs.Shown.{items_of};
ghost use Rattle.ll_freeze.specs.Fits.{Fits};
ghost use Rattle.ll_engine.specs.Calls.{SettlesOr, SameSearch};
ghost use Rattle.ll_engine.specs.Going.{Going, Reaches, IsDone, Works};
ghost use Rattle.ll_freeze.specs.declared.machine.Item.TheVariants.{Mid};

use ll_agenda::Top;
use ll_bank::OutOfMemory;
use ll_freeze::{Item, Machine};
use ll_resources::Saved;

// What working off the item in front came to.
enum Worked {
    // An end was worked off.
    Off,
    // No end is in front.
    Settled,
    // An end fails.
    Failed,
}

/// Works off the ends in front; false where one of them fails.
pub fn settle(machine: &mut Machine<'_>) -> Result<bool, OutOfMemory>
    requires fits { Fits (parts_of machine.old) }
    ensures settles { IfOk result (λ ok. SettlesOr (parts_of machine.old) ok (parts_of machine.new)) }
    ensures same { IfOk result (λ _. SameSearch (parts_of machine.old) (parts_of machine.new)) }
    ensures later { IfOk result (λ _. Later machine.old machine.new) }
{
    while let Some((item, rest)) = machine.agenda.item(machine.top) {
        match work_off(machine, item, rest)? {
            Worked::Off => {}
            Worked::Settled => return Ok(true),
            Worked::Failed => return Ok(false),
        }
    }
    Ok(true)
}

// Works off the item in front, if it is an end.
fn work_off(machine: &mut Machine<'_>, item: Item, rest: Top) -> Result<Worked, OutOfMemory>
    requires going { Going (parts_of machine.old) (parts_of machine.old) }
    requires front { items_of (parts_of machine.old) ≡ item ∷ items_at machine.old.agenda rest }
    requires rest { HasTop machine.old.agenda rest }
    ensures works { IfOk result (λ worked. Works (parts_of machine.old) worked (parts_of machine.new)) }
    ensures later { IfOk result (λ _. Later machine.old machine.new) }
{
    match item {
        Item::Goal(_, _) => Ok(Worked::Settled),
        Item::LolliEnd(saved) => {
            if !machine.context.close(saved)? {
                return Ok(Worked::Failed);
            }
            machine.top = rest;
            Ok(Worked::Off)
        }
        Item::ImpEnd => {
            if !machine.context.close(false)? {
                return Ok(Worked::Failed);
            }
            machine.top = rest;
            Ok(Worked::Off)
        }
        Item::Mid(saved) => {
            second_side(machine, saved, rest)?;
            Ok(Worked::Settled)
        }
        Item::WithEnd(saved, half) => {
            if !machine.context.with_end(saved, half)? {
                return Ok(Worked::Failed);
            }
            machine.top = rest;
            Ok(Worked::Off)
        }
        Item::BangEnd(saved) => {
            machine.context.bang_end(saved)?;
            machine.top = rest;
            Ok(Worked::Off)
        }
    }
}
// Works off the middle of `&`, which is in front: its second side is next.
fn second_side(machine: &mut Machine<'_>, saved: Saved, rest: Top) -> Result<(), OutOfMemory>
    requires going { Going (parts_of machine.old) (parts_of machine.old) }
    requires front { items_of (parts_of machine.old) ≡ Mid saved ∷ items_at machine.old.agenda rest }
    requires rest { HasTop machine.old.agenda rest }
    ensures reaches { OnOk result (Reaches (parts_of machine.old) (parts_of machine.new)
        × IsDone (parts_of machine.new)) }
    ensures later { OnOk result (Later machine.old machine.new) }
{
    let Some((Item::Goal(goal, environment), after)) = machine.agenda.item(rest) else {
        unreachable!()
    };
    let Some((Item::WithEnd(before, _), behind)) = machine.agenda.item(after) else {
        unreachable!()
    };
    let half = machine.context.with_mid(saved)?;
    let end = machine.agenda.push(Item::WithEnd(before, half), behind)?;
    machine.top = machine.agenda.push(Item::Goal(goal, environment), end)?;
    Ok(())
}
