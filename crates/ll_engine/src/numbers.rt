//! Inferences on whole-number goals.
ghost use Rattle.std.specs.Prelude.{◌≡◌, ◌<◌, ℤ, Bool, IfOk};
ghost use Rattle.ll_bank.specs.Nodes.{Extends};
ghost use Rattle.ll_unify.specs.Bindings.{IsTable, IsPlaceOf};
ghost use Rattle.ll_store.specs.Tables.{table_of};
ghost use Rattle.ll_freeze.specs.Parts.{parts_of, Later};
ghost use Rattle.ll_laws.specs.Number.{operators_of, value_of, compared};
ghost use Rattle.ll_laws.specs.declared.Candidate.{Candidate};
ghost use Rattle.ll_engine.specs.Taking.{read_in};
ghost use Rattle.ll_freeze.specs.Fits.{Fits};
ghost use Rattle.ll_engine.specs.Attempts.{Attempts};
ghost use Rattle.ll_engine.specs.Front.{IsClosedFront};
ghost use Rattle.ll_engine.specs.Numbers.{tested};

use crate::attempt::go_on;
use crate::take::unify_under;
use ll_agenda::Top;
use ll_bank::{At, FormNode, Names, OutOfMemory};
use ll_freeze::Machine;
use ll_laws::Step;
use ll_modules::value;
use ll_store::Store;
use ll_unify::read_all;
use std::alloc::Global;

/// Takes `target is expression`, the goal in front of the agenda, which has `rest` behind it: the target is unified with the value.
///
/// False where the expression has no value, or they don't unify. Then the machine can only go back to a mark. After a refusal it is spent.
pub fn take_is(
    machine: &mut Machine<'_>,
    alloc: Global,
    target: At,
    expression: At,
    rest: Top,
) -> Result<bool, OutOfMemory>
    requires fits { Fits (parts_of machine.old) }
    requires left { 0 < machine.old.left }
    requires front { IsClosedFront (parts_of machine.old) (FormNode.Is target expression) rest }
    ensures attempts { (candidate : Candidate)
        → IfOk result (Attempts (parts_of machine.old) candidate (parts_of machine.new)) }
    ensures later { IfOk result (λ _. Later machine.old machine.new) }
{
    let problem = machine.problem;
    let names = &problem.names;
    let Some(number) = value_under(alloc, &mut machine.store, names, expression)? else {
        return Ok(false);
    };
    let place = machine.store.bank.int(number)?;
    if !unify_under(alloc, &mut machine.store, target, place)? {
        return Ok(false);
    }
    go_on(machine, &[], rest, Step::Plain)?;
    Ok(true)
}

/// Takes `left < right`, the goal in front of the agenda, which has `rest` behind it.
///
/// False where one of them has no value, or the first is not less. Then the machine can only go back to a mark. After a refusal it is spent.
pub fn take_less(
    machine: &mut Machine<'_>,
    alloc: Global,
    left: At,
    right: At,
    rest: Top,
) -> Result<bool, OutOfMemory>
    requires fits { Fits (parts_of machine.old) }
    requires left { 0 < machine.old.left }
    requires front { IsClosedFront (parts_of machine.old) (FormNode.Less left right) rest }
    ensures attempts { (candidate : Candidate)
        → IfOk result (Attempts (parts_of machine.old) candidate (parts_of machine.new)) }
    ensures later { IfOk result (λ _. Later machine.old machine.new) }
{
    let problem = machine.problem;
    let names = &problem.names;
    let Some(values) = values_under(alloc, &mut machine.store, names, left, right)? else {
        return Ok(false);
    };
    if values.left < values.right {
        go_on(machine, &[], rest, Step::Plain)?;
        return Ok(true);
    }
    Ok(false)
}

/// Takes `left =< right`, the goal in front of the agenda, which has `rest` behind it.
///
/// False where one of them has no value, or the first is greater. Then the machine can only go back to a mark. After a refusal it is spent.
pub fn take_most(
    machine: &mut Machine<'_>,
    alloc: Global,
    left: At,
    right: At,
    rest: Top,
) -> Result<bool, OutOfMemory>
    requires fits { Fits (parts_of machine.old) }
    requires left { 0 < machine.old.left }
    requires front { IsClosedFront (parts_of machine.old) (FormNode.Most left right) rest }
    ensures attempts { (candidate : Candidate)
        → IfOk result (Attempts (parts_of machine.old) candidate (parts_of machine.new)) }
    ensures later { IfOk result (λ _. Later machine.old machine.new) }
{
    let problem = machine.problem;
    let names = &problem.names;
    let Some(values) = values_under(alloc, &mut machine.store, names, left, right)? else {
        return Ok(false);
    };
    if values.left <= values.right {
        go_on(machine, &[], rest, Step::Plain)?;
        return Ok(true);
    }
    Ok(false)
}

/// The values of the two sides of a comparison.
#[derive(Clone, Copy)]
pub struct Values {
    pub left: i64,
    pub right: i64,
}

/// The values of two expressions read under bindings; none where one of them has none. The bank may have more terms then.
fn values_under(
    alloc: Global,
    store: &mut Store,
    names: &Names,
    left: At,
    right: At,
) -> Result<Option<Values>, OutOfMemory>
    requires table { IsTable store.old.bank (table_of store.old.cells.cells) }
    requires left { IsPlaceOf store.old.bank (table_of store.old.cells.cells) left.0 }
    requires right { IsPlaceOf store.old.bank (table_of store.old.cells.cells) right.0 }
    ensures values { IfOk result (λ found. (test : ℤ → ℤ → Bool)
        → tested test found ≡ compared test (value_of (operators_of names.now) (read_in store.old left))
        (value_of (operators_of names.now) (read_in store.old right))) }
    ensures keeps { Extends store.old.bank store.new.bank }
    ensures cells { store.new.cells ≡ store.old.cells }
{
    let Some(first) = value_under(alloc, store, names, left)? else {
        return Ok(None);
    };
    let Some(second) = value_under(alloc, store, names, right)? else {
        return Ok(None);
    };
    Ok(Some(Values {
        left: first,
        right: second,
    }))
}

/// The value of an expression read under bindings; none where it has none. The bank may have more terms then.
fn value_under(
    alloc: Global,
    store: &mut Store,
    names: &Names,
    expression: At,
) -> Result<Option<i64>, OutOfMemory>
    requires table { IsTable store.old.bank (table_of store.old.cells.cells) }
    requires place { IsPlaceOf store.old.bank (table_of store.old.cells.cells) expression.0 }
    ensures value { IfOk result (λ found. found ≡ value_of (operators_of names.now) (read_in store.old expression)) }
    ensures keeps { Extends store.old.bank store.new.bank }
    ensures cells { store.new.cells ≡ store.old.cells }
{
    let read = read_all(alloc, &mut store.bank, &store.cells, &[expression])?;
    value(alloc, &store.bank, names, read[0])
}
