//! Which terms are an instance of others.
ghost use Rattle.std.specs.Prelude.{◌≤◌, length, IfOk};
ghost use Rattle.ll_bank.specs.Nodes.{HasTerm};

use ll_bank::{At, Bank, Head, OutOfMemory};
use ll_cover::instance;
use std::alloc::Global;
use std::process::Abort;
use std::test::Fail;

// A term with this one at its leaves, twice at each of so many levels.
fn doubled(bank: &mut Bank, leaf: At, levels: u32) -> Result<At, OutOfMemory>
    requires { HasTerm bank.old leaf.0 }
    ensures term { IfOk result (λ at. HasTerm bank.new at.0) }
    ensures grows { length bank.old.terms ≤ length bank.new.terms }
{
    let mut at = leaf;
    for _ in 0..levels {
        at = bank.app(Head::Name(1), &[at, at])?;
    }
    Ok(at)
}

// Lists of two variables and lists of two unequal terms.
fn assert_variables_take(
    rt: &impl Abort,
    alloc: Global,
    bank: &Bank,
    x: At,
    y: At,
    other: &Bank,
    one: At,
    two: At,
) -> Result<(), OutOfMemory>
    requires x { HasTerm bank.now x.0 }
    requires y { HasTerm bank.now y.0 }
    requires one { HasTerm other.now one.0 }
    requires two { HasTerm other.now two.0 }
{
    assert!(rt; instance(alloc, bank, &[x, x], other, &[one, one])?);
    assert!(rt; !instance(alloc, bank, &[x, x], other, &[one, two])?);
    assert!(rt; instance(alloc, bank, &[x, y], other, &[one, two])?);
    assert!(rt; !instance(alloc, bank, &[x], other, &[one, one])?);
    Ok(())
}

#[test]
fn a_variable_takes_one_term(rt: HostRuntime) -> Result<(), Fail> {
    let mut bank = Bank::new(rt.alloc());
    let mut other = Bank::new(rt.alloc());
    let x = bank.var(0)?;
    let y = bank.var(1)?;
    let one = other.int(1)?;
    let two = other.int(2)?;
    assert_variables_take(&rt, rt.alloc(), &bank, x, y, &other, one, two)?;
    Ok(())
}

#[test]
fn a_bound_place_is_no_value(rt: HostRuntime) -> Result<(), Fail> {
    let mut bank = Bank::new(rt.alloc());
    let mut other = Bank::new(rt.alloc());
    let x = bank.var(0)?;
    let mine = bank.app(Head::Bound(0), &[])?;
    let theirs = other.app(Head::Bound(0), &[])?;
    assert!(rt; !instance(rt.alloc(), &bank, &[x], &other, &[theirs])?);
    assert!(rt; instance(rt.alloc(), &bank, &[mine], &other, &[theirs])?);
    Ok(())
}

// Whether a term is an instance of variable 0, twice at each of 40 levels.
fn fits_pattern(alloc: Global, other: &Bank, term: At) -> Result<bool, OutOfMemory>
    requires { HasTerm other.now term.0 }
{
    let mut bank = Bank::new(alloc);
    let x = bank.var(0)?;
    let pattern = doubled(&mut bank, x, 40)?;
    instance(alloc, &bank, &[pattern], other, &[term])
}

#[test]
fn matches_what_is_shared_once(rt: HostRuntime) -> Result<(), Fail> {
    let mut other = Bank::new(rt.alloc());
    let leaf = other.int(7)?;
    let value = doubled(&mut other, leaf, 20)?;
    let term = doubled(&mut other, value, 40)?;
    assert!(rt; fits_pattern(rt.alloc(), &other, term)?);
    let less = doubled(&mut other, leaf, 39)?;
    assert!(rt; !fits_pattern(rt.alloc(), &other, less)?);
    Ok(())
}
