//! Unification of terms that are made from a list of signs.
ghost use Rattle.std.specs.Prelude.{◌≡◌, length, IfOk, IfSome};
ghost use Rattle.ll_bank.specs.Nodes.{Extends};
ghost use Rattle.test_search.specs.Levelled.{IsLevelled, AreLevelled};

use ll_bank::{At, Bank, Head, OutOfMemory};
use ll_unify::mgu;
use std::alloc::Global;
use std::test::Fail;

// How a term is made; other terms by their places in the list.
#[derive(Clone, Copy)]
enum Sign {
    Var(u64),
    Int(i64),
    Eigen(u32),
    One(u32, usize),
    Two(u32, usize, usize),
}

// A term over `count` variables, none where a variable or a part is out of range.
fn add_term(
    bank: &mut Bank,
    made: &[At],
    sign: Sign,
    count: usize,
) -> Result<Option<At>, OutOfMemory>
    requires { AreLevelled bank.old count made.now }
    ensures made { IfOk result (λ answer. IfSome answer (λ at. IsLevelled bank.new count at.0)) }
    ensures keeps { Extends bank.old bank.new }
{
    match sign {
        Sign::Var(number) => {
            if (number as usize) < count {
                let at = bank.var(number)?;
                Ok(Some(at))
            } else {
                Ok(None)
            }
        }
        Sign::Int(value) => {
            let at = bank.int(value)?;
            Ok(Some(at))
        }
        Sign::Eigen(number) => {
            let at = bank.app(Head::Eigen(number), &[])?;
            Ok(Some(at))
        }
        Sign::One(name, part) => {
            if part < made.len() {
                let parts = [made[part]];
                let at = bank.app(Head::Name(name), &parts)?;
                Ok(Some(at))
            } else {
                Ok(None)
            }
        }
        Sign::Two(name, first, second) => {
            if first < made.len() && second < made.len() {
                let parts = [made[first], made[second]];
                let at = bank.app(Head::Name(name), &parts)?;
                Ok(Some(at))
            } else {
                Ok(None)
            }
        }
    }
}

// The terms of a list, none where one can't be made.
fn build(
    alloc: Global,
    bank: &mut Bank,
    list: &[Sign],
    count: usize,
) -> Result<Option<Vec<At>>, OutOfMemory>
    ensures { IfOk result (λ answer. IfSome answer (λ made. AreLevelled bank.new count made.items)) }
{
    let mut made = Vec::new(alloc);
    for index in 0..list.len() {
        match add_term(bank, &made, list[index], count)? {
            Some(at) => made.push(at)?,
            None => return Ok(None),
        }
    }
    Ok(Some(made))
}

// What unification says of the last 2 * `pairs` terms of a list, the left sides first: for each variable whether it is bound,
// with the levels. None where there is no unifier.
fn solve(
    alloc: Global,
    list: &[Sign],
    pairs: usize,
    levels: &[u32],
) -> Result<Option<(Vec<bool>, Vec<u32>)>, OutOfMemory> {
    let mut bank = Bank::new(alloc);
    let Some(made) = build(alloc, &mut bank, list, levels.len())? else {
        return Ok(None);
    };
    if pairs > made.len() || pairs > made.len() - pairs {
        return Ok(None);
    }
    let (front, right) = made.split_at(made.len() - pairs);
    let (_, left) = front.split_at(front.len() - pairs);
    match mgu(alloc, &mut bank, left, right, levels)? {
        None => Ok(None),
        Some(answer) => {
            let mut bound = Vec::new(alloc);
            for to in &answer.bound {
                bound.push(to.is_some())?;
            }
            Ok(Some((bound, answer.levels)))
        }
    }
}

// Two terms of such a depth that have each part twice, the left one and its copy.
fn shared(alloc: Global, depth: u8) -> Result<Vec<Sign>, OutOfMemory> {
    let mut list = Vec::new(alloc);
    list.push(Sign::Int(0))?;
    list.push(Sign::Int(0))?;
    for index in 0..depth as usize {
        list.push(Sign::Two(0, 2 * index, 2 * index))?;
        list.push(Sign::Two(0, 2 * index + 1, 2 * index + 1))?;
    }
    Ok(list)
}

// So many variables, each to be a term that has the next one twice.
fn doubled(alloc: Global, depth: u8) -> Result<Vec<Sign>, OutOfMemory> {
    let mut list = Vec::new(alloc);
    for number in 0..=depth as u64 {
        list.push(Sign::Var(number))?;
    }
    for number in 0..depth as u64 {
        list.push(Sign::Var(number))?;
    }
    for index in 0..depth as usize {
        list.push(Sign::Two(0, index + 1, index + 1))?;
    }
    Ok(list)
}

// Two lists of so many variables and numbers.
fn lists(alloc: Global, length: u32) -> Result<Vec<Sign>, OutOfMemory> {
    let mut list = Vec::new(alloc);
    list.push(Sign::Int(0))?;
    list.push(Sign::Int(0))?;
    for index in 0..length as usize {
        list.push(Sign::Var(index as u64))?;
        list.push(Sign::Int(7))?;
        list.push(Sign::Two(1, 4 * index + 2, 4 * index))?;
        list.push(Sign::Two(1, 4 * index + 3, 4 * index + 1))?;
    }
    Ok(list)
}

// A list of signs, of whose last terms so many pairs are unified, the levels of the variables, and what is found: for each variable
// whether it is bound, with the levels. None where there is no unifier.
const EQUATIONS: [(&[Sign], usize, &[u32], Option<(&[bool], &[u32])>); 9] = [
    // `p X X` and `p A B`, in both orders
    (
        &[Sign::Var(0), Sign::Var(0), Sign::Var(1), Sign::Var(2)],
        2,
        &[0, 0, 0],
        Some((&[false, true, true], &[0, 0, 0])),
    ),
    (
        &[Sign::Var(0), Sign::Var(1), Sign::Var(2), Sign::Var(2)],
        2,
        &[0, 0, 0],
        Some((&[false, true, true], &[0, 0, 0])),
    ),
    // a variable of level 0 and one of level 2 in a term, which falls
    (
        &[Sign::Var(1), Sign::Var(0), Sign::One(5, 0)],
        1,
        &[0, 2],
        Some((&[true, false], &[0, 0])),
    ),
    // a variable of level 1 and eigenvariable 0
    (
        &[Sign::Var(0), Sign::Eigen(0)],
        1,
        &[1],
        Some((&[true], &[1])),
    ),
    // equal numbers
    (&[Sign::Int(3), Sign::Int(3)], 1, &[], Some((&[], &[]))),
    // unequal numbers
    (&[Sign::Int(3), Sign::Int(-3)], 1, &[], None),
    // a variable of level 0 and eigenvariable 0
    (&[Sign::Var(0), Sign::Eigen(0)], 1, &[0], None),
    // `X = f Y`, `Y = f X`
    (
        &[
            Sign::Var(0),
            Sign::Var(1),
            Sign::Var(0),
            Sign::Var(1),
            Sign::One(5, 1),
            Sign::One(5, 0),
        ],
        2,
        &[0, 0],
        None,
    ),
    // `p (f X) X` and `p A A`
    (
        &[
            Sign::Var(0),
            Sign::One(5, 0),
            Sign::Var(0),
            Sign::Var(1),
            Sign::Var(1),
        ],
        2,
        &[0, 0],
        None,
    ),
];

fn is_found(found: Option<(Vec<bool>, Vec<u32>)>, want: Option<(&[bool], &[u32])>) -> bool {
    match (found, want) {
        (None, None) => true,
        (Some((bound, levels)), Some((want_bound, want_levels))) => {
            bound.as_slice() == want_bound && levels.as_slice() == want_levels
        }
        _ => false,
    }
}

#[test]
fn equations(rt: HostRuntime) -> Result<(), Fail> {
    for (list, pairs, levels, want) in EQUATIONS {
        let found = solve(rt.alloc(), list, pairs, levels)?;
        assert!(rt; is_found(found, want), "{levels:?}");
    }
    Ok(())
}

// A term of depth 60 that has each part twice, and its copy.
#[test]
fn shared_parts(rt: HostRuntime) -> Result<(), Fail> {
    let list = shared(rt.alloc(), 60)?;
    assert!(rt; solve(rt.alloc(), &list, 1, &[])?.is_some());
    Ok(())
}

// A variable that stands for a term with 2^40 leaves.
#[test]
fn shared_variables(rt: HostRuntime) -> Result<(), Fail> {
    let list = doubled(rt.alloc(), 40)?;
    assert!(rt; solve(rt.alloc(), &list, 40, &[0; 41])?.is_some());
    Ok(())
}

// Two lists of 100,000 elements.
#[test]
fn long_lists(rt: HostRuntime) -> Result<(), Fail> {
    let list = lists(rt.alloc(), 100_000)?;
    let levels = vec![in rt.alloc(); 0; 100_000]?;
    assert!(rt; solve(rt.alloc(), &list, 1, &levels)?.is_some());
    Ok(())
}
