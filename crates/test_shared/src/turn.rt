//! A counter under a turn: two threads count together, and three passes take turns.
ghost use Rattle.std.specs.Prelude.{◌≡◌, ◌+◌, ◌<◌, ◌≤◌, ◌∷◌, [], None, IfOk};

use ll_turn::{Kept, NewFault, Pass, Turn};
use std::alloc::{AllocError, Global};
use std::sync::Wait;
use std::test::*;
use std::thread;
use std::thread::Threads;
use std::time::{Clock, Duration};

#[derive(Drop)]
struct Counter {
    count: u64,
}

// The data of a pass: its numbers, and the count that it last saw. No value of it is made.
struct Counted {
    own: u64,
    from: u64,
    end: u64,
    seen: u64,
}

impl Kept for Counter {
    type Problem = ();

    type Mine = Counted;

    ghost use Rattle.std.specs.Prelude.{◌≡◌, ◌+◌, ◌<◌, ◌≤◌};
    ghost use Rattle.std.proofs.Common.{refl, le_refl, le_trans};
    ghost use Rattle.std.proofs.Math.Dec.{lit≤};

    ghost numbers = { λ mine. record { own = mine.own; from = mine.from; end = mine.end } };

    ghost begin = { λ value. (tt, record { own = 0; from = 1; end = 3; seen = value.count }) };

    ghost fit = { λ value _ mine. mine.seen ≤ value.count };

    ghost lawful = { λ _ before _ after. before.count ≤ after.count };

    ghost next = { λ _ _ mine after. record mine { seen = after.count } };

    ghost parted = { λ mine.
        (record mine { from = mine.from + 1 }, record { own = mine.from; from = 0; end = 0; seen = mine.seen }) };

    ghost begins_first = { λ value fits. (refl, λ _. (refl, lit≤ {m = 3} {n = 4294967296} tt)) };

    ghost keeps_numbers = { λ p before mine after. refl };

    ghost parts_numbers = { λ mine more. (refl, refl, refl, refl, le_refl 0) };

    ghost change_fits = { λ p before mine after fits rises.
        (le_refl after.count, λ other fits_other different. le_trans fits_other rises) };

    ghost parts_fit = { λ p value mine more fits. (fits, fits) };
}

// A turn over a new counter, with its first pass.
fn new_turn(alloc: Global) -> Result<(Turn<Counter>, Pass<Counter>), AllocError>
    ensures rests { IfOk result (λ t. (t.1.table ≡ t.0) × (t.1.before ≡ None) × (t.1.given ≡ [])) }
    ensures numbers { IfOk result (λ t. (t.1.mine.own ≡ 0) × (t.1.mine.from ≡ 1) × (t.1.mine.end ≡ 3)) }
{
    match Turn::new(alloc, Counter { count: 0 }) {
        Ok(made) => Ok(made),
        Err(NewFault::OutOfMemory { value: _ }) => Err(AllocError),
    }
}

// Takes the turn so many times, counts one more each time, and holds it so long.
fn count_up<R: Wait + Clock>(
    rt: &R,
    turn: &Turn<Counter>,
    mut pass: Pass<Counter>,
    times: u64,
    hold: Duration,
) -> Pass<Counter>
    requires { (pass.table ≡ turn.now) × (pass.before ≡ None) }
    ensures rests { (result.table ≡ pass.table) × (result.before ≡ None) }
    ensures numbers { (result.given ≡ pass.given) × (result.mine.own ≡ pass.mine.own) }
{
    for _ in 0..times {
        let mut held = turn.take(rt, &mut pass);
        let counter = held.value();
        counter.count = counter.count.saturating_add(1);
        thread::sleep(rt, hold);
        turn.give(held, &mut pass);
    }
    pass
}

fn counted_by_two<R: Threads + Wait + Clock + Sync>(
    rt: &R,
    turn: Turn<Counter>,
    mut first: Pass<Counter>,
    times: u64,
    hold: Duration,
) -> u64
    requires rests { (first.table ≡ turn) × (first.before ≡ None) × (first.given ≡ []) }
    requires numbers { (first.mine.own ≡ 0) × (first.mine.from ≡ 1) × (first.mine.end ≡ 3) }
{
    let second = first.split(&turn);
    let shared = &turn;
    let (mut first, second) = thread::join(
        rt,
        move || -> Pass<Counter>
            requires { (first.table ≡ shared.now) × (first.before ≡ None) }
            ensures rests { (result.table ≡ first.table) × (result.before ≡ None) }
            ensures numbers { (result.given ≡ first.given) × (result.mine.own ≡ first.mine.own) }
        { count_up(rt, shared, first, times, hold) },
        move || -> Pass<Counter>
            requires { (second.table ≡ shared.now) × (second.before ≡ None) }
            ensures rests { (result.table ≡ second.table) × (result.before ≡ None) }
            ensures numbers { (result.given ≡ second.given) × (result.mine.own ≡ second.mine.own) }
        { count_up(rt, shared, second, times, hold) },
    );
    first.join(&turn, second);
    turn.close(first).count
}

#[test]
fn two_threads_count(rt: HostRuntime) -> Result<(), Fail> {
    let (turn, first) = new_turn(rt.alloc())?;
    assert_eq!(rt;
        counted_by_two(&rt, turn, first, 1000, Duration::ZERO),
        2000
    );
    Ok(())
}

// Each holds the turn for a while, so that the other one has to wait.
#[test]
fn two_threads_wait(rt: HostRuntime) -> Result<(), Fail> {
    let (turn, first) = new_turn(rt.alloc())?;
    assert_eq!(rt;
        counted_by_two(&rt, turn, first, 20, Duration::from_millis(1)),
        40
    );
    Ok(())
}

// The later pass is joined first.
#[test]
fn three_passes_take_turns(rt: HostRuntime) -> Result<(), Fail> {
    let (turn, mut first) = new_turn(rt.alloc())?;
    let second = first.split(&turn);
    let third = first.split(&turn);
    let third = count_up(&rt, &turn, third, 3, Duration::ZERO);
    let second = count_up(&rt, &turn, second, 20, Duration::ZERO);
    first.join(&turn, third);
    let mut first = count_up(&rt, &turn, first, 400, Duration::ZERO);
    first.join(&turn, second);
    assert_eq!(rt; turn.close(first).count, 423);
    Ok(())
}
