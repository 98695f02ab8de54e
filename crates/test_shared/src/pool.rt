//! Two seats of one thread share a pool, in which nothing is owed.
ghost use Rattle.std.specs.Prelude.{◌≡◌, ◌<◌, None};
ghost use Rattle.std.specs.Arc.{arc_value};
ghost use Rattle.test_shared.specs.Players.{IsSeatOf, IsSameSeat, OwesNothing};

use crate::players::{Told, batch_of};
use ll_core::{Claimed, Look, PublishFault, Ready};
use ll_laws::{Batch, Report};
use ll_pool::{Seat, SharedPool};
use std::alloc::Global;
use std::process::Abort;
use std::sync::{Arc, Wait};
use std::test::Fail;

// A claim that gives work: the piece, and its number in its batch.
fn work<R: Wait + Abort>(rt: &R, pool: &SharedPool<Told>, seat: &mut Seat<Told>) -> (u32, u32)
    requires { IsSeatOf pool.now seat.old × (seat.old.mine.piece ≡ None) }
    ensures seat { IsSameSeat pool.now seat.old seat.new }
    ensures owes { OwesNothing seat.new.mine.piece }
{
    match pool.claim(rt, seat) {
        Claimed::Work { piece, batch: _, k } => (piece, k),
        _ => panic!(rt; "no work"),
    }
}

// A claim that gives no work.
fn no_work<R: Wait + Abort>(rt: &R, pool: &SharedPool<Told>, seat: &mut Seat<Told>) -> Claimed<Told>
    requires { IsSeatOf pool.now seat.old × (seat.old.mine.piece ≡ None) }
    ensures seat { IsSameSeat pool.now seat.old seat.new }
    ensures owes { seat.new.mine.piece ≡ None }
{
    let answer = pool.claim(rt, seat);
    assert!(rt; !matches!(&answer, Claimed::Work { .. }));
    answer
}

fn publish<R: Wait + Abort>(
    rt: &R,
    pool: &SharedPool<Told>,
    seat: &mut Seat<Told>,
    batch: Arc<Told>,
) -> Result<(), PublishFault<Told>>
    requires seat { IsSeatOf pool.now seat.old }
    requires some { 0 < (arc_value batch).len }
    requires owes { OwesNothing seat.old.mine.piece }
    ensures seat { IsSameSeat pool.now seat.old seat.new }
    ensures owes { OwesNothing seat.new.mine.piece }
{
    pool.publish(rt, seat, batch)
}

fn report<R: Wait + Abort>(rt: &R, alloc: Global, pool: &SharedPool<Told>, seat: &mut Seat<Told>)
    requires seat { IsSeatOf pool.now seat.old }
    requires owes { OwesNothing seat.old.mine.piece }
    ensures seat { IsSameSeat pool.now seat.old seat.new }
    ensures owes { seat.new.mine.piece ≡ None }
{
    let events = Vec::new(alloc);
    pool.report(
        rt,
        seat,
        Report {
            events,
            inferences: 0,
        },
    );
}

// Claims an alternative, reports that it has nothing, and says its piece and its number in its batch.
fn try_one<R: Wait + Abort>(
    rt: &R,
    alloc: Global,
    pool: &SharedPool<Told>,
    seat: &mut Seat<Told>,
) -> (u32, u32)
    requires { IsSeatOf pool.now seat.old × (seat.old.mine.piece ≡ None) }
    ensures seat { IsSameSeat pool.now seat.old seat.new }
    ensures owes { seat.new.mine.piece ≡ None }
{
    let claimed = work(rt, pool, seat);
    report(rt, alloc, pool, seat);
    claimed
}

// The pool has 3 alternatives and takes no more than the most, which come back.
fn is_full(answer: Result<(), PublishFault<Told>>) -> bool {
    match answer {
        Err(PublishFault::Full { total, batch }) => total == 3 && batch.len() == u32::MAX,
        _ => false,
    }
}

// A look at a pool that is neither starved nor stopped.
fn seen(untried: u32, busy: u32) -> Look {
    Look {
        untried,
        busy,
        starved: false,
        stopped: false,
    }
}

#[test]
fn two_seats_share(rt: HostRuntime) -> Result<(), Fail> {
    let alloc = rt.alloc();
    let (pool, mut first) = SharedPool::new(alloc, batch_of(alloc, 1)?, 2)?;
    let mut second = pool.seat(&mut first, 1);
    assert!(rt; pool.workers() == 2 && second.worker() == 1);
    assert!(rt; pool.look(&rt, &mut first) == seen(1, 0));
    assert_eq!(rt; work(&rt, &pool, &mut first), (0, 0));
    assert!(rt; matches!(no_work(&rt, &pool, &mut second), Claimed::Idle { busy: 1 }));
    assert!(rt; publish(&rt, &pool, &mut first, batch_of(alloc, 2)?).is_ok());
    let full = publish(&rt, &pool, &mut first, batch_of(alloc, u32::MAX)?);
    assert!(rt; is_full(full));
    assert!(rt; pool.look(&rt, &mut first) == seen(2, 1));
    assert_eq!(rt; try_one(&rt, alloc, &pool, &mut second), (1, 0));
    assert_eq!(rt; try_one(&rt, alloc, &pool, &mut second), (2, 1));
    report(&rt, alloc, &pool, &mut first);
    assert!(rt; matches!(no_work(&rt, &pool, &mut first), Claimed::Finished));
    pool.join(&mut first, second);
    assert_eq!(rt; pool.close(first).look().busy, 0);
    Ok(())
}

#[test]
fn starves_and_stops(rt: HostRuntime) -> Result<(), Fail> {
    let alloc = rt.alloc();
    let (pool, mut first) = SharedPool::new(alloc, batch_of(alloc, 1)?, 2)?;
    let mut second = pool.seat(&mut first, 1);
    assert_eq!(rt; work(&rt, &pool, &mut first), (0, 0));
    pool.starve(&rt, &mut first);
    assert!(rt; matches!(no_work(&rt, &pool, &mut second), Claimed::Starved));
    pool.stop(&rt, &mut first);
    assert!(rt; matches!(no_work(&rt, &pool, &mut second), Claimed::Stopped));
    let want = Look {
        starved: true,
        stopped: true,
        ..seen(0, 1)
    };
    assert!(rt; pool.look(&rt, &mut first) == want);
    Ok(())
}

#[test]
fn one_seat_reads_what_it_wrote(rt: HostRuntime) -> Result<(), Fail> {
    let alloc = rt.alloc();
    let (pool, mut seat) = SharedPool::new(alloc, batch_of(alloc, 1)?, 1)?;
    assert_eq!(rt; work(&rt, &pool, &mut seat), (0, 0));
    assert!(rt; publish(&rt, &pool, &mut seat, batch_of(alloc, 2)?).is_ok());
    assert!(rt; pool.look(&rt, &mut seat) == seen(2, 1));
    assert!(rt; matches!(pool.ready(&rt, &mut seat), Ready::NotYet { piece: Some(0) }));
    pool.starve(&rt, &mut seat);
    pool.stop(&rt, &mut seat);
    let seen = pool.look(&rt, &mut seat);
    assert!(rt; seen.starved && seen.stopped);
    Ok(())
}
