//! The workers of a crew, each in a thread of its own.
ghost use Rattle.std.specs.Prelude.{◌≡◌, ◌≤◌, IfOk, OnErr, true, false, vec_len};
ghost use Rattle.std.specs.Vec.{vec_capacity};
ghost use Rattle.std.specs.Thread.{IsSync};
ghost use Rattle.ll_laws.specs.Sound.{Every};
ghost use Rattle.ll_crew.specs.Crews.{EachWorked};
ghost use Rattle.ll_crew.specs.Crowds.{AllCanWork};
ghost use Rattle.ll_crew.specs.Leading.{nothing_told, Stands, Stopped, WasRefused};
ghost use Rattle.ll_crew.specs.Turns.{Ended, LeavesPool, Fails, CanWork, Worked};

use crate::bell::Bell;
use crate::beside::join_beside;
use crate::giving::Lead;
use crate::job::{Job, Sharing};
use crate::lead::{Delivery, Mute};
use crate::offer::Offer;
use crate::worker::work_as;
use ll_edge::Gate;
use ll_laws::{Notice, Problem};
use ll_order::Outlet;
use ll_pool::{Seat, SharedPool};
use std::alloc::Global;
use std::marker::PhantomData;
use std::snapshot::Snapshot;
use std::sync::Wait;
use std::thread::{Threads, join};

// What workers that tell nothing work with.
#[derive(Drop)]
struct Tools<'a, 'p, R, G, E: Notice> {
    rt: &'a R,
    alloc: Global,
    problem: &'p Problem,
    pool: &'a SharedPool<Offer<'p, E>>,
    bell: &'a Bell,
    gate: &'a G,
    sharing: Sharing,
}

// Some workers that tell nothing.
#[derive(Drop)]
struct Crowd<'t, 'a, 'p, R, G, E: Notice> {
    tools: &'t Tools<'a, 'p, R, G, E>,
    seats: Vec<Seat<Offer<'p, E>>>,
}

// One of them.
#[derive(Drop)]
struct Hand<'t, 'a, 'p, R, G, E: Notice> {
    tools: &'t Tools<'a, 'p, R, G, E>,
    seat: Seat<Offer<'p, E>>,
}

// The work of a worker that tells nothing.
fn help<'t, 'a, 'p, R: Wait, G: Gate, E: Notice>(
    hand: Hand<'t, 'a, 'p, R, G, E>,
) -> Seat<Offer<'p, E>>
    requires can { CanWork hand.tools.now.pool.now hand.tools.now.problem.now hand.seat }
    requires suits { E.suits hand.tools.now.problem.now }
    ensures { Worked hand.entry.seat result }
{
    let Hand { tools, mut seat } = hand;
    let mut mute: Mute<E> = Mute { found: PhantomData };
    let start = Snapshot::of(&mute);
    let mut told = Delivery::new(false);
    let job = Job {
        rt: tools.rt,
        alloc: tools.alloc,
        problem: tools.problem,
        pool: tools.pool,
        bell: tools.bell,
        gate: tools.gate,
        sharing: tools.sharing,
        start: &start,
    };
    let _ended = work_as(&job, &mut seat, &mut told, &mut mute);
    seat
}

// The work of some workers, each in a thread of its own where one can be made.
fn work_all<'t, 'a, 'p, R: Threads + Wait + Sync, G: Gate, E: Notice>(
    mut crowd: Crowd<'t, 'a, 'p, R, G, E>,
) -> Vec<Seat<Offer<'p, E>>>
    requires can { AllCanWork crowd }
    requires suits { E.suits crowd.tools.now.problem.now }
    ensures each { EachWorked crowd.entry.seats.items result.items }
    ensures len { vec_len result ≡ vec_len crowd.entry.seats }
    ensures room { vec_capacity crowd.entry.seats ≤ vec_capacity result }
{
    let Some(seat) = crowd.seats.pop() else {
        return crowd.seats;
    };
    let hand = Hand {
        tools: crowd.tools,
        seat,
    };
    if crowd.seats.is_empty() {
        let mut last = crowd.seats;
        last.push_reserved(help(hand));
        return last;
    }
    let (mut back, seat) = join(
        crowd.tools.rt,
        move ||
            requires { IsSync R.row × IsSync G.row × AllCanWork crowd
                × E.suits crowd.tools.now.problem.now }
            ensures { EachWorked crowd.entry.seats.items result.items × (vec_len result ≡ vec_len crowd.entry.seats)
                × (vec_capacity crowd.entry.seats ≤ vec_capacity result) }
        { work_all(crowd) },
        move ||
            requires { IsSync G.row × CanWork hand.tools.now.pool.now hand.tools.now.problem.now hand.seat
                × E.suits hand.tools.now.problem.now }
            ensures { Worked hand.entry.seat result }
        { help(hand) },
    );
    back.push_reserved(seat);
    back
}

// The work of the worker that leads.
fn work_leading<'p, R: Wait, G: Gate, O: Outlet>(
    job: &Job<'_, 'p, R, G, O>,
    seat: &mut Seat<Offer<'p, O::Found>>,
    out: &mut O,
) -> Lead
    requires can { CanWork job.now.pool.now job.now.problem.now seat.old }
    requires stands { Stands O.Outlet job.now seat.old out.old (nothing_told true) }
    requires suits { O.Found.suits job.now.problem.now }
    ensures leads { result.told.leads ≡ true }
    ensures done { IfOk result.done (λ done. done ≡ true → Ended
        (Stands O.Outlet job.now seat.new out.new result.told) job.now.problem.now seat.old seat.new) }
    ensures left { IfOk result.done (λ done. done ≡ false → LeavesPool (Stopped O.Outlet job.now out.new result.told)
        (WasRefused result.told) seat.old seat.new) }
    ensures failed { OnErr result.done (Fails (Stopped O.Outlet job.now out.new result.told) seat.old seat.new) }
{
    let mut told = Delivery::new(true);
    let (done, _woken) = work_as(job, seat, &mut told, out);
    Lead { told, done }
}

/// All workers at work: the caller is the first, and leads. The other seats come back.
pub(crate) fn work_together<'a, 'p, R: Threads + Wait + Sync, G: Gate, O: Outlet>(
    job: &Job<'a, 'p, R, G, O>,
    first: &mut Seat<Offer<'p, O::Found>>,
    out: &mut O,
    seats: Vec<Seat<Offer<'p, O::Found>>>,
) -> (Vec<Seat<Offer<'p, O::Found>>>, Lead)
    requires first { CanWork job.now.pool.now job.now.problem.now first.old }
    requires stands { Stands O.Outlet job.now first.old out.old (nothing_told true) }
    requires seats { Every (CanWork job.now.pool.now job.now.problem.now) seats.items }
    requires suits { O.Found.suits job.now.problem.now }
    ensures leads { result.1.told.leads ≡ true }
    ensures done { IfOk result.1.done (λ done. done ≡ true → Ended
        (Stands O.Outlet job.now first.new out.new result.1.told) job.now.problem.now first.old first.new) }
    ensures left { IfOk result.1.done (λ done. done ≡ false → LeavesPool
        (Stopped O.Outlet job.now out.new result.1.told) (WasRefused result.1.told) first.old first.new) }
    ensures failed { OnErr result.1.done
        (Fails (Stopped O.Outlet job.now out.new result.1.told) first.old first.new) }
    ensures seats { EachWorked seats.entry.items result.0.items }
{
    if seats.is_empty() {
        return (seats, work_leading(job, first, out));
    }
    let tools = Tools {
        rt: job.rt,
        alloc: job.alloc,
        problem: job.problem,
        pool: job.pool,
        bell: job.bell,
        gate: job.gate,
        sharing: job.sharing,
    };
    let crowd = Crowd {
        tools: &tools,
        seats,
    };
    join_beside(
        job.rt,
        move ||
            requires { IsSync R.row × IsSync G.row × AllCanWork crowd
                × O.Found.suits crowd.tools.now.problem.now }
            ensures { EachWorked crowd.entry.seats.items result.items }
        { work_all(crowd) },
        &mut ||
            requires { IsSync G.row × CanWork job.now.pool.now job.now.problem.now first.now
                × O.Found.suits job.now.problem.now × Stands O.Outlet job.now first.now out.now (nothing_told true) }
            ensures leads { result.told.leads ≡ true }
            ensures done { IfOk result.done (λ done. done ≡ true → Ended (Stands O.Outlet job.entry.now first.exit.now
                out.exit.now result.told) job.entry.now.problem.now first.entry.now first.exit.now) }
            ensures left { IfOk result.done (λ done. done ≡ false → LeavesPool (Stopped O.Outlet job.entry.now
                out.exit.now result.told) (WasRefused result.told) first.entry.now first.exit.now) }
            ensures failed { OnErr result.done
                (Fails (Stopped O.Outlet job.entry.now out.exit.now result.told) first.entry.now first.exit.now) }
        { work_leading(job, first, out) },
    )
}
