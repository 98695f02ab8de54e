//! What worker 0 tells the outlet, a look at the pool, and the report of a piece.
ghost use Rattle.std.specs.Prelude.{◌≡◌, ◌≤◌, None, IfSome, IsSome, IsNone, IsSomeAnd, true, false};
ghost use Rattle.ll_laws.specs.Sound.{report_of};
ghost use Rattle.ll_pool.specs.Turns.{HasQuit};
ghost use Rattle.ll_crew.specs.Seats.{IsSeat};
ghost use Rattle.ll_crew.specs.Leading.{nothing_told, Stands, Stopped, WasRefused};
ghost use Rattle.ll_crew.specs.Turns.{KeepsPiece, LeavesPool};
ghost use Rattle.ll_crew.specs.Workers.{Holds, Standing, Stays, Leaves};

use crate::job::Job;
use crate::offer::Offer;
use crate::worker::Worker;
use ll_core::{Look, Ready};
use ll_laws::{Batch, Counts, Notice, Report};
use ll_order::{OutFault, Outlet, give};
use ll_pool::{Seat, SharedPool};
use std::marker::PhantomData;
use std::sync::Wait;

/// What a worker has told the outlet: nothing, unless it leads.
#[derive(Drop)]
pub struct Delivery {
    /// It is worker 0, which alone tells the outlet.
    pub leads: bool,
    /// The counts of what was told.
    pub counts: Counts,
    /// Why the outlet refused an event, if it did.
    pub fault: Option<OutFault>,
}

impl Delivery {
    /// Nothing was told yet.
    pub fn new(leads: bool) -> Delivery
        ensures { result ≡ nothing_told leads }
    {
        Delivery {
            leads,
            counts: Counts {
                answers: 0,
                reached: 0,
                inferences: 0,
            },
            fault: None,
        }
    }
}

/// An outlet for a worker that tells nothing.
#[derive(Drop)]
pub struct Mute<E: Notice> {
    /// What it takes.
    pub found: PhantomData<E>,
}

impl<E: Notice> Outlet for Mute<E> {
    type Found = E;

    ghost takes = { λ before event after. Unit {0} };

    ghost breaks = { λ before event after. Unit {0} };

    ghost welcome = { λ before event. Unit {0} };

    ghost faults = { λ outlet. 0 };

    fn event(&mut self, _event: E) -> Result<(), OutFault> {
        Ok(())
    }
}

// After a failed write the pool is stopped, and where the outlet wanted memory it is starved.
fn quit<R: Wait, N: Batch>(pool: &SharedPool<N>, rt: &R, seat: &mut Seat<N>, fault: OutFault)
    requires own { seat.old.table ≡ pool.now.table }
    ensures same { (seat.new.table ≡ seat.old.table) × (seat.new.problem ≡ seat.old.problem)
        × (seat.new.mine.worker ≡ seat.old.mine.worker) × (seat.new.given ≡ seat.old.given) }
    ensures left { HasQuit seat.new.mine.seen }
    ensures turns { seat.old.mine.turns ≤ seat.new.mine.turns }
{
    match fault {
        OutFault::Write => pool.stop(rt, seat),
        OutFault::OutOfMemory => pool.starve(rt, seat),
    }
}

// Gives the outlet the events that are ready. False where it refused one: the pool is then stopped, or starved where the outlet wanted
// memory.
fn tell_all<'p, R: Wait, G, O: Outlet>(
    job: &Job<'_, 'p, R, G, O>,
    seat: &mut Seat<Offer<'p, O::Found>>,
    told: &mut Delivery,
    out: &mut O,
) -> bool
    requires seat { IsSeat job.now.pool.now job.now.problem.now seat.old }
    requires leads { told.old.leads ≡ true }
    requires stands { Stands O.Outlet job.now seat.old out.old told.old }
    ensures leads { told.new.leads ≡ true }
    ensures on { result ≡ true → KeepsPiece (Stands O.Outlet job.now seat.new out.new told.new) seat.old seat.new }
    ensures left { result ≡ false → LeavesPool (Stopped O.Outlet job.now out.new told.new)
        (WasRefused told.new) seat.old seat.new }
    ensures turns { seat.old.mine.turns ≤ seat.new.mine.turns }
{
    for _ in job.rt.forever() {
        let Ready::Events(report) = job.pool.ready(job.rt, seat) else {
            return true;
        };
        let inferences = told.counts.inferences.saturating_add(report.inferences);
        match give(report.events, out, told.counts) {
            Ok(counts) => {
                told.counts = Counts {
                    inferences,
                    ..counts
                };
            }
            Err(fault) => {
                told.fault = Some(fault);
                quit(job.pool, job.rt, seat, fault);
                return false;
            }
        }
    }
    unreachable!()
}

/// A worker that leads gives the outlet the events that are ready. False where it refused one: the pool is then stopped, or starved where
/// the outlet wanted memory.
pub fn tell<'p, R: Wait, G, O: Outlet>(
    job: &Job<'_, 'p, R, G, O>,
    seat: &mut Seat<Offer<'p, O::Found>>,
    told: &mut Delivery,
    out: &mut O,
) -> bool
    requires seat { IsSeat job.now.pool.now job.now.problem.now seat.old }
    requires stands { Stands O.Outlet job.now seat.old out.old told.old }
    ensures leads { told.new.leads ≡ told.old.leads }
    ensures on { result ≡ true → KeepsPiece (Stands O.Outlet job.now seat.new out.new told.new) seat.old seat.new }
    ensures left { result ≡ false → LeavesPool (Stopped O.Outlet job.now out.new told.new)
        (WasRefused told.new) seat.old seat.new }
    ensures turns { seat.old.mine.turns ≤ seat.new.mine.turns }
{
    if told.leads {
        return tell_all(job, seat, told, out);
    }
    true
}

/// A look at the pool, after which a worker that leads gives the outlet what is ready. `None` where it is to leave: the pool is starved or
/// stopped.
pub fn look<'p, R: Wait, G, O: Outlet>(
    job: &Job<'_, 'p, R, G, O>,
    seat: &mut Seat<Offer<'p, O::Found>>,
    told: &mut Delivery,
    out: &mut O,
) -> Option<Look>
    requires seat { IsSeat job.now.pool.now job.now.problem.now seat.old }
    requires stands { Stands O.Outlet job.now seat.old out.old told.old }
    ensures leads { told.new.leads ≡ told.old.leads }
    ensures on { IsSome result → KeepsPiece (Stands O.Outlet job.now seat.new out.new told.new) seat.old seat.new }
    ensures running { IfSome result (λ look. (look.starved ≡ false) × (look.stopped ≡ false)) }
    ensures left { IsNone result → LeavesPool (Stopped O.Outlet job.now out.new told.new)
        (WasRefused told.new) seat.old seat.new }
{
    let look = job.pool.look(job.rt, seat);
    if look.starved || look.stopped {
        return None;
    }
    if !tell(job, seat, told, out) {
        return None;
    }
    Some(look)
}

/// Reports what was found for a piece that owes nothing more. False where the worker is to leave.
pub(crate) fn report<'p, R: Wait, G, O: Outlet>(
    job: &Job<'_, 'p, R, G, O>,
    worker: &mut Worker<'_, '_, 'p, O>,
    found: Report<O::Found>,
) -> bool
    requires seat { IsSeat job.now.pool.now job.now.problem.now worker.old.seat.now }
    requires stands { Standing O.Outlet job.now worker.old }
    requires owes { IsSomeAnd worker.old.seat.now.mine.piece (λ piece. found ≡ report_of piece.owes) }
    ensures holds { Holds worker.old worker.new }
    ensures kept { worker.new.kept.now ≡ worker.old.kept.now }
    ensures done { result ≡ true → Stays O.Outlet job.now worker.old worker.new
        × (worker.new.seat.now.mine.piece ≡ None) }
    ensures left { result ≡ false → Leaves O.Outlet job.now worker.old worker.new }
{
    job.pool.report(job.rt, worker.seat, found);
    let _woken = job.bell.ring(job.rt, 0);
    tell(job, worker.seat, worker.told, worker.out)
}
