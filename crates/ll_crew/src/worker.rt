//! The work of one worker.
ghost use Rattle.std.specs.Prelude.{◌≡◌, ◌⊎◌, None, IfOk, OnOk, OnErr, true, false};
ghost use Rattle.ll_crew.specs.Seats.{IsSeat, Same, HasLeft, IsOver};
ghost use Rattle.ll_crew.specs.Leading.{Stands, Stopped, WasRefused};
ghost use Rattle.ll_crew.specs.Turns.{Stays, Ended, LeavesPool, Fails, CanWork};
ghost use Rattle.ll_crew.specs.Pieces.{IsKeptOf};
ghost use Rattle.ll_crew.specs.Runs.{TakesTurn};
ghost use Rattle.ll_crew.specs.Workers as workers;
ghost use Rattle.ll_crew.specs.Workers.{Holds, Standing, WentTo};

use crate::bell::Bell;
use crate::heard::AllWoken;
use crate::job::{Job, Sharing};
use crate::lead::{Delivery, Mute, tell};
use crate::offer::Offer;
use crate::piece::work_piece;
use ll_bank::OutOfMemory;
use ll_core::Claimed;
use ll_edge::Gate;
use ll_engine::Engine;
use ll_laws::{Notice, Problem};
use ll_order::Outlet;
use ll_pool::{Seat, SharedPool};
use std::alloc::Global;
use std::marker::PhantomData;
use std::snapshot::Snapshot;
use std::sync::Wait;
use std::thread;

/// So often a worker that finds nothing to claim yields and tries again, before it waits for the bell.
const YIELDS: u32 = 4;

/// What a worker has at hand. Its engine goes on from one claim to the next.
#[derive(Drop)]
pub(crate) struct Worker<'w, 'o, 'p, O: Outlet> {
    /// Its seat at the pool.
    pub(crate) seat: &'w mut Seat<Offer<'p, O::Found>>,
    /// The engine that it keeps between two pieces.
    pub(crate) kept: &'w mut Option<Engine<'p>>,
    /// What it has told the outlet.
    pub(crate) told: &'w mut Delivery,
    /// The outlet.
    pub(crate) out: &'o mut O,
}

// How a claim went.
enum ClaimOutcome {
    // An alternative was claimed, worked and reported.
    Worked,
    // Nothing is untried, and others work.
    Idle,
    // Nothing is untried or open.
    Ended,
    // The pool is starved or stopped.
    Left,
}

// Claims an alternative and works it, if there is one. Where there is none a worker that leads gives the outlet what is ready.
fn claim_one<'p, R: Wait, G: Gate, O: Outlet>(
    job: &Job<'_, 'p, R, G, O>,
    worker: &mut Worker<'_, '_, 'p, O>,
) -> Result<ClaimOutcome, OutOfMemory>
    requires suits { O.Found.suits job.now.problem.now }
    requires seat { CanWork job.now.pool.now job.now.problem.now worker.old.seat.now }
    requires stands { Standing O.Outlet job.now worker.old }
    requires kept { IsKeptOf job.now.problem.now worker.old.kept.now }
    ensures holds { Holds worker.old worker.new }
    ensures kept { OnOk result (IsKeptOf job.now.problem.now worker.new.kept.now) }
    ensures went { IfOk result (λ went. WentTo O.Outlet job.now went worker.old worker.new) }
    ensures turns { IfOk result (λ went. TakesTurn went worker.old.seat.now worker.new.seat.now) }
    ensures failed { OnErr result (workers.Stays O.Outlet job.now worker.old worker.new) }
{
    match job.pool.claim(job.rt, worker.seat) {
        Claimed::Work { piece: _, batch, k } => {
            if work_piece(job, worker, batch, k)? {
                return Ok(ClaimOutcome::Worked);
            }
            Ok(ClaimOutcome::Left)
        }
        Claimed::Idle { busy: _ } => {
            if tell(job, worker.seat, worker.told, worker.out) {
                return Ok(ClaimOutcome::Idle);
            }
            Ok(ClaimOutcome::Left)
        }
        Claimed::Finished => Ok(ClaimOutcome::Ended),
        Claimed::Starved => Ok(ClaimOutcome::Left),
        Claimed::Stopped => Ok(ClaimOutcome::Left),
    }
}

// Claims and works until nothing is untried or open, which is answered by true, or until the pool is starved or stopped. The engine of one
// claim is kept for the next.
fn work_with<'p, R: Wait, G: Gate, O: Outlet>(
    job: &Job<'_, 'p, R, G, O>,
    worker: &mut Worker<'_, '_, 'p, O>,
) -> Result<bool, OutOfMemory>
    requires suits { O.Found.suits job.now.problem.now }
    requires seat { CanWork job.now.pool.now job.now.problem.now worker.old.seat.now }
    requires stands { Standing O.Outlet job.now worker.old }
    requires kept { IsKeptOf job.now.problem.now worker.old.kept.now }
    ensures holds { Holds worker.old worker.new }
    ensures done { IfOk result (λ done. done ≡ true → workers.Ended O.Outlet job.now worker.old worker.new) }
    ensures left { IfOk result (λ done. done ≡ false → workers.Leaves O.Outlet job.now worker.old worker.new) }
    ensures failed { OnErr result (workers.Stays O.Outlet job.now worker.old worker.new) }
{
    let mut claims = 0u64;
    let mut misses = 0u32;
    'claims: for _ in job.rt.forever() {
        job.gate.pause(worker.seat.worker(), claims);
        let heard = job.bell.heard(job.rt, worker.seat);
        match claim_one(job, worker)? {
            ClaimOutcome::Worked => {
                claims = claims.saturating_add(1);
                misses = 0;
            }
            ClaimOutcome::Idle => {
                if misses < YIELDS {
                    thread::yield_now();
                } else {
                    job.bell.wait(job.rt, worker.told.leads, heard, worker.seat);
                }
                misses = misses.saturating_add(1);
            }
            ClaimOutcome::Ended => return Ok(true),
            ClaimOutcome::Left => return Ok(false),
        }
    }
    unreachable!()
}

// The same with no engine at first.
fn work_on<'p, R: Wait, G: Gate, O: Outlet>(
    job: &Job<'_, 'p, R, G, O>,
    seat: &mut Seat<Offer<'p, O::Found>>,
    told: &mut Delivery,
    out: &mut O,
) -> Result<bool, OutOfMemory>
    requires suits { O.Found.suits job.now.problem.now }
    requires seat { CanWork job.now.pool.now job.now.problem.now seat.old }
    requires stands { Stands O.Outlet job.now seat.old out.old told.old }
    ensures leads { told.new.leads ≡ told.old.leads }
    ensures done { IfOk result (λ done. done ≡ true → Ended
        (Stands O.Outlet job.now seat.new out.new told.new) job.now.problem.now seat.old seat.new) }
    ensures left { IfOk result (λ done. done ≡ false → LeavesPool (Stopped O.Outlet job.now out.new told.new)
        (WasRefused told.new) seat.old seat.new) }
    ensures failed { OnErr result (Stays (Stands O.Outlet job.now seat.new out.new told.new) seat.old seat.new) }
{
    let mut kept = None;
    let mut worker = Worker {
        seat,
        kept: &mut kept,
        told,
        out,
    };
    let done = work_with(job, &mut worker);
    drop(kept);
    done
}

/// Claims and works until nothing is untried or open, which is answered by true, or until the pool is starved or stopped. A worker that
/// leads gives the outlet what is ready. Where memory runs out it starves the pool. In each case the other workers are woken, after its last turn.
pub(crate) fn work_as<'p, R: Wait, G: Gate, O: Outlet>(
    job: &Job<'_, 'p, R, G, O>,
    seat: &mut Seat<Offer<'p, O::Found>>,
    told: &mut Delivery,
    out: &mut O,
) -> (Result<bool, OutOfMemory>, AllWoken<Offer<'p, O::Found>>)
    requires suits { O.Found.suits job.now.problem.now }
    requires seat { CanWork job.now.pool.now job.now.problem.now seat.old }
    requires stands { Stands O.Outlet job.now seat.old out.old told.old }
    ensures leads { told.new.leads ≡ told.old.leads }
    ensures done { IfOk result.0 (λ done. done ≡ true → Ended
        (Stands O.Outlet job.now seat.new out.new told.new) job.now.problem.now seat.old seat.new) }
    ensures left { IfOk result.0 (λ done. done ≡ false → LeavesPool (Stopped O.Outlet job.now out.new told.new)
        (WasRefused told.new) seat.old seat.new) }
    ensures failed { OnErr result.0 (Fails (Stopped O.Outlet job.now out.new told.new) seat.old seat.new) }
    ensures woken { result.1 ≡ seat.new.mine.turns }
{
    match work_on(job, seat, told, out) {
        Ok(done) => (Ok(done), job.bell.ring_all(job.rt, seat)),
        Err(refused) => {
            job.pool.starve(job.rt, seat);
            (Err(refused), job.bell.ring_all(job.rt, seat))
        }
    }
}

/// Claims alternatives of a shared pool and works them, until nothing is untried or open, or until the pool is starved or stopped. The
/// pool is one of this problem, and the seat has no open piece.
///
/// Between two looks the worker makes at most 256 steps. Where nothing is untried and fewer pieces are open than there are workers, it
/// publishes its oldest choice point. After `Ok` it has neither starved nor stopped the pool. Where memory runs out it starves the pool.
///
/// The program does not call it: its workers are those of a crew.
pub fn work<'p, R: Wait, G: Gate, E: Notice>(
    rt: &R,
    alloc: Global,
    problem: &'p Problem,
    pool: &SharedPool<Offer<'p, E>>,
    seat: &mut Seat<Offer<'p, E>>,
    gate: &G,
) -> Result<(), OutOfMemory>
    requires asked { IsSeat pool.now problem.now seat.old }
    requires rests { seat.old.mine.piece ≡ None }
    requires suits { E.suits problem.now }
    ensures same { Same seat.old seat.new }
    ensures ended { OnOk result (IsOver problem.now seat.new ⊎ HasLeft seat.new) }
    ensures quit { OnOk result (seat.new.mine.quit ≡ seat.old.mine.quit) }
    ensures starved { OnErr result (seat.new.mine.seen.starved ≡ true) }
{
    let mut mute: Mute<E> = Mute { found: PhantomData };
    let start = Snapshot::of(&mute);
    let mut told = Delivery::new(false);
    let bell = Bell::silent();
    let job = Job {
        rt,
        alloc,
        problem,
        pool,
        bell: &bell,
        gate,
        sharing: Sharing::WhereIdle,
        start: &start,
    };
    let (done, _woken) = work_as(&job, seat, &mut told, &mut mute);
    done?;
    Ok(())
}
