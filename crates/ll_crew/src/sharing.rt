//! How a batch comes to other workers.
ghost use Rattle.std.specs.Prelude.{◌≡◌, ◌⊎◌, ◌<◌, length, IfOk, IsSomeAnd, true, false};
ghost use Rattle.std.specs.Arc.{arc_value};
ghost use Rattle.ll_freeze.specs.Frozen.{alternatives_in};
ghost use Rattle.ll_laws.specs.CoreEvents.{PublishAnswer, Publish, Does};
ghost use Rattle.ll_pool.specs.Turns.{OneTurn, EndsWith};
ghost use Rattle.ll_crew.specs.Seats.{IsSeat, Calm, HasNoPlace, HasNoPlaceFor};
ghost use Rattle.ll_crew.specs.Offers.{IfTaken, IfBack, LeavesRest};

use crate::heard::Woken;
use crate::job::Job;
use crate::offer::{Offer, shared};
use ll_bank::OutOfMemory;
use ll_core::PublishFault;
use ll_edge::Gate;
use ll_freeze::Frozen;
use ll_laws::Batch;
use ll_order::Outlet;
use ll_pool::{Seat, SharedPool};
use std::alloc::AllocError;
use std::sync::{Arc, Wait};

/// What became of a batch that was to be published.
#[derive(Drop)]
pub enum Offered<'p> {
    /// The pool has it, and these were woken.
    Taken(Woken),
    /// It came back.
    Back(Arc<Frozen<'p>>),
}

/// Publishes a batch that was split off a piece, and wakes as many workers as it has alternatives. It comes back where the pool has no place
/// for it, and where the gate gives it back.
pub fn publish<'p, R: Wait, G: Gate, O: Outlet>(
    job: &Job<'_, 'p, R, G, O>,
    seat: &mut Seat<Offer<'p, O::Found>>,
    batch: Frozen<'p>,
) -> Result<Offered<'p>, OutOfMemory>
    requires seat { IsSeat job.now.pool.now batch.problem seat.old }
    requires some { 0 < length (alternatives_in batch) }
    requires ends { IsSomeAnd seat.old.mine.piece (λ piece. EndsWith piece.owes (alternatives_in batch)) }
    ensures calm { Calm seat.old seat.new }
    ensures rest { IfOk result (λ offered. IfTaken offered
        (λ _. LeavesRest (alternatives_in batch.entry) seat.old.mine.piece seat.new.mine.piece)) }
    ensures woken { IfOk result (λ offered. IfTaken offered (λ others. others ≡ length (alternatives_in batch.entry))) }
    ensures back { IfOk result (λ offered. IfBack offered (λ same. (arc_value same ≡ batch.entry)
        × (seat.new.mine.piece ≡ seat.old.mine.piece))) }
    ensures back_only { IfOk result (λ offered. IfBack offered (λ _. G.returns job.now.gate.now
        ⊎ HasNoPlace batch.entry seat.new)) }
{
    let alternatives = batch.len();
    let choice = shared(job.alloc, batch)?;
    if job.gate.gives_back() {
        return Ok(Offered::Back(choice));
    }
    match offer(job, seat, &choice) {
        Ok(true) => Ok(Offered::Taken(job.bell.ring(job.rt, alternatives))),
        Ok(false) => Ok(Offered::Back(choice)),
        Err(refused) => Err(refused),
    }
}

// Publishes a choice point. False where the pool has no place for it.
fn offer<'p, R: Wait, G, O: Outlet>(
    job: &Job<'_, 'p, R, G, O>,
    seat: &mut Seat<Offer<'p, O::Found>>,
    choice: &Arc<Frozen<'p>>,
) -> Result<bool, OutOfMemory>
    requires seat { IsSeat job.now.pool.now (arc_value choice.now).problem seat.old }
    requires some { 0 < length (alternatives_in (arc_value choice.now)) }
    requires ends { IsSomeAnd seat.old.mine.piece
        (λ piece. EndsWith piece.owes (alternatives_in (arc_value choice.now))) }
    ensures calm { Calm seat.old seat.new }
    ensures rest { IfOk result (λ done. done ≡ true
        → LeavesRest (alternatives_in (arc_value choice.now)) seat.old.mine.piece seat.new.mine.piece) }
    ensures full { IfOk result (λ done. done ≡ false → HasNoPlace (arc_value choice.now) seat.new
        × (seat.new.mine.piece ≡ seat.old.mine.piece)) }
{
    let point = Offer::new(choice)?;
    let offer = shared(job.alloc, point)?;
    put(job.pool, job.rt, seat, offer)
}

// Publishes a batch, whatever it is. False where the pool has no place for it.
fn put<R: Wait, N: Batch>(
    pool: &SharedPool<N>,
    rt: &R,
    seat: &mut Seat<N>,
    batch: Arc<N>,
) -> Result<bool, OutOfMemory>
    requires own { seat.old.table ≡ pool.now.table }
    requires some { 0 < length (N.alternatives (arc_value batch)) }
    requires alike { IsSomeAnd seat.old.problem (λ problem. N.of (arc_value batch) ≡ problem.of) }
    requires ends { IsSomeAnd seat.old.mine.piece (λ piece. EndsWith piece.owes (N.alternatives (arc_value batch))) }
    ensures turn { (answer : PublishAnswer) × OneTurn N.of N.alternatives (λ found left.
        Does N.alternatives found (Publish seat.old.mine.worker (arc_value batch) answer) left) seat.old seat.new }
    ensures rest { IfOk result (λ done. done ≡ true
        → LeavesRest (N.alternatives (arc_value batch)) seat.old.mine.piece seat.new.mine.piece) }
    ensures full { IfOk result (λ done. done ≡ false → HasNoPlaceFor (N.alternatives (arc_value batch)) seat.new
        × (seat.new.mine.piece ≡ seat.old.mine.piece)) }
{
    match pool.publish(rt, seat, batch) {
        Ok(()) => Ok(true),
        Err(PublishFault::Full { total: _, batch: _ }) => Ok(false),
        Err(PublishFault::OutOfMemory { batch: _ }) => Err(AllocError),
    }
}
