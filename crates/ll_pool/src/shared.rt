//! The shared pool: each call that takes the turn is one event of the pool.
ghost use Rattle.std.specs.Prelude.{◌≡◌, ◌⊎◌, ◌<◌, ◌≤◌, ◌∷◌, [], length, None, IfOk, IsSomeAnd};
ghost use Rattle.std.specs.Arc.{arc_value};
ghost use Rattle.ll_laws.specs.Sound.{report_of};
ghost use Rattle.ll_laws.specs.CoreEvents.{Does};
ghost use Rattle.ll_laws.specs.CoreEvents as event;
ghost use Rattle.ll_core.specs.Calls.{ClaimsAs, HandsBack, publish_answer, overview, ready_answer};
ghost use Rattle.ll_turn.specs.Views.{without};
ghost use Rattle.ll_turn.specs.Numbers.{HasToGive};
ghost use Rattle.ll_pool.specs.Fits.{SeatFits, parts, numbers_of};
ghost use Rattle.ll_pool.specs.Turns.{IsFirstSeat, OneTurn, OwesWork, EndsWith, OwesRest, number_made, HasQuit};

use crate::data::TurnPool;
use crate::seat::Seat;
use ll_bank::OutOfMemory;
use ll_core::{Claimed, Look, Pool, PublishFault, Ready};
use ll_laws::{Batch, Report};
use ll_turn::{NewFault, Turn};
use std::alloc::{AllocError, Global};
use std::marker::Model;
use std::sync::{Arc, Wait};

/// A pool that workers take turns with. Contracts see the name of its turn (`table`) and the number of workers that it was made with.
#[derive(Drop)]
pub struct SharedPool<N: Batch> {
    turn: Turn<TurnPool<N>>,
    workers: u32,
}

impl<N: Batch> Model for SharedPool<N> {
    ghost use Rattle.ll_pool.specs.Turns.{PoolSight};

    ghost Value = { PoolSight };

    ghost view = { λ pool. record { table = pool.turn; workers = pool.workers } };
}

// The piece that was made.
fn piece_of<N: Batch>(answer: &Claimed<N>) -> Option<u32>
    ensures { result ≡ number_made answer.now }
{
    match answer {
        Claimed::Work {
            piece,
            batch: _,
            k: _,
        } => Some(*piece),
        _ => None,
    }
}

impl<N: Batch> SharedPool<N> {
    /// A shared pool with this root, whose one alternative is untried, for 1 to 64 workers, and the seat of worker 0. This seat has the
    /// numbers of all other workers to give.
    ///
    /// Where memory runs out the root is given up.
    pub fn new(
        alloc: Global,
        root: Arc<N>,
        workers: u32,
    ) -> Result<(SharedPool<N>, Seat<N>), OutOfMemory>
        requires workers { (0 < workers) × (workers ≤ 64) }
        requires one { length (N.alternatives (arc_value root)) ≡ 1 }
        ensures workers { IfOk result (λ made. made.0.workers ≡ workers) }
        ensures seat { IfOk result (λ made. IsFirstSeat N.of N.alternatives
            (arc_value root) workers made.0.table made.1) }
    {
        let pool = Pool::new(alloc, root, workers)?;
        match Turn::new(alloc, TurnPool { pool }) {
            Ok((turn, pass)) => Ok((
                SharedPool { turn, workers },
                Seat {
                    pass,
                    worker: 0,
                    piece: None,
                },
            )),
            Err(NewFault::OutOfMemory { value: _ }) => Err(AllocError),
        }
    }

    /// The seat of this worker, which is the least number that `from` has to give. It has no open piece and none to give further.
    pub fn seat(&self, from: &mut Seat<N>, worker: u32) -> Seat<N>
        requires own { from.old.table ≡ self.now.table }
        requires some_left { HasToGive (numbers_of from.old.mine) }
        requires least { worker ≡ from.old.mine.from }
        ensures kept { from.new ≡ record from.old { mine = (parts from.old.mine).0; given = worker ∷ from.old.given } }
        ensures new { result ≡ record from.old { mine = (parts from.old.mine).1; given = [] } }
    {
        let pass = from.pass.split(&self.turn);
        Seat {
            pass,
            worker,
            piece: None,
        }
    }

    /// Takes back another seat. It has no open piece, unless the pool that it last saw is starved or stopped.
    pub fn join(&self, seat: &mut Seat<N>, other: Seat<N>)
        requires own { (seat.old.table ≡ self.now.table) × (other.table ≡ self.now.table) }
        requires done { (other.mine.piece ≡ None) ⊎ HasQuit other.mine.seen }
        ensures { seat.new ≡ record seat.old { given = without other.mine.worker seat.old.given } }
    {
        let Seat {
            pass,
            worker: _,
            piece: _,
        } = other;
        seat.pass.join(&self.turn, pass);
    }

    /// The pool, which fits the seat, once every other seat was joined to that of worker 0.
    pub fn close(self, seat: Seat<N>) -> Pool<N>
        requires own { seat.table ≡ self.table }
        requires first { seat.mine.worker ≡ 0 }
        requires alone { seat.given ≡ [] }
        ensures { SeatFits N.of N.alternatives result seat.problem seat.mine }
    {
        let Seat {
            pass,
            worker: _,
            piece: _,
        } = seat;
        let SharedPool { turn, workers: _ } = self;
        let TurnPool { pool } = turn.close(pass);
        pool
    }

    /// The number of workers that it was made with.
    pub fn workers(&self) -> u32
        ensures { result ≡ self.now.workers }
    {
        self.workers
    }

    /// Claims an alternative for a seat that has no open piece. `Work` makes the seat owe what this alternative owes, and with every
    /// other answer it has no open piece. The answers come as `Pool::claim` gives them on the pool that was found.
    pub fn claim<R: Wait>(&self, rt: &R, seat: &mut Seat<N>) -> Claimed<N>
        requires own { seat.old.table ≡ self.now.table }
        requires rests { seat.old.mine.piece ≡ None }
        ensures turn { OneTurn N.of N.alternatives
            (λ found left. ClaimsAs N.alternatives found seat.old.mine.worker result left) seat.old seat.new }
        ensures owes { OwesWork N.alternatives result seat.new.mine.piece }
    {
        let mut held = self.turn.take(rt, &mut seat.pass);
        let answer = held.value().pool.claim(seat.worker);
        self.turn.give(held, &mut seat.pass);
        seat.piece = piece_of(&answer);
        answer
    }

    /// Publishes a batch of the seat's open piece. The batch is not empty and of what the pool is of, what the seat owes ends with what
    /// the batch owes, and it costs no more than the seat owes. After `Ok` the seat owes the rest.
    ///
    /// The answers come as `Pool::publish` gives them on the pool that was found. A fault hands the batch back, and the seat then owes
    /// what it owed.
    pub fn publish<R: Wait>(
        &self,
        rt: &R,
        seat: &mut Seat<N>,
        batch: Arc<N>,
    ) -> Result<(), PublishFault<N>>
        requires own { seat.old.table ≡ self.now.table }
        requires some { 0 < length (N.alternatives (arc_value batch)) }
        requires alike { IsSomeAnd seat.old.problem (λ problem. N.of (arc_value batch) ≡ problem.of) }
        requires ends { IsSomeAnd seat.old.mine.piece
            (λ piece. EndsWith piece.owes (N.alternatives (arc_value batch))) }
        ensures turn { OneTurn N.of N.alternatives
            (λ found left. Does N.alternatives found (event.Publish seat.old.mine.worker (arc_value batch)
            (publish_answer result)) left) seat.old seat.new }
        ensures owes { OwesRest (N.alternatives (arc_value batch)) result seat.old.mine.piece seat.new.mine.piece }
        ensures back { HandsBack (arc_value batch) result }
    {
        let Some(piece) = seat.piece else {
            unreachable!()
        };
        let mut held = self.turn.take(rt, &mut seat.pass);
        let answer = held.value().pool.publish(piece, batch);
        self.turn.give(held, &mut seat.pass);
        answer
    }

    /// Closes the seat's open piece with its report, which tells exactly what the seat owes, the cost cut at the greatest `u64`. The
    /// seat then has no open piece.
    pub fn report<R: Wait>(&self, rt: &R, seat: &mut Seat<N>, report: Report<N::Found>)
        requires own { seat.old.table ≡ self.now.table }
        requires whole { IsSomeAnd seat.old.mine.piece (λ piece. report ≡ report_of piece.owes) }
        ensures turn { OneTurn N.of N.alternatives
            (λ found left. Does N.alternatives found
            (event.Report seat.old.mine.worker report) left) seat.old seat.new }
        ensures owes { seat.new.mine.piece ≡ None }
    {
        let Some(piece) = seat.piece else {
            unreachable!()
        };
        let mut held = self.turn.take(rt, &mut seat.pass);
        held.value().pool.report(piece, report);
        self.turn.give(held, &mut seat.pass);
        seat.piece = None;
    }

    /// Marks the pool as starved, for a worker that wanted memory.
    pub fn starve<R: Wait>(&self, rt: &R, seat: &mut Seat<N>)
        requires own { seat.old.table ≡ self.now.table }
        ensures turn { OneTurn N.of N.alternatives
            (λ found left. Does N.alternatives found (event.Starve seat.old.mine.worker) left) seat.old seat.new }
        ensures owes { seat.new.mine.piece ≡ seat.old.mine.piece }
    {
        let mut held = self.turn.take(rt, &mut seat.pass);
        held.value().pool.starve(seat.worker);
        self.turn.give(held, &mut seat.pass);
    }

    /// Stops the pool.
    pub fn stop<R: Wait>(&self, rt: &R, seat: &mut Seat<N>)
        requires own { seat.old.table ≡ self.now.table }
        ensures turn { OneTurn N.of N.alternatives
            (λ found left. Does N.alternatives found event.Stop left) seat.old seat.new }
        ensures owes { seat.new.mine.piece ≡ seat.old.mine.piece }
    {
        let mut held = self.turn.take(rt, &mut seat.pass);
        held.value().pool.stop();
        self.turn.give(held, &mut seat.pass);
    }

    /// How many alternatives are untried and pieces open, and whether the pool is starved or stopped.
    pub fn look<R: Wait>(&self, rt: &R, seat: &mut Seat<N>) -> Look
        requires own { seat.old.table ≡ self.now.table }
        ensures turn { OneTurn N.of N.alternatives
            (λ found left. Does N.alternatives found (event.Look (overview result)) left) seat.old seat.new }
        ensures owes { seat.new.mine.piece ≡ seat.old.mine.piece }
    {
        let mut held = self.turn.take(rt, &mut seat.pass);
        let answer = held.value().pool.look();
        self.turn.give(held, &mut seat.pass);
        answer
    }

    /// Takes the report of the next piece in the order of one worker, for the seat of worker 0.
    pub fn ready<R: Wait>(&self, rt: &R, seat: &mut Seat<N>) -> Ready<N::Found>
        requires own { seat.old.table ≡ self.now.table }
        requires first { seat.old.mine.worker ≡ 0 }
        ensures turn { OneTurn N.of N.alternatives
            (λ found left. Does N.alternatives found (event.Ready (ready_answer result)) left) seat.old seat.new }
        ensures owes { seat.new.mine.piece ≡ seat.old.mine.piece }
    {
        let mut held = self.turn.take(rt, &mut seat.pass);
        let answer = held.value().pool.ready();
        self.turn.give(held, &mut seat.pass);
        answer
    }
}
