//! The pool.
ghost use Rattle.std.specs.Prelude.{◌≡◌, ◌<◌, ◌≤◌, length, IfOk};
ghost use Rattle.std.specs.Arc.{arc_value};
ghost use Rattle.ll_laws.specs.Sound.{Shaped};
ghost use Rattle.ll_laws.specs.CoreEvents.{Publishes, Readies, opening, NoOpen, IsOpenAt, starves, stops, reported};
ghost use Rattle.ll_core.specs.Calls.{ClaimsAs, LooksAs, HandsBack, publish_answer, ready_answer};

use crate::answers::{Claimed, Look, PublishFault, Ready};
use crate::cursor::{Stop, advance, take_report};
use crate::room::{Slot, State, Waiting, copies_of, take_room};
use ll_bank::OutOfMemory;
use ll_laws::{Batch, Report};
use std::alloc::Global;
use std::collections::VecDeque;
use std::marker::Model;
use std::sync::Arc;

/// Batches of alternatives, the pieces that were made of the claimed ones, and how far these are.
///
/// Contracts see it as plain data, and each call as the core event of its name. Alternatives are claimed in the order in which they
/// were published, so a piece has the number that its alternative has in this order.
///
/// `claim`, `report`, `look` and a `ready` that finds no report take constant time, `publish` takes constant time for each alternative,
/// and a `ready` that gives a report takes constant time for each batch that its piece published. `new` and `publish` alone take
/// memory.
pub struct Pool<N: Batch> {
    batches: Vec<Arc<N>>,
    pieces: Vec<Slot<N::Found>>,
    // The alternatives that are not claimed, in the order in which they were published.
    waiting: VecDeque<Waiting<N>>,
    // For each batch the number of its first alternative in the order of publishing.
    starts: Vec<u32>,
    // What is left of the walk over the alternatives that are not taken; what comes next is on top.
    stack: Vec<Stop>,
    workers: u32,
    busy: u32,
    starved: bool,
    stopped: bool,
}

// Written out, so that a proof sees one call where it goes, and not one for each part.
impl<N: Batch> Drop for Pool<N> {
    fn drop(self) {
        let Pool {
            batches: _,
            pieces: _,
            waiting: _,
            starts: _,
            stack: _,
            workers: _,
            busy: _,
            starved: _,
            stopped: _,
        } = self;
    }
}

impl<N: Batch> Model for Pool<N> {
    ghost use Rattle.std.specs.Prelude.{map, length};
    ghost use Rattle.std.specs.Vec.{vec_capacity};
    ghost use Rattle.ll_laws.specs.Pool.{PoolData};
    ghost use Rattle.ll_laws.specs.PoolCodes.{pool_code};
    ghost use Rattle.ll_laws.specs.declared.Event.{Event};
    ghost use Rattle.ll_laws.specs.contracts.Event as event;

    ghost Value = { PoolData N Event };

    ghost coded = { pool_code event.the_row.coded N.code };

    ghost use Rattle.ll_core.specs.Slots.{stop_in, data_of};
    ghost use Rattle.ll_core.specs.Whole.{Whole};

    ghost view = { λ p. data_of p.batches.items p.pieces.items (length p.waiting.items) p.workers p.busy p.starved p.stopped };

    ghost invariant = { λ p. Whole N.alternatives (data_of p.batches.items p.pieces.items (length p.waiting.items) p.workers p.busy p.starved p.stopped)
        p.waiting.items p.starts.items (map stop_in p.stack.items) (vec_capacity p.pieces) (vec_capacity p.stack) };
}

impl<N: Batch> Pool<N> {
    /// A pool with this root, whose one alternative is untried, for 1 to 64 workers, numbered from 0.
    pub fn new(alloc: Global, root: Arc<N>, workers: u32) -> Result<Pool<N>, OutOfMemory>
        requires workers { (0 < workers) × (workers ≤ 64) }
        requires one { length (N.alternatives (arc_value root)) ≡ 1 }
        ensures { IfOk result (λ p. p ≡ opening (arc_value root) workers) }
    {
        let waiting = copies_of(alloc, &root, 0, 1)?;
        let pieces = Vec::with_capacity(alloc, 1)?;
        let mut starts = Vec::new(alloc);
        starts.push(0)?;
        let mut stack = Vec::new(alloc);
        stack.push(Stop { batch: 0, k: 0 })?;
        let mut batches = Vec::new(alloc);
        batches.push(root)?;
        Ok(Pool {
            batches,
            pieces,
            waiting,
            starts,
            stack,
            workers,
            busy: 0,
            starved: false,
            stopped: false,
        })
    }

    /// Claims an alternative for a worker that has no open piece: the one that was published first of those that are untried.
    ///
    /// In this order: `Stopped` exactly where the pool is stopped, `Starved` where it is starved, `Work` where an alternative is
    /// untried, `Idle` where a piece is open, and `Finished` where none is. All but `Work` leave the pool as it is. It takes no memory.
    pub fn claim(&mut self, worker: u32) -> Claimed<N>
        requires worker { worker < self.old.workers }
        requires none_open { NoOpen self.old worker }
        ensures { ClaimsAs N.alternatives self.old worker result self.new }
    {
        if self.stopped {
            return Claimed::Stopped;
        }
        if self.starved {
            return Claimed::Starved;
        }
        match self.waiting.pop_front() {
            Some(Waiting { batch, k, copy }) => {
                let piece = self.pieces.len() as u32;
                let published = Vec::new(*self.pieces.allocator());
                self.pieces.push_reserved(Slot {
                    batch,
                    k,
                    worker,
                    published,
                    state: State::Open,
                });
                self.busy += 1;
                Claimed::Work {
                    piece,
                    batch: copy,
                    k,
                }
            }
            None => {
                if 0 < self.busy {
                    return Claimed::Idle { busy: self.busy };
                }
                Claimed::Finished
            }
        }
    }

    /// Publishes a batch, which is not empty, of an open piece.
    ///
    /// `Full` exactly where the pool would have more than 4,294,967,295 alternatives, which is judged before memory is asked for;
    /// otherwise `OutOfMemory` where memory runs out. Either hands the batch back and leaves the pool as it is. After `Ok` there is
    /// room for all that its pieces will need.
    pub fn publish(&mut self, piece: u32, batch: Arc<N>) -> Result<(), PublishFault<N>>
        requires open { IsOpenAt self.old piece }
        requires some { 0 < length (N.alternatives (arc_value batch)) }
        ensures event { Publishes N.alternatives self.old piece (arc_value batch) (publish_answer result) self.new }
        ensures back { HandsBack (arc_value batch) result }
    {
        let len = batch.len();
        let total = (self.pieces.len() + self.waiting.len()) as u32;
        if u32::MAX - total < len {
            return Err(PublishFault::Full { total, batch });
        }
        let number = self.batches.len() as u32;
        let Ok(mut copies) = copies_of(*self.pieces.allocator(), &batch, number, len) else {
            return Err(PublishFault::OutOfMemory { batch });
        };
        let Ok(()) = self.starts.reserve(1) else {
            return Err(PublishFault::OutOfMemory { batch });
        };
        let Ok(()) = self.stack.reserve(1 + self.batches.len()) else {
            return Err(PublishFault::OutOfMemory { batch });
        };
        let Ok(()) = take_room(
            &mut self.batches,
            &mut self.pieces,
            &mut self.waiting,
            &mut copies,
            piece as usize,
        ) else {
            return Err(PublishFault::OutOfMemory { batch });
        };
        self.batches.push_reserved(batch);
        self.starts.push_reserved(total);
        self.pieces[piece as usize].published.push_reserved(number);
        Ok(())
    }

    /// Closes an open piece with its report. It takes no memory.
    pub fn report(&mut self, piece: u32, report: Report<N::Found>)
        requires { IsOpenAt self.old piece }
        ensures { self.new ≡ reported self.old piece report }
    {
        self.pieces[piece as usize].state = State::Closed(report);
        self.busy -= 1;
    }

    /// Marks the pool as starved, for a worker that wanted memory: nothing is claimed any more. It takes no memory.
    pub fn starve(&mut self, _worker: u32)
        ensures { self.new ≡ starves self.old }
    {
        self.starved = true;
    }

    /// Stops the pool: nothing is claimed any more. It takes no memory.
    pub fn stop(&mut self)
        ensures { self.new ≡ stops self.old }
    {
        self.stopped = true;
    }

    /// How many alternatives are untried and pieces open, and whether the pool is starved or stopped. Each pool has the parts of
    /// soundness that hold whatever was reported.
    pub fn look(&self) -> Look
        ensures event { LooksAs N.alternatives self.now result self.now }
        ensures shaped { Shaped N.alternatives self.now }
    {
        Look {
            untried: self.waiting.len() as u32,
            busy: self.busy,
            starved: self.starved,
            stopped: self.stopped,
        }
    }

    /// Takes the report of the next piece in the order of one worker.
    ///
    /// `NotYet` exactly where this next piece is open, with its number, or is an alternative that is not claimed. `All` exactly where
    /// every piece is taken and none is untried. Either leaves the pool as it is. It takes no memory.
    pub fn ready(&mut self) -> Ready<N::Found>
        ensures event { Readies N.alternatives self.old (ready_answer result) self.new }
        ensures shaped { Shaped N.alternatives self.old }
    {
        let Some(&stop) = self.stack.last() else {
            return Ready::All;
        };
        let piece = self.starts[stop.batch as usize] + stop.k;
        let at = piece as usize;
        if self.pieces.len() <= at {
            return Ready::NotYet { piece: None };
        }
        let len = self.batches[stop.batch as usize].len();
        let Some(report) = take_report(&mut self.pieces[at].state) else {
            return Ready::NotYet { piece: Some(piece) };
        };
        advance(&mut self.stack, &self.pieces[at].published, stop, len);
        Ready::Events(report)
    }
}
