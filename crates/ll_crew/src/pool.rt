//! The pool of a search: how it is made with the seats of its workers, and how it comes back.
ghost use Rattle.std.specs.Prelude.{◌≡◌, ◌<◌, ◌≤◌, [], suc, length, IfOk, map};
ghost use Rattle.std.specs.Arc.{arc_value};
ghost use Rattle.ll_laws.specs.CoreEvents.{opening as opens};
ghost use Rattle.ll_laws.specs.Sound.{Every};
ghost use Rattle.ll_laws.specs.Valid.{IsValid};
ghost use Rattle.ll_freeze.specs.Frozen.{alternatives_in, opening};
ghost use Rattle.ll_freeze.specs.Indexed.{IsIndexOf};
ghost use Rattle.ll_freeze.specs.Parts.{Base};
ghost use Rattle.ll_pool.specs.Fits.{SeatFits};
ghost use Rattle.ll_crew.specs.Seats.{of_batch};
ghost use Rattle.ll_crew.specs.Crews.{worker_of, number_of, without_all, IsBack, MayJoin, MayBegin, IsCrew};
ghost use Rattle.ll_crew.specs.Turns.{CanWork};

use crate::offer::{Offer, shared};
use ll_bank::OutOfMemory;
use ll_core::Pool;
use ll_freeze::Frozen;
use ll_index::Index;
use ll_laws::{Batch, Notice, Problem};
use ll_pool::{Seat, SharedPool};
use std::alloc::Global;
use std::sync::Arc;

// The root of the search of a problem, which nobody else has.
fn root_of<'p, E: Notice>(
    alloc: Global,
    problem: &'p Problem,
    index: Arc<Index>,
) -> Result<Arc<Offer<'p, E>>, OutOfMemory>
    requires valid { IsValid problem.now }
    requires index { IsIndexOf problem.now (arc_value index) }
    ensures { IfOk result (λ root. (base : Base) × (arc_value root ≡ opening problem.entry.now base)) }
{
    let root = Frozen::start_with(alloc, problem, index)?;
    let choice = shared(alloc, root)?;
    shared(alloc, Offer::of(choice))
}

// Seats for the workers after the first, whatever their batches are.
fn seats<N: Batch>(
    alloc: Global,
    pool: &SharedPool<N>,
    first: &mut Seat<N>,
) -> Result<Vec<Seat<N>>, OutOfMemory>
    requires own { MayBegin pool.now first.old.problem first.old × (first.old.given ≡ [])
        × (first.old.mine.worker ≡ 0) }
    requires range { (first.old.mine.from ≡ 1) × (first.old.mine.end ≡ pool.now.workers) }
    requires some { 0 < pool.now.workers }
    ensures first { MayBegin pool.now first.old.problem first.new × (first.new.mine.worker ≡ 0)
        × (first.new.mine.seen ≡ first.old.mine.seen) }
    ensures ok { IfOk result (λ v. Every (MayBegin pool.now first.old.problem) v.items
        × (without_all (map number_of v.items) first.new.given ≡ [])) }
    ensures each { IfOk result (λ v. suc (length v.items) ≡ pool.now.workers) }
{
    let mut all = Vec::new(alloc);
    for worker in 1..pool.workers() {
        all.push(pool.seat(first, worker))?;
    }
    Ok(all)
}

// A pool with this root, and the seats of all its workers, whatever its batches are.
fn crew_from<N: Batch>(
    alloc: Global,
    root: Arc<N>,
    workers: u32,
) -> Result<(SharedPool<N>, Seat<N>, Vec<Seat<N>>), OutOfMemory>
    requires workers { (0 < workers) × (workers ≤ 64) }
    requires one { length (N.alternatives (arc_value root)) ≡ 1 }
    ensures { IfOk result (λ made. IsCrew N.of N.alternatives (arc_value root) workers made.0 made.1 made.2.items) }
{
    let (pool, mut first) = SharedPool::new(alloc, root, workers)?;
    match seats(alloc, &pool, &mut first) {
        Ok(others) => Ok((pool, first, others)),
        Err(refused) => {
            drop(first);
            drop(pool);
            Err(refused)
        }
    }
}

/// A pool whose root is the whole search, and the seats of all its workers, of which the first stands by itself.
pub fn crew_of<'p, E: Notice>(
    alloc: Global,
    problem: &'p Problem,
    index: Arc<Index>,
    workers: u32,
) -> Result<
    (
        SharedPool<Offer<'p, E>>,
        Seat<Offer<'p, E>>,
        Vec<Seat<Offer<'p, E>>>,
    ),
    OutOfMemory,
>
    requires workers { (0 < workers) × (workers ≤ 64) }
    requires valid { IsValid problem.now }
    requires index { IsIndexOf problem.now (arc_value index) }
    ensures first { IfOk result (λ made. CanWork made.0 problem.entry.now made.1 × (made.1.mine.worker ≡ 0)
        × (without_all (map worker_of made.2.items) made.1.given ≡ [])) }
    ensures each { IfOk result (λ made. suc (length made.2.items) ≡ workers) }
    ensures others { IfOk result (λ made. Every (CanWork made.0 problem.entry.now) made.2.items) }
    ensures seen { IfOk result (λ made. (base : Base)
        × (made.1.mine.seen ≡ opens (opening problem.entry.now base) workers)) }
{
    let root = root_of(alloc, problem, index)?;
    crew_from(alloc, root, workers)
}

/// Takes all seats back, and then the pool.
pub fn close<'p, E: Notice>(
    problem: &'p Problem,
    pool: SharedPool<Offer<'p, E>>,
    mut first: Seat<Offer<'p, E>>,
    others: Vec<Seat<Offer<'p, E>>>,
) -> Pool<Offer<'p, E>>
    requires own { (first.table ≡ pool.table) × (first.mine.worker ≡ 0) }
    requires others { Every (IsBack pool) others.items × (without_all (map worker_of others.items) first.given ≡ []) }
    ensures { SeatFits of_batch alternatives_in result first.entry.problem first.entry.mine }
{
    let _problem = problem;
    join_all(&pool, &mut first, others);
    pool.close(first)
}

// Takes seats back, whatever their batches are.
fn join_all<N: Batch>(pool: &SharedPool<N>, first: &mut Seat<N>, others: Vec<Seat<N>>)
    requires own { first.old.table ≡ pool.now.table }
    requires others { Every (MayJoin pool.now) others.items
        × (without_all (map number_of others.items) first.old.given ≡ []) }
    ensures { first.new ≡ record first.old { given = [] } }
{
    for other in others {
        pool.join(first, other);
    }
}
