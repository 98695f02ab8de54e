//! The work of one piece.
ghost use Rattle.std.specs.Prelude.{◌≡◌, ◌<◌, length, IfOk, IfSome, IfNone, IsErr, IsSomeAnd, OnOk, OnErr, Ok, Some, None, slice_get};
ghost use Rattle.std.specs.Prelude.{List, [], map, true, false};
ghost use Rattle.std.specs.Arc.{arc_value};
ghost use Rattle.ll_laws.specs.Pool.{Owed};
ghost use Rattle.ll_laws.specs.declared.Event.{Event as TheEvent};
ghost use Rattle.ll_freeze.specs.Frozen.{alternatives_in};
ghost use Rattle.ll_engine.specs.Resumes.{Resumes};
ghost use Rattle.ll_crew.specs.Runs.{SharesTo};
ghost use Rattle.ll_crew.specs.Workers.{Holds, Standing, Stays, Leaves, RunsTo, RunsAlone, RunsOne, RunsAll, EndsTo, Reports};
ghost use Rattle.ll_crew.specs.Pieces.{IsKeptOf, IsOwed, Stretched, OwesAll, OwesAfter};
ghost use Rattle.ll_crew.specs.Seats.{IsSeat, Calm};

use crate::job::Job;
use crate::lead::{look, report};
use crate::offer::Offer;
use crate::sharing::{Offered, publish};
use crate::worker::Worker;
use ll_bank::OutOfMemory;
use ll_core::Look;
use ll_edge::Gate;
use ll_engine::{Engine, Progress};
use ll_freeze::Frozen;
use ll_laws::{Batch, Notice, Report};
use ll_order::Outlet;
use ll_pool::Seat;
use std::sync::{Arc, Wait};

/// So many steps an engine goes between two looks.
const STEPS: u32 = 256;

/// At most `STEPS` steps of an engine, whose events are put behind those that there are, and no step behind an answer that is to be
/// reported at once. True where the engine is done.
pub(crate) fn stretch<E: Notice>(
    engine: &mut Engine<'_>,
    events: &mut Vec<E>,
    at_once: bool,
) -> Result<bool, OutOfMemory>
    requires suits { E.suits engine.old.problem }
    ensures { IfOk result (λ done. Stretched done (map E.stands_for events.old.items) engine.old
        (map E.stands_for events.new.items) engine.new) }
{
    for _step in 0..STEPS {
        match engine.note(events)? {
            Progress::Moved => {}
            Progress::Noted => {
                if at_once && ends_with_answer(events) {
                    return Ok(false);
                }
            }
            Progress::Done => return Ok(true),
        }
    }
    Ok(false)
}

// Whether the last of the events is an answer.
fn ends_with_answer<E: Notice>(events: &Vec<E>) -> bool {
    match events.last() {
        Some(event) => event.is_answer(),
        None => false,
    }
}

/// What came of sharing a choice point.
#[derive(Drop)]
enum Shared<'p> {
    /// The engine has none that is untried.
    Nothing,
    /// The oldest was published.
    Published,
    /// The pool has no place for this batch, which the piece owes still.
    Back(Arc<Frozen<'p>>),
}

// The first value where it was done, and the other one where it was not. The value that is not chosen is dropped.
fn choose<T>(done: Result<bool, OutOfMemory>, yes: T, no: T) -> Result<T, OutOfMemory>
where
    T: Drop,
    ensures yes { done ≡ Ok true → result ≡ Ok yes }
    ensures no { done ≡ Ok false → result ≡ Ok no }
    ensures failed { IsErr done → IsErr result }
{
    if done? {
        return Ok(yes);
    }
    Ok(no)
}

// Publishes the oldest choice point of the engine, if it has one that is untried. A batch for which the pool has no place comes back, and
// so does one that the gate gives back.
fn share_oldest<'p, R: Wait, G: Gate, O: Outlet>(
    job: &Job<'_, 'p, R, G, O>,
    seat: &mut Seat<Offer<'p, O::Found>>,
    engine: &mut Engine<'p>,
) -> Result<Shared<'p>, OutOfMemory>
    requires seat { IsSeat job.now.pool.now engine.old.problem seat.old }
    requires owes { (found : List TheEvent) × OwesAll seat.old.mine.piece found engine.old [] }
    ensures calm { Calm seat.old seat.new }
    ensures owes { IfOk result (λ shared. (found : List TheEvent) → OwesAll seat.old.mine.piece found engine.old []
        → SharesTo seat.new.mine.piece found engine.old engine.new shared) }
{
    let Some(batch) = engine.split_oldest()? else {
        return Ok(Shared::Nothing);
    };
    match publish(job, seat, batch)? {
        Offered::Taken(_) => Ok(Shared::Published),
        Offered::Back(batch) => Ok(Shared::Back(batch)),
    }
}

/// Publishes the oldest choice point of the engine, if it has one that is untried, or all of them, the oldest first. A batch for which the
/// pool has no place comes back, and the piece owes it still.
fn share<'p, R: Wait, G: Gate, O: Outlet>(
    job: &Job<'_, 'p, R, G, O>,
    seat: &mut Seat<Offer<'p, O::Found>>,
    engine: &mut Engine<'p>,
    all: bool,
) -> Result<Option<Arc<Frozen<'p>>>, OutOfMemory>
    requires seat { IsSeat job.now.pool.now engine.old.problem seat.old }
    requires owes { (found : List TheEvent) × OwesAll seat.old.mine.piece found engine.old [] }
    ensures calm { Calm seat.old seat.new }
    ensures owes { IfOk result (λ back. (found : List TheEvent) → OwesAll seat.old.mine.piece found engine.old []
        → OwesAfter seat.new.mine.piece found engine.old engine.new back) }
{
    'points: loop {
        match share_oldest(job, seat, engine)? {
            Shared::Nothing => return Ok(None),
            Shared::Published => {
                if !all {
                    return Ok(None);
                }
            }
            Shared::Back(batch) => return Ok(Some(batch)),
        }
    }
}

// Whether choice points are to be published: after an answer that is to be reported at once, and where workers have nothing to do.
fn is_to_share(answered: bool, seen: Look, workers: u32) -> bool {
    answered || (seen.untried == 0 && seen.busy < workers)
}

/// How the run of an engine ended.
#[derive(Drop)]
enum Ran<'p> {
    /// The engine is done.
    Done,
    /// The pool has no place for this batch, which the piece owes still.
    Back(Arc<Frozen<'p>>),
    /// The pool is starved or stopped.
    Left,
}

// Runs an engine, and publishes its oldest choice point where workers have nothing to do, or all of them after an answer that is to be
// reported at once.
fn run<'p, R: Wait, G: Gate, O: Outlet>(
    job: &Job<'_, 'p, R, G, O>,
    worker: &mut Worker<'_, '_, 'p, O>,
    engine: &mut Engine<'p>,
    events: &mut Vec<O::Found>,
) -> Result<Ran<'p>, OutOfMemory>
    requires suits { O.Found.suits job.now.problem.now }
    requires seat { IsSeat job.now.pool.now job.now.problem.now worker.old.seat.now
        × (engine.old.problem ≡ job.now.problem.now) }
    requires stands { Standing O.Outlet job.now worker.old }
    requires owes { OwesAll worker.old.seat.now.mine.piece (map O.Found.stands_for events.old.items) engine.old [] }
    ensures holds { Holds worker.old worker.new }
    ensures problem { OnOk result (engine.new.problem ≡ job.now.problem.now) }
    ensures ran { IfOk result (λ ran. RunsTo O.Outlet job.now ran worker.old worker.new
        (map O.Found.stands_for events.new.items) engine.new) }
    ensures failed { OnErr result (Stays O.Outlet job.now worker.old worker.new) }
{
    'stretches: loop {
        if stretch(engine, events, job.reports_at_once())? {
            return Ok(Ran::Done);
        }
        let Some(seen) = look(job, worker.seat, worker.told, worker.out) else {
            return Ok(Ran::Left);
        };
        let answered = job.reports_at_once() && ends_with_answer(events);
        if is_to_share(answered, seen, job.pool.workers()) {
            if let Some(batch) = share(job, worker.seat, engine, answered)? {
                return Ok(Ran::Back(batch));
            }
        }
    }
}

// Runs an engine to its end, and publishes nothing. False where the pool is starved or stopped.
fn run_alone<'p, R: Wait, G, O: Outlet>(
    job: &Job<'_, 'p, R, G, O>,
    worker: &mut Worker<'_, '_, 'p, O>,
    engine: &mut Engine<'p>,
    events: &mut Vec<O::Found>,
) -> Result<bool, OutOfMemory>
    requires suits { O.Found.suits engine.old.problem }
    requires seat { IsSeat job.now.pool.now job.now.problem.now worker.old.seat.now }
    requires stands { Standing O.Outlet job.now worker.old }
    ensures holds { Holds worker.old worker.new }
    ensures problem { OnOk result (engine.new.problem ≡ engine.old.problem) }
    ensures done { IfOk result (λ done. done ≡ true → RunsAlone O.Outlet job.now worker.old worker.new
        (map O.Found.stands_for events.old.items) engine.old (map O.Found.stands_for events.new.items) engine.new) }
    ensures left { IfOk result (λ done. done ≡ false → Leaves O.Outlet job.now worker.old worker.new) }
    ensures failed { OnErr result (Stays O.Outlet job.now worker.old worker.new) }
{
    'stretches: loop {
        if stretch(engine, events, false)? {
            return Ok(true);
        }
        if look(job, worker.seat, worker.told, worker.out).is_none() {
            return Ok(false);
        }
    }
}

// An alternative of a batch.
#[derive(Drop)]
struct Alternative<'p> {
    batch: Arc<Frozen<'p>>,
    k: u32,
}

// An engine for an alternative of a batch: the one that the worker has kept goes on, if there is one.
fn engine_for<'p, R, G, O: Outlet>(
    job: &Job<'_, 'p, R, G, O>,
    kept: &mut Option<Engine<'p>>,
    claimed: Alternative<'p>,
) -> Result<Engine<'p>, OutOfMemory>
    requires kept { IsKeptOf job.now.problem.now kept.old }
    requires inside { claimed.k < length (alternatives_in (arc_value claimed.batch)) }
    requires of { (arc_value claimed.batch).problem ≡ job.now.problem.now }
    ensures problem { IfOk result (λ e. e.problem ≡ job.now.problem.now) }
    ensures owes { IfOk result (λ e. (owes : Owed TheEvent) → IsOwed claimed.entry owes
        → Resumes job.now.problem.now owes e) }
{
    let Alternative { batch, k } = claimed;
    match kept.take() {
        Some(engine) => engine.advance(batch, k),
        None => Engine::resume_shared(job.alloc, job.problem, batch, k),
    }
}

// Keeps a value in place of the one that there was.
fn keep<T>(kept: &mut Option<T>, value: T)
where
    T: Drop,
    ensures { kept.new ≡ Some value }
{
    *kept = Some(value);
}

// Runs an alternative of a batch that came back to its end. Adds its events, and answers its inferences. None where the pool is starved or
// stopped.
fn run_one<'p, R: Wait, G, O: Outlet>(
    job: &Job<'_, 'p, R, G, O>,
    worker: &mut Worker<'_, '_, 'p, O>,
    claimed: Alternative<'p>,
    events: &mut Vec<O::Found>,
) -> Result<Option<u64>, OutOfMemory>
    requires suits { O.Found.suits job.now.problem.now }
    requires seat { IsSeat job.now.pool.now job.now.problem.now worker.old.seat.now }
    requires stands { Standing O.Outlet job.now worker.old }
    requires kept { IsKeptOf job.now.problem.now worker.old.kept.now }
    requires inside { claimed.k < length (alternatives_in (arc_value claimed.batch)) }
    requires of { (arc_value claimed.batch).problem ≡ job.now.problem.now }
    ensures holds { Holds worker.old worker.new }
    ensures kept { OnOk result (IsKeptOf job.now.problem.now worker.new.kept.now) }
    ensures some { IfOk result (λ o. IfSome o (RunsOne O.Outlet job.now worker.old worker.new
        (map O.Found.stands_for events.old.items) claimed.entry (map O.Found.stands_for events.new.items))) }
    ensures none { IfOk result (λ o. IfNone o (Leaves O.Outlet job.now worker.old worker.new)) }
    ensures failed { OnErr result (Stays O.Outlet job.now worker.old worker.new) }
{
    let mut engine = engine_for(job, worker.kept, claimed)?;
    let done = run_alone(job, worker, &mut engine, events);
    let inferences = engine.cost();
    keep(worker.kept, engine);
    choose(done, Some(inferences), None)
}

// What a piece has and owes once its engine is done.
#[derive(Drop)]
struct Rest<'p> {
    // So many inferences were made.
    inferences: u64,
    // This batch came back.
    batch: Arc<Frozen<'p>>,
}

// Runs each alternative of a batch to its end. Adds its events, and its inferences to those that there are, cut at the greatest `u64`.
// None where the pool is starved or stopped.
fn run_batch<'p, R: Wait, G, O: Outlet>(
    job: &Job<'_, 'p, R, G, O>,
    worker: &mut Worker<'_, '_, 'p, O>,
    rest: &Rest<'p>,
    events: &mut Vec<O::Found>,
) -> Result<Option<u64>, OutOfMemory>
    requires suits { O.Found.suits job.now.problem.now }
    requires seat { IsSeat job.now.pool.now job.now.problem.now worker.old.seat.now }
    requires stands { Standing O.Outlet job.now worker.old }
    requires kept { IsKeptOf job.now.problem.now worker.old.kept.now }
    requires of { (arc_value rest.now.batch).problem ≡ job.now.problem.now }
    ensures holds { Holds worker.old worker.new }
    ensures kept { OnOk result (IsKeptOf job.now.problem.now worker.new.kept.now) }
    ensures some { IfOk result (λ o. IfSome o (RunsAll O.Outlet job.now worker.old worker.new
        (map O.Found.stands_for events.old.items) rest.now (map O.Found.stands_for events.new.items))) }
    ensures none { IfOk result (λ o. IfNone o (Leaves O.Outlet job.now worker.old worker.new)) }
    ensures failed { OnErr result (Stays O.Outlet job.now worker.old worker.new) }
{
    let mut inferences = rest.inferences;
    for k in 0..rest.batch.len() {
        let shared = Arc::try_clone(&rest.batch)?;
        let next = Alternative { batch: shared, k };
        let Some(more) = run_one(job, worker, next, events)? else {
            return Ok(None);
        };
        inferences = inferences.saturating_add(more);
    }
    Ok(Some(inferences))
}

/// How the engine of a piece came to its end.
#[derive(Drop)]
enum Ending<'p> {
    /// The piece owes nothing more. So many inferences were made.
    Whole(u64),
    /// The piece owes this batch still, which came back.
    Partly(u64, Arc<Frozen<'p>>),
    /// The pool is starved or stopped.
    Left,
}

// Runs the engine of a piece to its end.
fn run_to_end<'p, R: Wait, G: Gate, O: Outlet>(
    job: &Job<'_, 'p, R, G, O>,
    worker: &mut Worker<'_, '_, 'p, O>,
    engine: &mut Engine<'p>,
    events: &mut Vec<O::Found>,
) -> Result<Ending<'p>, OutOfMemory>
    requires suits { O.Found.suits job.now.problem.now }
    requires seat { IsSeat job.now.pool.now job.now.problem.now worker.old.seat.now
        × (engine.old.problem ≡ job.now.problem.now) }
    requires stands { Standing O.Outlet job.now worker.old }
    requires owes { OwesAll worker.old.seat.now.mine.piece (map O.Found.stands_for events.old.items) engine.old [] }
    ensures holds { Holds worker.old worker.new }
    ensures problem { OnOk result (engine.new.problem ≡ job.now.problem.now) }
    ensures ends { IfOk result (λ ending. EndsTo O.Outlet job.now ending worker.old worker.new
        (map O.Found.stands_for events.new.items)) }
    ensures failed { OnErr result (Stays O.Outlet job.now worker.old worker.new) }
{
    match run(job, worker, engine, events)? {
        Ran::Done => Ok(Ending::Whole(engine.cost())),
        Ran::Left => Ok(Ending::Left),
        Ran::Back(batch) => {
            let done = run_alone(job, worker, engine, events);
            choose(done, Ending::Partly(engine.cost(), batch), Ending::Left)
        }
    }
}

// Runs the alternative of a piece to the end of its engine, which is kept.
fn run_claimed<'p, R: Wait, G: Gate, O: Outlet>(
    job: &Job<'_, 'p, R, G, O>,
    worker: &mut Worker<'_, '_, 'p, O>,
    claimed: Alternative<'p>,
    events: &mut Vec<O::Found>,
) -> Result<Ending<'p>, OutOfMemory>
    requires suits { O.Found.suits job.now.problem.now }
    requires seat { IsSeat job.now.pool.now job.now.problem.now worker.old.seat.now }
    requires stands { Standing O.Outlet job.now worker.old }
    requires kept { IsKeptOf job.now.problem.now worker.old.kept.now }
    requires owes { IsSomeAnd worker.old.seat.now.mine.piece (λ piece. IsOwed claimed piece.owes) }
    requires of { (arc_value claimed.batch).problem ≡ job.now.problem.now }
    requires none { events.old.items ≡ [] }
    ensures holds { Holds worker.old worker.new }
    ensures kept { OnOk result (IsKeptOf job.now.problem.now worker.new.kept.now) }
    ensures ends { IfOk result (λ ending. EndsTo O.Outlet job.now ending worker.old worker.new
        (map O.Found.stands_for events.new.items)) }
    ensures failed { OnErr result (Stays O.Outlet job.now worker.old worker.new) }
{
    let mut engine = engine_for(job, worker.kept, claimed)?;
    let ending = run_to_end(job, worker, &mut engine, events);
    keep(worker.kept, engine);
    ending
}

// Runs a piece to its end, with what it owes beside its engine. The events are then those that the piece owes, and the answer is its
// inferences. None where the pool is starved or stopped.
fn run_piece<'p, R: Wait, G: Gate, O: Outlet>(
    job: &Job<'_, 'p, R, G, O>,
    worker: &mut Worker<'_, '_, 'p, O>,
    claimed: Alternative<'p>,
    events: &mut Vec<O::Found>,
) -> Result<Option<u64>, OutOfMemory>
    requires suits { O.Found.suits job.now.problem.now }
    requires seat { IsSeat job.now.pool.now job.now.problem.now worker.old.seat.now }
    requires stands { Standing O.Outlet job.now worker.old }
    requires kept { IsKeptOf job.now.problem.now worker.old.kept.now }
    requires owes { IsSomeAnd worker.old.seat.now.mine.piece (λ piece. IsOwed claimed piece.owes) }
    requires of { (arc_value claimed.batch).problem ≡ job.now.problem.now }
    requires none { events.old.items ≡ [] }
    ensures holds { Holds worker.old worker.new }
    ensures kept { OnOk result (IsKeptOf job.now.problem.now worker.new.kept.now) }
    ensures some { IfOk result (λ o. IfSome o
        (λ n. Reports O.Outlet job.now worker.old worker.new (map O.Found.stands_for events.new.items) n)) }
    ensures none { IfOk result (λ o. IfNone o (Leaves O.Outlet job.now worker.old worker.new)) }
    ensures failed { OnErr result (Stays O.Outlet job.now worker.old worker.new) }
{
    match run_claimed(job, worker, claimed, events)? {
        Ending::Whole(inferences) => Ok(Some(inferences)),
        Ending::Left => Ok(None),
        Ending::Partly(inferences, back) => {
            let rest = Rest {
                inferences,
                batch: back,
            };
            let ran = run_batch(job, worker, &rest, events);
            drop(rest);
            ran
        }
    }
}

/// Works an alternative that was claimed, and reports. False where the pool is starved or stopped.
pub(crate) fn work_piece<'p, R: Wait, G: Gate, O: Outlet>(
    job: &Job<'_, 'p, R, G, O>,
    worker: &mut Worker<'_, '_, 'p, O>,
    offer: Arc<Offer<'p, O::Found>>,
    k: u32,
) -> Result<bool, OutOfMemory>
    requires suits { O.Found.suits job.now.problem.now }
    requires seat { IsSeat job.now.pool.now job.now.problem.now worker.old.seat.now }
    requires stands { Standing O.Outlet job.now worker.old }
    requires kept { IsKeptOf job.now.problem.now worker.old.kept.now }
    requires owes { IsSomeAnd worker.old.seat.now.mine.piece
        (λ piece. slice_get (alternatives_in (arc_value offer)) k ≡ Some piece.owes) }
    requires of { (arc_value offer).problem ≡ job.now.problem.now }
    ensures holds { Holds worker.old worker.new }
    ensures kept { OnOk result (IsKeptOf job.now.problem.now worker.new.kept.now) }
    ensures done { IfOk result (λ done. done ≡ true → Stays O.Outlet job.now worker.old worker.new
        × (worker.new.seat.now.mine.piece ≡ None)) }
    ensures left { IfOk result (λ done. done ≡ false → Leaves O.Outlet job.now worker.old worker.new) }
    ensures failed { OnErr result (Stays O.Outlet job.now worker.old worker.new) }
{
    let choice = offer.choice();
    drop(offer);
    let batch = choice?;
    let mut events = Vec::new(job.alloc);
    let claimed = Alternative { batch, k };
    match run_piece(job, worker, claimed, &mut events) {
        Ok(Some(inferences)) => {
            let found = Report { events, inferences };
            Ok(report(job, worker, found))
        }
        Ok(None) => {
            drop(events);
            Ok(false)
        }
        Err(refused) => {
            drop(events);
            Err(refused)
        }
    }
}
