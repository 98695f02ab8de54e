//! What the tests of pools share: a batch in which nothing is owed, and a caller that plays all workers of a pool.
//!
//! The calls of a pool ask that pieces are open and that workers have none open. The caller sees to it that no piece is open where a
//! worker claims.
ghost use Rattle.std.specs.Prelude.{◌≡◌, ◌<◌, IsTrue, IfOk};
ghost use Rattle.std.specs.Arc.{arc_value};
ghost use Rattle.ll_laws.specs.CoreEvents.{IsOpenAt, NoOpen};

use ll_bank::Bank;
use ll_core::{Claimed, Pool, Ready};
use ll_laws::{Batch, Branch, Event, Report, Step};
use std::alloc::{AllocError, Global};
use std::process::Abort;
use std::sync::Arc;

// So many alternatives, which owe nothing that is told.
#[derive(Drop)]
pub(crate) struct Told {
    pub(crate) len: u32,
}

impl Batch for Told {
    type Of = ();

    type Found = Event;

    ghost use Rattle.std.specs.Prelude.{replicate, []};

    ghost of = { λ batch. tt };

    ghost alternatives = { λ batch. replicate batch.len (record { events = []; cost = 0 }) };

    fn len(&self) -> u32 {
        self.len
    }
}

pub(crate) fn batch_of(alloc: Global, len: u32) -> Result<Arc<Told>, AllocError>
    ensures { IfOk result (λ batch. arc_value batch ≡ record { len = len }) }
{
    Ok(Arc::new(alloc, Told { len })?)
}

fn answer_of(alloc: Global, label: u32) -> Result<Event, AllocError> {
    let mut steps = Vec::new(alloc);
    steps.push(Step::Clause { label, leaf: 0 })?;
    Ok(Event::Answer(Branch {
        bank: Bank::new(alloc),
        terms: Vec::new(alloc),
        steps,
    }))
}

// A report of one answer for each label.
pub(crate) fn report_of(alloc: Global, labels: &[u32]) -> Result<Report<Event>, AllocError> {
    let mut events = Vec::new(alloc);
    for label in labels {
        events.push(answer_of(alloc, *label)?)?;
    }
    Ok(Report {
        events,
        inferences: labels.len() as u64,
    })
}

// The label of an answer.
pub(crate) fn label_of(event: &Event) -> Option<u32> {
    let Event::Answer(branch) = event else {
        return None;
    };
    match branch.steps.first() {
        Some(Step::Clause { label, leaf: _ }) => Some(*label),
        _ => None,
    }
}

pub(crate) fn rests(pool: &Pool<Told>, worker: u32) -> bool
    ensures { IsTrue result → NoOpen pool.now worker }
{
    pool.look().busy == 0
}

// A worker claims, while no piece is open, and the piece is open then. With it comes its number in its batch.
pub(crate) fn work(rt: &impl Abort, pool: &mut Pool<Told>, worker: u32) -> (u32, u32)
    requires { worker < pool.old.workers }
    ensures open { IsOpenAt pool.new result.0 }
    ensures workers { pool.new.workers ≡ pool.old.workers }
{
    assert!(rt; rests(pool, worker), "a piece is open");
    match pool.claim(worker) {
        Claimed::Work { piece, batch: _, k } => (piece, k),
        _ => panic!(rt; "no work for {worker}"),
    }
}

// A worker claims, while no piece is open, and nothing is left.
pub(crate) fn has_finished(rt: &impl Abort, pool: &mut Pool<Told>) -> bool
    requires { 0 < pool.old.workers }
{
    assert!(rt; rests(pool, 0), "a piece is open");
    matches!(pool.claim(0), Claimed::Finished)
}

// The piece publishes a batch of so many alternatives, and is open still.
pub(crate) fn publish(rt: &impl Abort, pool: &mut Pool<Told>, piece: u32, batch: Arc<Told>)
    requires { IsOpenAt pool.old piece }
    ensures open { IsOpenAt pool.new piece }
    ensures workers { pool.new.workers ≡ pool.old.workers }
{
    assert!(rt; 0 < batch.len());
    match pool.publish(piece, batch) {
        Ok(()) => {}
        Err(_) => panic!(rt; "{piece} publishes"),
    }
}

pub(crate) fn next(pool: &mut Pool<Told>) -> Ready<Event>
    ensures { pool.new.workers ≡ pool.old.workers }
{
    pool.ready()
}
