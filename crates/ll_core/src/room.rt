//! What a pool keeps of its pieces and of alternatives that are not claimed, and the room for more of them.
ghost use Rattle.std.specs.Prelude.{◌≡◌, ◌<◌, ◌≤◌, ◌+◌, ◌++◌, map, length, IfOk, OnOk, OnErr, HoldsAt};
ghost use Rattle.std.specs.Arc.{arc_value};
ghost use Rattle.std.specs.Vec.{vec_len, vec_capacity};
ghost use Rattle.ll_core.specs.Copies.{AreCopies};
ghost use Rattle.ll_core.specs.Slots.{piece_in};

use ll_bank::OutOfMemory;
use ll_laws::{Batch, Notice, Report};
use std::alloc::Global;
use std::collections::VecDeque;
use std::sync::Arc;

/// How far a piece is.
#[derive(Drop)]
pub(crate) enum State<E: Notice> {
    Open,
    Closed(Report<E>),
    Taken,
}

/// A piece: alternative `k` of a batch, who claimed it, and the batches that it published.
#[derive(Drop)]
pub(crate) struct Slot<E: Notice> {
    pub(crate) batch: u32,
    pub(crate) k: u32,
    pub(crate) worker: u32,
    pub(crate) published: Vec<u32>,
    pub(crate) state: State<E>,
}

/// An alternative that is not claimed, with a copy of its batch to be handed out.
#[derive(Drop)]
pub(crate) struct Waiting<N: Drop> {
    pub(crate) batch: u32,
    pub(crate) k: u32,
    pub(crate) copy: Arc<N>,
}

/// The alternatives of a batch, which has `len` of them, in order.
pub(crate) fn copies_of<N: Batch>(
    alloc: Global,
    batch: &Arc<N>,
    number: u32,
    len: u32,
) -> Result<VecDeque<Waiting<N>>, OutOfMemory>
    ensures { IfOk result (λ copies. AreCopies number len (arc_value batch.now) copies.items) }
{
    let mut copies = VecDeque::new(alloc);
    for k in 0..len {
        let copy = Arc::try_clone(batch)?;
        copies.push_back(Waiting {
            batch: number,
            k,
            copy,
        })?;
    }
    Ok(copies)
}

/// Room for one batch more, published by the piece at `at`, and for the pieces of its copies, which then wait.
pub(crate) fn take_room<N: Batch>(
    batches: &mut Vec<Arc<N>>,
    pieces: &mut Vec<Slot<N::Found>>,
    waiting: &mut VecDeque<Waiting<N>>,
    copies: &mut VecDeque<Waiting<N>>,
    at: usize,
) -> Result<(), OutOfMemory>
    requires at { at < length pieces.old.items }
    ensures batches { batches.new.items ≡ batches.old.items }
    ensures pieces { map piece_in pieces.new.items ≡ map piece_in pieces.old.items }
    ensures capacity { vec_capacity pieces.old ≤ vec_capacity pieces.new }
    ensures ok { OnOk result ((waiting.new.items ≡ waiting.old.items ++ copies.old.items)
        × (vec_len batches.new < vec_capacity batches.new)
        × (length pieces.new.items + length waiting.new.items ≤ vec_capacity pieces.new)
        × HoldsAt (λ s. vec_len s.published < vec_capacity s.published) pieces.new.items at) }
    ensures err { OnErr result (waiting.new.items ≡ waiting.old.items) }
{
    batches.reserve(1)?;
    pieces.reserve(waiting.len() + copies.len())?;
    pieces[at].published.reserve(1)?;
    waiting.append(copies)
}
