//! What the calls of a pool answer.
use ll_laws::{Notice, Report};
use std::sync::Arc;

/// What a worker that asks for work is answered.
#[derive(Drop)]
pub enum Claimed<N: Drop> {
    /// An alternative, `k` of this batch, which is now the piece with this number.
    Work { piece: u32, batch: Arc<N>, k: u32 },
    /// Nothing is untried, but so many pieces are open and may still publish.
    Idle { busy: u32 },
    /// Nothing is untried and nothing open, and so it stays.
    Finished,
    /// A worker wanted memory.
    Starved,
    /// The pool was stopped.
    Stopped,
}

/// Why a batch was not published. It comes back.
#[derive(Drop)]
pub enum PublishFault<N: Drop> {
    /// With this batch the pool, which has `total` alternatives, would have more than 4,294,967,295.
    Full { total: u32, batch: Arc<N> },
    /// Memory ran out.
    OutOfMemory { batch: Arc<N> },
}

/// What a look at a pool shows.
#[derive(Clone, Copy, PartialEq, Eq)]
pub struct Look {
    /// How many alternatives are not claimed.
    pub untried: u32,
    /// How many pieces are open.
    pub busy: u32,
    pub starved: bool,
    pub stopped: bool,
}

/// The next report in the order of one worker.
#[derive(Drop)]
pub enum Ready<E: Notice> {
    /// The report of the next piece, which is now taken.
    Events(Report<E>),
    /// The next is this piece, which is open, or an alternative that is not claimed.
    NotYet { piece: Option<u32> },
    /// Every piece is taken, and no alternative is untried.
    All,
}
