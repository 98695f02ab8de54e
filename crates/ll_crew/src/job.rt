//! What workers work with.
use crate::bell::Bell;
use crate::offer::Offer;
use ll_laws::Problem;
use ll_order::Outlet;
use ll_pool::SharedPool;
use std::alloc::Global;
use std::snapshot::Snapshot;

/// When a worker leaves choice points of its piece to others.
#[derive(Clone, Copy)]
pub enum Sharing {
    /// The oldest, where workers have nothing to do.
    WhereIdle,
    /// All of them after an answer, which is then reported at once, and the oldest where workers have nothing to do.
    AfterAnswer,
}

/// What a worker works with, whatever it claims.
#[derive(Drop)]
pub struct Job<'a, 'p, R, G, O: Outlet> {
    /// What waits and wakes.
    pub rt: &'a R,
    /// Where memory comes from.
    pub alloc: Global,
    /// What is searched.
    pub problem: &'p Problem,
    /// What is offered, and by whom it is worked.
    pub pool: &'a SharedPool<Offer<'p, O::Found>>,
    /// What tells the workers that something happened to the pool.
    pub bell: &'a Bell,
    /// What each worker passes before it claims.
    pub gate: &'a G,
    /// What workers leave to others.
    pub sharing: Sharing,
    /// The outlet as the crew was given it.
    pub start: &'a Snapshot<O>,
}

impl<'a, 'p, R, G, O: Outlet> Job<'a, 'p, R, G, O> {
    /// Whether an answer is to be reported at once.
    pub fn reports_at_once(&self) -> bool {
        match self.sharing {
            Sharing::AfterAnswer => true,
            Sharing::WhereIdle => false,
        }
    }
}
