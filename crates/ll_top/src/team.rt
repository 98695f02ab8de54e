// Who searches.
ghost use Rattle.ll_top.specs.forms.Words.{IsWorkerCount};

use ll_crew::Team;
use std::alloc::Global;

/// What a call works with: the threads, the memory, and the gate that each worker passes before a claim.
#[derive(Drop)]
pub struct Means<'a, R, G> {
    pub rt: &'a R,
    pub alloc: Global,
    pub gate: &'a G,
}

impl<'a, R, G> Means<'a, R, G> {
    /// So many workers, from 1 to 64.
    pub fn team(&self, workers: u32) -> Team<'a, R, G>
        requires { IsWorkerCount workers }
    {
        Team {
            rt: self.rt,
            alloc: self.alloc,
            workers,
            gate: self.gate,
        }
    }
}
