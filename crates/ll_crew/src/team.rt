// Who searches.
ghost use Rattle.std.specs.Prelude.{◌<◌, ◌≤◌};

use std::alloc::Global;

/// Who searches: so many workers, with the threads and the memory of a call, and the gate that each of them passes before a claim.
#[derive(Drop)]
pub struct Team<'a, R, G> {
    pub rt: &'a R,
    pub alloc: Global,
    /// From 1 to 64.
    pub workers: u32,
    pub gate: &'a G,
    ghost few: { (0 < workers) × (workers ≤ 64) },
}
