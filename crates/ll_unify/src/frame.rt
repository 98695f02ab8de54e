//! Terms that are gone through argument by argument.
use ll_bank::At;

/// A term whose arguments before `next` are done.
#[derive(Clone, Copy)]
pub struct Frame {
    pub at: At,
    pub next: usize,
}

impl Default for Frame {
    fn default() -> Self {
        Frame { at: At(0), next: 0 }
    }
}
