//! The resources of a linear logic search: a context of clauses with live marks, and how leftovers are handed on.
//!
//! Leftovers are passed on lazily, after the input and output contexts of Hodas and Miller 1994. A [`Context`] is seen by
//! contracts as its entries with the newest in front, a flag that says that an `erase` may still take what is left, the next
//! label, and the live marks and flags that it has kept, with the states from which it came, to which it can go back. The goals
//! that are proved in it, and their ends, are no part of it.
#![tactic(auto)]

mod context;
mod ends;
mod keyed;
mod marks;
mod saves;
mod state;
mod tops;

pub use context::{Context, ContextMark, Saved};
pub use ends::settling_ends;
pub use keyed::Keyed;
use ll_bank::OutOfMemory;
use ll_laws::Kind;

/// A clause in a context, with its label. Only a linear one can be live.
#[derive(Copy, PartialEq, Eq)]
pub struct Entry<C> {
    pub label: u32,
    pub kind: Kind,
    /// It is still to be used.
    pub live: bool,
    pub clause: C,
}

impl<C: Copy> Clone for Entry<C> {
    fn clone(&self) -> Result<Self, OutOfMemory> {
        Ok(*self)
    }
}
