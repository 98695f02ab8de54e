//! The pool of shared alternatives as plain data.
//!
//! Workers share the untried alternatives of choice points (after Muse, Ali and Karlsson 1990). A [`Pool`] keeps them as batches. A
//! worker claims an alternative, which is then a piece, publishes batches of it, and reports what is left of it. The reports are
//! handed on in the order in which one worker alone would have made them. Here is no thread and no lock: each call is one event on a
//! pool that the caller holds alone.
#![tactic(auto)]

mod answers;
mod cursor;
mod laws;
mod pool;
mod room;

pub use answers::{Claimed, Look, PublishFault, Ready};
pub use laws::{every_run, later_pools, lawful_events, taken_reports};
pub use pool::Pool;
