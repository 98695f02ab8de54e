//! Answers in the order of one engine: what a pool's reports tell, given to an outlet.
#![tactic(auto)]

mod order;
mod outlet;

pub use order::{drain, give};
pub use outlet::{OutFault, Outlet};
