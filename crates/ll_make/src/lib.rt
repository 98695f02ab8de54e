//! Programs that a kind and a number give, and the query that goes with each.
#![tactic(auto)]

mod kind;
mod numbered;
mod programs;

pub use kind::{MakeKind, fits, greatest_number, least_number, query};
pub use programs::{OutOfMemory, program};
