//! Tests of derivations: how labels are dealt out, in whole runs and by equations, and trees of many nodes.
#![tactic(auto)]

mod dealing;
#[cfg(test)]
mod runs;

pub use dealing::{below_a_bang, picked_in_an_unbounded_premise, shared_by_premises};
