//! Iterative deepening (Korf 1985): the first bound of a series at which a search has an answer, or reaches no bound.
#![tactic(auto)]

mod series;

pub use series::{Series, Trial, deciding_bound, deepen, is_decided};
