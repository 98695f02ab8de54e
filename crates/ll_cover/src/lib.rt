//! Which answer of the search covers a derivation, and whether terms are an instance of others.
#![tactic(auto)]

mod closing;
mod covering;
mod matching;

pub use covering::cover;
pub use matching::instance;
