//! The backtracking engine: depth-first search, step by step, which owes exactly the events and the inferences of the search.
#![tactic(auto)]

mod ancestor;
mod answer;
mod attempt;
mod candidates;
mod choices;
mod connectives;
mod engine;
mod found;
mod heads;
mod keys;
mod numbers;
mod open;
mod quantifiers;
mod resume;
mod settle;
mod shared;
mod split;
mod take;

pub use engine::{Engine, Progress, Step2};
