//! Tests of the outside, and of the texts of answers.
#![tactic(auto)]

#[cfg(test)]
mod answers;
#[cfg(test)]
mod edge;
