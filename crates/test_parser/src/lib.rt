//! Tests of the grammar: token lists, and the raw trees or first faults that they have.
#![tactic(auto)]

#[cfg(test)]
mod parser;
