//! Tests of scope and sorting: raw trees, and the problems or first faults that they have.
#![tactic(auto)]

#[cfg(test)]
mod polarity;
