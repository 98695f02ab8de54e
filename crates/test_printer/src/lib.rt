//! Tests of printed programs: raw trees, and how they are written.
#![tactic(auto)]

#[cfg(test)]
mod printer;
