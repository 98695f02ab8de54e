//! Tests of tokens: texts, and their tokens or first faults.
#![tactic(auto)]

#[cfg(test)]
mod lexer;
