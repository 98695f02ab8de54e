//! Tests of the index: a table of many clauses, and one of names with few.
#![tactic(auto)]

#[cfg(test)]
mod few;
#[cfg(test)]
mod table;
