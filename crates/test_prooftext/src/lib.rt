//! Tests of the texts of derivations: what is read of them in either version, their faults, and how they are written.
#![tactic(auto)]

#[cfg(test)]
mod made;
#[cfg(test)]
mod prooftext;
#[cfg(test)]
mod prooftext2;
