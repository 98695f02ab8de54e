//! Tests of engines that go on from batch to batch.
#![tactic(auto)]

#[cfg(test)]
mod advancing;
