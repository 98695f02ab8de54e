//! Tests of what workers share: turns, pools, and the order of answers.
#![tactic(auto)]

#[cfg(test)]
mod order;
#[cfg(test)]
mod players;
#[cfg(test)]
mod pool;
#[cfg(test)]
mod reports;
#[cfg(test)]
mod turn;
