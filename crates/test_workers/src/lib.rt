//! Tests of workers: that they claim side by side, that answers are written while others work, that a failed write stops all of them,
//! that a run stops after the answers that are wanted, that a batch that came back is searched, and that a bell that rang keeps nobody.
#![tactic(auto)]

#[cfg(test)]
mod apart;
#[cfg(test)]
mod early;
#[cfg(test)]
mod meeting;
#[cfg(test)]
mod ringing;
#[cfg(test)]
mod stopping;
#[cfg(test)]
mod texts;
