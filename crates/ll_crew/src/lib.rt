//! Workers over one shared pool: a problem is searched by 1 to 64 of them, and its events are given in the order of one engine.
#![tactic(auto)]

mod alone;
mod bell;
mod beside;
mod crowd;
mod fault;
mod first;
mod giving;
mod heard;
mod job;
mod lead;
mod offer;
mod piece;
mod pool;
mod sharing;
mod team;
mod whole;
mod worker;

pub use bell::Bell;
pub use fault::CrewFault;
pub use first::{crew_first, crew_first_with};
pub use job::Sharing;
pub use pool::crew_of;
pub use team::Team;
pub use whole::{crew, crew_with};
pub use worker::work;
