//! The state of a search as a machine holds it: its start, its marks, its image, and frozen choice points.
#![tactic(auto)]

mod frozen;
mod machine;
mod mark;
mod onward;
mod rest;
mod start;

pub use frozen::Frozen;
pub use machine::{Item, Machine};
pub use mark::ChoiceMark;
pub use onward::advance;
pub use rest::Rest;
