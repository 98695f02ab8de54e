//! Outlets of a run: one that writes the lines of each event as it comes, and one that keeps nothing.
mod ghost_event;
mod line;
mod outlet;
mod silent;

pub use line::{Asked, Line};
pub use outlet::{Lined, Writing};
pub use silent::Silent;
