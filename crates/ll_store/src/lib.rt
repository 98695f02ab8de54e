//! Cells with bindings and levels, a trail that takes their changes back, and the bank that they name places of.
#![tactic(auto)]

mod cells;
mod layers;
mod packed;
mod segment;
mod store;
mod table;

pub use cells::{Cell, Cells, Change};
pub use layers::Layers;
pub use segment::{CellSegment, Renewal, Segment};
pub use store::{Mark, Store};
