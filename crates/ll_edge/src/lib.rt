//! The outside of the program: a shelf that texts are read from, a sink that text is written to, and a gate
//! that workers pass. Each is a trait, with an implementation for the system and one for tests in memory. Beside them the words of a call.
#![tactic(auto)]

mod args;
mod gate;
mod memory;
mod notes;
mod real;
mod shelf;
mod sink;
mod text;

pub use args::{lent, words};
pub use gate::{Gate, OpenGate};
pub use memory::{MemShelf, MemSink};
pub use real::{FileShelf, StdSink};
pub use shelf::{Got, Shelf};
pub use sink::{Sink, WriteFailed, write_all};
pub use text::{ReadFault, read_text};
