//! What judges the texts of a call: reads them, says what they ask or why they are refused, prints a program and converts a derivation.
mod converting;
mod derivation;
mod fault;
mod heading;
mod judge;
mod preparing;
mod printing;
mod refusing;

pub use converting::serve_convert;
pub use derivation::derivation_of;
pub use fault::{Cause, refuse, write_line, write_parts};
pub use heading::write_heading;
pub use judge::Role;
pub use preparing::{load_text, prepare, problem_of, read, refusal};
pub use printing::serve_print;
pub use refusing::{Refusal, TextRefusal};
