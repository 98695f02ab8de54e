//! A check or a cover of a derivation: what it finds, and the line that says it.
mod checking;
mod finding;

pub use checking::serve_check;
