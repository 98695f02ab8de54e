//! A lock of its own, by which one worker at a time holds a shared value.
//!
//! A `Turn` keeps the value. Each worker has a `Pass`, takes the turn with it, works on the `Held` value, and gives
//! the turn back. A type that implements `Kept` says what a pass knows of the value and which changes are lawful.
//! It is proved for any such type that the value fits the pass that takes it, and that it changes by lawful steps alone.
#![tactic(auto)]

mod held;
mod kept;
mod pass;
mod plays;
mod steps;
mod table;
mod turn;
mod view;

pub use held::Held;
pub use kept::Kept;
pub use pass::Pass;
pub use turn::{NewFault, Turn};
