//! The clauses of a program that can match an atom, by its predicate and the outermost sign of its first argument.
//!
//! An [`Index`] lists the leaves of a program's clauses in order, each with what an inference wants of it: its head, its premises and how
//! many quantifiers are on the way. [`Index::candidates`] gives a [`Cursor`] at those that can match an atom, and [`Index::next`] takes
//! one leaf after another from it, in order, with no list made and no memory taken.
#![tactic(auto)]

mod chains;
mod index;
mod key;
mod laws;
mod leaves;
mod linking;
mod rows;

pub use index::{Cursor, Index};
pub use laws::{First, clashes_give_nothing, leaves_stand};
pub use leaves::{Leaf, Premise};
