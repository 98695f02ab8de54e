//! The pool that workers share.
//!
//! A [`SharedPool`] is a turn over a pool. Each worker has a [`Seat`], which is its pass and what it knows of the pool: its number,
//! its open piece with what this piece owes, and how often it has taken the turn. Each call that takes the turn is one event of the
//! pool, between taking the turn and giving it back.
#![tactic(auto)]

mod data;
mod kept;
mod laws;
mod seat;
mod shared;

pub use laws::no_piece_twice;
pub use seat::Seat;
pub use shared::SharedPool;
