//! The lists of goals and ends that a search has still to work off.
//!
//! An [`Agenda`] is a bank of frames. Each frame is an item with the top of the list behind it, so lists share their rests, and to
//! copy or to drop one is to copy or to drop its [`Top`], a number. Contracts see an agenda as its frames, and a top as the list
//! that it shows.
#![tactic(auto)]

mod agenda;

pub use agenda::{Agenda, Top};
