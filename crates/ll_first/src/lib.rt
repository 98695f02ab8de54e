//! The first answers of a search: an outlet that tells when it has had enough.
#![tactic(auto)]

mod enough;
mod until;

pub use enough::{Enough, First};
pub use until::Until;
