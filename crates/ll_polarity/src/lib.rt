//! Scope, and the sorting into goals and clauses: the problem that two texts ask.
#![tactic(auto)]

mod asking;
mod copying;
mod front;
mod headings;
mod judge;
mod laws;
mod loading;
mod modules;
mod part;
mod pending;
mod put_clauses;
mod put_forms;
mod put_modules;
mod put_terms;
mod scope;
mod text;
mod variables;
mod walk;

pub use asking::ask;
pub use laws::{asked_is_valid, faults_in_order, one_problem};
pub use loading::load;
pub use part::Loaded;
