//! Terms and formulas with values in place of all their free bound places at once.

mod flat;
mod form;
mod images;
mod stack;
mod term;
mod values;

pub use form::close_form;
pub use term::close_term;
pub use values::Values;
