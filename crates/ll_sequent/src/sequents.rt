//! Sequents that wait for their derivations.
use ll_bank::{At, Bank, FormAt};

/// A clause with its label.
#[derive(Clone, Copy)]
pub(crate) struct Resource {
    pub label: u32,
    pub form: FormAt,
}

/// A sequent: how many of the unbounded clauses it has, the first ones, its bounded clauses, and its goal.
#[derive(Drop)]
pub(crate) struct Sequent {
    pub free: usize,
    pub bounded: Vec<Resource>,
    pub goal: FormAt,
}

/// What a node makes of its sequent.
#[derive(Drop)]
pub(crate) enum Step {
    /// The node does not fit, for this reason.
    Refused(u8),
    /// It fits, if its children fit these sequents.
    Leaves(Vec<Sequent>),
}

/// The root, and the unbounded clauses, with the bank in which all formulas lie, and the copies there of the derivation's terms.
#[derive(Drop)]
pub(crate) struct Start {
    pub bank: Bank,
    pub copies: Vec<At>,
    pub free: Vec<Resource>,
    pub root: Sequent,
}
