//! What a pass knows of the turn. These types are for the proofs alone: no value of them is made.
use crate::kept::Kept;
use std::collections::LinkedList;

/// Whether a pass holds the turn, and with which value.
pub(crate) enum Stage<S> {
    /// It holds no turn.
    Rests,
    /// It holds the turn, and found this value.
    Holds(S),
    /// It holds the turn, and announced that it will put this value back.
    Notes(S),
}

/// What a pass that lives knows.
pub(crate) struct Known<S, P, M> {
    /// The problem, which all passes share.
    pub problem: P,
    /// The pass's own data.
    pub mine: M,
    /// Whether it holds the turn.
    pub stage: Stage<S>,
    /// The numbers of the passes that were split from it and not joined to it yet.
    pub given: LinkedList<u64>,
}

/// What a seat at the table knows: nothing once its pass was joined to another.
pub(crate) enum View<S, P, M> {
    Spent,
    Live(Known<S, P, M>),
}

// The view of a turn's passes.
pub(crate) type TurnView<S> = View<S, <S as Kept>::Problem, <S as Kept>::Mine>;
