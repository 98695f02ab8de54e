//! What each step on the table tells the pass that makes it. These types are for the proofs alone.
ghost use Rattle.std.specs.Prelude.{Option, None};
ghost use Rattle.ll_turn.specs.Steps.{tried, announced, freed, left_part, right_part, taken_back};
ghost use Rattle.ll_turn.specs.declared.view.View.TheVariants.{Spent};

use crate::kept::Kept;
use crate::view::TurnView;
use atomic_table::{Join, Play, Split};
use std::marker::{Brand, PhantomData};

// The value that a holder is about to put back. A call at `Brand` picks it.
pub(crate) trait Noting<S> {
    ghost value: { Option S };
}

impl<S> Noting<S> for Brand {
    ghost value = { None };
}

// To try to hold the turn.
pub(crate) struct Try;

impl<S: Kept> Play<Option<S>, TurnView<S>> for Try {
    ghost then = { tried S.fit };
}

// To announce the value that will be put back.
pub(crate) struct Announce<N> {
    marker: PhantomData<N>,
}

impl<S: Kept, N: Noting<S>> Play<Option<S>, TurnView<S>> for Announce<N> {
    ghost then = { announced S.next N.value };
}

// To free the word.
pub(crate) struct Free;

impl<S: Kept> Play<Option<S>, TurnView<S>> for Free {
    ghost then = { freed S.fit };
}

// To split a pass, and to join one.
pub(crate) struct Part<S> {
    marker: PhantomData<S>,
}

impl<S: Kept> Split<TurnView<S>> for Part<S> {
    ghost left = { left_part S.numbers S.parted };

    ghost right = { right_part S.parted };
}

impl<S: Kept> Join<TurnView<S>> for Part<S> {
    ghost both = { taken_back S.numbers };

    ghost spent = { Spent };
}
