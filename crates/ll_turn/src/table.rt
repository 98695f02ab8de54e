//! The table under a turn, and its rule. The one word names the holder, and the one slot holds the value.
use crate::kept::Kept;
use crate::view::TurnView;
use atomic_table::{Seat, Shared, Table, TableRule};
use std::alloc::Global;
use std::marker::PhantomData;
use std::snapshot::Snapshot;

pub(crate) type TurnTable<S> = Table<Option<S>, TurnView<S>, Snapshot<S>, Turns<S>, Global>;

pub(crate) type TurnShared<S> = Shared<Option<S>, TurnView<S>, Snapshot<S>, Turns<S>>;

pub(crate) type TurnSeat<S> = Seat<Option<S>, TurnView<S>>;

// The rule. Its key is the value that the turn was made with.
pub(crate) struct Turns<S> {
    of: PhantomData<S>,
}

impl<S: Kept> TableRule<Option<S>, TurnView<S>, Snapshot<S>> for Turns<S> {
    ghost use Rattle.std.specs.Prelude.{[]};
    ghost use Rattle.ll_turn.specs.Rule.{IsKept};
    ghost use Rattle.ll_turn.specs.Views.{live};
    ghost use Rattle.ll_turn.specs.declared.view.Stage.TheVariants.{Rests};

    ghost holds = { λ key. IsKept S.numbers S.fit (S.begin key.value).0 };

    ghost first = { λ key. live (S.begin key.value).0 (S.begin key.value).1 Rests [] };
}
