//! The value, while a pass holds the turn.
ghost use Rattle.std.specs.Prelude.{◌≡◌};
ghost use Rattle.std.specs.Borrow.{sem};
ghost use Rattle.ll_turn.specs.Lending.{LendsValue};

use std::marker::Model;

/// The value that a pass has taken out of its turn. Contracts see it as the value.
///
/// It has no `Drop`, so it must be spent: `Turn::give` takes it back.
pub struct Held<S> {
    pub(crate) value: S,
}

impl<S> Model for Held<S> {
    ghost use Rattle.std.specs.Prelude.{◌≡◌};

    ghost Value = { S };

    ghost coded = { S.code };

    ghost view = { λ held. held.value };
}

impl<S> Held<S> {
    /// The value, to read and to change.
    pub fn value(&mut self) -> &mut S
        ensures* writes_back { sem 𝓛 (LendsValue S.row self.entry result) }
        ensures value { result.now ≡ self.old }
    {
        &mut self.value
    }
}
