//! A pass, and what a contract sees of it.
ghost use Rattle.std.specs.Prelude.{◌≡◌, true, ◌∷◌, [], None};
ghost use Rattle.ll_turn.specs.Numbers.{HasToGive, IsParted};
ghost use Rattle.ll_turn.specs.Views.{is_live, without};

use crate::kept::Kept;
use crate::plays::Part;
use crate::table::TurnSeat;
use crate::turn::Turn;
use std::marker::Model;

/// A right to take turns.
///
/// Contracts see its turn (`table`), its problem (`problem`), its own data (`mine`), the value as it stood when it took the
/// turn that it still holds (`before`, or `None`), and the numbers of the passes that were split from it and not joined to
/// it yet (`given`).
///
/// A pass that is dropped is never joined, and its turn is then never closed.
#[derive(Drop)]
pub struct Pass<S: Kept> {
    pub(crate) seat: TurnSeat<S>,
    // Its own number, and the least that it has to give.
    pub(crate) number: u64,
    pub(crate) least: u64,
    pub(crate) ghost lives: { is_live seat.me.0 ≡ true },
}

impl<S: Kept> Model for Pass<S> {
    ghost use Rattle.ll_turn.specs.Sight.{Sight, sight};
    ghost use Rattle.ll_turn.specs.Steps.{Runs};

    ghost Value = { Sight S S.Problem S.Mine };

    ghost view = { λ pass. sight pass.seat.table_id pass.seat.me.0 pass.lives };

    ghost invariant = { λ pass. Runs S.numbers pass.seat.me pass.number pass.least };
}

impl<S: Kept> Pass<S> {
    /// A new pass with the least number that this one has to give, and with none to give further.
    ///
    /// The pass holds no turn and has a number to give.
    pub fn split(&mut self, turn: &Turn<S>) -> Pass<S>
        requires own { self.old.table ≡ turn.now }
        requires rests { self.old.before ≡ None }
        requires some_left { HasToGive (S.numbers self.old.mine) }
        ensures kept { self.new ≡ record self.old {
          mine = (S.parted self.old.mine).0;
          given = (S.numbers self.old.mine).from ∷ self.old.given;
        } }
        ensures new { result ≡ record self.old { mine = (S.parted self.old.mine).1; given = [] } }
        ensures numbers { IsParted (S.numbers self.old.mine) (S.numbers self.new.mine) (S.numbers result.mine) }
    {
        let seat = turn.table.shared.split_seat::<Part<S>>(&mut self.seat);
        let number = self.least;
        self.least = number + 1;
        Pass {
            seat,
            number,
            least: 0,
        }
    }

    /// Takes back another pass, and keeps its own data. Neither holds a turn.
    pub fn join(&mut self, turn: &Turn<S>, other: Pass<S>)
        requires own { (self.old.table ≡ turn.now) × (other.table ≡ turn.now) }
        requires rest { (self.old.before ≡ None) × (other.before ≡ None) }
        ensures { self.new ≡ record self.old { given = without (S.numbers other.mine).own self.old.given } }
    {
        let Pass {
            seat,
            number: _,
            least: _,
        } = other;
        turn.table.shared.join_seat::<Part<S>>(&mut self.seat, seat);
    }
}
