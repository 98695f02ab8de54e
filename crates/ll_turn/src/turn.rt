//! The turn that passes take.
ghost use Rattle.std.specs.Prelude.{◌≡◌, ◌∷◌, [], Some, None, IfOk, IfErr, IsSomeAnd, IfSome};
ghost use Rattle.ll_turn.specs.Numbers.{IsFirst};
ghost use Rattle.ll_turn.specs.Steps.{HasWordAndSlot};
ghost use Rattle.ll_turn.specs.Views.{live};
ghost use Rattle.ll_turn.specs.declared.view.Stage.TheVariants.{Rests};

use crate::held::Held;
use crate::kept::Kept;
use crate::pass::Pass;
use crate::steps::{put_back, take_out};
use crate::table::{TurnSeat, TurnTable};
use atomic_table::{Refused, Table};
use std::alloc::Global;
use std::marker::Model;
use std::snapshot::Snapshot;
use std::sync::Wait;

/// A lock of its own: it keeps one value, which one pass at a time holds. Contracts see it as the name of its table.
#[derive(Drop)]
pub struct Turn<S: Kept> {
    pub(crate) table: TurnTable<S>,
}

impl<S: Kept> Model for Turn<S> {
    ghost use Rattle.atomic_table.specs.Seated.{TableId};
    ghost use Rattle.ll_turn.specs.Steps.{HasWordAndSlot};

    ghost Value = { TableId };

    ghost view = { λ turn. turn.table.shared.table_id };

    ghost invariant = { λ turn. HasWordAndSlot turn.table.shared.table_id };
}

/// Why there is no new turn.
#[derive(Drop)]
pub enum NewFault<S> {
    /// There was no memory. The value comes back.
    OutOfMemory {
        /// The value that the turn was to keep.
        value: S,
    },
}

// A table with the word 0 and the value in its slot. The origin is that value, for the proofs.
fn lay<S: Kept>(
    alloc: Global,
    slots: Vec<Option<S>>,
    origin: &Snapshot<S>,
) -> Result<(TurnTable<S>, TurnSeat<S>), Refused<Option<S>, Global>>
    requires slots { slots.items ≡ Some origin.now.value ∷ [] }
    requires fits { S.fit origin.now.value (S.begin origin.now.value).0 (S.begin origin.now.value).1 }
    ensures table { IfOk result (λ t. HasWordAndSlot t.0.shared.table_id × (t.1.table_id ≡ t.0.shared.table_id)) }
    ensures first { IfOk result (λ t. t.1.me
        ≡ (live (S.begin origin.now.value).0 (S.begin origin.now.value).1 Rests [], [])) }
    ensures err { IfErr result (λ refused. refused.slots.items ≡ slots.items) }
{
    Table::new(alloc, &[0], slots, origin)
}

impl<S: Kept> Turn<S> {
    /// A turn that keeps the value, and its first pass. The value has to fit the pass that `begin` says.
    ///
    /// Where there is no memory, `OutOfMemory` gives the value back.
    pub fn new(alloc: Global, value: S) -> Result<(Turn<S>, Pass<S>), NewFault<S>>
        requires { S.fit value (S.begin value).0 (S.begin value).1 }
        ensures ok { IfOk result (λ t. t.1 ≡ record {
          table = t.0;
          problem = (S.begin value).0;
          mine = (S.begin value).1;
          before = None;
          given = [];
        }) }
        ensures numbers { IfOk result (λ t. IsFirst (S.numbers t.1.mine)) }
        ensures err { IfErr result (λ fault. fault ≡ NewFault.OutOfMemory value) }
    {
        let Ok(mut slots) = Vec::with_capacity(alloc, 1) else {
            return Err(NewFault::OutOfMemory { value });
        };
        let origin = Snapshot::of(&value);
        slots.push_reserved(Some(value));
        match lay(alloc, slots, &origin) {
            Ok((table, seat)) => Ok((
                Turn { table },
                Pass {
                    seat,
                    number: 0,
                    least: 1,
                },
            )),
            Err(Refused { mut slots }) => {
                let value = slots.pop().unwrap().unwrap();
                slots.destroy_empty();
                Err(NewFault::OutOfMemory { value })
            }
        }
    }

    /// Waits until no pass holds the turn, and takes the value. The pass holds no turn before.
    ///
    /// The value fits the pass, which knows it as the value before.
    pub fn take<R: Wait>(&self, rt: &R, pass: &mut Pass<S>) -> Held<S>
        requires own { pass.old.table ≡ self.now }
        requires rests { pass.old.before ≡ None }
        ensures pass { pass.new ≡ record pass.old { before = Some result } }
        ensures fits { S.fit result pass.old.problem pass.old.mine }
    {
        let value = take_out(rt, &self.table.shared, &mut pass.seat, pass.number);
        Held { value }
    }

    /// Gives the turn back. The change from the value before to the value held has to be lawful.
    ///
    /// The pass then has its next data, which the value fits, and holds no turn.
    pub fn give(&self, held: Held<S>, pass: &mut Pass<S>)
        requires own { pass.old.table ≡ self.now }
        requires lawful { IsSomeAnd pass.old.before (λ before. S.lawful pass.old.problem before pass.old.mine held) }
        ensures pass { IfSome pass.old.before (λ before. pass.new
            ≡ record pass.old { mine = S.next pass.old.problem before pass.old.mine held; before = None }) }
        ensures fits { S.fit held pass.new.problem pass.new.mine }
    {
        let Held { value } = held;
        put_back(&self.table.shared, &mut pass.seat, pass.number, value);
    }

    /// The value, which fits the first pass, once every pass that was split from it was joined to it.
    pub fn close(self, pass: Pass<S>) -> S
        requires own { pass.table ≡ self }
        requires first { (S.numbers pass.mine).own ≡ 0 }
        requires rests { pass.before ≡ None }
        requires alone { pass.given ≡ [] }
        ensures { S.fit result pass.problem pass.mine }
    {
        let Pass {
            seat,
            number: _,
            least: _,
        } = pass;
        let Turn { table } = self;
        let mut closed = table.close_with(seat);
        let value = closed.take(0).unwrap();
        closed.free();
        value
    }
}
