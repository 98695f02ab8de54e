//! Machines that go on from one frozen choice point to another.
ghost use Rattle.std.specs.Prelude.{◌≡◌, IfOk};
ghost use Rattle.ll_store.specs.Stored.{stored, state_of as store_of};
ghost use Rattle.ll_store.specs.Layered.{segments_of};
ghost use Rattle.ll_freeze.specs.Parts.{parts_of, parts_at, base_of, IsGood};
ghost use Rattle.ll_freeze.specs.Frozen.{Thaws};
ghost use Rattle.ll_freeze.specs.Onward.{base_in, LeadOn};

use crate::frozen::Frozen;
use crate::machine::Machine;
use crate::mark::ChoiceMark;
use ll_bank::OutOfMemory;
use ll_store::{Segment, Store};
use std::sync::Arc;

/// Brings a machine, which was in the state of one batch at a good mark, its base, to that of another, as if that one were thawed.
///
/// Where the layers of the first batch's store are the first of the other's, the machine's store goes back to its base, and on by the segments
/// that the other has besides. All else of the machine is an image. Where they are not, the other batch is thawed.
///
/// The machine is spent in every case.
pub fn advance<'p>(
    machine: Machine<'p>,
    base: ChoiceMark,
    from: &Frozen<'p>,
    to: &Frozen<'p>,
) -> Result<Machine<'p>, OutOfMemory>
    requires good { IsGood base machine }
    requires base { base_of (parts_at base machine) ≡ from.now.base }
    ensures { IfOk result (λ m. Thaws to.entry.now (parts_of m)) }
{
    match from.leading_to(to) {
        Some(more) => go_on(store_at(machine, base), more, to),
        None => to.machine(),
    }
}

/// The store of a machine, back in its state at a good mark. All else of the machine goes.
fn store_at(machine: Machine<'_>, mark: ChoiceMark) -> Store
    requires { IsGood mark machine }
    ensures { base_in (store_of (stored result)) ≡ base_of (parts_at mark machine.entry) }
{
    let mut machine = machine;
    machine.undo(mark);
    let (_rest, store) = machine.parted();
    store
}

/// A machine as a batch was frozen, over a store that goes on by segments to the batch's.
fn go_on<'p>(
    store: Store,
    more: &[Arc<Segment>],
    to: &Frozen<'p>,
) -> Result<Machine<'p>, OutOfMemory>
    requires { LeadOn (segments_of more.now) (base_in (store_of (stored store))) to.now.base }
    ensures { IfOk result (λ m. Thaws to.entry.now (parts_of m)) }
{
    let mut store = store;
    store.apply_segments(more)?;
    to.machine_over(store)
}
