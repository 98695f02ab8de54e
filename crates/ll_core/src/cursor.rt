//! The stack that says which alternatives come next.
ghost use Rattle.std.specs.Prelude.{◌≡◌, ◌<◌, ◌≤◌, ◌+◌, ◌++◌, map, length, List, [], ◌∷◌, if◌then◌else◌, nat_lt};
ghost use Rattle.std.specs.Vec.{vec_capacity};
ghost use Rattle.ll_core.specs.Cursor.{begin};
ghost use Rattle.ll_core.specs.Slots.{TakesReport, stop_in};
ghost use Rattle.ll_core.specs.declared.cursor.Stop.{Stop};

use crate::room::State;
use ll_laws::{Notice, Report};

/// The alternatives of a batch from this one on.
#[derive(Clone, Copy)]
pub(crate) struct Stop {
    pub(crate) batch: u32,
    pub(crate) k: u32,
}

/// The report, where it is closed, which is then taken.
pub(crate) fn take_report<E: Notice>(state: &mut State<E>) -> Option<Report<E>>
    ensures { TakesReport state.old result state.new }
{
    match std::mem::replace(state, State::Taken) {
        State::Closed(report) => Some(report),
        other => {
            *state = other;
            None
        }
    }
}

/// The top of the stack, which is `stop`, is done with: its batches come next, the last published first, and then the rest of its
/// own batch, which has `len` alternatives.
pub(crate) fn advance(stack: &mut Vec<Stop>, published: &Vec<u32>, stop: Stop, len: u32)
    requires top { 0 < length stack.old.items }
    requires inside { stop.k < len }
    requires room { length stack.old.items + length published.now.items ≤ vec_capacity stack.old }
    ensures items { (base : List Stop) → stack.old.items ≡ base ++ stop ∷ [] → map stop_in stack.new.items
        ≡ (map stop_in base ++ (if nat_lt (stop.k + 1) len then record { batch = stop.batch; k = stop.k + 1 } ∷ []
        else [])) ++ map begin published.now.items }
    ensures capacity { vec_capacity stack.new ≡ vec_capacity stack.old }
{
    let _done = stack.take_last();
    if stop.k + 1 < len {
        stack.push_reserved(Stop {
            batch: stop.batch,
            k: stop.k + 1,
        });
    }
    for &batch in published {
        stack.push_reserved(Stop { batch, k: 0 });
    }
}
