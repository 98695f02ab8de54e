//! Events for contracts alone.
ghost use Rattle.std.specs.Prelude.{◌≡◌};
ghost use Rattle.std.specs.Borrow.{ftrue};
ghost use Rattle.ll_laws.specs.declared.Event.{Event as TheEvent};
ghost use Rattle.ll_laws.specs.contracts.Event as event;

use ll_bank::At;
use ll_laws::{Event, Step, Terms};
use std::marker::{Model, PhantomData, Send, Sync};

/// An event that lives in contracts alone. It takes no memory, and no code reads it.
#[derive(Drop)]
pub struct GhostEvent {
    marker: PhantomData<u8>,
    pub ghost value: { TheEvent } by { event.the_row.coded },
}

impl Model for GhostEvent {
    ghost also_owns = { λ _. ftrue };
}

// It owns nothing, so it may go to any thread, and any thread may share it.
unsafe impl Send for GhostEvent {}

unsafe impl Sync for GhostEvent {}

/// The event that the caller's contract names.
fn ghost_event() -> GhostEvent
    ghost event: { TheEvent }
    ensures { result.value ≡ event }
{
    GhostEvent {
        marker: PhantomData,
    }
}

/// The event that the caller's contract names by this one.
pub(crate) fn ghost_by(_event: &Event) -> GhostEvent
    ghost event: { TheEvent }
    ensures { result.value ≡ event }
{
    ghost_event()
}

/// The event that the caller's contract names by these terms, at these places, and steps.
pub(crate) fn ghost_by_terms<T: Terms>(_terms: &T, _places: &[At], _steps: &[Step]) -> GhostEvent
    ghost event: { TheEvent }
    ensures { result.value ≡ event }
{
    ghost_event()
}
