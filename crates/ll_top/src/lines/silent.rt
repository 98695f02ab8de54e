// An outlet for a search whose counts alone are wanted.
ghost use Rattle.std.specs.Prelude.{◌≡◌};
ghost use Rattle.ll_laws.specs.Search.{is_answer as is_answer_of};

use crate::lines::ghost_event::{GhostEvent, ghost_by, ghost_by_terms};
use ll_bank::{At, OutOfMemory};
use ll_laws::{Event, Notice, Problem, Step, Terms};
use ll_order::{OutFault, Outlet};
use std::alloc::Global;

/// What is counted of an event: whether it is an answer.
#[derive(Drop)]
pub struct Kind {
    is_answer: bool,
    event: GhostEvent,
    ghost is: { is_answer ≡ is_answer_of event.value },
}

impl Notice for Kind {
    ghost stands_for = { λ kind. kind.event.value };

    ghost suits = { λ problem. Unit {0} };

    fn make(_alloc: Global, _problem: &Problem, event: Event) -> Result<Kind, OutOfMemory> {
        Ok(Kind {
            is_answer: event.is_answer(),
            event: ghost_by(&event),
        })
    }

    fn of_answer<T: Terms>(
        _alloc: Global,
        _problem: &Problem,
        terms: &T,
        places: &[At],
        steps: &[Step],
    ) -> Result<Option<Kind>, OutOfMemory> {
        Ok(Some(Kind {
            is_answer: true,
            event: ghost_by_terms(terms, places, steps),
        }))
    }

    fn is_answer(&self) -> bool {
        self.is_answer
    }
}

/// An outlet that takes every event and keeps nothing.
#[derive(Drop)]
pub struct Silent {}

impl Outlet for Silent {
    type Found = Kind;

    ghost takes = { λ before event after. Unit {0} };

    ghost breaks = { λ before event after. ⊥ };

    ghost welcome = { λ outlet event. Unit {0} };

    ghost faults = { λ outlet. 0 };

    fn event(&mut self, _event: Kind) -> Result<(), OutFault> {
        Ok(())
    }
}
