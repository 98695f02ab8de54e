//! An outlet that refuses what comes once the one within has had enough.
ghost use Rattle.std.specs.Prelude.{◌+◌, if◌then◌else◌};

use crate::enough::Enough;
use ll_order::{OutFault, Outlet};

/// An outlet that hands events on until the one within has had enough. A crew stops its pool where a write failed, so this outlet says that
/// one did, and has a fault more.
#[derive(Drop)]
pub struct Until<'s, E> {
    /// The outlet within.
    pub out: &'s mut E,
    /// It has had enough.
    pub ended: bool,
}

impl<'s, E: Enough> Outlet for Until<'s, E> {
    type Found = E::Found;

    ghost use Rattle.ll_first.specs.Firsts.{GoesOn, Ends};

    ghost takes = { λ before event after. GoesOn E.takes E.breaks E.faults E.limit E.answers
        (record { out = before.out.now; ended = before.ended; lent = before.out.ghost_name })
        event
        (record { out = after.out.now; ended = after.ended; lent = after.out.ghost_name }) };

    ghost breaks = { λ before event after. Ends E.takes E.breaks E.faults E.limit E.answers
        (record { out = before.out.now; ended = before.ended; lent = before.out.ghost_name })
        event
        (record { out = after.out.now; ended = after.ended; lent = after.out.ghost_name }) };

    ghost welcome = { λ outlet event. E.welcome outlet.out.now event };

    ghost faults = { λ outlet. E.faults outlet.out.now + (if outlet.ended then 1 else 0) };

    fn event(&mut self, event: E::Found) -> Result<(), OutFault> {
        if self.ended {
            return Err(OutFault::OutOfMemory);
        }
        match self.out.event(event) {
            Ok(()) => {}
            Err(fault) => return Err(fault),
        }
        if self.out.enough() {
            self.ended = true;
            return Err(OutFault::Write);
        }
        Ok(())
    }
}
