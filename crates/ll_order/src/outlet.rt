//! What takes the events of a search.
ghost use Rattle.std.specs.Prelude.{◌≡◌, ◌≤◌, ◌↔◌, Err, OnOk, OnErr, map};
ghost use Rattle.ll_laws.specs.Sound.{Every};
ghost use Rattle.ll_order.specs.Outlets.{Rose, Gives, Refuses};
ghost use Rattle.ll_order.specs.declared.outlet.OutFault.TheVariants.{Write};

use ll_laws::Notice;
use std::mem;
use thiserror::Error;

/// Why an outlet refused an event.
#[derive(Clone, Copy, Debug, PartialEq, Eq, Error)]
pub enum OutFault {
    /// Writing failed: the outlet's count of faults rose.
    #[error("a write failed")]
    Write,
    /// Memory ran out.
    #[error("out of memory")]
    OutOfMemory,
}

/// What takes the events of a search, one after the other.
pub trait Outlet {
    /// What stands for an event that it takes: the event itself, or as much of it as the outlet wants.
    type Found: Notice;

    ghost use Rattle.std.specs.Prelude.{ℕ};
    ghost use Rattle.ll_laws.specs.declared.Event.{Event};

    // The outlet before, the event, and the outlet after it took the event.
    ghost takes: { Self → Event → Self → Type 0 };

    // The same, after it refused the event.
    ghost breaks: { Self → Event → Self → Type 0 };

    // A test of an event, which no call changes.
    ghost welcome: { Self → Event → Type 0 };

    // A count that never falls.
    ghost faults: { Self → ℕ };

    /// Takes an event that is welcome. `Write` exactly where the count of faults rose.
    fn event(&mut self, event: Self::Found) -> Result<(), OutFault>
        requires { welcome self.old (Self.Found.stands_for event) }
        ensures taken { OnOk result (takes self.old (Self.Found.stands_for event) self.new) }
        ensures refused { OnErr result (breaks self.old (Self.Found.stands_for event) self.new) }
        ensures write { result ≡ Err Write → Rose (faults self.old) (faults self.new) }
        ensures quiet { ¬ (result ≡ Err Write) → faults self.new ≡ faults self.old }
        ensures faults_kept { faults self.old ≤ faults self.new }
        ensures welcome_kept { (e : Event) → welcome self.old e ↔ welcome self.new e };

    /// Takes events that are welcome, one after the other, out of a list, of which nothing is said then. After a refusal those in front of the
    /// event that was refused were taken. `Write` exactly where the count of faults rose.
    ///
    /// The body that is given takes each of them by [`event`](Outlet::event). An outlet for which many at a time are less work has its own.
    fn events(&mut self, events: &mut Vec<Self::Found>) -> Result<(), OutFault>
        requires { Every (welcome self.old) (map Self.Found.stands_for events.old.items) }
        ensures taken { OnOk result (Gives takes self.old (map Self.Found.stands_for events.old.items) self.new) }
        ensures refused { OnErr result
            (Refuses takes breaks self.old (map Self.Found.stands_for events.old.items) self.new) }
        ensures write { result ≡ Err Write → Rose (faults self.old) (faults self.new) }
        ensures quiet { ¬ (result ≡ Err Write) → faults self.new ≡ faults self.old }
        ensures faults_kept { faults self.old ≤ faults self.new }
        ensures welcome_kept { (e : Event) → welcome self.old e ↔ welcome self.new e }
    {
        let nothing = Vec::new(*events.allocator());
        for event in mem::replace(events, nothing) {
            match self.event(event) {
                Ok(()) => {}
                Err(fault) => return Err(fault),
            }
        }
        Ok(())
    }
}
