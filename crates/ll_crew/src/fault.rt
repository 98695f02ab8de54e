//! Why a crew gave up.
ghost use Rattle.std.specs.Prelude.{◌≡◌, ◌↔◌};
ghost use Rattle.ll_order.specs.declared.outlet.OutFault.{OutFault};

use ll_order::OutFault;
use thiserror::Error;

/// Why a crew gave up.
#[derive(Clone, Copy, Debug, PartialEq, Eq, Error)]
pub enum CrewFault {
    /// Writing failed: the outlet's count of faults rose.
    #[error("a write failed")]
    Write,
    /// Memory was wanting.
    #[error("out of memory")]
    OutOfMemory,
}

/// The fault of a crew whose outlet refused an event: `Write` exactly where a write failed.
pub fn fault_of(fault: OutFault) -> CrewFault
    ensures { (result ≡ CrewFault.Write) ↔ (fault ≡ OutFault.Write) }
{
    match fault {
        OutFault::Write => CrewFault::Write,
        OutFault::OutOfMemory => CrewFault::OutOfMemory,
    }
}
