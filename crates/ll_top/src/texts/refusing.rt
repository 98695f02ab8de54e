// Why a run ends without the whole text of its search.
use crate::texts::fault::Cause;
use crate::texts::judge::Role;
use ll_edge::WriteFailed;
use ll_lexer::Fault;
use std::alloc::AllocError;

/// Why a text of a run is not gone on with.
#[derive(Clone, Copy)]
pub enum TextRefusal {
    /// There is no text of its name.
    Absent,
    /// The shelf failed.
    Unreadable,
    /// It has too many bytes.
    Oversized,
    /// It has this fault.
    Faulty(Fault),
}

/// Why a run ends before all of its text is written.
#[derive(Clone, Copy)]
pub enum Refusal {
    /// One of its texts is refused.
    Text(Role, TextRefusal),
    /// The sink failed.
    Unwritable,
    /// Memory ran out.
    OutOfMemory,
}

impl TextRefusal {
    ghost use Rattle.std.specs.Prelude.{◌≡◌};
    ghost use Rattle.ll_top.specs.texts.Endings.{cause_of, shown_cause};

    /// The cause, for the text of this name.
    pub fn cause(self, name: &str) -> Cause<'_>
        ensures { shown_cause result ≡ cause_of name.now self }
    {
        match self {
            TextRefusal::Absent => Cause::Absent(name),
            TextRefusal::Unreadable => Cause::Unreadable(name),
            TextRefusal::Oversized => Cause::Oversized(name),
            TextRefusal::Faulty(fault) => Cause::Faulty(name, fault),
        }
    }
}

impl From<AllocError> for Refusal {
    ghost use Rattle.std.specs.Prelude.{◌≡◌};
    ghost use Rattle.ll_top.specs.declared.texts.refusing.Refusal.TheVariants.{OutOfMemory};

    ghost from_gives = { λ _ refusal. refusal ≡ OutOfMemory };

    fn from(_error: AllocError) -> Refusal {
        Refusal::OutOfMemory
    }
}

impl From<WriteFailed> for Refusal {
    ghost use Rattle.std.specs.Prelude.{◌≡◌};
    ghost use Rattle.ll_top.specs.declared.texts.refusing.Refusal.TheVariants.{Unwritable};

    ghost from_gives = { λ _ refusal. refusal ≡ Unwritable };

    fn from(_error: WriteFailed) -> Refusal {
        Refusal::Unwritable
    }
}
