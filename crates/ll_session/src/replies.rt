//! What takes the queries of a session, one after the other.
ghost use Rattle.std.specs.Prelude.{◌≡◌, ◌≤◌, Err, OnOk, OnErr};
ghost use Rattle.ll_order.specs.Outlets.{Rose};
ghost use Rattle.ll_order.specs.declared.outlet.OutFault.TheVariants.{Write};
ghost use Rattle.ll_session.specs.Replied.{asked_line, IsValidAsked};

use ll_laws::Problem;
use ll_lexer::Fault;
use ll_order::OutFault;

/// What a line of a session asks.
#[derive(Clone, Copy)]
pub enum Asked<'p> {
    /// A query: its problem.
    Query(&'p Problem),
    /// Nothing: the line has this fault, at a place of the whole text.
    Fault(Fault),
}

/// What replies to the queries of a session, one after the other.
pub trait Replies {
    ghost use Rattle.std.specs.Prelude.{ℕ};
    ghost use Rattle.ll_session.specs.Queries.{QueryLine};

    // The replies before, a line with what it asks, and the replies after it was replied to.
    ghost takes: { Self → QueryLine → Self → Type 0 };

    // The same, after the reply was refused.
    ghost breaks: { Self → QueryLine → Self → Type 0 };

    // A count that never falls.
    ghost faults: { Self → ℕ };

    /// Replies to the line of this number, counted from 1, whose problem is valid. `Write` only where the count of faults rose.
    fn reply(&mut self, line: u32, asked: Asked<'_>) -> Result<(), OutFault>
        requires { IsValidAsked asked }
        ensures taken { OnOk result (takes self.old (asked_line line asked.entry) self.new) }
        ensures refused { OnErr result (breaks self.old (asked_line line asked.entry) self.new) }
        ensures write { result ≡ Err Write → Rose (faults self.old) (faults self.new) }
        ensures faults_kept { faults self.old ≤ faults self.new };
}
