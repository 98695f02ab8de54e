//! How a call ends that refuses something.
ghost use Rattle.std.specs.Prelude.{◌≡◌, ◌<◌, ◌≤◌, Some};
ghost use Rattle.ll_edge.specs.Counts.{Rose};
ghost use Rattle.ll_top.specs.Refused.{named, EndsRefused};

use crate::texts::{Refusal, Role, refuse};
use ll_edge::Sink;

/// The names of the texts of a call that has no derivation.
#[derive(Drop)]
pub struct Names<'a> {
    pub program: &'a str,
    pub query: &'a str,
}

impl<'a> Names<'a> {
    // The name of a text.
    fn name(&self, role: Role) -> &'a str
        ensures { result.now ≡ named self.now.program.now self.now.query.now role }
    {
        match role {
            Role::Program => self.program,
            Role::Query => self.query,
            Role::Proof => "",
        }
    }
}

/// Ends a call that refuses something, and answers the status: where a text is refused that of the cause, whose line it writes, or 6 where
/// this fails, with a prefix written; 6 where the sink failed before, and 10 where memory ran out.
pub fn end_refused<O: Sink>(refusal: Refusal, names: &Names<'_>, sink: &mut O) -> u8
    ensures faults_kept { O.faults sink.old ≤ O.faults sink.new }
    ensures write_told { O.faults sink.old < O.faults sink.new → result ≡ 6 }
    ensures ends { EndsRefused (named names.now.program.now names.now.query.now)
        (Rose (O.faults sink.old) (O.faults sink.new)) (sink.new ≡ sink.old) (Some (O.taken sink.old))
        (Some (O.taken sink.new)) result refusal }
{
    match refusal {
        Refusal::Text(role, refusal) => refuse(refusal.cause(names.name(role)), sink),
        Refusal::Unwritable => 6,
        Refusal::OutOfMemory => 10,
    }
}
