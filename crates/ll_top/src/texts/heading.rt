// The first line of a reply in a session, and of what a deepening writes.
ghost use Rattle.std.specs.Prelude.{◌≡◌, ◌≤◌, ◌++◌, Some, OnOk, OnErr, decimal};
ghost use Rattle.std.specs.Io.KnownBytes.{append_known};
ghost use Rattle.ll_edge.specs.Counts.{Rose};
ghost use Rattle.ll_edge.specs.Pieces.{AppendsFront};
ghost use Rattle.ll_laws.specs.Output.{line};

use crate::texts::fault::write_parts;
use itoa::Buffer;
use ll_edge::{Sink, WriteFailed};

/// Writes a line of some words and a number. After a refusal a prefix of it was written.
pub fn write_heading<O: Sink>(sink: &mut O, words: &str, number: u32) -> Result<(), WriteFailed>
    ensures faults_kept { O.faults sink.old ≤ O.faults sink.new }
    ensures line { OnOk result (Some (O.taken sink.new)
        ≡ append_known (Some (O.taken sink.old)) (line (words.now ++ decimal number))) }
    ensures failed { OnErr result (Rose (O.faults sink.old) (O.faults sink.new)) }
    ensures quiet { OnOk result (O.faults sink.new ≡ O.faults sink.old) }
    ensures prefix { OnErr result (AppendsFront (Some (O.taken sink.old)) (line (words.now ++ decimal number))
        (Some (O.taken sink.new))) }
{
    let mut digits = Buffer::new();
    let digits = digits.format(number);
    write_parts(sink, &[words, digits, "\n"])
}
