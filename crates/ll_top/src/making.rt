//! The text of a program that is made from a kind and a number.
ghost use Rattle.std.specs.Prelude.{◌≡◌, ◌<◌, ◌≤◌, Some};
ghost use Rattle.ll_edge.specs.Counts.{Rose};
ghost use Rattle.ll_make.specs.Kinds.{InRange};
ghost use Rattle.ll_top.specs.forms.Words.{shown_make};
ghost use Rattle.ll_top.specs.Making.{MakeComesTo};
ghost use Rattle.ll_top.specs.texts.CallEnds.{Ends};

use crate::forms::MakeCommand;
use ll_edge::{Sink, WriteFailed, write_all};
use ll_make::program;
use std::alloc::Global;

/// Writes the program that is asked for, and answers the status: 0, or 6 where the sink failed, with a prefix written, or 10 where memory
/// ran out, with nothing written.
pub fn serve_make<O: Sink>(alloc: Global, make: MakeCommand, sink: &mut O) -> u8
    requires { InRange make.kind make.number }
    ensures faults_kept { O.faults sink.old ≤ O.faults sink.new }
    ensures write_told { O.faults sink.old < O.faults sink.new → result ≡ 6 }
    ensures ends { Ends (MakeComesTo (shown_make make)) (Rose (O.faults sink.old) (O.faults sink.new))
        (Some (O.taken sink.old)) (Some (O.taken sink.new)) result }
{
    let Ok(text) = program(alloc, make.kind, make.number) else {
        return 10;
    };
    match write_all(sink, &text) {
        Ok(()) => 0,
        Err(WriteFailed) => 6,
    }
}
