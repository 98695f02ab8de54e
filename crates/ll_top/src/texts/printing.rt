//! From the words of a print to its bytes.
ghost use Rattle.std.specs.Prelude.{◌≡◌, ◌≤◌, length, Option, Some, IfOk, IfErr};
ghost use Rattle.ll_edge.specs.Counts.{Rose};
ghost use Rattle.ll_edge.specs.Log.{ShelfKept, ToldFits, Met, NoText, Unreadable};
ghost use Rattle.ll_edge.specs.Texts.{Texts};
ghost use Rattle.ll_parser.specs.Printed.{program_text};
ghost use Rattle.ll_top.specs.declared.texts.refusing.Refusal.TheVariants.{OutOfMemory};
ghost use Rattle.ll_top.specs.texts.CallEnds.{Ends};
ghost use Rattle.ll_top.specs.texts.Outcome.{IsPrintedAs, PrintComesTo};
ghost use Rattle.ll_top.specs.texts.Told.{ShelfTold, SinkTold, StatusTold};
ghost use Rattle.ll_top.specs.texts.Endings.{IsNotPrinted, IsMadeOf, IsNotMadeOf, PrintEnds};

use crate::texts::fault::refuse;
use crate::texts::judge::{Role, judge_program};
use crate::texts::preparing::{read, refusal};
use crate::texts::refusing::Refusal;
use ll_edge::{Shelf, Sink, write_all};
use ll_parser::RawProgram;
use std::alloc::Global;

/// Prints a program, and says why not where it is not printed.
pub fn serve_print<F: Shelf, O: Sink>(alloc: Global, name: &str, shelf: &mut F, sink: &mut O) -> u8
    ensures kept { ShelfKept F.texts F.faults F.absences F.log shelf.old shelf.new }
    ensures sink_faults_kept { O.faults sink.old ≤ O.faults sink.new }
    ensures faults_told { StatusTold F.faults F.absences O.faults shelf.old shelf.new sink.old sink.new result }

    ensures ends { (told : Option Texts) → ToldFits told (F.log shelf.old) (F.log shelf.new)
        → Ends (PrintComesTo told (Met F.absences F.log shelf.old shelf.new NoText)
        (Met F.faults F.log shelf.old shelf.new Unreadable) name.now) (Rose (O.faults sink.old) (O.faults sink.new))
        (Some (O.taken sink.old)) (Some (O.taken sink.new)) result }
{
    match print_program(alloc, name, shelf, sink) {
        Ok(()) => 0,
        Err(Refusal::Text(_, refusal)) => refuse(refusal.cause(name), sink),
        Err(Refusal::Unwritable) => 6,
        Err(Refusal::OutOfMemory) => 10,
    }
}

// Writes the program of this name as it is printed. After a refusal of the text nothing was written, else a prefix.
fn print_program<F: Shelf, O: Sink>(
    alloc: Global,
    name: &str,
    shelf: &mut F,
    sink: &mut O,
) -> Result<(), Refusal>
    ensures kept { ShelfKept F.texts F.faults F.absences F.log shelf.old shelf.new }
    ensures sink_faults_kept { O.faults sink.old ≤ O.faults sink.new }
    ensures shelf_told { ShelfTold F.faults F.absences shelf.old shelf.new result }
    ensures sink_told { SinkTold (O.faults sink.old) (O.faults sink.new) result }

    ensures ends { (told : Option Texts) → ToldFits told (F.log shelf.old) (F.log shelf.new)
        → PrintEnds told (Met F.absences F.log shelf.old shelf.new NoText)
        (Met F.faults F.log shelf.old shelf.new Unreadable) (Rose (O.faults sink.old) (O.faults sink.new)) name.now
        (Some (O.taken sink.old)) (Some (O.taken sink.new)) result }
{
    let bytes = printed(alloc, name, shelf)?;
    write_all(sink, &bytes)?;
    Ok(())
}

// The bytes that the program of this name is printed as: reads its text from the shelf to its end, and then judges it.
fn printed<F: Shelf>(alloc: Global, name: &str, shelf: &mut F) -> Result<Vec<u8>, Refusal>
    ensures kept { ShelfKept F.texts F.faults F.absences F.log shelf.old shelf.new }
    ensures shelf_told { ShelfTold F.faults F.absences shelf.old shelf.new result }

    ensures bytes { IfOk result (λ bytes. (told : Option Texts)
        → ToldFits told (F.log shelf.old) (F.log shelf.new) → IsPrintedAs told name.now bytes.items) }
    ensures refused { IfErr result (λ refusal. (told : Option Texts) → ToldFits told (F.log shelf.old) (F.log shelf.new)
        → IsNotPrinted told (Met F.absences F.log shelf.old shelf.new NoText)
        (Met F.faults F.log shelf.old shelf.new Unreadable) name.now refusal) }
{
    let text = read(alloc, shelf, name, Role::Program)?;
    printed_text(alloc, &text)
}

// The bytes that a text is printed as.
fn printed_text(alloc: Global, text: &[u8]) -> Result<Vec<u8>, Refusal>
    requires { length text.now ≤ 16777216 }
    ensures bytes { IfOk result (λ bytes. IsMadeOf text.now bytes.items) }
    ensures refused { IfErr result (IsNotMadeOf text.now) }
{
    let program = match judge_program(alloc, text) {
        Ok(program) => program,
        Err(fault) => return Err(refusal(Role::Program, fault)),
    };
    program_bytes(alloc, &program)
}

// The bytes that a program is printed as.
fn program_bytes(alloc: Global, program: &RawProgram) -> Result<Vec<u8>, Refusal>
    ensures bytes { IfOk result (λ bytes. bytes.items ≡ program_text program.now) }
    ensures refused { IfErr result (λ e. e ≡ OutOfMemory) }
{
    let mut bytes = Vec::new(alloc);
    ll_printer::program(alloc, program, &mut bytes)?;
    Ok(bytes)
}
