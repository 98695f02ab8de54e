//! The queries of a text, replied to line by line.
ghost use Rattle.std.specs.Prelude.{◌≡◌, ◌≤◌, [], length, Err, IfOk, OnOk, OnErr};
ghost use Rattle.ll_parser.specs.Raw.{ProgramTree};
ghost use Rattle.ll_parser.specs.Reads.{IsWhole};
ghost use Rattle.ll_parser.specs.Text.{programs};
ghost use Rattle.ll_polarity.specs.Faults.{program_faults};
ghost use Rattle.ll_order.specs.Outlets.{Rose};
ghost use Rattle.ll_order.specs.declared.outlet.OutFault.TheVariants.{Write};
ghost use Rattle.ll_session.specs.Queries.{IsProgramOf, IsLoaded, on_line};
ghost use Rattle.ll_session.specs.Replied.{Answers, StopsShort, Replies as IsReplied, RefusesLine};

use crate::asking::ask_text;
use crate::laws::one_session;
use crate::lines::{is_query_line, split_line};
use crate::replies::{Asked, Replies};
use ll_lexer::{Fault, Place, TextFault};
use ll_order::OutFault;
use ll_parser::RawProgram;
use ll_polarity::{Loaded, load};
use std::alloc::Global;

/// Replies to each query of a text, which has at most 16,777,216 bytes, over a program without a fault, and tells how many they are. A line is
/// a query unless it holds nothing but blanks and a comment; the bound of each search is at most 1,000,000.
///
/// A reply depends on the program, the bound and its own line alone. After a refusal the first queries were replied to, and the next reply
/// may have been begun. `Write` only where the count of faults rose.
pub fn session<R: Replies>(
    alloc: Global,
    program: &RawProgram,
    text: &[u8],
    bound: u32,
    replies: &mut R,
) -> Result<u32, OutFault>
    requires whole { IsWhole programs program.now }
    requires faultless { program_faults program.now ≡ [] }
    requires text { length text.now ≤ 16777216 }
    requires bound { bound ≤ 1000000 }
    ensures answers { IfOk result
        (λ count. Answers R.takes R.breaks program.now text.now bound replies.old count replies.new) }
    ensures refused { OnErr result (StopsShort R.takes R.breaks program.now text.now bound replies.old replies.new) }
    ensures write { result ≡ Err Write → Rose (R.faults replies.old) (R.faults replies.new) }
    ensures faults_kept { R.faults replies.old ≤ R.faults replies.new }
{
    one_session();
    match load(alloc, program) {
        Ok(loaded) => answer_lines(alloc, &loaded, text, bound, replies),
        // The program has no fault, so memory ran out.
        Err(_) => Err(OutFault::OutOfMemory),
    }
}

/// Does what `session` does, over a program that was loaded. What was loaded is copied for each query.
pub fn answer_lines<R: Replies>(
    alloc: Global,
    loaded: &Loaded,
    text: &[u8],
    bound: u32,
    replies: &mut R,
) -> Result<u32, OutFault>
    requires loaded { IsLoaded loaded.now }
    requires text { length text.now ≤ 16777216 }
    requires bound { bound ≤ 1000000 }
    ensures answers { IfOk result (λ count. (program : ProgramTree) → IsProgramOf program loaded.now
        → Answers R.takes R.breaks program text.now bound replies.old count replies.new) }
    ensures refused { OnErr result ((program : ProgramTree) → IsProgramOf program loaded.now
        → StopsShort R.takes R.breaks program text.now bound replies.old replies.new) }
    ensures write { result ≡ Err Write → Rose (R.faults replies.old) (R.faults replies.new) }
    ensures faults_kept { R.faults replies.old ≤ R.faults replies.new }
{
    one_session();
    let mut rest = text;
    let mut number: u32 = 0;
    let mut count: u32 = 0;
    while !rest.is_empty() {
        let (line, behind) = split_line(rest);
        rest = behind;
        number += 1;
        if is_query_line(line) {
            match answer_line(alloc, loaded, line, number, bound, replies) {
                Ok(()) => count += 1,
                Err(fault) => return Err(fault),
            }
        }
    }
    Ok(count)
}

// Replies to the line of this number, which is a query. After a refusal the reply may have been begun.
fn answer_line<R: Replies>(
    alloc: Global,
    loaded: &Loaded,
    line: &[u8],
    number: u32,
    bound: u32,
    replies: &mut R,
) -> Result<(), OutFault>
    requires loaded { IsLoaded loaded.now }
    requires line { length line.now ≤ 16777216 }
    requires bound { bound ≤ 1000000 }
    ensures replies { OnOk result ((program : ProgramTree) → IsProgramOf program loaded.now
        → IsReplied R.takes R.breaks program bound number line.now replies.old replies.new) }
    ensures refused { OnErr result ((program : ProgramTree) → IsProgramOf program loaded.now
        → RefusesLine R.takes R.breaks program bound number line.now replies.old replies.new) }
    ensures write { result ≡ Err Write → Rose (R.faults replies.old) (R.faults replies.new) }
    ensures faults_kept { R.faults replies.old ≤ R.faults replies.new }
{
    let Ok(part) = loaded.copy(alloc) else {
        return Err(OutFault::OutOfMemory);
    };
    match ask_text(alloc, part, line, bound) {
        Ok(problem) => replies.reply(number, Asked::Query(&problem)),
        Err(TextFault::Text(fault)) => {
            replies.reply(number, Asked::Fault(on_line(number, fault)))
        }
        Err(TextFault::OutOfMemory) => Err(OutFault::OutOfMemory),
    }
}

/// The fault of a line's own text, as one of the whole text: it has the number of the line.
pub fn on_line(line: u32, fault: Fault) -> Fault
    ensures { result ≡ on_line line fault }
{
    Fault {
        at: Place {
            line,
            column: fault.at.column,
        },
        kind: fault.kind,
    }
}
