// From the words of a run to its problem.
ghost use Rattle.std.specs.Prelude.{◌≡◌, ◌≤◌, ℕ, List, [], length, Option, IfOk, IfErr};
ghost use Rattle.ll_edge.specs.Log.{ShelfKept, ToldFits, Reads, Handed, Met, NoText, Unreadable};
ghost use Rattle.ll_edge.specs.Texts.{Texts};
ghost use Rattle.ll_laws.specs.Valid.{IsValid};
ghost use Rattle.ll_top.specs.forms.Words.{shown_words};
ghost use Rattle.ll_top.specs.texts.Judging.{IsPartOf, TextsAsk, IsProgramCause, IsQueryCause};
ghost use Rattle.ll_top.specs.texts.Outcome.{IsRead, ReadsWhatAsks};
ghost use Rattle.ll_top.specs.texts.Told.{ShelfTold};
ghost use Rattle.ll_top.specs.texts.Endings.{refusal_of, IsNotRead, Judges, Prepares};

use crate::forms::RunCommand;
use crate::texts::judge::{Role, judge_program, judge_query};
use crate::texts::refusing::{Refusal, TextRefusal};
use ll_edge::{ReadFault, Shelf, read_text};
use ll_laws::Problem;
use ll_lexer::TextFault;
use ll_polarity::{Loaded, ask, load};
use std::alloc::Global;

/// The greatest number of bytes of a text.
pub const LONGEST_TEXT: usize = 16_777_216;

/// The problem of a run: reads the program and then the query from the shelf, each to its end, and then judges them in turn.
pub fn prepare<F: Shelf>(
    alloc: Global,
    run: &RunCommand<'_>,
    shelf: &mut F,
) -> Result<Problem, Refusal>
    requires bound { run.now.bound ≤ 1000000 }

    ensures kept { ShelfKept F.texts F.faults F.absences F.log shelf.old shelf.new }

    ensures shelf_told { ShelfTold F.faults F.absences shelf.old shelf.new result }

    ensures valid { IfOk result IsValid }
    ensures prepares { (told : Option Texts) → ToldFits told (F.log shelf.old) (F.log shelf.new)
        → Prepares told (Met F.absences F.log shelf.old shelf.new NoText)
        (Met F.faults F.log shelf.old shelf.new Unreadable) (shown_words run.now) result }
    ensures reads { IfOk result (ReadsWhatAsks (shown_words run.now) (F.log shelf.old) (F.log shelf.new)) }
{
    let program = read(alloc, shelf, run.program, Role::Program)?;
    let query = read(alloc, shelf, run.query, Role::Query)?;
    problem_of(alloc, &program, &query, run.bound)
}

/// A text, read whole.
pub fn read<F: Shelf>(
    alloc: Global,
    shelf: &mut F,
    name: &str,
    role: Role,
) -> Result<Vec<u8>, Refusal>
    ensures kept { ShelfKept F.texts F.faults F.absences F.log shelf.old shelf.new }

    ensures shelf_told { ShelfTold F.faults F.absences shelf.old shelf.new result }

    ensures reads { IfOk result (λ text. Reads name.now (F.log shelf.old) (F.log shelf.new) text.items (Handed [])) }
    ensures read { IfOk result (λ text. (told : Option Texts) → ToldFits told (F.log shelf.old) (F.log shelf.new)
        → IsRead told name.now text.items) }
    ensures refused { IfErr result (λ refusal. (told : Option Texts) → ToldFits told (F.log shelf.old) (F.log shelf.new)
        → IsNotRead told (Met F.absences F.log shelf.old shelf.new NoText)
        (Met F.faults F.log shelf.old shelf.new Unreadable) name.now role refusal) }
{
    match read_text(alloc, shelf, name, LONGEST_TEXT) {
        Ok(text) => Ok(text),
        Err(ReadFault::Absent) => Err(Refusal::Text(role, TextRefusal::Absent)),
        Err(ReadFault::Failed) => Err(Refusal::Text(role, TextRefusal::Unreadable)),
        Err(ReadFault::TooLong) => Err(Refusal::Text(role, TextRefusal::Oversized)),
        Err(ReadFault::OutOfMemory) => Err(Refusal::OutOfMemory),
    }
}

/// The problem of two texts: the program is judged first, and then the query.
pub fn problem_of(
    alloc: Global,
    program: &[u8],
    query: &[u8],
    bound: u32,
) -> Result<Problem, Refusal>
    requires program { length program.now ≤ 16777216 }
    requires query { length query.now ≤ 16777216 }
    requires bound { bound ≤ 1000000 }
    ensures judges { Judges program.now query.now bound result }
    ensures valid { IfOk result IsValid }
{
    let loaded = match load_text(alloc, program) {
        Ok(loaded) => loaded,
        Err(fault) => return Err(refusal(Role::Program, fault)),
    };
    match ask_text(alloc, loaded, query, bound) {
        Ok(problem) => Ok(problem),
        Err(fault) => Err(refusal(Role::Query, fault)),
    }
}

/// The part of a problem that a program's text fixes, or the text's fault.
pub fn load_text(alloc: Global, text: &[u8]) -> Result<Loaded, TextFault>
    requires { length text.now ≤ 16777216 }
    ensures part { IfOk result (λ loaded. IsPartOf text.now loaded) }
    ensures cause { IfErr result (IsProgramCause text.now) }
{
    let program = judge_program(alloc, text)?;
    load(alloc, &program)
}

// The problem that a query's text asks of a part, or the text's fault. The part is spent in every case.
fn ask_text(alloc: Global, loaded: Loaded, text: &[u8], bound: u32) -> Result<Problem, TextFault>
    requires text { length text.now ≤ 16777216 }
    requires bound { bound ≤ 1000000 }
    ensures asks { IfOk result (λ problem. (program : List ℕ) → IsPartOf program loaded
        → TextsAsk program text.now bound problem × IsValid problem) }
    ensures cause { IfErr result (IsQueryCause loaded text.now) }
{
    let query = judge_query(alloc, text)?;
    ask(alloc, loaded, &query, bound)
}

/// The refusal of a text that has a fault.
pub fn refusal(role: Role, fault: TextFault) -> Refusal
    ensures { result ≡ refusal_of role fault }
{
    match fault {
        TextFault::Text(fault) => Refusal::Text(role, TextRefusal::Faulty(fault)),
        TextFault::OutOfMemory => Refusal::OutOfMemory,
    }
}
