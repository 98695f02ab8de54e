//! The top call: everything that the program does.
#![tactic(auto)]

mod accepting;
mod agreeing;
mod checks;
mod deepening;
mod faultless;
mod forms;
mod indexes;
mod lines;
mod made_runs;
mod making;
mod refused;
mod rewriting;
mod run;
mod session;
mod spelled;
mod team;
mod textbook;
mod texts;

ghost use Rattle.std.specs.Prelude.{◌≡◌, ◌≤◌, ◌<◌, ◌↔◌, ◌⊎◌, ℕ, List, Option, None, Some, IfSome, IfOk};
ghost use Rattle.ll_edge.specs.Counts.{Rose};
ghost use Rattle.ll_edge.specs.Log.{ShelfKept, Agrees, ToldFits, Met, NoText, Unreadable};
ghost use Rattle.ll_edge.specs.Texts.{Texts};
ghost use Rattle.ll_top.specs.forms.Words.{FitsForm, cover_form, IsInForm, IsInWorkersForm, RunWords, IsRun, SessionWords, IsSession, DeepenWords, IsDeepen};
ghost use Rattle.ll_top.specs.forms.Words.{CheckWords, IsCheck, shown_words, word_texts};
ghost use Rattle.ll_top.specs.texts.Outcome.{AnyName, NoName};
ghost use Rattle.ll_top.specs.checks.Outcome.{IsProved, IsDenied, IsCoveredCall, IsUncoveredCall};
ghost use Rattle.ll_top.specs.Outcome.{RunComesTo};
ghost use Rattle.ll_top.specs.Calls.{ComesTo, Completes, Headline};
ghost use Rattle.ll_top.specs.texts.CallEnds.{Ends};
ghost use Rattle.ll_top.specs.texts.Told.{ShelfTold, SinkTold, StatusTold};
ghost use Rattle.ll_top.specs.Endings.{status_of_found, RunEnds};
ghost use Rattle.ll_top.specs.Proved.{WritesShown};
ghost use Rattle.ll_top.specs.Nothing.{AsksInVain};
ghost use Rattle.ll_top.specs.Reads.{RunReads};
ghost use Rattle.ll_top.specs.Shown.{SessionShown, DeepenShown};

use crate::checks::serve_check;
use crate::forms::{Command, RunCommand, read_command};
use crate::texts::{Cause, Refusal, prepare, refuse, serve_convert, serve_print};
pub use accepting::{printed_is_accepted, printed_is_covered};
pub use agreeing::{
    deepening_is_run, derivation_is_printed, first_is_front, greater_bound_keeps, session_is_runs,
    workers_change_nothing,
};
use deepening::serve_deepen;
pub use faultless::made_texts;
use ll_crew::Team;
use ll_edge::{FileShelf, Gate, OpenGate, Shelf, Sink, StdSink};
use ll_index::Index;
use ll_laws::answers_are_shown;
use ll_lexer::one_reading;
use ll_parser::{one_program, one_query};
use ll_prooftext::one_derivation_in_any;
use ll_session::one_session;
pub use made_runs::made_asks;
use made_runs::serve_made_run;
use making::serve_make;
use refused::{Names, end_refused};
pub use rewriting::{
    converted_comes_back, converted_is_judged_alike, layout_is_aside, printed_is_aside,
    written_is_read_back,
};
use run::{Found, Wanted, run};
use session::serve_session;
pub use spelled::answers_are_spelled;
use std::alloc::Global;
use std::rt::Files;
use std::sync::Wait;
use std::thread::Threads;
use team::Means;
pub use textbook::{answers_are_kept, answers_are_what_follows};

/// Does what the words say, over the texts of the shelf, and writes to the sink. The answer is the program's exit status:
///
/// - 0: there is an answer, each query of a session has its reply, the program was printed or made, the derivation was converted, or it shows
///   the query, or is covered by an answer; 1: there is no answer; 2: there is none, but some branch reached the bound; 9: the derivation does
///   not show the query; 11: it shows it, but is too long or counts numbers, so no answer that covers it is looked for. The whole text was
///   written.
/// - 3: the words are in no form; 4: there is no text of a name; 5: the shelf failed; 7: a text has a fault; 8: a text has more
///   than 16,777,216 bytes, or a converted one would have. The line of this cause was written.
/// - 6: the sink failed; 10: memory ran out. A prefix of the text was written.
pub fn lolli<R: Threads + Wait + Sync, F: Shelf, O: Sink, G: Gate>(
    rt: &R,
    alloc: Global,
    words: &[&str],
    shelf: &mut F,
    sink: &mut O,
    gate: &G,
) -> u8
    // What was taken, and why, over every shelf and sink, the real ones too: with any texts that the answers of this call fit.
    ensures outcome { (told : Option Texts) → ToldFits told (F.log shelf.old) (F.log shelf.new)
        → Ends (ComesTo (word_texts words.now) told (Met F.absences F.log shelf.old shelf.new NoText)
        (Met F.faults F.log shelf.old shelf.new Unreadable)) (Rose (O.faults sink.old) (O.faults sink.new))
        (Some (O.taken sink.old)) (Some (O.taken sink.new)) result }

    // Where nothing failed, the one status and the whole text, or that memory ran out.
    ensures complete { (told : Option Texts) → ToldFits told (F.log shelf.old) (F.log shelf.new)
        → Completes (word_texts words.now) told (Rose (F.faults shelf.old) (F.faults shelf.new))
        (Rose (O.faults sink.old) (O.faults sink.new)) (Some (O.taken sink.old)) (Some (O.taken sink.new)) result }

    // The headline: a run whose texts ask a problem writes the answers of one engine in its order, and its counts, whatever the number of workers.
    ensures headline { (told : Option Texts) → ToldFits told (F.log shelf.old) (F.log shelf.new)
        → Headline (word_texts words.now) told (Some (O.taken sink.old)) (Some (O.taken sink.new)) result }

    // Exactly, for a run that ends: the shelf handed out the program's text and then the query's, each whole, and nothing else, and the sink took
    // their output.
    ensures run_reads { (run : RunWords) → IsRun (word_texts words.now) run → result ≤ 2
        → RunReads run (F.log shelf.old) (F.log shelf.new) (O.taken sink.old) (O.taken sink.new) result }

    // Each answer of a run is right: its query follows from the program in the sequent calculus, and so does each instance of it. With `--proofs` the
    // text of a derivation stands behind it. What follows within the bound is an instance of an answer, whole-number goals aside.
    ensures proved { (run : RunWords) → IsRun (word_texts words.now) run → result ≤ 2 → (told : Option Texts)
        → ToldFits told (F.log shelf.old) (F.log shelf.new)
        → WritesShown told run (Some (O.taken sink.old)) (Some (O.taken sink.new)) }

    // Where a run ends with status 1, its query does not follow, whatever its terms and the number of nodes, but perhaps by whole-number goals.
    ensures nothing { (run : RunWords) → IsRun (word_texts words.now) run → result ≡ 1
        → (told : Option Texts) → ToldFits told (F.log shelf.old) (F.log shelf.new) → AsksInVain told run }

    // The reply to each query of a session is right in the same way, and so is the run with the bound that decides.
    ensures replied { (session : SessionWords) → IsSession (word_texts words.now) session → result ≡ 0
        → (told : Option Texts) → ToldFits told (F.log shelf.old) (F.log shelf.new)
        → SessionShown told session (Some (O.taken sink.old)) (Some (O.taken sink.new)) }
    ensures deepened { (deepen : DeepenWords) → IsDeepen (word_texts words.now) deepen → result ≤ 2
        → (told : Option Texts) → ToldFits told (F.log shelf.old) (F.log shelf.new)
        → DeepenShown told deepen (Some (O.taken sink.old)) (Some (O.taken sink.new)) result }

    // Where a derivation shows the query, so that a check or a cover ends with 0, the query follows with its terms, by as many nodes.
    ensures shown { (check : CheckWords) → IsCheck (word_texts words.now) check → result ≡ 0
        → (told : Option Texts) → ToldFits told (F.log shelf.old) (F.log shelf.new) → IsProved told check }
    ensures denied { result ≡ 9 → (told : Option Texts) → ToldFits told (F.log shelf.old) (F.log shelf.new)
        → IsDenied (word_texts words.now) told }
    ensures covered { FitsForm cover_form (word_texts words.now) → result ≡ 0 → (told : Option Texts)
        → ToldFits told (F.log shelf.old) (F.log shelf.new) → IsCoveredCall (word_texts words.now) told }
    ensures uncovered { result ≡ 11 → (told : Option Texts) → ToldFits told (F.log shelf.old) (F.log shelf.new)
        → IsUncoveredCall (word_texts words.now) told }

    // The causes of the other statuses.
    ensures usage { result ≡ 3 → IsInForm (word_texts words.now) → ⊥ }
    ensures misused { (IsInForm (word_texts words.now) → ⊥) → (result ≡ 3) ⊎ (result ≡ 6) }
    ensures absent { result ≡ 4 → Rose (F.absences shelf.old) (F.absences shelf.new) }
    ensures unreadable { result ≡ 5 → Rose (F.faults shelf.old) (F.faults shelf.new) }
    ensures unwritable { result ≡ 6 → Rose (O.faults sink.old) (O.faults sink.new) }

    ensures kept { ShelfKept F.texts F.faults F.absences F.log shelf.old shelf.new }
    ensures sink_faults_kept { O.faults sink.old ≤ O.faults sink.new }

    // And no other status comes where there is such a cause: a failed write ends with 6, a failed read with 5, an absent text with 4.
    ensures faults_told { StatusTold F.faults F.absences O.faults shelf.old shelf.new sink.old sink.new result }

    // Where the shelf tells its texts, they are texts that fit; and the sink may tell what was written.
    ensures told_outcome { Ends (ComesTo (word_texts words.now) (F.texts shelf.old)
        (Met F.absences F.log shelf.old shelf.new NoText) (Met F.faults F.log shelf.old shelf.new Unreadable))
        (Rose (O.faults sink.old) (O.faults sink.new)) (O.written sink.old) (O.written sink.new) result }
    ensures told_complete { Completes (word_texts words.now) (F.texts shelf.old)
        (Rose (F.faults shelf.old) (F.faults shelf.new)) (Rose (O.faults sink.old) (O.faults sink.new))
        (O.written sink.old) (O.written sink.new) result }
    ensures told_headline { Headline (word_texts words.now) (F.texts shelf.old) (O.written sink.old)
        (O.written sink.new) result }
    ensures told_proved { (run : RunWords) → IsRun (word_texts words.now) run → result ≤ 2
        → WritesShown (F.texts shelf.old) run (O.written sink.old) (O.written sink.new) }
    ensures told_nothing { (run : RunWords) → IsRun (word_texts words.now) run → result ≡ 1
        → AsksInVain (F.texts shelf.old) run }
    ensures told_denied { result ≡ 9 → IsDenied (word_texts words.now) (F.texts shelf.old) }
    ensures told_covered { FitsForm cover_form (word_texts words.now) → result ≡ 0
        → IsCoveredCall (word_texts words.now) (F.texts shelf.old) }
    ensures told_uncovered { result ≡ 11 → IsUncoveredCall (word_texts words.now) (F.texts shelf.old) }
{
    one_text();
    answers_are_what_follows();
    let means = Means { rt, alloc, gate };
    serve(&means, words, shelf, sink)
}

/// Does what `lolli` does over the files and the standard output of the system: this is what the program runs. What it says of texts holds of all
/// that the calls of the system fit.
pub fn lolli_real<R: Threads + Wait + Sync + Files + Print>(
    rt: &R,
    alloc: Global,
    words: &[&str],
    shelf: &mut FileShelf<'_, R>,
    sink: &mut StdSink<'_, R>,
) -> u8
    ensures headline { (texts : Texts) → Agrees texts shelf.old.log shelf.new.log
        → Headline (word_texts words.now) (Some texts) (Some sink.old.taken) (Some sink.new.taken) result }
    ensures run_reads { (run : RunWords) → IsRun (word_texts words.now) run → result ≤ 2
        → RunReads run shelf.old.log shelf.new.log sink.old.taken sink.new.taken result }
    ensures proved { (run : RunWords) → IsRun (word_texts words.now) run → result ≤ 2 → (texts : Texts)
        → Agrees texts shelf.old.log shelf.new.log
        → WritesShown (Some texts) run (Some sink.old.taken) (Some sink.new.taken) }
    ensures nothing { (run : RunWords) → IsRun (word_texts words.now) run → result ≡ 1
        → (texts : Texts) → Agrees texts shelf.old.log shelf.new.log → AsksInVain (Some texts) run }
    ensures faults_told { StatusTold (λ shelf. shelf.counts.faults) (λ shelf. shelf.counts.absences)
        (λ sink. sink.faults) shelf.old shelf.new sink.old sink.new result }
{
    lolli(rt, alloc, words, shelf, sink, &OpenGate)
}

/// Does what `lolli` does for all words but those of a form with `--workers`, and answers the status. For these it answers
/// `None`, and has called neither shelf nor sink. The program does not call it: it is for callers that have no threads.
pub fn lolli_plain<F: Shelf, O: Sink>(
    alloc: Global,
    words: &[&str],
    shelf: &mut F,
    sink: &mut O,
) -> Option<u8>
    ensures workers { (result ≡ None) ↔ IsInWorkersForm (word_texts words.now) }
    ensures untouched { result ≡ None → (shelf.new ≡ shelf.old) × (sink.new ≡ sink.old) }

    ensures outcome { IfSome result (λ status. (told : Option Texts) → ToldFits told (F.log shelf.old) (F.log shelf.new)
        → Ends (ComesTo (word_texts words.now) told (Met F.absences F.log shelf.old shelf.new NoText)
        (Met F.faults F.log shelf.old shelf.new Unreadable)) (Rose (O.faults sink.old) (O.faults sink.new))
        (Some (O.taken sink.old)) (Some (O.taken sink.new)) status) }
    ensures complete { IfSome result (λ status. (told : Option Texts) → ToldFits told (F.log shelf.old) (F.log shelf.new)
        → Completes (word_texts words.now) told (Rose (F.faults shelf.old) (F.faults shelf.new))
        (Rose (O.faults sink.old) (O.faults sink.new)) (Some (O.taken sink.old)) (Some (O.taken sink.new)) status) }

    ensures shown { (check : CheckWords) → IsCheck (word_texts words.now) check → result ≡ Some 0
        → (told : Option Texts) → ToldFits told (F.log shelf.old) (F.log shelf.new) → IsProved told check }
    ensures denied { result ≡ Some 9 → (told : Option Texts) → ToldFits told (F.log shelf.old) (F.log shelf.new)
        → IsDenied (word_texts words.now) told }
    ensures covered { FitsForm cover_form (word_texts words.now) → result ≡ Some 0 → (told : Option Texts)
        → ToldFits told (F.log shelf.old) (F.log shelf.new) → IsCoveredCall (word_texts words.now) told }
    ensures uncovered { result ≡ Some 11 → (told : Option Texts) → ToldFits told (F.log shelf.old) (F.log shelf.new)
        → IsUncoveredCall (word_texts words.now) told }

    ensures usage { result ≡ Some 3 → IsInForm (word_texts words.now) → ⊥ }
    ensures misused { (IsInForm (word_texts words.now) → ⊥) → (result ≡ Some 3) ⊎ (result ≡ Some 6) }
    ensures absent { result ≡ Some 4 → Rose (F.absences shelf.old) (F.absences shelf.new) }
    ensures unreadable { result ≡ Some 5 → Rose (F.faults shelf.old) (F.faults shelf.new) }
    ensures unwritable { result ≡ Some 6 → Rose (O.faults sink.old) (O.faults sink.new) }

    ensures kept { ShelfKept F.texts F.faults F.absences F.log shelf.old shelf.new }
    ensures sink_faults_kept { O.faults sink.old ≤ O.faults sink.new }
    ensures faults_told { IfSome result
        (StatusTold F.faults F.absences O.faults shelf.old shelf.new sink.old sink.new) }

    ensures told_outcome { IfSome result
        (Ends (ComesTo (word_texts words.now) (F.texts shelf.old) (Met F.absences F.log shelf.old shelf.new NoText)
        (Met F.faults F.log shelf.old shelf.new Unreadable)) (Rose (O.faults sink.old) (O.faults sink.new))
        (O.written sink.old) (O.written sink.new)) }
    ensures told_complete { IfSome result
        (Completes (word_texts words.now) (F.texts shelf.old) (Rose (F.faults shelf.old) (F.faults shelf.new))
        (Rose (O.faults sink.old) (O.faults sink.new)) (O.written sink.old) (O.written sink.new)) }
    ensures told_denied { result ≡ Some 9 → IsDenied (word_texts words.now) (F.texts shelf.old) }
    ensures told_covered { FitsForm cover_form (word_texts words.now) → result ≡ Some 0
        → IsCoveredCall (word_texts words.now) (F.texts shelf.old) }
    ensures told_uncovered { result ≡ Some 11 → IsUncoveredCall (word_texts words.now) (F.texts shelf.old) }
{
    one_text();
    answers_are_what_follows();
    serve_plain(alloc, words, shelf, sink)
}

/// Words and texts determine the status and what is written, where no read fails.
pub fn one_text()
    ensures { (words : List (List ℕ)) (texts : Texts) (status other : ℕ) (text more : List ℕ)
        → ComesTo words (Some texts) AnyName NoName status text → ComesTo words (Some texts) AnyName NoName other more
        → (status ≡ other) × (text ≡ more) }
{
    one_reading();
    one_program();
    one_query();
    one_derivation_in_any();
    one_session();
}

// Serves words of any form, or of none.
fn serve<R: Threads + Wait + Sync, F: Shelf, O: Sink, G: Gate>(
    means: &Means<'_, R, G>,
    words: &[&str],
    shelf: &mut F,
    sink: &mut O,
) -> u8
    ensures kept { ShelfKept F.texts F.faults F.absences F.log shelf.old shelf.new }
    ensures sink_faults_kept { O.faults sink.old ≤ O.faults sink.new }
    ensures faults_told { StatusTold F.faults F.absences O.faults shelf.old shelf.new sink.old sink.new result }

    ensures outcome { (told : Option Texts) → ToldFits told (F.log shelf.old) (F.log shelf.new)
        → Ends (ComesTo (word_texts words.now) told (Met F.absences F.log shelf.old shelf.new NoText)
        (Met F.faults F.log shelf.old shelf.new Unreadable)) (Rose (O.faults sink.old) (O.faults sink.new))
        (Some (O.taken sink.old)) (Some (O.taken sink.new)) result }
    ensures run_reads { (run : RunWords) → IsRun (word_texts words.now) run → result ≤ 2
        → RunReads run (F.log shelf.old) (F.log shelf.new) (O.taken sink.old) (O.taken sink.new) result }
    ensures proved { (run : RunWords) → IsRun (word_texts words.now) run → result ≤ 2 → (told : Option Texts)
        → ToldFits told (F.log shelf.old) (F.log shelf.new)
        → WritesShown told run (Some (O.taken sink.old)) (Some (O.taken sink.new)) }
    ensures nothing { (run : RunWords) → IsRun (word_texts words.now) run → result ≡ 1
        → (told : Option Texts) → ToldFits told (F.log shelf.old) (F.log shelf.new) → AsksInVain told run }
    ensures replied { (session : SessionWords) → IsSession (word_texts words.now) session → result ≡ 0
        → (told : Option Texts) → ToldFits told (F.log shelf.old) (F.log shelf.new)
        → SessionShown told session (Some (O.taken sink.old)) (Some (O.taken sink.new)) }
    ensures deepened { (deepen : DeepenWords) → IsDeepen (word_texts words.now) deepen → result ≤ 2
        → (told : Option Texts) → ToldFits told (F.log shelf.old) (F.log shelf.new)
        → DeepenShown told deepen (Some (O.taken sink.old)) (Some (O.taken sink.new)) result }
    ensures misused { (IsInForm (word_texts words.now) → ⊥) → (result ≡ 3) ⊎ (result ≡ 6) }
{
    match read_command(words) {
        Ok(command) => match command {
            Command::Run(run) => serve_run(&means.team(run.workers), &run, shelf, sink),
            Command::Session(session) => {
                serve_session(&means.team(session.workers), &session, shelf, sink)
            }
            Command::Deepen(deepen) => {
                serve_deepen(&means.team(deepen.workers), &deepen, shelf, sink)
            }
            Command::MadeRun(made) => serve_made_run(&means.team(made.workers), made, sink),
            Command::Print(name) => serve_print(means.alloc, name, shelf, sink),
            Command::Check(check) => serve_check(means.alloc, &check, shelf, sink),
            Command::Convert(convert) => serve_convert(means.alloc, &convert, shelf, sink),
            Command::Make(make) => serve_make(means.alloc, make, sink),
        },
        Err(number) => refuse(Cause::Usage(number), sink),
    }
}

// Serves words of any form but those with `--workers`, or of none.
fn serve_plain<F: Shelf, O: Sink>(
    alloc: Global,
    words: &[&str],
    shelf: &mut F,
    sink: &mut O,
) -> Option<u8>
    ensures workers { (result ≡ None) ↔ IsInWorkersForm (word_texts words.now) }
    ensures untouched { result ≡ None → (shelf.new ≡ shelf.old) × (sink.new ≡ sink.old) }

    ensures kept { ShelfKept F.texts F.faults F.absences F.log shelf.old shelf.new }
    ensures sink_faults_kept { O.faults sink.old ≤ O.faults sink.new }
    ensures faults_told { IfSome result
        (StatusTold F.faults F.absences O.faults shelf.old shelf.new sink.old sink.new) }

    ensures outcome { IfSome result (λ status. (told : Option Texts) → ToldFits told (F.log shelf.old) (F.log shelf.new)
        → Ends (ComesTo (word_texts words.now) told (Met F.absences F.log shelf.old shelf.new NoText)
        (Met F.faults F.log shelf.old shelf.new Unreadable)) (Rose (O.faults sink.old) (O.faults sink.new))
        (Some (O.taken sink.old)) (Some (O.taken sink.new)) status) }
    ensures misused { (IsInForm (word_texts words.now) → ⊥) → (result ≡ Some 3) ⊎ (result ≡ Some 6) }
{
    match read_command(words) {
        Ok(command) => match command {
            Command::Print(name) => Some(serve_print(alloc, name, shelf, sink)),
            Command::Check(check) => Some(serve_check(alloc, &check, shelf, sink)),
            Command::Convert(convert) => Some(serve_convert(alloc, &convert, shelf, sink)),
            Command::Make(make) => Some(serve_make(alloc, make, sink)),
            // The others have workers.
            _ => None,
        },
        Err(number) => Some(refuse(Cause::Usage(number), sink)),
    }
}

// Runs a command, and says why not where it is not run.
fn serve_run<R: Threads + Wait + Sync, F: Shelf, O: Sink, G: Gate>(
    team: &Team<'_, R, G>,
    run: &RunCommand<'_>,
    shelf: &mut F,
    sink: &mut O,
) -> u8
    requires bound { run.now.bound ≤ 1000000 }
    requires first { IfSome run.now.first (λ wanted. 0 < wanted) }

    ensures kept { ShelfKept F.texts F.faults F.absences F.log shelf.old shelf.new }
    ensures sink_faults_kept { O.faults sink.old ≤ O.faults sink.new }
    ensures faults_told { StatusTold F.faults F.absences O.faults shelf.old shelf.new sink.old sink.new result }

    ensures ends { (told : Option Texts) → ToldFits told (F.log shelf.old) (F.log shelf.new)
        → Ends (RunComesTo told (Met F.absences F.log shelf.old shelf.new NoText)
        (Met F.faults F.log shelf.old shelf.new Unreadable) (shown_words run.now))
        (Rose (O.faults sink.old) (O.faults sink.new)) (Some (O.taken sink.old)) (Some (O.taken sink.new)) result }
    ensures run_reads { result ≤ 2
        → RunReads (shown_words run.now) (F.log shelf.old) (F.log shelf.new) (O.taken sink.old)
        (O.taken sink.new) result }
    ensures proved { result ≤ 2 → (told : Option Texts) → ToldFits told (F.log shelf.old) (F.log shelf.new)
        → WritesShown told (shown_words run.now) (Some (O.taken sink.old)) (Some (O.taken sink.new)) }
    ensures nothing { result ≡ 1 → (told : Option Texts) → ToldFits told (F.log shelf.old) (F.log shelf.new)
        → AsksInVain told (shown_words run.now) }
{
    answers_are_shown();
    answers_are_what_follows();
    match run_texts(team, run, shelf, sink) {
        Ok(found) => found_status(found),
        Err(refusal) => {
            let names = Names {
                program: run.program,
                query: run.query,
            };
            end_refused(refusal, &names, sink)
        }
    }
}

// Runs a command.
fn run_texts<R: Threads + Wait + Sync, F: Shelf, O: Sink, G: Gate>(
    team: &Team<'_, R, G>,
    command: &RunCommand<'_>,
    shelf: &mut F,
    sink: &mut O,
) -> Result<Found, Refusal>
    requires bound { command.now.bound ≤ 1000000 }
    requires first { IfSome command.now.first (λ wanted. 0 < wanted) }

    ensures kept { ShelfKept F.texts F.faults F.absences F.log shelf.old shelf.new }
    ensures sink_faults_kept { O.faults sink.old ≤ O.faults sink.new }
    ensures shelf_told { ShelfTold F.faults F.absences shelf.old shelf.new result }
    ensures sink_told { SinkTold (O.faults sink.old) (O.faults sink.new) result }

    ensures ends { (told : Option Texts) → ToldFits told (F.log shelf.old) (F.log shelf.new)
        → RunEnds told (Met F.absences F.log shelf.old shelf.new NoText)
        (Met F.faults F.log shelf.old shelf.new Unreadable) (Rose (O.faults sink.old) (O.faults sink.new))
        (shown_words command.now) (Some (O.taken sink.old)) (Some (O.taken sink.new)) result }
    ensures run_reads { IfOk result (λ found. RunReads (shown_words command.now) (F.log shelf.old) (F.log shelf.new)
        (O.taken sink.old) (O.taken sink.new) (status_of_found found)) }
{
    let problem = prepare(team.alloc, command, shelf)?;
    let index = Index::shared(team.alloc, &problem)?;
    let wanted = Wanted {
        problem: &problem,
        index: &index,
        proofs: command.proofs,
        limit: command.first,
    };
    run(team, &wanted, sink)
}

// The status of what was found.
fn found_status(found: Found) -> u8
    ensures { result ≡ status_of_found found }
{
    match found {
        Found::Answer => 0,
        Found::Nothing => 1,
        Found::Bound => 2,
    }
}
