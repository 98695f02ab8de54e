// A run of a problem: its answers, written as they come, and the last line.
ghost use Rattle.std.specs.Prelude.{◌≡◌, ◌≤◌, ◌<◌, [], true, false, None, IfOk, IfErr, IfSome, OnOk, OnErr, Some};
ghost use Rattle.std.specs.Io.KnownBytes.{append_known};
ghost use Rattle.std.specs.Arc.{arc_value};
ghost use Rattle.ll_edge.specs.Counts.{Rose};
ghost use Rattle.ll_edge.specs.Pieces.{AppendsFront};
ghost use Rattle.ll_index.specs.Index.{HasIndex};
ghost use Rattle.ll_laws.specs.Output.{counts_text};
ghost use Rattle.ll_laws.specs.Valid.{IsValid};
ghost use Rattle.ll_top.specs.lines.Running.{IsReady, all_lines};
ghost use Rattle.ll_top.specs.declared.texts.refusing.Refusal.TheVariants.{Unwritable, OutOfMemory};
ghost use Rattle.ll_top.specs.texts.Told.{SinkTold};
ghost use Rattle.ll_top.specs.declared.run.Ended.TheVariants.{Whole, Stopped};
ghost use Rattle.ll_top.specs.Running.{status_of_counts, IsRunRefusal, IsEndOf, ended_text, ended_status};
ghost use Rattle.ll_top.specs.Endings.{status_of_found};
ghost use Rattle.ll_top.specs.Outcome.{text_of_run, status_of_run, stopped_text};
ghost use Rattle.ll_top.specs.Proved.{events_told};

use crate::lines::{Asked, Line, Lined, Writing};
use crate::texts::{Refusal, write_parts};
use itoa::Buffer;
use ll_crew::{Sharing, Team, crew_first_with, crew_with};
use ll_edge::{Gate, Sink, WriteFailed, write_all};
use ll_first::First;
use ll_index::Index;
use ll_laws::{Counts, Event, Problem, answers_are_shown};
use ll_printer::summary;
use std::marker::{Brand, PhantomData};
use std::sync::{Arc, Wait};
use std::thread::Threads;

/// What is wanted of a problem: its answers, as they come.
#[derive(Drop)]
pub struct Wanted<'a> {
    pub problem: &'a Problem,
    /// An index of the problem's clauses.
    pub index: &'a Arc<Index>,
    /// Whether each answer is written with its derivation.
    pub proofs: bool,
    /// How many answers are wanted, at least 1; `None` stands for all.
    pub limit: Option<u32>,
}

/// What a run found.
#[derive(Clone, Copy)]
pub enum Found {
    /// Some answer.
    Answer,
    /// No answer, and no branch reached the bound.
    Nothing,
    /// No answer, but some branch reached the bound.
    Bound,
}

/// How the search of a run ended.
#[derive(Drop)]
pub enum Ended {
    /// It came to its end, with these counts: there are fewer answers than are wanted.
    Whole(Counts),
    /// It stopped behind so many answers, which are all that are wanted.
    Stopped(u32),
}

/// Runs the problem, to its end or until it has as many answers as are wanted. Writes these, with proofs or without, and behind them the
/// last line, and answers what was found. After a refusal a prefix of the text was written.
pub fn run<R: Threads + Wait + Sync, O: Sink, G: Gate>(
    team: &Team<'_, R, G>,
    wanted: &Wanted<'_>,
    sink: &mut O,
) -> Result<Found, Refusal>
    requires valid { IsValid wanted.now.problem.now }
    requires index { HasIndex wanted.now.problem.now.clauses (arc_value wanted.now.index.now) }
    requires limit { IfSome wanted.now.limit (λ k. 0 < k) }

    ensures faults_kept { O.faults sink.old ≤ O.faults sink.new }
    ensures sink_told { SinkTold (O.faults sink.old) (O.faults sink.new) result }
    ensures found { IfOk result (λ found. status_of_found found
        ≡ status_of_run wanted.now.limit wanted.now.problem.now) }
    ensures text { OnOk result (Some (O.taken sink.new)
        ≡ append_known (Some (O.taken sink.old))
        (text_of_run wanted.now.limit wanted.now.proofs wanted.now.problem.now)) }
    ensures refused { IfErr result (IsRunRefusal (O.faults sink.old) (O.faults sink.new)) }
    ensures prefix { OnErr result
        (AppendsFront (Some (O.taken sink.old))
        (text_of_run wanted.now.limit wanted.now.proofs wanted.now.problem.now) (Some (O.taken sink.new))) }
{
    let mut lines = Vec::new(team.alloc);
    let mut waiting = Vec::new(team.alloc);
    let ended = write_events::<Brand, R, O, G>(team, wanted, &mut lines, &mut waiting, sink)?;
    write_end(&ended, &mut lines, sink)
}

// Writes the last line of a run whose search ended so, and answers what was found. After a refusal a prefix of the line was written. It
// leaves anything in the room for lines.
fn write_end<O: Sink>(ended: &Ended, lines: &mut Vec<u8>, sink: &mut O) -> Result<Found, Refusal>
    ensures faults_kept { O.faults sink.old ≤ O.faults sink.new }
    ensures sink_told { SinkTold (O.faults sink.old) (O.faults sink.new) result }
    ensures found { IfOk result (λ found. status_of_found found ≡ ended_status ended.now) }
    ensures text { OnOk result (Some (O.taken sink.new)
        ≡ append_known (Some (O.taken sink.old)) (ended_text ended.now)) }
    ensures refused { IfErr result (IsRunRefusal (O.faults sink.old) (O.faults sink.new)) }
    ensures prefix { OnErr result (AppendsFront (Some (O.taken sink.old)) (ended_text ended.now)
        (Some (O.taken sink.new))) }
{
    match ended {
        Ended::Whole(counts) => write_summary(counts, lines, sink),
        Ended::Stopped(answers) => {
            write_stop(*answers, sink)?;
            Ok(Found::Answer)
        }
    }
}

/// Writes the last line of a whole search with these counts, and answers what was found. After a refusal a prefix of the line was written.
/// It leaves anything in the room for lines.
pub fn write_summary<O: Sink>(
    counts: &Counts,
    lines: &mut Vec<u8>,
    sink: &mut O,
) -> Result<Found, Refusal>
    ensures faults_kept { O.faults sink.old ≤ O.faults sink.new }
    ensures sink_told { SinkTold (O.faults sink.old) (O.faults sink.new) result }
    ensures found { IfOk result (λ found. status_of_found found
        ≡ status_of_counts counts.now.answers counts.now.reached) }
    ensures text { OnOk result (Some (O.taken sink.new) ≡ append_known (Some (O.taken sink.old))
        (counts_text counts.now.answers counts.now.reached counts.now.inferences)) }
    ensures refused { IfErr result (IsRunRefusal (O.faults sink.old) (O.faults sink.new)) }
    ensures prefix { OnErr result
        (AppendsFront (Some (O.taken sink.old))
        (counts_text counts.now.answers counts.now.reached counts.now.inferences) (Some (O.taken sink.new))) }
{
    lines.clear();
    summary(counts, lines)?;
    write_all(sink, lines)?;
    Ok(what_was_found(counts))
}

// Writes the line of a run that stops after so many answers. After a refusal a prefix of it was written.
fn write_stop<O: Sink>(answers: u32, sink: &mut O) -> Result<(), WriteFailed>
    ensures faults_kept { O.faults sink.old ≤ O.faults sink.new }
    ensures quiet { OnOk result (O.faults sink.new ≡ O.faults sink.old) }
    ensures line { OnOk result (Some (O.taken sink.new)
        ≡ append_known (Some (O.taken sink.old)) (stopped_text answers)) }
    ensures failed { OnErr result (Rose (O.faults sink.old) (O.faults sink.new)) }
    ensures prefix { OnErr result (AppendsFront (Some (O.taken sink.old)) (stopped_text answers)
        (Some (O.taken sink.new))) }
{
    let mut digits = Buffer::new();
    let digits = digits.format(answers);
    write_parts(sink, &["stopped after ", digits, "\n"])
}

// What was found, by the numbers of answers and of branches that reached the bound.
fn what_was_found(counts: &Counts) -> Found
    ensures { status_of_found result ≡ status_of_counts counts.now.answers counts.now.reached }
{
    if counts.answers > 0 {
        Found::Answer
    } else if counts.reached > 0 {
        Found::Bound
    } else {
        Found::Nothing
    }
}

// Writes the lines of the events that a run tells, each as it comes, and tells how the search ended. After a refusal a prefix of the run's
// text was written. It leaves anything in the room for lines, and no lines that wait.
fn write_events<K: Asked, R: Threads + Wait + Sync, O: Sink, G: Gate>(
    team: &Team<'_, R, G>,
    wanted: &Wanted<'_>,
    lines: &mut Vec<u8>,
    waiting: &mut Vec<u8>,
    sink: &mut O,
) -> Result<Ended, Refusal>
    requires asked { wanted.now.problem.now ≡ K.problem }
    requires none { waiting.old.items ≡ [] }
    requires valid { IsValid wanted.now.problem.now }
    requires index { HasIndex wanted.now.problem.now.clauses (arc_value wanted.now.index.now) }
    requires limit { IfSome wanted.now.limit (λ k. 0 < k) }

    ensures faults_kept { O.faults sink.old ≤ O.faults sink.new }
    ensures sink_told { SinkTold (O.faults sink.old) (O.faults sink.new) result }
    ensures ended { IfOk result (λ ended. IsEndOf wanted.now.limit wanted.now.problem.now ended) }
    ensures lines { OnOk result (Some (O.taken sink.new) ≡ append_known (Some (O.taken sink.old))
        (all_lines wanted.now.proofs wanted.now.problem.now 0 (events_told wanted.now.limit wanted.now.problem.now))) }
    ensures refused { IfErr result (IsRunRefusal (O.faults sink.old) (O.faults sink.new)) }
    ensures prefix { OnErr result
        (AppendsFront (Some (O.taken sink.old))
        (text_of_run wanted.now.limit wanted.now.proofs wanted.now.problem.now) (Some (O.taken sink.new))) }
{
    if wanted.proofs {
        return write_events_as::<Event, R, O, G>(team, wanted, lines, waiting, sink);
    }
    write_events_as::<Line<K>, R, O, G>(team, wanted, lines, waiting, sink)
}

// Does what `write_events` does, where workers make this of the events.
fn write_events_as<E: Lined, R: Threads + Wait + Sync, O: Sink, G: Gate>(
    team: &Team<'_, R, G>,
    wanted: &Wanted<'_>,
    lines: &mut Vec<u8>,
    waiting: &mut Vec<u8>,
    sink: &mut O,
) -> Result<Ended, Refusal>
    requires suits { E.suits wanted.now.problem.now }
    requires ready { IsReady E.makes wanted.now.proofs wanted.now.problem.now waiting.old.items }
    requires valid { IsValid wanted.now.problem.now }
    requires index { HasIndex wanted.now.problem.now.clauses (arc_value wanted.now.index.now) }
    requires limit { IfSome wanted.now.limit (λ k. 0 < k) }

    ensures faults_kept { O.faults sink.old ≤ O.faults sink.new }
    ensures sink_told { SinkTold (O.faults sink.old) (O.faults sink.new) result }
    ensures ended { IfOk result (λ ended. IsEndOf wanted.now.limit wanted.now.problem.now ended) }
    ensures lines { OnOk result (Some (O.taken sink.new) ≡ append_known (Some (O.taken sink.old))
        (all_lines wanted.now.proofs wanted.now.problem.now 0 (events_told wanted.now.limit wanted.now.problem.now))) }
    ensures refused { IfErr result (IsRunRefusal (O.faults sink.old) (O.faults sink.new)) }
    ensures prefix { OnErr result
        (AppendsFront (Some (O.taken sink.old))
        (text_of_run wanted.now.limit wanted.now.proofs wanted.now.problem.now) (Some (O.taken sink.new))) }
{
    let writing = Writing::<O, E> {
        alloc: team.alloc,
        problem: wanted.problem,
        proofs: wanted.proofs,
        sink,
        lines,
        waiting,
        answers: 0,
        failed: false,
        of: PhantomData,
    };
    let mut out = First::new(writing, count_of(wanted.limit));
    give(team, wanted, &mut out)
}

// So many answers. No limit stands for as many as are counted.
fn count_of(limit: Option<u32>) -> u64
    requires limit { IfSome limit (λ k. 0 < k) }
    ensures some { 0 < result }
    ensures limit { IfSome limit (λ k. result ≡ k) }
{
    match limit {
        Some(limit) => u64::from(limit),
        None => u64::MAX,
    }
}

// Gives the events that a run tells to an outlet that took none yet. Where all are wanted, the one within takes them. No lines wait in it,
// before and after.
fn give<'p, 's, E: Lined, R: Threads + Wait + Sync, O: Sink, G: Gate>(
    team: &Team<'_, R, G>,
    wanted: &Wanted<'p>,
    out: &mut First<Writing<'p, 's, O, E>>,
) -> Result<Ended, Refusal>
    requires valid { IsValid wanted.now.problem.now }
    requires index { HasIndex wanted.now.problem.now.clauses (arc_value wanted.now.index.now) }
    requires suits { E.suits wanted.now.problem.now }
    requires problem { out.old.out.problem.now ≡ wanted.now.problem.now }
    requires limit { IfSome wanted.now.limit (λ k. out.old.limit ≡ k) }
    requires answers { (out.old.answers ≡ 0) × (out.old.out.answers ≡ 0) }
    requires unfailed { out.old.out.failed ≡ false }
    requires ready { IsReady E.makes out.old.out.proofs out.old.out.problem.now out.old.out.waiting.now.items }

    ensures same_reference { out.new.out.sink.ghost_name ≡ out.old.out.sink.ghost_name }
    ensures none { out.new.out.waiting.now.items ≡ [] }
    ensures faults_kept { O.faults out.old.out.sink.now ≤ O.faults out.new.out.sink.now }
    ensures sink_told { SinkTold (O.faults out.old.out.sink.now) (O.faults out.new.out.sink.now) result }
    ensures ended { IfOk result (λ ended. IsEndOf wanted.now.limit wanted.now.problem.now ended) }
    ensures lines { OnOk result (Some (O.taken out.new.out.sink.now)
        ≡ append_known (Some (O.taken out.old.out.sink.now))
        (all_lines out.old.out.proofs wanted.now.problem.now 0 (events_told wanted.now.limit wanted.now.problem.now))) }
    ensures refused { IfErr result (IsRunRefusal (O.faults out.old.out.sink.now) (O.faults out.new.out.sink.now)) }
    ensures prefix { OnErr result
        (AppendsFront (Some (O.taken out.old.out.sink.now))
        (text_of_run wanted.now.limit out.old.out.proofs wanted.now.problem.now)
        (Some (O.taken out.new.out.sink.now))) }
{
    answers_are_shown();
    match wanted.limit {
        None => match crew_with(
            team,
            wanted.problem,
            wanted.index,
            Sharing::WhereIdle,
            &mut out.out,
        ) {
            Ok(counts) => Ok(Ended::Whole(counts)),
            Err(_) => Err(refusal_of(out.out.failed)),
        },
        Some(limit) => match crew_first_with(team, wanted.problem, wanted.index, out) {
            Ok(counts) => Ok(end_of(limit, counts)),
            Err(_) => Err(refusal_of(out.out.failed)),
        },
    }
}

// How a search ended of which so many answers are wanted: it has counts where it has fewer.
fn end_of(limit: u32, counts: Option<Counts>) -> Ended
    ensures whole { IfSome counts (λ counts. result ≡ Whole counts) }
    ensures stopped { counts ≡ None → result ≡ Stopped limit }
{
    match counts {
        Some(counts) => Ended::Whole(counts),
        None => Ended::Stopped(limit),
    }
}

// Why a search was given up: the outlet knows whether its sink failed.
fn refusal_of(failed: bool) -> Refusal
    ensures unwritable { failed ≡ true → result ≡ Unwritable }
    ensures memory { failed ≡ false → result ≡ OutOfMemory }
{
    if failed {
        Refusal::Unwritable
    } else {
        Refusal::OutOfMemory
    }
}
