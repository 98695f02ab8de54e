//! A session: a reply to each line of a text that is a query, over one program.
ghost use Rattle.std.specs.Prelude.{◌≡◌, ◌≤◌, length, Option, Some, Ok, Err, IfErr, OnOk, OnErr};
ghost use Rattle.std.specs.Io.KnownBytes.{append_known};
ghost use Rattle.std.specs.Arc.{arc_value};
ghost use Rattle.ll_edge.specs.Counts.{Rose};
ghost use Rattle.ll_edge.specs.Log.{ShelfKept, ToldFits, Met, NoText, Unreadable};
ghost use Rattle.ll_edge.specs.Pieces.{AppendsFront};
ghost use Rattle.ll_index.specs.Index.{HasIndex};
ghost use Rattle.ll_edge.specs.Texts.{Texts};
ghost use Rattle.ll_laws.specs.Valid.{IsValid};
ghost use Rattle.ll_parser.specs.Raw.{ProgramTree};
ghost use Rattle.ll_session.specs.Queries.{IsProgramOf, IsLoaded};
ghost use Rattle.ll_session.specs.Replied.{Replies, RefusesLine};
ghost use Rattle.ll_top.specs.texts.CallEnds.{Ends};
ghost use Rattle.ll_top.specs.texts.Told.{ShelfTold, SinkTold, StatusTold};
ghost use Rattle.ll_top.specs.OwnEnds.{EndsOwn, NoneFails};
ghost use Rattle.ll_top.specs.Running.{IsRunRefusal};
ghost use Rattle.ll_top.specs.Sessions.{reply_text, SessionComesTo};
ghost use Rattle.ll_top.specs.SessionEnds.{RefusesText, WritesReply, CutsReply, RepliesTo, TextsComeTo, RefusesProgram};
ghost use Rattle.ll_top.specs.texts.Judging.{IsFaultless};
ghost use Rattle.ll_top.specs.Shown.{WritesReplies, SessionShown};
ghost use Rattle.ll_top.specs.forms.Words.{shown_session};

use crate::answers_are_what_follows;
use crate::forms::SessionCommand;
use crate::indexes::program_index;
use crate::refused::{Names, end_refused};
use crate::run::{Wanted, run};
use crate::texts::{Cause, Refusal, Role, load_text, read, refusal, write_heading, write_line};
use ll_crew::Team;
use ll_edge::{Gate, Shelf, Sink};
use ll_index::Index;
use ll_laws::{Problem, answers_are_shown};
use ll_lexer::{Fault, TextFault};
use ll_polarity::Loaded;
use ll_session::{ask_text, is_query_line, on_line, one_session, split_line};
use std::sync::{Arc, Wait};
use std::thread::Threads;

/// What the queries of a session are asked over: a program that was loaded, with an index of its clauses.
#[derive(Drop)]
struct Base<'a> {
    session: &'a SessionCommand<'a>,
    loaded: &'a Loaded,
    index: &'a Arc<Index>,
}

/// Replies to each query of a session, and answers the status: 0 where all replies were written, whatever they say, or that of the line
/// that says why the session was not begun: a text was not read, or the program has a fault. Where the sink failed it is 6, and 10 where
/// memory ran out; then a prefix was written.
pub fn serve_session<R: Threads + Wait + Sync, F: Shelf, O: Sink, G: Gate>(
    team: &Team<'_, R, G>,
    session: &SessionCommand<'_>,
    shelf: &mut F,
    sink: &mut O,
) -> u8
    requires bound { session.now.bound ≤ 1000000 }

    ensures kept { ShelfKept F.texts F.faults F.absences F.log shelf.old shelf.new }
    ensures sink_faults_kept { O.faults sink.old ≤ O.faults sink.new }
    ensures faults_told { StatusTold F.faults F.absences O.faults shelf.old shelf.new sink.old sink.new result }

    ensures ends { (told : Option Texts) → ToldFits told (F.log shelf.old) (F.log shelf.new)
        → Ends (SessionComesTo told (Met F.absences F.log shelf.old shelf.new NoText)
        (Met F.faults F.log shelf.old shelf.new Unreadable) (shown_session session.now))
        (Rose (O.faults sink.old) (O.faults sink.new)) (Some (O.taken sink.old)) (Some (O.taken sink.new)) result }
    ensures replied { result ≡ 0 → (told : Option Texts) → ToldFits told (F.log shelf.old) (F.log shelf.new)
        → SessionShown told (shown_session session.now) (Some (O.taken sink.old)) (Some (O.taken sink.new)) }
{
    match reply_to_texts(team, session, shelf, sink) {
        Ok(()) => 0,
        Err(refusal) => {
            let names = Names {
                program: session.program,
                query: session.queries,
            };
            end_refused(refusal, &names, sink)
        }
    }
}

// Reads both texts of a session, and replies to the queries.
fn reply_to_texts<R: Threads + Wait + Sync, F: Shelf, O: Sink, G: Gate>(
    team: &Team<'_, R, G>,
    session: &SessionCommand<'_>,
    shelf: &mut F,
    sink: &mut O,
) -> Result<(), Refusal>
    requires bound { session.now.bound ≤ 1000000 }

    ensures kept { ShelfKept F.texts F.faults F.absences F.log shelf.old shelf.new }
    ensures sink_faults_kept { O.faults sink.old ≤ O.faults sink.new }
    ensures shelf_told { ShelfTold F.faults F.absences shelf.old shelf.new result }
    ensures sink_told { SinkTold (O.faults sink.old) (O.faults sink.new) result }

    ensures ends { (told : Option Texts) → ToldFits told (F.log shelf.old) (F.log shelf.new)
        → EndsOwn (SessionComesTo told (Met F.absences F.log shelf.old shelf.new NoText)
        (Met F.faults F.log shelf.old shelf.new Unreadable) (shown_session session.now)) (λ done. 0)
        (RefusesText told (Met F.absences F.log shelf.old shelf.new NoText)
        (Met F.faults F.log shelf.old shelf.new Unreadable) (shown_session session.now))
        (Rose (O.faults sink.old) (O.faults sink.new)) (Some (O.taken sink.old)) (Some (O.taken sink.new)) result }
    ensures replied { OnOk result ((told : Option Texts) → ToldFits told (F.log shelf.old) (F.log shelf.new)
        → SessionShown told (shown_session session.now) (Some (O.taken sink.old)) (Some (O.taken sink.new))) }
{
    answers_are_shown();
    answers_are_what_follows();
    let program = read(team.alloc, shelf, session.program, Role::Program)?;
    let text = read(team.alloc, shelf, session.queries, Role::Query)?;
    reply_to_text(team, session, &program, &text, sink)
}

// Replies to the queries of a text over the program of another one, which is judged before and once.
fn reply_to_text<R: Threads + Wait + Sync, O: Sink, G: Gate>(
    team: &Team<'_, R, G>,
    session: &SessionCommand<'_>,
    program: &[u8],
    text: &[u8],
    sink: &mut O,
) -> Result<(), Refusal>
    requires program { length program.now ≤ 16777216 }
    requires text { length text.now ≤ 16777216 }
    requires bound { session.now.bound ≤ 1000000 }
    ensures faults_kept { O.faults sink.old ≤ O.faults sink.new }
    ensures sink_told { SinkTold (O.faults sink.old) (O.faults sink.new) result }
    ensures ends { EndsOwn (TextsComeTo session.now.proofs session.now.queries.now program.now text.now session.now.bound) (λ done. 0)
        (RefusesProgram program.now) (Rose (O.faults sink.old) (O.faults sink.new)) (Some (O.taken sink.old)) (Some (O.taken sink.new)) result }
    ensures replied { OnOk result ((tree : ProgramTree) × IsFaultless program.now tree
        × WritesReplies session.now.proofs session.now.queries.now tree text.now session.now.bound
        (Some (O.taken sink.old)) (Some (O.taken sink.new))) }
{
    match load_text(team.alloc, program) {
        Ok(loaded) => reply_over(team, session, &loaded, text, sink),
        Err(fault) => Err(refusal(Role::Program, fault)),
    }
}

// Replies to the queries of a text over a program that was loaded. One index of its clauses serves all of them.
fn reply_over<R: Threads + Wait + Sync, O: Sink, G: Gate>(
    team: &Team<'_, R, G>,
    session: &SessionCommand<'_>,
    loaded: &Loaded,
    text: &[u8],
    sink: &mut O,
) -> Result<(), Refusal>
    requires loaded { IsLoaded loaded.now }
    requires text { length text.now ≤ 16777216 }
    requires bound { session.now.bound ≤ 1000000 }
    ensures faults_kept { O.faults sink.old ≤ O.faults sink.new }
    ensures sink_told { SinkTold (O.faults sink.old) (O.faults sink.new) result }
    ensures ends { (program : ProgramTree) → IsProgramOf program loaded.now
        → EndsOwn (RepliesTo session.now.proofs session.now.queries.now program text.now session.now.bound)
        (λ done. 0) NoneFails (Rose (O.faults sink.old) (O.faults sink.new)) (Some (O.taken sink.old))
        (Some (O.taken sink.new)) result }
    ensures replied { OnOk result ((program : ProgramTree) → IsProgramOf program loaded.now
        → WritesReplies session.now.proofs session.now.queries.now program text.now session.now.bound
        (Some (O.taken sink.old)) (Some (O.taken sink.new))) }
{
    let index = program_index(team.alloc, loaded)?;
    let base = Base {
        session,
        loaded,
        index: &index,
    };
    reply_to_lines(team, &base, text, sink)
}

// Replies to each line of a text that is a query, over a program that was loaded. Each reply is written before the next line is looked at.
//
// This is the loop of `ll_session::session` again, which gives its replies to an `impl Replies`. A reply of a run starts threads, and no
// method of a trait of our own can be proved to do that: its contract would rest on a bound that is assumed of this thread alone.
fn reply_to_lines<R: Threads + Wait + Sync, O: Sink, G: Gate>(
    team: &Team<'_, R, G>,
    base: &Base<'_>,
    text: &[u8],
    sink: &mut O,
) -> Result<(), Refusal>
    requires loaded { IsLoaded base.now.loaded.now }
    requires index { HasIndex base.now.loaded.now.clauses (arc_value base.now.index.now) }
    requires text { length text.now ≤ 16777216 }
    requires bound { base.now.session.now.bound ≤ 1000000 }
    ensures faults_kept { O.faults sink.old ≤ O.faults sink.new }
    ensures sink_told { SinkTold (O.faults sink.old) (O.faults sink.new) result }
    ensures ends { let s = base.now.session.now in (program : ProgramTree) → IsProgramOf program base.now.loaded.now
        → EndsOwn (RepliesTo s.proofs s.queries.now program text.now s.bound) (λ done. 0) NoneFails
        (Rose (O.faults sink.old) (O.faults sink.new)) (Some (O.taken sink.old)) (Some (O.taken sink.new)) result }
    ensures replied { let s = base.now.session.now in
        OnOk result ((program : ProgramTree) → IsProgramOf program base.now.loaded.now
        → WritesReplies s.proofs s.queries.now program text.now s.bound (Some (O.taken sink.old))
        (Some (O.taken sink.new))) }
{
    one_session();
    let mut rest = text;
    let mut number: u32 = 0;
    while !rest.is_empty() {
        let (line, behind) = split_line(rest);
        rest = behind;
        number += 1;
        if is_query_line(line) {
            reply_to_line(team, base, line, number, sink)?;
        }
    }
    Ok(())
}

// Replies to the line of this number, which is a query. What was loaded is copied for it.
fn reply_to_line<R: Threads + Wait + Sync, O: Sink, G: Gate>(
    team: &Team<'_, R, G>,
    base: &Base<'_>,
    line: &[u8],
    number: u32,
    sink: &mut O,
) -> Result<(), Refusal>
    requires loaded { IsLoaded base.now.loaded.now }
    requires index { HasIndex base.now.loaded.now.clauses (arc_value base.now.index.now) }
    requires line { length line.now ≤ 16777216 }
    requires bound { base.now.session.now.bound ≤ 1000000 }
    ensures faults_kept { O.faults sink.old ≤ O.faults sink.new }
    ensures sink_told { SinkTold (O.faults sink.old) (O.faults sink.new) result }
    ensures replies { let s = base.now.session.now in
        OnOk result ((program : ProgramTree) → IsProgramOf program base.now.loaded.now
        → Replies (WritesReply s.proofs s.queries.now)
        (CutsReply s.proofs s.queries.now) program s.bound number line.now (Some (O.taken sink.old))
        (Some (O.taken sink.new))) }
    ensures cut { let s = base.now.session.now in
        OnErr result ((program : ProgramTree) → IsProgramOf program base.now.loaded.now
        → RefusesLine (WritesReply s.proofs s.queries.now)
        (CutsReply s.proofs s.queries.now) program s.bound number line.now (Some (O.taken sink.old))
        (Some (O.taken sink.new))) }
    ensures refused { IfErr result (IsRunRefusal (O.faults sink.old) (O.faults sink.new)) }
{
    let part = base.loaded.copy(team.alloc)?;
    match ask_text(team.alloc, part, line, base.session.bound) {
        Ok(problem) => {
            let reply = reply_with_run(team, base, number, &problem, sink);
            drop(problem);
            reply
        }
        Err(TextFault::Text(fault)) => {
            reply_with_fault(base.session, on_line(number, fault), sink)
        }
        Err(TextFault::OutOfMemory) => Err(Refusal::OutOfMemory),
    }
}

// Writes the reply to a query with this problem.
fn reply_with_run<R: Threads + Wait + Sync, O: Sink, G: Gate>(
    team: &Team<'_, R, G>,
    base: &Base<'_>,
    number: u32,
    problem: &Problem,
    sink: &mut O,
) -> Result<(), Refusal>
    requires valid { IsValid problem.now }
    requires index { HasIndex problem.now.clauses (arc_value base.now.index.now) }
    ensures faults_kept { O.faults sink.old ≤ O.faults sink.new }
    ensures sink_told { SinkTold (O.faults sink.old) (O.faults sink.new) result }
    ensures text { let s = base.now.session.now in
        OnOk result (Some (O.taken sink.new)
        ≡ append_known (Some (O.taken sink.old))
        (reply_text s.proofs s.queries.now (record { line = number; asked = Ok problem.now }))) }
    ensures refused { IfErr result (IsRunRefusal (O.faults sink.old) (O.faults sink.new)) }
    ensures prefix { let s = base.now.session.now in
        OnErr result (AppendsFront (Some (O.taken sink.old))
        (reply_text s.proofs s.queries.now (record { line = number; asked = Ok problem.now }))
        (Some (O.taken sink.new))) }
{
    write_heading(sink, "query ", number)?;
    let wanted = Wanted {
        problem,
        index: base.index,
        proofs: base.session.proofs,
        limit: None,
    };
    run(team, &wanted, sink)?;
    Ok(())
}

// Writes the reply to a query whose line has this fault.
fn reply_with_fault<O: Sink>(
    session: &SessionCommand<'_>,
    fault: Fault,
    sink: &mut O,
) -> Result<(), Refusal>
    ensures faults_kept { O.faults sink.old ≤ O.faults sink.new }
    ensures sink_told { SinkTold (O.faults sink.old) (O.faults sink.new) result }
    ensures text { OnOk result (Some (O.taken sink.new) ≡ append_known (Some (O.taken sink.old))
        (reply_text session.now.proofs session.now.queries.now (record { line = fault.at.line; asked = Err fault }))) }
    ensures refused { IfErr result (IsRunRefusal (O.faults sink.old) (O.faults sink.new)) }
    ensures prefix { OnErr result
        (AppendsFront (Some (O.taken sink.old))
        (reply_text session.now.proofs session.now.queries.now (record { line = fault.at.line; asked = Err fault }))
        (Some (O.taken sink.new))) }
{
    write_heading(sink, "query ", fault.at.line)?;
    write_line(Cause::Faulty(session.queries, fault), sink)?;
    Ok(())
}
