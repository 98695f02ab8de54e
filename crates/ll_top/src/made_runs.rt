//! A run of a program that is made from a kind and a number: the counts of its search.
ghost use Rattle.std.specs.Prelude.{◌≡◌, ◌<◌, ◌≤◌, ℕ, IfOk, IfErr, OnOk, OnErr, Some};
ghost use Rattle.std.specs.Io.KnownBytes.{append_known};
ghost use Rattle.std.specs.Arc.{arc_value};
ghost use Rattle.ll_edge.specs.Counts.{Rose};
ghost use Rattle.ll_edge.specs.Pieces.{AppendsFront};
ghost use Rattle.ll_index.specs.Index.{HasIndex};
ghost use Rattle.ll_laws.specs.Output.{run_status};
ghost use Rattle.ll_laws.specs.Problem.{ProblemTree, problem_events, problem_cost};
ghost use Rattle.ll_laws.specs.Valid.{IsValid};
ghost use Rattle.ll_lexer.specs.declared.Fault.{Fault};
ghost use Rattle.ll_make.specs.declared.kind.MakeKind.{MakeKind};
ghost use Rattle.ll_make.specs.Kinds.{InRange, query_text};
ghost use Rattle.ll_make.specs.Programs.{program_text};
ghost use Rattle.ll_order.specs.Outlets.{CountsOf};
ghost use Rattle.ll_top.specs.declared.texts.judge.Role.{Role};
ghost use Rattle.ll_top.specs.declared.texts.refusing.Refusal.TheVariants.{OutOfMemory};
ghost use Rattle.ll_top.specs.texts.Judging.{IsTextFault, TextsAsk};
ghost use Rattle.ll_top.specs.forms.Words.{shown_made_run};
ghost use Rattle.ll_top.specs.MadeRuns.{last_line, MadeRunComesTo};
ghost use Rattle.ll_top.specs.MadeEnds.{MadeRunEnds};
ghost use Rattle.ll_top.specs.texts.CallEnds.{Ends};
ghost use Rattle.ll_top.specs.texts.Told.{SinkTold};
ghost use Rattle.ll_top.specs.Endings.{status_of_found};
ghost use Rattle.ll_top.specs.Running.{IsRunRefusal};

use crate::faultless::made_texts;
use crate::forms::MadeRunCommand;
use crate::found_status;
use crate::lines::Silent;
use crate::refused::{Names, end_refused};
use crate::run::{Found, write_summary};
use crate::texts::{Refusal, problem_of};
use ll_crew::{Sharing, Team, crew_with};
use ll_edge::{Gate, Sink};
use ll_index::Index;
use ll_laws::{Counts, Problem};
use ll_lexer::one_reading;
use ll_make::{program, query};
use ll_parser::{one_program, one_query};
use ll_prooftext::one_derivation_in_any;
use std::sync::{Arc, Wait};
use std::thread::Threads;

/// Runs the program that is made with the query of its kind, writes the last line alone, and answers the status: 0, 1 or 2 as that of a run,
/// 6 where the sink failed, with a prefix of the line written, or 10 where memory ran out.
pub fn serve_made_run<R: Threads + Wait + Sync, O: Sink, G: Gate>(
    team: &Team<'_, R, G>,
    run: MadeRunCommand,
    sink: &mut O,
) -> u8
    requires fits { InRange run.make.kind run.make.number }
    requires bound { run.bound ≤ 1000000 }
    ensures faults_kept { O.faults sink.old ≤ O.faults sink.new }
    ensures write_told { O.faults sink.old < O.faults sink.new → result ≡ 6 }
    ensures ends { Ends (MadeRunComesTo (shown_made_run run)) (Rose (O.faults sink.old) (O.faults sink.new))
        (Some (O.taken sink.old)) (Some (O.taken sink.new)) result }
{
    match run_made(team, run, sink) {
        Ok(found) => found_status(found),
        Err(refusal) => {
            // What is made has no name, and is not refused.
            let names = Names {
                program: "",
                query: "",
            };
            end_refused(refusal, &names, sink)
        }
    }
}

/// A program that is made and the query of its kind ask a problem, and neither has a fault.
pub fn made_asks()
    ensures asks { (kind : MakeKind) (n bound : ℕ) → InRange kind n → (p : ProblemTree)
        × TextsAsk (program_text kind n) (query_text kind) bound p }
    ensures no_fault { (kind : MakeKind) (n : ℕ) (role : Role) (f : Fault) → InRange kind n
        → IsTextFault (program_text kind n) (query_text kind) role f → ⊥ }
{
    made_texts();
    one_reading();
    one_program();
    one_query();
    one_derivation_in_any();
}

// Runs the program that is made.
fn run_made<R: Threads + Wait + Sync, O: Sink, G: Gate>(
    team: &Team<'_, R, G>,
    run: MadeRunCommand,
    sink: &mut O,
) -> Result<Found, Refusal>
    requires fits { InRange run.make.kind run.make.number }
    requires bound { run.bound ≤ 1000000 }
    ensures faults_kept { O.faults sink.old ≤ O.faults sink.new }
    ensures sink_told { SinkTold (O.faults sink.old) (O.faults sink.new) result }
    ensures ends { MadeRunEnds (Rose (O.faults sink.old) (O.faults sink.new)) (shown_made_run run)
        (Some (O.taken sink.old)) (Some (O.taken sink.new)) result }
{
    made_asks();
    let text = program(team.alloc, run.make.kind, run.make.number)?;
    let asked = query(run.make.kind).as_bytes();
    let problem = problem_of(team.alloc, &text, asked, run.bound)?;
    write_counts(team, &problem, sink)
}

// Writes the last line of a run of the problem, and answers what was found. After a refusal a prefix of the line was written.
fn write_counts<R: Threads + Wait + Sync, O: Sink, G: Gate>(
    team: &Team<'_, R, G>,
    problem: &Problem,
    sink: &mut O,
) -> Result<Found, Refusal>
    requires valid { IsValid problem.now }
    ensures faults_kept { O.faults sink.old ≤ O.faults sink.new }
    ensures sink_told { SinkTold (O.faults sink.old) (O.faults sink.new) result }
    ensures found { IfOk result (λ found. status_of_found found ≡ run_status problem.now) }
    ensures line { OnOk result (Some (O.taken sink.new)
        ≡ append_known (Some (O.taken sink.old)) (last_line problem.now)) }
    ensures refused { IfErr result (IsRunRefusal (O.faults sink.old) (O.faults sink.new)) }
    ensures prefix { OnErr result (AppendsFront (Some (O.taken sink.old)) (last_line problem.now)
        (Some (O.taken sink.new))) }
{
    let index = Index::shared(team.alloc, problem)?;
    let counts = count_events(team, problem, &index)?;
    let mut line = Vec::new(team.alloc);
    write_summary(&counts, &mut line, sink)
}

/// Counts the events of the problem and its inferences, each cut at the greatest `u64`, and writes nothing.
pub fn count_events<R: Threads + Wait + Sync, G: Gate>(
    team: &Team<'_, R, G>,
    problem: &Problem,
    index: &Arc<Index>,
) -> Result<Counts, Refusal>
    requires valid { IsValid problem.now }
    requires index { HasIndex problem.now.clauses (arc_value index.now) }
    ensures counts { IfOk result (λ counts. CountsOf counts (problem_events problem.now) (problem_cost problem.now)) }
    ensures refused { IfErr result (λ refusal. refusal ≡ OutOfMemory) }
{
    let mut out = Silent {};
    match crew_with(team, problem, index, Sharing::WhereIdle, &mut out) {
        Ok(counts) => Ok(counts),
        // No write of a silent outlet fails.
        Err(_) => Err(Refusal::OutOfMemory),
    }
}
