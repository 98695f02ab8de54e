//! Iterative deepening (Korf 1985): a run with the first bound of a series that decides.
ghost use Rattle.std.specs.Prelude.{◌≡◌, ◌≤◌, Option, Some, IfOk, IfErr};
ghost use Rattle.std.specs.Arc.{arc_value};
ghost use Rattle.ll_deepen.specs.Deciding.{events_within, cost_within, IsDeciding, IsSeries};
ghost use Rattle.ll_edge.specs.Counts.{Rose};
ghost use Rattle.ll_edge.specs.Log.{ShelfKept, ToldFits, Met, NoText, Unreadable};
ghost use Rattle.ll_edge.specs.Texts.{Texts};
ghost use Rattle.ll_index.specs.Index.{HasIndex};
ghost use Rattle.ll_laws.specs.Valid.{IsValid};
ghost use Rattle.ll_order.specs.Outlets.{CountsOf};
ghost use Rattle.ll_top.specs.declared.texts.refusing.Refusal.TheVariants.{OutOfMemory};
ghost use Rattle.ll_top.specs.texts.CallEnds.{Ends};
ghost use Rattle.ll_top.specs.texts.Told.{ShelfTold, SinkTold, StatusTold};
ghost use Rattle.ll_top.specs.Deepening.{DeepenComesTo};
ghost use Rattle.ll_top.specs.DeepenEnds.{with_bound, DeepenRefuses, DeepensTo};
ghost use Rattle.ll_top.specs.Endings.{status_of_found};
ghost use Rattle.ll_top.specs.OwnEnds.{EndsOwn, NoneFails};
ghost use Rattle.ll_top.specs.Shown.{DeepenShown};
ghost use Rattle.ll_top.specs.forms.Words.{shown_deepen};

use crate::forms::{DeepenCommand, RunCommand};
use crate::made_runs::count_events;
use crate::refused::{Names, end_refused};
use crate::run::{Found, Wanted, run};
use crate::texts::{Refusal, prepare, write_heading};
use crate::{answers_are_what_follows, found_status};
use ll_crew::Team;
use ll_deepen::{Series, is_decided};
use ll_edge::{Gate, Shelf, Sink};
use ll_index::Index;
use ll_laws::{Counts, Problem, answers_are_shown};
use std::sync::{Arc, Wait};
use std::thread::Threads;

/// Writes the bound that decides and the text of the run with it, and answers the status: that of the run, or that of the line that says
/// why there is none. Where the sink failed it is 6, and 10 where memory ran out; then a prefix was written.
pub fn serve_deepen<R: Threads + Wait + Sync, F: Shelf, O: Sink, G: Gate>(
    team: &Team<'_, R, G>,
    deepen: &DeepenCommand<'_>,
    shelf: &mut F,
    sink: &mut O,
) -> u8
    requires series { IsSeries deepen.now.series }

    ensures kept { ShelfKept F.texts F.faults F.absences F.log shelf.old shelf.new }
    ensures sink_faults_kept { O.faults sink.old ≤ O.faults sink.new }
    ensures faults_told { StatusTold F.faults F.absences O.faults shelf.old shelf.new sink.old sink.new result }

    ensures ends { (told : Option Texts) → ToldFits told (F.log shelf.old) (F.log shelf.new)
        → Ends (DeepenComesTo told (Met F.absences F.log shelf.old shelf.new NoText)
        (Met F.faults F.log shelf.old shelf.new Unreadable) (shown_deepen deepen.now))
        (Rose (O.faults sink.old) (O.faults sink.new)) (Some (O.taken sink.old)) (Some (O.taken sink.new)) result }
    ensures deepened { result ≤ 2 → (told : Option Texts) → ToldFits told (F.log shelf.old) (F.log shelf.new)
        → DeepenShown told (shown_deepen deepen.now) (Some (O.taken sink.old)) (Some (O.taken sink.new)) result }
{
    match deepen_texts(team, deepen, shelf, sink) {
        Ok(found) => found_status(found),
        Err(refusal) => {
            let names = Names {
                program: deepen.program,
                query: deepen.query,
            };
            end_refused(refusal, &names, sink)
        }
    }
}

// Reads the texts of a deepening and judges them, once, and runs their problem with the bound that decides.
fn deepen_texts<R: Threads + Wait + Sync, F: Shelf, O: Sink, G: Gate>(
    team: &Team<'_, R, G>,
    deepen: &DeepenCommand<'_>,
    shelf: &mut F,
    sink: &mut O,
) -> Result<Found, Refusal>
    requires series { IsSeries deepen.now.series }

    ensures kept { ShelfKept F.texts F.faults F.absences F.log shelf.old shelf.new }
    ensures sink_faults_kept { O.faults sink.old ≤ O.faults sink.new }
    ensures shelf_told { ShelfTold F.faults F.absences shelf.old shelf.new result }
    ensures sink_told { SinkTold (O.faults sink.old) (O.faults sink.new) result }

    ensures ends { (told : Option Texts) → ToldFits told (F.log shelf.old) (F.log shelf.new)
        → EndsOwn (DeepenComesTo told (Met F.absences F.log shelf.old shelf.new NoText)
        (Met F.faults F.log shelf.old shelf.new Unreadable) (shown_deepen deepen.now)) status_of_found
        (DeepenRefuses told (Met F.absences F.log shelf.old shelf.new NoText)
        (Met F.faults F.log shelf.old shelf.new Unreadable) (shown_deepen deepen.now))
        (Rose (O.faults sink.old) (O.faults sink.new)) (Some (O.taken sink.old)) (Some (O.taken sink.new)) result }
    ensures deepened { IfOk result (λ found. (told : Option Texts) → ToldFits told (F.log shelf.old) (F.log shelf.new)
        → DeepenShown told (shown_deepen deepen.now) (Some (O.taken sink.old)) (Some (O.taken sink.new))
        (status_of_found found)) }
{
    answers_are_shown();
    answers_are_what_follows();
    let first = RunCommand {
        program: deepen.program,
        query: deepen.query,
        bound: deepen.series.from,
        workers: deepen.workers,
        proofs: deepen.proofs,
        first: None,
    };
    let mut problem = prepare(team.alloc, &first, shelf)?;
    run_deepened(team, &deepen.series, deepen.proofs, &mut problem, sink)
}

// Runs a problem with the bound that decides. Its own bound is not looked at, and left as another one. One index of its clauses serves all
// searches.
fn run_deepened<R: Threads + Wait + Sync, O: Sink, G: Gate>(
    team: &Team<'_, R, G>,
    series: &Series,
    proofs: bool,
    problem: &mut Problem,
    sink: &mut O,
) -> Result<Found, Refusal>
    requires valid { IsValid problem.old }
    requires series { IsSeries «series».now }
    ensures faults_kept { O.faults sink.old ≤ O.faults sink.new }
    ensures sink_told { SinkTold (O.faults sink.old) (O.faults sink.new) result }
    ensures ends { EndsOwn (DeepensTo proofs «series».now problem.old) status_of_found NoneFails
        (Rose (O.faults sink.old) (O.faults sink.new)) (Some (O.taken sink.old)) (Some (O.taken sink.new)) result }
{
    let index = Index::shared(team.alloc, problem)?;
    let bound = decide(team, series, problem, &index)?;
    write_heading(sink, "bound ", bound)?;
    let wanted = Wanted {
        problem,
        index: &index,
        proofs,
        limit: None,
    };
    run(team, &wanted, sink)
}

// Gives a problem the bound that decides: the first of the series at which the search has an answer or reaches no bound, and the last one
// where there is none. After a refusal, which is out of memory, it has some bound.
//
// This is the loop of `ll_deepen::deepen` again, which tries the bounds by an `impl Trial`. A search starts threads, and no method of a
// trait of our own can be proved to do that: its contract would rest on a bound that is assumed of this thread alone.
fn decide<R: Threads + Wait + Sync, G: Gate>(
    team: &Team<'_, R, G>,
    series: &Series,
    problem: &mut Problem,
    index: &Arc<Index>,
) -> Result<u32, Refusal>
    requires valid { IsValid problem.old }
    requires index { HasIndex problem.old.clauses (arc_value index.now) }
    requires series { IsSeries «series».now }
    ensures decides { IfOk result (λ bound. IsDeciding problem.old «series».now bound) }
    ensures problem { IfOk result (λ bound. problem.new ≡ with_bound problem.old bound) }
    ensures valid { IfOk result (λ bound. IsValid problem.new) }
    ensures refused { IfErr result (λ refusal. refusal ≡ OutOfMemory) }
{
    let mut bound = series.from;
    loop {
        let counts = count_within(team, problem, index, bound)?;
        if is_decided(&counts) || series.to - bound < series.by {
            return Ok(bound);
        }
        bound += series.by;
    }
}

// Gives a problem this bound, and counts the events of its search and the inferences. After a refusal it has the bound too.
fn count_within<R: Threads + Wait + Sync, G: Gate>(
    team: &Team<'_, R, G>,
    problem: &mut Problem,
    index: &Arc<Index>,
    bound: u32,
) -> Result<Counts, Refusal>
    requires valid { IsValid problem.old }
    requires index { HasIndex problem.old.clauses (arc_value index.now) }
    requires bound { bound ≤ 1000000 }
    ensures problem { problem.new ≡ with_bound problem.old bound }
    ensures valid { IsValid problem.new }
    ensures counts { IfOk result (λ counts. CountsOf counts (events_within problem.old bound)
        (cost_within problem.old bound)) }
    ensures refused { IfErr result (λ refusal. refusal ≡ OutOfMemory) }
{
    problem.bound = bound;
    count_events(team, problem, index)
}
