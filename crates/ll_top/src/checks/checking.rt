//! From the words of a check, or of a cover, to what it finds.
ghost use Rattle.std.specs.Prelude.{◌≡◌, ◌≤◌, ℕ, List, length, true, unwrap_or, Option, Some, IfOk, IfSome};
ghost use Rattle.std.specs.List.{position_from};
ghost use Rattle.ll_edge.specs.Counts.{Rose};
ghost use Rattle.ll_edge.specs.Log.{ShelfKept, ToldFits, Met, NoText, Unreadable};
ghost use Rattle.ll_edge.specs.Texts.{Texts};
ghost use Rattle.ll_laws.specs.Line.{IsWhole};
ghost use Rattle.ll_laws.specs.Valid.{IsValid};
ghost use Rattle.ll_laws.specs.Verdict.{DerivationShows};
ghost use Rattle.ll_top.specs.texts.CallEnds.{Ends};
ghost use Rattle.ll_top.specs.checks.Counting.{is_counting};
ghost use Rattle.ll_top.specs.texts.Told.{ShelfTold, SinkTold, StatusTold};
ghost use Rattle.ll_top.specs.texts.Judging.{TextsAsk};
ghost use Rattle.ll_top.specs.forms.Words.{shown_check};
ghost use Rattle.ll_top.specs.checks.Outcome.{name_in_check, CheckComesTo, IsProved};
ghost use Rattle.ll_top.specs.checks.Endings.{status_of_finding, IsFinding, Finds, CheckFinds, CheckEnds};

use crate::answers_are_what_follows;
use crate::checks::finding::{Finding, write_finding};
use crate::forms::CheckCommand;
use crate::texts::{Refusal, Role, derivation_of, problem_of, read, refuse};
use ll_bank::OutOfMemory;
use ll_cover::cover;
use ll_edge::{Shelf, Sink};
use ll_laws::{Derivation, Problem, Rule};
use ll_sequent::{Verdict, check};
use std::alloc::Global;

/// Checks a derivation, or says which answer covers it, and says why not where this is not done. It answers the status. Where that is 0, the
/// query follows from the program with the derivation's terms, by as many nodes (derivability after Hodas and Miller 1994).
pub fn serve_check<F: Shelf, O: Sink>(
    alloc: Global,
    check: &CheckCommand<'_>,
    shelf: &mut F,
    sink: &mut O,
) -> u8
    requires bound { IfSome check.now.bound (λ bound. bound ≤ 1000000) }

    ensures kept { ShelfKept F.texts F.faults F.absences F.log shelf.old shelf.new }
    ensures sink_faults_kept { O.faults sink.old ≤ O.faults sink.new }
    ensures faults_told { StatusTold F.faults F.absences O.faults shelf.old shelf.new sink.old sink.new result }

    ensures ends { (told : Option Texts) → ToldFits told (F.log shelf.old) (F.log shelf.new)
        → Ends (CheckComesTo told (Met F.absences F.log shelf.old shelf.new NoText)
        (Met F.faults F.log shelf.old shelf.new Unreadable) (shown_check check.now))
        (Rose (O.faults sink.old) (O.faults sink.new)) (Some (O.taken sink.old)) (Some (O.taken sink.new)) result }
    ensures proved { result ≡ 0 → (told : Option Texts) → ToldFits told (F.log shelf.old) (F.log shelf.new)
        → IsProved told (shown_check check.now) }
{
    answers_are_what_follows();
    match check_derivation(alloc, check, shelf, sink) {
        Ok(finding) => finding_status(finding),
        Err(Refusal::Text(role, refusal)) => {
            refuse(refusal.cause(checked_name(check, role)), sink)
        }
        Err(Refusal::Unwritable) => 6,
        Err(Refusal::OutOfMemory) => 10,
    }
}

// The name of a check's text.
fn checked_name<'a>(check: &CheckCommand<'a>, role: Role) -> &'a str
    ensures { result.now ≡ name_in_check (shown_check check.now) role }
{
    match role {
        Role::Program => check.program,
        Role::Query => check.query,
        Role::Proof => check.proof,
    }
}

// The status of what a check found.
fn finding_status(finding: Finding) -> u8
    ensures { result ≡ status_of_finding finding }
{
    match finding {
        Finding::Shows { .. } => 0,
        Finding::Fails { .. } => 9,
        Finding::Covered { .. } => 0,
        Finding::TooLong { .. } => 11,
        Finding::CountsNumbers { .. } => 11,
    }
}

// Checks the derivation of this name against the problem of the other two, asks for a cover which answer of the search covers it, and
// writes the line of what was found. After a refusal of a text nothing was written, else a prefix.
fn check_derivation<F: Shelf, O: Sink>(
    alloc: Global,
    command: &CheckCommand<'_>,
    shelf: &mut F,
    sink: &mut O,
) -> Result<Finding, Refusal>
    requires bound { IfSome command.now.bound (λ bound. bound ≤ 1000000) }

    ensures kept { ShelfKept F.texts F.faults F.absences F.log shelf.old shelf.new }
    ensures sink_faults_kept { O.faults sink.old ≤ O.faults sink.new }
    ensures shelf_told { ShelfTold F.faults F.absences shelf.old shelf.new result }
    ensures sink_told { SinkTold (O.faults sink.old) (O.faults sink.new) result }

    ensures ends { (told : Option Texts) → ToldFits told (F.log shelf.old) (F.log shelf.new)
        → CheckEnds told (Met F.absences F.log shelf.old shelf.new NoText)
        (Met F.faults F.log shelf.old shelf.new Unreadable) (Rose (O.faults sink.old) (O.faults sink.new))
        (shown_check command.now) (Some (O.taken sink.old)) (Some (O.taken sink.new)) result }
{
    let finding = found(alloc, command, shelf)?;
    write_finding(sink, finding)?;
    Ok(finding)
}

// What a check or a cover finds: reads the program, the query and the derivation from the shelf, each to its end, and then judges them in turn.
fn found<F: Shelf>(
    alloc: Global,
    command: &CheckCommand<'_>,
    shelf: &mut F,
) -> Result<Finding, Refusal>
    requires bound { IfSome command.now.bound (λ bound. bound ≤ 1000000) }

    ensures kept { ShelfKept F.texts F.faults F.absences F.log shelf.old shelf.new }
    ensures shelf_told { ShelfTold F.faults F.absences shelf.old shelf.new result }

    ensures finds { (told : Option Texts) → ToldFits told (F.log shelf.old) (F.log shelf.new)
        → CheckFinds told (Met F.absences F.log shelf.old shelf.new NoText)
        (Met F.faults F.log shelf.old shelf.new Unreadable) (shown_check command.now) result }
{
    let program = read(alloc, shelf, command.program, Role::Program)?;
    let query = read(alloc, shelf, command.query, Role::Query)?;
    let proof = read(alloc, shelf, command.proof, Role::Proof)?;
    finding_of(alloc, &program, &query, &proof, command.bound)
}

// What is found of three texts, with the bound of a cover or none: the program is judged first, then the query, and then the derivation.
fn finding_of(
    alloc: Global,
    program: &[u8],
    query: &[u8],
    proof: &[u8],
    bound: Option<u32>,
) -> Result<Finding, Refusal>
    requires program { length program.now ≤ 16777216 }
    requires query { length query.now ≤ 16777216 }
    requires proof { length proof.now ≤ 16777216 }
    requires bound { IfSome bound (λ bound. bound ≤ 1000000) }
    ensures { Finds program.now query.now proof.now bound result }
{
    let mut problem = problem_of(alloc, program, query, bound.unwrap_or(0))?;
    let finding = finding_over(alloc, &mut problem, proof, bound);
    drop(problem);
    finding
}

// What is found of a derivation's text over a problem, with the bound of a cover or none. The names that it mentions come to the problem's.
fn finding_over(
    alloc: Global,
    problem: &mut Problem,
    proof: &[u8],
    bound: Option<u32>,
) -> Result<Finding, Refusal>
    requires valid { IsValid problem.now }
    requires proof { length proof.now ≤ 16777216 }
    ensures { (program query : List ℕ) → TextsAsk program query (unwrap_or bound 0) problem.old
        → Finds program query proof.now bound result }
{
    let derivation = derivation_of(alloc, proof, &mut problem.names)?;
    let finding = judged(alloc, problem, &derivation, bound.is_some())?;
    Ok(finding)
}

// What the checker says of a derivation, and for a cover, where it shows the query, which answer covers it.
fn judged(
    alloc: Global,
    problem: &Problem,
    derivation: &Derivation,
    covers: bool,
) -> Result<Finding, OutOfMemory>
    requires valid { IsValid problem.now }
    requires whole { IsWhole derivation.now }
    ensures { IfOk result (IsFinding covers problem.now derivation.now) }
{
    match check(alloc, problem, derivation)? {
        Verdict::Yes if covers => covered(alloc, problem, derivation),
        Verdict::Yes => Ok(Finding::Shows {
            nodes: node_count(derivation),
        }),
        Verdict::No { node, reason } => Ok(Finding::Fails { node, reason }),
    }
}

// Which answer covers a derivation that shows the query, or why none is looked for.
fn covered(
    alloc: Global,
    problem: &Problem,
    derivation: &Derivation,
) -> Result<Finding, OutOfMemory>
    requires valid { IsValid problem.now }
    requires whole { IsWhole derivation.now }
    requires shows { DerivationShows problem.now derivation.now }
    ensures { IfOk result (IsFinding true problem.now derivation.now) }
{
    let nodes = node_count(derivation);
    if nodes > problem.bound as usize {
        return Ok(Finding::TooLong {
            nodes,
            bound: problem.bound,
        });
    }
    if let Some(node) = first_counting(&derivation.nodes) {
        return Ok(Finding::CountsNumbers { node });
    }
    let answer = cover(alloc, problem, derivation)?;
    Ok(Finding::Covered { answer })
}

// The number of nodes of a derivation.
fn node_count(derivation: &Derivation) -> usize
    ensures { result ≡ length derivation.now.nodes }
{
    derivation.nodes.len()
}

// The number of the first node of a whole-number goal, counted from 1.
fn first_counting(nodes: &[Rule]) -> Option<usize>
    ensures { result ≡ position_from is_counting 1 nodes.now }
{
    for (i, rule) in nodes.iter().enumerate() {
        if let Rule::Num = rule {
            return Some(i + 1);
        }
    }
    None
}
