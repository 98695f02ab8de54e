//! Which answer of a problem's search covers a derivation.
ghost use Rattle.std.specs.Prelude.{◌≡◌, ◌↔◌, ◌≤◌, length, IfOk, IsTrue};
ghost use Rattle.ll_laws.specs.Completeness.{ShowsClosed, NamesCover};
ghost use Rattle.ll_laws.specs.Valid.{IsValid};
ghost use Rattle.ll_cover.specs.Covering.{IsCoveredBy, IsPassing, NamesFirst};

use crate::matching::instance;
use ll_bank::OutOfMemory;
use ll_engine::{Engine, Step2};
use ll_laws::{Branch, Derivation, Event, Problem, search_is_complete};
use std::alloc::Global;

/// The number of the first answer that covers a derivation of a problem, counted from 1 in the order of the search, and cut at the greatest
/// `u64`: the derivation's terms are an instance of those that the answer gives the query's variables, and the answer's branch has as many
/// steps as the derivation has nodes.
///
/// The derivation shows the query, and has neither more nodes than the problem's bound nor one of a whole-number goal. Then there is such an
/// answer. One engine is run up to the first; answers before it are not kept.
pub fn cover(alloc: Global, problem: &Problem, derivation: &Derivation) -> Result<u64, OutOfMemory>
    requires valid { IsValid problem.now }
    requires shows { ShowsClosed problem.now derivation.now }
    requires within { length derivation.now.nodes ≤ problem.now.bound }
    ensures named { IfOk result (NamesCover problem.now derivation.now) }
    ensures first { IfOk result (NamesFirst problem.now derivation.now) }
{
    let mut engine = Engine::start(alloc, problem)?;
    first_cover(alloc, problem, derivation, &mut engine)
}

// The number of the first answer that covers a derivation, by an engine that begins.
fn first_cover(
    alloc: Global,
    problem: &Problem,
    derivation: &Derivation,
    engine: &mut Engine,
) -> Result<u64, OutOfMemory>
    requires valid { IsValid problem.now }
    requires shows { ShowsClosed problem.now derivation.now }
    requires within { length derivation.now.nodes ≤ problem.now.bound }
    requires begins { IsPassing problem.now derivation.now engine.old.events 0 }
    ensures named { IfOk result (NamesCover problem.now derivation.now) }
    ensures first { IfOk result (NamesFirst problem.now derivation.now) }
{
    search_is_complete();
    let mut number: u64 = 0;
    loop {
        match engine.step()? {
            Step2::Moved => {}
            Step2::Event(Event::Reached) => {}
            Step2::Event(Event::Answer(branch)) => {
                number = number.saturating_add(1);
                if covers(alloc, problem, &branch, derivation)? {
                    return Ok(number);
                }
            }
            Step2::Done => unreachable!(),
        }
    }
}

// Whether an answer covers a derivation. Where the numbers of steps and nodes differ, no term is looked at.
fn covers(
    alloc: Global,
    problem: &Problem,
    branch: &Branch,
    derivation: &Derivation,
) -> Result<bool, OutOfMemory>
    ensures { IfOk result (λ is. IsTrue is ↔ IsCoveredBy problem.now derivation.now branch.now) }
{
    if branch.steps.len() != derivation.nodes.len() {
        return Ok(false);
    }
    let asked = problem.asked.len().min(branch.terms.len());
    instance(
        alloc,
        &branch.bank,
        &branch.terms[..asked],
        &derivation.bank,
        &derivation.asked,
    )
}
