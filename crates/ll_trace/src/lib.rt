//! The derivation of an answer's branch: its nodes, with every label dealt out.
#![tactic(auto)]

mod deal;
mod leaf;
mod picks;
mod places;
mod root;
mod spans;
mod walk;

ghost use Rattle.std.specs.Prelude.{◌≡◌, Contains, length, IfOk, Some};
ghost use Rattle.ll_laws.specs.declared.Event.TheVariants.{Answer};
ghost use Rattle.ll_laws.specs.Problem.{problem_events};
ghost use Rattle.ll_laws.specs.Valid.{IsValid};
ghost use Rattle.ll_laws.specs.Dealt.{dealt};
ghost use Rattle.ll_laws.specs.Line.{IsWhole};
ghost use Rattle.ll_laws.specs.Verdict.{DerivationShows};

use ll_bank::OutOfMemory;
use ll_laws::{Branch, Derivation, Problem, answers_are_shown};
use std::alloc::Global;

/// The derivation of an answer of a problem, by the branch that ended in it: one node for each inference of the branch, with the branch's
/// terms, and every label dealt out. A label goes to the node that uses it, and otherwise to the first that can erase it. So it shows
/// the query with the answer's terms.
///
/// It needs no deep stack.
pub fn explain(alloc: Global, problem: &Problem, branch: &Branch) -> Result<Derivation, OutOfMemory>
    requires valid { IsValid problem.now }
    requires answer { Contains (problem_events problem.now) (Answer branch.now) }
    ensures dealt { IfOk result (λ derivation. dealt problem.now branch.now ≡ Some derivation) }
    ensures whole { IfOk result IsWhole }
    ensures shows { IfOk result (DerivationShows problem.now) }
    ensures count { IfOk result (λ derivation. length derivation.nodes ≡ length branch.now.steps) }
{
    answers_are_shown();
    let count = problem.asked.len();
    let labels = root::root_labels(alloc, &problem.clauses)?;
    let walker = root::start(alloc, problem.goal, &problem.clauses, count)?;
    let mut nodes = walk::nodes(
        alloc,
        &problem.bank,
        &problem.modules,
        &branch.terms,
        &branch.steps,
        walker,
    )?;
    deal::deal(alloc, labels, &mut nodes)?;
    let asked = Vec::from_slice(alloc, &branch.terms[..count])?;
    let bank = branch.bank.image(branch.bank.size())?;
    Ok(Derivation { bank, asked, nodes })
}
