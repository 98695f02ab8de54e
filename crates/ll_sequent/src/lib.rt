//! A checker of derivations that knows no search.
//!
//! It goes through the nodes in prefix order, without recursion. Each sequent that waits for its derivation keeps its bounded clauses
//! by their labels. Unbounded clauses lie in one vector, of which each sequent has the first ones.
#![tactic(auto)]

ghost use Rattle.std.specs.Prelude.{◌≡◌, IfOk};
ghost use Rattle.ll_laws.specs.Line.{IsWhole};
ghost use Rattle.ll_laws.specs.Valid.{IsValid};
ghost use Rattle.ll_sequent.specs.Told.{IsVerdict};

mod clauses;
mod constants;
mod copies;
mod finding;
mod judge;
mod labels;
mod leaves;
mod loads;
mod numbers;
mod opening;
mod plain;
mod premises;
mod rules;
mod same;
mod sequents;
mod start;
mod substitution;

use crate::judge::judge;
use crate::start::started;
use ll_bank::OutOfMemory;
use ll_laws::{Derivation, Problem};
use std::alloc::Global;

/// What the checker says of a derivation.
#[derive(Clone, Copy)]
pub enum Verdict {
    /// It shows the query.
    Yes,
    /// It does not: the first node in prefix order that does not fit, counted from 1, or 0 for the terms of the query's variables, and
    /// its first reason.
    No { node: usize, reason: u8 },
}

/// The terms for the query's variables are too few or too many.
const WRONG_TERMS_OF_QUERY: u8 = 11;

/// Whether a derivation shows the query of a problem, and if not, where it first fails and why.
///
/// Nodes are judged with the sequents that their parents hand them. The reasons are: 1 the rule does not fit the goal; 2 bounded clauses
/// are left; 3 the sets of labels hold not each label exactly once; 4 there is no clause with this label; 5 the clause has no such leaf;
/// 6 the way to the leaf has another number of quantifiers; 7 the head is not the goal; 8 the premises have another number or kinds;
/// 9 the label is not new; 10 the constant is not new; 11, at node 0 alone, another number of terms than the query has variables;
/// 12 the numbers do not fit. A clause node is judged in the order 1, 4, 5, 6, 7, 8, 3, and one of numbers in the order 1, 2, 12.
pub fn check(
    alloc: Global,
    problem: &Problem,
    derivation: &Derivation,
) -> Result<Verdict, OutOfMemory>
    requires valid { IsValid problem.now }
    requires whole { IsWhole derivation.now }
    ensures { IfOk result (IsVerdict problem.now derivation.now) }
{
    if derivation.asked.len() != problem.asked.len() {
        return Ok(Verdict::No {
            node: 0,
            reason: WRONG_TERMS_OF_QUERY,
        });
    }
    let start = started(
        alloc,
        &problem.bank,
        &problem.clauses,
        problem.goal,
        &derivation.bank,
        &derivation.asked,
        &derivation.nodes,
    )?;
    let verdict = judge(
        alloc,
        start,
        &problem.names,
        &problem.modules,
        &derivation.nodes,
    )?;
    Ok(verdict)
}
