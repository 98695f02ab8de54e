//! The root of a derivation: what is to be proved there, and from which clauses.
ghost use Rattle.std.specs.Prelude.{◌≡◌, ◌≤◌, length, map, IfOk};
ghost use Rattle.ll_laws.specs.Valid.{largest_count};
ghost use Rattle.ll_trace.specs.Start.{IsAtStart, linear_labels};

use crate::walk::{Goal, Walker};
use ll_bank::{FormAt, OutOfMemory};
use ll_laws::{Clause, Kind};
use std::alloc::Global;

/// Where the walk along a branch starts: before the query, with the program's clauses loaded, and with the terms of the query's variables
/// used.
pub(crate) fn start(
    alloc: Global,
    goal: FormAt,
    clauses: &[Clause],
    asked: usize,
) -> Result<Walker, OutOfMemory>
    ensures { IfOk result (IsAtStart goal clauses.now asked) }
{
    let mut goals = Vec::new(alloc);
    goals.push(Goal::Plain(goal))?;
    Ok(Walker {
        goals,
        clauses: forms_of(alloc, clauses)?,
        eigens: 0,
        used: asked,
    })
}

/// The formulas of clauses.
fn forms_of(alloc: Global, clauses: &[Clause]) -> Result<Vec<FormAt>, OutOfMemory>
    ensures { IfOk result (λ made. made.items ≡ map (λ c. c.form) clauses.now) }
{
    let mut made = Vec::new(alloc);
    for clause in clauses {
        made.push(clause.form)?;
    }
    Ok(made)
}

/// The labels of the program's linear clauses.
pub(crate) fn root_labels(alloc: Global, clauses: &[Clause]) -> Result<Vec<u32>, OutOfMemory>
    requires { length clauses.now ≤ largest_count }
    ensures { IfOk result (λ labels. labels.items ≡ linear_labels 0 clauses.now) }
{
    let mut labels = Vec::new(alloc);
    for (label, clause) in clauses.iter().enumerate() {
        match clause.kind {
            Kind::Linear => labels.push(label as u32)?,
            Kind::Unbounded => {}
        }
    }
    Ok(labels)
}
