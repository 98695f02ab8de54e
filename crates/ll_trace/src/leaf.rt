//! Leaves of clauses, taken apart into their premises.
ghost use Rattle.std.specs.Prelude.{◌≡◌, ◌<◌, ◌≤◌, ◌+◌, IsSome, IfOk, length, OnOk, ◌++◌};
ghost use Rattle.ll_bank.specs.Nodes.{form_tree, HasForm};
ghost use Rattle.ll_laws.specs.Leaf.{ways};
ghost use Rattle.ll_trace.specs.Bare.{bare, premises_at};
ghost use Rattle.ll_trace.specs.Opening.{Opens, IsSide};

use crate::walk::Goal;
use ll_bank::{Bank, FormAt, FormNode, OutOfMemory};
use ll_laws::Part;
use std::alloc::{AllocError, Global};

/// A leaf that was taken apart: the number of quantifiers on the way to it, and one part for each premise, the one nearest the head first.
#[derive(Drop)]
pub(crate) struct Opened {
    pub quantifiers: usize,
    pub parts: Vec<Part>,
}

/// One side of a clause, and the number of a leaf there.
#[derive(Clone, Copy)]
struct Side {
    form: FormAt,
    leaf: u32,
}

/// Takes a leaf of a clause apart: its premises come behind the goals, the one nearest the head last. After a refusal some may be there.
pub(crate) fn open_leaf(
    alloc: Global,
    forms: &Bank,
    clause: FormAt,
    leaf: u32,
    goals: &mut Vec<Goal>,
) -> Result<Opened, OutOfMemory>
    requires inside { HasForm forms.now clause.0 }
    requires among { IsSome (premises_at (bare (form_tree forms.now clause.0)) leaf) }
    ensures { IfOk result (λ opened. Opens forms.now clause.0 leaf goals.old.items goals.new.items opened) }
{
    let mut form = clause;
    let mut leaf = leaf;
    let mut quantifiers = 0;
    let mut parts = Vec::new(alloc);
    loop {
        match forms.form_at(form) {
            FormNode::Atom(_) => {
                parts.reverse();
                return Ok(Opened { quantifiers, parts });
            }
            FormNode::With(left, right) => {
                let side = side_of(alloc, forms, left, right, leaf)?;
                form = side.form;
                leaf = side.leaf;
            }
            FormNode::Lolli(goal, next) => {
                goals.push(Goal::Plain(goal))?;
                parts.push(Part::Bounded(Vec::new(alloc)))?;
                form = next;
            }
            FormNode::Imp(goal, next) => {
                goals.push(Goal::Free(goal))?;
                parts.push(Part::Unbounded)?;
                form = next;
            }
            FormNode::Forall(body) => {
                quantifiers = next_count(quantifiers)?;
                form = body;
            }
            _ => unreachable!(),
        }
    }
}

/// The side of `&` on which a leaf is, and its number there.
fn side_of(
    alloc: Global,
    forms: &Bank,
    left: FormAt,
    right: FormAt,
    leaf: u32,
) -> Result<Side, OutOfMemory>
    requires { HasForm forms.now left.0 }
    ensures { IfOk result (IsSide (ways (form_tree forms.now left.0)) left right leaf) }
{
    let count = count_leaves(alloc, forms, left)?;
    if (leaf as usize) < count {
        Ok(Side { form: left, leaf })
    } else {
        Ok(Side {
            form: right,
            leaf: leaf - count as u32,
        })
    }
}

/// The number of leaves of a clause.
fn count_leaves(alloc: Global, forms: &Bank, clause: FormAt) -> Result<usize, OutOfMemory>
    requires { HasForm forms.now clause.0 }
    ensures { IfOk result (λ count. count ≡ length (ways (form_tree forms.now clause.0))) }
{
    let mut waiting = Vec::new(alloc);
    waiting.push(clause)?;
    let mut count = 0;
    while let Some(form) = waiting.pop() {
        match forms.form_at(form) {
            FormNode::Atom(_) => count = next_count(count)?,
            FormNode::With(left, right) => waiting.extend_from_slice(&[right, left])?,
            FormNode::Lolli(_, rest) => waiting.push(rest)?,
            FormNode::Imp(_, rest) => waiting.push(rest)?,
            FormNode::Forall(rest) => waiting.push(rest)?,
            _ => {}
        }
    }
    Ok(count)
}

/// One more. A clause with more parts than there are numbers would be past all memory.
fn next_count(count: usize) -> Result<usize, OutOfMemory>
    ensures { IfOk result (λ next. next ≡ count + 1) }
{
    match count.checked_add(1) {
        Some(next) => Ok(next),
        None => Err(AllocError),
    }
}
