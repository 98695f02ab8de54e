//! The labels that clause steps pick, and what is seen of them from above: nothing that lies below a `bang` or in an unbounded premise.
ghost use Rattle.std.specs.Prelude.{◌≡◌, ◌+◌, ◌++◌, IfOk, OnOk, map, reverse};
ghost use Rattle.ll_trace.specs.Picks.{ArePicks, GivesPick, level_of_part};

use ll_bank::OutOfMemory;
use ll_laws::{Part, Rule};
use std::alloc::{AllocError, Global};

/// A label that a clause step picks, and at which level: how many times a `bang` or an unbounded premise lies above.
#[derive(Clone, Copy)]
pub(crate) struct Pick {
    pub(crate) label: u32,
    pub(crate) level: usize,
}

/// What each node picks, for the nodes of a tree in prefix order.
pub(crate) fn picks(alloc: Global, rules: &[Rule]) -> Result<Vec<Option<Pick>>, OutOfMemory>
    ensures { IfOk result (λ picks. ArePicks rules.now picks.items) }
{
    let mut picks = Vec::new(alloc);
    let mut pending = Vec::new(alloc);
    pending.push(0)?;
    for rule in rules {
        let level = pending.pop().unwrap_or(0);
        let pick = pick_of(rule, level, &mut pending)?;
        picks.push(pick)?;
    }
    Ok(picks)
}

// What a node of a level picks. The levels of the trees below it are then the next ones that are pending.
fn pick_of(rule: &Rule, level: usize, pending: &mut Vec<usize>) -> Result<Option<Pick>, OutOfMemory>
    ensures { IfOk result (λ pick. GivesPick rule.now level pending.old.items pending.new.items pick) }
{
    match rule {
        Rule::One | Rule::Erase => Ok(None),
        Rule::Num => Ok(None),
        Rule::Tensor(_, _) | Rule::With => {
            pending.push(level)?;
            pending.push(level)?;
            Ok(None)
        }
        Rule::Bang => {
            let below = deeper(level)?;
            pending.push(below)?;
            Ok(None)
        }
        Rule::Clause { label, parts, .. } => {
            push_levels(parts, level, pending)?;
            Ok(Some(Pick {
                label: *label,
                level,
            }))
        }
        Rule::Left | Rule::Right | Rule::Use => {
            pending.push(level)?;
            Ok(None)
        }
        Rule::Lolli(_) | Rule::Imp(_) | Rule::Forall(_) => {
            pending.push(level)?;
            Ok(None)
        }
        Rule::Exists(_) => {
            pending.push(level)?;
            Ok(None)
        }
    }
}

// The next level. No list of nodes that fits in memory has more levels than a `usize` counts.
pub(crate) fn deeper(level: usize) -> Result<usize, OutOfMemory>
    ensures { IfOk result (λ next. next ≡ level + 1) }
{
    match level.checked_add(1) {
        Some(next) => Ok(next),
        None => Err(AllocError),
    }
}

// Makes the levels of the premises' trees pending, the first one next.
fn push_levels(parts: &[Part], level: usize, pending: &mut Vec<usize>) -> Result<(), OutOfMemory>
    ensures { OnOk result (pending.new.items ≡ pending.old.items ++ reverse (map (level_of_part level) parts.now)) }
{
    for index in (0..parts.len()).rev() {
        let below = level_below(&parts[index], level)?;
        pending.push(below)?;
    }
    Ok(())
}

// The level of a premise's tree.
fn level_below(part: &Part, level: usize) -> Result<usize, OutOfMemory>
    ensures { IfOk result (λ below. below ≡ level_of_part level part.now) }
{
    match part {
        Part::Bounded(_) => Ok(level),
        Part::Unbounded => deeper(level),
    }
}
