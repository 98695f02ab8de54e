//! The premises of a leaf, and the sequents that they become.
ghost use Rattle.std.specs.Prelude.{◌≡◌, ◌∷◌, [], map, length, IfOk};
ghost use Rattle.ll_bank.specs.Nodes.{Nodes, HasForm, ShowsForm, Extends};
ghost use Rattle.ll_laws.specs.Fault.{parts_fit};
ghost use Rattle.ll_laws.specs.Leaf.{premise_goal};
ghost use Rattle.ll_laws.specs.ShownLines.{part_line};
ghost use Rattle.ll_sequent.specs.Constants.{AllInForms};
ghost use Rattle.ll_sequent.specs.Opened.{needed_in, needed_at, AreNeeded, form_trees, IsDealt};
ghost use Rattle.ll_sequent.specs.Steps.{blank};

use crate::labels::{are_labels_of, part_of, rest_of};
use crate::leaves::Needed;
use crate::plain::NOT_DEALT;
use crate::sequents::{Resource, Sequent, Step};
use ll_bank::{Bank, FormAt, FormNode, OutOfMemory};
use ll_laws::Part;
use std::alloc::Global;

/// Whether the parts of a node are as many as the premises of a leaf, and of their kinds.
pub(crate) fn fit(parts: &[Part], premises: &[Needed]) -> bool
    ensures { (bank : Nodes) → result ≡ parts_fit (blank (map part_line parts.now))
        (map (needed_in bank) premises.now) }
{
    if parts.len() != premises.len() {
        return false;
    }
    for i in 0..parts.len() {
        if !is_of_kind(&parts[i], premises[i]) {
            return false;
        }
    }
    true
}

/// Whether a part and a premise are both bounded or both unbounded.
fn is_of_kind(part: &Part, premise: Needed) -> bool
    ensures { (bank : Nodes) → result ≡ parts_fit (blank (part_line part.now ∷ [])) (needed_in bank premise ∷ []) }
{
    match part {
        Part::Bounded(_) => match premise {
            Needed::Bounded(_) => true,
            Needed::Unbounded(_) => false,
        },
        Part::Unbounded => match premise {
            Needed::Bounded(_) => false,
            Needed::Unbounded(_) => true,
        },
    }
}

/// The goals by which premises are proved.
pub(crate) fn goals_of(
    alloc: Global,
    bank: &mut Bank,
    premises: &[Needed],
) -> Result<Vec<FormAt>, OutOfMemory>
    requires { AreNeeded bank.old premises.now }
    ensures inside { IfOk result (λ goals. AllInForms bank.new goals.items) }
    ensures shows { IfOk result (λ goals. form_trees bank.new goals.items
        ≡ map premise_goal (map (needed_in bank.old) premises.now)) }
    ensures keeps { Extends bank.old bank.new }
{
    let mut goals = Vec::new(alloc);
    for premise in premises {
        let goal = goal_of(bank, *premise)?;
        goals.push(goal)?;
    }
    Ok(goals)
}

/// The goal by which a premise is proved.
fn goal_of(bank: &mut Bank, premise: Needed) -> Result<FormAt, OutOfMemory>
    requires { HasForm bank.old (needed_at premise).0 }
    ensures shows { IfOk result (λ goal. ShowsForm bank.new goal.0 (premise_goal (needed_in bank.old premise))) }
    ensures keeps { Extends bank.old bank.new }
{
    match premise {
        Needed::Bounded(goal) => Ok(goal),
        Needed::Unbounded(goal) => bank.form(FormNode::Bang(goal)),
    }
}

/// The sequents of goals over unbounded clauses, each with the bounded clauses that its part names, if these are dealt out.
pub(crate) fn dealt(
    alloc: Global,
    parts: &[Part],
    goals: &[FormAt],
    free: usize,
    bounded: Vec<Resource>,
) -> Result<Step, OutOfMemory>
    requires { length parts.now ≡ length goals.now }
    ensures { IfOk result (IsDealt (map part_line parts.now) goals.now free bounded.items) }
{
    let mut left = bounded;
    let mut sequents = Vec::new(alloc);
    for i in 0..parts.len() {
        let goal = goals[i];
        let bounded = match &parts[i] {
            Part::Bounded(labels) => {
                if !are_labels_of(labels, &left) {
                    return Ok(Step::Refused(NOT_DEALT));
                }
                let part = part_of(alloc, labels, &left)?;
                left = rest_of(alloc, labels, &left)?;
                part
            }
            Part::Unbounded => Vec::new(alloc),
        };
        sequents.push(Sequent {
            free,
            bounded,
            goal,
        })?;
    }
    if left.is_empty() {
        Ok(Step::Leaves(sequents))
    } else {
        Ok(Step::Refused(NOT_DEALT))
    }
}
