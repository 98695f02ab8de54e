//! The rule of a clause.
ghost use Rattle.std.specs.Prelude.{◌≡◌, true, map, IfOk};
ghost use Rattle.std.specs.List.{list_all};
ghost use Rattle.ll_bank.specs.Term.{is_closed};
ghost use Rattle.ll_bank.specs.Nodes.{term_trees, AllInTerms, Extends};
ghost use Rattle.ll_laws.specs.Number.{Operators};
ghost use Rattle.ll_laws.specs.Shown.{module_tree, HasModules};
ghost use Rattle.ll_laws.specs.ShownLines.{part_line};
ghost use Rattle.ll_laws.specs.Line.{ClauseLine, part_rises};
ghost use Rattle.ll_sequent.specs.Judging.{Holds, IsStep};
ghost use Rattle.ll_sequent.specs.Sequents.{sequent_in};

use crate::finding::take_clause;
use crate::leaves::{leaves_left, open_leaf};
use crate::plain::OTHER_FORM;
use crate::premises::{dealt, fit, goals_of};
use crate::same::is_same;
use crate::sequents::{Resource, Sequent, Step};
use ll_bank::{At, Bank, FormNode, OutOfMemory};
use ll_laws::{Module, Part};
use std::alloc::Global;

/// No clause that is here has the label.
const NO_CLAUSE: u8 = 4;

/// The clause has no such leaf.
const NO_LEAF: u8 = 5;

/// The way to the leaf has another number of quantifiers.
const OTHER_WAY: u8 = 6;

/// The head is not the goal.
const OTHER_HEAD: u8 = 7;

/// The premises have another number or other kinds.
const OTHER_PREMISES: u8 = 8;

/// An atom by a leaf of a clause.
pub(crate) fn clause(
    alloc: Global,
    bank: &mut Bank,
    modules: &[Module],
    label: u32,
    leaf: u32,
    values: &[At],
    parts: &[Part],
    free: &[Resource],
    sequent: Sequent,
) -> Result<Step, OutOfMemory>
    requires has { HasModules bank.old modules.now }
    requires holds { Holds (map (module_tree bank.old) modules.now) bank.old free.now sequent }
    requires inside { AllInTerms bank.old values.now }
    requires closed { list_all is_closed (term_trees bank.old values.now) ≡ true }
    requires rising { list_all part_rises (map part_line parts.now) ≡ true }
    ensures is { IfOk result (λ step. (ops : Operators)
        → IsStep ops (map (module_tree bank.old) modules.now) (ClauseLine label leaf (term_trees bank.old values.now)
        (map part_line parts.now)) (sequent_in bank.old free.now sequent) bank.new free.now free.now step) }
    ensures keeps { Extends bank.old bank.new }
{
    let FormNode::Atom(atom) = bank.form_at(sequent.goal) else {
        return Ok(Step::Refused(OTHER_FORM));
    };
    let mut bounded = sequent.bounded;
    let Some(form) = take_clause(label, free, &mut bounded) else {
        return Ok(Step::Refused(NO_CLAUSE));
    };
    if leaves_left(alloc, bank, form, leaf)?.is_some() {
        return Ok(Step::Refused(NO_LEAF));
    }
    let Some(opened) = open_leaf(alloc, bank, form, leaf, values)? else {
        return Ok(Step::Refused(OTHER_WAY));
    };
    if !is_same(alloc, bank, opened.head, atom)? {
        return Ok(Step::Refused(OTHER_HEAD));
    }
    if !fit(parts, &opened.premises) {
        return Ok(Step::Refused(OTHER_PREMISES));
    }
    let goals = goals_of(alloc, bank, &opened.premises)?;
    dealt(alloc, parts, &goals, sequent.free, bounded)
}
