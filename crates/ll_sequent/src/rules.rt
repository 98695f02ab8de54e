//! The rules of nodes.
ghost use Rattle.std.specs.Prelude.{◌≡◌, true, map, length, IfOk};
ghost use Rattle.ll_bank.specs.Nodes.{AllInTerms, Extends};
ghost use Rattle.ll_laws.specs.Number.{operators_of};
ghost use Rattle.ll_laws.specs.Shown.{module_tree, HasModules};
ghost use Rattle.ll_laws.specs.Line.{is_line};
ghost use Rattle.ll_sequent.specs.Copied.{IsLineBelow, copied_line};
ghost use Rattle.ll_sequent.specs.Judging.{AreModulesSound, Holds, IsStep};
ghost use Rattle.ll_sequent.specs.Sequents.{sequent_in};

use crate::clauses::clause;
use crate::copies::{copies_at, copy_at};
use crate::loads::{imp, lolli};
use crate::numbers::num;
use crate::opening::{exists, forall, load};
use crate::plain::{bang, erase, left, one, right, tensor, with};
use crate::sequents::{Resource, Sequent, Step};
use ll_bank::{At, Bank, Names, OutOfMemory};
use ll_laws::{Module, Rule};
use std::alloc::Global;

/// What a node makes of its sequent, with copies of its terms.
pub(crate) fn step(
    alloc: Global,
    bank: &mut Bank,
    names: &Names,
    modules: &[Module],
    copies: &[At],
    rule: &Rule,
    free: &mut Vec<Resource>,
    sequent: Sequent,
) -> Result<Step, OutOfMemory>
    requires has { HasModules bank.old modules.now }
    requires modules { AreModulesSound (map (module_tree bank.old) modules.now) }
    requires holds { Holds (map (module_tree bank.old) modules.now) bank.old free.old.items sequent }
    requires inside { AllInTerms bank.old copies.now }
    requires reach { IsLineBelow (length copies.now) rule.now }
    requires line { is_line (copied_line bank.old copies.now rule.now) ≡ true }
    ensures is { IfOk result (IsStep (operators_of names.now) (map (module_tree bank.old) modules.now)
        (copied_line bank.old copies.now rule.now)
        (sequent_in bank.old free.old.items sequent) bank.new free.old.items free.new.items) }
    ensures keeps { Extends bank.old bank.new }
{
    match rule {
        Rule::One => Ok(one(alloc, bank, sequent)),
        Rule::Erase => Ok(erase(alloc, bank, sequent)),
        Rule::Tensor(left, right) => tensor(alloc, bank, left, right, sequent),
        Rule::With => with(alloc, bank, sequent),
        Rule::Left => left(alloc, bank, sequent),
        Rule::Right => right(alloc, bank, sequent),
        Rule::Bang => bang(alloc, bank, sequent),
        Rule::Lolli(label) => lolli(alloc, bank, free, *label, sequent),
        Rule::Imp(label) => imp(alloc, bank, free, *label, sequent),
        Rule::Forall(constant) => forall(alloc, bank, *constant, free, sequent),
        Rule::Exists(term) => {
            let value = copy_at(copies, *term);
            exists(alloc, bank, value, sequent)
        }
        Rule::Use => load(alloc, bank, modules, sequent),
        Rule::Num => num(alloc, bank, names, sequent),
        Rule::Clause {
            label,
            leaf,
            terms,
            parts,
        } => {
            let values = copies_at(alloc, copies, terms)?;
            clause(
                alloc, bank, modules, *label, *leaf, &values, parts, free, sequent,
            )
        }
    }
}
