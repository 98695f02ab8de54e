//! The rules that open a formula.
ghost use Rattle.std.specs.Prelude.{◌≡◌, List, [], true, map, IfOk};
ghost use Rattle.ll_bank.specs.Term.{is_closed};
ghost use Rattle.ll_bank.specs.Nodes.{form_tree, term_tree, HasForm, HasTerm, Extends};
ghost use Rattle.ll_laws.specs.Number.{Operators};
ghost use Rattle.ll_laws.specs.Shown.{module_tree, HasModules};
ghost use Rattle.ll_laws.specs.Line.{ForallLine, ExistsLine, UseLine};
ghost use Rattle.ll_laws.specs.Valid.{GoalSide, has_heads};
ghost use Rattle.ll_sequent.specs.Constants.{forms_of, AllInForms};
ghost use Rattle.ll_sequent.specs.Judging.{Steps, AreModulesSound, Holds, IsStep, StepsOver};
ghost use Rattle.ll_sequent.specs.Sequents.{IsSequent, sequent_in};
ghost use Rattle.ll_sequent.specs.declared.sequents.Resource.{Resource};

use crate::constants::stands;
use crate::plain::{OTHER_FORM, leave_one};
use crate::sequents::{Resource, Sequent, Step};
use ll_bank::{At, Bank, FormNode, Head, OutOfMemory};
use ll_laws::Module;
use ll_modules::unfold;
use std::alloc::Global;

/// The constant stands in the goal or in a clause.
const CONSTANT_NOT_NEW: u8 = 10;

/// `forall x\ G` with an eigenvariable in place of x.
pub(crate) fn forall(
    alloc: Global,
    bank: &mut Bank,
    constant: u32,
    free: &[Resource],
    sequent: Sequent,
) -> Result<Step, OutOfMemory>
    requires goal { HasForm bank.old sequent.goal.0 }
    requires heads { has_heads true GoalSide [] (form_tree bank.old sequent.goal.0) ≡ true }
    requires free { AllInForms bank.old (forms_of free.now) }
    requires bounded { AllInForms bank.old (forms_of sequent.bounded.items) }
    ensures is { IfOk result (Steps (ForallLine constant) bank.old free.now sequent bank.new free.now) }
    ensures keeps { Extends bank.old bank.new }
{
    match bank.form_at(sequent.goal) {
        FormNode::Forall(body) => {
            if stands(alloc, bank, constant, body, free, &sequent.bounded)? {
                return Ok(Step::Refused(CONSTANT_NOT_NEW));
            }
            let value = bank.app(Head::Eigen(constant), &[])?;
            let goal = bank.instantiate(body, value)?;
            let premise = Sequent {
                free: sequent.free,
                bounded: sequent.bounded,
                goal,
            };
            leave_one(alloc, premise)
        }
        _ => Ok(Step::Refused(OTHER_FORM)),
    }
}

/// `exists x\ G` with a term in place of x.
pub(crate) fn exists(
    alloc: Global,
    bank: &mut Bank,
    value: At,
    sequent: Sequent,
) -> Result<Step, OutOfMemory>
    requires goal { HasForm bank.old sequent.goal.0 }
    requires heads { has_heads true GoalSide [] (form_tree bank.old sequent.goal.0) ≡ true }
    requires inside { HasTerm bank.old value.0 }
    requires closed { is_closed (term_tree bank.old value.0) ≡ true }
    ensures is { IfOk result (StepsOver (ExistsLine (term_tree bank.old value.0)) bank.old sequent bank.new) }
    ensures keeps { Extends bank.old bank.new }
{
    match bank.form_at(sequent.goal) {
        FormNode::Exists(body) => {
            let goal = bank.instantiate(body, value)?;
            let premise = Sequent {
                free: sequent.free,
                bounded: sequent.bounded,
                goal,
            };
            leave_one(alloc, premise)
        }
        _ => Ok(Step::Refused(OTHER_FORM)),
    }
}

/// A module load, by the goal that it stands for.
pub(crate) fn load(
    alloc: Global,
    bank: &mut Bank,
    modules: &[Module],
    sequent: Sequent,
) -> Result<Step, OutOfMemory>
    requires has { HasModules bank.old modules.now }
    requires modules { AreModulesSound (map (module_tree bank.old) modules.now) }
    requires sequent { IsSequent (map (module_tree bank.old) modules.now) bank.old sequent }
    ensures is { IfOk result (λ step. (ops : Operators) (free : List Resource)
        → Holds (map (module_tree bank.old) modules.now) bank.old free sequent
        → IsStep ops (map (module_tree bank.old) modules.now) UseLine
        (sequent_in bank.old free sequent) bank.new free free step) }
    ensures keeps { Extends bank.old bank.new }
{
    match bank.form_at(sequent.goal) {
        FormNode::Use(number, args, body) => {
            let Some(module) = modules.get(number as usize) else {
                return Ok(Step::Refused(OTHER_FORM));
            };
            let args = Vec::from_slice(alloc, args)?;
            let goal = unfold(bank, module, &args, body)?;
            let premise = Sequent {
                free: sequent.free,
                bounded: sequent.bounded,
                goal,
            };
            leave_one(alloc, premise)
        }
        _ => Ok(Step::Refused(OTHER_FORM)),
    }
}
