//! The rules that load a clause.
ghost use Rattle.std.specs.Prelude.{◌≡◌, IfOk};
ghost use Rattle.ll_bank.specs.Nodes.{HasForm};
ghost use Rattle.ll_laws.specs.Line.{LolliLine, ImpLine};
ghost use Rattle.ll_sequent.specs.Judging.{Steps};

use crate::labels::is_new;
use crate::plain::{OTHER_FORM, leave_one};
use crate::sequents::{Resource, Sequent, Step};
use ll_bank::{Bank, FormNode, OutOfMemory};
use std::alloc::Global;

/// The label is that of a clause that is here.
const LABEL_NOT_NEW: u8 = 9;

/// `R -o G`: R comes behind the bounded clauses.
pub(crate) fn lolli(
    alloc: Global,
    bank: &Bank,
    free: &[Resource],
    label: u32,
    sequent: Sequent,
) -> Result<Step, OutOfMemory>
    requires { HasForm bank.now sequent.goal.0 }
    ensures { IfOk result (Steps (LolliLine label) bank.now free.now sequent bank.now free.now) }
{
    match bank.form_at(sequent.goal) {
        FormNode::Lolli(clause, goal) => {
            if !is_new(label, free, &sequent.bounded) {
                return Ok(Step::Refused(LABEL_NOT_NEW));
            }
            let mut bounded = sequent.bounded;
            bounded.push(Resource {
                label,
                form: clause,
            })?;
            let premise = Sequent {
                free: sequent.free,
                bounded,
                goal,
            };
            leave_one(alloc, premise)
        }
        _ => Ok(Step::Refused(OTHER_FORM)),
    }
}

/// `R => G`: R comes in front of the unbounded clauses.
pub(crate) fn imp(
    alloc: Global,
    bank: &Bank,
    free: &mut Vec<Resource>,
    label: u32,
    sequent: Sequent,
) -> Result<Step, OutOfMemory>
    requires { HasForm bank.now sequent.goal.0 }
    ensures { IfOk result (Steps (ImpLine label) bank.now free.old.items sequent bank.now free.new.items) }
{
    match bank.form_at(sequent.goal) {
        FormNode::Imp(clause, goal) => {
            if !is_new(label, free, &sequent.bounded) {
                return Ok(Step::Refused(LABEL_NOT_NEW));
            }
            free.push(Resource {
                label,
                form: clause,
            })?;
            let premise = Sequent {
                free: free.len(),
                bounded: sequent.bounded,
                goal,
            };
            leave_one(alloc, premise)
        }
        _ => Ok(Step::Refused(OTHER_FORM)),
    }
}
