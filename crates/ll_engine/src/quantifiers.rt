//! Inferences that open a quantifier or load a module. After a refusal the machine is spent.
ghost use Rattle.std.specs.Prelude.{◌≡◌, ◌<◌, ◌^◌, true, length, OnOk};
ghost use Rattle.ll_bank.specs.declared.Head.TheVariants.{Eigen};
ghost use Rattle.ll_bank.specs.Term.{Var as VarTerm, Con};
ghost use Rattle.ll_bank.specs.Form.{instantiate, form_applies_heads};
ghost use Rattle.ll_bank.specs.Nodes.{AllInTerms, HasForm, form_tree, term_trees};
ghost use Rattle.ll_laws.specs.Shown.{HasClauses};
ghost use Rattle.ll_modules.specs.Loads.{AreClosed, MayLoad};
ghost use Rattle.ll_agenda.specs.Frames.{HasTop, items_at};
ghost use Rattle.ll_freeze.specs.Parts.{parts_of, Later};
ghost use Rattle.ll_engine.specs.Rows.{OpensForall, OpensExists, Loads};

use crate::attempt::go_on;
use ll_agenda::Top;
use ll_bank::{At, FormAt, Head, OutOfMemory};
use ll_freeze::{Item, Machine};
use ll_laws::{Module, Step};
use ll_modules::unfold;

/// Puts the body of a `forall` in front of the rest, with the next eigenvariable in place of its bound place.
pub fn take_forall(machine: &mut Machine<'_>, body: FormAt, rest: Top) -> Result<(), OutOfMemory>
    requires rest { HasTop machine.old.agenda rest }
    requires left { 0 < machine.old.left }
    requires eigens { machine.old.eigens < 2 ^ 20 }
    requires body { HasForm machine.old.store.bank body.0 }
    requires heads { form_applies_heads
        (instantiate (form_tree machine.old.store.bank body.0) (Con (Eigen machine.old.eigens))) ≡ true }
    ensures opens { OnOk result (OpensForall (parts_of machine.old) body (items_at machine.old.agenda rest)
        (parts_of machine.new)) }
    ensures later { OnOk result (Later machine.old machine.new) }
{
    let value = machine.store.bank.app(Head::Eigen(machine.eigens), &[])?;
    let goal = machine.store.bank.instantiate(body, value)?;
    machine.eigens += 1;
    go_on(machine, &[Item::closed(goal)], rest, Step::Plain)?;
    Ok(())
}

/// Puts the body of an `exists` in front of the rest, with the next variable in place of its bound place.
pub fn take_exists(machine: &mut Machine<'_>, body: FormAt, rest: Top) -> Result<(), OutOfMemory>
    requires rest { HasTop machine.old.agenda rest }
    requires left { 0 < machine.old.left }
    requires body { HasForm machine.old.store.bank body.0 }
    requires heads { form_applies_heads
        (instantiate (form_tree machine.old.store.bank body.0) (VarTerm (length (parts_of machine.old).levels)))
        ≡ true }
    ensures opens { OnOk result (OpensExists (parts_of machine.old) body (items_at machine.old.agenda rest)
        (parts_of machine.new)) }
    ensures later { OnOk result (Later machine.old machine.new) }
{
    let number = machine.store.fresh(machine.eigens)?;
    let value = machine.store.bank.var(number)?;
    let goal = machine.store.bank.instantiate(body, value)?;
    machine.terms.push(value)?;
    go_on(machine, &[Item::closed(goal)], rest, Step::Plain)?;
    Ok(())
}

/// Puts the goal that a load of a module with these arguments stands for in front of the rest.
pub fn take_load(
    machine: &mut Machine<'_>,
    module: &Module,
    args: &[At],
    body: FormAt,
    rest: Top,
) -> Result<(), OutOfMemory>
    requires rest { HasTop machine.old.agenda rest }
    requires left { 0 < machine.old.left }
    requires args { AllInTerms machine.old.store.bank args.now }
    requires body { HasForm machine.old.store.bank body.0 }
    requires count { length args.now ≡ «module».now.params }
    requires closed { AreClosed (term_trees machine.old.store.bank args.now) }
    requires clauses { HasClauses machine.old.store.bank «module».now.clauses.items }
    requires heads { MayLoad machine.old.store.bank «module».now.clauses.items
        (term_trees machine.old.store.bank args.now) }
    ensures loads { OnOk result (Loads (parts_of machine.old) «module».now args.now body
        (items_at machine.old.agenda rest) (parts_of machine.new)) }
    ensures later { OnOk result (Later machine.old machine.new) }
{
    let goal = unfold(&mut machine.store.bank, module, args, body)?;
    go_on(machine, &[Item::closed(goal)], rest, Step::Plain)?;
    Ok(())
}
