//! The goal that a load of a module stands for, and the value of an expression.
#![tactic(auto)]

mod evaluate;

ghost use Rattle.std.specs.Prelude.{◌≡◌, true, length, map, All, IfOk};
ghost use Rattle.ll_bank.specs.Form.{close_form, form_applies_heads};
ghost use Rattle.ll_bank.specs.Nodes.{term_tree, term_trees, form_tree, HasForm, AllInTerms, ShowsForm, Extends};
ghost use Rattle.ll_laws.specs.Module.{forall_all, load, load_all, unfold_load};
ghost use Rattle.ll_laws.specs.Shown.{clause_tree, module_tree, HasClauses};
ghost use Rattle.ll_modules.specs.Loads.{arguments_env, AreClosed, MayLoad};

pub use evaluate::value;
use ll_bank::{At, Bank, FormAt, FormNode, OutOfMemory};
use ll_laws::{Clause, Kind, Module};

/// The goal that a load of the module with these arguments stands for, round a goal: a `forall` for each local, and under them each
/// clause as a resource, the arguments in place of its parameters, the first clause of the text in front.
///
/// No bound place is free in the arguments. After a refusal the bank may have more places; every place that it had shows the same tree.
pub fn unfold(
    bank: &mut Bank,
    module: &Module,
    args: &[At],
    goal: FormAt,
) -> Result<FormAt, OutOfMemory>
    requires places { AllInTerms bank.old args.now }
    requires goal { HasForm bank.old goal.0 }
    requires count { length args.now ≡ «module».now.params }
    requires closed { AreClosed (term_trees bank.old args.now) }
    requires clauses { HasClauses bank.old «module».now.clauses.items }
    requires heads { MayLoad bank.old «module».now.clauses.items (term_trees bank.old args.now) }
    ensures shows { IfOk result (λ at. ShowsForm bank.new at.0
        (unfold_load (module_tree bank.old «module».now) (term_trees bank.old args.now) (form_tree bank.old goal.0))) }
    ensures keeps { Extends bank.old bank.new }
{
    let loaded = load_clauses(bank, &module.clauses, args, goal)?;
    quantified(bank, module.locals, loaded)
}

/// A formula under so many universal quantifiers.
fn quantified(bank: &mut Bank, count: u32, body: FormAt) -> Result<FormAt, OutOfMemory>
    requires { HasForm bank.old body.0 }
    ensures shows { IfOk result (λ at. ShowsForm bank.new at.0 (forall_all count (form_tree bank.old body.0))) }
    ensures keeps { Extends bank.old bank.new }
{
    let mut form = body;
    for _passed in 0..count {
        form = bank.form(FormNode::Forall(form))?;
    }
    Ok(form)
}

/// A goal with clauses loaded for it, the first one in front, the arguments in place of their parameters.
fn load_clauses(
    bank: &mut Bank,
    clauses: &[Clause],
    args: &[At],
    goal: FormAt,
) -> Result<FormAt, OutOfMemory>
    requires places { AllInTerms bank.old args.now }
    requires goal { HasForm bank.old goal.0 }
    requires closed { AreClosed (term_trees bank.old args.now) }
    requires clauses { HasClauses bank.old clauses.now }
    requires heads { MayLoad bank.old clauses.now (term_trees bank.old args.now) }
    ensures shows { IfOk result (λ at. ShowsForm bank.new at.0
        (load_all (arguments_env (term_trees bank.old args.now)) (map (clause_tree bank.old) clauses.now)
        (form_tree bank.old goal.0))) }
    ensures keeps { Extends bank.old bank.new }
{
    let mut at = goal;
    for i in (0..clauses.len()).rev() {
        at = load_clause(bank, clauses[i], args, at)?;
    }
    Ok(at)
}

/// A goal with one clause loaded for it, the arguments in place of its parameters.
fn load_clause(
    bank: &mut Bank,
    clause: Clause,
    args: &[At],
    goal: FormAt,
) -> Result<FormAt, OutOfMemory>
    requires form { HasForm bank.old clause.form.0 }
    requires goal { HasForm bank.old goal.0 }
    requires places { AllInTerms bank.old args.now }
    requires closed { AreClosed (term_trees bank.old args.now) }
    requires heads { form_applies_heads (close_form (arguments_env (term_trees bank.old args.now))
        (form_tree bank.old clause.form.0)) ≡ true }
    ensures shows { IfOk result (λ at. ShowsForm bank.new at.0
        (load clause.kind (close_form (arguments_env (term_trees bank.old args.now))
        (form_tree bank.old clause.form.0)) (form_tree bank.old goal.0))) }
    ensures keeps { Extends bank.old bank.new }
{
    let form = close_clause(bank, clause.form, args)?;
    match clause.kind {
        Kind::Linear => bank.form(FormNode::Lolli(form, goal)),
        Kind::Unbounded => bank.form(FormNode::Imp(form, goal)),
    }
}

/// A clause with the arguments in place of its parameters, of which the last one is innermost.
fn close_clause(bank: &mut Bank, form: FormAt, args: &[At]) -> Result<FormAt, OutOfMemory>
    requires form { HasForm bank.old form.0 }
    requires places { AllInTerms bank.old args.now }
    requires closed { AreClosed (term_trees bank.old args.now) }
    requires heads { form_applies_heads (close_form (arguments_env (term_trees bank.old args.now))
        (form_tree bank.old form.0)) ≡ true }
    ensures shows { IfOk result (λ at. ShowsForm bank.new at.0
        (close_form (arguments_env (term_trees bank.old args.now)) (form_tree bank.old form.0))) }
    ensures keeps { Extends bank.old bank.new }
{
    let mut at = form;
    for i in (0..args.len()).rev() {
        at = bank.instantiate(at, args[i])?;
    }
    Ok(at)
}
