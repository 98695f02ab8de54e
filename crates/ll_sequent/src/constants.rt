//! Where eigenvariables stand.
ghost use Rattle.std.specs.Prelude.{◌≡◌, ℕ, ◌++◌, ◌∷◌, [], ◌||◌, IfOk, OnOk, MatchOption, true, nat_eq};
ghost use Rattle.std.specs.List.{list_any};
ghost use Rattle.std.specs.Ordering.{nat_cmp};
ghost use Rattle.std.specs.BTreeSet.{contains};
ghost use Rattle.ll_bank.specs.Term.{is_eigen, has_eigen};
ghost use Rattle.ll_bank.specs.Form.{form_has_eigen};
ghost use Rattle.ll_bank.specs.Nodes.{term_tree, form_tree, places, HasTerm, HasForm, AllInTerms};
ghost use Rattle.ll_sequent.specs.Constants.{is_in_each, forms_of, stands_in, AllInForms, AreWithin, Gathers, IsOpenedUp, IsFoundAmong, ArePartsOf};

use crate::sequents::Resource;
use ll_bank::{At, Bank, FormAt, FormNode, Head, OutOfMemory, TermView};
use std::alloc::Global;
use std::collections::BTreeSet;

/// Whether the eigenvariable stands in a goal, in an unbounded clause or in a bounded one. Terms that are shared are looked at once.
pub(crate) fn stands(
    alloc: Global,
    bank: &Bank,
    constant: u32,
    goal: FormAt,
    free: &[Resource],
    bounded: &[Resource],
) -> Result<bool, OutOfMemory>
    requires goal { HasForm bank.now goal.0 }
    requires free { AllInForms bank.now (forms_of free.now) }
    requires bounded { AllInForms bank.now (forms_of bounded.now) }
    ensures { IfOk result (λ found. found ≡ stands_in constant bank.now goal free.now bounded.now) }
{
    let mut terms = BTreeSet::new(alloc);
    gather(alloc, bank, goal, &mut terms)?;
    gather_all(alloc, bank, free, &mut terms)?;
    gather_all(alloc, bank, bounded, &mut terms)?;
    is_in_terms(bank, constant, terms)
}

// Puts the terms of clauses among those that are to be looked at. After a refusal some of them may be there.
fn gather_all(
    alloc: Global,
    bank: &Bank,
    clauses: &[Resource],
    terms: &mut BTreeSet<usize>,
) -> Result<(), OutOfMemory>
    requires { AllInForms bank.now (forms_of clauses.now) }
    ensures { OnOk result (Gathers bank.now (contains nat_cmp terms.old) (contains nat_cmp terms.new)
        (λ c. is_in_each c bank.now (forms_of clauses.now))) }
{
    for each in clauses {
        gather(alloc, bank, each.form, terms)?;
    }
    Ok(())
}

// Puts the terms of a formula among those that are to be looked at. After a refusal some of them may be there.
fn gather(
    alloc: Global,
    bank: &Bank,
    form: FormAt,
    terms: &mut BTreeSet<usize>,
) -> Result<(), OutOfMemory>
    requires { HasForm bank.now form.0 }
    ensures { OnOk result (Gathers bank.now (contains nat_cmp terms.old) (contains nat_cmp terms.new)
        (λ c. form_has_eigen c (form_tree bank.now form.0))) }
{
    let mut waiting = Vec::new(alloc);
    waiting.push(form)?;
    while let Some(next) = waiting.pop() {
        look_into(bank, next, &mut waiting, terms)?;
    }
    Ok(())
}

// Puts the terms of a formula among those that are to be looked at, and the formulas inside behind those that wait.
fn look_into(
    bank: &Bank,
    form: FormAt,
    waiting: &mut Vec<FormAt>,
    terms: &mut BTreeSet<usize>,
) -> Result<(), OutOfMemory>
    requires { HasForm bank.now form.0 }
    ensures { OnOk result (IsOpenedUp bank.now form.0 waiting.old.items waiting.new.items (contains nat_cmp terms.old)
        (contains nat_cmp terms.new)) }
{
    match bank.form_at(form) {
        FormNode::Top => Ok(()),
        FormNode::One => Ok(()),
        FormNode::Atom(term) => insert_all(terms, &[term]),
        FormNode::With(f, g) => wait_for(f, g, waiting),
        FormNode::Tensor(f, g) => wait_for(f, g, waiting),
        FormNode::Plus(f, g) => wait_for(f, g, waiting),
        FormNode::Bang(f) => wait_for_one(f, waiting),
        FormNode::Lolli(f, g) => wait_for(f, g, waiting),
        FormNode::Imp(f, g) => wait_for(f, g, waiting),
        FormNode::Forall(f) => wait_for_one(f, waiting),
        FormNode::Exists(f) => wait_for_one(f, waiting),
        FormNode::Use(_, args, f) => {
            insert_all(terms, args)?;
            wait_for_one(f, waiting)
        }
        FormNode::Is(left, right) => insert_all(terms, &[left, right]),
        FormNode::Less(left, right) => insert_all(terms, &[left, right]),
        FormNode::Most(left, right) => insert_all(terms, &[left, right]),
    }
}

// Puts two formulas behind those that wait.
fn wait_for(left: FormAt, right: FormAt, waiting: &mut Vec<FormAt>) -> Result<(), OutOfMemory>
    ensures { OnOk result (waiting.new.items ≡ waiting.old.items ++ left ∷ right ∷ []) }
{
    waiting.extend_from_slice(&[left, right])
}

// Puts a formula behind those that wait.
fn wait_for_one(form: FormAt, waiting: &mut Vec<FormAt>) -> Result<(), OutOfMemory>
    ensures { OnOk result (waiting.new.items ≡ waiting.old.items ++ form ∷ []) }
{
    waiting.extend_from_slice(&[form])
}

// Puts places among others. After a refusal some of them may be there.
fn insert_all(terms: &mut BTreeSet<usize>, more: &[At]) -> Result<(), OutOfMemory>
    ensures { OnOk result ((at : ℕ) → contains nat_cmp terms.new at
        ≡ (contains nat_cmp terms.old at || list_any (nat_eq at) (places more.now))) }
{
    for place in more {
        terms.insert(place.0)?;
    }
    Ok(())
}

// Whether the eigenvariable stands in a term at one of these places.
fn is_in_terms(bank: &Bank, constant: u32, mut terms: BTreeSet<usize>) -> Result<bool, OutOfMemory>
    requires { AreWithin bank.now (contains nat_cmp terms) }
    ensures { IfOk result (IsFoundAmong constant bank.now (contains nat_cmp terms)) }
{
    // Arguments lie at lower places, so the greatest place that waits has been met by all that it is an argument of.
    while let Some(place) = terms.pop_last() {
        let Some(args) = parts(bank, constant, At(place)) else {
            return Ok(true);
        };
        insert_all(&mut terms, args)?;
    }
    Ok(false)
}

// The arguments of a term; none where its head is the eigenvariable.
fn parts(bank: &Bank, constant: u32, at: At) -> Option<&[At]>
    requires { HasTerm bank.now at.0 }
    ensures { MatchOption result (has_eigen constant (term_tree bank.now at.0) ≡ true)
        (λ args. ArePartsOf constant bank.now at.0 args.now) }
{
    match bank.term_at(at) {
        TermView::Var(_) => Some(&[]),
        TermView::Int(_) => Some(&[]),
        TermView::App(head, args) => {
            if is_constant(constant, head) {
                return None;
            }
            Some(args)
        }
    }
}

// Whether a head is the eigenvariable.
fn is_constant(constant: u32, head: Head) -> bool
    ensures { result ≡ is_eigen constant head }
{
    match head {
        Head::Eigen(number) => constant == number,
        Head::Name(_) => false,
        Head::Bound(_) => false,
    }
}
