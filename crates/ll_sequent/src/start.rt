//! The sequent of a query.
ghost use Rattle.std.specs.Prelude.{◌≡◌, ◌<◌, ◌^◌, List, true, map, length, reverse, All, IfOk};
ghost use Rattle.std.specs.List.{list_all};
ghost use Rattle.ll_bank.specs.Term.{is_closed};
ghost use Rattle.ll_bank.specs.Form.{sub_form};
ghost use Rattle.ll_bank.specs.Nodes.{form_tree, term_trees, HasForm, AllInTerms, ShowsForm, Extends};
ghost use Rattle.ll_laws.specs.declared.Kind.TheVariants.{Linear, Unbounded};
ghost use Rattle.ll_laws.specs.Module.{ModuleTree};
ghost use Rattle.ll_laws.specs.Shown.{clause_tree, HasClauses};
ghost use Rattle.ll_laws.specs.ShownLines.{line_of, HasLines};
ghost use Rattle.ll_laws.specs.Verdict.{same_kind};
ghost use Rattle.ll_sequent.specs.Copied.{AreBelow, IsLineBelow, copied_line, copied_places};
ghost use Rattle.ll_sequent.specs.Starting.{AreSound, IsRoot, of_kind as of_kind_of, values as values_of};

use crate::copies::{copies_at, copies_of};
use crate::sequents::{Resource, Sequent, Start};
use crate::substitution::substituted;
use ll_bank::{At, Bank, FormAt, OutOfMemory};
use ll_laws::{Clause, Kind, Rule};
use std::alloc::Global;

/// The root: the program's clauses, by their places in the text, and the query with terms in place of its variables. The terms of the nodes
/// are copied too.
pub(crate) fn started(
    alloc: Global,
    bank: &Bank,
    clauses: &[Clause],
    goal: FormAt,
    terms: &Bank,
    asked: &[At],
    rules: &[Rule],
) -> Result<Start, OutOfMemory>
    requires clauses { HasClauses bank.now clauses.now }
    requires count { length clauses.now < 2 ^ 32 }
    requires goal { HasForm bank.now goal.0 }
    requires asked { AllInTerms terms.now asked.now }
    requires closed { list_all is_closed (term_trees terms.now asked.now) ≡ true }
    requires lines { HasLines terms.now rules.now }
    ensures root { IfOk result (λ start. (modules : List ModuleTree)
        → AreSound modules (map (clause_tree bank.now) clauses.now) (form_tree bank.now goal.0)
        → IsRoot modules (map (clause_tree bank.now) clauses.now) (form_tree bank.now goal.0)
        (term_trees terms.now asked.now) start) }
    ensures keeps { IfOk result (λ start. Extends bank.now start.bank) }
    ensures inside { IfOk result (λ start. AllInTerms start.bank start.copies.items) }
    ensures reach { IfOk result (λ start. All (IsLineBelow (length start.copies.items)) rules.now) }
    ensures lines { IfOk result (λ start. map (copied_line start.bank start.copies.items) rules.now
        ≡ map (line_of terms.now) rules.now) }
{
    let mut own = bank.image(bank.size())?;
    let copies = copies_of(alloc, terms, asked, rules, &mut own)?;
    let goal = asked_goal(alloc, &mut own, &copies, asked, goal)?;
    let (free, bounded) = program_of(alloc, clauses)?;
    let root = Sequent {
        free: free.len(),
        bounded,
        goal,
    };
    Ok(Start {
        bank: own,
        copies,
        free,
        root,
    })
}

/// The query with copies of terms in place of its variables.
fn asked_goal(
    alloc: Global,
    bank: &mut Bank,
    copies: &[At],
    asked: &[At],
    goal: FormAt,
) -> Result<FormAt, OutOfMemory>
    requires goal { HasForm bank.old goal.0 }
    requires copies { AllInTerms bank.old copies.now }
    requires asked { AreBelow (length copies.now) asked.now }
    ensures shows { IfOk result (λ image. ShowsForm bank.new image.0
        (sub_form (values_of (term_trees bank.old (copied_places copies.now asked.now))) (form_tree bank.old goal.0))) }
    ensures keeps { Extends bank.old bank.new }
{
    let values = copies_at(alloc, copies, asked)?;
    substituted(alloc, bank, goal, &values)
}

/// The program's clauses: the unbounded ones, of which the first stands last, and the bounded ones.
fn program_of(
    alloc: Global,
    clauses: &[Clause],
) -> Result<(Vec<Resource>, Vec<Resource>), OutOfMemory>
    requires { length clauses.now < 2 ^ 32 }
    ensures unbounded { IfOk result (λ found. found.0.items ≡ reverse (of_kind_of Unbounded 0 clauses.now)) }
    ensures bounded { IfOk result (λ found. found.1.items ≡ of_kind_of Linear 0 clauses.now) }
{
    let mut unbounded = of_kind(alloc, clauses, Kind::Unbounded)?;
    unbounded.reverse();
    let bounded = of_kind(alloc, clauses, Kind::Linear)?;
    Ok((unbounded, bounded))
}

/// The clauses of one kind, with their places in the text as labels.
fn of_kind(alloc: Global, clauses: &[Clause], kind: Kind) -> Result<Vec<Resource>, OutOfMemory>
    requires { length clauses.now < 2 ^ 32 }
    ensures { IfOk result (λ found. found.items ≡ of_kind_of kind 0 clauses.now) }
{
    let mut found = Vec::new(alloc);
    for (label, clause) in clauses.iter().enumerate() {
        if is_same(kind, clause.kind) {
            found.push(Resource {
                label: label as u32,
                form: clause.form,
            })?;
        }
    }
    Ok(found)
}

/// Whether two kinds are one.
fn is_same(kind: Kind, other: Kind) -> bool
    ensures { result ≡ same_kind kind other }
{
    match kind {
        Kind::Linear => match other {
            Kind::Linear => true,
            Kind::Unbounded => false,
        },
        Kind::Unbounded => match other {
            Kind::Linear => false,
            Kind::Unbounded => true,
        },
    }
}
