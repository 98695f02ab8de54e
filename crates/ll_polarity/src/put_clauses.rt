//! Clauses, put into a bank with quantifiers for their variables.

ghost use Rattle.std.specs.Prelude.{◌≡◌, ◌*◌, ◌+◌, ◌^◌, ◌<◌, ◌≤◌, ℕ, List, [], None, length, map, All, IfOk};
ghost use Rattle.ll_bank.specs.Nodes.{HasForm, ShowsForm, form_tree, Extends};
ghost use Rattle.ll_laws.specs.Module.{forall_all};
ghost use Rattle.ll_laws.specs.Shown.{clause_tree, HasClauses};
ghost use Rattle.ll_laws.specs.Valid.{ClauseSide};
ghost use Rattle.ll_parser.specs.Nodes.{raw_at, shown_clause};
ghost use Rattle.ll_parser.specs.Weights.{weight, clauses_weight};
ghost use Rattle.ll_polarity.specs.Asks.{kind_of as kind_by, read_clause, read_clauses};
ghost use Rattle.ll_polarity.specs.Faults.{Heading, form_faults, clauses_faults};
ghost use Rattle.ll_polarity.specs.Reading.{module_in, read_form};
ghost use Rattle.ll_polarity.specs.Standing.{StandsIn};
ghost use Rattle.ll_polarity.specs.Calls.{IsReady};
ghost use Rattle.ll_polarity.specs.Grounds.{ground};

use crate::front::Met;
use crate::put_forms::{Formula, form};
use crate::scope::Binders;
use crate::text::Text;
use crate::variables::Variables;
use ll_bank::{Bank, FormAt, FormNode, OutOfMemory};
use ll_laws::{Clause, Kind};
use ll_parser::RawClause;

/// A formula under so many quantifiers.
fn under(bank: &mut Bank, count: u32, body: FormAt) -> Result<FormAt, OutOfMemory>
    requires { HasForm bank.old body.0 }
    ensures shows { IfOk result (λ form. ShowsForm bank.new form.0 (forall_all count (form_tree bank.old body.0))) }
    ensures keeps { Extends bank.old bank.new }
{
    let mut form = body;
    for _passed in 0..count {
        form = bank.form(FormNode::Forall(form))?;
    }
    Ok(form)
}

/// How many variables a clause has, by a reading into a bank of its own. It meets the names of the clause.
fn counted(
    text: &Text<'_>,
    binders: &mut Binders<'_>,
    met: &mut Met,
    clause: RawClause,
) -> Result<u32, OutOfMemory>
    requires stands { StandsIn text.now.names.now binders.old (record { quantified = None; depth = 0 }) }
    requires ready { IsReady text.now.names.now text.now.forms.now clause.form.0 }
    requires room { length met.old.names + length binders.old.scope + 6 * weight
        (raw_at text.now.names.now text.now.forms.now clause.form.0) < 2 ^ 32 }
    ensures count { IfOk result (λ count. (ms : List (List ℕ))
        → count ≡ length (read_form ms binders.old.scope (record { names = met.old.names; variables = [] })
        (raw_at text.now.names.now text.now.forms.now clause.form.0)).met.variables) }
    ensures names { IfOk result (λ _. (ms : List (List ℕ))
        → met.new.names ≡ (read_form ms binders.old.scope (record { names = met.old.names; variables = [] })
        (raw_at text.now.names.now text.now.forms.now clause.form.0)).met.names) }
    ensures few { IfOk result (λ count. length met.new.names + count ≤ length met.old.names
        + weight (raw_at text.now.names.now text.now.forms.now clause.form.0)) }
    ensures scope { IfOk result (λ _. binders.new.scope ≡ binders.old.scope) }
    ensures texts { IfOk result (λ _. binders.new.texts ≡ text.now.names.now) }
{
    let mut scratch = Bank::new(text.alloc);
    met.variables = Variables::new(text.alloc);
    let formula = Formula {
        at: clause.form,
        quantified: None,
    };
    form(text, binders, met, &mut scratch, formula)?;
    let count = met.variables.len() as u32;
    Ok(count)
}

/// The formula of a clause, under quantifiers for its variables.
///
/// A first reading counts the variables; in a second one each stands for the place of its quantifier.
fn quantified(
    text: &Text<'_>,
    binders: &mut Binders<'_>,
    met: &mut Met,
    bank: &mut Bank,
    clause: RawClause,
) -> Result<FormAt, OutOfMemory>
    requires stands { StandsIn text.now.names.now binders.old (record { quantified = None; depth = 0 }) }
    requires ready { IsReady text.now.names.now text.now.forms.now clause.form.0 }
    requires room { length met.old.names + length binders.old.scope + 6 * weight
        (raw_at text.now.names.now text.now.forms.now clause.form.0) < 2 ^ 32 }
    ensures shows { IfOk result (λ form. (ms : List (List ℕ)) (heads : List Heading)
        → ((w : List ℕ) → (ground text.now).modules w ≡ module_in ms w)
        → form_faults heads ClauseSide binders.old.scope (raw_at text.now.names.now text.now.forms.now clause.form.0)
        ≡ [] → ShowsForm bank.new form.0
        (read_clause ms binders.old.scope met.old.names
        (shown_clause text.now.names.now text.now.forms.now clause)).it.form) }
    ensures names { IfOk result (λ _. (ms : List (List ℕ))
        → met.new.names ≡ (read_clause ms binders.old.scope met.old.names
        (shown_clause text.now.names.now text.now.forms.now clause)).names) }
    ensures inside { IfOk result (λ form. HasForm bank.new form.0) }
    ensures scope { IfOk result (λ _. binders.new.scope ≡ binders.old.scope) }
    ensures texts { IfOk result (λ _. binders.new.texts ≡ text.now.names.now) }
    ensures keeps { Extends bank.old bank.new }
{
    let count = counted(text, binders, met, clause)?;
    let _known = met.names.len();
    met.variables = Variables::new(text.alloc);
    let formula = Formula {
        at: clause.form,
        quantified: Some(count),
    };
    let body = form(text, binders, met, bank, formula)?;
    under(bank, count, body)
}

/// A clause, put into the bank.
fn clause(
    text: &Text<'_>,
    binders: &mut Binders<'_>,
    met: &mut Met,
    bank: &mut Bank,
    clause: RawClause,
) -> Result<Clause, OutOfMemory>
    requires stands { StandsIn text.now.names.now binders.old (record { quantified = None; depth = 0 }) }
    requires ready { IsReady text.now.names.now text.now.forms.now clause.form.0 }
    requires room { length met.old.names + length binders.old.scope + 6 * weight
        (raw_at text.now.names.now text.now.forms.now clause.form.0) < 2 ^ 32 }
    ensures shows { IfOk result (λ put. (ms : List (List ℕ)) (heads : List Heading)
        → ((w : List ℕ) → (ground text.now).modules w ≡ module_in ms w)
        → form_faults heads ClauseSide binders.old.scope (raw_at text.now.names.now text.now.forms.now clause.form.0)
        ≡ [] → clause_tree bank.new put
        ≡ (read_clause ms binders.old.scope met.old.names
        (shown_clause text.now.names.now text.now.forms.now clause)).it) }
    ensures names { IfOk result (λ _. (ms : List (List ℕ))
        → met.new.names ≡ (read_clause ms binders.old.scope met.old.names
        (shown_clause text.now.names.now text.now.forms.now clause)).names) }
    ensures inside { IfOk result (λ put. HasForm bank.new put.form.0) }
    ensures scope { IfOk result (λ _. binders.new.scope ≡ binders.old.scope) }
    ensures texts { IfOk result (λ _. binders.new.texts ≡ text.now.names.now) }
    ensures keeps { Extends bank.old bank.new }
{
    let form = quantified(text, binders, met, bank, clause)?;
    let kind = kind_of(clause.linear);
    Ok(Clause { kind, form })
}

/// The kind of a clause by its mark.
fn kind_of(linear: bool) -> Kind
    ensures { result ≡ kind_by linear }
{
    if linear {
        Kind::Linear
    } else {
        Kind::Unbounded
    }
}

/// Clauses, put into the bank in the order of the text.
pub fn clauses(
    text: &Text<'_>,
    binders: &mut Binders<'_>,
    met: &mut Met,
    bank: &mut Bank,
    from: &[RawClause],
) -> Result<Vec<Clause>, OutOfMemory>
    requires stands { StandsIn text.now.names.now binders.old (record { quantified = None; depth = 0 }) }
    requires ready { All (λ c. IsReady text.now.names.now text.now.forms.now c.form.0) from.now }
    requires room { length met.old.names + length binders.old.scope
        + 6 * clauses_weight (map (shown_clause text.now.names.now text.now.forms.now) from.now) < 2 ^ 32 }
    ensures shows { IfOk result (λ put. (ms : List (List ℕ)) (heads : List Heading)
        → ((w : List ℕ) → (ground text.now).modules w ≡ module_in ms w)
        → clauses_faults heads binders.old.scope (map (shown_clause text.now.names.now text.now.forms.now) from.now)
        ≡ [] → map (clause_tree bank.new) put.items
        ≡ (read_clauses ms binders.old.scope met.old.names
        (map (shown_clause text.now.names.now text.now.forms.now) from.now)).it) }
    ensures names { IfOk result (λ _. (ms : List (List ℕ))
        → met.new.names ≡ (read_clauses ms binders.old.scope met.old.names
        (map (shown_clause text.now.names.now text.now.forms.now) from.now)).names) }
    ensures inside { IfOk result (λ put. HasClauses bank.new put.items) }
    ensures scope { IfOk result (λ _. binders.new.scope ≡ binders.old.scope) }
    ensures texts { IfOk result (λ _. binders.new.texts ≡ text.now.names.now) }
    ensures keeps { Extends bank.old bank.new }
{
    let mut put = Vec::new(text.alloc);
    for raw in from {
        let next = clause(text, binders, met, bank, *raw)?;
        put.push(next)?;
    }
    Ok(put)
}
