//! The problem that a query asks of the part that a program fixes.

ghost use Rattle.std.specs.Prelude.{◌≡◌, ◌+◌, ◌^◌, ◌<◌, ◌≤◌, ℕ, List, [], ◌∷◌, length, map, All, IfOk, IfErr};
ghost use Rattle.std.specs.String.{string_bytes};
ghost use Rattle.ll_bank.specs.Nodes.{HasForm, form_tree, Extends};
ghost use Rattle.ll_laws.specs.Valid.{IsValid};
ghost use Rattle.ll_parser.specs.Raw.{ProgramTree};
ghost use Rattle.ll_parser.specs.Text.{programs, queries};
ghost use Rattle.ll_parser.specs.Reads.{IsWhole};
ghost use Rattle.ll_parser.specs.Nodes.{raw_at};
ghost use Rattle.ll_polarity.specs.Numbered.{text_of, variables_of};
ghost use Rattle.ll_polarity.specs.Places.{FindsFirst};
ghost use Rattle.ll_polarity.specs.Faults.{Heading, program_faults, query_faults};
ghost use Rattle.ll_polarity.specs.Reading.{read_form};
ghost use Rattle.ll_polarity.specs.Standing.{met_of};
ghost use Rattle.ll_polarity.specs.Ready.{known_heading};
ghost use Rattle.ll_polarity.specs.Pending.{IsHead};
ghost use Rattle.ll_polarity.specs.Causes.{IsCauseOf};
ghost use Rattle.ll_polarity.specs.Loading.{IsNumbered};
ghost use Rattle.ll_polarity.specs.Asks.{part_of, read_asked, problem_with, headings_of, IsFirst, Asks, HasQueryFault};

use crate::front::Met;
use crate::judge::{judge_query, known_headings};
use crate::modules::Modules;
use crate::part::Loaded;
use crate::put_forms::{Formula, form};
use crate::scope::Binders;
use crate::text::Text;
use crate::variables::Variables;
use ll_bank::{Bank, FormAt, Names, OutOfMemory};
use ll_laws::{Module, Problem};
use ll_lexer::{Fault, TextFault};
use ll_parser::{RawAt, RawQuery};
use std::alloc::Global;

/// What a query adds to a part.
#[derive(Drop)]
struct Addition {
    goal: FormAt,
    /// The number of the name of each variable, none for `_`.
    asked: Vec<Option<u32>>,
}

/// The text of a name, or an empty one past the end of the texts.
fn text_or_none(texts: &Names, name: u32) -> &str
    ensures { result.now ≡ text_of texts.now name }
{
    if (name as usize) < texts.len() {
        texts.text(name)
    } else {
        ""
    }
}

/// The number of the name of a variable, none for `_`.
fn asked_name(
    texts: &Names,
    names: &mut Names,
    variable: Option<u32>,
) -> Result<Option<u32>, OutOfMemory>
    requires room { length names.old < 2 ^ 32 }
    ensures asked { IfOk result (λ n. n ∷ [] ≡ (read_asked names.old (variables_of texts.now (variable ∷ []))).it) }
    ensures names { IfOk result (λ _. names.new
        ≡ (read_asked names.old (variables_of texts.now (variable ∷ []))).names) }
{
    match variable {
        None => Ok(None),
        Some(name) => {
            let number = names.add(text_or_none(texts, name))?;
            Ok(Some(number))
        }
    }
}

/// The numbers of the names of variables in the order of these, none for `_`.
fn asked(
    alloc: Global,
    texts: &Names,
    names: &mut Names,
    variables: &[Option<u32>],
) -> Result<Vec<Option<u32>>, OutOfMemory>
    requires room { length names.old + length variables.now < 2 ^ 32 }
    ensures asked { IfOk result (λ put. put.items ≡ (read_asked names.old (variables_of texts.now variables.now)).it) }
    ensures names { IfOk result (λ _. names.new ≡ (read_asked names.old (variables_of texts.now variables.now)).names) }
{
    let mut asked = Vec::new(alloc);
    for variable in variables {
        let number = asked_name(texts, names, *variable)?;
        asked.push(number)?;
    }
    Ok(asked)
}

/// The texts of the names of modules.
fn module_texts(
    alloc: Global,
    names: &Names,
    modules: &[Module],
) -> Result<Vec<String>, OutOfMemory>
    requires { All (λ m. m.name < length names.now) modules.now }
    ensures { IfOk result (λ texts. map string_bytes texts.items ≡ map (λ m. text_of names.now m.name) modules.now) }
{
    let mut texts = Vec::new(alloc);
    for module in modules {
        let text = String::from_str(alloc, names.text(module.name))?;
        texts.push(text)?;
    }
    Ok(texts)
}

/// The places of modules whose names have these texts.
fn places_by<'a>(alloc: Global, texts: &'a [String]) -> Result<Modules<'a>, OutOfMemory>
    requires { length texts.now < 2 ^ 32 }
    ensures { IfOk result (λ found. FindsFirst found.places (map string_bytes texts.now)) }
{
    let mut found = Modules::new(alloc);
    for (place, text) in texts.iter().enumerate() {
        found.add(text.as_str(), place as u32)?;
    }
    Ok(found)
}

/// The goal of a query, which stands at this place of the forms, where the modules have these places.
fn goal_of(
    text: &Text<'_>,
    at: RawAt,
    met: &mut Met,
    bank: &mut Bank,
) -> Result<FormAt, OutOfMemory>
    requires whole { IsWhole queries (raw_at text.now.names.now text.now.forms.now at.0) }
    requires goal { at.0 < length text.now.forms.now }
    requires few { length met.old.names ≤ 16777216 }
    requires first { met.old.variables ≡ [] }
    ensures shows { IfOk result (λ form. (ms : List (List ℕ)) (heads : List Heading)
        → FindsFirst text.now.modules.now.places ms
        → query_faults heads (raw_at text.now.names.now text.now.forms.now at.0) ≡ [] → form_tree bank.new form.0
        ≡ (read_form ms [] (record { names = met.old.names; variables = [] })
        (raw_at text.now.names.now text.now.forms.now at.0)).it) }
    ensures met { IfOk result (λ _. (ms : List (List ℕ)) → met_of text.now.names.now met.new
        ≡ (read_form ms [] (record { names = met.old.names; variables = [] })
        (raw_at text.now.names.now text.now.forms.now at.0)).met) }
    ensures inside { IfOk result (λ form. HasForm bank.new form.0) }
    ensures keeps { Extends bank.old bank.new }
{
    let _texts = text.names.len();
    let mut binders = Binders::new(text.alloc, text.names)?;
    let formula = Formula {
        at,
        quantified: None,
    };
    let goal = form(text, &mut binders, met, bank, formula)?;
    Ok(goal)
}

/// What a query adds to the names that were met, where the modules have these places.
fn added_over(
    alloc: Global,
    places: &Modules<'_>,
    met: &mut Met,
    query: &RawQuery,
    bank: &mut Bank,
) -> Result<Addition, OutOfMemory>
    requires whole { IsWhole queries query.now }
    requires few { length met.old.names ≤ 16777216 }
    requires first { met.old.variables ≡ [] }
    ensures shows { IfOk result (λ p. (ms : List (List ℕ)) (heads : List Heading) → FindsFirst places.now.places ms
        → query_faults heads query.now ≡ [] → form_tree bank.new p.goal.0
        ≡ (read_form ms [] (record { names = met.old.names; variables = [] }) query.now).it) }
    ensures asked { IfOk result (λ p. (ms : List (List ℕ))
        → let after = (read_form ms [] (record { names = met.old.names; variables = [] }) query.now).met in
        p.asked.items ≡ (read_asked after.names after.variables).it) }
    ensures names { IfOk result (λ _. (ms : List (List ℕ))
        → let after = (read_form ms [] (record { names = met.old.names; variables = [] }) query.now).met in
        met.new.names ≡ (read_asked after.names after.variables).names) }
    ensures inside { IfOk result (λ p. HasForm bank.new p.goal.0) }
    ensures keeps { Extends bank.old bank.new }
{
    let text = Text {
        alloc,
        names: &query.names,
        forms: &query.forms,
        modules: places,
    };
    let goal = goal_of(&text, query.goal, met, bank)?;
    let asked = asked(alloc, &query.names, &mut met.names, met.variables.order())?;
    Ok(Addition { goal, asked })
}

/// What a query adds to the names that were met and to the modules of a part.
fn added(
    alloc: Global,
    met: &mut Met,
    modules: &[Module],
    query: &RawQuery,
    bank: &mut Bank,
) -> Result<Addition, OutOfMemory>
    requires whole { IsWhole queries query.now }
    requires numbered { IsNumbered met.old.names modules.now }
    requires first { met.old.variables ≡ [] }
    ensures shows { IfOk result (λ p. (heads : List Heading) → query_faults heads query.now ≡ []
        → form_tree bank.new p.goal.0
        ≡ (read_form (map (λ m. text_of met.old.names m.name) modules.now) []
        (record { names = met.old.names; variables = [] }) query.now).it) }
    ensures asked { IfOk result (λ p. (ms : List (List ℕ))
        → let after = (read_form ms [] (record { names = met.old.names; variables = [] }) query.now).met in
        p.asked.items ≡ (read_asked after.names after.variables).it) }
    ensures names { IfOk result (λ _. (ms : List (List ℕ))
        → let after = (read_form ms [] (record { names = met.old.names; variables = [] }) query.now).met in
        met.new.names ≡ (read_asked after.names after.variables).names) }
    ensures inside { IfOk result (λ p. HasForm bank.new p.goal.0) }
    ensures keeps { Extends bank.old bank.new }
{
    let texts = module_texts(alloc, &met.names, modules)?;
    let places = places_by(alloc, &texts)?;
    added_over(alloc, &places, met, query, bank)
}

/// The first fault of a query over the names and modules of a part.
fn query_fault(
    alloc: Global,
    names: &Names,
    modules: &[Module],
    query: &RawQuery,
) -> Result<Option<Fault>, OutOfMemory>
    requires whole { IsWhole queries query.now }
    requires named { All (λ m. m.name < length names.now) modules.now }
    ensures { IfOk result (λ fault. IsHead fault (query_faults (map (known_heading names.now) modules.now) query.now)) }
{
    let headings = known_headings(alloc, names, modules)?;
    let fault = judge_query(alloc, &headings, query)?;
    Ok(fault)
}

/// What a query without a fault adds to the names that were met and to the modules of a part. `Text` is the query's first fault.
fn judged(
    alloc: Global,
    met: &mut Met,
    modules: &[Module],
    query: &RawQuery,
    bank: &mut Bank,
) -> Result<Addition, TextFault>
    requires whole { IsWhole queries query.now }
    requires numbered { IsNumbered met.old.names modules.now }
    requires first { met.old.variables ≡ [] }
    ensures faultless { IfOk result (λ _. query_faults (map (known_heading met.old.names) modules.now) query.now ≡ []) }
    ensures shows { IfOk result (λ p. form_tree bank.new p.goal.0
        ≡ (read_form (map (λ m. text_of met.old.names m.name) modules.now) []
        (record { names = met.old.names; variables = [] }) query.now).it) }
    ensures asked { IfOk result (λ p. (ms : List (List ℕ))
        → let after = (read_form ms [] (record { names = met.old.names; variables = [] }) query.now).met in
        p.asked.items ≡ (read_asked after.names after.variables).it) }
    ensures names { IfOk result (λ _. (ms : List (List ℕ))
        → let after = (read_form ms [] (record { names = met.old.names; variables = [] }) query.now).met in
        met.new.names ≡ (read_asked after.names after.variables).names) }
    ensures inside { IfOk result (λ p. HasForm bank.new p.goal.0) }
    ensures keeps { Extends bank.old bank.new }
    ensures cause { IfErr result (IsCauseOf
        (λ fault. IsFirst fault (query_faults (map (known_heading met.old.names) modules.now) query.now))) }
{
    if let Some(fault) = query_fault(alloc, &met.names, modules, query)? {
        return Err(TextFault::Text(fault));
    }
    let addition = added(alloc, met, modules, query, bank)?;
    Ok(addition)
}

/// The problem that a query asks of a program's part, with a bound on the inferences of a branch, from 0 to 1,000,000. `Text` is the
/// query's first fault of scope or sorting, kinds 7 to 11. The part is spent in every case.
pub fn ask(
    alloc: Global,
    loaded: Loaded,
    query: &RawQuery,
    bound: u32,
) -> Result<Problem, TextFault>
    requires whole { IsWhole queries query.now }
    requires bound { bound ≤ 1000000 }
    ensures problem { IfOk result (λ problem. problem ≡ problem_with loaded query.now bound) }
    ensures faultless { IfOk result (λ _. query_faults (headings_of loaded) query.now ≡ []) }
    ensures asks { IfOk result (λ problem. (program : ProgramTree) → program_faults program ≡ []
        → loaded ≡ part_of program → Asks program query.now bound problem) }
    ensures valid { IfOk result (λ problem. (program : ProgramTree) → IsWhole programs program
        → program_faults program ≡ [] → loaded ≡ part_of program → IsValid problem) }
    ensures cause { IfErr result (IsCauseOf (λ fault. IsFirst fault (query_faults (headings_of loaded) query.now))) }
    ensures fault { IfErr result (IsCauseOf (λ fault. (program : ProgramTree) → loaded ≡ part_of program
        → HasQueryFault program query.now fault)) }
{
    let Loaded {
        mut bank,
        names,
        modules,
        clauses,
    } = loaded;
    let mut met = Met {
        names,
        variables: Variables::new(alloc),
    };
    let addition = judged(alloc, &mut met, &modules, query, &mut bank)?;
    Ok(Problem {
        bank,
        names: met.names,
        modules,
        clauses,
        goal: addition.goal,
        asked: addition.asked,
        bound,
    })
}
