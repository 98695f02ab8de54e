//! The part of a problem that a program fixes, from its text.

ghost use Rattle.std.specs.Prelude.{◌≡◌, [], map, IfOk, IfErr};
ghost use Rattle.ll_laws.specs.Shown.{clause_tree, module_tree, HasClauses, HasModules};
ghost use Rattle.ll_parser.specs.Text.{programs};
ghost use Rattle.ll_parser.specs.Reads.{IsWhole};
ghost use Rattle.ll_polarity.specs.Asks.{module_names, part_of, HasProgramFault};
ghost use Rattle.ll_polarity.specs.Causes.{IsCauseOf};
ghost use Rattle.ll_polarity.specs.Faults.{program_faults};
ghost use Rattle.ll_polarity.specs.Loading.{IsNumbered};
ghost use Rattle.ll_polarity.specs.Places.{FindsFirst};

use crate::front::Met;
use crate::judge::judge_program;
use crate::modules::{Modules, places_of};
use crate::part::Loaded;
use crate::put_clauses::clauses;
use crate::put_modules::modules;
use crate::scope::Binders;
use crate::text::Text;
use crate::variables::Variables;
use ll_bank::{Bank, Names, OutOfMemory};
use ll_laws::{Clause, Module};
use ll_lexer::TextFault;
use ll_parser::RawProgram;
use std::alloc::Global;

/// The modules and the clauses of a part.
#[derive(Drop)]
struct Rows {
    modules: Vec<Module>,
    clauses: Vec<Clause>,
}

/// The modules and the clauses of a program without a fault, put into a bank. No name was met before.
fn put_rows(
    alloc: Global,
    places: &Modules<'_>,
    program: &RawProgram,
    met: &mut Met,
    bank: &mut Bank,
) -> Result<Rows, OutOfMemory>
    requires whole { IsWhole programs program.now }
    requires faultless { program_faults program.now ≡ [] }
    requires found { FindsFirst places.now.places (module_names program.now) }
    requires first { met.old.names ≡ [] }
    ensures part { IfOk result (λ rows. part_of program.now ≡ record {
      names = met.new.names;
      modules = map (module_tree bank.new) rows.modules.items;
      clauses = map (clause_tree bank.new) rows.clauses.items;
    }) }
    ensures modules { IfOk result (λ rows. HasModules bank.new rows.modules.items) }
    ensures clauses { IfOk result (λ rows. HasClauses bank.new rows.clauses.items) }
    ensures numbered { IfOk result (λ rows. IsNumbered met.new.names rows.modules.items) }
{
    let text = Text {
        alloc,
        names: &program.names,
        forms: &program.forms,
        modules: places,
    };
    let mut binders = Binders::new(alloc, &program.names)?;
    let _texts = program.names.len();
    let clauses = clauses(&text, &mut binders, met, bank, &program.clauses)?;
    let modules = modules(&text, &mut binders, met, bank, &program.modules)?;
    Ok(Rows { modules, clauses })
}

/// The part that a program without a fault fixes, whose modules have these places.
fn put_part(
    alloc: Global,
    places: &Modules<'_>,
    program: &RawProgram,
) -> Result<Loaded, OutOfMemory>
    requires whole { IsWhole programs program.now }
    requires faultless { program_faults program.now ≡ [] }
    requires found { FindsFirst places.now.places (module_names program.now) }
    ensures { IfOk result (λ loaded. loaded ≡ part_of program.now) }
{
    let mut bank = Bank::new(alloc);
    let mut met = Met {
        names: Names::new(alloc),
        variables: Variables::new(alloc),
    };
    let rows = put_rows(alloc, places, program, &mut met, &mut bank)?;
    Ok(Loaded {
        bank,
        names: met.names,
        modules: rows.modules,
        clauses: rows.clauses,
    })
}

/// The part that a program without a fault fixes, held so that copies share its names.
fn fixed_part(alloc: Global, program: &RawProgram) -> Result<Loaded, OutOfMemory>
    requires whole { IsWhole programs program.now }
    requires faultless { program_faults program.now ≡ [] }
    ensures { IfOk result (λ loaded. loaded ≡ part_of program.now) }
{
    let places = places_of(alloc, &program.names, &program.modules)?;
    let part = put_part(alloc, &places, program)?;
    part.shared()
}

/// The part of a problem that a program fixes. `Text` is the program's first fault of scope or sorting, kinds 7 to 12.
pub fn load(alloc: Global, program: &RawProgram) -> Result<Loaded, TextFault>
    requires whole { IsWhole programs program.now }
    ensures part { IfOk result (λ loaded. loaded ≡ part_of program.now) }
    ensures faultless { IfOk result (λ _. program_faults program.now ≡ []) }
    ensures cause { IfErr result (IsCauseOf (HasProgramFault program.now)) }
{
    if let Some(fault) = judge_program(alloc, program)? {
        return Err(TextFault::Text(fault));
    }
    let loaded = fixed_part(alloc, program)?;
    Ok(loaded)
}
