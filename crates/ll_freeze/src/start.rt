//! The machine in which the search of a problem starts.
ghost use Rattle.std.specs.Prelude.{◌≡◌, map, replicate, None, IfOk};
ghost use Rattle.ll_bank.specs.Nodes.{AllInTerms, Extends, term_trees};
ghost use Rattle.ll_laws.specs.Attempt.{vars_from};
ghost use Rattle.ll_laws.specs.Valid.{IsValid};
ghost use Rattle.ll_freeze.specs.Parts.{parts_of};
ghost use Rattle.ll_freeze.specs.Calls.{IsStart};

use crate::machine::{Item, Machine};
use ll_agenda::Agenda;
use ll_bank::{At, Bank, FormAt, OutOfMemory};
use ll_laws::{Clause, Kind, Problem};
use ll_resources::Context;
use ll_store::Store;
use std::alloc::Global;

impl<'p> Machine<'p> {
    /// The start of a valid problem's search.
    pub fn start(alloc: Global, problem: &'p Problem) -> Result<Machine<'p>, OutOfMemory>
        requires valid { IsValid problem.now }
        ensures { IfOk result (λ m. IsStart problem.entry.now (parts_of m)) }
    {
        let clauses = resources_of(alloc, &problem.clauses)?;
        let context = Context::start(alloc, &clauses)?;
        let mut agenda = Agenda::new(alloc);
        let top = agenda.push(Item::closed(problem.goal), Agenda::<Item>::none())?;
        let (store, terms) = first_store(alloc, &problem.bank, problem.asked.len())?;
        Ok(Machine {
            problem,
            modules: &problem.modules,
            store,
            context,
            agenda,
            top,
            left: problem.bound,
            eigens: 0,
            terms,
            steps: Vec::new(alloc),
            args: Vec::new(alloc),
        })
    }
}

// A store over an image of this bank, with the first variables and, for each, an unbound cell of level 0.
fn first_store(alloc: Global, bank: &Bank, count: usize) -> Result<(Store, Vec<At>), OutOfMemory>
    ensures keeps { IfOk result (λ made. Extends bank.now made.0.bank) }
    ensures cells { IfOk result (λ made. made.0.cells.cells ≡ replicate count (record { to = None; level = 0 })) }
    ensures inside { IfOk result (λ made. AllInTerms made.0.bank made.1.items) }
    ensures shows { IfOk result (λ made. term_trees made.0.bank made.1.items ≡ vars_from 0 count) }
{
    let mut bank = bank.image(bank.size())?;
    let terms = first_variables(alloc, &mut bank, count)?;
    let store = first_cells(alloc, bank, count)?;
    Ok((store, terms))
}

// The first variables, in the order of their numbers.
fn first_variables(alloc: Global, bank: &mut Bank, count: usize) -> Result<Vec<At>, OutOfMemory>
    ensures inside { IfOk result (λ made. AllInTerms bank.new made.items) }
    ensures shows { IfOk result (λ made. term_trees bank.new made.items ≡ vars_from 0 count) }
    ensures keeps { IfOk result (λ _. Extends bank.old bank.new) }
{
    let mut made = Vec::new(alloc);
    for number in 0..count {
        let variable = bank.var(number as u64)?;
        made.push(variable)?;
    }
    Ok(made)
}

// A store of this bank with so many unbound variables, all of level 0.
fn first_cells(alloc: Global, bank: Bank, count: usize) -> Result<Store, OutOfMemory>
    ensures bank { IfOk result (λ store. store.bank ≡ bank) }
    ensures cells { IfOk result (λ store. store.cells.cells ≡ replicate count (record { to = None; level = 0 })) }
{
    let mut store = Store::new(alloc, bank);
    for _ in 0..count {
        store.fresh(0)?;
    }
    Ok(store)
}

// Clauses as a context takes them.
fn resources_of(alloc: Global, clauses: &[Clause]) -> Result<Vec<(Kind, FormAt)>, OutOfMemory>
    ensures { IfOk result (λ made. made.items ≡ map (λ c. (c.kind, c.form)) clauses.now) }
{
    let mut made = Vec::new(alloc);
    for clause in clauses {
        made.push((clause.kind, clause.form))?;
    }
    Ok(made)
}
