//! The end of a branch: whether a state is an answer, and which one.
ghost use Rattle.std.specs.Prelude.{◌≡◌, true, IfOk};
ghost use Rattle.ll_bank.specs.Nodes.{AllInTerms, no_nodes, term_trees};
ghost use Rattle.ll_laws.specs.Settle.{has_live};
ghost use Rattle.ll_freeze.specs.Parts.{parts_of};
ghost use Rattle.ll_freeze.specs.Shown.{state_of};
ghost use Rattle.ll_freeze.specs.Fits.{Fits};
ghost use Rattle.ll_engine.specs.Moves.{end_event};
ghost use Rattle.ll_engine.specs.Turned.{is_empty, answers};

use ll_bank::{At, Bank, FormAt, OutOfMemory};
use ll_freeze::Machine;
use ll_laws::{Branch, Event, Notice, Step};
use ll_unify::{Carrier, Reading, read_into};
use std::alloc::Global;
use std::marker::Model;

/// Whether nothing is left to prove.
pub fn is_empty(machine: &Machine<'_>) -> bool
    requires fits { Fits (parts_of machine.now) }
    ensures { result ≡ is_empty (state_of (parts_of machine.now)).agenda }
{
    machine.agenda.item(machine.top).is_none()
}

/// Whether a state with nothing left to prove is an answer.
pub fn answers(machine: &Machine<'_>) -> bool
    requires fits { Fits (parts_of machine.now) }
    ensures { result ≡ answers (state_of (parts_of machine.now)) }
{
    machine.context.flag() || !machine.context.any_live()
}

/// What branches are made with. It is kept, so that many branches take memory for it once. Contracts see nothing of it.
pub struct Workshop {
    carrier: Carrier,
    // Terms of a branch, before they are copied into a bank of their size.
    grown: Bank,
}

// Written out, so that a proof sees one call where it goes, and not one for each part.
impl Drop for Workshop {
    fn drop(self) {
        let Workshop {
            carrier: _,
            grown: _,
        } = self;
    }
}

impl Model for Workshop {
    ghost Value = { Unit {0} };

    ghost view = { λ _. tt };
}

impl Workshop {
    /// It takes no memory until it is used.
    pub fn new(alloc: Global) -> Self {
        Workshop {
            carrier: Carrier::new(alloc),
            grown: Bank::new(alloc),
        }
    }
}

/// What stands for the state as an answer: made of the machine's terms where that is enough, and else of a branch.
pub fn answer_notice<E: Notice>(
    machine: &Machine<'_>,
    alloc: Global,
    workshop: &mut Workshop,
) -> Result<E, OutOfMemory>
    requires fits { Fits (parts_of machine.now) }
    requires suits { E.suits machine.now.problem.now }
    ensures { IfOk result (λ e. E.stands_for e ≡ end_event true (state_of (parts_of machine.now))) }
{
    let store = &machine.store;
    let reading = Reading {
        bank: &store.bank,
        table: &store.cells,
    };
    let notice = E::of_answer(
        alloc,
        machine.problem,
        &reading,
        &machine.terms,
        machine.steps.as_slice(),
    )?;
    match notice {
        Some(notice) => Ok(notice),
        None => {
            let branch = branch(machine, alloc, workshop)?;
            E::make(alloc, machine.problem, Event::Answer(branch))
        }
    }
}

/// The state as a branch, with a bank of its own that holds what its terms are made of and nothing else.
pub fn branch(
    machine: &Machine<'_>,
    alloc: Global,
    workshop: &mut Workshop,
) -> Result<Branch, OutOfMemory>
    requires fits { Fits (parts_of machine.now) }
    ensures { IfOk result (λ b. b ≡ record {
      terms = (state_of (parts_of machine.now)).terms;
      steps = (state_of (parts_of machine.now)).steps;
    }) }
{
    let carrier = &mut workshop.carrier;
    let grown = &mut workshop.grown;
    let store = &machine.store;
    clear(alloc, grown);
    let terms = read_into(
        alloc,
        carrier,
        &store.bank,
        &store.cells,
        &machine.terms,
        grown,
    )?;
    let size = grown.size();
    let bank = grown.image(size)?;
    with_steps(alloc, bank, terms, machine.steps.as_slice())
}

// A branch of these terms, with a copy of the steps.
fn with_steps(
    alloc: Global,
    bank: Bank,
    terms: Vec<At>,
    steps: &[Step],
) -> Result<Branch, OutOfMemory>
    requires { AllInTerms bank terms.items }
    ensures { IfOk result (λ b. b ≡ record { terms = term_trees bank terms.items; steps = steps.now }) }
{
    let steps = Vec::from_slice(alloc, steps)?;
    Ok(Branch { bank, terms, steps })
}

// Takes all nodes out of a bank.
fn clear(alloc: Global, bank: &mut Bank)
    ensures { bank.new ≡ no_nodes }
{
    let nothing = Bank::new(alloc);
    bank.cut(nothing.size());
}
