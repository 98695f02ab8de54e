//! Bindings of variables to places of a bank, seen as a substitution: any table of them, the steps along it, unification by levels under
//! what is bound there (after Robinson, A Machine-Oriented Logic Based on the Resolution Principle, 1965), and copies of terms with all
//! bindings applied.
#![tactic(auto)]

mod bind;
mod carry;
mod classes;
mod equate;
mod frame;
mod fresh;
mod meet;
mod mgu_table;
mod read;
mod reading;
mod scan;
mod table;

ghost use Rattle.std.specs.Prelude.{◌≡◌, true, length, option_map, IfOk, IfSome};
ghost use Rattle.std.specs.List.{list_all};
ghost use Rattle.ll_bank.specs.Nodes.{term_trees, AllInTerms, Extends};
ghost use Rattle.ll_laws.specs.Unify.{mgu, vars_below};
ghost use Rattle.ll_unify.specs.Unifies.{solved_of, HasEntries, IsBest};

pub use bind::{bind_new, is_new};
pub use carry::{Carrier, read_into};
pub use equate::{unify, unify_end};
pub use frame::Frame;
pub use fresh::Fresh;
use ll_bank::{At, Bank, OutOfMemory};
use mgu_table::Table;
pub use read::{read_all, read_cells};
pub use reading::Reading;
use std::alloc::Global;
pub use table::{Bindings, argument, arguments, walk};

/// A substitution with its levels. Contracts see it as trees in the bank of the call that gave it.
#[derive(Drop)]
pub struct Subst {
    /// For each variable the place of the term that stands for it, with the whole substitution applied. None where the
    /// variable stands for itself.
    pub bound: Vec<Option<At>>,
    /// The new level of each variable. A variable that is bound keeps the level that it had when it was bound.
    pub levels: Vec<u32>,
}

/// The most general unifier of two lists of terms among those that respect the levels; none exactly where no unifier does.
///
/// The lists are equally long. Variable `x` has the level `levels[x]`: it takes only terms whose eigenvariables have numbers
/// below it, and the variables of such a term fall to it. Of two variables the one with the greater pair of level and number is
/// bound to the other. Equations are solved from left to right, with the occurs check.
///
/// The bank may grow, also after a refusal and where the answer is none; its old places keep their trees.
pub fn mgu(
    alloc: Global,
    bank: &mut Bank,
    left: &[At],
    right: &[At],
    levels: &[u32],
) -> Result<Option<Subst>, OutOfMemory>
    requires left { AllInTerms bank.old left.now }
    requires right { AllInTerms bank.old right.now }
    requires pairs { length left.now ≡ length right.now }
    requires left_levels { list_all (vars_below (length levels.now)) (term_trees bank.old left.now) ≡ true }
    requires right_levels { list_all (vars_below (length levels.now)) (term_trees bank.old right.now) ≡ true }
    ensures exact { IfOk result (λ answer. option_map (solved_of bank.new) answer
        ≡ mgu (term_trees bank.old left.now) (term_trees bank.old right.now) levels.now) }
    ensures entries { IfOk result (λ answer. IfSome answer (HasEntries bank.new (length levels.now))) }
    ensures best { IfOk result (λ answer. IsBest (term_trees bank.old left.now)
        (term_trees bank.old right.now) levels.now (option_map (solved_of bank.new) answer)) }
    ensures keeps { Extends bank.old bank.new }
{
    let mut table = Table::new(alloc, levels)?;
    if !unify(alloc, bank, &mut table, left, right)? {
        return Ok(None);
    }
    let bound = read_cells(alloc, bank, &table, levels.len())?;
    Ok(Some(Subst {
        bound,
        levels: table.levels,
    }))
}
