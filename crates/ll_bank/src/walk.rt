//! Walks over the terms under some terms, each once, without recursion.
ghost use Rattle.std.specs.Prelude.{◌≡◌, ℕ, ◌<◌, ◌||◌, OnOk, IfOk, All, nat_eq};
ghost use Rattle.std.specs.List.{Contains, list_any};
ghost use Rattle.std.specs.Ordering.{nat_cmp};
ghost use Rattle.std.specs.BTreeSet.{contains};
ghost use Rattle.ll_bank.specs.Nodes.{AllInTerms, HasTerm, places};
ghost use Rattle.ll_bank.specs.Opened.{arguments_of, term_node_at};
ghost use Rattle.ll_bank.specs.Walk.{IsInOrder};

use crate::{At, Bank, OutOfMemory, TermView};
use std::collections::BTreeSet;

/// The places of the terms under these, themselves among them, each once and behind its arguments.
pub(crate) fn terms_under(bank: &Bank, roots: &[At]) -> Result<Vec<usize>, OutOfMemory>
    requires { AllInTerms bank.now roots.now }
    ensures order { IfOk result (λ places. IsInOrder bank.now places.items) }
    ensures roots { IfOk result (λ places. All (λ root. Contains places.items root.0) roots.now) }
{
    let mut waiting = BTreeSet::new(bank.alloc());
    insert_all(&mut waiting, roots)?;
    let mut places = Vec::new(bank.alloc());
    // Arguments lie at lower places, so the greatest place that waits has been met by all that it is an argument of.
    while let Some(place) = waiting.pop_last() {
        places.push(place)?;
        insert_all(&mut waiting, arguments(bank, At(place)))?;
    }
    places.reverse();
    Ok(places)
}

/// Puts places among those that wait. After a refusal some of them may be there.
fn insert_all(waiting: &mut BTreeSet<usize>, more: &[At]) -> Result<(), OutOfMemory>
    ensures { OnOk result ((at : ℕ) → contains nat_cmp waiting.new at
        ≡ (contains nat_cmp waiting.old at || list_any (nat_eq at) (places more.now))) }
{
    for place in more {
        waiting.insert(place.0)?;
    }
    Ok(())
}

/// The arguments of a term.
fn arguments(bank: &Bank, at: At) -> &[At]
    requires { HasTerm bank.now at.0 }
    ensures places { places result.now ≡ arguments_of (term_node_at bank.now at.0) }
    ensures lower { All (λ a. a < at.0) (arguments_of (term_node_at bank.now at.0)) }
{
    match bank.term_at(at) {
        TermView::Var(_) => &[],
        TermView::Int(_) => &[],
        TermView::App(_, args) => args,
    }
}
