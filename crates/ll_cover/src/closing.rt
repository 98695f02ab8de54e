//! Whether a term is closed.
ghost use Rattle.std.specs.Prelude.{◌≡◌, ℕ, ◌||◌, false, OnOk, IfOk, MatchOption, nat_eq};
ghost use Rattle.std.specs.List.{list_any};
ghost use Rattle.std.specs.Ordering.{nat_cmp};
ghost use Rattle.std.specs.BTreeSet.{contains};
ghost use Rattle.ll_bank.specs.Term.{is_closed as closed_term};
ghost use Rattle.ll_bank.specs.Nodes.{term_tree, HasTerm, places};
ghost use Rattle.ll_cover.specs.Closing.{ArePartsOf};

use ll_bank::{At, Bank, Head, OutOfMemory, TermView};
use std::alloc::Global;
use std::collections::BTreeSet;

/// Whether no bound place is free in a term. What is shared in it is looked at once, without recursion.
pub fn is_closed(alloc: Global, bank: &Bank, at: At) -> Result<bool, OutOfMemory>
    requires { HasTerm bank.now at.0 }
    ensures { IfOk result (λ closed. closed ≡ closed_term (term_tree bank.now at.0)) }
{
    let mut waiting = BTreeSet::new(alloc);
    waiting.insert(at.0)?;
    // Arguments lie at lower places, so the greatest place that waits has been met by all that it is an argument of.
    while let Some(place) = waiting.pop_last() {
        let Some(args) = parts(bank, At(place)) else {
            return Ok(false);
        };
        insert_all(&mut waiting, args)?;
    }
    Ok(true)
}

// The arguments of a term, which is closed exactly where these are; none where its head is a bound place.
fn parts(bank: &Bank, at: At) -> Option<&[At]>
    requires { HasTerm bank.now at.0 }
    ensures { MatchOption result (closed_term (term_tree bank.now at.0) ≡ false)
        (λ args. ArePartsOf bank.now at.0 args.now) }
{
    match bank.term_at(at) {
        TermView::Var(_) => Some(&[]),
        TermView::Int(_) => Some(&[]),
        TermView::App(Head::Bound(_), _) => None,
        TermView::App(Head::Name(_), args) => Some(args),
        TermView::App(Head::Eigen(_), args) => Some(args),
    }
}

// Puts places among those that wait. After a refusal some of them may be there.
fn insert_all(waiting: &mut BTreeSet<usize>, more: &[At]) -> Result<(), OutOfMemory>
    ensures { OnOk result ((at : ℕ) → contains nat_cmp waiting.new at
        ≡ (contains nat_cmp waiting.old at || list_any (nat_eq at) (places more.now))) }
{
    for place in more {
        waiting.insert(place.0)?;
    }
    Ok(())
}
