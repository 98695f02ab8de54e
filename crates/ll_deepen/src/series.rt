//! The bounds of a series, tried one after the other.
ghost use Rattle.std.specs.Prelude.{◌≡◌, ◌≤◌, ◌<◌, ◌⊎◌, ℕ, List, max, false, IfOk, OnOk};
ghost use Rattle.ll_laws.specs.Problem.{ProblemTree};
ghost use Rattle.ll_laws.specs.Search.{any_reached};
ghost use Rattle.ll_laws.specs.declared.Event.{Event};
ghost use Rattle.ll_deepen.specs.Deciding.{CountsOf, is_decisive, events_within, cost_within, IsDeciding, IsSeries};

use ll_laws::{Counts, steady_search};
use std::alloc::AllocError;

/// Memory was wanting.
pub type OutOfMemory = AllocError;

/// The bounds `from`, `from + by`, `from + 2 by` and so on, as far as they are at most `to`: `from` is at most `to`, which is at most
/// 1,000,000, and `by` is from 1 to 1,000,000.
#[derive(Clone, Copy)]
pub struct Series {
    /// The first bound.
    pub from: u32,
    /// How far a bound is from the one before it.
    pub by: u32,
    /// What no bound is past.
    pub to: u32,
}

/// What tries a problem with one bound after the other.
pub trait Trial {
    ghost use Rattle.std.specs.Prelude.{ℕ};
    ghost use Rattle.ll_laws.specs.Problem.{ProblemTree};

    // The problem, whose own bound is not looked at. No call changes it.
    ghost problem: { Self → ProblemTree };

    // The greatest bound that was tried so far; 0 at first.
    ghost most: { Self → ℕ };

    /// Counts the events of the problem's search with this bound, which is at most 1,000,000, and its inferences, each cut at the greatest
    /// `u64`. After a refusal the bound may count as tried or not.
    fn counts(&mut self, bound: u32) -> Result<Counts, OutOfMemory>
        requires { bound ≤ 1000000 }
        ensures counts { IfOk result (λ counts. CountsOf counts (events_within (problem self.old) bound)
            (cost_within (problem self.old) bound)) }
        ensures same { problem self.new ≡ problem self.old }
        ensures tried { OnOk result (most self.new ≡ max (most self.old) bound) }
        ensures rises { most self.old ≤ most self.new };
}

/// The deciding bound of a series: the first at which the search has an answer or reaches no bound, and the last one where there is none.
///
/// Where the search reaches no bound, it is the same with every greater one. After a refusal, which is one of the trial, the trial may have
/// tried further bounds.
pub fn deepen<T: Trial>(series: &Series, trial: &mut T) -> Result<u32, OutOfMemory>
    requires series { IsSeries «series».now }
    ensures decides { IfOk result (λ bound. IsDeciding (T.problem trial.old) «series».now bound) }
    ensures most { IfOk result (λ bound. T.most trial.new ≡ max (T.most trial.old) bound) }
    ensures rises { T.most trial.old ≤ T.most trial.new }
    ensures same { T.problem trial.new ≡ T.problem trial.old }
{
    let mut bound = series.from;
    loop {
        let counts = trial.counts(bound)?;
        if is_decided(&counts) || series.to - bound < series.by {
            return Ok(bound);
        }
        bound += series.by;
    }
}

/// Whether a search with these counts decides: it has an answer, or no branch reached the bound.
pub fn is_decided(counts: &Counts) -> bool
    ensures { (events : List Event) (cost : ℕ) → CountsOf counts.now events cost → result ≡ is_decisive events }
{
    if counts.answers > 0 {
        return true;
    }
    counts.reached == 0
}

/// A series has one deciding bound. Where its search reaches no bound, that of every greater bound has the same events and inferences: so a
/// deciding bound without an answer says that no bound has one.
pub fn deciding_bound()
    ensures one { (p : ProblemTree) (series : Series) (n m : ℕ) → IsDeciding p series n → IsDeciding p series m
        → n ≡ m }
    ensures steady { (p : ProblemTree) (n m : ℕ) → n ≤ m → any_reached (events_within p n) ≡ false
        → (events_within p m ≡ events_within p n) × (cost_within p m ≡ cost_within p n) }
{
    steady_search();
}
