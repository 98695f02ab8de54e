//! Candidates that were found.
ghost use Rattle.std.specs.Prelude.{◌≡◌, []};
ghost use Rattle.std.specs.Option.{ForNone};

use ll_bank::OutOfMemory;
use ll_laws::Candidate;
use std::alloc::Global;

/// Candidates in the order in which they are tried. The first one takes no memory.
#[derive(Drop)]
pub struct Found {
    first: Option<Candidate>,
    others: Vec<Candidate>,
    ghost begins: { ForNone first (others.items ≡ []) },
}

impl Found {
    ghost use Rattle.std.specs.Prelude.{◌≡◌, ◌++◌, ◌∷◌, reverse, OnOk, IfSome, IfNone};
    ghost use Rattle.ll_engine.specs.Matches.{all_found};

    /// No candidate.
    pub fn none(alloc: Global) -> Found
        ensures { all_found result ≡ [] }
    {
        Found {
            first: None,
            others: Vec::new(alloc),
        }
    }

    /// One candidate.
    pub fn one(alloc: Global, candidate: Candidate) -> Found
        ensures { all_found result ≡ candidate ∷ [] }
    {
        Found {
            first: Some(candidate),
            others: Vec::new(alloc),
        }
    }

    /// Adds one behind the others.
    pub fn push(&mut self, candidate: Candidate) -> Result<(), OutOfMemory>
        ensures { OnOk result (all_found self.new ≡ all_found self.old ++ candidate ∷ []) }
    {
        if self.first.is_none() {
            self.first = Some(candidate);
        } else {
            self.others.push(candidate)?;
        }
        Ok(())
    }

    /// The first one, and the others with the next one last; `None` where there is none.
    pub fn split(self) -> Option<(Candidate, Vec<Candidate>)>
        ensures none { IfNone result (all_found self ≡ []) }
        ensures some { IfSome result (λ found. all_found self ≡ found.0 ∷ reverse found.1.items) }
    {
        let first = self.first?;
        let mut others = self.others;
        if others.len() < 2 {
            return Some((first, others));
        }
        others.reverse();
        Some((first, others))
    }
}
