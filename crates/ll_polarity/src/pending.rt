//! What is left of a walk through a formula, in the order of its text.

ghost use Rattle.std.specs.Prelude.{◌≡◌, ◌++◌, ◌∷◌, [], map, MatchOption, OnOk, option_to_list};
ghost use Rattle.ll_polarity.specs.declared.pending.Part.TheVariants.{Term, Found};

use ll_bank::OutOfMemory;
use ll_lexer::Fault;
use ll_parser::RawAt;
use std::alloc::Global;
use std::marker::Model;

/// A side of a sequent.
#[derive(Clone, Copy)]
pub enum Side {
    Goal,
    Clause,
}

/// A part of a formula that is still to be judged.
#[derive(Clone, Copy)]
pub enum Part {
    /// The formula at a place, on a side.
    Form(Side, RawAt),
    /// The term at a place.
    Term(RawAt),
    /// A fault that stands here.
    Found(Fault),
    /// The end of the scope of the innermost binder.
    Close,
}

/// The parts of a formula that are still to be judged.
///
/// Contracts see their list, the next one first.
#[derive(Drop)]
pub struct Parts {
    rows: Vec<Part>,
}

impl Model for Parts {
    ghost use Rattle.std.specs.Prelude.{List, reverse};
    ghost use Rattle.ll_polarity.specs.declared.pending.Part.{Part};

    ghost Value = { List Part };

    ghost view = { λ parts. reverse parts.rows.items };
}

impl Parts {
    /// No parts.
    pub fn new(alloc: Global) -> Self
        ensures { result ≡ [] }
    {
        Parts {
            rows: Vec::new(alloc),
        }
    }

    /// One more part, the next one.
    pub fn push(&mut self, part: Part) -> Result<(), OutOfMemory>
        ensures { OnOk result (self.new ≡ part ∷ self.old) }
    {
        self.rows.push(part)?;
        Ok(())
    }

    /// The next part.
    pub fn pop(&mut self) -> Option<Part>
        ensures { MatchOption result (self.old ≡ []) (λ part. self.old ≡ part ∷ self.new) }
    {
        self.rows.pop()
    }

    /// A fault that stands next, if there is one.
    pub fn push_fault(&mut self, fault: Option<Fault>) -> Result<(), OutOfMemory>
        ensures { OnOk result (self.new ≡ map Found (option_to_list fault) ++ self.old) }
    {
        if let Some(fault) = fault {
            self.push(Part::Found(fault))?;
        }
        Ok(())
    }

    /// Terms that stand next, in their order.
    pub fn push_terms(&mut self, terms: &[RawAt]) -> Result<(), OutOfMemory>
        ensures { OnOk result (self.new ≡ map Term terms.now ++ self.old) }
    {
        let mut left = terms.len();
        while left > 0 {
            left -= 1;
            self.push(Part::Term(terms[left]))?;
        }
        Ok(())
    }
}
