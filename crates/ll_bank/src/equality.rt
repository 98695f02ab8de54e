//! Equality of terms of two banks.
ghost use Rattle.std.specs.Prelude.{◌≡◌, ◌↔◌, ℕ, length, IfOk, OnOk, IsTrue, IsSome, Some};
ghost use Rattle.std.specs.List.{Contains};
ghost use Rattle.std.specs.Ordering.{nat_cmp};
ghost use Rattle.std.specs.BTreeMap.{get};
ghost use Rattle.ll_bank.specs.Nodes.{term_tree, HasTerm};
ghost use Rattle.ll_bank.specs.Signs.{build_sign, sign_terms, IsSignBelow, IsTable, Grows, HasNumber};
ghost use Rattle.ll_bank.specs.Opened.{arguments_of, term_node_at};
ghost use Rattle.ll_bank.specs.Walk.{HasImage};

use crate::pairs::equal_by_pairs;
use crate::walk::terms_under;
use crate::{At, Bank, Head, OutOfMemory, TermView};
use indexmap::IndexSet;
use std::collections::BTreeMap;

/// The outermost sign of a term that is built up one argument at a time, with the numbers of its parts.
#[derive(Clone, Copy, PartialEq, Eq, Hash)]
enum Sign {
    Var(u64),
    Int(i64),
    Head(Head),
    Apply(usize, usize),
}

impl Bank {
    /// Whether the two terms are equal. Small ones are compared pair by pair; in greater ones a term that is shared is looked at once.
    pub fn equal(&self, at: At, other: &Bank, there: At) -> Result<bool, OutOfMemory>
        requires here { HasTerm self.now at.0 }
        requires there { HasTerm other.now there.0 }
        ensures { IfOk result (λ equal. IsTrue equal ↔ (term_tree self.now at.0 ≡ term_tree other.now there.0)) }
    {
        match equal_by_pairs(self, at, other, there)? {
            Some(equal) => Ok(equal),
            None => equal_by_numbers(self, at, other, there),
        }
    }
}

/// Whether the two terms are equal. A term that is shared is looked at once.
fn equal_by_numbers(bank: &Bank, at: At, other: &Bank, there: At) -> Result<bool, OutOfMemory>
    requires here { HasTerm bank.now at.0 }
    requires there { HasTerm other.now there.0 }
    ensures { IfOk result (λ equal. IsTrue equal ↔ (term_tree bank.now at.0 ≡ term_tree other.now there.0)) }
{
    let mut signs = IndexSet::new(bank.alloc());
    let mine = number_of(bank, at, &mut signs)?;
    let theirs = number_of(other, there, &mut signs)?;
    Ok(mine == theirs)
}

/// The number of a term. Signs that have none get one.
fn number_of(bank: &Bank, at: At, signs: &mut IndexSet<Sign>) -> Result<usize, OutOfMemory>
    requires inside { HasTerm bank.now at.0 }
    requires table { IsTable signs.old.keys }
    ensures grows { OnOk result (Grows signs.old.keys signs.new.keys) }
    ensures number { IfOk result (λ n. HasNumber signs.new.keys n (term_tree bank.now at.0)) }
{
    let places = terms_under(bank, &[at])?;
    let mut numbers = BTreeMap::new(bank.alloc());
    for place in &places {
        let number = number_at(bank, At(*place), &numbers, signs)?;
        numbers.insert(*place, number)?;
    }
    Ok(found(&numbers, at))
}

/// The number of a term whose arguments have theirs.
fn number_at(
    bank: &Bank,
    at: At,
    numbers: &BTreeMap<usize, usize>,
    signs: &mut IndexSet<Sign>,
) -> Result<usize, OutOfMemory>
    requires inside { HasTerm bank.now at.0 }
    requires table { IsTable signs.old.keys }
    requires numbers { (a : ℕ) → Contains (arguments_of (term_node_at bank.now at.0)) a
        → HasImage (HasNumber signs.old.keys) (get nat_cmp numbers.now) a (term_tree bank.now a) }
    ensures grows { OnOk result (Grows signs.old.keys signs.new.keys) }
    ensures number { IfOk result (λ n. HasNumber signs.new.keys n (term_tree bank.now at.0)) }
{
    match bank.term_at(at) {
        TermView::Var(number) => number_of_sign(signs, Sign::Var(number)),
        TermView::Int(value) => number_of_sign(signs, Sign::Int(value)),
        TermView::App(head, args) => {
            let mut number = number_of_sign(signs, Sign::Head(head))?;
            for arg in args {
                number = number_of_sign(signs, Sign::Apply(number, found(numbers, *arg)))?;
            }
            Ok(number)
        }
    }
}

/// The number of a place.
fn found(numbers: &BTreeMap<usize, usize>, place: At) -> usize
    requires { IsSome (get nat_cmp numbers.now place.0) }
    ensures { get nat_cmp numbers.now place.0 ≡ Some result }
{
    *numbers.get(&place.0).unwrap()
}

/// The number of a sign: the one that it has, or the next one.
fn number_of_sign(signs: &mut IndexSet<Sign>, sign: Sign) -> Result<usize, OutOfMemory>
    requires table { IsTable signs.old.keys }
    requires below { IsSignBelow (length signs.old.keys) sign }
    ensures grows { OnOk result (Grows signs.old.keys signs.new.keys) }
    ensures number { IfOk result (λ n. HasNumber signs.new.keys n (build_sign (sign_terms signs.old.keys) sign)) }
{
    let (number, _) = signs.insert_full(sign)?;
    Ok(number)
}
