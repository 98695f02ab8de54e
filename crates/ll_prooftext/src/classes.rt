//! Numbers of terms: equal terms have one.
ghost use Rattle.std.specs.Prelude.{◌≡◌, ◌<◌, ◌≤◌, length, IfOk, OnOk, All, Some, slice_get};
ghost use Rattle.ll_bank.specs.Nodes.{term_tree, AllInTerms, HasTerm};
ghost use Rattle.ll_prooftext.specs.Classes.{HasNumber, AreApart, Gain, AreNumbers, AreClasses};

use indexmap::IndexSet;
use ll_bank::{At, Bank, Head, OutOfMemory, TermView};
use std::alloc::Global;

/// The outermost sign of a term that is built up one argument at a time, with the numbers of its parts.
#[derive(Clone, Copy, PartialEq, Eq, Hash)]
enum Sign {
    Var(u64),
    Int(i64),
    Head(Head),
    Apply(usize, usize),
}

/// The numbers of the terms at the first places of a bank, and how many numbers there are.
#[derive(Drop)]
pub(crate) struct Classes {
    pub(crate) numbers: Vec<usize>,
    pub(crate) count: usize,
}

/// The numbers of the terms at some places and at all places before them. Each place is looked at once.
pub(crate) fn number_terms(
    alloc: Global,
    bank: &Bank,
    places: &[At],
) -> Result<Classes, OutOfMemory>
    requires { AllInTerms bank.now places.now }
    ensures classes { IfOk result (AreClasses bank.now) }
    ensures reach { IfOk result (λ classes. All (λ a. a.0 < length classes.numbers.items) places.now) }
{
    let mut signs = IndexSet::new(alloc);
    let mut numbers = Vec::new(alloc);
    for i in 0..places.len() {
        number_up_to(bank, places[i], &mut signs, &mut numbers)?;
    }
    Ok(Classes {
        numbers,
        count: signs.len(),
    })
}

/// Numbers the terms that have no number, up to a place.
fn number_up_to(
    bank: &Bank,
    last: At,
    signs: &mut IndexSet<Sign>,
    numbers: &mut Vec<usize>,
) -> Result<(), OutOfMemory>
    requires last { HasTerm bank.now last.0 }
    requires numbered { AreNumbers bank.now signs.old.keys numbers.old.items }
    ensures numbered { OnOk result (AreNumbers bank.now signs.new.keys numbers.new.items) }
    ensures reach { OnOk result (last.0 < length numbers.new.items) }
    ensures more { OnOk result (length numbers.old.items ≤ length numbers.new.items) }
{
    while numbers.len() <= last.0 {
        let number = number_at(bank, At(numbers.len()), numbers, signs)?;
        numbers.push(number)?;
    }
    Ok(())
}

/// The number of a term whose arguments have theirs.
fn number_at(
    bank: &Bank,
    at: At,
    numbers: &[usize],
    signs: &mut IndexSet<Sign>,
) -> Result<usize, OutOfMemory>
    requires inside { HasTerm bank.now at.0 }
    requires next { at.0 ≡ length numbers.now }
    requires numbered { AreNumbers bank.now signs.old.keys numbers.now }
    ensures gain { OnOk result (Gain signs.old.keys signs.new.keys) }
    ensures number { IfOk result (λ n. HasNumber signs.new.keys n (term_tree bank.now at.0)) }
{
    match bank.term_at(at) {
        TermView::Var(number) => number_of_sign(signs, Sign::Var(number)),
        TermView::Int(value) => number_of_sign(signs, Sign::Int(value)),
        TermView::App(head, args) => {
            let mut number = number_of_sign(signs, Sign::Head(head))?;
            for arg in args {
                number = number_of_sign(signs, Sign::Apply(number, numbers[arg.0]))?;
            }
            Ok(number)
        }
    }
}

/// The number of a sign: the one that it has, or the next one.
fn number_of_sign(signs: &mut IndexSet<Sign>, sign: Sign) -> Result<usize, OutOfMemory>
    ensures gain { OnOk result (Gain signs.old.keys signs.new.keys) }
    ensures number { IfOk result (λ n. slice_get signs.new.keys n ≡ Some sign) }
{
    let (number, _) = signs.insert_full(sign)?;
    Ok(number)
}
