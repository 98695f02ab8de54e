//! The keys under which leaves are found.
ghost use Rattle.std.specs.Prelude.{◌≡◌, ◌<◌, ◌^◌, IfOk, OnOk};
ghost use Rattle.ll_bank.specs.Nodes.{term_tree, term_trees, HasTerm, AllInTerms};
ghost use Rattle.ll_index.specs.First.{sign_of};
ghost use Rattle.ll_index.specs.Keys.{key_of, sign_of_first};

use crate::laws::First;
use ll_bank::{At, Bank, Head, OutOfMemory, TermView};
use std::alloc::AllocError;

/// What a leaf is found by.
#[derive(Clone, Copy, PartialEq, Eq, Hash)]
pub(crate) enum Key {
    /// Its head has no name in front. No atom asks for it.
    Unnamed,
    /// The name in front of its head, the number of arguments, and the outermost sign of the first one.
    Named { name: u32, arity: u32, first: First },
}

/// The key of a head, with the sign of its first argument or, where leaves are found by their predicate alone, with none.
pub(crate) fn key_at(bank: &Bank, head: At, by_sign: bool) -> Result<Key, OutOfMemory>
    requires { HasTerm bank.now head.0 }
    ensures { IfOk result (λ key. key ≡ key_of by_sign (term_tree bank.now head.0)) }
{
    match bank.term_at(head) {
        TermView::App(Head::Name(name), args) => {
            let arity = in_32_bits(args.len())?;
            let first = first_sign(bank, args, by_sign)?;
            Ok(Key::Named { name, arity, first })
        }
        TermView::App(Head::Eigen(_), _) => Ok(Key::Unnamed),
        TermView::App(Head::Bound(_), _) => Ok(Key::Unnamed),
        TermView::Var(_) => Ok(Key::Unnamed),
        TermView::Int(_) => Ok(Key::Unnamed),
    }
}

/// The outermost sign of the first of several arguments, or none.
fn first_sign(bank: &Bank, args: &[At], by_sign: bool) -> Result<First, OutOfMemory>
    requires { AllInTerms bank.now args.now }
    ensures { IfOk result (λ sign. sign ≡ sign_of_first by_sign (term_trees bank.now args.now)) }
{
    if !by_sign || args.is_empty() {
        return Ok(First::Open);
    }
    sign_at(bank, args[0])
}

/// The outermost sign of a term.
fn sign_at(bank: &Bank, at: At) -> Result<First, OutOfMemory>
    requires { HasTerm bank.now at.0 }
    ensures { IfOk result (λ sign. sign ≡ sign_of (term_tree bank.now at.0)) }
{
    match bank.term_at(at) {
        TermView::App(Head::Name(name), args) => {
            let arity = in_32_bits(args.len())?;
            Ok(First::Head(name, arity))
        }
        TermView::App(Head::Eigen(_), _) => Ok(First::Open),
        TermView::App(Head::Bound(_), _) => Ok(First::Open),
        TermView::Var(_) => Ok(First::Open),
        TermView::Int(value) => Ok(First::Int(value)),
    }
}

/// A number as 32 bits hold it. No part of a problem has a greater one.
pub(crate) fn in_32_bits(number: usize) -> Result<u32, OutOfMemory>
    ensures same { IfOk result (λ same. same ≡ number) }
    ensures fits { OnOk result (number < 2 ^ 32) }
{
    match u32::try_from(number) {
        Ok(number) => Ok(number),
        Err(_) => Err(AllocError),
    }
}
