//! Equality of terms of one bank.
ghost use Rattle.std.specs.Prelude.{◌≡◌, ◌↔◌, length, IfOk, OnOk, IsTrue};
ghost use Rattle.ll_bank.specs.Nodes.{Nodes, term_tree, term_trees, HasTerm, AllInTerms};
ghost use Rattle.ll_sequent.specs.Copied.{ArePairs, AreSame};

use ll_bank::{At, Bank, Head, OutOfMemory, TermView};
use std::alloc::Global;

/// How many pairs are looked at one by one. A term that is shared is met again there each time, where it stands against another place.
const MOST_PAIRS: usize = 65_536;

/// Terms that are to be equal.
#[derive(Clone, Copy)]
pub(crate) struct Pair {
    pub left: At,
    pub right: At,
}

/// Whether the two terms are equal. What is one place on both sides is not gone into.
pub(crate) fn is_same(alloc: Global, bank: &Bank, left: At, right: At) -> Result<bool, OutOfMemory>
    requires left { HasTerm bank.now left.0 }
    requires right { HasTerm bank.now right.0 }
    ensures { IfOk result (λ same. IsTrue same ↔ (term_tree bank.now left.0 ≡ term_tree bank.now right.0)) }
{
    if is_same_by_pairs(alloc, bank, left, right)? {
        Ok(true)
    } else {
        bank.equal(left, bank, right)
    }
}

/// Whether few pairs show that the two terms are equal.
fn is_same_by_pairs(alloc: Global, bank: &Bank, left: At, right: At) -> Result<bool, OutOfMemory>
    requires left { HasTerm bank.now left.0 }
    requires right { HasTerm bank.now right.0 }
    ensures { IfOk result (λ same. IsTrue same → term_tree bank.now left.0 ≡ term_tree bank.now right.0) }
{
    let mut pairs = Vec::new(alloc);
    pairs.push(Pair { left, right })?;
    for _ in 0..MOST_PAIRS {
        let Some(pair) = pairs.pop() else {
            return Ok(true);
        };
        if !open(bank, pair, &mut pairs)? {
            return Ok(false);
        }
    }
    Ok(false)
}

/// Whether the two terms of a pair are equal if those of the pairs that wait are. Pairs of their arguments may come to these.
fn open(bank: &Bank, pair: Pair, pairs: &mut Vec<Pair>) -> Result<bool, OutOfMemory>
    requires left { HasTerm bank.now pair.left.0 }
    requires right { HasTerm bank.now pair.right.0 }
    requires inside { ArePairs bank.now pairs.old.items }
    ensures inside { OnOk result (ArePairs bank.now pairs.new.items) }
    ensures same { IfOk result (λ opened. IsTrue opened → AreSame bank.now pairs.new.items
        → AreSame bank.now pairs.old.items × (term_tree bank.now pair.left.0 ≡ term_tree bank.now pair.right.0)) }
{
    if is_one_node(bank, pair) {
        return Ok(true);
    }
    match bank.term_at(pair.left) {
        TermView::Var(_) => Ok(false),
        TermView::Int(_) => Ok(false),
        TermView::App(head, args) => match bank.term_at(pair.right) {
            TermView::Var(_) => Ok(false),
            TermView::Int(_) => Ok(false),
            TermView::App(other, others) => {
                if !is_one_head(head, other) {
                    return Ok(false);
                }
                if args.len() != others.len() {
                    return Ok(false);
                }
                push_all(args, others, pairs)?;
                Ok(true)
            }
        },
    }
}

/// Whether both places of a pair have one node.
fn is_one_node(bank: &Bank, pair: Pair) -> bool
    requires left { HasTerm bank.now pair.left.0 }
    requires right { HasTerm bank.now pair.right.0 }
    ensures { IsTrue result → term_tree bank.now pair.left.0 ≡ term_tree bank.now pair.right.0 }
{
    bank.term_at(pair.left) == bank.term_at(pair.right)
}

/// Whether two heads are one.
fn is_one_head(head: Head, other: Head) -> bool
    ensures { IsTrue result → head ≡ other }
{
    head == other
}

/// Puts the pairs of arguments behind those that wait.
fn push_all(args: &[At], others: &[At], pairs: &mut Vec<Pair>) -> Result<(), OutOfMemory>
    requires { length args.now ≡ length others.now }
    ensures inside { OnOk result ((bank : Nodes) → AllInTerms bank args.now → AllInTerms bank others.now
        → ArePairs bank pairs.old.items → ArePairs bank pairs.new.items) }
    ensures same { OnOk result ((bank : Nodes) → AreSame bank pairs.new.items
        → AreSame bank pairs.old.items × (term_trees bank args.now ≡ term_trees bank others.now)) }
{
    for i in 0..args.len() {
        pairs.push(Pair {
            left: args[i],
            right: others[i],
        })?;
    }
    Ok(())
}
