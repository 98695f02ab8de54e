//! Equality of small terms, pair by pair.
ghost use Rattle.std.specs.Prelude.{◌≡◌, ◌++◌, ◌↔◌, length, reverse, IfOk, IfSome, OnOk, IsTrue};
ghost use Rattle.ll_bank.specs.Nodes.{term_tree, HasTerm};
ghost use Rattle.ll_bank.specs.Pairs.{AreInBanks, AreEqual, lefts, rights};

use crate::{At, Bank, Head, OutOfMemory, TermView};
use smallvec::SmallVec;

/// How many pairs are compared one by one. A term that is shared is met again there each time.
const MOST_PAIRS: usize = 4096;

/// Terms that are to be equal.
#[derive(Clone, Copy)]
pub(crate) struct Pair {
    pub(crate) left: At,
    pub(crate) right: At,
}

impl Default for Pair {
    fn default() -> Self {
        Pair {
            left: At(0),
            right: At(0),
        }
    }
}

/// Whether the two terms are equal, where few pairs tell that.
pub(crate) fn equal_by_pairs(
    bank: &Bank,
    at: At,
    other: &Bank,
    there: At,
) -> Result<Option<bool>, OutOfMemory>
    requires here { HasTerm bank.now at.0 }
    requires there { HasTerm other.now there.0 }
    ensures { IfOk result (λ answer. IfSome answer
        (λ equal. IsTrue equal ↔ (term_tree bank.now at.0 ≡ term_tree other.now there.0))) }
{
    if bank.depth(at) != other.depth(there) {
        return Ok(Some(false));
    }
    let mut pairs: SmallVec<Pair, 8> = SmallVec::new(bank.alloc());
    pairs.push(Pair {
        left: at,
        right: there,
    })?;
    for _ in 0..MOST_PAIRS {
        let Some(pair) = pairs.pop() else {
            return Ok(Some(true));
        };
        if !open(bank, other, pair, &mut pairs)? {
            return Ok(Some(false));
        }
    }
    Ok(None)
}

/// Whether the two terms have one sign and as many arguments. The pairs of their arguments then wait behind the others.
fn open(
    bank: &Bank,
    other: &Bank,
    pair: Pair,
    pairs: &mut SmallVec<Pair, 8>,
) -> Result<bool, OutOfMemory>
    requires left { HasTerm bank.now pair.left.0 }
    requires right { HasTerm other.now pair.right.0 }
    requires inside { AreInBanks bank.now other.now pairs.old.items }
    ensures inside { OnOk result (AreInBanks bank.now other.now pairs.new.items) }
    ensures equal { IfOk result (λ same. (IsTrue same × AreEqual bank.now other.now pairs.new.items) ↔
        (AreEqual bank.now other.now pairs.old.items
        × (term_tree bank.now pair.left.0 ≡ term_tree other.now pair.right.0))) }
{
    match bank.term_at(pair.left) {
        TermView::Var(number) => match other.term_at(pair.right) {
            TermView::Var(same) => Ok(number == same),
            TermView::Int(_) => Ok(false),
            TermView::App(_, _) => Ok(false),
        },
        TermView::Int(value) => match other.term_at(pair.right) {
            TermView::Var(_) => Ok(false),
            TermView::Int(same) => Ok(value == same),
            TermView::App(_, _) => Ok(false),
        },
        TermView::App(head, args) => match other.term_at(pair.right) {
            TermView::Var(_) => Ok(false),
            TermView::Int(_) => Ok(false),
            TermView::App(same, others) => {
                if !is_same_head(head, same) {
                    return Ok(false);
                }
                if args.len() != others.len() {
                    return Ok(false);
                }
                push_all(args, others, pairs)?;
                Ok(true)
            }
        },
    }
}

/// Whether two heads are one.
fn is_same_head(head: Head, other: Head) -> bool
    ensures { IsTrue result ↔ (head ≡ other) }
{
    head == other
}

/// Puts the pairs of arguments behind those that wait, the last arguments first.
fn push_all(args: &[At], others: &[At], pairs: &mut SmallVec<Pair, 8>) -> Result<(), OutOfMemory>
    requires { length args.now ≡ length others.now }
    ensures left { OnOk result (lefts pairs.new.items ≡ lefts pairs.old.items ++ reverse args.now) }
    ensures right { OnOk result (rights pairs.new.items ≡ rights pairs.old.items ++ reverse others.now) }
{
    for done in 0..args.len() {
        let next = args.len() - done - 1;
        pairs.push(Pair {
            left: args[next],
            right: others[next],
        })?;
    }
    Ok(())
}
