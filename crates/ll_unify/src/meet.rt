//! Where two terms first differ.
ghost use Rattle.std.specs.Prelude.{◌≡◌, ◌≤◌, ◌<◌, ℕ, true, length, IfOk, slice_index, [], ◌∷◌};
ghost use Rattle.std.specs.Ordering.{int_eq};
ghost use Rattle.ll_bank.specs.Term.{is_spine, head_eq};
ghost use Rattle.ll_bank.specs.Nodes.{Nodes, term_tree, HasTerm};
ghost use Rattle.ll_unify.specs.Bindings.{IsTable, IsPlaceOf, AreSame};
ghost use Rattle.ll_unify.specs.Pairs.{AreClasses, IsCompared, ArePairs, IsDifference, ComparesApplied};

use crate::classes::Classes;
use crate::{Bindings, argument, walk};
use ll_bank::{At, Bank, Head, OutOfMemory, TermView};

/// Two applications of one head to as many arguments, of which those before `next` are equal.
#[derive(Clone, Copy)]
pub struct Pair {
    pub left: At,
    pub right: At,
    pub next: usize,
}

//// How two terms compare.
#[derive(Clone, Copy)]
pub enum Compared {
    /// They are equal.
    Same,
    /// They differ in a sign.
    Clash,
    /// A variable meets a term.
    Meet(At, At),
    /// They have one head and as many arguments.
    Open(At, At),
}

/// Where equations first differ.
#[derive(Clone, Copy)]
pub enum Difference {
    /// Nowhere.
    Same,
    /// At two signs.
    Clash,
    /// At a variable and a term.
    Meet(At, At),
}

// Whether two heads are one.
fn is_same_head(left: Head, right: Head) -> bool
    ensures { result ≡ head_eq left right }
{
    left == right
}

// Whether two whole numbers are one.
fn is_same_int(left: i64, right: i64) -> bool
    ensures { result ≡ int_eq left right }
{
    left == right
}

// How two applications compare.
fn compare_applied(bank: &Bank, left: At, right: At) -> Compared
    requires left { HasTerm bank.now left.0 }
    requires right { HasTerm bank.now right.0 }
    requires left_spine { is_spine (term_tree bank.now left.0) ≡ true }
    requires right_spine { is_spine (term_tree bank.now right.0) ≡ true }
    ensures { ComparesApplied bank.now left right result }
{
    if left.0 == right.0 {
        return Compared::Same;
    }
    match bank.term_at(left) {
        TermView::App(head, args) => match bank.term_at(right) {
            TermView::App(other, others) => {
                if !is_same_head(head, other) {
                    Compared::Clash
                } else if args.len() == others.len() {
                    Compared::Open(left, right)
                } else {
                    Compared::Clash
                }
            }
            TermView::Var(_) => unreachable!(),
            TermView::Int(_) => unreachable!(),
        },
        TermView::Var(_) => unreachable!(),
        TermView::Int(_) => unreachable!(),
    }
}

/// How two terms compare.
#[inline(always)]
pub fn compare<T: Bindings>(
    bank: &Bank,
    table: &T,
    classes: &mut Classes,
    left: At,
    right: At,
) -> Compared
    requires table { IsTable bank.now (T.table table.now) }
    requires classes { AreClasses bank.now (T.table table.now) classes.old.up.items }
    requires left { IsPlaceOf bank.now (T.table table.now) left.0 }
    requires right { IsPlaceOf bank.now (T.table table.now) right.0 }
    ensures classes { AreClasses bank.now (T.table table.now) classes.new.up.items }
    ensures compared { IsCompared bank.now (T.table table.now) (term_tree bank.now left.0)
        (term_tree bank.now right.0) result }
{
    let left = walk(bank, table, left);
    let right = walk(bank, table, right);
    match bank.term_at(left) {
        TermView::Var(x) => match bank.term_at(right) {
            TermView::Var(y) => {
                if x == y {
                    Compared::Same
                } else {
                    Compared::Meet(left, right)
                }
            }
            TermView::Int(_) => Compared::Meet(left, right),
            TermView::App(_, _) => Compared::Meet(left, right),
        },
        TermView::Int(m) => match bank.term_at(right) {
            TermView::Var(_) => Compared::Meet(left, right),
            TermView::Int(n) => {
                if is_same_int(m, n) {
                    Compared::Same
                } else {
                    Compared::Clash
                }
            }
            TermView::App(_, _) => Compared::Clash,
        },
        TermView::App(_, _) => match bank.term_at(right) {
            TermView::Var(_) => Compared::Meet(left, right),
            TermView::Int(_) => Compared::Clash,
            TermView::App(_, _) => {
                let left = classes.find(left);
                let right = classes.find(right);
                compare_applied(bank, left, right)
            }
        },
    }
}

/// Where the pending pairs first differ, the newest first.
pub fn next_difference<T: Bindings>(
    bank: &Bank,
    table: &T,
    classes: &mut Classes,
    pairs: &mut Vec<Pair>,
) -> Result<Difference, OutOfMemory>
    requires table { IsTable bank.now (T.table table.now) }
    requires classes { AreClasses bank.now (T.table table.now) classes.old.up.items }
    requires pairs { ArePairs bank.now (T.table table.now) pairs.old.items }
    ensures classes { IfOk result (λ _. AreClasses bank.now (T.table table.now) classes.new.up.items) }
    ensures difference { IfOk result (IsDifference bank.now (T.table table.now) pairs.old.items pairs.new.items) }
{
    while let Some(pair) = pairs.pop() {
        match argument(bank, pair.left, pair.next) {
            None => classes.join(pair.left, pair.right)?,
            Some(left) => match argument(bank, pair.right, pair.next) {
                None => unreachable!(),
                Some(right) => {
                    pairs.push(Pair {
                        left: pair.left,
                        right: pair.right,
                        next: pair.next + 1,
                    })?;
                    match compare(bank, table, classes, left, right) {
                        Compared::Same => {}
                        Compared::Clash => return Ok(Difference::Clash),
                        Compared::Meet(a, b) => return Ok(Difference::Meet(a, b)),
                        Compared::Open(a, b) => pairs.push(Pair {
                            left: a,
                            right: b,
                            next: 0,
                        })?,
                    }
                }
            },
        }
    }
    Ok(Difference::Same)
}
