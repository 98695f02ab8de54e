//! Unification.
ghost use Rattle.std.specs.Prelude.{◌≡◌, ◌<◌, ℕ, true, length, All, IfOk, [], ◌∷◌, slice_index_or};
ghost use Rattle.ll_bank.specs.declared.At.{At as AtView};
ghost use Rattle.ll_bank.specs.Nodes.{term_tree, term_trees};
ghost use Rattle.ll_unify.specs.Bindings.{IsTable, IsPlaceOf, IsEnd, KeepsCells};
ghost use Rattle.ll_unify.specs.Fresh.{AreFresh, LeavesFresh};
ghost use Rattle.ll_unify.specs.Pairs.{AreClasses, ArePairs, IsPair, lefts, rights};
ghost use Rattle.ll_unify.specs.Solving.{IsSolved, Settles, wanted};

use crate::Bindings;
use crate::bind::{bind, is_met};
use crate::classes::Classes;
use crate::fresh::Fresh;
use crate::meet::{Compared, Difference, Pair, compare, next_difference};
use crate::scan::Seen;
use ll_bank::{At, Bank, OutOfMemory};
use std::alloc::Global;

// What unification keeps while it works. It takes memory only where it is needed.
#[derive(Drop)]
struct Work {
    pairs: Vec<Pair>,
    classes: Classes,
    seen: Seen,
    fresh: Fresh,
}

// Makes the pending pairs equal by bindings, or finds that this can't be.
fn settle<T: Bindings>(
    alloc: Global,
    bank: &Bank,
    table: &mut T,
    work: &mut Work,
) -> Result<bool, OutOfMemory>
    requires table { IsTable bank.now (T.table table.old) }
    requires classes { AreClasses bank.now (T.table table.old) work.old.classes.up.items }
    requires pairs { ArePairs bank.now (T.table table.old) work.old.pairs.items }
    requires fresh { AreFresh bank.now (T.table table.old) work.old.fresh (lefts bank.now work.old.pairs.items) }
    ensures grows { T.grows table.old table.new }
    ensures classes { IfOk result (λ good. good ≡ true
        → AreClasses bank.now (T.table table.new) work.new.classes.up.items) }
    ensures settles { IfOk result (Settles bank.now (T.table table.old) (T.table table.new)
        (lefts bank.now work.old.pairs.items) (rights bank.now work.old.pairs.items)) }
    ensures fresh { IfOk result (λ good. good ≡ true
        → LeavesFresh bank.now (T.table table.old) (T.table table.new) work.old.fresh work.new.fresh
        (lefts bank.now work.old.pairs.items) []) }
{
    'pairs: loop {
        match next_difference(bank, table, &mut work.classes, &mut work.pairs)? {
            Difference::Same => return Ok(true),
            Difference::Clash => return Ok(false),
            Difference::Meet(a, b) => {
                if !bind(alloc, bank, table, &mut work.seen, &mut work.fresh, a, b)? {
                    return Ok(false);
                }
            }
        }
    }
}

// Makes two applications of one head to as many arguments equal by bindings, or finds that this can't be.
fn open<T: Bindings>(
    alloc: Global,
    bank: &Bank,
    table: &mut T,
    work: &mut Work,
    left: At,
    right: At,
) -> Result<bool, OutOfMemory>
    requires table { IsTable bank.now (T.table table.old) }
    requires classes { AreClasses bank.now (T.table table.old) work.old.classes.up.items }
    requires pair { IsPair bank.now (T.table table.old) (record { left = left; right = right; next = 0 }) }
    requires fresh { AreFresh bank.now (T.table table.old) work.old.fresh
        (lefts bank.now ((record { left = left; right = right; next = 0 }) ∷ [])) }
    ensures grows { T.grows table.old table.new }
    ensures classes { IfOk result (λ good. good ≡ true
        → AreClasses bank.now (T.table table.new) work.new.classes.up.items) }
    ensures settles { IfOk result (Settles bank.now (T.table table.old) (T.table table.new)
        (lefts bank.now ((record { left = left; right = right; next = 0 }) ∷ []))
        (rights bank.now ((record { left = left; right = right; next = 0 }) ∷ []))) }
    ensures fresh { IfOk result (λ good. good ≡ true
        → LeavesFresh bank.now (T.table table.old) (T.table table.new) work.old.fresh work.new.fresh
        (lefts bank.now ((record { left = left; right = right; next = 0 }) ∷ [])) []) }
{
    work.pairs.clear();
    work.pairs.push(Pair {
        left,
        right,
        next: 0,
    })?;
    settle(alloc, bank, table, work)
}

// Makes two terms equal by bindings, or finds that this can't be.
fn make_equal<T: Bindings>(
    alloc: Global,
    bank: &Bank,
    table: &mut T,
    work: &mut Work,
    left: At,
    right: At,
) -> Result<bool, OutOfMemory>
    requires table { IsTable bank.now (T.table table.old) }
    requires classes { AreClasses bank.now (T.table table.old) work.old.classes.up.items }
    requires left { IsPlaceOf bank.now (T.table table.old) left.0 }
    requires right { IsPlaceOf bank.now (T.table table.old) right.0 }
    requires fresh { AreFresh bank.now (T.table table.old) work.old.fresh (term_tree bank.now left.0 ∷ []) }
    ensures grows { T.grows table.old table.new }
    ensures classes { IfOk result (λ good. good ≡ true
        → AreClasses bank.now (T.table table.new) work.new.classes.up.items) }
    ensures settles { IfOk result (Settles bank.now (T.table table.old) (T.table table.new)
        (term_tree bank.now left.0 ∷ []) (term_tree bank.now right.0 ∷ [])) }
    ensures fresh { IfOk result (λ good. good ≡ true
        → LeavesFresh bank.now (T.table table.old) (T.table table.new) work.old.fresh work.new.fresh
        (term_tree bank.now left.0 ∷ []) []) }
{
    match compare(bank, table, &mut work.classes, left, right) {
        Compared::Same => Ok(true),
        Compared::Clash => Ok(false),
        Compared::Meet(a, b) => bind(alloc, bank, table, &mut work.seen, &mut work.fresh, a, b),
        Compared::Open(a, b) => open(alloc, bank, table, work, a, b),
    }
}

// Makes two applications of one head to as many arguments equal by bindings, the next of several equations, or finds that this can't be.
fn open_next<T: Bindings>(
    alloc: Global,
    bank: &Bank,
    table: &mut T,
    classes: Classes,
    fresh: &mut Fresh,
    left: At,
    right: At,
) -> Result<bool, OutOfMemory>
    requires table { IsTable bank.now (T.table table.old) }
    requires classes { AreClasses bank.now (T.table table.old) classes.up.items }
    requires pair { IsPair bank.now (T.table table.old) (record { left = left; right = right; next = 0 }) }
    requires fresh { AreFresh bank.now (T.table table.old) fresh.old
        (lefts bank.now ((record { left = left; right = right; next = 0 }) ∷ [])) }
    ensures grows { T.grows table.old table.new }
    ensures settles { IfOk result (Settles bank.now (T.table table.old) (T.table table.new)
        (lefts bank.now ((record { left = left; right = right; next = 0 }) ∷ []))
        (rights bank.now ((record { left = left; right = right; next = 0 }) ∷ []))) }
    ensures fresh { IfOk result (λ good. good ≡ true
        → LeavesFresh bank.now (T.table table.old) (T.table table.new) fresh.old fresh.new
        (lefts bank.now ((record { left = left; right = right; next = 0 }) ∷ [])) []) }
{
    let mut work = Work {
        pairs: Vec::new(alloc),
        classes,
        seen: Seen::new(alloc),
        fresh: *fresh,
    };
    let equal = open(alloc, bank, table, &mut work, left, right)?;
    *fresh = work.fresh;
    Ok(equal)
}

// Makes one term equal to another by bindings, as `unify_end` does, by where they first differ.
fn equal_next<T: Bindings>(
    alloc: Global,
    bank: &Bank,
    table: &mut T,
    fresh: &mut Fresh,
    left: At,
    right: At,
) -> Result<bool, OutOfMemory>
    requires table { IsTable bank.now (T.table table.old) }
    requires left { IsPlaceOf bank.now (T.table table.old) left.0 }
    requires right { IsPlaceOf bank.now (T.table table.old) right.0 }
    requires fresh { AreFresh bank.now (T.table table.old) fresh.old (term_tree bank.now left.0 ∷ []) }
    ensures grows { T.grows table.old table.new }
    ensures settles { IfOk result (Settles bank.now (T.table table.old) (T.table table.new)
        (term_tree bank.now left.0 ∷ []) (term_tree bank.now right.0 ∷ [])) }
    ensures fresh { IfOk result (λ good. good ≡ true
        → LeavesFresh bank.now (T.table table.old) (T.table table.new) fresh.old fresh.new
        (term_tree bank.now left.0 ∷ []) []) }
{
    let mut classes = Classes::new(alloc);
    match compare(bank, table, &mut classes, left, right) {
        Compared::Same => Ok(true),
        Compared::Clash => Ok(false),
        Compared::Meet(a, b) => {
            let mut seen = Seen::new(alloc);
            bind(alloc, bank, table, &mut seen, fresh, a, b)
        }
        Compared::Open(a, b) => open_next(alloc, bank, table, classes, fresh, a, b),
    }
}

/// Makes one term equal to another by bindings, the next of several equations, or finds that this can't be. No bound variable stands at
/// the left place, and the new variables that were not met in the equations before do not stand in its term.
///
/// Where the answer is `true`, that is so for the equations to come. Where it is `false`, and after a refusal, some bindings and levels
/// may have been changed.
pub fn unify_end<T: Bindings>(
    alloc: Global,
    bank: &Bank,
    table: &mut T,
    fresh: &mut Fresh,
    left: At,
    right: At,
) -> Result<bool, OutOfMemory>
    requires table { IsTable bank.now (T.table table.old) }
    requires left { IsEnd bank.now (T.table table.old) left.0 }
    requires right { IsPlaceOf bank.now (T.table table.old) right.0 }
    requires fresh { AreFresh bank.now (T.table table.old) fresh.old (term_tree bank.now left.0 ∷ []) }
    ensures grows { T.grows table.old table.new }
    ensures settles { IfOk result (Settles bank.now (T.table table.old) (T.table table.new)
        (term_tree bank.now left.0 ∷ []) (term_tree bank.now right.0 ∷ [])) }
    ensures fresh { IfOk result (λ good. good ≡ true
        → LeavesFresh bank.now (T.table table.old) (T.table table.new) fresh.old fresh.new
        (term_tree bank.now left.0 ∷ []) []) }
{
    if is_met(bank, table, left, right) {
        let mut seen = Seen::new(alloc);
        return bind(alloc, bank, table, &mut seen, fresh, left, right);
    }
    equal_next(alloc, bank, table, fresh, left, right)
}

// Makes two lists of terms equal by bindings, or finds that this can't be. New variables that were not met do not stand on the left.
fn solve<T: Bindings>(
    alloc: Global,
    bank: &Bank,
    table: &mut T,
    fresh: Fresh,
    left: &[At],
    right: &[At],
) -> Result<bool, OutOfMemory>
    requires table { IsTable bank.now (T.table table.old) }
    requires pairs { length left.now ≡ length right.now }
    requires left { All (λ (at : AtView). IsPlaceOf bank.now (T.table table.old) at.0) left.now }
    requires right { All (λ (at : AtView). IsPlaceOf bank.now (T.table table.old) at.0) right.now }
    requires fresh { AreFresh bank.now (T.table table.old) fresh (term_trees bank.now left.now) }
    ensures grows { T.grows table.old table.new }
    ensures cells { IfOk result (λ good. good ≡ true → KeepsCells bank.now (T.table table.old) (T.table table.new)) }
    ensures solved { IfOk result (IsSolved bank.now (T.table table.old) (T.table table.new)
        (wanted bank.now (T.table table.old) (term_trees bank.now left.now) (term_trees bank.now right.now))) }
{
    let mut work = Work {
        pairs: Vec::new(alloc),
        classes: Classes::new(alloc),
        seen: Seen::new(alloc),
        fresh,
    };
    for index in 0..left.len() {
        let first = left[index];
        let second = right[index];
        if !make_equal(alloc, bank, table, &mut work, first, second)? {
            return Ok(false);
        }
    }
    Ok(true)
}

/// Makes two lists of terms equal by bindings, or finds that this can't be.
///
/// The terms are read under the bindings that are there. Equations are solved from left to right, with the occurs check and by levels.
/// Where the answer is `true`, terms whose variables have cells keep that, and so do the terms that variables are bound to.
/// Where the answer is `false`, and after a refusal, some bindings and levels may have been changed.
pub fn unify<T: Bindings>(
    alloc: Global,
    bank: &Bank,
    table: &mut T,
    left: &[At],
    right: &[At],
) -> Result<bool, OutOfMemory>
    requires table { IsTable bank.now (T.table table.old) }
    requires pairs { length left.now ≡ length right.now }
    requires left { All (λ (at : AtView). IsPlaceOf bank.now (T.table table.old) at.0) left.now }
    requires right { All (λ (at : AtView). IsPlaceOf bank.now (T.table table.old) at.0) right.now }
    ensures grows { T.grows table.old table.new }
    ensures cells { IfOk result (λ good. good ≡ true → KeepsCells bank.now (T.table table.old) (T.table table.new)) }
    ensures solved { IfOk result (IsSolved bank.now (T.table table.old) (T.table table.new)
        (wanted bank.now (T.table table.old) (term_trees bank.now left.now) (term_trees bank.now right.now))) }
{
    solve(alloc, bank, table, Fresh::none(), left, right)
}
