//! How a variable is bound.
ghost use Rattle.std.specs.Prelude.{◌≡◌, ◌<◌, ◌↔◌, ℕ, true, false, None, length, All, IfOk, IfSome, IsTrue, OnOk, [], ◌∷◌};
ghost use Rattle.ll_bank.specs.Term.{Var, sub};
ghost use Rattle.ll_bank.specs.Nodes.{term_tree, HasTerm};
ghost use Rattle.ll_laws.specs.Unify.{bind, is_older};
ghost use Rattle.ll_unify.specs.Bindings.{IsTable, IsPlaceOf, IsEnd, found, count, cell, is_var, FallsOne, Falls, Binds, IsMeeting, Meets};
ghost use Rattle.ll_unify.specs.Novel.{IsNew};
ghost use Rattle.ll_unify.specs.Fresh.{IsFresh, AreFresh, LeavesFresh, IsLeft, IsOther};
ghost use Rattle.ll_unify.specs.Solving.{Settles};

use crate::Bindings;
use crate::fresh::Fresh;
use crate::scan::{Seen, scan};
use ll_bank::{At, Bank, OutOfMemory, TermView};
use std::alloc::Global;

// Whether the pair (level, number) of `x` is below that of `y`.
fn is_older<T: Bindings>(table: &T, x: usize, y: usize) -> bool
    requires first { x < length (T.table table.now).levels }
    requires second { y < length (T.table table.now).levels }
    ensures { result ≡ is_older (T.table table.now).levels x y }
{
    table.level(x) < table.level(y) || table.level(x) == table.level(y) && x < y
}

// The level of a variable falls to a level where it was higher.
fn lower_one<T: Bindings>(table: &mut T, var: usize, level: u32) -> Result<(), OutOfMemory>
    requires { var < length (T.table table.old).levels }
    ensures falls { OnOk result (FallsOne (T.table table.old) (T.table table.new) var level) }
    ensures grows { T.grows table.old table.new }
{
    if level < table.level(var) {
        table.lower(var, level)
    } else {
        Ok(())
    }
}

// The levels of these variables fall to a level where they were higher.
fn lower<T: Bindings>(table: &mut T, vars: &[usize], level: u32) -> Result<(), OutOfMemory>
    requires { All (λ x. x < length (T.table table.old).levels) vars.now }
    ensures falls { OnOk result (Falls (T.table table.old) (T.table table.new) vars.now level) }
    ensures grows { T.grows table.old table.new }
{
    for var in vars {
        lower_one(table, *var, level)?;
    }
    Ok(())
}

// Binds a variable to a term that is no variable, or finds that it may not be.
fn bind_term<T: Bindings>(
    alloc: Global,
    bank: &Bank,
    table: &mut T,
    seen: &mut Seen,
    fresh: &mut Fresh,
    var: usize,
    to: At,
) -> Result<bool, OutOfMemory>
    requires table { IsTable bank.now (T.table table.old) }
    requires below { var < count (T.table table.old) }
    requires free { cell (T.table table.old) var ≡ None }
    requires to { IsEnd bank.now (T.table table.old) to.0 }
    requires no_var { (x : ℕ) → term_tree bank.now to.0 ≡ Var x → ⊥ }
    ensures grows { T.grows table.old table.new }
    ensures binds { IfOk result (λ bound. Binds bank.now (T.table table.old) (T.table table.new) (Var var)
        (term_tree bank.now to.0) (bind (T.table table.old).levels var
        (sub (found bank.now (T.table table.old)) (term_tree bank.now to.0))) bound) }
    ensures left { IfOk result (λ bound. bound ≡ true → (x : ℕ) → IsFresh fresh.new x
        → IsLeft fresh.old (T.table table.old).levels var
        (sub (found bank.now (T.table table.old)) (term_tree bank.now to.0)) x) }
{
    let level = table.level(var);
    seen.clear();
    if !scan(alloc, bank, table, seen, var, level, to)? {
        return Ok(false);
    }
    lower(table, &seen.vars, level)?;
    table.set(var, to)?;
    fresh.meet(var);
    fresh.meet_all(&seen.vars);
    Ok(true)
}

// Binds a variable to a term that is no variable, or finds that it may not be. A new one that was not met is bound at once: it does
// not stand in the term, and no level falls.
fn bind_right<T: Bindings>(
    alloc: Global,
    bank: &Bank,
    table: &mut T,
    seen: &mut Seen,
    fresh: &mut Fresh,
    var: usize,
    to: At,
) -> Result<bool, OutOfMemory>
    requires table { IsTable bank.now (T.table table.old) }
    requires below { var < count (T.table table.old) }
    requires free { cell (T.table table.old) var ≡ None }
    requires to { IsEnd bank.now (T.table table.old) to.0 }
    requires no_var { (x : ℕ) → term_tree bank.now to.0 ≡ Var x → ⊥ }
    requires fresh { AreFresh bank.now (T.table table.old) fresh.old (term_tree bank.now to.0 ∷ []) }
    ensures grows { T.grows table.old table.new }
    ensures binds { IfOk result (λ bound. Binds bank.now (T.table table.old) (T.table table.new) (Var var)
        (term_tree bank.now to.0) (bind (T.table table.old).levels var
        (sub (found bank.now (T.table table.old)) (term_tree bank.now to.0))) bound) }
    ensures other { IfOk result (λ bound. bound ≡ true → (x : ℕ) → IsFresh fresh.new x → IsOther fresh.old var x) }
{
    if !fresh.has(var) {
        return bind_term(alloc, bank, table, seen, fresh, var, to);
    }
    table.set(var, to)?;
    fresh.meet(var);
    Ok(true)
}

// Whether a variable stands at a place.
fn is_variable(bank: &Bank, at: At) -> bool
    requires { HasTerm bank.now at.0 }
    ensures var { result ≡ true → is_var (term_tree bank.now at.0) ≡ true }
    ensures no_var { result ≡ false → (x : ℕ) → term_tree bank.now at.0 ≡ Var x → ⊥ }
{
    match bank.term_at(at) {
        TermView::Var(_) => true,
        TermView::Int(_) => false,
        TermView::App(_, _) => false,
    }
}

/// Whether a variable stands at the left one of two places, and none at the right one.
pub fn is_met<T: Bindings>(bank: &Bank, table: &T, left: At, right: At) -> bool
    requires left { IsEnd bank.now (T.table table.now) left.0 }
    requires right { IsPlaceOf bank.now (T.table table.now) right.0 }
    ensures { result ≡ true → IsMeeting bank.now (T.table table.now) left.0 right.0 }
{
    is_variable(bank, left) && !is_variable(bank, right)
}

// Whether no variable stands at a place, or one with a smaller number.
fn is_before(bank: &Bank, at: At, var: usize) -> bool
    requires { HasTerm bank.now at.0 }
    ensures { IsTrue result ↔ ((x : ℕ) → term_tree bank.now at.0 ≡ Var x → x < var) }
{
    match bank.term_at(at) {
        TermView::Var(other) => (other as usize) < var,
        TermView::Int(_) => true,
        TermView::App(_, _) => true,
    }
}

/// Whether a variable is unbound, and known as a new one that was not met, where neither it nor a variable with a greater number stands at
/// an end. What stands there is what it is bound to then.
pub fn is_new<T: Bindings>(bank: &Bank, table: &T, fresh: &Fresh, end: At, var: usize) -> bool
    requires table { IsTable bank.now (T.table table.now) }
    requires end { HasTerm bank.now end.0 }
    requires below { var < count (T.table table.now) }
    ensures { IsTrue result ↔ IsNew bank.now (T.table table.now) fresh.now end.0 var }
{
    if !fresh.has(var) {
        return false;
    }
    if table.value(var).is_some() {
        return false;
    }
    is_before(bank, end, var)
}

/// Binds a new variable that was not met to what stands at an end. No level falls.
pub fn bind_new<T: Bindings>(
    bank: &Bank,
    table: &mut T,
    fresh: &mut Fresh,
    end: At,
    var: usize,
) -> Result<(), OutOfMemory>
    requires table { IsTable bank.now (T.table table.old) }
    requires end { IsEnd bank.now (T.table table.old) end.0 }
    requires below { var < count (T.table table.old) }
    requires new { IsNew bank.now (T.table table.old) fresh.old end.0 var }
    requires fresh { AreFresh bank.now (T.table table.old) fresh.old (term_tree bank.now end.0 ∷ []) }
    ensures grows { T.grows table.old table.new }
    ensures settles { OnOk result (Settles bank.now (T.table table.old) (T.table table.new)
        (term_tree bank.now end.0 ∷ []) (Var var ∷ []) true) }
    ensures fresh { OnOk result (LeavesFresh bank.now (T.table table.old) (T.table table.new) fresh.old fresh.new
        (term_tree bank.now end.0 ∷ []) []) }
{
    table.set(var, end)?;
    fresh.meet(var);
    Ok(())
}

/// Binds a variable at one of two places to what the other shows, or finds that it may not be. New variables that were not met do not
/// stand on the left.
pub fn bind<T: Bindings>(
    alloc: Global,
    bank: &Bank,
    table: &mut T,
    seen: &mut Seen,
    fresh: &mut Fresh,
    left: At,
    right: At,
) -> Result<bool, OutOfMemory>
    requires table { IsTable bank.now (T.table table.old) }
    requires meet { IsMeeting bank.now (T.table table.old) left.0 right.0 }
    requires fresh { AreFresh bank.now (T.table table.old) fresh.old (term_tree bank.now left.0 ∷ []) }
    ensures grows { T.grows table.old table.new }
    ensures meets { IfOk result (λ bound. Meets bank.now (T.table table.old) (T.table table.new)
        (term_tree bank.now left.0) (term_tree bank.now right.0) bound) }
    ensures fresh { IfOk result (λ bound. bound ≡ true
        → LeavesFresh bank.now (T.table table.old) (T.table table.new) fresh.old fresh.new
        (term_tree bank.now left.0 ∷ []) []) }
{
    match bank.term_at(left) {
        TermView::Var(x) => match bank.term_at(right) {
            TermView::Var(y) => {
                fresh.meet(y as usize);
                if is_older(table, x as usize, y as usize) {
                    table.set(y as usize, left)?;
                } else {
                    table.set(x as usize, right)?;
                }
                Ok(true)
            }
            TermView::Int(_) => bind_term(alloc, bank, table, seen, fresh, x as usize, right),
            TermView::App(_, _) => bind_term(alloc, bank, table, seen, fresh, x as usize, right),
        },
        TermView::Int(_) => match bank.term_at(right) {
            TermView::Var(y) => bind_right(alloc, bank, table, seen, fresh, y as usize, left),
            TermView::Int(_) => unreachable!(),
            TermView::App(_, _) => unreachable!(),
        },
        TermView::App(_, _) => match bank.term_at(right) {
            TermView::Var(y) => bind_right(alloc, bank, table, seen, fresh, y as usize, left),
            TermView::Int(_) => unreachable!(),
            TermView::App(_, _) => unreachable!(),
        },
    }
}
