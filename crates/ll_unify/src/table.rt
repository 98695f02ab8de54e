//! Tables of bindings.
ghost use Rattle.std.specs.Prelude.{◌≡◌, ◌<◌, ◌≤◌, ℕ, ◌+◌, ◌^◌, length, IfOk, OnOk, IfSome, None, slice_index, slice_index_or};
ghost use Rattle.ll_bank.specs.Term.{Term, sub};
ghost use Rattle.ll_bank.specs.Nodes.{term_tree, HasTerm};
ghost use Rattle.ll_unify.specs.Bindings.{Table, IsTable, IsPlaceOf, IsValue, IsEnd, IsAmong, AreSame, IsSet, IsLevel};
ghost use Rattle.ll_unify.specs.Spines.{IsArgument, AreArguments};

use ll_bank::{At, Bank, OutOfMemory, TermView};

/// What each variable is bound to, and its level.
pub trait Bindings {
    /// What contracts see of it.
    ghost table: { Self → Table };

    /// How calls may change it, besides what they do to the table.
    ghost grows: { Self → Self → Type 0 };

    /// What a variable is bound to.
    fn value(&self, var: usize) -> Option<At>
        requires { var < length (table self.now).bound }
        ensures { slice_index_or (table self.now).bound var None ≡ result };

    /// The level of a variable.
    fn level(&self, var: usize) -> u32
        requires { var < length (table self.now).levels }
        ensures { slice_index (table self.now).levels var ≡ result };

    /// Binds a variable that is unbound.
    fn set(&mut self, var: usize, to: At) -> Result<(), OutOfMemory>
        requires below { var < length (table self.old).bound }
        requires free { slice_index_or (table self.old).bound var None ≡ None }
        ensures set { OnOk result (IsSet (table self.old) (table self.new) var to) }
        ensures grows { grows self.old self.new };

    /// Gives a variable a lower level.
    fn lower(&mut self, var: usize, level: u32) -> Result<(), OutOfMemory>
        requires below { var < length (table self.old).levels }
        requires lower { level < slice_index (table self.old).levels var }
        ensures level { OnOk result (IsLevel (table self.old) (table self.new) var level) }
        ensures grows { grows self.old self.new };

    /// What stays as it is has grown.
    ghost stays: { (t : Self) → grows t t };

    /// What grew twice has grown.
    ghost again: { (s t u : Self) → grows s t → grows t u → grows s u };
}

// What the variable at a place is bound to.
#[inline]
fn value<T: Bindings>(bank: &Bank, table: &T, at: At) -> Option<At>
    requires table { IsTable bank.now (T.table table.now) }
    requires place { IsPlaceOf bank.now (T.table table.now) at.0 }
    ensures { IsValue (T.table table.now) (term_tree bank.now at.0) result }
{
    match bank.term_at(at) {
        TermView::Var(var) => table.value(var as usize),
        TermView::Int(_) => None,
        TermView::App(_, _) => None,
    }
}

/// The place that is reached from a place through bound variables.
#[inline]
pub fn walk<T: Bindings>(bank: &Bank, table: &T, at: At) -> At
    requires table { IsTable bank.now (T.table table.now) }
    requires place { IsPlaceOf bank.now (T.table table.now) at.0 }
    ensures end { IsEnd bank.now (T.table table.now) result.0 }
    ensures same { AreSame bank.now (T.table table.now) (term_tree bank.now result.0) (term_tree bank.now at.0) }
    ensures among { IsAmong (T.table table.now) at result }
{
    let mut end = at;
    while let Some(to) = value(bank, table, end) {
        end = to;
    }
    end
}

/// An argument of the term at a place.
#[inline]
pub fn argument(bank: &Bank, at: At, number: usize) -> Option<At>
    requires { HasTerm bank.now at.0 }
    ensures argument { IsArgument bank.now at.0 number result }
    ensures room { IfSome result (λ _. number + 1 < 2 ^ 64) }
{
    match bank.term_at(at) {
        TermView::Var(_) => None,
        TermView::Int(_) => None,
        TermView::App(_, args) => {
            if number < args.len() {
                Some(args[number])
            } else {
                None
            }
        }
    }
}

/// The arguments of the term at a place.
#[inline]
pub fn arguments(bank: &Bank, at: At) -> &[At]
    requires { HasTerm bank.now at.0 }
    ensures { AreArguments bank.now at.0 result.now }
{
    match bank.term_at(at) {
        TermView::Var(_) => &[],
        TermView::Int(_) => &[],
        TermView::App(_, args) => args,
    }
}
