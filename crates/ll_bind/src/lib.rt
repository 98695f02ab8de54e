//! Unification by levels on the cells of a store.
#![tactic(auto)]

mod build;
mod head;

ghost use Rattle.std.specs.Prelude.{◌≡◌, true, length, All, IfOk};
ghost use Rattle.ll_bank.specs.declared.At.{At as AtView};
ghost use Rattle.ll_bank.specs.Nodes.{term_trees};
ghost use Rattle.ll_unify.specs.Bindings.{IsTable, IsPlaceOf, KeepsCells};
ghost use Rattle.ll_unify.specs.Solving.{IsSolved, wanted};
ghost use Rattle.ll_store.specs.Stored.{stored, KeepsMarks};
ghost use Rattle.ll_store.specs.Tables.{table_of};

pub use build::read_args;
pub use head::unify_args;
use ll_bank::{At, OutOfMemory};
use ll_store::Store;
use std::alloc::Global;

/// Makes two lists of terms equal by bindings of a store's variables, or finds that this can't be.
///
/// The lists are equally long, and each variable in the terms, through bindings too, has a cell. The answer is true exactly where
/// the lists, read under the bindings that are there, have a most general unifier that respects the levels. What is read afterwards
/// is what was read before, followed by it, and the levels are its levels; terms whose variables have cells keep that.
///
/// In every case each good mark of the store stays good, with its state. Where the answer is `false`, and after a refusal, some
/// bindings and levels may have been changed: go back to a mark. It takes memory for what is pending, for the variables of a term
/// that one is bound to, and after a thousand steps to remember places, so that parts that are shared are passed through once.
pub fn unify(
    alloc: Global,
    store: &mut Store,
    left: &[At],
    right: &[At],
) -> Result<bool, OutOfMemory>
    requires store { IsTable store.old.bank (table_of store.old.cells.cells) }
    requires pairs { length left.now ≡ length right.now }
    requires left { All (λ (at : AtView). IsPlaceOf store.old.bank (table_of store.old.cells.cells) at.0) left.now }
    requires right { All (λ (at : AtView). IsPlaceOf store.old.bank (table_of store.old.cells.cells) at.0) right.now }
    ensures cells { IfOk result (λ good. good ≡ true
        → KeepsCells store.old.bank (table_of store.old.cells.cells) (table_of store.new.cells.cells)) }
    ensures solved { IfOk result (IsSolved store.old.bank (table_of store.old.cells.cells)
        (table_of store.new.cells.cells) (wanted store.old.bank (table_of store.old.cells.cells)
        (term_trees store.old.bank left.now) (term_trees store.old.bank right.now))) }
    ensures bank { store.new.bank ≡ store.old.bank }
    ensures marks { KeepsMarks (stored store.old) (stored store.new) }
{
    ll_unify::unify(alloc, &store.bank, &mut store.cells, left, right)
}
