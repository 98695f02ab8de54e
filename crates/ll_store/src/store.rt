//! Stores.
ghost use Rattle.std.specs.Prelude.{◌≡◌, ◌<◌, ◌≤◌, ◌++◌, ◌∷◌, [], length, take, Some, None, IfOk, OnOk, OnErr, IsTrue};
ghost use Rattle.std.specs.Borrow.{sem};
ghost use Rattle.ll_bank.specs.Nodes.{Nodes, HasTerm, Extends, size_of};
ghost use Rattle.ll_store.specs.Lending.{LendsBank};
ghost use Rattle.ll_store.specs.Cells.{update, with_to, with_level};
ghost use Rattle.ll_store.specs.Trails.{IsUnbound, IsAtMost, cell_to, cell_level};
ghost use Rattle.ll_store.specs.Stored.{stored, state_of, state_at, AreWithin, IsGood, IsBefore, KeepsMarks, KeepsMarksTo};
ghost use Rattle.ll_store.specs.declared.store.Mark.{Mark as MarkView};

use crate::cells::Cells;
use ll_bank::{At, Bank, BankSize, OutOfMemory};
use std::alloc::Global;

/// Cells with bindings and levels, their trail, and the bank whose places the bindings name.
///
/// Its state is its cells, and its bank's places with their trees. The two parts stand beside one another, so that a caller can
/// change the one while it reads the other.
pub struct Store {
    /// The bank. Cutting it can make marks bad; adding places to it keeps each good mark.
    pub bank: Bank,
    /// The cells. What adds changes alone keeps each good mark.
    pub cells: Cells,
}

// Written out, so that a proof sees one call where it goes, and not one for each part.
impl Drop for Store {
    fn drop(self) {
        let Store { bank: _, cells: _ } = self;
    }
}

/// A state of a store, for [`Store::undo`] and [`Store::image`].
#[derive(Clone, Copy)]
pub struct Mark {
    pub(crate) cells: usize,
    pub(crate) trail: usize,
    pub(crate) bank: BankSize,
}

impl Store {
    /// A store without cells.
    pub fn new(alloc: Global, bank: Bank) -> Store
        ensures { stored result ≡ record { nodes = bank; cells = []; changes = [] } }
    {
        Store {
            bank,
            cells: Cells::new(alloc),
        }
    }

    /// A new unbound variable of this level. After a refusal the store is as before.
    pub fn fresh(&mut self, level: u32) -> Result<u64, OutOfMemory>
        ensures number { IfOk result (λ var. var ≡ length self.old.cells.cells) }
        ensures cells { OnOk result (self.new.cells.cells
            ≡ self.old.cells.cells ++ (record { to = None; level = level }) ∷ []) }
        ensures bank { self.new.bank ≡ self.old.bank }
        ensures marks { KeepsMarks (stored self.old) (stored self.new) }
        ensures refused { OnErr result (stored self.new ≡ stored self.old) }
    {
        self.cells.fresh(level)
    }

    /// Binds an unbound variable to a place. After a refusal the store is as before.
    pub fn bind(&mut self, var: u64, to: At) -> Result<(), OutOfMemory>
        requires unbound { IsUnbound self.old.cells.cells var }
        requires place { HasTerm self.old.bank to.0 }
        ensures cells { OnOk result (self.new.cells.cells ≡ update var (with_to (Some to)) self.old.cells.cells) }
        ensures bank { self.new.bank ≡ self.old.bank }
        ensures marks { KeepsMarks (stored self.old) (stored self.new) }
        ensures refused { OnErr result (stored self.new ≡ stored self.old) }
    {
        self.cells.bind(var, to)
    }

    /// Gives a variable a level that is not above its own. After a refusal the store is as before.
    pub fn lower(&mut self, var: u64, level: u32) -> Result<(), OutOfMemory>
        requires { IsAtMost level self.old.cells.cells var }
        ensures cells { OnOk result (self.new.cells.cells ≡ update var (with_level level) self.old.cells.cells) }
        ensures bank { self.new.bank ≡ self.old.bank }
        ensures marks { KeepsMarks (stored self.old) (stored self.new) }
        ensures refused { OnErr result (stored self.new ≡ stored self.old) }
    {
        self.cells.lower(var, level)
    }

    /// What a variable is bound to; none where it is unbound.
    pub fn value(&self, var: u64) -> Option<At>
        requires { var < length self.now.cells.cells }
        ensures { cell_to self.now.cells.cells var ≡ Some result }
    {
        self.cells.value(var)
    }

    /// The level of a variable.
    pub fn level(&self, var: u64) -> u32
        requires { var < length self.now.cells.cells }
        ensures { cell_level self.now.cells.cells var ≡ Some result }
    {
        self.cells.level(var)
    }

    /// The bank.
    pub fn bank(&self) -> &Bank
        ensures { result.now ≡ self.now.bank }
    {
        &self.bank
    }

    /// Lends the bank, and keeps cells and trail. Where places are only added to it, each good mark stays good, with its state. The program
    /// does not call it: those who build a store of their own do.
    pub fn bank_mut(&mut self) -> &mut Bank
        ensures* lends { sem 𝓛 (LendsBank self.entry result) }
        ensures value { result.now ≡ self.old.bank }
        ensures marks { (nodes : Nodes) → Extends self.old.bank nodes
            → KeepsMarks (stored self.old) (record (stored self.old) { nodes = nodes }) }
    {
        &mut self.bank
    }

    /// The present state: a good mark, where each binding names a place of the bank. No good mark is past it.
    pub fn mark(&self) -> Mark
        requires { AreWithin (state_of (stored self.now)) }
        ensures good { IsGood result (stored self.now) }
        ensures state { state_at result (stored self.now) ≡ state_of (stored self.now) }
        ensures last { (m : MarkView) → IsGood m (stored self.now) → IsBefore m result }
    {
        Mark {
            cells: self.cells.len(),
            trail: self.cells.changes(),
            bank: self.bank.size(),
        }
    }

    /// Goes back to the state at a good mark. Each good mark with no number past this one's stays good, with its state. It takes no
    /// memory, and time for the changes that it takes back.
    pub fn undo(&mut self, mark: Mark)
        requires { IsGood mark (stored self.old) }
        ensures state { state_of (stored self.new) ≡ state_at mark (stored self.old) }
        ensures marks { KeepsMarksTo mark (stored self.old) (stored self.new) }
    {
        self.cells.cut(mark.cells, mark.trail);
        self.bank.cut(mark.bank);
    }

    /// A store of its own in the state at a good mark, with the changes that led to it. Its bank has exactly the places of that state.
    pub fn image(&self, mark: Mark) -> Result<Store, OutOfMemory>
        requires { IsGood mark (stored self.now) }
        ensures state { IfOk result (λ store. state_of (stored store) ≡ state_at mark (stored self.now)) }
        ensures changes { IfOk result (λ store. store.cells.changes ≡ take mark.trail self.now.cells.changes) }
        ensures size { IfOk result (λ store. size_of store.bank ≡ mark.bank) }
    {
        let cells = self.cells.image(mark.cells, mark.trail)?;
        let bank = self.bank.image(mark.bank)?;
        Ok(Store { bank, cells })
    }

    /// Whether another store has the same cells, and the same nodes at the same places. So it is in the same state, whatever changes led
    /// each of them there. Both are compared as data, their lengths first, and it takes no memory.
    pub fn is_alike(&self, other: &Store) -> bool
        ensures { IsTrue result → state_of (stored self.now) ≡ state_of (stored other.now) }
    {
        self.cells.has_same_cells(&other.cells) && self.bank.is_same(&other.bank)
    }
}
