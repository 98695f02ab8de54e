//! Cells and changes as they are kept, in eight bytes each.
ghost use Rattle.std.specs.Prelude.{◌≡◌, ◌≤◌, ◌<◌, ◌⊎◌, Some, None, IfOk, OnErr, IsTrue};
ghost use Rattle.ll_store.specs.Packed.{cell_of, place_of, change_of};
ghost use Rattle.ll_store.specs.Segments.{changed_in};
ghost use Rattle.ll_store.specs.declared.cells.Change.TheVariants.{Bound, Lowered};

use crate::cells::{Cell, Change};
use ll_bank::{At, OutOfMemory};
use std::alloc::AllocError;

/// No place, and no level.
pub const NOTHING: u32 = u32::MAX;

/// A cell as it is kept.
#[derive(Clone, Copy, PartialEq, Eq)]
pub struct Slot {
    /// The place that the variable is bound to, or nothing.
    pub to: u32,
    /// Its level.
    pub level: u32,
}

impl Slot {
    /// The cell.
    pub fn cell(self) -> Cell
        ensures { result ≡ cell_of self }
    {
        Cell {
            to: place(self.to),
            level: self.level,
        }
    }
}

/// Whether kept cells are the same: as many, and each the same.
pub fn are_same_slots(slots: &[Slot], others: &[Slot]) -> bool
    ensures { IsTrue result → slots.now ≡ others.now }
{
    slots == others
}

// The place that is kept, if there is one.
fn place(kept: u32) -> Option<At>
    ensures { result ≡ place_of kept }
{
    if kept == NOTHING {
        None
    } else {
        Some(At(kept as usize))
    }
}

/// A place as it is kept. There is no memory for places from `NOTHING` on.
pub fn packed(to: At) -> Result<u32, OutOfMemory>
    ensures kept { IfOk result (λ kept. place_of kept ≡ Some to) }
    ensures refused { OnErr result (4294967295 ≤ to.0) }
{
    if to.0 < NOTHING as usize {
        Ok(to.0 as u32)
    } else {
        Err(AllocError)
    }
}

/// A change as it is kept.
#[derive(Clone, Copy, PartialEq, Eq)]
pub struct Entry {
    /// The variable.
    var: u32,
    /// The level that it had, or nothing where it was unbound.
    level: u32,
}

impl Entry {
    /// The variable was unbound. There is no memory for variables past 32 bits.
    pub fn bound(var: u64) -> Result<Entry, OutOfMemory>
        ensures made { IfOk result (λ entry. change_of entry ≡ Bound var) }
        ensures refused { OnErr result (4294967295 < var) }
    {
        if var <= NOTHING as u64 {
            Ok(Entry {
                var: var as u32,
                level: NOTHING,
            })
        } else {
            Err(AllocError)
        }
    }

    /// The variable had this level. There is no memory for variables past 32 bits, nor for the greatest level.
    pub fn lowered(var: u64, level: u32) -> Result<Entry, OutOfMemory>
        ensures made { IfOk result (λ entry. change_of entry ≡ Lowered var level) }
        ensures refused { OnErr result ((4294967295 < var) ⊎ (4294967295 ≤ level)) }
    {
        if var <= NOTHING as u64 && level < NOTHING {
            Ok(Entry {
                var: var as u32,
                level,
            })
        } else {
            Err(AllocError)
        }
    }

    /// The variable.
    pub fn var(&self) -> usize
        ensures { result ≡ changed_in (change_of self.now) }
    {
        self.var as usize
    }

    /// The change.
    pub fn change(self) -> Change
        ensures { result ≡ change_of self }
    {
        if self.level == NOTHING {
            Change::Bound(self.var as u64)
        } else {
            Change::Lowered(self.var as u64, self.level)
        }
    }
}
