//! Cells as a table of bindings.
use crate::cells::Cells;
use ll_bank::{At, OutOfMemory};
use ll_unify::Bindings;

impl Bindings for Cells {
    ghost use Rattle.ll_store.specs.Tables.{table_of, grows-same, grows-again};
    ghost use Rattle.ll_store.specs.Trails.{Grows};

    ghost table = { λ t. table_of t.cells };

    ghost grows = { λ s t. Grows s t };

    fn value(&self, var: usize) -> Option<At> {
        Cells::value(self, var as u64)
    }

    fn level(&self, var: usize) -> u32 {
        Cells::level(self, var as u64)
    }

    fn set(&mut self, var: usize, to: At) -> Result<(), OutOfMemory> {
        self.bind(var as u64, to)
    }

    fn lower(&mut self, var: usize, level: u32) -> Result<(), OutOfMemory> {
        Cells::lower(self, var as u64, level)
    }

    ghost stays = { λ t. grows-same t };

    ghost again = { λ s t u. grows-again s t u };
}
