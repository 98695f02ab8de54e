//! The bindings made so far.
ghost use Rattle.std.specs.Prelude.{IfOk};

use crate::Bindings;
use ll_bank::{At, OutOfMemory};
use std::alloc::Global;

/// The bindings made so far, with the levels.
#[derive(Drop)]
pub struct Table {
    /// What each variable is bound to.
    pub bound: Vec<Option<At>>,
    /// The level of each variable; a bound one keeps that which it had.
    pub levels: Vec<u32>,
}

impl Table {
    ghost use Rattle.ll_unify.specs.Tables.{IsStart};

    /// No bindings.
    pub fn new(alloc: Global, levels: &[u32]) -> Result<Self, OutOfMemory>
        ensures { IfOk result (λ table. IsStart table levels.now) }
    {
        let mut bound = Vec::new(alloc);
        for _level in levels {
            bound.push(None)?;
        }
        Ok(Table {
            bound,
            levels: levels.to_vec(alloc)?,
        })
    }
}

impl Bindings for Table {
    ghost use Rattle.ll_unify.specs.Tables.{table_of};

    ghost table = { table_of };

    ghost grows = { λ s t. Unit {0} };

    fn value(&self, var: usize) -> Option<At> {
        self.bound[var]
    }

    fn level(&self, var: usize) -> u32 {
        self.levels[var]
    }

    fn set(&mut self, var: usize, to: At) -> Result<(), OutOfMemory> {
        self.bound[var] = Some(to);
        Ok(())
    }

    fn lower(&mut self, var: usize, level: u32) -> Result<(), OutOfMemory> {
        self.levels[var] = level;
        Ok(())
    }

    ghost stays = { λ t. tt };

    ghost again = { λ s t u h k. tt };
}
