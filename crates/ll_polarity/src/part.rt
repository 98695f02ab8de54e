//! The part of a problem that a program fixes.

ghost use Rattle.std.specs.Prelude.{◌≡◌, map};
ghost use Rattle.ll_laws.specs.Shown.{clause_tree, HasClauses};

use ll_bank::{Bank, Names};
use ll_laws::{Clause, Module};
use std::marker::Model;

/// The part of a problem that a program fixes. Contracts see its names, its modules and its clauses.
#[derive(Drop)]
pub struct Loaded {
    pub(crate) bank: Bank,
    pub(crate) names: Names,
    pub(crate) modules: Vec<Module>,
    pub(crate) clauses: Vec<Clause>,
}

impl Model for Loaded {
    ghost use Rattle.std.specs.Prelude.{map};
    ghost use Rattle.ll_laws.specs.Shown.{clause_tree, module_tree, HasClauses, HasModules};
    ghost use Rattle.ll_polarity.specs.Asks.{ProgramPart};
    ghost use Rattle.ll_polarity.specs.Loading.{IsNumbered, part_code};

    ghost Value = { ProgramPart };

    ghost coded = { part_code };

    ghost view = { λ l. record {
      names = l.names;
      modules = map (module_tree l.bank) l.modules.items;
      clauses = map (clause_tree l.bank) l.clauses.items;
    } };

    ghost invariant = { λ l. HasModules l.bank l.modules.items
        × HasClauses l.bank l.clauses.items
        × IsNumbered l.names l.modules.items };
}

impl Loaded {
    /// The program's clauses, and the bank that has them.
    pub fn clauses(&self) -> (&Bank, &[Clause])
        ensures inside { HasClauses result.0.now result.1.now }
        ensures clauses { map (clause_tree result.0.now) result.1.now ≡ self.now.clauses }
    {
        (&self.bank, &self.clauses)
    }
}
