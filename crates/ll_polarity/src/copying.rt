//! Copies of the part of a problem that a program fixes.

ghost use Rattle.std.specs.Prelude.{◌≡◌, map, IfOk};
ghost use Rattle.ll_polarity.specs.Copied.{module_row};

use crate::part::Loaded;
use ll_bank::OutOfMemory;
use ll_laws::Module;
use std::alloc::Global;

impl Loaded {
    /// The same part, held so that copies share its names.
    pub(crate) fn shared(self) -> Result<Loaded, OutOfMemory>
        ensures { IfOk result (λ part. part ≡ self) }
    {
        let Loaded {
            bank,
            names,
            modules,
            clauses,
        } = self;
        let names = names.share()?;
        Ok(Loaded {
            bank,
            names,
            modules,
            clauses,
        })
    }

    /// An equal part of its own: its terms, its formulas and its clauses are copied in blocks, and names that are shared stay so.
    pub fn copy(&self, alloc: Global) -> Result<Loaded, OutOfMemory>
        ensures { IfOk result (λ copy. copy ≡ self.now) }
    {
        let clauses = Vec::from_slice(alloc, &self.clauses)?;
        let modules = copied_modules(alloc, &self.modules)?;
        let names = self.names.copy()?;
        let size = self.bank.size();
        let bank = self.bank.image(size)?;
        Ok(Loaded {
            bank,
            names,
            modules,
            clauses,
        })
    }
}

/// The same modules.
fn copied_modules(alloc: Global, modules: &[Module]) -> Result<Vec<Module>, OutOfMemory>
    ensures { IfOk result (λ copy. map module_row copy.items ≡ map module_row modules.now) }
{
    let mut copy = Vec::new(alloc);
    for module in modules {
        let clauses = Vec::from_slice(alloc, &module.clauses)?;
        copy.push(Module { clauses, ..*module })?;
    }
    Ok(copy)
}
