//! Indexes of clauses, for searches that share one.
ghost use Rattle.std.specs.Prelude.{IfOk};
ghost use Rattle.std.specs.Arc.{arc_value};
ghost use Rattle.ll_index.specs.Index.{HasIndex};

use ll_bank::OutOfMemory;
use ll_index::Index;
use ll_polarity::Loaded;
use std::alloc::Global;
use std::sync::Arc;

/// An index of the clauses of a program that was loaded: each problem that is asked of the program has these clauses.
pub fn program_index(alloc: Global, loaded: &Loaded) -> Result<Arc<Index>, OutOfMemory>
    ensures { IfOk result (λ index. HasIndex loaded.now.clauses (arc_value index)) }
{
    let (bank, clauses) = loaded.clauses();
    let index = Index::over(alloc, bank, clauses)?;
    Ok(Arc::new(alloc, index)?)
}
