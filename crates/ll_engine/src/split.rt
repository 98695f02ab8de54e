//! Choice points that are split off a machine, for others to work on.
ghost use Rattle.std.specs.Prelude.{◌≡◌, ◌∷◌, [], false, reverse, IfOk};
ghost use Rattle.std.specs.Arc.{arc_value};
ghost use Rattle.ll_freeze.specs.Indexed.{IsIndexOf};
ghost use Rattle.ll_freeze.specs.Parts.{parts_of, parts_at, IsGood};
ghost use Rattle.ll_freeze.specs.Frozen.{sight_of};
ghost use Rattle.ll_engine.specs.Based.{IsBased};
ghost use Rattle.ll_engine.specs.Pointed.{choices_of, helds, held_of, IsSound, IsKept, AreKept, AreMarks};
ghost use Rattle.ll_engine.specs.Turned.{has_none};
ghost use Rattle.ll_engine.specs.Splits.{TakesOldest};

use crate::ancestor::Ancestor;
use crate::choices::{ChoicePoint, Choices};
use crate::heads::in_32_bits;
use ll_bank::OutOfMemory;
use ll_freeze::{Frozen, Machine};
use ll_index::Index;
use std::sync::Arc;

// With how many batches one may share.
const MOST_SHARED: u32 = 64;

impl<'p> Choices<'p> {
    /// Takes the oldest choice point away, as a batch of its own. Where it has more candidates than a `u32` counts, memory runs out.
    pub fn split(&mut self) -> Result<Frozen<'p>, OutOfMemory>
        requires index { IsIndexOf self.old.problem.now (arc_value self.old.index) }
        requires kept { AreKept self.old.problem.now (helds self.old.machine self.old.points.items) }
        requires marks { AreMarks self.old.machine self.old.points.items }
        requires based { IsBased self.old.machine self.old.points.items self.old.ancestor }
        requires points { has_none (choices_of self.old).points ≡ false }
        ensures sound { IfOk result (λ _. (running : _) → IsSound running self.old → IsSound running self.new) }
        ensures takes { IfOk result (λ b. TakesOldest (choices_of self.old) b (choices_of self.new)) }
    {
        match self.points.pop_front() {
            None => unreachable!(),
            Some(kept) => split_off(&self.machine, &self.ancestor, &self.index, kept),
        }
    }
}

// A choice point of a machine, as a batch with the index of its problem.
fn split_off<'p>(
    machine: &Machine<'p>,
    ancestor: &Option<Ancestor<'p>>,
    index: &Arc<Index>,
    kept: ChoicePoint,
) -> Result<Frozen<'p>, OutOfMemory>
    requires good { IsGood kept.mark machine.now }
    requires kept { IsKept machine.now.problem.now (held_of machine.now kept) }
    requires based { IsBased machine.now (kept ∷ []) ancestor.now }
    requires index { IsIndexOf machine.now.problem.now (arc_value index.now) }
    ensures { IfOk result (λ f. f ≡ sight_of (parts_at kept.mark machine.entry.now)
        (reverse kept.untried.items) false f.depth) }
{
    let batch = frozen(machine, ancestor, kept)?;
    let index = Arc::try_clone(index)?;
    Ok(batch.with_index(index))
}

// A choice point of a machine, as a batch. It shares the store of the batch that the machine was made of, if there is one that does not share
// with too many.
fn frozen<'p>(
    machine: &Machine<'p>,
    ancestor: &Option<Ancestor<'p>>,
    kept: ChoicePoint,
) -> Result<Frozen<'p>, OutOfMemory>
    requires good { IsGood kept.mark machine.now }
    requires kept { IsKept machine.now.problem.now (held_of machine.now kept) }
    requires based { IsBased machine.now (kept ∷ []) ancestor.now }
    ensures { IfOk result (λ f. f ≡ sight_of (parts_at kept.mark machine.entry.now)
        (reverse kept.untried.items) false f.depth) }
{
    let mut untried = kept.untried;
    in_32_bits(untried.len())?;
    untried.reverse();
    if let Some(ancestor) = ancestor {
        if ancestor.batch.depth() < MOST_SHARED {
            return Frozen::onto(&ancestor.batch, machine, ancestor.base, kept.mark, &untried);
        }
    }
    Frozen::whole(machine, kept.mark, &untried)
}
