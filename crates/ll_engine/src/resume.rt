//! Machines that begin with an alternative of a frozen choice point.
ghost use Rattle.std.specs.Prelude.{◌≡◌, ◌<◌, length, IfOk};
ghost use Rattle.std.specs.Arc.{arc_value};
ghost use Rattle.ll_freeze.specs.Parts.{parts_of, Later};
ghost use Rattle.ll_freeze.specs.Indexed.{IsIndexOf};
ghost use Rattle.ll_freeze.specs.Frozen.{alternatives_in, Thaws};
ghost use Rattle.ll_engine.specs.Pointed.{choices_of, IsSound};
ghost use Rattle.ll_engine.specs.Begun.{BeginsIn, Begins};

use crate::answer::Workshop;
use crate::attempt::attempt;
use crate::choices::Choices;
use ll_bank::OutOfMemory;
use ll_freeze::{Frozen, Machine};
use ll_index::Index;
use ll_laws::Problem;
use std::alloc::Global;
use std::collections::VecDeque;
use std::snapshot::Snapshot;
use std::sync::Arc;

impl<'p> Choices<'p> {
    /// The state that an alternative gives, with no choice point; that of the start is the one in which the search starts.
    pub fn resume(
        alloc: Global,
        problem: &'p Problem,
        frozen: &Frozen<'p>,
        k: u32,
    ) -> Result<Choices<'p>, OutOfMemory>
        requires inside { k < length (alternatives_in frozen.now) }
        requires of { frozen.now.problem ≡ problem.now }
        ensures sound { IfOk result (λ z. IsSound z.began z) }
        ensures begins { IfOk result (λ z. Begins frozen.now k z.began (choices_of z)) }
    {
        let index = index_of(alloc, problem, frozen)?;
        let machine = frozen.thaw(k)?;
        begin_alone(alloc, problem, index, machine, frozen, k)
    }
}

// What begins with an alternative of a frozen choice point, by the machine that is thawed of it.
fn begin_alone<'p>(
    alloc: Global,
    problem: &'p Problem,
    index: Arc<Index>,
    mut machine: Machine<'p>,
    frozen: &Frozen<'p>,
    k: u32,
) -> Result<Choices<'p>, OutOfMemory>
    requires index { IsIndexOf problem.now (arc_value index) }
    requires thaws { Thaws frozen.now (parts_of machine) }
    requires inside { k < length (alternatives_in frozen.now) }
    requires of { frozen.now.problem ≡ problem.now }
    ensures sound { IfOk result (λ z. IsSound z.began z) }
    ensures begins { IfOk result (λ z. Begins frozen.now k z.began (choices_of z)) }
{
    let began = begin(&mut machine, alloc, frozen, k)?;
    let origin = Snapshot::of(&machine);
    let points = VecDeque::new(alloc);
    let workshop = Workshop::new(alloc);
    Ok(Choices {
        alloc,
        problem,
        index,
        machine,
        points,
        ancestor: None,
        origin,
        began,
        workshop,
    })
}

/// The index that goes with a frozen choice point of a problem, or one that is made.
pub fn index_of(
    alloc: Global,
    problem: &Problem,
    frozen: &Frozen<'_>,
) -> Result<Arc<Index>, OutOfMemory>
    requires of { frozen.now.problem ≡ problem.now }
    ensures { IfOk result (λ index. IsIndexOf problem.now (arc_value index)) }
{
    if let Some(index) = frozen.index()? {
        return Ok(index);
    }
    Index::shared(alloc, problem)
}

/// Makes the inference of an alternative in its state, if it is not the start; false where it gives nothing.
pub fn begin(
    machine: &mut Machine<'_>,
    alloc: Global,
    frozen: &Frozen<'_>,
    k: u32,
) -> Result<bool, OutOfMemory>
    requires inside { k < length (alternatives_in frozen.now) }
    requires thaws { Thaws frozen.now (parts_of machine.old) }
    ensures begins { IfOk result (λ began. BeginsIn frozen.now k began (parts_of machine.new)) }
    ensures later { IfOk result (λ _. Later machine.old machine.new) }
{
    if frozen.is_start() {
        return Ok(true);
    }
    attempt(machine, alloc, frozen.candidate(k))
}
