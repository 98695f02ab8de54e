//! Machines that begin with an alternative of a batch that others share, and go on to those of another.
ghost use Rattle.std.specs.Prelude.{◌≡◌, ◌<◌, [], length, IfOk};
ghost use Rattle.std.specs.Arc.{arc_value};
ghost use Rattle.ll_freeze.specs.Parts.{parts_of};
ghost use Rattle.ll_freeze.specs.Indexed.{IsIndexOf};
ghost use Rattle.ll_freeze.specs.Frozen.{alternatives_in, Thaws};
ghost use Rattle.ll_engine.specs.Pointed.{choices_of, IsSound};
ghost use Rattle.ll_engine.specs.Based.{IsBased};
ghost use Rattle.ll_engine.specs.Begun.{Begins};

use crate::ancestor::Ancestor;
use crate::answer::Workshop;
use crate::choices::Choices;
use crate::resume::{begin, index_of};
use ll_bank::OutOfMemory;
use ll_freeze::{Frozen, Machine, advance};
use ll_index::Index;
use ll_laws::Problem;
use std::alloc::Global;
use std::collections::VecDeque;
use std::snapshot::Snapshot;
use std::sync::Arc;

impl<'p> Choices<'p> {
    /// As `resume` gives it, with the batch for what is split off later.
    pub fn resume_shared(
        alloc: Global,
        problem: &'p Problem,
        frozen: Arc<Frozen<'p>>,
        k: u32,
    ) -> Result<Choices<'p>, OutOfMemory>
        requires inside { k < length (alternatives_in (arc_value frozen)) }
        requires of { (arc_value frozen).problem ≡ problem.now }
        ensures sound { IfOk result (λ z. IsSound z.began z) }
        ensures begins { IfOk result (λ z. Begins (arc_value frozen.entry) k z.began (choices_of z)) }
    {
        let index = index_of(alloc, problem, &frozen)?;
        let machine = frozen.thaw(k)?;
        let workshop = Workshop::new(alloc);
        begin_in(alloc, problem, index, machine, workshop, frozen, k)
    }

    /// The same for an alternative of another batch.
    pub fn advance(self, to: Arc<Frozen<'p>>, k: u32) -> Result<Choices<'p>, OutOfMemory>
        requires index { IsIndexOf self.problem.now (arc_value self.index) }
        requires based { IsBased self.machine self.points.items self.ancestor }
        requires inside { k < length (alternatives_in (arc_value to)) }
        requires of { (arc_value to).problem ≡ self.problem.now }
        ensures sound { IfOk result (λ z. IsSound z.began z) }
        ensures begins { IfOk result (λ z. Begins (arc_value to.entry) k z.began (choices_of z)) }
    {
        let Choices {
            alloc,
            problem,
            index,
            machine,
            ancestor,
            workshop,
            ..
        } = self;
        let machine = go_on(machine, ancestor, &to, k)?;
        begin_in(alloc, problem, index, machine, workshop, to, k)
    }
}

// The machine as a batch was frozen, by one that may have been made of another batch.
fn go_on<'p>(
    machine: Machine<'p>,
    ancestor: Option<Ancestor<'p>>,
    to: &Frozen<'p>,
    k: u32,
) -> Result<Machine<'p>, OutOfMemory>
    requires based { IsBased machine [] ancestor }
    requires inside { k < length (alternatives_in to.now) }
    ensures { IfOk result (λ m. Thaws to.entry.now (parts_of m)) }
{
    match ancestor {
        None => to.thaw(k),
        Some(Ancestor { batch, base }) => advance(machine, base, &batch, to),
    }
}

// What begins with an alternative of a batch, by the machine that is thawed of it.
fn begin_in<'p>(
    alloc: Global,
    problem: &'p Problem,
    index: Arc<Index>,
    mut machine: Machine<'p>,
    workshop: Workshop,
    frozen: Arc<Frozen<'p>>,
    k: u32,
) -> Result<Choices<'p>, OutOfMemory>
    requires index { IsIndexOf problem.now (arc_value index) }
    requires thaws { Thaws (arc_value frozen) (parts_of machine) }
    requires inside { k < length (alternatives_in (arc_value frozen)) }
    requires of { (arc_value frozen).problem ≡ problem.now }
    ensures sound { IfOk result (λ z. IsSound z.began z) }
    ensures begins { IfOk result (λ z. Begins (arc_value frozen.entry) k z.began (choices_of z)) }
{
    let base = machine.mark();
    let began = begin(&mut machine, alloc, &frozen, k)?;
    let origin = Snapshot::of(&machine);
    let points = VecDeque::new(alloc);
    Ok(Choices {
        alloc,
        problem,
        index,
        machine,
        points,
        ancestor: Some(Ancestor {
            batch: frozen,
            base,
        }),
        origin,
        began,
        workshop,
    })
}
