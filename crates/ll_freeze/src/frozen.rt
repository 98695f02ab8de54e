//! Frozen choice points.
ghost use Rattle.std.specs.Prelude.{◌≡◌, ◌<◌, ◌+◌, ◌^◌, false, length, Some, slice_get, IfOk, IfSome};
ghost use Rattle.std.specs.Arc.{arc_value};
ghost use Rattle.ll_laws.specs.Valid.{IsValid};
ghost use Rattle.ll_store.specs.Stored.{stored, state_of as store_of, IsBefore};
ghost use Rattle.ll_store.specs.Layered.{segments_of};
ghost use Rattle.ll_freeze.specs.Parts.{parts_of, parts_at, base_of, IsGood};
ghost use Rattle.ll_freeze.specs.Shown.{state_of};
ghost use Rattle.ll_freeze.specs.Fits.{Fits};
ghost use Rattle.ll_freeze.specs.Frozen.{alternatives_in, sight_of, opening, AreTries, FrozenStands, Thaws};
ghost use Rattle.ll_freeze.specs.Onward.{base_in, LeadOn};
ghost use Rattle.ll_freeze.specs.Indexed.{IsIndexOf};

use crate::machine::Machine;
use crate::mark::ChoiceMark;
use crate::rest::Rest;
use ll_bank::OutOfMemory;
use ll_index::Index;
use ll_laws::{Batch, Candidate, Event, Problem};
use ll_store::{Layers, Segment, Store};
use std::alloc::Global;
use std::marker::Model;
use std::sync::Arc;

/// A choice point that workers can share: a machine of its own in a state, and the candidates of the state's goal that are to be tried,
/// or the start of a search.
///
/// Contracts see it as its problem, the state, the bound left, the candidates, and whether it is the start. Each candidate is an
/// alternative, which owes the events and the inferences of the search from the state that it gives; that of the start owes the whole search.
/// Beside it may go an index of the problem's clauses, of which contracts see nothing but that.
#[derive(Drop)]
pub struct Frozen<'p> {
    rest: Rest<'p>,
    // The store, some of which others may share.
    layers: Layers,
    // In the order in which they are tried.
    untried: Vec<Candidate>,
    starts: bool,
    index: Option<Arc<Index>>,
}

impl<'p> Model for Frozen<'p> {
    ghost use Rattle.ll_freeze.specs.Frozen.{FrozenSight, IsFrozen, sight_of};
    ghost use Rattle.ll_freeze.specs.Codes.{frozen_code};
    ghost use Rattle.ll_freeze.specs.Indexed.{IsIndexed};
    ghost use Rattle.std.specs.Prelude.{◌≤◌};
    ghost use Rattle.ll_freeze.specs.Rested.{parts_with};

    ghost Value = { FrozenSight };

    ghost coded = { frozen_code };

    ghost view = { λ f. sight_of (parts_with f.rest f.layers.state) f.untried.items f.starts f.layers.depth };

    ghost invariant = { λ f. IsFrozen (parts_with f.rest f.layers.state) f.untried.items f.starts f.layers.depth × IsIndexed f.rest.problem.now f.index
        × (f.layers.depth ≤ 64) };
}

impl<'p> Batch for Frozen<'p> {
    type Of = Problem;

    type Found = Event;

    ghost use Rattle.ll_freeze.specs.Frozen.{alternatives_in};

    ghost of = { λ batch. batch.problem };

    ghost alternatives = { alternatives_in };

    /// The number of its alternatives.
    fn len(&self) -> u32 {
        self.untried.len() as u32
    }
}

impl<'p> Frozen<'p> {
    /// The start of a valid problem's search, as one alternative, with an index of the problem's clauses.
    pub fn start(alloc: Global, problem: &'p Problem) -> Result<Frozen<'p>, OutOfMemory>
        requires valid { IsValid problem.now }
        ensures { IfOk result (λ f. f ≡ opening problem.entry.now f.base) }
    {
        let index = Index::shared(alloc, problem)?;
        Frozen::start_with(alloc, problem, index)
    }

    /// The same start, with an index of the problem's clauses that was made before.
    pub fn start_with(
        alloc: Global,
        problem: &'p Problem,
        index: Arc<Index>,
    ) -> Result<Frozen<'p>, OutOfMemory>
        requires valid { IsValid problem.now }
        requires index { IsIndexOf problem.now (arc_value index) }
        ensures { IfOk result (λ f. f ≡ opening problem.entry.now f.base) }
    {
        let untried = vec![in alloc; Candidate { label: 0, leaf: 0 }]?;
        let machine = Machine::start(alloc, problem)?;
        let (rest, store) = machine.parted();
        let layers = Layers::whole(alloc, store)?;
        Ok(Frozen {
            rest,
            layers,
            untried,
            starts: true,
            index: Some(index),
        })
    }

    /// A machine's state at a good mark, with some of the candidates of its goal, at most 4,294,967,295 of them, and no index.
    ///
    /// It is a copy: the machine goes on without it.
    pub fn whole(
        machine: &Machine<'p>,
        at: ChoiceMark,
        untried: &[Candidate],
    ) -> Result<Frozen<'p>, OutOfMemory>
        requires good { IsGood at machine.now }
        requires fits { Fits (parts_at at machine.now) }
        requires left { 0 < (parts_at at machine.now).left }
        requires tries { AreTries (state_of (parts_at at machine.now)) untried.now }
        requires count { length untried.now < 2 ^ 32 }
        ensures { IfOk result (λ f. f ≡ sight_of (parts_at at machine.entry.now) untried.now false 0) }
    {
        let alloc = *machine.terms.allocator();
        let untried = Vec::from_slice(alloc, untried)?;
        let store = machine.store.image(at.store)?;
        let layers = Layers::whole(alloc, store)?;
        let rest = machine.rest(at)?;
        Ok(Frozen {
            rest,
            layers,
            untried,
            starts: false,
            index: None,
        })
    }

    /// The same, for a machine that was in the state of another batch at a good mark, its base, which is not past this one. The batch
    /// shares the store of the other one, and adds what came since the base. No batch shares with more than 64 others.
    pub fn onto(
        ancestor: &Frozen<'p>,
        machine: &Machine<'p>,
        base: ChoiceMark,
        at: ChoiceMark,
        untried: &[Candidate],
    ) -> Result<Frozen<'p>, OutOfMemory>
        requires good { IsGood at machine.now }
        requires fits { Fits (parts_at at machine.now) }
        requires left { 0 < (parts_at at machine.now).left }
        requires tries { AreTries (state_of (parts_at at machine.now)) untried.now }
        requires count { length untried.now < 2 ^ 32 }
        requires good_base { IsGood base machine.now }
        requires base { base_of (parts_at base machine.now) ≡ ancestor.now.base }
        requires order { IsBefore base.store at.store }
        requires depth { ancestor.now.depth < 64 }
        ensures { IfOk result (λ f. f ≡ sight_of (parts_at at machine.entry.now) untried.now false
            (ancestor.entry.now.depth + 1)) }
    {
        let alloc = *machine.terms.allocator();
        let untried = Vec::from_slice(alloc, untried)?;
        let layers = ancestor
            .layers
            .onto(alloc, &machine.store, base.store, at.store)?;
        let rest = machine.rest(at)?;
        Ok(Frozen {
            rest,
            layers,
            untried,
            starts: false,
            index: None,
        })
    }

    /// How many batches it shares with: none where it was made by `start` or `whole`, and one more than its ancestor where it was made by
    /// `onto`.
    pub fn depth(&self) -> u32
        ensures { result ≡ self.now.depth }
    {
        self.layers.depth() as u32
    }

    /// A machine of its own in the state as it was frozen, for an alternative. It is the same for each of them.
    pub fn thaw(&self, k: u32) -> Result<Machine<'p>, OutOfMemory>
        requires inside { k < length (alternatives_in self.now) }
        ensures { IfOk result (λ m. Thaws self.entry.now (parts_of m)) }
    {
        let _k = k;
        self.machine()
    }

    /// A machine of its own in the state as it was frozen.
    pub(crate) fn machine(&self) -> Result<Machine<'p>, OutOfMemory>
        ensures { IfOk result (λ m. Thaws self.entry.now (parts_of m)) }
    {
        let store = self.layers.store()?;
        self.machine_over(store)
    }

    /// The same over a store that is in its state: all else is an image.
    pub(crate) fn machine_over(&self, store: Store) -> Result<Machine<'p>, OutOfMemory>
        requires { base_in (store_of (stored store)) ≡ self.now.base }
        ensures { IfOk result (λ m. Thaws self.entry.now (parts_of m)) }
    {
        let machine = self.rest.machine(store)?;
        Ok(machine)
    }

    /// The segments that another batch has besides, where the layers of this one's store are the first of the other's.
    pub(crate) fn leading_to<'a>(&self, other: &'a Frozen<'p>) -> Option<&'a [Arc<Segment>]>
        ensures { IfSome result (λ more. LeadOn (segments_of more.now) self.entry.now.base other.entry.now.base) }
    {
        self.layers.leading_to(&other.layers)
    }

    /// The candidate of an alternative. That of the start has label 0 and leaf 0, and is not used.
    pub fn candidate(&self, k: u32) -> Candidate
        requires inside { k < length (alternatives_in self.now) }
        ensures { slice_get self.entry.now.untried k ≡ Some result }
    {
        self.untried[k as usize]
    }

    /// Whether this is the start of a search. Its state is then the one in which the search starts.
    pub fn is_start(&self) -> bool
        ensures is { result ≡ self.entry.now.starts }
        ensures stands { FrozenStands self.entry.now }
    {
        self.starts
    }

    /// The same choice point, with an index of the problem's clauses beside it.
    pub fn with_index(self, index: Arc<Index>) -> Frozen<'p>
        requires index { IsIndexOf self.problem (arc_value index) }
        ensures { result ≡ self.entry }
    {
        shared(Frozen {
            index: Some(index),
            ..self
        })
    }

    /// The index of the problem's clauses, if there is one beside it.
    pub fn index(&self) -> Result<Option<Arc<Index>>, OutOfMemory>
        ensures { IfOk result (λ o. IfSome o (λ x. IsIndexOf self.entry.now.problem (arc_value x))) }
    {
        match &self.index {
            None => Ok(None),
            Some(index) => Ok(Some(Arc::try_clone(index)?)),
        }
    }
}

// A value that can be sent to threads and shared between them, as a frozen choice point is.
fn shared<T: Send + Sync>(value: T) -> T
    ensures { result ≡ value }
{
    value
}
