//! Places that are known to show the same.
ghost use Rattle.std.specs.Prelude.{◌≡◌, ◌≤◌, ◌<◌, ℕ, length, OnOk, slice_index};
ghost use Rattle.ll_bank.specs.Nodes.{Nodes};
ghost use Rattle.ll_unify.specs.Bindings.{Table as TableView};
ghost use Rattle.ll_unify.specs.Pairs.{AreBelow, AreClasses, IsClass, AreJoined};

use ll_bank::{At, OutOfMemory};
use std::alloc::Global;

/// After so many steps what was done is remembered, so that parts that are shared are passed through once.
const PLAIN_STEPS: usize = 1000;

/// Whether after so many steps it is worth while to remember a place: a list up to the place is not longer than the steps were many.
pub fn is_worth(steps: usize, place: usize) -> bool {
    steps > PLAIN_STEPS && steps - PLAIN_STEPS > place
}

/// Makes a list of places longer, each by itself, so that it has this one.
pub fn grow(list: &mut Vec<usize>, to: usize) -> Result<(), OutOfMemory>
    ensures inside { OnOk result (to < length list.new.items) }
    ensures classes { OnOk result ((nodes : Nodes) (t : TableView) → AreClasses nodes t list.old.items
        → AreClasses nodes t list.new.items) }
{
    'fill: while list.len() <= to {
        let place = list.len();
        list.push(place)?;
    }
    Ok(())
}

/// For each of the first places one at or below it that is known to show the same.
#[derive(Drop)]
pub struct Classes {
    pub up: Vec<usize>,
    steps: usize,
}

impl Classes {
    /// Nothing is known.
    pub fn new(alloc: Global) -> Self
        ensures { (nodes : Nodes) (t : TableView) → AreClasses nodes t result.up.items }
    {
        Classes {
            up: Vec::new(alloc),
            steps: 0,
        }
    }

    /// The place that stands for a place.
    pub fn find(&mut self, at: At) -> At
        requires { AreBelow self.old.up.items }
        ensures classes { (nodes : Nodes) (t : TableView) → AreClasses nodes t self.old.up.items
            → AreClasses nodes t self.new.up.items }
        ensures class { (nodes : Nodes) (t : TableView) → AreClasses nodes t self.old.up.items
            → IsClass nodes t at.0 result.0 }
    {
        if at.0 < self.up.len() {
            self.lowest(at.0)
        } else {
            at
        }
    }

    // The lowest place of a list that stands for one of its places.
    fn lowest(&mut self, at: usize) -> At
        requires inside { at < length self.old.up.items }
        requires below { AreBelow self.old.up.items }
        ensures classes { (nodes : Nodes) (t : TableView) → AreClasses nodes t self.old.up.items
            → AreClasses nodes t self.new.up.items }
        ensures class { (nodes : Nodes) (t : TableView) → AreClasses nodes t self.old.up.items
            → IsClass nodes t at result.0 }
    {
        let mut place = at;
        while self.up[place] != place {
            let next = self.up[self.up[place]];
            self.up[place] = next;
            place = next;
        }
        At(place)
    }

    // The first place stands for the second from now on.
    fn lead(&mut self, low: usize, high: usize) -> Result<(), OutOfMemory>
        requires { low ≤ high }
        ensures { OnOk result ((nodes : Nodes) (t : TableView) → AreClasses nodes t self.old.up.items
            → AreJoined nodes t low high → AreClasses nodes t self.new.up.items) }
    {
        self.steps = self.steps.saturating_add(1);
        if !is_worth(self.steps, high) {
            return Ok(());
        }
        grow(&mut self.up, high)?;
        self.up[high] = low;
        Ok(())
    }

    /// Notes that two places show the same, where that is worth its cost.
    pub fn join(&mut self, left: At, right: At) -> Result<(), OutOfMemory>
        ensures { OnOk result ((nodes : Nodes) (t : TableView) → AreClasses nodes t self.old.up.items
            → AreJoined nodes t left.0 right.0 → AreClasses nodes t self.new.up.items) }
    {
        if left.0 < right.0 {
            self.lead(left.0, right.0)
        } else {
            self.lead(right.0, left.0)
        }
    }
}
