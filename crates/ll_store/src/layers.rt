//! States of stores that are kept in layers, which others share.
ghost use Rattle.std.specs.Prelude.{◌≡◌, suc, length, IfOk, IfSome, IsTrue, OnOk};
ghost use Rattle.ll_store.specs.Stored.{stored, state_of, state_at, IsGood, IsBefore, AreWithin};
ghost use Rattle.ll_store.specs.Segments.{state_after_all, BeginAll, LeadAll};
ghost use Rattle.ll_store.specs.Layered.{segments_of};

use crate::segment::Segment;
use crate::store::{Mark, Store};
use ll_bank::OutOfMemory;
use std::alloc::Global;
use std::marker::Model;
use std::sync::Arc;

/// A state of a store: a whole store, and segments that lead on from it to this state. States that follow on it share them.
///
/// Contracts see the state, and the number of segments.
pub struct Layers {
    whole: Arc<Store>,
    segments: Vec<Arc<Segment>>,
}

// Written out, so that a proof sees one call where it goes, and not one for each part.
impl Drop for Layers {
    fn drop(self) {
        let Layers {
            whole: _,
            segments: _,
        } = self;
    }
}

impl Model for Layers {
    ghost use Rattle.std.specs.Prelude.{length};
    ghost use Rattle.ll_store.specs.Stored.{AreWithin};
    ghost use Rattle.ll_store.specs.Segments.{BeginAll};
    ghost use Rattle.ll_store.specs.Layered.{LayersSight, whole_of, segments_of, layered};

    ghost Value = { LayersSight };

    ghost view = { λ l. layered l.whole l.segments.items };

    ghost invariant = { λ l. AreWithin (whole_of l.whole) × BeginAll (segments_of l.segments.items) (whole_of l.whole) };
}

impl Layers {
    /// The state of this store, with no segment.
    pub fn whole(alloc: Global, store: Store) -> Result<Layers, OutOfMemory>
        requires { AreWithin (state_of (stored store)) }
        ensures { IfOk result (λ l. l ≡ record { state = state_of (stored store); depth = 0 }) }
    {
        Ok(Layers {
            whole: Arc::new(alloc, store)?,
            segments: Vec::new(alloc),
        })
    }

    /// The state of a store at a mark, where it had this state at an earlier one: all layers of this one, and one more.
    pub fn onto(
        &self,
        alloc: Global,
        store: &Store,
        from: Mark,
        to: Mark,
    ) -> Result<Layers, OutOfMemory>
        requires from { IsGood from (stored store.now) }
        requires to { IsGood to (stored store.now) }
        requires order { IsBefore from to }
        requires state { state_at from (stored store.now) ≡ self.now.state }
        ensures { IfOk result (λ l. l ≡ record { state = state_at to (stored store.now); depth = suc self.now.depth }) }
    {
        let led = store.segment(from, to)?;
        let segment = Arc::new(alloc, led)?;
        let mut segments = shared(alloc, &self.segments)?;
        segments.push(segment)?;
        let whole = Arc::try_clone(&self.whole)?;
        Ok(Layers { whole, segments })
    }

    /// The number of segments.
    pub fn depth(&self) -> usize
        ensures { result ≡ self.now.depth }
    {
        self.segments.len()
    }

    /// A store of its own in this state.
    pub fn store(&self) -> Result<Store, OutOfMemory>
        ensures { IfOk result (λ store. state_of (stored store) ≡ self.now.state) }
    {
        let whole: &Store = &self.whole;
        let mut store = whole.image(whole.mark())?;
        store.apply_segments(&self.segments)?;
        Ok(store)
    }

    /// The segments that lead from this state on to another one, where its whole store and its first segments are these: those that it has
    /// besides.
    ///
    /// Parts are these where they hold the same, as data, and lengths are compared first. Of the whole stores this is asked of their cells and
    /// banks, and not of the changes that led there: the state is the same without them. It takes no memory.
    pub fn leading_to<'a>(&self, other: &'a Layers) -> Option<&'a [Arc<Segment>]>
        ensures { IfSome result (λ more. LeadAll (segments_of more.now) self.now.state other.now.state) }
    {
        let count = self.segments.len();
        if count > other.segments.len() {
            return None;
        }
        let first = &other.segments[..count];
        if self.whole.is_alike(&other.whole) && are_same(&self.segments, first) {
            Some(&other.segments[count..])
        } else {
            None
        }
    }
}

impl Store {
    /// Goes on to the state to which segments lead, one after another. After a refusal nothing is said of the store.
    pub fn apply_segments(&mut self, segments: &[Arc<Segment>]) -> Result<(), OutOfMemory>
        requires { BeginAll (segments_of segments.now) (state_of (stored self.old)) }
        ensures { OnOk result (state_of (stored self.new) ≡ state_after_all (segments_of segments.now)
            (state_of (stored self.old))) }
    {
        for segment in segments {
            self.apply_segment(segment)?;
        }
        Ok(())
    }
}

// Whether so many segments are the same, each as the other one at its place.
fn are_same(segments: &[Arc<Segment>], others: &[Arc<Segment>]) -> bool
    requires { length segments.now ≡ length others.now }
    ensures { IsTrue result → segments_of segments.now ≡ segments_of others.now }
{
    for at in 0..segments.len() {
        let segment: &Segment = &segments[at];
        if !segment.is_same(&others[at]) {
            return false;
        }
    }
    true
}

// The same segments once more.
fn shared(alloc: Global, segments: &[Arc<Segment>]) -> Result<Vec<Arc<Segment>>, OutOfMemory>
    ensures { IfOk result (λ made. segments_of made.items ≡ segments_of segments.now) }
{
    let mut made = Vec::with_capacity(alloc, segments.len() + 1)?;
    for segment in segments {
        made.push(Arc::try_clone(segment)?)?;
    }
    Ok(made)
}
