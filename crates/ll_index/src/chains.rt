//! Places of a list of keys, each with the next place of the same key.
ghost use Rattle.std.specs.Prelude.{◌≡◌, ◌<◌, ◌≤◌, ℕ, length, IfOk, slice_index};

use crate::key::{Key, in_32_bits};
use indexmap::IndexMap;
use ll_bank::OutOfMemory;
use std::alloc::Global;

/// For each key of a list its first place, and for each place the next one of the same key. Past the last one stands the end, which is
/// the length of the list.
#[derive(Drop)]
pub(crate) struct Chains {
    pub(crate) first: IndexMap<Key, u32>,
    pub(crate) next: Vec<u32>,
    ghost rising: { (at : ℕ) → at < length next.items → (at < slice_index next.items at) × (slice_index next.items at ≤ length next.items) },
}

impl Chains {
    ghost use Rattle.ll_index.specs.Keys.{IsChained, first_place};

    /// The chains of a list of keys.
    pub(crate) fn build(alloc: Global, keys: &[Key]) -> Result<Chains, OutOfMemory>
        ensures { IfOk result (IsChained keys.now) }
    {
        let end = in_32_bits(keys.len())?;
        let mut first = IndexMap::new(alloc);
        let mut next = vec![in alloc; end; keys.len()]?;
        for at in (0..keys.len()).rev() {
            next[at] = first.insert(keys[at], at as u32)?.unwrap_or(end);
        }
        Ok(Chains { first, next })
    }

    /// The first place of a key, or `end` where it has none.
    pub(crate) fn first(&self, key: Key, end: u32) -> u32
        ensures { result ≡ first_place self.now key end }
    {
        match self.first.get(&key) {
            Some(at) => *at,
            None => end,
        }
    }
}
