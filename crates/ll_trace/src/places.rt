//! What the nodes of a list pick, found by the label.
ghost use Rattle.std.specs.Prelude.{◌≡◌, ◌++◌, ◌∷◌, [], ℕ, IfOk, OnOk};
ghost use Rattle.std.specs.List.{list_any};
ghost use Rattle.std.specs.Ordering.{nat_cmp};
ghost use Rattle.std.specs.BTreeMap.{get};
ghost use Rattle.ll_trace.specs.Picks.{is_used_between};
ghost use Rattle.ll_trace.specs.Places.{AreIndexed, RisesFrom, is_hit, places_of, row_of, BeginsAt};

use crate::picks::Pick;
use ll_bank::OutOfMemory;
use std::alloc::Global;
use std::collections::BTreeMap;
use std::marker::Model;

/// Where a label is picked, and at which level.
#[derive(Clone, Copy)]
pub(crate) struct Place {
    at: usize,
    level: usize,
}

/// What the nodes of a list pick. Contracts see the picks of the nodes, in their order.
#[derive(Drop)]
pub(crate) struct Uses {
    picks: Vec<Option<Pick>>,
    /// For each label its places, in rising order.
    places: BTreeMap<u32, Vec<Place>>,
}

impl Model for Uses {
    ghost use Rattle.std.specs.Prelude.{List, Option};
    ghost use Rattle.std.specs.Ordering.{nat_cmp};
    ghost use Rattle.std.specs.BTreeMap.{get};
    ghost use Rattle.ll_trace.specs.Places.{AreIndexed};
    ghost use Rattle.ll_trace.specs.declared.picks.Pick.{Pick as PickView};

    ghost Value = { List (Option PickView) };

    ghost view = { λ u. u.picks.items };

    ghost invariant = { λ u. AreIndexed (get nat_cmp u.places) u.picks.items };
}

impl Uses {
    /// The uses of nodes with these picks.
    pub(crate) fn new(alloc: Global, picks: Vec<Option<Pick>>) -> Result<Self, OutOfMemory>
        ensures { IfOk result (λ uses. uses ≡ picks.items) }
    {
        let places = index(alloc, &picks)?;
        Ok(Uses { picks, places })
    }

    /// Whether a node between two places picks a label at a level. It takes a time that grows with the logarithm of the number of
    /// places, but for places of other levels.
    pub(crate) fn is_used(&self, label: u32, level: usize, from: usize, to: usize) -> bool
        ensures { result ≡ is_used_between self.now label level from to }
    {
        match self.places.get(&label) {
            None => false,
            Some(row) => has_level(row, level, from, to),
        }
    }
}

// The places of each label.
fn index(alloc: Global, picks: &[Option<Pick>]) -> Result<BTreeMap<u32, Vec<Place>>, OutOfMemory>
    ensures { IfOk result (λ places. AreIndexed (get nat_cmp places) picks.now) }
{
    let mut places = BTreeMap::new(alloc);
    for at in 0..picks.len() {
        if let Some(pick) = picks[at] {
            add_place(alloc, &mut places, pick, at)?;
        }
    }
    Ok(places)
}

// One place more for a label.
fn add_place(
    alloc: Global,
    places: &mut BTreeMap<u32, Vec<Place>>,
    pick: Pick,
    at: usize,
) -> Result<(), OutOfMemory>
    ensures { OnOk result ((n : ℕ) → row_of (get nat_cmp places.new n) ≡ row_of (get nat_cmp places.old n)
        ++ places_of n at (Some pick ∷ [])) }
{
    let mut row = places.remove(&pick.label).unwrap_or(Vec::new(alloc));
    row.push(Place {
        at,
        level: pick.level,
    })?;
    places.insert(pick.label, row)?;
    Ok(())
}

// Whether one of some rising places between two bounds has a level.
fn has_level(row: &[Place], level: usize, from: usize, to: usize) -> bool
    requires { RisesFrom 0 row.now }
    ensures { result ≡ list_any (is_hit level from to) row.now }
{
    let start = first_from(row, from);
    for index in start..row.len() {
        if row[index].at >= to {
            return false;
        }
        if row[index].level == level {
            return true;
        }
    }
    false
}

// The number of rising places below a bound.
fn first_from(row: &[Place], from: usize) -> usize
    requires { RisesFrom 0 row.now }
    ensures { BeginsAt row.now from result }
{
    let mut low = 0;
    let mut high = row.len();
    'halves: while low < high {
        let middle = low + (high - low) / 2;
        if row[middle].at < from {
            low = middle + 1;
        } else {
            high = middle;
        }
    }
    low
}
