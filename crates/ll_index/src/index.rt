//! The index of a program's clauses.
ghost use Rattle.std.specs.Prelude.{◌≡◌, ◌<◌, ◌^◌, length, map};
ghost use Rattle.ll_index.specs.declared.laws.First.TheVariants.{Open};
ghost use Rattle.ll_index.specs.declared.key.Key.TheVariants.{Named};
ghost use Rattle.ll_index.specs.Keys.{first_place, IsChained};
ghost use Rattle.ll_index.specs.Rows.{HasRows, has_sign, without_sign};

use crate::chains::Chains;
use crate::key::{Key, in_32_bits};
use crate::laws::First;
use crate::leaves::{Leaf, Premise, leaves_of};
use crate::linking::{keys_of, place_behind};
use crate::rows::{LONG, Row, row_of, rows_of};
use ll_agenda::{Agenda, Top};
use ll_bank::{Bank, OutOfMemory};
use ll_laws::{Clause, Problem};
use std::alloc::Global;
use std::sync::Arc;

/// The leaves of a program's clauses, in order, found by the predicate of their heads and the outermost sign of the first argument.
///
/// It has no lists but those of the premises: each leaf leads to the next one of its predicate, and to the next one of its predicate and
/// sign. For each name a row says where its leaves begin, so that most look-ups take no hash. `IsIndex` says of which clauses it is, and
/// in which bank its places are.
pub struct Index {
    leaves: Vec<Leaf>,
    premises: Agenda<Premise>,
    // By predicate, and by predicate and sign.
    predicates: Chains,
    signs: Chains,
    // The leaves' keys by predicate and sign, and a row for each name.
    keys: Vec<Key>,
    rows: Vec<Row>,
    ghost places: { length leaves.items < 2 ^ 32 },
    ghost by_predicate: { length predicates.next.items ≡ length leaves.items },
    ghost by_sign: { length signs.next.items ≡ length leaves.items },
    ghost by_key: { length keys.items ≡ length leaves.items },
    ghost chained: { IsChained (map without_sign keys.items) predicates },
    ghost signed: { IsChained keys.items signs },
    ghost named: { HasRows keys.items rows.items },
}

// Written out, so that a proof sees one call where it goes, and not one for each part.
impl Drop for Index {
    fn drop(self) {
        let Index {
            leaves: _,
            premises: _,
            predicates: _,
            signs: _,
            keys: _,
            rows: _,
        } = self;
    }
}

/// A place among the leaves of an index that match an atom. `left` is the list of those that are still to come.
#[derive(Clone, Copy)]
pub struct Cursor {
    by_sign: bool,
    // The next leaf of the atom's own sign, and the next one whose sign clashes with none.
    first: u32,
    second: u32,
}

impl Index {
    ghost use Rattle.std.specs.Prelude.{◌≡◌, ◌∷◌, ◌↔◌, ℕ, [], map, IfOk, IfSome, IsNone};
    ghost use Rattle.std.specs.Arc.{arc_value};
    ghost use Rattle.ll_agenda.specs.Frames.{items_at, HasTop, BeginsWith};
    ghost use Rattle.ll_laws.specs.Shown.{clause_tree, HasClauses};
    ghost use Rattle.ll_index.specs.Index.{HasIndex, IsIndex, IsLeafOf, IsFoundAt, ListsMatches, chains_of, premises_of, left};

    /// The index of a problem's program clauses.
    pub fn build(alloc: Global, problem: &Problem) -> Result<Index, OutOfMemory>
        ensures { IfOk result (HasIndex problem.now.clauses) }
    {
        Index::over(alloc, &problem.bank, &problem.clauses)
    }

    /// The same index, to be shared by the searches of problems with these clauses.
    pub fn shared(alloc: Global, problem: &Problem) -> Result<Arc<Index>, OutOfMemory>
        ensures { IfOk result (λ index. HasIndex problem.now.clauses (arc_value index)) }
    {
        let index = Index::build(alloc, problem)?;
        Ok(Arc::new(alloc, index)?)
    }

    /// The index of program clauses that are places of a bank, in time and memory linear in the clauses and in the greatest number of a
    /// name in front of a leaf's head. Their labels are their places in the list.
    pub fn over(alloc: Global, bank: &Bank, clauses: &[Clause]) -> Result<Index, OutOfMemory>
        requires { HasClauses bank.now clauses.now }
        ensures { IfOk result (IsIndex bank.now (map (clause_tree bank.now) clauses.now)) }
    {
        let (leaves, premises) = leaves_of(alloc, bank, clauses)?;
        in_32_bits(leaves.len())?;
        let by_predicate = keys_of(alloc, bank, &leaves, false)?;
        let predicates = Chains::build(alloc, &by_predicate)?;
        let keys = keys_of(alloc, bank, &leaves, true)?;
        let signs = Chains::build(alloc, &keys)?;
        let rows = rows_of(alloc, &keys)?;
        Ok(Index {
            leaves,
            premises,
            predicates,
            signs,
            keys,
            rows,
        })
    }

    /// The leaves whose heads can match an atom: those of its predicate, less those whose first arguments have an outermost sign that
    /// clashes with this one. They are in the order of labels, and within a clause from left to right.
    ///
    /// It takes no memory, and no longer for more leaves. At most one hash is taken where the leaves of the name have one number of
    /// arguments, and none where they are fewer than 8 or no sign is asked for.
    pub fn candidates(&self, name: u32, arity: u32, first: First) -> Cursor
        ensures { ListsMatches self.now name arity first result }
    {
        let end = self.leaves.len() as u32;
        let row = row_of(&self.rows, name, end);
        if row.mixed {
            return self.looked_up(name, arity, first, end);
        }
        let by_sign = first != First::Open;
        if arity != row.arity {
            return Cursor {
                by_sign,
                first: end,
                second: end,
            };
        }
        if !by_sign {
            return Cursor {
                by_sign,
                first: row.first,
                second: row.first,
            };
        }
        let own = if row.count < LONG {
            self.walked(row.first, first)
        } else {
            self.signs.first(Key::Named { name, arity, first }, end)
        };
        Cursor {
            by_sign,
            first: own,
            second: row.signless,
        }
    }

    /// The leaf at a cursor, with the cursor behind it. `None` exactly where none is left.
    ///
    /// It takes no memory, and constant time.
    pub fn next(&self, cursor: Cursor) -> Option<(Leaf, Cursor)>
        ensures none { IsNone result ↔ (left self.now cursor ≡ []) }
        ensures some { IfSome result (λ next. left self.now cursor ≡ next.0 ∷ left self.now next.1) }
        ensures leaf { IfSome result (λ next. IsLeafOf self.now next.0) }
    {
        let place = cursor.first.min(cursor.second);
        let leaf = *self.leaves.get(place as usize)?;
        let next = self.chains(cursor.by_sign).next[place as usize];
        Some((
            leaf,
            Cursor {
                by_sign: cursor.by_sign,
                first: place_behind(cursor.first, place, next),
                second: place_behind(cursor.second, place, next),
            },
        ))
    }

    /// The first premise of a list, with the list behind it. `None` exactly for the empty list.
    pub fn premise(&self, premises: Top) -> Option<(Premise, Top)>
        requires { HasTop (premises_of self.now) premises }
        ensures none { IsNone result ↔ (items_at (premises_of self.now) premises ≡ []) }
        ensures some { IfSome result (λ first. BeginsWith (premises_of self.now) premises first.0 first.1) }
    {
        self.premises.item(premises)
    }

    // The cursor for an atom, by its key: two look-ups by a hash.
    fn looked_up(&self, name: u32, arity: u32, first: First, end: u32) -> Cursor
        ensures { IsFoundAt self.now name arity first end result }
    {
        let by_sign = first != First::Open;
        let chains = self.chains(by_sign);
        let own = chains.first(Key::Named { name, arity, first }, end);
        Cursor {
            by_sign,
            first: own,
            second: first_open(chains, name, arity, first, own, end),
        }
    }

    // The first leaf with a sign, by a walk along the chain of its predicate from its first leaf on.
    fn walked(&self, from: u32, first: First) -> u32
        ensures { (name arguments : ℕ)
            → from ≡ first_place self.now.predicates (Named name arguments Open) (length self.now.keys.items)
            → result ≡ first_place self.now.signs (Named name arguments first) (length self.now.keys.items) }
    {
        let mut at = from;
        'walk: while (at as usize) < self.keys.len() {
            if has_sign(&self.keys[at as usize], first) {
                return at;
            }
            at = self.predicates.next[at as usize];
        }
        at
    }

    // By predicate and sign, or by predicate.
    fn chains(&self, by_sign: bool) -> &Chains
        ensures { result.now ≡ chains_of self.now by_sign }
    {
        if by_sign {
            &self.signs
        } else {
            &self.predicates
        }
    }
}

// The first leaf of a predicate whose sign clashes with none. Where no sign is asked for it is the one that was found.
fn first_open(chains: &Chains, name: u32, arity: u32, first: First, found: u32, end: u32) -> u32
    requires { found ≡ first_place chains.now (Named name arity first) end }
    ensures { result ≡ first_place chains.now (Named name arity Open) end }
{
    let open = Key::Named {
        name,
        arity,
        first: First::Open,
    };
    match first {
        First::Open => found,
        First::Int(_) => chains.first(open, end),
        First::Head(_, _) => chains.first(open, end),
    }
}

// Whether a key has this sign.
fn has_sign(key: &Key, first: First) -> bool
    ensures { result ≡ has_sign first key.now }
{
    match *key {
        Key::Unnamed => false,
        Key::Named { first: other, .. } => other == first,
    }
}
