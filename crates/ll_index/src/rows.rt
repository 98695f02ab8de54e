//! For each name a row: where the leaves begin that have it in front of their heads. With it most look-ups take no hash.
ghost use Rattle.std.specs.Prelude.{◌≡◌, ◌≤◌, All, IfOk};
ghost use Rattle.ll_index.specs.Rows.{HasRows, row_at, no_row, with_leaf, IsNamedBelow};

use crate::key::{Key, in_32_bits};
use crate::laws::First;
use ll_bank::OutOfMemory;
use std::alloc::Global;

/// Names with so many leaves and more are long: a walk along them would take longer than a hash.
pub(crate) const LONG: u8 = 8;

/// What the leaves are that have a name in front of their heads.
#[derive(Clone, Copy)]
pub(crate) struct Row {
    /// The place of the first one, or the end where there is none.
    pub(crate) first: u32,
    /// The place of the first one whose sign clashes with none, or the end.
    pub(crate) signless: u32,
    /// The number of arguments of the first one.
    pub(crate) arity: u32,
    /// How many there are, or `LONG` where there are more.
    pub(crate) count: u8,
    /// Not all of them have the same number of arguments.
    pub(crate) mixed: bool,
}

impl Row {
    /// The row of a name that has no leaf.
    pub(crate) fn none(end: u32) -> Row
        ensures { result ≡ no_row end }
    {
        Row {
            first: end,
            signless: end,
            arity: 0,
            count: 0,
            mixed: false,
        }
    }

    /// With one leaf more, before the others.
    fn with_leaf(self, at: u32, arity: u32, first: First) -> Row
        ensures { result ≡ with_leaf at arity first self }
    {
        Row {
            first: at,
            signless: match first {
                First::Open => at,
                First::Int(_) => self.signless,
                First::Head(_, _) => self.signless,
            },
            arity,
            count: if self.count < LONG {
                self.count + 1
            } else {
                LONG
            },
            mixed: self.mixed || self.count > 0 && self.arity != arity,
        }
    }
}

/// The rows of all names that have a leaf, by their numbers, from the leaves' keys.
pub(crate) fn rows_of(alloc: Global, keys: &[Key]) -> Result<Vec<Row>, OutOfMemory>
    ensures { IfOk result (λ rows. HasRows keys.now rows.items) }
{
    let end = in_32_bits(keys.len())?;
    let mut rows = vec![in alloc; Row::none(end); names_of(keys)]?;
    for at in (0..keys.len()).rev() {
        if let Key::Named { name, arity, first } = keys[at] {
            rows[name as usize] = rows[name as usize].with_leaf(at as u32, arity, first);
        }
    }
    Ok(rows)
}

/// The least number above those of all names in keys.
fn names_of(keys: &[Key]) -> usize
    ensures { All (IsNamedBelow result) keys.now }
{
    let mut names = 0;
    for at in 0..keys.len() {
        names = names_with(names, keys[at]);
    }
    names
}

/// With the name of one key more.
fn names_with(names: usize, key: Key) -> usize
    ensures grows { names ≤ result }
    ensures below { IsNamedBelow result key }
{
    match key {
        Key::Unnamed => names,
        Key::Named { name, .. } => names.max(name as usize + 1),
    }
}

/// The row of a name, in an index of so many leaves.
pub(crate) fn row_of(rows: &[Row], name: u32, end: u32) -> Row
    ensures { result ≡ row_at rows.now end name }
{
    match rows.get(name as usize) {
        Some(row) => *row,
        None => Row::none(end),
    }
}
