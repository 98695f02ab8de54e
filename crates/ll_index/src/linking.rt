//! How the leaves of one key lead to each other.
ghost use Rattle.std.specs.Prelude.{◌≡◌, All, IfOk};
ghost use Rattle.ll_bank.specs.Nodes.{HasTerm};
ghost use Rattle.ll_index.specs.Chained.{behind};
ghost use Rattle.ll_index.specs.Keys.{leaf_keys};

use crate::key::{Key, key_at};
use crate::leaves::Leaf;
use ll_bank::{Bank, OutOfMemory};
use std::alloc::Global;

/// The keys of leaves, by predicate and sign or by predicate alone.
pub(crate) fn keys_of(
    alloc: Global,
    bank: &Bank,
    leaves: &[Leaf],
    by_sign: bool,
) -> Result<Vec<Key>, OutOfMemory>
    requires { All (λ l. HasTerm bank.now l.head.0) leaves.now }
    ensures { IfOk result (λ keys. keys.items ≡ leaf_keys bank.now by_sign leaves.now) }
{
    let mut keys = Vec::new(alloc);
    for leaf in leaves {
        let key = key_at(bank, leaf.head, by_sign)?;
        keys.push(key)?;
    }
    Ok(keys)
}

/// A place, or the next one where it is the one that is taken.
pub(crate) fn place_behind(at: u32, taken: u32, next: u32) -> u32
    ensures { result ≡ behind taken next at }
{
    if at == taken { next } else { at }
}
