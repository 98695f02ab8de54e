//! For each key, a place before which all its entries come; 0 for those that are not listed.
ghost use Rattle.std.specs.Prelude.{◌≡◌, ℕ, ◌<◌, ◌≤◌, length, OnOk};
ghost use Rattle.ll_resources.specs.Raw.{top_in, top_of, with_top, IsListed};
ghost use Rattle.ll_resources.specs.Keys.{has_key};

use ll_bank::OutOfMemory;

/// Whether this is the key.
pub(crate) fn has_key(given: Option<u32>, key: u32) -> bool
    ensures { result ≡ has_key key given }
{
    match given {
        Some(other) => other == key,
        None => false,
    }
}

/// Lists a key, if it is not.
pub(crate) fn add_key(tops: &mut Vec<usize>, key: u32) -> Result<(), OutOfMemory>
    ensures same { (k : ℕ) → top_in tops.new.items k ≡ top_in tops.old.items k }
    ensures listed { OnOk result (key < length tops.new.items) }
    ensures room { length tops.old.items ≤ length tops.new.items }
{
    let count = key as usize + 1;
    if tops.len() < count {
        tops.resize(count, 0)?;
    }
    Ok(())
}

/// The place before which the entries of a key come; 0 for no key.
pub(crate) fn top_of(tops: &[usize], key: Option<u32>) -> usize
    ensures { result ≡ top_of key (top_in tops.now) }
{
    match key {
        Some(key) => {
            let key = key as usize;
            if key < tops.len() { tops[key] } else { 0 }
        }
        None => 0,
    }
}

/// Changes the place of a key that is listed.
pub(crate) fn set_top(tops: &mut Vec<usize>, key: Option<u32>, top: usize)
    requires { IsListed tops.old.items key }
    ensures top { (k : ℕ) → top_in tops.new.items k ≡ with_top key top (top_in tops.old.items) k }
    ensures room { length tops.new.items ≡ length tops.old.items }
{
    if let Some(key) = key {
        let key = key as usize;
        if key < tops.len() {
            tops[key] = top;
        }
    }
}
