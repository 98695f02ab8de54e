//! Sets of labels, read.
ghost use Rattle.std.specs.Prelude.{◌↔◌, ℕ, List, IsTrue, IfOk, MatchOption};
ghost use Rattle.ll_prooftext.specs.Reading.{Set, IsAtEnd};
ghost use Rattle.ll_prooftext.specs.Words.{HasNone, IsLabelsText, IsSetAt};

use crate::bytes::{behind, split_before};
use crate::numbers::number_of;
use ll_bank::OutOfMemory;
use std::alloc::Global;

/// The labels of a set at the front of the bytes, and what stands behind it.
pub(crate) fn set_at(alloc: Global, bytes: &[u8]) -> Result<Option<(Vec<u32>, &[u8])>, OutOfMemory>
    ensures { IfOk result (λ found. MatchOption found (HasNone Set bytes.now)
        (λ set. IsSetAt bytes.now set.0.items set.1.now)) }
{
    let Some(inside) = behind(bytes, b'{') else {
        return Ok(None);
    };
    let (body, tail) = split_before(inside, b'}');
    let Some(rest) = behind(tail, b'}') else {
        return Ok(None);
    };
    if !is_at_end(rest) {
        return Ok(None);
    }
    match labels_of(alloc, body)? {
        Some(labels) => Ok(Some((labels, rest))),
        None => Ok(None),
    }
}

/// Whether a field ends here: at the end of the line or at a space.
pub(crate) fn is_at_end(rest: &[u8]) -> bool
    ensures { IsTrue result ↔ IsAtEnd rest.now }
{
    let Some((first, _)) = rest.split_first() else {
        return true;
    };
    *first == b' '
}

/// The labels that are spelled so: in rising order, a space between two.
fn labels_of(alloc: Global, body: &[u8]) -> Result<Option<Vec<u32>>, OutOfMemory>
    ensures { IfOk result (λ found. MatchOption found ((labels : List ℕ) → IsLabelsText body.now labels
        → ⊥) (λ labels. IsLabelsText body.now labels.items)) }
{
    let mut labels = Vec::new(alloc);
    if body.is_empty() {
        return Ok(Some(labels));
    }
    let mut rest = body;
    let mut least: u64 = 0;
    loop {
        let (word, tail) = split_before(rest, b' ');
        let Some(label) = number_of(word) else {
            return Ok(None);
        };
        if u64::from(label) < least {
            return Ok(None);
        }
        labels.push(label)?;
        least = u64::from(label) + 1;
        match behind(tail, b' ') {
            Some(next) => rest = next,
            None => return Ok(Some(labels)),
        }
    }
}
