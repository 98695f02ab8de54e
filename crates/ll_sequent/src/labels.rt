//! Sets of labels, and the clauses that they name.
ghost use Rattle.std.specs.Prelude.{◌≡◌, ◌||◌, not, true, IfOk, filter};
ghost use Rattle.std.specs.List.{list_all};
ghost use Rattle.ll_laws.specs.Shows.{has, one_of};
ghost use Rattle.ll_sequent.specs.Named.{has_resource, deals};
ghost use Rattle.ll_sequent.specs.declared.sequents.Resource.{Resource};

use crate::sequents::Resource;
use ll_bank::OutOfMemory;
use std::alloc::Global;

/// Whether the label is one of the set.
pub(crate) fn is_among(label: u32, set: &[u32]) -> bool
    ensures { result ≡ has set.now label }
{
    set.iter().any(|each| label == *each)
}

/// Whether the label is one of the set. It is looked for at a place first, which then goes on to the next.
fn is_among_from(label: u32, set: &[u32], next: &mut usize) -> bool
    ensures { result ≡ has set.now label }
{
    if *next < set.len() && label == set[*next] {
        *next += 1;
        return true;
    }
    is_among(label, set)
}

/// Whether one of the clauses has the label.
fn is_label_of(label: u32, resources: &[Resource]) -> bool
    ensures { result ≡ has_resource resources.now label }
{
    resources.iter().any(|each| label == each.label)
}

/// Whether each label of the set is that of one of the clauses.
pub(crate) fn are_labels_of(set: &[u32], resources: &[Resource]) -> bool
    ensures { result ≡ list_all (has_resource resources.now) set.now }
{
    if are_in_order(set, resources) {
        return true;
    }
    set.iter().all(|each| is_label_of(*each, resources))
}

/// Whether the labels of the set are those of some of the clauses in the same order.
fn are_in_order(set: &[u32], resources: &[Resource]) -> bool
    ensures { result ≡ true → list_all (has_resource resources.now) set.now ≡ true }
{
    let mut met = 0;
    for each in resources {
        if met < set.len() && set[met] == each.label {
            met += 1;
        }
    }
    met == set.len()
}

/// Whether exactly one of the two holds.
fn is_one_of(left: bool, right: bool) -> bool
    ensures { result ≡ one_of left right }
{
    if left { !right } else { right }
}

/// Whether the label of each clause is in exactly one of the two sets.
fn are_in_one(left: &[u32], right: &[u32], resources: &[Resource]) -> bool
    ensures { result ≡ list_all (λ (r : Resource). one_of (has left.now r.label)
        (has right.now r.label)) resources.now }
{
    let mut in_left = 0;
    let mut in_right = 0;
    let mut all = true;
    for each in resources {
        let left = is_among_from(each.label, left, &mut in_left);
        let right = is_among_from(each.label, right, &mut in_right);
        all = all && is_one_of(left, right);
    }
    all
}

/// Whether the two sets hold the label of each clause exactly once, and no other.
pub(crate) fn deal(left: &[u32], right: &[u32], resources: &[Resource]) -> bool
    ensures { result ≡ deals left.now right.now resources.now }
{
    if !are_labels_of(left, resources) {
        return false;
    }
    if !are_labels_of(right, resources) {
        return false;
    }
    are_in_one(left, right, resources)
}

/// Whether no clause of either kind has the label.
pub(crate) fn is_new(label: u32, free: &[Resource], bounded: &[Resource]) -> bool
    ensures { result ≡ not (has_resource free.now label || has_resource bounded.now label) }
{
    !(is_label_of(label, free) || is_label_of(label, bounded))
}

/// The clauses whose labels are in the set.
pub(crate) fn part_of(
    alloc: Global,
    set: &[u32],
    resources: &[Resource],
) -> Result<Vec<Resource>, OutOfMemory>
    ensures { IfOk result (λ found. found.items ≡ filter (λ (r : Resource). has set.now r.label) resources.now) }
{
    let mut found = Vec::new(alloc);
    let mut next = 0;
    for each in resources {
        if is_among_from(each.label, set, &mut next) {
            found.push(*each)?;
        }
    }
    Ok(found)
}

/// The clauses whose labels are not in the set.
pub(crate) fn rest_of(
    alloc: Global,
    set: &[u32],
    resources: &[Resource],
) -> Result<Vec<Resource>, OutOfMemory>
    ensures { IfOk result (λ found. found.items ≡ filter (λ (r : Resource). not (has set.now r.label)) resources.now) }
{
    let mut found = Vec::new(alloc);
    let mut next = 0;
    for each in resources {
        if !is_among_from(each.label, set, &mut next) {
            found.push(*each)?;
        }
    }
    Ok(found)
}
