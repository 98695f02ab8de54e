//! Whether terms are an instance of others.
ghost use Rattle.std.specs.Prelude.{◌≡◌, ◌↔◌, ℕ, ◌<◌, length, map, IfOk, OnOk, IsTrue};
ghost use Rattle.std.specs.Ordering.{nat_cmp};
ghost use Rattle.std.specs.BTreeMap.{get};
ghost use Rattle.ll_bank.specs.Term.{is_closed as closed_term};
ghost use Rattle.ll_bank.specs.Nodes.{term_tree, term_trees, HasTerm, AllInTerms};
ghost use Rattle.ll_laws.specs.Instance.{IsInstance};
ghost use Rattle.ll_cover.specs.Matching.{HasPlaces, AreBelow, AllClosed, Meets, MeetsClosed, Looks, AllBelow};

use crate::closing::is_closed;
use ll_bank::{At, Bank, Head, OutOfMemory, TermView};
use std::alloc::Global;
use std::collections::BTreeMap;

// What was found so far, as places in the bank of the terms that are to be an instance.
#[derive(Drop)]
struct Found {
    // For each place that waits, what is to be made of the term there.
    waiting: BTreeMap<usize, At>,
    // For each variable that was met, what is to be put for it.
    values: BTreeMap<u64, At>,
}

/// Whether the terms at `terms`, in the other bank, are an instance of those at `of`: these with closed terms put for their variables.
/// Lists of different lengths are not.
///
/// It needs no deep stack. Each place under `of` is looked at once, with one term that it is to become; another one is compared with that.
pub fn instance(
    alloc: Global,
    bank: &Bank,
    of: &[At],
    other: &Bank,
    terms: &[At],
) -> Result<bool, OutOfMemory>
    requires of { AllInTerms bank.now of.now }
    requires terms { AllInTerms other.now terms.now }
    ensures { IfOk result (λ is. IsTrue is ↔ IsInstance (term_trees bank.now of.now) (term_trees other.now terms.now)) }
{
    if of.len() != terms.len() {
        return Ok(false);
    }
    let mut found = Found {
        waiting: BTreeMap::new(alloc),
        values: BTreeMap::new(alloc),
    };
    if !meet_all(&mut found.waiting, of, other, terms)? {
        return Ok(false);
    }
    // Arguments lie at lower places, so the greatest place that waits has been met by all that it is an argument of.
    while let Some((place, image)) = found.waiting.pop_last() {
        if !look(alloc, &mut found, bank, At(place), other, image)? {
            return Ok(false);
        }
    }
    Ok(true)
}

// Looks at a place, and answers whether the term there can become the one at its image. After a refusal nothing is said of what was found.
fn look(
    alloc: Global,
    found: &mut Found,
    bank: &Bank,
    place: At,
    other: &Bank,
    image: At,
) -> Result<bool, OutOfMemory>
    requires place { HasTerm bank.now place.0 }
    requires image { HasTerm other.now image.0 }
    requires waiting { HasPlaces other.now (get nat_cmp found.old.waiting) }
    requires values { HasPlaces other.now (get nat_cmp found.old.values) }
    ensures { IfOk result (Looks bank.now place.0 other.now image.0 found.old found.new) }
{
    match bank.term_at(place) {
        TermView::Var(number) => meet_variable(alloc, &mut found.values, number, other, image),
        TermView::Int(value) => match other.term_at(image) {
            TermView::Int(seen) => Ok(value == seen),
            TermView::Var(_) => Ok(false),
            TermView::App(_, _) => Ok(false),
        },
        TermView::App(head, args) => match other.term_at(image) {
            TermView::App(seen, others) => {
                if is_same_head(head, seen) && args.len() == others.len() {
                    meet_all(&mut found.waiting, args, other, others)
                } else {
                    Ok(false)
                }
            }
            TermView::Var(_) => Ok(false),
            TermView::Int(_) => Ok(false),
        },
    }
}

// Whether two heads are one.
fn is_same_head(head: Head, other: Head) -> bool
    ensures { IsTrue result ↔ (head ≡ other) }
{
    head == other
}

// Gives each place its image, one by one, and answers whether they may have them. After a refusal some may have theirs.
fn meet_all(
    images: &mut BTreeMap<usize, At>,
    places: &[At],
    bank: &Bank,
    others: &[At],
) -> Result<bool, OutOfMemory>
    requires pairs { length places.now ≡ length others.now }
    requires inside { AllInTerms bank.now others.now }
    requires images { HasPlaces bank.now (get nat_cmp images.old) }
    ensures met { IfOk result (Meets bank.now (λ want. map (λ a. want a.0) places.now
        ≡ term_trees bank.now others.now) (get nat_cmp images.old) (get nat_cmp images.new)) }
    ensures images { OnOk result (HasPlaces bank.now (get nat_cmp images.new)) }
    ensures below { OnOk result ((limit : ℕ) → AllBelow limit places.now → AreBelow limit (get nat_cmp images.old)
        → AreBelow limit (get nat_cmp images.new)) }
{
    for (i, place) in places.iter().enumerate() {
        if !meet(images, *place, bank, others[i])? {
            return Ok(false);
        }
    }
    Ok(true)
}

// Gives a place its image, and answers whether it may have it: it has none yet, or one that is equal. After a refusal nothing changed.
fn meet(
    images: &mut BTreeMap<usize, At>,
    place: At,
    bank: &Bank,
    image: At,
) -> Result<bool, OutOfMemory>
    requires inside { HasTerm bank.now image.0 }
    requires images { HasPlaces bank.now (get nat_cmp images.old) }
    ensures met { IfOk result (Meets bank.now (λ want. want place.0 ≡ term_tree bank.now image.0)
        (get nat_cmp images.old) (get nat_cmp images.new)) }
    ensures images { OnOk result (HasPlaces bank.now (get nat_cmp images.new)) }
    ensures below { OnOk result ((limit : ℕ) → place.0 < limit → AreBelow limit (get nat_cmp images.old)
        → AreBelow limit (get nat_cmp images.new)) }
{
    match images.get(&place.0).copied() {
        Some(first) => same(bank, first, image),
        None => {
            images.insert(place.0, image)?;
            Ok(true)
        }
    }
}

// Gives a variable its value, and answers whether it may have it: a closed term where it has none yet, or one that is equal.
fn meet_variable(
    alloc: Global,
    values: &mut BTreeMap<u64, At>,
    variable: u64,
    bank: &Bank,
    value: At,
) -> Result<bool, OutOfMemory>
    requires inside { HasTerm bank.now value.0 }
    requires values { HasPlaces bank.now (get nat_cmp values.old) }
    ensures met { IfOk result (MeetsClosed bank.now (λ want. want variable ≡ term_tree bank.now value.0)
        (get nat_cmp values.old) (get nat_cmp values.new)) }
    ensures values { OnOk result (HasPlaces bank.now (get nat_cmp values.new)) }
    ensures closed { OnOk result (AllClosed bank.now (get nat_cmp values.old)
        → AllClosed bank.now (get nat_cmp values.new)) }
{
    match values.get(&variable).copied() {
        Some(first) => same(bank, first, value),
        None => {
            if !is_closed(alloc, bank, value)? {
                return Ok(false);
            }
            values.insert(variable, value)?;
            Ok(true)
        }
    }
}

// Whether two terms of a bank are equal.
fn same(bank: &Bank, first: At, second: At) -> Result<bool, OutOfMemory>
    requires first { HasTerm bank.now first.0 }
    requires second { HasTerm bank.now second.0 }
    ensures { IfOk result (λ same. IsTrue same ↔ (term_tree bank.now first.0 ≡ term_tree bank.now second.0)) }
{
    if first == second {
        return Ok(true);
    }
    bank.equal(first, bank, second)
}
