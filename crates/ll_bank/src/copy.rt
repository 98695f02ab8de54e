//! Copies of terms in another bank.
ghost use Rattle.std.specs.Prelude.{◌≡◌, ℕ, IfOk, IsSome, Some, All, map};
ghost use Rattle.std.specs.List.{Contains};
ghost use Rattle.std.specs.Ordering.{nat_cmp};
ghost use Rattle.std.specs.BTreeMap.{get};
ghost use Rattle.ll_bank.specs.Nodes.{term_tree, HasTerm, ShowsTerm, Extends};
ghost use Rattle.ll_bank.specs.Opened.{arguments_of, term_node_at};
ghost use Rattle.ll_bank.specs.Walk.{HasImage, ShowsAt};

use crate::walk::terms_under;
use crate::{At, Bank, OutOfMemory, TermView};
use std::alloc::Global;
use std::collections::BTreeMap;

impl Bank {
    /// Puts an equal term into the other bank. A term that is shared is copied once.
    ///
    /// After a refusal the other bank may have more terms. The program does not call it.
    pub fn copy_into(&self, at: At, other: &mut Bank) -> Result<At, OutOfMemory>
        requires { HasTerm self.now at.0 }
        ensures shows { IfOk result (λ copy. ShowsTerm other.new copy.0 (term_tree self.now at.0)) }
        ensures keeps { Extends other.old other.new }
    {
        let places = terms_under(self, &[at])?;
        let mut images = BTreeMap::new(self.alloc());
        for place in &places {
            let copy = copied(self, At(*place), &images, other)?;
            images.insert(*place, copy)?;
        }
        Ok(image_of(&images, at))
    }
}

/// A copy of one term in the other bank, over the copies of its arguments.
fn copied(
    bank: &Bank,
    at: At,
    images: &BTreeMap<usize, At>,
    other: &mut Bank,
) -> Result<At, OutOfMemory>
    requires inside { HasTerm bank.now at.0 }
    requires images { (a : ℕ) → Contains (arguments_of (term_node_at bank.now at.0)) a
        → HasImage (ShowsAt other.old) (get nat_cmp images.now) a (term_tree bank.now a) }
    ensures shows { IfOk result (λ copy. ShowsTerm other.new copy.0 (term_tree bank.now at.0)) }
    ensures keeps { Extends other.old other.new }
{
    match bank.term_at(at) {
        TermView::Var(number) => other.var(number),
        TermView::Int(value) => other.int(value),
        TermView::App(head, args) => {
            let args = images_of(bank.alloc(), images, args)?;
            other.app(head, &args)
        }
    }
}

/// The images of places.
fn images_of(
    alloc: Global,
    images: &BTreeMap<usize, At>,
    places: &[At],
) -> Result<Vec<At>, OutOfMemory>
    requires { All (λ a. IsSome (get nat_cmp images.now a.0)) places.now }
    ensures { IfOk result (λ found. map Some found.items ≡ map (λ a. get nat_cmp images.now a.0) places.now) }
{
    let mut found = Vec::new(alloc);
    for place in places {
        found.push(image_of(images, *place))?;
    }
    Ok(found)
}

/// The image of a place.
fn image_of(images: &BTreeMap<usize, At>, place: At) -> At
    requires { IsSome (get nat_cmp images.now place.0) }
    ensures { get nat_cmp images.now place.0 ≡ Some result }
{
    *images.get(&place.0).unwrap()
}
