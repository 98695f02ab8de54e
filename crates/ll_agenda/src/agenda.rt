//! The frames of an agenda, and the lists that its tops show.
ghost use Rattle.std.specs.Prelude.{◌≡◌, ◌+◌, ◌≤◌, ◌↔◌, [], ◌∷◌, length, IsTrue, IsNone, IfSome, IfOk, OnOk, OnErr};
ghost use Rattle.ll_agenda.specs.Frames.{Frames, items_at, HasTop, ShowsItems, Extends, BeginsWith, IsLast};

use ll_bank::OutOfMemory;
use std::alloc::Global;
use std::marker::Model;

/// The top of a list: the place of its first frame, or that of the empty list. Copying one copies no frame.
///
/// Contracts see it, in the agenda that it is a top of, as that list.
#[derive(Clone, Copy)]
pub struct Top {
    // 0 for the empty list, and `at + 1` for the frame at `at`.
    place: usize,
}

/// A bank of frames: lists of items that share what stands behind their first items.
///
/// Contracts see it as its frames, in the order in which they were pushed, and a top as the list of items that it shows. No call
/// changes the list of a top that the agenda has, and `cut` alone takes tops from it.
pub struct Agenda<T: Copy> {
    // Each an item with the top of the list behind it, which is of an earlier frame.
    frames: Vec<(T, Top)>,
}

// Written out, so that a proof sees one call where it goes, and not one for each part.
impl<T: Copy> Drop for Agenda<T> {
    fn drop(self) {
        let Agenda { frames: _ } = self;
    }
}

impl<T: Copy> Model for Agenda<T> {
    ghost use Rattle.ll_agenda.specs.Frames.{Frames, frames_code, IsWellFounded};

    ghost Value = { Frames T };

    ghost coded = { frames_code T.code };

    ghost view = { λ agenda. agenda.frames.items };

    ghost invariant = { λ agenda. IsWellFounded agenda.frames.items };
}

impl<T: Copy> Agenda<T> {
    /// An agenda without frames. It allocates nothing until the first `push`.
    pub fn new(alloc: Global) -> Self
        ensures { result ≡ [] }
    {
        Agenda {
            frames: Vec::new(alloc),
        }
    }

    /// The top of the empty list, which every agenda has.
    pub fn none() -> Top
        ensures { (frames : Frames T) → ShowsItems frames result [] }
    {
        Top { place: 0 }
    }

    /// The number of frames, of all lists together.
    pub fn len(&self) -> usize
        ensures { result ≡ length self.now }
    {
        self.frames.len()
    }

    /// The top of the list with this item in front of the list `rest`, which it shares.
    ///
    /// After `OutOfMemory` the agenda is as before.
    pub fn push(&mut self, item: T, rest: Top) -> Result<Top, OutOfMemory>
        requires { HasTop self.old rest }
        ensures list { IfOk result (λ top. ShowsItems self.new top (item ∷ items_at self.old rest)) }
        ensures one_more { OnOk result (length self.new ≡ length self.old + 1) }
        ensures keeps { Extends self.old self.new }
        ensures refused { OnErr result (self.new ≡ self.old) }
    {
        self.frames.push((item, rest))?;
        Ok(Top { place: self.len() })
    }

    /// Whether no frame was pushed behind that of this top. The frame can then be let go of, by `cut` to one frame less, once its
    /// item is taken off: the top of the list behind it keeps its list. The program does not call it.
    pub fn is_last(&self, top: Top) -> bool
        ensures { IsTrue result ↔ IsLast self.now top }
    {
        top.place == self.len()
    }

    /// Lets go of all frames but the first `len`: the tops that were made before there were more keep their lists.
    ///
    /// It takes no memory.
    pub fn cut(&mut self, len: usize)
        requires { len ≤ length self.old }
        ensures left { length self.new ≡ len }
        ensures keeps { Extends self.new self.old }
    {
        self.frames.truncate(len);
    }

    /// The first item of a list, and the top of the list behind it. `None` exactly for the empty list.
    pub fn item(&self, top: Top) -> Option<(T, Top)>
        requires { HasTop self.now top }
        ensures none { IsNone result ↔ (items_at self.now top ≡ []) }
        ensures some { IfSome result (λ first. BeginsWith self.now top first.0 first.1) }
    {
        let at = top.place.checked_sub(1)?;
        Some(self.frames[at])
    }

    /// An agenda of its own with the frames of this list alone, and the top of the list there.
    pub fn image(&self, top: Top) -> Result<(Self, Top), OutOfMemory>
        requires { HasTop self.now top }
        ensures list { IfOk result (λ image. ShowsItems image.0 image.1 (items_at self.now top)) }
        ensures frames { IfOk result (λ image. length image.0 ≡ length (items_at self.now top)) }
    {
        let items = self.items(top)?;
        Self::from_items(*self.frames.allocator(), items)
    }

    // The items of a list, the first in front.
    fn items(&self, top: Top) -> Result<Vec<T>, OutOfMemory>
        requires { HasTop self.now top }
        ensures { IfOk result (λ items. items.items ≡ items_at self.now top) }
    {
        let mut items = Vec::new(*self.frames.allocator());
        let mut rest = top;
        while let Some((item, behind)) = self.item(rest) {
            items.push(item)?;
            rest = behind;
        }
        Ok(items)
    }

    // An agenda with the list of these items alone, built from its end.
    fn from_items(alloc: Global, mut items: Vec<T>) -> Result<(Self, Top), OutOfMemory>
        ensures list { IfOk result (λ made. ShowsItems made.0 made.1 items.items) }
        ensures frames { IfOk result (λ made. length made.0 ≡ length items.items) }
    {
        let mut agenda = Agenda::new(alloc);
        let mut top = Self::none();
        while let Some(item) = items.pop() {
            top = agenda.push(item, top)?;
        }
        Ok((agenda, top))
    }
}
