//! The texts of names, numbered in the order in which they came.
ghost use Rattle.std.specs.Prelude.{◌≡◌, ◌++◌, ◌^◌, ◌<◌, ◌↔◌, [], None, Some, length, IsTrue, IfNone, IfOk, OnOk, OnErr, slice_get};
ghost use Rattle.std.specs.List.{IsDistinct};
ghost use Rattle.std.specs.Str.{bytes_eq};
ghost use Rattle.ll_bank.specs.Names.{number_of, with_name, front_texts};

use crate::OutOfMemory;
use crate::texts::Texts;
use std::alloc::Global;
use std::marker::Model;
use std::sync::Arc;

/// The texts of names. Contracts see the list of the texts' bytes, in the order of their numbers.
///
/// The first of them may stand in a front that copies share.
pub struct Names {
    front: Option<Arc<Texts>>,
    // The texts behind the front.
    rest: Texts,
}

// Written out, so that a proof sees one call where it goes, and not one for each part.
impl Drop for Names {
    fn drop(self) {
        let Names { front: _, rest: _ } = self;
    }
}

impl Model for Names {
    ghost use Rattle.std.specs.Prelude.{ℕ, List, ◌++◌};
    ghost use Rattle.std.specs.List.{IsDistinct};
    ghost use Rattle.std.specs.Str.{bytes_eq};
    ghost use Rattle.ll_bank.specs.Names.{front_texts};

    ghost Value = { List (List ℕ) };

    ghost view = { λ names. front_texts names.front ++ names.rest };

    ghost invariant = { λ names. IsDistinct bytes_eq (front_texts names.front ++ names.rest) };
}

impl Names {
    /// No names.
    pub fn new(alloc: Global) -> Self
        ensures { result ≡ [] }
    {
        Names {
            front: None,
            rest: Texts::new(alloc),
        }
    }

    /// The number of texts.
    pub fn len(&self) -> usize
        ensures len { result ≡ length self.now }
        ensures distinct { IsDistinct bytes_eq self.now }
    {
        front_len(&self.front) + self.rest.len()
    }

    /// Whether there are no texts.
    pub fn is_empty(&self) -> bool
        ensures { IsTrue result ↔ (self.now ≡ []) }
    {
        self.len() == 0
    }

    /// The number of the text: the one that it has, or the next one. After a refusal the texts are as before.
    pub fn add(&mut self, text: &str) -> Result<u32, OutOfMemory>
        requires { length self.old < 2 ^ 32 }
        ensures number { IfOk result (λ n. number_of self.new text.now ≡ Some n) }
        ensures text { IfOk result (λ n. slice_get self.new n ≡ Some text.now) }
        ensures added { OnOk result (self.new ≡ with_name self.old text.now) }
        ensures refused { OnErr result (self.new ≡ self.old) }
        ensures distinct { IsDistinct bytes_eq self.new }
    {
        if let Some(number) = find(&self.front, &self.rest, text) {
            return Ok(number as u32);
        }
        let next = self.len();
        self.rest.push(text)?;
        Ok(next as u32)
    }

    /// The text with this number.
    pub fn text(&self, number: u32) -> &str
        requires { number < length self.now }
        ensures { slice_get self.now number ≡ Some result.now }
    {
        let Some(front) = &self.front else {
            return self.rest.text(number as usize);
        };
        let before = front.len();
        if (number as usize) < before {
            return front.text(number as usize);
        }
        self.rest.text(number as usize - before)
    }

    /// The same names, held so that copies share them: those behind no front become it.
    pub fn share(self) -> Result<Names, OutOfMemory>
        ensures { IfOk result (λ names. names ≡ self) }
    {
        if self.front.is_some() {
            return Ok(self);
        }
        let Names { front: _, rest } = self;
        let alloc = rest.allocator();
        let front = Arc::new(alloc, rest)?;
        Ok(Names {
            front: Some(front),
            rest: Texts::new(alloc),
        })
    }

    /// The same names: a front is shared, and the texts behind it are copied.
    pub fn copy(&self) -> Result<Names, OutOfMemory>
        ensures { IfOk result (λ names. names ≡ self.now) }
    {
        let front = same_front(&self.front)?;
        let rest = self.rest.copy()?;
        Ok(Names { front, rest })
    }
}

// The number of texts in front.
fn front_len(front: &Option<Arc<Texts>>) -> usize
    ensures len { result ≡ length (front_texts front.now) }
    ensures small { result < 2 ^ 63 }
{
    match front {
        None => 0,
        Some(texts) => texts.len(),
    }
}

// The number of the text among those in front and those behind.
fn find(front: &Option<Arc<Texts>>, rest: &Texts, text: &str) -> Option<usize>
    requires { length (front_texts front.now ++ rest.now) < 2 ^ 32 }
    ensures number { result ≡ number_of (front_texts front.now ++ rest.now) text.now }
    ensures neither { IfNone result (number_of rest.now text.now ≡ None) }
{
    let Some(texts) = front else {
        return rest.find(text);
    };
    if let Some(place) = texts.find(text) {
        return Some(place);
    }
    match rest.find(text) {
        None => None,
        Some(place) => Some(texts.len() + place),
    }
}

// The same front.
fn same_front(front: &Option<Arc<Texts>>) -> Result<Option<Arc<Texts>>, OutOfMemory>
    ensures { IfOk result (λ same. front_texts same ≡ front_texts front.now) }
{
    match front {
        None => Ok(None),
        Some(texts) => Ok(Some(Arc::try_clone(texts)?)),
    }
}
