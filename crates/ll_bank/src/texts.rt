//! Texts, each at its place, and the place of each.
ghost use Rattle.std.specs.Prelude.{◌≡◌, ◌++◌, ◌∷◌, ◌<◌, ◌^◌, [], None, length, Some, IfOk, OnOk, OnErr, slice_get};
ghost use Rattle.std.specs.List.{IsDistinct};
ghost use Rattle.std.specs.Str.{bytes_eq};
ghost use Rattle.ll_bank.specs.Names.{number_of};

use crate::OutOfMemory;
use indexmap::IndexSet;
use std::alloc::Global;
use std::marker::Model;

/// Texts that differ, each found by its place and each place by its text. Contracts see the list of the texts' bytes.
#[derive(Drop)]
pub(crate) struct Texts {
    texts: IndexSet<String>,
}

impl Model for Texts {
    ghost use Rattle.std.specs.Prelude.{ℕ, List, map};
    ghost use Rattle.std.specs.List.{IsDistinct};
    ghost use Rattle.std.specs.Str.{bytes_eq};
    ghost use Rattle.std.specs.String.{string_bytes};

    ghost Value = { List (List ℕ) };

    ghost view = { λ texts. map string_bytes texts.texts.keys };

    ghost invariant = { λ texts. IsDistinct bytes_eq (map string_bytes texts.texts.keys) };
}

impl Texts {
    /// No texts.
    pub(crate) fn new(alloc: Global) -> Self
        ensures { result ≡ [] }
    {
        Texts {
            texts: IndexSet::new(alloc),
        }
    }

    /// Where the texts' memory comes from.
    pub(crate) fn allocator(&self) -> Global {
        *self.texts.allocator()
    }

    /// The number of texts.
    pub(crate) fn len(&self) -> usize
        ensures len { result ≡ length self.now }
        ensures small { result < 2 ^ 63 }
        ensures distinct { IsDistinct bytes_eq self.now }
    {
        self.texts.len()
    }

    /// The place of the text, if it is there.
    pub(crate) fn find(&self, text: &str) -> Option<usize>
        ensures { result ≡ number_of self.now text.now }
    {
        self.texts.get_index_of(text)
    }

    /// Puts a text that is not there behind the others. After a refusal the texts are as before.
    pub(crate) fn push(&mut self, text: &str) -> Result<(), OutOfMemory>
        requires { number_of self.old text.now ≡ None }
        ensures pushed { OnOk result (self.new ≡ self.old ++ text.now ∷ []) }
        ensures refused { OnErr result (self.new ≡ self.old) }
    {
        let owned = String::from_str(self.allocator(), text)?;
        self.texts.insert(owned)?;
        Ok(())
    }

    /// The text at a place.
    pub(crate) fn text(&self, place: usize) -> &str
        requires { place < length self.now }
        ensures { slice_get self.now place ≡ Some result.now }
    {
        self.texts[place].as_str()
    }

    /// The same texts, in memory of their own.
    pub(crate) fn copy(&self) -> Result<Texts, OutOfMemory>
        ensures { IfOk result (λ copy. copy ≡ self.now) }
    {
        Ok(Texts {
            texts: self.texts.clone()?,
        })
    }
}
