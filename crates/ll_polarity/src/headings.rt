//! The modules of a program as loads see them.

ghost use Rattle.std.specs.Prelude.{◌≡◌, ◌++◌, ◌∷◌, [], ℕ, List, OnOk, IfOk, find, option_to_list};
ghost use Rattle.ll_lexer.specs.declared.Place.{Place};
ghost use Rattle.ll_parser.specs.Tokens.{Identifier};
ghost use Rattle.ll_polarity.specs.Faults.{Heading, is_named, load_fault, unless as unless_fault};
ghost use Rattle.ll_polarity.specs.Headings.{AreFound};

use ll_bank::OutOfMemory;
use ll_lexer::{Fault, Place};
use std::alloc::Global;
use std::collections::HashMap;

/// The number of parameters of the first module of each name.
#[derive(Drop)]
pub struct Headings<'a> {
    params: HashMap<&'a str, usize>,
}

impl<'a> Headings<'a> {
    /// No modules.
    pub fn new(alloc: Global) -> Self
        ensures { AreFound result.params [] }
    {
        Headings {
            params: HashMap::new(alloc),
        }
    }

    /// One more module behind the others. After a refusal all is as before.
    pub fn add(&mut self, name: &'a str, params: usize) -> Result<(), OutOfMemory>
        ensures { OnOk result ((ms : List Heading) → AreFound self.old.params ms
            → AreFound self.new.params (ms ++ record { name = name.now; params = params } ∷ [])) }
    {
        if !self.params.contains_key(&name) {
            self.params.insert(name, params)?;
        }
        Ok(())
    }

    /// The fault of a load with so many arguments, whose module's name has this text and place.
    pub fn load_fault(&self, name: &str, at: Place, count: usize) -> Option<Fault>
        ensures { (ms : List Heading) → AreFound self.now.params ms
            → option_to_list result ≡ load_fault (find (is_named name.now) ms)
            (record { text = name.now; at = at }) count }
    {
        match self.params.get(&name) {
            None => Some(Fault { at, kind: 10 }),
            Some(params) => unless(count == *params, at, 11),
        }
    }
}

/// A fault of a kind at a place, unless the test holds.
pub fn unless(test: bool, at: Place, kind: u8) -> Option<Fault>
    ensures { option_to_list result ≡ unless_fault test kind at }
{
    if test { None } else { Some(Fault { at, kind }) }
}
