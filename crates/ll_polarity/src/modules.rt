//! The places of modules by their names.

ghost use Rattle.std.specs.Prelude.{◌≡◌, ◌^◌, ◌<◌, ◌++◌, ◌∷◌, [], ℕ, List, length, map, All, OnOk, IfOk};
ghost use Rattle.ll_polarity.specs.Numbered.{text_of};
ghost use Rattle.ll_polarity.specs.Places.{place_in, FindsFirst};

use ll_bank::{Names, OutOfMemory};
use ll_parser::RawModule;
use std::alloc::Global;
use std::collections::HashMap;

/// The place of the first module of each name.
#[derive(Drop)]
pub struct Modules<'a> {
    places: HashMap<&'a str, u32>,
}

impl<'a> Modules<'a> {
    /// No modules.
    pub fn new(alloc: Global) -> Self
        ensures { FindsFirst result.places [] }
    {
        Modules {
            places: HashMap::new(alloc),
        }
    }

    /// The module at a place behind the others. After a refusal all is as before.
    pub fn add(&mut self, name: &'a str, place: u32) -> Result<(), OutOfMemory>
        ensures { OnOk result ((ms : List (List ℕ)) → length ms ≡ place → FindsFirst self.old.places ms
            → FindsFirst self.new.places (ms ++ name.now ∷ [])) }
    {
        if !self.places.contains_key(&name) {
            self.places.insert(name, place)?;
        }
        Ok(())
    }

    /// The place of the first module of a name, or 0.
    pub fn place_of(&self, name: &str) -> u32
        ensures { result ≡ place_in self.now.places name.now }
    {
        match self.places.get(&name) {
            None => 0,
            Some(place) => *place,
        }
    }
}

/// The places of a program's modules.
pub fn places_of<'a>(
    alloc: Global,
    names: &'a Names,
    modules: &[RawModule],
) -> Result<Modules<'a>, OutOfMemory>
    requires named { All (λ m. m.name.name < length names.now) modules.now }
    requires count { length modules.now < 2 ^ 32 }
    ensures { IfOk result (λ found. FindsFirst found.places (map (λ m. text_of names.now m.name.name) modules.now)) }
{
    let mut found = Modules::new(alloc);
    for (place, module) in modules.iter().enumerate() {
        found.add(names.text(module.name.name), place as u32)?;
    }
    Ok(found)
}
