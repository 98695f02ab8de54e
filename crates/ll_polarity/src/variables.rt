//! The variables of a clause or a query, numbered in the order in which they first occur.

ghost use Rattle.std.specs.Prelude.{◌≡◌, ◌^◌, ◌<◌, ◌++◌, ◌∷◌, [], None, length, IfOk, OnOk};
ghost use Rattle.ll_polarity.specs.Numbered.{numbered, with_number};

use ll_bank::OutOfMemory;
use std::alloc::Global;
use std::collections::BTreeMap;
use std::marker::Model;

/// The variables that were met, by the numbers of their names in the text, `_` without one.
#[derive(Drop)]
pub struct Variables {
    numbers: BTreeMap<u32, u32>,
    order: Vec<Option<u32>>,
}

impl Model for Variables {
    ghost use Rattle.std.specs.Prelude.{ℕ, List, Option};
    ghost use Rattle.std.specs.Ordering.{nat_cmp};
    ghost use Rattle.std.specs.BTreeMap.{get};
    ghost use Rattle.ll_polarity.specs.Numbered.{AreNumbered};

    ghost Value = { List (Option ℕ) };

    ghost view = { λ v. v.order.items };

    ghost invariant = { λ v. AreNumbered (get nat_cmp v.numbers) v.order.items };
}

impl Variables {
    /// None.
    pub fn new(alloc: Global) -> Self
        ensures { result ≡ [] }
    {
        Variables {
            numbers: BTreeMap::new(alloc),
            order: Vec::new(alloc),
        }
    }

    /// How many there are.
    pub fn len(&self) -> usize
        ensures { result ≡ length self.now }
    {
        self.order.len()
    }

    /// The numbers of their names, in their order.
    pub fn order(&self) -> &[Option<u32>]
        ensures { result.now ≡ self.now }
    {
        &self.order
    }

    /// One more without a name, and its number.
    pub fn add_nameless(&mut self) -> Result<u32, OutOfMemory>
        requires { length self.old < 2 ^ 32 }
        ensures number { IfOk result (λ x. x ≡ length self.old) }
        ensures added { OnOk result (self.new ≡ self.old ++ None ∷ []) }
    {
        let next = self.order.len() as u32;
        self.order.push(None)?;
        Ok(next)
    }

    /// The number of the variable with this name, which goes last unless it is among them.
    pub fn add(&mut self, name: u32) -> Result<u32, OutOfMemory>
        requires { length self.old < 2 ^ 32 }
        ensures number { IfOk result (λ x. x ≡ numbered self.new name) }
        ensures added { OnOk result (self.new ≡ with_number self.old name) }
    {
        if let Some(number) = self.numbers.get(&name) {
            return Ok(*number);
        }
        let next = self.order.len() as u32;
        self.order.push(Some(name))?;
        match self.numbers.insert(name, next) {
            Ok(_) => Ok(next),
            Err(refused) => {
                self.order.truncate(next as usize);
                Err(refused.into())
            }
        }
    }
}
