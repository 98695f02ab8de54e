//! Images that are known.
ghost use Rattle.std.specs.Prelude.{◌≡◌, None, Some, IfSome, OnOk};
ghost use Rattle.std.specs.HashMap.{get};
ghost use Rattle.ll_bank.specs.Opened.{Spot};
ghost use Rattle.ll_bank.specs.Closing.{same_spot, AddsImage};
ghost use Rattle.ll_bank.specs.Stacks.{spot_of};

use crate::OutOfMemory;
use crate::closing::stack::Task;
use std::alloc::Global;
use std::collections::HashMap;

/// So many images are made before the first is remembered.
const MANY: usize = 1000;

/// The places of images by the places and levels of parts. A few are not worth a table, so it begins when many were made.
#[derive(Drop)]
pub(crate) struct Images {
    made: usize,
    places: HashMap<(usize, usize), usize>,
}

impl Images {
    /// No images.
    pub(crate) fn new(alloc: Global) -> Self
        ensures { (k : Spot) → get same_spot result.places k ≡ None }
    {
        Images {
            made: 0,
            places: HashMap::new(alloc),
        }
    }

    /// The place of an image that is known.
    pub(crate) fn find(&self, task: Task) -> Option<usize>
        ensures { IfSome result (λ image. get same_spot self.now.places (spot_of task) ≡ Some image) }
    {
        if self.made < MANY {
            None
        } else {
            self.places.get(&(task.place, task.level)).copied()
        }
    }

    /// One more image was made.
    pub(crate) fn remember(&mut self, task: Task, image: usize) -> Result<(), OutOfMemory>
        ensures { OnOk result (AddsImage (get same_spot self.old.places) (get same_spot self.new.places)
            (spot_of task) image) }
    {
        if self.made < MANY {
            self.made += 1;
        } else {
            self.places.insert((task.place, task.level), image)?;
        }
        Ok(())
    }
}
