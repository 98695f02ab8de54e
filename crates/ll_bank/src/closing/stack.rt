//! The stack of parts that get their images.
ghost use Rattle.std.specs.Prelude.{◌≡◌, ◌++◌, ◌∷◌, map, reverse, OnOk};
ghost use Rattle.ll_bank.specs.Stacks.{visit};

use crate::{At, OutOfMemory};

/// A part at a place, so many quantifiers inside what is closed. It is ready once its own parts have their images.
#[derive(Clone, Copy)]
pub(crate) struct Task {
    pub(crate) place: usize,
    pub(crate) level: usize,
    pub(crate) ready: bool,
}

/// Puts a part on the stack.
pub(crate) fn push_part(
    place: usize,
    level: usize,
    tasks: &mut Vec<Task>,
) -> Result<(), OutOfMemory>
    ensures { OnOk result (reverse tasks.new.items ≡ visit (place, level) ∷ reverse tasks.old.items) }
{
    tasks.push(Task {
        place,
        level,
        ready: false,
    })?;
    Ok(())
}

/// Puts terms on the stack, the first on top.
pub(crate) fn push_arguments(
    args: &[At],
    level: usize,
    tasks: &mut Vec<Task>,
) -> Result<(), OutOfMemory>
    ensures { OnOk result (reverse tasks.new.items ≡ map (λ a. visit (a.0, level)) args.now
        ++ reverse tasks.old.items) }
{
    let mut left = args.len();
    while left > 0 {
        left -= 1;
        push_part(args[left].0, level, tasks)?;
    }
    Ok(())
}
