//! What the users of a turn agree on.
ghost use Rattle.ll_turn.specs.Numbers.{Numbers};
ghost use Rattle.ll_turn.specs.Kept.{BeginsFirst, KeepsNumbers, PartsNumbers, ChangeFits, PartsFit};

/// A value that passes take turns with.
///
/// It has no calls. `Problem` and `Mine` are plain data that live in contracts alone: no running program keeps a value
/// of either. Five meanings say what a pass knows of the value and how it may change it, and two laws tie them together.
pub trait Kept {
    /// What the value and the data of all its passes belong to.
    type Problem;

    /// A pass's own data, which have a number and a range of numbers to give.
    type Mine;

    // The number of a pass, and the numbers that it has still to give.
    ghost numbers: { Self.Mine → Numbers };

    // The problem, and the data of the first pass of a new turn.
    ghost begin: { Self → Self.Problem × Self.Mine };

    // The value and a pass's own data belong to one problem.
    ghost fit: { Self → Self.Problem → Self.Mine → Type 0 };

    // A pass with these data may change the value before to the value after.
    ghost lawful: { Self.Problem → Self → Self.Mine → Self → Type 0 };

    // The data that the pass has after this change.
    ghost next: { Self.Problem → Self → Self.Mine → Self → Self.Mine };

    // The data of a splitting pass without the least number that it has to give, and the data of the new pass, which has
    // this number and none to give.
    ghost parted: { Self.Mine → Self.Mine × Self.Mine };

    // The first pass has the number 0, and those from 1 on to give.
    ghost begins_first: { BeginsFirst numbers fit begin };

    // A change of the value keeps the number and the range to give.
    ghost keeps_numbers: { KeepsNumbers numbers next };

    // The least number goes from the splitting pass to the new one.
    ghost parts_numbers: { PartsNumbers numbers parted };

    // Law 1. After a lawful change the value fits the pass's next data, and all other passes that it fitted before.
    ghost change_fits: { ChangeFits numbers fit lawful next };

    // Law 2. A value that fits a pass fits both parts of it.
    ghost parts_fit: { PartsFit numbers fit parted };
}
