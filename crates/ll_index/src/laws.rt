//! The outermost signs of first arguments, and the laws on which an index rests.
ghost use Rattle.ll_index.specs.Standing.{LeavesStand, LeavesOpen};
ghost use Rattle.ll_index.specs.First.{ClashesDiffer, ClashesGiveNothing};

/// The outermost sign of an atom's first argument. Where two of them clash, the atoms have no unifier.
#[derive(Clone, Copy, PartialEq, Eq, Hash)]
pub enum First {
    /// It clashes with no other: there is no first argument, or it is a variable, or its head is a bound place or an eigenvariable.
    Open,
    /// A whole number.
    Int(i64),
    /// The name with this number, with so many arguments.
    Head(u32, u32),
}

/// A leaf of a clause is what stands in the clause, with terms for the quantifiers on the way to it.
pub fn leaves_stand()
    ensures ways { LeavesStand }
    ensures opened { LeavesOpen }
{}

/// Atoms whose first arguments have outermost signs that clash have no unifier, so a candidate with such a head gives no state: to leave
/// it out changes neither the events of a search nor its cost.
pub fn clashes_give_nothing()
    ensures unifier { ClashesDiffer }
    ensures state { ClashesGiveNothing }
{}
