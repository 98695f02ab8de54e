//! What settling does with ends, over the agendas of any search.
ghost use Rattle.ll_resources.specs.Ends.{EndsSettle, MiddlesSettle};

/// An end in front of an agenda, and the middle of a `&`, are worked off as the calls of a [`Context`](crate::Context) say, whatever
/// the goals of the agenda are made of. The program calls this never: it carries the laws.
pub fn settling_ends<G, C>()
    ensures ends { EndsSettle G C }
    ensures middles { MiddlesSettle G C }
{}
