//! What follows from a program in the sequent calculus of the literature, and that it is what the answers of the search cover. There is no code here.

ghost use Rattle.ll_top.specs.textbook.Kept.{AnswersAreKept, DerivationsAreKept};
ghost use Rattle.ll_top.specs.textbook.Laws.{FollowsIsShown, ShownFollows, FollowsIsAnswered, InstancesFollow, AnswersFollow, NothingFollows};
ghost use Rattle.ll_top.specs.textbook.Laws.{NumberlessFollows, ExactlyAnswered};

use ll_laws::{answers_are_shown, search_is_complete};

/// What follows from a program in the sequent calculus (after Hodas and Miller 1994, without labels) is what derivations show, and the answers of
/// the search of a valid problem are it, up to the bound: what follows within the bound, whole-number goals aside, is an instance of an answer, and
/// each instance of an answer follows, by as many nodes as the answer's branch has steps. Where the search has no answer and reached no bound,
/// nothing follows but by whole-number goals, which a problem without them has not. So for such a problem the two are exactly the same.
pub fn answers_are_what_follows()
    ensures shown { FollowsIsShown }
    ensures unlabelled { ShownFollows }
    ensures answered { FollowsIsAnswered }
    ensures instances { InstancesFollow }
    ensures answers { AnswersFollow }
    ensures nothing { NothingFollows }
    ensures numberless { NumberlessFollows }
    ensures exact { ExactlyAnswered }
{
    answers_are_shown();
    search_is_complete();
}

/// A greater bound keeps each answer of a search, in the same order and with the same derivation, and adds only answers whose branches have more
/// steps than the smaller bound allows.
pub fn answers_are_kept()
    ensures kept { AnswersAreKept }
    ensures derivations { DerivationsAreKept }
{}
