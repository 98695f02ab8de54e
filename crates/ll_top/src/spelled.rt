//! What is printed of an answer is read again: laws of the texts of derivations. There is no code here.

ghost use Rattle.ll_top.specs.spelled.Laws.{SpelledOn, SpelledIsRead, AnswersAreSpelled};

/// A text that is spelled over some names is one of the same derivation over more of them. A derivation that can be spelled is read of its text,
/// over its names and behind them any others. And the derivation of each answer of a problem that texts ask can be spelled.
pub fn answers_are_spelled()
    ensures on { SpelledOn }
    ensures read { SpelledIsRead }
    ensures spelled { AnswersAreSpelled }
{}
