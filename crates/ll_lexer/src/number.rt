//! The values of numbers.

ghost use Rattle.std.specs.Prelude.{◌≡◌, MatchOption, FitsSigned, true};
ghost use Rattle.std.specs.Int.{w64};
ghost use Rattle.ll_lexer.specs.Spelling.{is_number};
ghost use Rattle.ll_lexer.specs.Reading.{number_value};

use std::str;

/// The value of a number's spelling, if 64 bits hold it.
pub fn value_of(word: &[u8]) -> Option<i64>
    requires { is_number word.now ≡ true }
    ensures { MatchOption result (FitsSigned w64 (number_value word.now) → ⊥) (λ value. value ≡ number_value word.now) }
{
    let text = str::from_utf8(word).unwrap();
    text.parse().ok()
}
