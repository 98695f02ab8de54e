//! Numbers as they are written.
ghost use Rattle.std.specs.Prelude.{◌≡◌, ◌↔◌, IsTrue, MatchOption, decimal};
ghost use Rattle.std.specs.Fmt.{signed_decimal};
ghost use Rattle.ll_prooftext.specs.Reading.{IsNumber, IsDecimal, IsInteger};

use itoa::Buffer;
use std::str;

/// The number that is spelled so: in decimal, without leading zeros, at most 4,294,967,295.
pub(crate) fn number_of(bytes: &[u8]) -> Option<u32>
    ensures { MatchOption result (IsNumber bytes.now → ⊥) (λ n. bytes.now ≡ decimal n) }
{
    match str::from_utf8(bytes) {
        Ok(text) => number_in(text),
        Err(_) => None,
    }
}

/// The number that a text spells so.
fn number_in(text: &str) -> Option<u32>
    ensures { MatchOption result (IsNumber text.now → ⊥) (λ n. text.now ≡ decimal n) }
{
    match text.parse::<u32>() {
        Ok(number) => {
            if spells(u64::from(number), text) {
                Some(number)
            } else {
                None
            }
        }
        Err(_) => None,
    }
}

/// The number that is spelled so: in decimal, without leading zeros, at most 18,446,744,073,709,551,615.
pub(crate) fn wide_number_of(bytes: &[u8]) -> Option<u64>
    ensures { MatchOption result (IsDecimal 64 bytes.now → ⊥) (λ n. bytes.now ≡ decimal n) }
{
    match str::from_utf8(bytes) {
        Ok(text) => wide_number_in(text),
        Err(_) => None,
    }
}

/// The number that a text spells so.
fn wide_number_in(text: &str) -> Option<u64>
    ensures { MatchOption result (IsDecimal 64 text.now → ⊥) (λ n. text.now ≡ decimal n) }
{
    match text.parse::<u64>() {
        Ok(number) => {
            if spells(number, text) {
                Some(number)
            } else {
                None
            }
        }
        Err(_) => None,
    }
}

/// Whether a text is what is written of a number.
fn spells(number: u64, text: &str) -> bool
    ensures { IsTrue result ↔ (text.now ≡ decimal number) }
{
    let mut buffer = Buffer::new();
    buffer.format(number) == text
}

/// The whole number that is spelled so: in decimal, without leading zeros, with `-` where it is negative, within 64 bits.
pub(crate) fn integer_of(bytes: &[u8]) -> Option<i64>
    ensures { MatchOption result (IsInteger bytes.now → ⊥) (λ z. bytes.now ≡ signed_decimal z) }
{
    match str::from_utf8(bytes) {
        Ok(text) => integer_in(text),
        Err(_) => None,
    }
}

/// The whole number that a text spells so.
fn integer_in(text: &str) -> Option<i64>
    ensures { MatchOption result (IsInteger text.now → ⊥) (λ z. text.now ≡ signed_decimal z) }
{
    match text.parse::<i64>() {
        Ok(value) => {
            if spells_integer(value, text) {
                Some(value)
            } else {
                None
            }
        }
        Err(_) => None,
    }
}

/// Whether a text is what is written of a whole number.
fn spells_integer(value: i64, text: &str) -> bool
    ensures { IsTrue result ↔ (text.now ≡ signed_decimal value) }
{
    let mut buffer = Buffer::new();
    buffer.format(value) == text
}
