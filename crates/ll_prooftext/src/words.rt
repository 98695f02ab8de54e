//! The words of terms, read: variables, whole numbers, eigenvariables and names.
ghost use Rattle.std.specs.Prelude.{◌≡◌, ◌↔◌, ◌+◌, ◌<◌, ◌≤◌, ◌^◌, [], ◌++◌, length, true, IsTrue, IfOk, IfSome, MatchOption};
ghost use Rattle.std.specs.List.{list_all, list_any, prefix_len};
ghost use Rattle.std.specs.Str.{bytes_eq};
ghost use Rattle.ll_lexer.specs.declared.TokenKind.TheVariants.{Name};
ghost use Rattle.ll_lexer.specs.Spelling.{is_name, is_lower, is_word_byte, Spells};
ghost use Rattle.ll_prooftext.specs.Admitted.{IsPlainName};
ghost use Rattle.ll_prooftext.specs.Words.{Stops};
ghost use Rattle.ll_prooftext.specs.Terms.{is_part, Grows, Moves, Shape, IsWord, IsWordOf, HasNoWord, IsWordAt, small_keywords};

use crate::bytes::behind;
use crate::numbers::{integer_of, number_of, wide_number_of};
use ll_bank::{At, Bank, Head, Names, OutOfMemory};
use std::str;

// The most bytes that a name has.
const LONGEST_NAME: usize = 255;

/// A head, or a term that takes no arguments.
#[derive(Clone, Copy)]
pub(crate) enum Word {
    Head(Head),
    Term(At),
}

/// The bytes up to a space, a bracket, a `:` or the end, and those from there on.
fn split_word(bytes: &[u8]) -> (&[u8], &[u8])
    ensures is { bytes.now ≡ result.0.now ++ result.1.now }
    ensures free { list_all is_part result.0.now ≡ true }
    ensures stops { Stops is_part result.1.now }
{
    bytes.split_at(word_len(bytes))
}

/// How many bytes stand in front of a space, a bracket, a `:` or the end.
fn word_len(bytes: &[u8]) -> usize
    ensures run { result ≡ prefix_len is_part bytes.now }
    ensures within { result ≤ length bytes.now }
{
    bytes.iter().take_while(|b| is_part(**b)).count()
}

/// No space, no bracket and no `:`.
fn is_part(b: u8) -> bool
    ensures { result ≡ is_part b }
{
    b != b' ' && b != b'(' && b != b')' && b != b':'
}

/// The word at the front of the bytes, if one stands there, and what stands behind it. A name that is new is added.
pub(crate) fn word_at<'a>(
    bytes: &'a [u8],
    names: &mut Names,
    bank: &mut Bank,
) -> Result<Option<(Word, &'a [u8])>, OutOfMemory>
    requires { length names.old + length bytes.now < 2 ^ 32 }
    ensures found { IfOk result (λ found. MatchOption found (HasNoWord bytes.now)
        (λ p. IsWordAt names.new bank.new bytes.now p.0 p.1.now)) }
    ensures moves { IfOk result (λ found. IfSome found
        (λ p. Moves names.old bank.old bytes.now names.new bank.new p.1.now)) }
    ensures grows { Grows names.old names.new }
{
    let (bytes, rest) = split_word(bytes);
    match word_of(bytes, names, bank)? {
        Some(word) => Ok(Some((word, rest))),
        None => Ok(None),
    }
}

/// The word that is spelled so, if one is. A name that is new is added.
pub(crate) fn word_of(
    bytes: &[u8],
    names: &mut Names,
    bank: &mut Bank,
) -> Result<Option<Word>, OutOfMemory>
    requires { length names.old < 2 ^ 32 }
    ensures found { IfOk result (λ found. MatchOption found ((p : Shape) → IsWord bytes.now p
        → ⊥) (IsWordOf names.new bank.new bytes.now)) }
    ensures moves { IfOk result (λ found. IfSome found
        (λ word. Moves names.old bank.old bytes.now names.new bank.new [])) }
    ensures grows { Grows names.old names.new }
{
    if let Some(rest) = behind(bytes, b'?') {
        return match wide_number_of(rest) {
            Some(number) => Ok(Some(Word::Term(bank.var(number)?))),
            None => Ok(None),
        };
    }
    if let Some(rest) = behind(bytes, b'#') {
        return match number_of(rest) {
            Some(number) => Ok(Some(Word::Head(Head::Eigen(number)))),
            None => Ok(None),
        };
    }
    if let Some(value) = integer_of(bytes) {
        return Ok(Some(Word::Term(bank.int(value)?)));
    }
    match name_of(bytes) {
        Some(text) => Ok(Some(Word::Head(Head::Name(names.add(text)?)))),
        None => Ok(None),
    }
}

/// The text of a name, if the bytes are one.
fn name_of(bytes: &[u8]) -> Option<&str>
    ensures is { MatchOption result (IsPlainName bytes.now → ⊥) (λ text. text.now ≡ bytes.now) }
    ensures plain { IfSome result (λ text. IsPlainName bytes.now) }
{
    if bytes.len() > LONGEST_NAME || !is_name(bytes) {
        return None;
    }
    match str::from_utf8(bytes) {
        Ok(text) => Some(text),
        Err(_) => None,
    }
}

/// Whether the bytes are a name: a small letter, then letters, digits and `_`, and no keyword.
fn is_name(bytes: &[u8]) -> bool
    ensures { IsTrue result ↔ Spells Name bytes.now }
{
    is_shaped(bytes) && !is_keyword(bytes)
}

/// Whether the bytes are a small letter, then letters, digits and `_`.
fn is_shaped(bytes: &[u8]) -> bool
    ensures { result ≡ is_name bytes.now }
{
    let Some((first, rest)) = bytes.split_first() else {
        return false;
    };
    is_lower(*first) && are_word_bytes(rest)
}

/// Whether the bytes are letters, digits and `_`.
fn are_word_bytes(bytes: &[u8]) -> bool
    ensures { result ≡ list_all is_word_byte bytes.now }
{
    bytes.iter().all(|b| is_word_byte(*b))
}

/// A small letter.
#[tactic(auto, unfolding(ll_lexer::specs::Spelling::is_lower))]
fn is_lower(b: u8) -> bool
    ensures { result ≡ is_lower b }
{
    b.is_ascii_lowercase()
}

/// Whether the bytes are a keyword of small letters.
fn is_keyword(bytes: &[u8]) -> bool
    ensures { result ≡ list_any (bytes_eq bytes.now) small_keywords }
{
    bytes == b"true".as_slice()
        || bytes == b"erase".as_slice()
        || bytes == b"forall".as_slice()
        || bytes == b"exists".as_slice()
        || bytes == b"is".as_slice()
}

/// A letter, a digit or `_`.
#[tactic(auto, unfolding(ll_lexer::specs::Spelling::is_word_byte))]
fn is_word_byte(b: u8) -> bool
    ensures { result ≡ is_word_byte b }
{
    b.is_ascii_alphanumeric() || b == b'_'
}
