//! The longest token at the front of some bytes.

ghost use Rattle.std.specs.Prelude.{◌≡◌, ◌≢◌, ◌+◌, ◌≤◌, ◌∷◌, length, MatchOption, false, true};
ghost use Rattle.std.specs.List.{prefix_len};
ghost use Rattle.ll_lexer.specs.Spelling.{is_lower, is_digit, is_word_start, is_word_byte, is_word, Spells, IsLongest, HasNone};

use super::TokenKind;

#[tactic(auto, unfolding(crate::specs::Spelling::is_word_byte))]
fn is_word_byte(b: u8) -> bool
    ensures { result ≡ is_word_byte b }
{
    b.is_ascii_alphanumeric() || b == b'_'
}

#[tactic(auto, unfolding(crate::specs::Spelling::is_digit))]
fn is_digit(b: u8) -> bool
    ensures { result ≡ is_digit b }
{
    b.is_ascii_digit()
}

// How many bytes at the front go on with a word.
fn word_len(bytes: &[u8]) -> usize
    ensures run { result ≡ prefix_len is_word_byte bytes.now }
    ensures within { result ≤ length bytes.now }
{
    bytes.iter().take_while(|b| is_word_byte(**b)).count()
}

// How many bytes at the front are digits.
fn digits_len(bytes: &[u8]) -> usize
    ensures run { result ≡ prefix_len is_digit bytes.now }
    ensures within { result ≤ length bytes.now }
{
    bytes.iter().take_while(|b| is_digit(**b)).count()
}

#[tactic(auto, unfolding(crate::specs::Spelling::is_word_start))]
fn is_word_start(b: u8) -> bool
    ensures { result ≡ is_word_start b }
{
    b.is_ascii_alphabetic() || b == b'_'
}

#[tactic(auto, unfolding(crate::specs::Spelling::is_lower))]
fn is_lower(b: u8) -> bool
    ensures { result ≡ is_lower b }
{
    b.is_ascii_lowercase()
}

// A keyword, `_`, a name or a variable.
fn word_kind(word: &[u8]) -> TokenKind
    requires { is_word word.now ≡ true }
    ensures { Spells result word.now }
{
    if word == b"true".as_slice() {
        TokenKind::True
    } else if word == b"erase".as_slice() {
        TokenKind::Erase
    } else if word == b"forall".as_slice() {
        TokenKind::Forall
    } else if word == b"exists".as_slice() {
        TokenKind::Exists
    } else if word == b"is".as_slice() {
        TokenKind::Is
    } else if word == b"MODULE".as_slice() {
        TokenKind::Module
    } else if word == b"LOCAL".as_slice() {
        TokenKind::Local
    } else if word == b"LINEAR".as_slice() {
        TokenKind::Linear
    } else if word == b"_".as_slice() {
        TokenKind::Any
    } else if is_lower(word[0]) {
        TokenKind::Name
    } else {
        TokenKind::Variable
    }
}

// What begins with a sign's first byte, which is neither a dash nor in a word or a number.
fn sign(first: u8, rest: &[u8]) -> Option<(TokenKind, usize)>
    requires no_word { is_word_start first ≡ false }
    requires no_digit { is_digit first ≡ false }
    requires no_dash { first ≢ 45 }
    ensures { MatchOption result (HasNone (first ∷ rest.now)) (λ p. IsLongest (first ∷ rest.now) p.0 p.1) }
{
    match first {
        b'.' => Some((TokenKind::Dot, 1)),
        b',' => Some((TokenKind::Comma, 1)),
        b'&' => Some((TokenKind::Ampersand, 1)),
        b';' => Some((TokenKind::Semicolon, 1)),
        b'(' => Some((TokenKind::ParenLeft, 1)),
        b')' => Some((TokenKind::ParenRight, 1)),
        b'{' => Some((TokenKind::BraceLeft, 1)),
        b'}' => Some((TokenKind::BraceRight, 1)),
        b'\\' => Some((TokenKind::Backslash, 1)),
        b':' if rest.starts_with(b":") => Some((TokenKind::Cons, 2)),
        b':' if rest.starts_with(b"-") => Some((TokenKind::ColonDash, 2)),
        b'<' if rest.starts_with(b"=") => Some((TokenKind::LeftArrow, 2)),
        b'<' => Some((TokenKind::Less, 1)),
        b'=' if rest.starts_with(b">") => Some((TokenKind::RightArrow, 2)),
        b'=' if rest.starts_with(b"<") => Some((TokenKind::Most, 2)),
        b'+' => Some((TokenKind::Plus, 1)),
        b'*' => Some((TokenKind::Star, 1)),
        _ => None,
    }
}

// What begins with a dash, behind it: a longer sign, a number, or the sign `-`.
fn dashed(rest: &[u8]) -> (TokenKind, usize)
    ensures { IsLongest (45 ∷ rest.now) result.0 result.1 }
{
    if rest.starts_with(b"o") {
        return (TokenKind::Lolli, 2);
    }
    if rest.starts_with(b"->") {
        return (TokenKind::LoadArrow, 3);
    }
    let digits = digits_len(rest);
    if digits > 0 {
        (TokenKind::Number, 1 + digits)
    } else {
        (TokenKind::Minus, 1)
    }
}

/// The longest token at the front of the bytes, with its length.
pub fn longest_token(bytes: &[u8]) -> Option<(TokenKind, usize)>
    ensures { MatchOption result (HasNone bytes.now) (λ p. IsLongest bytes.now p.0 p.1) }
{
    let Some((first, rest)) = bytes.split_first() else {
        return None;
    };
    if is_word_start(*first) {
        let n = 1 + word_len(rest);
        Some((word_kind(&bytes[..n]), n))
    } else if is_digit(*first) {
        Some((TokenKind::Number, 1 + digits_len(rest)))
    } else if *first == b'-' {
        Some(dashed(rest))
    } else {
        sign(*first, rest)
    }
}
