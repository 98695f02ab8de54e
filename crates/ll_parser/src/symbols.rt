//! Tokens as the grammar sees them: words by their numbers among the names, and numbers by their values.

ghost use Rattle.std.specs.Prelude.{◌≡◌, ℕ, ◌<◌, ◌^◌, ◌++◌, List, Some, length, slice_get, IfOk};
ghost use Rattle.std.specs.Str.{IsAscii};
ghost use Rattle.ll_parser.specs.Tokens.{toks_of};
ghost use Rattle.ll_parser.specs.Nodes.{identifier};
ghost use Rattle.ll_parser.specs.Symbols.{symbol_tok, AddsOne};

use crate::Named;
use ll_bank::{Names, OutOfMemory};
use ll_lexer::{Place, TokenKind, TokenList};

/// A token with its place, and a word with its number among the names.
#[derive(Clone, Copy)]
pub enum Symbol {
    Name(Named),
    Variable(Named),
    Any(Place),
    Number(Place, i64),
    True(Place),
    Erase(Place),
    Forall(Place),
    Exists(Place),
    Is(Place),
    Module(Place),
    Local(Place),
    Linear(Place),
    Dot(Place),
    Comma(Place),
    Ampersand(Place),
    Semicolon(Place),
    ParenLeft(Place),
    ParenRight(Place),
    BraceLeft(Place),
    BraceRight(Place),
    Backslash(Place),
    Cons(Place),
    ColonDash(Place),
    LeftArrow(Place),
    RightArrow(Place),
    Most(Place),
    Less(Place),
    Plus(Place),
    Minus(Place),
    Star(Place),
    Lolli(Place),
    LoadArrow(Place),
}

/// Token `i`. The text of a word is added to the names.
pub fn symbol_at(tokens: &TokenList<'_>, i: usize, names: &mut Names) -> Result<Symbol, OutOfMemory>
    requires token { i < length tokens.now.tokens }
    requires room { length names.old < 2 ^ 32 }
    ensures names { IfOk result (λ _. AddsOne names.old names.new) }
    ensures token { IfOk result (λ s. (more : List (List ℕ)) → slice_get (toks_of tokens.now) i
        ≡ Some (symbol_tok (names.new ++ more) s)) }
{
    let token = tokens.get(i);
    let at = token.at;
    let symbol = match token.kind {
        TokenKind::Name => Symbol::Name(word(tokens.bytes(i), at, names)?),
        TokenKind::Variable => Symbol::Variable(word(tokens.bytes(i), at, names)?),
        TokenKind::Any => Symbol::Any(at),
        TokenKind::Number => Symbol::Number(at, tokens.number(i)),
        TokenKind::True => Symbol::True(at),
        TokenKind::Erase => Symbol::Erase(at),
        TokenKind::Forall => Symbol::Forall(at),
        TokenKind::Exists => Symbol::Exists(at),
        TokenKind::Is => Symbol::Is(at),
        TokenKind::Module => Symbol::Module(at),
        TokenKind::Local => Symbol::Local(at),
        TokenKind::Linear => Symbol::Linear(at),
        TokenKind::Dot => Symbol::Dot(at),
        TokenKind::Comma => Symbol::Comma(at),
        TokenKind::Ampersand => Symbol::Ampersand(at),
        TokenKind::Semicolon => Symbol::Semicolon(at),
        TokenKind::ParenLeft => Symbol::ParenLeft(at),
        TokenKind::ParenRight => Symbol::ParenRight(at),
        TokenKind::BraceLeft => Symbol::BraceLeft(at),
        TokenKind::BraceRight => Symbol::BraceRight(at),
        TokenKind::Backslash => Symbol::Backslash(at),
        TokenKind::Cons => Symbol::Cons(at),
        TokenKind::ColonDash => Symbol::ColonDash(at),
        TokenKind::LeftArrow => Symbol::LeftArrow(at),
        TokenKind::RightArrow => Symbol::RightArrow(at),
        TokenKind::Most => Symbol::Most(at),
        TokenKind::Less => Symbol::Less(at),
        TokenKind::Plus => Symbol::Plus(at),
        TokenKind::Minus => Symbol::Minus(at),
        TokenKind::Star => Symbol::Star(at),
        TokenKind::Lolli => Symbol::Lolli(at),
        TokenKind::LoadArrow => Symbol::LoadArrow(at),
    };
    Ok(symbol)
}

// The number and the place of a word, whose text is added to the names.
fn word(bytes: &[u8], at: Place, names: &mut Names) -> Result<Named, OutOfMemory>
    requires ascii { IsAscii bytes.now }
    requires room { length names.old < 2 ^ 32 }
    ensures names { IfOk result (λ _. AddsOne names.old names.new) }
    ensures text { IfOk result (λ n. (more : List (List ℕ)) → identifier (names.new ++ more) n
        ≡ record { text = bytes.now; at = at }) }
{
    let text = str::from_utf8(bytes).unwrap();
    let name = names.add(text)?;
    Ok(Named { name, at })
}
