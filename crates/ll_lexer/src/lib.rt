//! The tokens of a text, with their places, or the text's first fault.
#![tactic(auto)]

mod lexeme;
mod number;

ghost use Rattle.std.specs.Prelude.{◌≡◌, ℕ, ◌+◌, ◌<◌, ◌≤◌, ◌^◌, List, length, IsSomeAnd, IfSome, IfOk, IfErr, MatchOption, slice_get};
ghost use Rattle.std.specs.List.{prefix_len};
ghost use Rattle.std.specs.Str.{IsAscii};
ghost use Rattle.ll_lexer.specs.declared.Fault.{Fault};
ghost use Rattle.ll_lexer.specs.declared.TokenKind.TheVariants.{Number};
ghost use Rattle.ll_lexer.specs.Spelling.{Spells};
ghost use Rattle.ll_lexer.specs.Reading.{is_blank, is_no_lf, after, number_value, HasFlaw, IsSound, LexedText, IsLexed, HasFault, IsCause, IsTokenOf, bytes_of};

use lexeme::longest_token;
use number::value_of;
use std::alloc::{AllocError, AllocFailed, Global};
use std::marker::Model;

// The most bytes that a name or a variable has.
const LONGEST_NAME: usize = 255;

/// A place in a text: lines from 1, and in a line columns from 1, one for each byte.
#[derive(Clone, Copy, Debug, PartialEq, Eq)]
pub struct Place {
    pub line: u32,
    pub column: u32,
}

/// A fault of a text: the place and the number of its kind.
#[derive(Clone, Copy, Debug, PartialEq, Eq)]
pub struct Fault {
    pub at: Place,
    pub kind: u8,
}

/// Why a text could not be read: its first fault, or that memory ran out.
#[derive(Clone, Copy, Debug, PartialEq, Eq)]
pub enum TextFault {
    Text(Fault),
    OutOfMemory,
}

impl From<AllocError> for TextFault {
    ghost use Rattle.std.specs.Prelude.{◌≡◌};
    ghost use Rattle.ll_lexer.specs.declared.TextFault.TheVariants.{OutOfMemory};

    ghost from_gives = { λ _ e. e ≡ OutOfMemory };

    fn from(_error: AllocError) -> Self {
        TextFault::OutOfMemory
    }
}

impl<T: Drop> From<AllocFailed<T>> for TextFault {
    ghost use Rattle.std.specs.Prelude.{◌≡◌};
    ghost use Rattle.ll_lexer.specs.declared.TextFault.TheVariants.{OutOfMemory};

    ghost from_gives = { λ _ e. e ≡ OutOfMemory };

    fn from(_error: AllocFailed<T>) -> Self {
        TextFault::OutOfMemory
    }
}

/// The kinds of tokens: words and numbers, the keywords, and the signs.
#[derive(Clone, Copy, PartialEq, Eq)]
pub enum TokenKind {
    Name,
    Variable,
    Any,
    Number,
    True,
    Erase,
    Forall,
    Exists,
    Is,
    Module,
    Local,
    Linear,
    Dot,
    Comma,
    Ampersand,
    Semicolon,
    ParenLeft,
    ParenRight,
    BraceLeft,
    BraceRight,
    Backslash,
    Cons,
    ColonDash,
    LeftArrow,
    RightArrow,
    Most,
    Less,
    Plus,
    Minus,
    Star,
    Lolli,
    LoadArrow,
}

/// A token: its kind, the place of its first byte, and its bytes' range in the text.
#[derive(Clone, Copy)]
pub struct Token {
    pub kind: TokenKind,
    pub at: Place,
    pub from: usize,
    pub to: usize,
}

// What the list keeps of a token. A text has at most 2^24 bytes, so 32 bits hold each number.
#[derive(Clone, Copy)]
struct Row {
    kind: TokenKind,
    at: Place,
    from: u32,
    to: u32,
}

/// The tokens of a text without a fault, in the text's order. It borrows the text.
#[derive(Drop)]
pub struct TokenList<'a> {
    text: &'a [u8],
    rows: Vec<Row>,
    end: Place,
}

impl<'a> Model for TokenList<'a> {
    ghost use Rattle.std.specs.Prelude.{map};
    ghost use Rattle.ll_lexer.specs.Kept.{token_of};
    ghost use Rattle.ll_lexer.specs.Reading.{LexedText, IsLexed};

    ghost Value = { LexedText };

    ghost view = { λ l. record { text = l.text.now; tokens = map token_of l.rows.items; end = l.end } };

    ghost invariant = { λ l. IsLexed (record { text = l.text.now; tokens = map token_of l.rows.items; end = l.end }) };
}

impl TokenList<'_> {
    /// How many tokens the text has.
    pub fn len(&self) -> usize
        ensures len { result ≡ length self.now.tokens }
        ensures lexed { IsLexed self.now }
        ensures few { length self.now.tokens ≤ length self.now.text }
    {
        self.rows.len()
    }

    /// Token `i`.
    pub fn get(&self, i: usize) -> Token
        requires { i < length self.now.tokens }
        ensures token { slice_get self.now.tokens i ≡ Some result }
        ensures stands { IsTokenOf self.now.text result }
    {
        let row = self.rows[i];
        Token {
            kind: row.kind,
            at: row.at,
            from: row.from as usize,
            to: row.to as usize,
        }
    }

    /// The bytes of token `i`, which are all ASCII.
    pub fn bytes(&self, i: usize) -> &[u8]
        requires { i < length self.now.tokens }
        ensures bytes { IfSome (slice_get self.now.tokens i) (λ t. result.now ≡ bytes_of self.now.text t) }
        ensures ascii { IsAscii result.now }
    {
        let token = self.get(i);
        &self.text[token.from..token.to]
    }

    /// The value of token `i`, which is a number.
    pub fn number(&self, i: usize) -> i64
        requires { IsSomeAnd (slice_get self.now.tokens i) (λ t. t.kind ≡ Number) }
        ensures { IfSome (slice_get self.now.tokens i) (λ t. result ≡ number_value (bytes_of self.now.text t)) }
    {
        let token = self.get(i);
        value_of(&self.text[token.from..token.to]).unwrap()
    }

    /// The place of the end of the text, which is that of one further byte.
    pub fn end(&self) -> Place
        ensures { result ≡ self.now.end }
    {
        self.end
    }
}

// Space, tab, CR and LF.
#[tactic(auto, unfolding(crate::specs::Reading::is_blank))]
fn is_blank(b: u8) -> bool
    ensures { result ≡ is_blank b }
{
    b == b' ' || b == b'\t' || b == b'\r' || b == b'\n'
}

#[tactic(auto, unfolding(crate::specs::Reading::is_no_lf))]
fn is_no_lf(b: u8) -> bool
    ensures { result ≡ is_no_lf b }
{
    b != b'\n'
}

// How many bytes a comment has behind its `%`.
fn comment_len(bytes: &[u8]) -> usize
    ensures run { result ≡ prefix_len is_no_lf bytes.now }
    ensures within { result ≤ length bytes.now }
{
    bytes.iter().take_while(|b| is_no_lf(**b)).count()
}

// The place after a byte.
fn after(at: Place, b: u8) -> Place
    requires { at.line + at.column < 2 ^ 30 }
    ensures { result ≡ after at b }
{
    if b == b'\n' {
        Place {
            line: at.line + 1,
            column: 1,
        }
    } else {
        Place {
            line: at.line,
            column: at.column + 1,
        }
    }
}

// The place after n bytes that are no LF.
fn columns(at: Place, n: usize) -> Place
    requires { at.column + n < 2 ^ 30 }
    ensures { result ≡ record { line = at.line; column = at.column + n } }
{
    Place {
        line: at.line,
        column: at.column + n as u32,
    }
}

// The number of the fault of a token that is spelled so, if it has one.
fn flaw(kind: TokenKind, word: &[u8]) -> Option<u8>
    requires { Spells kind word.now }
    ensures { MatchOption result (IsSound kind word.now) (λ flaw. HasFlaw kind word.now flaw) }
{
    match kind {
        TokenKind::Number => match value_of(word) {
            Some(_) => None,
            None => Some(2),
        },
        TokenKind::Name | TokenKind::Variable => {
            if word.len() > LONGEST_NAME {
                Some(3)
            } else {
                None
            }
        }
        _ => None,
    }
}

/// The tokens of a text of at most 16,777,216 bytes, the longest one at each place. `Text` is the first fault in the
/// text: kind 1 is a byte that begins no token, kind 2 a number outside 64 bits, and kind 3 a name or variable of more
/// than 255 bytes, the latter two at their first byte.
pub fn tokens(alloc: Global, text: &[u8]) -> Result<TokenList<'_>, TextFault>
    requires { length text.now ≤ 16777216 }
    ensures ok { IfOk result (λ list. (list.text ≡ text.now) × IsLexed list) }
    ensures err { IfErr result (λ e. IsCause text.now e) }
{
    let mut rows = Vec::new(alloc);
    let mut at = Place { line: 1, column: 1 };
    let mut i = 0;
    while i < text.len() {
        let b = text[i];
        if is_blank(b) {
            at = after(at, b);
            i += 1;
        } else if b == b'%' {
            let n = 1 + comment_len(&text[i + 1..]);
            at = columns(at, n);
            i += n;
        } else {
            let Some((kind, n)) = longest_token(&text[i..]) else {
                return Err(TextFault::Text(Fault { at, kind: 1 }));
            };
            if let Some(flaw) = flaw(kind, &text[i..i + n]) {
                return Err(TextFault::Text(Fault { at, kind: flaw }));
            }
            rows.push(Row {
                kind,
                at,
                from: i as u32,
                to: (i + n) as u32,
            })?;
            at = columns(at, n);
            i += n;
        }
    }
    Ok(TokenList {
        text,
        rows,
        end: at,
    })
}

/// A text has one reading: its tokens, or its first fault.
pub fn one_reading()
    ensures tokens { (a b : LexedText) → a.text ≡ b.text → IsLexed a → IsLexed b → a ≡ b }
    ensures fault { (text : List ℕ) (f g : Fault) → HasFault text f → HasFault text g → f ≡ g }
    ensures not_both { (a : LexedText) (f : Fault) → IsLexed a → HasFault a.text f → ⊥ }
{}
