//! Fields over a table of shared terms, read: terms without arguments, rows, and the heads of rows.
ghost use Rattle.std.specs.Prelude.{◌≡◌, ◌<◌, ◌+◌, ◌^◌, ◌++◌, List, ℕ, [], All, length, Some, slice_get, IfOk, IfErr, IfSome, MatchOption, decimal};
ghost use Rattle.ll_bank.specs.Nodes.{term_trees};
ghost use Rattle.ll_prooftext.specs.Cells.{IsCellOf, IsCellField, AreCellFields, StopsAtCell, MovesBy, IsFrontOf, IsFrontField, LacksFront};
ghost use Rattle.ll_prooftext.specs.Fields.{Refuses, LacksField, StopsAt, HasNoTerm};
ghost use Rattle.ll_prooftext.specs.Reading.{IsField, IsAtEnd, Cell, Plain, Sign, Then, Nothing};
ghost use Rattle.ll_prooftext.specs.Terms.{Grows, IsSpelledAt};

use crate::bytes::{behind, split_before};
use crate::numbers::number_of;
use crate::rows::{Refusal, has_term, no_more};
use crate::terms::term_of;
use crate::words::{Word, word_of};
use ll_bank::{At, Bank, Head, Names, OutOfMemory};
use std::alloc::Global;

/// The head of a row: one in front of any number of arguments, or the sign `::`, which takes two.
#[derive(Clone, Copy)]
pub(crate) enum Front {
    Plain(Head),
    Sign(Head),
}

/// The row whose number is spelled so, if it is one of these.
fn row_numbered(number: &[u8], rows: &[At]) -> Option<At>
    requires { length rows.now < 2 ^ 32 }
    ensures { MatchOption result ((k : ℕ) → k < length rows.now → number.now ≡ decimal k
        → ⊥) (λ at. (k : ℕ) × ((number.now ≡ decimal k) × (slice_get rows.now k ≡ Some at))) }
{
    let row = number_of(number)?;
    match rows.get(row as usize) {
        Some(at) => Some(*at),
        None => None,
    }
}

/// The term of a word: a row behind `@`, and else a term without arguments. A name that is new is added.
fn cell_of(
    word: &[u8],
    rows: &[At],
    names: &mut Names,
    bank: &mut Bank,
) -> Result<Option<At>, OutOfMemory>
    requires room { length names.old < 2 ^ 32 }
    requires few { length rows.now < 2 ^ 32 }
    requires rows { All (λ a. IsSpelledAt names.old bank.old a.0) rows.now }
    ensures found { IfOk result (λ found. MatchOption found (IsField (Cell (length rows.now)) word.now
        → ⊥) (λ at. IsCellOf (term_trees bank.old rows.now) word.now names.new bank.new at.0)) }
    ensures moves { IfOk result (λ found. IfSome found (λ at. MovesBy names.old bank.old word.now names.new bank.new)) }
    ensures grows { Grows names.old names.new }
{
    if let Some(number) = behind(word, b'@') {
        return Ok(row_numbered(number, rows));
    }
    match word_of(word, names, bank)? {
        Some(found) => Ok(Some(term_of(found, &[], bank)?)),
        None => Ok(None),
    }
}

/// A term or a row behind a space, and what stands behind it.
pub(crate) fn cell_field<'a>(
    bytes: &'a [u8],
    rows: &[At],
    names: &mut Names,
    bank: &mut Bank,
) -> Result<(At, &'a [u8]), Refusal>
    requires end { IsAtEnd bytes.now }
    requires room { length names.old + length bytes.now < 2 ^ 32 }
    requires few { length rows.now < 2 ^ 32 }
    requires rows { All (λ a. IsSpelledAt names.old bank.old a.0) rows.now }
    ensures ok { IfOk result (λ p. IsCellField
        (term_trees bank.old rows.now) names.old bank.old bytes.now names.new bank.new p.0.0 p.1.now) }
    ensures err { IfErr result (Refuses (LacksField (Cell (length rows.now)) bytes.now)) }
    ensures grows { Grows names.old names.new }
{
    let Some(field) = behind(bytes, b' ') else {
        return Err(Refusal::Field(bytes.len()));
    };
    let (word, rest) = split_before(field, b' ');
    match cell_of(word, rows, names, bank)? {
        Some(at) => Ok((at, rest)),
        None => Err(Refusal::Field(bytes.len())),
    }
}

/// Terms and rows up to the first premise or the end of the line.
pub(crate) fn cell_fields<'a>(
    alloc: Global,
    bytes: &'a [u8],
    rows: &[At],
    names: &mut Names,
    bank: &mut Bank,
) -> Result<(Vec<At>, &'a [u8]), Refusal>
    requires end { IsAtEnd bytes.now }
    requires room { length names.old + length bytes.now < 2 ^ 32 }
    requires few { length rows.now < 2 ^ 32 }
    requires rows { All (λ a. IsSpelledAt names.old bank.old a.0) rows.now }
    ensures ok { IfOk result (λ p. AreCellFields
        (term_trees bank.old rows.now) names.old bank.old bytes.now names.new bank.new p.0.items p.1.now) }
    ensures stops { IfOk result (λ p. HasNoTerm p.1.now) }
    ensures err { IfErr result (Refuses (StopsAtCell (length rows.now) bytes.now)) }
    ensures grows { Grows names.old names.new }
{
    let mut terms = Vec::new(alloc);
    let mut rest = bytes;
    while has_term(rest) {
        let (at, next) = cell_field(rest, rows, names, bank)?;
        terms.push(at)?;
        rest = next;
    }
    Ok((terms, rest))
}

/// The term or row of a line's last field.
pub(crate) fn last_cell(
    bytes: &[u8],
    rows: &[At],
    names: &mut Names,
    bank: &mut Bank,
) -> Result<At, Refusal>
    requires end { IsAtEnd bytes.now }
    requires room { length names.old + length bytes.now < 2 ^ 32 }
    requires few { length rows.now < 2 ^ 32 }
    requires rows { All (λ a. IsSpelledAt names.old bank.old a.0) rows.now }
    ensures ok { IfOk result (λ at. IsCellField
        (term_trees bank.old rows.now) names.old bank.old bytes.now names.new bank.new at.0 []) }
    ensures err { IfErr result (Refuses (StopsAt (Then (Cell (length rows.now)) Nothing) bytes.now)) }
    ensures grows { Grows names.old names.new }
{
    let (at, rest) = cell_field(bytes, rows, names, bank)?;
    no_more(rest)?;
    Ok(at)
}

/// The head that is spelled so. A name that is new is added.
fn front_of(word: &[u8], names: &mut Names, bank: &mut Bank) -> Result<Option<Front>, OutOfMemory>
    requires { length names.old < 2 ^ 32 }
    ensures found { IfOk result (λ found. MatchOption found ((IsField Plain word.now → ⊥)
        × (IsField Sign word.now → ⊥)) (IsFrontOf word.now names.new)) }
    ensures moves { IfOk result (λ found. IfSome found
        (λ front. MovesBy names.old bank.old word.now names.new bank.new)) }
    ensures grows { Grows names.old names.new }
{
    if word == b"::".as_slice() {
        return Ok(Some(Front::Sign(Head::Name(names.add("::")?))));
    }
    match word_of(word, names, bank)? {
        Some(Word::Head(head)) => Ok(Some(Front::Plain(head))),
        Some(Word::Term(_)) => Ok(None),
        None => Ok(None),
    }
}

/// A head behind a space, and what stands behind it.
pub(crate) fn front_field<'a>(
    bytes: &'a [u8],
    names: &mut Names,
    bank: &mut Bank,
) -> Result<(Front, &'a [u8]), Refusal>
    requires end { IsAtEnd bytes.now }
    requires room { length names.old + length bytes.now < 2 ^ 32 }
    ensures ok { IfOk result (λ p. IsFrontField names.old bank.old bytes.now names.new bank.new p.0 p.1.now) }
    ensures err { IfErr result (Refuses (LacksFront bytes.now)) }
    ensures grows { Grows names.old names.new }
{
    let Some(field) = behind(bytes, b' ') else {
        return Err(Refusal::Field(bytes.len()));
    };
    let (word, rest) = split_before(field, b' ');
    match front_of(word, names, bank)? {
        Some(front) => Ok((front, rest)),
        None => Err(Refusal::Field(bytes.len())),
    }
}
