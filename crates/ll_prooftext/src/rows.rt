//! What a line of a derivation's text says, read field by field.
ghost use Rattle.std.specs.Prelude.{◌≡◌, ◌+◌, ◌<◌, ◌^◌, true, [], ◌++◌, None, length, IfOk, IfErr, OnOk, MatchBool, MatchOption};
ghost use Rattle.ll_prooftext.specs.Reading.{Number, Set, Argument, Arguments, Nothing, Then, IsAtEnd, want, listed, node_words};
ghost use Rattle.ll_prooftext.specs.RowWords.{spelling, asks, is_short, IsNodeWord, IsRowWord, IsNodeRow, IsShortRow, IsNumberedRule, IsBareRule, IsRow};
ghost use Rattle.ll_prooftext.specs.RowWords.{IsRefused};
ghost use Rattle.ll_prooftext.specs.LaterWords.{later_words};
ghost use Rattle.ll_prooftext.specs.Terms.{Grows};
ghost use Rattle.ll_prooftext.specs.Fields.{Refuses, LacksField, LacksPart, StopsAt, IsNumberField, IsSetField, IsPartField, IsTermField, IsTensor, HasNoTerm};
ghost use Rattle.ll_prooftext.specs.Fields.{AreTermFields, ArePartFields, IsClause};

use crate::bytes::{behind, split_before};
use crate::numbers::number_of;
use crate::sets::{is_at_end, set_at};
use crate::terms::argument_at;
use ll_bank::{At, Bank, Names, OutOfMemory};
use ll_laws::{Part, Rule};
use std::alloc::{AllocError, AllocFailed, Global};

/// What a line behind the first one says.
#[derive(Drop)]
pub(crate) enum Row {
    Let(At),
    Node(Rule),
}

/// Why a line could not be read.
#[derive(Clone, Copy)]
pub(crate) enum Refusal {
    /// Its first word is none.
    Word,
    /// A field is wrong or lacks behind the good ones, where so many bytes are left.
    Field(usize),
    OutOfMemory,
}

impl From<AllocError> for Refusal {
    ghost use Rattle.std.specs.Prelude.{◌≡◌};
    ghost use Rattle.ll_prooftext.specs.declared.rows.Refusal.TheVariants.{OutOfMemory};

    ghost from_gives = { λ _ e. e ≡ OutOfMemory };

    fn from(_error: AllocError) -> Self {
        Refusal::OutOfMemory
    }
}

impl<T: Drop> From<AllocFailed<T>> for Refusal {
    ghost use Rattle.std.specs.Prelude.{◌≡◌};
    ghost use Rattle.ll_prooftext.specs.declared.rows.Refusal.TheVariants.{OutOfMemory};

    ghost from_gives = { λ _ e. e ≡ OutOfMemory };

    fn from(_error: AllocFailed<T>) -> Self {
        Refusal::OutOfMemory
    }
}

/// The first words of lines behind the first one.
#[derive(Clone, Copy)]
enum RowWord {
    Let,
    Node(NodeWord),
}

/// The first words of nodes' lines.
#[derive(Clone, Copy)]
pub(crate) enum NodeWord {
    True,
    Erase,
    Tensor,
    With,
    Left,
    Right,
    Bang,
    Lolli,
    Imp,
    Forall,
    Exists,
    Use,
    Num,
    Clause,
}

/// What a line says. A line `let` is one where it may stand.
#[tactic(none)]
pub(crate) fn read_row(
    alloc: Global,
    line: &[u8],
    lets: bool,
    names: &mut Names,
    bank: &mut Bank,
) -> Result<Row, Refusal>
    requires { length names.old + length line.now < 2 ^ 32 }
    ensures ok { IfOk result (IsRow names.old bank.old line.now lets names.new bank.new) }
    ensures err { IfErr result (IsRefused (want lets) line.now) }
    ensures grows { Grows names.old names.new }
{
    let (first, rest) = split_before(line, b' ');
    match row_word(first, lets) {
        Some(RowWord::Let) => Ok(Row::Let(last_term(alloc, rest, names, bank)?)),
        Some(RowWord::Node(word)) => Ok(Row::Node(node(alloc, word, rest, names, bank)?)),
        None => Err(Refusal::Word),
    }
}

/// The first word that is spelled so. `let` is one where it may stand.
fn row_word(word: &[u8], lets: bool) -> Option<RowWord>
    ensures { MatchOption result (want lets word.now ≡ None) (IsRowWord lets word.now) }
{
    if word == b"let".as_slice() {
        return if lets { Some(RowWord::Let) } else { None };
    }
    Some(RowWord::Node(node_word(word)?))
}

/// The first word of a node's line that is spelled so.
pub(crate) fn node_word(word: &[u8]) -> Option<NodeWord>
    ensures { MatchOption result (listed node_words word.now ≡ None) (IsNodeWord word.now) }
{
    if word == b"true".as_slice() {
        Some(NodeWord::True)
    } else if word == b"erase".as_slice() {
        Some(NodeWord::Erase)
    } else if word == b"tensor".as_slice() {
        Some(NodeWord::Tensor)
    } else if word == b"with".as_slice() {
        Some(NodeWord::With)
    } else if word == b"left".as_slice() {
        Some(NodeWord::Left)
    } else if word == b"right".as_slice() {
        Some(NodeWord::Right)
    } else if word == b"bang".as_slice() {
        Some(NodeWord::Bang)
    } else {
        later_word(word)
    }
}

/// The first word of a node's line that is spelled so, one of those behind `bang` in the list.
fn later_word(word: &[u8]) -> Option<NodeWord>
    ensures { MatchOption result (listed later_words word.now ≡ None) (IsNodeWord word.now) }
{
    if word == b"lolli".as_slice() {
        Some(NodeWord::Lolli)
    } else if word == b"imp".as_slice() {
        Some(NodeWord::Imp)
    } else if word == b"forall".as_slice() {
        Some(NodeWord::Forall)
    } else if word == b"exists".as_slice() {
        Some(NodeWord::Exists)
    } else if word == b"use".as_slice() {
        Some(NodeWord::Use)
    } else if word == b"num".as_slice() {
        Some(NodeWord::Num)
    } else if word == b"clause".as_slice() {
        Some(NodeWord::Clause)
    } else {
        None
    }
}

/// The node of a first word and the fields behind it.
#[tactic(none)]
pub(crate) fn node(
    alloc: Global,
    word: NodeWord,
    rest: &[u8],
    names: &mut Names,
    bank: &mut Bank,
) -> Result<Rule, Refusal>
    requires end { IsAtEnd rest.now }
    requires room { length names.old + length rest.now < 2 ^ 32 }
    ensures ok { IfOk result (IsNodeRow names.old bank.old (spelling word ++ rest.now) names.new bank.new) }
    ensures err { IfErr result (Refuses (StopsAt (asks word) rest.now)) }
    ensures grows { Grows names.old names.new }
{
    match word {
        NodeWord::Tensor => tensor(alloc, rest),
        NodeWord::Exists => Ok(Rule::Exists(last_term(alloc, rest, names, bank)?)),
        NodeWord::Clause => clause(alloc, rest, names, bank),
        _ => short_node(word, rest),
    }
}

/// The node of a first word behind which at most a number stands.
fn short_node(word: NodeWord, rest: &[u8]) -> Result<Rule, Refusal>
    requires end { IsAtEnd rest.now }
    requires short { is_short word ≡ true }
    ensures ok { IfOk result (IsShortRow (spelling word ++ rest.now)) }
    ensures err { IfErr result (Refuses (StopsAt (asks word) rest.now)) }
{
    if has_number(word) {
        let number = last_number(rest)?;
        return Ok(numbered_rule(word, number));
    }
    no_more(rest)?;
    Ok(bare_rule(word))
}

/// Whether a number stands behind the first word.
fn has_number(word: NodeWord) -> bool
    requires { is_short word ≡ true }
    ensures { MatchBool result (asks word ≡ Then Number Nothing) (asks word ≡ Nothing) }
{
    match word {
        NodeWord::Lolli => true,
        NodeWord::Imp => true,
        NodeWord::Forall => true,
        _ => false,
    }
}

/// The rule of a first word and the number behind it.
fn numbered_rule(word: NodeWord, number: u32) -> Rule
    requires { asks word ≡ Then Number Nothing }
    ensures { IsNumberedRule word number result }
{
    match word {
        NodeWord::Lolli => Rule::Lolli(number),
        NodeWord::Imp => Rule::Imp(number),
        _ => Rule::Forall(number),
    }
}

/// The rule of a first word behind which nothing stands.
fn bare_rule(word: NodeWord) -> Rule
    requires { asks word ≡ Nothing }
    ensures { IsBareRule word result }
{
    match word {
        NodeWord::True => Rule::One,
        NodeWord::Erase => Rule::Erase,
        NodeWord::With => Rule::With,
        NodeWord::Left => Rule::Left,
        NodeWord::Right => Rule::Right,
        NodeWord::Bang => Rule::Bang,
        NodeWord::Use => Rule::Use,
        _ => Rule::Num,
    }
}

/// Two sets.
fn tensor(alloc: Global, bytes: &[u8]) -> Result<Rule, Refusal>
    requires { IsAtEnd bytes.now }
    ensures ok { IfOk result (IsTensor bytes.now) }
    ensures err { IfErr result (Refuses (StopsAt (Then Set (Then Set Nothing)) bytes.now)) }
{
    let (first, behind_first) = set_field(alloc, bytes)?;
    let (second, behind_second) = set_field(alloc, behind_first)?;
    no_more(behind_second)?;
    Ok(Rule::Tensor(first, second))
}

/// The fields of a clause step.
fn clause(alloc: Global, bytes: &[u8], names: &mut Names, bank: &mut Bank) -> Result<Rule, Refusal>
    requires end { IsAtEnd bytes.now }
    requires room { length names.old + length bytes.now < 2 ^ 32 }
    ensures ok { IfOk result (IsClause names.old bank.old bytes.now names.new bank.new) }
    ensures err { IfErr result (Refuses (StopsAt (Then Number (Then Number Arguments)) bytes.now)) }
    ensures grows { Grows names.old names.new }
{
    let (label, behind_label) = number_field(bytes)?;
    let (leaf, behind_leaf) = number_field(behind_label)?;
    let (terms, behind_terms) = term_fields(alloc, behind_leaf, names, bank)?;
    let parts = part_fields(alloc, behind_terms)?;
    Ok(Rule::Clause {
        label,
        leaf,
        terms,
        parts,
    })
}

/// The terms up to the first premise.
fn term_fields<'a>(
    alloc: Global,
    bytes: &'a [u8],
    names: &mut Names,
    bank: &mut Bank,
) -> Result<(Vec<At>, &'a [u8]), Refusal>
    requires end { IsAtEnd bytes.now }
    requires room { length names.old + length bytes.now < 2 ^ 32 }
    ensures ok { IfOk result (λ p. AreTermFields names.old bank.old bytes.now names.new bank.new p.0.items p.1.now) }
    ensures stops { IfOk result (λ p. HasNoTerm p.1.now) }
    ensures err { IfErr result (Refuses (StopsAt Arguments bytes.now)) }
    ensures grows { Grows names.old names.new }
{
    let mut terms = Vec::new(alloc);
    let mut rest = bytes;
    while has_term(rest) {
        let (at, next) = term_field(alloc, rest, names, bank)?;
        terms.push(at)?;
        rest = next;
    }
    Ok((terms, rest))
}

/// Whether a term stands here: the line goes on, and no premise begins.
pub(crate) fn has_term(bytes: &[u8]) -> bool
    requires { IsAtEnd bytes.now }
    ensures { MatchBool result (HasNoTerm bytes.now → ⊥) (HasNoTerm bytes.now) }
{
    let Some(field) = behind(bytes, b' ') else {
        return false;
    };
    if let Some(_) = behind(field, b'{') {
        return false;
    }
    if let Some(_) = behind(field, b'!') {
        return false;
    }
    true
}

/// The premises up to the end of the line.
pub(crate) fn part_fields(alloc: Global, bytes: &[u8]) -> Result<Vec<Part>, Refusal>
    requires end { IsAtEnd bytes.now }
    requires begins { HasNoTerm bytes.now }
    ensures ok { IfOk result (λ parts. ArePartFields bytes.now parts.items) }
    ensures err { IfErr result (Refuses (StopsAt Arguments bytes.now)) }
{
    let mut parts = Vec::new(alloc);
    let mut rest = bytes;
    while !rest.is_empty() {
        let (part, next) = part_field(alloc, rest)?;
        parts.push(part)?;
        rest = next;
    }
    Ok(parts)
}

/// A premise, and what stands behind it.
fn part_field(alloc: Global, bytes: &[u8]) -> Result<(Part, &[u8]), Refusal>
    requires { IsAtEnd bytes.now }
    ensures ok { IfOk result (λ p. IsPartField bytes.now p.0 p.1.now) }
    ensures err { IfErr result (Refuses (LacksPart bytes.now)) }
{
    let Some(field) = behind(bytes, b' ') else {
        return Err(Refusal::Field(bytes.len()));
    };
    if let Some(rest) = behind(field, b'!') {
        if is_at_end(rest) {
            return Ok((Part::Unbounded, rest));
        }
        return Err(Refusal::Field(bytes.len()));
    }
    match set_at(alloc, field)? {
        Some((labels, rest)) => Ok((Part::Bounded(labels), rest)),
        None => Err(Refusal::Field(bytes.len())),
    }
}

/// A set behind a space, and what stands behind it.
fn set_field(alloc: Global, bytes: &[u8]) -> Result<(Vec<u32>, &[u8]), Refusal>
    requires { IsAtEnd bytes.now }
    ensures ok { IfOk result (λ p. IsSetField bytes.now p.0.items p.1.now) }
    ensures err { IfErr result (Refuses (LacksField Set bytes.now)) }
{
    let Some(field) = behind(bytes, b' ') else {
        return Err(Refusal::Field(bytes.len()));
    };
    match set_at(alloc, field)? {
        Some(found) => Ok(found),
        None => Err(Refusal::Field(bytes.len())),
    }
}

/// A term behind a space, and what stands behind it.
fn term_field<'a>(
    alloc: Global,
    bytes: &'a [u8],
    names: &mut Names,
    bank: &mut Bank,
) -> Result<(At, &'a [u8]), Refusal>
    requires end { IsAtEnd bytes.now }
    requires room { length names.old + length bytes.now < 2 ^ 32 }
    ensures ok { IfOk result (λ p. IsTermField names.old bank.old bytes.now names.new bank.new p.0.0 p.1.now) }
    ensures err { IfErr result (Refuses (LacksField Argument bytes.now)) }
    ensures grows { Grows names.old names.new }
{
    let Some(field) = behind(bytes, b' ') else {
        return Err(Refusal::Field(bytes.len()));
    };
    match argument_at(alloc, field, names, bank)? {
        Some((at, rest)) => Ok((at, rest)),
        None => Err(Refusal::Field(bytes.len())),
    }
}

/// A number behind a space, and what stands behind it.
pub(crate) fn number_field(bytes: &[u8]) -> Result<(u32, &[u8]), Refusal>
    requires { IsAtEnd bytes.now }
    ensures ok { IfOk result (λ p. IsNumberField bytes.now p.0 p.1.now) }
    ensures err { IfErr result (Refuses (LacksField Number bytes.now)) }
{
    let Some(field) = behind(bytes, b' ') else {
        return Err(Refusal::Field(bytes.len()));
    };
    let (word, rest) = split_before(field, b' ');
    match number_of(word) {
        Some(number) => Ok((number, rest)),
        None => Err(Refusal::Field(bytes.len())),
    }
}

/// The term of a line's last field.
fn last_term(alloc: Global, bytes: &[u8], names: &mut Names, bank: &mut Bank) -> Result<At, Refusal>
    requires end { IsAtEnd bytes.now }
    requires room { length names.old + length bytes.now < 2 ^ 32 }
    ensures ok { IfOk result (λ at. IsTermField names.old bank.old bytes.now names.new bank.new at.0 []) }
    ensures err { IfErr result (Refuses (StopsAt (Then Argument Nothing) bytes.now)) }
    ensures grows { Grows names.old names.new }
{
    let (at, rest) = term_field(alloc, bytes, names, bank)?;
    no_more(rest)?;
    Ok(at)
}

/// The number of a line's last field.
fn last_number(bytes: &[u8]) -> Result<u32, Refusal>
    requires { IsAtEnd bytes.now }
    ensures ok { IfOk result (λ n. IsNumberField bytes.now n []) }
    ensures err { IfErr result (Refuses (StopsAt (Then Number Nothing) bytes.now)) }
{
    let (number, rest) = number_field(bytes)?;
    no_more(rest)?;
    Ok(number)
}

/// Refuses a further field.
pub(crate) fn no_more(bytes: &[u8]) -> Result<(), Refusal>
    requires { IsAtEnd bytes.now }
    ensures ok { OnOk result (bytes.now ≡ []) }
    ensures err { IfErr result (Refuses (StopsAt Nothing bytes.now)) }
{
    if bytes.is_empty() {
        Ok(())
    } else {
        Err(Refusal::Field(bytes.len()))
    }
}
