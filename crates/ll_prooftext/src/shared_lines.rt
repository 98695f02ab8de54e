//! What a line says over a table of shared terms.
ghost use Rattle.std.specs.Prelude.{◌≡◌, ◌+◌, ◌<◌, ◌^◌, ◌∷◌, ◌++◌, ℕ, [], All, None, length, IfOk, IfErr, MatchOption};
ghost use Rattle.ll_bank.specs.Nodes.{term_trees};
ghost use Rattle.ll_prooftext.specs.Admitted.{IsPlainHead};
ghost use Rattle.ll_prooftext.specs.Cells.{Stays, IsSignHead};
ghost use Rattle.ll_prooftext.specs.Fields.{Refuses, StopsAt};
ghost use Rattle.ll_prooftext.specs.Reading.{IsAtEnd, Then, Number, Cells, Row, More, Cell, Nothing};
ghost use Rattle.ll_prooftext.specs.RowWords.{spelling, IsRefused};
ghost use Rattle.ll_prooftext.specs.SharedLines.{want_over, asks_over, IsLineWord, IsClauseOver, IsStepOver, IsSpineOver, IsPairOver, IsShareOver, IsLineOver};
ghost use Rattle.ll_prooftext.specs.Terms.{Grows, IsSpelledAt};

use crate::bytes::split_before;
use crate::cells::{Front, cell_field, cell_fields, front_field, last_cell};
use crate::rows::{NodeWord, Refusal, no_more, node, node_word, number_field, part_fields};
use ll_bank::{At, Bank, Head, Names, OutOfMemory};
use ll_laws::Rule;
use std::alloc::Global;

/// What a line behind the first one says.
#[derive(Drop)]
pub(crate) enum Line {
    Share(At),
    Let(At),
    Node(Rule),
}

/// The lines that may still stand here, beside those of nodes.
#[derive(Clone, Copy)]
pub(crate) struct Stage {
    pub(crate) shares: bool,
    pub(crate) lets: bool,
}

/// The first words of lines behind the first one.
#[derive(Clone, Copy)]
enum LineWord {
    Share,
    Let,
    Node(NodeWord),
}

/// What a line says behind these rows. A line `share` or `let` is one where it may stand.
#[tactic(none)]
pub(crate) fn read_line(
    alloc: Global,
    line: &[u8],
    stage: Stage,
    rows: &[At],
    names: &mut Names,
    bank: &mut Bank,
) -> Result<Line, Refusal>
    requires room { length names.old + length line.now < 2 ^ 32 }
    requires few { length rows.now < 2 ^ 32 }
    requires rows { All (λ a. IsSpelledAt names.old bank.old a.0) rows.now }
    ensures ok { IfOk result (IsLineOver
        (term_trees bank.old rows.now) stage names.old bank.old line.now names.new bank.new) }
    ensures err { IfErr result (IsRefused (want_over (length rows.now) stage.shares stage.lets) line.now) }
    ensures grows { Grows names.old names.new }
{
    let (first, rest) = split_before(line, b' ');
    match line_word(first, stage) {
        Some(LineWord::Share) => Ok(Line::Share(share(alloc, rest, rows, names, bank)?)),
        Some(LineWord::Let) => Ok(Line::Let(last_cell(rest, rows, names, bank)?)),
        Some(LineWord::Node(word)) => Ok(Line::Node(step(alloc, word, rest, rows, names, bank)?)),
        None => Err(Refusal::Word),
    }
}

/// The first word that is spelled so. `share` and `let` are some where they may stand.
fn line_word(word: &[u8], stage: Stage) -> Option<LineWord>
    ensures { MatchOption result ((n : ℕ) → want_over n stage.shares stage.lets word.now ≡ None)
        (IsLineWord stage word.now) }
{
    if word == b"share".as_slice() {
        return if stage.shares {
            Some(LineWord::Share)
        } else {
            None
        };
    }
    if word == b"let".as_slice() {
        return if stage.lets {
            Some(LineWord::Let)
        } else {
            None
        };
    }
    Some(LineWord::Node(node_word(word)?))
}

/// The node of a first word and the fields behind it.
#[tactic(none)]
fn step(
    alloc: Global,
    word: NodeWord,
    rest: &[u8],
    rows: &[At],
    names: &mut Names,
    bank: &mut Bank,
) -> Result<Rule, Refusal>
    requires end { IsAtEnd rest.now }
    requires room { length names.old + length rest.now < 2 ^ 32 }
    requires few { length rows.now < 2 ^ 32 }
    requires rows { All (λ a. IsSpelledAt names.old bank.old a.0) rows.now }
    ensures ok { IfOk result (IsStepOver (term_trees bank.old rows.now) names.old bank.old
        (spelling word ++ rest.now) names.new bank.new) }
    ensures err { IfErr result (Refuses (StopsAt (asks_over (length rows.now) word) rest.now)) }
    ensures grows { Grows names.old names.new }
{
    match word {
        NodeWord::Exists => Ok(Rule::Exists(last_cell(rest, rows, names, bank)?)),
        NodeWord::Clause => clause(alloc, rest, rows, names, bank),
        _ => node(alloc, word, rest, names, bank),
    }
}

/// The fields of a clause step.
fn clause(
    alloc: Global,
    bytes: &[u8],
    rows: &[At],
    names: &mut Names,
    bank: &mut Bank,
) -> Result<Rule, Refusal>
    requires end { IsAtEnd bytes.now }
    requires room { length names.old + length bytes.now < 2 ^ 32 }
    requires few { length rows.now < 2 ^ 32 }
    requires rows { All (λ a. IsSpelledAt names.old bank.old a.0) rows.now }
    ensures ok { IfOk result (IsClauseOver
        (term_trees bank.old rows.now) names.old bank.old bytes.now names.new bank.new) }
    ensures err { IfErr result (Refuses (StopsAt (Then Number (Then Number (Cells (length rows.now)))) bytes.now)) }
    ensures grows { Grows names.old names.new }
{
    let (label, behind_label) = number_field(bytes)?;
    let (leaf, behind_leaf) = number_field(behind_label)?;
    let (terms, behind_terms) = cell_fields(alloc, behind_leaf, rows, names, bank)?;
    let parts = part_fields(alloc, behind_terms)?;
    Ok(Rule::Clause {
        label,
        leaf,
        terms,
        parts,
    })
}

/// The term of a row: a head and the arguments behind it.
fn share(
    alloc: Global,
    bytes: &[u8],
    rows: &[At],
    names: &mut Names,
    bank: &mut Bank,
) -> Result<At, Refusal>
    requires end { IsAtEnd bytes.now }
    requires room { length names.old + length bytes.now < 2 ^ 32 }
    requires few { length rows.now < 2 ^ 32 }
    requires rows { All (λ a. IsSpelledAt names.old bank.old a.0) rows.now }
    ensures ok { IfOk result (λ at. IsShareOver
        (term_trees bank.old rows.now) names.old bank.old bytes.now names.new bank.new at.0) }
    ensures err { IfErr result (Refuses (StopsAt (Row (length rows.now)) bytes.now)) }
    ensures grows { Grows names.old names.new }
{
    let (front, behind_front) = front_field(bytes, names, bank)?;
    match front {
        Front::Plain(head) => plain_share(alloc, head, behind_front, rows, names, bank),
        Front::Sign(head) => sign_share(head, behind_front, rows, names, bank),
    }
}

/// The term of a head and the arguments behind it, of which there is at least one.
fn plain_share(
    alloc: Global,
    head: Head,
    bytes: &[u8],
    rows: &[At],
    names: &mut Names,
    bank: &mut Bank,
) -> Result<At, Refusal>
    requires end { IsAtEnd bytes.now }
    requires room { length names.old + length bytes.now < 2 ^ 32 }
    requires few { length rows.now < 2 ^ 32 }
    requires rows { All (λ a. IsSpelledAt names.old bank.old a.0) rows.now }
    requires plain { IsPlainHead names.old head }
    ensures ok { IfOk result (λ at. IsSpineOver
        (term_trees bank.old rows.now) names.old bank.old bytes.now head names.new bank.new at.0) }
    ensures err { IfErr result (Refuses (StopsAt (Then (Cell (length rows.now)) (More (length rows.now))) bytes.now)) }
    ensures grows { Grows names.old names.new }
{
    let (first, behind_first) = cell_field(bytes, rows, names, bank)?;
    let (others, rest) = cell_fields(alloc, behind_first, rows, names, bank)?;
    no_more(rest)?;
    let args = with_first(alloc, first, &others)?;
    Ok(bank.app(head, &args)?)
}

/// A first argument and the others.
fn with_first(alloc: Global, first: At, others: &[At]) -> Result<Vec<At>, OutOfMemory>
    ensures { IfOk result (λ args. args.items ≡ first ∷ others.now) }
{
    let mut args = Vec::new(alloc);
    args.push(first)?;
    args.extend_from_slice(others)?;
    Ok(args)
}

/// The term of the sign `::` and the two arguments behind it.
fn sign_share(
    head: Head,
    bytes: &[u8],
    rows: &[At],
    names: &mut Names,
    bank: &mut Bank,
) -> Result<At, Refusal>
    requires end { IsAtEnd bytes.now }
    requires room { length names.old + length bytes.now < 2 ^ 32 }
    requires few { length rows.now < 2 ^ 32 }
    requires rows { All (λ a. IsSpelledAt names.old bank.old a.0) rows.now }
    requires sign { Stays names.old (λ ns. IsSignHead ns head) }
    ensures ok { IfOk result (λ at. IsPairOver
        (term_trees bank.old rows.now) names.old bank.old bytes.now head names.new bank.new at.0) }
    ensures err { IfErr result (Refuses
        (StopsAt (Then (Cell (length rows.now)) (Then (Cell (length rows.now)) Nothing)) bytes.now)) }
    ensures grows { Grows names.old names.new }
{
    let (first, behind_first) = cell_field(bytes, rows, names, bank)?;
    let second = last_cell(behind_first, rows, names, bank)?;
    Ok(bank.app(head, &[first, second])?)
}
