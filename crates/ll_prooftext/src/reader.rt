//! The text of a derivation, read line by line.
ghost use Rattle.std.specs.Prelude.{◌≡◌, ◌+◌, ◌<◌, ◌≤◌, ◌^◌, [], length, IfOk, IfErr, OnOk, MatchOption};
ghost use Rattle.ll_bank.specs.Names.{with_names};
ghost use Rattle.ll_bank.specs.Nodes.{Nodes, AllInTerms};
ghost use Rattle.ll_laws.specs.ShownLines.{line_of, HasLines};
ghost use Rattle.ll_lexer.specs.Reading.{place_at};
ghost use Rattle.ll_prooftext.specs.Terms.{Grows};
ghost use Rattle.ll_prooftext.specs.Mentions.{text_names};
ghost use Rattle.ll_prooftext.specs.Reading.{IsTextOf, IsCause, HasNoVersion, text_lines, is_none, children, want};
ghost use Rattle.ll_prooftext.specs.RowWords.{IsRefused};
ghost use Rattle.ll_prooftext.specs.Reader.{fault_at, refused_fault, IsWithin, IsNext, TakesLine, HasNoLine, IsBehindVersion, read_so_far, AddsLine};

use crate::bytes::{behind, split_before};
use crate::rows::{Refusal, Row, read_row};
use ll_bank::{At, Bank, Names};
use ll_laws::{Derivation, Rule};
use ll_lexer::{Fault, Place, TextFault};
use std::alloc::Global;

// The numbers of the kinds of faults.
const UNKNOWN_WORD: u8 = 13;

pub(crate) const MALFORMED_FIELD: u8 = 14;

pub(crate) const NODES_MISSING: u8 = 15;

pub(crate) const NODES_LEFT_OVER: u8 = 16;

/// A line of a text, without its LF.
#[derive(Clone, Copy)]
pub(crate) struct TextLine<'a> {
    pub(crate) number: u32,
    pub(crate) bytes: &'a [u8],
}

/// The lines of a text that are still to come.
#[derive(Clone, Copy)]
pub(crate) struct Lines<'a> {
    pub(crate) rest: &'a [u8],
    // The place of the first byte that is left.
    pub(crate) at: Place,
}

/// A derivation on its way.
#[derive(Drop)]
struct Reading {
    bank: Bank,
    asked: Vec<At>,
    nodes: Vec<Rule>,
    // How many nodes lack, if no more come under them.
    lacking: usize,
}

/// The derivation of a text. `Text` is the text's first fault: kind 13 is an unknown word, kind 14 a field that is malformed, lacks or is
/// too many, or another first line than `proof 1`, kind 15 an end before the last node, and kind 16 a line behind it. After a refusal
/// names may have been added; else those that the text mentions were, in their order. It needs no deep stack, and time in proportion to the text.
pub fn read(alloc: Global, text: &[u8], names: &mut Names) -> Result<Derivation, TextFault>
    requires short { length text.now ≤ 16777216 }
    requires room { length names.old + length text.now < 2 ^ 32 }
    ensures ok { IfOk result (IsTextOf names.new text.now) }
    ensures names { OnOk result (names.new ≡ with_names names.old (text_names text.now)) }
    ensures err { IfErr result (IsCause text.now) }
    ensures grows { Grows names.old names.new }
{
    let mut reading = Reading::new(alloc);
    reading.fill(alloc, text, names)?;
    Ok(Derivation {
        bank: reading.bank,
        asked: reading.asked,
        nodes: reading.nodes,
    })
}

pub(crate) fn fault(line: u32, column: u32, kind: u8) -> TextFault
    ensures { result ≡ fault_at line column kind }
{
    TextFault::Text(Fault {
        at: Place { line, column },
        kind,
    })
}

/// The lines behind the first one, if that is this one.
pub(crate) fn behind_version<'a>(text: &'a [u8], version: &[u8]) -> Option<Lines<'a>>
    requires { length text.now ≤ 16777216 }
    ensures { MatchOption result (HasNoVersion version.now (text_lines text.now))
        (IsBehindVersion version.now text.now) }
{
    let mut lines = Lines {
        rest: text,
        at: Place { line: 1, column: 1 },
    };
    let first = lines.next()?;
    if first.bytes == version {
        Some(lines)
    } else {
        None
    }
}

impl<'a> Lines<'a> {
    /// AddsLine a line.
    pub(crate) fn next(&mut self) -> Option<TextLine<'a>>
        requires begins { IsNext self.old.at.line self.old.rest.now self.old.at }
        requires room { self.old.at.line + length self.old.rest.now < 2 ^ 31 }
        ensures { MatchOption result (HasNoLine self.old self.new) (λ line. TakesLine self.old line self.new) }
    {
        if self.rest.is_empty() {
            return None;
        }
        let number = self.at.line;
        let (bytes, tail) = split_before(self.rest, b'\n');
        if let Some(rest) = behind(tail, b'\n') {
            self.rest = rest;
            self.at = Place {
                line: number + 1,
                column: 1,
            };
            return Some(TextLine { number, bytes });
        }
        self.rest = tail;
        self.at = Place {
            line: number,
            column: bytes.len() as u32 + 1,
        };
        Some(TextLine { number, bytes })
    }
}

/// The fault of a line.
pub(crate) fn line_fault(line: TextLine, refusal: Refusal) -> TextFault
    requires within { IsWithin (length line.bytes.now) refusal }
    requires short { length line.bytes.now < 2 ^ 31 }
    ensures { result ≡ refused_fault line.entry.number (length line.entry.bytes.now) refusal }
{
    match refusal {
        Refusal::Word => fault(line.number, 1, UNKNOWN_WORD),
        Refusal::Field(left) => {
            let good = (line.bytes.len() - left) as u32;
            let column = if left == 0 { good + 1 } else { good + 2 };
            fault(line.number, column, MALFORMED_FIELD)
        }
        Refusal::OutOfMemory => TextFault::OutOfMemory,
    }
}

impl Reading {
    /// Nothing was read.
    fn new(alloc: Global) -> Self
        ensures asked { result.asked.items ≡ [] }
        ensures nodes { result.nodes.items ≡ [] }
        ensures lacking { result.lacking ≡ 1 }
    {
        Reading {
            bank: Bank::new(alloc),
            asked: Vec::new(alloc),
            nodes: Vec::new(alloc),
            lacking: 1,
        }
    }

    /// AddsLine all lines of a text.
    fn fill(&mut self, alloc: Global, text: &[u8], names: &mut Names) -> Result<(), TextFault>
        requires short { length text.now ≤ 16777216 }
        requires room { length names.old + length text.now < 2 ^ 32 }
        requires asked { self.old.asked.items ≡ [] }
        requires nodes { self.old.nodes.items ≡ [] }
        requires lacking { self.old.lacking ≡ 1 }
        ensures ok { OnOk result (IsTextOf names.new text.now (read_so_far self.new)) }
        ensures terms { OnOk result (AllInTerms self.new.bank self.new.asked.items) }
        ensures rules { OnOk result (HasLines self.new.bank self.new.nodes.items) }
        ensures names { OnOk result (names.new ≡ with_names names.old (text_names text.now)) }
        ensures err { IfErr result (IsCause text.now) }
        ensures grows { Grows names.old names.new }
    {
        let Some(mut lines) = behind_version(text, b"proof 1") else {
            return Err(fault(1, 1, MALFORMED_FIELD));
        };
        while let Some(line) = lines.next() {
            if self.lacking == 0 {
                return Err(fault(line.number, 1, NODES_LEFT_OVER));
            }
            if let Err(refusal) = self.take(alloc, line.bytes, names) {
                return Err(line_fault(line, refusal));
            }
        }
        if self.lacking > 0 {
            return Err(fault(lines.at.line, lines.at.column, NODES_MISSING));
        }
        Ok(())
    }

    /// AddsLine a line.
    fn take(&mut self, alloc: Global, line: &[u8], names: &mut Names) -> Result<(), Refusal>
        requires lacks { 0 < self.old.lacking }
        requires few { self.old.lacking + length line.now < 2 ^ 32 }
        requires room { length names.old + length line.now < 2 ^ 32 }
        ensures ok { OnOk result (AddsLine names.old self.old line.now names.new self.new) }
        ensures err { IfErr result (IsRefused (want (is_none self.old.nodes.items)) line.now) }
        ensures grows { Grows names.old names.new }
    {
        let lets = self.nodes.is_empty();
        match read_row(alloc, line, lets, names, &mut self.bank)? {
            Row::Let(at) => {
                self.asked.push(at)?;
                Ok(())
            }
            Row::Node(rule) => {
                self.lacking = self.lacking - 1 + children(&rule);
                self.nodes.push(rule)?;
                Ok(())
            }
        }
    }
}

/// How many nodes stand under a node.
pub(crate) fn children(rule: &Rule) -> usize
    ensures { (bank : Nodes) → result ≡ children (line_of bank rule.now) }
{
    match rule {
        Rule::One | Rule::Erase | Rule::Num => 0,
        Rule::Tensor(_, _) | Rule::With => 2,
        Rule::Clause { parts, .. } => parts.len(),
        Rule::Left
        | Rule::Right
        | Rule::Bang
        | Rule::Lolli(_)
        | Rule::Imp(_)
        | Rule::Forall(_)
        | Rule::Exists(_)
        | Rule::Use => 1,
    }
}
