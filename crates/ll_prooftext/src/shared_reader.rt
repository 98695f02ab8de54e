//! The text of a derivation with a table of shared terms, read line by line.
ghost use Rattle.std.specs.Prelude.{◌≡◌, ◌↔◌, ◌+◌, ◌<◌, ◌≤◌, ◌^◌, ◌&&◌, [], All, length, Some, IsTrue, IfOk, IfErr, OnOk, MatchOption, codes};
ghost use Rattle.ll_bank.specs.Names.{with_names};
ghost use Rattle.ll_bank.specs.Nodes.{term_trees, AllInTerms};
ghost use Rattle.ll_laws.specs.ShownLines.{HasLines};
ghost use Rattle.ll_prooftext.specs.Mentions.{text_names};
ghost use Rattle.ll_prooftext.specs.Reading.{is_none};
ghost use Rattle.ll_prooftext.specs.Reading2.{IsText2Of, IsOff, IsCause2};
ghost use Rattle.ll_prooftext.specs.RowWords.{IsRefused};
ghost use Rattle.ll_prooftext.specs.SharedLines.{want_over};
ghost use Rattle.ll_prooftext.specs.SharedReader.{TakesOver, AreInPlace, IsFirstOff, AreFirstRows, derivation_of};
ghost use Rattle.ll_prooftext.specs.Tables.{HasNumberAt, row_at};
ghost use Rattle.ll_prooftext.specs.Terms.{Grows, IsSpelledAt};

use crate::classes::number_terms;
use crate::reader::{
    MALFORMED_FIELD, NODES_LEFT_OVER, NODES_MISSING, behind_version, children, fault, line_fault,
};
use crate::rows::Refusal;
use crate::shared_lines::{Line, Stage, read_line};
use crate::short::places_of;
use crate::table::{Table, table_with};
use ll_bank::{At, Bank, Names, OutOfMemory};
use ll_laws::{Derivation, Rule};
use ll_lexer::TextFault;
use std::alloc::Global;

// The number of the kind of fault.
const OTHER_TABLE: u8 = 18;

/// A derivation on its way, with the rows in front.
#[derive(Drop)]
struct Sharing {
    bank: Bank,
    rows: Vec<At>,
    asked: Vec<At>,
    nodes: Vec<Rule>,
    // How many nodes lack, if no more come under them.
    lacking: usize,
}

/// The derivation of a text of version 2. `Text` is the text's first fault, of the kinds of version 1; and kind 18 where all lines are good,
/// but a row is not that of the derivation's table at its number, or is past the table's end. After a refusal names may have been added; else
/// those that the text mentions were, in their order. It needs no deep stack, and time and memory in proportion to the text.
pub fn read2(alloc: Global, text: &[u8], names: &mut Names) -> Result<Derivation, TextFault>
    requires short { length text.now ≤ 16777216 }
    requires room { length names.old + length text.now < 2 ^ 32 }
    ensures ok { IfOk result (IsText2Of names.new text.now) }
    ensures names { OnOk result (names.new ≡ with_names names.old (text_names text.now)) }
    ensures err { IfErr result (IsCause2 text.now) }
    ensures grows { Grows names.old names.new }
{
    let mut reading = Sharing::new(alloc);
    reading.fill(alloc, text, names)?;
    Ok(Derivation {
        bank: reading.bank,
        asked: reading.asked,
        nodes: reading.nodes,
    })
}

/// The first of some rows that is not the table's, if there is one.
fn first_off(rows: &[At], table: &Table) -> Option<usize>
    requires { All (λ a. HasNumberAt table.now a.0) rows.now }
    ensures { MatchOption result (AreInPlace table.now rows.now (length rows.now)) (IsFirstOff table.now rows.now) }
{
    for (row, at) in rows.iter().enumerate() {
        if !is_in_place(table, *at, row) {
            return Some(row);
        }
    }
    None
}

/// Whether the row of a term is this one.
fn is_in_place(table: &Table, at: At, row: usize) -> bool
    requires { HasNumberAt table.now at.0 }
    ensures { IsTrue result ↔ (row_at table.now at.0 ≡ Some row) }
{
    match table.row(at) {
        Some(found) => found == row,
        None => false,
    }
}

impl Sharing {
    /// Nothing was read.
    fn new(alloc: Global) -> Self
        ensures rows { result.rows.items ≡ [] }
        ensures asked { result.asked.items ≡ [] }
        ensures nodes { result.nodes.items ≡ [] }
        ensures lacking { result.lacking ≡ 1 }
    {
        Sharing {
            bank: Bank::new(alloc),
            rows: Vec::new(alloc),
            asked: Vec::new(alloc),
            nodes: Vec::new(alloc),
            lacking: 1,
        }
    }

    /// Takes all lines of a text.
    fn fill(&mut self, alloc: Global, text: &[u8], names: &mut Names) -> Result<(), TextFault>
        requires short { length text.now ≤ 16777216 }
        requires room { length names.old + length text.now < 2 ^ 32 }
        requires rows { self.old.rows.items ≡ [] }
        requires asked { self.old.asked.items ≡ [] }
        requires nodes { self.old.nodes.items ≡ [] }
        requires lacking { self.old.lacking ≡ 1 }
        ensures ok { OnOk result (IsText2Of names.new text.now (derivation_of self.new)) }
        ensures terms { OnOk result (AllInTerms self.new.bank self.new.asked.items) }
        ensures rules { OnOk result (HasLines self.new.bank self.new.nodes.items) }
        ensures names { OnOk result (names.new ≡ with_names names.old (text_names text.now)) }
        ensures err { IfErr result (IsCause2 text.now) }
        ensures grows { Grows names.old names.new }
    {
        let Some(mut lines) = behind_version(text, b"proof 2") else {
            return Err(fault(1, 1, MALFORMED_FIELD));
        };
        while let Some(line) = lines.next() {
            if self.lacking == 0 {
                return Err(fault(line.number, 1, NODES_LEFT_OVER));
            }
            if let Err(refusal) = self.take(alloc, line.bytes, names) {
                return Err(line_fault(line, refusal));
            }
        }
        if self.lacking > 0 {
            return Err(fault(lines.at.line, lines.at.column, NODES_MISSING));
        }
        let _count = names.len();
        if let Some(row) = self.off_row(alloc)? {
            return Err(fault(row as u32 + 2, 1, OTHER_TABLE));
        }
        Ok(())
    }

    /// The lines that may still stand here.
    fn stage(&self) -> Stage
        ensures shares { result.shares ≡ (is_none self.now.asked.items && is_none self.now.nodes.items) }
        ensures lets { result.lets ≡ is_none self.now.nodes.items }
    {
        let lets = self.nodes.is_empty();
        Stage {
            shares: self.asked.is_empty() && lets,
            lets,
        }
    }

    /// Takes a line.
    fn take(&mut self, alloc: Global, line: &[u8], names: &mut Names) -> Result<(), Refusal>
        requires lacks { 0 < self.old.lacking }
        requires count { self.old.lacking + length line.now < 2 ^ 32 }
        requires room { length names.old + length line.now < 2 ^ 32 }
        requires few { length self.old.rows.items < 2 ^ 32 }
        requires rows { All (λ a. IsSpelledAt names.old self.old.bank a.0) self.old.rows.items }
        ensures ok { OnOk result (TakesOver names.old self.old line.now names.new self.new) }
        ensures err { IfErr result (IsRefused
            (want_over (length self.old.rows.items) (is_none self.old.asked.items && is_none self.old.nodes.items)
            (is_none self.old.nodes.items)) line.now) }
        ensures grows { Grows names.old names.new }
    {
        let stage = self.stage();
        match read_line(alloc, line, stage, &self.rows, names, &mut self.bank)? {
            Line::Share(at) => {
                self.rows.push(at)?;
                Ok(())
            }
            Line::Let(at) => {
                self.asked.push(at)?;
                Ok(())
            }
            Line::Node(rule) => {
                self.lacking = self.lacking - 1 + children(&rule);
                self.nodes.push(rule)?;
                Ok(())
            }
        }
    }

    /// The first row that is not that of the derivation's table at its number, if there is one.
    fn off_row(&self, alloc: Global) -> Result<Option<usize>, OutOfMemory>
        requires asked { AllInTerms self.now.bank self.now.asked.items }
        requires nodes { HasLines self.now.bank self.now.nodes.items }
        requires rows { AllInTerms self.now.bank self.now.rows.items }
        ensures { IfOk result (λ found. MatchOption found (AreFirstRows (term_trees self.now.bank self.now.rows.items)
            (derivation_of self.now)) (IsOff (term_trees self.now.bank self.now.rows.items) (derivation_of self.now))) }
    {
        let fields = places_of(alloc, &self.asked, &self.nodes)?;
        let mut places = Vec::new(alloc);
        places.extend_from_slice(&fields)?;
        places.extend_from_slice(&self.rows)?;
        let classes = number_terms(alloc, &self.bank, &places)?;
        let table = table_with(alloc, &self.bank, &fields, classes)?;
        Ok(first_off(&self.rows, &table))
    }
}
