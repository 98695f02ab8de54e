//! Lines of a derivation over a table: rows stand for terms with arguments.
ghost use Rattle.std.specs.Prelude.{◌≡◌, ℕ, false, List, ◌++◌, OnOk, IfOk, All, codes, decimal, map};
ghost use Rattle.std.specs.List.{flat_map};
ghost use Rattle.ll_bank.specs.Term.{Term};
ghost use Rattle.ll_bank.specs.Nodes.{term_tree, term_trees, HasTerm, AllInTerms};
ghost use Rattle.ll_laws.specs.Output.{line, head_text};
ghost use Rattle.ll_laws.specs.ShownLines.{line_of, HasLine, HasLines};
ghost use Rattle.ll_prooftext.specs.ProofText2.{share_line, let_text_by, node_text_by};
ghost use Rattle.ll_prooftext.specs.Short.{IsWhole, HasRows, HasField, HasNodeFields, has_terms, rule_places, shown};

use crate::fields::{has_any_arguments, write_number_field, write_part_fields};
use crate::lines::write_node;
use crate::table::Table;
use itoa::Buffer;
use ll_bank::{At, Bank, Head, Names, OutOfMemory, TermView};
use ll_laws::Rule;
use ll_printer::term;
use std::alloc::Global;

/// How terms are shown in fields.
#[derive(Clone, Copy)]
pub(crate) enum Fields<'a> {
    /// As they are, but those with arguments by their rows.
    Rows(&'a Table),
    /// Not at all: their fields are left out.
    Bare,
}

/// The places of the terms that stand in fields, in text order.
pub(crate) fn places_of(alloc: Global, asked: &[At], nodes: &[Rule]) -> Result<Vec<At>, OutOfMemory>
    ensures { IfOk result (λ places. places.items ≡ asked.now ++ flat_map rule_places nodes.now) }
{
    let mut places = Vec::new(alloc);
    places.extend_from_slice(asked)?;
    for i in 0..nodes.len() {
        push_places(&nodes[i], &mut places)?;
    }
    Ok(places)
}

/// Adds the places of the terms in the fields of a node.
fn push_places(node: &Rule, places: &mut Vec<At>) -> Result<(), OutOfMemory>
    ensures { OnOk result (places.new.items ≡ places.old.items ++ rule_places node.now) }
{
    match node {
        Rule::Exists(at) => {
            places.push(*at)?;
            Ok(())
        }
        Rule::Clause { terms, .. } => places.extend_from_slice(terms),
        _ => Ok(()),
    }
}

/// Appends the text of a head. The bank is for its term.
pub(crate) fn write_head(
    alloc: Global,
    names: &Names,
    bank: &mut Bank,
    head: Head,
    out: &mut Vec<u8>,
) -> Result<(), OutOfMemory>
    ensures { OnOk result (out.new.items ≡ out.old.items ++ head_text names.now head) }
{
    let at = bank.app(head, &[])?;
    term(alloc, names, bank, at, out)
}

/// Appends a space and the row of a term.
fn write_row(row: usize, out: &mut Vec<u8>) -> Result<(), OutOfMemory>
    ensures { OnOk result (out.new.items ≡ out.old.items ++ (codes " @" ++ decimal row)) }
{
    out.extend_from_slice(b" @")?;
    let mut buffer = Buffer::new();
    out.extend_from_slice(buffer.format(row).as_bytes())
}

/// Appends the field of a term.
fn write_field(
    alloc: Global,
    names: &Names,
    bank: &Bank,
    fields: Fields<'_>,
    at: At,
    out: &mut Vec<u8>,
) -> Result<(), OutOfMemory>
    requires inside { HasTerm bank.now at.0 }
    requires rows { HasRows bank.now fields }
    requires numbered { HasField fields at }
    ensures { OnOk result (out.new.items ≡ out.old.items ++ shown names.now bank.now fields.entry
        (term_tree bank.now at.0)) }
{
    match fields {
        Fields::Bare => Ok(()),
        Fields::Rows(table) => {
            if has_any_arguments(bank, at) {
                write_row(table.row(at).unwrap_or(table.rows.len()), out)
            } else {
                out.push(b' ')?;
                term(alloc, names, bank, at, out)
            }
        }
    }
}

/// Appends the fields of terms.
fn write_fields(
    alloc: Global,
    names: &Names,
    bank: &Bank,
    fields: Fields<'_>,
    terms: &[At],
    out: &mut Vec<u8>,
) -> Result<(), OutOfMemory>
    requires inside { AllInTerms bank.now terms.now }
    requires rows { HasRows bank.now fields }
    requires numbered { All (HasField fields) terms.now }
    ensures { OnOk result (out.new.items ≡ out.old.items ++ flat_map (shown names.now bank.now fields.entry)
        (term_trees bank.now terms.now)) }
{
    for i in 0..terms.len() {
        write_field(alloc, names, bank, fields, terms[i], out)?;
    }
    Ok(())
}

/// Appends a line for each row of a table.
pub(crate) fn write_shares(
    alloc: Global,
    names: &Names,
    bank: &Bank,
    table: &Table,
    out: &mut Vec<u8>,
) -> Result<(), OutOfMemory>
    requires { IsWhole bank.now table.now }
    ensures { OnOk result (out.new.items
        ≡ out.old.items ++ flat_map (share_line names.now (term_trees bank.now table.now.rows.items))
        (term_trees bank.now table.now.rows.items)) }
{
    let mut heads = Bank::new(alloc);
    let rows = table.rows.as_slice();
    for i in 0..rows.len() {
        write_share(alloc, names, bank, table, rows[i], &mut heads, out)?;
    }
    Ok(())
}

/// Appends the line of a row. The second bank is for its head.
fn write_share(
    alloc: Global,
    names: &Names,
    bank: &Bank,
    table: &Table,
    at: At,
    heads: &mut Bank,
    out: &mut Vec<u8>,
) -> Result<(), OutOfMemory>
    requires table { IsWhole bank.now table.now }
    requires inside { HasTerm bank.now at.0 }
    requires numbered { HasField (Fields.Rows table) at }
    ensures { OnOk result (out.new.items
        ≡ out.old.items ++ share_line names.now (term_trees bank.now table.now.rows.items) (term_tree bank.now at.0)) }
{
    out.extend_from_slice(b"share ")?;
    match bank.term_at(at) {
        TermView::Var(_) => {}
        TermView::Int(_) => {}
        TermView::App(head, args) => {
            write_head(alloc, names, heads, head, out)?;
            write_fields(alloc, names, bank, Fields::Rows(table), args, out)?;
        }
    }
    out.push(b'\n')?;
    Ok(())
}

/// Appends a line for each variable of the query.
pub(crate) fn write_lets(
    alloc: Global,
    names: &Names,
    bank: &Bank,
    fields: Fields<'_>,
    terms: &[At],
    out: &mut Vec<u8>,
) -> Result<(), OutOfMemory>
    requires inside { AllInTerms bank.now terms.now }
    requires rows { HasRows bank.now fields }
    requires numbered { All (HasField fields) terms.now }
    ensures { OnOk result (out.new.items
        ≡ out.old.items ++ flat_map (λ t. line (let_text_by (shown names.now bank.now fields.entry) t))
        (term_trees bank.now terms.now)) }
{
    for i in 0..terms.len() {
        write_let(alloc, names, bank, fields, terms[i], out)?;
    }
    Ok(())
}

/// Appends the line of a variable.
fn write_let(
    alloc: Global,
    names: &Names,
    bank: &Bank,
    fields: Fields<'_>,
    at: At,
    out: &mut Vec<u8>,
) -> Result<(), OutOfMemory>
    requires inside { HasTerm bank.now at.0 }
    requires rows { HasRows bank.now fields }
    requires numbered { HasField fields at }
    ensures { OnOk result (out.new.items
        ≡ out.old.items ++ line (let_text_by (shown names.now bank.now fields.entry) (term_tree bank.now at.0))) }
{
    out.extend_from_slice(b"let")?;
    write_field(alloc, names, bank, fields, at, out)?;
    out.push(b'\n')?;
    Ok(())
}

/// Appends a line for each node.
pub(crate) fn write_node_lines(
    alloc: Global,
    names: &Names,
    bank: &Bank,
    fields: Fields<'_>,
    nodes: &[Rule],
    out: &mut Vec<u8>,
) -> Result<(), OutOfMemory>
    requires inside { HasLines bank.now nodes.now }
    requires rows { HasRows bank.now fields }
    requires numbered { All (HasNodeFields fields) nodes.now }
    ensures { OnOk result (out.new.items
        ≡ out.old.items ++ flat_map (λ n. line (node_text_by (shown names.now bank.now fields.entry) n))
        (map (line_of bank.now) nodes.now)) }
{
    for i in 0..nodes.len() {
        write_node_line(alloc, names, bank, fields, &nodes[i], out)?;
    }
    Ok(())
}

/// Appends the line of a node.
fn write_node_line(
    alloc: Global,
    names: &Names,
    bank: &Bank,
    fields: Fields<'_>,
    node: &Rule,
    out: &mut Vec<u8>,
) -> Result<(), OutOfMemory>
    requires inside { HasLine bank.now node.now }
    requires rows { HasRows bank.now fields }
    requires numbered { HasNodeFields fields node.now }
    ensures { OnOk result (out.new.items
        ≡ out.old.items ++ line (node_text_by (shown names.now bank.now fields.entry) (line_of bank.now node.now))) }
{
    match node {
        Rule::Exists(at) => {
            out.extend_from_slice(b"exists")?;
            write_field(alloc, names, bank, fields, *at, out)?;
        }
        Rule::Clause {
            label,
            leaf,
            terms,
            parts,
        } => {
            out.extend_from_slice(b"clause")?;
            write_number_field(*label, out)?;
            write_number_field(*leaf, out)?;
            write_fields(alloc, names, bank, fields, terms, out)?;
            write_part_fields(parts, out)?;
        }
        _ => return write_plain_node(alloc, names, bank, node, out),
    }
    out.push(b'\n')?;
    Ok(())
}

/// Appends the line of a node without fields for terms.
fn write_plain_node(
    alloc: Global,
    names: &Names,
    bank: &Bank,
    node: &Rule,
    out: &mut Vec<u8>,
) -> Result<(), OutOfMemory>
    requires inside { HasLine bank.now node.now }
    requires plain { has_terms node.now ≡ false }
    ensures { OnOk result ((show : Term → List ℕ)
        → out.new.items ≡ out.old.items ++ line (node_text_by show (line_of bank.now node.now))) }
{
    write_node(alloc, names, bank, node, out)
}
