//! The lines of a derivation.
ghost use Rattle.std.specs.Prelude.{◌≡◌, ◌++◌, OnOk, codes, map};
ghost use Rattle.std.specs.List.{flat_map};
ghost use Rattle.ll_bank.specs.Nodes.{term_tree, term_trees, HasTerm, AllInTerms};
ghost use Rattle.ll_laws.specs.Output.{line};
ghost use Rattle.ll_laws.specs.ProofText.{node_text};
ghost use Rattle.ll_laws.specs.ShownLines.{line_of, HasLine, HasLines};
ghost use Rattle.ll_printer.specs.Pieces.{BeginsText};
ghost use Rattle.ll_prooftext.specs.Rows.{word_text, fields_text, let_text, row_text};

use crate::fields::{
    write_number_field, write_part_fields, write_set_field, write_term_field, write_term_fields,
};
use ll_bank::{At, Bank, Names, OutOfMemory};
use ll_laws::Rule;
use std::alloc::Global;

/// Appends the first line. After a refusal the bytes are as before.
pub(crate) fn write_version(out: &mut Vec<u8>) -> Result<(), OutOfMemory>
    ensures text { OnOk result (out.new.items ≡ out.old.items ++ line (codes "proof 1")) }
    ensures begun { BeginsText (line (codes "proof 1")) out.old.items out.new.items }
{
    out.extend_from_slice(b"proof 1\n")?;
    Ok(())
}

/// Appends a line for each variable of the query. After a refusal some first bytes of them may have been appended.
pub(crate) fn write_asked(
    alloc: Global,
    names: &Names,
    bank: &Bank,
    terms: &[At],
    out: &mut Vec<u8>,
) -> Result<(), OutOfMemory>
    requires { AllInTerms bank.now terms.now }
    ensures text { OnOk result (out.new.items ≡ out.old.items ++ flat_map (let_text names.now)
        (term_trees bank.now terms.now)) }
    ensures begun { BeginsText (flat_map (let_text names.now)
        (term_trees bank.now terms.now)) out.old.items out.new.items }
{
    for i in 0..terms.len() {
        write_let(alloc, names, bank, terms[i], out)?;
    }
    Ok(())
}

/// Appends the line of a variable. After a refusal some first bytes of it may have been appended.
fn write_let(
    alloc: Global,
    names: &Names,
    bank: &Bank,
    at: At,
    out: &mut Vec<u8>,
) -> Result<(), OutOfMemory>
    requires { HasTerm bank.now at.0 }
    ensures text { OnOk result (out.new.items ≡ out.old.items ++ let_text names.now (term_tree bank.now at.0)) }
    ensures begun { BeginsText (let_text names.now (term_tree bank.now at.0)) out.old.items out.new.items }
{
    out.extend_from_slice(b"let")?;
    write_term_field(alloc, names, bank, at, out)?;
    out.push(b'\n')?;
    Ok(())
}

/// Appends a line for each node. After a refusal some first bytes of them may have been appended.
pub(crate) fn write_nodes(
    alloc: Global,
    names: &Names,
    bank: &Bank,
    nodes: &[Rule],
    out: &mut Vec<u8>,
) -> Result<(), OutOfMemory>
    requires { HasLines bank.now nodes.now }
    ensures text { OnOk result (out.new.items ≡ out.old.items ++ flat_map (λ n. line (node_text names.now n))
        (map (line_of bank.now) nodes.now)) }
    ensures begun { BeginsText (flat_map (λ n. line (node_text names.now n))
        (map (line_of bank.now) nodes.now)) out.old.items out.new.items }
{
    for i in 0..nodes.len() {
        write_node(alloc, names, bank, &nodes[i], out)?;
    }
    Ok(())
}

/// Appends the line of a node. After a refusal some first bytes of it may have been appended.
pub(crate) fn write_node(
    alloc: Global,
    names: &Names,
    bank: &Bank,
    node: &Rule,
    out: &mut Vec<u8>,
) -> Result<(), OutOfMemory>
    requires { HasLine bank.now node.now }
    ensures text { OnOk result (out.new.items ≡ out.old.items ++ row_text names.now bank.now node.now) }
    ensures begun { BeginsText (row_text names.now bank.now node.now) out.old.items out.new.items }
{
    out.extend_from_slice(word(node).as_bytes())?;
    write_fields(alloc, names, bank, node, out)?;
    out.push(b'\n')?;
    Ok(())
}

/// The first word of a node's line.
fn word(node: &Rule) -> &'static str
    ensures { result.now ≡ word_text node.now }
{
    match node {
        Rule::One => "true",
        Rule::Erase => "erase",
        Rule::Tensor(_, _) => "tensor",
        Rule::With => "with",
        Rule::Left => "left",
        Rule::Right => "right",
        Rule::Bang => "bang",
        Rule::Lolli(_) => "lolli",
        Rule::Imp(_) => "imp",
        Rule::Forall(_) => "forall",
        Rule::Exists(_) => "exists",
        Rule::Use => "use",
        Rule::Num => "num",
        Rule::Clause { .. } => "clause",
    }
}

/// Appends the fields of a node's line. After a refusal some first bytes of them may have been appended.
fn write_fields(
    alloc: Global,
    names: &Names,
    bank: &Bank,
    node: &Rule,
    out: &mut Vec<u8>,
) -> Result<(), OutOfMemory>
    requires { HasLine bank.now node.now }
    ensures text { OnOk result (out.new.items ≡ out.old.items ++ fields_text names.now (line_of bank.now node.now)) }
    ensures begun { BeginsText (fields_text names.now (line_of bank.now node.now)) out.old.items out.new.items }
{
    match node {
        Rule::Tensor(first, second) => {
            write_set_field(first, out)?;
            write_set_field(second, out)?;
            Ok(())
        }
        Rule::Lolli(number) | Rule::Imp(number) | Rule::Forall(number) => {
            write_number_field(*number, out)
        }
        Rule::Exists(at) => write_term_field(alloc, names, bank, *at, out),
        Rule::Clause {
            label,
            leaf,
            terms,
            parts,
        } => {
            write_number_field(*label, out)?;
            write_number_field(*leaf, out)?;
            write_term_fields(alloc, names, bank, terms, out)?;
            write_part_fields(parts, out)?;
            Ok(())
        }
        _ => Ok(()),
    }
}
