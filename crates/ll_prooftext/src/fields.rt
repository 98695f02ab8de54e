//! The fields of a line, each behind a space.
ghost use Rattle.std.specs.Prelude.{◌≡◌, ◌++◌, OnOk, OnErr, codes, decimal, map};
ghost use Rattle.std.specs.List.{flat_map};
ghost use Rattle.ll_bank.specs.Nodes.{term_tree, term_trees, HasTerm, AllInTerms};
ghost use Rattle.ll_laws.specs.Output.{has_arguments, term_text};
ghost use Rattle.ll_laws.specs.ProofText.{field, labels_text, set_text, term_field, part_field};
ghost use Rattle.ll_laws.specs.ShownLines.{part_line};
ghost use Rattle.ll_printer.specs.Pieces.{BeginsText};

use itoa::Buffer;
use ll_bank::{At, Bank, Names, OutOfMemory, TermView};
use ll_laws::Part;
use ll_printer::term;
use std::alloc::Global;

/// Appends a number. After a refusal the bytes are as before.
fn write_number(number: u32, out: &mut Vec<u8>) -> Result<(), OutOfMemory>
    ensures text { OnOk result (out.new.items ≡ out.old.items ++ decimal number) }
    ensures refused { OnErr result (out.new.items ≡ out.old.items) }
{
    let mut buffer = Buffer::new();
    out.extend_from_slice(buffer.format(number).as_bytes())
}

/// Appends a space and a number. After a refusal the space may have been appended.
pub(crate) fn write_number_field(number: u32, out: &mut Vec<u8>) -> Result<(), OutOfMemory>
    ensures text { OnOk result (out.new.items ≡ out.old.items ++ field (decimal number)) }
    ensures begun { BeginsText (field (decimal number)) out.old.items out.new.items }
{
    out.push(b' ')?;
    write_number(number, out)
}

/// Appends numbers, a space before each. After a refusal some first bytes of them may have been appended.
fn write_number_fields(numbers: &[u32], out: &mut Vec<u8>) -> Result<(), OutOfMemory>
    ensures text { OnOk result (out.new.items ≡ out.old.items ++ flat_map (λ n. field (decimal n)) numbers.now) }
    ensures begun { BeginsText (flat_map (λ n. field (decimal n)) numbers.now) out.old.items out.new.items }
{
    for i in 0..numbers.len() {
        write_number_field(numbers[i], out)?;
    }
    Ok(())
}

/// Appends labels, a space between two. After a refusal some first bytes of them may have been appended.
fn write_labels(labels: &[u32], out: &mut Vec<u8>) -> Result<(), OutOfMemory>
    ensures text { OnOk result (out.new.items ≡ out.old.items ++ labels_text labels.now) }
    ensures begun { BeginsText (labels_text labels.now) out.old.items out.new.items }
{
    if let Some((first, others)) = labels.split_first() {
        write_number(*first, out)?;
        write_number_fields(others, out)?;
    }
    Ok(())
}

/// Appends a space and a set of labels. After a refusal some first bytes of them may have been appended.
pub(crate) fn write_set_field(labels: &[u32], out: &mut Vec<u8>) -> Result<(), OutOfMemory>
    ensures text { OnOk result (out.new.items ≡ out.old.items ++ field (set_text labels.now)) }
    ensures begun { BeginsText (field (set_text labels.now)) out.old.items out.new.items }
{
    out.extend_from_slice(b" {")?;
    write_labels(labels, out)?;
    out.push(b'}')?;
    Ok(())
}

/// Whether a term has arguments.
pub(crate) fn has_any_arguments(bank: &Bank, at: At) -> bool
    requires { HasTerm bank.now at.0 }
    ensures { result ≡ has_arguments (term_tree bank.now at.0) }
{
    match bank.term_at(at) {
        TermView::Var(_) => false,
        TermView::Int(_) => false,
        TermView::App(_, args) => !args.is_empty(),
    }
}

/// Appends a space and a term, in brackets where it has arguments. After a refusal some first bytes of them may have been appended.
pub(crate) fn write_term_field(
    alloc: Global,
    names: &Names,
    bank: &Bank,
    at: At,
    out: &mut Vec<u8>,
) -> Result<(), OutOfMemory>
    requires { HasTerm bank.now at.0 }
    ensures text { OnOk result (out.new.items ≡ out.old.items ++ term_field names.now (term_tree bank.now at.0)) }
    ensures begun { BeginsText (term_field names.now (term_tree bank.now at.0)) out.old.items out.new.items }
{
    if has_any_arguments(bank, at) {
        out.extend_from_slice(b" (")?;
        term(alloc, names, bank, at, out)?;
        out.push(b')')?;
    } else {
        out.push(b' ')?;
        term(alloc, names, bank, at, out)?;
    }
    Ok(())
}

/// Appends terms, a space before each. After a refusal some first bytes of them may have been appended.
pub(crate) fn write_term_fields(
    alloc: Global,
    names: &Names,
    bank: &Bank,
    terms: &[At],
    out: &mut Vec<u8>,
) -> Result<(), OutOfMemory>
    requires { AllInTerms bank.now terms.now }
    ensures text { OnOk result (out.new.items ≡ out.old.items ++ flat_map (term_field names.now)
        (term_trees bank.now terms.now)) }
    ensures begun { BeginsText (flat_map (term_field names.now)
        (term_trees bank.now terms.now)) out.old.items out.new.items }
{
    for i in 0..terms.len() {
        write_term_field(alloc, names, bank, terms[i], out)?;
    }
    Ok(())
}

/// Appends a space and what a clause node says of a premise. After a refusal some first bytes of them may have been appended.
fn write_part_field(part: &Part, out: &mut Vec<u8>) -> Result<(), OutOfMemory>
    ensures text { OnOk result (out.new.items ≡ out.old.items ++ part_field (part_line part.now)) }
    ensures begun { BeginsText (part_field (part_line part.now)) out.old.items out.new.items }
{
    match part {
        Part::Bounded(labels) => write_set_field(labels, out),
        Part::Unbounded => out.extend_from_slice(b" !"),
    }
}

/// Appends what a clause node says of its premises. After a refusal some first bytes of it may have been appended.
pub(crate) fn write_part_fields(parts: &[Part], out: &mut Vec<u8>) -> Result<(), OutOfMemory>
    ensures text { OnOk result (out.new.items ≡ out.old.items ++ flat_map part_field (map part_line parts.now)) }
    ensures begun { BeginsText (flat_map part_field (map part_line parts.now)) out.old.items out.new.items }
{
    for i in 0..parts.len() {
        write_part_field(&parts[i], out)?;
    }
    Ok(())
}
