//! The texts of derivations: their lines, written and read.
#![tactic(auto)]

ghost use Rattle.std.specs.Prelude.{◌≡◌, ◌⊎◌, ◌++◌, OnOk, OnErr, IfOk};
ghost use Rattle.ll_laws.specs.ProofText.{proof_text};
ghost use Rattle.ll_printer.specs.Pieces.{BeginsText};
ghost use Rattle.ll_prooftext.specs.ProofText2.{proof_text2};
ghost use Rattle.ll_prooftext.specs.Sizes.{size_in};

mod bytes;
mod cells;
mod classes;
mod fields;
mod laws;
mod lines;
mod numbers;
mod reader;
mod rows;
mod sets;
mod shared_lines;
mod shared_reader;
mod short;
mod sizes;
mod table;
mod terms;
mod versions;
mod words;

pub use crate::laws::{
    one_derivation, one_derivation_in_any, one_derivation_over_a_table, over_other_names,
    there_and_back,
};
use crate::lines::{write_asked, write_nodes, write_version};
pub use crate::reader::read;
pub use crate::shared_reader::read2;
use crate::short::{Fields, places_of, write_lets, write_node_lines, write_shares};
use crate::sizes::whole_size;
use crate::table::table_of;
pub use crate::versions::read_any;
use ll_bank::{Names, OutOfMemory};
use ll_laws::Derivation;
use std::alloc::Global;

/// Appends the text of a derivation: the line `proof 1`, a line `let T` for each variable of the query, and a line for each node in
/// prefix order.
///
/// After a refusal the bytes are as before. It needs no deep stack.
pub fn write(
    alloc: Global,
    names: &Names,
    derivation: &Derivation,
    out: &mut Vec<u8>,
) -> Result<(), OutOfMemory>
    ensures text { OnOk result (out.new.items ≡ out.old.items ++ proof_text names.now derivation.now) }
    ensures refused { OnErr result (out.new.items ≡ out.old.items) }
{
    let before = out.len();
    match write_lines(alloc, names, derivation, out) {
        Ok(()) => Ok(()),
        Err(refused) => {
            out.truncate(before);
            Err(refused)
        }
    }
}

// The same, but after a refusal some first bytes of the text may stand.
fn write_lines(
    alloc: Global,
    names: &Names,
    derivation: &Derivation,
    out: &mut Vec<u8>,
) -> Result<(), OutOfMemory>
    ensures text { OnOk result (out.new.items ≡ out.old.items ++ proof_text names.now derivation.now) }
    ensures begun { BeginsText (proof_text names.now derivation.now) out.old.items out.new.items }
{
    write_version(out)?;
    write_asked(alloc, names, &derivation.bank, &derivation.asked, out)?;
    write_nodes(alloc, names, &derivation.bank, &derivation.nodes, out)?;
    Ok(())
}

/// Appends the text of a derivation in version 2: the line `proof 2`, a line `share H A1 .. An` for each different term with arguments that
/// stands in a field or within one, and then the lines of version 1, where `@K` stands for the term of line K, counted from 0.
///
/// After a refusal the bytes are as before. It needs no deep stack, and time and memory in proportion to the derivation's bank and nodes.
pub fn write2(
    alloc: Global,
    names: &Names,
    derivation: &Derivation,
    out: &mut Vec<u8>,
) -> Result<(), OutOfMemory>
    ensures text { OnOk result (out.new.items ≡ out.old.items ++ proof_text2 names.now derivation.now) }
    ensures refused { OnErr result (out.new.items ≡ out.old.items) }
{
    let text = text2(alloc, names, derivation)?;
    out.extend_from_slice(&text)
}

/// The length of the text of a derivation in version 1 or 2, cut at the greatest number of 64 bits.
///
/// A term that is shared is looked at once, so the length is found also where the text itself is too long for any memory.
pub fn size(
    alloc: Global,
    names: &Names,
    derivation: &Derivation,
    version: u8,
) -> Result<u64, OutOfMemory>
    requires { (version ≡ 1) ⊎ (version ≡ 2) }
    ensures { IfOk result (λ n. n ≡ size_in version names.now derivation.now) }
{
    if version == 1 {
        whole_size(alloc, names, derivation)
    } else {
        let text = text2(alloc, names, derivation)?;
        Ok(text.len() as u64)
    }
}

/// The text of a derivation in version 2.
fn text2(alloc: Global, names: &Names, derivation: &Derivation) -> Result<Vec<u8>, OutOfMemory>
    ensures { IfOk result (λ text. text.items ≡ proof_text2 names.now derivation.now) }
{
    let bank = &derivation.bank;
    let places = places_of(alloc, &derivation.asked, &derivation.nodes)?;
    let table = table_of(alloc, bank, &places)?;
    let fields = Fields::Rows(&table);
    let mut text = Vec::new(alloc);
    text.extend_from_slice(b"proof 2\n")?;
    write_shares(alloc, names, bank, &table, &mut text)?;
    write_lets(alloc, names, bank, fields, &derivation.asked, &mut text)?;
    write_node_lines(alloc, names, bank, fields, &derivation.nodes, &mut text)?;
    Ok(text)
}
