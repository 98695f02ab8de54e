//! The lines of an answer.
ghost use Rattle.std.specs.Prelude.{◌≡◌, ◌≤◌, ◌++◌, All, length, map, OnOk, codes, decimal};
ghost use Rattle.std.specs.List.{list_any};
ghost use Rattle.ll_laws.specs.Output.{line, name_text, term_text, binding_lines, is_named};
ghost use Rattle.ll_printer.specs.Pieces.{BeginsText};
ghost use Rattle.ll_printer.specs.Answers.{one_line};

use crate::pieces::write_term;
use crate::words::{name_of, write_number};
use ll_bank::{At, Names, OutOfMemory};
use ll_laws::Terms;
use std::alloc::Global;

/// Appends the first line of an answer, with its number. After a refusal some first bytes of it may have been appended.
pub fn title(number: u64, out: &mut Vec<u8>) -> Result<(), OutOfMemory>
    ensures text { OnOk result (out.new.items ≡ out.old.items ++ line (codes "answer " ++ decimal number)) }
    ensures begun { BeginsText (line (codes "answer " ++ decimal number)) out.old.items out.new.items }
{
    out.extend_from_slice(b"answer ")?;
    write_number(number, out)?;
    out.push(b'\n')?;
    Ok(())
}

/// Appends the line of an answer without named variables. After a refusal some first bytes of it may have been appended.
pub(crate) fn write_yes(out: &mut Vec<u8>) -> Result<(), OutOfMemory>
    ensures text { OnOk result (out.new.items ≡ out.old.items ++ line (codes "yes")) }
    ensures begun { BeginsText (line (codes "yes")) out.old.items out.new.items }
{
    out.extend_from_slice(b"yes\n")?;
    Ok(())
}

/// Whether a variable has a name.
pub(crate) fn has_names(asked: &[Option<u32>]) -> bool
    ensures { result ≡ list_any is_named asked.now }
{
    for name in asked {
        if name.is_some() {
            return true;
        }
    }
    false
}

/// Appends a line for each variable with a name. After a refusal some first bytes of them may have been appended.
pub(crate) fn write_bindings<T: Terms>(
    alloc: Global,
    names: &Names,
    asked: &[Option<u32>],
    terms: &T,
    places: &[At],
    out: &mut Vec<u8>,
) -> Result<(), OutOfMemory>
    requires inside { All (λ a. T.has terms.now a.0) places.now }
    requires enough { length asked.now ≤ length places.now }
    ensures text { OnOk result (out.new.items ≡ out.old.items ++ binding_lines names.now asked.now
        (map (λ a. T.tree terms.now a.0) places.now)) }
    ensures begun { BeginsText (binding_lines names.now asked.now
        (map (λ a. T.tree terms.now a.0) places.now)) out.old.items out.new.items }
{
    for i in 0..asked.len() {
        write_binding(alloc, names, asked[i], terms, places[i], out)?;
    }
    Ok(())
}

/// Appends the line of a variable, if it has a name. After a refusal some first bytes of it may have been appended.
fn write_binding<T: Terms>(
    alloc: Global,
    names: &Names,
    name: Option<u32>,
    terms: &T,
    at: At,
    out: &mut Vec<u8>,
) -> Result<(), OutOfMemory>
    requires { T.has terms.now at.0 }
    ensures text { OnOk result (out.new.items ≡ out.old.items ++ one_line names.now name (T.tree terms.now at.0)) }
    ensures begun { BeginsText (one_line names.now name (T.tree terms.now at.0)) out.old.items out.new.items }
{
    match name {
        None => Ok(()),
        Some(name) => {
            out.extend_from_slice(name_of(names, name).as_bytes())?;
            out.extend_from_slice(b" = ")?;
            write_term(alloc, names, terms, at, out)?;
            out.push(b'\n')?;
            Ok(())
        }
    }
}
