//! The bytes of terms, programs, answers and counts.
#![tactic(auto)]

ghost use Rattle.std.specs.Prelude.{◌≡◌, ◌≤◌, ◌++◌, [], All, length, map, OnOk, codes, decimal};
ghost use Rattle.ll_bank.specs.Nodes.{term_tree, HasTerm};
ghost use Rattle.ll_laws.specs.Output.{line, term_text, answer_text, bindings_text, counts_text};
ghost use Rattle.ll_printer.specs.Pieces.{BeginsText};

mod answers;
mod expressions;
mod formulas;
mod pieces;
mod programs;
mod words;

pub use crate::answers::title;
use crate::answers::{has_names, write_bindings, write_yes};
use crate::pieces::write_term;
pub use crate::programs::program;
use crate::words::write_number;
use ll_bank::{At, Bank, Names, OutOfMemory};
use ll_laws::{Branch, Counts, Problem, Terms};
use std::alloc::Global;

/// Appends the text of a term: `?n` for a variable, `#n` for an eigenvariable, `X::L` with brackets round an `X` of this form. A name
/// without a text prints as nothing, and so does a bound place.
///
/// After a refusal some first bytes of it may have been appended. It needs no deep stack.
pub fn term(
    alloc: Global,
    names: &Names,
    bank: &Bank,
    at: At,
    out: &mut Vec<u8>,
) -> Result<(), OutOfMemory>
    requires { HasTerm bank.now at.0 }
    ensures text { OnOk result (out.new.items ≡ out.old.items ++ term_text names.now (term_tree bank.now at.0)) }
    ensures begun { BeginsText (term_text names.now (term_tree bank.now at.0)) out.old.items out.new.items }
{
    write_term(alloc, names, bank, at, out)
}

/// Appends the lines of an answer: its number, and a line for each named variable of the query, or `yes` if none has a name.
///
/// After a refusal some first bytes of them may have been appended.
pub fn answer(
    alloc: Global,
    problem: &Problem,
    number: u64,
    branch: &Branch,
    out: &mut Vec<u8>,
) -> Result<(), OutOfMemory>
    requires { length problem.now.asked ≤ length branch.now.terms }
    ensures text { OnOk result (out.new.items
        ≡ out.old.items ++ (line (codes "answer " ++ decimal number) ++ bindings_text problem.now branch.now)) }
    ensures begun { BeginsText (line (codes "answer " ++ decimal number)
        ++ bindings_text problem.now branch.now) out.old.items out.new.items }
{
    title(number, out)?;
    bindings(alloc, problem, branch, out)
}

/// Appends the lines of an answer behind its number: a line for each named variable of the query, or `yes` if none has a name.
///
/// After a refusal some first bytes of them may have been appended.
pub fn bindings(
    alloc: Global,
    problem: &Problem,
    branch: &Branch,
    out: &mut Vec<u8>,
) -> Result<(), OutOfMemory>
    requires { length problem.now.asked ≤ length branch.now.terms }
    ensures text { OnOk result (out.new.items ≡ out.old.items ++ bindings_text problem.now branch.now) }
    ensures begun { BeginsText (bindings_text problem.now branch.now) out.old.items out.new.items }
{
    bindings_of(alloc, problem, &branch.bank, &branch.terms, out)
}

/// Appends the lines of an answer behind its number, from terms that are looked at by their places: a line for each named variable of the
/// query, or `yes` if none has a name.
///
/// After a refusal some first bytes of them may have been appended.
pub fn bindings_of<T: Terms>(
    alloc: Global,
    problem: &Problem,
    terms: &T,
    places: &[At],
    out: &mut Vec<u8>,
) -> Result<(), OutOfMemory>
    requires inside { All (λ a. T.has terms.now a.0) places.now }
    requires enough { length problem.now.asked ≤ length places.now }
    ensures text { OnOk result (out.new.items ≡ out.old.items
        ++ bindings_text problem.now (record { terms = map (λ a. T.tree terms.now a.0) places.now; steps = [] })) }
    ensures begun { BeginsText (bindings_text problem.now
        (record { terms = map (λ a. T.tree terms.now a.0) places.now; steps = [] })) out.old.items out.new.items }
{
    if has_names(&problem.asked) {
        write_bindings(alloc, &problem.names, &problem.asked, terms, places, out)
    } else {
        write_yes(out)
    }
}

/// Appends the last line of a run. After a refusal some first bytes of it may have been appended.
pub fn summary(counts: &Counts, out: &mut Vec<u8>) -> Result<(), OutOfMemory>
    ensures text { OnOk result (out.new.items
        ≡ out.old.items ++ counts_text counts.now.answers counts.now.reached counts.now.inferences) }
    ensures begun { BeginsText (counts_text counts.now.answers counts.now.reached counts.now.inferences) out.old.items out.new.items }
{
    out.extend_from_slice(b"answers ")?;
    write_number(counts.answers, out)?;
    out.extend_from_slice(b", bound reached ")?;
    write_number(counts.reached, out)?;
    out.extend_from_slice(b", inferences ")?;
    write_number(counts.inferences, out)?;
    out.push(b'\n')?;
    Ok(())
}
