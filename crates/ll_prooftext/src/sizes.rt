//! The lengths of texts of derivations, by the places of their terms.
ghost use Rattle.std.specs.Prelude.{◌≡◌, ℕ, ◌+◌, ◌<◌, ◌≤◌, ◌&&◌, false, true, [], ◌∷◌, ◌++◌, List, length, nat_eq, All, IfOk, OnOk, MatchOption, codes};
ghost use Rattle.std.specs.List.{flat_map};
ghost use Rattle.std.specs.Str.{bytes_eq};
ghost use Rattle.ll_bank.specs.Nodes.{term_tree, term_trees, HasTerm, AllInTerms};
ghost use Rattle.ll_bank.specs.Term.{Term, app};
ghost use Rattle.ll_laws.specs.Output.{term_text, is_cons, bracket_if, has_arguments};
ghost use Rattle.ll_laws.specs.ProofText.{proof_text, term_field};
ghost use Rattle.ll_laws.specs.Search.{cut_count};
ghost use Rattle.ll_prooftext.specs.Lengths.{IsLength, AreLengths};

use crate::fields::has_any_arguments;
use crate::short::{Fields, places_of, write_head, write_lets, write_node_lines};
use ll_bank::{At, Bank, Head, Names, OutOfMemory, TermView};
use ll_laws::Derivation;
use ll_printer::term;
use std::alloc::Global;

/// The length of a term's text.
#[derive(Clone, Copy)]
struct Length {
    bytes: u64,
    // The term is of the form `X::L`.
    is_cons: bool,
}

/// What heads are written to.
#[derive(Drop)]
struct Scratch {
    heads: Bank,
    text: Vec<u8>,
}

/// The length of the text in version 1, cut at the greatest number of 64 bits. Each place is looked at once.
pub(crate) fn whole_size(
    alloc: Global,
    names: &Names,
    derivation: &Derivation,
) -> Result<u64, OutOfMemory>
    ensures { IfOk result (λ n. n ≡ cut_count (length (proof_text names.now derivation.now))) }
{
    let bank = &derivation.bank;
    let places = places_of(alloc, &derivation.asked, &derivation.nodes)?;
    let lengths = term_lengths(alloc, names, bank, &places)?;
    let mut bare = Vec::new(alloc);
    bare.extend_from_slice(b"proof 1\n")?;
    write_lets(
        alloc,
        names,
        bank,
        Fields::Bare,
        &derivation.asked,
        &mut bare,
    )?;
    write_node_lines(
        alloc,
        names,
        bank,
        Fields::Bare,
        &derivation.nodes,
        &mut bare,
    )?;
    Ok(fields_length(bank, &places, &lengths, bare.len() as u64))
}

/// The lengths of the terms at some places and at all places before them.
fn term_lengths(
    alloc: Global,
    names: &Names,
    bank: &Bank,
    places: &[At],
) -> Result<Vec<Length>, OutOfMemory>
    requires { AllInTerms bank.now places.now }
    ensures lengths { IfOk result (λ lengths. AreLengths names.now bank.now lengths.items) }
    ensures reach { IfOk result (λ lengths. All (λ a. a.0 < length lengths.items) places.now) }
{
    let mut scratch = Scratch {
        heads: Bank::new(alloc),
        text: Vec::new(alloc),
    };
    let mut lengths = Vec::new(alloc);
    for i in 0..places.len() {
        lengths_up_to(alloc, names, bank, places[i], &mut scratch, &mut lengths)?;
    }
    Ok(lengths)
}

/// Takes the lengths of the terms that have none, up to a place.
fn lengths_up_to(
    alloc: Global,
    names: &Names,
    bank: &Bank,
    last: At,
    scratch: &mut Scratch,
    lengths: &mut Vec<Length>,
) -> Result<(), OutOfMemory>
    requires last { HasTerm bank.now last.0 }
    requires lengths { AreLengths names.now bank.now lengths.old.items }
    ensures lengths { OnOk result (AreLengths names.now bank.now lengths.new.items) }
    ensures reach { OnOk result (last.0 < length lengths.new.items) }
    ensures more { OnOk result (length lengths.old.items ≤ length lengths.new.items) }
{
    'growth: while lengths.len() <= last.0 {
        let next = length_at(alloc, names, bank, At(lengths.len()), lengths, scratch)?;
        lengths.push(next)?;
    }
    Ok(())
}

/// The length of a term whose arguments have theirs.
fn length_at(
    alloc: Global,
    names: &Names,
    bank: &Bank,
    at: At,
    lengths: &[Length],
    scratch: &mut Scratch,
) -> Result<Length, OutOfMemory>
    requires inside { HasTerm bank.now at.0 }
    requires next { at.0 ≡ length lengths.now }
    requires lengths { AreLengths names.now bank.now lengths.now }
    ensures { IfOk result (λ l. IsLength names.now (term_tree bank.now at.0) l) }
{
    scratch.text.clear();
    if !has_any_arguments(bank, at) {
        term(alloc, names, bank, at, &mut scratch.text)?;
        return Ok(Length {
            bytes: scratch.text.len() as u64,
            is_cons: false,
        });
    }
    let (head, args) = spine_at(bank, at);
    write_head(alloc, names, &mut scratch.heads, head, &mut scratch.text)?;
    match pair_of(args, &scratch.text) {
        Some((first, rest)) => Ok(Length {
            bytes: cons_length(lengths[first.0], lengths[rest.0]),
            is_cons: true,
        }),
        None => Ok(Length {
            bytes: fields_length(bank, args, lengths, scratch.text.len() as u64),
            is_cons: false,
        }),
    }
}

/// The head and the arguments of a term that has some.
fn spine_at(bank: &Bank, at: At) -> (Head, &[At])
    requires inside { HasTerm bank.now at.0 }
    requires has { has_arguments (term_tree bank.now at.0) ≡ true }
    ensures tree { term_tree bank.now at.0 ≡ app result.0 (term_trees bank.now result.1.now) }
    ensures lower { All (λ a. a.0 < at.0) result.1.now }
{
    match bank.term_at(at) {
        TermView::App(head, args) => (head, args),
        TermView::Var(_) => unreachable!(),
        TermView::Int(_) => unreachable!(),
    }
}

/// The two arguments of the sign `::`.
fn pair_of(args: &[At], sign: &[u8]) -> Option<(At, At)>
    ensures { MatchOption result ((nat_eq (length args.now) 2 && bytes_eq sign.now (codes "::")) ≡ false)
        (λ pair. (args.now ≡ pair.0 ∷ pair.1 ∷ []) × (bytes_eq sign.now (codes "::") ≡ true)) }
{
    match args {
        [first, rest] => {
            if sign == b"::".as_slice() {
                Some((*first, *rest))
            } else {
                None
            }
        }
        _ => None,
    }
}

/// The length of `X::L`.
fn cons_length(first: Length, rest: Length) -> u64
    ensures { (names : List (List ℕ)) (x y : Term) → IsLength names x first → IsLength names y rest
        → result ≡ cut_count (length (bracket_if (is_cons names x) (term_text names x) ++ codes "::"
        ++ term_text names y)) }
{
    let brackets = if first.is_cons { 2 } else { 0 };
    first
        .bytes
        .saturating_add(brackets + 2)
        .saturating_add(rest.bytes)
}

/// A length, and those of the fields of terms.
fn fields_length(bank: &Bank, places: &[At], lengths: &[Length], start: u64) -> u64
    requires inside { AllInTerms bank.now places.now }
    requires reach { All (λ a. a.0 < length lengths.now) places.now }
    ensures { (names : List (List ℕ)) → AreLengths names bank.now lengths.now
        → result ≡ cut_count (start + length (flat_map (term_field names) (term_trees bank.now places.now))) }
{
    let mut total = start;
    for i in 0..places.len() {
        total = total.saturating_add(field_length(bank, places[i], lengths));
    }
    total
}

/// The length of the field of a term.
fn field_length(bank: &Bank, at: At, lengths: &[Length]) -> u64
    requires inside { HasTerm bank.now at.0 }
    requires reach { at.0 < length lengths.now }
    ensures { (names : List (List ℕ)) → AreLengths names bank.now lengths.now
        → result ≡ cut_count (length (term_field names (term_tree bank.now at.0))) }
{
    let brackets = if has_any_arguments(bank, at) { 2 } else { 0 };
    lengths[at.0].bytes.saturating_add(brackets + 1)
}
