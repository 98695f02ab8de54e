//! From the words of a conversion to its bytes.
ghost use Rattle.std.specs.Prelude.{◌≡◌, ◌≤◌, ◌⊎◌, ℕ, List, length, Option, Some, IfOk};
ghost use Rattle.ll_edge.specs.Counts.{Rose};
ghost use Rattle.ll_edge.specs.Log.{ShelfKept, ToldFits, Met, NoText, Unreadable};
ghost use Rattle.ll_edge.specs.Texts.{Texts};
ghost use Rattle.ll_prooftext.specs.Sizes.{text_in};
ghost use Rattle.ll_prooftext.specs.Versions.{IsProofText};
ghost use Rattle.ll_top.specs.texts.CallEnds.{Ends};
ghost use Rattle.ll_top.specs.texts.Converting.{own_names, ConvertComesTo};
ghost use Rattle.ll_top.specs.texts.Told.{ShelfTold, StatusTold};
ghost use Rattle.ll_top.specs.texts.ConvertEnds.{IsConversionOf, Converts};
ghost use Rattle.ll_top.specs.forms.Words.{shown_convert};

use crate::forms::ConvertCommand;
use crate::texts::derivation::derivation_of;
use crate::texts::fault::{Cause, refuse};
use crate::texts::judge::Role;
use crate::texts::preparing::{LONGEST_TEXT, read};
use crate::texts::refusing::Refusal;
use ll_bank::{Names, OutOfMemory};
use ll_edge::{Shelf, Sink, WriteFailed, write_all};
use ll_laws::Derivation;
use ll_prooftext::{size, write, write2};
use std::alloc::Global;

/// What a derivation comes to in a version.
#[derive(Drop)]
pub enum NewText {
    /// Its text.
    Whole(Vec<u8>),
    /// Its text would have too many bytes, and was not made.
    TooLong,
}

/// Writes the derivation in the text of this name as a text of the version that is asked for, and answers the status: 0; 4, 5, 7 or 8 where
/// the text is not read or is no text of a derivation, and 8 also where the text that would be written has more than 16,777,216 bytes, each
/// with its line written; 6 where the sink failed, with a prefix written; 10 where memory ran out, with nothing written.
pub fn serve_convert<F: Shelf, O: Sink>(
    alloc: Global,
    convert: &ConvertCommand<'_>,
    shelf: &mut F,
    sink: &mut O,
) -> u8
    requires version { (convert.now.version ≡ 1) ⊎ (convert.now.version ≡ 2) }

    ensures kept { ShelfKept F.texts F.faults F.absences F.log shelf.old shelf.new }
    ensures sink_faults_kept { O.faults sink.old ≤ O.faults sink.new }
    ensures faults_told { StatusTold F.faults F.absences O.faults shelf.old shelf.new sink.old sink.new result }

    ensures ends { (told : Option Texts) → ToldFits told (F.log shelf.old) (F.log shelf.new)
        → Ends (ConvertComesTo told (Met F.absences F.log shelf.old shelf.new NoText)
        (Met F.faults F.log shelf.old shelf.new Unreadable) (shown_convert convert.now))
        (Rose (O.faults sink.old) (O.faults sink.new)) (Some (O.taken sink.old)) (Some (O.taken sink.new)) result }
{
    match conversion(alloc, convert, shelf) {
        Ok(NewText::Whole(text)) => match write_all(sink, &text) {
            Ok(()) => 0,
            Err(WriteFailed) => 6,
        },
        Ok(NewText::TooLong) => { refuse(Cause::OversizedAs(convert.proof, convert.version), sink) }
        Err(Refusal::Text(_, refusal)) => refuse(refusal.cause(convert.proof), sink),
        Err(Refusal::Unwritable) => unreachable!(),
        Err(Refusal::OutOfMemory) => 10,
    }
}

// What the text of a conversion's name comes to: reads it from the shelf to its end, and then judges it.
fn conversion<F: Shelf>(
    alloc: Global,
    convert: &ConvertCommand<'_>,
    shelf: &mut F,
) -> Result<NewText, Refusal>
    requires version { (convert.now.version ≡ 1) ⊎ (convert.now.version ≡ 2) }

    ensures kept { ShelfKept F.texts F.faults F.absences F.log shelf.old shelf.new }
    ensures shelf_told { ShelfTold F.faults F.absences shelf.old shelf.new result }

    ensures converts { (told : Option Texts) → ToldFits told (F.log shelf.old) (F.log shelf.new)
        → Converts told (Met F.absences F.log shelf.old shelf.new NoText)
        (Met F.faults F.log shelf.old shelf.new Unreadable) (shown_convert convert.now) result }
{
    let proof = read(alloc, shelf, convert.proof, Role::Proof)?;
    converted(alloc, &proof, convert.version)
}

// What a text of a derivation comes to in a version.
fn converted(alloc: Global, proof: &[u8], version: u8) -> Result<NewText, Refusal>
    requires short { length proof.now ≤ 16777216 }
    requires version { (version ≡ 1) ⊎ (version ≡ 2) }
    ensures { IsConversionOf proof.now version result }
{
    let mut names = Names::new(alloc);
    let derivation = derivation_of(alloc, proof, &mut names)?;
    new_text(alloc, &names, &derivation, version)
}

// What a derivation comes to in a version. The length of its text is found first, so no text that is too long is made.
fn new_text(
    alloc: Global,
    names: &Names,
    derivation: &Derivation,
    version: u8,
) -> Result<NewText, Refusal>
    requires { (version ≡ 1) ⊎ (version ≡ 2) }
    ensures { (proof : List ℕ) → names.now ≡ own_names proof → IsProofText names.now proof derivation.now
        → IsConversionOf proof version result }
{
    if size(alloc, names, derivation, version)? > LONGEST_TEXT as u64 {
        return Ok(NewText::TooLong);
    }
    let text = text_as(alloc, names, derivation, version)?;
    Ok(NewText::Whole(text))
}

// The text of a derivation in a version.
fn text_as(
    alloc: Global,
    names: &Names,
    derivation: &Derivation,
    version: u8,
) -> Result<Vec<u8>, OutOfMemory>
    requires { (version ≡ 1) ⊎ (version ≡ 2) }
    ensures { IfOk result (λ text. text.items ≡ text_in version names.now derivation.now) }
{
    let mut text = Vec::new(alloc);
    if version == 1 {
        write(alloc, names, derivation, &mut text)?;
    } else {
        write2(alloc, names, derivation, &mut text)?;
    }
    Ok(text)
}
