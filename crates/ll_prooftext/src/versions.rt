//! Texts of derivations of either version, read.
ghost use Rattle.std.specs.Prelude.{◌≡◌, ◌+◌, ◌<◌, ◌≤◌, ◌^◌, length, IfOk, IfErr, OnOk, MatchBool, codes};
ghost use Rattle.ll_bank.specs.Names.{with_names};
ghost use Rattle.ll_prooftext.specs.Mentions.{text_names};
ghost use Rattle.ll_prooftext.specs.Reading.{HasNoVersion, text_lines};
ghost use Rattle.ll_prooftext.specs.Terms.{Grows};
ghost use Rattle.ll_prooftext.specs.Versions.{HasVersion, IsTextIn, IsCauseIn};

use crate::reader::{behind_version, read};
use crate::shared_reader::read2;
use ll_bank::Names;
use ll_laws::Derivation;
use ll_lexer::TextFault;
use std::alloc::Global;

/// The derivation of a text of either version, and its version: 2 where the first line is `proof 2`, and else 1. `Text` is the first fault of
/// the text in that version. After a refusal names may have been added; else those that the text mentions were, in their order.
pub fn read_any(
    alloc: Global,
    text: &[u8],
    names: &mut Names,
) -> Result<(Derivation, u8), TextFault>
    requires short { length text.now ≤ 16777216 }
    requires room { length names.old + length text.now < 2 ^ 32 }
    ensures ok { IfOk result (λ p. IsTextIn p.1 names.new text.now p.0) }
    ensures names { OnOk result (names.new ≡ with_names names.old (text_names text.now)) }
    ensures err { IfErr result (IsCauseIn text.now) }
    ensures grows { Grows names.old names.new }
{
    if is_second(text) {
        Ok((read2(alloc, text, names)?, 2))
    } else {
        Ok((read(alloc, text, names)?, 1))
    }
}

/// Whether the first line is `proof 2`.
fn is_second(text: &[u8]) -> bool
    requires { length text.now ≤ 16777216 }
    ensures { MatchBool result (HasVersion (codes "proof 2") (text_lines text.now))
        (HasNoVersion (codes "proof 2") (text_lines text.now)) }
{
    behind_version(text, b"proof 2").is_some()
}
