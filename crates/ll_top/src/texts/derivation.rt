//! From a text to its derivation.
ghost use Rattle.std.specs.Prelude.{◌≡◌, ◌<◌, ◌≤◌, ◌↔◌, ◌+◌, true, length, IfOk, IfErr, OnOk};
ghost use Rattle.ll_bank.specs.Names.{with_names};
ghost use Rattle.ll_prooftext.specs.Mentions.{text_names};
ghost use Rattle.ll_prooftext.specs.Terms.{Grows};
ghost use Rattle.ll_prooftext.specs.Versions.{IsProofText};
ghost use Rattle.ll_top.specs.texts.Endings.{IsNoDerivation};

use crate::texts::judge::Role;
use crate::texts::preparing::refusal;
use crate::texts::refusing::Refusal;
use ll_bank::Names;
use ll_laws::Derivation;
use std::alloc::Global;

// One more than the names that a reader of derivations can number.
const MOST_NAMES: usize = 4_294_967_296;

/// The derivation of a text of either version, or the text's fault. The names that it mentions come to the others; where it is refused some may
/// have come.
pub fn derivation_of(alloc: Global, text: &[u8], names: &mut Names) -> Result<Derivation, Refusal>
    requires { length text.now ≤ 16777216 }
    ensures read { IfOk result (λ d. IsProofText names.new text.now d) }
    ensures names { OnOk result (names.new ≡ with_names names.old (text_names text.now)) }
    ensures grows { IfOk result (λ d. Grows names.old names.new) }
    ensures refused { IfErr result (IsNoDerivation text.now) }
{
    // A program and a query of at most 16,777,216 bytes each have not so many names.
    if !can_be_numbered(names.len(), text.len()) {
        return Err(Refusal::OutOfMemory);
    }
    match ll_prooftext::read_any(alloc, text, names) {
        Ok((derivation, _)) => Ok(derivation),
        Err(fault) => Err(refusal(Role::Proof, fault)),
    }
}

// Whether a reader of derivations can number the names of a text of so many bytes behind so many others: exactly where they are fewer than
// 4,294,967,296 with one name for each byte.
fn can_be_numbered(others: usize, bytes: usize) -> bool
    requires { bytes ≤ 16777216 }
    ensures { (result ≡ true) ↔ (others + bytes < 4294967296) }
{
    others < MOST_NAMES - bytes
}
