// Laws of the texts of derivations.
ghost use Rattle.std.specs.Prelude.{◌≡◌, ◌<◌, ◌^◌, ℕ, List, length};
ghost use Rattle.std.specs.List.{IsDistinct};
ghost use Rattle.std.specs.Str.{bytes_eq};
ghost use Rattle.ll_lexer.specs.declared.Fault.{Fault};
ghost use Rattle.ll_laws.specs.Line.{DerivationLines};
ghost use Rattle.ll_laws.specs.ProofText.{proof_text};
ghost use Rattle.ll_prooftext.specs.Admitted.{IsSpelled};
ghost use Rattle.ll_prooftext.specs.Mentions.{text_names};
ghost use Rattle.ll_prooftext.specs.ProofText2.{proof_text2};
ghost use Rattle.ll_prooftext.specs.Reading.{IsTextOf, HasFault};
ghost use Rattle.ll_prooftext.specs.Reading2.{IsText2Of, HasFault2};
ghost use Rattle.ll_prooftext.specs.Twins.{AreAmong, HasTwin};
ghost use Rattle.ll_prooftext.specs.Versions.{IsTextIn, HasFaultIn};

/// Over names that all differ a text is that of one derivation, or it has one fault, and not both.
pub fn one_derivation()
    ensures reading { (names : List (List ℕ)) (text : List ℕ) (d e : DerivationLines) → IsDistinct bytes_eq names
        → IsTextOf names text d → IsTextOf names text e → d ≡ e }
    ensures fault { (text : List ℕ) (f g : Fault) → HasFault text f → HasFault text g → f ≡ g }
    ensures not_both { (names : List (List ℕ)) (text : List ℕ) (d : DerivationLines) (f : Fault)
        → IsTextOf names text d → HasFault text f → ⊥ }
{}

/// Over names that all differ a text of version 2, of less than 2^64 bytes, is that of one derivation, or it has one fault, and not both.
pub fn one_derivation_over_a_table()
    ensures reading { (names : List (List ℕ)) (text : List ℕ) (d e : DerivationLines) → IsDistinct bytes_eq names
        → length text < 2 ^ 64 → IsText2Of names text d → IsText2Of names text e → d ≡ e }
    ensures fault { (text : List ℕ) (f g : Fault) → length text < 2 ^ 64 → HasFault2 text f → HasFault2 text g → f ≡ g }
    ensures not_both { (names : List (List ℕ)) (text : List ℕ) (d : DerivationLines) (f : Fault)
        → IsDistinct bytes_eq names → length text < 2 ^ 64 → IsText2Of names text d → HasFault2 text f → ⊥ }
{}

/// Over names that all differ a text of less than 2^64 bytes is that of one derivation in one version, or it has one fault, and not both.
pub fn one_derivation_in_any()
    ensures reading { (names : List (List ℕ)) (text : List ℕ) (v w : ℕ) (d e : DerivationLines)
        → IsDistinct bytes_eq names → length text < 2 ^ 64 → IsTextIn v names text d → IsTextIn w names text e
        → (v ≡ w) × (d ≡ e) }
    ensures fault { (text : List ℕ) (f g : Fault) → length text < 2 ^ 64 → HasFaultIn text f → HasFaultIn text g
        → f ≡ g }
    ensures not_both { (names : List (List ℕ)) (text : List ℕ) (v : ℕ) (d : DerivationLines) (f : Fault)
        → IsDistinct bytes_eq names → length text < 2 ^ 64 → IsTextIn v names text d → HasFaultIn text f → ⊥ }
{}

/// A text of version 1 that is written as version 2 is, whatever names that is read over, a text of what is read there: so it is written as
/// version 1 again as it was, where it has its last LF.
pub fn there_and_back()
    ensures { (names ms : List (List ℕ)) (text : List ℕ) (d e : DerivationLines) → IsDistinct bytes_eq names
        → IsDistinct bytes_eq ms → length (proof_text2 names d) < 2 ^ 64 → IsTextOf names text d
        → IsText2Of ms (proof_text2 names d) e → IsTextOf ms text e }
{}

/// Over names among which are all that one of its texts mentions, some derivation has the same two texts.
pub fn over_other_names()
    ensures first { (names others : List (List ℕ)) (d : DerivationLines) → IsDistinct bytes_eq names
        → IsDistinct bytes_eq others → IsSpelled names d → AreAmong (text_names (proof_text names d)) others
        → HasTwin names others d }
    ensures second { (names others : List (List ℕ)) (d : DerivationLines) → IsDistinct bytes_eq names
        → IsDistinct bytes_eq others → IsSpelled names d → length (proof_text2 names d) < 2 ^ 64
        → AreAmong (text_names (proof_text2 names d)) others → HasTwin names others d }
{}
