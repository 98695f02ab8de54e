//! `check` says yes to what `run --proofs` prints: a law of calls. There is no code here.

ghost use Rattle.ll_top.specs.Accepted.{PrintedIsAccepted, PrintedIsCovered};

use crate::answers_are_spelled;
use ll_laws::answers_are_shown;
use ll_lexer::one_reading;
use ll_parser::{one_program, one_query};
use ll_prooftext::one_derivation_in_any;

/// A check says yes to each derivation that a run prints with `--proofs`, over the same program and query, where its text has at most
/// 16,777,216 bytes.
pub fn printed_is_accepted()
    ensures { PrintedIsAccepted }
{
    answers_are_shown();
    answers_are_spelled();
}

/// A cover of such a derivation with the run's bound names its answer or an earlier one, where no node is of a whole-number goal.
pub fn printed_is_covered()
    ensures { PrintedIsCovered }
{
    answers_are_shown();
    answers_are_spelled();
    one_reading();
    one_program();
    one_query();
    one_derivation_in_any();
}
