//! How what calls come to agrees, one call with another: laws of calls. There is no code here.

ghost use Rattle.ll_top.specs.Agreeing.{FirstIsFront, DeepeningIsRun, SessionIsRuns, DerivationIsPrinted, GreaterBoundKeeps, WorkersChangeNothing};

use crate::answers_are_kept;
use ll_laws::steady_search;
use ll_lexer::one_reading;
use ll_parser::{one_program, one_query};
use ll_polarity::faults_in_order;
use ll_prooftext::one_derivation_in_any;

/// A run with `--first K` writes the front of what the same run without it writes, with the first K answers, and then the line `stopped after K`,
/// with the same status. Where there are fewer answers, or a text has a fault, the two come to the same.
pub fn first_is_front()
    ensures { FirstIsFront }
{
    one_reading();
    one_program();
    one_query();
    one_derivation_in_any();
}

/// A deepening writes the line of a bound of its series and all that the run with this bound writes, with its status. Each run with a smaller bound
/// of the series has no answer and reached its bound.
pub fn deepening_is_run()
    ensures { DeepeningIsRun }
{}

/// The reply to a line of a session is the line `query L` and what a run with this line's text as its query writes, whatever lines stand beside it.
/// Of a fault it says the same but for the name of the text and the number of the line. A session that does not come to replies comes to what a run of
/// its two texts does.
pub fn session_is_runs()
    ensures { SessionIsRuns }
{
    faults_in_order();
}

/// With `--proofs` the derivation of each answer that is wanted stands in the text of the run, right behind the answer's lines.
pub fn derivation_is_printed()
    ensures { DerivationIsPrinted }
{
    one_reading();
    one_program();
    one_query();
    one_derivation_in_any();
}

/// A run with a greater bound writes each answer that the run with the smaller one writes, in the same order and with the same lines but for the
/// numbers of answers, and those whose branches have more steps. Where no branch reached the smaller bound, the two come to the same.
pub fn greater_bound_keeps()
    ensures { GreaterBoundKeeps }
{
    one_reading();
    one_program();
    one_query();
    one_derivation_in_any();
    answers_are_kept();
    steady_search();
}

/// The number of workers changes neither the status nor a byte of what a call comes to.
pub fn workers_change_nothing()
    ensures { WorkersChangeNothing }
{}
