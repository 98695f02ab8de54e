//! What the text of a query asks of a program that was loaded.
ghost use Rattle.std.specs.Prelude.{◌≡◌, ◌≤◌, length, IfOk, IfErr};
ghost use Rattle.ll_laws.specs.Valid.{IsValid};
ghost use Rattle.ll_parser.specs.Raw.{ProgramTree};
ghost use Rattle.ll_parser.specs.Reads.{IsWhole};
ghost use Rattle.ll_parser.specs.Text.{queries};
ghost use Rattle.ll_polarity.specs.Asks.{part_of};
ghost use Rattle.ll_polarity.specs.Causes.{IsCauseOf};
ghost use Rattle.ll_session.specs.Queries.{IsProgramOf};
ghost use Rattle.ll_session.specs.Reading.{IsQueryText, IsQueryFault, IsUnreadCause, TextAsks};

use ll_laws::Problem;
use ll_lexer::{TextFault, tokens};
use ll_parser::{RawQuery, query};
use ll_polarity::{Loaded, ask};
use std::alloc::Global;

/// The problem that the text of a query asks of a program that was loaded, with a bound on the inferences of a branch. `Text` is the text's
/// first fault, of kinds 1 to 11. The part is spent in every case.
pub fn ask_text(
    alloc: Global,
    loaded: Loaded,
    text: &[u8],
    bound: u32,
) -> Result<Problem, TextFault>
    requires text { length text.now ≤ 16777216 }
    requires bound { bound ≤ 1000000 }
    ensures asks { IfOk result (λ problem. (program : ProgramTree) → IsProgramOf program loaded
        → TextAsks program text.now bound problem × IsValid problem) }
    ensures cause { IfErr result (IsCauseOf (λ fault. (program : ProgramTree) → loaded ≡ part_of program
        → IsQueryFault program text.now fault)) }
{
    let query = read_query(alloc, text)?;
    let problem = ask(alloc, loaded, &query, bound)?;
    Ok(problem)
}

// The query that a text is by the grammar, or its fault of kinds 1 to 6.
fn read_query(alloc: Global, text: &[u8]) -> Result<RawQuery, TextFault>
    requires { length text.now ≤ 16777216 }
    ensures read { IfOk result (λ q. IsQueryText text.now q) }
    ensures whole { IfOk result (λ q. IsWhole queries q) }
    ensures cause { IfErr result (IsUnreadCause text.now) }
{
    let list = match tokens(alloc, text) {
        Ok(list) => list,
        Err(fault) => return Err(fault),
    };
    query(alloc, &list)
}
