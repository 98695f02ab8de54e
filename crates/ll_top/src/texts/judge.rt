// What texts are read as by the grammar.
ghost use Rattle.std.specs.Prelude.{◌≤◌, length, IfOk, IfErr};
ghost use Rattle.ll_parser.specs.Reads.{IsWhole};
ghost use Rattle.ll_parser.specs.Text.{programs, queries};
ghost use Rattle.ll_top.specs.texts.Judging.{IsProgramText, IsQueryText, IsReadingCause};

use ll_lexer::{TextFault, tokens};
use ll_parser::{RawProgram, RawQuery, program, query};
use std::alloc::Global;

/// Which text of a command.
#[derive(Clone, Copy)]
pub enum Role {
    Program,
    Query,
    Proof,
}

/// The program that a text is by the grammar, or its fault of kinds 1 to 6: no other kind is judged.
pub fn judge_program(alloc: Global, text: &[u8]) -> Result<RawProgram, TextFault>
    requires { length text.now ≤ 16777216 }
    ensures ok { IfOk result (λ p. IsProgramText text.now p) }
    ensures whole { IfOk result (λ p. IsWhole programs p) }
    ensures err { IfErr result (λ e. IsReadingCause Role.Program text.now e) }
{
    let list = match tokens(alloc, text) {
        Ok(list) => list,
        Err(fault) => return Err(fault),
    };
    program(alloc, &list)
}

/// The query that a text is by the grammar, or its fault of kinds 1 to 6: no other kind is judged.
pub fn judge_query(alloc: Global, text: &[u8]) -> Result<RawQuery, TextFault>
    requires { length text.now ≤ 16777216 }
    ensures ok { IfOk result (λ q. IsQueryText text.now q) }
    ensures whole { IfOk result (λ q. IsWhole queries q) }
    ensures err { IfErr result (λ e. IsReadingCause Role.Query text.now e) }
{
    let list = match tokens(alloc, text) {
        Ok(list) => list,
        Err(fault) => return Err(fault),
    };
    query(alloc, &list)
}
