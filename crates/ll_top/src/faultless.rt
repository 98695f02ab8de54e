//! The programs that are made are programs of the language without a fault, and so are their queries.
//!
//! The function here carries a law as its contract, and does nothing.
ghost use Rattle.std.specs.Prelude.{ℕ};
ghost use Rattle.ll_make.specs.declared.kind.MakeKind.{MakeKind};
ghost use Rattle.ll_make.specs.Kinds.{InRange, query_text};
ghost use Rattle.ll_make.specs.Programs.{program_text};
ghost use Rattle.ll_top.specs.Faultless.{IsFaultlessProgram, IsFaultlessQuery};

use ll_parser::printed_is_read;

/// A program that is made has no fault, and the query of its kind has none over any modules.
pub fn made_texts()
    ensures program { (kind : MakeKind) (n : ℕ) → InRange kind n → IsFaultlessProgram (program_text kind n) }
    ensures query { (kind : MakeKind) → IsFaultlessQuery (query_text kind) }
{
    printed_is_read();
}
