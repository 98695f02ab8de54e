//! Texts that are written anew ask and say the same: laws of calls. There is no code here.

ghost use Rattle.ll_top.specs.Rewriting.{LayoutIsAside, PrintedIsPrinted, PrintedIsAside, WrittenIsReadBack, ConvertedComesBack, ConvertedIsJudgedAlike};

use ll_laws::faults_are_exact;
use ll_lexer::one_reading;
use ll_parser::{one_program, one_query, printed_is_read};
use ll_prooftext::{one_derivation_in_any, over_other_names};

/// How a program's text is laid out does not matter to what a call comes to, where the program has no fault of scope or sorting.
pub fn layout_is_aside()
    ensures { LayoutIsAside }
{
    one_reading();
    one_program();
    one_query();
    one_derivation_in_any();
}

/// A print of what a print wrote writes it again. And where the program has no fault of scope or sorting, each call comes to the same
/// over what was printed of it.
pub fn printed_is_aside()
    ensures again { PrintedIsPrinted }
    ensures same { PrintedIsAside }
{
    one_reading();
    one_program();
    one_query();
    one_derivation_in_any();
    printed_is_read();
}

/// What is written of a derivation, in either version, is read back as this derivation, over the names that it was written over and behind them
/// those that the text mentions.
pub fn written_is_read_back()
    ensures { WrittenIsReadBack }
{
    over_other_names();
}

/// A conversion there and back gives the same bytes.
pub fn converted_comes_back()
    ensures { ConvertedComesBack }
{
    one_reading();
    one_program();
    one_query();
    one_derivation_in_any();
    over_other_names();
}

/// A check says the same of a derivation's text and of what a conversion of it came to.
pub fn converted_is_judged_alike()
    ensures { ConvertedIsJudgedAlike }
{
    one_reading();
    one_program();
    one_query();
    one_derivation_in_any();
    over_other_names();
    faults_are_exact();
}
