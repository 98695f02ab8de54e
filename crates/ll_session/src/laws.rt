// Laws of what the lines of a text ask.
ghost use Rattle.std.specs.Prelude.{◌≡◌, ℕ, List, []};
ghost use Rattle.ll_parser.specs.Raw.{ProgramTree};
ghost use Rattle.ll_polarity.specs.Faults.{program_faults};
ghost use Rattle.ll_session.specs.Queries.{QueryLine, HaveQueries};

use ll_lexer::one_reading;
use ll_parser::one_query;

/// Lines have exactly one list of queries over a program without a fault: each that is a query asks one problem or has one fault, and not
/// both.
pub fn one_session()
    ensures some { (program : ProgramTree) → program_faults program ≡ [] → (bound line : ℕ) (texts : List (List ℕ))
        → (queries : List QueryLine) × HaveQueries program bound line texts queries }
    ensures one { (program : ProgramTree) (bound line : ℕ) (texts : List (List ℕ)) (queries others : List QueryLine)
        → HaveQueries program bound line texts queries → HaveQueries program bound line texts others
        → queries ≡ others }
{
    one_reading();
    one_query();
}
