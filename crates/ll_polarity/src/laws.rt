// Laws of what texts ask.

ghost use Rattle.std.specs.Prelude.{◌≡◌, ◌≤◌, ℕ, List, [], length, ◌⊎◌, All};
ghost use Rattle.ll_lexer.specs.declared.Fault.{Fault};
ghost use Rattle.ll_laws.specs.Problem.{ProblemTree};
ghost use Rattle.ll_laws.specs.Valid.{AreClauses, AreModules, IsValid};
ghost use Rattle.ll_parser.specs.Tokens.{Tok, IsSpelled};
ghost use Rattle.ll_parser.specs.Raw.{Raw, ProgramTree};
ghost use Rattle.ll_parser.specs.Text.{programs, queries};
ghost use Rattle.ll_parser.specs.Reads.{Reads, IsWhole};
ghost use Rattle.ll_polarity.specs.Faults.{Heading, program_faults, query_faults, AreInOrder};
ghost use Rattle.ll_polarity.specs.Asks.{part_of, Asks, HasProgramFault, HasQueryFault};

/// A program and a query ask one problem with a bound, or one of them has a fault, and not both: so what `load` and `ask` answer is
/// settled, but for memory.
pub fn one_problem()
    ensures either { (program : ProgramTree) (query : Raw) (bound : ℕ)
        → ((p : ProblemTree) × Asks program query bound p)
        ⊎ ((f : Fault) × (HasProgramFault program f ⊎ HasQueryFault program query f)) }
    ensures problem { (program : ProgramTree) (query : Raw) (bound : ℕ) (p q : ProblemTree)
        → Asks program query bound p → Asks program query bound q → p ≡ q }
    ensures program_fault { (program : ProgramTree) (f g : Fault) → HasProgramFault program f
        → HasProgramFault program g → f ≡ g }
    ensures query_fault { (program : ProgramTree) (query : Raw) (f g : Fault) → HasQueryFault program query f
        → HasQueryFault program query g → f ≡ g }
    ensures not_both { (program : ProgramTree) (query : Raw) (bound : ℕ) (p : ProblemTree) (f : Fault)
        → Asks program query bound p → HasProgramFault program f ⊎ HasQueryFault program query f → ⊥ }
{}

/// What a whole program without a fault fixes of a problem is valid, and so is each problem that a whole program and a whole query
/// ask, with a bound of at most 1,000,000 inferences.
pub fn asked_is_valid()
    ensures part { (program : ProgramTree) → IsWhole programs program → program_faults program ≡ []
        → AreClauses (length (part_of program).names) (part_of program).modules [] (part_of program).clauses
        × AreModules (length (part_of program).names) (part_of program).modules (part_of program).modules }
    ensures problem { (program : ProgramTree) (query : Raw) (bound : ℕ) (p : ProblemTree) → Asks program query bound p
        → IsWhole programs program → IsWhole queries query → bound ≤ 1000000 → IsValid p }
{}

/// The faults of a text stand in the order of its tokens, so the first of them is the one with the first place.
pub fn faults_in_order()
    ensures program { (limit : ℕ) (ts : List Tok) (program : ProgramTree) → All IsSpelled ts
        → Reads programs limit ts program → AreInOrder (program_faults program) ts }
    ensures query { (limit : ℕ) (ts : List Tok) (query : Raw) (modules : List Heading) → All IsSpelled ts
        → Reads queries limit ts query → AreInOrder (query_faults modules query) ts }
{}
