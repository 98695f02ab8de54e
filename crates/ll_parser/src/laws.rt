// Laws of the grammar.

ghost use Rattle.std.specs.Prelude.{◌≡◌, ℕ, List, map, ◌⊎◌};
ghost use Rattle.ll_lexer.specs.declared.Place.{Place};
ghost use Rattle.ll_lexer.specs.declared.Fault.{Fault};
ghost use Rattle.ll_lexer.specs.Reading.{LexedText, IsLexed};
ghost use Rattle.ll_parser.specs.Tokens.{Tok, toks_of};
ghost use Rattle.ll_parser.specs.Raw.{Raw, ProgramTree};
ghost use Rattle.ll_parser.specs.Text.{programs, queries};
ghost use Rattle.ll_parser.specs.Reads.{Reads, IsWhole, HasFault};
ghost use Rattle.ll_parser.specs.Printed.{program_text};
ghost use Rattle.ll_parser.specs.Bare.{bare_tok, bare_raw, bare_program};

/// A token list is read as one program, or has one fault, and not both: so what `program` answers is settled, but for memory.
pub fn one_program()
    ensures either { (limit : ℕ) (ts : List Tok) (end : Place)
        → ((p : ProgramTree) × Reads programs limit ts p) ⊎ ((f : Fault) × HasFault programs limit ts end f) }
    ensures tree { (limit : ℕ) (ts : List Tok) (p q : ProgramTree) → Reads programs limit ts p
        → Reads programs limit ts q → p ≡ q }
    ensures fault { (limit : ℕ) (ts : List Tok) (end : Place) (f g : Fault) → HasFault programs limit ts end f
        → HasFault programs limit ts end g → f ≡ g }
    ensures not_both { (limit : ℕ) (ts : List Tok) (end : Place) (p : ProgramTree) (f : Fault)
        → Reads programs limit ts p → HasFault programs limit ts end f → ⊥ }
{}

/// A token list is read as one query, or has one fault, and not both: so what `query` answers is settled, but for memory.
pub fn one_query()
    ensures either { (limit : ℕ) (ts : List Tok) (end : Place) → ((r : Raw) × Reads queries limit ts r)
        ⊎ ((f : Fault) × HasFault queries limit ts end f) }
    ensures tree { (limit : ℕ) (ts : List Tok) (r s : Raw) → Reads queries limit ts r → Reads queries limit ts s
        → r ≡ s }
    ensures fault { (limit : ℕ) (ts : List Tok) (end : Place) (f g : Fault) → HasFault queries limit ts end f
        → HasFault queries limit ts end g → f ≡ g }
    ensures not_both { (limit : ℕ) (ts : List Tok) (end : Place) (r : Raw) (f : Fault) → Reads queries limit ts r
        → HasFault queries limit ts end f → ⊥ }
{}

/// Places do not steer reading: tokens that are the same, places aside, are read as trees that are the same, places aside.
pub fn places_aside()
    ensures program { (limit : ℕ) (ts us : List Tok) (p : ProgramTree) → map bare_tok ts ≡ map bare_tok us
        → Reads programs limit ts p → (q : ProgramTree) × Reads programs limit us q
        × (bare_program q ≡ bare_program p) }
    ensures query { (limit : ℕ) (ts us : List Tok) (r : Raw) → map bare_tok ts ≡ map bare_tok us
        → Reads queries limit ts r → (s : Raw) × Reads queries limit us s × (bare_raw s ≡ bare_raw r) }
{}

/// What is printed of a whole program is read again as this program: the text has no fault, and its tokens are read as a
/// program that is the same, places aside.
pub fn printed_is_read()
    ensures { (p : ProgramTree) → IsWhole programs p → (lexed : LexedText) × (lexed.text ≡ program_text p)
        × IsLexed lexed × (q : ProgramTree) × Reads programs 1000 (toks_of lexed) q
        × (bare_program q ≡ bare_program p) }
{}
