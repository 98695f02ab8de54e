//! The kinds of programs that are made, their numbers and their queries.
ghost use Rattle.std.specs.Prelude.{◌≡◌, ◌↔◌, IsTrue};
ghost use Rattle.ll_make.specs.Kinds.{least_number, greatest_number, InRange, query_text};

/// What a program that is made does.
#[derive(Clone, Copy)]
pub enum MakeKind {
    /// It tells the permutations of the numbers from 1 up, by linear resources; 0 to 8 numbers.
    Perm,
    /// It chooses a bit at each place of a list; 1 to 16 places.
    Choice,
    /// It follows a chain of clauses, each from the one below it; 1 to 100,000 clauses below the first.
    Chain,
}

/// The least number that there is a program of this kind for.
pub fn least_number(kind: MakeKind) -> u32
    ensures { result ≡ least_number kind }
{
    match kind {
        MakeKind::Perm => 0,
        MakeKind::Choice => 1,
        MakeKind::Chain => 1,
    }
}

/// The greatest number that there is a program of this kind for.
pub fn greatest_number(kind: MakeKind) -> u32
    ensures { result ≡ greatest_number kind }
{
    match kind {
        MakeKind::Perm => 8,
        MakeKind::Choice => 16,
        MakeKind::Chain => 100_000,
    }
}

/// Whether there is a program of this kind for this number.
pub fn fits(kind: MakeKind, n: u32) -> bool
    ensures { IsTrue result ↔ InRange kind n }
{
    least_number(kind) <= n && n <= greatest_number(kind)
}

/// The query that asks for what the programs of this kind tell. It has no line feed at its end.
pub fn query(kind: MakeKind) -> &'static str
    ensures { result.now ≡ query_text kind }
{
    match kind {
        MakeKind::Perm => "go K",
        MakeKind::Choice => "go X",
        MakeKind::Chain => "go",
    }
}
