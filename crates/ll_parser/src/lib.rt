//! The grammar: raw trees of programs and queries, and the first bad token.
//!
//! [`program`] and [`query`] go through the tokens of a text once, by a machine that looks at one token at a time and keeps what
//! waits for a right operand or a closing bracket on a stack of its own. Trees stand as flat nodes in [`Raws`], so that reading,
//! copying and dropping one needs no recursion. Contracts see a place among the nodes as the raw tree that it shows.
#![tactic(auto)]

mod formulas;
mod laws;
mod numbers;
mod operators;
mod raws;
mod reading;
mod symbols;
mod terms;
mod texts;
mod waiting;

pub use laws::{one_program, one_query, places_aside, printed_is_read};
use ll_bank::Names;
use ll_lexer::Place;
pub use raws::Raws;
pub use reading::{program, query};
use std::marker::Model;

/// The most brackets `(` and `{` that may be open at once.
pub const MOST_OPEN: usize = 1000;

/// A binary operator.
#[derive(Clone, Copy)]
pub enum Op {
    /// `:-`
    ColonDash,
    /// `<=`
    LeftArrow,
    /// `-o`
    Lolli,
    /// `=>`
    RightArrow,
    /// `;`
    Plus,
    /// `&`
    With,
    /// `,`
    Tensor,
}

/// A name or a variable: its number among the names, and the place where it stands.
#[derive(Clone, Copy)]
pub struct Named {
    pub name: u32,
    pub at: Place,
}

/// The place of a node among the nodes of raw trees.
#[derive(Clone, Copy)]
pub struct RawAt(pub usize);

/// A node of a raw tree, with the places of its parts.
#[derive(Clone, Copy)]
pub enum RawNode<'a> {
    /// `true`.
    True,
    /// `erase`.
    Erase,
    /// `{G}`.
    Braces(RawAt),
    /// `forall x\ G`.
    Forall(Named, RawAt),
    /// `exists x\ G`.
    Exists(Named, RawAt),
    /// `m t1 .. tk --> G`.
    Load(Named, &'a [RawAt], RawAt),
    /// An operator with its left and its right operand.
    Binary(Op, RawAt, RawAt),
    /// An atom, a name or a variable with its arguments. `X::L`, `E + F`, `E - F` and `E * F` are such nodes, whose name has the
    /// sign as its text and stands at the sign.
    Head(Named, &'a [RawAt]),
    /// `_`.
    Any,
    /// A whole number.
    Int(i64),
    /// `X is E`.
    Is(RawAt, RawAt),
    /// `E < F`.
    Less(RawAt, RawAt),
    /// `E =< F`.
    Most(RawAt, RawAt),
}

/// A clause, and whether it is marked `LINEAR`.
#[derive(Clone, Copy)]
pub struct RawClause {
    pub linear: bool,
    pub form: RawAt,
}

/// A module: its name, parameters, local constants and clauses, each in the order of the text.
#[derive(Drop)]
pub struct RawModule {
    pub name: Named,
    pub params: Vec<Named>,
    pub locals: Vec<Named>,
    pub clauses: Vec<RawClause>,
}

/// A program: its names, the nodes of its formulas, the clauses before its first module, and its modules. Contracts see the tree that
/// these show.
#[derive(Drop)]
pub struct RawProgram {
    pub names: Names,
    pub forms: Raws,
    pub clauses: Vec<RawClause>,
    pub modules: Vec<RawModule>,
}

impl Model for RawProgram {
    ghost use Rattle.std.specs.Prelude.{All};
    ghost use Rattle.ll_parser.specs.Raw.{ProgramTree};
    ghost use Rattle.ll_parser.specs.Codes.{program_code};
    ghost use Rattle.ll_parser.specs.Nodes.{shown_program};
    ghost use Rattle.ll_parser.specs.Drafts.{ClausesFit, ModuleFits};

    ghost Value = { ProgramTree };

    ghost coded = { program_code };

    ghost view = { λ p. shown_program p.names p.forms p.clauses.items p.modules.items };

    ghost invariant = { λ p. ClausesFit p.forms p.clauses.items × All (ModuleFits p.forms) p.modules.items };
}

/// A query: its names, the nodes of its formula, and where the formula stands. Contracts see the tree that these show.
#[derive(Drop)]
pub struct RawQuery {
    pub names: Names,
    pub forms: Raws,
    pub goal: RawAt,
}

impl Model for RawQuery {
    ghost use Rattle.std.specs.Prelude.{◌<◌, length};
    ghost use Rattle.ll_parser.specs.Raw.{Raw};
    ghost use Rattle.ll_parser.specs.Codes.{raw_code};
    ghost use Rattle.ll_parser.specs.Nodes.{raw_at};

    ghost Value = { Raw };

    ghost coded = { raw_code };

    ghost view = { λ q. raw_at q.names q.forms q.goal.0 };

    ghost invariant = { λ q. q.goal.0 < length q.forms };
}

// What a sign takes together before it: all that is tighter.
#[derive(Clone, Copy)]
enum Level {
    Ampersand,
    Semicolon,
    Arrow,
    Clause,
    Close,
}

// The sign of a sum.
#[derive(Clone, Copy)]
enum SumOp {
    Plus,
    Minus,
}

// The sign of a comparison: `<` or `=<`.
#[derive(Clone, Copy)]
enum TestOp {
    Less,
    Most,
}

// The word of a quantifier.
#[derive(Clone, Copy)]
enum Quantifier {
    Forall,
    Exists,
}
