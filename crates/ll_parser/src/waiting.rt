//! What waits while a formula is read: left operands, quantifiers, brackets and heads, the signs of whole-number goals, and the
//! arguments of unfinished heads.
ghost use Rattle.std.specs.Prelude.{◌≡◌, ℕ, ◌<◌, ◌++◌, ◌∷◌, List, [], length, IfOk, MatchOption};
ghost use Rattle.ll_parser.specs.declared.waiting.Frame.{Frame};
ghost use Rattle.ll_parser.specs.Raw.{Raw, head};
ghost use Rattle.ll_parser.specs.Grammar.{word_identifier};
ghost use Rattle.ll_parser.specs.Flat.{Pending, build, op_taken, taken};
ghost use Rattle.ll_parser.specs.Nodes.{identifier, build_raw, raw_trees};
ghost use Rattle.ll_parser.specs.Seen.{node_of, HasPartsBelow};
ghost use Rattle.ll_parser.specs.declared.RawAt.{RawAt};
ghost use Rattle.ll_parser.specs.Waiting.{word_view, prefix_view};

use crate::{Level, Named, Op, Quantifier, RawAt, RawNode, Raws, SumOp, TestOp};
use ll_bank::OutOfMemory;
use ll_lexer::Place;
use std::alloc::Global;

/// The number of the text `::` among the names, and those of `+`, `-` and `*`.
pub const CONS: u32 = 0;

pub const PLUS: u32 = 1;

pub const MINUS: u32 = 2;

pub const STAR: u32 = 3;

/// The word at the head of an atom or of an application.
#[derive(Clone, Copy)]
pub enum Word {
    Name(Named),
    Variable(Named),
}

/// The front of a formula, which waits for the operand behind it.
#[derive(Clone, Copy)]
pub enum Prefix {
    /// An operator with its place and its left operand.
    Operator(Op, Place, RawAt),
    /// The `-->` of a load and the module's name. Its arguments are those that wait from a place on.
    Load(Place, Named, usize),
    /// A quantifier and the name that it binds.
    Quantifier(Quantifier, Place, Named),
}

/// What waits for an operand or for a closing bracket.
#[derive(Clone, Copy)]
pub enum Frame {
    /// The front of a formula.
    Front(Prefix),
    /// `(` round a formula.
    Bracket,
    /// `{`.
    Brace(Place),
    /// `(` round an argument of an atom, whose arguments so far are those that wait from a place on.
    Atom(Word, usize),
    /// `(` round an argument of an application in a term, whose arguments so far are those that wait from a place on.
    Application(Word, usize),
    /// `(` round a term.
    Group,
    /// `::` and the term in front of it.
    Cell(Place, RawAt),
    /// `+` or `-` and the expression in front of it.
    Sum(SumOp, Place, RawAt),
    /// `*` and the expression in front of it.
    Product(Place, RawAt),
    /// `is` and the term in front of it.
    Is(Place, RawAt),
    /// `<` or `=<` and the expression in front of it.
    Comparison(TestOp, Place, RawAt),
    /// `(` in an expression.
    NumberGroup,
    /// `(` in the left side of a comparison.
    LeadGroup,
}

/// The nodes so far, the arguments of unfinished heads, and what waits, the newest last.
#[derive(Drop)]
pub struct Waiting {
    pub forms: Raws,
    pub args: Vec<RawAt>,
    pub frames: Vec<Frame>,
}

/// The number and place of a word.
pub fn named(word: Word) -> Named
    ensures { (texts : List (List ℕ)) → identifier texts result ≡ word_identifier (word_view texts word) }
{
    match word {
        Word::Name(name) => name,
        Word::Variable(name) => name,
    }
}

// Whether the level takes an operator.
fn takes_operator(level: Level, op: Op) -> bool
    ensures { result ≡ op_taken level op }
{
    match op {
        Op::Tensor => true,
        Op::With => match level {
            Level::Ampersand => false,
            Level::Semicolon | Level::Arrow | Level::Clause | Level::Close => true,
        },
        Op::Plus => match level {
            Level::Ampersand | Level::Semicolon => false,
            Level::Arrow | Level::Clause | Level::Close => true,
        },
        Op::ColonDash | Op::LeftArrow | Op::Lolli | Op::RightArrow => match level {
            Level::Ampersand | Level::Semicolon | Level::Arrow => false,
            Level::Clause | Level::Close => true,
        },
    }
}

/// Whether the level takes the front of a formula.
pub fn takes(level: Level, front: Prefix) -> bool
    ensures { (texts : List (List ℕ)) (trees : List Raw) (args : List RawAt)
        → result ≡ taken level (prefix_view texts trees args front) }
{
    match front {
        Prefix::Operator(op, _, _) => takes_operator(level, op),
        Prefix::Load(_, _, _) => match level {
            Level::Ampersand | Level::Semicolon | Level::Arrow => false,
            Level::Clause | Level::Close => true,
        },
        Prefix::Quantifier(_, _, _) => match level {
            Level::Ampersand | Level::Semicolon | Level::Arrow | Level::Clause => false,
            Level::Close => true,
        },
    }
}

/// The newest frame.
pub fn newest(frames: &[Frame]) -> Option<Frame>
    ensures { MatchOption result (frames.now ≡ []) (λ f. (rest : List Frame) × (frames.now ≡ rest ++ f ∷ [])) }
{
    match frames.split_last() {
        Some((frame, _)) => Some(*frame),
        None => None,
    }
}

impl Waiting {
    ghost use Rattle.ll_parser.specs.Waiting.{tree, args_from, waiting_below, FitsBelow, IsNode, IsNew, CanWait, Grows, Added, Pushed, Dropped, ShowsTree};
    ghost use Rattle.ll_parser.specs.Waiting.{HasMore};

    /// Nothing.
    pub fn new(alloc: Global) -> Self
        ensures { IsNew result }
    {
        Waiting {
            forms: Raws::new(alloc),
            args: Vec::new(alloc),
            frames: Vec::new(alloc),
        }
    }

    /// Adds a node.
    pub fn add(&mut self, at: Place, node: RawNode<'_>) -> Result<RawAt, OutOfMemory>
        requires { HasPartsBelow (length self.old.forms) node }
        ensures gives { IfOk result (λ i. Added self.old self.new i
            (λ texts. build_raw texts (raw_trees texts self.old.forms) (node_of at node.entry))) }
        ensures grows { IfOk result (λ _. Grows self.old.forms self.new.forms) }
    {
        let place = self.forms.add(at, node)?;
        Ok(place)
    }

    /// Puts a frame on.
    pub fn push(&mut self, frame: Frame) -> Result<(), OutOfMemory>
        requires { CanWait self.old frame }
        ensures gives { IfOk result (λ _. Pushed self.old self.new frame) }
        ensures grows { IfOk result (λ _. Grows self.old.forms self.new.forms) }
    {
        self.frames.push(frame)?;
        Ok(())
    }

    /// Takes the newest frame off.
    pub fn drop_newest(&mut self)
        requires { 0 < length self.old.frames.items }
        ensures gives { (rest : List Frame) (f : Frame) → self.old.frames.items ≡ rest ++ f ∷ []
            → Dropped self.old self.new f }
        ensures grows { Grows self.old.forms self.new.forms }
    {
        let n = self.frames.len();
        self.frames.truncate(n - 1);
    }

    /// One more argument of the head at work.
    pub fn push_argument(&mut self, arg: RawAt) -> Result<(), OutOfMemory>
        requires { IsNode self.old arg }
        ensures gives { IfOk result (λ _. (from : ℕ) → FitsBelow self.old from
            → HasMore self.old self.new from (λ texts. tree texts self.old arg)) }
        ensures grows { IfOk result (λ _. Grows self.old.forms self.new.forms) }
    {
        self.args.push(arg)?;
        Ok(())
    }

    /// One more argument of the head at work, of one node.
    pub fn add_argument(&mut self, at: Place, node: RawNode<'_>) -> Result<(), OutOfMemory>
        requires { HasPartsBelow (length self.old.forms) node }
        ensures gives { IfOk result (λ _. (from : ℕ) → FitsBelow self.old from
            → HasMore self.old self.new from (λ texts. build_raw texts (raw_trees texts self.old.forms)
            (node_of at node.entry))) }
        ensures grows { IfOk result (λ _. Grows self.old.forms self.new.forms) }
    {
        let arg = self.add(at, node)?;
        self.push_argument(arg)?;
        Ok(())
    }

    /// The head with the arguments that wait from a place on, which wait no more.
    pub fn finish_head(&mut self, name: Named, from: usize) -> Result<RawAt, OutOfMemory>
        requires { FitsBelow self.old from }
        ensures gives { IfOk result (λ i. ShowsTree self.new i
            (λ texts. head (identifier texts name) (args_from texts self.old from))
            (λ texts. waiting_below texts self.old from)) }
        ensures grows { IfOk result (λ _. Grows self.old.forms self.new.forms) }
    {
        let args = self.args.as_slice();
        let at = self.forms.add_head(name, &args[from..])?;
        self.args.truncate(from);
        Ok(at)
    }
}
