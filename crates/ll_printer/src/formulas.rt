//! The formulas of a program, as their text had them.
ghost use Rattle.std.specs.Prelude.{◌≡◌, ◌<◌, ◌*◌, ◌+◌, ◌++◌, ◌∷◌, ◌&&◌, false, [], OnOk, OnErr, length, nat_eq};
ghost use Rattle.ll_parser.specs.Nodes.{raw_at, identifier};
ghost use Rattle.ll_parser.specs.Printed.{clauses, op_rank, left_rank, right_rank, is_looser, is_cons, is_pair, has_arguments, formula_text, term_text};
ghost use Rattle.ll_printer.specs.Pieces.{BeginsText};
ghost use Rattle.ll_printer.specs.Parts.{rank_of, word_text, needs_brackets, inner_text, raw_size, HasPart, AreParts, argument_parts, pair_parts, head_parts};
ghost use Rattle.ll_printer.specs.Parts.{PushesParts, PartMoves};

use crate::expressions::push_expression;
use crate::words::{name_of, write_integer};
use ll_bank::{Names, OutOfMemory};
use ll_parser::{Named, Op, RawAt, RawNode, Raws};
use std::alloc::Global;

/// The names and the nodes of a program.
#[derive(Clone, Copy)]
pub(crate) struct Source<'a> {
    pub names: &'a Names,
    pub forms: &'a Raws,
}

/// How loose an operator is, from the loosest.
#[derive(Clone, Copy)]
pub(crate) enum Level {
    /// `:-` and `<=`.
    Clauses,
    /// `-o`, `=>` and `-->`.
    Arrows,
    /// `;`.
    Sums,
    /// `&`.
    Withs,
    /// `,`.
    Tensors,
    /// No operator.
    Primaries,
}

/// A word or a sign with the spaces beside it.
#[derive(Clone, Copy)]
pub(crate) enum Word {
    /// `(`.
    Open,
    /// `)`.
    Close,
    /// `{`.
    OpenBrace,
    /// `}`.
    CloseBrace,
    /// A space.
    Space,
    /// `true`.
    True,
    /// `erase`.
    Erase,
    /// `forall` and a space.
    Forall,
    /// `exists` and a space.
    Exists,
    /// A backslash and a space.
    Backslash,
    /// `-->` between spaces.
    LoadArrow,
    /// An operator between spaces.
    Operator(Op),
    /// `is` between spaces.
    Is,
    /// `<` between spaces.
    Less,
    /// `=<` between spaces.
    Most,
    /// `::`.
    Cons,
    /// `_`.
    Any,
}

/// A part of a formula.
#[derive(Clone, Copy)]
pub(crate) enum Part {
    /// A formula where this level is the loosest without brackets, and whether something other than a closing bracket or a dot
    /// follows.
    Formula(RawAt, Level, bool),
    /// A formula without brackets round it, and whether something follows.
    Inside(RawAt, bool),
    /// A term.
    Term(RawAt),
    /// A space and a term, in brackets where it has arguments.
    Argument(RawAt),
    /// A term, in brackets where it is of the form `X::L`.
    Item(RawAt),
    /// An expression, without brackets round it.
    Expression(RawAt),
    /// A name or a variable.
    Name(Named),
    /// A whole number.
    Number(i64),
    /// A word or a sign.
    Word(Word),
}

/// Appends the text of a formula that nothing follows but a dot. After a refusal some first bytes of it may have been appended. It
/// needs no deep stack.
pub(crate) fn write_formula(
    alloc: Global,
    source: &Source<'_>,
    at: RawAt,
    out: &mut Vec<u8>,
) -> Result<(), OutOfMemory>
    requires { at.0 < length source.now.forms.now }
    ensures text { OnOk result (out.new.items ≡ out.old.items ++ formula_text clauses false
        (raw_at source.now.names.now source.now.forms.now at.0)) }
    ensures begun { OnErr result (BeginsText (formula_text clauses false (raw_at source.now.names.now source.now.forms.now at.0)) out.old.items out.new.items) }
{
    let mut parts = Vec::new(alloc);
    parts.push(Part::Formula(at, Level::Clauses, false))?;
    while let Some(part) = parts.pop() {
        print_part(source, part, &mut parts, out)?;
    }
    Ok(())
}

/// Prints a part, or leaves the parts that it is made of. After a refusal the bytes are as before.
fn print_part(
    source: &Source<'_>,
    part: Part,
    parts: &mut Vec<Part>,
    out: &mut Vec<u8>,
) -> Result<(), OutOfMemory>
    requires { HasPart source.now.forms.now part }
    ensures moves { OnOk result (PartMoves source.now.names.now source.now.forms.now part parts.old.items out.old.items parts.new.items out.new.items) }
    ensures refused { OnErr result (out.new.items ≡ out.old.items) }
{
    match part {
        Part::Formula(at, level, followed) => push_formula(source, at, level, followed, parts),
        Part::Inside(at, followed) => push_inside(source, at, followed, parts),
        Part::Term(at) => push_term(source, at, parts),
        Part::Argument(at) => push_argument(source, at, parts),
        Part::Item(at) => push_item(source, at, parts),
        Part::Expression(at) => push_expression(source, at, parts),
        Part::Name(name) => write_identifier(source.names, name, out),
        Part::Number(value) => write_integer(value, out),
        Part::Word(word) => write_word(word, out),
    }
}

/// Appends a word. After a refusal the bytes are as before.
fn write_word(word: Word, out: &mut Vec<u8>) -> Result<(), OutOfMemory>
    ensures text { OnOk result (out.new.items ≡ out.old.items ++ word_text word) }
    ensures refused { OnErr result (out.new.items ≡ out.old.items) }
{
    out.extend_from_slice(word_bytes(word))
}

/// Appends a name or a variable. After a refusal the bytes are as before.
pub(crate) fn write_identifier(
    names: &Names,
    name: Named,
    out: &mut Vec<u8>,
) -> Result<(), OutOfMemory>
    ensures text { OnOk result (out.new.items ≡ out.old.items ++ (identifier names.now name).text) }
    ensures refused { OnErr result (out.new.items ≡ out.old.items) }
{
    out.extend_from_slice(name_of(names, name.name).as_bytes())
}

/// The bytes of a word.
fn word_bytes(word: Word) -> &'static [u8]
    ensures { result.now ≡ word_text word }
{
    match word {
        Word::Open => b"(",
        Word::Close => b")",
        Word::OpenBrace => b"{",
        Word::CloseBrace => b"}",
        Word::Space => b" ",
        Word::True => b"true",
        Word::Erase => b"erase",
        Word::Forall => b"forall ",
        Word::Exists => b"exists ",
        Word::Backslash => b"\\ ",
        Word::LoadArrow => b" --> ",
        Word::Operator(op) => operator_bytes(op),
        Word::Is => b" is ",
        Word::Less => b" < ",
        Word::Most => b" =< ",
        Word::Cons => b"::",
        Word::Any => b"_",
    }
}

/// An operator between spaces.
fn operator_bytes(op: Op) -> &'static [u8]
    ensures { result.now ≡ word_text (Word.Operator op) }
{
    match op {
        Op::ColonDash => b" :- ",
        Op::LeftArrow => b" <= ",
        Op::Lolli => b" -o ",
        Op::RightArrow => b" => ",
        Op::Plus => b" ; ",
        Op::With => b" & ",
        Op::Tensor => b" , ",
    }
}

/// The level of an operator.
fn level_of(op: Op) -> Level
    ensures { rank_of result ≡ op_rank op }
{
    match op {
        Op::ColonDash | Op::LeftArrow => Level::Clauses,
        Op::Lolli | Op::RightArrow => Level::Arrows,
        Op::Plus => Level::Sums,
        Op::With => Level::Withs,
        Op::Tensor => Level::Tensors,
    }
}

/// The loosest level without brackets on the left of an operator.
fn left_level(op: Op) -> Level
    ensures { rank_of result ≡ left_rank op }
{
    match op {
        Op::ColonDash | Op::LeftArrow => Level::Clauses,
        Op::Lolli | Op::RightArrow => Level::Sums,
        Op::Plus => Level::Withs,
        Op::With => Level::Tensors,
        Op::Tensor => Level::Primaries,
    }
}

/// The loosest level without brackets on the right of an operator.
fn right_level(op: Op) -> Level
    ensures { rank_of result ≡ right_rank op }
{
    match op {
        Op::ColonDash | Op::LeftArrow => Level::Arrows,
        Op::Lolli | Op::RightArrow => Level::Arrows,
        Op::Plus => Level::Sums,
        Op::With => Level::Withs,
        Op::Tensor => Level::Tensors,
    }
}

/// Whether the first level is looser than the second.
fn is_looser(first: Level, second: Level) -> bool
    ensures { result ≡ is_looser (rank_of first) (rank_of second) }
{
    match first {
        Level::Clauses => !matches!(second, Level::Clauses),
        Level::Arrows => !matches!(second, Level::Clauses | Level::Arrows),
        Level::Sums => matches!(second, Level::Withs | Level::Tensors | Level::Primaries),
        Level::Withs => matches!(second, Level::Tensors | Level::Primaries),
        Level::Tensors => matches!(second, Level::Primaries),
        Level::Primaries => false,
    }
}

/// Whether brackets stand round a formula.
fn has_brackets(source: &Source<'_>, at: RawAt, level: Level, followed: bool) -> bool
    requires { at.0 < length source.now.forms.now }
    ensures { result ≡ needs_brackets (rank_of level) followed (raw_at source.now.names.now source.now.forms.now at.0) }
{
    match source.forms.node(at) {
        RawNode::Forall(_, _) => followed,
        RawNode::Exists(_, _) => followed,
        RawNode::Load(_, _, _) => is_looser(Level::Arrows, level),
        RawNode::Binary(op, _, _) => is_looser(level_of(op), level),
        _ => false,
    }
}

/// PushesParts a formula, with its brackets if it has any.
fn push_formula(
    source: &Source<'_>,
    at: RawAt,
    level: Level,
    followed: bool,
    parts: &mut Vec<Part>,
) -> Result<(), OutOfMemory>
    requires { at.0 < length source.now.forms.now }
    ensures { OnOk result (PushesParts source.now.names.now source.now.forms.now
        (Part.Formula at level followed) parts.old.items parts.new.items) }
{
    if has_brackets(source, at, level, followed) {
        push_all(
            &[
                Part::Word(Word::Close),
                Part::Inside(at, false),
                Part::Word(Word::Open),
            ],
            parts,
        )
    } else {
        push_part(Part::Inside(at, followed), parts)
    }
}

/// PushesParts the parts of a formula without brackets round it.
fn push_inside(
    source: &Source<'_>,
    at: RawAt,
    followed: bool,
    parts: &mut Vec<Part>,
) -> Result<(), OutOfMemory>
    requires { at.0 < length source.now.forms.now }
    ensures { OnOk result (PushesParts source.now.names.now source.now.forms.now
        (Part.Inside at followed) parts.old.items parts.new.items) }
{
    match source.forms.node(at) {
        RawNode::True => push_part(Part::Word(Word::True), parts),
        RawNode::Erase => push_part(Part::Word(Word::Erase), parts),
        RawNode::Braces(goal) => push_all(
            &[
                Part::Word(Word::CloseBrace),
                Part::Formula(goal, Level::Clauses, false),
                Part::Word(Word::OpenBrace),
            ],
            parts,
        ),
        RawNode::Forall(name, body) => push_bound(Word::Forall, name, body, parts),
        RawNode::Exists(name, body) => push_bound(Word::Exists, name, body, parts),
        RawNode::Load(name, args, goal) => push_load(name, args, goal, followed, parts),
        RawNode::Binary(op, left, right) => push_all(
            &[
                Part::Formula(right, right_level(op), followed),
                Part::Word(Word::Operator(op)),
                Part::Formula(left, left_level(op), true),
            ],
            parts,
        ),
        RawNode::Head(name, args) => push_head(name, args, parts),
        RawNode::Any => push_part(Part::Word(Word::True), parts),
        RawNode::Int(_) => push_part(Part::Word(Word::True), parts),
        RawNode::Is(left, right) => push_number(Word::Is, left, right, parts),
        RawNode::Less(left, right) => push_number(Word::Less, left, right, parts),
        RawNode::Most(left, right) => push_number(Word::Most, left, right, parts),
    }
}

/// PushesParts a whole-number goal.
fn push_number(
    word: Word,
    left: RawAt,
    right: RawAt,
    parts: &mut Vec<Part>,
) -> Result<(), OutOfMemory>
    ensures { OnOk result (parts.new.items ≡ parts.old.items ++ Part.Expression right ∷ Part.Word word
        ∷ Part.Expression left ∷ []) }
{
    push_all(
        &[
            Part::Expression(right),
            Part::Word(word),
            Part::Expression(left),
        ],
        parts,
    )
}

/// PushesParts parts, the last one on top.
pub(crate) fn push_all(more: &[Part], parts: &mut Vec<Part>) -> Result<(), OutOfMemory>
    ensures { OnOk result (parts.new.items ≡ parts.old.items ++ more.now) }
{
    parts.extend_from_slice(more)
}

/// PushesParts a load.
fn push_load(
    name: Named,
    args: &[RawAt],
    goal: RawAt,
    followed: bool,
    parts: &mut Vec<Part>,
) -> Result<(), OutOfMemory>
    ensures { OnOk result (parts.new.items
        ≡ parts.old.items ++ (Part.Formula goal Level.Arrows followed ∷ Part.Word Word.LoadArrow
        ∷ (argument_parts args.now ++ Part.Name name ∷ []))) }
{
    push_part(Part::Formula(goal, Level::Arrows, followed), parts)?;
    push_part(Part::Word(Word::LoadArrow), parts)?;
    push_head(name, args, parts)
}

/// PushesParts one part.
pub(crate) fn push_part(part: Part, parts: &mut Vec<Part>) -> Result<(), OutOfMemory>
    ensures { OnOk result (parts.new.items ≡ parts.old.items ++ part ∷ []) }
{
    parts.push(part)?;
    Ok(())
}

/// PushesParts a quantified formula.
fn push_bound(
    word: Word,
    name: Named,
    body: RawAt,
    parts: &mut Vec<Part>,
) -> Result<(), OutOfMemory>
    ensures { OnOk result (parts.new.items ≡ parts.old.items ++ Part.Formula body Level.Clauses false
        ∷ Part.Word Word.Backslash ∷ Part.Name name ∷ Part.Word word ∷ []) }
{
    push_all(
        &[
            Part::Formula(body, Level::Clauses, false),
            Part::Word(Word::Backslash),
            Part::Name(name),
            Part::Word(word),
        ],
        parts,
    )
}

/// PushesParts a name and its arguments.
fn push_head(name: Named, args: &[RawAt], parts: &mut Vec<Part>) -> Result<(), OutOfMemory>
    ensures { OnOk result (parts.new.items ≡ parts.old.items ++ (argument_parts args.now ++ Part.Name name ∷ [])) }
{
    push_arguments(args, parts)?;
    push_part(Part::Name(name), parts)
}

/// PushesParts arguments, the first one on top.
fn push_arguments(args: &[RawAt], parts: &mut Vec<Part>) -> Result<(), OutOfMemory>
    ensures { OnOk result (parts.new.items ≡ parts.old.items ++ argument_parts args.now) }
{
    let mut i = args.len();
    while i > 0 {
        i -= 1;
        parts.push(Part::Argument(args[i]))?;
    }
    Ok(())
}

/// PushesParts the parts of a term.
fn push_term(source: &Source<'_>, at: RawAt, parts: &mut Vec<Part>) -> Result<(), OutOfMemory>
    requires { at.0 < length source.now.forms.now }
    ensures { OnOk result (PushesParts source.now.names.now source.now.forms.now
        (Part.Term at) parts.old.items parts.new.items) }
{
    match source.forms.node(at) {
        RawNode::Head(name, args) => push_applied(source.names, name, args, parts),
        RawNode::Int(value) => push_part(Part::Number(value), parts),
        _ => push_part(Part::Word(Word::Any), parts),
    }
}

/// PushesParts a name and its arguments, the two of a `::` on its sides.
fn push_applied(
    names: &Names,
    name: Named,
    args: &[RawAt],
    parts: &mut Vec<Part>,
) -> Result<(), OutOfMemory>
    ensures { OnOk result (parts.new.items ≡ parts.old.items
        ++ head_parts (nat_eq (length args.now) 2 && is_cons (identifier names.now name).text) name args.now) }
{
    if is_pair_of(names, name, args) {
        push_pair(args, parts)
    } else {
        push_head(name, args, parts)
    }
}

/// PushesParts the two arguments of a `::`, and the sign between them.
fn push_pair(args: &[RawAt], parts: &mut Vec<Part>) -> Result<(), OutOfMemory>
    requires { length args.now ≡ 2 }
    ensures { OnOk result (parts.new.items ≡ parts.old.items ++ pair_parts args.now) }
{
    push_all(
        &[
            Part::Term(args[1]),
            Part::Word(Word::Cons),
            Part::Item(args[0]),
        ],
        parts,
    )
}

/// PushesParts a space and a term, in brackets where it has arguments.
fn push_argument(source: &Source<'_>, at: RawAt, parts: &mut Vec<Part>) -> Result<(), OutOfMemory>
    requires { at.0 < length source.now.forms.now }
    ensures { OnOk result (PushesParts source.now.names.now source.now.forms.now
        (Part.Argument at) parts.old.items parts.new.items) }
{
    if has_any_arguments(source, at) {
        push_all(
            &[
                Part::Word(Word::Close),
                Part::Term(at),
                Part::Word(Word::Open),
                Part::Word(Word::Space),
            ],
            parts,
        )
    } else {
        push_all(&[Part::Term(at), Part::Word(Word::Space)], parts)
    }
}

/// PushesParts the term in front of a `::`, in brackets where it is itself of the form `X::L`.
fn push_item(source: &Source<'_>, at: RawAt, parts: &mut Vec<Part>) -> Result<(), OutOfMemory>
    requires { at.0 < length source.now.forms.now }
    ensures { OnOk result (PushesParts source.now.names.now source.now.forms.now
        (Part.Item at) parts.old.items parts.new.items) }
{
    if is_pair_at(source, at) {
        push_all(
            &[
                Part::Word(Word::Close),
                Part::Term(at),
                Part::Word(Word::Open),
            ],
            parts,
        )
    } else {
        push_part(Part::Term(at), parts)
    }
}

/// Whether a term has arguments.
fn has_any_arguments(source: &Source<'_>, at: RawAt) -> bool
    requires { at.0 < length source.now.forms.now }
    ensures { result ≡ has_arguments (raw_at source.now.names.now source.now.forms.now at.0) }
{
    match source.forms.node(at) {
        RawNode::Head(_, args) => !args.is_empty(),
        _ => false,
    }
}

/// Whether a term is of the form `X::L`.
fn is_pair_at(source: &Source<'_>, at: RawAt) -> bool
    requires { at.0 < length source.now.forms.now }
    ensures { result ≡ is_pair (raw_at source.now.names.now source.now.forms.now at.0) }
{
    match source.forms.node(at) {
        RawNode::Head(name, args) => is_pair_of(source.names, name, args),
        _ => false,
    }
}

/// Whether a name is the sign `::`, with two arguments.
fn is_pair_of(names: &Names, name: Named, args: &[RawAt]) -> bool
    ensures { result ≡ (nat_eq (length args.now) 2 && is_cons (identifier names.now name).text) }
{
    args.len() == 2 && name_of(names, name.name) == "::"
}
