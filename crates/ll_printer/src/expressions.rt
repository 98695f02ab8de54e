//! The expressions of a program, as their text had them.
ghost use Rattle.std.specs.Prelude.{◌≡◌, ◌<◌, ◌++◌, ◌∷◌, ◌&&◌, ◌||◌, [], OnOk, All, length, nat_eq};
ghost use Rattle.ll_parser.specs.Nodes.{raw_at, identifier};
ghost use Rattle.ll_parser.specs.Printed.{is_add as is_add_sign, is_star as is_star_sign};
ghost use Rattle.ll_printer.specs.Parts.{operator_text, operand_parts, sides_parts, expression_parts, PushesParts};

use crate::formulas::{Part, Source, Word, push_all, push_part};
use crate::words::name_of;
use ll_bank::OutOfMemory;
use ll_parser::{Named, RawAt, RawNode};

/// PushesParts the parts of an expression.
pub(crate) fn push_expression(
    source: &Source<'_>,
    at: RawAt,
    parts: &mut Vec<Part>,
) -> Result<(), OutOfMemory>
    requires { at.0 < length source.now.forms.now }
    ensures { OnOk result (PushesParts source.now.names.now source.now.forms.now
        (Part.Expression at) parts.old.items parts.new.items) }
{
    match source.forms.node(at) {
        RawNode::Head(name, args) => push_head(source, name, args, parts),
        RawNode::Int(value) => push_part(Part::Number(value), parts),
        _ => push_part(Part::Word(Word::Any), parts),
    }
}

/// PushesParts a sign between its two operands, or a name alone.
fn push_head(
    source: &Source<'_>,
    name: Named,
    args: &[RawAt],
    parts: &mut Vec<Part>,
) -> Result<(), OutOfMemory>
    requires { All (λ a. a.0 < length source.now.forms.now) args.now }
    ensures { OnOk result (parts.new.items ≡ parts.old.items
        ++ expression_parts source.now.names.now source.now.forms.now (nat_eq (length args.now) 2) name args.now) }
{
    if args.len() == 2 {
        push_sides(source, name, args[0], args[1], parts)
    } else {
        push_part(Part::Name(name), parts)
    }
}

/// PushesParts a sign between its two operands.
fn push_sides(
    source: &Source<'_>,
    name: Named,
    left: RawAt,
    right: RawAt,
    parts: &mut Vec<Part>,
) -> Result<(), OutOfMemory>
    requires left { left.0 < length source.now.forms.now }
    requires right { right.0 < length source.now.forms.now }
    ensures { OnOk result (parts.new.items
        ≡ parts.old.items ++ sides_parts source.now.names.now source.now.forms.now name left right) }
{
    let sign = name_of(source.names, name.name);
    push_operand(
        right,
        encloses_right(sign, operator_of(source, right)),
        parts,
    )?;
    push_all(
        &[
            Part::Word(Word::Space),
            Part::Name(name),
            Part::Word(Word::Space),
        ],
        parts,
    )?;
    push_operand(left, encloses_left(sign, operator_of(source, left)), parts)
}

/// PushesParts an operand, with its brackets if it has any.
fn push_operand(at: RawAt, enclosed: bool, parts: &mut Vec<Part>) -> Result<(), OutOfMemory>
    ensures { OnOk result (parts.new.items ≡ parts.old.items ++ operand_parts enclosed at) }
{
    if enclosed {
        push_all(
            &[
                Part::Word(Word::Close),
                Part::Expression(at),
                Part::Word(Word::Open),
            ],
            parts,
        )
    } else {
        push_part(Part::Expression(at), parts)
    }
}

/// The sign of an expression with two operands, and of any other an empty text.
fn operator_of<'a>(source: &Source<'a>, at: RawAt) -> &'a str
    requires { at.0 < length source.now.forms.now }
    ensures { result.now ≡ operator_text (raw_at source.now.names.now source.now.forms.now at.0) }
{
    match source.forms.node(at) {
        RawNode::Head(name, args) => {
            if args.len() == 2 {
                name_of(source.names, name.name)
            } else {
                ""
            }
        }
        _ => "",
    }
}

/// Whether brackets stand round a left operand with an operator.
fn encloses_left(sign: &str, operator: &str) -> bool
    ensures { result ≡ (is_star_sign sign.now && is_add_sign operator.now) }
{
    sign == "*" && is_add(operator)
}

/// Whether brackets stand round a right operand with an operator.
fn encloses_right(sign: &str, operator: &str) -> bool
    ensures { result ≡ (is_add_sign operator.now || (is_star_sign sign.now && is_star_sign operator.now)) }
{
    is_add(operator) || (sign == "*" && operator == "*")
}

/// Whether a sign is `+` or `-`.
fn is_add(sign: &str) -> bool
    ensures { result ≡ is_add_sign sign.now }
{
    sign == "+" || sign == "-"
}
