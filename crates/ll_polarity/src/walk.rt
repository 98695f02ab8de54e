//! One pass over a formula, for its first fault.

ghost use Rattle.std.specs.Prelude.{◌≡◌, ◌<◌, ◌*◌, ◌∷◌, ◌++◌, [], ℕ, List, length, map, option_to_list, slice_index_or, OnOk, IfOk, IfNone};
ghost use Rattle.ll_parser.specs.Nodes.{raw_at};
ghost use Rattle.ll_polarity.specs.declared.pending.Part.TheVariants.{Form, Term, Found, Close};
ghost use Rattle.ll_polarity.specs.Scope.{binds};
ghost use Rattle.ll_polarity.specs.NameMeanings.{meant};
ghost use Rattle.ll_polarity.specs.Faults.{Heading, may_be_head as may_head, on_goal_side, may_join as may_stand, left_side as left_of};
ghost use Rattle.ll_polarity.specs.Faults.{right_side as right_of, other as other_side, unless as unless_fault, term_faults, form_faults};
ghost use Rattle.ll_polarity.specs.Headings.{AreFound};
ghost use Rattle.ll_polarity.specs.Pending.{side_of, size, IsHead, IsReady, IsOpened};

use crate::headings::{Headings, unless};
use crate::pending::{Part, Parts, Side};
use crate::scope::{Binders, Meaning};
use ll_bank::{Names, OutOfMemory};
use ll_lexer::{Fault, Place};
use ll_parser::{Named, Op, RawAt, RawNode, Raws};
use std::alloc::Global;

/// What a text is judged by: its names, its nodes, and the modules that its loads name.
#[derive(Clone, Copy)]
pub struct Source<'a, 'h, 'n> {
    pub names: &'a Names,
    pub forms: &'a Raws,
    pub headings: &'h Headings<'n>,
}

// Whether it is the side of goals.
fn is_goal(side: Side) -> bool
    ensures { result ≡ on_goal_side (side_of side) }
{
    match side {
        Side::Goal => true,
        Side::Clause => false,
    }
}

// The other side.
fn other(side: Side) -> Side
    ensures { side_of result ≡ other_side (side_of side) }
{
    match side {
        Side::Goal => Side::Clause,
        Side::Clause => Side::Goal,
    }
}

// The side of an operator's left operand.
fn left_side(op: Op, side: Side) -> Side
    ensures { side_of result ≡ left_of op (side_of side) }
{
    match op {
        Op::Lolli | Op::RightArrow => other(side),
        Op::ColonDash | Op::LeftArrow | Op::Plus | Op::With | Op::Tensor => side,
    }
}

// The side of an operator's right operand.
fn right_side(op: Op, side: Side) -> Side
    ensures { side_of result ≡ right_of op (side_of side) }
{
    match op {
        Op::ColonDash | Op::LeftArrow => other(side),
        Op::Lolli | Op::RightArrow | Op::Plus | Op::With | Op::Tensor => side,
    }
}

// Whether an operator may stand on a side.
fn may_join(op: Op, side: Side) -> bool
    ensures { result ≡ may_stand op (side_of side) }
{
    match op {
        Op::Plus | Op::Tensor => is_goal(side),
        Op::ColonDash | Op::LeftArrow | Op::Lolli | Op::RightArrow | Op::With => true,
    }
}

// Whether a name of this meaning may be a predicate or have arguments.
fn may_be_head(meaning: Meaning) -> bool
    ensures { result ≡ may_head (meant meaning) }
{
    match meaning {
        Meaning::Local(_) | Meaning::Constant => true,
        Meaning::Bound(_) | Meaning::Free => false,
    }
}

// Puts the parts of a term next.
fn open_term(
    source: &Source<'_, '_, '_>,
    binders: &Binders<'_>,
    parts: &mut Parts,
    at: RawAt,
) -> Result<(), OutOfMemory>
    requires ready { IsReady source.now.names.now source.now.forms.now at }
    requires texts { binders.now.texts ≡ source.now.names.now }
    ensures { OnOk result (IsOpened source.now.names.now source.now.forms.now source.now.headings.now.params
        (λ ms. term_faults binders.now.scope (raw_at source.now.names.now source.now.forms.now at.0))
        (3 * size (raw_at source.now.names.now source.now.forms.now at.0)) binders.now.scope parts.old binders.now.scope parts.new) }
{
    if let RawNode::Head(name, args) = source.forms.node(at) {
        parts.push_terms(args)?;
        let fits = args.is_empty() || may_be_head(binders.meaning(name.name));
        parts.push_fault(unless(fits, name.at, 9))?;
    }
    Ok(())
}

// Puts the body of a quantifier next, in its scope.
fn open_body(
    binders: &mut Binders<'_>,
    parts: &mut Parts,
    side: Side,
    name: Named,
    body: RawAt,
) -> Result<(), OutOfMemory>
    requires { name.name < length binders.old.texts }
    ensures binders { OnOk result (binders.new
        ≡ record binders.old { scope = binds (slice_index_or binders.old.texts name.name []) ∷ binders.old.scope }) }
    ensures parts { OnOk result (parts.new ≡ Form side body ∷ (Close ∷ parts.old)) }
{
    binders.open(name.name, false)?;
    parts.push(Part::Close)?;
    parts.push(Part::Form(side, body))
}

// Puts the parts of a load next: its first fault, its arguments, its own fault, and its goal.
fn open_load(
    parts: &mut Parts,
    fault: Option<Fault>,
    args: &[RawAt],
    own: Option<Fault>,
    goal: Part,
) -> Result<(), OutOfMemory>
    ensures { OnOk result (parts.new ≡ map Found (option_to_list fault)
        ++ (map Term args.now ++ (map Found (option_to_list own) ++ goal ∷ parts.old))) }
{
    parts.push(goal)?;
    parts.push_fault(own)?;
    parts.push_terms(args)?;
    parts.push_fault(fault)
}

// Puts the parts of a whole-number goal next, of which this is the fault between its sides.
fn open_number(
    parts: &mut Parts,
    left: RawAt,
    fault: Option<Fault>,
    right: RawAt,
) -> Result<(), OutOfMemory>
    ensures { OnOk result (parts.new ≡ Term left ∷ (map Found (option_to_list fault) ++ Term right ∷ parts.old)) }
{
    parts.push(Part::Term(right))?;
    parts.push_fault(fault)?;
    parts.push(Part::Term(left))
}

// The fault of a formula that may stand on the side of goals alone.
fn goal_fault(side: Side, at: Place) -> Option<Fault>
    ensures { option_to_list result ≡ unless_fault (on_goal_side (side_of side)) 7 at }
{
    unless(is_goal(side), at, 7)
}

// The fault of a load that stands on the side of clauses.
fn misplaced_load(side: Side, at: Place) -> Option<Fault>
    ensures { option_to_list result ≡ unless_fault (on_goal_side (side_of side)) 8 at }
{
    unless(is_goal(side), at, 8)
}

// Puts a part next, behind a fault.
fn open_part(parts: &mut Parts, fault: Option<Fault>, part: Part) -> Result<(), OutOfMemory>
    ensures { OnOk result (parts.new ≡ map Found (option_to_list fault) ++ part ∷ parts.old) }
{
    parts.push(part)?;
    parts.push_fault(fault)
}

// Puts the operands of an operator next, of which this is the fault between them.
fn open_operands(
    parts: &mut Parts,
    left: Part,
    fault: Option<Fault>,
    right: Part,
) -> Result<(), OutOfMemory>
    ensures { OnOk result (parts.new ≡ left ∷ (map Found (option_to_list fault) ++ right ∷ parts.old)) }
{
    open_part(parts, fault, right)?;
    parts.push(left)
}

// Puts the arguments of an atom next, behind a fault.
fn open_atom(parts: &mut Parts, fault: Option<Fault>, args: &[RawAt]) -> Result<(), OutOfMemory>
    ensures { OnOk result (parts.new ≡ map Found (option_to_list fault) ++ (map Term args.now ++ parts.old)) }
{
    parts.push_terms(args)?;
    parts.push_fault(fault)
}

// Puts the parts of a formula next.
fn open_form(
    source: &Source<'_, '_, '_>,
    binders: &mut Binders<'_>,
    parts: &mut Parts,
    side: Side,
    at: RawAt,
) -> Result<(), OutOfMemory>
    requires ready { IsReady source.now.names.now source.now.forms.now at }
    requires texts { binders.old.texts ≡ source.now.names.now }
    ensures opened { OnOk result (IsOpened source.now.names.now source.now.forms.now source.now.headings.now.params
        (λ ms. form_faults ms (side_of side) binders.old.scope (raw_at source.now.names.now source.now.forms.now at.0))
        (3 * size (raw_at source.now.names.now source.now.forms.now at.0)) binders.old.scope parts.old binders.new.scope parts.new) }
    ensures texts { OnOk result (binders.new.texts ≡ source.now.names.now) }
{
    let place = source.forms.place(at);
    match source.forms.node(at) {
        RawNode::True => parts.push_fault(goal_fault(side, place)),
        RawNode::Braces(goal) => {
            open_part(parts, goal_fault(side, place), Part::Form(side, goal))
        }
        RawNode::Forall(name, body) => open_body(binders, parts, side, name, body),
        RawNode::Exists(name, body) => {
            open_body(binders, parts, side, name, body)?;
            parts.push_fault(goal_fault(side, place))
        }
        RawNode::Load(name, args, goal) => {
            let text = source.names.text(name.name);
            let fault = source.headings.load_fault(text, name.at, args.len());
            let own = misplaced_load(side, place);
            open_load(parts, fault, args, own, Part::Form(side, goal))
        }
        RawNode::Binary(op, left, right) => {
            let left = Part::Form(left_side(op, side), left);
            let right = Part::Form(right_side(op, side), right);
            open_operands(parts, left, unless(may_join(op, side), place, 7), right)
        }
        RawNode::Is(left, right) | RawNode::Less(left, right) | RawNode::Most(left, right) => {
            open_number(parts, left, goal_fault(side, place), right)?;
            Ok(())
        }
        RawNode::Head(name, args) => {
            let fits = may_be_head(binders.meaning(name.name));
            open_atom(parts, unless(fits, name.at, 9), args)
        }
        RawNode::Erase | RawNode::Any | RawNode::Int(_) => Ok(()),
    }
}

/// The first fault of a formula on a side. Without one the binders are as before.
pub fn first_fault(
    alloc: Global,
    source: &Source<'_, '_, '_>,
    binders: &mut Binders<'_>,
    side: Side,
    at: RawAt,
) -> Result<Option<Fault>, OutOfMemory>
    requires ready { IsReady source.now.names.now source.now.forms.now at }
    requires texts { binders.old.texts ≡ source.now.names.now }
    ensures first { IfOk result (λ fault. (ms : List Heading) → AreFound source.now.headings.now.params ms
        → IsHead fault (form_faults ms (side_of side) binders.old.scope
        (raw_at source.now.names.now source.now.forms.now at.0))) }
    ensures binders { IfOk result (λ fault. IfNone fault (binders.new ≡ binders.old)) }
{
    let mut parts = Parts::new(alloc);
    parts.push(Part::Form(side, at))?;
    while let Some(part) = parts.pop() {
        match part {
            Part::Form(side, at) => open_form(source, binders, &mut parts, side, at)?,
            Part::Term(at) => open_term(source, binders, &mut parts, at)?,
            Part::Found(fault) => return Ok(Some(fault)),
            Part::Close => binders.close(),
        }
    }
    Ok(None)
}
