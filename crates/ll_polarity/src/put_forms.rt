//! Formulas, put into a bank from raw trees without recursion.

ghost use Rattle.std.specs.Prelude.{◌≡◌, ◌*◌, ◌+◌, ◌-◌, ◌^◌, ◌<◌, ◌≤◌, false, ℕ, List, [], ◌∷◌, ◌++◌, length, unwrap_or, slice_index_or, IfOk};
ghost use Rattle.ll_bank.specs.Nodes.{HasForm, HasParts, ShowsForm, ShowsTerm, form_of, form_tree, Extends};
ghost use Rattle.ll_lexer.specs.declared.Place.{Place as TextPlace};
ghost use Rattle.ll_parser.specs.Nodes.{raw_at, identifier};
ghost use Rattle.ll_parser.specs.Raw.{load, RawList};
ghost use Rattle.ll_parser.specs.Weights.{weight};
ghost use Rattle.ll_bank.specs.Form.{Atom};
ghost use Rattle.ll_polarity.specs.declared.put_forms.Frame.{Frame as FrameView};
ghost use Rattle.ll_polarity.specs.declared.put_forms.Step.TheVariants.{Read as ReadStep};
ghost use Rattle.ll_polarity.specs.Scope.{Binder, Scope};
ghost use Rattle.ll_polarity.specs.Reading.{Met as MetView, Read, joined};
ghost use Rattle.ll_polarity.specs.Built.{Around, IsNumberGoal, built_term, built_form};
ghost use Rattle.ll_polarity.specs.Standing.{met_of, around, outermost, HasRoom, StandsIn};
ghost use Rattle.ll_polarity.specs.Calls.{IsReady};
ghost use Rattle.ll_polarity.specs.Places.{place_in};
ghost use Rattle.ll_polarity.specs.Frames.{Ground, left_built, right_built, FrameHas, FrameFits, Advances, wraps, within, frame_left};
ghost use Rattle.ll_polarity.specs.Grounds.{ground};
ghost use Rattle.ll_polarity.specs.Spots.{Stands, CanRead, texts_of, site, raw_in, term_at, form_at, left_at, right_at};

use crate::front::{Met, Place};
use crate::put_terms::{arguments_of, term};
use crate::scope::Binders;
use crate::text::{Spot, Text};
use ll_bank::{At, Bank, FormAt, FormNode, OutOfMemory};
use ll_parser::{Named, Op, RawAt, RawNode};

/// The front of a formula, which waits for a part.
#[derive(Drop)]
pub enum Frame {
    /// `{ }`.
    Braces,
    /// `forall` and the name that it binds.
    Forall(u32),
    /// `exists` and the name that it binds.
    Exists(u32),
    /// An operator that waits for its left operand, and its right one.
    Left(Op, RawAt),
    /// An operator that waits for its right operand, and its left one.
    Right(Op, FormAt),
    /// A load of the module at a place, with its arguments, which waits for its goal.
    Load(u32, Vec<At>),
}

/// What comes next.
#[derive(Clone, Copy)]
pub enum Step {
    /// The raw tree at a place.
    Read(RawAt),
    /// What waits for a formula.
    Give(FormAt),
}

/// The fronts that wait, and where the part stands that the last one waits for.
#[derive(Drop)]
struct Fronts {
    frames: Vec<Frame>,
    place: Place,
}

/// A formula of a text: the place of its raw tree, and how many quantifiers are put round it for its variables, `None`
/// where these stay.
#[derive(Clone, Copy)]
pub struct Formula {
    pub at: RawAt,
    pub quantified: Option<u32>,
}

/// Goes into a quantifier that binds a name.
fn entered(binders: &mut Binders<'_>, place: &mut Place, name: u32) -> Result<(), OutOfMemory>
    requires name { name < length binders.old.texts }
    requires depth { place.old.depth < 4294967295 }
    ensures binders { IfOk result (λ _. binders.new ≡ record binders.old {
      scope =
          record { text = slice_index_or binders.old.texts name []; local = false } ∷ binders.old.scope;
    }) }
    ensures place { place.new ≡ record place.old { depth = place.old.depth + 1 } }
{
    place.depth += 1;
    binders.open(name, false)
}

/// Leaves a quantifier.
fn left(binders: &mut Binders<'_>, place: &mut Place)
    ensures place { place.new ≡ record place.old { depth = place.old.depth - 1 } }
    ensures texts { binders.new.texts ≡ binders.old.texts }
    ensures binders { (inner : Binder) (outer : Scope) → binders.old.scope ≡ inner ∷ outer → binders.new.scope ≡ outer }
{
    place.depth = place.depth.saturating_sub(1);
    binders.close();
}

/// Two formulas joined by an operator.
fn joined(bank: &mut Bank, op: Op, left: FormAt, right: FormAt) -> Result<FormAt, OutOfMemory>
    requires left { HasForm bank.old left.0 }
    requires right { HasForm bank.old right.0 }
    ensures shows { IfOk result (λ at. ShowsForm bank.new at.0
        (joined op (form_tree bank.old left.0) (form_tree bank.old right.0))) }
    ensures keeps { Extends bank.old bank.new }
{
    match op {
        Op::ColonDash => bank.form(FormNode::Lolli(right, left)),
        Op::LeftArrow => bank.form(FormNode::Imp(right, left)),
        Op::Lolli => bank.form(FormNode::Lolli(left, right)),
        Op::RightArrow => bank.form(FormNode::Imp(left, right)),
        Op::Plus => bank.form(FormNode::Plus(left, right)),
        Op::With => bank.form(FormNode::With(left, right)),
        Op::Tensor => bank.form(FormNode::Tensor(left, right)),
    }
}

/// The term at a place, as an atom.
fn atom(spot: &Spot<'_>, met: &mut Met, bank: &mut Bank, at: RawAt) -> Result<FormAt, OutOfMemory>
    requires stands { Stands spot.now }
    requires ready { CanRead spot.now at.0 }
    requires room { HasRoom (term_at spot.now met.old at.0).met }
    ensures shows { IfOk result (λ form. ShowsForm bank.new form.0
        (Atom (term_at spot.now met.old at.0).it)) }
    ensures met { IfOk result (λ _. met_of (texts_of spot.now) met.new
        ≡ (term_at spot.now met.old at.0).met) }
    ensures keeps { Extends bank.old bank.new }
{
    let term = term(spot, met, bank, at)?;
    bank.form(FormNode::Atom(term))
}

/// The two sides of a whole-number goal.
#[derive(Clone, Copy)]
struct Sides {
    left: At,
    right: At,
}

/// The terms at two places, from left to right.
fn both_sides(
    spot: &Spot<'_>,
    met: &mut Met,
    bank: &mut Bank,
    left: RawAt,
    right: RawAt,
) -> Result<Sides, OutOfMemory>
    requires stands { Stands spot.now }
    requires left { CanRead spot.now left.0 }
    requires right { CanRead spot.now right.0 }
    requires room { HasRoom (right_at spot.now met.old left right).met }
    ensures left { IfOk result (λ sides. ShowsTerm bank.new sides.left.0
        (left_at spot.now met.old left).it) }
    ensures right { IfOk result (λ sides. ShowsTerm bank.new sides.right.0
        (right_at spot.now met.old left right).it) }
    ensures met { IfOk result (λ _. met_of (texts_of spot.now) met.new
        ≡ (right_at spot.now met.old left right).met) }
    ensures keeps { Extends bank.old bank.new }
{
    let left = term(spot, met, bank, left)?;
    let right = term(spot, met, bank, right)?;
    Ok(Sides { left, right })
}

/// Gives the formula with this sign to what waits for it.
fn gives(bank: &mut Bank, node: FormNode<'_>) -> Result<Step, OutOfMemory>
    requires { HasParts bank.old node }
    ensures step { IfOk result (λ step. (g : Ground) (a : Around) (met : MetView) (left : ℕ) (frames : List FrameView)
        → 2 < left → Advances g bank.new a (record {
          it = form_of bank.old node.entry;
          met = met;
        }) left frames frames step met a) }
    ensures keeps { Extends bank.old bank.new }
{
    let form = bank.form(node)?;
    Ok(Step::Give(form))
}

/// Puts on a front and reads the part that it waits for.
fn waits(frames: &mut Vec<Frame>, frame: Frame, part: RawAt) -> Result<Step, OutOfMemory>
    ensures step { IfOk result (λ step. step ≡ ReadStep part) }
    ensures frames { IfOk result (λ _. frames.new.items ≡ frames.old.items ++ frame ∷ []) }
{
    frames.push(frame)?;
    Ok(Step::Read(part))
}

/// Goes into a quantifier, whose front this is, and reads its body.
fn goes_in(
    binders: &mut Binders<'_>,
    fronts: &mut Fronts,
    frame: Frame,
    name: u32,
    body: RawAt,
) -> Result<Step, OutOfMemory>
    requires name { name < length binders.old.texts }
    requires depth { fronts.old.place.depth < 4294967295 }
    ensures step { IfOk result (λ step. step ≡ ReadStep body) }
    ensures frames { IfOk result (λ _. fronts.new.frames.items ≡ fronts.old.frames.items ++ frame ∷ []) }
    ensures binders { IfOk result (λ _. binders.new ≡ record binders.old {
      scope =
          record { text = slice_index_or binders.old.texts name []; local = false } ∷ binders.old.scope;
    }) }
    ensures place { fronts.new.place ≡ record fronts.old.place { depth = fronts.old.place.depth + 1 } }
{
    entered(binders, &mut fronts.place, name)?;
    waits(&mut fronts.frames, frame, body)
}

/// A load: its place, the name of its module, and its goal.
#[derive(Clone, Copy)]
struct Load {
    at: RawAt,
    name: Named,
    goal: RawAt,
}

/// Puts on a load, with the arguments at its place, and reads its goal.
fn loads(
    spot: &Spot<'_>,
    met: &mut Met,
    bank: &mut Bank,
    frames: &mut Vec<Frame>,
    call: &Load,
) -> Result<Step, OutOfMemory>
    requires stands { Stands spot.now }
    requires ready { CanRead spot.now call.now.at.0 }
    requires room { HasRoom (form_at spot.now met.old call.now.at.0).met }
    requires load { (there : TextPlace) × (args : RawList) × (raw_in spot.now call.now.at.0
        ≡ load there (identifier (texts_of spot.now) call.now.name) args (raw_in spot.now call.now.goal.0)) }
    requires name { call.now.name.name < length (texts_of spot.now) }
    requires goal { call.now.goal.0 < call.now.at.0 }
    ensures step { IfOk result (λ step. Advances (ground spot.now.text.now) bank.new (site spot.now).around
        (form_at spot.now met.old call.now.at.0)
        (5 * weight (raw_in spot.now call.now.at.0)) frames.old.items frames.new.items step
        (met_of (texts_of spot.now) met.new) (site spot.now).around) }
    ensures keeps { Extends bank.old bank.new }
{
    let module = spot
        .text
        .modules
        .place_of(spot.text.names.text(call.name.name));
    let args = arguments_of(spot, met, bank, call.at)?;
    waits(frames, Frame::Load(module, args), call.goal)
}

/// Gives the whole-number goal at a place to what waits for it.
fn number_goal(
    spot: &Spot<'_>,
    met: &mut Met,
    bank: &mut Bank,
    at: RawAt,
) -> Result<Step, OutOfMemory>
    requires stands { Stands spot.now }
    requires ready { CanRead spot.now at.0 }
    requires number { IsNumberGoal (raw_in spot.now at.0) }
    requires room { HasRoom (form_at spot.now met.old at.0).met }
    ensures step { (frames : List FrameView)
        → IfOk result (λ step. Advances (ground spot.now.text.now) bank.new (site spot.now).around
        (form_at spot.now met.old at.0)
        (5 * weight (raw_in spot.now at.0)) frames frames step
        (met_of (texts_of spot.now) met.new) (site spot.now).around) }
    ensures keeps { Extends bank.old bank.new }
{
    match spot.text.forms.node(at) {
        RawNode::Is(left, right) => {
            let sides = both_sides(spot, met, bank, left, right)?;
            gives(bank, FormNode::Is(sides.left, sides.right))
        }
        RawNode::Less(left, right) => {
            let sides = both_sides(spot, met, bank, left, right)?;
            gives(bank, FormNode::Less(sides.left, sides.right))
        }
        RawNode::Most(left, right) => {
            let sides = both_sides(spot, met, bank, left, right)?;
            gives(bank, FormNode::Most(sides.left, sides.right))
        }
        _ => unreachable!(),
    }
}

/// Begins the formula at a place.
fn begun(
    text: &Text<'_>,
    binders: &mut Binders<'_>,
    fronts: &mut Fronts,
    met: &mut Met,
    bank: &mut Bank,
    at: RawAt,
) -> Result<Step, OutOfMemory>
    requires stands { StandsIn text.now.names.now binders.old fronts.old.place }
    requires ready { IsReady text.now.names.now text.now.forms.now at.0 }
    requires high { length binders.old.scope + unwrap_or fronts.old.place.quantified 0 + 5 * weight
        (raw_at text.now.names.now text.now.forms.now at.0) < 2 ^ 32 }
    requires room { HasRoom (built_form (ground text.now).modules (around fronts.old.place binders.old.scope)
        (met_of text.now.names.now met.old) (raw_at text.now.names.now text.now.forms.now at.0)).met }
    ensures step { IfOk result (λ step. Advances (ground text.now) bank.new (around fronts.old.place binders.old.scope)
        (built_form (ground text.now).modules (around fronts.old.place binders.old.scope)
        (met_of text.now.names.now met.old) (raw_at text.now.names.now text.now.forms.now at.0))
        (5 * weight (raw_at text.now.names.now text.now.forms.now at.0)) fronts.old.frames.items
        fronts.new.frames.items step
        (met_of text.now.names.now met.new) (around fronts.new.place binders.new.scope)) }
    ensures stands { IfOk result (λ _. StandsIn text.now.names.now binders.new fronts.new.place) }
    ensures scope { IfOk result (λ _. length binders.new.scope ≤ length binders.old.scope + 1) }
    ensures keeps { Extends bank.old bank.new }
{
    let spot = Spot {
        text: &*text,
        binders: &*binders,
        place: fronts.place,
    };
    match text.forms.node(at) {
        RawNode::True => gives(bank, FormNode::One),
        RawNode::Erase => gives(bank, FormNode::Top),
        RawNode::Braces(goal) => waits(&mut fronts.frames, Frame::Braces, goal),
        RawNode::Forall(name, body) => {
            let front = Frame::Forall(name.name);
            goes_in(binders, fronts, front, name.name, body)
        }
        RawNode::Exists(name, body) => {
            let front = Frame::Exists(name.name);
            goes_in(binders, fronts, front, name.name, body)
        }
        RawNode::Load(name, _, goal) => {
            let load = Load { at, name, goal };
            loads(&spot, met, bank, &mut fronts.frames, &load)
        }
        RawNode::Binary(op, left, right) => waits(&mut fronts.frames, Frame::Left(op, right), left),
        RawNode::Head(_, _) | RawNode::Any | RawNode::Int(_) => {
            let form = atom(&spot, met, bank, at)?;
            Ok(Step::Give(form))
        }
        RawNode::Is(_, _) => number_goal(&spot, met, bank, at),
        RawNode::Less(_, _) => number_goal(&spot, met, bank, at),
        RawNode::Most(_, _) => number_goal(&spot, met, bank, at),
    }
}

/// Gives a formula to the front that waits for it.
fn given(
    binders: &mut Binders<'_>,
    fronts: &mut Fronts,
    bank: &mut Bank,
    frame: Frame,
    form: FormAt,
) -> Result<Step, OutOfMemory>
    requires fits { FrameHas bank.old frame }
    requires form { HasForm bank.old form.0 }
    ensures step { IfOk result (λ step. (g : Ground) (a : Around) (met : MetView) → FrameFits g bank.old frame
        → around fronts.old.place binders.old.scope ≡ within g a frame
        → Advances g bank.new a (wraps g bank.old a frame (record { it = form_tree bank.old form.0; met = met }))
        (frame_left g frame + 2) fronts.old.frames.items fronts.new.frames.items step met
        (around fronts.new.place binders.new.scope)) }
    ensures texts { binders.new.texts ≡ binders.old.texts }
    ensures keeps { Extends bank.old bank.new }
{
    match frame {
        Frame::Braces => Ok(Step::Give(bank.form(FormNode::Bang(form))?)),
        Frame::Forall(_) => {
            left(binders, &mut fronts.place);
            Ok(Step::Give(bank.form(FormNode::Forall(form))?))
        }
        Frame::Exists(_) => {
            left(binders, &mut fronts.place);
            Ok(Step::Give(bank.form(FormNode::Exists(form))?))
        }
        Frame::Left(op, right) => {
            fronts.frames.push(Frame::Right(op, form))?;
            Ok(Step::Read(right))
        }
        Frame::Right(op, left) => Ok(Step::Give(joined(bank, op, left, form)?)),
        Frame::Load(module, args) => Ok(Step::Give(bank.form(FormNode::Use(module, &args, form))?)),
    }
}

/// The formula at a place. The binders are those round it again.
pub fn form(
    text: &Text<'_>,
    binders: &mut Binders<'_>,
    met: &mut Met,
    bank: &mut Bank,
    formula: Formula,
) -> Result<FormAt, OutOfMemory>
    requires stands { StandsIn text.now.names.now binders.old (record { quantified = formula.quantified; depth = 0 }) }
    requires ready { IsReady text.now.names.now text.now.forms.now formula.at.0 }
    requires high { length binders.old.scope + unwrap_or formula.quantified 0 + 5 * weight
        (raw_at text.now.names.now text.now.forms.now formula.at.0) < 2 ^ 32 }
    requires room { HasRoom (built_form (ground text.now).modules (outermost formula.quantified binders.old.scope)
        (met_of text.now.names.now met.old) (raw_at text.now.names.now text.now.forms.now formula.at.0)).met }
    ensures shows { IfOk result (λ form. ShowsForm bank.new form.0
        (built_form (ground text.now).modules (outermost formula.quantified binders.old.scope)
        (met_of text.now.names.now met.old) (raw_at text.now.names.now text.now.forms.now formula.at.0)).it) }
    ensures met { IfOk result (λ _. met_of text.now.names.now met.new
        ≡ (built_form (ground text.now).modules (outermost formula.quantified binders.old.scope)
        (met_of text.now.names.now met.old) (raw_at text.now.names.now text.now.forms.now formula.at.0)).met) }
    ensures scope { IfOk result (λ _. binders.new.scope ≡ binders.old.scope) }
    ensures texts { IfOk result (λ _. binders.new.texts ≡ text.now.names.now) }
    ensures keeps { Extends bank.old bank.new }
{
    let mut fronts = Fronts {
        frames: Vec::new(text.alloc),
        place: Place {
            quantified: formula.quantified,
            depth: 0,
        },
    };
    let mut step = Step::Read(formula.at);
    'steps: loop {
        step = match step {
            Step::Read(at) => begun(text, binders, &mut fronts, met, bank, at)?,
            Step::Give(form) => match fronts.frames.pop() {
                None => return Ok(form),
                Some(frame) => given(binders, &mut fronts, bank, frame, form)?,
            },
        };
    }
}
