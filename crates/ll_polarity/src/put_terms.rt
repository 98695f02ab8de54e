//! Terms, put into a bank from raw trees without recursion.

ghost use Rattle.std.specs.Prelude.{◌≡◌, ℕ, suc, ◌<◌, List, length, IfOk, MatchOption, slice_get};
ghost use Rattle.ll_bank.specs.Nodes.{term_trees, ShowsTerm, AllInTerms, Extends};
ghost use Rattle.ll_parser.specs.Nodes.{raw_at};
ghost use Rattle.ll_parser.specs.Raw.{none, more};
ghost use Rattle.ll_polarity.specs.Built.{arguments, raws_past};
ghost use Rattle.ll_polarity.specs.Standing.{met_of, HasRoom};
ghost use Rattle.ll_polarity.specs.Calls.{TurnFits, IsBegun, IsResumed, IsGiven, opens};
ghost use Rattle.ll_polarity.specs.Spots.{Stands, CanRead, texts_of, forms_of, site, term_at, args_at};

use crate::front::{Front, Met, front_of, with_arguments};
use crate::text::Spot;
use ll_bank::{At, Bank, OutOfMemory};
use ll_parser::{RawAt, RawNode, Raws};

/// A name whose arguments are put in, with those that are.
#[derive(Drop)]
pub struct Call {
    front: Front,
    at: RawAt,
    args: Vec<At>,
}

/// What comes next.
#[derive(Drop)]
pub enum Turn {
    /// The raw tree at a place.
    Read(RawAt),
    /// The next argument of a name, if it has more.
    Resume(Call),
    /// What waits for a term.
    Give(At),
}

/// The argument of a name or a load with this number, counted from 0.
pub fn argument(forms: &Raws, at: RawAt, number: usize) -> Option<RawAt>
    requires { at.0 < length forms.now }
    ensures { (texts : List (List ℕ))
        → MatchOption result (raws_past number (arguments (raw_at texts forms.now at.0)) ≡ none)
        (λ arg. (arg.0 < length forms.now)
        × (raws_past number (arguments (raw_at texts forms.now at.0))
        ≡ more (raw_at texts forms.now arg.0) (raws_past (suc number) (arguments (raw_at texts forms.now at.0))))) }
{
    match forms.node(at) {
        RawNode::Head(_, args) => nth(args, number),
        RawNode::Load(_, args, _) => nth(args, number),
        RawNode::True
        | RawNode::Erase
        | RawNode::Braces(_)
        | RawNode::Forall(_, _)
        | RawNode::Exists(_, _)
        | RawNode::Binary(_, _, _)
        | RawNode::Any
        | RawNode::Is(_, _)
        | RawNode::Less(_, _)
        | RawNode::Most(_, _)
        | RawNode::Int(_) => None,
    }
}

fn nth(places: &[RawAt], number: usize) -> Option<RawAt>
    ensures { result ≡ slice_get places.now number }
{
    places.get(number).copied()
}

/// Begins the term at a place.
fn begun(spot: &Spot<'_>, met: &mut Met, bank: &mut Bank, at: RawAt) -> Result<Turn, OutOfMemory>
    requires stands { Stands spot.now }
    requires ready { CanRead spot.now at.0 }
    requires room { HasRoom (term_at spot.now met.old at.0).met }
    ensures begun { IfOk result (λ turn. opens (site spot.now) bank.new turn (met_of (texts_of spot.now) met.new)
        ≡ term_at spot.now met.old at.0) }
    ensures fits { IfOk result (TurnFits (texts_of spot.now) (forms_of spot.now) bank.new) }
    ensures next { IfOk result (IsBegun at) }
    ensures keeps { Extends bank.old bank.new }
{
    match spot.text.forms.node(at) {
        RawNode::Head(name, _) => {
            let front = front_of(spot, met, name.name)?;
            let args = Vec::new(spot.text.alloc);
            Ok(Turn::Resume(Call { front, at, args }))
        }
        RawNode::Any => {
            let number = met.variables.add_nameless()?;
            let term = with_arguments(bank, spot.place.variable(number), &[])?;
            Ok(Turn::Give(term))
        }
        RawNode::Int(value) => {
            let term = bank.int(value)?;
            Ok(Turn::Give(term))
        }
        // no other raw tree is a term
        RawNode::True
        | RawNode::Erase
        | RawNode::Braces(_)
        | RawNode::Forall(_, _)
        | RawNode::Exists(_, _)
        | RawNode::Load(_, _, _)
        | RawNode::Binary(_, _, _)
        | RawNode::Is(_, _)
        | RawNode::Less(_, _)
        | RawNode::Most(_, _) => {
            let term = bank.int(0)?;
            Ok(Turn::Give(term))
        }
    }
}

/// Goes on with a name.
fn resumed(
    forms: &Raws,
    bank: &mut Bank,
    calls: &mut Vec<Call>,
    call: Call,
) -> Result<Turn, OutOfMemory>
    requires inside { call.at.0 < length forms.now }
    requires args { AllInTerms bank.old call.args.items }
    ensures resumed { IfOk result (IsResumed forms.now bank.old bank.new calls.old.items calls.new.items call) }
    ensures keeps { Extends bank.old bank.new }
{
    match argument(forms, call.at, call.args.len()) {
        Some(arg) => {
            calls.push(call)?;
            Ok(Turn::Read(arg))
        }
        None => {
            let term = with_arguments(bank, call.front, &call.args)?;
            Ok(Turn::Give(term))
        }
    }
}

/// Gives a term to the name that waits for it.
fn given(mut call: Call, term: At) -> Result<Turn, OutOfMemory>
    ensures { IfOk result (IsGiven call term) }
{
    call.args.push(term)?;
    Ok(Turn::Resume(call))
}

/// The term at a place.
pub fn term(spot: &Spot<'_>, met: &mut Met, bank: &mut Bank, at: RawAt) -> Result<At, OutOfMemory>
    requires stands { Stands spot.now }
    requires ready { CanRead spot.now at.0 }
    requires room { HasRoom (term_at spot.now met.old at.0).met }
    ensures shows { IfOk result (λ term. ShowsTerm bank.new term.0 (term_at spot.now met.old at.0).it) }
    ensures met { IfOk result (λ _. met_of (texts_of spot.now) met.new ≡ (term_at spot.now met.old at.0).met) }
    ensures keeps { Extends bank.old bank.new }
{
    let mut calls = Vec::new(spot.text.alloc);
    let mut turn = Turn::Read(at);
    'turns: loop {
        turn = match turn {
            Turn::Read(at) => begun(spot, met, bank, at)?,
            Turn::Resume(call) => resumed(spot.text.forms, bank, &mut calls, call)?,
            Turn::Give(term) => match calls.pop() {
                None => return Ok(term),
                Some(call) => given(call, term)?,
            },
        };
    }
}

/// The arguments of the name or the load at a place.
pub fn arguments_of(
    spot: &Spot<'_>,
    met: &mut Met,
    bank: &mut Bank,
    at: RawAt,
) -> Result<Vec<At>, OutOfMemory>
    requires stands { Stands spot.now }
    requires ready { CanRead spot.now at.0 }
    requires room { HasRoom (args_at spot.now met.old at.0).met }
    ensures inside { IfOk result (λ args. AllInTerms bank.new args.items) }
    ensures show { IfOk result (λ args. term_trees bank.new args.items ≡ (args_at spot.now met.old at.0).it) }
    ensures met { IfOk result (λ _. met_of (texts_of spot.now) met.new ≡ (args_at spot.now met.old at.0).met) }
    ensures keeps { Extends bank.old bank.new }
{
    let mut args = Vec::new(spot.text.alloc);
    'arguments: while let Some(arg) = argument(spot.text.forms, at, args.len()) {
        let put = term(spot, met, bank, arg)?;
        args.push(put)?;
    }
    Ok(args)
}
