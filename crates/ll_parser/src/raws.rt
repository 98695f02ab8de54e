//! The flat nodes of raw trees.

ghost use Rattle.std.specs.Prelude.{◌≡◌, ◌↔◌, ℕ, ◌<◌, ◌++◌, ◌∷◌, List, [], length, All, IsTrue, IfOk, OnOk, OnErr};
ghost use Rattle.ll_parser.specs.declared.RawAt.{RawAt};
ghost use Rattle.ll_parser.specs.Raw.{raw_place};
ghost use Rattle.ll_parser.specs.Nodes.{HeadNode, LoadNode, raw_at};
ghost use Rattle.ll_parser.specs.Seen.{places, node_of, HasPartsBelow, IsRawNode};
ghost use Rattle.ll_parser.specs.Stored.{IsWithin, args_of, AddsTo, IsRowKept, row_node, node_place};

use crate::{Named, Op, RawAt, RawNode};
use ll_bank::OutOfMemory;
use ll_lexer::Place;
use std::alloc::Global;
use std::marker::Model;

// A range of the arguments that all nodes share.
#[derive(Clone, Copy)]
struct Span {
    from: usize,
    to: usize,
}

// A node as it is kept.
#[derive(Clone, Copy)]
enum Row {
    True(Place),
    Erase(Place),
    Braces(Place, RawAt),
    Forall(Place, Named, RawAt),
    Exists(Place, Named, RawAt),
    Load(Place, Named, Span, RawAt),
    Binary(Place, Op, RawAt, RawAt),
    Head(Named, Span),
    Any(Place),
    Int(Place, i64),
    Is(Place, RawAt, RawAt),
    Less(Place, RawAt, RawAt),
    Most(Place, RawAt, RawAt),
}

/// The nodes of raw trees, each at a place, whose parts stand at lower places.
///
/// Contracts see the list of its nodes, and a place as the tree that it shows.
#[derive(Drop)]
pub struct Raws {
    rows: Vec<Row>,
    args: Vec<RawAt>,
}

impl Model for Raws {
    ghost use Rattle.std.specs.Prelude.{List, map};
    ghost use Rattle.ll_parser.specs.Nodes.{Node};

    ghost Value = { List Node };

    ghost use Rattle.ll_parser.specs.Stored.{row_node, IsKept};

    ghost view = { λ raws. map (row_node raws.args.items) raws.rows.items };

    ghost invariant = { λ raws. IsKept raws.args.items raws.rows.items };
}

impl Raws {
    /// No nodes.
    pub(crate) fn new(alloc: Global) -> Self
        ensures { result ≡ [] }
    {
        Raws {
            rows: Vec::new(alloc),
            args: Vec::new(alloc),
        }
    }

    /// How many nodes there are.
    pub fn len(&self) -> usize
        ensures { result ≡ length self.now }
    {
        self.rows.len()
    }

    /// Whether there are no nodes.
    pub fn is_empty(&self) -> bool
        ensures { IsTrue result ↔ (self.now ≡ []) }
    {
        self.rows.is_empty()
    }

    /// One more node, whose own place in the text is `at`. After a refusal the nodes are as before.
    pub(crate) fn add(&mut self, at: Place, node: RawNode<'_>) -> Result<RawAt, OutOfMemory>
        requires { HasPartsBelow (length self.old) node }
        ensures place { IfOk result (λ place. place.0 ≡ length self.old) }
        ensures added { OnOk result (self.new ≡ self.old ++ node_of at node.entry ∷ []) }
        ensures refused { OnErr result (self.new ≡ self.old) }
    {
        let row = kept_row(&mut self.args, at, node)?;
        let next = RawAt(self.rows.len());
        self.rows.push(row)?;
        Ok(next)
    }

    /// One more head with its arguments. After a refusal the nodes are as before.
    pub(crate) fn add_head(&mut self, name: Named, args: &[RawAt]) -> Result<RawAt, OutOfMemory>
        requires { All (λ a. a.0 < length self.old) args.now }
        ensures place { IfOk result (λ place. place.0 ≡ length self.old) }
        ensures added { OnOk result (self.new ≡ self.old ++ HeadNode name (places args.now) ∷ []) }
        ensures refused { OnErr result (self.new ≡ self.old) }
    {
        self.add(name.at, RawNode::Head(name, args))
    }

    /// One more load with its arguments and its goal. After a refusal the nodes are as before.
    pub(crate) fn add_load(
        &mut self,
        at: Place,
        name: Named,
        args: &[RawAt],
        goal: RawAt,
    ) -> Result<RawAt, OutOfMemory>
        requires args { All (λ a. a.0 < length self.old) args.now }
        requires goal { goal.0 < length self.old }
        ensures place { IfOk result (λ place. place.0 ≡ length self.old) }
        ensures added { OnOk result (self.new ≡ self.old ++ LoadNode at name (places args.now) goal.0 ∷ []) }
        ensures refused { OnErr result (self.new ≡ self.old) }
    {
        self.add(at, RawNode::Load(name, args, goal))
    }

    /// The node at a place.
    pub fn node(&self, at: RawAt) -> RawNode<'_>
        requires { at.0 < length self.now }
        ensures { IsRawNode self.now at.0 result }
    {
        shown(&self.args, self.rows[at.0])
    }

    /// Where the node at a place stands in the text: an operator's node and a whole-number goal at its sign, that of a load at its
    /// `-->`, that of `X::L`, `E + F`, `E - F` or `E * F` at its sign, and any other at its first token, brackets round it not counted.
    pub fn place(&self, at: RawAt) -> Place
        requires { at.0 < length self.now }
        ensures { (texts : List (List ℕ)) → result ≡ raw_place (raw_at texts self.now at.0) }
    {
        place_of(self.rows[at.0])
    }
}

// The place in the text of a row.
fn place_of(row: Row) -> Place
    ensures { (args : List RawAt) → result ≡ node_place (row_node args row) }
{
    match row {
        Row::True(at) => at,
        Row::Erase(at) => at,
        Row::Braces(at, _) => at,
        Row::Forall(at, _, _) => at,
        Row::Exists(at, _, _) => at,
        Row::Load(at, _, _, _) => at,
        Row::Binary(at, _, _, _) => at,
        Row::Head(name, _) => name.at,
        Row::Any(at) => at,
        Row::Int(at, _) => at,
        Row::Is(at, _, _) => at,
        Row::Less(at, _, _) => at,
        Row::Most(at, _, _) => at,
    }
}

// Puts places behind the arguments. After a refusal the arguments are as before.
fn store(args: &mut Vec<RawAt>, places: &[RawAt]) -> Result<Span, OutOfMemory>
    ensures span { IfOk result (λ span. IsWithin args.new.items span) }
    ensures places { IfOk result (λ span. args_of args.new.items span ≡ places.now) }
    ensures behind { AddsTo args.old.items args.new.items }
{
    let from = args.len();
    args.extend_from_slice(places)?;
    Ok(Span {
        from,
        to: args.len(),
    })
}

// The node as it is kept, with its arguments behind the others.
fn kept_row(args: &mut Vec<RawAt>, at: Place, node: RawNode<'_>) -> Result<Row, OutOfMemory>
    ensures kept { IfOk result (IsRowKept args.new.items) }
    ensures node { IfOk result (λ row. row_node args.new.items row ≡ node_of at node.entry) }
    ensures behind { AddsTo args.old.items args.new.items }
{
    match node {
        RawNode::True => Ok(Row::True(at)),
        RawNode::Erase => Ok(Row::Erase(at)),
        RawNode::Braces(goal) => Ok(Row::Braces(at, goal)),
        RawNode::Forall(name, body) => Ok(Row::Forall(at, name, body)),
        RawNode::Exists(name, body) => Ok(Row::Exists(at, name, body)),
        RawNode::Load(name, places, goal) => {
            let span = store(args, places)?;
            Ok(Row::Load(at, name, span, goal))
        }
        RawNode::Binary(op, left, right) => Ok(Row::Binary(at, op, left, right)),
        RawNode::Head(name, places) => {
            let span = store(args, places)?;
            Ok(Row::Head(name, span))
        }
        RawNode::Any => Ok(Row::Any(at)),
        RawNode::Int(value) => Ok(Row::Int(at, value)),
        RawNode::Is(left, right) => Ok(Row::Is(at, left, right)),
        RawNode::Less(left, right) => Ok(Row::Less(at, left, right)),
        RawNode::Most(left, right) => Ok(Row::Most(at, left, right)),
    }
}

// A node as callers see it.
fn shown(args: &[RawAt], row: Row) -> RawNode<'_>
    requires { IsRowKept args.now row }
    ensures { node_of (node_place (row_node args.now row)) result ≡ row_node args.now row }
{
    match row {
        Row::True(_) => RawNode::True,
        Row::Erase(_) => RawNode::Erase,
        Row::Braces(_, goal) => RawNode::Braces(goal),
        Row::Forall(_, name, body) => RawNode::Forall(name, body),
        Row::Exists(_, name, body) => RawNode::Exists(name, body),
        Row::Load(_, name, span, goal) => RawNode::Load(name, &args[span.from..span.to], goal),
        Row::Binary(_, op, left, right) => RawNode::Binary(op, left, right),
        Row::Head(name, span) => RawNode::Head(name, &args[span.from..span.to]),
        Row::Any(_) => RawNode::Any,
        Row::Int(_, value) => RawNode::Int(value),
        Row::Is(_, left, right) => RawNode::Is(left, right),
        Row::Less(_, left, right) => RawNode::Less(left, right),
        Row::Most(_, left, right) => RawNode::Most(left, right),
    }
}
