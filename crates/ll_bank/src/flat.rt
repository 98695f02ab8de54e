//! Nodes of terms and formulas in flat vectors.
ghost use Rattle.std.specs.Prelude.{◌≡◌, ◌<◌, [], ◌∷◌, ◌++◌, length, Some, IfOk, OnOk, OnErr, IsTrue, slice_get, slice_index};
ghost use Rattle.ll_bank.specs.Nodes.{VarNode, IntNode, AppNode, places, node_of_term, node_of, with_term, size_of, front};
ghost use Rattle.ll_bank.specs.Kept.{no_deep, deep_term, deep_form, deep_front};
ghost use Rattle.ll_bank.specs.Storage.{IsTermStored, IsFormStored, term_node, form_node, stored_term_depth, span_from, stored_as, load_arguments_of};
ghost use Rattle.ll_bank.specs.declared.flat.StoredTerm.TheVariants.{App as StoredApp};

use crate::{At, BankSize, FormAt, FormNode, Head, OutOfMemory, TermView};
use std::alloc::{AllocError, Global};
use std::marker::Model;

/// A range of the children that all nodes of a kind share.
#[derive(Clone, Copy, PartialEq, Eq)]
struct Span {
    from: u32,
    to: u32,
}

/// A term's node. With arguments it has the term's depth beside them.
#[derive(Clone, Copy, PartialEq, Eq)]
enum StoredTerm {
    Var(u64),
    Int(i64),
    App(u32, Head, Span),
}

/// A formula's node.
#[derive(Clone, Copy, PartialEq, Eq)]
enum StoredForm {
    Top,
    One,
    Atom(At),
    With(FormAt, FormAt),
    Tensor(FormAt, FormAt),
    Plus(FormAt, FormAt),
    Bang(FormAt),
    Lolli(FormAt, FormAt),
    Imp(FormAt, FormAt),
    Forall(FormAt),
    Exists(FormAt),
    Use(u32, Span, FormAt),
    Is(At, At),
    Less(At, At),
    Most(At, At),
}

/// Nodes of terms and formulas, each at its place, and the depth of each term. Contracts see their lists.
///
/// Children and depths are counted in 32 bits. What would come past 4,294,967,295 of them is refused.
#[derive(Drop)]
pub(crate) struct Flat {
    terms: Vec<StoredTerm>,
    forms: Vec<StoredForm>,
    // The arguments of all terms, in turn.
    arguments: Vec<At>,
    // The arguments of all loads, in turn.
    load_arguments: Vec<At>,
}

impl Model for Flat {
    ghost use Rattle.ll_bank.specs.Kept.{DeepNodes};

    ghost Value = { DeepNodes };

    ghost use Rattle.ll_bank.specs.Storage.{deep_of, IsStored};

    ghost view = { λ flat. deep_of flat.arguments.items flat.load_arguments.items flat.terms.items flat.forms.items };

    ghost invariant = { λ flat. IsStored flat.arguments.items flat.load_arguments.items flat.terms.items flat.forms.items };
}

impl Flat {
    /// No nodes.
    pub(crate) fn new(alloc: Global) -> Self
        ensures { result ≡ no_deep }
    {
        Flat {
            terms: Vec::new(alloc),
            forms: Vec::new(alloc),
            arguments: Vec::new(alloc),
            load_arguments: Vec::new(alloc),
        }
    }

    /// What they take memory from.
    pub(crate) fn alloc(&self) -> Global {
        *self.terms.allocator()
    }

    /// Puts a variable behind the terms. After a refusal the nodes are as before.
    pub(crate) fn push_var(&mut self, number: u64) -> Result<(), OutOfMemory>
        ensures added { OnOk result (self.new ≡ deep_term self.old (VarNode number) 0) }
        ensures refused { OnErr result (self.new ≡ self.old) }
    {
        self.terms.push(StoredTerm::Var(number))?;
        Ok(())
    }

    /// Puts a whole number behind the terms. After a refusal the nodes are as before.
    pub(crate) fn push_int(&mut self, value: i64) -> Result<(), OutOfMemory>
        ensures added { OnOk result (self.new ≡ deep_term self.old (IntNode value) 0) }
        ensures refused { OnErr result (self.new ≡ self.old) }
    {
        self.terms.push(StoredTerm::Int(value))?;
        Ok(())
    }

    /// Puts a head with arguments, of this depth, behind the terms. After a refusal the nodes are as before.
    pub(crate) fn push_app(
        &mut self,
        head: Head,
        args: &[At],
        depth: u32,
    ) -> Result<(), OutOfMemory>
        ensures added { OnOk result (self.new ≡ deep_term self.old (AppNode head (places args.now)) depth) }
        ensures refused { OnErr result (self.new ≡ self.old) }
    {
        store_app(&mut self.terms, &mut self.arguments, head, args, depth)
    }

    /// Puts a term without its depth behind the terms. After a refusal the nodes are as before.
    pub(crate) fn push_term(&mut self, node: TermView<'_>) -> Result<(), OutOfMemory>
        ensures added { OnOk result (self.new.nodes ≡ with_term self.old.nodes (node_of_term node.entry)) }
        ensures refused { OnErr result (self.new ≡ self.old) }
    {
        match node {
            TermView::Var(number) => self.push_var(number),
            TermView::Int(value) => self.push_int(value),
            TermView::App(head, args) => self.push_app(head, args, 0),
        }
    }

    /// Puts a formula behind the formulas. After a refusal the nodes are as before.
    pub(crate) fn push_form(&mut self, node: FormNode<'_>) -> Result<(), OutOfMemory>
        ensures added { OnOk result (self.new ≡ deep_form self.old (node_of node.entry)) }
        ensures refused { OnErr result (self.new ≡ self.old) }
    {
        store_form(&mut self.forms, &mut self.load_arguments, node)
    }

    /// The node at the place of a term.
    #[inline]
    pub(crate) fn term(&self, at: usize) -> TermView<'_>
        requires { at < length self.now.nodes.terms }
        ensures { slice_get self.now.nodes.terms at ≡ Some (node_of_term result) }
    {
        shown_term(&self.arguments, &self.terms[at])
    }

    /// The node at the place of a formula.
    #[inline]
    pub(crate) fn form(&self, at: usize) -> FormNode<'_>
        requires { at < length self.now.nodes.forms }
        ensures { slice_get self.now.nodes.forms at ≡ Some (node_of result) }
    {
        shown_form(&self.load_arguments, &self.forms[at])
    }

    /// The depth of the term at a place.
    pub(crate) fn depth(&self, at: usize) -> u32
        requires { at < length self.now.depths }
        ensures { result ≡ slice_index self.now.depths at }
    {
        stored_depth(self.terms[at])
    }

    /// How many terms there are.
    pub(crate) fn count(&self) -> usize
        ensures { result ≡ length self.now.nodes.terms }
    {
        self.terms.len()
    }

    /// The numbers of terms, of formulas, and of the arguments of each.
    pub(crate) fn size(&self) -> BankSize
        ensures { result ≡ size_of self.now.nodes }
    {
        BankSize {
            terms: self.terms.len(),
            forms: self.forms.len(),
            arguments: self.arguments.len(),
            load_arguments: self.load_arguments.len(),
        }
    }

    /// Leaves the first nodes, as many as the size counts.
    pub(crate) fn cut(&mut self, size: BankSize)
        requires { size_of (front self.old.nodes size) ≡ size }
        ensures { self.new ≡ deep_front self.old size }
    {
        self.terms.truncate(size.terms);
        self.forms.truncate(size.forms);
        self.arguments.truncate(size.arguments);
        self.load_arguments.truncate(size.load_arguments);
    }

    /// A copy of the first nodes, as many as the size counts.
    pub(crate) fn image(&self, size: BankSize) -> Result<Flat, OutOfMemory>
        requires { size_of (front self.now.nodes size) ≡ size }
        ensures { IfOk result (λ image. image ≡ deep_front self.now size) }
    {
        let alloc = self.alloc();
        let terms = Vec::from_slice(alloc, &self.terms[..size.terms])?;
        let forms = Vec::from_slice(alloc, &self.forms[..size.forms])?;
        let arguments = Vec::from_slice(alloc, &self.arguments[..size.arguments])?;
        let load_arguments = Vec::from_slice(alloc, &self.load_arguments[..size.load_arguments])?;
        Ok(Flat {
            terms,
            forms,
            arguments,
            load_arguments,
        })
    }

    /// Whether other nodes are the same: as many, and each the same at its place, with the same depth.
    pub(crate) fn is_same(&self, other: &Flat) -> bool
        ensures { IsTrue result → self.now ≡ other.now }
    {
        self.size() == other.size()
            && are_same_terms(&self.terms, &other.terms)
            && are_same_forms(&self.forms, &other.forms)
            && are_same_children(&self.arguments, &other.arguments)
            && are_same_children(&self.load_arguments, &other.load_arguments)
    }
}

/// Whether stored terms are the same.
fn are_same_terms(terms: &[StoredTerm], others: &[StoredTerm]) -> bool
    ensures { IsTrue result → terms.now ≡ others.now }
{
    terms == others
}

/// Whether stored formulas are the same.
fn are_same_forms(forms: &[StoredForm], others: &[StoredForm]) -> bool
    ensures { IsTrue result → forms.now ≡ others.now }
{
    forms == others
}

/// Whether children are the same places.
fn are_same_children(children: &[At], others: &[At]) -> bool
    ensures { IsTrue result → children.now ≡ others.now }
{
    children == others
}

/// A number as 32 bits hold it. A number that they do not hold is refused as out of memory.
pub(crate) fn in_32_bits(number: usize) -> Result<u32, OutOfMemory>
    ensures { IfOk result (λ same. same ≡ number) }
{
    match u32::try_from(number) {
        Ok(number) => Ok(number),
        Err(_) => Err(AllocError),
    }
}

/// The span of so many children from a place on.
fn span_behind(from: usize, count: usize) -> Result<Span, OutOfMemory>
    ensures { IfOk result (λ span. span ≡ span_from from count) }
{
    let Some(to) = from.checked_add(count) else {
        return Err(AllocError);
    };
    let from = in_32_bits(from)?;
    let to = in_32_bits(to)?;
    Ok(Span { from, to })
}

/// Puts a head behind the terms and its arguments behind the children. After a refusal both are as before.
fn store_app(
    terms: &mut Vec<StoredTerm>,
    arguments: &mut Vec<At>,
    head: Head,
    args: &[At],
    depth: u32,
) -> Result<(), OutOfMemory>
    ensures stored { OnOk result (terms.new.items
        ≡ terms.old.items ++ StoredApp depth head (span_from (length arguments.old.items) (length args.now)) ∷ []) }
    ensures behind { OnOk result (arguments.new.items ≡ arguments.old.items ++ args.now) }
    ensures refused_terms { OnErr result (terms.new.items ≡ terms.old.items) }
    ensures refused_arguments { OnErr result (arguments.new.items ≡ arguments.old.items) }
{
    let from = arguments.len();
    let span = span_behind(from, args.len())?;
    arguments.extend_from_slice(args)?;
    if let Err(refused) = terms.push(StoredTerm::App(depth, head, span)) {
        arguments.truncate(from);
        return Err(OutOfMemory::from(refused));
    }
    Ok(())
}

/// Puts a formula behind the formulas and its arguments behind the children. After a refusal both are as before.
fn store_form(
    forms: &mut Vec<StoredForm>,
    arguments: &mut Vec<At>,
    node: FormNode<'_>,
) -> Result<(), OutOfMemory>
    ensures stored { OnOk result (forms.new.items
        ≡ forms.old.items ++ stored_as (length arguments.old.items) node.entry ∷ []) }
    ensures behind { OnOk result (arguments.new.items ≡ arguments.old.items ++ load_arguments_of node.entry) }
    ensures refused_forms { OnErr result (forms.new.items ≡ forms.old.items) }
    ensures refused_arguments { OnErr result (arguments.new.items ≡ arguments.old.items) }
{
    let from = arguments.len();
    let form = stored_form(arguments, node)?;
    if let Err(refused) = forms.push(form) {
        arguments.truncate(from);
        return Err(OutOfMemory::from(refused));
    }
    Ok(())
}

/// The node as it is stored, with its arguments behind the children. After a refusal the children are as before.
fn stored_form(arguments: &mut Vec<At>, node: FormNode<'_>) -> Result<StoredForm, OutOfMemory>
    ensures stored { IfOk result (λ form. form ≡ stored_as (length arguments.old.items) node.entry) }
    ensures behind { OnOk result (arguments.new.items ≡ arguments.old.items ++ load_arguments_of node.entry) }
    ensures refused { OnErr result (arguments.new.items ≡ arguments.old.items) }
{
    match node {
        FormNode::Top => Ok(StoredForm::Top),
        FormNode::One => Ok(StoredForm::One),
        FormNode::Atom(atom) => Ok(StoredForm::Atom(atom)),
        FormNode::With(left, right) => Ok(StoredForm::With(left, right)),
        FormNode::Tensor(left, right) => Ok(StoredForm::Tensor(left, right)),
        FormNode::Plus(left, right) => Ok(StoredForm::Plus(left, right)),
        FormNode::Bang(goal) => Ok(StoredForm::Bang(goal)),
        FormNode::Lolli(clause, goal) => Ok(StoredForm::Lolli(clause, goal)),
        FormNode::Imp(clause, goal) => Ok(StoredForm::Imp(clause, goal)),
        FormNode::Forall(body) => Ok(StoredForm::Forall(body)),
        FormNode::Exists(body) => Ok(StoredForm::Exists(body)),
        FormNode::Use(module, args, goal) => {
            let span = span_behind(arguments.len(), args.len())?;
            arguments.extend_from_slice(args)?;
            Ok(StoredForm::Use(module, span, goal))
        }
        FormNode::Is(left, right) => Ok(StoredForm::Is(left, right)),
        FormNode::Less(left, right) => Ok(StoredForm::Less(left, right)),
        FormNode::Most(left, right) => Ok(StoredForm::Most(left, right)),
    }
}

/// A stored term as callers see it.
#[inline]
fn shown_term<'a>(children: &'a [At], term: &StoredTerm) -> TermView<'a>
    requires { IsTermStored children.now term.now }
    ensures { node_of_term result ≡ term_node children.now term.now }
{
    match *term {
        StoredTerm::Var(number) => TermView::Var(number),
        StoredTerm::Int(value) => TermView::Int(value),
        StoredTerm::App(_, head, args) => {
            TermView::App(head, &children[args.from as usize..args.to as usize])
        }
    }
}

/// The depth that a stored term has.
fn stored_depth(term: StoredTerm) -> u32
    ensures { result ≡ stored_term_depth term }
{
    match term {
        StoredTerm::App(depth, _, _) => depth,
        StoredTerm::Var(_) | StoredTerm::Int(_) => 0,
    }
}

/// A stored formula as callers see it.
#[inline]
fn shown_form<'a>(children: &'a [At], form: &StoredForm) -> FormNode<'a>
    requires { IsFormStored children.now form.now }
    ensures { node_of result ≡ form_node children.now form.now }
{
    match *form {
        StoredForm::Top => FormNode::Top,
        StoredForm::One => FormNode::One,
        StoredForm::Atom(atom) => FormNode::Atom(atom),
        StoredForm::With(left, right) => FormNode::With(left, right),
        StoredForm::Tensor(left, right) => FormNode::Tensor(left, right),
        StoredForm::Plus(left, right) => FormNode::Plus(left, right),
        StoredForm::Bang(goal) => FormNode::Bang(goal),
        StoredForm::Lolli(clause, goal) => FormNode::Lolli(clause, goal),
        StoredForm::Imp(clause, goal) => FormNode::Imp(clause, goal),
        StoredForm::Forall(body) => FormNode::Forall(body),
        StoredForm::Exists(body) => FormNode::Exists(body),
        StoredForm::Use(module, args, goal) => {
            let args = &children[args.from as usize..args.to as usize];
            FormNode::Use(module, args, goal)
        }
        StoredForm::Is(left, right) => FormNode::Is(left, right),
        StoredForm::Less(left, right) => FormNode::Less(left, right),
        StoredForm::Most(left, right) => FormNode::Most(left, right),
    }
}
