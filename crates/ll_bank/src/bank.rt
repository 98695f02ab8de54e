//! Terms and formulas, each at a place.
ghost use Rattle.std.specs.Prelude.{◌≡◌, ◌<◌, length, Some, IfOk, OnOk, OnErr, IsTrue, All, slice_get};
ghost use Rattle.ll_bank.specs.Term.{Var as VarTerm, Int as IntTerm, app as app_term, term_depth};
ghost use Rattle.ll_bank.specs.Nodes.{no_nodes, VarNode, IntNode, AppNode, places, node_of_term, node_of, with_term, with_form, term_tree, term_trees};
ghost use Rattle.ll_bank.specs.Nodes.{form_of, HasTerm, HasForm, AllInTerms, HasParts, ShowsTerm, ShowsForm, Extends, IsTermView, IsFormView, IsTermBelow};
ghost use Rattle.ll_bank.specs.Nodes.{size_of, HasSize, IsCutTo};
ghost use Rattle.ll_bank.specs.Kept.{depth_over};

use crate::flat::{Flat, in_32_bits};
use crate::{At, BankSize, FormAt, FormNode, Head, OutOfMemory, TermView};
use std::alloc::Global;
use std::marker::Model;

/// Terms and formulas, each at a place, whose parts lie at lower places.
///
/// Contracts see the list of its nodes, and a place as the tree that it shows. No call that adds places changes the tree of a place that
/// it has. Where a bank would come to more than 4,294,967,295 arguments of terms, or of loads, a call answers that memory ran out.
pub struct Bank {
    flat: Flat,
}

// Written out, so that a proof sees one call where it goes, and not one for each part.
impl Drop for Bank {
    fn drop(self) {
        let Bank { flat: _ } = self;
    }
}

impl Model for Bank {
    ghost use Rattle.ll_bank.specs.Nodes.{Nodes};

    ghost Value = { Nodes };

    ghost use Rattle.ll_bank.specs.Kept.{IsKept};

    ghost view = { λ bank. bank.flat.nodes };

    ghost invariant = { λ bank. IsKept bank.flat.nodes bank.flat.depths };
}

impl Bank {
    /// A bank without terms and formulas.
    pub fn new(alloc: Global) -> Self
        ensures { result ≡ no_nodes }
    {
        Bank {
            flat: Flat::new(alloc),
        }
    }

    /// The variable with this number. After a refusal the bank is as before.
    pub fn var(&mut self, number: u64) -> Result<At, OutOfMemory>
        ensures shows { IfOk result (λ at. ShowsTerm self.new at.0 (VarTerm number)) }
        ensures added { OnOk result (self.new ≡ with_term self.old (VarNode number)) }
        ensures keeps { Extends self.old self.new }
        ensures refused { OnErr result (self.new ≡ self.old) }
    {
        let at = At(self.flat.count());
        self.flat.push_var(number)?;
        Ok(at)
    }

    /// A whole number. After a refusal the bank is as before.
    pub fn int(&mut self, value: i64) -> Result<At, OutOfMemory>
        ensures shows { IfOk result (λ at. ShowsTerm self.new at.0 (IntTerm value)) }
        ensures added { OnOk result (self.new ≡ with_term self.old (IntNode value)) }
        ensures keeps { Extends self.old self.new }
        ensures refused { OnErr result (self.new ≡ self.old) }
    {
        let at = At(self.flat.count());
        self.flat.push_int(value)?;
        Ok(at)
    }

    /// A head with arguments. After a refusal the bank is as before.
    pub fn app(&mut self, head: Head, args: &[At]) -> Result<At, OutOfMemory>
        requires { AllInTerms self.old args.now }
        ensures shows { IfOk result (λ at. ShowsTerm self.new at.0 (app_term head (term_trees self.old args.now))) }
        ensures added { OnOk result (self.new ≡ with_term self.old (AppNode head (places args.now))) }
        ensures keeps { Extends self.old self.new }
        ensures refused { OnErr result (self.new ≡ self.old) }
    {
        let at = At(self.flat.count());
        let depth = in_32_bits(deepest(&self.flat, args))?;
        self.flat.push_app(head, args, depth)?;
        Ok(at)
    }

    /// The formula that the node builds. After a refusal the bank is as before.
    pub fn form(&mut self, node: FormNode<'_>) -> Result<FormAt, OutOfMemory>
        requires { HasParts self.old node }
        ensures shows { IfOk result (λ at. ShowsForm self.new at.0 (form_of self.old node.entry)) }
        ensures added { OnOk result (self.new ≡ with_form self.old (node_of node.entry)) }
        ensures keeps { Extends self.old self.new }
        ensures refused { OnErr result (self.new ≡ self.old) }
    {
        let at = FormAt(self.flat.size().forms);
        self.flat.push_form(node)?;
        Ok(at)
    }

    /// What stands at the place of a term.
    #[inline]
    pub fn term_at(&self, at: At) -> TermView<'_>
        requires { HasTerm self.now at.0 }
        ensures shown { IsTermView self.now at.0 result }
        ensures node { slice_get self.now.terms at.0 ≡ Some (node_of_term result) }
    {
        self.flat.term(at.0)
    }

    /// What stands at the place of a formula.
    #[inline]
    pub fn form_at(&self, at: FormAt) -> FormNode<'_>
        requires { HasForm self.now at.0 }
        ensures shown { IsFormView self.now at.0 result }
        ensures node { slice_get self.now.forms at.0 ≡ Some (node_of result) }
    {
        self.flat.form(at.0)
    }

    /// The depth of a term: 0 without arguments, else one more than that of its deepest argument. It takes constant time.
    pub fn depth(&self, at: At) -> usize
        requires { HasTerm self.now at.0 }
        ensures { result ≡ term_depth (term_tree self.now at.0) }
    {
        self.flat.depth(at.0) as usize
    }

    /// The numbers of terms, of formulas, and of the children of each.
    pub fn size(&self) -> BankSize
        ensures is { result ≡ size_of self.now }
        ensures had { HasSize self.now result }
    {
        self.flat.size()
    }

    /// Leaves the places of a size, with their trees. The others go.
    pub fn cut(&mut self, size: BankSize)
        requires { HasSize self.old size }
        ensures { IsCutTo size self.old self.new }
    {
        self.flat.cut(size);
    }

    /// A bank with exactly the places of a size, each with its tree.
    pub fn image(&self, size: BankSize) -> Result<Bank, OutOfMemory>
        requires { HasSize self.now size }
        ensures { IfOk result (IsCutTo size self.now) }
    {
        let flat = self.flat.image(size)?;
        Ok(Bank { flat })
    }

    /// Whether the other bank has the same nodes at the same places. Numbers of nodes are compared first, and it takes no memory.
    pub fn is_same(&self, other: &Bank) -> bool
        ensures { IsTrue result → self.now ≡ other.now }
    {
        self.flat.is_same(&other.flat)
    }

    /// The term that the node builds. After a refusal the bank is as before.
    pub(crate) fn add_term(&mut self, node: TermView<'_>) -> Result<(), OutOfMemory>
        requires { IsTermBelow (length self.old.terms) (node_of_term node) }
        ensures added { OnOk result (self.new ≡ with_term self.old (node_of_term node.entry)) }
        ensures keeps { Extends self.old self.new }
        ensures refused { OnErr result (self.new ≡ self.old) }
    {
        match node {
            TermView::Var(number) => self.var(number)?,
            TermView::Int(value) => self.int(value)?,
            TermView::App(head, args) => self.app(head, args)?,
        };
        Ok(())
    }

    /// What the bank takes memory from.
    pub fn alloc(&self) -> Global {
        self.flat.alloc()
    }
}

/// One more than the depth of the deepest argument, or 0 without arguments.
fn deepest(flat: &Flat, args: &[At]) -> usize
    requires { All (λ a. a.0 < length flat.now.depths) args.now }
    ensures { result ≡ depth_over flat.now.depths args.now }
{
    let mut deepest = 0;
    for arg in args {
        deepest = deepest.max(flat.depth(arg.0) as usize + 1);
    }
    deepest
}
