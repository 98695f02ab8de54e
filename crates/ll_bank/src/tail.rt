//! The nodes between two sizes of a bank, which another bank can take over.
ghost use Rattle.std.specs.Prelude.{◌≡◌, ℕ, ◌+◌, ◌<◌, ◌≤◌, length, take, drop, IfOk, OnOk, IsTrue, slice_index_or};
ghost use Rattle.ll_bank.specs.Nodes.{Nodes, TermNode, FormulaNode, IsTermBelow, IsFormBelow, Extends, size_of, HasSize, IsNotPast};
ghost use Rattle.ll_bank.specs.Tail.{IsTailOf, with_nodes, with_terms, with_forms, IsBuilt, SameTrees};

use crate::flat::Flat;
use crate::{At, Bank, BankSize, FormAt, OutOfMemory};
use std::marker::Model;

/// The nodes of a bank between two of its sizes. Contracts see the sizes and the nodes.
pub struct BankTail {
    from: BankSize,
    to: BankSize,
    flat: Flat,
}

// Written out, so that a proof sees one call where it goes, and not one for each part.
impl Drop for BankTail {
    fn drop(self) {
        let BankTail {
            from: _,
            to: _,
            flat: _,
        } = self;
    }
}

impl Model for BankTail {
    ghost use Rattle.ll_bank.specs.Tail.{Tail, IsBehind};

    ghost Value = { Tail };

    ghost view = { λ tail. record { from = tail.from; to = tail.to; nodes = tail.flat.nodes } };

    ghost invariant = { λ tail. IsBehind (record { from = tail.from; to = tail.to; nodes = tail.flat.nodes }) };
}

impl BankTail {
    /// Whether the other tail has the same nodes between the same sizes. The sizes are compared first, and it takes no memory.
    pub fn is_same(&self, other: &BankTail) -> bool
        ensures { IsTrue result → self.now ≡ other.now }
    {
        is_same_size(self.from, other.from)
            && is_same_size(self.to, other.to)
            && self.flat.is_same(&other.flat)
    }
}

/// Whether two sizes are the same.
fn is_same_size(size: BankSize, other: BankSize) -> bool
    ensures { IsTrue result → size ≡ other }
{
    size == other
}

impl Bank {
    /// The nodes between two sizes of the bank.
    pub fn tail(&self, from: BankSize, to: BankSize) -> Result<BankTail, OutOfMemory>
        requires from { HasSize self.now from }
        requires to { HasSize self.now to }
        requires order { IsNotPast from to }
        ensures nodes { IfOk result (IsTailOf self.now) }
        ensures sizes { IfOk result (λ tail. (tail.from ≡ from) × (tail.to ≡ to)) }
    {
        let mut flat = Flat::new(self.alloc());
        copy_terms(self, from.terms, to.terms, &mut flat)?;
        copy_forms(self, from.forms, to.forms, &mut flat)?;
        Ok(BankTail { from, to, flat })
    }

    /// Puts the nodes of the tail behind the bank's, over equal places. The bank has the size at which the tail begins.
    ///
    /// After a refusal the bank may have some of the nodes.
    pub fn extend(&mut self, tail: &BankTail) -> Result<(), OutOfMemory>
        requires { size_of self.old ≡ tail.now.from }
        ensures keeps { Extends self.old self.new }
        ensures added { OnOk result (self.new ≡ with_nodes self.old tail.now.nodes) }
        ensures size { OnOk result (size_of self.new ≡ tail.now.to) }
        ensures built { OnOk result (IsBuilt self.new) }
        // Where the old places show the trees of the tail's bank, the new ones do too.
        ensures same { OnOk result ((bank : Nodes) → IsTailOf bank tail.now → SameTrees tail.now.from bank self.old
            → SameTrees tail.now.to bank self.new) }
    {
        let flat = &tail.flat;
        add_terms(self, flat)?;
        add_forms(self, flat)?;
        let _size = self.size();
        Ok(())
    }
}

/// Copies the terms of a bank from one place up to another.
fn copy_terms(bank: &Bank, from: usize, to: usize, flat: &mut Flat) -> Result<(), OutOfMemory>
    requires order { from ≤ to }
    requires inside { to ≤ length bank.now.terms }
    ensures { OnOk result (flat.new.nodes ≡ with_terms flat.old.nodes (drop from (take to bank.now.terms))) }
{
    for at in from..to {
        flat.push_term(bank.term_at(At(at)))?;
    }
    Ok(())
}

/// Copies the formulas of a bank from one place up to another.
fn copy_forms(bank: &Bank, from: usize, to: usize, flat: &mut Flat) -> Result<(), OutOfMemory>
    requires order { from ≤ to }
    requires inside { to ≤ length bank.now.forms }
    ensures { OnOk result (flat.new.nodes ≡ with_forms flat.old.nodes (drop from (take to bank.now.forms))) }
{
    for at in from..to {
        flat.push_form(bank.form_at(FormAt(at)))?;
    }
    Ok(())
}

/// Puts the terms behind those of the bank. After a refusal the bank may have some of them.
fn add_terms(bank: &mut Bank, flat: &Flat) -> Result<(), OutOfMemory>
    requires { (i : ℕ) (d : TermNode) → i < length flat.now.nodes.terms
        → IsTermBelow (length bank.old.terms + i) (slice_index_or flat.now.nodes.terms i d) }
    ensures keeps { Extends bank.old bank.new }
    ensures added { OnOk result (bank.new ≡ with_terms bank.old flat.now.nodes.terms) }
{
    for i in 0..flat.size().terms {
        bank.add_term(flat.term(i))?;
    }
    Ok(())
}

/// Puts the formulas behind those of the bank. After a refusal the bank may have some of them.
fn add_forms(bank: &mut Bank, flat: &Flat) -> Result<(), OutOfMemory>
    requires { (i : ℕ) (d : FormulaNode) → i < length flat.now.nodes.forms
        → IsFormBelow (length bank.old.terms) (length bank.old.forms + i) (slice_index_or flat.now.nodes.forms i d) }
    ensures keeps { Extends bank.old bank.new }
    ensures added { OnOk result (bank.new ≡ with_forms bank.old flat.now.nodes.forms) }
{
    for i in 0..flat.size().forms {
        bank.form(flat.form(i))?;
    }
    Ok(())
}
