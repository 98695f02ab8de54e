//! Heads of clauses, and what an atom asks of them.
ghost use Rattle.std.specs.Prelude.{◌≡◌, true, IfOk, MatchResult, ◌≤◌};
ghost use Rattle.ll_bank.specs.Nodes.{term_tree, HasTerm};
ghost use Rattle.ll_bank.specs.Term.{applies_heads, close, is_spine, place};
ghost use Rattle.ll_bank.specs.Environments.{values_in, IsWithin};
ghost use Rattle.ll_bind.specs.Built.{begins_fixed};
ghost use Rattle.ll_unify.specs.Bindings.{IsTable, IsPlaceOf, count};
ghost use Rattle.ll_store.specs.Tables.{table_of};
ghost use Rattle.ll_index.specs.First.{sign_of, first_of, signs_clash};
ghost use Rattle.ll_engine.specs.Leaves.{IsPredicate, has_predicate};
ghost use Rattle.ll_engine.specs.Taking.{read_in};
ghost use Rattle.ll_engine.specs.Matches.{AsksFor, head_fits, read_by, HasCellsIn};

use ll_bank::{At, Bank, Environment, Head, OutOfMemory, TermView};
use ll_index::First;
use ll_store::Store;
use ll_unify::{Bindings, walk};
use std::alloc::AllocError;

/// A head with a number of arguments.
#[derive(Clone, Copy)]
pub struct Predicate {
    pub head: Head,
    pub arity: usize,
}

/// What an atom asks of the head of a clause.
#[derive(Clone, Copy)]
pub struct Asked {
    pub predicate: Predicate,
    /// The outermost sign of the atom's first argument, read under the bindings that are there.
    pub first: First,
}

/// What an atom asks of heads. Its free bound places stand for the variables of an environment.
pub fn asked_by(store: &Store, environment: Environment, atom: At) -> Result<Asked, OutOfMemory>
    requires table { IsTable store.now.bank (table_of store.now.cells.cells) }
    requires within { IsWithin (count (table_of store.now.cells.cells)) environment }
    requires inside { HasTerm store.now.bank atom.0 }
    requires begins { begins_fixed (term_tree store.now.bank atom.0) ≡ true }
    requires cells { HasCellsIn store.now (close (values_in environment) (term_tree store.now.bank atom.0)) }
    requires heads { applies_heads (close (values_in environment) (term_tree store.now.bank atom.0)) ≡ true }
    ensures { IfOk result (AsksFor store.now (close (values_in environment) (term_tree store.now.bank atom.0))) }
{
    let Some(predicate) = predicate_at(&store.bank, atom) else {
        unreachable!()
    };
    let first = first_in(store, environment, atom)?;
    Ok(Asked { predicate, first })
}

/// Whether the head of a clause can match an atom that asks for this.
#[inline(always)]
pub fn can_match(store: &Store, asked: Asked, head: At) -> Result<bool, OutOfMemory>
    requires table { IsTable store.now.bank (table_of store.now.cells.cells) }
    requires inside { HasTerm store.now.bank head.0 }
    requires cells { HasCellsIn store.now (term_tree store.now.bank head.0) }
    ensures { IfOk result (λ can. can ≡ head_fits store.now asked (term_tree store.now.bank head.0)) }
{
    if !has_predicate(&store.bank, head, asked.predicate) {
        return Ok(false);
    }
    let first = first_under(store, head)?;
    Ok(!clash(asked.first, first))
}

/// The predicate of a term as it stands.
fn predicate_at(bank: &Bank, at: At) -> Option<Predicate>
    requires { HasTerm bank.now at.0 }
    ensures { IsPredicate (term_tree bank.now at.0) result }
{
    match bank.term_at(at) {
        TermView::Var(_) => None,
        TermView::Int(_) => None,
        TermView::App(head, args) => Some(Predicate {
            head,
            arity: args.len(),
        }),
    }
}

/// Whether a term has a predicate.
fn has_predicate(bank: &Bank, at: At, predicate: Predicate) -> bool
    requires { HasTerm bank.now at.0 }
    ensures { result ≡ has_predicate predicate (term_tree bank.now at.0) }
{
    match predicate_at(bank, at) {
        Some(other) => predicate.head == other.head && predicate.arity == other.arity,
        None => false,
    }
}

/// The outermost sign of the first argument of an atom whose free bound places stand for variables, read under the bindings that are there.
fn first_in(store: &Store, environment: Environment, at: At) -> Result<First, OutOfMemory>
    requires table { IsTable store.now.bank (table_of store.now.cells.cells) }
    requires within { IsWithin (count (table_of store.now.cells.cells)) environment }
    requires inside { HasTerm store.now.bank at.0 }
    requires begins { begins_fixed (term_tree store.now.bank at.0) ≡ true }
    requires cells { HasCellsIn store.now (close (values_in environment) (term_tree store.now.bank at.0)) }
    requires heads { applies_heads (close (values_in environment) (term_tree store.now.bank at.0)) ≡ true }
    ensures { IfOk result (λ first. first
        ≡ first_of (read_by store.now (close (values_in environment) (term_tree store.now.bank at.0)))) }
{
    match store.bank.term_at(at) {
        TermView::App(_, args) => {
            if args.is_empty() {
                return Ok(First::Open);
            }
            sign_in(store, environment, args[0])
        }
        TermView::Var(_) => Ok(First::Open),
        TermView::Int(_) => Ok(First::Open),
    }
}

/// The outermost sign of a term whose free bound places stand for variables, read under the bindings that are there.
fn sign_in(store: &Store, environment: Environment, at: At) -> Result<First, OutOfMemory>
    requires table { IsTable store.now.bank (table_of store.now.cells.cells) }
    requires within { IsWithin (count (table_of store.now.cells.cells)) environment }
    requires inside { HasTerm store.now.bank at.0 }
    requires cells { HasCellsIn store.now (close (values_in environment) (term_tree store.now.bank at.0)) }
    requires heads { applies_heads (close (values_in environment) (term_tree store.now.bank at.0)) ≡ true }
    ensures { IfOk result (λ sign. sign
        ≡ sign_of (read_by store.now (close (values_in environment) (term_tree store.now.bank at.0)))) }
{
    match store.bank.term_at(at) {
        TermView::App(Head::Name(name), args) => {
            let arity = in_32_bits(args.len())?;
            Ok(First::Head(name, arity))
        }
        TermView::App(Head::Eigen(_), _) => Ok(First::Open),
        TermView::App(Head::Bound(bound), _) => sign_of_bound(store, environment, bound),
        TermView::Var(_) => sign_under(store, at),
        TermView::Int(value) => Ok(First::Int(value)),
    }
}

/// The outermost sign of what a bound place stands for, read under the bindings that are there.
fn sign_of_bound(store: &Store, environment: Environment, bound: u32) -> Result<First, OutOfMemory>
    requires table { IsTable store.now.bank (table_of store.now.cells.cells) }
    requires within { IsWithin (count (table_of store.now.cells.cells)) environment }
    requires cells { HasCellsIn store.now (place (values_in environment) bound 0) }
    ensures { IfOk result (λ sign. sign ≡ sign_of (read_by store.now (place (values_in environment) bound 0))) }
{
    let Some(var) = environment.variable(bound) else {
        return Ok(First::Open);
    };
    match Bindings::value(&store.cells, var) {
        Some(to) => sign_under(store, to),
        None => Ok(First::Open),
    }
}

/// The outermost sign of the first argument of a term, read under the bindings that are there.
fn first_under(store: &Store, at: At) -> Result<First, OutOfMemory>
    requires table { IsTable store.now.bank (table_of store.now.cells.cells) }
    requires inside { HasTerm store.now.bank at.0 }
    requires cells { HasCellsIn store.now (term_tree store.now.bank at.0) }
    requires spine { is_spine (term_tree store.now.bank at.0) ≡ true }
    ensures { IfOk result (λ first. first ≡ first_of (read_in store.now at)) }
{
    match store.bank.term_at(at) {
        TermView::App(_, args) => {
            if args.is_empty() {
                return Ok(First::Open);
            }
            sign_under(store, args[0])
        }
        TermView::Var(_) => Ok(First::Open),
        TermView::Int(_) => Ok(First::Open),
    }
}

/// The outermost sign of a term, read under the bindings that are there.
fn sign_under(store: &Store, at: At) -> Result<First, OutOfMemory>
    requires table { IsTable store.now.bank (table_of store.now.cells.cells) }
    requires place { IsPlaceOf store.now.bank (table_of store.now.cells.cells) at.0 }
    ensures { IfOk result (λ sign. sign ≡ sign_of (read_in store.now at)) }
{
    let end = walk(&store.bank, &store.cells, at);
    match store.bank.term_at(end) {
        TermView::App(Head::Name(name), args) => {
            let arity = in_32_bits(args.len())?;
            Ok(First::Head(name, arity))
        }
        TermView::App(Head::Eigen(_), _) => Ok(First::Open),
        TermView::App(Head::Bound(_), _) => Ok(First::Open),
        TermView::Var(_) => Ok(First::Open),
        TermView::Int(value) => Ok(First::Int(value)),
    }
}

/// Whether no term has both signs.
fn clash(first: First, other: First) -> bool
    ensures { result ≡ signs_clash first other }
{
    match first {
        First::Open => false,
        First::Int(value) => match other {
            First::Open => false,
            First::Int(number) => value != number,
            First::Head(_, _) => true,
        },
        First::Head(name, arity) => match other {
            First::Open => false,
            First::Int(_) => true,
            First::Head(second, count) => !(name == second && arity == count),
        },
    }
}

/// A number as 32 bits hold it, where they do. No term of a search has so many arguments that they don't.
pub fn in_32_bits(number: usize) -> Result<u32, OutOfMemory>
    ensures { MatchResult result (λ same. same ≡ number) (λ _. 4294967296 ≤ number) }
{
    match u32::try_from(number) {
        Ok(number) => Ok(number),
        Err(_) => Err(AllocError),
    }
}
