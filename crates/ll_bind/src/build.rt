//! Patterns with their bound places closed.
ghost use Rattle.std.specs.Prelude.{◌≡◌, ◌<◌, ◌≤◌, true, All, IfOk, OnOk};
ghost use Rattle.ll_bank.specs.Term.{Var, Con, close, applies_heads, not_bound};
ghost use Rattle.ll_bank.specs.Nodes.{term_tree, term_trees, HasTerm, AllInTerms, Extends, ShowsTerm};
ghost use Rattle.ll_bank.specs.Closing.{env_of};
ghost use Rattle.ll_unify.specs.Bindings.{IsTable, HasCells, count};
ghost use Rattle.ll_unify.specs.Spines.{args_in};
ghost use Rattle.ll_bank.specs.Environments.{values_in, IsWithin};
ghost use Rattle.ll_store.specs.Tables.{table_of};
ghost use Rattle.ll_bind.specs.Built.{ShowsSame, IsFlat, is_bare, AreBuilt, begins_fixed, IsShape, IsBareShape, AreShapes};

use ll_bank::{At, Bank, Environment, Head, OutOfMemory, TermView, Values, close_term};
use ll_store::Store;
use ll_unify::Bindings;

/// So many arguments are put together without memory for a list.
const FEW: usize = 8;

/// What a pattern looks like, where so many of its bound places stand for variables.
#[derive(Clone, Copy)]
pub enum Shape {
    /// It has no bound place, so it stays as it is.
    Kept,
    /// It is a bound place that stands for a variable.
    Bare,
    /// Few arguments that are kept or bare, and a head that is no bound place.
    Flat,
    /// Anything else.
    Deep,
}

/// A place that stands for a variable: what it is bound to, or a new place of it. After a refusal the store is as before.
#[inline]
pub fn value_of(store: &mut Store, var: usize) -> Result<At, OutOfMemory>
    requires table { IsTable store.old.bank (table_of store.old.cells.cells) }
    requires below { var < count (table_of store.old.cells.cells) }
    requires vars { HasCells store.old.bank (table_of store.old.cells.cells) (Var var) }
    ensures same { IfOk result (λ at. ShowsSame store.new.bank (table_of store.old.cells.cells) at.0 (Var var)) }
    ensures keeps { Extends store.old.bank store.new.bank }
    ensures cells { store.new.cells ≡ store.old.cells }
{
    match Bindings::value(&store.cells, var) {
        Some(to) => Ok(to),
        None => store.bank.var(var as u64),
    }
}

/// Puts places of an atom's arguments into a list, in place of what it has: each shows what the argument is with its bound places closed,
/// or what that is bound to. What holds no bound place is shared. After a refusal the bank may have more places, and the list any.
pub fn read_args(
    store: &mut Store,
    environment: Environment,
    atom: At,
    args: &mut Vec<At>,
) -> Result<(), OutOfMemory>
    requires table { IsTable store.old.bank (table_of store.old.cells.cells) }
    requires within { IsWithin (count (table_of store.old.cells.cells)) environment }
    requires atom { HasTerm store.old.bank atom.0 }
    requires heads { applies_heads (close (values_in environment) (term_tree store.old.bank atom.0)) ≡ true }
    requires vars { HasCells store.old.bank (table_of store.old.cells.cells)
        (close (values_in environment) (term_tree store.old.bank atom.0)) }
    requires begins { begins_fixed (term_tree store.old.bank atom.0) ≡ true }
    ensures built { OnOk result (AreBuilt store.new.bank (table_of store.old.cells.cells) (values_in environment)
        (args_in (term_tree store.old.bank atom.0)) args.new.items) }
    ensures keeps { Extends store.old.bank store.new.bank }
    ensures cells { store.new.cells ≡ store.old.cells }
{
    put_args(&store.bank, atom, args)?;
    if environment.count == 0 {
        return Ok(());
    }
    build_all(store, args, environment)
}

/// Puts the places of a term's arguments into a list, in place of what it has.
#[inline]
fn put_args(bank: &Bank, at: At, args: &mut Vec<At>) -> Result<(), OutOfMemory>
    requires { HasTerm bank.now at.0 }
    ensures inside { OnOk result (AllInTerms bank.now args.new.items) }
    ensures trees { OnOk result (term_trees bank.now args.new.items ≡ args_in (term_tree bank.now at.0)) }
{
    args.clear();
    match bank.term_at(at) {
        TermView::Var(_) => Ok(()),
        TermView::Int(_) => Ok(()),
        TermView::App(_, places) => args.extend_from_slice(places),
    }
}

/// Puts in place of each pattern a place that stands for it with its bound places closed. After a refusal some are in place.
fn build_all(
    store: &mut Store,
    patterns: &mut [At],
    environment: Environment,
) -> Result<(), OutOfMemory>
    requires table { IsTable store.old.bank (table_of store.old.cells.cells) }
    requires within { IsWithin (count (table_of store.old.cells.cells)) environment }
    requires patterns { AllInTerms store.old.bank patterns.old }
    requires heads { All (λ u. applies_heads (close (values_in environment) u) ≡ true)
        (term_trees store.old.bank patterns.old) }
    requires vars { All (λ u. HasCells store.old.bank (table_of store.old.cells.cells) (close (values_in environment) u))
        (term_trees store.old.bank patterns.old) }
    ensures built { OnOk result (AreBuilt store.new.bank (table_of store.old.cells.cells) (values_in environment)
        (term_trees store.old.bank patterns.old) patterns.new) }
    ensures keeps { Extends store.old.bank store.new.bank }
    ensures cells { store.new.cells ≡ store.old.cells }
{
    for index in 0..patterns.len() {
        patterns[index] = build(store, patterns[index], environment)?;
    }
    Ok(())
}

/// A place that stands for a pattern with its bound places closed: the pattern's own where it has none. What a variable of the environment
/// is bound to stands for it where it is the pattern, or where the arguments of the pattern have none themselves. After a refusal the bank
/// may have more places.
#[inline]
pub fn build(store: &mut Store, pattern: At, environment: Environment) -> Result<At, OutOfMemory>
    requires table { IsTable store.old.bank (table_of store.old.cells.cells) }
    requires within { IsWithin (count (table_of store.old.cells.cells)) environment }
    requires pattern { HasTerm store.old.bank pattern.0 }
    requires heads { applies_heads (close (values_in environment) (term_tree store.old.bank pattern.0)) ≡ true }
    requires vars { HasCells store.old.bank (table_of store.old.cells.cells)
        (close (values_in environment) (term_tree store.old.bank pattern.0)) }
    ensures same { IfOk result (λ at. ShowsSame store.new.bank (table_of store.old.cells.cells) at.0
        (close (values_in environment) (term_tree store.old.bank pattern.0))) }
    ensures keeps { Extends store.old.bank store.new.bank }
    ensures cells { store.new.cells ≡ store.old.cells }
{
    match shape_of(&store.bank, pattern, environment.count) {
        Shape::Kept => Ok(pattern),
        Shape::Bare => build_bare(store, pattern, environment),
        Shape::Flat => build_flat(store, pattern, environment),
        Shape::Deep => build_deep(store, pattern, environment),
    }
}

/// What a pattern looks like.
#[inline]
fn shape_of(bank: &Bank, pattern: At, count: u32) -> Shape
    requires { HasTerm bank.now pattern.0 }
    ensures { IsShape count (term_tree bank.now pattern.0) result }
{
    match bank.term_at(pattern) {
        TermView::Var(_) => Shape::Kept,
        TermView::Int(_) => Shape::Kept,
        TermView::App(head, args) => {
            if args.is_empty() {
                return head_shape(head, count);
            }
            if args.len() > FEW {
                return Shape::Deep;
            }
            if !is_fixed(head) {
                return Shape::Deep;
            }
            args_shape(bank, args, count)
        }
    }
}

/// Whether a head is no bound place.
#[inline]
fn is_fixed(head: Head) -> bool
    ensures { result ≡ not_bound head }
{
    match head {
        Head::Bound(_) => false,
        Head::Name(_) => true,
        Head::Eigen(_) => true,
    }
}

/// What arguments look like together: kept, flat or deep.
fn args_shape(bank: &Bank, args: &[At], count: u32) -> Shape
    requires { AllInTerms bank.now args.now }
    ensures { AreShapes count (term_trees bank.now args.now) result }
{
    let mut shape = Shape::Kept;
    for arg in args {
        match bare_shape(bank, *arg, count) {
            Shape::Kept => {}
            Shape::Bare => shape = Shape::Flat,
            _ => return Shape::Deep,
        }
    }
    shape
}

/// What a term looks like, if it has no arguments: kept or bare. Otherwise it is deep.
#[inline]
fn bare_shape(bank: &Bank, at: At, count: u32) -> Shape
    requires { HasTerm bank.now at.0 }
    ensures { IsBareShape count (term_tree bank.now at.0) result }
{
    match bank.term_at(at) {
        TermView::Var(_) => Shape::Kept,
        TermView::Int(_) => Shape::Kept,
        TermView::App(head, args) => {
            if args.is_empty() {
                head_shape(head, count)
            } else {
                Shape::Deep
            }
        }
    }
}

/// What a head without arguments looks like: kept, bare or deep.
#[inline]
fn head_shape(head: Head, count: u32) -> Shape
    ensures { IsBareShape count (Con head) result }
{
    match head {
        Head::Bound(bound) => {
            if bound < count {
                Shape::Bare
            } else {
                Shape::Deep
            }
        }
        Head::Name(_) => Shape::Kept,
        Head::Eigen(_) => Shape::Kept,
    }
}

/// The same for a pattern that is flat.
fn build_flat(store: &mut Store, pattern: At, environment: Environment) -> Result<At, OutOfMemory>
    requires table { IsTable store.old.bank (table_of store.old.cells.cells) }
    requires within { IsWithin (count (table_of store.old.cells.cells)) environment }
    requires pattern { HasTerm store.old.bank pattern.0 }
    requires flat { IsFlat environment.count (term_tree store.old.bank pattern.0) }
    requires vars { HasCells store.old.bank (table_of store.old.cells.cells)
        (close (values_in environment) (term_tree store.old.bank pattern.0)) }
    ensures same { IfOk result (λ at. ShowsSame store.new.bank (table_of store.old.cells.cells) at.0
        (close (values_in environment) (term_tree store.old.bank pattern.0))) }
    ensures keeps { Extends store.old.bank store.new.bank }
    ensures cells { store.new.cells ≡ store.old.cells }
{
    let (head, args) = match store.bank.term_at(pattern) {
        TermView::App(head, args) => (head, args),
        TermView::Var(_) => return Ok(pattern),
        TermView::Int(_) => return Ok(pattern),
    };
    let count = args.len();
    let mut own = [At(0); FEW];
    own[..count].copy_from_slice(args);
    build_each(store, &mut own[..count], environment)?;
    store.bank.app(head, &own[..count])
}

/// Puts in place of each pattern a place that stands for it with its bound places closed. After a refusal some are in place.
fn build_each(
    store: &mut Store,
    patterns: &mut [At],
    environment: Environment,
) -> Result<(), OutOfMemory>
    requires table { IsTable store.old.bank (table_of store.old.cells.cells) }
    requires within { IsWithin (count (table_of store.old.cells.cells)) environment }
    requires patterns { AllInTerms store.old.bank patterns.old }
    requires bare { All (λ u. is_bare environment.count u ≡ true) (term_trees store.old.bank patterns.old) }
    requires vars { All (λ u. HasCells store.old.bank (table_of store.old.cells.cells) (close (values_in environment) u))
        (term_trees store.old.bank patterns.old) }
    ensures built { OnOk result (AreBuilt store.new.bank (table_of store.old.cells.cells) (values_in environment)
        (term_trees store.old.bank patterns.old) patterns.new) }
    ensures keeps { Extends store.old.bank store.new.bank }
    ensures cells { store.new.cells ≡ store.old.cells }
{
    for index in 0..patterns.len() {
        patterns[index] = build_bare(store, patterns[index], environment)?;
    }
    Ok(())
}

/// A place that stands for a pattern without arguments, with its bound place closed.
#[inline]
fn build_bare(store: &mut Store, pattern: At, environment: Environment) -> Result<At, OutOfMemory>
    requires table { IsTable store.old.bank (table_of store.old.cells.cells) }
    requires within { IsWithin (count (table_of store.old.cells.cells)) environment }
    requires pattern { HasTerm store.old.bank pattern.0 }
    requires bare { is_bare environment.count (term_tree store.old.bank pattern.0) ≡ true }
    requires vars { HasCells store.old.bank (table_of store.old.cells.cells)
        (close (values_in environment) (term_tree store.old.bank pattern.0)) }
    ensures same { IfOk result (λ at. ShowsSame store.new.bank (table_of store.old.cells.cells) at.0
        (close (values_in environment) (term_tree store.old.bank pattern.0))) }
    ensures keeps { Extends store.old.bank store.new.bank }
    ensures cells { store.new.cells ≡ store.old.cells }
{
    match store.bank.term_at(pattern) {
        TermView::Var(_) => Ok(pattern),
        TermView::Int(_) => Ok(pattern),
        TermView::App(head, _) => build_head(store, pattern, head, environment),
    }
}

/// A place that stands for a head without arguments, which is shown at a place.
#[inline]
fn build_head(
    store: &mut Store,
    at: At,
    head: Head,
    environment: Environment,
) -> Result<At, OutOfMemory>
    requires table { IsTable store.old.bank (table_of store.old.cells.cells) }
    requires within { IsWithin (count (table_of store.old.cells.cells)) environment }
    requires at { ShowsTerm store.old.bank at.0 (Con head) }
    requires near { is_bare environment.count (Con head) ≡ true }
    requires vars { HasCells store.old.bank (table_of store.old.cells.cells) (close (values_in environment) (Con head)) }
    ensures same { IfOk result (λ at. ShowsSame store.new.bank (table_of store.old.cells.cells) at.0
        (close (values_in environment) (Con head))) }
    ensures keeps { Extends store.old.bank store.new.bank }
    ensures cells { store.new.cells ≡ store.old.cells }
{
    match head {
        Head::Name(_) => Ok(at),
        Head::Eigen(_) => Ok(at),
        Head::Bound(bound) => match environment.variable(bound) {
            Some(var) => value_of(store, var),
            None => Ok(at),
        },
    }
}

/// The same for any pattern.
fn build_deep(store: &mut Store, pattern: At, environment: Environment) -> Result<At, OutOfMemory>
    requires table { IsTable store.old.bank (table_of store.old.cells.cells) }
    requires within { IsWithin (count (table_of store.old.cells.cells)) environment }
    requires pattern { HasTerm store.old.bank pattern.0 }
    requires heads { applies_heads (close (values_in environment) (term_tree store.old.bank pattern.0)) ≡ true }
    requires vars { HasCells store.old.bank (table_of store.old.cells.cells)
        (close (values_in environment) (term_tree store.old.bank pattern.0)) }
    ensures same { IfOk result (λ at. ShowsSame store.new.bank (table_of store.old.cells.cells) at.0
        (close (values_in environment) (term_tree store.old.bank pattern.0))) }
    ensures keeps { Extends store.old.bank store.new.bank }
    ensures cells { store.new.cells ≡ store.old.cells }
{
    let alloc = store.bank.alloc();
    close_term(
        alloc,
        &mut store.bank,
        pattern,
        Values::Variables(environment),
    )
}
