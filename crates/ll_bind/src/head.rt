//! An atom against the head of a clause.
ghost use Rattle.std.specs.Prelude.{not, ◌≡◌, ◌≤◌, ◌<◌, ◌-◌, ◌++◌, ℕ, true, length, reverse, All, IfOk, [], ◌∷◌};
ghost use Rattle.ll_bank.specs.declared.At.{At as AtView};
ghost use Rattle.ll_bank.specs.Term.{Var, Env, head_eq, app, close, applies_heads, not_bound};
ghost use Rattle.ll_bank.specs.Nodes.{Nodes, term_tree, term_trees, HasTerm, AllInTerms, Extends};
ghost use Rattle.ll_unify.specs.Bindings.{IsTable, IsPlaceOf, IsEnd, HasCells, count};
ghost use Rattle.ll_unify.specs.Fresh.{AreFresh, LeavesFresh, StandsNowhere};
ghost use Rattle.ll_unify.specs.Solving.{IsSolved, Settles, wanted};
ghost use Rattle.ll_bank.specs.Environments.{values_in, IsWithin};
ghost use Rattle.ll_store.specs.Stored.{stored, KeepsMarks};
ghost use Rattle.ll_store.specs.Tables.{table_of};
ghost use Rattle.ll_bind.specs.Heads.{equate, pending, IsPaired, IsOpened, IsClosed};
ghost use Rattle.ll_bind.specs.Built.{begins_fixed};

use crate::build::{build, value_of};
use ll_bank::{At, Bank, Environment, Head, OutOfMemory, TermView};
use ll_store::Store;
use ll_unify::{Fresh, bind_new, is_new, unify_end, walk};
use smallvec::SmallVec;

/// The term at a place, and a pattern that it has to match.
#[derive(Clone, Copy)]
pub struct Equation {
    pub place: At,
    pub pattern: At,
}

impl Default for Equation {
    fn default() -> Self {
        Equation {
            place: At(0),
            pattern: At(0),
        }
    }
}

// Equations that are still to be looked at after the next one. Few of them take no memory.
type Equations = SmallVec<Equation, 8>;

/// What a pattern comes to with its bound places closed.
#[derive(Clone, Copy)]
pub enum Closed {
    /// What stands at a place.
    Place(At),
    /// A variable.
    Variable(usize),
    /// It has to be built.
    Unbuilt,
}

/// What becomes of two signs with arguments.
#[derive(Clone, Copy)]
pub enum Paired {
    /// They are one sign with as many arguments. The equation that is next then: that of the first arguments, or one that was pending.
    Same(Option<Equation>),
    /// They differ.
    Apart,
}

/// What becomes of a term and a pattern.
#[derive(Clone, Copy)]
pub enum Opened {
    /// They have one head. The equation that is next then: that of the first arguments, or one that was pending.
    Open(Option<Equation>),
    /// They differ in a sign.
    Clash,
    /// The pattern has to be closed.
    Shut(Closed),
}

/// Whether two heads are one.
#[inline]
fn is_same_head(left: Head, right: Head) -> bool
    ensures { result ≡ head_eq left right }
{
    left == right
}

/// Whether a head is a bound place.
#[inline]
fn is_place(head: Head) -> bool
    ensures { result ≡ not (not_bound head) }
{
    match head {
        Head::Bound(_) => true,
        Head::Name(_) => false,
        Head::Eigen(_) => false,
    }
}

/// Gives the equation of the first arguments, and puts those of the others on the stack, the second on top. Where there are none it
/// takes the newest equation from the stack.
fn push_arguments(
    places: &[At],
    patterns: &[At],
    equations: &mut Equations,
) -> Result<Option<Equation>, OutOfMemory>
    requires { length places.now ≡ length patterns.now }
    ensures { IfOk result (λ next. pending next equations.new.items ≡ equate places.now patterns.now
        ++ reverse equations.old.items) }
{
    let mut left = patterns.len();
    if left == 0 {
        return Ok(equations.pop());
    }
    while left > 1 {
        left -= 1;
        equations.push(Equation {
            place: places[left],
            pattern: patterns[left],
        })?;
    }
    Ok(Some(Equation {
        place: places[0],
        pattern: patterns[0],
    }))
}

/// What a pattern comes to whose head is a bound place.
#[inline]
fn closed_place(head: Head, args: &[At], environment: Environment) -> Closed
    requires within { environment.count ≤ environment.end }
    ensures { (nodes : Nodes) (pattern : ℕ) → term_tree nodes pattern ≡ app head (term_trees nodes args.now)
        → IsClosed nodes (values_in environment) pattern result }
{
    if !args.is_empty() {
        return Closed::Unbuilt;
    }
    match head {
        Head::Bound(bound) => match environment.variable(bound) {
            Some(var) => Closed::Variable(var),
            None => Closed::Unbuilt,
        },
        Head::Name(_) => Closed::Unbuilt,
        Head::Eigen(_) => Closed::Unbuilt,
    }
}

/// What a pattern comes to whose head is no bound place.
#[inline]
fn closed_head(pattern: At, head: Head, args: &[At]) -> Closed
    requires fixed { not_bound head ≡ true }
    ensures { (nodes : Nodes) (env : Env) → HasTerm nodes pattern.0
        → term_tree nodes pattern.0 ≡ app head (term_trees nodes args.now) → IsClosed nodes env pattern.0 result }
{
    if args.is_empty() {
        Closed::Place(pattern)
    } else {
        Closed::Unbuilt
    }
}

/// Compares two signs and the numbers of their arguments. Where they agree, the equations of the arguments come next.
fn pair(
    sign: Head,
    places: &[At],
    head: Head,
    patterns: &[At],
    equations: &mut Equations,
) -> Result<Paired, OutOfMemory>
    requires fixed { not_bound head ≡ true }
    ensures { (nodes : Nodes) → AllInTerms nodes places.now → AllInTerms nodes patterns.now
        → IfOk result (IsPaired nodes (app sign (term_trees nodes places.now)) (app head (term_trees nodes patterns.now))
        equations.old.items equations.new.items) }
{
    if !is_same_head(sign, head) {
        return Ok(Paired::Apart);
    }
    if places.len() != patterns.len() {
        return Ok(Paired::Apart);
    }
    let next = push_arguments(places, patterns, equations)?;
    Ok(Paired::Same(next))
}

/// Compares the sign of a term with that of a pattern.
fn open(
    bank: &Bank,
    equation: Equation,
    environment: Environment,
    equations: &mut Equations,
) -> Result<Opened, OutOfMemory>
    requires place { HasTerm bank.now equation.place.0 }
    requires pattern { HasTerm bank.now equation.pattern.0 }
    requires within { environment.count ≤ environment.end }
    ensures { IfOk result (IsOpened bank.now (values_in environment) equation equations.old.items equations.new.items) }
{
    match bank.term_at(equation.pattern) {
        TermView::Var(_) => Ok(Opened::Shut(Closed::Place(equation.pattern))),
        TermView::Int(_) => Ok(Opened::Shut(Closed::Place(equation.pattern))),
        TermView::App(head, args) => {
            if is_place(head) {
                return Ok(Opened::Shut(closed_place(head, args, environment)));
            }
            match bank.term_at(equation.place) {
                TermView::Var(_) => Ok(Opened::Shut(closed_head(equation.pattern, head, args))),
                TermView::Int(_) => Ok(Opened::Clash),
                TermView::App(sign, places) => match pair(sign, places, head, args, equations)? {
                    Paired::Same(next) => Ok(Opened::Open(next)),
                    Paired::Apart => Ok(Opened::Clash),
                },
            }
        }
    }
}

/// Compares an atom's sign and the number of its arguments with those of the head of a clause.
#[inline]
fn begin(
    bank: &Bank,
    sign: Head,
    args: &[At],
    head: At,
    equations: &mut Equations,
) -> Result<Paired, OutOfMemory>
    requires args { AllInTerms bank.now args.now }
    requires head { HasTerm bank.now head.0 }
    requires begins { begins_fixed (term_tree bank.now head.0) ≡ true }
    ensures { IfOk result (IsPaired bank.now (app sign (term_trees bank.now args.now)) (term_tree bank.now head.0)
        equations.old.items equations.new.items) }
{
    match bank.term_at(head) {
        TermView::Var(_) => unreachable!(),
        TermView::Int(_) => unreachable!(),
        TermView::App(other, patterns) => pair(sign, args, other, patterns, equations),
    }
}

/// Makes a term equal to a variable by bindings, or finds that this can't be.
fn meet_variable(
    store: &mut Store,
    fresh: &mut Fresh,
    place: At,
    var: usize,
) -> Result<bool, OutOfMemory>
    requires store { IsTable store.old.bank (table_of store.old.cells.cells) }
    requires place { IsEnd store.old.bank (table_of store.old.cells.cells) place.0 }
    requires vars { HasCells store.old.bank (table_of store.old.cells.cells) (Var var) }
    requires fresh { AreFresh store.old.bank (table_of store.old.cells.cells) fresh.old
        (term_tree store.old.bank place.0 ∷ []) }
    ensures settles { IfOk result
        (Settles store.new.bank (table_of store.old.cells.cells) (table_of store.new.cells.cells)
        (term_tree store.old.bank place.0 ∷ []) (Var var ∷ [])) }
    ensures fresh { IfOk result (λ good. good ≡ true
        → LeavesFresh store.new.bank (table_of store.old.cells.cells)
        (table_of store.new.cells.cells) fresh.old fresh.new (term_tree store.old.bank place.0 ∷ []) []) }
    ensures keeps { Extends store.old.bank store.new.bank }
    ensures marks { KeepsMarks (stored store.old) (stored store.new) }
{
    if is_new(&store.bank, &store.cells, fresh, place, var) {
        bind_new(&store.bank, &mut store.cells, fresh, place, var)?;
        return Ok(true);
    }
    let right = value_of(store, var)?;
    meet(store, fresh, place, right)
}

/// Makes a term equal to another one by bindings, or finds that this can't be.
fn meet(store: &mut Store, fresh: &mut Fresh, left: At, right: At) -> Result<bool, OutOfMemory>
    requires store { IsTable store.old.bank (table_of store.old.cells.cells) }
    requires left { IsEnd store.old.bank (table_of store.old.cells.cells) left.0 }
    requires right { IsPlaceOf store.old.bank (table_of store.old.cells.cells) right.0 }
    requires fresh { AreFresh store.old.bank (table_of store.old.cells.cells) fresh.old
        (term_tree store.old.bank left.0 ∷ []) }
    ensures settles { IfOk result
        (Settles store.old.bank (table_of store.old.cells.cells) (table_of store.new.cells.cells)
        (term_tree store.old.bank left.0 ∷ []) (term_tree store.old.bank right.0 ∷ [])) }
    ensures fresh { IfOk result (λ good. good ≡ true
        → LeavesFresh store.old.bank (table_of store.old.cells.cells)
        (table_of store.new.cells.cells) fresh.old fresh.new (term_tree store.old.bank left.0 ∷ []) []) }
    ensures bank { store.new.bank ≡ store.old.bank }
    ensures marks { KeepsMarks (stored store.old) (stored store.new) }
{
    let alloc = store.bank.alloc();
    unify_end(alloc, &store.bank, &mut store.cells, fresh, left, right)
}

/// Makes a term equal to a closed pattern by bindings, or finds that this can't be.
fn meet_pattern(
    store: &mut Store,
    fresh: &mut Fresh,
    equation: Equation,
    closed: Closed,
    environment: Environment,
) -> Result<bool, OutOfMemory>
    requires store { IsTable store.old.bank (table_of store.old.cells.cells) }
    requires within { IsWithin (count (table_of store.old.cells.cells)) environment }
    requires place { IsEnd store.old.bank (table_of store.old.cells.cells) equation.place.0 }
    requires pattern { HasTerm store.old.bank equation.pattern.0 }
    requires closed { IsClosed store.old.bank (values_in environment) equation.pattern.0 closed }
    requires heads { applies_heads (close (values_in environment) (term_tree store.old.bank equation.pattern.0)) ≡ true }
    requires vars { HasCells store.old.bank (table_of store.old.cells.cells)
        (close (values_in environment) (term_tree store.old.bank equation.pattern.0)) }
    requires fresh { AreFresh store.old.bank (table_of store.old.cells.cells) fresh.old
        (term_tree store.old.bank equation.place.0 ∷ []) }
    ensures settles { IfOk result
        (Settles store.new.bank (table_of store.old.cells.cells) (table_of store.new.cells.cells)
        (term_tree store.old.bank equation.place.0 ∷ [])
        (close (values_in environment) (term_tree store.old.bank equation.pattern.0) ∷ [])) }
    ensures fresh { IfOk result (λ good. good ≡ true
        → LeavesFresh store.new.bank (table_of store.old.cells.cells)
        (table_of store.new.cells.cells) fresh.old fresh.new (term_tree store.old.bank equation.place.0 ∷ []) []) }
    ensures keeps { Extends store.old.bank store.new.bank }
    ensures marks { KeepsMarks (stored store.old) (stored store.new) }
{
    match closed {
        Closed::Variable(var) => meet_variable(store, fresh, equation.place, var),
        Closed::Place(right) => meet(store, fresh, equation.place, right),
        Closed::Unbuilt => {
            let right = build(store, equation.pattern, environment)?;
            meet(store, fresh, equation.place, right)
        }
    }
}

/// Makes an atom, told by its sign and places of its arguments, equal to the head of a clause by bindings of a store's variables, or finds
/// that this can't be.
///
/// The bound places of the head stand for the variables of the environment, and no place shows these yet. Of the head only what a variable
/// of the atom is bound to is built. The variables of the environment, and those behind them, were made just before: none of them stands in
/// the atom or in what another variable stands for, none has a lower level than another variable, and the eigenvariables in the atom and
/// in what variables stand for are below their level. Where one is met in the head for the first time it takes the end of what stands
/// against it, without a look through that: it can't stand there, and no level falls. The first 64 of them are told apart; those past them
/// are looked for each time.
///
/// The answer, the bindings and the levels are those of [`unify`](crate::unify) on the atom and the closed head. In every case each good
/// mark of the store stays good, with its state, and its bank may have more places. Where the answer is `false`, and after a refusal,
/// some bindings and levels may have been changed: go back to a mark.
pub fn unify_args(
    store: &mut Store,
    environment: Environment,
    sign: Head,
    args: &[At],
    head: At,
) -> Result<bool, OutOfMemory>
    requires store { IsTable store.old.bank (table_of store.old.cells.cells) }
    requires within { IsWithin (count (table_of store.old.cells.cells)) environment }
    requires sign { not_bound sign ≡ true }
    requires args { All (λ (at : AtView). IsPlaceOf store.old.bank (table_of store.old.cells.cells) at.0) args.now }
    requires head { HasTerm store.old.bank head.0 }
    requires begins { begins_fixed (term_tree store.old.bank head.0) ≡ true }
    requires heads { applies_heads (close (values_in environment) (term_tree store.old.bank head.0)) ≡ true }
    requires vars { HasCells store.old.bank (table_of store.old.cells.cells)
        (close (values_in environment) (term_tree store.old.bank head.0)) }
    requires new { (x : ℕ) → environment.end - environment.count ≤ x → x < count (table_of store.old.cells.cells)
        → StandsNowhere store.old.bank (table_of store.old.cells.cells)
        (app sign (term_trees store.old.bank args.now) ∷ []) x }
    ensures solved { IfOk result (IsSolved store.new.bank (table_of store.old.cells.cells)
        (table_of store.new.cells.cells) (wanted store.old.bank (table_of store.old.cells.cells)
        (app sign (term_trees store.old.bank args.now) ∷ [])
        (close (values_in environment) (term_tree store.old.bank head.0) ∷ []))) }
    ensures keeps { Extends store.old.bank store.new.bank }
    ensures marks { KeepsMarks (stored store.old) (stored store.new) }
{
    let mut equations = Equations::new(store.bank.alloc());
    let mut next = match begin(&store.bank, sign, args, head, &mut equations)? {
        Paired::Same(first) => first,
        Paired::Apart => return Ok(false),
    };
    let mut fresh = Fresh::from((environment.end - environment.count) as usize);
    while let Some(mut equation) = next {
        equation.place = walk(&store.bank, &store.cells, equation.place);
        match open(&store.bank, equation, environment, &mut equations)? {
            Opened::Open(more) => next = more,
            Opened::Clash => return Ok(false),
            Opened::Shut(closed) => {
                if !meet_pattern(store, &mut fresh, equation, closed, environment)? {
                    return Ok(false);
                }
                next = equations.pop();
            }
        }
    }
    Ok(true)
}
