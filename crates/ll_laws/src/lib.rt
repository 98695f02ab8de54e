//! The definitions of the language and its search, their laws, and the types that crates share.
//!
//! The functions of [`Terms`] and [`Notice`] have code. Any other function here has none: it carries a law as its contract, and is called
//! where that law is wanted. The definitions stand in `specs/`, and `docs/DEFINITIONS.md` explains them in reading order.
#![tactic(auto)]

ghost use Rattle.std.specs.Prelude.{◌≡◌, length};
ghost use Rattle.ll_laws.specs.Laws.{StuckSearch, EndedSearch, BoundSearch, SteppedSearch, SteadySearch, SettledOnce, SettledUnder, StartsConsistent};
ghost use Rattle.ll_laws.specs.Laws.{SettlesConsistent, StepsConsistent, FoundUnifies, FoundLowers, FoundIsMostGeneral, NoneUnifies, TreesDerive};
ghost use Rattle.ll_laws.specs.Laws.{ShownIsDerivable, FaultlessShows, ShownIsFaultless, RunsAreShown, AnswersAreShown};
ghost use Rattle.ll_laws.specs.Completeness.{ShownRuns, HiddenCover, RunsAreFound, ShownIsFound, ShownIsAnswered, ShownIsNumbered, NothingIsShown};

use ll_bank::{At, Bank, FormAt, Names, OutOfMemory, TermView};
use std::alloc::Global;
use std::marker::Model;

/// Which resources a clause is among.
#[derive(Clone, Copy, PartialEq, Eq)]
pub enum Kind {
    /// It has to be used exactly once.
    Linear,
    /// It may be used any number of times.
    Unbounded,
}

/// A clause with its kind. Its formula is a place in the bank of what holds it.
#[derive(Clone, Copy)]
pub struct Clause {
    pub kind: Kind,
    pub form: FormAt,
}

/// A module. In its clauses bound places count as if each clause stood under one quantifier for each local, the first one
/// outermost, and inside these under one for each parameter, the first one outermost.
pub struct Module {
    /// The number of its name.
    pub name: u32,
    /// How many parameters it has.
    pub params: u32,
    /// How many local constants it has.
    pub locals: u32,
    /// Its clauses, in the order of the text.
    pub clauses: Vec<Clause>,
}

// Written out, so that a proof sees one call where it goes, and not one for each part.
impl Drop for Module {
    fn drop(self) {
        let Module {
            name: _,
            params: _,
            locals: _,
            clauses: _,
        } = self;
    }
}

/// What a search is asked for. Contracts see the trees that its places show in its bank.
pub struct Problem {
    pub bank: Bank,
    pub names: Names,
    pub modules: Vec<Module>,
    /// The program's clauses, in the order of the text.
    pub clauses: Vec<Clause>,
    /// The query.
    pub goal: FormAt,
    /// The name of each variable of the query in the order of their numbers, none for `_`.
    pub asked: Vec<Option<u32>>,
    /// How many inferences a branch may have, from 0 to 1,000,000.
    pub bound: u32,
}

// Written out, so that a proof sees one call where it goes, and not one for each part.
impl Drop for Problem {
    fn drop(self) {
        let Problem {
            bank: _,
            names: _,
            modules: _,
            clauses: _,
            goal: _,
            asked: _,
            bound: _,
        } = self;
    }
}

impl Model for Problem {
    ghost use Rattle.std.specs.Prelude.{map};
    ghost use Rattle.ll_bank.specs.Nodes.{form_tree, HasForm};
    ghost use Rattle.ll_laws.specs.Problem.{ProblemTree};
    ghost use Rattle.ll_laws.specs.Shown.{clause_tree, module_tree, HasClauses, HasModules, problem_code};

    ghost Value = { ProblemTree };

    ghost coded = { problem_code };

    ghost view = { λ p. record {
      names = p.names;
      modules = map (module_tree p.bank) p.modules.items;
      clauses = map (clause_tree p.bank) p.clauses.items;
      goal = form_tree p.bank p.goal.0;
      asked = p.asked.items;
      bound = p.bound;
    } };

    ghost invariant = { λ p. HasModules p.bank p.modules.items
        × HasClauses p.bank p.clauses.items
        × HasForm p.bank p.goal.0 };
}

/// Which alternative an inference took.
#[derive(Clone, Copy)]
pub enum Step {
    /// The only one of a goal that is neither an atom nor a `;`.
    Plain,
    /// The left side of a `;`.
    Left,
    /// The right side of a `;`.
    Right,
    /// A leaf of the clause with this label, for an atom.
    Clause { label: u32, leaf: u32 },
}

/// One alternative of a goal: a label and a leaf for an atom, leaf 0 or 1 for the sides of `;`, and 0 and 0 for any other goal.
#[derive(Clone, Copy)]
pub struct Candidate {
    pub label: u32,
    pub leaf: u32,
}

/// A branch of the search that ended in an answer. Contracts see the trees that its places show in its bank.
pub struct Branch {
    pub bank: Bank,
    /// One term for each variable, those asked for first.
    pub terms: Vec<At>,
    /// One step for each inference.
    pub steps: Vec<Step>,
}

// Written out, so that a proof sees one call where it goes, and not one for each part.
impl Drop for Branch {
    fn drop(self) {
        let Branch {
            bank: _,
            terms: _,
            steps: _,
        } = self;
    }
}

impl Model for Branch {
    ghost use Rattle.ll_bank.specs.Nodes.{term_trees, AllInTerms};
    ghost use Rattle.ll_laws.specs.Answered.{Answered, answered_code};

    ghost Value = { Answered };

    ghost coded = { answered_code };

    ghost view = { λ b. record { terms = term_trees b.bank b.terms.items; steps = b.steps.items } };

    ghost invariant = { λ b. AllInTerms b.bank b.terms.items };
}

/// What a search gives, in order.
#[derive(Drop)]
pub enum Event {
    /// A branch that ended in an answer.
    Answer(Branch),
    /// A branch that was cut off at the bound.
    Reached,
}

/// Terms that are looked at by their places: those of a bank, or those that a bank shows under bindings.
///
/// Contracts see which places are those of terms, and the term of each.
pub trait Terms {
    ghost use Rattle.std.specs.Prelude.{ℕ};
    ghost use Rattle.ll_bank.specs.Term.{Term};
    ghost use Rattle.ll_laws.specs.Views.{IsViewOf};

    // The places of terms.
    ghost has: { Self → ℕ → Type 0 };

    // The term of a place.
    ghost tree: { Self → ℕ → Term };

    /// What stands at the place of a term.
    fn view(&self, at: At) -> TermView<'_>
        requires { has self.now at.0 }
        ensures { IsViewOf (has self.now) (tree self.now) at.0 result };
}

impl Terms for Bank {
    ghost use Rattle.ll_bank.specs.Nodes.{term_tree, HasTerm};

    ghost has = { HasTerm };

    ghost tree = { term_tree };

    fn view(&self, at: At) -> TermView<'_> {
        self.term_at(at)
    }
}

/// What stands for an event of a search on its way from the worker that found it: the event itself, or as much of it as its taker wants.
///
/// Contracts see the event that it stands for, so whatever carries it says the same of every kind.
pub trait Notice: Drop + Send + Sync {
    ghost use Rattle.std.specs.Prelude.{◌≡◌, IfOk, IfSome, All, map};
    ghost use Rattle.ll_laws.specs.declared.Event.{Event};
    ghost use Rattle.ll_laws.specs.declared.Event.TheVariants.{Answer};
    ghost use Rattle.ll_laws.specs.Problem.{ProblemTree};
    ghost use Rattle.ll_laws.specs.Search.{is_answer as is_answer_of};

    // The event that it stands for.
    ghost stands_for: { Self → Event };

    // The problems of whose events it can be made.
    ghost suits: { ProblemTree → Type 0 };

    /// Makes it of an event of the search of a problem.
    fn make(alloc: Global, problem: &Problem, event: Event) -> Result<Self, OutOfMemory>
        requires { suits problem.now }
        ensures { IfOk result (λ notice. stands_for notice ≡ event) };

    /// Makes it of an answer of the search of a problem whose terms stand at these places, and keeps none of them. None where it is made of
    /// events alone.
    fn of_answer<T: Terms>(
        alloc: Global,
        problem: &Problem,
        terms: &T,
        places: &[At],
        steps: &[Step],
    ) -> Result<Option<Self>, OutOfMemory>
        requires suits { suits problem.now }
        requires places { All (λ a. T.has terms.now a.0) places.now }
        ensures { IfOk result (λ made. IfSome made (λ notice. stands_for notice
            ≡ Answer (record { terms = map (λ a. T.tree terms.now a.0) places.now; steps = steps.now }))) };

    /// Whether the event is an answer.
    fn is_answer(&self) -> bool
        ensures { result ≡ is_answer_of (stands_for self.now) };
}

impl Notice for Event {
    ghost stands_for = { λ e. e };

    ghost suits = { λ p. Unit {0} };

    fn make(_alloc: Global, _problem: &Problem, event: Event) -> Result<Event, OutOfMemory> {
        Ok(event)
    }

    fn of_answer<T: Terms>(
        _alloc: Global,
        _problem: &Problem,
        _terms: &T,
        _places: &[At],
        _steps: &[Step],
    ) -> Result<Option<Event>, OutOfMemory> {
        Ok(None)
    }

    fn is_answer(&self) -> bool {
        match self {
            Event::Answer(_) => true,
            Event::Reached => false,
        }
    }
}

/// The events of a part of a search, each as what stands for it, and its inferences, cut at the greatest `u64`. Contracts see what it tells.
#[derive(Drop)]
pub struct Report<E: Notice> {
    pub events: Vec<E>,
    pub inferences: u64,
}

impl<E: Notice> Model for Report<E> {
    ghost use Rattle.std.specs.Prelude.{map};
    ghost use Rattle.ll_laws.specs.Pool.{Owed};
    ghost use Rattle.ll_laws.specs.PoolCodes.{owed_code};
    ghost use Rattle.ll_laws.specs.declared.Event.{Event};
    ghost use Rattle.ll_laws.specs.contracts.Event as event;

    ghost Value = { Owed Event };

    ghost coded = { owed_code event.the_row.coded };

    ghost view = { λ report. record { events = map E.stands_for report.events.items; cost = report.inferences } };
}

/// Alternatives that workers can share: the untried ones of one choice point. A batch can be sent to a thread, shared between threads
/// and dropped.
pub trait Batch: Drop + Send + Sync {
    /// What a batch is of, which lives in contracts alone: for the alternatives of a search its problem.
    type Of;

    /// What stands for the events of its alternatives.
    type Found: Notice;

    ghost use Rattle.std.specs.Prelude.{List};
    ghost use Rattle.ll_laws.specs.Pool.{Owed};
    ghost use Rattle.ll_laws.specs.declared.Event.{Event};

    // What this batch is of.
    ghost of: { Self → Self.Of };

    // The events that each alternative owes, in order, and its cost.
    ghost alternatives: { Self → List (Owed Event) };

    /// The number of its alternatives.
    fn len(&self) -> u32
        ensures { result ≡ length (alternatives self.now) };
}

/// How many answers, branches cut off at the bound, and inferences a search has, each cut at the greatest `u64`.
#[derive(Clone, Copy, PartialEq, Eq)]
pub struct Counts {
    pub answers: u64,
    pub reached: u64,
    pub inferences: u64,
}

/// What a clause step of a derivation says of one premise.
#[derive(Drop)]
pub enum Part {
    /// A bounded premise, proved from the clauses with these labels.
    Bounded(Vec<u32>),
    /// An unbounded premise, proved from no bounded clause.
    Unbounded,
}

/// The rule of one node of a derivation, with what it chooses.
#[derive(Drop)]
pub enum Rule {
    /// `true`, from no bounded clause.
    One,
    /// `erase`, from any bounded clauses.
    Erase,
    /// `G , H`: G from the clauses with the first labels, H from those with the second.
    Tensor(Vec<u32>, Vec<u32>),
    /// `G & H`, both from all bounded clauses.
    With,
    /// `G ; H` by its left side.
    Left,
    /// `G ; H` by its right side.
    Right,
    /// `{G}`, from no bounded clause.
    Bang,
    /// `R -o G`: R gets this label.
    Lolli(u32),
    /// `R => G`: R gets this label.
    Imp(u32),
    /// `forall x\ G` with this eigenvariable in place of x.
    Forall(u32),
    /// `exists x\ G` with this term in place of x.
    Exists(At),
    /// A module load, by the goal that it stands for.
    Use,
    /// A whole-number goal that holds, from no bounded clause.
    Num,
    /// An atom by a leaf of the clause with this label: the terms for the quantifiers on the way to the leaf, the outermost
    /// first, and one part for each premise, the one nearest the head first.
    Clause {
        label: u32,
        leaf: u32,
        terms: Vec<At>,
        parts: Vec<Part>,
    },
}

/// A derivation of a query. Contracts see the terms that its places show in its bank, and the tree that its nodes are
/// (`IsWhole` says that they are one).
pub struct Derivation {
    pub bank: Bank,
    /// The term for each variable of the query, in the order of their numbers.
    pub asked: Vec<At>,
    /// The nodes in prefix order.
    pub nodes: Vec<Rule>,
}

// Written out, so that a proof sees one call where it goes, and not one for each part.
impl Drop for Derivation {
    fn drop(self) {
        let Derivation {
            bank: _,
            asked: _,
            nodes: _,
        } = self;
    }
}

impl Model for Derivation {
    ghost use Rattle.std.specs.Prelude.{map};
    ghost use Rattle.ll_bank.specs.Nodes.{term_trees, AllInTerms};
    ghost use Rattle.ll_laws.specs.Line.{DerivationLines};
    ghost use Rattle.ll_laws.specs.ShownLines.{line_of, HasLines, derivation_code};

    ghost Value = { DerivationLines };

    ghost coded = { derivation_code };

    ghost view = { λ d. record { asked = term_trees d.bank d.asked.items; nodes = map (line_of d.bank) d.nodes.items } };

    ghost invariant = { λ d. AllInTerms d.bank d.asked.items × HasLines d.bank d.nodes.items };
}

/// How a search unfolds, case by case.
pub fn search_unfolds()
    ensures stuck { StuckSearch }
    ensures ended { EndedSearch }
    ensures bound { BoundSearch }
    ensures stepped { SteppedSearch }
{}

/// A search that reached no bound is the same at every greater one.
pub fn steady_search()
    ensures { SteadySearch }
{}

/// Settling is done once, and goes along with every substitution.
pub fn settling()
    ensures once { SettledOnce }
    ensures under { SettledUnder }
{}

/// The states that the search of a valid problem reaches are consistent: the first one is, and settling and each inference
/// keep them so.
pub fn consistent_states()
    ensures start { StartsConsistent }
    ensures settle { SettlesConsistent }
    ensures attempt { StepsConsistent }
{}

/// Unification finds a most general unifier among those that respect the levels, and nothing only where there is none (after
/// Robinson 1965, with the levels that eigenvariables ask for).
pub fn unification_is_best()
    ensures unifies { FoundUnifies }
    ensures lowers { FoundLowers }
    ensures most_general { FoundIsMostGeneral }
    ensures none { NoneUnifies }
{}

/// What a derivation shows is derivable, with as many nodes as it has (derivability after Hodas and Miller 1994).
pub fn shown_is_derivable()
    ensures tree { TreesDerive }
    ensures query { ShownIsDerivable }
{}

/// A whole derivation has a first fault exactly where it does not show the query.
pub fn faults_are_exact()
    ensures faultless { FaultlessShows }
    ensures shown { ShownIsFaultless }
{}

/// What a run proves, with terms chosen for all variables, is shown by the run's tree, once the labels of the linear clauses are dealt out: a
/// label goes to the node that uses it, and otherwise to an `erase` that can take it.
pub fn runs_are_shown()
    ensures { RunsAreShown }
{}

/// Every answer of the search of a valid problem has a derivation (`dealt`), which shows the query with the answer's terms for its
/// variables: so each linear clause is used exactly once, by a clause step or an `erase`. It has as many nodes as the branch has steps.
pub fn answers_are_shown()
    ensures { AnswersAreShown }
{}

/// What a derivation without whole-number goals shows of the query of a valid problem, as many inferences of a run bring to an answer. The run
/// starts with the derivation's terms for the query's variables, but for parts whose head is an eigenvariable: variables stand in their place,
/// and they can be named so that the derivation's terms are an instance.
pub fn derivations_are_run()
    ensures runs { ShownRuns }
    ensures hidden { HiddenCover }
{}

/// What a run brings to an answer, with closed terms chosen for the variables of a consistent state, the search finds from the state itself:
/// an answer with as many steps, of whose terms the chosen ones are an instance. (Lifting, as Robinson's of 1965 for resolution.)
pub fn runs_are_found()
    ensures { RunsAreFound }
{}

/// The search of a valid problem is complete up to its bound, whole-number goals aside: for each derivation of the query with at most so many
/// nodes, none of them of a whole-number goal, it has an answer, of whose terms those of the derivation are an instance, with as many steps
/// as the derivation has nodes. So where it has no answer and reached no bound, no such derivation shows the query.
pub fn search_is_complete()
    ensures found { ShownIsFound }
    ensures answered { ShownIsAnswered }
    ensures numbered { ShownIsNumbered }
    ensures nothing { NothingIsShown }
{}
