//! The nodes of an answer's branch, by a walk along its steps. A branch gives its terms itself, so the walk goes through formulas as they
//! stand, and puts nothing in place of their bound places.
ghost use Rattle.std.specs.Prelude.{◌≡◌, ◌+◌, ◌++◌, ◌∷◌, [], ◌<◌, ◌≤◌, length, take, drop, map, List, All, IfOk, OnOk, slice_get, Some};
ghost use Rattle.ll_bank.specs.Nodes.{no_nodes, form_tree, term_trees, HasForm};
ghost use Rattle.ll_laws.specs.Shown.{HasModules};
ghost use Rattle.ll_laws.specs.declared.Module.{Module as ModuleView};
ghost use Rattle.ll_trace.specs.Bare.{bare, some_atom};
ghost use Rattle.ll_trace.specs.Walk.{told};
ghost use Rattle.ll_trace.specs.Goals.{loading_goal};
ghost use Rattle.ll_trace.specs.declared.walk.Goal.TheVariants.{Plain};
ghost use Rattle.ll_trace.specs.Walker.{trees, walk_of, IsInside, MayTake, TellsGoal, MayStep, Steps, Pushes, TakesSide, MayTakeAtom, AreNodes};

use crate::leaf::open_leaf;
use ll_bank::{At, Bank, FormAt, FormNode, OutOfMemory};
use ll_laws::{Kind, Module, Rule, Step};
use std::alloc::{AllocError, Global};

/// A goal still to be proved.
#[derive(Clone, Copy)]
pub(crate) enum Goal {
    /// A formula.
    Plain(FormAt),
    /// A formula from no bounded clause: an unbounded premise.
    Free(FormAt),
    /// What is left of a load.
    Loading(Loading),
}

/// What is left of a module load: a `forall` for each local, then the clauses of the module from the next one on, then the goal.
#[derive(Clone, Copy)]
pub(crate) struct Loading {
    pub locals: u32,
    pub module: u32,
    pub next: usize,
    pub goal: FormAt,
}

impl Loading {
    /// A whole load of a module with so many locals.
    fn new(locals: u32, module: u32, goal: FormAt) -> Self
        ensures { result ≡ record { locals = locals; «module» = «module»; next = 0; goal = goal } }
    {
        let next = 0;
        Self {
            locals,
            module,
            next,
            goal,
        }
    }
}

/// Where a walk along a branch stands.
#[derive(Drop)]
pub(crate) struct Walker {
    /// The goals still to be proved, the one in front last.
    pub goals: Vec<Goal>,
    /// The clauses loaded so far, by their labels.
    pub clauses: Vec<FormAt>,
    /// The number of eigenvariables.
    pub eigens: u32,
    /// How many of the branch's terms have been used.
    pub used: usize,
}

/// The nodes that the steps of a branch tell.
pub(crate) fn nodes(
    alloc: Global,
    forms: &Bank,
    modules: &[Module],
    terms: &[At],
    steps: &[Step],
    mut walker: Walker,
) -> Result<Vec<Rule>, OutOfMemory>
    requires modules { HasModules forms.now modules.now }
    requires inside { IsInside forms.now (length modules.now) walker }
    requires used { walker.used ≤ length terms.now }
    requires told { length (told (trees forms.now modules.now) (term_trees no_nodes terms.now) steps.now
        (walk_of forms.now (trees forms.now modules.now) walker)) ≡ length steps.now }
    ensures { IfOk result (λ nodes. AreNodes forms.now modules.now terms.now steps.now walker nodes.items) }
{
    let mut nodes = Vec::new(alloc);
    for step in steps {
        let node = walker.next(alloc, forms, modules, terms, *step)?;
        nodes.push(node)?;
    }
    Ok(nodes)
}

impl Walker {
    /// The node that the next step tells.
    fn next(
        &mut self,
        alloc: Global,
        forms: &Bank,
        modules: &[Module],
        terms: &[At],
        step: Step,
    ) -> Result<Rule, OutOfMemory>
        requires modules { HasModules forms.now modules.now }
        requires inside { IsInside forms.now (length modules.now) self.old }
        requires used { self.old.used ≤ length terms.now }
        requires may { MayStep forms.now modules.now terms.now self.old step }
        ensures { IfOk result (λ rule. Steps forms.now modules.now terms.now self.old step rule self.new) }
    {
        let Some(goal) = self.goals.pop() else {
            unreachable!()
        };
        match goal {
            Goal::Plain(form) => self.take_form(alloc, forms, modules, terms, form, step),
            Goal::Free(form) => {
                self.goals.push(Goal::Plain(form))?;
                Ok(Rule::Bang)
            }
            Goal::Loading(loading) => {
                self.take_loading(alloc, forms, modules, terms, loading, step)
            }
        }
    }

    /// The node of a formula, taken off the goals.
    fn take_form(
        &mut self,
        alloc: Global,
        forms: &Bank,
        modules: &[Module],
        terms: &[At],
        form: FormAt,
        step: Step,
    ) -> Result<Rule, OutOfMemory>
        requires modules { HasModules forms.now modules.now }
        requires inside { IsInside forms.now (length modules.now) self.old }
        requires used { self.old.used ≤ length terms.now }
        requires form { HasForm forms.now form.0 }
        requires may { MayTake forms.now modules.now terms.now self.old (bare (form_tree forms.now form.0)) step }
        ensures { IfOk result (λ rule. TellsGoal forms.now modules.now terms.now self.old
            (bare (form_tree forms.now form.0)) step rule self.new) }
    {
        match forms.form_at(form) {
            FormNode::One => Ok(Rule::One),
            FormNode::Top => Ok(Rule::Erase),
            FormNode::Is(_, _) | FormNode::Less(_, _) | FormNode::Most(_, _) => Ok(Rule::Num),
            FormNode::Tensor(first, second) => {
                push_two(&mut self.goals, first, second)?;
                Ok(Rule::Tensor(Vec::new(alloc), Vec::new(alloc)))
            }
            FormNode::With(first, second) => {
                push_two(&mut self.goals, first, second)?;
                Ok(Rule::With)
            }
            FormNode::Plus(left, right) => self.take_side(left, right, step),
            FormNode::Bang(goal) => {
                self.goals.push(Goal::Plain(goal))?;
                Ok(Rule::Bang)
            }
            FormNode::Lolli(clause, goal) => Ok(Rule::Lolli(self.load(clause, Goal::Plain(goal))?)),
            FormNode::Imp(clause, goal) => Ok(Rule::Imp(self.load(clause, Goal::Plain(goal))?)),
            FormNode::Forall(body) => Ok(Rule::Forall(self.open(Goal::Plain(body))?)),
            FormNode::Exists(body) => Ok(Rule::Exists(self.fill(terms, body)?)),
            FormNode::Use(module, _, goal) => {
                let locals = modules[module as usize].locals;
                let loading = Loading::new(locals, module, goal);
                self.goals.push(Goal::Loading(loading))?;
                Ok(Rule::Use)
            }
            FormNode::Atom(_) => self.take_atom(alloc, forms, terms, step),
        }
    }

    /// The node of a `;`, by the side that the step took.
    fn take_side(&mut self, left: FormAt, right: FormAt, step: Step) -> Result<Rule, OutOfMemory>
        ensures { IfOk result (λ rule. TakesSide self.old left right step rule self.new) }
    {
        match step {
            Step::Right => {
                self.goals.push(Goal::Plain(right))?;
                Ok(Rule::Right)
            }
            _ => {
                self.goals.push(Goal::Plain(left))?;
                Ok(Rule::Left)
            }
        }
    }

    /// The node of what is left of a load, taken off the goals.
    fn take_loading(
        &mut self,
        alloc: Global,
        forms: &Bank,
        modules: &[Module],
        terms: &[At],
        loading: Loading,
        step: Step,
    ) -> Result<Rule, OutOfMemory>
        requires modules { HasModules forms.now modules.now }
        requires inside { IsInside forms.now (length modules.now) self.old }
        requires used { self.old.used ≤ length terms.now }
        requires goal { HasForm forms.now loading.goal.0 }
        requires known { loading.«module» < length modules.now }
        requires may { MayTake forms.now modules.now terms.now self.old
            (loading_goal forms.now (trees forms.now modules.now) loading) step }
        ensures { IfOk result (λ rule. TellsGoal forms.now modules.now terms.now self.old
            (loading_goal forms.now (trees forms.now modules.now) loading) step rule self.new) }
    {
        if loading.locals > 0 {
            let locals = loading.locals - 1;
            let eigen = self.open(Goal::Loading(Loading { locals, ..loading }))?;
            return Ok(Rule::Forall(eigen));
        }
        let Some(clause) = modules[loading.module as usize].clauses.get(loading.next) else {
            return self.take_form(alloc, forms, modules, terms, loading.goal, step);
        };
        let next = loading.next + 1;
        let label = self.load(clause.form, Goal::Loading(Loading { next, ..loading }))?;
        match clause.kind {
            Kind::Linear => Ok(Rule::Lolli(label)),
            Kind::Unbounded => Ok(Rule::Imp(label)),
        }
    }

    /// The node of an atom: a leaf of the clause whose label the step names.
    fn take_atom(
        &mut self,
        alloc: Global,
        forms: &Bank,
        terms: &[At],
        step: Step,
    ) -> Result<Rule, OutOfMemory>
        requires clauses { All (λ f. HasForm forms.now f.0) self.old.clauses.items }
        requires used { self.old.used ≤ length terms.now }
        requires may { MayTakeAtom forms.now self.old step }
        ensures { IfOk result (λ rule. (modules : List ModuleView) → IsInside forms.now (length modules) self.old
            → TellsGoal forms.now modules terms.now self.old some_atom step rule self.new) }
    {
        let Step::Clause { label, leaf } = step else {
            unreachable!()
        };
        let clause = self.clauses[label as usize];
        let opened = open_leaf(alloc, forms, clause, leaf, &mut self.goals)?;
        let taken = next_terms(alloc, terms, self.used, opened.quantifiers)?;
        self.used += taken.len();
        Ok(Rule::Clause {
            label,
            leaf,
            terms: taken,
            parts: opened.parts,
        })
    }

    /// Loads a clause for a goal, and gives its label.
    fn load(&mut self, clause: FormAt, goal: Goal) -> Result<u32, OutOfMemory>
        ensures label { IfOk result (λ label. label ≡ length self.old.clauses.items) }
        ensures pushed { OnOk result (Pushes self.old goal (clause ∷ []) 0 0 self.new) }
    {
        let Ok(label) = u32::try_from(self.clauses.len()) else {
            return Err(AllocError);
        };
        self.clauses.push(clause)?;
        self.goals.push(goal)?;
        Ok(label)
    }

    /// Opens a goal with the next eigenvariable, and gives its number.
    fn open(&mut self, goal: Goal) -> Result<u32, OutOfMemory>
        ensures eigen { IfOk result (λ eigen. eigen ≡ self.old.eigens) }
        ensures pushed { OnOk result (Pushes self.old goal [] 1 0 self.new) }
    {
        let eigen = self.eigens;
        let Some(eigens) = eigen.checked_add(1) else {
            return Err(AllocError);
        };
        self.goals.push(goal)?;
        self.eigens = eigens;
        Ok(eigen)
    }

    /// The term that comes next, for the body of an `exists`.
    fn fill(&mut self, terms: &[At], body: FormAt) -> Result<At, OutOfMemory>
        ensures term { IfOk result (λ term. slice_get terms.now self.old.used ≡ Some term) }
        ensures pushed { OnOk result (Pushes self.old (Plain body) [] 0 1 self.new) }
    {
        let Some(term) = terms.get(self.used) else {
            return Err(AllocError);
        };
        self.goals.push(Goal::Plain(body))?;
        self.used += 1;
        Ok(*term)
    }
}

/// Puts two formulas in front of the goals, the first one foremost.
fn push_two(goals: &mut Vec<Goal>, first: FormAt, second: FormAt) -> Result<(), OutOfMemory>
    ensures { OnOk result (goals.new.items ≡ goals.old.items ++ Plain second ∷ Plain first ∷ []) }
{
    goals.extend_from_slice(&[Goal::Plain(second), Goal::Plain(first)])
}

/// So many of the terms after those that have been used.
fn next_terms(
    alloc: Global,
    terms: &[At],
    used: usize,
    count: usize,
) -> Result<Vec<At>, OutOfMemory>
    requires { used ≤ length terms.now }
    ensures { IfOk result (λ taken. taken.items ≡ take count (drop used terms.now)) }
{
    let (_, left) = terms.split_at(used);
    let (taken, _) = left.split_at(count.min(left.len()));
    Vec::from_slice(alloc, taken)
}
