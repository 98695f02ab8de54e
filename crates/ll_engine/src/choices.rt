//! A machine with its choice points, which are marks of it.
ghost use Rattle.std.specs.Prelude.{◌≡◌, ◌<◌, ◌++◌, ◌∷◌, [], true, false, IfOk};
ghost use Rattle.std.specs.Arc.{arc_value};
ghost use Rattle.ll_laws.specs.Valid.{IsValid};
ghost use Rattle.ll_laws.specs.Problem.{start_of};
ghost use Rattle.ll_freeze.specs.Parts.{parts_of};
ghost use Rattle.ll_freeze.specs.Shown.{state_of};
ghost use Rattle.ll_freeze.specs.Fits.{Fits};
ghost use Rattle.ll_freeze.specs.Indexed.{IsIndexOf};
ghost use Rattle.ll_engine.specs.Based.{IsBased, KeepsFloors};
ghost use Rattle.ll_engine.specs.Pointed.{choices_of, helds, IsSound, IsOpen, AreKept, AreMarks, AreTries, Puts, KeepsKept, ChoseOf};
ghost use Rattle.ll_engine.specs.Moves.{end_event};
ghost use Rattle.ll_engine.specs.Turned.{has_none, is_empty, answers, starting, Settles, Expands, Retries};

use crate::ancestor::Ancestor;
use crate::answer::{Workshop, answer_notice, answers, is_empty};
use crate::attempt::attempt;
use crate::candidates::{candidates, is_sure};
use crate::settle::settle;
use ll_bank::OutOfMemory;
use ll_freeze::{ChoiceMark, Machine};
use ll_index::Index;
use ll_laws::{Candidate, Event, Notice, Problem};
use std::alloc::Global;
use std::collections::VecDeque;
use std::snapshot::Snapshot;
use std::sync::Arc;

/// A choice point: a mark of the machine as it was settled, with a goal in front, and the candidates not tried yet that can match, the
/// first one last. There is one.
#[derive(Drop)]
pub struct ChoicePoint {
    pub mark: ChoiceMark,
    pub untried: Vec<Candidate>,
}

/// A machine with its choice points. `choices_of` is what it is seen as. After a refusal nothing is said of it.
#[derive(Drop)]
pub struct Choices<'p> {
    pub alloc: Global,
    pub problem: &'p Problem,
    /// Of the problem's clauses.
    pub index: Arc<Index>,
    pub machine: Machine<'p>,
    /// The newest one last. Each has an untried candidate.
    pub points: VecDeque<ChoicePoint>,
    /// The batch that the machine was made of, if what is split off may share its store.
    pub ancestor: Option<Ancestor<'p>>,
    /// The machine with which the search began, for contracts alone.
    pub origin: Snapshot<Machine<'p>>,
    /// There was a state in which it began.
    pub began: bool,
    /// What branches are made with.
    pub workshop: Workshop,
}

impl<'p> Choices<'p> {
    /// The start of a valid problem's search, with an index of the problem's clauses.
    pub fn start(
        alloc: Global,
        problem: &'p Problem,
        index: Arc<Index>,
    ) -> Result<Choices<'p>, OutOfMemory>
        requires valid { IsValid problem.now }
        requires index { IsIndexOf problem.now (arc_value index) }
        ensures sound { IfOk result (λ z. IsSound true z) }
        ensures start { IfOk result (λ z. choices_of z ≡ starting problem.entry.now (start_of problem.entry.now)) }
    {
        let machine = Machine::start(alloc, problem)?;
        let origin = Snapshot::of(&machine);
        let points = VecDeque::new(alloc);
        Ok(Choices {
            alloc,
            problem,
            index,
            machine,
            points,
            ancestor: None,
            origin,
            began: true,
            workshop: Workshop::new(alloc),
        })
    }

    /// Works off the ends in front; false where one of them fails.
    pub fn settle(&mut self) -> Result<bool, OutOfMemory>
        requires sound { IsSound true self.old }
        ensures sound { IfOk result (λ ok. IsSound ok self.new) }
        ensures settles { IfOk result (λ ok. Settles (choices_of self.old) ok (choices_of self.new)) }
    {
        let ok = settle(&mut self.machine)?;
        Ok(ok)
    }

    /// Whether nothing is left to prove.
    pub fn is_empty(&self) -> bool
        requires sound { IsSound true self.now }
        ensures { result ≡ is_empty (state_of (parts_of self.now.machine)).agenda }
    {
        is_empty(&self.machine)
    }

    /// Whether a state with nothing left to prove is an answer.
    pub fn answers(&self) -> bool
        requires sound { IsSound true self.now }
        ensures { result ≡ answers (state_of (parts_of self.now.machine)) }
    {
        answers(&self.machine)
    }

    /// How many inferences the branch may still make.
    pub fn left(&self) -> u32
        ensures { result ≡ self.now.machine.left }
    {
        self.machine.left()
    }

    /// What stands for the end of the branch, in an answer or at the bound. Nothing changes but what branches are made with.
    pub fn notice<E: Notice>(&mut self, answers: bool) -> Result<E, OutOfMemory>
        requires sound { IsSound true self.old }
        requires suits { E.suits self.old.problem.now }
        ensures notice { IfOk result (λ e. E.stands_for e ≡ end_event answers (state_of (parts_of self.old.machine))) }
        ensures sound { IsSound false self.new }
        ensures same { choices_of self.new ≡ choices_of self.old }
    {
        if answers {
            answer_notice(&self.machine, self.alloc, &mut self.workshop)
        } else {
            E::make(self.alloc, self.problem, Event::Reached)
        }
    }

    /// Takes the first goal apart by its first candidate that can match, and keeps the others in a choice point; false where it gives
    /// nothing, or there is none.
    pub fn expand(&mut self) -> Result<bool, OutOfMemory>
        requires sound { IsSound true self.old }
        requires goal { is_empty (state_of (parts_of self.old.machine)).agenda ≡ false }
        requires left { 0 < self.old.machine.left }
        ensures sound { IfOk result (λ running. IsSound running self.new) }
        ensures expands { IfOk result (λ running. Expands (choices_of self.old) running (choices_of self.new)) }
    {
        if is_sure(&self.machine) {
            let first = Candidate { label: 0, leaf: 0 };
            return self.choose(first, Vec::new(self.alloc));
        }
        let found = candidates(&self.machine, &self.index, self.alloc)?;
        let Some((candidate, untried)) = found.split() else {
            return Ok(false);
        };
        self.choose(candidate, untried)
    }

    /// Whether there is no choice point.
    pub fn is_over(&self) -> bool
        ensures { result ≡ has_none (choices_of self.now).points }
    {
        self.points.is_empty()
    }

    /// Goes back to the newest choice point, by its next candidate; false where it gives nothing.
    pub fn retry(&mut self) -> Result<bool, OutOfMemory>
        requires sound { IsSound false self.old }
        requires points { has_none (choices_of self.old).points ≡ false }
        ensures sound { IfOk result (λ running. IsSound running self.new) }
        ensures retries { IfOk result (λ running. Retries (choices_of self.old) running (choices_of self.new)) }
    {
        let Some(kept) = self.points.pop_back() else {
            unreachable!()
        };
        let mut untried = kept.untried;
        let Some(candidate) = untried.pop() else {
            unreachable!()
        };
        self.machine.undo(kept.mark);
        self.choose(candidate, untried)
    }

    // Takes the first goal apart by this candidate, and keeps the others, the first one last, in a choice point; false where it gives
    // nothing.
    #[inline(always)]
    fn choose(&mut self, candidate: Candidate, untried: Vec<Candidate>) -> Result<bool, OutOfMemory>
        requires open { IsOpen self.old.problem.now (parts_of self.old.machine) }
        requires index { IsIndexOf self.old.problem.now (arc_value self.old.index) }
        requires tries { AreTries (parts_of self.old.machine) (untried.items ++ candidate ∷ []) }
        requires points { AreKept self.old.problem.now (helds self.old.machine self.old.points.items) }
        requires marks { AreMarks self.old.machine self.old.points.items }
        requires based { IsBased self.old.machine self.old.points.items self.old.ancestor }
        ensures sound { IfOk result (λ running. IsSound running self.new) }
        ensures chose { IfOk result (λ running. ChoseOf self.old (untried.items ++ candidate ∷ []) running self.new) }
    {
        keep(&mut self.points, &self.machine, untried)?;
        let running = attempt(&mut self.machine, self.alloc, candidate)?;
        Ok(running)
    }
}

// Keeps a mark of a machine and its untried candidates, the first one last, in a choice point, if there are any.
#[inline(always)]
fn keep(
    points: &mut VecDeque<ChoicePoint>,
    machine: &Machine<'_>,
    untried: Vec<Candidate>,
) -> Result<(), OutOfMemory>
    requires fits { Fits (parts_of machine.now) }
    requires marks { AreMarks machine.now points.old.items }
    ensures puts { IfOk result (λ _. Puts (parts_of machine.now) untried.items (helds machine.now points.old.items)
        (helds machine.now points.new.items)) }
    ensures kept { IfOk result (λ _. KeepsKept (parts_of machine.now) untried.items
        (helds machine.now points.old.items) (helds machine.now points.new.items)) }
    ensures marks { IfOk result (λ _. AreMarks machine.now points.new.items) }
    ensures floors { IfOk result (λ _. KeepsFloors machine.now points.old.items points.new.items) }
{
    if untried.is_empty() {
        return Ok(());
    }
    points.reserve(1)?;
    points.push_back_reserved(ChoicePoint {
        mark: machine.mark(),
        untried,
    });
    Ok(())
}
