//! Engines, and one turn of an engine.
ghost use Rattle.std.specs.Prelude.{◌≡◌, ◌<◌, true, false, length, map, slice_get, Some, IfOk, OnErr, IsErr};
ghost use Rattle.std.specs.Arc.{arc_value};
ghost use Rattle.ll_laws.specs.Pool.{Owed};
ghost use Rattle.ll_laws.specs.declared.Event.{Event as TheEvent};
ghost use Rattle.ll_freeze.specs.Frozen.{alternatives_in};
ghost use Rattle.ll_freeze.specs.Indexed.{IsIndexOf};
ghost use Rattle.ll_laws.specs.Valid.{IsValid};
ghost use Rattle.ll_engine.specs.Pointed.{choices_of, IsSound};
ghost use Rattle.ll_engine.specs.Turned.{Turned, has_none};
ghost use Rattle.ll_engine.specs.Moves.{ends_in, found_by, made_of, running_of};
ghost use Rattle.ll_engine.specs.Steps.{Notes, Steps, fresh};
ghost use Rattle.ll_engine.specs.Owed.{owing};
ghost use Rattle.ll_engine.specs.Healthy.{Healthy};
ghost use Rattle.ll_engine.specs.Resumes.{Resumes, resumed};
ghost use Rattle.ll_engine.specs.Splits.{Splits};

use crate::choices::Choices;
use ll_bank::OutOfMemory;
use ll_freeze::Frozen;
use ll_index::Index;
use ll_laws::{Event, Notice, Problem};
use std::alloc::{AllocError, Global};
use std::marker::Model;
use std::sync::Arc;

/// What one step of an engine came to, where its event is noted elsewhere.
#[derive(Clone, Copy)]
pub enum Progress {
    /// It went on, with no event.
    Moved,
    /// The next event was noted.
    Noted,
    /// Nothing is left.
    Done,
}

/// What one step of an engine did.
#[derive(Drop)]
pub enum Step2 {
    /// It went on, with no event.
    Moved,
    /// It came to the next event.
    Event(Event),
    /// Nothing is left.
    Done,
}

// What one turn gave, and whether a state is to be searched next.
#[derive(Clone, Copy)]
enum Move {
    // No inference was made, or one that was counted already: that of a goal whose further candidate was tried.
    Quiet { running: bool },
    // One inference was made.
    Inferred { running: bool },
    // The branch ends, in an answer or at the bound. The machine shows its last state still.
    Ends { answers: bool },
}

// A turn with a state that is to be searched.
fn search(choices: &mut Choices<'_>) -> Result<Move, OutOfMemory>
    requires sound { IsSound true choices.old }
    ensures sound { IfOk result (λ m. IsSound (running_of m) choices.new) }
    ensures shown { IfOk result (λ m. ends_in m ≡ true → IsSound true choices.new) }
    ensures turned { IfOk result (λ m. Turned (choices_of choices.old) true (found_by m (choices_of choices.new)) (made_of m)
        (choices_of choices.new) (running_of m)) }
{
    if !choices.settle()? {
        return Ok(Move::Quiet { running: false });
    }
    if choices.is_empty() {
        if choices.answers() {
            return Ok(Move::Ends { answers: true });
        }
        return Ok(Move::Quiet { running: false });
    }
    if choices.left() == 0 {
        return Ok(Move::Ends { answers: false });
    }
    let running = choices.expand()?;
    Ok(Move::Inferred { running })
}

// A turn with the newest choice point.
fn go_back(choices: &mut Choices<'_>) -> Result<Move, OutOfMemory>
    requires sound { IsSound false choices.old }
    requires points { has_none (choices_of choices.old).points ≡ false }
    ensures sound { IfOk result (λ m. IsSound (running_of m) choices.new) }
    ensures shown { IfOk result (λ m. ends_in m ≡ true → IsSound true choices.new) }
    ensures turned { IfOk result (λ m. Turned (choices_of choices.old) false (found_by m (choices_of choices.new)) (made_of m)
        (choices_of choices.new) (running_of m)) }
{
    let running = choices.retry()?;
    Ok(Move::Quiet { running })
}

// A turn with the state that is to be searched, if there is one, and otherwise with the newest choice point.
fn turn(choices: &mut Choices<'_>, running: bool) -> Result<Move, OutOfMemory>
    requires sound { IsSound running choices.old }
    requires points { running ≡ false → has_none (choices_of choices.old).points ≡ false }
    ensures sound { IfOk result (λ m. IsSound (running_of m) choices.new) }
    ensures shown { IfOk result (λ m. ends_in m ≡ true → IsSound true choices.new) }
    ensures turned { IfOk result (λ m. Turned (choices_of choices.old) running (found_by m (choices_of choices.new))
        (made_of m) (choices_of choices.new) (running_of m)) }
{
    if running {
        search(choices)
    } else {
        go_back(choices)
    }
}

/// A depth-first engine. Contracts see it as its problem, the events and the inferences that it still owes, the number of its
/// choice points with a candidate that was not tried, the state in which it began, how many choice points were split off, and how far
/// it is from its end.
pub struct Engine<'p> {
    choices: Choices<'p>,
    // The state of the choices is still to be searched.
    running: bool,
    // How many choice points were split off.
    splits: u64,
    made: u64,
    spent: bool,
}

// Written out, so that a proof sees one call where it goes, and not one for each part.
impl Drop for Engine<'_> {
    fn drop(self) {
        let Engine {
            choices: _,
            running: _,
            splits: _,
            made: _,
            spent: _,
        } = self;
    }
}

impl<'p> Model for Engine<'p> {
    ghost use Rattle.std.specs.Prelude.{◌≡◌, false};
    ghost use Rattle.ll_engine.specs.Seen.{Owing};
    ghost use Rattle.ll_engine.specs.Codes.{owing_code};
    ghost use Rattle.ll_engine.specs.Owed.{owing};
    ghost use Rattle.ll_engine.specs.Healthy.{Healthy};
    ghost use Rattle.ll_engine.specs.Pointed.{choices_of, IsSound};

    ghost Value = { Owing };

    ghost coded = { owing_code };

    ghost view = { λ e. owing (choices_of e.choices) e.running e.made e.splits e.spent };

    ghost invariant = { λ e. e.spent ≡ false → (IsSound e.running e.choices × Healthy e.splits e.running (choices_of e.choices)) };
}

// The engine of a machine as it began: nothing was split off, and no inference made.
fn begun<'p>(choices: Choices<'p>) -> Engine<'p>
    requires sound { IsSound choices.began choices }
    requires healthy { Healthy 0 choices.began (choices_of choices) }
    ensures { result ≡ owing (choices_of choices.entry) choices.entry.began 0 0 false }
{
    let running = choices.began;
    Engine {
        choices,
        running,
        splits: 0,
        made: 0,
        spent: false,
    }
}

impl<'p> Engine<'p> {
    /// An engine that owes the whole search of a valid problem.
    pub fn start(alloc: Global, problem: &'p Problem) -> Result<Engine<'p>, OutOfMemory>
        requires valid { IsValid problem.now }
        ensures { IfOk result (λ e. e ≡ fresh problem.entry.now) }
    {
        let index = Index::shared(alloc, problem)?;
        Engine::start_with(alloc, problem, index)
    }

    /// The same engine, with an index of the problem's clauses that was made before.
    pub fn start_with(
        alloc: Global,
        problem: &'p Problem,
        index: Arc<Index>,
    ) -> Result<Engine<'p>, OutOfMemory>
        requires valid { IsValid problem.now }
        requires index { IsIndexOf problem.now (arc_value index) }
        ensures { IfOk result (λ e. e ≡ fresh problem.entry.now) }
    {
        let choices = Choices::start(alloc, problem, index)?;
        Ok(Engine {
            choices,
            running: true,
            splits: 0,
            made: 0,
            spent: false,
        })
    }

    /// An engine that owes what an alternative of a frozen choice point of this problem owes. That of the start is the engine of the problem.
    pub fn resume(
        alloc: Global,
        problem: &'p Problem,
        frozen: &Frozen<'p>,
        k: u32,
    ) -> Result<Engine<'p>, OutOfMemory>
        requires inside { k < length (alternatives_in frozen.now) }
        requires of { frozen.now.problem ≡ problem.now }
        ensures resumed { IfOk result (λ e. e ≡ resumed frozen.now k) }
        ensures owes { IfOk result (λ e. (owes : Owed TheEvent) → slice_get (alternatives_in frozen.now) k ≡ Some owes
            → Resumes problem.entry.now owes e) }
    {
        let choices = Choices::resume(alloc, problem, frozen, k)?;
        Ok(begun(choices))
    }

    /// The same for a batch that the engine keeps: what is split off shares the store of the batch, as long as it would not share with more
    /// than 64.
    pub fn resume_shared(
        alloc: Global,
        problem: &'p Problem,
        frozen: Arc<Frozen<'p>>,
        k: u32,
    ) -> Result<Engine<'p>, OutOfMemory>
        requires inside { k < length (alternatives_in (arc_value frozen)) }
        requires of { (arc_value frozen).problem ≡ problem.now }
        ensures resumed { IfOk result (λ e. e ≡ resumed (arc_value frozen.entry) k) }
        ensures owes { IfOk result (λ e. (owes : Owed TheEvent)
            → slice_get (alternatives_in (arc_value frozen.entry)) k ≡ Some owes → Resumes problem.entry.now owes e) }
    {
        let choices = Choices::resume_shared(alloc, problem, frozen, k)?;
        Ok(begun(choices))
    }

    /// An engine for an alternative of another batch of the same problem, as `resume_shared` gives it. The index and the room for branches
    /// are those of this engine.
    ///
    /// This engine is spent in every case, whatever it still owes.
    pub fn advance(self, to: Arc<Frozen<'p>>, k: u32) -> Result<Engine<'p>, OutOfMemory>
        requires inside { k < length (alternatives_in (arc_value to)) }
        requires of { (arc_value to).problem ≡ self.problem }
        ensures resumed { IfOk result (λ e. e ≡ resumed (arc_value to.entry) k) }
        ensures owes { IfOk result (λ e. (owes : Owed TheEvent) → slice_get (alternatives_in (arc_value to.entry)) k
            ≡ Some owes → Resumes self.entry.problem owes e) }
    {
        let Engine {
            choices,
            running: _,
            splits: _,
            made: _,
            spent,
        } = self;
        if spent {
            return Engine::resume_shared(choices.alloc, choices.problem, to, k);
        }
        let choices = choices.advance(to, k)?;
        Ok(begun(choices))
    }

    /// Goes on by one step. After a refusal the engine is spent: every later step is refused too.
    ///
    /// Each step but `Done` lessens the work that is left. After an answer at least as many choice points have an untried
    /// candidate as the way to it has forks, less those that were split off.
    pub fn step(&mut self) -> Result<Step2, OutOfMemory>
        ensures spent { self.old.spent ≡ true → IsErr result }
        ensures refused { OnErr result (self.new.spent ≡ true) }
        ensures step { IfOk result (λ s. Steps self.old s self.new) }
    {
        let mut events = Vec::new(self.choices.alloc);
        match self.note(&mut events)? {
            Progress::Moved => Ok(Step2::Moved),
            Progress::Noted => match events.pop() {
                Some(event) => Ok(Step2::Event(event)),
                None => unreachable!(),
            },
            Progress::Done => Ok(Step2::Done),
        }
    }

    /// Goes on by one step, as `step` does, and puts what stands for its event behind what there is. The terms of an answer are copied only
    /// where its notice is not made of those of the machine.
    ///
    /// A refusal notes nothing.
    pub fn note<E: Notice>(&mut self, events: &mut Vec<E>) -> Result<Progress, OutOfMemory>
        requires suits { E.suits self.old.problem }
        ensures spent { self.old.spent ≡ true → IsErr result }
        ensures refused { OnErr result (self.new.spent ≡ true) }
        ensures kept { OnErr result (events.new.items ≡ events.old.items) }
        ensures step { IfOk result (λ p. Notes self.old p (map E.stands_for events.old.items)
            (map E.stands_for events.new.items) self.new) }
    {
        if self.spent {
            return Err(AllocError);
        }
        let made = self.made;
        if !self.running && self.choices.is_over() {
            return Ok(Progress::Done);
        }
        self.spent = true;
        let went = turn(&mut self.choices, self.running)?;
        match went {
            Move::Quiet { running } => {
                self.running = running;
                self.spent = false;
                Ok(Progress::Moved)
            }
            Move::Inferred { running } => {
                self.running = running;
                self.made = made.saturating_add(1);
                self.spent = false;
                Ok(Progress::Moved)
            }
            Move::Ends { answers } => {
                let notice = self.choices.notice(answers)?;
                events.push(notice)?;
                self.running = false;
                self.spent = false;
                Ok(Progress::Noted)
            }
        }
    }

    /// Splits the oldest choice point off, for another engine: what was owed is then what this one still owes, followed by what the batch
    /// owes. `None` exactly where no choice point has an untried candidate.
    ///
    /// After a refusal the engine is spent. More candidates than a `u32` counts, and more splits than a `u64` counts, are refused.
    pub fn split_oldest(&mut self) -> Result<Option<Frozen<'p>>, OutOfMemory>
        ensures spent { self.old.spent ≡ true → IsErr result }
        ensures refused { OnErr result (self.new.spent ≡ true) }
        ensures split { IfOk result (λ b. Splits self.old b self.new) }
    {
        if self.spent {
            return Err(AllocError);
        }
        if self.choices.is_over() {
            return Ok(None);
        }
        self.spent = true;
        if self.splits == u64::MAX {
            return Err(AllocError);
        }
        let batch = self.choices.split()?;
        self.splits += 1;
        self.spent = false;
        Ok(Some(batch))
    }

    /// The number of inferences made so far, cut at the greatest `u64`.
    pub fn cost(&self) -> u64
        ensures { result ≡ self.now.made }
    {
        self.made
    }
}
