// What writes the events of a search as they come.
ghost use Rattle.std.specs.Prelude.{◌≡◌, ℕ, ◌++◌, ◌<◌, ◌≤◌, [], length, Some, Err, IfOk, IfErr, OnOk, OnErr, Contains};
ghost use Rattle.std.specs.Io.KnownBytes.{append_known};
ghost use Rattle.ll_edge.specs.Counts.{Rose};
ghost use Rattle.ll_edge.specs.Pieces.{AppendsFront};
ghost use Rattle.ll_laws.specs.declared.Event.{Event};
ghost use Rattle.ll_laws.specs.declared.Event.TheVariants.{Answer};
ghost use Rattle.ll_laws.specs.Dealt.{dealt};
ghost use Rattle.ll_laws.specs.Problem.{problem_events};
ghost use Rattle.ll_laws.specs.ProofText.{derivation_text};
ghost use Rattle.ll_laws.specs.Valid.{IsValid};
ghost use Rattle.ll_order.specs.declared.outlet.OutFault.TheVariants.{Write, OutOfMemory};
ghost use Rattle.ll_top.specs.lines.Running.{AnswersAll, TellsFaults, Puts, event_lines, counted};

use ll_bank::OutOfMemory;
use ll_edge::{Sink, write_all};
use ll_laws::{Branch, Event, Notice, Problem};
use ll_order::{OutFault, Outlet};
use ll_printer::answer;
use ll_prooftext::write;
use ll_trace::explain;
use std::alloc::Global;
use std::marker::PhantomData;

/// From so many bytes on, lines that wait are written.
const FULL: usize = 65536;

/// What an outlet of lines takes of an event: as much of it as the lines are made of.
pub trait Lined: Notice {
    ghost use Rattle.std.specs.Prelude.{ℕ, List, Bool};
    ghost use Rattle.ll_laws.specs.declared.Event.{Event};
    ghost use Rattle.ll_laws.specs.Problem.{ProblemTree};

    // The lines that it makes of an event, with proofs or without, for a problem, after so many answers.
    ghost makes: { Bool → ProblemTree → ℕ → Event → List ℕ };

    /// Makes the lines of its event, which comes after so many answers, with proofs or without, and tells how many answers there are with it,
    /// up to the greatest `u64`. After a refusal nothing is said of the lines.
    fn write(
        &self,
        alloc: Global,
        problem: &Problem,
        proofs: bool,
        answers: u64,
        lines: &mut Vec<u8>,
    ) -> Result<u64, OutOfMemory>
        requires valid { IsValid problem.now }
        requires found { Contains (problem_events problem.now) (Self.stands_for self.now) }
        requires all { AnswersAll problem.now (Self.stands_for self.now) }
        ensures answers { IfOk result (λ number. number ≡ counted answers (Self.stands_for self.now)) }
        ensures lines { OnOk result (lines.new.items ≡ makes proofs problem.now answers (Self.stands_for self.now)) };
}

impl Lined for Event {
    ghost makes = { event_lines };

    fn write(
        &self,
        alloc: Global,
        problem: &Problem,
        proofs: bool,
        answers: u64,
        lines: &mut Vec<u8>,
    ) -> Result<u64, OutOfMemory> {
        lines.clear();
        let Event::Answer(branch) = self else {
            return Ok(answers);
        };
        let number = answers.saturating_add(1);
        answer(alloc, problem, number, branch, lines)?;
        if proofs {
            write_proof(alloc, problem, branch, lines)?;
        }
        Ok(number)
    }
}

/// An outlet that writes the lines of each event to a sink when it is given it: an answer with its number and, with proofs, the text of
/// its derivation. Of events that come together the lines are written together, some tens of thousands of bytes at a time.
#[derive(Drop)]
pub struct Writing<'p, 's, O, E> {
    pub alloc: Global,
    pub problem: &'p Problem,
    pub proofs: bool,
    pub sink: &'s mut O,
    /// Room for the lines of one event.
    pub lines: &'s mut Vec<u8>,
    /// Lines that are to be written with those of the next event. None between two calls.
    pub waiting: &'s mut Vec<u8>,
    /// How many answers were taken, up to the greatest `u64`.
    pub answers: u64,
    /// A write failed.
    pub failed: bool,
    pub of: PhantomData<E>,
}

impl<'p, 's, O: Sink, E: Lined> Outlet for Writing<'p, 's, O, E> {
    type Found = E;

    ghost use Rattle.ll_top.specs.lines.Running.{Writes, BreaksOff, IsWelcome, IsReady, told_with};

    ghost takes = { λ before event after. Writes
        (told_with before.problem.now before.proofs before.answers (Some (O.taken before.sink.now)) (O.faults before.sink.now)
        before.failed before.sink.ghost_name before.waiting.now.items)
        event
        (told_with after.problem.now after.proofs after.answers (Some (O.taken after.sink.now)) (O.faults after.sink.now)
        after.failed after.sink.ghost_name after.waiting.now.items) };

    ghost breaks = { λ before event after. BreaksOff
        (told_with before.problem.now before.proofs before.answers (Some (O.taken before.sink.now)) (O.faults before.sink.now)
        before.failed before.sink.ghost_name before.waiting.now.items)
        event
        (told_with after.problem.now after.proofs after.answers (Some (O.taken after.sink.now)) (O.faults after.sink.now)
        after.failed after.sink.ghost_name after.waiting.now.items) };

    ghost welcome = { λ outlet event. IsWelcome outlet.problem.now event
        × IsReady E.makes outlet.proofs outlet.problem.now outlet.waiting.now.items };

    ghost faults = { λ outlet. O.faults outlet.sink.now };

    fn event(&mut self, event: E) -> Result<(), OutFault> {
        let made = event.write(
            self.alloc,
            self.problem,
            self.proofs,
            self.answers,
            self.lines,
        );
        let Ok(answers) = made else {
            return Err(OutFault::OutOfMemory);
        };
        let Ok(()) = write_all(self.sink, self.lines) else {
            self.failed = true;
            return Err(OutFault::Write);
        };
        self.answers = answers;
        Ok(())
    }

    fn events(&mut self, events: &mut Vec<E>) -> Result<(), OutFault> {
        if events.is_empty() {
            return Ok(());
        }
        for event in events.as_slice() {
            let made = event.write(
                self.alloc,
                self.problem,
                self.proofs,
                self.answers,
                self.lines,
            );
            let Ok(answers) = made else {
                return Err(refuse(self.waiting, self.sink, &mut self.failed));
            };
            match put(self.lines, self.waiting, self.sink, &mut self.failed) {
                Ok(()) => self.answers = answers,
                Err(fault) => return Err(fault),
            }
        }
        write_waiting(self.waiting, self.sink, &mut self.failed)
    }
}

// Puts lines behind those that wait, and writes all of them where they are many. After a refusal none wait.
fn put<O: Sink>(
    lines: &[u8],
    waiting: &mut Vec<u8>,
    sink: &mut O,
    failed: &mut bool,
) -> Result<(), OutFault>
    ensures faults_kept { O.faults sink.old ≤ O.faults sink.new }
    ensures tells { TellsFaults failed.old (O.faults sink.old) failed.new (O.faults sink.new) }
    ensures quiet { OnOk result (O.faults sink.new ≡ O.faults sink.old) }
    ensures put { OnOk result (Puts (Some (O.taken sink.old)) waiting.old.items lines.now
        (Some (O.taken sink.new)) waiting.new.items) }
    ensures none { OnErr result (waiting.new.items ≡ []) }
    ensures cut { OnErr result (AppendsFront (Some (O.taken sink.old)) (waiting.old.items ++ lines.now)
        (Some (O.taken sink.new))) }
    ensures memory { result ≡ Err OutOfMemory → O.faults sink.new ≡ O.faults sink.old }
    ensures write { result ≡ Err Write → Rose (O.faults sink.old) (O.faults sink.new) }
{
    let Ok(()) = waiting.extend_from_slice(lines) else {
        return Err(refuse(waiting, sink, failed));
    };
    if waiting.len() < FULL {
        return Ok(());
    }
    write_waiting(waiting, sink, failed)
}

// Writes the lines that wait. None wait after it.
fn write_waiting<O: Sink>(
    waiting: &mut Vec<u8>,
    sink: &mut O,
    failed: &mut bool,
) -> Result<(), OutFault>
    ensures faults_kept { O.faults sink.old ≤ O.faults sink.new }
    ensures tells { TellsFaults failed.old (O.faults sink.old) failed.new (O.faults sink.new) }
    ensures quiet { OnOk result (O.faults sink.new ≡ O.faults sink.old) }
    ensures cause { IfErr result (λ fault. fault ≡ Write) }
    ensures none { waiting.new.items ≡ [] }
    ensures written { OnOk result (Some (O.taken sink.new) ≡ append_known (Some (O.taken sink.old)) waiting.old.items) }
    ensures cut { OnErr result ((0 < length waiting.old.items)
        × AppendsFront (Some (O.taken sink.old)) waiting.old.items (Some (O.taken sink.new))) }
    ensures write { OnErr result (Rose (O.faults sink.old) (O.faults sink.new)) }
{
    if waiting.is_empty() {
        return Ok(());
    }
    let written = write_all(sink, waiting);
    waiting.clear();
    match written {
        Ok(()) => Ok(()),
        Err(_) => {
            *failed = true;
            Err(OutFault::Write)
        }
    }
}

// Writes the lines that wait where memory runs out for more of them. Out of memory is answered only where all of them were written.
fn refuse<O: Sink>(waiting: &mut Vec<u8>, sink: &mut O, failed: &mut bool) -> OutFault
    ensures faults_kept { O.faults sink.old ≤ O.faults sink.new }
    ensures tells { TellsFaults failed.old (O.faults sink.old) failed.new (O.faults sink.new) }
    ensures memory { result ≡ OutOfMemory → (O.faults sink.new ≡ O.faults sink.old)
        × (Some (O.taken sink.new) ≡ append_known (Some (O.taken sink.old)) waiting.old.items) }
    ensures none { waiting.new.items ≡ [] }
    ensures cut { AppendsFront (Some (O.taken sink.old)) waiting.old.items (Some (O.taken sink.new)) }
    ensures write { result ≡ Write → Rose (O.faults sink.old) (O.faults sink.new) }
{
    match write_waiting(waiting, sink, failed) {
        Ok(()) => OutFault::OutOfMemory,
        Err(fault) => fault,
    }
}

// Appends the text of the derivation of an answer. After a refusal some first bytes of it may have been appended.
fn write_proof(
    alloc: Global,
    problem: &Problem,
    branch: &Branch,
    lines: &mut Vec<u8>,
) -> Result<(), OutOfMemory>
    requires valid { IsValid problem.now }
    requires found { Contains (problem_events problem.now) (Answer branch.now) }
    ensures { OnOk result (lines.new.items ≡ lines.old.items ++ derivation_text problem.now.names
        (dealt problem.now branch.now)) }
{
    let derivation = explain(alloc, problem, branch)?;
    write(alloc, &problem.names, &derivation, lines)
}
