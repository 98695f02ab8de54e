//! That a worker searches a batch for which a pool has no place.
//!
//! A pool has place for more than can be made, so here all that a worker would leave to others comes back to it.
ghost use Rattle.std.specs.Prelude.{◌<◌, ◌≤◌, IfOk};
ghost use Rattle.ll_laws.specs.Valid.{IsValid};
ghost use Rattle.ll_make.specs.Kinds.{InRange};

use ll_bank::OutOfMemory;
use ll_crew::{CrewFault, Team, crew};
use ll_edge::Gate;
use ll_laws::{Counts, Event, Problem};
use ll_lexer::{TextFault, tokens};
use ll_make::MakeKind;
use ll_order::{OutFault, Outlet};
use ll_parser::{program, query};
use ll_polarity::{ask, load};
use ll_printer::term;
use std::alloc::Global;
use std::process::Abort;
use std::sync::Wait;
use std::sync::atomic::{AtomicU64, Ordering};
use std::test::Fail;
use std::thread::Threads;

const LONGEST_TEXT: usize = 16777216;

// A gate by which each batch comes back that a worker would leave to others, and how many came back.
#[derive(Drop)]
struct Apart {
    came_back: AtomicU64,
}

impl Gate for Apart {
    ghost returns = { λ gate. Unit {0} };

    fn pause(&self, _worker: u32, _claims: u64) {}

    fn gives_back(&self) -> bool {
        self.came_back.fetch_add(1, Ordering::SeqCst);
        true
    }
}

// A line for each answer that it is given, with the answer's term.
#[derive(Drop)]
struct Lines<'p> {
    alloc: Global,
    problem: &'p Problem,
    text: Vec<u8>,
}

// Appends the term of an event's answer, and a line feed.
fn write_event(
    alloc: Global,
    problem: &Problem,
    event: &Event,
    text: &mut Vec<u8>,
) -> Result<(), OutOfMemory> {
    if let Event::Answer(branch) = event {
        if let Some(at) = branch.terms.first() {
            term(alloc, &problem.names, &branch.bank, *at, text)?;
        }
    }
    text.push(b'\n')?;
    Ok(())
}

impl<'p> Outlet for Lines<'p> {
    type Found = Event;

    ghost takes = { λ before event after. Unit {0} };

    ghost breaks = { λ before event after. Unit {0} };

    ghost welcome = { λ outlet event. Unit {0} };

    ghost faults = { λ outlet. 0 };

    fn event(&mut self, event: Event) -> Result<(), OutFault> {
        match write_event(self.alloc, self.problem, &event, &mut self.text) {
            Ok(()) => Ok(()),
            Err(_) => Err(OutFault::OutOfMemory),
        }
    }
}

// The problem of a made program, with a bound that no branch comes to.
pub(crate) fn made(alloc: Global, kind: MakeKind, number: u32) -> Result<Problem, TextFault>
    requires { InRange kind number }
    ensures { IfOk result (λ problem. IsValid problem) }
{
    let text = ll_make::program(alloc, kind, number)?;
    if text.len() > LONGEST_TEXT {
        return Err(TextFault::OutOfMemory);
    }
    let list = tokens(alloc, &text)?;
    let tree = program(alloc, &list)?;
    let part = load(alloc, &tree)?;
    let list = tokens(alloc, b"go X")?;
    let tree = query(alloc, &list)?;
    let problem = ask(alloc, part, &tree, 100)?;
    Ok(problem)
}

// What a crew of so many workers gives that leave nothing to each other, and its counts.
fn search_apart<R: Threads + Wait + Sync>(
    team: &Team<'_, R, Apart>,
    problem: &Problem,
) -> Result<(Vec<u8>, Counts), CrewFault>
    requires { IsValid problem.now }
{
    let mut lines = Lines {
        alloc: team.alloc,
        problem,
        text: Vec::new(team.alloc),
    };
    let counts = crew(
        team.rt,
        team.alloc,
        problem,
        team.workers,
        team.gate,
        &mut lines,
    )?;
    Ok((lines.text, counts))
}

// Whether so many workers to whom batches come back give what one gives alone.
fn give_the_same<R: Threads + Wait + Sync>(
    rt: &R,
    alloc: Global,
    problem: &Problem,
    workers: u32,
    alone: &(Vec<u8>, Counts),
) -> Result<bool, CrewFault>
    requires workers { (0 < workers) × (workers ≤ 64) }
    requires valid { IsValid problem.now }
{
    let gate = apart_gate();
    let team = Team {
        rt,
        alloc,
        workers,
        gate: &gate,
    };
    let (text, counts) = search_apart(&team, problem)?;
    Ok(gate.came_back.load(Ordering::SeqCst) > 0 && text == alone.0 && counts == alone.1)
}

fn apart_gate() -> Apart {
    Apart {
        came_back: AtomicU64::new(0),
    }
}

// Searches a problem by one worker, and by 2, 3 and 8 to whom batches come back: all give so many answers, the same ones.
fn compare<R: Threads + Wait + Sync + Abort>(
    rt: &R,
    alloc: Global,
    problem: &Problem,
    answers: u64,
) -> Result<(), Fail>
    requires { IsValid problem.now }
{
    let gate = apart_gate();
    let one = Team {
        rt,
        alloc,
        workers: 1,
        gate: &gate,
    };
    let alone = search_apart(&one, problem)?;
    assert_eq!(rt; gate.came_back.load(Ordering::SeqCst), 0);
    assert_eq!(rt; alone.1.answers, answers);
    assert!(rt; give_the_same(rt, alloc, problem, 2, &alone)?);
    assert!(rt; give_the_same(rt, alloc, problem, 3, &alone)?);
    assert!(rt; give_the_same(rt, alloc, problem, 8, &alone)?);
    Ok(())
}

#[test]
fn choices_that_come_back_are_searched(rt: HostRuntime) -> Result<(), Fail> {
    let problem = made(rt.alloc(), MakeKind::Choice, 9)?;
    compare(&rt, rt.alloc(), &problem, 512)
}

#[test]
fn permutations_that_come_back_are_searched(rt: HostRuntime) -> Result<(), Fail> {
    let problem = made(rt.alloc(), MakeKind::Perm, 5)?;
    compare(&rt, rt.alloc(), &problem, 120)
}
