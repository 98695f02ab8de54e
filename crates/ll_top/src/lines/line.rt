//! The lines of an answer, made by the worker that found it.
ghost use Rattle.std.specs.Prelude.{◌≡◌, [], IfOk, All, map, option_map};
ghost use Rattle.ll_top.specs.lines.Lines.{Tells, lines_behind, line_text};

use crate::lines::ghost_event::{GhostEvent, ghost_by, ghost_by_terms};
use crate::lines::outlet::Lined;
use ll_bank::{At, OutOfMemory};
use ll_laws::{Event, Notice, Problem, Step, Terms};
use ll_printer::{bindings_of, title};
use smallvec::SmallVec;
use std::alloc::Global;
use std::marker::{Brand, PhantomData};

/// So many bytes are the lines of most answers. They are kept in place, so those of a report lie one behind the other for its taker.
const ROOM: usize = 64;

/// Stands for the problem that is searched, which is known at run time only: a call that passes `Brand` picks it.
pub trait Asked: Send + Sync {
    ghost use Rattle.ll_laws.specs.Problem.{ProblemTree};

    // The problem.
    ghost problem: { ProblemTree };
}

impl Asked for Brand {
    ghost use Rattle.std.specs.Prelude.{[]};
    ghost use Rattle.ll_bank.specs.Form.{One};

    ghost problem = { record { names = []; modules = []; clauses = []; goal = One; asked = []; bound = 0 } };
}

/// What is printed of an event of the problem without proofs.
#[derive(Drop)]
pub struct Line<K: Asked> {
    // The lines of an answer behind its number. None stand for a branch that reached the bound.
    text: Option<SmallVec<u8, ROOM>>,
    event: GhostEvent,
    of: PhantomData<K>,
    ghost tells: { Tells K.problem (option_map (λ v. v.items) text) event.value },
}

impl<K: Asked> Notice for Line<K> {
    ghost stands_for = { λ line. line.event.value };

    ghost suits = { λ p. p ≡ K.problem };

    fn make(alloc: Global, problem: &Problem, event: Event) -> Result<Line<K>, OutOfMemory> {
        let text = match &event {
            Event::Answer(branch) => {
                Some(lines_behind(alloc, problem, &branch.bank, &branch.terms)?)
            }
            Event::Reached => None,
        };
        Ok(Line {
            text,
            event: ghost_by(&event),
            of: PhantomData,
        })
    }

    fn of_answer<T: Terms>(
        alloc: Global,
        problem: &Problem,
        terms: &T,
        places: &[At],
        steps: &[Step],
    ) -> Result<Option<Line<K>>, OutOfMemory> {
        let text = lines_behind(alloc, problem, terms, places)?;
        Ok(Some(Line {
            text: Some(text),
            event: ghost_by_terms(terms, places, steps),
            of: PhantomData,
        }))
    }

    fn is_answer(&self) -> bool {
        self.text.is_some()
    }
}

impl<K: Asked> Lined for Line<K> {
    ghost makes = { λ proofs problem answers event. line_text K.problem answers event };

    fn write(
        &self,
        _alloc: Global,
        _problem: &Problem,
        _proofs: bool,
        answers: u64,
        lines: &mut Vec<u8>,
    ) -> Result<u64, OutOfMemory> {
        lines.clear();
        let Some(text) = &self.text else {
            return Ok(answers);
        };
        let number = answers.saturating_add(1);
        title(number, lines)?;
        lines.extend_from_slice(text.as_slice())?;
        Ok(number)
    }
}

// The lines of an answer behind its number, whose terms stand at these places. An answer that lacks a term of a variable that is asked for
// has none.
fn lines_behind<T: Terms>(
    alloc: Global,
    problem: &Problem,
    terms: &T,
    places: &[At],
) -> Result<SmallVec<u8, ROOM>, OutOfMemory>
    requires { All (λ a. T.has terms.now a.0) places.now }
    ensures { IfOk result (λ lines. lines.items
        ≡ lines_behind problem.now (record { terms = map (λ a. T.tree terms.now a.0) places.now; steps = [] })) }
{
    let mut lines = Vec::with_capacity(alloc, ROOM)?;
    if problem.asked.len() <= places.len() {
        bindings_of(alloc, problem, terms, places, &mut lines)?;
    }
    Ok(SmallVec::from_vec(lines))
}
