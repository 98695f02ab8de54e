//! Choices from three places: what one engine gives that goes from batch to batch, and how deep the batches are that are split off it.
ghost use Rattle.std.specs.Prelude.{◌≡◌, ◌<◌, [], length, true, All, IfOk, IfSome, OnOk};
ghost use Rattle.std.specs.Arc.{arc_value};
ghost use Rattle.ll_freeze.specs.Frozen.{alternatives_in};
ghost use Rattle.ll_laws.specs.Valid.{IsValid};
ghost use Rattle.ll_parser.specs.Raw.{ProgramTree};
ghost use Rattle.ll_parser.specs.Text.{programs};
ghost use Rattle.ll_parser.specs.Reads.{IsWhole};
ghost use Rattle.ll_polarity.specs.Faults.{program_faults};
ghost use Rattle.ll_polarity.specs.Asks.{part_of};
ghost use Rattle.test_engine.specs.Batches.{IsSharedOf, IsBatchOf};

use ll_bank::OutOfMemory;
use ll_engine::{Engine, Step2};
use ll_freeze::Frozen;
use ll_laws::{Batch, Event, Problem};
use ll_lexer::{TextFault, tokens};
use ll_make::MakeKind;
use ll_parser::{program, query};
use ll_polarity::{Loaded, ask, load};
use ll_printer::term;
use std::alloc::Global;
use std::process::Abort;
use std::sync::Arc;
use std::test::Fail;

const LONGEST_TEXT: usize = 16777216;

// The term of each answer, in the order of the search: every choice of a bit at each of three places, the last place the fastest.
const EIGHT: &[u8] = b"0::0::0::nil
0::0::1::nil
0::1::0::nil
0::1::1::nil
1::0::0::nil
1::0::1::nil
1::1::0::nil
1::1::1::nil
";

// The problem of the query `go X`, with a bound that no branch comes to.
fn asked(alloc: Global, part: Loaded) -> Result<Problem, TextFault>
    ensures { IfOk result (λ problem. (program : ProgramTree) → IsWhole programs program → program_faults program ≡ []
        → part ≡ part_of program → IsValid problem) }
{
    let list = tokens(alloc, b"go X")?;
    let tree = query(alloc, &list)?;
    let problem = ask(alloc, part, &tree, 100)?;
    Ok(problem)
}

// The problem of choices from three places.
fn choices(alloc: Global) -> Result<Problem, TextFault>
    ensures { IfOk result (λ problem. IsValid problem) }
{
    let text = ll_make::program(alloc, MakeKind::Choice, 3)?;
    if text.len() > LONGEST_TEXT {
        return Err(TextFault::OutOfMemory);
    }
    let list = tokens(alloc, &text)?;
    let tree = program(alloc, &list)?;
    let part = load(alloc, &tree)?;
    let problem = asked(alloc, part)?;
    Ok(problem)
}

// Appends the term of an event's answer, and a line feed.
fn write_event(
    alloc: Global,
    problem: &Problem,
    event: &Event,
    text: &mut Vec<u8>,
) -> Result<(), OutOfMemory> {
    if let Event::Answer(branch) = event {
        if let Some(at) = branch.terms.first() {
            term(alloc, &problem.names, &branch.bank, *at, text)?;
        }
    }
    text.push(b'\n')?;
    Ok(())
}

// A line for each event.
fn text_of(alloc: Global, problem: &Problem, events: &[Event]) -> Result<Vec<u8>, OutOfMemory> {
    let mut text = Vec::new(alloc);
    for event in events {
        write_event(alloc, problem, event, &mut text)?;
    }
    Ok(text)
}

// Steps an engine to its next event, which is put behind those that there are. False where it is done.
fn next_event(engine: &mut Engine<'_>, events: &mut Vec<Event>) -> Result<bool, OutOfMemory>
    ensures problem { OnOk result (engine.new.problem ≡ engine.old.problem) }
    ensures work { IfOk result (λ more. more ≡ true → engine.new.work < engine.old.work) }
{
    'steps: loop {
        match engine.step()? {
            Step2::Moved => {}
            Step2::Event(event) => {
                events.push(event)?;
                return Ok(true);
            }
            Step2::Done => return Ok(false),
        }
    }
}

// Steps an engine to its end.
fn finish(engine: &mut Engine<'_>, events: &mut Vec<Event>) -> Result<(), OutOfMemory>
    ensures { OnOk result (engine.new.problem ≡ engine.old.problem) }
{
    'events: loop {
        if !next_event(engine, events)? {
            return Ok(());
        }
    }
}

// Splits all choice points off an engine, the oldest first.
fn split_all<'p>(
    alloc: Global,
    engine: &mut Engine<'p>,
) -> Result<Vec<Arc<Frozen<'p>>>, OutOfMemory>
    ensures problem { OnOk result (engine.new.problem ≡ engine.old.problem) }
    ensures of { IfOk result (λ batches. All (IsSharedOf engine.old.problem) batches.items) }
{
    let mut batches = Vec::new(alloc);
    'points: loop {
        let Some(batch) = engine.split_oldest()? else {
            return Ok(batches);
        };
        batches.push(Arc::new(alloc, batch)?)?;
    }
}

// Goes on by an alternative of a batch, to its end.
fn go_on<'p>(
    engine: Engine<'p>,
    batch: Arc<Frozen<'p>>,
    k: u32,
    events: &mut Vec<Event>,
) -> Result<Engine<'p>, OutOfMemory>
    requires of { IsSharedOf engine.problem batch }
    requires inside { k < length (alternatives_in (arc_value batch)) }
    ensures { IfOk result (λ after. after.problem ≡ engine.entry.problem) }
{
    let mut next = engine.advance(batch, k)?;
    finish(&mut next, events)?;
    Ok(next)
}

// Goes on by each alternative of a batch.
fn go_through<'p>(
    mut engine: Engine<'p>,
    batch: Arc<Frozen<'p>>,
    events: &mut Vec<Event>,
) -> Result<Engine<'p>, OutOfMemory>
    requires of { IsSharedOf engine.problem batch }
    ensures { IfOk result (λ after. after.problem ≡ engine.entry.problem) }
{
    for k in 0..batch.len() {
        engine = go_on(engine, Arc::try_clone(&batch)?, k, events)?;
    }
    Ok(engine)
}

// Goes on by each alternative of these batches, the last batch first.
fn go_through_all<'p>(
    mut engine: Engine<'p>,
    mut batches: Vec<Arc<Frozen<'p>>>,
    events: &mut Vec<Event>,
) -> Result<(), OutOfMemory>
    requires of { All (IsSharedOf engine.problem) batches.items }
{
    'batches: while let Some(batch) = batches.pop() {
        engine = go_through(engine, batch, events)?;
    }
    Ok(())
}

// An engine of the start of a search, which shares.
fn sharing<'p>(alloc: Global, problem: &'p Problem) -> Result<Engine<'p>, OutOfMemory>
    requires { IsValid problem.now }
    ensures { IfOk result (λ engine. engine.problem ≡ problem.entry.now) }
{
    let start = Arc::new(alloc, Frozen::start(alloc, problem)?)?;
    Engine::resume_shared(alloc, problem, start, 0)
}

// Goes on from batch to batch: what is left after the next event is split off, but for what no choice point has.
fn go_by_batches(
    alloc: Global,
    mut engine: Engine<'_>,
    events: &mut Vec<Event>,
) -> Result<(), OutOfMemory> {
    let _more = next_event(&mut engine, events)?;
    let batches = split_all(alloc, &mut engine)?;
    finish(&mut engine, events)?;
    go_through_all(engine, batches, events)
}

// The events of a search by one engine that goes from batch to batch.
fn events_by_batches(alloc: Global, problem: &Problem) -> Result<Vec<Event>, OutOfMemory>
    requires { IsValid problem.now }
{
    let mut events = Vec::new(alloc);
    let engine = sharing(alloc, problem)?;
    go_by_batches(alloc, engine, &mut events)?;
    Ok(events)
}

// The events of a search by one engine alone.
fn events_alone(alloc: Global, problem: &Problem) -> Result<Vec<Event>, OutOfMemory>
    requires { IsValid problem.now }
{
    let mut events = Vec::new(alloc);
    let mut engine = Engine::start(alloc, problem)?;
    finish(&mut engine, &mut events)?;
    Ok(events)
}

// The events are the eight answers.
fn assert_eight(
    rt: &impl Abort,
    alloc: Global,
    problem: &Problem,
    events: &[Event],
) -> Result<(), OutOfMemory> {
    let text = text_of(alloc, problem, events)?;
    assert_eq!(rt; text.as_slice(), EIGHT);
    Ok(())
}

#[test]
fn one_engine_goes_through_every_batch(rt: HostRuntime) -> Result<(), Fail> {
    let alloc = rt.alloc();
    let problem = choices(alloc)?;
    assert_eight(&rt, alloc, &problem, &events_alone(alloc, &problem)?)?;
    assert_eight(&rt, alloc, &problem, &events_by_batches(alloc, &problem)?)?;
    Ok(())
}

// The oldest choice point of an engine after its next event.
fn split_next<'p>(alloc: Global, engine: &mut Engine<'p>) -> Result<Option<Frozen<'p>>, OutOfMemory>
    ensures problem { OnOk result (engine.new.problem ≡ engine.old.problem) }
    ensures of { IfOk result (λ o. IfSome o (λ batch. IsBatchOf engine.old.problem batch
        × (0 < length (alternatives_in batch)))) }
{
    let mut events = Vec::new(alloc);
    let _more = next_event(engine, &mut events)?;
    engine.split_oldest()
}

// How deep the batches are that are split off an engine, each at the first alternative of the one before.
fn depths<'p>(alloc: Global, mut engine: Engine<'p>) -> Result<Vec<u32>, OutOfMemory> {
    let mut depths = Vec::new(alloc);
    for _place in 0..3 {
        let Some(batch) = split_next(alloc, &mut engine)? else {
            return Ok(depths);
        };
        depths.push(batch.depth())?;
        engine = engine.advance(Arc::new(alloc, batch)?, 0)?;
    }
    Ok(depths)
}

// The batches that are split off an engine are so deep.
fn assert_depths(
    rt: &impl Abort,
    alloc: Global,
    engine: Engine<'_>,
    want: &[u32],
) -> Result<(), OutOfMemory> {
    let found = depths(alloc, engine)?;
    assert_eq!(rt; found.as_slice(), want);
    Ok(())
}

#[test]
fn what_is_split_off_shares_with_one_batch_more(rt: HostRuntime) -> Result<(), Fail> {
    let alloc = rt.alloc();
    let problem = choices(alloc)?;
    assert_depths(&rt, alloc, sharing(alloc, &problem)?, &[1, 2, 3])?;
    assert_depths(&rt, alloc, Engine::start(alloc, &problem)?, &[0, 1, 2])?;
    Ok(())
}
