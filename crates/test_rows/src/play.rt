// Running a row.
use crate::derivations::{Written, derivations_in};
use crate::outcome::{Failure, Outcome, Trial, UNWRITABLE};
use crate::row::Row;
use ll_edge::{MemShelf, MemSink, OpenGate};
use std::alloc::{AllocError, Global};
use std::sync::Wait;
use std::thread::Threads;

// The room of a sink that isn't limited, past what is wanted.
const SPARE_ROOM: usize = 1000;

/// Why a row fails, if it does.
///
/// The row is run as it stands, by the top call and, where that answers, by the plain one. Then it is run with each fault of
/// the sink that is to cut its output, and each derivation that it wrote is checked and covered.
pub fn failure_of<R: Threads + Wait + Sync>(
    rt: &R,
    alloc: Global,
    row: &Row,
) -> Result<Option<Failure>, AllocError> {
    if let Some(failure) = whole_failure(rt, alloc, row)? {
        return Ok(Some(failure));
    }
    if let Some(failure) = plain_failure(alloc, row)? {
        return Ok(Some(failure));
    }
    if let Some(failure) = call_failure(rt, alloc, row)? {
        return Ok(Some(failure));
    }
    if let Some(failure) = room_failure(rt, alloc, row)? {
        return Ok(Some(failure));
    }
    derivation_failure(alloc, row)
}

// The row as it stands.
fn whole_failure<R: Threads + Wait + Sync>(
    rt: &R,
    alloc: Global,
    row: &Row,
) -> Result<Option<Failure>, AllocError> {
    let came = play(rt, alloc, row, own_sink(alloc, row)?)?;
    unless_wanted(alloc, Trial::Whole, came, row.status, &row.output)
}

// The row as it stands, by the call that serves all but runs.
fn plain_failure(alloc: Global, row: &Row) -> Result<Option<Failure>, AllocError> {
    let words = words_of(alloc, row)?;
    let mut shelf = shelf_of(alloc, row, &row.derivation)?;
    let mut sink = own_sink(alloc, row)?;
    match ll_top::lolli_plain(alloc, &words, &mut shelf, &mut sink) {
        Some(status) => {
            let came = outcome(alloc, status, &sink)?;
            unless_wanted(alloc, Trial::Plain, came, row.status, &row.output)
        }
        None => Ok(None),
    }
}

// Each call of the sink that cuts the output, and the one behind them, which is never made.
fn call_failure<R: Threads + Wait + Sync>(
    rt: &R,
    alloc: Global,
    row: &Row,
) -> Result<Option<Failure>, AllocError> {
    for call in 0..row.cut_by_calls {
        let came = play(rt, alloc, row, failing_sink(alloc, row, call)?)?;
        if !came.is_cut_from(&row.output) {
            let wanted = wanted(alloc, UNWRITABLE, &row.output)?;
            let trial = Trial::CallFails(call);
            return Ok(Some(Failure {
                trial,
                wanted,
                came,
            }));
        }
    }
    if row.cut_by_calls == 0 {
        return Ok(None);
    }
    let came = play(rt, alloc, row, failing_sink(alloc, row, row.cut_by_calls)?)?;
    unless_wanted(
        alloc,
        Trial::CallFails(row.cut_by_calls),
        came,
        row.status,
        &row.output,
    )
}

// Each room of the sink that cuts the output.
fn room_failure<R: Threads + Wait + Sync>(
    rt: &R,
    alloc: Global,
    row: &Row,
) -> Result<Option<Failure>, AllocError> {
    for room in 0..row.cut_by_rooms {
        let sink = MemSink::new(alloc, room as usize, Vec::new(alloc))?;
        let came = play(rt, alloc, row, sink)?;
        let front = row.output.get(..room as usize).unwrap_or(&row.output);
        let failure = unless_wanted(alloc, Trial::RoomEnds(room), came, UNWRITABLE, front)?;
        if failure.is_some() {
            return Ok(failure);
        }
    }
    Ok(None)
}

// Each derivation that a row with `--proofs` wrote is checked, and covered with the row's bound, unless it counts numbers.
fn derivation_failure(alloc: Global, row: &Row) -> Result<Option<Failure>, AllocError> {
    let Ok(output) = str::from_utf8(&row.output) else {
        return Ok(None);
    };
    if row.status != 0 || !asks_for_derivations(row) {
        return Ok(None);
    }
    let mut number = 0usize;
    for derivation in &derivations_in(alloc, output)? {
        number = number.saturating_add(1);
        if let Some(failure) = check_failure(alloc, row, derivation, number)? {
            return Ok(Some(failure));
        }
        if let Some(failure) = cover_failure(alloc, row, derivation, number)? {
            return Ok(Some(failure));
        }
    }
    Ok(None)
}

// Whether the row has the word `--proofs`. What a conversion writes is of no search.
fn asks_for_derivations(row: &Row) -> bool {
    row.words.iter().any(|word| word.as_str() == "--proofs")
}

// The derivation with this number is checked.
fn check_failure(
    alloc: Global,
    row: &Row,
    derivation: &Written,
    number: usize,
) -> Result<Option<Failure>, AllocError> {
    let words = ["check", "prog", "ques", "proof"];
    let came = judge(alloc, row, derivation.text.as_bytes(), &words)?;
    let nodes = derivation.nodes;
    let line = format!(in alloc; "yes, nodes {nodes}\n")?;
    unless_wanted(alloc, Trial::Checked(number), came, 0, line.as_bytes())
}

// The derivation with this number is covered with the row's bound, unless it counts numbers. An answer before its own may cover it too.
fn cover_failure(
    alloc: Global,
    row: &Row,
    derivation: &Written,
    number: usize,
) -> Result<Option<Failure>, AllocError> {
    if derivation.counts_numbers {
        return Ok(None);
    }
    let words = ["cover", "prog", "ques", "proof", "--bound", bound_of(row)];
    let came = judge(alloc, row, derivation.text.as_bytes(), &words)?;
    if came.is_covered() {
        return Ok(None);
    }
    let line = format!(in alloc; "covered by answer {number}\n")?;
    unless_wanted(alloc, Trial::Covered(number), came, 0, line.as_bytes())
}

// The word behind `--bound`, or behind `--to` in a deepening.
fn bound_of(row: &Row) -> &str {
    let mut behind = false;
    for word in &row.words {
        if behind {
            return word.as_str();
        }
        behind = word.as_str() == "--bound" || word.as_str() == "--to";
    }
    ""
}

// What a run of the row over this sink comes to.
fn play<R: Threads + Wait + Sync>(
    rt: &R,
    alloc: Global,
    row: &Row,
    mut sink: MemSink,
) -> Result<Outcome, AllocError> {
    let words = words_of(alloc, row)?;
    let mut shelf = shelf_of(alloc, row, &row.derivation)?;
    let status = ll_top::lolli(rt, alloc, &words, &mut shelf, &mut sink, &OpenGate);
    outcome(alloc, status, &sink)
}

// What these words, of a check or a cover, come to with this derivation, over the row's program and query.
fn judge(
    alloc: Global,
    row: &Row,
    derivation: &[u8],
    words: &[&str],
) -> Result<Outcome, AllocError> {
    let mut shelf = shelf_of(alloc, row, derivation)?;
    let mut sink = MemSink::new(alloc, SPARE_ROOM, Vec::new(alloc))?;
    // The words of a check or a cover are in a form that the plain call serves.
    let status = ll_top::lolli_plain(alloc, words, &mut shelf, &mut sink).unwrap_or(u8::MAX);
    outcome(alloc, status, &sink)
}

fn words_of<'r>(alloc: Global, row: &'r Row) -> Result<Vec<&'r str>, AllocError> {
    let mut words = Vec::new(alloc);
    for word in &row.words {
        words.push(word.as_str())?;
    }
    Ok(words)
}

// A shelf with the row's texts, but with this derivation.
fn shelf_of(alloc: Global, row: &Row, derivation: &[u8]) -> Result<MemShelf, AllocError> {
    let program = Vec::from_slice(alloc, &row.program)?;
    let query = Vec::from_slice(alloc, &row.query)?;
    let derivation = Vec::from_slice(alloc, derivation)?;
    let mut texts = Vec::new(alloc);
    texts.push((String::from_str(alloc, "prog")?, program))?;
    texts.push((String::from_str(alloc, "ques")?, query))?;
    texts.push((String::from_str(alloc, "proof")?, derivation))?;
    Ok(MemShelf::new(texts, row.shelf_fails.clone()?))
}

// The sink that the row asks for.
fn own_sink(alloc: Global, row: &Row) -> Result<MemSink, AllocError> {
    let room = match row.sink_room {
        Some(room) => room as usize,
        None => ample_room(row),
    };
    MemSink::new(alloc, room, row.sink_fails.clone()?)
}

// A sink of which this call alone fails.
fn failing_sink(alloc: Global, row: &Row, call: u64) -> Result<MemSink, AllocError> {
    MemSink::new(alloc, ample_room(row), vec![in alloc; call]?)
}

fn ample_room(row: &Row) -> usize {
    row.output.len().saturating_add(SPARE_ROOM)
}

fn outcome(alloc: Global, status: u8, sink: &MemSink) -> Result<Outcome, AllocError> {
    wanted(alloc, u64::from(status), sink.bytes())
}

fn wanted(alloc: Global, status: u64, text: &[u8]) -> Result<Outcome, AllocError> {
    let written = Vec::from_slice(alloc, text)?;
    Ok(Outcome { status, written })
}

// A failure, unless what came is what was wanted.
fn unless_wanted(
    alloc: Global,
    trial: Trial,
    came: Outcome,
    status: u64,
    text: &[u8],
) -> Result<Option<Failure>, AllocError> {
    if came.is(status, text) {
        return Ok(None);
    }
    let wanted = wanted(alloc, status, text)?;
    Ok(Some(Failure {
        trial,
        wanted,
        came,
    }))
}
