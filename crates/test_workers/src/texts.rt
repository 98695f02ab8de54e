//! Shelves with the texts that workers search.
use ll_edge::{Gate, MemShelf, MemSink, OpenGate, Sink};
use ll_top::lolli;
use std::alloc::{AllocError, Global};
use std::sync::Wait;
use std::thread::Threads;

const ROOM: usize = 16_777_216;

/// The text of the choices of twelve, as the program writes it; `None` where it does not.
pub fn twelve_choices<R: Threads + Wait + Sync>(
    rt: &R,
    alloc: Global,
) -> Result<Option<Vec<u8>>, AllocError> {
    let mut shelf = MemShelf::new(Vec::new(alloc), Vec::new(alloc));
    let mut sink = MemSink::new(alloc, ROOM, Vec::new(alloc))?;
    let words = ["make", "choice", "12"];
    if lolli(rt, alloc, &words, &mut shelf, &mut sink, &OpenGate) != 0 {
        return Ok(None);
    }
    let text = Vec::from_slice(alloc, sink.bytes())?;
    Ok(Some(text))
}

/// The status of a run of a program with the query `go X`.
pub fn run_choices<R: Threads + Wait + Sync, O: Sink, G: Gate>(
    rt: &R,
    alloc: Global,
    program: Vec<u8>,
    workers: &str,
    sink: &mut O,
    gate: &G,
) -> Result<u8, AllocError> {
    let mut texts = Vec::new(alloc);
    texts.push((String::from_str(alloc, "prog")?, program))?;
    texts.push((
        String::from_str(alloc, "ques")?,
        Vec::from_slice(alloc, b"go X")?,
    ))?;
    let mut shelf = MemShelf::new(texts, Vec::new(alloc));
    let words = [
        "run",
        "prog",
        "ques",
        "--bound",
        "100",
        "--workers",
        workers,
    ];
    let status = lolli(rt, alloc, &words, &mut shelf, sink, gate);
    Ok(status)
}
