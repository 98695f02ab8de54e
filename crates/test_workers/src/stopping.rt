//! That a run stops after the answers that are wanted, however long its search would go on.
use ll_edge::{MemShelf, MemSink, OpenGate};
use ll_top::lolli;
use std::alloc::{AllocError, Global};
use std::sync::Wait;
use std::test::Fail;
use std::thread::Threads;

// What a run with so many workers writes that wants one answer, and its status: its search would go on for a million inferences on each of
// its branches.
fn first_answer<R: Threads + Wait + Sync>(
    rt: &R,
    alloc: Global,
    workers: &str,
) -> Result<(u8, Vec<u8>), AllocError> {
    let mut texts = Vec::new(alloc);
    texts.push((
        String::from_str(alloc, "prog")?,
        Vec::from_slice(alloc, b"p. p :- p , p.")?,
    ))?;
    texts.push((
        String::from_str(alloc, "ques")?,
        Vec::from_slice(alloc, b"p")?,
    ))?;
    let mut shelf = MemShelf::new(texts, Vec::new(alloc));
    let mut sink = MemSink::new(alloc, 16_777_216, Vec::new(alloc))?;
    let words = [
        "run",
        "prog",
        "ques",
        "--bound",
        "1000000",
        "--workers",
        workers,
        "--first",
        "1",
    ];
    let status = lolli(rt, alloc, &words, &mut shelf, &mut sink, &OpenGate);
    let text = Vec::from_slice(alloc, sink.bytes())?;
    Ok((status, text))
}

#[test]
fn a_run_stops_after_its_first_answer(rt: HostRuntime) -> Result<(), Fail> {
    for workers in ["1", "2", "8", "64"] {
        let (status, text) = first_answer(&rt, rt.alloc(), workers)?;
        assert_eq!(rt; status, 0);
        assert_eq!(rt;
            text.as_slice(),
            b"answer 1\nyes\nstopped after 1\n".as_slice()
        );
    }
    Ok(())
}
