//! The derivation of the first answer of a run: the labels that each node gets, and trees of many nodes.
use ll_edge::{MemShelf, MemSink, OpenGate};
use ll_top::lolli;
use std::alloc::{AllocError, Global};
use std::sync::Wait;
use std::test::Fail;
use std::thread::Threads;

// A shelf with these two texts.
fn shelf_of(alloc: Global, program: &[u8], query: &[u8]) -> Result<MemShelf, AllocError> {
    let mut texts = Vec::new(alloc);
    texts.push((
        String::from_str(alloc, "prog")?,
        Vec::from_slice(alloc, program)?,
    ))?;
    texts.push((
        String::from_str(alloc, "ques")?,
        Vec::from_slice(alloc, query)?,
    ))?;
    Ok(MemShelf::new(texts, Vec::new(alloc)))
}

// What a run with proofs writes, if there is an answer.
fn told<R: Threads + Wait + Sync>(
    rt: &R,
    alloc: Global,
    program: &[u8],
    query: &[u8],
) -> Result<Option<MemSink>, AllocError> {
    let mut shelf = shelf_of(alloc, program, query)?;
    let mut sink = MemSink::new(alloc, 16777216, Vec::new(alloc))?;
    let words = [
        "run",
        "prog",
        "ques",
        "--bound",
        "1000000",
        "--workers",
        "1",
        "--proofs",
    ];
    if lolli(rt, alloc, &words, &mut shelf, &mut sink, &OpenGate) == 0 {
        Ok(Some(sink))
    } else {
        Ok(None)
    }
}

// A program, a query without a variable, and the nodes of the derivation of its first answer.
const DERIVATIONS: [(&str, &str, &str); 8] = [
    // What is left over goes to the first that can erase it.
    (
        "LINEAR a. LINEAR b.",
        "(erase , a) & erase",
        "with\ntensor {1} {0}\nerase\nclause 0 0\nerase\n",
    ),
    (
        "LINEAR a. LINEAR b.",
        "erase , erase",
        "tensor {0 1} {}\nerase\nerase\n",
    ),
    (
        "LINEAR a. LINEAR b.",
        "true , (erase & (b , erase))",
        "tensor {} {0 1}\ntrue\nwith\nerase\ntensor {1} {0}\nclause 1 0\nerase\n",
    ),
    ("LINEAR a.", "true , erase", "tensor {} {0}\ntrue\nerase\n"),
    // A label goes where it is used.
    (
        "LINEAR a. LINEAR b.",
        "(a & a) , b",
        "tensor {0} {1}\nwith\nclause 0 0\nclause 0 0\nclause 1 0\n",
    ),
    (
        "p. p. p. p.",
        "{c -o (true , c)}",
        "bang\nlolli 4\ntensor {} {4}\ntrue\nclause 4 0\n",
    ),
    (
        "p. p. p. LINEAR a.",
        "c -o d => (c , erase)",
        "lolli 4\nimp 5\ntensor {4} {3}\nclause 4 0\nerase\n",
    ),
    // A leaf of a clause is opened with a new variable, which is bound to what the goal has there.
    ("p X :- q. q.", "p c", "clause 0 0 c {}\nclause 1 0\n"),
];

#[test]
fn short_runs(rt: HostRuntime) -> Result<(), Fail> {
    for (program, query, nodes) in DERIVATIONS {
        let sink = told(&rt, rt.alloc(), program.as_bytes(), query.as_bytes())?.expect(
            &rt,
            "an answer",
        );
        let want = format!(in rt.alloc(); "answer 1\nyes\nproof 1\n{nodes}answer")?;
        assert!(rt; sink.bytes().starts_with(want.as_bytes()), "{query}");
    }
    Ok(())
}

// A piece so many times between a front and an end.
fn repeated(
    alloc: Global,
    front: &str,
    piece: &str,
    count: usize,
    end: &str,
) -> Result<Vec<u8>, AllocError> {
    let mut text = Vec::from_slice(alloc, front.as_bytes())?;
    for _ in 0..count {
        text.extend_from_slice(piece.as_bytes())?;
    }
    text.extend_from_slice(end.as_bytes())?;
    Ok(text)
}

// How many tensor nodes the text of a run has whose second side gets no label.
fn count_single(text: &[u8]) -> usize {
    let mut count: usize = 0;
    for i in 1..text.len() {
        if text[i - 1] == b'{' && text[i] == b'}' {
            count = count.saturating_add(1);
        }
    }
    count
}

// 2,000 times `c -o (c , ..)`.
#[test]
fn a_long_run(rt: HostRuntime) -> Result<(), Fail> {
    let query = repeated(rt.alloc(), "", "c -o c , forall x\\ ", 2_000, "true")?;
    let sink = told(&rt, rt.alloc(), b"", &query)?.expect(&rt, "an answer");
    assert_eq!(rt; count_single(sink.bytes()), 2_000);
    Ok(())
}

// As many brackets as a query may have open.
#[test]
fn nested_bangs(rt: HostRuntime) -> Result<(), Fail> {
    let mut query = repeated(rt.alloc(), "", "{", 1000, "true")?;
    query.extend_from_slice(repeated(rt.alloc(), "", "}", 1000, "")?.as_slice())?;
    let sink = told(&rt, rt.alloc(), b"", &query)?.expect(&rt, "an answer");
    let want = repeated(
        rt.alloc(),
        "answer 1\nyes\nproof 1\n",
        "bang\n",
        1000,
        "true\nanswer",
    )?;
    assert!(rt; sink.bytes().starts_with(&want));
    Ok(())
}
