//! Programs and how they are printed.
use ll_lexer::{TextFault, tokens};
use ll_printer::program;
use std::alloc::{AllocError, Global};
use std::test::Fail;

// A program, printed.
fn printed(alloc: Global, text: &[u8]) -> Result<Vec<u8>, TextFault> {
    if text.len() > 16777216 {
        return Err(TextFault::OutOfMemory);
    }
    let list = tokens(alloc, text)?;
    let read = ll_parser::program(alloc, &list)?;
    let mut out = Vec::new(alloc);
    program(alloc, &read, &mut out)?;
    Ok(out)
}

// Programs and how they are printed.
const PRINTED: [(&str, &str); 13] = [
    ("", ""),
    ("p X:-q X,(r;s).%c", "p X :- q X , (r ; s).\n"),
    ("LINEAR ((a)).", "LINEAR a.\n"),
    ("p:-(forall x\\a x),b.", "p :- (forall x\\ a x) , b.\n"),
    ("p:-b,forall x\\a x.", "p :- b , forall x\\ a x.\n"),
    (
        "p:-{ forall x\\ a },{b;c}.",
        "p :- {forall x\\ a} , {b ; c}.\n",
    ),
    ("p ((a::b)::c) (f -07) _.", "p ((a::b)::c) (f -7) _.\n"),
    ("p (((f x)::nil)).", "p (f x::nil).\n"),
    ("a:-b:-(c<=d).", "a :- b :- (c <= d).\n"),
    ("(a-o b)-o(b=>c).", "(a -o b) -o b => c.\n"),
    ("a&(b;c)&(d,e).", "a & (b ; c) & d , e.\n"),
    (
        "p:-m X (f 1)-->(true:-erase).",
        "p :- m X (f 1) --> (true :- erase).\n",
    ),
    (
        "p. MODULE m X Y. LOCAL a b. LOCAL c. LINEAR a. MODULE n. q.",
        "p.\nMODULE m X Y.\nLOCAL a b c.\nLINEAR a.\nMODULE n.\nq.\n",
    ),
];

#[test]
fn programs_print(rt: HostRuntime) -> Result<(), Fail> {
    for (text, want) in PRINTED {
        let out = printed(rt.alloc(), text.as_bytes())?;
        assert!(rt; out.as_slice() == want.as_bytes(), "{text}");
    }
    Ok(())
}

// A piece n times between a front and an end.
fn repeated(
    alloc: Global,
    front: &[u8],
    piece: &[u8],
    n: usize,
    end: &[u8],
) -> Result<Vec<u8>, AllocError> {
    let mut text = Vec::new(alloc);
    text.extend_from_slice(front)?;
    for _ in 0..n {
        text.extend_from_slice(piece)?;
    }
    text.extend_from_slice(end)?;
    Ok(text)
}

// Pieces between a front and an end, laid out as they are printed.
const CHAINS: [(&[u8], &[u8], &[u8]); 3] = [
    (b"", b"a , ", b"b.\n"),
    (b"", b"a :- ", b"b.\n"),
    (b"p (", b"1::", b"nil).\n"),
];

#[test]
fn long_chains_print(rt: HostRuntime) -> Result<(), Fail> {
    for (front, piece, end) in CHAINS {
        let text = repeated(rt.alloc(), front, piece, 100000, end)?;
        let out = printed(rt.alloc(), text.as_slice())?;
        assert!(rt; out == text);
    }
    Ok(())
}
