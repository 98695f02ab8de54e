//! Texts of derivations with a table of shared terms: what is read of them is written again, and the first fault of each that is refused.
use ll_bank::Names;
use ll_laws::Derivation;
use ll_lexer::{Fault, Place, TextFault};
use ll_prooftext::{read_any, size, write, write2};
use std::alloc::Global;
use std::test::Fail;

// A text of version 2, and that of the same derivation in version 1.
const READ: [(&str, &str); 5] = [
    (
        "proof 2\nshare :: 1 nil\nlet @0\nclause 1 0 1 nil @0 {}\nlolli 4\nclause 0 0 @0 {4}\nclause 3 0 1 nil {4}\ntensor {4} {}\nclause 4 0\nclause 2 0\n",
        "proof 1\nlet (1::nil)\nclause 1 0 1 nil (1::nil) {}\nlolli 4\nclause 0 0 (1::nil) {4}\nclause 3 0 1 nil {4}\ntensor {4} {}\nclause 4 0\nclause 2 0\n",
    ),
    ("proof 2\nerase\n", "proof 1\nerase\n"),
    (
        "proof 2\nshare f ?7 -3\nshare g b\nshare f @0 @1 #4\nlet @2\nlet @0\nexists @1\ntrue\n",
        "proof 1\nlet (f (f ?7 -3) (g b) #4)\nlet (f ?7 -3)\nexists (g b)\ntrue\n",
    ),
    (
        "proof 2\nshare #3 a\nshare f @0 @0\nclause 0 0 @1 {1} !\ntrue\ntrue\n",
        "proof 1\nclause 0 0 (f (#3 a) (#3 a)) {1} !\ntrue\ntrue\n",
    ),
    (
        "proof 2\nlet a\ntensor {0} {}\nerase\ntrue\n",
        "proof 1\nlet a\ntensor {0} {}\nerase\ntrue\n",
    ),
];

// A text of at most 2,000 bytes, read over no names.
fn derivation(
    alloc: Global,
    text: &[u8],
    names: &mut Names,
) -> Result<(Derivation, u8), TextFault> {
    if text.len() > 2000 || names.len() > 0 {
        return Err(TextFault::OutOfMemory);
    }
    read_any(alloc, text, names)
}

// What is written of a derivation that is read, in either version.
fn again(alloc: Global, text: &[u8], second: bool) -> Result<Vec<u8>, TextFault> {
    let mut names = Names::new(alloc);
    let (derivation, _) = derivation(alloc, text, &mut names)?;
    let mut out = Vec::new(alloc);
    if second {
        write2(alloc, &names, &derivation, &mut out)?;
    } else {
        write(alloc, &names, &derivation, &mut out)?;
    }
    Ok(out)
}

// The last LF may lack: what is written has it.
#[test]
fn versions_are_one_derivation(rt: HostRuntime) -> Result<(), Fail> {
    for (second, first) in READ {
        let short = second.as_bytes();
        let out = again(rt.alloc(), short, false)?;
        assert!(rt; out.as_slice() == first.as_bytes(), "{second}");
        let out = again(rt.alloc(), &short[..short.len() - 1], true)?;
        assert!(rt; out.as_slice() == short, "{second}");
        let out = again(rt.alloc(), first.as_bytes(), true)?;
        assert!(rt; out.as_slice() == short, "{second}");
    }
    Ok(())
}

// Texts with a fault: its line, column and kind.
const FAULTS: [(&str, u32, u32, u8); 30] = [
    ("proof 2", 1, 8, 15),
    ("proof 2 \ntrue\n", 1, 1, 14),
    ("proof 3\ntrue\n", 1, 1, 14),
    ("proof 2\nfoo\n", 2, 1, 13),
    ("proof 2\nlet a\nshare f a\ntrue\n", 3, 1, 13),
    ("proof 2\ntrue\nshare f a\n", 3, 1, 16),
    ("proof 2\nwith\nshare f a\n", 3, 1, 13),
    ("proof 2\nwith\nlet a\n", 3, 1, 13),
    ("proof 2\nshare\ntrue\n", 2, 6, 14),
    ("proof 2\nshare f\ntrue\n", 2, 8, 14),
    ("proof 2\nshare f a\n", 3, 1, 15),
    ("proof 2\nshare f @0\ntrue\n", 2, 9, 14),
    ("proof 2\nshare f a\nlet @1\ntrue\n", 3, 5, 14),
    ("proof 2\nshare f a\nlet @00\ntrue\n", 3, 5, 14),
    ("proof 2\nshare 1 a\ntrue\n", 2, 7, 14),
    ("proof 2\nshare ?1 a\ntrue\n", 2, 7, 14),
    ("proof 2\nshare :: a\ntrue\n", 2, 11, 14),
    ("proof 2\nshare :: a b c d\ntrue\n", 2, 14, 14),
    ("proof 2\nshare :: a b {\ntrue\n", 2, 14, 14),
    ("proof 2\nshare f a {}\ntrue\n", 2, 11, 14),
    ("proof 2\nlet (f a)\ntrue\n", 2, 5, 14),
    ("proof 2\nexists a b\ntrue\n", 2, 10, 14),
    ("proof 2\nclause 0 0 a {} b\n", 2, 17, 14),
    ("proof 2\nshare f 1\ntrue\n", 2, 1, 18),
    ("proof 2\nshare f a\nshare f a\nlet @1\ntrue\n", 3, 1, 18),
    (
        "proof 2\nshare f b\nshare f a\nlet @1\nlet @0\ntrue\n",
        2,
        1,
        18,
    ),
    (
        "proof 2\nshare f a\nshare g @0\nshare h a\nlet @1\ntrue\n",
        4,
        1,
        18,
    ),
    (
        "proof 2\nshare f a\nshare f a\nshare g @1\nlet @2\ntrue\n",
        3,
        1,
        18,
    ),
    (
        "proof 2\nshare g a\nshare f a\nshare h @1 @0\nlet @2\ntrue\n",
        2,
        1,
        18,
    ),
    ("proof 2\nshare f 1\ntrue\ntrue\n", 4, 1, 16),
];

#[test]
fn first_faults_over_a_table(rt: HostRuntime) {
    for (text, line, column, kind) in FAULTS {
        let at = Place { line, column };
        let want = Some(TextFault::Text(Fault { at, kind }));
        let mut names = Names::new(rt.alloc());
        let found = derivation(rt.alloc(), text.as_bytes(), &mut names).err();
        assert!(rt; found == want, "{text}");
    }
}

// A term of forty doublings, which has 2^40 leaves.
const DOUBLINGS: &str =
    "proof 2\nshare f a a\nshare f @0 @0\nshare f @1 @1\nshare f @2 @2\nshare f @3 @3\nshare f @4 @4\nshare f @5 @5\nshare f @6 @6\nshare f @7 @7\nshare f @8 @8\nshare f @9 @9\nshare f @10 @10\nshare f @11 @11\nshare f @12 @12\nshare f @13 @13\nshare f @14 @14\nshare f @15 @15\nshare f @16 @16\nshare f @17 @17\nshare f @18 @18\nshare f @19 @19\nshare f @20 @20\nshare f @21 @21\nshare f @22 @22\nshare f @23 @23\nshare f @24 @24\nshare f @25 @25\nshare f @26 @26\nshare f @27 @27\nshare f @28 @28\nshare f @29 @29\nshare f @30 @30\nshare f @31 @31\nshare f @32 @32\nshare f @33 @33\nshare f @34 @34\nshare f @35 @35\nshare f @36 @36\nshare f @37 @37\nshare f @38 @38\nlet @39\ntrue\n";

#[test]
fn doublings_are_read_at_once(rt: HostRuntime) -> Result<(), Fail> {
    let text = DOUBLINGS.as_bytes();
    let out = again(rt.alloc(), text, true)?;
    assert!(rt; out.as_slice() == text);
    let mut names = Names::new(rt.alloc());
    let (derivation, version) = derivation(rt.alloc(), text, &mut names)?;
    assert_eq!(rt; version, 2);
    assert!(rt; size(rt.alloc(), &names, &derivation, 1)? > 16_777_216);
    Ok(())
}
