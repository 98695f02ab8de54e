//! Texts of derivations: what is read of them is written again, and the first fault of each that is refused.
use ll_bank::Names;
use ll_laws::{Derivation, Part, Rule};
use ll_lexer::{Fault, Place, TextFault};
use ll_prooftext::{read, write};
use std::alloc::Global;
use std::test::Fail;

// Texts that are read, and what is written of them again.
const READ: [&str; 9] = [
    "proof 1\nerase\n",
    "proof 1\ntensor {0} {1}\nwith\nerase\nclause 0 0\nclause 1 0\n",
    "proof 1\nforall 0\nexists #0\nclause 0 0 #0\n",
    "proof 1\nlet (1::nil)\nclause 1 0 1 nil (1::nil) {}\nlolli 4\nclause 0 0 (1::nil) {4}\nclause 3 0 1 nil {4}\ntensor {4} {}\nclause 4 0\nclause 2 0\n",
    "proof 1\nexists ?18446744073709551615\nforall 4294967295\nerase\n",
    "proof 1\nexists -9223372036854775808\nexists (f (f (f a::b::nil)))\nerase\n",
    "proof 1\nlet (f (g ?7 -3) (f a::(1::2)::g b))\nclause 4 1 (f ?7) {5} !\nerase\nbang\ntrue\n",
    "proof 1\ntensor {} {}\nnum\nuse\nnum\n",
    FIELDS,
];

// A text of at most 1,000 bytes, read over no names.
fn derivation(alloc: Global, text: &[u8], names: &mut Names) -> Result<Derivation, TextFault> {
    if text.len() > 1000 || names.len() > 0 {
        return Err(TextFault::OutOfMemory);
    }
    read(alloc, text, names)
}

// What is written of a derivation that is read.
fn again(alloc: Global, text: &[u8]) -> Result<Vec<u8>, TextFault> {
    let mut names = Names::new(alloc);
    let derivation = derivation(alloc, text, &mut names)?;
    let mut out = Vec::new(alloc);
    write(alloc, &names, &derivation, &mut out)?;
    Ok(out)
}

// The last LF may lack: what is written has it.
#[test]
fn texts_are_read_back(rt: HostRuntime) -> Result<(), Fail> {
    for text in READ {
        let bytes = text.as_bytes();
        let out = again(rt.alloc(), bytes)?;
        assert!(rt; out.as_slice() == bytes, "{text}");
        let out = again(rt.alloc(), &bytes[..bytes.len() - 1])?;
        assert!(rt; out.as_slice() == bytes, "{text}");
    }
    Ok(())
}

// Each form of a field, beside a term with brackets in brackets.
const FIELDS: &str =
    "proof 1\nlet (f (f ?7) -3)\ntensor {0 2} {}\nexists -3\nclause 4 1 (f ?7) {5} !\nerase\nbang\ntrue\ntrue\n";

fn is_tensor(rule: &Rule) -> bool {
    match rule {
        Rule::Tensor(left, right) => left.as_slice() == [0, 2].as_slice() && right.is_empty(),
        _ => false,
    }
}

fn is_bounded(part: &Part) -> bool {
    match part {
        Part::Bounded(labels) => labels.as_slice() == [5].as_slice(),
        Part::Unbounded => false,
    }
}

fn has_parts(parts: &[Part]) -> bool {
    parts.len() == 2 && is_bounded(&parts[0]) && matches!(&parts[1], Part::Unbounded)
}

fn is_clause(rule: &Rule) -> bool {
    match rule {
        Rule::Clause {
            label,
            leaf,
            terms,
            parts,
        } => *label == 4 && *leaf == 1 && terms.len() == 1 && has_parts(parts),
        _ => false,
    }
}

fn has_fields(nodes: &[Rule]) -> bool {
    nodes.len() == 7
        && is_tensor(&nodes[0])
        && matches!(&nodes[1], Rule::Exists(_))
        && is_clause(&nodes[2])
}

#[test]
fn each_field_is_read(rt: HostRuntime) -> Result<(), Fail> {
    let mut names = Names::new(rt.alloc());
    let read = derivation(rt.alloc(), FIELDS.as_bytes(), &mut names)?;
    assert_eq!(rt; read.asked.len(), 1);
    assert!(rt; has_fields(&read.nodes));
    Ok(())
}

// Texts with a fault: its line, column and kind.
const FAULTS: [(&str, u32, u32, u8); 39] = [
    ("", 1, 1, 14),
    ("proof 1", 1, 8, 15),
    ("proof 1\nfoo\n", 2, 1, 13),
    ("proof 1\ntensor {0}\n", 2, 11, 14),
    ("proof 1\ntensor  {0}\n", 2, 8, 14),
    ("proof 1\ntensor {1 0} {}\n", 2, 8, 14),
    ("proof 1\ntensor {0 } {}\n", 2, 8, 14),
    ("proof 1\ntrue x\n", 2, 6, 14),
    ("proof 1\ntrue \n", 2, 6, 14),
    ("proof 1\nlolli 01\n", 2, 7, 14),
    ("proof 1\nlolli 4294967296\n", 2, 7, 14),
    ("proof 1\nexists (a)\n", 2, 8, 14),
    ("proof 1\nexists ((f a)::b)\n", 2, 8, 14),
    ("proof 1\nexists f a\n", 2, 10, 14),
    ("proof 1\nexists true\n", 2, 8, 14),
    ("proof 1\nexists is\n", 2, 8, 14),
    ("proof 1\nexists -0\n", 2, 8, 14),
    ("proof 1\nclause 0 0 {} a\n", 2, 15, 14),
    ("proof 1\nwith\nlet a\n", 3, 1, 13),
    ("proof 1\nwith\ntrue\n", 4, 1, 15),
    ("proof 1\ntrue\n\n", 3, 1, 16),
    ("proof 2\ntrue\n", 1, 1, 14),
    ("proof 1\r\ntrue\n", 1, 1, 14),
    ("proof 1\ntrue\r\n", 2, 1, 13),
    ("proof 1\n\ntrue\n", 2, 1, 13),
    ("proof 1\nexists ?18446744073709551616\n", 2, 8, 14),
    ("proof 1\nexists #4294967296\n", 2, 8, 14),
    ("proof 1\nexists 9223372036854775808\n", 2, 8, 14),
    ("proof 1\nexists ?01\n", 2, 8, 14),
    ("proof 1\nexists ((f a))\n", 2, 8, 14),
    ("proof 1\nexists (f (a))\n", 2, 8, 14),
    ("proof 1\nexists (f a\n", 2, 8, 14),
    ("proof 1\nexists (a::b)::c\n", 2, 8, 14),
    ("proof 1\nexists (f  a)\n", 2, 8, 14),
    ("proof 1\nclause 0 0 !!\n", 2, 12, 14),
    ("proof 1\nclause 0\n", 2, 9, 14),
    ("proof 1\nclause 0 0 a {1 1}\n", 2, 14, 14),
    ("proof 1\nnum 3\n", 2, 5, 14),
    ("proof 1\nnum\ntrue\n", 3, 1, 16),
];

#[test]
fn first_faults(rt: HostRuntime) {
    for (text, line, column, kind) in FAULTS {
        let at = Place { line, column };
        let want = Some(TextFault::Text(Fault { at, kind }));
        let mut names = Names::new(rt.alloc());
        let found = derivation(rt.alloc(), text.as_bytes(), &mut names).err();
        assert!(rt; found == want, "{text}");
    }
}
