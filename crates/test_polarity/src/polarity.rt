//! Programs and queries with their first fault of scope or sorting, and what those without one fix.
use ll_bank::FormNode;
use ll_laws::Problem;
use ll_lexer::{Fault, TextFault, tokens};
use ll_parser::{program, query};
use ll_polarity::{Loaded, ask, load};
use std::alloc::Global;
use std::test::Fail;

const LONGEST_TEXT: usize = 16777216;

// The part that a program fixes.
fn loaded(alloc: Global, text: &[u8]) -> Result<Loaded, TextFault> {
    if text.len() > LONGEST_TEXT {
        return Err(TextFault::OutOfMemory);
    }
    let list = tokens(alloc, text)?;
    let tree = program(alloc, &list)?;
    let part = load(alloc, &tree)?;
    Ok(part)
}

// The problem that a query asks of a program.
fn asked(alloc: Global, program: &[u8], text: &[u8]) -> Result<Problem, TextFault> {
    if text.len() > LONGEST_TEXT {
        return Err(TextFault::OutOfMemory);
    }
    let part = loaded(alloc, program)?;
    let list = tokens(alloc, text)?;
    let tree = query(alloc, &list)?;
    let problem = ask(alloc, part, &tree, 5)?;
    Ok(problem)
}

// How many names, clauses and modules a program fixes: those of a problem whose query adds nothing.
fn part_sizes(alloc: Global, text: &[u8]) -> Result<(usize, usize, usize), TextFault> {
    let problem = asked(alloc, text, b"true")?;
    Ok((
        problem.names.len(),
        problem.clauses.len(),
        problem.modules.len(),
    ))
}

// The fault for which a text is refused.
fn fault_of<T: Drop>(answer: Result<T, TextFault>) -> Result<Option<Fault>, TextFault> {
    match answer {
        Ok(_) => Ok(None),
        Err(TextFault::Text(fault)) => Ok(Some(fault)),
        Err(TextFault::OutOfMemory) => Err(TextFault::OutOfMemory),
    }
}

// The line, the column and the kind of a fault; kind 0 is none.
fn shown(fault: Option<Fault>) -> (u32, u32, u8) {
    match fault {
        Some(fault) => (fault.at.line, fault.at.column, fault.kind),
        None => (0, 0, 0),
    }
}

// Programs, and the first fault of each.
const PROGRAMS: [(&str, (u32, u32, u8)); 29] = [
    ("p :- q , r.", (0, 0, 0)),
    ("true , q.", (1, 1, 7)),
    ("p\n, q.", (2, 1, 7)),
    ("p :- X. true.", (1, 6, 9)),
    ("p (X a).", (1, 4, 9)),
    ("forall x\\ p (x a).", (1, 14, 9)),
    ("p :- forall x\\ exists x\\ q x.", (0, 0, 0)),
    ("p :- (forall q\\ r) , q.", (0, 0, 0)),
    ("p :- (true -o q).", (1, 7, 7)),
    ("p :- ((true -o q) -o r).", (0, 0, 0)),
    ("p _ _.", (0, 0, 0)),
    ("p :- m --> X.", (1, 6, 10)),
    ("m --> p. MODULE m.", (1, 3, 8)),
    ("p :- m a --> q. MODULE m.", (1, 6, 11)),
    ("MODULE m X X.", (1, 12, 12)),
    ("MODULE m X. LOCAL c d c.", (1, 23, 12)),
    ("MODULE m. MODULE m.", (1, 18, 12)),
    ("p :- m --> q. MODULE m. MODULE m X.", (1, 32, 12)),
    ("MODULE m. LOCAL c. c a.", (0, 0, 0)),
    ("MODULE m X. LOCAL c. X a.", (1, 22, 9)),
    ("MODULE m. LOCAL c. p :- forall c\\ c a.", (1, 35, 9)),
    ("MODULE m X. LOCAL c. MODULE n X. LOCAL c. p X.", (0, 0, 0)),
    ("p :- X is Y + 1 , 2 < X , X =< 3.", (0, 0, 0)),
    ("X < 1.", (1, 3, 7)),
    ("p & 1 + 1 =< X.", (1, 11, 7)),
    ("(X is 1 , p) :- q.", (1, 4, 7)),
    ("p :- (1 < 2 -o q).", (1, 9, 7)),
    ("p :- ((1 < 2 -o q) -o r).", (0, 0, 0)),
    ("MODULE m X. LOCAL c. p :- X is c * X.", (0, 0, 0)),
];

// Queries of a program with one module, `m` with one parameter, and the first fault of each.
const QUERIES: [(&str, (u32, u32, u8)); 11] = [
    ("m a --> p , true", (0, 0, 0)),
    ("m --> p", (1, 1, 11)),
    ("n --> p", (1, 1, 10)),
    ("p X , X", (1, 7, 9)),
    ("(a ; b) -o c", (1, 4, 7)),
    ("(m a --> p) -o q", (1, 6, 8)),
    ("exists x\\ x", (1, 11, 9)),
    ("q -o m X --> {p ; r}", (0, 0, 0)),
    ("forall x\\ x < 1 & {_ is x - 1}", (0, 0, 0)),
    ("X =< 1 => p", (1, 3, 7)),
    ("1 < 2 , X , 2 < 1 -o p", (1, 3, 7)),
];

#[test]
fn first_faults(rt: HostRuntime) -> Result<(), Fail> {
    for (text, want) in PROGRAMS {
        let fault = fault_of(loaded(rt.alloc(), text.as_bytes()))?;
        assert_eq!(rt; shown(fault), want);
    }
    for (text, want) in QUERIES {
        let fault = fault_of(asked(rt.alloc(), b"MODULE m X.", text.as_bytes()))?;
        assert_eq!(rt; shown(fault), want);
    }
    Ok(())
}

// Programs, and how many names, clauses and modules each fixes.
const PARTS: [(&str, (usize, usize, usize)); 6] = [
    ("", (0, 0, 0)),
    ("p :- q. LINEAR r X X.", (3, 2, 0)),
    ("p a. MODULE m X. LOCAL c. q c X a. MODULE n.", (5, 1, 2)),
    ("p :- m --> m --> p. MODULE m. p.", (2, 1, 1)),
    ("p :- X is 1 , 2 < X.", (1, 1, 0)),
    ("p :- X is 1 + 2 + 3 * Y , Y =< 4 - X.", (4, 1, 0)),
];

#[test]
fn parts(rt: HostRuntime) -> Result<(), Fail> {
    for (text, want) in PARTS {
        let sizes = part_sizes(rt.alloc(), text.as_bytes())?;
        assert_eq!(rt; sizes, want);
    }
    Ok(())
}

// The sign of a goal that tests or computes numbers, `-->` for a goal under the first module, and nothing for any other goal.
fn sign_of(problem: &Problem) -> &'static str {
    match problem.bank.form_at(problem.goal) {
        FormNode::Use(0, ..) => "-->",
        FormNode::Is(..) => "is",
        FormNode::Less(..) => "<",
        FormNode::Most(..) => "=<",
        _ => "",
    }
}

// Programs, a query of each, and what their problem has: the sign of its goal, how many names there are, and the numbers of the names that
// the query asks for.
const PROBLEMS: [(&str, &str, &str, usize, &[Option<u32>]); 4] = [
    (
        "q a. MODULE m X.",
        "m a --> p Y _ X , q Y",
        "-->",
        6,
        &[Some(4), None, Some(5)],
    ),
    ("", "Y is X * 2 - Y", "is", 4, &[Some(2), Some(3)]),
    ("", "_ + X < 2", "<", 2, &[None, Some(1)]),
    ("", "1 =< X", "=<", 1, &[Some(0)]),
];

#[test]
fn problems(rt: HostRuntime) -> Result<(), Fail> {
    for (program, query, sign, names, wanted) in PROBLEMS {
        let problem = asked(rt.alloc(), program.as_bytes(), query.as_bytes())?;
        assert_eq!(rt; sign_of(&problem), sign, "of {query}");
        assert_eq!(rt; problem.names.len(), names, "of {query}");
        assert_eq!(rt; problem.asked.as_slice(), wanted, "of {query}");
    }
    Ok(())
}
