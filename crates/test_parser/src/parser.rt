//! Raw trees of queries and programs, and the first bad token of each text that is refused.
use ll_bank::Names;
use ll_lexer::{Fault, Place, TextFault, tokens};
use ll_parser::{
    Named, Op, RawAt, RawClause, RawModule, RawNode, RawProgram, RawQuery, Raws, program, query,
};
use std::alloc::{AllocError, Global};
use std::test::Fail;

// The text of a name.
fn text_of(names: &Names, name: Named) -> &str {
    if (name.name as usize) < names.len() {
        names.text(name.name)
    } else {
        "no name"
    }
}

// The text that was made of a node.
fn made(texts: &[String], at: RawAt) -> &str {
    match texts.get(at.0) {
        Some(text) => text.as_str(),
        None => "no node",
    }
}

// A text with another in brackets behind it.
fn bracketed(mut out: String, open: &str, text: &str, close: &str) -> Result<String, AllocError> {
    out.push_str(open)?;
    out.push_str(text)?;
    out.push_str(close)?;
    Ok(out)
}

// A head or a load with its arguments in brackets.
fn with_arguments(
    alloc: Global,
    texts: &[String],
    word: &str,
    args: &[RawAt],
) -> Result<String, AllocError> {
    let mut out = String::from_str(alloc, word)?;
    for arg in args {
        out = bracketed(out, "(", made(texts, *arg), ")")?;
    }
    Ok(out)
}

fn sign_of(op: Op) -> &'static str {
    match op {
        Op::ColonDash => ":-",
        Op::LeftArrow => "<=",
        Op::Lolli => "-o",
        Op::RightArrow => "=>",
        Op::Plus => ";",
        Op::With => "&",
        Op::Tensor => ",",
    }
}

// A quantifier with what stands under it in brackets.
fn quantified(alloc: Global, word: &str, variable: &str, body: &str) -> Result<String, AllocError> {
    let mut out = String::from_str(alloc, word)?;
    out.push_str(variable)?;
    bracketed(out, "\\(", body, ")")
}

// Two parts in brackets with a sign between them.
fn signed(alloc: Global, left: &str, sign: &str, right: &str) -> Result<String, AllocError> {
    let mut out = bracketed(String::new(alloc), "(", left, ")")?;
    out.push_str(sign)?;
    bracketed(out, "(", right, ")")
}

// A node with brackets round each of its parts.
fn written(
    alloc: Global,
    names: &Names,
    texts: &[String],
    node: RawNode<'_>,
) -> Result<String, AllocError> {
    match node {
        RawNode::True => String::from_str(alloc, "true"),
        RawNode::Erase => String::from_str(alloc, "erase"),
        RawNode::Any => String::from_str(alloc, "_"),
        RawNode::Int(value) => format!(in alloc; "{value}"),
        RawNode::Braces(goal) => bracketed(String::new(alloc), "{", made(texts, goal), "}"),
        RawNode::Head(name, args) => with_arguments(alloc, texts, text_of(names, name), args),
        RawNode::Forall(name, body) => {
            quantified(alloc, "forall ", text_of(names, name), made(texts, body))
        }
        RawNode::Exists(name, body) => {
            quantified(alloc, "exists ", text_of(names, name), made(texts, body))
        }
        RawNode::Load(name, args, goal) => {
            let load = with_arguments(alloc, texts, text_of(names, name), args)?;
            bracketed(load, "-->(", made(texts, goal), ")")
        }
        RawNode::Binary(op, left, right) => {
            signed(alloc, made(texts, left), sign_of(op), made(texts, right))
        }
        RawNode::Is(left, right) => signed(alloc, made(texts, left), "is", made(texts, right)),
        RawNode::Less(left, right) => signed(alloc, made(texts, left), "<", made(texts, right)),
        RawNode::Most(left, right) => signed(alloc, made(texts, left), "=<", made(texts, right)),
    }
}

// All nodes in turn, with their columns if these are wanted.
fn all_written(
    alloc: Global,
    names: &Names,
    forms: &Raws,
    columns: bool,
) -> Result<Vec<String>, AllocError> {
    let mut texts = Vec::new(alloc);
    for i in 0..forms.len() {
        let text = written(alloc, names, texts.as_slice(), forms.node(RawAt(i)))?;
        if columns {
            let column = forms.place(RawAt(i)).column;
            texts.push(format!(in alloc; "{text}@{column}")?)?;
        } else {
            texts.push(text)?;
        }
    }
    Ok(texts)
}

// Queries and what they are read as.
const READ: [(&str, &str); 24] = [
    ("a", "a"),
    ("a.", "a"),
    ("true , erase", "(true),(erase)"),
    ("a :- b <= c", "((a):-(b))<=(c)"),
    ("p :- q :- r :- s", "(((p):-(q)):-(r)):-(s)"),
    ("a , b , c", "(a),((b),(c))"),
    ("a , b & c ; d -o e", "((((a),(b))&(c));(d))-o(e)"),
    ("a -o b & c , d", "(a)-o((b)&((c),(d)))"),
    ("a -o b => c", "(a)-o((b)=>(c))"),
    ("a -o b :- c <= d", "(((a)-o(b)):-(c))<=(d)"),
    ("a & b & c ; d ; e", "((a)&((b)&(c)));((d);(e))"),
    ("(a ; b) , {c -o d}", "((a);(b)),({(c)-o(d)})"),
    ("forall x\\ a , b", "forall x\\((a),(b))"),
    ("(forall x\\ a) , b", "(forall x\\(a)),(b)"),
    (
        "(a , forall X\\ b :- c) , d",
        "((a),(forall X\\((b):-(c)))),(d)",
    ),
    (
        "exists x\\ forall y\\ p x y",
        "exists x\\(forall y\\(p(x)(y)))",
    ),
    ("m --> a , b", "m-->((a),(b))"),
    (
        "a :- m 1 X --> n --> b -o c",
        "(a):-(m(1)(X)-->(n-->((b)-o(c))))",
    ),
    (
        "a -o m (f x) _ --> b :- c",
        "((a)-o(m(f(x))(_)-->(b))):-(c)",
    ),
    ("p (1::2::nil) -3", "p(::(1)(::(2)(nil)))(-3)"),
    ("p ((a::b)::c)", "p(::(::(a)(b))(c))"),
    ("p (f x (g y _)::((h))) Z", "p(::(f(x)(g(y)(_)))(h))(Z)"),
    ("p (((1)))", "p(1)"),
    ("X Y (Y)", "X(Y)(Y)"),
];

// Queries with whole-number goals and what they are read as.
const GOALS: [(&str, &str); 14] = [
    ("X is 1 + 2", "(X)is(+(1)(2))"),
    ("X is 1 - 2 - 3", "(X)is(-(-(1)(2))(3))"),
    ("X is 1+2*3*4- _", "(X)is(-(+(1)(*(*(2)(3))(4)))(_))"),
    ("X is (1 + 2) * (3)", "(X)is(*(+(1)(2))(3))"),
    ("X is 1 - (2 - (3 * 4))", "(X)is(-(1)(-(2)(*(3)(4))))"),
    ("X*(1-Y)- 2 < (3)", "(-(*(X)(-(1)(Y)))(2))<(3)"),
    ("X - -1 =< 2", "(-(X)(-1))=<(2)"),
    ("_ is n", "(_)is(n)"),
    ("1 =< 2 , p", "((1)=<(2)),(p)"),
    ("3 is 1 & X + 1 < Y ; p", "(((3)is(1))&((+(X)(1))<(Y)));(p)"),
    (
        "p -o a =< b :- X is 1 <= q",
        "(((p)-o((a)=<(b))):-((X)is(1)))<=(q)",
    ),
    ("{X is 1} , (Y < 2)", "({(X)is(1)}),((Y)<(2))"),
    ("forall x\\ x < 1 , a", "forall x\\(((x)<(1)),(a))"),
    ("N -1", "N(-1)"),
];

// A text of one line, and what its query is read as, with the column of each node.
const PLACES: [(&str, &str); 5] = [
    ("a :- b , c -o d", "(a@1):-(((b@6),(c@10)@8)-o(d@15)@12)@3"),
    (
        "m (X::1) --> {forall x\\ _y}",
        "m(::(X@4)(1@7)@5)-->({forall x\\(_y@25)@15}@14)@10",
    ),
    ("(p) , erase", "(p@2),(erase@7)@5"),
    ("X is _", "(X@1)is(_@6)@3"),
    ("X - 1 * Y =< (2)", "(-(X@1)(*(1@5)(Y@9)@7)@3)=<(2@15)@11"),
];

const LONGEST_TEXT: usize = 16777216;

fn query_of(alloc: Global, text: &[u8]) -> Result<RawQuery, TextFault> {
    if text.len() > LONGEST_TEXT {
        return Err(TextFault::OutOfMemory);
    }
    let list = tokens(alloc, text)?;
    query(alloc, &list)
}

fn program_of(alloc: Global, text: &[u8]) -> Result<RawProgram, TextFault> {
    if text.len() > LONGEST_TEXT {
        return Err(TextFault::OutOfMemory);
    }
    let list = tokens(alloc, text)?;
    program(alloc, &list)
}

// What a query is read as, with the columns of its nodes if these are wanted.
fn tree_of(alloc: Global, text: &str, columns: bool) -> Result<String, TextFault> {
    let read = query_of(alloc, text.as_bytes())?;
    let texts = all_written(alloc, &read.names, &read.forms, columns)?;
    let tree = String::from_str(alloc, made(texts.as_slice(), read.goal))?;
    Ok(tree)
}

#[test]
fn trees(rt: HostRuntime) -> Result<(), Fail> {
    for (text, want) in READ {
        let tree = tree_of(rt.alloc(), text, false)?;
        assert_eq!(rt; tree.as_str(), want);
    }
    for (text, want) in GOALS {
        let tree = tree_of(rt.alloc(), text, false)?;
        assert_eq!(rt; tree.as_str(), want);
    }
    for (text, want) in PLACES {
        let tree = tree_of(rt.alloc(), text, true)?;
        assert_eq!(rt; tree.as_str(), want);
    }
    Ok(())
}

// Clauses, each with its mark and a dot.
fn clauses_written(
    texts: &[String],
    clauses: &[RawClause],
    out: &mut String,
) -> Result<(), AllocError> {
    for clause in clauses {
        out.push_str(if clause.linear { "LINEAR " } else { "" })?;
        out.push_str(made(texts, clause.form))?;
        out.push_str(". ")?;
    }
    Ok(())
}

// Names with a space before each.
fn names_written(names: &Names, words: &[Named], out: &mut String) -> Result<(), AllocError> {
    for word in words {
        out.push(' ')?;
        out.push_str(text_of(names, *word))?;
    }
    Ok(())
}

// A module with its clauses.
fn module_written(
    names: &Names,
    texts: &[String],
    module: &RawModule,
    out: &mut String,
) -> Result<(), AllocError> {
    out.push_str("MODULE ")?;
    out.push_str(text_of(names, module.name))?;
    names_written(names, module.params.as_slice(), out)?;
    out.push_str(". LOCAL")?;
    names_written(names, module.locals.as_slice(), out)?;
    out.push_str(". ")?;
    clauses_written(texts, module.clauses.as_slice(), out)
}

fn program_written(alloc: Global, read: &RawProgram) -> Result<String, AllocError> {
    let texts = all_written(alloc, &read.names, &read.forms, false)?;
    let mut out = String::new(alloc);
    clauses_written(&texts, read.clauses.as_slice(), &mut out)?;
    for module in read.modules.as_slice() {
        module_written(&read.names, &texts, module, &mut out)?;
    }
    Ok(out)
}

fn program_again(alloc: Global, text: &str) -> Result<String, TextFault> {
    let read = program_of(alloc, text.as_bytes())?;
    let out = program_written(alloc, &read)?;
    Ok(out)
}

// Programs and what they are read as.
const PROGRAMS: [(&str, &str); 4] = [
    ("", ""),
    ("p. LINEAR q X :- r.", "p. LINEAR (q(X)):-(r). "),
    (
        "MODULE m. MODULE n X.",
        "MODULE m. LOCAL. MODULE n X. LOCAL. ",
    ),
    (
        "a. MODULE m X Y. LOCAL c. LOCAL d e. p c. LINEAR q. MODULE n. r. LINEAR s , t.",
        "a. MODULE m X Y. LOCAL c d e. p(c). LINEAR q. MODULE n. LOCAL. r. LINEAR (s),(t). ",
    ),
];

#[test]
fn programs_and_modules(rt: HostRuntime) -> Result<(), Fail> {
    for (text, want) in PROGRAMS {
        let out = program_again(rt.alloc(), text)?;
        assert_eq!(rt; out.as_str(), want);
    }
    Ok(())
}

// Texts with the line, the column and the kind of the first fault of each as a query and as a program; kind 0 is none.
const FAULTS: [(&str, (u32, u32, u8), (u32, u32, u8)); 48] = [
    ("", (1, 1, 5), (0, 0, 0)),
    (" % nothing", (1, 11, 5), (0, 0, 0)),
    ("p q).", (1, 4, 4), (1, 4, 4)),
    ("p", (0, 0, 0), (1, 2, 5)),
    ("p.", (0, 0, 0), (0, 0, 0)),
    ("p..", (1, 3, 4), (1, 3, 4)),
    (".", (1, 1, 4), (1, 1, 4)),
    ("p. q.", (1, 4, 4), (0, 0, 0)),
    ("p :- forall x\\", (1, 15, 5), (1, 15, 5)),
    ("p :- forall x", (1, 14, 5), (1, 14, 5)),
    ("p :- forall", (1, 12, 5), (1, 12, 5)),
    ("p :- forall 1", (1, 13, 4), (1, 13, 4)),
    ("p :- forall x y\\ z", (1, 15, 4), (1, 15, 4)),
    ("p :- :- q.", (1, 6, 4), (1, 6, 4)),
    ("p :-\n  q\n  r ,\n", (4, 1, 5), (4, 1, 5)),
    ("(p", (1, 3, 5), (1, 3, 5)),
    ("(p.", (1, 3, 4), (1, 3, 4)),
    ("(p}.", (1, 3, 4), (1, 3, 4)),
    ("{p).", (1, 3, 4), (1, 3, 4)),
    ("{p}).", (1, 4, 4), (1, 4, 4)),
    ("true p.", (1, 6, 4), (1, 6, 4)),
    ("(p) q.", (1, 5, 4), (1, 5, 4)),
    ("p (q, r).", (1, 5, 4), (1, 5, 4)),
    ("p (q.", (1, 5, 4), (1, 5, 4)),
    ("p (q r::).", (1, 9, 4), (1, 9, 4)),
    ("p 1::2.", (1, 4, 4), (1, 4, 4)),
    ("p (1 2).", (1, 6, 4), (1, 6, 4)),
    ("1.", (1, 2, 4), (1, 2, 4)),
    ("_ :- p.", (1, 3, 4), (1, 3, 4)),
    ("X --> p.", (1, 3, 4), (1, 3, 4)),
    ("p , m --> q.", (1, 7, 4), (1, 7, 4)),
    ("p ; m X --> q.", (1, 9, 4), (1, 9, 4)),
    ("(p) --> q.", (1, 5, 4), (1, 5, 4)),
    ("p (q) --> .", (1, 11, 4), (1, 11, 4)),
    ("forall x\\ p , q :- r.", (0, 0, 0), (0, 0, 0)),
    ("LINEAR p.", (1, 1, 4), (0, 0, 0)),
    ("LINEAR LINEAR p.", (1, 1, 4), (1, 8, 4)),
    ("p MODULE m.", (1, 3, 4), (1, 3, 4)),
    ("LOCAL c. p.", (1, 1, 4), (1, 1, 4)),
    ("MODULE m. p. LOCAL c.", (1, 1, 4), (1, 14, 4)),
    ("MODULE m. LOCAL. p.", (1, 1, 4), (1, 16, 4)),
    ("MODULE m. LOCAL X. p.", (1, 1, 4), (1, 17, 4)),
    ("MODULE M.", (1, 1, 4), (1, 8, 4)),
    ("MODULE m x.", (1, 1, 4), (1, 10, 4)),
    ("MODULE m X", (1, 1, 4), (1, 11, 5)),
    ("MODULE", (1, 1, 4), (1, 7, 5)),
    ("p. LINEAR", (1, 4, 4), (1, 10, 5)),
    ("LINEAR MODULE m.", (1, 1, 4), (1, 8, 4)),
];

// A piece n times between a front and an end.
fn repeated(
    alloc: Global,
    front: &[u8],
    piece: &[u8],
    n: usize,
    end: &[u8],
) -> Result<Vec<u8>, AllocError> {
    let mut text = Vec::new(alloc);
    text.extend_from_slice(front)?;
    for _ in 0..n {
        text.extend_from_slice(piece)?;
    }
    text.extend_from_slice(end)?;
    Ok(text)
}

// How many nodes the query of a repeated piece has, or its fault.
fn nodes_of(
    alloc: Global,
    front: &[u8],
    piece: &[u8],
    n: usize,
    end: &[u8],
) -> Result<usize, TextFault> {
    let text = repeated(alloc, front, piece, n, end)?;
    let read = query_of(alloc, text.as_slice())?;
    Ok(read.forms.len())
}

// Pieces between a front and an end, and how many nodes a chain of 100,000 of them has.
const CHAINS: [(&[u8], &[u8], &[u8], usize); 13] = [
    (b"p (", b"1::", b"nil)", 200002),
    (b"p ", b"f ", b"", 100001),
    (b"p (g ", b"f ", b")", 100002),
    (b"", b"a , ", b"b", 200001),
    (b"", b"a & ", b"b", 200001),
    (b"", b"a ; ", b"b", 200001),
    (b"", b"a -o ", b"b", 200001),
    (b"", b"a :- ", b"b", 200001),
    (b"", b"m --> ", b"b", 100001),
    (b"", b"forall x\\ ", b"b", 100001),
    (b"X is ", b"1 + ", b"1", 200003),
    (b"X is ", b"Y * ", b"1", 200003),
    (b"", b"1 - ", b"1 < 2", 200003),
];

// Fronts, ends, how many brackets stand between them, and the column of the bracket past 1,000.
const BRACKETS: [(&[u8], &[u8], &[u8], &[u8], u32); 6] = [
    (b"p :- ", b"(", b"true", b")", 1006),
    (b"p :- ", b"{", b"true", b"}", 1006),
    (b"p ", b"(", b"a", b")", 1003),
    (b"p ", b"(f ", b"a", b")", 3003),
    (b"X is ", b"(", b"1", b")", 1006),
    (b"X < ", b"(1 + ", b"1", b")", 5005),
];

#[test]
fn long_chains(rt: HostRuntime) -> Result<(), Fail> {
    for (front, piece, end, nodes) in CHAINS {
        assert_eq!(rt; nodes_of(rt.alloc(), front, piece, 100000, end)?, nodes);
    }
    Ok(())
}

// Whether so many brackets round a middle are read.
fn is_read(
    alloc: Global,
    front: &[u8],
    open: &[u8],
    count: usize,
    middle: &[u8],
    close: &[u8],
) -> Result<bool, AllocError> {
    let mut text = repeated(alloc, front, open, count, middle)?;
    for _ in 0..count {
        text.extend_from_slice(close)?;
    }
    Ok(query_of(alloc, &text).is_ok())
}

#[test]
fn deep_brackets(rt: HostRuntime) -> Result<(), Fail> {
    for (front, open, middle, close, column) in BRACKETS {
        let at = Place { line: 1, column };
        let fault = Some(TextFault::Text(Fault { at, kind: 6 }));
        assert!(rt; is_read(rt.alloc(), front, open, 1000, middle, close)?);
        assert_eq!(rt;
            nodes_of(rt.alloc(), front, open, 1001, middle).err(),
            fault
        );
    }
    Ok(())
}
