//! Terms, the lines of an answer and the last line, each with ample memory.
ghost use Rattle.std.specs.Prelude.{◌≡◌, length, IfOk};
ghost use Rattle.ll_bank.specs.Nodes.{HasTerm};

use ll_bank::{At, Bank, FormNode, Head, Names, OutOfMemory};
use ll_laws::{Branch, Counts, Problem};
use ll_printer::{answer, summary, term};
use std::alloc::Global;
use std::test::Fail;

// `1::1:: .. nil` with so many numbers, where `::` and `nil` have the numbers 0 and 1.
fn list(bank: &mut Bank, count: usize) -> Result<At, OutOfMemory>
    ensures { IfOk result (λ at. HasTerm bank.new at.0) }
{
    let mut at = bank.app(Head::Name(1), &[])?;
    for _passed in 0..count {
        let one = bank.int(1)?;
        at = bank.app(Head::Name(0), &[one, at])?;
    }
    Ok(at)
}

// Names with the numbers 0, 1 and 2.
fn names(alloc: Global) -> Result<Names, OutOfMemory> {
    let mut names = Names::new(alloc);
    for text in ["::", "nil", "X"] {
        if names.len() < 3 {
            names.add(text)?;
        }
    }
    Ok(names)
}

// The text of a term.
fn text_of(alloc: Global, bank: &Bank, at: At) -> Result<Vec<u8>, OutOfMemory>
    requires { HasTerm bank.now at.0 }
{
    let names = names(alloc)?;
    let mut out = Vec::new(alloc);
    term(alloc, &names, bank, at, &mut out)?;
    Ok(out)
}

// A term to print.
#[derive(Clone, Copy)]
enum Sample {
    Variable,
    Spines,
    Nested,
    Long,
}

// `nil (nil #2 #2)`.
fn spines(bank: &mut Bank) -> Result<At, OutOfMemory>
    ensures { IfOk result (λ at. HasTerm bank.new at.0) }
{
    let at = bank.app(Head::Eigen(2), &[])?;
    let pair = bank.app(Head::Name(1), &[at, at])?;
    bank.app(Head::Name(1), &[pair])
}

// A list of two numbers in front of itself.
fn nested(bank: &mut Bank) -> Result<At, OutOfMemory>
    ensures { IfOk result (λ at. HasTerm bank.new at.0) }
{
    let two = list(bank, 2)?;
    bank.app(Head::Name(0), &[two, two])
}

fn make_sample(bank: &mut Bank, which: Sample) -> Result<At, OutOfMemory>
    ensures { IfOk result (λ at. HasTerm bank.new at.0) }
{
    match which {
        Sample::Variable => bank.var(3),
        Sample::Spines => spines(bank),
        Sample::Nested => nested(bank),
        Sample::Long => list(bank, 100000),
    }
}

fn printed(alloc: Global, which: Sample) -> Result<Vec<u8>, OutOfMemory> {
    let mut bank = Bank::new(alloc);
    let at = make_sample(&mut bank, which)?;
    text_of(alloc, &bank, at)
}

#[test]
fn terms_print(rt: HostRuntime) -> Result<(), Fail> {
    for (which, want) in [
        (Sample::Variable, "?3"),
        (Sample::Spines, "nil (nil #2 #2)"),
        (Sample::Nested, "(1::1::nil)::1::1::nil"),
    ] {
        let text = printed(rt.alloc(), which)?;
        assert!(rt; text.as_slice() == want.as_bytes(), "{want}");
    }
    assert_eq!(rt; printed(rt.alloc(), Sample::Long)?.len(), 300003);
    Ok(())
}

// A problem with the constant `true` as its query, and these variables.
fn asking(alloc: Global, asked: Vec<Option<u32>>) -> Result<Problem, OutOfMemory> {
    let mut bank = Bank::new(alloc);
    let goal = bank.form(FormNode::One)?;
    Ok(Problem {
        bank,
        names: names(alloc)?,
        modules: Vec::new(alloc),
        clauses: Vec::new(alloc),
        goal,
        asked,
        bound: 1,
    })
}

// A branch with two terms.
fn branch(alloc: Global) -> Result<Branch, OutOfMemory>
    ensures { IfOk result (λ branch. length branch.terms ≡ 2) }
{
    let mut bank = Bank::new(alloc);
    let first = bank.int(-4)?;
    let second = list(&mut bank, 1)?;
    let mut terms = Vec::new(alloc);
    terms.push(first)?;
    terms.push(second)?;
    Ok(Branch {
        bank,
        terms,
        steps: Vec::new(alloc),
    })
}

// The seventh answer of a problem with two variables of these names.
fn seventh(alloc: Global, first: Option<u32>, second: Option<u32>) -> Result<Vec<u8>, OutOfMemory> {
    let mut asked = Vec::new(alloc);
    asked.push(first)?;
    asked.push(second)?;
    let problem = asking(alloc, asked)?;
    let branch = branch(alloc)?;
    let mut out = Vec::new(alloc);
    if problem.asked.len() <= branch.terms.len() {
        answer(alloc, &problem, 7, &branch, &mut out)?;
    }
    Ok(out)
}

#[test]
fn answers_print(rt: HostRuntime) -> Result<(), Fail> {
    for (first, second, want) in [
        (None, Some(2), "answer 7\nX = 1::nil\n"),
        (Some(2), None, "answer 7\nX = -4\n"),
        (None, None, "answer 7\nyes\n"),
    ] {
        let out = seventh(rt.alloc(), first, second)?;
        assert!(rt; out.as_slice() == want.as_bytes(), "{want}");
    }
    Ok(())
}

#[test]
fn last_lines_print(rt: HostRuntime) -> Result<(), Fail> {
    let counts = Counts {
        answers: 2,
        reached: 0,
        inferences: 18446744073709551615,
    };
    let mut out = Vec::new(rt.alloc());
    summary(&counts, &mut out)?;
    let want = "answers 2, bound reached 0, inferences 18446744073709551615\n";
    assert!(rt; out.as_slice() == want.as_bytes());
    Ok(())
}
