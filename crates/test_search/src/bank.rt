//! Each public call once, with ample memory.
ghost use Rattle.std.specs.Prelude.{◌≡◌, ◌≤◌, length, IfOk, IfSome};
ghost use Rattle.ll_bank.specs.Nodes.{HasForm, HasTerm, HasParts, HasSize, Extends, size_of};

use ll_bank::{At, Bank, BankSize, BankTail, FormAt, FormNode, Head, Names, OutOfMemory, TermView};
use std::process::Abort;
use std::test::Fail;

#[test]
fn numbers_texts(rt: HostRuntime) -> Result<(), Fail> {
    let mut names = Names::new(rt.alloc());
    assert!(rt; names.is_empty());
    for (text, want) in [("append", 0), ("nil", 1), ("append", 0), ("", 2)] {
        assert!(rt; names.len() < 4);
        assert_eq!(rt; names.add(text)?, want, "number of {text}");
    }
    assert_eq!(rt; names.len(), 3);
    assert_eq!(rt; names.text(1), "nil");
    Ok(())
}

// Texts in a front that copies share, and texts that a copy has behind it.
#[test]
fn shares_names(rt: HostRuntime) -> Result<(), Fail> {
    let mut names = Names::new(rt.alloc());
    for (text, want) in [("append", 0), ("nil", 1)] {
        assert!(rt; names.len() < 4);
        assert_eq!(rt; names.add(text)?, want, "number of {text}");
    }
    let names = names.share()?;
    let mut copy = names.copy()?;
    for (text, want) in [("nil", 1), ("cons", 2), ("append", 0), ("cons", 2)] {
        assert!(rt; copy.len() < 4);
        assert_eq!(rt; copy.add(text)?, want, "number of {text}");
    }
    let other = copy.share()?.copy()?;
    assert_eq!(rt; names.len(), 2);
    assert_eq!(rt; other.len(), 3);
    assert_eq!(rt; other.text(1), "nil");
    assert_eq!(rt; other.text(2), "cons");
    Ok(())
}

fn assert_term(rt: &impl Abort, bank: &Bank, at: At, want: TermView<'_>)
    requires { HasTerm bank.now at.0 }
{
    assert!(rt; bank.term_at(at) == want);
}

#[test]
fn reads_terms_back(rt: HostRuntime) -> Result<(), Fail> {
    let mut bank = Bank::new(rt.alloc());
    let variable = bank.var(7)?;
    let number = bank.int(-3)?;
    let name = bank.app(Head::Name(0), &[])?;
    let args = [variable, number, name];
    let pair = bank.app(Head::Eigen(1), &args)?;
    assert_term(&rt, &bank, variable, TermView::Var(7));
    assert_term(&rt, &bank, number, TermView::Int(-3));
    assert_term(&rt, &bank, name, TermView::App(Head::Name(0), &[]));
    assert_term(&rt, &bank, pair, TermView::App(Head::Eigen(1), &args));
    Ok(())
}

fn read_back(rt: &impl Abort, bank: &mut Bank, node: FormNode<'_>) -> Result<FormAt, Fail>
    requires { HasParts bank.old node }
    ensures made { IfOk result (λ at. HasForm bank.new at.0) }
    ensures terms { length bank.old.terms ≤ length bank.new.terms }
    ensures forms { length bank.old.forms ≤ length bank.new.forms }
{
    let at = bank.form(node)?;
    assert!(rt; bank.form_at(at) == node);
    Ok(at)
}

#[test]
fn reads_formulas_back(rt: HostRuntime) -> Result<(), Fail> {
    let mut bank = Bank::new(rt.alloc());
    let atom = bank.app(Head::Name(0), &[])?;
    let left = read_back(&rt, &mut bank, FormNode::Atom(atom))?;
    let right = read_back(&rt, &mut bank, FormNode::One)?;
    read_back(&rt, &mut bank, FormNode::Use(3, &[atom, atom], right))?;
    read_back(&rt, &mut bank, FormNode::With(left, right))?;
    read_back(&rt, &mut bank, FormNode::Tensor(left, right))?;
    Ok(())
}

#[test]
fn reads_more_formulas_back(rt: HostRuntime) -> Result<(), Fail> {
    let mut bank = Bank::new(rt.alloc());
    let left = read_back(&rt, &mut bank, FormNode::Top)?;
    let right = read_back(&rt, &mut bank, FormNode::One)?;
    read_back(&rt, &mut bank, FormNode::Plus(left, right))?;
    read_back(&rt, &mut bank, FormNode::Bang(left))?;
    read_back(&rt, &mut bank, FormNode::Lolli(left, right))?;
    read_back(&rt, &mut bank, FormNode::Imp(left, right))?;
    read_back(&rt, &mut bank, FormNode::Forall(left))?;
    read_back(&rt, &mut bank, FormNode::Exists(left))?;
    Ok(())
}

// A term that has its only argument twice, at each of so many levels.
fn doubled(bank: &mut Bank, levels: u32) -> Result<At, OutOfMemory>
    ensures { IfOk result (λ at. HasTerm bank.new at.0) }
{
    let mut at = bank.app(Head::Name(0), &[])?;
    for _ in 0..levels {
        at = bank.app(Head::Name(1), &[at, at])?;
    }
    Ok(at)
}

#[test]
fn copies_what_is_shared_once(rt: HostRuntime) -> Result<(), Fail> {
    let mut bank = Bank::new(rt.alloc());
    let mut other = Bank::new(rt.alloc());
    let deep = doubled(&mut bank, 60)?;
    let copy = bank.copy_into(deep, &mut other)?;
    assert_eq!(rt; other.depth(copy), 60);
    Ok(())
}

#[test]
fn compares_what_is_shared_once(rt: HostRuntime) -> Result<(), Fail> {
    let mut bank = Bank::new(rt.alloc());
    let mut other = Bank::new(rt.alloc());
    let deep = doubled(&mut bank, 60)?;
    let same = doubled(&mut other, 60)?;
    assert!(rt; bank.equal(deep, &other, same)?);
    Ok(())
}

// A body whose bound place stands inside so many quantifiers, each over a formula twice.
fn nested(bank: &mut Bank, levels: u32) -> Result<FormAt, OutOfMemory>
    ensures { IfOk result (λ at. HasForm bank.new at.0) }
{
    let bound = bank.app(Head::Bound(levels), &[])?;
    let mut at = bank.form(FormNode::Atom(bound))?;
    for _ in 0..levels {
        let twice = bank.form(FormNode::With(at, at))?;
        at = bank.form(FormNode::Forall(twice))?;
    }
    Ok(at)
}

// The left side of `&`, or what stands under a quantifier.
fn left_of(bank: &Bank, at: FormAt) -> Option<FormAt>
    requires { HasForm bank.now at.0 }
    ensures { IfSome result (λ left. HasForm bank.now left.0) }
{
    match bank.form_at(at) {
        FormNode::With(left, _) => Some(left),
        FormNode::Forall(left) => Some(left),
        _ => None,
    }
}

// The formula that is so far to the left, or further in, of a formula.
fn leftmost(bank: &Bank, form: FormAt, steps: u32) -> FormAt
    requires { HasForm bank.now form.0 }
    ensures { HasForm bank.now result.0 }
{
    let mut at = form;
    for _ in 0..steps {
        at = left_of(bank, at).unwrap_or(at);
    }
    at
}

#[test]
fn opens_what_is_shared_once(rt: HostRuntime) -> Result<(), Fail> {
    let mut bank = Bank::new(rt.alloc());
    let body = nested(&mut bank, 60)?;
    let value = bank.app(Head::Eigen(4), &[])?;
    let opened = bank.instantiate(body, value)?;
    let atom = leftmost(&bank, opened, 120);
    assert!(rt; bank.form_at(atom) == FormNode::Atom(value));
    Ok(())
}

// A bank with one term, and its size.
fn small(rt: &HostRuntime) -> Result<(Bank, BankSize), OutOfMemory>
    ensures { IfOk result (λ made. (made.1 ≡ size_of made.0) × (HasSize made.0 made.1 × HasTerm made.0 0)) }
{
    let mut bank = Bank::new(rt.alloc());
    bank.int(1)?;
    let size = bank.size();
    Ok((bank, size))
}

// The nodes of two terms more, and the bank that has them.
fn longer(bank: &mut Bank, from: BankSize) -> Result<BankTail, OutOfMemory>
    requires size { from ≡ size_of bank.old }
    requires had { HasSize bank.old from }
    requires term { HasTerm bank.old 0 }
    ensures tail { IfOk result (λ tail. tail.from ≡ from) }
    ensures keeps { Extends bank.old bank.new }
{
    bank.app(Head::Name(2), &[At(0), At(0)])?;
    let to = bank.size();
    bank.tail(from, to)
}

#[test]
fn cuts_and_extends(rt: HostRuntime) -> Result<(), Fail> {
    let (mut bank, from) = small(&rt)?;
    let mut other = bank.image(from)?;
    let tail = longer(&mut bank, from)?;
    other.extend(&tail)?;
    assert!(rt; other.size() == bank.size());
    bank.cut(from);
    assert!(rt; bank.size() == from);
    Ok(())
}
