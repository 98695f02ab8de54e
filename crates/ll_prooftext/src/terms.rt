//! Terms in the form of arguments, read.
ghost use Rattle.std.specs.Prelude.{◌≡◌, ◌||◌, not, ℕ, ◌+◌, ◌<◌, ◌^◌, ◌∷◌, ◌++◌, List, [], length, All, Some, None, IfOk, IfSome, OnOk, MatchOption, codes};
ghost use Rattle.ll_bank.specs.Nodes.{AllInTerms, HasTerm, ShowsTerm, Extends, term_tree};
ghost use Rattle.ll_prooftext.specs.Reading.{Argument, is_none};
ghost use Rattle.ll_prooftext.specs.Words.{BeginsNot, HasNone};
ghost use Rattle.ll_prooftext.specs.Terms.{Grows, Moves};
ghost use Rattle.ll_prooftext.specs.Brackets.{IsTermFrom, chain_term, IsOpened, HasItem, IsSign, IsGood, IsStep, IsItemStep, IsArgumentAt};

use crate::bytes::behind;
use crate::sets::is_at_end;
use crate::words::{Word, word_at};
use ll_bank::{At, Bank, Head, Names, OutOfMemory};
use std::alloc::Global;
use std::mem;

/// A term in front of a `::`, and the number of that sign among the names.
#[derive(Clone, Copy)]
struct Item {
    at: At,
    sign: u32,
}

/// An open bracket.
#[derive(Drop)]
struct Bracket {
    // The terms in front of a `::`.
    items: Vec<Item>,
    // What stands behind them: a word, and the arguments so far, if it is a head.
    part: Option<Word>,
    args: Vec<At>,
}

/// A term on the way: the innermost open bracket, and those outside of it.
#[derive(Drop)]
struct Open {
    top: Bracket,
    outer: Vec<Bracket>,
}

/// What one step of reading came to.
enum Step<'a> {
    /// No term in the form of an argument goes on so.
    Stuck,
    /// There is more to read.
    More(&'a [u8]),
    /// The outermost bracket was closed.
    Whole(At, &'a [u8]),
}

/// The term in the form of an argument at the front of the bytes, and what stands behind it. Names may have been added.
pub(crate) fn argument_at<'a>(
    alloc: Global,
    bytes: &'a [u8],
    names: &mut Names,
    bank: &mut Bank,
) -> Result<Option<(At, &'a [u8])>, OutOfMemory>
    requires { length names.old + length bytes.now < 2 ^ 32 }
    ensures found { IfOk result (λ found. MatchOption found (HasNone Argument bytes.now)
        (λ p. IsArgumentAt names.old bank.old bytes.now names.new bank.new p.0.0 p.1.now)) }
    ensures grows { Grows names.old names.new }
{
    if let Some(inside) = behind(bytes, b'(') {
        return bracketed(alloc, inside, names, bank);
    }
    match word_at(bytes, names, bank)? {
        Some((word, rest)) => {
            if !is_at_end(rest) {
                return Ok(None);
            }
            Ok(Some((term_of(word, &[], bank)?, rest)))
        }
        None => Ok(None),
    }
}

/// The term behind a bracket, and what stands behind its end.
fn bracketed<'a>(
    alloc: Global,
    inside: &'a [u8],
    names: &mut Names,
    bank: &mut Bank,
) -> Result<Option<(At, &'a [u8])>, OutOfMemory>
    requires { length names.old + length inside.now < 2 ^ 32 }
    ensures found { IfOk result (λ found. MatchOption found (HasNone Argument (40 ∷ inside.now))
        (λ p. IsArgumentAt names.old bank.old (40 ∷ inside.now) names.new bank.new p.0.0 p.1.now)) }
    ensures grows { Grows names.old names.new }
{
    let mut open = Open {
        top: Bracket::new(alloc),
        outer: Vec::new(alloc),
    };
    open.finish(alloc, inside, names, bank)
}

/// A head with arguments, or the term itself.
pub(crate) fn term_of(word: Word, args: &[At], bank: &mut Bank) -> Result<At, OutOfMemory>
    requires { AllInTerms bank.old args.now }
    ensures term { IfOk result (λ at. IsTermFrom bank.old bank.new word args.now at.0) }
    ensures keeps { OnOk result (Extends bank.old bank.new) }
{
    match word {
        Word::Head(head) => bank.app(head, args),
        Word::Term(at) => Ok(at),
    }
}

/// The number of the sign `::` at the front of the bytes, and what stands behind it.
fn sign_at<'a>(bytes: &'a [u8], names: &mut Names) -> Result<Option<(u32, &'a [u8])>, OutOfMemory>
    requires { length names.old < 2 ^ 32 }
    ensures found { IfOk result (λ found. MatchOption found ((rest : List ℕ) → bytes.now ≡ 58 ∷ 58 ∷ rest
        → ⊥) (λ p. bytes.now ≡ 58 ∷ 58 ∷ p.1.now)) }
    ensures sign { IfOk result (λ found. IfSome found (λ p. IsSign names.old names.new p.0)) }
    ensures grows { Grows names.old names.new }
{
    let Some(tail) = behind(bytes, b':') else {
        return Ok(None);
    };
    match behind(tail, b':') {
        Some(rest) => Ok(Some((names.add("::")?, rest))),
        None => Ok(None),
    }
}

impl Bracket {
    /// A bracket with nothing in it.
    fn new(alloc: Global) -> Self
        ensures items { result.items.items ≡ [] }
        ensures part { result.part ≡ None }
        ensures args { result.args.items ≡ [] }
    {
        Bracket {
            items: Vec::new(alloc),
            part: None,
            args: Vec::new(alloc),
        }
    }

    /// Whether a term stands in front of a `::`.
    fn is_chain(&self) -> bool
        ensures { result ≡ not (is_none self.now.items.items) }
    {
        !self.items.is_empty()
    }

    /// Whether the term inside has arguments.
    fn is_compound(&self) -> bool
        ensures { result ≡ (not (is_none self.now.items.items) || not (is_none self.now.args.items)) }
    {
        !self.items.is_empty() || !self.args.is_empty()
    }

    /// A part with a `::` behind it.
    fn add_item(&mut self, item: Item) -> Result<(), OutOfMemory>
        ensures { OnOk result (HasItem self.old self.new item) }
    {
        self.items.push(item)?;
        self.part = None;
        self.args.clear();
        Ok(())
    }

    /// The term inside, whose last part has this place.
    fn chain(&self, last: At, bank: &mut Bank) -> Result<At, OutOfMemory>
        requires items { All (λ i. HasTerm bank.old i.at.0) self.now.items.items }
        requires last { HasTerm bank.old last.0 }
        ensures term { IfOk result (λ at. ShowsTerm bank.new at.0
            (chain_term bank.old self.now.items.items (term_tree bank.old last.0))) }
        ensures keeps { OnOk result (Extends bank.old bank.new) }
    {
        let mut term = last;
        let mut left = self.items.len();
        while left > 0 {
            left -= 1;
            let item = self.items[left];
            term = bank.app(Head::Name(item.sign), &[item.at, term])?;
        }
        Ok(term)
    }
}

impl Open {
    /// Takes all up to the end of the outermost bracket.
    fn finish<'a>(
        &mut self,
        alloc: Global,
        inside: &'a [u8],
        names: &mut Names,
        bank: &mut Bank,
    ) -> Result<Option<(At, &'a [u8])>, OutOfMemory>
        requires outer { self.old.outer.items ≡ [] }
        requires items { self.old.top.items.items ≡ [] }
        requires part { self.old.top.part ≡ None }
        requires args { self.old.top.args.items ≡ [] }
        requires room { length names.old + length inside.now < 2 ^ 32 }
        ensures found { IfOk result (λ found. MatchOption found (HasNone Argument (40 ∷ inside.now))
            (λ p. IsArgumentAt names.old bank.old (40 ∷ inside.now) names.new bank.new p.0.0 p.1.now)) }
        ensures grows { Grows names.old names.new }
    {
        let mut rest = inside;
        'steps: loop {
            match self.step(alloc, rest, names, bank)? {
                Step::Stuck => return Ok(None),
                Step::More(next) => rest = next,
                Step::Whole(at, next) => {
                    if !is_at_end(next) {
                        return Ok(None);
                    }
                    return Ok(Some((at, next)));
                }
            }
        }
    }

    /// Takes a word, a bracket, or the sign or space behind a part.
    fn step<'a>(
        &mut self,
        alloc: Global,
        rest: &'a [u8],
        names: &mut Names,
        bank: &mut Bank,
    ) -> Result<Step<'a>, OutOfMemory>
        requires good { IsGood names.old bank.old self.old }
        requires room { length names.old + length rest.now < 2 ^ 32 }
        ensures step { IfOk result (λ step. IsStep names.old bank.old self.old rest.now names.new bank.new self.new step) }
        ensures grows { Grows names.old names.new }
    {
        let Some(part) = self.top.part else {
            return self.first(alloc, rest, names, bank);
        };
        if let Some(next) = behind(rest, b' ') {
            return self.argument(alloc, part, next, names, bank);
        }
        match behind(rest, b')') {
            Some(next) => self.close(part, next, names, bank),
            None => self.sign(part, rest, names, bank),
        }
    }

    /// Goes into a bracket.
    fn open(&mut self, alloc: Global) -> Result<(), OutOfMemory>
        ensures { OnOk result (IsOpened self.old self.new) }
    {
        let top = mem::replace(&mut self.top, Bracket::new(alloc));
        self.outer.push(top)?;
        Ok(())
    }

    /// Takes the first word of a part, or the bracket in front of a `::`.
    fn first<'a>(
        &mut self,
        alloc: Global,
        rest: &'a [u8],
        names: &mut Names,
        bank: &mut Bank,
    ) -> Result<Step<'a>, OutOfMemory>
        requires good { IsGood names.old bank.old self.old }
        requires part { self.old.top.part ≡ None }
        requires room { length names.old + length rest.now < 2 ^ 32 }
        ensures step { IfOk result (λ step. IsStep names.old bank.old self.old rest.now names.new bank.new self.new step) }
        ensures grows { Grows names.old names.new }
    {
        if let Some(next) = behind(rest, b'(') {
            self.open(alloc)?;
            return Ok(Step::More(next));
        }
        match word_at(rest, names, bank)? {
            Some((word, next)) => {
                self.top.part = Some(word);
                Ok(Step::More(next))
            }
            None => Ok(Step::Stuck),
        }
    }

    /// Takes an argument behind a head and a space.
    fn argument<'a>(
        &mut self,
        alloc: Global,
        part: Word,
        rest: &'a [u8],
        names: &mut Names,
        bank: &mut Bank,
    ) -> Result<Step<'a>, OutOfMemory>
        requires good { IsGood names.old bank.old self.old }
        requires part { self.old.top.part ≡ Some part }
        requires room { length names.old + length rest.now < 2 ^ 32 }
        ensures step { IfOk result (λ step. IsStep names.old bank.old self.old
            (32 ∷ rest.now) names.new bank.new self.new step) }
        ensures grows { Grows names.old names.new }
    {
        let Word::Head(_) = part else {
            return Ok(Step::Stuck);
        };
        if let Some(next) = behind(rest, b'(') {
            self.open(alloc)?;
            return Ok(Step::More(next));
        }
        match word_at(rest, names, bank)? {
            Some((word, next)) => {
                let at = term_of(word, &[], bank)?;
                self.top.args.push(at)?;
                Ok(Step::More(next))
            }
            None => Ok(Step::Stuck),
        }
    }

    /// Takes the `::` behind a part.
    fn sign<'a>(
        &mut self,
        part: Word,
        rest: &'a [u8],
        names: &mut Names,
        bank: &mut Bank,
    ) -> Result<Step<'a>, OutOfMemory>
        requires good { IsGood names.old bank.old self.old }
        requires part { self.old.top.part ≡ Some part }
        requires room { length names.old + length rest.now < 2 ^ 32 }
        requires no_space { BeginsNot 32 rest.now }
        requires no_end { BeginsNot 41 rest.now }
        ensures step { IfOk result (λ step. IsStep names.old bank.old self.old rest.now names.new bank.new self.new step) }
        ensures grows { Grows names.old names.new }
    {
        let Some((sign, next)) = sign_at(rest, names)? else {
            return Ok(Step::Stuck);
        };
        let at = term_of(part, &self.top.args, bank)?;
        self.top.add_item(Item { at, sign })?;
        Ok(Step::More(next))
    }

    /// Goes out of a bracket, behind its `)`.
    fn close<'a>(
        &mut self,
        part: Word,
        rest: &'a [u8],
        names: &mut Names,
        bank: &mut Bank,
    ) -> Result<Step<'a>, OutOfMemory>
        requires good { IsGood names.old bank.old self.old }
        requires part { self.old.top.part ≡ Some part }
        requires room { length names.old + length rest.now < 2 ^ 32 }
        ensures step { IfOk result (λ step. IsStep names.old bank.old self.old
            (41 ∷ rest.now) names.new bank.new self.new step) }
        ensures grows { Grows names.old names.new }
    {
        if !self.top.is_compound() {
            return Ok(Step::Stuck);
        }
        let is_chain = self.top.is_chain();
        let last = term_of(part, &self.top.args, bank)?;
        let at = self.top.chain(last, bank)?;
        let Some(outer) = self.outer.pop() else {
            return Ok(Step::Whole(at, rest));
        };
        self.top = outer;
        let Some(outside) = self.top.part else {
            return self.close_item(is_chain, at, rest, names);
        };
        match outside {
            Word::Head(_) => {
                self.top.args.push(at)?;
                Ok(Step::More(rest))
            }
            Word::Term(_) => Ok(Step::Stuck),
        }
    }

    /// Takes the `::` behind a bracket in front of it.
    fn close_item<'a>(
        &mut self,
        is_chain: bool,
        at: At,
        rest: &'a [u8],
        names: &mut Names,
    ) -> Result<Step<'a>, OutOfMemory>
        requires { length names.old < 2 ^ 32 }
        ensures step { IfOk result (λ step. IsItemStep is_chain at self.old rest.now names.old names.new self.new step) }
        ensures grows { Grows names.old names.new }
    {
        if !is_chain {
            return Ok(Step::Stuck);
        }
        let Some((sign, next)) = sign_at(rest, names)? else {
            return Ok(Step::Stuck);
        };
        self.top.add_item(Item { at, sign })?;
        Ok(Step::More(next))
    }
}
