//! Texts of derivations that are made: at random in version 1, by way of version 2 and back; and with a table that is changed in one row.
use ll_bank::Names;
use ll_lexer::{Fault, Place, TextFault};
use ll_prooftext::{read_any, size, write, write2};
use std::alloc::{AllocError, Global};
use std::test::Fail;

// How many terms a derivation takes its fields from.
const PIECES: usize = 24;

// How many bytes a term has before no more is built on it.
const LONG: usize = 300;

// What the next number comes from.
#[derive(Drop)]
struct Random {
    state: u64,
}

// The text of a term, and its form.
#[derive(Drop)]
struct Piece {
    text: String,
    form: Form,
}

#[derive(Clone, Copy, PartialEq, Eq)]
enum Form {
    Leaf,
    Applied,
    Pair,
}

impl Random {
    // The next number below 2^31.
    fn next(&mut self) -> u64 {
        self.state = self
            .state
            .wrapping_mul(6_364_136_223_846_793_005)
            .wrapping_add(1_442_695_040_888_963_407);
        self.state >> 33
    }

    // One of some texts.
    fn one_of(&mut self, texts: &[&'static str]) -> &'static str {
        if texts.is_empty() {
            return "a";
        }
        texts[self.next() as usize % texts.len()]
    }

    // One of some terms that is not too long, or a short one.
    fn term(&mut self, alloc: Global, pieces: &[Piece]) -> Result<Piece, AllocError> {
        if !pieces.is_empty() {
            let piece = &pieces[self.next() as usize % pieces.len()];
            if piece.text.len() < LONG {
                return piece.copy(alloc);
            }
        }
        let text = self.one_of(&["a", "b", "nil", "?3", "?12", "#2", "-7", "15"]);
        Ok(Piece {
            text: String::from_str(alloc, text)?,
            form: Form::Leaf,
        })
    }

    // A term over others.
    fn built(&mut self, alloc: Global, pieces: &[Piece]) -> Result<Piece, AllocError> {
        let first = self.term(alloc, pieces)?;
        let second = self.term(alloc, pieces)?;
        match self.next() % 4 {
            0 => {
                let front = if first.form == Form::Pair {
                    first.argument(alloc)?
                } else {
                    first.text
                };
                let text = format!(in alloc; "{front}::{}", second.text)?;
                Ok(Piece {
                    text,
                    form: Form::Pair,
                })
            }
            1 => {
                let head = self.one_of(&["f", "g", "#4"]);
                let text = format!(in alloc; "{head} {}", first.argument(alloc)?)?;
                Ok(Piece {
                    text,
                    form: Form::Applied,
                })
            }
            _ => {
                let head = self.one_of(&["f", "longer_name", "#4"]);
                let text = format!(in alloc;
                    "{head} {} {}",
                    first.argument(alloc)?,
                    second.argument(alloc)?
                )?;
                Ok(Piece {
                    text,
                    form: Form::Applied,
                })
            }
        }
    }

    // A line of a node with one child.
    fn node(&mut self, alloc: Global, pieces: &[Piece]) -> Result<String, AllocError> {
        let first = self.term(alloc, pieces)?.argument(alloc)?;
        let second = self.term(alloc, pieces)?.argument(alloc)?;
        match self.next() % 4 {
            0 => format!(in alloc; "exists {first}\n"),
            1 => format!(in alloc; "clause 2 0 {first} {second} {first} {{1 5}}\n"),
            2 => format!(in alloc; "clause 0 3 {second} !\n"),
            _ => format!(in alloc;
                "{}\n",
                self.one_of(&["bang", "left", "lolli 7", "forall 3", "use"])
            ),
        }
    }
}

impl Piece {
    fn copy(&self, alloc: Global) -> Result<Piece, AllocError> {
        Ok(Piece {
            text: String::from_str(alloc, self.text.as_str())?,
            form: self.form,
        })
    }

    // In brackets where it has arguments.
    fn argument(&self, alloc: Global) -> Result<String, AllocError> {
        if self.form == Form::Leaf {
            return String::from_str(alloc, self.text.as_str());
        }
        format!(in alloc; "({})", self.text)
    }
}

// The text of a derivation in version 1.
fn made(alloc: Global, seed: u64) -> Result<String, AllocError> {
    let mut random = Random { state: seed };
    let mut pieces = Vec::new(alloc);
    for _ in 0..PIECES {
        let piece = random.built(alloc, &pieces)?;
        pieces.push(piece)?;
    }
    let mut text = String::from_str(alloc, "proof 1\n")?;
    for _ in 0..6 {
        let term = random.term(alloc, &pieces)?.argument(alloc)?;
        text.push_str(format!(in alloc; "let {term}\n")?.as_str())?;
    }
    for _ in 0..20 {
        text.push_str(random.node(alloc, &pieces)?.as_str())?;
    }
    text.push_str("true\n")?;
    Ok(text)
}

// What is written in a version of a derivation that is read.
fn converted(alloc: Global, text: &[u8], version: u8) -> Result<Vec<u8>, TextFault> {
    if text.len() > 100_000 || version == 0 || version > 2 {
        return Err(TextFault::OutOfMemory);
    }
    let mut names = Names::new(alloc);
    let (derivation, _) = read_any(alloc, text, &mut names)?;
    let mut out = Vec::new(alloc);
    if version == 2 {
        write2(alloc, &names, &derivation, &mut out)?;
    } else {
        write(alloc, &names, &derivation, &mut out)?;
    }
    if size(alloc, &names, &derivation, version)? != out.len() as u64 {
        return Err(TextFault::OutOfMemory);
    }
    Ok(out)
}

#[test]
fn there_and_back(rt: HostRuntime) -> Result<(), Fail> {
    for seed in 0..12 {
        let text = made(rt.alloc(), seed)?;
        let short = converted(rt.alloc(), text.as_bytes(), 2)?;
        let again = converted(rt.alloc(), &short, 1)?;
        assert!(rt; again.as_slice() == text.as_bytes(), "{text}");
        let same = converted(rt.alloc(), &short, 2)?;
        assert!(rt; same == short, "{text}");
    }
    Ok(())
}

// How many rows a table has.
const ROWS: u64 = 12;

// The text with these rows `share f N`, and the rows of the variables.
fn table_text(alloc: Global, rows: &[u64], lets: &[u64]) -> Result<String, AllocError> {
    let mut text = String::from_str(alloc, "proof 2\n")?;
    for number in rows {
        text.push_str(format!(in alloc; "share f {number}\n")?.as_str())?;
    }
    for row in lets {
        text.push_str(format!(in alloc; "let @{row}\n")?.as_str())?;
    }
    text.push_str("true\n")?;
    Ok(text)
}

// The numbers from 0 on, each where it stands or moved.
fn numbers<F: Fn(u64) -> u64>(alloc: Global, moved: F) -> Result<Vec<u64>, AllocError>
    requires { F.IsAlwaysCallable moved }
{
    let mut numbers = Vec::new(alloc);
    for i in 0..ROWS {
        numbers.push(moved(i))?;
    }
    Ok(numbers)
}

// The first fault of such a text.
fn fault_of(alloc: Global, rows: &[u64], lets: &[u64]) -> Result<Option<TextFault>, AllocError> {
    let text = table_text(alloc, rows, lets)?;
    Ok(converted(alloc, text.as_bytes(), 2).err())
}

fn fault(line: u64, column: u32, kind: u8) -> Option<TextFault> {
    let line = if line < 1000 { line as u32 } else { 0 };
    let at = Place { line, column };
    Some(TextFault::Text(Fault { at, kind }))
}

// The number of another row where this one is exchanged for the one behind it.
fn exchanged(row: u64, i: u64) -> u64 {
    if i == row {
        row.saturating_add(1)
    } else if i == row.saturating_add(1) {
        row
    } else {
        i
    }
}

fn shifted(row: u64, i: u64) -> u64 {
    if i < row { i } else { i.saturating_add(1) }
}

#[test]
fn rows_exchanged(rt: HostRuntime) -> Result<(), Fail> {
    for row in 0..ROWS - 1 {
        let order = numbers(rt.alloc(), |i| exchanged(row, i))?;
        let found = fault_of(rt.alloc(), &order, &order)?;
        assert!(rt; found == fault(row + 2, 1, 18), "{row}");
    }
    Ok(())
}

// The other row is there a second time, or another one stands in front of it.
#[test]
fn rows_added(rt: HostRuntime) -> Result<(), Fail> {
    for row in 0..ROWS {
        let mut rows = numbers(rt.alloc(), |i| i)?;
        let doubled = numbers(rt.alloc(), |i| shifted(row + 1, i))?;
        let moved = numbers(rt.alloc(), |i| shifted(row, i))?;
        let at = row as usize;
        if at < rows.len() {
            rows.insert(at, row)?;
        }
        let found = fault_of(rt.alloc(), &rows, &doubled)?;
        assert!(rt; found == fault(row + 3, 1, 18), "{row}");
        if at < rows.len() {
            rows[at] = 99;
        }
        let found = fault_of(rt.alloc(), &rows, &moved)?;
        assert!(rt; found == fault(row + 2, 1, 18), "{row}");
    }
    Ok(())
}

#[test]
fn a_row_behind_the_table(rt: HostRuntime) -> Result<(), Fail> {
    let lets = numbers(rt.alloc(), |i| i)?;
    let mut rows = numbers(rt.alloc(), |i| i)?;
    assert!(rt; fault_of(rt.alloc(), &rows, &lets)?.is_none());
    rows.push(99)?;
    assert!(rt; fault_of(rt.alloc(), &rows, &lets)? == fault(ROWS + 2, 1, 18));
    Ok(())
}

// The last variable then has no row.
#[test]
fn rows_dropped(rt: HostRuntime) -> Result<(), Fail> {
    for row in 0..ROWS {
        let lets = numbers(rt.alloc(), |i| i)?;
        let mut rows = numbers(rt.alloc(), |i| i)?;
        let at = row as usize;
        if at < rows.len() {
            rows.remove(at);
        }
        let found = fault_of(rt.alloc(), &rows, &lets)?;
        assert!(rt; found == fault(2 * ROWS, 5, 14), "{row}");
    }
    Ok(())
}
