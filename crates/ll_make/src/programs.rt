//! The lines of the programs that are made.
ghost use Rattle.std.specs.Prelude.{◌≡◌, ◌≤◌, ◌<◌, ◌^◌, ◌+◌, ◌++◌, IfOk, OnOk};
ghost use Rattle.ll_make.specs.Kinds.{InRange};
ghost use Rattle.ll_make.specs.Programs.{program_text, lines_text, line, perm_lines, choice_lines, chain_lines, link};

use crate::MakeKind;
use crate::numbered::{write_goals, write_list, write_numbered};
use std::alloc::{AllocError, Global};

/// Memory was wanting.
pub type OutOfMemory = AllocError;

/// The text of the program of this kind for a number that fits it.
pub fn program(alloc: Global, kind: MakeKind, n: u32) -> Result<Vec<u8>, OutOfMemory>
    requires { InRange kind n }
    ensures { IfOk result (λ text. text.items ≡ program_text kind n) }
{
    let mut text = Vec::new(alloc);
    match kind {
        MakeKind::Perm => write_perm(n, &mut text)?,
        MakeKind::Choice => write_choice(n, &mut text)?,
        MakeKind::Chain => write_chain(n, &mut text)?,
    }
    Ok(text)
}

// Appends the program that tells the permutations of the numbers from 1 to `n`.
fn write_perm(n: u32, text: &mut Vec<u8>) -> Result<(), OutOfMemory>
    ensures { OnOk result (text.new.items ≡ text.old.items ++ lines_text (perm_lines n)) }
{
    text.extend_from_slice(b"go K :- load ")?;
    write_list(b"", n, text)?;
    text.extend_from_slice(
        b" K.\n\
        load nil K :- unload K.\n\
        load (X::L) K :- item X -o load L K.\n\
        unload nil.\n\
        unload (X::L) :- item X , unload L.\n",
    )
}

// Appends the program that chooses a bit at each of `n` places.
fn write_choice(n: u32, text: &mut Vec<u8>) -> Result<(), OutOfMemory>
    requires { 1 ≤ n }
    ensures { OnOk result (text.new.items ≡ text.old.items ++ lines_text (choice_lines n)) }
{
    text.extend_from_slice(b"bit 0.\nbit 1.\ngo ")?;
    write_list(b"X", n, text)?;
    text.extend_from_slice(b" :- ")?;
    write_goals(n, text)?;
    text.extend_from_slice(b".\n")
}

// Appends the program that follows a chain of `n` clauses.
fn write_chain(n: u32, text: &mut Vec<u8>) -> Result<(), OutOfMemory>
    requires { 1 ≤ n }
    ensures { OnOk result (text.new.items ≡ text.old.items ++ lines_text (chain_lines n)) }
{
    write_numbered(b"go :- p", n, text)?;
    text.extend_from_slice(b".\n")?;
    for k in (0..n - 1).rev() {
        write_link(k + 1, text)?;
    }
    text.extend_from_slice(b"p1.\n")
}

// Appends the line of the clause by which the place above this one of a chain follows from it.
fn write_link(below: u32, text: &mut Vec<u8>) -> Result<(), OutOfMemory>
    requires { below + 1 < 2 ^ 32 }
    ensures { OnOk result (text.new.items ≡ text.old.items ++ line (link below)) }
{
    write_numbered(b"p", below + 1, text)?;
    write_numbered(b" :- p", below, text)?;
    text.extend_from_slice(b".\n")
}
