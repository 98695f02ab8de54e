//! The words that ask for a program of a kind, or for a run of it.
ghost use Rattle.std.specs.Prelude.{◌≡◌, ◌+◌, ◌<◌, ◌≤◌, length, codes, slice_get, Some, IfOk, MatchOption, MatchResult};
ghost use Rattle.ll_top.specs.forms.Making.{kind_word};
ghost use Rattle.ll_top.specs.forms.Words.{word_texts, ThisWord, IsCommand, IsBounded, IsWorkerCount, greatest_bound};
ghost use Rattle.ll_top.specs.forms.FormWords.{HasPart, LacksPart};
ghost use Rattle.ll_top.specs.forms.MakeForm.{IsBadMakeWord, IsNoKind, LacksKind, IsAtOptions, HasOptions};

use crate::forms::words::{Command, GREATEST_BOUND, GREATEST_WORKERS, number_at, this_at};
use ll_make::{MakeKind, greatest_number, least_number};

/// What the words `make KIND N` ask for.
#[derive(Clone, Copy)]
pub struct MakeCommand {
    pub kind: MakeKind,
    pub number: u32,
}

/// What the words `make KIND N --bound B --workers W` ask for.
#[derive(Clone, Copy)]
pub struct MadeRunCommand {
    pub make: MakeCommand,
    pub bound: u32,
    pub workers: u32,
}

// The values of the options of a make.
#[derive(Clone, Copy)]
struct MadeOptions {
    bound: u32,
    workers: u32,
}

/// What the words of a make ask for, or the number of the first word through which no make begins.
pub fn read_make<'a>(words: &[&'a str]) -> Result<Command<'a>, usize>
    requires { HasPart (word_texts words.now) 0 (ThisWord (codes "make")) }
    ensures command { MatchResult result (IsCommand (word_texts words.now)) (IsBadMakeWord (word_texts words.now)) }
    ensures bound { IfOk result IsBounded }
{
    let kind = kind_at(words, 1)?;
    let number = number_at(words, 2, least_number(kind), greatest_number(kind))?;
    let make = MakeCommand { kind, number };
    if words.len() == 3 {
        return Ok(Command::Make(make));
    }
    let options = read_options(words)?;
    Ok(Command::MadeRun(MadeRunCommand {
        make,
        bound: options.bound,
        workers: options.workers,
    }))
}

// The options of a make, whose first three words stand.
fn read_options(words: &[&str]) -> Result<MadeOptions, usize>
    requires more { 3 < length words.now }
    requires front { IsAtOptions (word_texts words.now) }
    ensures options { MatchResult result (λ options. HasOptions (word_texts words.now) options.bound options.workers)
        (IsBadMakeWord (word_texts words.now)) }
    ensures bound { IfOk result (λ options. options.bound ≤ greatest_bound) }
    ensures workers { IfOk result (λ options. IsWorkerCount options.workers) }
{
    match this_at(words, 3, "--workers") {
        Ok(()) => read_bound_last(words),
        Err(_) => read_bound_first(words),
    }
}

// The options of a make of which the bound stands first.
fn read_bound_first(words: &[&str]) -> Result<MadeOptions, usize>
    requires more { 3 < length words.now }
    requires front { IsAtOptions (word_texts words.now) }
    requires other { LacksPart (word_texts words.now) 3 (ThisWord (codes "--workers")) }
    ensures options { MatchResult result (λ options. HasOptions (word_texts words.now) options.bound options.workers)
        (IsBadMakeWord (word_texts words.now)) }
    ensures bound { IfOk result (λ options. options.bound ≤ greatest_bound) }
    ensures workers { IfOk result (λ options. IsWorkerCount options.workers) }
{
    this_at(words, 3, "--bound")?;
    let bound = number_at(words, 4, 0, GREATEST_BOUND)?;
    this_at(words, 5, "--workers")?;
    let workers = number_at(words, 6, 1, GREATEST_WORKERS)?;
    if words.len() > 7 {
        return Err(8);
    }
    Ok(MadeOptions { bound, workers })
}

// The options of a make of which the number of workers stands first.
fn read_bound_last(words: &[&str]) -> Result<MadeOptions, usize>
    requires more { 3 < length words.now }
    requires front { IsAtOptions (word_texts words.now) }
    requires first { HasPart (word_texts words.now) 3 (ThisWord (codes "--workers")) }
    ensures options { MatchResult result (λ options. HasOptions (word_texts words.now) options.bound options.workers)
        (IsBadMakeWord (word_texts words.now)) }
    ensures bound { IfOk result (λ options. options.bound ≤ greatest_bound) }
    ensures workers { IfOk result (λ options. IsWorkerCount options.workers) }
{
    let workers = number_at(words, 4, 1, GREATEST_WORKERS)?;
    this_at(words, 5, "--bound")?;
    let bound = number_at(words, 6, 0, GREATEST_BOUND)?;
    if words.len() > 7 {
        return Err(8);
    }
    Ok(MadeOptions { bound, workers })
}

// The kind at a word.
fn kind_at(words: &[&str], at: usize) -> Result<MakeKind, usize>
    requires { at ≤ length words.now }
    ensures { MatchResult result (λ kind. slice_get (word_texts words.now) at ≡ Some (kind_word kind))
        (λ number. (number ≡ at + 1) × LacksKind (word_texts words.now) at) }
{
    match words.get(at) {
        Some(word) => kind_of(word).ok_or(at + 1),
        None => Err(at + 1),
    }
}

// The kind of this word, if it is the word of one.
fn kind_of(word: &str) -> Option<MakeKind>
    ensures { MatchOption result (IsNoKind word.now) (λ kind. word.now ≡ kind_word kind) }
{
    match word {
        "perm" => Some(MakeKind::Perm),
        "choice" => Some(MakeKind::Choice),
        "chain" => Some(MakeKind::Chain),
        _ => None,
    }
}
