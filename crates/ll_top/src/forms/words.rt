//! The words of a command, read by hand.
ghost use Rattle.std.specs.Prelude.{◌≡◌, ◌+◌, ◌≤◌, length, true, codes, slice_get, Some, IsSomeAnd, IfOk, IfSome, MatchOption, MatchResult};
ghost use Rattle.std.specs.Char.{is_ascii_digit};
ghost use Rattle.std.specs.List.{list_all};
ghost use Rattle.ll_top.specs.forms.Words.{is_name_word, is_number_word, number_from, value_within, ThisWord, AnyName, NumberFrom, IsPrint, IsCheck, IsConvert};
ghost use Rattle.ll_top.specs.forms.Words.{IsCommand, IsBounded, IsVersion, shown_check, shown_convert, IsBadWord, greatest_bound, print_form, check_form};
ghost use Rattle.ll_top.specs.forms.Words.{cover_form, convert_form, word_texts};
ghost use Rattle.ll_top.specs.forms.FormWords.{HasPart, LacksPart, IsBadFormWord, form_word, IsNoFormWord, workers_of};

use crate::forms::making::{MadeRunCommand, MakeCommand, read_make};
use crate::forms::searches::{read_deepen, read_run, read_session};
use ll_deepen::Series;

/// What the words `run PROGRAM QUERY --bound N --workers W [--proofs] [--first K]` ask for.
#[derive(Clone, Copy)]
pub struct RunCommand<'a> {
    pub program: &'a str,
    pub query: &'a str,
    pub bound: u32,
    /// How many search, from 1 to 64.
    pub workers: u32,
    /// Whether each answer is written with its derivation.
    pub proofs: bool,
    /// How many answers are asked for, at least 1; `None` stands for all.
    pub first: Option<u32>,
}

/// What the words `session PROGRAM QUERIES --bound N --workers W [--proofs]` ask for.
#[derive(Clone, Copy)]
pub struct SessionCommand<'a> {
    pub program: &'a str,
    /// The name of the text whose lines are queries.
    pub queries: &'a str,
    pub bound: u32,
    /// How many search, from 1 to 64.
    pub workers: u32,
    /// Whether each answer is written with its derivation.
    pub proofs: bool,
}

/// What the words `deepen PROGRAM QUERY --from A --by B --to C --workers W [--proofs]` ask for.
#[derive(Clone, Copy)]
pub struct DeepenCommand<'a> {
    pub program: &'a str,
    pub query: &'a str,
    /// The bounds that are tried.
    pub series: Series,
    /// How many search, from 1 to 64.
    pub workers: u32,
    /// Whether each answer is written with its derivation.
    pub proofs: bool,
}

/// What the words `convert PROOF --to V` ask for.
#[derive(Clone, Copy)]
pub struct ConvertCommand<'a> {
    pub proof: &'a str,
    /// The version of the text that is written, 1 or 2.
    pub version: u8,
}

/// What the words `check PROGRAM QUERY PROOF` ask for, or the words `cover PROGRAM QUERY PROOF --bound N`.
#[derive(Clone, Copy)]
pub struct CheckCommand<'a> {
    pub program: &'a str,
    pub query: &'a str,
    pub proof: &'a str,
    /// The bound of the search that a cover asks about. A check has none.
    pub bound: Option<u32>,
}

/// What words ask for.
#[derive(Clone, Copy)]
pub enum Command<'a> {
    /// A run.
    Run(RunCommand<'a>),
    /// A session.
    Session(SessionCommand<'a>),
    /// Searches with one bound after the other.
    Deepen(DeepenCommand<'a>),
    /// The words `print PROGRAM`, with the name.
    Print(&'a str),
    /// A check, or a cover.
    Check(CheckCommand<'a>),
    /// A conversion.
    Convert(ConvertCommand<'a>),
    /// A program that is made.
    Make(MakeCommand),
    /// A run of a program that is made.
    MadeRun(MadeRunCommand),
}

// What the words of a form begin with.
#[derive(Clone, Copy)]
enum FormWord {
    Run,
    Session,
    Deepen,
    Print,
    Check,
    Cover,
    Convert,
    Make,
}

pub const GREATEST_BOUND: u32 = 1_000_000;

pub const GREATEST_WORKERS: u32 = 64;

pub const GREATEST_FIRST: u32 = 999_999_999;

/// What the words ask for. `Err` is the number, counted from 1, of the first word through which no form's words begin, or one
/// past the last where the words end early.
pub fn read_command<'a>(words: &[&'a str]) -> Result<Command<'a>, usize>
    ensures command { MatchResult result (IsCommand (word_texts words.now)) (IsBadWord (word_texts words.now)) }
    ensures bound { IfOk result IsBounded }
{
    let Some(first) = words.first() else {
        return Err(1);
    };
    let Some(form) = form_of(first) else {
        return Err(1);
    };
    match form {
        FormWord::Run => Ok(Command::Run(read_run(words)?)),
        FormWord::Session => Ok(Command::Session(read_session(words)?)),
        FormWord::Deepen => Ok(Command::Deepen(read_deepen(words)?)),
        FormWord::Print => Ok(Command::Print(read_print(words)?)),
        FormWord::Check => Ok(Command::Check(read_check(words)?)),
        FormWord::Cover => Ok(Command::Check(read_cover(words)?)),
        FormWord::Convert => Ok(Command::Convert(read_convert(words)?)),
        FormWord::Make => read_make(words),
    }
}

// The forms that begin with this word, if there are any.
fn form_of(word: &str) -> Option<FormWord>
    ensures { MatchOption result (IsNoFormWord word.now) (λ form. word.now ≡ form_word form) }
{
    match word {
        "run" => Some(FormWord::Run),
        "session" => Some(FormWord::Session),
        "deepen" => Some(FormWord::Deepen),
        "print" => Some(FormWord::Print),
        "check" => Some(FormWord::Check),
        "cover" => Some(FormWord::Cover),
        "convert" => Some(FormWord::Convert),
        "make" => Some(FormWord::Make),
        _ => None,
    }
}

/// How many search for a command, where it says so. The program does not call it: its contract says what the words ask for.
pub fn workers_of(command: Command<'_>) -> Option<u32>
    ensures { result ≡ workers_of command.entry }
{
    match command {
        Command::Run(run) => Some(run.workers),
        Command::Session(session) => Some(session.workers),
        Command::Deepen(deepen) => Some(deepen.workers),
        Command::MadeRun(run) => Some(run.workers),
        Command::Print(_) => None,
        Command::Check(_) => None,
        Command::Convert(_) => None,
        Command::Make(_) => None,
    }
}

// The name of a print's program, or the number of the first word through which no print begins.
fn read_print<'a>(words: &[&'a str]) -> Result<&'a str, usize>
    requires { HasPart (word_texts words.now) 0 (ThisWord (codes "print")) }
    ensures { MatchResult result (λ name. IsPrint (word_texts words.now) name.now)
        (IsBadFormWord print_form (word_texts words.now)) }
{
    let name = name_at(words, 1)?;
    if words.len() > 2 {
        return Err(3);
    }
    Ok(name)
}

// The names of a check's texts, or the number of the first word through which no check begins.
fn read_check<'a>(words: &[&'a str]) -> Result<CheckCommand<'a>, usize>
    requires { HasPart (word_texts words.now) 0 (ThisWord (codes "check")) }
    ensures { MatchResult result (λ check. IsCheck (word_texts words.now) (shown_check check))
        (IsBadFormWord check_form (word_texts words.now)) }
{
    let program = name_at(words, 1)?;
    let query = name_at(words, 2)?;
    let proof = name_at(words, 3)?;
    if words.len() > 4 {
        return Err(5);
    }
    Ok(CheckCommand {
        program,
        query,
        proof,
        bound: None,
    })
}

// The names of a cover's texts and its bound, or the number of the first word through which no cover begins.
fn read_cover<'a>(words: &[&'a str]) -> Result<CheckCommand<'a>, usize>
    requires { HasPart (word_texts words.now) 0 (ThisWord (codes "cover")) }
    ensures cover { MatchResult result (λ cover. IsCheck (word_texts words.now) (shown_check cover))
        (IsBadFormWord cover_form (word_texts words.now)) }
    ensures bound { IfOk result (λ cover. IfSome cover.bound (λ bound. bound ≤ greatest_bound)) }
{
    let program = name_at(words, 1)?;
    let query = name_at(words, 2)?;
    let proof = name_at(words, 3)?;
    this_at(words, 4, "--bound")?;
    let bound = number_at(words, 5, 0, GREATEST_BOUND)?;
    if words.len() > 6 {
        return Err(7);
    }
    Ok(CheckCommand {
        program,
        query,
        proof,
        bound: Some(bound),
    })
}

// The name and the version of a conversion, or the number of the first word through which no conversion begins.
fn read_convert<'a>(words: &[&'a str]) -> Result<ConvertCommand<'a>, usize>
    requires { HasPart (word_texts words.now) 0 (ThisWord (codes "convert")) }
    ensures convert { MatchResult result (λ convert. IsConvert (word_texts words.now) (shown_convert convert))
        (IsBadFormWord convert_form (word_texts words.now)) }
    ensures version { IfOk result (λ convert. IsVersion convert.version) }
{
    let proof = name_at(words, 1)?;
    this_at(words, 2, "--to")?;
    let version = number_at(words, 3, 1, 2)?;
    if words.len() > 4 {
        return Err(5);
    }
    Ok(ConvertCommand {
        proof,
        version: version as u8,
    })
}

/// The name at a word, or the word's number, counted from 1, where there is none.
pub fn name_at<'a>(words: &[&'a str], at: usize) -> Result<&'a str, usize>
    requires { at ≤ length words.now }
    ensures { MatchResult result (λ name. (slice_get (word_texts words.now) at ≡ Some name.now)
        × (is_name_word name.now ≡ true)) (λ number. (number ≡ at + 1) × LacksPart (word_texts words.now) at AnyName) }
{
    match words.get(at) {
        Some(word) if is_name(word) => Ok(*word),
        _ => Err(at + 1),
    }
}

/// Whether this word stands there: nothing, or the word's number, counted from 1.
pub fn this_at(words: &[&str], at: usize, text: &str) -> Result<(), usize>
    requires { at ≤ length words.now }
    ensures { MatchResult result (λ _. HasPart (word_texts words.now) at (ThisWord text.now))
        (λ number. (number ≡ at + 1) × LacksPart (word_texts words.now) at (ThisWord text.now)) }
{
    match words.get(at) {
        Some(word) if *word == text => Ok(()),
        _ => Err(at + 1),
    }
}

/// The value of the number at a word, which is from `least` to `greatest`, or the word's number, counted from 1, where there is none.
pub fn number_at(words: &[&str], at: usize, least: u32, greatest: u32) -> Result<u32, usize>
    requires { at ≤ length words.now }
    ensures { MatchResult result (λ value. IsSomeAnd (slice_get (word_texts words.now) at)
        (λ w. number_from least greatest w ≡ Some value)) (λ number. (number ≡ at + 1)
        × LacksPart (word_texts words.now) at (NumberFrom least greatest)) }
{
    match words.get(at) {
        Some(word) => number(word, least, greatest).ok_or(at + 1),
        None => Err(at + 1),
    }
}

// A name: a word that is not empty and does not begin with `--`.
fn is_name(word: &str) -> bool
    ensures { result ≡ is_name_word word.now }
{
    !word.is_empty() && !word.starts_with("--")
}

// A number: one to nine ASCII digits.
fn is_number(word: &str) -> bool
    ensures { result ≡ is_number_word word.now }
{
    !word.is_empty() && word.len() <= 9 && has_digits_alone(word)
}

fn has_digits_alone(word: &str) -> bool
    ensures { result ≡ list_all is_ascii_digit word.now }
{
    word.bytes().all(|b| b.is_ascii_digit())
}

// The value of a word that is a number from `least` to `greatest`.
fn number(word: &str, least: u32, greatest: u32) -> Option<u32>
    ensures { result ≡ number_from least greatest word.now }
{
    if !is_number(word) {
        return None;
    }
    match word.parse::<u32>() {
        Ok(value) => within(value, least, greatest),
        Err(_) => None,
    }
}

fn within(value: u32, least: u32, greatest: u32) -> Option<u32>
    ensures { result ≡ value_within least greatest value }
{
    if least <= value && value <= greatest {
        Some(value)
    } else {
        None
    }
}
