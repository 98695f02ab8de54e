//! The words of a run, of a session and of a deepening: two names, and options in any order.
ghost use Rattle.std.specs.Prelude.{◌≡◌, ◌<◌, length, true, false, is_some, IfOk, MatchOption, MatchResult, codes};
ghost use Rattle.std.specs.List.{list_any};
ghost use Rattle.ll_top.specs.forms.Words.{is_word, word_texts, ThisWord, IsRun, IsSession, IsDeepen, IsBounded, shown_words, shown_session, shown_deepen};
ghost use Rattle.ll_top.specs.forms.FormWords.{HasPart};
ghost use Rattle.ll_top.specs.forms.SearchOptions.{search_word, option_word, offers, value, no_options, with_value, has_number, least_in, greatest_in};
ghost use Rattle.ll_top.specs.forms.SearchOptions.{options_left, IsLeft, IsReadTo, IsSearch, IsBadSearchWord};
ghost use Rattle.ll_top.specs.declared.forms.searches.SearchForm.TheVariants.{Run, Session, Deepen};
ghost use Rattle.ll_top.specs.declared.forms.words.Command.TheVariants as command;

use crate::forms::words::{
    DeepenCommand, GREATEST_BOUND, GREATEST_FIRST, GREATEST_WORKERS, RunCommand, SessionCommand,
    name_at, number_at,
};
use ll_deepen::Series;

// A form with options in any order.
#[derive(Clone, Copy)]
enum SearchForm {
    Run,
    Session,
    Deepen,
}

// An option of these forms.
#[derive(Clone, Copy)]
enum SearchOption {
    Bound,
    Workers,
    Proofs,
    First,
    From,
    By,
    To,
}

// The values of options, as far as they were read.
#[derive(Clone, Copy)]
struct SearchOptions {
    bound: Option<u32>,
    workers: Option<u32>,
    proofs: bool,
    first: Option<u32>,
    from: Option<u32>,
    by: Option<u32>,
    to: Option<u32>,
}

// The options up to some word, and the number of words before that one.
#[derive(Clone, Copy)]
struct OptionsRead {
    options: SearchOptions,
    next: usize,
}

// The two names, and the options.
#[derive(Clone, Copy)]
struct SearchWords<'a> {
    first: &'a str,
    second: &'a str,
    options: SearchOptions,
}

// What the number of an option may be.
#[derive(Clone, Copy)]
struct Limits {
    least: u32,
    greatest: u32,
}

/// What the words of a run ask for, or the number of the first word through which no run begins.
pub fn read_run<'a>(words: &[&'a str]) -> Result<RunCommand<'a>, usize>
    requires { HasPart (word_texts words.now) 0 (ThisWord (codes "run")) }
    ensures run { MatchResult result (λ run. IsRun (word_texts words.now) (shown_words run))
        (IsBadSearchWord Run (word_texts words.now)) }
    ensures bound { IfOk result (λ run. IsBounded (command.Run run)) }
{
    let search = read_search(words, SearchForm::Run)?;
    let Some(bound) = search.options.bound else {
        return Err(words.len() + 1);
    };
    let Some(workers) = search.options.workers else {
        return Err(words.len() + 1);
    };
    Ok(RunCommand {
        program: search.first,
        query: search.second,
        bound,
        workers,
        proofs: search.options.proofs,
        first: search.options.first,
    })
}

/// What the words of a session ask for, or the number of the first word through which no session begins.
pub fn read_session<'a>(words: &[&'a str]) -> Result<SessionCommand<'a>, usize>
    requires { HasPart (word_texts words.now) 0 (ThisWord (codes "session")) }
    ensures session { MatchResult result (λ session. IsSession (word_texts words.now) (shown_session session))
        (IsBadSearchWord Session (word_texts words.now)) }
    ensures bound { IfOk result (λ session. IsBounded (command.Session session)) }
{
    let search = read_search(words, SearchForm::Session)?;
    let Some(bound) = search.options.bound else {
        return Err(words.len() + 1);
    };
    let Some(workers) = search.options.workers else {
        return Err(words.len() + 1);
    };
    Ok(SessionCommand {
        program: search.first,
        queries: search.second,
        bound,
        workers,
        proofs: search.options.proofs,
    })
}

/// What the words of a deepening ask for, or the number of the first word through which no deepening begins.
pub fn read_deepen<'a>(words: &[&'a str]) -> Result<DeepenCommand<'a>, usize>
    requires { HasPart (word_texts words.now) 0 (ThisWord (codes "deepen")) }
    ensures deepen { MatchResult result (λ deepen. IsDeepen (word_texts words.now) (shown_deepen deepen))
        (IsBadSearchWord Deepen (word_texts words.now)) }
    ensures bound { IfOk result (λ deepen. IsBounded (command.Deepen deepen)) }
{
    let search = read_search(words, SearchForm::Deepen)?;
    let Some(from) = search.options.from else {
        return Err(words.len() + 1);
    };
    let Some(by) = search.options.by else {
        return Err(words.len() + 1);
    };
    let Some(to) = search.options.to else {
        return Err(words.len() + 1);
    };
    let Some(workers) = search.options.workers else {
        return Err(words.len() + 1);
    };
    Ok(DeepenCommand {
        program: search.first,
        query: search.second,
        series: Series { from, by, to },
        workers,
        proofs: search.options.proofs,
    })
}

// The names and the options of words that begin with the form's word.
fn read_search<'a>(words: &[&'a str], form: SearchForm) -> Result<SearchWords<'a>, usize>
    requires { HasPart (word_texts words.now) 0 (ThisWord (search_word form)) }
    ensures { MatchResult result (λ search. IsSearch
        (word_texts words.now) form search.first.now search.second.now search.options)
        (IsBadSearchWord form (word_texts words.now)) }
{
    let first = name_at(words, 1)?;
    let second = name_at(words, 2)?;
    let options = read_options(words, form)?;
    Ok(SearchWords {
        first,
        second,
        options,
    })
}

// The options of a form, whose first three words stand.
fn read_options(words: &[&str], form: SearchForm) -> Result<SearchOptions, usize>
    requires { IsReadTo (word_texts words.now) form no_options 3 }
    ensures { MatchResult result (λ options. IsReadTo (word_texts words.now) form options
        (length (word_texts words.now))) (IsBadSearchWord form (word_texts words.now)) }
{
    let mut options = SearchOptions {
        bound: None,
        workers: None,
        proofs: false,
        first: None,
        from: None,
        by: None,
        to: None,
    };
    let mut at = 3;
    while at < words.len() {
        let read = read_option(words, form, options, at)?;
        options = read.options;
        at = read.next;
    }
    Ok(options)
}

// The options with the one that stands at this word, and with its value where it has one.
fn read_option(
    words: &[&str],
    form: SearchForm,
    options: SearchOptions,
    at: usize,
) -> Result<OptionsRead, usize>
    requires within { at < length words.now }
    requires read { IsReadTo (word_texts words.now) form options at }
    ensures read { MatchResult result (λ read. IsReadTo (word_texts words.now) form read.options read.next)
        (IsBadSearchWord form (word_texts words.now)) }
    ensures further { IfOk result (λ read. at < read.next) }
{
    let Some(option) = option_at(words[at], form, options) else {
        return Err(at + 1);
    };
    let Some(limits) = limits_of(options, option) else {
        return Ok(OptionsRead {
            options: with_value(options, option, 0),
            next: at + 1,
        });
    };
    let value = number_at(words, at + 1, limits.least, limits.greatest)?;
    Ok(OptionsRead {
        options: with_value(options, option, value),
        next: at + 2,
    })
}

// The option of the form that a word is, if it is one that was not come to yet.
fn option_at(word: &str, form: SearchForm, options: SearchOptions) -> Option<SearchOption>
    ensures { MatchOption result (list_any (λ o. is_word word.now (option_word o)) (options_left form options) ≡ false)
        (λ option. (word.now ≡ option_word option) × IsLeft form options option) }
{
    let Some(option) = option_of(word) else {
        return None;
    };
    if is_read(options, option) {
        return None;
    }
    if offers(form, option) {
        Some(option)
    } else {
        None
    }
}

// The option that a word is.
fn option_of(word: &str) -> Option<SearchOption>
    ensures { MatchOption result ((option : SearchOption) → is_word word.now (option_word option) ≡ false)
        (λ option. word.now ≡ option_word option) }
{
    match word {
        "--bound" => Some(SearchOption::Bound),
        "--workers" => Some(SearchOption::Workers),
        "--proofs" => Some(SearchOption::Proofs),
        "--first" => Some(SearchOption::First),
        "--from" => Some(SearchOption::From),
        "--by" => Some(SearchOption::By),
        "--to" => Some(SearchOption::To),
        _ => None,
    }
}

// Whether the form has the option.
fn offers(form: SearchForm, option: SearchOption) -> bool
    ensures { result ≡ offers form option }
{
    match option {
        SearchOption::Workers => true,
        SearchOption::Proofs => true,
        SearchOption::Bound => !matches!(form, SearchForm::Deepen),
        SearchOption::First => matches!(form, SearchForm::Run),
        SearchOption::From => matches!(form, SearchForm::Deepen),
        SearchOption::By => matches!(form, SearchForm::Deepen),
        SearchOption::To => matches!(form, SearchForm::Deepen),
    }
}

// Whether the option was come to.
fn is_read(options: SearchOptions, option: SearchOption) -> bool
    ensures { result ≡ is_some (value options option) }
{
    match option {
        SearchOption::Bound => options.bound.is_some(),
        SearchOption::Workers => options.workers.is_some(),
        SearchOption::Proofs => options.proofs,
        SearchOption::First => options.first.is_some(),
        SearchOption::From => options.from.is_some(),
        SearchOption::By => options.by.is_some(),
        SearchOption::To => options.to.is_some(),
    }
}

// What the number of an option may be, if it has one. The first bound of a deepening is not past its last one, whichever stands first.
fn limits_of(options: SearchOptions, option: SearchOption) -> Option<Limits>
    ensures { MatchOption result (has_number option ≡ false) (λ limits. (has_number option ≡ true)
        × (limits.least ≡ least_in options option) × (limits.greatest ≡ greatest_in options option)) }
{
    match option {
        SearchOption::Bound => Some(Limits {
            least: 0,
            greatest: GREATEST_BOUND,
        }),
        SearchOption::Workers => Some(Limits {
            least: 1,
            greatest: GREATEST_WORKERS,
        }),
        SearchOption::Proofs => None,
        SearchOption::First => Some(Limits {
            least: 1,
            greatest: GREATEST_FIRST,
        }),
        SearchOption::From => Some(Limits {
            least: 0,
            greatest: options.to.unwrap_or(GREATEST_BOUND),
        }),
        SearchOption::By => Some(Limits {
            least: 1,
            greatest: GREATEST_BOUND,
        }),
        SearchOption::To => Some(Limits {
            least: options.from.unwrap_or(0),
            greatest: GREATEST_BOUND,
        }),
    }
}

// The options, with one more that was read.
fn with_value(options: SearchOptions, option: SearchOption, value: u32) -> SearchOptions
    ensures { result ≡ with_value options option value }
{
    match option {
        SearchOption::Bound => SearchOptions {
            bound: Some(value),
            ..options
        },
        SearchOption::Workers => SearchOptions {
            workers: Some(value),
            ..options
        },
        SearchOption::Proofs => SearchOptions {
            proofs: true,
            ..options
        },
        SearchOption::First => SearchOptions {
            first: Some(value),
            ..options
        },
        SearchOption::From => SearchOptions {
            from: Some(value),
            ..options
        },
        SearchOption::By => SearchOptions {
            by: Some(value),
            ..options
        },
        SearchOption::To => SearchOptions {
            to: Some(value),
            ..options
        },
    }
}
