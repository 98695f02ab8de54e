//! The loops over the tokens of a program and of a query.

ghost use Rattle.std.specs.Prelude.{◌≡◌, ℕ, ◌≤◌, ◌∷◌, List, [], true, length, IfOk, MatchOption, MatchResult};
ghost use Rattle.ll_parser.specs.Tokens.{toks_of};
ghost use Rattle.ll_parser.specs.Text.{programs, queries};
ghost use Rattle.ll_parser.specs.Reads.{open_after, opens, Reads, IsWhole, IsCause};
ghost use Rattle.ll_parser.specs.Symbols.{symbol_tok};
ghost use Rattle.ll_parser.specs.Waiting.{known, tree, IsNode, IsNew};
ghost use Rattle.ll_parser.specs.Drafts.{whole_view, DraftFits, IsNewDraft};

use crate::formulas::Mode;
use crate::symbols::{Symbol, symbol_at};
use crate::texts::{Draft, Phase, Stage};
use crate::waiting::Waiting;
use crate::{MOST_OPEN, RawAt, RawProgram, RawQuery};
use ll_bank::{Names, OutOfMemory};
use ll_lexer::{Fault, TextFault, TokenList};
use std::alloc::Global;

// The names of a text before its first token: the signs that are heads of terms.
fn first_names(alloc: Global) -> Result<Names, OutOfMemory>
    ensures { IfOk result (λ names. names ≡ known []) }
{
    let mut names = Names::new(alloc);
    names.add("::")?;
    names.add("+")?;
    names.add("-")?;
    names.add("*")?;
    Ok(names)
}

// How many brackets are open behind a token, or `None` past the limit.
fn opened(depth: usize, symbol: Symbol) -> Option<usize>
    requires { depth ≤ MOST_OPEN }
    ensures { (texts : List (List ℕ))
        → MatchOption result ((opens (symbol_tok texts symbol) ≡ true) × (depth ≡ MOST_OPEN))
        (λ n. (n ≡ open_after depth (symbol_tok texts symbol ∷ [])) × (n ≤ MOST_OPEN)) }
{
    match symbol {
        Symbol::ParenLeft(_) | Symbol::BraceLeft(_) => {
            if depth < MOST_OPEN {
                Some(depth + 1)
            } else {
                None
            }
        }
        Symbol::ParenRight(_) | Symbol::BraceRight(_) => Some(depth.saturating_sub(1)),
        _ => Some(depth),
    }
}

// Reads a program into names and a draft that have nothing yet.
fn read_program(
    alloc: Global,
    tokens: &TokenList<'_>,
    names: &mut Names,
    draft: &mut Draft,
) -> Result<(), TextFault>
    requires text { length tokens.now.text ≤ 16777216 }
    requires names { names.old ≡ known [] }
    requires draft { IsNewDraft draft.old }
    ensures read { MatchResult result
        (λ _. Reads programs MOST_OPEN (toks_of tokens.now) (whole_view names.new draft.new))
        (λ e. IsCause programs MOST_OPEN (toks_of tokens.now) tokens.now.end e) }
    ensures whole { IfOk result (λ _. IsWhole programs (whole_view names.new draft.new)) }
    ensures clauses { IfOk result (λ _. DraftFits draft.new) }
{
    let mut phase = Phase::Boundary;
    let mut depth = 0;
    for i in 0..tokens.len() {
        let at = tokens.get(i).at;
        let symbol = symbol_at(tokens, i, names)?;
        let Some(next) = draft.step(alloc, phase, symbol)? else {
            return Err(TextFault::Text(Fault { at, kind: 4 }));
        };
        let Some(now_depth) = opened(depth, symbol) else {
            return Err(TextFault::Text(Fault { at, kind: 6 }));
        };
        phase = next;
        depth = now_depth;
    }
    match phase {
        Phase::Boundary => {
            draft.close_module()?;
            Ok(())
        }
        _ => Err(TextFault::Text(Fault {
            at: tokens.end(),
            kind: 5,
        })),
    }
}

// Reads a query into names and nodes that have nothing yet. Says where its formula stands.
fn read_query(
    tokens: &TokenList<'_>,
    names: &mut Names,
    waiting: &mut Waiting,
) -> Result<RawAt, TextFault>
    requires text { length tokens.now.text ≤ 16777216 }
    requires names { names.old ≡ known [] }
    requires waiting { IsNew waiting.old }
    ensures read { MatchResult result
        (λ goal. Reads queries MOST_OPEN (toks_of tokens.now) (tree names.new waiting.new goal))
        (λ e. IsCause queries MOST_OPEN (toks_of tokens.now) tokens.now.end e) }
    ensures whole { IfOk result (λ goal. IsWhole queries (tree names.new waiting.new goal)) }
    ensures goal { IfOk result (λ goal. IsNode waiting.new goal) }
{
    let mut stage = Stage::Formula(Mode::Operand);
    let mut depth = 0;
    for i in 0..tokens.len() {
        let at = tokens.get(i).at;
        let symbol = symbol_at(tokens, i, names)?;
        let Some(next) = waiting.query_step(stage, symbol)? else {
            return Err(TextFault::Text(Fault { at, kind: 4 }));
        };
        let Some(now_depth) = opened(depth, symbol) else {
            return Err(TextFault::Text(Fault { at, kind: 6 }));
        };
        stage = next;
        depth = now_depth;
    }
    match waiting.query_finish(stage)? {
        Some(goal) => Ok(goal),
        None => Err(TextFault::Text(Fault {
            at: tokens.end(),
            kind: 5,
        })),
    }
}

/// The program that the tokens are. `Text` is the text's first fault: kind 4, the first bad token, with which and the tokens
/// before it no program begins; kind 5, at the end of the text, where the tokens begin a program and are none; kind 6, a bracket
/// that the grammar admits while 1,000 are open.
pub fn program(alloc: Global, tokens: &TokenList<'_>) -> Result<RawProgram, TextFault>
    requires { length tokens.now.text ≤ 16777216 }
    ensures read { MatchResult result (λ p. Reads programs MOST_OPEN (toks_of tokens.now) p)
        (λ e. IsCause programs MOST_OPEN (toks_of tokens.now) tokens.now.end e) }
    ensures whole { IfOk result (λ p. IsWhole programs p) }
{
    let mut names = first_names(alloc)?;
    let mut draft = Draft::new(alloc);
    read_program(alloc, tokens, &mut names, &mut draft)?;
    let waiting = draft.waiting;
    Ok(RawProgram {
        names,
        forms: waiting.forms,
        clauses: draft.clauses,
        modules: draft.modules,
    })
}

/// The query that the tokens are. `Text` is the text's first fault: kind 4, the first bad token, with which and the tokens before
/// it no query begins; kind 5, at the end of the text, where the tokens begin a query and are none; kind 6, a bracket that the
/// grammar admits while 1,000 are open.
pub fn query(alloc: Global, tokens: &TokenList<'_>) -> Result<RawQuery, TextFault>
    requires { length tokens.now.text ≤ 16777216 }
    ensures read { MatchResult result (λ q. Reads queries MOST_OPEN (toks_of tokens.now) q)
        (λ e. IsCause queries MOST_OPEN (toks_of tokens.now) tokens.now.end e) }
    ensures whole { IfOk result (λ q. IsWhole queries q) }
{
    let mut names = first_names(alloc)?;
    let mut waiting = Waiting::new(alloc);
    let goal = read_query(tokens, &mut names, &mut waiting)?;
    Ok(RawQuery {
        names,
        forms: waiting.forms,
        goal,
    })
}
