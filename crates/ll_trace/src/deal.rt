//! How labels are dealt out to the nodes of a tree: to the one that uses a label, and otherwise to the first that can erase it.
ghost use Rattle.std.specs.Prelude.{◌≡◌, ◌<◌, ◌+◌, ◌∷◌, [], OnOk, IfOk, Some, List, filter, map, not};
ghost use Rattle.ll_bank.specs.Nodes.{Nodes};
ghost use Rattle.ll_laws.specs.Dealing.{deal as deal_labels, without as labels_without};
ghost use Rattle.ll_laws.specs.Line.{WithLine, BangLine, LolliLine, lines, trees_of};
ghost use Rattle.ll_laws.specs.Shows.{Tree};
ghost use Rattle.ll_laws.specs.ShownLines.{line_of, HasLine, HasLines};
ghost use Rattle.ll_trace.specs.Picks.{ArePicks};
ghost use Rattle.ll_trace.specs.Spans.{AreSpans};
ghost use Rattle.ll_trace.specs.Shares.{goes_to_first, GivesRule, GivesTensor, GivesAnywhere, GivesClause, GivesParts, KeepsTerms};

use crate::picks::{deeper, picks};
use crate::places::Uses;
use crate::spans::{Span, span_at, spans};
use ll_bank::OutOfMemory;
use ll_laws::{Part, Rule};
use std::alloc::Global;

/// What a tree gets: its labels, and its level.
#[derive(Drop)]
pub(crate) struct Share {
    pub(crate) labels: Vec<u32>,
    pub(crate) level: usize,
}

/// What is known of the nodes before labels are dealt out.
#[derive(Drop)]
pub(crate) struct Outline {
    pub(crate) spans: Vec<Span>,
    pub(crate) uses: Uses,
}

/// A place where labels go to one tree or to those after it, which end together.
#[derive(Clone, Copy)]
pub(crate) struct Fork {
    pub(crate) level: usize,
    /// Where the tree begins.
    pub(crate) from: usize,
    /// The span of the tree.
    pub(crate) first: Span,
    /// Where the last tree ends.
    pub(crate) end: usize,
}

/// Deals labels out to the nodes of a tree, which stand in prefix order.
pub(crate) fn deal(
    alloc: Global,
    labels: Vec<u32>,
    rules: &mut Vec<Rule>,
) -> Result<(), OutOfMemory>
    ensures dealt { OnOk result ((bank : Nodes) (x : Tree) → trees_of (map (line_of bank) rules.old.items)
        ≡ Some (x ∷ []) → map (line_of bank) rules.new.items ≡ lines (deal_labels labels.items x)) }
    ensures places { OnOk result ((bank : Nodes) → HasLines bank rules.old.items → HasLines bank rules.new.items) }
{
    let picks = picks(alloc, rules)?;
    let outline = Outline {
        spans: spans(alloc, rules)?,
        uses: Uses::new(alloc, picks)?,
    };
    deal_by(alloc, &outline, labels, rules)
}

// Deals labels out to the nodes of a tree with this outline.
fn deal_by(
    alloc: Global,
    outline: &Outline,
    labels: Vec<u32>,
    rules: &mut Vec<Rule>,
) -> Result<(), OutOfMemory>
    requires spans { AreSpans rules.old.items outline.now.spans.items }
    requires picks { ArePicks rules.old.items outline.now.uses }
    ensures dealt { OnOk result ((bank : Nodes) (x : Tree) → trees_of (map (line_of bank) rules.old.items)
        ≡ Some (x ∷ []) → map (line_of bank) rules.new.items ≡ lines (deal_labels labels.items x)) }
    ensures places { OnOk result ((bank : Nodes) → HasLines bank rules.old.items → HasLines bank rules.new.items) }
{
    let nodes = std::mem::replace(rules, Vec::new(alloc));
    let mut pending = Vec::new(alloc);
    pending.push(Share { labels, level: 0 })?;
    for node in nodes {
        let share = pending.pop().unwrap_or(Share {
            labels: Vec::new(alloc),
            level: 0,
        });
        let dealt = deal_node(alloc, outline, rules.len(), node, share, &mut pending)?;
        rules.push(dealt)?;
    }
    Ok(())
}

// The node at a place with its share. What the trees below it get is then pending, what the first one gets next.
fn deal_node(
    alloc: Global,
    outline: &Outline,
    at: usize,
    rule: Rule,
    share: Share,
    pending: &mut Vec<Share>,
) -> Result<Rule, OutOfMemory>
    requires { at < usize.MAX }
    ensures dealt { IfOk result (λ dealt. GivesRule outline.now at rule share pending.old.items pending.new.items dealt) }
    ensures keeps { IfOk result (KeepsTerms rule) }
{
    match rule {
        Rule::One => Ok(Rule::One),
        Rule::Erase => Ok(Rule::Erase),
        Rule::Num => Ok(Rule::Num),
        Rule::Tensor(_, _) => deal_tensor(alloc, outline, at, share, pending),
        Rule::With => deal_with(alloc, share, pending),
        Rule::Bang => deal_bang(alloc, &share, pending),
        Rule::Lolli(label) => deal_lolli(label, share, pending),
        Rule::Clause {
            label,
            leaf,
            terms,
            parts,
        } => {
            let parts = deal_clause(alloc, outline, at, label, &parts, share, pending)?;
            Ok(Rule::Clause {
                label,
                leaf,
                terms,
                parts,
            })
        }
        other => {
            pending.push(share)?;
            Ok(other)
        }
    }
}

// A with node with its share, all of which goes to both trees.
fn deal_with(alloc: Global, share: Share, pending: &mut Vec<Share>) -> Result<Rule, OutOfMemory>
    ensures dealt { IfOk result (λ dealt. GivesAnywhere WithLine share pending.old.items pending.new.items dealt) }
    ensures keeps { IfOk result (λ dealt. (bank : Nodes) → HasLine bank dealt) }
{
    let labels = Vec::from_slice(alloc, &share.labels)?;
    let level = share.level;
    pending.push(share)?;
    pending.push(Share { labels, level })?;
    Ok(Rule::With)
}

// A bang node with its share, none of which goes to the tree below it.
fn deal_bang(alloc: Global, share: &Share, pending: &mut Vec<Share>) -> Result<Rule, OutOfMemory>
    ensures dealt { IfOk result (λ dealt. GivesAnywhere BangLine share.now pending.old.items pending.new.items dealt) }
    ensures keeps { IfOk result (λ dealt. (bank : Nodes) → HasLine bank dealt) }
{
    let level = deeper(share.level)?;
    let labels = Vec::new(alloc);
    pending.push(Share { labels, level })?;
    Ok(Rule::Bang)
}

// A lolli node with its share, which goes to the tree below it with one label more.
fn deal_lolli(label: u32, mut share: Share, pending: &mut Vec<Share>) -> Result<Rule, OutOfMemory>
    ensures dealt { IfOk result (λ dealt. GivesAnywhere
        (LolliLine label) share pending.old.items pending.new.items dealt) }
    ensures keeps { IfOk result (λ dealt. (bank : Nodes) → HasLine bank dealt) }
{
    share.labels.push(label)?;
    pending.push(share)?;
    Ok(Rule::Lolli(label))
}

// A tensor node at a place with its share.
fn deal_tensor(
    alloc: Global,
    outline: &Outline,
    at: usize,
    share: Share,
    pending: &mut Vec<Share>,
) -> Result<Rule, OutOfMemory>
    requires { at < usize.MAX }
    ensures dealt { IfOk result (λ dealt. GivesTensor outline.now at share pending.old.items pending.new.items dealt) }
    ensures keeps { IfOk result (λ dealt. (bank : Nodes) → HasLine bank dealt) }
{
    let level = share.level;
    let from = at + 1;
    let end = span_at(&outline.spans, at).end;
    let first = span_at(&outline.spans, from);
    let fork = Fork {
        level,
        from,
        first,
        end,
    };
    let (mine, others) = divide(alloc, &outline.uses, fork, &share.labels)?;
    let left = Vec::from_slice(alloc, &mine)?;
    let right = Vec::from_slice(alloc, &others)?;
    pending.push(Share {
        labels: others,
        level,
    })?;
    pending.push(Share {
        labels: mine,
        level,
    })?;
    Ok(Rule::Tensor(left, right))
}

// The labels that go to the first tree of a fork, and the others.
fn divide(
    alloc: Global,
    uses: &Uses,
    fork: Fork,
    labels: &[u32],
) -> Result<(Vec<u32>, Vec<u32>), OutOfMemory>
    ensures first { IfOk result (λ two. two.0.items ≡ filter (goes_to_first uses.now fork) labels.now) }
    ensures others { IfOk result (λ two. two.1.items ≡ filter (λ n. not (goes_to_first uses.now fork n)) labels.now) }
{
    let mut mine = Vec::new(alloc);
    let mut others = Vec::new(alloc);
    for label in labels {
        if goes_first(uses, fork, *label) {
            mine.push(*label)?;
        } else {
            others.push(*label)?;
        }
    }
    Ok((mine, others))
}

// Whether a label goes to the first tree of a fork.
fn goes_first(uses: &Uses, fork: Fork, label: u32) -> bool
    ensures { result ≡ goes_to_first uses.now fork label }
{
    let middle = fork.first.end;
    let mine = uses.is_used(label, fork.level, fork.from, middle);
    let later = uses.is_used(label, fork.level, middle, fork.end);
    mine || (!later && fork.first.erases)
}

// The premises of a clause node at a place with its share.
fn deal_clause(
    alloc: Global,
    outline: &Outline,
    at: usize,
    label: u32,
    parts: &[Part],
    share: Share,
    pending: &mut Vec<Share>,
) -> Result<Vec<Part>, OutOfMemory>
    requires { at < usize.MAX }
    ensures { IfOk result (λ dealt. GivesClause outline.now at label parts.now share pending.old.items pending.new.items dealt.items) }
{
    let labels = without(alloc, label, &share.labels)?;
    let end = span_at(&outline.spans, at).end;
    let (dealt, mut shares) = deal_parts(alloc, outline, at + 1, end, share.level, labels, parts)?;
    shares.reverse();
    pending.append(&mut shares)?;
    Ok(dealt)
}

// The labels but one.
fn without(alloc: Global, label: u32, labels: &[u32]) -> Result<Vec<u32>, OutOfMemory>
    ensures { IfOk result (λ rest. rest.items ≡ labels_without label labels.now) }
{
    let mut rest = Vec::new(alloc);
    for other in labels {
        if label != *other {
            rest.push(*other)?;
        }
    }
    Ok(rest)
}

// Deals labels out to premises whose trees stand between two places, and says what each one's tree gets. It takes labels out of these.
fn deal_each(
    alloc: Global,
    outline: &Outline,
    start: usize,
    end: usize,
    level: usize,
    labels: &mut Vec<u32>,
    parts: &[Part],
    dealt: &mut Vec<Part>,
    shares: &mut Vec<Share>,
) -> Result<(), OutOfMemory>
    requires dealt { dealt.old.items ≡ [] }
    requires shares { shares.old.items ≡ [] }
    ensures { OnOk result (GivesParts outline.now start end level labels.old.items parts.now dealt.new.items shares.new.items) }
{
    let mut from = start;
    for part in parts {
        let first = span_at(&outline.spans, from);
        match part {
            Part::Bounded(_) => {
                let fork = Fork {
                    level,
                    from,
                    first,
                    end,
                };
                let (mine, others) = divide(alloc, &outline.uses, fork, labels)?;
                *labels = others;
                let copy = Vec::from_slice(alloc, &mine)?;
                dealt.push(Part::Bounded(copy))?;
                shares.push(Share {
                    labels: mine,
                    level,
                })?;
            }
            Part::Unbounded => {
                dealt.push(Part::Unbounded)?;
                let below = deeper(level)?;
                shares.push(Share {
                    labels: Vec::new(alloc),
                    level: below,
                })?;
            }
        }
        from = first.end;
    }
    Ok(())
}

// Premises whose trees stand between two places, with these labels, and what each one's tree gets.
fn deal_parts(
    alloc: Global,
    outline: &Outline,
    start: usize,
    end: usize,
    level: usize,
    labels: Vec<u32>,
    parts: &[Part],
) -> Result<(Vec<Part>, Vec<Share>), OutOfMemory>
    ensures { IfOk result (λ two. GivesParts outline.now start end level labels.items parts.now two.0.items two.1.items) }
{
    let mut labels = labels;
    let mut dealt = Vec::new(alloc);
    let mut shares = Vec::new(alloc);
    deal_each(
        alloc,
        outline,
        start,
        end,
        level,
        &mut labels,
        parts,
        &mut dealt,
        &mut shares,
    )?;
    Ok((dealt, shares))
}
