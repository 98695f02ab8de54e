//! How far the tree below each node reaches, and whether it can take what is left over.
ghost use Rattle.std.specs.Prelude.{◌≡◌, IfOk};
ghost use Rattle.ll_trace.specs.Spans.{AreSpans, GivesSpan, GivesPartSpan, span_or_none};

use ll_bank::OutOfMemory;
use ll_laws::{Part, Rule};
use std::alloc::Global;

/// Where a tree ends in the list of nodes, and whether it can erase labels.
#[derive(Clone, Copy)]
pub(crate) struct Span {
    /// The place after its last node.
    pub(crate) end: usize,
    pub(crate) erases: bool,
}

/// The span of the tree whose root stands at a place. Past the last node there is no tree: the span is empty.
pub(crate) fn span_at(spans: &[Span], at: usize) -> Span
    ensures { result ≡ span_or_none spans.now at }
{
    match spans.get(at) {
        Some(span) => *span,
        None => Span {
            end: at,
            erases: false,
        },
    }
}

/// The span of each node's tree, for nodes in prefix order.
pub(crate) fn spans(alloc: Global, rules: &[Rule]) -> Result<Vec<Span>, OutOfMemory>
    ensures { IfOk result (λ spans. AreSpans rules.now spans.items) }
{
    let mut spans = vec![in alloc; Span {
        end: 0,
        erases: false
    }; rules.len()]?;
    for at in (0..rules.len()).rev() {
        spans[at] = span_of(&rules[at], at + 1, &spans);
    }
    Ok(spans)
}

// The span of a node over the trees that begin at a place.
fn span_of(rule: &Rule, first: usize, spans: &[Span]) -> Span
    ensures { GivesSpan rule.now first spans.now result }
{
    match rule {
        Rule::One => Span {
            end: first,
            erases: false,
        },
        Rule::Erase => Span {
            end: first,
            erases: true,
        },
        Rule::Num => Span {
            end: first,
            erases: false,
        },
        Rule::Tensor(_, _) => {
            let left = span_at(spans, first);
            let right = span_at(spans, left.end);
            Span {
                end: right.end,
                erases: left.erases || right.erases,
            }
        }
        Rule::With => {
            let left = span_at(spans, first);
            let right = span_at(spans, left.end);
            Span {
                end: right.end,
                erases: left.erases && right.erases,
            }
        }
        Rule::Bang => {
            let below = span_at(spans, first);
            Span {
                end: below.end,
                erases: false,
            }
        }
        Rule::Clause { parts, .. } => span_of_parts(parts, first, spans),
        Rule::Left | Rule::Right | Rule::Use => span_at(spans, first),
        Rule::Lolli(_) | Rule::Imp(_) | Rule::Forall(_) => span_at(spans, first),
        Rule::Exists(_) => span_at(spans, first),
    }
}

// The span of the trees of all premises, which begin at a place.
fn span_of_parts(parts: &[Part], first: usize, spans: &[Span]) -> Span
    ensures { GivesPartSpan parts.now first spans.now result }
{
    let mut span = Span {
        end: first,
        erases: false,
    };
    for part in parts {
        let next = span_at(spans, span.end);
        span = match part {
            Part::Bounded(_) => Span {
                end: next.end,
                erases: span.erases || next.erases,
            },
            Part::Unbounded => Span {
                end: next.end,
                erases: span.erases,
            },
        };
    }
    span
}
