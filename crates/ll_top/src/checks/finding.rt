//! What a check or a cover finds, and the line that says it.
ghost use Rattle.std.specs.Prelude.{◌≡◌, ◌≤◌, Some, OnOk, OnErr};
ghost use Rattle.std.specs.Io.KnownBytes.{append_known};
ghost use Rattle.ll_edge.specs.Counts.{Rose};
ghost use Rattle.ll_edge.specs.Pieces.{AppendsFront};
ghost use Rattle.ll_top.specs.checks.Verdicts.{reason_text, yes_text, no_fields, no_text, covered_text, too_long_fields, too_long_text, counts_text};
ghost use Rattle.ll_top.specs.checks.Endings.{finding_text};

use crate::texts::write_parts;
use itoa::Buffer;
use ll_edge::{Sink, WriteFailed};

/// What a check or a cover finds of a derivation.
#[derive(Clone, Copy)]
pub enum Finding {
    /// It shows the query, and has so many nodes.
    Shows { nodes: usize },
    /// It does not: the first node that does not fit, and its first reason.
    Fails { node: usize, reason: u8 },
    /// It shows the query, and the answer of this number is the first that covers it.
    Covered { answer: u64 },
    /// It shows the query, but has more nodes than the bound.
    TooLong { nodes: usize, bound: u32 },
    /// It shows the query, but the node of this number is of a whole-number goal, the first such one.
    CountsNumbers { node: usize },
}

/// Writes the line of a finding. After a refusal a prefix of it was written.
pub fn write_finding<O: Sink>(sink: &mut O, finding: Finding) -> Result<(), WriteFailed>
    ensures faults_kept { O.faults sink.old ≤ O.faults sink.new }
    ensures line { OnOk result (Some (O.taken sink.new)
        ≡ append_known (Some (O.taken sink.old)) (finding_text finding)) }
    ensures failed { OnErr result (Rose (O.faults sink.old) (O.faults sink.new)) }
    ensures quiet { OnOk result (O.faults sink.new ≡ O.faults sink.old) }
    ensures prefix { OnErr result (AppendsFront (Some (O.taken sink.old)) (finding_text finding)
        (Some (O.taken sink.new))) }
{
    match finding {
        Finding::Shows { nodes } => write_yes(sink, nodes),
        Finding::Fails { node, reason } => write_no(sink, node, reason),
        Finding::Covered { answer } => write_covered(sink, answer),
        Finding::TooLong { nodes, bound } => write_too_long(sink, nodes, bound),
        Finding::CountsNumbers { node } => write_counts(sink, node),
    }
}

// Writes the line of a derivation that the answer of this number covers.
fn write_covered<O: Sink>(sink: &mut O, answer: u64) -> Result<(), WriteFailed>
    ensures faults_kept { O.faults sink.old ≤ O.faults sink.new }
    ensures line { OnOk result (Some (O.taken sink.new)
        ≡ append_known (Some (O.taken sink.old)) (covered_text answer)) }
    ensures failed { OnErr result (Rose (O.faults sink.old) (O.faults sink.new)) }
    ensures quiet { OnOk result (O.faults sink.new ≡ O.faults sink.old) }
    ensures prefix { OnErr result (AppendsFront (Some (O.taken sink.old)) (covered_text answer)
        (Some (O.taken sink.new))) }
{
    let mut digits = Buffer::new();
    let digits = digits.format(answer);
    write_parts(sink, &["covered by answer ", digits, "\n"])
}

// Writes the line of a derivation with more nodes than the bound.
fn write_too_long<O: Sink>(sink: &mut O, nodes: usize, bound: u32) -> Result<(), WriteFailed>
    ensures faults_kept { O.faults sink.old ≤ O.faults sink.new }
    ensures line { OnOk result (Some (O.taken sink.new)
        ≡ append_known (Some (O.taken sink.old)) (too_long_text nodes bound)) }
    ensures failed { OnErr result (Rose (O.faults sink.old) (O.faults sink.new)) }
    ensures quiet { OnOk result (O.faults sink.new ≡ O.faults sink.old) }
    ensures prefix { OnErr result (AppendsFront (Some (O.taken sink.old)) (too_long_text nodes bound)
        (Some (O.taken sink.new))) }
{
    let mut node_digits = Buffer::new();
    let mut bound_digits = Buffer::new();
    let node_digits = node_digits.format(nodes);
    let bound_digits = bound_digits.format(bound);
    write_too_long_fields(sink, node_digits, bound_digits)
}

// Writes the line of a derivation with more nodes than the bound, whose numbers are spelled.
fn write_too_long_fields<'a, O: Sink>(
    sink: &mut O,
    nodes: &'a str,
    bound: &'a str,
) -> Result<(), WriteFailed>
    ensures faults_kept { O.faults sink.old ≤ O.faults sink.new }
    ensures line { OnOk result (Some (O.taken sink.new)
        ≡ append_known (Some (O.taken sink.old)) (too_long_fields nodes.now bound.now)) }
    ensures failed { OnErr result (Rose (O.faults sink.old) (O.faults sink.new)) }
    ensures quiet { OnOk result (O.faults sink.new ≡ O.faults sink.old) }
    ensures prefix { OnErr result (AppendsFront (Some (O.taken sink.old)) (too_long_fields nodes.now bound.now)
        (Some (O.taken sink.new))) }
{
    write_parts(
        sink,
        &[
            "not covered: derivation has ",
            nodes,
            " nodes, bound ",
            bound,
            "\n",
        ],
    )
}

// Writes the line of a derivation whose node of this number is of a whole-number goal.
fn write_counts<O: Sink>(sink: &mut O, node: usize) -> Result<(), WriteFailed>
    ensures faults_kept { O.faults sink.old ≤ O.faults sink.new }
    ensures line { OnOk result (Some (O.taken sink.new) ≡ append_known (Some (O.taken sink.old)) (counts_text node)) }
    ensures failed { OnErr result (Rose (O.faults sink.old) (O.faults sink.new)) }
    ensures quiet { OnOk result (O.faults sink.new ≡ O.faults sink.old) }
    ensures prefix { OnErr result (AppendsFront (Some (O.taken sink.old)) (counts_text node)
        (Some (O.taken sink.new))) }
{
    let mut digits = Buffer::new();
    let digits = digits.format(node);
    write_parts(sink, &["not covered: node ", digits, " counts numbers\n"])
}

// Writes the line of a derivation of so many nodes that shows the query.
fn write_yes<O: Sink>(sink: &mut O, nodes: usize) -> Result<(), WriteFailed>
    ensures faults_kept { O.faults sink.old ≤ O.faults sink.new }
    ensures line { OnOk result (Some (O.taken sink.new) ≡ append_known (Some (O.taken sink.old)) (yes_text nodes)) }
    ensures failed { OnErr result (Rose (O.faults sink.old) (O.faults sink.new)) }
    ensures quiet { OnOk result (O.faults sink.new ≡ O.faults sink.old) }
    ensures prefix { OnErr result (AppendsFront (Some (O.taken sink.old)) (yes_text nodes) (Some (O.taken sink.new))) }
{
    let mut digits = Buffer::new();
    let digits = digits.format(nodes);
    write_parts(sink, &["yes, nodes ", digits, "\n"])
}

// Writes the line of a derivation whose node of this number does not fit, for this reason.
fn write_no<O: Sink>(sink: &mut O, node: usize, reason: u8) -> Result<(), WriteFailed>
    ensures faults_kept { O.faults sink.old ≤ O.faults sink.new }
    ensures line { OnOk result (Some (O.taken sink.new)
        ≡ append_known (Some (O.taken sink.old)) (no_text node reason)) }
    ensures failed { OnErr result (Rose (O.faults sink.old) (O.faults sink.new)) }
    ensures quiet { OnOk result (O.faults sink.new ≡ O.faults sink.old) }
    ensures prefix { OnErr result (AppendsFront (Some (O.taken sink.old)) (no_text node reason)
        (Some (O.taken sink.new))) }
{
    let mut node_digits = Buffer::new();
    let mut reason_digits = Buffer::new();
    write_no_fields(
        sink,
        node_digits.format(node),
        reason_digits.format(reason),
        reason_text(reason),
    )
}

// Writes the line of a node that does not fit, whose numbers are spelled.
fn write_no_fields<'a, O: Sink>(
    sink: &mut O,
    node: &'a str,
    reason: &'a str,
    text: &'a str,
) -> Result<(), WriteFailed>
    ensures faults_kept { O.faults sink.old ≤ O.faults sink.new }
    ensures line { OnOk result (Some (O.taken sink.new)
        ≡ append_known (Some (O.taken sink.old)) (no_fields node.now reason.now text.now)) }
    ensures failed { OnErr result (Rose (O.faults sink.old) (O.faults sink.new)) }
    ensures quiet { OnOk result (O.faults sink.new ≡ O.faults sink.old) }
    ensures prefix { OnErr result (AppendsFront (Some (O.taken sink.old)) (no_fields node.now reason.now text.now)
        (Some (O.taken sink.new))) }
{
    write_parts(
        sink,
        &["no, node ", node, ", reason ", reason, " ", text, "\n"],
    )
}

// The text of a reason why a node does not fit.
fn reason_text(reason: u8) -> &'static str
    ensures { result.now ≡ reason_text reason }
{
    match reason {
        1 => "rule does not fit the goal",
        2 => "bounded resources left",
        3 => "not a dealing",
        4 => "no such resource",
        5 => "no such leaf",
        6 => "wrong number of terms",
        7 => "head is not the goal",
        8 => "wrong parts",
        9 => "label not new",
        10 => "constant not new",
        11 => "wrong number of let terms",
        12 => "numbers do not fit",
        _ => "",
    }
}
