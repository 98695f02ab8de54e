//! The lines by which a call says why it ends without its work.
ghost use Rattle.std.specs.Prelude.{◌≡◌, ◌<◌, ◌≤◌, Some, OnOk, OnErr, map};
ghost use Rattle.std.specs.List.{concat};
ghost use Rattle.std.specs.Io.KnownBytes.{append_known};
ghost use Rattle.ll_edge.specs.Counts.{Rose};
ghost use Rattle.ll_edge.specs.Pieces.{AppendsFront};
ghost use Rattle.ll_top.specs.texts.Faults.{kind_text, fields_text, fault_text, cause_status, Faulty as FaultyText};
ghost use Rattle.ll_top.specs.texts.Endings.{shown_cause, Refuses};

use itoa::Buffer;
use ll_edge::{Sink, WriteFailed, write_all};
use ll_lexer::Fault;

/// Why a call ends with a fault line.
#[derive(Clone, Copy)]
pub enum Cause<'a> {
    /// The word of this number is in no form.
    Usage(usize),
    /// There is no text of this name.
    Absent(&'a str),
    /// The text of this name could not be read.
    Unreadable(&'a str),
    /// The text of this name has too many bytes.
    Oversized(&'a str),
    /// The derivation in the text of this name has too many bytes as a text of this version.
    OversizedAs(&'a str, u8),
    /// The text of this name has this fault.
    Faulty(&'a str, Fault),
}

/// Writes the line of a cause, and answers its status. Where the sink fails the answer is 6, and a prefix was written.
pub fn refuse<O: Sink>(cause: Cause<'_>, sink: &mut O) -> u8
    ensures faults_kept { O.faults sink.old ≤ O.faults sink.new }
    ensures refuses { Refuses (shown_cause cause.entry) (Rose (O.faults sink.old) (O.faults sink.new))
        (Some (O.taken sink.old)) (Some (O.taken sink.new)) result }
    ensures write_told { O.faults sink.old < O.faults sink.new → result ≡ 6 }
{
    match write_line(cause, sink) {
        Ok(()) => status(cause),
        Err(WriteFailed) => 6,
    }
}

// The status of a cause.
fn status(cause: Cause<'_>) -> u8
    ensures { result ≡ cause_status (shown_cause cause.entry) }
{
    match cause {
        Cause::Usage(_) => 3,
        Cause::Absent(_) => 4,
        Cause::Unreadable(_) => 5,
        Cause::Oversized(_) => 8,
        Cause::OversizedAs(_, _) => 8,
        Cause::Faulty(_, _) => 7,
    }
}

/// Writes the line of a cause. After a refusal a prefix of it was written.
pub fn write_line<O: Sink>(cause: Cause<'_>, sink: &mut O) -> Result<(), WriteFailed>
    ensures faults_kept { O.faults sink.old ≤ O.faults sink.new }
    ensures line { OnOk result (Some (O.taken sink.new)
        ≡ append_known (Some (O.taken sink.old)) (fault_text (shown_cause cause.entry))) }
    ensures failed { OnErr result (Rose (O.faults sink.old) (O.faults sink.new)) }
    ensures quiet { OnOk result (O.faults sink.new ≡ O.faults sink.old) }
    ensures prefix { OnErr result (AppendsFront (Some (O.taken sink.old)) (fault_text (shown_cause cause.entry))
        (Some (O.taken sink.new))) }
{
    match cause {
        Cause::Usage(number) => {
            let mut digits = Buffer::new();
            let digits = digits.format(number);
            write_parts(sink, &["fault: usage, word ", digits, "\n"])
        }
        Cause::Absent(name) => write_parts(sink, &["fault: absent ", name, "\n"]),
        Cause::Unreadable(name) => write_parts(sink, &["fault: read ", name, "\n"]),
        Cause::Oversized(name) => {
            write_parts(sink, &["fault: ", name, " has more than 16777216 bytes\n"])
        }
        Cause::OversizedAs(name, version) => {
            let mut digits = Buffer::new();
            let version = digits.format(version);
            let long = " has more than 16777216 bytes\n";
            write_parts(sink, &["fault: ", name, " as version ", version, long])
        }
        Cause::Faulty(name, fault) => write_text_fault(sink, name, fault),
    }
}

// Writes the line of a text's fault.
fn write_text_fault<O: Sink>(sink: &mut O, name: &str, fault: Fault) -> Result<(), WriteFailed>
    ensures faults_kept { O.faults sink.old ≤ O.faults sink.new }
    ensures line { OnOk result (Some (O.taken sink.new)
        ≡ append_known (Some (O.taken sink.old)) (fault_text (FaultyText name.now fault))) }
    ensures failed { OnErr result (Rose (O.faults sink.old) (O.faults sink.new)) }
    ensures quiet { OnOk result (O.faults sink.new ≡ O.faults sink.old) }
    ensures prefix { OnErr result (AppendsFront (Some (O.taken sink.old)) (fault_text (FaultyText name.now fault))
        (Some (O.taken sink.new))) }
{
    let mut line = Buffer::new();
    let mut column = Buffer::new();
    let mut kind = Buffer::new();
    write_fields(
        sink,
        name,
        line.format(fault.at.line),
        column.format(fault.at.column),
        kind.format(fault.kind),
        kind_text(fault.kind),
    )
}

// Writes the line of a text's fault, whose numbers are spelled.
fn write_fields<'a, O: Sink>(
    sink: &mut O,
    name: &'a str,
    line: &'a str,
    column: &'a str,
    kind: &'a str,
    text: &'a str,
) -> Result<(), WriteFailed>
    ensures faults_kept { O.faults sink.old ≤ O.faults sink.new }
    ensures line { OnOk result (Some (O.taken sink.new)
        ≡ append_known (Some (O.taken sink.old)) (fields_text name.now line.now column.now kind.now text.now)) }
    ensures failed { OnErr result (Rose (O.faults sink.old) (O.faults sink.new)) }
    ensures quiet { OnOk result (O.faults sink.new ≡ O.faults sink.old) }
    ensures prefix { OnErr result
        (AppendsFront (Some (O.taken sink.old)) (fields_text name.now line.now column.now kind.now text.now)
        (Some (O.taken sink.new))) }
{
    write_parts(
        sink,
        &[
            "fault: ", name, " ", line, ":", column, " kind ", kind, " ", text, "\n",
        ],
    )
}

/// Writes some texts, one behind the other. After a refusal a prefix of them was written.
pub fn write_parts<O: Sink>(sink: &mut O, parts: &[&str]) -> Result<(), WriteFailed>
    ensures faults_kept { O.faults sink.old ≤ O.faults sink.new }
    ensures line { OnOk result (Some (O.taken sink.new)
        ≡ append_known (Some (O.taken sink.old)) (concat (map (λ part. part.now) parts.now))) }
    ensures failed { OnErr result (Rose (O.faults sink.old) (O.faults sink.new)) }
    ensures quiet { OnOk result (O.faults sink.new ≡ O.faults sink.old) }
    ensures prefix { OnErr result (AppendsFront (Some (O.taken sink.old)) (concat (map (λ part. part.now) parts.now))
        (Some (O.taken sink.new))) }
{
    for part in parts {
        write_all(sink, part.as_bytes())?;
    }
    Ok(())
}

// The text of a kind of fault.
fn kind_text(kind: u8) -> &'static str
    ensures { result.now ≡ kind_text kind }
{
    match kind {
        1 => "byte begins no token",
        2 => "number past 64 bits",
        3 => "name longer than 255 bytes",
        4 => "unexpected token",
        5 => "text ends early",
        6 => "more than 1000 brackets open",
        7 => "not a clause",
        8 => "module load in a clause",
        9 => "variable as predicate or function",
        10 => "unknown module",
        11 => "wrong number of module arguments",
        12 => "name declared twice",
        13 => "unknown rule word",
        14 => "malformed field",
        15 => "nodes missing",
        16 => "nodes left over",
        18 => "not the table of shared terms",
        _ => "",
    }
}
