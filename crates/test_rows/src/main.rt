//! Runs each row of a table through the top call, over a shelf and a sink in memory, and tells those that fail.
//!
//! The table comes from standard input. A row begins with its name, and each line behind that sets something:
//!
//! ```text
//! == a linear choice is made once
//! words: run prog ques --bound 10 --workers 1
//! prog: LINEAR a & b.
//! ques: a , b
//! status: 1
//! out:
//!     answers 0, bound reached 0, inferences 3
//! ```
//!
//! - `words:` are the words of the command, and `''` is an empty one. `bound: 10` is short for the words that stand above.
//! - `prog:`, `ques:` and `proof:` are the texts on the shelf, each under this name, and `out:` is the text that is wanted. A text
//!   stands behind the colon, with no line feed at its end, or on the lines below, each indented by four blanks, with a line feed
//!   at the end of each. `line: yes` is short for an `out:` with this one line below.
//! - `prog, escaped:` is the same for a text with escapes: `\n`, `\r`, `\t`, `\\`, `\x20` for the byte of this number, and
//!   `\1000{(}` for a thousand brackets. In other texts a backslash is one.
//! - `status:` is the status that is wanted.
//! - `shelf fails at: 0 3` and `sink fails at: 2` are the numbers of the calls that fail, from 0, and `sink room: 10` is how many
//!   bytes the sink takes.
//! - `cut by calls: 3` says that the sink is called three times, and that the text is cut where any of these calls fails.
//!   `cut by rooms: 39` says that it is cut by each room of fewer bytes. The status of a cut is 6.
//!
//! What isn't given is empty, or 0, or doesn't fail. A line `[subject]` begins a group: what is set there, in front of its first
//! row, holds for each row of the group that doesn't set it itself. Empty lines and those that begin with `#` say nothing.
//!
//! Where a row has the word `--proofs` and the status 0, each derivation that was written is checked as well, and covered with the row's
//! bound unless it counts numbers.
//! Each row that fails is told with what was wanted and what came, and the last line says how many hold or fail.
#![tactic(auto)]

mod derivations;
mod escape;
mod line_fault;
mod outcome;
mod play;
mod row;
mod table;

use play::failure_of;
use row::Row;
use std::io;
use std::process::ExitCode;
use std::sync::Wait;
use std::thread::Threads;
use table::read_table;

fn main(rt: HostRuntime) -> io::Result<ExitCode> {
    let alloc = rt.alloc();
    let text = io::read_to_string(alloc, rt.reader())?;
    match read_table(alloc, &text) {
        Ok(rows) => tell(&rt, &rows),
        Err(fault) => {
            println!(rt; "line {} of the table: {}", fault.line, fault.fault.text())?;
            Ok(ExitCode::FAILURE)
        }
    }
}

// Tells the rows that fail, and how many hold.
fn tell<R: Threads + Wait + Sync + Print + AllocGlobal>(
    rt: &R,
    rows: &[Row],
) -> io::Result<ExitCode> {
    let count = rows.len();
    let failed = tell_failures(rt, rows)?;
    if failed > 0 || count == 0 {
        println!(rt; "{failed} of {count} rows fail")?;
        return Ok(ExitCode::FAILURE);
    }
    println!(rt; "{count} rows hold")?;
    Ok(ExitCode::SUCCESS)
}

// Tells each row that fails, and says how many they are.
fn tell_failures<R: Threads + Wait + Sync + Print + AllocGlobal>(
    rt: &R,
    rows: &[Row],
) -> io::Result<u64> {
    let mut failed = 0u64;
    for row in rows {
        if let Some(failure) = failure_of(rt, rt.alloc(), row)? {
            println!(rt; "row '{}', line {}: {failure}", row.name, row.line)?;
            failed = failed.saturating_add(1);
        }
    }
    Ok(failed)
}
