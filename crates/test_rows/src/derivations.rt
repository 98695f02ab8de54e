// The derivations that a run writes.
use std::alloc::{AllocError, Global};

/// A derivation's text, how many nodes it has, and whether one of them is of a whole-number goal.
#[derive(Drop)]
pub struct Written {
    pub text: String,
    pub nodes: usize,
    pub counts_numbers: bool,
}

/// The derivations among what a run wrote, each with a node for each line but the first and those of the terms.
pub fn derivations_in(alloc: Global, output: &str) -> Result<Vec<Written>, AllocError> {
    let mut found = Vec::new(alloc);
    for behind in output.split("proof 1\n").skip(1) {
        let lines = lines_before(lines_before(behind, "\nanswer"), "\nstopped");
        let nodes = nodes_in(lines);
        let counts_numbers = has_number_line(lines);
        let text = format!(in alloc; "proof 1\n{lines}\n")?;
        found.push(Written {
            text,
            nodes,
            counts_numbers,
        })?;
    }
    Ok(found)
}

// What stands in front of a line that begins so, or everything where there is none.
fn lines_before<'a>(text: &'a str, line: &str) -> &'a str {
    match text.split_once(line) {
        Some((lines, _)) => lines,
        None => text,
    }
}

fn nodes_in(lines: &str) -> usize {
    let mut nodes = 0usize;
    for line in lines.lines() {
        if !line.starts_with("let ") {
            nodes = nodes.saturating_add(1);
        }
    }
    nodes
}

fn has_number_line(lines: &str) -> bool {
    for line in lines.lines() {
        if line == "num" {
            return true;
        }
    }
    false
}
