//! The program: takes the words, and leaves the rest to the top call.
#![tactic(auto)]

use ll_edge::{FileShelf, StdSink, lent, words};
use std::io;
use std::process::ExitCode;

// The status of a call for which memory ran out before there were words.
const OUT_OF_MEMORY: u8 = 10;

fn main(rt: HostRuntime) -> ExitCode {
    let alloc = rt.alloc();
    let words = match words(&rt) {
        Ok(words) => words,
        Err(fault) if fault.kind() == io::ErrorKind::OutOfMemory => {
            return ExitCode::from(OUT_OF_MEMORY);
        }
        // A word that is no text is in no form.
        Err(_) => Vec::new(alloc),
    };
    let mut shelf = FileShelf::new(&rt);
    let mut sink = StdSink::new(&rt);
    let status = match lent(alloc, &words) {
        Ok(words) => ll_top::lolli_real(&rt, alloc, &words, &mut shelf, &mut sink),
        Err(_) => OUT_OF_MEMORY,
    };
    ExitCode::from(status)
}
