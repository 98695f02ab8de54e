// What can be wrong with a line of a table.
use std::alloc::{AllocError, AllocFailed};

/// Why a line of a table can't be read.
#[derive(Clone, Copy)]
pub enum LineFault {
    /// The line has no colon, or what stands in front of it is no key.
    NoSuchKey,
    /// An indented line goes on with a text that isn't open.
    NoOpenText,
    /// The value of a number's key is no number, or is too great.
    NotNumber,
    /// A backslash begins no escape.
    NoSuchEscape,
    /// Memory is short.
    OutOfMemory,
}

impl LineFault {
    /// What is told of it.
    pub fn text(self) -> &'static str {
        match self {
            LineFault::NoSuchKey => "no such key",
            LineFault::NoOpenText => "no text goes on here",
            LineFault::NotNumber => "not a number, or too great a one",
            LineFault::NoSuchEscape => "no such escape",
            LineFault::OutOfMemory => "out of memory",
        }
    }
}

impl From<AllocError> for LineFault {
    fn from(_error: AllocError) -> LineFault {
        LineFault::OutOfMemory
    }
}

impl<T: Drop> From<AllocFailed<T>> for LineFault {
    fn from(_error: AllocFailed<T>) -> LineFault {
        LineFault::OutOfMemory
    }
}

/// The first bad line of a table, counted from 1.
#[derive(Clone, Copy)]
pub struct TableFault {
    pub line: usize,
    pub fault: LineFault,
}
