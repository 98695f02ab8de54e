// What a call of the top came to, and what is told where that isn't what was wanted.
use std::fmt;

/// A status, and what was written.
#[derive(Drop)]
pub struct Outcome {
    pub status: u64,
    pub written: Vec<u8>,
}

impl Outcome {
    /// Whether this is the status, and that the text.
    pub fn is(&self, status: u64, text: &[u8]) -> bool {
        self.status == status && self.written.as_slice() == text
    }

    /// Whether this is what a cover says of a derivation that an answer covers.
    pub fn is_covered(&self) -> bool {
        self.status == 0 && self.written.starts_with(b"covered by answer ")
    }

    /// Whether the sink failed, and a front of the text was written that isn't the whole.
    pub fn is_cut_from(&self, text: &[u8]) -> bool {
        self.status == UNWRITABLE
            && self.written.len() < text.len()
            && text.starts_with(&self.written)
    }
}

/// The status where the sink failed.
pub const UNWRITABLE: u64 = 6;

impl fmt::Display for Outcome {
    fn fmt<W: fmt::Write>(&self, f: &mut fmt::Formatter<W>) -> fmt::Result {
        let status = self.status;
        match str::from_utf8(&self.written) {
            Ok(text) => write!(f, "status {status} and {text:?}"),
            Err(_) => write!(f, "status {status} and bytes that are no text"),
        }
    }
}

/// Which call of a row failed it.
#[derive(Clone, Copy)]
pub enum Trial {
    /// The row as it stands.
    Whole,
    /// The same by the call that serves all but runs.
    Plain,
    /// The sink's call with this number failed.
    CallFails(u64),
    /// The sink had room for so many bytes.
    RoomEnds(u64),
    /// The derivation with this number, counted from 1, was checked.
    Checked(usize),
    /// The derivation with this number, counted from 1, was asked to be covered.
    Covered(usize),
}

impl fmt::Display for Trial {
    fn fmt<W: fmt::Write>(&self, f: &mut fmt::Formatter<W>) -> fmt::Result {
        match self {
            Trial::Whole => write!(f, "as it stands"),
            Trial::Plain => write!(f, "by the plain call"),
            Trial::CallFails(call) => write!(f, "where call {call} of the sink fails"),
            Trial::RoomEnds(room) => write!(f, "where the sink has room for {room} bytes"),
            Trial::Checked(number) => write!(f, "where its derivation {number} is checked"),
            Trial::Covered(number) => write!(f, "where its derivation {number} is covered"),
        }
    }
}

/// Why a row fails.
#[derive(Drop)]
pub struct Failure {
    pub trial: Trial,
    pub wanted: Outcome,
    pub came: Outcome,
}

impl fmt::Display for Failure {
    fn fmt<W: fmt::Write>(&self, f: &mut fmt::Formatter<W>) -> fmt::Result {
        let Failure {
            trial,
            wanted,
            came,
        } = self;
        match trial {
            Trial::CallFails(_) => write!(f, "{trial}, wanted less than {wanted}; came {came}"),
            _ => write!(f, "{trial}, wanted {wanted}; came {came}"),
        }
    }
}
