// Reading a whole text.
ghost use Rattle.std.specs.Prelude.{◌≡◌, ◌<◌, ◌≤◌, length, vec_len, Some, None, IfOk, IfSome, IsErrOf, IsSomeAnd};
ghost use Rattle.ll_edge.specs.Counts.{Rose};
ghost use Rattle.ll_edge.specs.Log.{ShelfKept, ReadingEnds, FaultsOf, AbsencesOf};
ghost use Rattle.ll_edge.specs.Texts.{text_of};

use crate::shelf::{Got, Shelf};
use std::alloc::{AllocError, Global};
use thiserror::Error;

/// Why a text was not read.
#[derive(Clone, Copy, Debug, PartialEq, Eq, Error)]
pub enum ReadFault {
    /// There is no text of this name.
    #[error("no such text")]
    Absent,
    /// The shelf failed.
    #[error("can't read the text")]
    Failed,
    /// The text has more bytes than the limit.
    #[error("the text is too long")]
    TooLong,
    /// Memory is short.
    #[error("out of memory")]
    OutOfMemory,
}

impl From<AllocError> for ReadFault {
    ghost use Rattle.std.specs.Prelude.{◌≡◌};
    ghost use Rattle.ll_edge.specs.declared.text.ReadFault.TheVariants.{OutOfMemory};

    ghost from_gives = { λ _ fault. fault ≡ OutOfMemory };

    fn from(_error: AllocError) -> ReadFault {
        ReadFault::OutOfMemory
    }
}

// How many bytes are read at a time.
const CHUNK_LEN: usize = 65536;

/// Reads the text of a name to its end, if it has at most `limit` bytes.
///
/// `TooLong` comes once `limit + 1` bytes were read, and no more are read then. `Absent` and `Failed` are the
/// shelf's own answers, to any of the calls: a text is whole only where each call gave bytes, the last one none.
/// The texts on the shelf stay as they are.
pub fn read_text<F: Shelf>(
    alloc: Global,
    shelf: &mut F,
    name: &str,
    limit: usize,
) -> Result<Vec<u8>, ReadFault>
    requires { limit < usize.MAX }

    ensures kept { ShelfKept F.texts F.faults F.absences F.log shelf.old shelf.new }
    ensures no_fault { IfOk result (λ _. F.faults shelf.new ≡ F.faults shelf.old) }
    ensures no_absence { IfOk result (λ _. F.absences shelf.new ≡ F.absences shelf.old) }
    ensures within_limit { IfOk result (λ text. vec_len text ≤ limit) }
    ensures absent { IsErrOf result ReadFault.Absent
        → Rose (F.absences shelf.old) (F.absences shelf.new) }
    ensures failed { IsErrOf result ReadFault.Failed
        → Rose (F.faults shelf.old) (F.faults shelf.new) }
    ensures failed_alone { FaultsOf result (F.faults shelf.old) (F.faults shelf.new) }
    ensures absent_alone { AbsencesOf result (F.absences shelf.old) (F.absences shelf.new) }

    ensures reading { ReadingEnds limit name.now (F.log shelf.old) (F.log shelf.new) result }

    // Where the texts are told.
    ensures whole { IfOk result (λ text. IfSome (F.texts shelf.old)
        (λ told. text_of told name.now ≡ Some text.items)) }
    ensures told_absent { IsErrOf result ReadFault.Absent → IfSome (F.texts shelf.old)
        (λ told. text_of told name.now ≡ None) }
    ensures too_long { IsErrOf result ReadFault.TooLong → IfSome (F.texts shelf.old)
        (λ told. IsSomeAnd (text_of told name.now) (λ text. limit < length text)) }
{
    let mut text = Vec::new(alloc);
    let mut chunk = zeros(alloc, CHUNK_LEN)?;
    while text.len() <= limit {
        let room = chunk.len().min(limit + 1 - text.len());
        let part = &mut chunk[..room];
        match shelf.read(name, text.len() as u64, part) {
            Got::Bytes(0) => return Ok(text),
            Got::Bytes(n) => text.extend_from_slice(&part[..n])?,
            Got::Absent => return Err(ReadFault::Absent),
            Got::Failed => return Err(ReadFault::Failed),
        }
    }
    Err(ReadFault::TooLong)
}

// A buffer of so many bytes.
fn zeros(alloc: Global, len: usize) -> Result<Vec<u8>, AllocError>
    ensures { IfOk result (λ buf. vec_len buf ≡ len) }
{
    vec![in alloc; 0u8; len]
}
