// Where text is written to.
ghost use Rattle.std.specs.Prelude.{◌≡◌, ℕ, ◌<◌, ◌≤◌, List, ◌++◌, length, Option, IfOk, OnOk, OnErr};
ghost use Rattle.std.specs.Io.KnownBytes.{append_known};
ghost use Rattle.ll_edge.specs.Counts.{Rose};
ghost use Rattle.ll_edge.specs.Pieces.{AppendsFront, TakesFront, taken_of};

use thiserror::Error;

/// The sink can't take what was to be written.
#[derive(Clone, Copy, Debug, PartialEq, Eq, Error)]
#[error("can't write")]
pub struct WriteFailed;

/// What takes the bytes that a program writes.
pub trait Sink {
    // All that was written, where the sink tells it.
    ghost written: { Self → Option (List ℕ) };

    // The bytes that calls took, in order. Every sink tells them.
    ghost taken: { Self → List ℕ };

    // How many calls failed, or took nothing of a piece that is not empty.
    ghost faults: { Self → ℕ };

    /// Takes the first bytes of a piece, and answers how many. After a refusal it has taken none.
    fn write(&mut self, piece: &[u8]) -> Result<usize, WriteFailed>
        ensures faults_kept { faults self.old ≤ faults self.new }

        ensures fits { IfOk result (λ n. n ≤ length piece.now) }
        ensures takes { taken self.new ≡ taken self.old ++ taken_of piece.now result }
        ensures none_taken { IfOk result
            (λ n. n ≡ 0 → 0 < length piece.now → Rose (faults self.old) (faults self.new)) }

        ensures failed { OnErr result (Rose (faults self.old) (faults self.new)) }
        ensures no_fault { IfOk result (λ n. 0 < n → faults self.new ≡ faults self.old) };

    // Where what was written is told, it grows by what calls take.
    ghost told: { (before after : Self) (more : List ℕ) → taken after ≡ taken before ++ more
        → written after ≡ append_known (written before) more };
}

/// Writes the whole piece. After a refusal a prefix of it was written.
pub fn write_all<O: Sink>(sink: &mut O, piece: &[u8]) -> Result<(), WriteFailed>
    ensures faults_kept { O.faults sink.old ≤ O.faults sink.new }
    ensures takes { OnOk result (O.taken sink.new ≡ O.taken sink.old ++ piece.now) }
    ensures appends { OnOk result
        (O.written sink.new ≡ append_known (O.written sink.old) piece.now) }

    ensures failed { OnErr result (Rose (O.faults sink.old) (O.faults sink.new)) }
    ensures no_fault { OnOk result (O.faults sink.new ≡ O.faults sink.old) }
    ensures takes_front { OnErr result (TakesFront (O.taken sink.old) piece.now (O.taken sink.new)) }
    ensures prefix { OnErr result
        (AppendsFront (O.written sink.old) piece.now (O.written sink.new)) }
{
    let mut done = 0;
    while done < piece.len() {
        let taken = sink.write(&piece[done..])?;
        if taken == 0 {
            return Err(WriteFailed);
        }
        done += taken;
    }
    Ok(())
}
