// Where texts are read from.
ghost use Rattle.std.specs.Prelude.{◌≡◌, ℕ, ◌<◌, ◌≤◌, List, [], length, IfSome, Option};
ghost use Rattle.ll_edge.specs.Counts.{Rose};
ghost use Rattle.ll_edge.specs.Log.{Entry, answer_of, logged, Agrees};
ghost use Rattle.ll_edge.specs.Texts.{Texts, IfBytes};

/// What one call of a shelf gives.
#[derive(Clone, Copy)]
pub enum Got {
    /// So many bytes of the text are at the front of the buffer. None are left where it is 0.
    Bytes(usize),
    /// There is no text of this name.
    Absent,
    /// The text can't be read.
    Failed,
}

/// Texts by their names.
pub trait Shelf {
    // The texts, where the shelf tells them.
    ghost texts: { Self → Option Texts };

    // How many calls failed.
    ghost faults: { Self → ℕ };

    // How many calls found no text of the name.
    ghost absences: { Self → ℕ };

    // The calls so far with their answers, in order. Every shelf tells them.
    ghost log: { Self → List Entry };

    /// Reads a part of a text into `buf`, from the byte with number `from` on.
    fn read(&mut self, name: &str, from: u64, buf: &mut [u8]) -> Got
        requires { 0 < length buf.old }

        ensures same_texts { texts self.new ≡ texts self.old }
        ensures faults_kept { faults self.old ≤ faults self.new }
        ensures absences_kept { absences self.old ≤ absences self.new }

        ensures failed { result ≡ Got.Failed → Rose (faults self.old) (faults self.new) }
        ensures absent { result ≡ Got.Absent → Rose (absences self.old) (absences self.new) }
        ensures no_fault { IfBytes result (λ _. faults self.new ≡ faults self.old) }
        ensures no_absence { IfBytes result (λ _. absences self.new ≡ absences self.old) }
        ensures absent_alone { result ≡ Got.Absent → faults self.new ≡ faults self.old }
        ensures failed_alone { result ≡ Got.Failed → absences self.new ≡ absences self.old }
        ensures fits { IfBytes result (λ n. n ≤ length buf.new) }

        ensures logs { log self.new ≡ logged (log self.old) name.now from (answer_of result buf.new) };

    // Where the texts are told, each answer is the one that they give.
    ghost told: { (shelf : Self) → IfSome (texts shelf) (λ texts. Agrees texts [] (log shelf)) };
}
