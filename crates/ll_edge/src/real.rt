// The files and the standard output of the system. They tell no bytes; what calls were answered and took is noted.
ghost use Rattle.std.specs.Prelude.{◌≡◌, ◌<◌, ◌≤◌, ◌++◌, [], length, take, IfOk};
ghost use Rattle.ll_edge.specs.Counts.{counts_after, faults_after};
ghost use Rattle.ll_edge.specs.Log.{answer_of, logged};
ghost use Rattle.ll_edge.specs.Pieces.{taken_of};
ghost use Rattle.ll_edge.specs.Real.{log_noted, bytes_noted};
ghost use Rattle.ll_edge.specs.Texts.{IfBytes};

use crate::notes::Notes;
use crate::shelf::{Got, Shelf};
use crate::sink::{Sink, WriteFailed};
use std::fs::File;
use std::io;
use std::io::{ErrorKind, Read, Seek, SeekFrom};
use std::marker::Model;
use std::rt::Files;

/// The files of the system, by their paths. Each call opens the file anew. A contract sees the counts and the log.
///
/// `Absent` comes where the system says on opening that there is no such file. All else that goes wrong is
/// `Failed`: a folder, a path through a file, a name that is too long.
#[derive(Drop)]
pub struct FileShelf<'r, R> {
    rt: &'r R,
    faults: u64,
    absences: u64,
    notes: Notes,
}

impl<'r, R> Model for FileShelf<'r, R> {
    ghost use Rattle.ll_edge.specs.Real.{FilesSeen, log_noted};

    ghost Value = { FilesSeen };

    ghost view = { λ shelf. record {
      counts = record { faults = shelf.faults; absences = shelf.absences };
      log = log_noted shelf.notes.notes;
    } };
}

impl<'r, R: Files> FileShelf<'r, R> {
    /// The shelf of a runtime's files, with both counts at 0 and nothing in its log.
    pub fn new(rt: &'r R) -> FileShelf<'r, R>
        ensures { result ≡ record { counts = record { faults = 0; absences = 0 }; log = [] } }
    {
        FileShelf {
            rt,
            faults: 0,
            absences: 0,
            notes: Notes::new(),
        }
    }
}

impl<R: Files> Shelf for FileShelf<'_, R> {
    ghost use Rattle.std.specs.Prelude.{None};

    ghost texts = { λ _. None };

    ghost faults = { λ shelf. shelf.counts.faults };

    ghost absences = { λ shelf. shelf.counts.absences };

    ghost log = { λ shelf. shelf.log };

    ghost told = { λ _. tt };

    fn read(&mut self, name: &str, from: u64, buf: &mut [u8]) -> Got
        requires { 0 < length buf.old }
        ensures counts { self.new.counts ≡ counts_after self.old.counts result }
        ensures fits { IfBytes result (λ n. n ≤ length buf.new) }
        ensures faults_kept { self.old.counts.faults ≤ self.new.counts.faults }
        ensures absences_kept { self.old.counts.absences ≤ self.new.counts.absences }
        ensures logs { self.new.log ≡ logged self.old.log name.now from (answer_of result buf.new) }
    {
        let got = read_file(self.rt, name, from, buf);
        match got {
            Got::Bytes(_) => {}
            Got::Absent => self.absences = self.absences.saturating_add(1),
            Got::Failed => self.faults = self.faults.saturating_add(1),
        }
        note_answer(&mut self.notes, name, from, got, buf);
        got
    }
}

// What the system answers to one call.
fn read_file<R: Files>(rt: &R, name: &str, from: u64, buf: &mut [u8]) -> Got
    ensures fits { IfBytes result (λ n. n ≤ length buf.new) }
{
    match File::open(rt, name) {
        Ok(mut file) => match read_at(&mut file, from, buf) {
            Ok(n) => Got::Bytes(n),
            Err(_) => Got::Failed,
        },
        Err(error) if error.kind() == ErrorKind::NotFound => Got::Absent,
        Err(_) => Got::Failed,
    }
}

// One read, from a place on.
fn read_at<F: Read + Seek>(file: &mut F, from: u64, buf: &mut [u8]) -> io::Result<usize>
    ensures { IfOk result (λ n. n ≤ length buf.new) }
{
    file.seek(SeekFrom::Start(from))?;
    file.read(buf)
}

// Notes what a call of the files was answered.
fn note_answer(notes: &mut Notes, name: &str, from: u64, got: Got, buf: &[u8])
    requires { IfBytes got (λ n. n ≤ length buf.now) }
    ensures { log_noted notes.new.notes ≡ logged (log_noted notes.old.notes) name.now from (answer_of got buf.now) }
{
    match got {
        Got::Bytes(n) => notes.note(&[from, 0], name.as_bytes(), &buf[..n]),
        Got::Absent => notes.note(&[from, 1], name.as_bytes(), &[]),
        Got::Failed => notes.note(&[from, 2], name.as_bytes(), &[]),
    }
}

/// The standard output, with no buffer in between. A contract sees the count of faults and the bytes that it took.
#[derive(Drop)]
pub struct StdSink<'r, R> {
    rt: &'r R,
    faults: u64,
    notes: Notes,
}

impl<'r, R> Model for StdSink<'r, R> {
    ghost use Rattle.ll_edge.specs.Real.{OutputSeen, bytes_noted};

    ghost Value = { OutputSeen };

    ghost view = { λ sink. record { faults = sink.faults; taken = bytes_noted sink.notes.notes } };
}

impl<'r, R: Print> StdSink<'r, R> {
    /// The sink of a runtime's standard output, with its count at 0 and nothing taken.
    pub fn new(rt: &'r R) -> StdSink<'r, R>
        ensures { result ≡ record { faults = 0; taken = [] } }
    {
        StdSink {
            rt,
            faults: 0,
            notes: Notes::new(),
        }
    }
}

impl<R: Print> Sink for StdSink<'_, R> {
    ghost use Rattle.std.specs.Prelude.{None, refl};

    ghost written = { λ _. None };

    ghost taken = { λ sink. sink.taken };

    ghost faults = { λ sink. sink.faults };

    ghost told = { λ _ _ _ _. refl };

    fn write(&mut self, piece: &[u8]) -> Result<usize, WriteFailed>
        ensures counts { self.new.faults ≡ faults_after self.old.faults piece.now result }
        ensures fits { IfOk result (λ n. n ≤ length piece.now) }
        ensures faults_kept { self.old.faults ≤ self.new.faults }
        ensures takes { self.new.taken ≡ self.old.taken ++ taken_of piece.now result }
    {
        let result = self.rt.write_some(piece).map_err(|_| WriteFailed);
        if !matches!(result, Ok(taken) if taken > 0 || piece.is_empty()) {
            self.faults = self.faults.saturating_add(1);
        }
        if let Ok(taken) = result {
            note_taken(&mut self.notes, &piece[..taken]);
        }
        result
    }
}

// Notes the bytes that a call took.
fn note_taken(notes: &mut Notes, bytes: &[u8])
    ensures { bytes_noted notes.new.notes ≡ bytes_noted notes.old.notes ++ bytes.now }
{
    notes.note(&[], &[], bytes);
}
