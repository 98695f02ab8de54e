// A shelf and a sink in memory, for tests. Their calls are numbered from 0, and fail at given numbers.
ghost use Rattle.std.specs.Prelude.{◌≡◌, ◌-◌, ◌<◌, ◌≤◌, [], ◌∷◌, ◌++◌, map, length, min, IfOk};
ghost use Rattle.std.specs.Option.{option_copied};
ghost use Rattle.ll_edge.specs.Texts.{NamesDiffer, text_of, IsPart};
ghost use Rattle.ll_edge.specs.Memory.{texts_shown, is_failing, asked_of};
ghost use Rattle.ll_edge.specs.Counts.{counted_up};

use crate::notes::Notes;
use crate::shelf::{Got, Shelf};
use crate::sink::{Sink, WriteFailed};
use std::alloc::{AllocError, Global};
use std::marker::Model;

// The number of the next call, and the numbers of those that fail.
#[derive(Drop)]
struct Calls {
    next: u64,
    failing: Vec<u64>,
}

impl Calls {
    // Counts a call, and says whether it is to fail.
    fn count(&mut self) -> bool
        ensures fails { result ≡ is_failing self.old.failing.items self.old.next }
        ensures next { self.new ≡ record self.old { next = counted_up self.old.next } }
    {
        let fails = self.failing.contains(&self.next);
        self.next = self.next.saturating_add(1);
        fails
    }
}

/// Texts in memory. Its calls are numbered from 0, and a number stays at the greatest u64 once it is there.
#[derive(Drop)]
pub struct MemShelf {
    texts: Vec<(String, Vec<u8>)>,
    calls: Calls,
    faults: u64,
    absences: u64,
    notes: Notes,
}

impl Model for MemShelf {
    ghost use Rattle.std.specs.Prelude.{map};
    ghost use Rattle.ll_edge.specs.Memory.{ShelfState, texts_shown, asked_of};

    ghost Value = { ShelfState };

    ghost view = { λ shelf. record {
      texts = texts_shown shelf.texts.items;
      failing = shelf.calls.failing.items;
      next_call = shelf.calls.next;
      counts = record { faults = shelf.faults; absences = shelf.absences };
      asked = map asked_of shelf.notes.notes;
    } };
}

impl MemShelf {
    ghost use Rattle.ll_edge.specs.Memory.{texts_shown};

    /// A shelf with these texts, whose calls with the numbers in `failing` fail.
    pub fn new(texts: Vec<(String, Vec<u8>)>, failing: Vec<u64>) -> MemShelf
        requires { NamesDiffer (texts_shown texts.items) }
        ensures { result ≡ record {
          texts = texts_shown texts.items;
          failing = failing.items;
          next_call = 0;
          counts = record { faults = 0; absences = 0 };
          asked = [];
        } }
    {
        MemShelf {
            texts,
            calls: Calls { next: 0, failing },
            faults: 0,
            absences: 0,
            notes: Notes::new(),
        }
    }
}

impl Shelf for MemShelf {
    ghost use Rattle.std.specs.Prelude.{Some};
    ghost use Rattle.ll_edge.specs.Texts.{PutsPart, IfBytes};
    ghost use Rattle.ll_edge.specs.Memory.{shelf_answer, shelf_after};

    ghost texts = { λ shelf. Some shelf.texts };

    ghost faults = { λ shelf. shelf.counts.faults };

    ghost absences = { λ shelf. shelf.counts.absences };

    ghost use Rattle.ll_edge.specs.Memory.{log_of};
    ghost use Rattle.ll_edge.specs.MemoryLaws.{log_agrees};

    ghost log = { log_of };

    ghost told = { log_agrees };

    fn read(&mut self, name: &str, from: u64, buf: &mut [u8]) -> Got
        requires { 0 < length buf.old }

        ensures answer { result ≡ shelf_answer self.old name.now from (length buf.new) }
        ensures after { self.new ≡ shelf_after self.old name.now from (length buf.new) result }
        ensures bytes { IfBytes result (λ n. PutsPart self.old.texts name.now from buf.new n) }
        ensures faults_kept { self.old.counts.faults ≤ self.new.counts.faults }
        ensures absences_kept { self.old.counts.absences ≤ self.new.counts.absences }
    {
        let fails = self.calls.count();
        note_question(&mut self.notes, name, from, buf.len() - 1, fails);
        if fails {
            self.faults = self.faults.saturating_add(1);
            return Got::Failed;
        }
        match find_text(&self.texts, name) {
            Some(text) => Got::Bytes(copy_part(text, from, buf)),
            None => {
                self.absences = self.absences.saturating_add(1);
                Got::Absent
            }
        }
    }
}

// Notes what a call asks for, and whether it fails.
fn note_question(notes: &mut Notes, name: &str, from: u64, beyond: usize, fails: bool)
    ensures { map asked_of notes.new.notes
        ≡ map asked_of notes.old.notes ++ record { name = name.now; from = from; beyond = beyond; fails = fails } ∷ [] }
{
    notes.note(
        &[from, beyond as u64, u64::from(fails)],
        name.as_bytes(),
        &[],
    );
}

// The text of a name.
fn find_text<'t>(texts: &'t [(String, Vec<u8>)], name: &str) -> Option<&'t [u8]>
    ensures { option_copied result ≡ text_of (texts_shown texts.now) name.now }
{
    for (other, text) in texts {
        if other.as_str() == name {
            return Some(text);
        }
    }
    None
}

// Copies what there is of a text, from a place on, to the front of a buffer, and says how many bytes these are.
fn copy_part(text: &[u8], from: u64, buf: &mut [u8]) -> usize
    requires { 0 < length buf.old }
    ensures count { result ≡ min (length buf.new) (length text.now - from) }
    ensures part { IsPart text.now from buf.new result }
{
    let start = text.len().min(from as usize);
    let rest = &text[start..];
    let count = buf.len().min(rest.len());
    buf[..count].copy_from_slice(&rest[..count]);
    count
}

/// A sink of limited room in memory. Its calls are numbered as those of `MemShelf`.
///
/// With no room left it takes nothing of a piece, which counts as a fault.
#[derive(Drop)]
pub struct MemSink {
    written: Vec<u8>,
    room: usize,
    calls: Calls,
    faults: u64,
}

impl Model for MemSink {
    ghost use Rattle.std.specs.Prelude.{◌≤◌, vec_len, vec_capacity};
    ghost use Rattle.ll_edge.specs.Memory.{SinkState};

    ghost Value = { SinkState };

    ghost view = { λ sink. record {
      written = sink.written.items;
      room = sink.room;
      failing = sink.calls.failing.items;
      next_call = sink.calls.next;
      faults = sink.faults;
    } };

    ghost invariant = { λ sink.
        (vec_len sink.written ≤ sink.room) × (sink.room ≤ vec_capacity sink.written) };
}

impl MemSink {
    /// A sink that takes `room` bytes in all, whose calls with the numbers in `failing` fail. Memory for all the
    /// room is taken here, and none later.
    pub fn new(alloc: Global, room: usize, failing: Vec<u64>) -> Result<MemSink, AllocError>
        ensures { IfOk result (λ sink. sink ≡ record {
          written = [];
          room = room;
          failing = failing.items;
          next_call = 0;
          faults = 0;
        }) }
    {
        let written = Vec::with_capacity(alloc, room)?;
        Ok(MemSink {
            written,
            room,
            calls: Calls { next: 0, failing },
            faults: 0,
        })
    }

    /// All that was written.
    pub fn bytes(&self) -> &[u8]
        ensures { result.now ≡ self.now.written }
    {
        &self.written
    }
}

impl Sink for MemSink {
    ghost use Rattle.std.specs.Prelude.{Some};
    ghost use Rattle.ll_edge.specs.MemoryLaws.{written_grows};
    ghost use Rattle.ll_edge.specs.Memory.{sink_answer, sink_after};

    ghost written = { λ sink. Some sink.written };

    ghost taken = { λ sink. sink.written };

    ghost faults = { λ sink. sink.faults };

    ghost told = { written_grows };

    fn write(&mut self, piece: &[u8]) -> Result<usize, WriteFailed>
        ensures answer { result ≡ sink_answer self.old piece.now }
        ensures after { self.new ≡ sink_after self.old piece.now result }
        ensures faults_kept { self.old.faults ≤ self.new.faults }
    {
        if self.calls.count() {
            self.faults = self.faults.saturating_add(1);
            return Err(WriteFailed);
        }
        let taken = piece.len().min(self.room - self.written.len());
        if taken == 0 && !piece.is_empty() {
            self.faults = self.faults.saturating_add(1);
        }
        self.written.extend_from_slice(&piece[..taken]).unwrap();
        Ok(taken)
    }
}
