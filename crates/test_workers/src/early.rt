//! That answers are written while a worker is held, and that a failed write stops all workers.
use crate::texts::{run_choices, twelve_choices};
use ll_edge::{Gate, MemSink, OpenGate, Sink, WriteFailed};
use std::sync::atomic::{AtomicU64, Ordering};
use std::test::Fail;
use std::thread;

/// So often a held worker looks whether it may go on.
const TURNS: u64 = 20_000_000;

/// A sink that sets a flag at its first call.
#[derive(Drop)]
struct Flagged<'f, O: Sink> {
    sink: O,
    called: &'f AtomicU64,
}

impl<'f, O: Sink> Sink for Flagged<'f, O> {
    ghost written = { λ flagged. O.written flagged.sink };

    ghost taken = { λ flagged. O.taken flagged.sink };

    ghost faults = { λ flagged. O.faults flagged.sink };

    ghost told = { λ before after more e. O.told before.sink after.sink more e };

    fn write(&mut self, piece: &[u8]) -> Result<usize, WriteFailed> {
        self.called.store(1, Ordering::SeqCst);
        self.sink.write(piece)
    }
}

/// Holds worker 1 at its first pause until a sink was called.
#[derive(Drop)]
struct Late<'f> {
    called: &'f AtomicU64,
    came: &'f AtomicU64,
    missed: &'f AtomicU64,
}

impl<'f> Late<'f> {
    fn hold(&self) {
        for _ in 0..TURNS {
            if self.called.load(Ordering::SeqCst) > 0 {
                return;
            }
            thread::yield_now();
        }
        self.missed.store(1, Ordering::SeqCst);
    }
}

impl<'f> Gate for Late<'f> {
    ghost returns = { λ gate. ⊥ };

    fn pause(&self, worker: u32, _claims: u64) {
        if worker == 1 && self.came.fetch_add(1, Ordering::SeqCst) == 0 {
            self.hold();
        }
    }
}

#[test]
fn answers_are_written_while_a_worker_is_held(rt: HostRuntime) -> Result<(), Fail> {
    let alloc = rt.alloc();
    let program = twelve_choices(&rt, alloc)?.expect(&rt, "the program is made");
    let called = AtomicU64::new(0);
    let came = AtomicU64::new(0);
    let missed = AtomicU64::new(0);
    let mut sink = Flagged {
        sink: MemSink::new(alloc, 16_777_216, Vec::new(alloc))?,
        called: &called,
    };
    let gate = Late {
        called: &called,
        came: &came,
        missed: &missed,
    };
    let status = run_choices(&rt, alloc, program, "2", &mut sink, &gate)?;
    assert_eq!(rt; status, 0);
    assert_eq!(rt; missed.load(Ordering::SeqCst), 0);
    assert!(rt; came.load(Ordering::SeqCst) > 0);
    Ok(())
}

#[test]
fn a_failed_write_stops_all_workers(rt: HostRuntime) -> Result<(), Fail> {
    let alloc = rt.alloc();
    let program = twelve_choices(&rt, alloc)?.expect(&rt, "the program is made");
    let mut failing = Vec::new(alloc);
    failing.push(0)?;
    let mut sink = MemSink::new(alloc, 16_777_216, failing)?;
    let status = run_choices(&rt, alloc, program, "4", &mut sink, &OpenGate)?;
    assert_eq!(rt; status, 6);
    assert_eq!(rt; sink.bytes(), b"".as_slice());
    Ok(())
}
