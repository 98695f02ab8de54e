//! That workers claim side by side: a gate holds each of them until another one has come as far.
//!
//! The gate says what it has seen. It tells workers from what is not one: a single worker, workers that run one after the other in one
//! thread, and a worker that keeps all its choice points to itself. The last two are played, pause by pause.
use ll_edge::{Gate, MemShelf, MemSink};
use ll_top::lolli;
use std::alloc::{AllocError, Global};
use std::sync::Wait;
use std::sync::atomic::{AtomicU64, Ordering};
use std::test::Fail;
use std::thread;
use std::thread::{Threads, join};

/// So often a held worker looks whether it may go on.
const TURNS: u64 = 20_000_000;

/// So often it looks where nobody will ever let it go on.
const FEW_TURNS: u64 = 1_000;

/// What a gate has seen of a search.
#[derive(Clone, Copy, Debug, PartialEq, Eq)]
enum Outcome {
    /// Workers came together, and claimed side by side.
    Met,
    /// A helper was held to the limit, and the other one had not come.
    CameAlone,
    /// A worker with a claim behind it was held to the limit, and no other one had claimed.
    ClaimedAlone,
    /// Nobody was held to the limit, but a helper never came, or fewer than two workers claimed.
    NoCrew,
}

/// What a gate has seen of one worker.
#[derive(Drop)]
struct Seen {
    // How often it came.
    pauses: AtomicU64,
    // How often it came with a claim behind it.
    claimed: AtomicU64,
}

impl Seen {
    fn new() -> Seen {
        Seen {
            pauses: AtomicU64::new(0),
            claimed: AtomicU64::new(0),
        }
    }

    fn has_come(&self) -> bool {
        self.pauses.load(Ordering::SeqCst) > 0
    }

    fn has_claimed(&self) -> bool {
        self.claimed.load(Ordering::SeqCst) > 0
    }
}

/// Holds each of workers 1 and 2 at its first pause until the other one has come to its first pause, and each worker that has claimed
/// until some other one has come with a claim behind it.
#[derive(Drop)]
struct Meeting {
    caller: Seen,
    second: Seen,
    third: Seen,
    // How often a worker looks at most: until the other helper has come, and until another one has claimed.
    turns_to_come: u64,
    turns_to_claim: u64,
    // How often one was held to the limit.
    came_alone: AtomicU64,
    claimed_alone: AtomicU64,
}

impl Meeting {
    fn new(turns_to_come: u64, turns_to_claim: u64) -> Meeting {
        Meeting {
            caller: Seen::new(),
            second: Seen::new(),
            third: Seen::new(),
            turns_to_come,
            turns_to_claim,
            came_alone: AtomicU64::new(0),
            claimed_alone: AtomicU64::new(0),
        }
    }

    // A worker and the two others.
    fn parts(&self, worker: u32) -> (&Seen, &Seen, &Seen) {
        match worker {
            0 => (&self.caller, &self.second, &self.third),
            1 => (&self.second, &self.third, &self.caller),
            _ => (&self.third, &self.second, &self.caller),
        }
    }

    // Holds a helper until the other one has come.
    fn hold_until_come(&self, other: &Seen) {
        for _ in 0..self.turns_to_come {
            if other.has_come() {
                return;
            }
            thread::yield_now();
        }
        self.came_alone.fetch_add(1, Ordering::SeqCst);
    }

    // Holds a worker until one of two others has claimed.
    fn hold_until_claimed(&self, one: &Seen, other: &Seen) {
        for _ in 0..self.turns_to_claim {
            if one.has_claimed() || other.has_claimed() {
                return;
            }
            thread::yield_now();
        }
        self.claimed_alone.fetch_add(1, Ordering::SeqCst);
    }

    // How many workers came with a claim behind them.
    fn claimers(&self) -> u32 {
        u32::from(self.caller.has_claimed())
            + u32::from(self.second.has_claimed())
            + u32::from(self.third.has_claimed())
    }

    // What it has seen, once the search is over.
    fn outcome(&self) -> Outcome {
        if self.came_alone.load(Ordering::SeqCst) > 0 {
            return Outcome::CameAlone;
        }
        if self.claimed_alone.load(Ordering::SeqCst) > 0 {
            return Outcome::ClaimedAlone;
        }
        if self.second.has_come() && self.third.has_come() && self.claimers() >= 2 {
            return Outcome::Met;
        }
        Outcome::NoCrew
    }
}

impl Gate for Meeting {
    ghost returns = { λ gate. ⊥ };

    fn pause(&self, worker: u32, claims: u64) {
        let (own, helper, other) = self.parts(worker);
        let pauses = own.pauses.fetch_add(1, Ordering::SeqCst);
        if claims > 0 {
            own.claimed.fetch_add(1, Ordering::SeqCst);
        }
        if worker > 0 && pauses == 0 {
            self.hold_until_come(helper);
        }
        if claims > 0 {
            self.hold_until_claimed(helper, other);
        }
    }
}

// The pauses of one worker that claims so often.
fn play(gate: &Meeting, worker: u32, claims: u64) {
    gate.pause(worker, 0);
    for claim in 0..claims {
        gate.pause(worker, claim.saturating_add(1));
    }
}

// The pauses of two helpers that claim so often, each in a thread of its own, and then those of a caller that claims once.
fn play_side_by_side<R: Threads>(rt: &R, gate: &Meeting, claims: u64) {
    let ((), ()) = join(
        rt,
        move || play(gate, 1, claims),
        move || play(gate, 2, claims),
    );
    play(gate, 0, 1);
}

// What a run of twelve choices with so many workers writes through this gate, and its status.
fn twelve_choices<R: Threads + Wait + Sync>(
    rt: &R,
    alloc: Global,
    workers: &str,
    gate: &Meeting,
) -> Result<(u8, Vec<u8>), AllocError> {
    // Nothing is on the shelf: the program is made.
    let mut shelf = MemShelf::new(Vec::new(alloc), Vec::new(alloc));
    let mut sink = MemSink::new(alloc, 16_777_216, Vec::new(alloc))?;
    let words = [
        "make",
        "choice",
        "12",
        "--bound",
        "100",
        "--workers",
        workers,
    ];
    let status = lolli(rt, alloc, &words, &mut shelf, &mut sink, gate);
    let text = Vec::from_slice(alloc, sink.bytes())?;
    Ok((status, text))
}

const COUNTED: &[u8] = b"answers 4096, bound reached 0, inferences 6143\n";

#[test]
fn workers_claim_side_by_side(rt: HostRuntime) -> Result<(), Fail> {
    let gate = Meeting::new(TURNS, TURNS);
    let (status, text) = twelve_choices(&rt, rt.alloc(), "3", &gate)?;
    assert_eq!(rt; status, 0);
    assert_eq!(rt; text.as_slice(), COUNTED);
    assert_eq!(rt; gate.outcome(), Outcome::Met);
    Ok(())
}

#[test]
fn one_worker_is_no_crew(rt: HostRuntime) -> Result<(), Fail> {
    let gate = Meeting::new(TURNS, TURNS);
    let (status, text) = twelve_choices(&rt, rt.alloc(), "1", &gate)?;
    assert_eq!(rt; status, 0);
    assert_eq!(rt; text.as_slice(), COUNTED);
    assert_eq!(rt; gate.outcome(), Outcome::NoCrew);
    Ok(())
}

#[test]
fn workers_on_one_thread_come_alone(rt: HostRuntime) -> Result<(), Fail> {
    for order in [[0, 1, 2], [1, 2, 0], [2, 0, 1], [2, 1, 0]] {
        let gate = Meeting::new(FEW_TURNS, FEW_TURNS);
        for worker in order {
            play(&gate, worker, 2);
        }
        assert_eq!(rt; gate.outcome(), Outcome::CameAlone);
    }
    Ok(())
}

#[test]
fn a_worker_that_shares_nothing_claims_alone(rt: HostRuntime) -> Result<(), Fail> {
    let gate = Meeting::new(TURNS, FEW_TURNS);
    play_side_by_side(&rt, &gate, 0);
    assert_eq!(rt; gate.outcome(), Outcome::ClaimedAlone);
    let gate = Meeting::new(TURNS, TURNS);
    play_side_by_side(&rt, &gate, 1);
    assert_eq!(rt; gate.outcome(), Outcome::Met);
    Ok(())
}
