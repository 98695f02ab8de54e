//! Where a worker waits that finds nothing to claim.
ghost use Rattle.std.specs.Prelude.{◌≡◌, ◌<◌};

use crate::heard::{AllWoken, Heard, Woken};
use ll_laws::Batch;
use ll_pool::Seat;
use std::marker::Model;
use std::sync::{Condvar, Mutex, Wait};
use std::thread;

/// Counts how often something happened to the pool for which a worker may wait, and wakes those that do.
///
/// A worker that asks `heard` before it claims, and then waits for more, misses nothing that happened after its claim. Contracts see nothing
/// of the bell itself: what was heard and who was woken is seen by its answers.
#[derive(Drop)]
pub struct Bell {
    // No worker rings it, and none waits.
    silent: bool,
    rings: Mutex<u64>,
    helpers: Condvar,
    leader: Condvar,
}

impl Model for Bell {
    ghost Value = { Unit {0} };

    ghost view = { λ _. tt };
}

impl Bell {
    /// A bell that all workers of a pool have.
    pub fn new() -> Bell {
        Bell::that_is(false)
    }

    /// A bell for a worker that has it alone: it never rings, and nobody waits for it.
    pub fn silent() -> Bell {
        Bell::that_is(true)
    }

    fn that_is(silent: bool) -> Bell {
        Bell {
            silent,
            rings: Mutex::new(0),
            helpers: Condvar::new(),
            leader: Condvar::new(),
        }
    }

    /// How often it has rung.
    pub fn heard<R: Wait, N: Batch>(&self, rt: &R, seat: &Seat<N>) -> Heard<N>
        ensures { result ≡ seat.now.mine.turns }
    {
        if self.silent {
            return Heard::by(seat, 0);
        }
        let rings = *self.rings.lock(rt);
        Heard::by(seat, rings)
    }

    /// Waits until it has rung since it was heard. The seat has taken a turn since then.
    pub fn wait<R: Wait, N: Batch>(&self, rt: &R, leads: bool, heard: Heard<N>, seat: &Seat<N>)
        requires { heard < seat.now.mine.turns }
    {
        if self.silent {
            thread::yield_now();
            return;
        }
        let _seat = seat;
        let heard = heard.rings();
        let rings = self.rings.lock(rt);
        let waiting = if leads { &self.leader } else { &self.helpers };
        let _rings = waiting.wait_while(rt, rings, |rings| *rings == heard);
    }

    /// Wakes the worker that leads, and so many others.
    pub fn ring<R: Wait>(&self, rt: &R, others: u32) -> Woken
        ensures { result ≡ others }
    {
        if self.silent {
            return Woken::of(others);
        }
        self.count(rt);
        self.leader.notify_one();
        for _other in 0..others {
            self.helpers.notify_one();
        }
        Woken::of(others)
    }

    /// Wakes all workers.
    pub fn ring_all<R: Wait, N: Batch>(&self, rt: &R, seat: &Seat<N>) -> AllWoken<N>
        ensures { result ≡ seat.now.mine.turns }
    {
        if self.silent {
            return AllWoken::by(seat);
        }
        self.count(rt);
        self.leader.notify_one();
        self.helpers.notify_all();
        AllWoken::by(seat)
    }

    fn count<R: Wait>(&self, rt: &R) {
        let mut rings = self.rings.lock(rt);
        *rings = rings.wrapping_add(1);
    }
}
