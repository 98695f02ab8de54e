//! What a bell answers: how often it was heard, and whom it woke.
ghost use Rattle.std.specs.Prelude.{◌≡◌};

use ll_laws::Batch;
use ll_pool::Seat;
use std::marker::Model;
use std::snapshot::Snapshot;

/// How often a bell had rung when a worker asked. Contracts see how many turns the worker's seat had taken by then.
#[derive(Drop)]
pub struct Heard<N: Batch> {
    rings: u64,
    seat: Snapshot<Seat<N>>,
}

impl<N: Batch> Model for Heard<N> {
    ghost use Rattle.std.specs.Prelude.{ℕ};

    ghost Value = { ℕ };

    ghost view = { λ heard. heard.seat.value.mine.turns };
}

impl<N: Batch> Heard<N> {
    /// So many rings, heard by the worker of a seat.
    pub(crate) fn by(seat: &Seat<N>, rings: u64) -> Heard<N>
        ensures { result ≡ seat.now.mine.turns }
    {
        Heard {
            rings,
            seat: Snapshot::of(seat),
        }
    }

    /// How often the bell had rung.
    pub(crate) fn rings(&self) -> u64 {
        self.rings
    }
}

/// That a bell rang for the worker that leads and for some others. Contracts see for how many others.
#[derive(Drop)]
pub struct Woken {
    others: u32,
}

impl Model for Woken {
    ghost use Rattle.std.specs.Prelude.{ℕ};

    ghost Value = { ℕ };

    ghost view = { λ woken. woken.others };
}

impl Woken {
    /// So many others.
    pub(crate) fn of(others: u32) -> Woken
        ensures { result ≡ others }
    {
        Woken { others }
    }
}

/// That a bell rang for all workers. Contracts see how many turns the seat of the worker that rang it had taken by then.
#[derive(Drop)]
pub struct AllWoken<N: Batch> {
    seat: Snapshot<Seat<N>>,
}

impl<N: Batch> Model for AllWoken<N> {
    ghost use Rattle.std.specs.Prelude.{ℕ};

    ghost Value = { ℕ };

    ghost view = { λ woken. woken.seat.value.mine.turns };
}

impl<N: Batch> AllWoken<N> {
    /// All workers, woken by the worker of a seat.
    pub(crate) fn by(seat: &Seat<N>) -> AllWoken<N>
        ensures { result ≡ seat.now.mine.turns }
    {
        AllWoken {
            seat: Snapshot::of(seat),
        }
    }
}
