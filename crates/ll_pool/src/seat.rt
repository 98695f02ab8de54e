//! A worker's seat.
ghost use Rattle.std.specs.Prelude.{◌≡◌};

use crate::data::TurnPool;
use ll_laws::Batch;
use ll_turn::Pass;
use std::marker::Model;

/// A worker's right to take turns with a shared pool.
///
/// Contracts see its pool (`table`), what the pool is of (`problem`), what it knows (`mine`: its worker, the numbers that it has to
/// give, its open piece with what this owes, the pool as it last left it, the number of its turns, and whether it has starved or
/// stopped the pool), and the numbers of the seats that were made from it and not joined to it yet (`given`). It holds no turn.
///
/// A seat that is dropped is never joined, and its pool is then never closed.
#[derive(Drop)]
pub struct Seat<N: Batch> {
    pub(crate) pass: Pass<TurnPool<N>>,
    pub(crate) worker: u32,
    // The number of its open piece.
    pub(crate) piece: Option<u32>,
}

impl<N: Batch> Model for Seat<N> {
    ghost use Rattle.std.specs.Prelude.{◌≡◌, None, option_map};
    ghost use Rattle.ll_pool.specs.Turns.{SeatSight};
    ghost use Rattle.ll_pool.specs.Fits.{number_of};
    ghost use Rattle.ll_pool.specs.Codes.{seat_code};
    ghost use Rattle.ll_laws.specs.contracts.Event as event;

    ghost Value = { SeatSight N N.Of };

    ghost coded = { seat_code event.the_row.coded N.code N.Of.code };

    ghost view = { λ s. s.pass };

    ghost invariant = { λ s. (s.pass.before ≡ None) × (s.pass.mine.worker ≡ s.worker) × (option_map number_of s.pass.mine.piece ≡ s.piece) };
}

impl<N: Batch> Seat<N> {
    /// The number of its worker.
    pub fn worker(&self) -> u32
        ensures { result ≡ self.now.mine.worker }
    {
        self.worker
    }
}
