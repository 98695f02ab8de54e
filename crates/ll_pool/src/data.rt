//! The pool as a turn keeps it, and what its seats know.
use ll_core::Pool;
use ll_laws::{Batch, Event, Report};
use std::marker::{Model, PhantomData};

/// The pool that seats take turns with. Contracts see the pool.
#[derive(Drop)]
pub struct TurnPool<N: Batch> {
    pub pool: Pool<N>,
}

impl<N: Batch> Model for TurnPool<N> {
    ghost use Rattle.ll_laws.specs.Pool.{PoolData};
    ghost use Rattle.ll_laws.specs.PoolCodes.{pool_code};
    ghost use Rattle.ll_laws.specs.declared.Event.{Event};
    ghost use Rattle.ll_laws.specs.contracts.Event as event;

    ghost Value = { PoolData N Event };

    ghost coded = { pool_code event.the_row.coded N.code };

    ghost view = { λ t. t.pool };
}

/// A pool as a seat has seen it, whatever stands for its events. It lives in contracts alone.
pub struct SeenPool<N> {
    pub of: PhantomData<N>,
}

impl<N> Model for SeenPool<N> {
    ghost use Rattle.ll_laws.specs.Pool.{PoolData};
    ghost use Rattle.ll_laws.specs.PoolCodes.{pool_code};
    ghost use Rattle.ll_laws.specs.declared.Event.{Event};
    ghost use Rattle.ll_laws.specs.contracts.Event as event;
    ghost use Rattle.ll_pool.specs.Seen.{no_pool};

    ghost Value = { PoolData N Event };

    ghost coded = { pool_code event.the_row.coded N.code };

    ghost view = { λ seen. no_pool };
}

/// What a whole pool is of, and what its root owes. It lives in contracts alone: no value of it is made.
pub struct PoolProblem<Of> {
    pub of: Of,
    pub owes: Report<Event>,
}

/// An open piece: its number, and what it owes. It lives in contracts alone.
pub struct OpenPiece {
    pub number: u64,
    pub owes: Report<Event>,
}

/// What a seat knows. It lives in contracts alone.
pub struct SeatData<N> {
    /// The number of its worker.
    pub worker: u64,
    /// The numbers that it has still to give begin here,
    pub from: u64,
    /// and end before this one.
    pub end: u64,
    /// Its open piece.
    pub piece: Option<OpenPiece>,
    /// The pool as the seat last left it, or with which it was made.
    pub seen: SeenPool<N>,
    /// How often it has taken the turn.
    pub turns: u64,
    /// Whether it has starved or stopped the pool.
    pub quit: bool,
}
