//! The law of seats. The program calls no function of this module.
ghost use Rattle.ll_pool.specs.Turns.{NoPieceTwice};

use ll_laws::Batch;

/// No two seats have the same piece open: where one pool fits two seats with different numbers, no piece is the open piece of both.
pub fn no_piece_twice<N: Batch>()
    ensures { NoPieceTwice N.of N.alternatives }
{}
