//! What the seats of a pool agree on.
use crate::data::{PoolProblem, SeatData, TurnPool};
use ll_laws::Batch;
use ll_turn::Kept;

impl<N: Batch> Kept for TurnPool<N> {
    type Problem = Option<PoolProblem<N::Of>>;

    type Mine = SeatData<N>;

    ghost use Rattle.ll_pool.specs.Fits.{numbers_of, first_seat, SeatFits, ChangesLawfully, after_change, parts};
    ghost use Rattle.ll_pool.specs.Fitting.{begins_first, keeps_numbers, parts_numbers, change_fits, parts_fit};

    ghost numbers = { numbers_of };

    ghost begin = { λ value. first_seat N.of N.alternatives value };

    ghost fit = { λ value. SeatFits N.of N.alternatives value };

    ghost lawful = { λ problem before mine after. ChangesLawfully N.of N.alternatives before mine after };

    ghost next = { λ problem before mine after. after_change N.alternatives before mine after };

    ghost parted = { parts };

    ghost begins_first = { λ value. begins_first N.of N.alternatives value };

    ghost keeps_numbers = { λ problem before mine after. keeps_numbers N.alternatives problem before mine after };

    ghost parts_numbers = { parts_numbers };

    ghost change_fits = { λ problem before mine after. change_fits N.of N.alternatives problem before mine after };

    ghost parts_fit = { λ problem value mine. parts_fit N.of N.alternatives problem value mine };
}
