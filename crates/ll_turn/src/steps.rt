//! The steps by which a pass takes the turn and gives it back. The word names the holder, and the slot holds the value.
ghost use Rattle.std.specs.Prelude.{◌≡◌, ◌<◌, ◌^◌, Some};
ghost use Rattle.ll_turn.specs.Steps.{HasWordAndSlot, IsResting, TakesOut, MayGive, Announces, PutsBack};

use crate::kept::Kept;
use crate::plays::{Announce, Free, Noting, Try};
use crate::table::{TurnSeat, TurnShared};
use std::hint::spin_loop;
use std::marker::Brand;
use std::snapshot::Snapshot;
use std::sync::Wait;
use std::thread::yield_now;

// The word, and the one slot of a turn.
const HOLDER: usize = 0;

const SLOT: usize = 0;

// So many misses spin before the next ones yield the processor.
const SPINNING_MISSES: u32 = 6;

// Leaves the processor to the holder: the first misses spin briefly, the later ones yield it.
fn back_off(misses: u32) {
    if misses >= SPINNING_MISSES {
        yield_now();
        return;
    }
    for _ in 0..1u32 << misses {
        spin_loop();
    }
}

// Tries to hold the turn until it does, and takes the value out of the slot.
pub(crate) fn take_out<S: Kept, R: Wait>(
    rt: &R,
    shared: &TurnShared<S>,
    seat: &mut TurnSeat<S>,
    number: u64,
) -> S
    requires table { (seat.old.table_id ≡ shared.now.table_id) × HasWordAndSlot shared.now.table_id }
    requires small { number < 2 ^ 32 }
    requires rests { IsResting S.numbers seat.old.me number }
    ensures table { (seat.new.table_id ≡ seat.old.table_id) × (seat.new.id ≡ seat.old.id) }
    ensures takes { TakesOut S.fit seat.old.me result seat.new.me }
{
    let mut misses = 0u32;
    for _ in rt.forever() {
        if shared.compare_exchange::<Try>(seat, HOLDER, 0, number + 1) == 0 {
            return shared.exchange(seat, SLOT, None).unwrap();
        }
        back_off(misses);
        misses = misses.saturating_add(1);
    }
    unreachable!()
}

// The holder stores its own number again, and notes the value that it is about to put back.
fn announce<S: Kept, N: Noting<S>>(
    shared: &TurnShared<S>,
    seat: &mut TurnSeat<S>,
    number: u64,
    noted: &Snapshot<S>,
)
    requires table { (seat.old.table_id ≡ shared.now.table_id) × HasWordAndSlot shared.now.table_id }
    requires small { number < 2 ^ 32 }
    requires noted { N.value ≡ Some noted.now.value }
    requires lawful { MayGive S.numbers S.lawful seat.old.me number noted.now.value }
    ensures table { (seat.new.table_id ≡ seat.old.table_id) × (seat.new.id ≡ seat.old.id) }
    ensures announces { Announces S.next seat.old.me noted.now.value seat.new.me }
{
    let _ = noted;
    shared.store::<Announce<N>>(seat, HOLDER, number + 1);
}

// Announces the value, puts it back into the slot and frees the word.
pub(crate) fn put_back<S: Kept>(
    shared: &TurnShared<S>,
    seat: &mut TurnSeat<S>,
    number: u64,
    value: S,
)
    requires table { (seat.old.table_id ≡ shared.now.table_id) × HasWordAndSlot shared.now.table_id }
    requires small { number < 2 ^ 32 }
    requires lawful { MayGive S.numbers S.lawful seat.old.me number value }
    ensures table { (seat.new.table_id ≡ seat.old.table_id) × (seat.new.id ≡ seat.old.id) }
    ensures puts { PutsBack S.fit S.next seat.old.me value seat.new.me }
{
    let noted = Snapshot::of(&value);
    announce::<S, Brand>(shared, seat, number, &noted);
    let empty = shared.exchange(seat, SLOT, Some(value));
    let None = empty else { unreachable!() };
    shared.store::<Free>(seat, HOLDER, 0);
}
