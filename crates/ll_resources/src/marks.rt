//! Live marks as they are stored, the oldest first, and what both sides of `&` leave.
//!
//! Two lists of marks belong to the same entries by their ends: the newest entry has the last mark of each. Where one begins
//! later than the other, what comes before it is not live.
ghost use Rattle.std.specs.Prelude.{◌≡◌, ℕ, ◌≤◌, ◌||◌, ◌&&◌, false, length, reverse, slice_index_or, slice_set, OnOk};
ghost use Rattle.std.specs.Vec.{vec_capacity};
ghost use Rattle.ll_laws.specs.Settle.{within, both_live, join_by, kept_if};
ghost use Rattle.ll_resources.specs.Seen.{filled};
ghost use Rattle.ll_resources.specs.Raw.{mark_slot, HasOneMore};

use ll_bank::OutOfMemory;

/// Puts other marks in place of these, for which there is room.
pub(crate) fn put_marks(live: &mut Vec<bool>, others: &[bool])
    requires { length others.now ≤ vec_capacity live.old }
    ensures marks { live.new.items ≡ others.now }
    ensures room { vec_capacity live.old ≤ vec_capacity live.new }
{
    live.clear();
    let _ = live.extend_from_slice(others);
}

/// The place among so many marks of the one that is this far from the newest, or their number if there is none.
pub(crate) fn slot_of(count: usize, from_front: usize) -> usize
    ensures { result ≡ mark_slot count from_front }
{
    if from_front < count {
        count - 1 - from_front
    } else {
        count
    }
}

/// Changes the mark at this place, if there is one.
pub(crate) fn set_mark(live: &mut Vec<bool>, at: usize, mark: bool)
    ensures mark { live.new.items ≡ slice_set live.old.items at mark }
    ensures room { vec_capacity live.new ≡ vec_capacity live.old }
{
    if at < live.len() {
        live[at] = mark;
    }
}

/// The mark at this place, if there is one and it is set.
pub(crate) fn mark_in(live: &[bool], at: usize) -> bool
    ensures { result ≡ slice_index_or live.now at false }
{
    if at < live.len() { live[at] } else { false }
}

/// One more entry has this mark. The oldest entries need no marks up to the first that is live.
pub(crate) fn push_mark(live: &mut Vec<bool>, mark: bool) -> Result<(), OutOfMemory>
    ensures { OnOk result (HasOneMore live.old.items mark live.new.items) }
{
    if mark || !live.is_empty() {
        live.push(mark)?;
    }
    Ok(())
}

/// Whether the entry at this place, the newest being 0, has a mark that is set.
pub(crate) fn mark_at(live: &[bool], from_front: usize) -> bool
    ensures { result ≡ slice_index_or (reverse live.now) from_front false }
{
    if from_front < live.len() {
        live[live.len() - 1 - from_front]
    } else {
        false
    }
}

/// Each of so many entries that is live in the first marks is live in the second.
fn is_within(count: usize, first: &[bool], second: &[bool]) -> bool
    ensures { result ≡ within (filled count (reverse first.now)) (filled count (reverse second.now)) }
{
    for i in 0..first.len().min(count) {
        let one = mark_at(first, i);
        let other = mark_at(second, i);
        if one & !other {
            return false;
        }
    }
    true
}

/// Leaves of the second marks what is live in both.
pub(crate) fn keep_both(first: &[bool], second: &mut Vec<bool>)
    ensures both { (n : ℕ) → filled n (reverse second.new.items)
        ≡ both_live (filled n (reverse first.now)) (filled n (reverse second.old.items)) }
    ensures room { vec_capacity second.new ≡ vec_capacity second.old }
{
    let count = second.len();
    for i in 0..count {
        let one = mark_at(first, count - 1 - i);
        let other = mark_in(second.as_slice(), i);
        set_mark(second, i, other & one);
    }
}

/// Whether both sides of `&` agree on what they leave of so many entries.
///
/// A side without its flag has left nothing that the other one has used, so what is given is always what is live in both.
pub(crate) fn agree(
    count: usize,
    first: &[bool],
    first_flag: bool,
    second: &[bool],
    second_flag: bool,
) -> bool
    ensures { let a = filled count (reverse first.now) in let b = filled count (reverse second.now) in
        join_by first_flag second_flag a b ≡ kept_if result (both_live a b) (first_flag && second_flag) }
{
    let forth = first_flag || is_within(count, first, second);
    let back = second_flag || is_within(count, second, first);
    forth & back
}
