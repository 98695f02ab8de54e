//! A context as it stands, and its changes, each with what takes it back.
ghost use Rattle.std.specs.Prelude.{◌≡◌, ◌<◌, ◌≤◌, ◌^◌, ◌↔◌, ◌∷◌, true, [], length, drop, reverse, IfOk, IfSome, OnOk, OnErr, IsNone, is_some, Some, slice_get};
ghost use Rattle.std.specs.Prelude.{if◌then◌else◌};
ghost use Rattle.ll_laws.specs.Attempt.{is_linear};
ghost use Rattle.ll_laws.specs.Settle.{has_live};
ghost use Rattle.ll_resources.specs.Resources.{started};
ghost use Rattle.ll_resources.specs.Seen.{resource};
ghost use Rattle.ll_resources.specs.Keys.{found_by, to_come};
ghost use Rattle.ll_resources.specs.Raw.{raw, shown, uncovered, mark_slot, raw_picked, end_fails, Closes, raw_kept, raw_remarked, kept_under, block_later};
ghost use Rattle.ll_resources.specs.Raw.{is_younger, with_skips, Agrees, Joins, first_place};
ghost use Rattle.ll_resources.specs.Chains.{open_at, IsChained, IsNewestOpen, Loads, room_of, IsSound, HasNoLess};
ghost use Rattle.ll_resources.specs.Changes.{taken_back, before, without_last, AreSound, Leads};

use crate::Entry;
use crate::keyed::Keyed;
use crate::marks::{agree, keep_both, mark_at, mark_in, push_mark, put_marks, set_mark, slot_of};
use crate::saves::{Moment, Saves};
use crate::tops::{add_key, has_key, set_top, top_of};
use ll_bank::OutOfMemory;
use ll_laws::Kind;
use std::alloc::Global;

/// An entry without its live mark.
#[derive(Copy)]
pub(crate) struct Stored<C: Copy> {
    pub(crate) label: u32,
    pub(crate) kind: Kind,
    pub(crate) clause: C,
    /// Under which it was loaded. Those of the start have none.
    pub(crate) key: Option<u32>,
    /// The open entries of its key that are older come before this place, as long as no older marks are given back while it is there.
    pub(crate) past: usize,
    /// All entries of its key that are older come before this place.
    pub(crate) under: usize,
}

impl<C: Copy> Clone for Stored<C> {
    fn clone(&self) -> Result<Self, OutOfMemory> {
        Ok(*self)
    }
}

/// A context as it stands.
#[derive(Drop)]
pub(crate) struct State<C: Copy> {
    /// The oldest first, so that a place stays valid while its entry is there.
    pub(crate) entries: Vec<Stored<C>>,
    /// The live marks of the newest entries, the oldest of these first. The entries before them are not live.
    pub(crate) live: Vec<bool>,
    pub(crate) flag: bool,
    /// The label of the next entry.
    pub(crate) next: usize,
    pub(crate) saves: Saves,
    /// For each key, a place before which all its entries come.
    pub(crate) tops: Vec<usize>,
    /// What was spent when an entry was loaded is so as long as it is there.
    pub(crate) skips: bool,
}

/// A change of a context, with what taking it back needs.
#[derive(Copy)]
pub(crate) enum Change<C: Copy> {
    /// A clause came in front, under this label. The flag is that from before.
    Loaded {
        label: u32,
        flag: bool,
    },
    /// The front entry went, with its mark. The flag is that from before, and so is the place before which those of its key came.
    Closed {
        entry: Stored<C>,
        live: Option<bool>,
        flag: bool,
        top: usize,
    },
    /// The mark at this place was taken away.
    Picked {
        at: usize,
        live: bool,
    },
    /// The flag was set.
    Erased {
        flag: bool,
    },
    /// Live marks and flag were kept, the last of all that are.
    SavedMarks,
    /// All entries got other live marks. Those from before are the last block, from this place on.
    Remarked {
        from: usize,
        flag: bool,
        skips: bool,
    },
}

impl<C: Copy> Clone for Change<C> {
    fn clone(&self) -> Result<Self, OutOfMemory> {
        Ok(*self)
    }
}

impl<C: Copy> State<C> {
    /// The state in which a search over these clauses starts: the first is in front, with its place as label.
    pub(crate) fn start(alloc: Global, clauses: &[(Kind, C)]) -> Result<State<C>, OutOfMemory>
        requires { length clauses.now ≤ 2 ^ 32 }
        ensures state { IfOk result (λ state. shown (raw state) ≡ started clauses.now) }
        ensures kept { IfOk result (λ state. state.saves.kept.items ≡ []) }
    {
        let count = clauses.len();
        let mut entries = Vec::with_capacity(alloc, count)?;
        let mut live = Vec::new(alloc);
        for i in 0..count {
            let at = count - 1 - i;
            let given = clauses[at];
            let (kind, clause) = given;
            push_mark(&mut live, is_bounded(kind))?;
            entries.push(Stored {
                label: at as u32,
                kind,
                clause,
                key: None,
                past: 0,
                under: 0,
            })?;
        }
        Ok(State {
            entries,
            live,
            flag: false,
            next: count,
            saves: Saves::new(alloc),
            tops: Vec::new(alloc),
            skips: true,
        })
    }

    /// The entry at this place, the newest being 0.
    pub(crate) fn entry(&self, from_front: usize) -> Entry<C>
        requires { from_front < length self.now.entries.items }
        ensures { slice_get (shown (raw self.now)).entries from_front ≡ Some (resource result) }
    {
        let stored = self.entries[self.entries.len() - 1 - from_front];
        Entry {
            label: stored.label,
            kind: stored.kind,
            live: mark_at(self.live.as_slice(), from_front),
            clause: stored.clause,
        }
    }

    /// Loads a clause in front, under the next label and this key.
    pub(crate) fn load(&mut self, kind: Kind, clause: C, key: u32) -> Result<Change<C>, OutOfMemory>
        requires few { self.old.next < 2 ^ 32 }
        requires chained { IsChained (raw self.old) }
        ensures loaded { OnOk result (Loads kind clause key (raw self.old) (raw self.new)) }
        ensures leads { IfOk result (λ change. Leads change self.old self.new) }
        ensures refused { OnErr result (raw self.new ≡ raw self.old) }
        ensures room { HasNoLess self.old self.new }
    {
        self.entries.reserve(1)?;
        self.live.reserve(1)?;
        add_key(&mut self.tops, key)?;
        let flag = self.flag;
        let label = self.next as u32;
        let linear = is_bounded(kind);
        let under = top_of(self.tops.as_slice(), Some(key));
        let past = self.open_before(key, under);
        self.entries.push_reserved(Stored {
            label,
            kind,
            clause,
            key: Some(key),
            past,
            under,
        });
        self.live.push_reserved(linear);
        set_top(&mut self.tops, Some(key), self.entries.len());
        self.next += 1;
        self.flag = !linear && flag;
        Ok(Change::Loaded { label, flag })
    }

    /// The place behind the newest open entry of this key that comes before a place; 0 where there is none.
    pub(crate) fn open_before(&self, key: u32, from: usize) -> usize
        requires { IsChained (raw self.now) }
        ensures { IsNewestOpen (raw self.now) key from result }
    {
        let mut at = from.min(self.entries.len());
        while at > 0 {
            let stored = self.entries[at - 1];
            if has_key(stored.key, key) {
                if self.is_open(at - 1) {
                    return at;
                }
                at = self.older(stored).min(at - 1);
            } else {
                at -= 1;
            }
        }
        0
    }

    /// The place before which the open entries of its key come that are older than an entry.
    pub(crate) fn older(&self, stored: Stored<C>) -> usize
        ensures { result ≡ (if self.now.skips then stored.past else stored.under) }
    {
        if self.skips {
            stored.past
        } else {
            stored.under
        }
    }

    /// Whether the entry at this place, the oldest being 0, may be picked.
    fn is_open(&self, at: usize) -> bool
        requires { at < length self.now.entries.items }
        ensures { result ≡ open_at (raw self.now) at }
    {
        let from_front = self.entries.len() - 1 - at;
        !is_bounded(self.entries[at].kind) || mark_at(self.live.as_slice(), from_front)
    }

    /// The open entries of a key and those under key 0.
    pub(crate) fn keyed(&self, key: u32) -> Keyed
        requires { IsChained (raw self.now) }
        ensures { to_come result (shown (raw self.now)) ≡ found_by key (shown (raw self.now)) }
    {
        let tops = self.tops.as_slice();
        Keyed {
            key,
            own: top_of(tops, Some(key)),
            any: top_of(tops, Some(0)),
        }
    }

    /// The first of these, and those behind it.
    pub(crate) fn next_keyed(&self, keyed: Keyed) -> Option<(Entry<C>, Keyed)>
        requires { IsChained (raw self.now) }
        ensures none { IsNone result ↔ (to_come keyed (shown (raw self.now)) ≡ []) }
        ensures some { IfSome result (λ next.
            to_come keyed (shown (raw self.now)) ≡ resource next.0 ∷ to_come next.1 (shown (raw self.now))) }
    {
        let own = self.open_before(keyed.key, keyed.own);
        let any = self.open_before(0, keyed.any);
        let at = own.max(any).checked_sub(1)?;
        let older = self.older(self.entries[at]);
        let next = Keyed {
            key: keyed.key,
            own: if own > at { older.min(at) } else { own },
            any: if any > at { older.min(at) } else { any },
        };
        Some((self.entry(self.entries.len() - 1 - at), next))
    }

    /// Whether an entry is live.
    pub(crate) fn any_live(&self) -> bool
        ensures { result ≡ has_live (shown (raw self.now)).entries }
    {
        let count = self.live.len().min(self.entries.len());
        for from_front in 0..count {
            if mark_at(self.live.as_slice(), from_front) {
                return true;
            }
        }
        false
    }

    /// Uses the entry at this place, the newest being 0.
    pub(crate) fn pick(&mut self, from_front: usize) -> Change<C>
        ensures picked { raw self.new ≡ raw_picked (mark_slot (length self.old.live.items) from_front) (raw self.old) }
        ensures leads { Leads result self.old self.new }
    {
        let at = slot_of(self.live.len(), from_front);
        let live = mark_in(self.live.as_slice(), at);
        set_mark(&mut self.live, at, false);
        Change::Picked { at, live }
    }

    /// Sets the flag.
    pub(crate) fn erase(&mut self) -> Change<C>
        ensures erased { raw self.new ≡ record (raw self.old) { flag = true } }
        ensures leads { Leads result self.old self.new }
    {
        let flag = self.flag;
        self.flag = true;
        Change::Erased { flag }
    }

    /// The end of the goal for which the front entry was loaded. `None` where it fails.
    pub(crate) fn close(&mut self, saved: bool) -> Option<Change<C>>
        requires some { 0 < length self.old.entries.items }
        requires sound { IsSound (room_of self.old) (raw self.old) }
        ensures closes { IfSome result (λ _. Closes saved (raw self.old) (raw self.new)) }
        ensures leads { IfSome result (λ change. Leads change self.old self.new) }
        ensures fails { IsNone result → end_fails (raw self.old) ≡ true }
        ensures same { IsNone result → self.new ≡ self.old }
    {
        let entry = self.entries[self.entries.len() - 1];
        let flag = self.flag;
        let linear = is_bounded(entry.kind);
        if linear & mark_at(self.live.as_slice(), 0) & !flag {
            return None;
        }
        let top = top_of(self.tops.as_slice(), entry.key);
        set_top(&mut self.tops, entry.key, entry.under);
        self.entries.pop();
        let live = self.live.pop();
        self.flag = (linear & saved) | flag;
        Some(Change::Closed {
            entry,
            live,
            flag,
            top,
        })
    }

    /// Keeps the live marks and the flag, and clears the flag.
    pub(crate) fn save(&mut self) -> Result<Change<C>, OutOfMemory>
        ensures saved { OnOk result (raw self.new ≡ raw_kept self.old.live.items (raw self.old)) }
        ensures change { IfOk result (λ change. change ≡ Change.SavedMarks) }
        ensures leads { IfOk result (λ change. Leads change self.old self.new) }
        ensures room { HasNoLess self.old self.new }
        ensures refused { OnErr result (raw self.new ≡ raw self.old) }
    {
        let moment = Moment {
            count: self.entries.len(),
            next: self.next,
        };
        self.saves
            .keep(moment, self.live.as_slice(), self.flag, self.skips)?;
        self.flag = false;
        Ok(Change::SavedMarks)
    }

    /// Takes all live marks away.
    pub(crate) fn bang(&mut self) -> Result<Change<C>, OutOfMemory>
        ensures banged { OnOk result (raw self.new ≡ raw_remarked [] self.old.flag (raw self.old)) }
        ensures leads { IfOk result (λ change. Leads change self.old self.new) }
        ensures room { HasNoLess self.old self.new }
        ensures refused { OnErr result (raw self.new ≡ raw self.old) }
    {
        let from = self.saves.note(self.live.as_slice())?;
        self.live.clear();
        Ok(Change::Remarked {
            from,
            flag: self.flag,
            skips: self.skips,
        })
    }

    /// The end of `{}`, before which live marks and flag were kept under this number.
    pub(crate) fn bang_end(&mut self, number: usize) -> Result<Change<C>, OutOfMemory>
        requires { number < length self.old.saves.kept.items }
        ensures ended { OnOk result (raw self.new ≡ with_skips number (raw self.old)
            (raw_remarked (block_later number (raw self.old)) (kept_under number (raw self.old)).flag (raw self.old))) }
        ensures leads { IfOk result (λ change. Leads change self.old self.new) }
        ensures room { HasNoLess self.old self.new }
        ensures refused { OnErr result (raw self.new ≡ raw self.old) }
    {
        self.live.reserve(self.saves.size(number))?;
        let from = self.saves.note(self.live.as_slice())?;
        put_marks(&mut self.live, self.saves.live(number));
        let flag = self.flag;
        self.flag = self.saves.flag(number);
        let skips = self.skips;
        self.skips = skips && self.is_younger(number);
        Ok(Change::Remarked { from, flag, skips })
    }

    /// What was kept under this number was kept while all of these entries were there.
    fn is_younger(&self, number: usize) -> bool
        requires { number < length self.now.saves.kept.items }
        ensures { result ≡ is_younger number (raw self.now) }
    {
        let moment = self.saves.moment(number);
        let count = self.entries.len();
        count == 0
            || (moment.count == count && (self.entries[count - 1].label as usize) < moment.next)
    }

    /// The middle of `&`, before which live marks and flag were kept under this number.
    pub(crate) fn with_mid(&mut self, number: usize) -> Result<Change<C>, OutOfMemory>
        requires { number < length self.old.saves.kept.items }
        ensures middle { OnOk result (raw self.new
            ≡ with_skips number (raw self.old) (raw_kept (block_later number (raw self.old)) (raw self.old))) }
        ensures change { IfOk result (λ change. change ≡ Change.SavedMarks) }
        ensures leads { IfOk result (λ change. Leads change self.old self.new) }
        ensures room { HasNoLess self.old self.new }
        ensures refused { OnErr result (raw self.new ≡ raw self.old) }
    {
        self.live.reserve(self.saves.size(number))?;
        let skips = self.skips && self.is_younger(number);
        let change = self.save()?;
        put_marks(&mut self.live, self.saves.live(number));
        self.skips = skips;
        Ok(change)
    }

    /// The end of `&`: live marks and flag were kept before it and by its middle under these numbers. `None` where it fails.
    pub(crate) fn with_end(
        &mut self,
        number: usize,
        half: usize,
    ) -> Result<Option<Change<C>>, OutOfMemory>
        requires saved { number < length self.old.saves.kept.items }
        requires half { half < length self.old.saves.kept.items }
        ensures joins { IfOk result (λ done. IfSome done (λ _. Joins number half (raw self.old) (raw self.new))) }
        ensures agrees { IfOk result (λ done. Agrees half (raw self.old) (is_some done)) }
        ensures leads { IfOk result (λ done. IfSome done (λ change. Leads change self.old self.new)) }
        ensures same { IfOk result (λ done. IsNone done → self.new ≡ self.old) }
        ensures room { HasNoLess self.old self.new }
        ensures refused { OnErr result (raw self.new ≡ raw self.old) }
    {
        let first_flag = self.saves.flag(half);
        let flag = self.flag;
        let count = self.entries.len();
        let first = self.saves.live(half);
        if !agree(count, first, first_flag, self.live.as_slice(), flag) {
            return Ok(None);
        }
        let from = self.saves.note(self.live.as_slice())?;
        keep_both(self.saves.live(half), &mut self.live);
        self.flag = self.saves.flag(number) || (first_flag && flag);
        Ok(Some(Change::Remarked {
            from,
            flag,
            skips: self.skips,
        }))
    }

    /// Takes back all but the first `from` of changes that were made one after another.
    pub(crate) fn take_back(&mut self, changes: &[Change<C>], from: usize)
        requires from { from ≤ length changes.now }
        requires sound { AreSound changes.now (raw self.old) (room_of self.old) }
        ensures state { raw self.new ≡ before (drop from changes.now) (raw self.old) }
        ensures room { HasNoLess self.old self.new }
    {
        let mut at = changes.len();
        while at > from {
            at -= 1;
            self.take_one_back(changes[at]);
        }
    }

    /// Takes one change back.
    fn take_one_back(&mut self, change: Change<C>)
        requires sound { IsSound (room_of self.old) (taken_back change (raw self.old)) }
        requires now { IsSound (room_of self.old) (raw self.old) }
        ensures state { raw self.new ≡ taken_back change (raw self.old) }
        ensures room { HasNoLess self.old self.new }
    {
        match change {
            Change::Loaded { label, flag } => {
                self.uncover();
                self.live.pop();
                self.next = label as usize;
                self.flag = flag;
            }
            Change::Closed {
                entry,
                live,
                flag,
                top,
            } => {
                self.entries.push_reserved(entry);
                set_top(&mut self.tops, entry.key, top);
                if let Some(mark) = live {
                    self.live.push_reserved(mark);
                }
                self.flag = flag;
            }
            Change::Picked { at, live } => set_mark(&mut self.live, at, live),
            Change::Erased { flag } => self.flag = flag,
            Change::SavedMarks => self.forget_last(),
            Change::Remarked { from, flag, skips } => {
                put_marks(&mut self.live, self.saves.from(from));
                self.saves.cut(from);
                self.flag = flag;
                self.skips = skips;
            }
        }
    }

    /// Lets the newest entry go, without its mark.
    fn uncover(&mut self)
        requires { IsSound (room_of self.old) (raw self.old) }
        ensures state { raw self.new ≡ uncovered (raw self.old) }
        ensures room { HasNoLess self.old self.new }
    {
        if let Some(entry) = self.entries.pop() {
            set_top(&mut self.tops, entry.key, entry.under);
        }
    }

    /// Gives back what was kept last, and lets go of it.
    fn forget_last(&mut self)
        requires { IsSound (room_of self.old) (without_last (length self.old.saves.kept.items) (raw self.old)) }
        ensures state { raw self.new ≡ without_last (length self.old.saves.kept.items) (raw self.old) }
        ensures room { HasNoLess self.old self.new }
    {
        if let Some(last) = self.saves.len().checked_sub(1) {
            put_marks(&mut self.live, self.saves.live(last));
            self.flag = self.saves.flag(last);
            self.skips = self.saves.skips(last);
            self.saves.forget(last);
        }
    }

    /// A copy, with room for as many entries.
    pub(crate) fn copy(&self) -> Result<State<C>, OutOfMemory>
        ensures state { IfOk result (λ copy. raw copy ≡ raw self.now) }
        ensures room { IfOk result (λ copy. HasNoLess self.now copy) }
    {
        let alloc = *self.entries.allocator();
        let mut entries = Vec::with_capacity(alloc, self.entries.capacity())?;
        entries.extend_from_slice(self.entries.as_slice())?;
        let mut live = Vec::with_capacity(alloc, self.live.capacity())?;
        live.extend_from_slice(self.live.as_slice())?;
        let saves = self.saves.copy()?;
        let tops = Vec::from_slice(alloc, self.tops.as_slice())?;
        Ok(State {
            entries,
            live,
            flag: self.flag,
            next: self.next,
            saves,
            tops,
            skips: self.skips,
        })
    }
}

/// It is a linear one.
fn is_bounded(kind: Kind) -> bool
    ensures { result ≡ is_linear kind }
{
    kind == Kind::Linear
}

/// The place of the first entry with this label, the newest being 0, or their number if there is none.
pub(crate) fn place_of<C: Copy>(entries: &[Stored<C>], label: u32) -> usize
    ensures { result ≡ first_place label (reverse entries.now) }
{
    for i in 0..entries.len() {
        let entry = entries[entries.len() - 1 - i];
        if entry.label == label {
            return i;
        }
    }
    entries.len()
}
