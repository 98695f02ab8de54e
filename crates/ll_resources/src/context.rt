//! Contexts, and what each call makes of one.
ghost use Rattle.std.specs.Prelude.{◌≡◌, ◌<◌, ◌≤◌, ◌^◌, ◌↔◌, [], ◌∷◌, IsNone, IfSome, Some, length, slice_get, IfOk, OnOk, OnErr};
ghost use Rattle.ll_resources.specs.Resources.{saved_as, saved_at, saved_now, KeepsSaved, SettlesMiddle, started, after_load, CanPick, after_pick};
ghost use Rattle.ll_resources.specs.Resources.{after_load_keyed};
ghost use Rattle.ll_resources.specs.Resources.{after_erase, load_end, after_save, after_bang, SavedFits, settled, bang_end, after_with_mid, with_end};
ghost use Rattle.ll_resources.specs.History.{begun, HasMark, state_at, KeepsMarks, KeepsMarksTo, IsLastMark, Settles};
ghost use Rattle.ll_resources.specs.Places.{label_place};
ghost use Rattle.ll_resources.specs.Seen.{resource};
ghost use Rattle.ll_resources.specs.Keys.{found_by, to_come};
ghost use Rattle.ll_laws.specs.Settle.{has_live};

use crate::Entry;
use crate::keyed::Keyed;
use crate::state::{Change, State, place_of};
use ll_bank::OutOfMemory;
use ll_laws::Kind;
use std::alloc::Global;
use std::marker::Model;

/// The resources that a goal may use. Contracts see the context as it stands, which is the entries, the newest in front, the
/// flag, the next label, and the live marks and flags that were kept so far; and the states from which it came, which its marks
/// stand for.
///
/// Each good mark stays good, with its state, after every call but `undo`, and a [`Saved`] means the same for as long as it is
/// kept. After `OutOfMemory` a context is as before.
pub struct Context<C: Copy> {
    state: State<C>,
    // All since the context was made.
    changes: Vec<Change<C>>,
}

// Written out, so that a proof sees one call where it goes, and not one for each part.
impl<C: Copy> Drop for Context<C> {
    fn drop(self) {
        let Context {
            state: _,
            changes: _,
        } = self;
    }
}

impl<C: Copy> Model for Context<C> {
    ghost use Rattle.ll_resources.specs.History.{History};

    ghost Value = { History C };

    ghost use Rattle.ll_resources.specs.Raw.{raw};
    ghost use Rattle.ll_resources.specs.Chains.{room_of};
    ghost use Rattle.ll_resources.specs.Changes.{history, AreSound};

    ghost view = { λ a. history a.changes.items (raw a.state) };

    ghost invariant = { λ a. AreSound a.changes.items (raw a.state) (room_of a.state) };
}

/// The live marks and the flag that a context has kept. Contracts see their place among all that it has kept.
#[derive(Clone, Copy)]
pub struct Saved {
    number: usize,
}

/// A state of a context, for [`Context::undo`] and [`Context::image`]. Contracts see after how many changes it was.
#[derive(Clone, Copy)]
pub struct ContextMark {
    changes: usize,
}

impl<C: Copy> Context<C> {
    /// The context in which a search over these clauses starts: the first in front, with its place as label. Linear ones are live.
    pub fn start(alloc: Global, clauses: &[(Kind, C)]) -> Result<Context<C>, OutOfMemory>
        requires { length clauses.now ≤ 2 ^ 32 }
        ensures { IfOk result (λ context. context ≡ begun (started clauses.now)) }
    {
        let state = State::start(alloc, clauses)?;
        Ok(Context {
            state,
            changes: Vec::new(alloc),
        })
    }

    /// The number of entries.
    pub fn len(&self) -> usize
        ensures { result ≡ length self.now.present.entries }
    {
        self.state.entries.len()
    }

    /// An entry by its place, the newest being 0.
    pub fn entry(&self, from_front: usize) -> Entry<C>
        requires { from_front < length self.now.present.entries }
        ensures { slice_get self.now.present.entries from_front ≡ Some (resource result) }
    {
        self.state.entry(from_front)
    }

    /// Whether an `erase` may still take what is left.
    pub fn flag(&self) -> bool
        ensures { result ≡ self.now.present.flag }
    {
        self.state.flag
    }

    /// Loads a clause in front. The answer is its label. A linear one clears the flag.
    pub fn load(&mut self, kind: Kind, clause: C) -> Result<u32, OutOfMemory>
        requires { self.old.present.next < 2 ^ 32 }
        ensures label { IfOk result (λ label. label ≡ self.old.present.next) }
        ensures loaded { OnOk result (self.new.present ≡ after_load kind clause self.old.present) }
        ensures marks { KeepsMarks self.old self.new }
        ensures refused { OnErr result (self.new ≡ self.old) }
    {
        self.load_keyed(kind, clause, 0)
    }

    /// Loads a clause in front, as `load` does, under a key. Under key 0 it is found by all keys.
    pub fn load_keyed(&mut self, kind: Kind, clause: C, key: u32) -> Result<u32, OutOfMemory>
        requires { self.old.present.next < 2 ^ 32 }
        ensures label { IfOk result (λ label. label ≡ self.old.present.next) }
        ensures loaded { OnOk result (self.new.present ≡ after_load_keyed kind clause key self.old.present) }
        ensures marks { KeepsMarks self.old self.new }
        ensures refused { OnErr result (self.new ≡ self.old) }
    {
        self.changes.reserve(1)?;
        let label = self.state.next as u32;
        let change = self.state.load(kind, clause, key)?;
        self.changes.push_reserved(change);
        Ok(label)
    }

    /// The open entries that were loaded under a key or under key 0, the newest first.
    ///
    /// Entries that were spent when a newer one of their key was loaded are passed together with it.
    pub fn keyed(&self, key: u32) -> Keyed
        ensures { to_come result self.now.present ≡ found_by key self.now.present }
    {
        self.state.keyed(key)
    }

    /// The first of these entries, and those behind it. `None` exactly where none is left.
    pub fn next_keyed(&self, keyed: Keyed) -> Option<(Entry<C>, Keyed)>
        ensures none { IsNone result ↔ (to_come keyed self.now.present ≡ []) }
        ensures some { IfSome result (λ next. to_come keyed self.now.present
            ≡ resource next.0 ∷ to_come next.1 self.now.present) }
    {
        self.state.next_keyed(keyed)
    }

    /// Whether an entry is live.
    pub fn any_live(&self) -> bool
        ensures { result ≡ has_live self.now.present.entries }
    {
        self.state.any_live()
    }

    /// Uses the entry with this label, which is unbounded or live: a linear one loses its live mark.
    pub fn pick(&mut self, label: u32) -> Result<(), OutOfMemory>
        requires { CanPick label self.old.present }
        ensures picked { OnOk result (self.new.present ≡ after_pick label self.old.present) }
        ensures marks { KeepsMarks self.old self.new }
        ensures refused { OnErr result (self.new ≡ self.old) }
    {
        self.changes.reserve(1)?;
        let from_front = place_of(self.state.entries.as_slice(), label);
        let change = self.state.pick(from_front);
        self.changes.push_reserved(change);
        Ok(())
    }

    /// Uses the entry with this label, as `pick` does, at its place, the newest being 0. It takes constant time.
    pub fn pick_at(&mut self, label: u32, from_front: usize) -> Result<(), OutOfMemory>
        requires can { CanPick label self.old.present }
        requires place { from_front ≡ label_place label self.old.present.entries }
        ensures picked { OnOk result (self.new.present ≡ after_pick label self.old.present) }
        ensures marks { KeepsMarks self.old self.new }
        ensures refused { OnErr result (self.new ≡ self.old) }
    {
        let _label = label;
        self.changes.reserve(1)?;
        let change = self.state.pick(from_front);
        self.changes.push_reserved(change);
        Ok(())
    }

    /// Sets the flag.
    pub fn erase(&mut self) -> Result<(), OutOfMemory>
        ensures erased { OnOk result (self.new.present ≡ after_erase self.old.present) }
        ensures marks { KeepsMarks self.old self.new }
        ensures refused { OnErr result (self.new ≡ self.old) }
    {
        self.changes.reserve(1)?;
        let change = self.state.erase();
        self.changes.push_reserved(change);
        Ok(())
    }

    /// The end of the goal for which the front entry was loaded. For a linear one `saved` is the flag from before it was
    /// loaded, and the answer is `false` where it is live and the flag is clear: the context is then as before.
    pub fn close(&mut self, saved: bool) -> Result<bool, OutOfMemory>
        requires { 0 < length self.old.present.entries }
        ensures settles { IfOk result
            (λ done. Settles (load_end saved self.old.present.entries) self.old self.new done) }
        ensures marks { KeepsMarks self.old self.new }
        ensures refused { OnErr result (self.new ≡ self.old) }
    {
        self.changes.reserve(1)?;
        let Some(change) = self.state.close(saved) else {
            return Ok(false);
        };
        self.changes.push_reserved(change);
        Ok(true)
    }

    /// Keeps the live marks and the flag, and clears the flag.
    pub fn save(&mut self) -> Result<Saved, OutOfMemory>
        ensures number { IfOk result (λ saved. saved ≡ saved_as (length self.old.present.kept)) }
        ensures kept { IfOk result (λ saved. saved_at self.new.present.kept saved ≡ saved_now self.old.present) }
        ensures same { KeepsSaved (length self.old.present.kept) self.old.present self.new.present }
        ensures saved { OnOk result (self.new.present ≡ after_save self.old.present) }
        ensures marks { KeepsMarks self.old self.new }
        ensures refused { OnErr result (self.new ≡ self.old) }
    {
        self.changes.reserve(1)?;
        let number = self.state.saves.len();
        let change = self.state.save()?;
        self.changes.push_reserved(change);
        Ok(Saved { number })
    }

    /// Takes all live marks away.
    pub fn bang(&mut self) -> Result<(), OutOfMemory>
        ensures banged { OnOk result (self.new.present ≡ after_bang self.old.present) }
        ensures marks { KeepsMarks self.old self.new }
        ensures refused { OnErr result (self.new ≡ self.old) }
    {
        self.changes.reserve(1)?;
        let change = self.state.bang()?;
        self.changes.push_reserved(change);
        Ok(())
    }

    /// The end of `{}`: the live marks and the flag from before it, which `saved` kept, are given back.
    pub fn bang_end(&mut self, saved: Saved) -> Result<(), OutOfMemory>
        requires { SavedFits saved self.old.present }
        ensures settles { OnOk result (settled (bang_end self.old.present.kept saved) self.old.present
            ≡ Some self.new.present) }
        ensures marks { KeepsMarks self.old self.new }
        ensures refused { OnErr result (self.new ≡ self.old) }
    {
        self.changes.reserve(1)?;
        let change = self.state.bang_end(saved.number)?;
        self.changes.push_reserved(change);
        Ok(())
    }

    /// The middle of `&`: the live marks from before it, which `saved` kept, are given back, and the flag is cleared. The answer
    /// keeps the marks and the flag that the first side left.
    pub fn with_mid(&mut self, saved: Saved) -> Result<Saved, OutOfMemory>
        requires { SavedFits saved self.old.present }
        ensures number { IfOk result (λ half. half ≡ saved_as (length self.old.present.kept)) }
        ensures settles { IfOk result (λ half. SettlesMiddle (saved_at self.old.present.kept saved)
            (saved_at self.new.present.kept half) self.old.present self.new.present) }
        ensures same { KeepsSaved (length self.old.present.kept) self.old.present self.new.present }
        ensures middle { OnOk result (self.new.present ≡ after_with_mid saved self.old.present) }
        ensures marks { KeepsMarks self.old self.new }
        ensures refused { OnErr result (self.new ≡ self.old) }
    {
        self.changes.reserve(1)?;
        let number = self.state.saves.len();
        let change = self.state.with_mid(saved.number)?;
        self.changes.push_reserved(change);
        Ok(Saved { number })
    }

    /// The end of `&`: `saved` was kept before it, and `half` by its middle. `false` where the two sides can't agree on what is
    /// left: the context is then as before.
    pub fn with_end(&mut self, saved: Saved, half: Saved) -> Result<bool, OutOfMemory>
        requires saved { SavedFits saved self.old.present }
        requires half { SavedFits half self.old.present }
        ensures settles { IfOk result
            (λ done. Settles (with_end self.old.present.kept saved half) self.old self.new done) }
        ensures marks { KeepsMarks self.old self.new }
        ensures refused { OnErr result (self.new ≡ self.old) }
    {
        self.changes.reserve(1)?;
        let Some(change) = self.state.with_end(saved.number, half.number)? else {
            return Ok(false);
        };
        self.changes.push_reserved(change);
        Ok(true)
    }

    /// The present state: a good mark, and the last of those.
    pub fn mark(&self) -> ContextMark
        ensures good { HasMark result self.now }
        ensures state { state_at result self.now ≡ self.now.present }
        ensures last { IsLastMark result self.now }
    {
        ContextMark {
            changes: self.changes.len(),
        }
    }

    /// Goes back to the state at a good mark. Each good mark that is not past this one stays good, with its state. It takes no
    /// memory, and time for the changes that it takes back.
    pub fn undo(&mut self, mark: ContextMark)
        requires { HasMark mark self.old }
        ensures state { self.new.present ≡ state_at mark self.old }
        ensures marks { KeepsMarksTo mark self.old self.new }
        ensures same { KeepsSaved (length (state_at mark self.old).kept) self.old.present self.new.present }
    {
        self.state.take_back(self.changes.as_slice(), mark.changes);
        self.changes.truncate(mark.changes);
    }

    /// A context in the state at a good mark, that came from no other state. What was kept by then means the same in it.
    pub fn image(&self, mark: ContextMark) -> Result<Context<C>, OutOfMemory>
        requires { HasMark mark self.now }
        ensures image { IfOk result (λ context. context ≡ begun (state_at mark self.now)) }
        ensures same { IfOk result (λ context. KeepsSaved
            (length (state_at mark self.now).kept) self.now.present context.present) }
    {
        let mut state = self.state.copy()?;
        state.take_back(self.changes.as_slice(), mark.changes);
        Ok(Context {
            state,
            changes: Vec::new(*self.changes.allocator()),
        })
    }
}
