//! What stands in a term.
ghost use Rattle.std.specs.Prelude.{◌≡◌, ◌<◌, ◌++◌, ◌∷◌, ◌⊎◌, [], ℕ, Bool, true, length, All, IfOk, OnOk, slice_set};
ghost use Rattle.ll_bank.specs.Term.{sub};
ghost use Rattle.ll_bank.specs.Nodes.{term_tree, HasTerm};
ghost use Rattle.ll_unify.specs.Bindings.{IsTable, IsPlaceOf, IsEnd, found, count};
ghost use Rattle.ll_unify.specs.Scanned.{IsScan, IsScanned, IsPassed, IsKnown, IsLook};
ghost use Rattle.ll_unify.specs.Frames.{frames_weight};

use crate::classes::{grow, is_worth};
use crate::{Bindings, Frame, arguments, walk};
use ll_bank::{At, Bank, Head, OutOfMemory, TermView};
use smallvec::SmallVec;
use std::alloc::Global;

/// Places that were looked through, and the variables of all that was.
#[derive(Drop)]
pub struct Seen {
    places: Vec<At>,
    slots: Vec<usize>,
    steps: usize,
    pub vars: SmallVec<usize, 8>,
}

impl Seen {
    /// Nothing seen.
    pub fn new(alloc: Global) -> Self {
        Seen {
            places: Vec::new(alloc),
            slots: Vec::new(alloc),
            steps: 0,
            vars: SmallVec::new(alloc),
        }
    }

    /// Forgets all.
    pub fn clear(&mut self)
        ensures places { self.new.places.items ≡ [] }
        ensures vars { self.new.vars.items ≡ [] }
    {
        self.places.clear();
        self.vars.clear();
        self.steps = 0;
    }

    // Whether it is known that a place was looked through.
    fn has(&self, at: At) -> bool
        ensures { IsKnown self.now.places.items at result }
    {
        if at.0 >= self.slots.len() {
            return false;
        }
        let slot = self.slots[at.0];
        if slot < self.places.len() {
            self.places[slot].0 == at.0
        } else {
            false
        }
    }

    // Notes a place, where that is worth its cost.
    #[inline(always)]
    fn add(&mut self, at: At) -> Result<(), OutOfMemory>
        ensures places { OnOk result ((self.new.places.items ≡ self.old.places.items ++ at ∷ [])
            ⊎ (self.new.places.items ≡ self.old.places.items)) }
        ensures vars { self.new.vars.items ≡ self.old.vars.items }
    {
        self.steps = self.steps.saturating_add(1);
        if !is_worth(self.steps, at.0) {
            return Ok(());
        }
        grow(&mut self.slots, at.0)?;
        self.slots[at.0] = self.places.len();
        self.places.push(at)?;
        Ok(())
    }

    // Looks at the sign at a place, and notes its variable.
    #[inline(always)]
    fn look(&mut self, bank: &Bank, var: usize, level: u32, at: At) -> Result<bool, OutOfMemory>
        requires { HasTerm bank.now at.0 }
        ensures look { IfOk result (λ good. IsLook
            (term_tree bank.now at.0) var level self.old.vars.items self.new.vars.items good) }
        ensures places { self.new.places.items ≡ self.old.places.items }
    {
        match bank.term_at(at) {
            TermView::Var(other) => {
                self.vars.push(other as usize)?;
                Ok(other as usize != var)
            }
            TermView::Int(_) => Ok(true),
            TermView::App(Head::Eigen(eigen), _) => Ok(eigen < level),
            TermView::App(Head::Name(_), _) => Ok(true),
            TermView::App(Head::Bound(_), _) => Ok(true),
        }
    }

    // Looks at the sign at a place whose arguments are done, and notes its variable and the place.
    #[inline(always)]
    fn done(&mut self, bank: &Bank, var: usize, level: u32, at: At) -> Result<bool, OutOfMemory>
        requires { HasTerm bank.now at.0 }
        ensures look { IfOk result (λ good. IsLook
            (term_tree bank.now at.0) var level self.old.vars.items self.new.vars.items good) }
        ensures places { IfOk result (λ good. good ≡ true → (self.new.places.items ≡ self.old.places.items ++ at ∷ [])
            ⊎ (self.new.places.items ≡ self.old.places.items)) }
    {
        if !self.look(bank, var, level, at)? {
            return Ok(false);
        }
        self.add(at)?;
        Ok(true)
    }
}

// Terms that are looked through, each an argument of the one before. Few of them take no memory.
type Frames = SmallVec<Frame, 8>;

// Looks through a term from an argument on, and then at its sign. Arguments without arguments of their own are looked at in place; at
// another that is not known, the frames get the term and that argument.
fn pass<T: Bindings>(
    bank: &Bank,
    table: &T,
    seen: &mut Seen,
    frames: &mut Frames,
    var: usize,
    level: u32,
    start: At,
    frame: Frame,
) -> Result<bool, OutOfMemory>
    requires table { IsTable bank.now (T.table table.now) }
    requires scanned { IsScanned bank.now (T.table table.now) var level seen.old.places.items seen.old.vars.items
        (sub (found bank.now (T.table table.now)) (term_tree bank.now start.0)) (frames.old.items ++ frame ∷ []) }
    ensures passed { IfOk result (IsPassed bank.now
        (T.table table.now) var level seen.new.places.items seen.new.vars.items
        (sub (found bank.now (T.table table.now)) (term_tree bank.now start.0)) frames.new.items) }
    ensures less { OnOk result (frames_weight bank.now (found bank.now (T.table table.now)) frames.new.items
        < frames_weight bank.now (found bank.now (T.table table.now)) (frames.old.items ++ frame ∷ [])) }
{
    let args = arguments(bank, frame.at);
    let mut next = frame.next;
    while next < args.len() {
        let end = walk(bank, table, args[next]);
        next += 1;
        if arguments(bank, end).is_empty() {
            if !seen.look(bank, var, level, end)? {
                return Ok(false);
            }
        } else if !seen.has(end) {
            frames.push(Frame { at: frame.at, next })?;
            frames.push(Frame { at: end, next: 0 })?;
            return Ok(true);
        }
    }
    seen.done(bank, var, level, frame.at)
}

/// Whether a variable of this level may be bound to the term at a place: it does not stand in the term, and the term's
/// eigenvariables are below the level. The term's variables are then noted. A term without arguments takes a look at its sign alone.
pub fn scan<T: Bindings>(
    alloc: Global,
    bank: &Bank,
    table: &T,
    seen: &mut Seen,
    var: usize,
    level: u32,
    start: At,
) -> Result<bool, OutOfMemory>
    requires table { IsTable bank.now (T.table table.now) }
    requires start { IsEnd bank.now (T.table table.now) start.0 }
    requires places { seen.old.places.items ≡ [] }
    requires vars { seen.old.vars.items ≡ [] }
    ensures { IfOk result (λ good. IsScan (T.table table.now) var level seen.new.vars.items
        (sub (found bank.now (T.table table.now)) (term_tree bank.now start.0)) good) }
{
    if arguments(bank, start).is_empty() {
        return seen.look(bank, var, level, start);
    }
    let mut frames = Frames::new(alloc);
    let mut frame = Frame { at: start, next: 0 };
    'frames: loop {
        if !pass(bank, table, seen, &mut frames, var, level, start, frame)? {
            return Ok(false);
        }
        match frames.pop() {
            Some(below) => frame = below,
            None => return Ok(true),
        }
    }
}
