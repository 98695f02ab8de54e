//! New variables that stand in no term yet.
ghost use Rattle.std.specs.Prelude.{◌≡◌, ◌≤◌, ◌↔◌, ℕ, false, IsTrue};
ghost use Rattle.ll_unify.specs.Scanned.{is_among};
ghost use Rattle.ll_unify.specs.Fresh.{IsFresh, IsOther};

/// How many new variables are told apart. Those past them count as met.
const TOLD_APART: usize = 64;

/// The variables from a number on, but for those that were met.
#[derive(Clone, Copy)]
pub struct Fresh {
    first: usize,
    met: [bool; TOLD_APART],
}

impl Fresh {
    /// None.
    pub fn none() -> Self
        ensures { (x : ℕ) → IsFresh result x → ⊥ }
    {
        Fresh {
            first: 0,
            met: [true; TOLD_APART],
        }
    }

    /// Those from this one on.
    pub fn from(first: usize) -> Self
        ensures { (x : ℕ) → IsFresh result x → first ≤ x }
    {
        Fresh {
            first,
            met: [false; TOLD_APART],
        }
    }

    /// Whether it is known of a variable that it is one of them.
    pub fn has(&self, var: usize) -> bool
        ensures { IsTrue result ↔ IsFresh self.now var }
    {
        if var < self.first {
            return false;
        }
        let place = var - self.first;
        place < TOLD_APART && !self.met[place]
    }

    /// Notes that a variable was met.
    pub fn meet(&mut self, var: usize)
        ensures { (x : ℕ) → IsFresh self.new x → IsOther self.old var x }
    {
        if var < self.first {
            return;
        }
        let place = var - self.first;
        if place < TOLD_APART {
            self.met[place] = true;
        }
    }

    /// Notes that these variables were met.
    pub fn meet_all(&mut self, vars: &[usize])
        ensures was { (x : ℕ) → IsFresh self.new x → IsFresh self.old x }
        ensures other { (x : ℕ) → IsFresh self.new x → is_among vars.now x ≡ false }
    {
        for var in vars {
            self.meet(*var);
        }
    }
}
