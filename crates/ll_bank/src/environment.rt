//! Environments.
ghost use Rattle.std.specs.Prelude.{◌≡◌, ◌≤◌, ◌<◌, ℕ, IfSome, IfNone};
ghost use Rattle.ll_bank.specs.Term.{Var, place};
ghost use Rattle.ll_bank.specs.Environments.{values_in};

/// What the free bound places of a term or a formula stand for: variables that were made one after another. The outermost bound place
/// stands for the first of them.
#[derive(Clone, Copy)]
pub struct Environment {
    /// One more than the number of the last one.
    pub end: u32,
    /// How many there are.
    pub count: u32,
}

impl Environment {
    /// The variable for which a bound place stands, of which the innermost has number 0; none where there are not so many.
    #[inline]
    pub fn variable(self, bound: u32) -> Option<usize>
        requires { self.count ≤ self.end }
        ensures is { IfSome result (λ var. (n : ℕ) → place (values_in self) bound n ≡ Var var) }
        ensures before { IfSome result (λ var. var < self.end) }
        ensures none { IfNone result (self.count ≤ bound) }
    {
        if bound < self.count {
            Some((self.end - 1 - bound) as usize)
        } else {
            None
        }
    }
}
