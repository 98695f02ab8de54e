// Where workers pass on their way to a claim.
ghost use Rattle.std.specs.Prelude.{◌≡◌, true};

/// A place that each worker passes before it claims work. It promises nothing of how long a worker stays.
pub trait Gate: Sync {
    // What is known of a gate by which batches come back.
    ghost returns: { Self → Type 0 };

    /// Called by a worker with its number and the number of claims it has made.
    fn pause(&self, worker: u32, claims: u64);

    /// Whether a batch that a worker would leave to others comes back to it, as from a pool that has no place for it. A pool has place for
    /// over four billion alternatives, so a test shows by this what a worker does with a batch that comes back.
    ///
    /// The body that is given lets each batch pass.
    fn gives_back(&self) -> bool
        ensures { result ≡ true → returns self.now }
    {
        false
    }
}

/// A gate that holds nobody.
#[derive(Clone, Copy, Default)]
pub struct OpenGate;

impl Gate for OpenGate {
    ghost returns = { λ gate. ⊥ };

    fn pause(&self, _worker: u32, _claims: u64) {}
}
