// What happened so far, for clauses alone.
ghost use Rattle.std.specs.Prelude.{◌≡◌, List, [], ◌∷◌, ◌++◌};
ghost use Rattle.std.specs.Borrow.{ftrue};
ghost use Rattle.ll_edge.specs.Notes.{Note};

use std::marker::{Model, PhantomData};

// Notes of calls, in order. They take no memory, and no code reads them: only clauses do.
#[derive(Drop)]
pub(crate) struct Notes {
    marker: PhantomData<u8>,
    pub(crate) ghost notes: { List Note },
}

impl Model for Notes {
    ghost also_owns = { λ _. ftrue };
}

impl Notes {
    // No notes yet.
    pub(crate) fn new() -> Notes
        ensures { result.notes ≡ [] }
    {
        Notes {
            marker: PhantomData,
        }
    }

    // Notes a call: its numbers, the name that it is about, and the bytes that it gave or took.
    pub(crate) fn note(&mut self, _numbers: &[u64], _name: &[u8], _bytes: &[u8])
        ensures { self.new.notes ≡ self.old.notes ++ record {
          numbers = _numbers.now;
          name = _name.now;
          bytes = _bytes.now;
        } ∷ [] }
    {}
}
