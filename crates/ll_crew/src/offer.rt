//! What a worker offers to others.
ghost use Rattle.std.specs.Prelude.{◌≡◌, IfOk};
ghost use Rattle.std.specs.Arc.{arc_value};

use ll_bank::OutOfMemory;
use ll_freeze::Frozen;
use ll_laws::{Batch, Notice, Problem};
use std::alloc::Global;
use std::marker::{Model, PhantomData};
use std::sync::Arc;

/// A choice point that a worker offers to others, of whose events they make an `E` each. Contracts see the choice point.
#[derive(Drop)]
pub struct Offer<'p, E: Notice> {
    choice: Arc<Frozen<'p>>,
    found: PhantomData<E>,
}

impl<'p, E: Notice> Model for Offer<'p, E> {
    ghost use Rattle.std.specs.Arc.{arc_value};
    ghost use Rattle.ll_freeze.specs.Frozen.{FrozenSight};
    ghost use Rattle.ll_freeze.specs.Codes.{frozen_code};

    ghost Value = { FrozenSight };

    ghost coded = { frozen_code };

    ghost view = { λ offer. arc_value offer.choice };
}

impl<'p, E: Notice> Offer<'p, E> {
    // An offer of a choice point that nobody else has.
    pub(crate) fn of(choice: Arc<Frozen<'p>>) -> Offer<'p, E>
        ensures { result ≡ arc_value choice.entry }
    {
        Offer {
            choice,
            found: PhantomData,
        }
    }

    /// An offer of a choice point. Memory is wanting where no more references to the choice point can be counted.
    pub fn new(choice: &Arc<Frozen<'p>>) -> Result<Offer<'p, E>, OutOfMemory>
        ensures { IfOk result (λ offer. offer ≡ arc_value choice.now) }
    {
        let choice = Arc::try_clone(choice)?;
        Ok(Offer {
            choice,
            found: PhantomData,
        })
    }

    /// The choice point. Memory is wanting where no more references to it can be counted.
    pub fn choice(&self) -> Result<Arc<Frozen<'p>>, OutOfMemory>
        ensures { IfOk result (λ choice. arc_value choice ≡ self.now) }
    {
        Ok(Arc::try_clone(&self.choice)?)
    }
}

// A value that threads may share. Whatever it is, it is put away where memory runs out.
pub(crate) fn shared<T: Drop>(alloc: Global, value: T) -> Result<Arc<T>, OutOfMemory>
    ensures { IfOk result (λ same. arc_value same ≡ value) }
{
    Ok(Arc::new(alloc, value)?)
}

impl<'p, E: Notice> Batch for Offer<'p, E> {
    type Of = Problem;

    type Found = E;

    ghost use Rattle.ll_freeze.specs.Frozen.{alternatives_in};

    ghost of = { λ offer. offer.problem };

    ghost alternatives = { alternatives_in };

    /// The number of its alternatives.
    fn len(&self) -> u32 {
        self.choice.len()
    }
}
