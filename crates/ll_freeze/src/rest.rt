//! Machines without their stores, and their images.
ghost use Rattle.std.specs.Prelude.{◌≡◌, ◌≤◌, length, take, IfOk};
ghost use Rattle.ll_agenda.specs.Frames.{HasTop};
ghost use Rattle.ll_store.specs.Stored.{State as StoreState, stored, state_of as store_of, state_at};
ghost use Rattle.ll_freeze.specs.Parts.{parts_of, parts_at, IsGood};
ghost use Rattle.ll_freeze.specs.Rested.{parts_with};
ghost use Rattle.ll_freeze.specs.Fits.{Fits};
ghost use Rattle.ll_freeze.specs.Calls.{IsImage};

use crate::machine::{Item, Machine};
use crate::mark::ChoiceMark;
use ll_agenda::{Agenda, Top};
use ll_bank::{At, FormAt, OutOfMemory};
use ll_laws::{Module, Problem, Step};
use ll_resources::Context;
use ll_store::Store;

/// All of a machine but its store. With the state of one it stands for a machine, as `parts_with` says.
#[derive(Drop)]
pub struct Rest<'p> {
    pub problem: &'p Problem,
    pub modules: &'p [Module],
    pub context: Context<FormAt>,
    pub agenda: Agenda<Item>,
    pub top: Top,
    pub left: u32,
    pub eigens: u32,
    pub terms: Vec<At>,
    pub steps: Vec<Step>,
}

impl<'p> Machine<'p> {
    /// An image of all but the store, as it was at a good mark.
    pub fn rest(&self, mark: ChoiceMark) -> Result<Rest<'p>, OutOfMemory>
        requires good { IsGood mark self.now }
        requires fits { Fits (parts_at mark self.now) }
        ensures { IfOk result (λ r. IsImage (parts_at mark self.entry.now)
            (parts_with r (state_at mark.store (stored self.entry.now.store)))) }
    {
        let context = self.context.image(mark.context)?;
        let (agenda, top) = self.agenda.image(mark.top)?;
        let terms = first(&self.terms, mark.terms)?;
        let steps = first(&self.steps, mark.steps)?;
        Ok(Rest {
            problem: self.problem,
            modules: self.modules,
            context,
            agenda,
            top,
            left: mark.left,
            eigens: mark.eigens,
            terms,
            steps,
        })
    }
}

impl<'p> Rest<'p> {
    // An image of this.
    fn image(&self) -> Result<Rest<'p>, OutOfMemory>
        requires { HasTop self.now.agenda self.now.top }
        ensures { IfOk result (λ r. (s : StoreState) → Fits (parts_with self.entry.now s)
            → IsImage (parts_with self.entry.now s) (parts_with r s)) }
    {
        let context = self.context.image(self.context.mark())?;
        let (agenda, top) = self.agenda.image(self.top)?;
        let terms = first(&self.terms, self.terms.len())?;
        let steps = first(&self.steps, self.steps.len())?;
        Ok(Rest {
            problem: self.problem,
            modules: self.modules,
            context,
            agenda,
            top,
            left: self.left,
            eigens: self.eigens,
            terms,
            steps,
        })
    }

    /// A machine with an image of this and with this store.
    pub fn machine(&self, store: Store) -> Result<Machine<'p>, OutOfMemory>
        requires fits { Fits (parts_with self.now (store_of (stored store))) }
        ensures { IfOk result (λ m. IsImage (parts_with self.entry.now (store_of (stored store))) (parts_of m)) }
    {
        let Rest {
            problem,
            modules,
            context,
            agenda,
            top,
            left,
            eigens,
            terms,
            steps,
        } = self.image()?;
        let alloc = *steps.allocator();
        Ok(Machine {
            problem,
            modules,
            store,
            context,
            agenda,
            top,
            left,
            eigens,
            terms,
            steps,
            args: Vec::new(alloc),
        })
    }
}

// A vector of its own with the first elements.
fn first<T: Copy>(items: &Vec<T>, count: usize) -> Result<Vec<T>, OutOfMemory>
    requires { count ≤ length items.now.items }
    ensures { IfOk result (λ copy. copy.items ≡ take count items.now.items) }
{
    let copy = Vec::from_slice(*items.allocator(), &items[..count])?;
    Ok(copy)
}
