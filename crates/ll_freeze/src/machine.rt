//! A machine: one state of a search, over cells with a trail and a bank.
ghost use Rattle.std.specs.Prelude.{◌≡◌};
ghost use Rattle.ll_store.specs.Stored.{state_of as store_of, stored};
ghost use Rattle.ll_freeze.specs.Parts.{parts_of};
ghost use Rattle.ll_freeze.specs.Shown.{closed_goal};
ghost use Rattle.ll_freeze.specs.Rested.{parts_with};

use crate::rest::Rest;
use ll_agenda::{Agenda, Top};
use ll_bank::{At, Environment, FormAt};
use ll_laws::{Module, Problem, Step};
use ll_resources::{Context, Saved};
use ll_store::Store;

/// An item of an agenda: a goal, or the end of one.
#[derive(Clone, Copy)]
pub enum Item {
    /// A goal, whose free bound places stand for the variables of an environment.
    Goal(FormAt, Environment),
    /// The end of `-o`, with the flag from before.
    LolliEnd(bool),
    /// The end of `=>`.
    ImpEnd,
    /// The middle of `&`, with the live marks and the flag from before.
    Mid(Saved),
    /// The end of `&`, with those from before, and those that the first side left once the middle is worked off.
    WithEnd(Saved, Saved),
    /// The end of `{}`, with the live marks and the flag from before.
    BangEnd(Saved),
}

impl Item {
    /// A goal with no free bound place.
    #[inline]
    pub fn closed(goal: FormAt) -> Item
        ensures { result ≡ closed_goal goal }
    {
        Item::Goal(goal, Environment { end: 0, count: 0 })
    }
}

/// One state of a search, with the number of inferences that a branch may still make.
///
/// Its terms and formulas are places of its store's bank, read under the bindings of its cells. `parts_of` is what it holds, `state_of`
/// the state that this shows, and `Fits` says how the parts belong together. What it adds can be taken back to a [`ChoiceMark`].
///
/// [`ChoiceMark`]: crate::ChoiceMark
pub struct Machine<'p> {
    pub problem: &'p Problem,
    /// The problem's modules, whose clauses are places of the machine's bank too.
    pub modules: &'p [Module],
    /// A cell for each variable: what it is bound to, and its level.
    pub store: Store,
    pub context: Context<FormAt>,
    pub agenda: Agenda<Item>,
    pub top: Top,
    pub left: u32,
    pub eigens: u32,
    /// The variables, in the order of their numbers, those asked for first.
    pub terms: Vec<At>,
    pub steps: Vec<Step>,
    /// Room for the arguments of an atom during an inference.
    pub args: Vec<At>,
}

// Written out, so that a proof sees one call where it goes, and not one for each part.
impl Drop for Machine<'_> {
    fn drop(self) {
        let Machine {
            problem: _,
            modules: _,
            store: _,
            context: _,
            agenda: _,
            top: _,
            left: _,
            eigens: _,
            terms: _,
            steps: _,
            args: _,
        } = self;
    }
}

impl<'p> Machine<'p> {
    /// The bound left.
    pub fn left(&self) -> u32
        ensures { result ≡ self.now.left }
    {
        self.left
    }

    /// The store, and all but the store.
    pub fn parted(self) -> (Rest<'p>, Store)
        ensures { parts_with result.0 (store_of (stored result.1)) ≡ parts_of self.entry }
    {
        let Machine {
            problem,
            modules,
            store,
            context,
            agenda,
            top,
            left,
            eigens,
            terms,
            steps,
            args: _,
        } = self;
        let rest = Rest {
            problem,
            modules,
            context,
            agenda,
            top,
            left,
            eigens,
            terms,
            steps,
        };
        (rest, store)
    }
}
