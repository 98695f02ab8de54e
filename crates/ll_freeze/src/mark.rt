//! Marks of machines, and the way back to them.
ghost use Rattle.std.specs.Prelude.{◌≡◌, IfOk};
ghost use Rattle.ll_freeze.specs.Parts.{parts_of, parts_at, IsGood, IsBefore, KeepsMarksTo};
ghost use Rattle.ll_freeze.specs.Fits.{Fits};
ghost use Rattle.ll_freeze.specs.Calls.{IsImage};

use crate::machine::Machine;
use ll_agenda::Top;
use ll_bank::OutOfMemory;
use ll_resources::ContextMark;
use ll_store::Mark;

/// The marks, lengths and numbers of a machine's parts, by which it can go back to them.
#[derive(Clone, Copy)]
pub struct ChoiceMark {
    pub store: Mark,
    pub context: ContextMark,
    pub agenda: usize,
    pub top: Top,
    pub left: u32,
    pub eigens: u32,
    pub terms: usize,
    pub steps: usize,
}

impl<'p> Machine<'p> {
    /// The machine as it stands: a good mark, that no other one is past.
    pub fn mark(&self) -> ChoiceMark
        requires { Fits (parts_of self.now) }
        ensures good { IsGood result self.now }
        ensures parts { parts_at result self.now ≡ parts_of self.now }
        ensures last { (k : _) → IsGood k self.now → IsBefore k result }
    {
        ChoiceMark {
            store: self.store.mark(),
            context: self.context.mark(),
            agenda: self.agenda.len(),
            top: self.top,
            left: self.left,
            eigens: self.eigens,
            terms: self.terms.len(),
            steps: self.steps.len(),
        }
    }

    /// Goes back to a good mark. Each good mark that is not past this one stays good, with its parts.
    ///
    /// It takes no memory, and time for the changes that it takes back.
    #[inline(always)]
    pub fn undo(&mut self, mark: ChoiceMark)
        requires { IsGood mark self.old }
        ensures parts { parts_of self.new ≡ parts_at mark self.old }
        ensures marks { KeepsMarksTo mark self.old self.new }
    {
        self.store.undo(mark.store);
        self.context.undo(mark.context);
        self.agenda.cut(mark.agenda);
        self.top = mark.top;
        self.left = mark.left;
        self.eigens = mark.eigens;
        self.terms.truncate(mark.terms);
        self.steps.truncate(mark.steps);
    }
}
