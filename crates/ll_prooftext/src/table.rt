//! The table of the shared terms of some fields.
ghost use Rattle.std.specs.Prelude.{◌≡◌, ◌<◌, ◌++◌, ◌∷◌, [], length, IfOk, OnOk, All};
ghost use Rattle.std.specs.List.{flat_map};
ghost use Rattle.ll_bank.specs.Nodes.{term_trees, AllInTerms, HasTerm};
ghost use Rattle.ll_prooftext.specs.Classes.{AreClasses};
ghost use Rattle.ll_prooftext.specs.Table.{completed, rows_in};
ghost use Rattle.ll_prooftext.specs.Tables.{HasNumberAt, row_at, task_at, IsTableOf, Entered, Left, Taken, entries};

use crate::classes::{Classes, number_terms};
use ll_bank::{At, Bank, OutOfMemory, TermView};
use std::alloc::Global;

/// A table of terms with arguments, each once, in the order in which they are completed.
#[derive(Drop)]
pub(crate) struct Table {
    // The terms by number, and the row of each number, if its term has one.
    classes: Classes,
    numbered: Vec<Option<usize>>,
    // A place of each row's term.
    pub(crate) rows: Vec<At>,
}

/// What is still to be done with a term.
#[derive(Clone, Copy)]
enum Task {
    /// The rows of its arguments and its own are wanted.
    Enter(At),
    /// The rows of its arguments are there, and its own is wanted.
    Leave(At),
}

/// The table of some fields. It needs no deep stack, and each row is looked into once.
pub(crate) fn table_of(alloc: Global, bank: &Bank, fields: &[At]) -> Result<Table, OutOfMemory>
    requires { AllInTerms bank.now fields.now }
    ensures table { IfOk result (λ table. IsTableOf bank.now table
        (rows_in (flat_map completed (term_trees bank.now fields.now)))) }
    ensures reach { IfOk result (λ table. All (λ a. HasNumberAt table a.0) fields.now) }
{
    let classes = number_terms(alloc, bank, fields)?;
    table_with(alloc, bank, fields, classes)
}

/// The table of some fields, whose terms have these numbers.
pub(crate) fn table_with(
    alloc: Global,
    bank: &Bank,
    fields: &[At],
    classes: Classes,
) -> Result<Table, OutOfMemory>
    requires inside { AllInTerms bank.now fields.now }
    requires classes { AreClasses bank.now classes }
    requires numbered { All (λ a. a.0 < length classes.numbers.items) fields.now }
    ensures table { IfOk result (λ table. IsTableOf bank.now table
        (rows_in (flat_map completed (term_trees bank.now fields.now)))) }
    ensures same { IfOk result (λ table. table.classes ≡ classes) }
    ensures reach { IfOk result (λ table. All (λ a. HasNumberAt table a.0) fields.now) }
{
    let mut table = Table {
        numbered: vec![in alloc; None; classes.count]?,
        classes,
        rows: Vec::new(alloc),
    };
    let mut tasks = Vec::new(alloc);
    push_entries(fields, &mut tasks)?;
    while let Some(task) = tasks.pop() {
        table.take(bank, task, &mut tasks)?;
    }
    Ok(table)
}

/// Puts terms that are to be entered on the stack, the first one on top.
fn push_entries(places: &[At], tasks: &mut Vec<Task>) -> Result<(), OutOfMemory>
    ensures { OnOk result (tasks.new.items ≡ tasks.old.items ++ entries places.now) }
{
    let mut i = places.len();
    while i > 0 {
        i -= 1;
        tasks.push(Task::Enter(places[i]))?;
    }
    Ok(())
}

impl Table {
    /// The row of a term, if it has one.
    pub(crate) fn row(&self, at: At) -> Option<usize>
        requires { HasNumberAt self.now at.0 }
        ensures { result ≡ row_at self.now at.0 }
    {
        self.numbered[self.classes.numbers[at.0]]
    }

    /// Does what is to be done with a term, or puts on the stack what that takes.
    fn take(&mut self, bank: &Bank, task: Task, tasks: &mut Vec<Task>) -> Result<(), OutOfMemory>
        requires numbered { HasNumberAt self.old (task_at task) }
        requires inside { HasTerm bank.now (task_at task) }
        ensures { OnOk result (Taken bank.now self.old tasks.old.items task self.new tasks.new.items) }
    {
        match task {
            Task::Enter(at) => self.enter(bank, at, tasks),
            Task::Leave(at) => self.leave(at),
        }
    }

    /// Puts on the stack what the rows of a term take, unless they are there.
    fn enter(&self, bank: &Bank, at: At, tasks: &mut Vec<Task>) -> Result<(), OutOfMemory>
        requires numbered { HasNumberAt self.now at.0 }
        requires inside { HasTerm bank.now at.0 }
        ensures { OnOk result (Entered bank.now self.now tasks.old.items at tasks.new.items) }
    {
        match bank.term_at(at) {
            TermView::Var(_) => Ok(()),
            TermView::Int(_) => Ok(()),
            TermView::App(_, args) => {
                if args.is_empty() || self.row(at).is_some() {
                    return Ok(());
                }
                tasks.push(Task::Leave(at))?;
                push_entries(args, tasks)
            }
        }
    }

    /// Adds a row for a term, unless it has one.
    fn leave(&mut self, at: At) -> Result<(), OutOfMemory>
        requires { HasNumberAt self.old at.0 }
        ensures { OnOk result (Left self.old at self.new) }
    {
        if self.row(at).is_some() {
            return Ok(());
        }
        let row = self.rows.len();
        self.rows.push(at)?;
        self.numbered[self.classes.numbers[at.0]] = Some(row);
        Ok(())
    }
}
