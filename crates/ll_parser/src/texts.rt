//! What each token does while a program or a query is read.

ghost use Rattle.std.specs.Prelude.{◌≡◌, ◌<◌, ℕ, List, [], length, IfOk};
ghost use Rattle.ll_parser.specs.Flat.{flat_step, flat_final};
ghost use Rattle.ll_parser.specs.FlatText.{boundary, inside, enter, end_clause, add_param, add_local, admits_local, phase_step, program_step, query_step};
ghost use Rattle.ll_parser.specs.FlatText.{query_final};
ghost use Rattle.ll_parser.specs.Nodes.{identifier};
ghost use Rattle.ll_parser.specs.Symbols.{symbol_tok};
ghost use Rattle.ll_parser.specs.Waiting.{mode_view, ModeFits};

use crate::formulas::Mode;
use crate::symbols::Symbol;
use crate::waiting::Waiting;
use crate::{Named, RawAt, RawClause, RawModule};
use ll_bank::OutOfMemory;
use std::alloc::Global;

/// Where in a program the tokens so far end.
#[derive(Clone, Copy)]
pub enum Phase {
    /// Between clauses.
    Boundary,
    /// Behind `LINEAR`.
    Marked,
    /// In a clause, which is marked `LINEAR` or not.
    Clause(bool, Mode),
    /// Behind `MODULE`.
    Heading,
    /// Behind a module's name.
    Params,
    /// Behind `LOCAL`.
    Local,
    /// Behind a name of that line.
    Locals,
}

/// Where in a query the tokens so far end.
#[derive(Clone, Copy)]
pub enum Stage {
    /// In its formula.
    Formula(Mode),
    /// Behind its dot.
    Ended(RawAt),
}

/// The clauses and modules so far, and the module at work.
#[derive(Drop)]
pub struct Draft {
    pub waiting: Waiting,
    pub clauses: Vec<RawClause>,
    pub modules: Vec<RawModule>,
    pub current: Option<RawModule>,
}

impl Draft {
    ghost use Rattle.ll_parser.specs.Drafts.{whole_view, current_view, draft_view, IsIdle, IsNewDraft, PhaseFits, DraftFits, GivesPhase, AddsClause};
    ghost use Rattle.ll_parser.specs.Drafts.{ClosesModule};

    /// Nothing.
    pub fn new(alloc: Global) -> Self
        ensures { IsNewDraft result }
    {
        Draft {
            waiting: Waiting::new(alloc),
            clauses: Vec::new(alloc),
            modules: Vec::new(alloc),
            current: None,
        }
    }

    /// What a token does, if the grammar admits it.
    pub fn step(
        &mut self,
        alloc: Global,
        phase: Phase,
        symbol: Symbol,
    ) -> Result<Option<Phase>, OutOfMemory>
        requires clauses { DraftFits self.old }
        requires phase { PhaseFits self.old.waiting phase }
        ensures { IfOk result (λ o. GivesPhase self.new o (λ texts. program_step (draft_view texts self.old phase)
            (symbol_tok texts symbol))) }
    {
        match phase {
            Phase::Boundary => self.begin(symbol),
            Phase::Marked => {
                let next = self.enter(true, Mode::Operand, symbol)?;
                Ok(next)
            }
            Phase::Clause(linear, mode) => self.go_on(linear, mode, symbol),
            Phase::Heading => match symbol {
                Symbol::Name(name) => {
                    self.current = Some(new_module(alloc, name));
                    Ok(Some(Phase::Params))
                }
                _ => Ok(None),
            },
            Phase::Params => match symbol {
                Symbol::Variable(name) => self.add_param(name),
                Symbol::Dot(_) => Ok(Some(Phase::Boundary)),
                _ => Ok(None),
            },
            Phase::Local => match symbol {
                Symbol::Name(name) => self.add_local(name),
                _ => Ok(None),
            },
            Phase::Locals => match symbol {
                Symbol::Name(name) => self.add_local(name),
                Symbol::Dot(_) => Ok(Some(Phase::Boundary)),
                _ => Ok(None),
            },
        }
    }

    // The token between clauses.
    fn begin(&mut self, symbol: Symbol) -> Result<Option<Phase>, OutOfMemory>
        requires clauses { DraftFits self.old }
        requires idle { IsIdle self.old.waiting }
        ensures { IfOk result (λ o. GivesPhase self.new o (λ texts.
            phase_step (whole_view texts self.old) (current_view texts self.old) boundary (symbol_tok texts symbol))) }
    {
        match symbol {
            Symbol::Linear(_) => Ok(Some(Phase::Marked)),
            Symbol::Module(_) => {
                self.close_module()?;
                Ok(Some(Phase::Heading))
            }
            Symbol::Local(_) => {
                if self.admits_local() {
                    Ok(Some(Phase::Local))
                } else {
                    Ok(None)
                }
            }
            _ => {
                let next = self.enter(false, Mode::Operand, symbol)?;
                Ok(next)
            }
        }
    }

    // A token of a clause's formula.
    fn enter(
        &mut self,
        linear: bool,
        mode: Mode,
        symbol: Symbol,
    ) -> Result<Option<Phase>, OutOfMemory>
        requires clauses { DraftFits self.old }
        requires mode { ModeFits self.old.waiting mode }
        ensures { IfOk result (λ o. GivesPhase self.new o (λ texts.
            enter (whole_view texts self.old) (current_view texts self.old) linear
            (flat_step (mode_view texts self.old.waiting mode) (symbol_tok texts symbol)))) }
    {
        match self.waiting.step(mode, symbol)? {
            Some(next) => Ok(Some(Phase::Clause(linear, next))),
            None => Ok(None),
        }
    }

    // A token in a clause.
    fn go_on(
        &mut self,
        linear: bool,
        mode: Mode,
        symbol: Symbol,
    ) -> Result<Option<Phase>, OutOfMemory>
        requires clauses { DraftFits self.old }
        requires mode { ModeFits self.old.waiting mode }
        ensures { IfOk result (λ o. GivesPhase self.new o
            (λ texts. phase_step (whole_view texts self.old) (current_view texts self.old)
            (inside linear (mode_view texts self.old.waiting mode)) (symbol_tok texts symbol))) }
    {
        match symbol {
            Symbol::Dot(_) => self.end_clause(linear, mode),
            _ => {
                let next = self.enter(linear, mode, symbol)?;
                Ok(next)
            }
        }
    }

    // The dot behind a clause.
    fn end_clause(&mut self, linear: bool, mode: Mode) -> Result<Option<Phase>, OutOfMemory>
        requires clauses { DraftFits self.old }
        requires mode { ModeFits self.old.waiting mode }
        ensures { IfOk result (λ o. GivesPhase self.new o
            (λ texts. end_clause (whole_view texts self.old) (current_view texts self.old) linear
            (flat_final (mode_view texts self.old.waiting mode)))) }
    {
        match self.waiting.finish(mode)? {
            Some(form) => {
                self.add_clause(RawClause { linear, form })?;
                Ok(Some(Phase::Boundary))
            }
            None => Ok(None),
        }
    }

    // One more clause, of the module at work if there is one.
    fn add_clause(&mut self, clause: RawClause) -> Result<(), OutOfMemory>
        requires clauses { DraftFits self.old }
        requires form { clause.form.0 < length self.old.waiting.forms }
        ensures { IfOk result (λ _. AddsClause self.old self.new clause) }
    {
        match &mut self.current {
            Some(module) => module.clauses.push(clause)?,
            None => self.clauses.push(clause)?,
        }
        Ok(())
    }

    // One more parameter of the module at work.
    fn add_param(&mut self, name: Named) -> Result<Option<Phase>, OutOfMemory>
        requires clauses { DraftFits self.old }
        requires idle { IsIdle self.old.waiting }
        ensures { IfOk result (λ o. GivesPhase self.new o (λ texts.
            add_param (whole_view texts self.old) (current_view texts self.old) (identifier texts name))) }
    {
        match &mut self.current {
            Some(module) => {
                module.params.push(name)?;
                Ok(Some(Phase::Params))
            }
            None => Ok(None),
        }
    }

    // One more local constant of the module at work.
    fn add_local(&mut self, name: Named) -> Result<Option<Phase>, OutOfMemory>
        requires clauses { DraftFits self.old }
        requires idle { IsIdle self.old.waiting }
        ensures { IfOk result (λ o. GivesPhase self.new o (λ texts.
            add_local (whole_view texts self.old) (current_view texts self.old) (identifier texts name))) }
    {
        match &mut self.current {
            Some(module) => {
                module.locals.push(name)?;
                Ok(Some(Phase::Locals))
            }
            None => Ok(None),
        }
    }

    // Whether `LOCAL` may stand here: in a module, before its first clause.
    fn admits_local(&self) -> bool
        ensures { (texts : List (List ℕ)) → result ≡ admits_local (current_view texts self.now) }
    {
        match &self.current {
            Some(module) => module.clauses.is_empty(),
            None => false,
        }
    }

    /// Puts the module at work to the others.
    pub fn close_module(&mut self) -> Result<(), OutOfMemory>
        requires { DraftFits self.old }
        ensures { IfOk result (λ _. ClosesModule self.old self.new) }
    {
        if let Some(module) = self.current.take() {
            self.modules.push(module)?;
        }
        Ok(())
    }
}

// A module of this name, as it begins.
fn new_module(alloc: Global, name: Named) -> RawModule
    ensures name { result.name ≡ name }
    ensures params { result.params.items ≡ [] }
    ensures locals { result.locals.items ≡ [] }
    ensures clauses { result.clauses.items ≡ [] }
{
    RawModule {
        name,
        params: Vec::new(alloc),
        locals: Vec::new(alloc),
        clauses: Vec::new(alloc),
    }
}

impl Waiting {
    ghost use Rattle.ll_parser.specs.Drafts.{stage_view, StageFits, GivesStage, GivesQuery};

    /// What a token does to a query, if the grammar admits it.
    pub fn query_step(&mut self, stage: Stage, symbol: Symbol) -> Result<Option<Stage>, OutOfMemory>
        requires { StageFits self.old stage }
        ensures { IfOk result (λ o. GivesStage self.new o
            (λ texts. query_step (stage_view texts self.old stage) (symbol_tok texts symbol))) }
    {
        match stage {
            Stage::Formula(mode) => match symbol {
                Symbol::Dot(_) => match self.finish(mode)? {
                    Some(goal) => Ok(Some(Stage::Ended(goal))),
                    None => Ok(None),
                },
                _ => match self.step(mode, symbol)? {
                    Some(next) => Ok(Some(Stage::Formula(next))),
                    None => Ok(None),
                },
            },
            Stage::Ended(_) => Ok(None),
        }
    }

    /// The whole query, if the tokens may end here.
    pub fn query_finish(&mut self, stage: Stage) -> Result<Option<RawAt>, OutOfMemory>
        requires { StageFits self.old stage }
        ensures { IfOk result (λ o. GivesQuery self.new o (λ texts. query_final (stage_view texts self.old stage))) }
    {
        match stage {
            Stage::Formula(mode) => self.finish(mode),
            Stage::Ended(goal) => Ok(Some(goal)),
        }
    }
}
