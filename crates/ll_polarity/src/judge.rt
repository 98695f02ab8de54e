//! The first fault of scope or sorting in a program and in a query.

ghost use Rattle.std.specs.Prelude.{◌≡◌, ◌<◌, ◌≤◌, ◌++◌, ℕ, List, [], length, map, reverse, All, IfOk, IfNone, OnOk, MatchOption};
ghost use Rattle.ll_lexer.specs.declared.Fault.{Fault};
ghost use Rattle.ll_laws.specs.Valid.{GoalSide};
ghost use Rattle.ll_parser.specs.Tokens.{Identifier};
ghost use Rattle.ll_parser.specs.Text.{programs, queries};
ghost use Rattle.ll_parser.specs.Reads.{IsWhole};
ghost use Rattle.ll_parser.specs.Nodes.{identifier, shown_clause, shown_module};
ghost use Rattle.ll_polarity.specs.Scope.{Binder, module_scope};
ghost use Rattle.ll_polarity.specs.Faults.{Heading, heading, repeated, clauses_faults, modules_faults, program_faults, query_faults};
ghost use Rattle.ll_polarity.specs.Headings.{AreFound};
ghost use Rattle.ll_polarity.specs.Asks.{IsFirst};
ghost use Rattle.ll_polarity.specs.Pending.{IsHead};
ghost use Rattle.ll_polarity.specs.Ready.{AreNumbers, AreClausesReady, IsModuleReady, raw_heading, known_heading};

use crate::headings::Headings;
use crate::pending::Side;
use crate::scope::Binders;
use crate::walk::{Source, first_fault};
use ll_bank::{Names, OutOfMemory};
use ll_laws::Module;
use ll_lexer::Fault;
use ll_parser::{Named, RawClause, RawModule, RawProgram, RawQuery};
use std::alloc::Global;

// The first fault of clauses. Without one the binders are as before.
fn clauses_fault(
    alloc: Global,
    source: &Source<'_, '_, '_>,
    binders: &mut Binders<'_>,
    clauses: &[RawClause],
) -> Result<Option<Fault>, OutOfMemory>
    requires ready { AreClausesReady source.now.names.now source.now.forms.now clauses.now }
    requires texts { binders.old.texts ≡ source.now.names.now }
    ensures first { IfOk result (λ fault. (ms : List Heading) → AreFound source.now.headings.now.params ms
        → IsHead fault (clauses_faults ms binders.old.scope
        (map (shown_clause source.now.names.now source.now.forms.now) clauses.now))) }
    ensures binders { IfOk result (λ fault. IfNone fault (binders.new ≡ binders.old)) }
{
    for clause in clauses {
        let fault = first_fault(alloc, source, binders, Side::Clause, clause.form)?;
        if fault.is_some() {
            return Ok(fault);
        }
    }
    Ok(None)
}

// The first of some names that is among the binders, as a fault. Without one they are binders then.
fn repeated_fault(binders: &mut Binders<'_>, names: &[Named]) -> Result<Option<Fault>, OutOfMemory>
    requires { AreNumbers binders.old.texts names.now }
    ensures first { IfOk result (λ fault. (more : List Identifier)
        → MatchOption fault (repeated (map (λ b. b.text) binders.old.scope)
        (map (identifier binders.old.texts) names.now ++ more) ≡ repeated (map (λ b. b.text) binders.new.scope) more)
        (λ f. IsFirst f (repeated (map (λ b. b.text) binders.old.scope) (map (identifier binders.old.texts) names.now
        ++ more)))) }
    ensures texts { IfOk result (λ fault. binders.new.texts ≡ binders.old.texts) }
{
    for name in names {
        if binders.has(name.name) {
            return Ok(Some(Fault {
                at: name.at,
                kind: 12,
            }));
        }
        binders.open(name.name, false)?;
    }
    Ok(None)
}

// The first parameter or local of a module whose name is that of one before it, as a fault.
fn own_names_fault(
    binders: &mut Binders<'_>,
    body: &RawModule,
) -> Result<Option<Fault>, OutOfMemory>
    requires scope { binders.old.scope ≡ [] }
    requires params { AreNumbers binders.old.texts body.now.params.items }
    requires locals { AreNumbers binders.old.texts body.now.locals.items }
    ensures first { IfOk result (λ fault. IsHead fault
        (repeated [] (map (identifier binders.old.texts) body.now.params.items
        ++ map (identifier binders.old.texts) body.now.locals.items))) }
    ensures binders { IfOk result (λ fault. IfNone fault (binders.new ≡ binders.old)) }
{
    let fault = repeated_fault(binders, &body.params)?;
    if fault.is_some() {
        return Ok(fault);
    }
    let fault = repeated_fault(binders, &body.locals)?;
    binders.close_all();
    Ok(fault)
}

/// More binders, the last one innermost.
pub fn open_all(binders: &mut Binders<'_>, names: &[Named], local: bool) -> Result<(), OutOfMemory>
    requires { AreNumbers binders.old.texts names.now }
    ensures { OnOk result (binders.new
        ≡ record binders.old {
          scope = map (λ n. record { text = n.text; local = local })
              (reverse (map (identifier binders.old.texts) names.now)) ++ binders.old.scope;
        }) }
{
    for name in names {
        binders.open(name.name, local)?;
    }
    Ok(())
}

// The first fault within a module. Without one the binders are as before.
fn module_fault(
    alloc: Global,
    source: &Source<'_, '_, '_>,
    binders: &mut Binders<'_>,
    body: &RawModule,
) -> Result<Option<Fault>, OutOfMemory>
    requires ready { IsModuleReady source.now.names.now source.now.forms.now body.now }
    requires binders { binders.old ≡ record { texts = source.now.names.now; scope = [] } }
    ensures first { IfOk result (λ fault. (ms : List Heading) → AreFound source.now.headings.now.params ms
        → IsHead fault (let m = shown_module source.now.names.now source.now.forms.now body.now in
        repeated [] (m.params ++ m.locals) ++ clauses_faults ms (module_scope m) m.clauses)) }
    ensures binders { IfOk result (λ fault. IfNone fault (binders.new ≡ binders.old)) }
{
    let fault = own_names_fault(binders, body)?;
    if fault.is_some() {
        return Ok(fault);
    }
    open_all(binders, &body.locals, true)?;
    open_all(binders, &body.params, false)?;
    let fault = clauses_fault(alloc, source, binders, &body.clauses)?;
    binders.close_all();
    Ok(fault)
}

// The first fault of modules, before which none stands and no name is bound. Their names become binders, the earlier ones for each.
fn fault_among(
    alloc: Global,
    source: &Source<'_, '_, '_>,
    earlier: &mut Binders<'_>,
    binders: &mut Binders<'_>,
    modules: &[RawModule],
) -> Result<Option<Fault>, OutOfMemory>
    requires ready { All (IsModuleReady source.now.names.now source.now.forms.now) modules.now }
    requires earlier { earlier.old ≡ record { texts = source.now.names.now; scope = [] } }
    requires binders { binders.old ≡ record { texts = source.now.names.now; scope = [] } }
    ensures { IfOk result (λ fault. (ms : List Heading) → AreFound source.now.headings.now.params ms
        → IsHead fault (modules_faults ms []
        (map (shown_module source.now.names.now source.now.forms.now) modules.now))) }
{
    for module in modules {
        if earlier.has(module.name.name) {
            return Ok(Some(Fault {
                at: module.name.at,
                kind: 12,
            }));
        }
        earlier.open(module.name.name, false)?;
        let fault = module_fault(alloc, source, binders, module)?;
        if fault.is_some() {
            return Ok(fault);
        }
    }
    Ok(None)
}

// The first fault of modules.
fn modules_fault(
    alloc: Global,
    source: &Source<'_, '_, '_>,
    modules: &[RawModule],
) -> Result<Option<Fault>, OutOfMemory>
    requires { All (IsModuleReady source.now.names.now source.now.forms.now) modules.now }
    ensures { IfOk result (λ fault. (ms : List Heading) → AreFound source.now.headings.now.params ms
        → IsHead fault (modules_faults ms []
        (map (shown_module source.now.names.now source.now.forms.now) modules.now))) }
{
    let mut earlier = Binders::new(alloc, source.names)?;
    let mut binders = Binders::new(alloc, source.names)?;
    fault_among(alloc, source, &mut earlier, &mut binders, modules)
}

// The first fault of clauses and of the modules behind them.
fn rows_fault(
    alloc: Global,
    source: &Source<'_, '_, '_>,
    clauses: &[RawClause],
    modules: &[RawModule],
) -> Result<Option<Fault>, OutOfMemory>
    requires clauses { AreClausesReady source.now.names.now source.now.forms.now clauses.now }
    requires modules { All (IsModuleReady source.now.names.now source.now.forms.now) modules.now }
    ensures { IfOk result (λ fault. (ms : List Heading) → AreFound source.now.headings.now.params ms
        → IsHead fault (clauses_faults ms [] (map (shown_clause source.now.names.now source.now.forms.now) clauses.now)
        ++ modules_faults ms [] (map (shown_module source.now.names.now source.now.forms.now) modules.now))) }
{
    let mut binders = Binders::new(alloc, source.names)?;
    let fault = clauses_fault(alloc, source, &mut binders, clauses)?;
    if fault.is_some() {
        return Ok(fault);
    }
    modules_fault(alloc, source, modules)
}

// The modules of a program as its loads see them.
fn own_headings<'a>(
    alloc: Global,
    names: &'a Names,
    modules: &[RawModule],
) -> Result<Headings<'a>, OutOfMemory>
    requires { All (λ m. m.name.name < length names.now) modules.now }
    ensures { IfOk result (λ headings. AreFound headings.params (map (raw_heading names.now) modules.now)) }
{
    let mut headings = Headings::new(alloc);
    for module in modules {
        headings.add(names.text(module.name.name), module.params.len())?;
    }
    Ok(headings)
}

/// The modules of a program as the loads of its queries see them, over the names of a problem.
pub fn known_headings<'a>(
    alloc: Global,
    names: &'a Names,
    modules: &[Module],
) -> Result<Headings<'a>, OutOfMemory>
    requires { All (λ m. m.name < length names.now) modules.now }
    ensures { IfOk result (λ headings. AreFound headings.params (map (known_heading names.now) modules.now)) }
{
    let mut headings = Headings::new(alloc);
    for module in modules {
        headings.add(names.text(module.name), module.params as usize)?;
    }
    Ok(headings)
}

/// The first fault of scope or sorting in a program, kinds 7 to 12.
pub fn judge_program(alloc: Global, program: &RawProgram) -> Result<Option<Fault>, OutOfMemory>
    requires whole { IsWhole programs program.now }
    ensures { IfOk result (λ fault. IsHead fault (program_faults program.now)) }
{
    let headings = own_headings(alloc, &program.names, &program.modules)?;
    let source = Source {
        names: &program.names,
        forms: &program.forms,
        headings: &headings,
    };
    rows_fault(alloc, &source, &program.clauses, &program.modules)
}

/// The first fault of scope or sorting in a query, kinds 7 to 11, where its loads name these modules.
pub fn judge_query(
    alloc: Global,
    headings: &Headings<'_>,
    query: &RawQuery,
) -> Result<Option<Fault>, OutOfMemory>
    requires whole { IsWhole queries query.now }
    ensures { IfOk result (λ fault. (ms : List Heading) → AreFound headings.now.params ms
        → IsHead fault (query_faults ms query.now)) }
{
    let source = Source {
        names: &query.names,
        forms: &query.forms,
        headings,
    };
    let mut binders = Binders::new(alloc, &query.names)?;
    first_fault(alloc, &source, &mut binders, Side::Goal, query.goal)
}
