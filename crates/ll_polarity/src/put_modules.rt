//! Modules, put into a bank.

ghost use Rattle.std.specs.Prelude.{◌≡◌, ◌*◌, ◌+◌, ◌^◌, ◌<◌, ℕ, List, [], None, length, map, All, IfOk};
ghost use Rattle.ll_bank.specs.Nodes.{Extends};
ghost use Rattle.ll_laws.specs.Shown.{module_tree, HasClauses, HasModules};
ghost use Rattle.ll_parser.specs.Nodes.{shown_clause, shown_module};
ghost use Rattle.ll_parser.specs.Weights.{clauses_weight, modules_weight};
ghost use Rattle.ll_polarity.specs.Asks.{read_module, read_modules};
ghost use Rattle.ll_polarity.specs.Faults.{Heading, clauses_faults, modules_faults};
ghost use Rattle.ll_polarity.specs.Reading.{module_in};
ghost use Rattle.ll_polarity.specs.Scope.{module_scope};
ghost use Rattle.ll_polarity.specs.Ready.{IsModuleReady};
ghost use Rattle.ll_polarity.specs.Standing.{StandsIn};
ghost use Rattle.ll_polarity.specs.Grounds.{ground};

use crate::front::Met;
use crate::judge::open_all;
use crate::put_clauses::clauses;
use crate::scope::Binders;
use crate::text::Text;
use ll_bank::{Bank, OutOfMemory};
use ll_laws::Module;
use ll_parser::RawModule;

/// A module, whose binders are opened round its clauses and closed behind them.
fn module(
    text: &Text<'_>,
    binders: &mut Binders<'_>,
    met: &mut Met,
    bank: &mut Bank,
    body: &RawModule,
) -> Result<Module, OutOfMemory>
    requires stands { StandsIn text.now.names.now binders.old (record { quantified = None; depth = 0 }) }
    requires outermost { binders.old.scope ≡ [] }
    requires ready { IsModuleReady text.now.names.now text.now.forms.now body.now }
    requires room { length met.old.names + 1 + (length body.now.locals.items + length body.now.params.items)
        + 6 * clauses_weight (map (shown_clause text.now.names.now text.now.forms.now) body.now.clauses.items)
        < 2 ^ 32 }
    ensures shows { IfOk result (λ put. (ms : List (List ℕ)) (heads : List Heading)
        → ((w : List ℕ) → (ground text.now).modules w ≡ module_in ms w)
        → (let m = shown_module text.now.names.now text.now.forms.now body.now in
        clauses_faults heads (module_scope m) m.clauses ≡ [] → module_tree bank.new put
        ≡ (read_module ms met.old.names m).it)) }
    ensures names { IfOk result (λ _. (ms : List (List ℕ)) → met.new.names
        ≡ (read_module ms met.old.names (shown_module text.now.names.now text.now.forms.now body.now)).names) }
    ensures inside { IfOk result (λ put. HasClauses bank.new put.clauses.items) }
    ensures binders { IfOk result (λ _. binders.new ≡ record { texts = text.now.names.now; scope = [] }) }
    ensures keeps { IfOk result (λ _. Extends bank.old bank.new) }
{
    let name = met.names.add(text.names.text(body.name.name))?;
    open_all(binders, &body.locals, true)?;
    open_all(binders, &body.params, false)?;
    let clauses = clauses(text, binders, met, bank, &body.clauses)?;
    binders.close_all();
    Ok(Module {
        name,
        params: body.params.len() as u32,
        locals: body.locals.len() as u32,
        clauses,
    })
}

/// Modules, put into the bank in the order of the text.
pub fn modules(
    text: &Text<'_>,
    binders: &mut Binders<'_>,
    met: &mut Met,
    bank: &mut Bank,
    from: &[RawModule],
) -> Result<Vec<Module>, OutOfMemory>
    requires stands { StandsIn text.now.names.now binders.old (record { quantified = None; depth = 0 }) }
    requires outermost { binders.old.scope ≡ [] }
    requires ready { All (IsModuleReady text.now.names.now text.now.forms.now) from.now }
    requires few { All (λ m. length m.locals.items + length m.params.items < 2 ^ 31) from.now }
    requires room { length met.old.names + 6 * modules_weight
        (map (shown_module text.now.names.now text.now.forms.now) from.now) < 2 ^ 31 }
    ensures shows { IfOk result (λ put. (ms : List (List ℕ)) (heads : List Heading)
        → ((w : List ℕ) → (ground text.now).modules w ≡ module_in ms w) → (earlier : List (List ℕ))
        → modules_faults heads earlier (map (shown_module text.now.names.now text.now.forms.now) from.now) ≡ []
        → map (module_tree bank.new) put.items
        ≡ (read_modules ms met.old.names (map (shown_module text.now.names.now text.now.forms.now) from.now)).it) }
    ensures names { IfOk result (λ _. (ms : List (List ℕ)) → met.new.names
        ≡ (read_modules ms met.old.names (map (shown_module text.now.names.now text.now.forms.now) from.now)).names) }
    ensures inside { IfOk result (λ put. HasModules bank.new put.items) }
    ensures keeps { IfOk result (λ _. Extends bank.old bank.new) }
{
    let mut put = Vec::new(text.alloc);
    for body in from {
        let next = module(text, binders, met, bank, body)?;
        put.push(next)?;
    }
    Ok(put)
}
