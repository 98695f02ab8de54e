//! The way through the nodes.
ghost use Rattle.std.specs.Prelude.{◌≡◌, ◌++◌, ◌∷◌, [], true, map, length, reverse, All, Some, IfOk, OnOk};
ghost use Rattle.std.specs.List.{list_all};
ghost use Rattle.ll_laws.specs.Number.{operators_of};
ghost use Rattle.ll_laws.specs.Shown.{module_tree, HasModules};
ghost use Rattle.ll_laws.specs.Line.{is_line, trees_of};
ghost use Rattle.ll_laws.specs.Shows.{Tree};
ghost use Rattle.ll_bank.specs.Nodes.{AllInTerms};
ghost use Rattle.ll_sequent.specs.Copied.{IsLineBelow, copied_line};
ghost use Rattle.ll_sequent.specs.Judging.{fault_at, AreModulesSound, Holds};
ghost use Rattle.ll_sequent.specs.Sequents.{sequent_in};
ghost use Rattle.ll_sequent.specs.Told.{Tells};

use crate::Verdict;
use crate::rules::step;
use crate::sequents::{Resource, Sequent, Start, Step};
use ll_bank::{At, Bank, Names, OutOfMemory};
use ll_laws::{Module, Rule};
use std::alloc::Global;

/// Judges the nodes from a root on, with copies of their terms.
pub(crate) fn judge(
    alloc: Global,
    start: Start,
    names: &Names,
    modules: &[Module],
    rules: &[Rule],
) -> Result<Verdict, OutOfMemory>
    requires has { HasModules start.bank modules.now }
    requires modules { AreModulesSound (map (module_tree start.bank) modules.now) }
    requires holds { Holds (map (module_tree start.bank) modules.now) start.bank start.free.items start.root }
    requires inside { AllInTerms start.bank start.copies.items }
    requires reach { All (IsLineBelow (length start.copies.items)) rules.now }
    requires whole { list_all is_line (map (copied_line start.bank start.copies.items) rules.now) ≡ true }
    ensures { IfOk result (λ verdict. (x : Tree)
        → trees_of (map (copied_line start.bank start.copies.items) rules.now) ≡ Some (x ∷ [])
        → Tells verdict (fault_at (operators_of names.now) (map (module_tree start.bank) modules.now) x
        (sequent_in start.bank start.free.items start.root))) }
{
    let Start {
        mut bank,
        copies,
        mut free,
        root,
    } = start;
    judge_nodes(
        alloc, &mut bank, names, modules, &copies, rules, &mut free, root,
    )
}

/// Judges the nodes in turn, each by the next of the sequents that wait.
fn judge_nodes(
    alloc: Global,
    bank: &mut Bank,
    names: &Names,
    modules: &[Module],
    copies: &[At],
    rules: &[Rule],
    free: &mut Vec<Resource>,
    root: Sequent,
) -> Result<Verdict, OutOfMemory>
    requires has { HasModules bank.old modules.now }
    requires modules { AreModulesSound (map (module_tree bank.old) modules.now) }
    requires holds { Holds (map (module_tree bank.old) modules.now) bank.old free.old.items root }
    requires inside { AllInTerms bank.old copies.now }
    requires reach { All (IsLineBelow (length copies.now)) rules.now }
    requires whole { list_all is_line (map (copied_line bank.old copies.now) rules.now) ≡ true }
    ensures { IfOk result (λ verdict. (x : Tree) → trees_of (map (copied_line bank.old copies.now) rules.now)
        ≡ Some (x ∷ []) → Tells verdict (fault_at (operators_of names.now) (map (module_tree bank.old) modules.now) x
        (sequent_in bank.old free.old.items root))) }
{
    let mut waiting = Vec::new(alloc);
    waiting.push(root)?;
    for node in 0..rules.len() {
        let Some(sequent) = waiting.pop() else {
            return Ok(Verdict::Yes);
        };
        free.truncate(sequent.free);
        match step(
            alloc,
            bank,
            names,
            modules,
            copies,
            &rules[node],
            free,
            sequent,
        )? {
            Step::Refused(reason) => {
                return Ok(Verdict::No {
                    node: node + 1,
                    reason,
                });
            }
            Step::Leaves(premises) => put_in_front(premises, &mut waiting)?,
        }
    }
    Ok(Verdict::Yes)
}

/// Puts sequents in front of those that wait, the first one in front.
fn put_in_front(sequents: Vec<Sequent>, waiting: &mut Vec<Sequent>) -> Result<(), OutOfMemory>
    ensures { OnOk result (waiting.new.items ≡ waiting.old.items ++ reverse sequents.items) }
{
    let mut sequents = sequents;
    while let Some(sequent) = sequents.pop() {
        waiting.push(sequent)?;
    }
    Ok(())
}
