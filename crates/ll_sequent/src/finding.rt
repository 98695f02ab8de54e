//! The clause that a label names.
ghost use Rattle.std.specs.Prelude.{◌≡◌, List, reverse, nat_eq};
ghost use Rattle.std.specs.List.{find, position};
ghost use Rattle.ll_bank.specs.Nodes.{Nodes};
ghost use Rattle.ll_laws.specs.Module.{ModuleTree};
ghost use Rattle.ll_laws.specs.Shows.{pick};
ghost use Rattle.ll_sequent.specs.Sequents.{bounded_in, free_in, AreHeld};
ghost use Rattle.ll_sequent.specs.Opened.{found_in, AreFound};
ghost use Rattle.ll_sequent.specs.declared.sequents.Resource.{Resource};

use crate::sequents::Resource;
use ll_bank::FormAt;

/// The clause with a label: an unbounded one, or else a bounded one, which is taken from the others.
pub(crate) fn take_clause(
    label: u32,
    free: &[Resource],
    bounded: &mut Vec<Resource>,
) -> Option<FormAt>
    ensures found { (bank : Nodes) → found_in bank result bounded.new.items
        ≡ pick label (free_in bank free.now) (bounded_in bank bounded.old.items) }
    ensures held { (modules : List ModuleTree) (bank : Nodes) → AreHeld modules bank free.now
        → AreHeld modules bank bounded.old.items → AreFound modules bank result bounded.new.items }
{
    if let Some(found) = newest(label, free) {
        return Some(found.form);
    }
    match place_of(label, bounded) {
        Some(place) => Some(bounded.remove(place).form),
        None => None,
    }
}

/// The place of the bounded clause with a label.
fn place_of(label: u32, bounded: &[Resource]) -> Option<usize>
    ensures { result ≡ position (λ (r : Resource). nat_eq label r.label) bounded.now }
{
    bounded.iter().position(|each| label == each.label)
}

/// The newest of the unbounded clauses with a label.
fn newest(label: u32, free: &[Resource]) -> Option<Resource>
    ensures { result ≡ find (λ (r : Resource). nat_eq label r.label) (reverse free.now) }
{
    free.iter().rev().copied().find(|each| label == each.label)
}
