//! Giving the reports of a pool to an outlet.
ghost use Rattle.std.specs.Prelude.{◌≡◌, ◌+◌, ◌≤◌, ◌↔◌, Err, IfOk, OnOk, OnErr, count_by, map, ◌∷◌, []};
ghost use Rattle.ll_laws.specs.declared.Event.{Event};
ghost use Rattle.ll_laws.specs.Pool.{Taken};
ghost use Rattle.ll_laws.specs.Search.{cut_count, is_answer, is_reached};
ghost use Rattle.ll_laws.specs.Sound.{Each, Every};
ghost use Rattle.ll_laws.specs.Later.{Later};
ghost use Rattle.ll_order.specs.Outlets.{Rose, Gives, Refuses, CountsOf, events_left, cost_left};
ghost use Rattle.ll_order.specs.declared.outlet.OutFault.TheVariants.{Write};

use crate::outlet::{OutFault, Outlet};
use ll_core::{Pool, Ready};
use ll_laws::{Batch, Counts, Notice};

/// Gives an outlet all events that were not taken from the pool, in the order of one engine, and tells how many they were. Nothing is
/// untried or open in the pool, and all these events are welcome.
///
/// After `Ok` every piece is taken. After a refusal, which is the outlet's, a prefix of the events was given, and the next one was
/// refused. `Write` exactly where the outlet's count of faults rose.
pub fn drain<N: Batch<Found = O::Found>, O: Outlet>(
    pool: &mut Pool<N>,
    out: &mut O,
) -> Result<Counts, OutFault>
    requires done { (pool.old.untried ≡ 0) × (pool.old.busy ≡ 0) }
    requires welcome { Every (O.welcome out.old) (events_left N.alternatives pool.old) }
    ensures given { OnOk result (Gives O.takes out.old (events_left N.alternatives pool.old) out.new) }
    ensures counts { IfOk result (λ counts. CountsOf counts (events_left N.alternatives pool.old)
        (cost_left N.alternatives pool.old)) }
    ensures all { OnOk result (Each pool.new.pieces (λ x. x.status ≡ Taken)) }
    ensures refused { OnErr result (Refuses O.takes O.breaks out.old (events_left N.alternatives pool.old) out.new) }
    ensures write { result ≡ Err Write → Rose (O.faults out.old) (O.faults out.new) }
    ensures quiet { ¬ (result ≡ Err Write) → O.faults out.new ≡ O.faults out.old }
    ensures faults_kept { O.faults out.old ≤ O.faults out.new }
    ensures welcome_kept { (e : Event) → O.welcome out.old e ↔ O.welcome out.new e }
    ensures later { Later pool.old pool.new }
{
    let mut counts = Counts {
        answers: 0,
        reached: 0,
        inferences: 0,
    };
    while let Ready::Events(report) = pool.ready() {
        let inferences = counts.inferences.saturating_add(report.inferences);
        let given = match give(report.events, out, counts) {
            Ok(given) => given,
            Err(fault) => return Err(fault),
        };
        counts = Counts {
            inferences,
            ..given
        };
    }
    Ok(counts)
}

/// Gives an outlet the events of one report, which are welcome, in order, and adds them to the counts, whose inferences stay.
///
/// After a refusal, which is the outlet's, a prefix of the events was given, and the next one was refused. `Write` exactly where the
/// outlet's count of faults rose.
pub fn give<O: Outlet>(
    mut events: Vec<O::Found>,
    out: &mut O,
    counts: Counts,
) -> Result<Counts, OutFault>
    requires welcome { Every (O.welcome out.old) (map O.Found.stands_for events.items) }
    requires few { (counts.answers ≤ 18446744073709551615) × (counts.reached ≤ 18446744073709551615) }
    ensures given { OnOk result (Gives O.takes out.old (map O.Found.stands_for events.items) out.new) }
    ensures answers { IfOk result (λ new. new.answers
        ≡ cut_count (counts.answers + count_by is_answer (map O.Found.stands_for events.items))) }
    ensures reached { IfOk result (λ new. new.reached
        ≡ cut_count (counts.reached + count_by is_reached (map O.Found.stands_for events.items))) }
    ensures refused { OnErr result (Refuses O.takes O.breaks out.old (map O.Found.stands_for events.items) out.new) }
    ensures write { result ≡ Err Write → Rose (O.faults out.old) (O.faults out.new) }
    ensures quiet { ¬ (result ≡ Err Write) → O.faults out.new ≡ O.faults out.old }
    ensures faults_kept { O.faults out.old ≤ O.faults out.new }
    ensures welcome_kept { (e : Event) → O.welcome out.old e ↔ O.welcome out.new e }
{
    let counts = counted_all(counts, &events);
    match out.events(&mut events) {
        Ok(()) => Ok(counts),
        Err(fault) => Err(fault),
    }
}

// The counts with these events more, whose inferences stay.
fn counted_all<E: Notice>(mut counts: Counts, events: &[E]) -> Counts
    requires few { (counts.answers ≤ 18446744073709551615) × (counts.reached ≤ 18446744073709551615) }
    ensures answers { result.answers ≡ cut_count (counts.answers + count_by is_answer (map E.stands_for events.now)) }
    ensures reached { result.reached ≡ cut_count (counts.reached + count_by is_reached (map E.stands_for events.now)) }
{
    for event in events {
        counts = counted(counts, event);
    }
    counts
}

// The counts with one event more.
fn counted<E: Notice>(counts: Counts, event: &E) -> Counts
    ensures answers { result.answers ≡ cut_count (counts.answers + count_by is_answer (E.stands_for event.now ∷ [])) }
    ensures reached { result.reached ≡ cut_count (counts.reached + count_by is_reached (E.stands_for event.now ∷ [])) }
{
    if event.is_answer() {
        return Counts {
            answers: counts.answers.saturating_add(1),
            ..counts
        };
    }
    Counts {
        reached: counts.reached.saturating_add(1),
        ..counts
    }
}
