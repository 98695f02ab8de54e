//! What the outlet is given by no worker: what a search by the caller alone has found, and what is left once the workers have come to the end.
ghost use Rattle.std.specs.Prelude.{◌≡◌, ◌≤◌, ◌+◌, Ok, Err, IfOk, OnOk, OnErr, count_by, map, true, false};
ghost use Rattle.ll_laws.specs.Problem.{problem_events, problem_cost};
ghost use Rattle.ll_laws.specs.Search.{cut_count, is_answer, is_reached};
ghost use Rattle.ll_laws.specs.Sound.{Every};
ghost use Rattle.ll_order.specs.Outlets.{Rose, Gives, GivesPrefix, Refuses, CountsOf};
ghost use Rattle.ll_crew.specs.declared.fault.CrewFault.{CrewFault};
ghost use Rattle.ll_crew.specs.Leading.{Kept, Leads, StoppedOf};

use crate::fault::{CrewFault, fault_of};
use crate::lead::Delivery;
use crate::offer::Offer;
use ll_bank::OutOfMemory;
use ll_core::Pool;
use ll_laws::{Counts, Problem};
use ll_order::{Outlet, drain, give};
use std::snapshot::Snapshot;

/// Gives the outlet events, which are welcome, and counts them.
pub fn give_some<O: Outlet>(
    events: Vec<O::Found>,
    counts: Counts,
    out: &mut O,
) -> Result<Counts, CrewFault>
    requires welcome { Every (O.welcome out.old) (map O.Found.stands_for events.items) }
    requires few { (counts.answers ≤ 18446744073709551615) × (counts.reached ≤ 18446744073709551615) }
    ensures given { OnOk result (Gives O.takes out.old (map O.Found.stands_for events.items) out.new) }
    ensures answers { IfOk result (λ new. new.answers
        ≡ cut_count (counts.answers + count_by is_answer (map O.Found.stands_for events.items))) }
    ensures reached { IfOk result (λ new. new.reached
        ≡ cut_count (counts.reached + count_by is_reached (map O.Found.stands_for events.items))) }
    ensures refused { OnErr result
        (GivesPrefix O.takes O.breaks out.old (map O.Found.stands_for events.items) out.new) }
    ensures write { result ≡ Err CrewFault.Write → Rose (O.faults out.old) (O.faults out.new) }
    ensures kept { Kept O.Outlet out.old out.new }
{
    match give(events, out, counts) {
        Ok(counts) => Ok(counts),
        Err(fault) => Err(fault_of(fault)),
    }
}

// The counts of both, each cut at the greatest `u64`.
fn sum_of(one: Counts, other: Counts) -> Counts
    ensures answers { result.answers ≡ cut_count (one.answers + other.answers) }
    ensures reached { result.reached ≡ cut_count (one.reached + other.reached) }
    ensures inferences { result.inferences ≡ cut_count (one.inferences + other.inferences) }
{
    Counts {
        answers: one.answers.saturating_add(other.answers),
        reached: one.reached.saturating_add(other.reached),
        inferences: one.inferences.saturating_add(other.inferences),
    }
}

/// What a search started with.
#[derive(Drop)]
pub struct Start<'a, 'p, O> {
    /// What is searched.
    pub problem: &'p Problem,
    /// The outlet as the crew was given it.
    pub out: &'a Snapshot<O>,
}

// Gives the outlet what worker 0 has not given, once nothing is untried or open.
fn give_rest<'p, O: Outlet>(
    start: &Start<'_, 'p, O>,
    mut pool: Pool<Offer<'p, O::Found>>,
    counts: Counts,
    out: &mut O,
) -> Result<Counts, CrewFault>
    requires done { (pool.untried ≡ 0) × (pool.busy ≡ 0) }
    requires leads { Leads O.Outlet start.now.out.now.value start.now.problem.now pool out.old counts }
    ensures given { OnOk result
        (Gives O.takes start.now.out.now.value (problem_events start.now.problem.now) out.new) }
    ensures counts { IfOk result (λ counts. CountsOf counts (problem_events start.now.problem.now)
        (problem_cost start.now.problem.now)) }
    ensures refused { OnErr result
        (Refuses O.takes O.breaks start.now.out.now.value (problem_events start.now.problem.now) out.new) }
    ensures write { result ≡ Err CrewFault.Write → Rose (O.faults start.now.out.now.value) (O.faults out.new) }
    ensures kept { Kept O.Outlet start.now.out.now.value out.new }
{
    let _start = start;
    match drain(&mut pool, out) {
        Ok(rest) => Ok(sum_of(counts, rest)),
        Err(fault) => Err(fault_of(fault)),
    }
}

/// How the work of the worker that leads ended.
#[derive(Drop)]
pub struct Lead {
    /// What it has told the outlet.
    pub told: Delivery,
    /// Whether the workers came to the end, or why it left.
    pub done: Result<bool, OutOfMemory>,
}

/// Gives the outlet what is left, where the workers came to the end, and says else why they stopped.
pub fn finish<'p, O: Outlet>(
    start: &Start<'_, 'p, O>,
    pool: Pool<Offer<'p, O::Found>>,
    lead: &Lead,
    out: &mut O,
) -> Result<Counts, CrewFault>
    requires leads { lead.now.told.leads ≡ true }
    requires done { lead.now.done ≡ Ok true → (pool.untried ≡ 0) × (pool.busy ≡ 0)
        × Leads O.Outlet start.now.out.now.value start.now.problem.now pool out.old lead.now.told.counts }
    requires left { IfOk lead.now.done (λ done. done ≡ false
        → StoppedOf O.Outlet start.now.out.now.value start.now.problem.now out.old lead.now.told) }
    requires failed { OnErr lead.now.done
        (StoppedOf O.Outlet start.now.out.now.value start.now.problem.now out.old lead.now.told) }
    ensures given { OnOk result
        (Gives O.takes start.now.out.now.value (problem_events start.now.problem.now) out.new) }
    ensures counts { IfOk result (λ counts. CountsOf counts (problem_events start.now.problem.now)
        (problem_cost start.now.problem.now)) }
    ensures refused { OnErr result
        (GivesPrefix O.takes O.breaks start.now.out.now.value (problem_events start.now.problem.now) out.new) }
    ensures write { result ≡ Err CrewFault.Write → Rose (O.faults start.now.out.now.value) (O.faults out.new) }
    ensures kept { Kept O.Outlet start.now.out.now.value out.new }
{
    if let Ok(true) = lead.done {
        return give_rest(start, pool, lead.told.counts, out);
    }
    drop(pool);
    match lead.told.fault {
        Some(fault) => Err(fault_of(fault)),
        None => Err(CrewFault::OutOfMemory),
    }
}
