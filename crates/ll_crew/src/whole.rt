//! The crew of a problem.
ghost use Rattle.std.specs.Prelude.{◌≡◌, ◌<◌, ◌≤◌, ◌↔◌, [], Err, IfOk, OnOk, OnErr, map};
ghost use Rattle.std.specs.Arc.{arc_value};
ghost use Rattle.ll_laws.specs.declared.Event.{Event};
ghost use Rattle.ll_laws.specs.Problem.{problem_events, problem_cost};
ghost use Rattle.ll_laws.specs.Sound.{Every};
ghost use Rattle.ll_laws.specs.Valid.{IsValid};
ghost use Rattle.ll_freeze.specs.Indexed.{IsIndexOf};
ghost use Rattle.ll_order.specs.Outlets.{Rose, Gives, GivesPrefix, CountsOf};
ghost use Rattle.ll_crew.specs.declared.fault.CrewFault.{CrewFault};
ghost use Rattle.ll_crew.specs.Crews.{worker_of, without_all};
ghost use Rattle.ll_crew.specs.Leading.{Kept, Leads};
ghost use Rattle.ll_crew.specs.Turns.{CanWork};

use crate::alone::search_alone;
use crate::bell::Bell;
use crate::crowd::work_together;
use crate::fault::CrewFault;
use crate::giving::{Start, finish};
use crate::job::{Job, Sharing};
use crate::offer::Offer;
use crate::pool::{close, crew_of};
use crate::team::Team;
use ll_edge::Gate;
use ll_index::Index;
use ll_laws::{Counts, Notice, Problem};
use ll_order::Outlet;
use ll_pool::{Seat, SharedPool};
use std::alloc::Global;
use std::snapshot::Snapshot;
use std::sync::{Arc, Wait};
use std::thread::Threads;

// The pool of a search, the seats of all its workers, of which the first stands by itself, and what these leave to others.
#[derive(Drop)]
struct Seats<'p, E: Notice> {
    pool: SharedPool<Offer<'p, E>>,
    first: Seat<Offer<'p, E>>,
    others: Vec<Seat<Offer<'p, E>>>,
    sharing: Sharing,
}

// Searches with these seats, and gives the outlet what was found.
fn search<'p, R: Threads + Wait + Sync, G: Gate, O: Outlet>(
    team: &Team<'_, R, G>,
    problem: &'p Problem,
    seats: Seats<'p, O::Found>,
    out: &mut O,
) -> Result<Counts, CrewFault>
    requires first { CanWork seats.pool problem.now seats.first × (seats.first.mine.worker ≡ 0)
        × (without_all (map worker_of seats.others.items) seats.first.given ≡ []) }
    requires others { Every (CanWork seats.pool problem.now) seats.others.items }
    requires suits { O.Found.suits problem.now }
    requires leads { Leads O.Outlet out.old problem.now seats.first.mine.seen out.old
        (record { answers = 0; reached = 0; inferences = 0 }) }
    ensures given { OnOk result (Gives O.takes out.old (problem_events problem.entry.now) out.new) }
    ensures counts { IfOk result (λ counts. CountsOf counts (problem_events problem.entry.now)
        (problem_cost problem.entry.now)) }
    ensures refused { OnErr result (GivesPrefix O.takes O.breaks out.old (problem_events problem.entry.now) out.new) }
    ensures write { result ≡ Err CrewFault.Write → Rose (O.faults out.old) (O.faults out.new) }
    ensures kept { Kept O.Outlet out.old out.new }
{
    let Seats {
        pool,
        mut first,
        others,
        sharing,
    } = seats;
    let start = Snapshot::of(&*out);
    let bell = if others.is_empty() {
        Bell::silent()
    } else {
        Bell::new()
    };
    let job = Job {
        rt: team.rt,
        alloc: team.alloc,
        problem,
        pool: &pool,
        bell: &bell,
        gate: team.gate,
        sharing,
        start: &start,
    };
    let (others, lead) = work_together(&job, &mut first, out, others);
    let closed = close(problem, pool, first, others);
    let begun = Start {
        problem,
        out: &start,
    };
    finish(&begun, closed, &lead, out)
}

/// Searches a valid problem with 1 to 64 workers, of which the caller is the first, and gives the outlet the events of the search in
/// order, each as soon as it is known that it is the next. One worker alone starts no thread and shares nothing: after every 256 steps it
/// gives what it found.
///
/// `Ok` has the counts of the events and the cost of the search. On a refusal a prefix of the events was given. `Write` only where the
/// outlet's count of faults rose. A worker for which no thread can be started has its share done by the others.
///
/// The program does not call it: it has an index already, for [`crew_with`].
pub fn crew<'p, R: Threads + Wait + Sync, G: Gate, O: Outlet>(
    rt: &R,
    alloc: Global,
    problem: &'p Problem,
    workers: u32,
    gate: &G,
    out: &mut O,
) -> Result<Counts, CrewFault>
    requires workers { (0 < workers) × (workers ≤ 64) }
    requires valid { IsValid problem.now }
    requires suits { O.Found.suits problem.now }
    requires welcome { Every (O.welcome out.old) (problem_events problem.now) }
    ensures given { OnOk result (Gives O.takes out.old (problem_events problem.entry.now) out.new) }
    ensures counts { IfOk result (λ counts. CountsOf counts (problem_events problem.entry.now)
        (problem_cost problem.entry.now)) }
    ensures refused { OnErr result (GivesPrefix O.takes O.breaks out.old (problem_events problem.entry.now) out.new) }
    ensures write { result ≡ Err CrewFault.Write → Rose (O.faults out.old) (O.faults out.new) }
    ensures faults_kept { O.faults out.old ≤ O.faults out.new }
    ensures welcome_kept { (e : Event) → O.welcome out.old e ↔ O.welcome out.new e }
{
    let Ok(index) = Index::shared(alloc, problem) else {
        return Err(CrewFault::OutOfMemory);
    };
    let team = Team {
        rt,
        alloc,
        workers,
        gate,
    };
    crew_with(&team, problem, &index, Sharing::WhereIdle, out)
}

/// The same crew, with an index of the problem's clauses that was made before: problems of the same clauses may share it. It is told
/// when workers leave choice points to others.
pub fn crew_with<'p, R: Threads + Wait + Sync, G: Gate, O: Outlet>(
    team: &Team<'_, R, G>,
    problem: &'p Problem,
    index: &Arc<Index>,
    sharing: Sharing,
    out: &mut O,
) -> Result<Counts, CrewFault>
    requires valid { IsValid problem.now }
    requires suits { O.Found.suits problem.now }
    requires index { IsIndexOf problem.now (arc_value index.now) }
    requires welcome { Every (O.welcome out.old) (problem_events problem.now) }
    ensures given { OnOk result (Gives O.takes out.old (problem_events problem.entry.now) out.new) }
    ensures counts { IfOk result (λ counts. CountsOf counts (problem_events problem.entry.now)
        (problem_cost problem.entry.now)) }
    ensures refused { OnErr result (GivesPrefix O.takes O.breaks out.old (problem_events problem.entry.now) out.new) }
    ensures write { result ≡ Err CrewFault.Write → Rose (O.faults out.old) (O.faults out.new) }
    ensures faults_kept { O.faults out.old ≤ O.faults out.new }
    ensures welcome_kept { (e : Event) → O.welcome out.old e ↔ O.welcome out.new e }
{
    let Ok(index) = Arc::try_clone(index) else {
        return Err(CrewFault::OutOfMemory);
    };
    if team.workers == 1 {
        team.gate.pause(0, 0);
        return search_alone(team.alloc, problem, index, out);
    }
    match crew_of(team.alloc, problem, index, team.workers) {
        Ok((pool, first, others)) => {
            let seats = Seats {
                pool,
                first,
                others,
                sharing,
            };
            search(team, problem, seats, out)
        }
        Err(_) => Err(CrewFault::OutOfMemory),
    }
}
