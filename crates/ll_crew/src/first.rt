//! The crew of a problem of which only the first answers are wanted.
ghost use Rattle.std.specs.Prelude.{◌≡◌, ◌↔◌, ◌<◌, ◌≤◌, None, Err, IfOk, IfSome, OnOk, OnErr, false, count_by};
ghost use Rattle.std.specs.Arc.{arc_value};
ghost use Rattle.ll_laws.specs.declared.Event.{Event};
ghost use Rattle.ll_laws.specs.Problem.{problem_events, problem_cost};
ghost use Rattle.ll_laws.specs.Search.{is_answer};
ghost use Rattle.ll_laws.specs.Sound.{Every};
ghost use Rattle.ll_laws.specs.Valid.{IsValid};
ghost use Rattle.ll_freeze.specs.Indexed.{IsIndexOf};
ghost use Rattle.ll_order.specs.Outlets.{Rose, Gives, GivesPrefix, CountsOf};
ghost use Rattle.ll_first.specs.Upto.{first_of};
ghost use Rattle.ll_crew.specs.declared.fault.CrewFault.{CrewFault};

use crate::fault::CrewFault;
use crate::job::Sharing;
use crate::team::Team;
use crate::whole::crew_with;
use ll_edge::Gate;
use ll_first::{Enough, Until};
use ll_index::Index;
use ll_laws::{Counts, Problem};
use std::alloc::Global;
use std::sync::{Arc, Wait};
use std::thread::Threads;

/// Searches a valid problem with 1 to 64 workers, of which the caller is the first, and gives the outlet the events of the search in
/// order, as [`crew`](crate::crew) does, until the outlet has had enough answers: it has taken none yet. Where it has had enough the
/// workers leave, and what they search is not searched to its end.
///
/// `None` exactly where the search has as many answers as the outlet wants: the events up to the last of these were given, and no others.
/// Otherwise all events were given, and the answer has their counts and the cost of the search. On a refusal a prefix of what would have
/// been given was, with fewer answers than are wanted. `Write` only where the outlet's count of faults rose.
///
/// The program does not call it: it has an index already, for [`crew_first_with`].
pub fn crew_first<'p, R: Threads + Wait + Sync, G: Gate, E: Enough>(
    rt: &R,
    alloc: Global,
    problem: &'p Problem,
    workers: u32,
    gate: &G,
    out: &mut E,
) -> Result<Option<Counts>, CrewFault>
    requires workers { (0 < workers) × (workers ≤ 64) }
    requires valid { IsValid problem.now }
    requires suits { E.Found.suits problem.now }
    requires none_yet { E.answers out.old ≡ 0 }
    requires welcome { Every (E.welcome out.old) (problem_events problem.now) }
    ensures enough { IfOk result (λ o. (o ≡ None) ↔ (E.limit out.old
        ≤ count_by is_answer (problem_events problem.entry.now))) }
    ensures given { OnOk result (Gives E.takes out.old
        (first_of (problem_events problem.entry.now) (E.limit out.old)) out.new) }
    ensures counts { IfOk result (λ o. IfSome o (λ counts. CountsOf counts (problem_events problem.entry.now)
        (problem_cost problem.entry.now))) }
    ensures refused { OnErr result
        (GivesPrefix E.takes E.breaks out.old (first_of (problem_events problem.entry.now) (E.limit out.old)) out.new) }
    ensures fewer { OnErr result (E.answers out.new < E.limit out.old) }
    ensures write { result ≡ Err CrewFault.Write → Rose (E.faults out.old) (E.faults out.new) }
    ensures faults_kept { E.faults out.old ≤ E.faults out.new }
    ensures welcome_kept { (e : Event) → E.welcome out.old e ↔ E.welcome out.new e }
{
    let Ok(index) = Index::shared(alloc, problem) else {
        return Err(CrewFault::OutOfMemory);
    };
    let team = Team {
        rt,
        alloc,
        workers,
        gate,
    };
    let mut until = Until { out, ended: false };
    give_until(&team, problem, &index, &mut until)
}

/// The same, with an index of the problem's clauses that was made before: problems of the same clauses may share it.
pub fn crew_first_with<'p, R: Threads + Wait + Sync, G: Gate, E: Enough>(
    team: &Team<'_, R, G>,
    problem: &'p Problem,
    index: &Arc<Index>,
    out: &mut E,
) -> Result<Option<Counts>, CrewFault>
    requires valid { IsValid problem.now }
    requires suits { E.Found.suits problem.now }
    requires index { IsIndexOf problem.now (arc_value index.now) }
    requires none_yet { E.answers out.old ≡ 0 }
    requires welcome { Every (E.welcome out.old) (problem_events problem.now) }
    ensures enough { IfOk result (λ o. (o ≡ None) ↔ (E.limit out.old
        ≤ count_by is_answer (problem_events problem.entry.now))) }
    ensures given { OnOk result (Gives E.takes out.old
        (first_of (problem_events problem.entry.now) (E.limit out.old)) out.new) }
    ensures counts { IfOk result (λ o. IfSome o (λ counts. CountsOf counts (problem_events problem.entry.now)
        (problem_cost problem.entry.now))) }
    ensures refused { OnErr result
        (GivesPrefix E.takes E.breaks out.old (first_of (problem_events problem.entry.now) (E.limit out.old)) out.new) }
    ensures fewer { OnErr result (E.answers out.new < E.limit out.old) }
    ensures write { result ≡ Err CrewFault.Write → Rose (E.faults out.old) (E.faults out.new) }
    ensures faults_kept { E.faults out.old ≤ E.faults out.new }
    ensures welcome_kept { (e : Event) → E.welcome out.old e ↔ E.welcome out.new e }
{
    let mut until = Until { out, ended: false };
    give_until(team, problem, index, &mut until)
}

// The same, with an outlet that hands on what it is given.
fn give_until<'p, 's, R: Threads + Wait + Sync, G: Gate, E: Enough>(
    team: &Team<'_, R, G>,
    problem: &'p Problem,
    index: &Arc<Index>,
    until: &mut Until<'s, E>,
) -> Result<Option<Counts>, CrewFault>
    requires valid { IsValid problem.now }
    requires suits { E.Found.suits problem.now }
    requires index { IsIndexOf problem.now (arc_value index.now) }
    requires starts { until.old.ended ≡ false }
    requires none_yet { E.answers until.old.out.now ≡ 0 }
    requires welcome { Every (E.welcome until.old.out.now) (problem_events problem.now) }
    ensures same_reference { until.new.out.ghost_name ≡ until.old.out.ghost_name }
    ensures enough { IfOk result (λ o. (o ≡ None) ↔ (E.limit until.old.out.now
        ≤ count_by is_answer (problem_events problem.entry.now))) }
    ensures given { OnOk result (Gives E.takes until.old.out.now
        (first_of (problem_events problem.entry.now) (E.limit until.old.out.now)) until.new.out.now) }
    ensures counts { IfOk result (λ o. IfSome o (λ counts. CountsOf counts (problem_events problem.entry.now)
        (problem_cost problem.entry.now))) }
    ensures refused { OnErr result (GivesPrefix E.takes E.breaks until.old.out.now
        (first_of (problem_events problem.entry.now) (E.limit until.old.out.now)) until.new.out.now) }
    ensures fewer { OnErr result (E.answers until.new.out.now < E.limit until.old.out.now) }
    ensures write { result ≡ Err CrewFault.Write → Rose (E.faults until.old.out.now) (E.faults until.new.out.now) }
    ensures faults_kept { E.faults until.old.out.now ≤ E.faults until.new.out.now }
    ensures welcome_kept { (e : Event) → E.welcome until.old.out.now e ↔ E.welcome until.new.out.now e }
{
    match crew_with(team, problem, index, Sharing::AfterAnswer, until) {
        Ok(counts) => Ok(Some(counts)),
        Err(_) if until.ended => Ok(None),
        Err(fault) => Err(fault),
    }
}
