//! A search by the caller alone.
ghost use Rattle.std.specs.Prelude.{◌≡◌, Err, IfOk, OnOk, OnErr};
ghost use Rattle.std.specs.Arc.{arc_value};
ghost use Rattle.ll_laws.specs.Problem.{problem_events, problem_cost};
ghost use Rattle.ll_laws.specs.Sound.{Every};
ghost use Rattle.ll_laws.specs.Valid.{IsValid};
ghost use Rattle.ll_freeze.specs.Indexed.{IsIndexOf};
ghost use Rattle.ll_order.specs.Outlets.{Rose, Gives, GivesPrefix, CountsOf};
ghost use Rattle.ll_crew.specs.declared.fault.CrewFault.{CrewFault};
ghost use Rattle.ll_crew.specs.Leading.{Kept};

use crate::fault::CrewFault;
use crate::giving::give_some;
use crate::piece::stretch;
use ll_engine::Engine;
use ll_index::Index;
use ll_laws::{Counts, Problem};
use ll_order::Outlet;
use std::alloc::Global;
use std::sync::Arc;

/// Searches a valid problem by one engine with an index of its clauses, and gives the outlet what was found after every few steps. Its
/// clauses are those of [`crew`](crate::crew).
pub(crate) fn search_alone<'p, O: Outlet>(
    alloc: Global,
    problem: &'p Problem,
    index: Arc<Index>,
    out: &mut O,
) -> Result<Counts, CrewFault>
    requires valid { IsValid problem.now }
    requires suits { O.Found.suits problem.now }
    requires index { IsIndexOf problem.now (arc_value index) }
    requires welcome { Every (O.welcome out.old) (problem_events problem.now) }
    ensures given { OnOk result (Gives O.takes out.old (problem_events problem.entry.now) out.new) }
    ensures counts { IfOk result (λ counts. CountsOf counts (problem_events problem.entry.now)
        (problem_cost problem.entry.now)) }
    ensures refused { OnErr result (GivesPrefix O.takes O.breaks out.old (problem_events problem.entry.now) out.new) }
    ensures write { result ≡ Err CrewFault.Write → Rose (O.faults out.old) (O.faults out.new) }
    ensures kept { Kept O.Outlet out.old out.new }
{
    let Ok(mut engine) = Engine::start_with(alloc, problem, index) else {
        return Err(CrewFault::OutOfMemory);
    };
    let mut counts = Counts {
        answers: 0,
        reached: 0,
        inferences: 0,
    };
    'stretches: loop {
        let mut events = Vec::new(alloc);
        let Ok(done) = stretch(&mut engine, &mut events, false) else {
            return Err(CrewFault::OutOfMemory);
        };
        match give_some(events, counts, out) {
            Ok(more) => counts = more,
            Err(fault) => return Err(fault),
        }
        if done {
            return Ok(Counts {
                inferences: engine.cost(),
                ..counts
            });
        }
    }
}
