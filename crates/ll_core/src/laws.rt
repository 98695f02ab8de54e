//! The laws of core events. The program calls no function of this module.
ghost use Rattle.ll_core.specs.Laws.{KeepsSound, LeadsOn, LeavesOpen, LeavesNone, ClaimGives, PublishSplits, ReportCloses, TakesAlone, KeepsWorkers};
ghost use Rattle.ll_core.specs.Laws.{SpreadsRoot, RunsSound, ClaimsOnce, ReportsOwed, LaterItself, LaterOn, NothingComes};
ghost use Rattle.ll_core.specs.Given.{NoneGiven, GivenOn, TakenStays, GivenInFront, GivenAndLeft, LeavesTaken, LeavesMarks};

use ll_laws::Batch;

/// What each lawful event keeps, and what it does to the open pieces of its own worker and of the others.
pub fn lawful_events<N: Batch>()
    ensures sound { KeepsSound N.of N.alternatives }
    ensures later { LeadsOn N.of N.alternatives }
    ensures others_open { LeavesOpen N.of N.alternatives }
    ensures others_none { LeavesNone N.of N.alternatives }
    ensures claims { ClaimGives N.of N.alternatives }
    ensures publishes { PublishSplits N.of N.alternatives }
    ensures reports { ReportCloses N.of N.alternatives }
    ensures takes { TakesAlone N.of N.alternatives }
    ensures workers { KeepsWorkers N.of N.alternatives }
{}

/// Every list of lawful events from a new pool leads to a sound pool, which spreads what its root owes. No alternative is claimed
/// twice, and once nothing is untried or open the reports are what the root owes.
pub fn every_run<N: Batch>()
    ensures spreads { SpreadsRoot N.of N.alternatives }
    ensures sound { RunsSound N.of N.alternatives }
    ensures once { ClaimsOnce N.of N.alternatives }
    ensures reports { ReportsOwed N.of N.alternatives }
{}

/// A pool is later than itself, later is transitive, and after a pool in which nothing is untried or open nothing comes.
pub fn later_pools<N: Batch>()
    ensures itself { LaterItself N.of N.alternatives }
    ensures on { LaterOn N.of N.alternatives }
    ensures nothing { NothingComes N.of N.alternatives }
{}

/// The reports that were taken from a pool are what the front of its walk owes: of a new pool none, after a lawful event those of before and the one
/// that it takes. Others may publish meanwhile: what they do stands behind. Once nothing is untried or open, what was taken and what is left are
/// what the root owes. An event that takes no report leaves the taken pieces as they are, and only `starve` and `stop` change their marks.
pub fn taken_reports<N: Batch>()
    ensures none { NoneGiven N.of N.alternatives }
    ensures on { GivenOn N.of N.alternatives }
    ensures stays { TakenStays N.of N.alternatives }
    ensures front { GivenInFront N.of N.alternatives }
    ensures left { GivenAndLeft N.of N.alternatives }
    ensures leaves_taken { LeavesTaken N.of N.alternatives }
    ensures leaves_marks { LeavesMarks N.of N.alternatives }
{}
