//! A root that owes 1, 2 and 9 is shared and drained.
ghost use Rattle.std.specs.Prelude.{◌≡◌, IfOk};

use crate::players::{Told, batch_of, label_of, publish, report_of, work};
use ll_core::{Pool, Ready};
use ll_laws::Event;
use ll_order::{OutFault, Outlet, drain};
use std::alloc::Global;
use std::process::Abort;
use std::test::Fail;

// Keeps the labels of the answers that it is given, as many as it has room for.
#[derive(Drop)]
struct Collected {
    labels: Vec<u32>,
    room: usize,
    faults: u64,
}

impl Outlet for Collected {
    type Found = Event;

    ghost use Rattle.std.specs.Prelude.{◌≡◌, ◌<◌};

    ghost takes = { λ before event after. Unit {0} };

    ghost breaks = { λ before event after. Unit {0} };

    ghost welcome = { λ before event. Unit {0} };

    ghost faults = { λ outlet. outlet.faults };

    fn event(&mut self, event: Event) -> Result<(), OutFault> {
        if self.labels.len() >= self.room {
            self.faults = self.faults.saturating_add(1);
            return Err(OutFault::Write);
        }
        match label_of(&event) {
            Some(label) => match self.labels.push(label) {
                Ok(()) => Ok(()),
                Err(_) => Err(OutFault::OutOfMemory),
            },
            None => Ok(()),
        }
    }
}

// The pool after all its pieces were reported.
fn shared(rt: &impl Abort, alloc: Global) -> Result<Pool<Told>, Fail> {
    let mut pool = Pool::new(alloc, batch_of(alloc, 1)?, 2)?;
    let (first, _) = work(rt, &mut pool, 0);
    publish(rt, &mut pool, first, batch_of(alloc, 1)?);
    publish(rt, &mut pool, first, batch_of(alloc, 2)?);
    pool.report(first, report_of(alloc, &[])?);
    for label in [9, 1, 2] {
        let (piece, _) = work(rt, &mut pool, 1);
        pool.report(piece, report_of(alloc, &[label])?);
    }
    Ok(pool)
}

#[test]
fn drains_in_the_order_of_one_engine(rt: HostRuntime) -> Result<(), Fail> {
    let alloc = rt.alloc();
    for (room, want) in [(9, 3), (2, 2)] {
        let mut pool = shared(&rt, alloc)?;
        let mut out = Collected {
            labels: Vec::new(alloc),
            room,
            faults: 0,
        };
        let look = pool.look();
        assert!(rt; look.untried == 0 && look.busy == 0);
        let drained = drain(&mut pool, &mut out);
        assert_eq!(rt;
            out.labels.as_slice(),
            [1, 2, 9].as_slice().get(..want).unwrap_or(&[])
        );
        match drained {
            Ok(counts) => {
                assert_eq!(rt;
                    (counts.answers, counts.reached, counts.inferences),
                    (3, 0, 3)
                );
                assert_eq!(rt; want, 3);
                assert!(rt; matches!(pool.ready(), Ready::All));
            }
            Err(fault) => {
                assert_eq!(rt; (fault, want), (OutFault::Write, 2));
            }
        }
    }
    Ok(())
}
