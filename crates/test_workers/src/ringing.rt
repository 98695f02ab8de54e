//! That a worker that heard a bell before it rang does not wait for it.
use crate::apart::made;
use ll_crew::{Bell, crew_of};
use ll_index::Index;
use ll_laws::Event;
use ll_make::MakeKind;
use std::test::Fail;

// A worker hears the bell and takes a turn, and then the bell rings. One that waits for a ring all the same would wait for ever.
#[test]
fn a_bell_that_rang_keeps_nobody(rt: HostRuntime) -> Result<(), Fail> {
    let alloc = rt.alloc();
    let problem = made(alloc, MakeKind::Choice, 2)?;
    let index = Index::shared(alloc, &problem)?;
    let (pool, mut seat, others) = crew_of::<Event>(alloc, &problem, index, 1)?;
    let bell = Bell::new();
    let heard = bell.heard(&rt, &seat);
    let claimed = pool.claim(&rt, &mut seat);
    let _woken = bell.ring(&rt, 0);
    bell.wait(&rt, false, heard, &seat);
    drop(claimed);
    drop(others);
    drop(seat);
    drop(pool);
    Ok(())
}
