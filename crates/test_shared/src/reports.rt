//! The order in which the reports of a pool are read, and a pool of many pieces: one caller plays all workers.
ghost use Rattle.std.specs.Prelude.{◌≡◌, ◌<◌};

use crate::players::{Told, batch_of, has_finished, label_of, next, publish, report_of, work};
use ll_core::{Pool, Ready};
use std::process::Abort;
use std::test::Fail;

// The next report is there, with the answers of these labels.
fn assert_events(rt: &impl Abort, pool: &mut Pool<Told>, want: &[u32])
    ensures { pool.new.workers ≡ pool.old.workers }
{
    match next(pool) {
        Ready::Events(report) => {
            let labels = report.events.iter().map(|event| label_of(event));
            assert!(rt;
                labels.eq(want.iter().map(|label| Some(*label))),
                "{want:?}"
            );
        }
        _ => panic!(rt; "{want:?} were ready"),
    }
}

// No report is there, for want of this piece, or of an alternative that is not claimed.
fn assert_waits(rt: &impl Abort, pool: &mut Pool<Told>, want: Option<u32>)
    ensures { pool.new.workers ≡ pool.old.workers }
{
    match next(pool) {
        Ready::NotYet { piece } => assert_eq!(rt; piece, want),
        _ => panic!(rt; "{want:?} is waited for"),
    }
}

#[test]
fn waits_for_an_open_root(rt: HostRuntime) -> Result<(), Fail> {
    let alloc = rt.alloc();
    let mut pool = Pool::new(alloc, batch_of(alloc, 1)?, 2)?;
    assert_eq!(rt; work(&rt, &mut pool, 0), (0, 0));
    assert_waits(&rt, &mut pool, Some(0));
    Ok(())
}

// A root that owes 1, 2 and 9 publishes 9 first: what was published last is read first.
#[test]
fn reads_the_last_published_first(rt: HostRuntime) -> Result<(), Fail> {
    let alloc = rt.alloc();
    let mut pool = Pool::new(alloc, batch_of(alloc, 1)?, 2)?;
    let (first, _) = work(&rt, &mut pool, 0);
    publish(&rt, &mut pool, first, batch_of(alloc, 1)?);
    publish(&rt, &mut pool, first, batch_of(alloc, 2)?);
    pool.report(first, report_of(alloc, &[])?);
    assert_events(&rt, &mut pool, &[]);
    assert_waits(&rt, &mut pool, None);
    for (want, label) in [(1, 9), (2, 1), (3, 2)] {
        let (piece, _) = work(&rt, &mut pool, 1);
        assert_eq!(rt; piece, want);
        pool.report(piece, report_of(alloc, &[label])?);
    }
    for want in [1, 2, 9] {
        assert_events(&rt, &mut pool, &[want]);
    }
    assert!(rt; matches!(next(&mut pool), Ready::All));
    assert!(rt; has_finished(&rt, &mut pool));
    Ok(())
}

// One worker claims so many pieces. Each of the first half publishes two batches of one alternative.
#[test]
fn many_pieces(rt: HostRuntime) -> Result<(), Fail> {
    let alloc = rt.alloc();
    let pieces = 100_001;
    let mut pool = Pool::new(alloc, batch_of(alloc, 1)?, 1)?;
    for i in 0..pieces {
        let (piece, _) = work(&rt, &mut pool, 0);
        if i < pieces / 2 {
            publish(&rt, &mut pool, piece, batch_of(alloc, 1)?);
            publish(&rt, &mut pool, piece, batch_of(alloc, 1)?);
        }
        pool.report(piece, report_of(alloc, &[])?);
        assert!(rt; matches!(next(&mut pool), Ready::Events(_)) || i > 0);
    }
    assert!(rt; has_finished(&rt, &mut pool));
    Ok(())
}
