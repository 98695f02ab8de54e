//! Each public call, with ample memory.
ghost use Rattle.ll_agenda.specs.Frames.{HasTop};

use ll_agenda::{Agenda, Top};
use std::process::Abort;
use std::test::Fail;

// Reads a list one item after another, to its end.
fn assert_items(rt: &impl Abort, agenda: &Agenda<u32>, top: Top, items: &[u32])
    requires { HasTop agenda.now top }
{
    let mut rest = top;
    for want in items {
        let (item, behind) = agenda.item(rest).expect(rt, "the list goes on");
        assert_eq!(rt; item, *want, "in {items:?}");
        rest = behind;
    }
    assert!(rt; agenda.item(rest).is_none(), "behind {items:?}");
}

#[test]
fn shares_rests(rt: HostRuntime) -> Result<(), Fail> {
    let mut agenda = Agenda::new(rt.alloc());
    let none = Agenda::<u32>::none();
    assert_items(&rt, &agenda, none, &[]);
    assert_eq!(rt; agenda.len(), 0);
    let shared = agenda.push(3, none)?;
    let left = agenda.push(1, shared)?;
    let right = agenda.push(2, shared)?;
    assert_eq!(rt; agenda.len(), 3);
    assert_items(&rt, &agenda, none, &[]);
    assert_items(&rt, &agenda, shared, &[3]);
    assert_items(&rt, &agenda, left, &[1, 3]);
    assert_items(&rt, &agenda, right, &[2, 3]);
    Ok(())
}

#[test]
fn images_one_list(rt: HostRuntime) -> Result<(), Fail> {
    let mut agenda = Agenda::new(rt.alloc());
    let shared = agenda.push('c', Agenda::<char>::none())?;
    agenda.push('b', shared)?;
    let top = agenda.push('a', shared)?;
    let (image, copy) = agenda.image(top)?;
    assert_eq!(rt; image.len(), 2);
    let (first, rest) = image.item(copy).expect(&rt, "the first");
    let (last, end) = image.item(rest).expect(&rt, "the last");
    assert_eq!(rt; (first, last), ('a', 'c'));
    assert!(rt; image.item(end).is_none());
    let (image, copy) = agenda.image(Agenda::<char>::none())?;
    assert_eq!(rt; image.len(), 0);
    assert!(rt; image.item(copy).is_none());
    Ok(())
}

#[test]
fn drops_the_last_frame(rt: HostRuntime) -> Result<(), Fail> {
    let mut agenda = Agenda::new(rt.alloc());
    let rest = agenda.push(2, Agenda::<u32>::none())?;
    let top = agenda.push(1, rest)?;
    assert!(rt; agenda.is_last(top));
    assert!(rt; !agenda.is_last(rest));
    agenda.cut(1);
    assert!(rt; agenda.is_last(rest));
    assert_items(&rt, &agenda, rest, &[2]);
    Ok(())
}

#[test]
fn cuts_frames(rt: HostRuntime) -> Result<(), Fail> {
    let mut agenda = Agenda::new(rt.alloc());
    let none = Agenda::<u32>::none();
    let shared = agenda.push(3, none)?;
    let left = agenda.push(1, shared)?;
    let len = agenda.len();
    agenda.push(2, shared)?;
    agenda.push(4, left)?;
    assert!(rt; len <= agenda.len());
    agenda.cut(len);
    assert_eq!(rt; agenda.len(), 2);
    assert_items(&rt, &agenda, left, &[1, 3]);
    assert_items(&rt, &agenda, shared, &[3]);
    let right = agenda.push(5, shared)?;
    assert_items(&rt, &agenda, right, &[5, 3]);
    assert_items(&rt, &agenda, left, &[1, 3]);
    agenda.cut(0);
    assert_eq!(rt; agenda.len(), 0);
    assert_items(&rt, &agenda, none, &[]);
    Ok(())
}
