//! Shelves and sinks, in memory and of the system.
ghost use Rattle.std.specs.Prelude.{◌≤◌, ◌<◌, length, IfSome, IsTrue};
ghost use Rattle.ll_edge.specs.Counts.{Rose};
ghost use Rattle.ll_edge.specs.Texts.{text_of};

use ll_edge::{
    FileShelf, Gate, MemShelf, MemSink, OpenGate, ReadFault, Shelf, Sink, StdSink, read_text,
    write_all,
};
use std::alloc::{AllocError, Global};
use std::test::Fail;
use std::{env, fs, process};

// No call has this number in these tests.
const NEVER: u64 = 99;

// A shelf with a text `prog` of so many bytes and a text `ques`, one call of which fails.
fn shelf_of(alloc: Global, len: usize, failing: u64) -> Result<MemShelf, AllocError> {
    let mut texts = Vec::new(alloc);
    texts.push((String::from_str(alloc, "prog")?, vec![in alloc; b'a'; len]?))?;
    let query = Vec::from_slice(alloc, b"true")?;
    texts.push((String::from_str(alloc, "ques")?, query))?;
    Ok(MemShelf::new(texts, vec![in alloc; failing]?))
}

// A caller knows that a told text within the limit is read, unless the shelf fails or memory is short.
fn is_read<F: Shelf>(alloc: Global, shelf: &mut F, name: &str, limit: usize) -> bool
    requires { limit < usize.MAX }
    ensures { (Rose (F.faults shelf.old) (F.faults shelf.new) → ⊥)
        → IfSome (F.texts shelf.old) (λ told. IfSome (text_of told name.now)
        (λ text. length text ≤ limit → IsTrue result)) }
{
    match read_text(alloc, shelf, name, limit) {
        Ok(_) => true,
        Err(ReadFault::OutOfMemory) => true,
        Err(_) => false,
    }
}

#[test]
fn texts_are_read_up_to_the_limit(rt: HostRuntime) -> Result<(), Fail> {
    let rows = [
        (0, 0, NEVER, Ok(0)),
        (1, 0, NEVER, Err(ReadFault::TooLong)),
        (70000, 70000, NEVER, Ok(70000)),
        (70001, 70000, NEVER, Err(ReadFault::TooLong)),
        (5, 9, 0, Err(ReadFault::Failed)),
        (70000, 80000, 1, Err(ReadFault::Failed)),
        (5, 9, 1, Err(ReadFault::Failed)),
        (5, 9, 2, Ok(5)),
    ];
    for (len, limit, failing, want) in rows {
        let mut shelf = shelf_of(rt.alloc(), len, failing)?;
        let got = read_text(rt.alloc(), &mut shelf, "prog", limit);
        assert_eq!(rt; got.map(|text| text.len()), want, "{len} {limit} {failing}");
    }
    let mut shelf = shelf_of(rt.alloc(), 5, NEVER)?;
    let query = read_text(rt.alloc(), &mut shelf, "ques", 9)?;
    assert_eq!(rt; query.as_slice(), b"true".as_slice());
    assert!(rt; is_read(rt.alloc(), &mut shelf, "ques", 4));
    let absent = read_text(rt.alloc(), &mut shelf, "proof", 9);
    assert_eq!(rt; absent.map(|text| text.len()), Err(ReadFault::Absent));
    Ok(())
}

#[test]
fn a_sink_takes_what_fits(rt: HostRuntime) -> Result<(), Fail> {
    let rows = [
        (6, NEVER, true, "abcdef"),
        (5, NEVER, false, "abcde"),
        (3, NEVER, false, "abc"),
        (9, 0, false, ""),
        (9, 1, false, "abc"),
        (9, 2, true, "abcdef"),
    ];
    for (room, failing, done, want) in rows {
        let failing = vec![in rt.alloc(); failing]?;
        let mut sink = MemSink::new(rt.alloc(), room, failing)?;
        let got = write_all(&mut sink, b"abc").and_then(|()| write_all(&mut sink, b"def"));
        assert_eq!(rt; got.is_ok(), done, "{room}");
        assert_eq!(rt; sink.bytes(), want.as_bytes(), "{room}");
    }
    Ok(())
}

#[test]
fn files_are_read(rt: HostRuntime) -> Result<(), Fail> {
    let mut path = env::temp_dir(&rt)?;
    path.push(format!(in rt.alloc(); "ll_edge-{}", process::id(rt.process()))?.as_str())?;
    fs::write(&rt, path.as_path(), "p :- q.\n")?;
    let name = path.as_str();
    let mut shelf = FileShelf::new(&rt);
    let whole = read_text(rt.alloc(), &mut shelf, name, 8);
    let long = read_text(rt.alloc(), &mut shelf, name, 7);
    let folder = read_text(rt.alloc(), &mut shelf, "/", 8);
    let through = read_text(
        rt.alloc(),
        &mut shelf,
        format!(in rt.alloc(); "{name}/x")?.as_str(),
        8,
    );
    fs::remove_file(&rt, path.as_path())?;
    let absent = read_text(rt.alloc(), &mut shelf, name, 8);
    assert_eq!(rt; whole?.as_slice(), b"p :- q.\n".as_slice());
    assert_eq!(rt; long.err(), Some(ReadFault::TooLong));
    assert_eq!(rt; folder.err(), Some(ReadFault::Failed));
    assert_eq!(rt; through.err(), Some(ReadFault::Failed));
    assert_eq!(rt; absent.err(), Some(ReadFault::Absent));
    Ok(())
}

#[test]
fn standard_output_is_written(rt: HostRuntime) -> Result<(), Fail> {
    OpenGate.pause(0, 0);
    let mut sink = StdSink::new(&rt);
    write_all(&mut sink, b"answer 1\n")?;
    assert_eq!(rt; sink.write(b""), Ok(0));
    Ok(())
}
