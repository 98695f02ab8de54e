//! Each public call with ample memory, and its answer.
ghost use Rattle.std.specs.Prelude.{◌≡◌, ◌<◌, ◌^◌, length, OnOk, IfOk};
ghost use Rattle.ll_resources.specs.Resources.{SavedFits};
ghost use Rattle.ll_resources.specs.History.{HasMark, KeepsMarks, state_at};

use ll_laws::Kind;
use ll_resources::{Context, ContextMark, Entry, Saved};
use std::alloc::Global;
use std::process::Abort;
use std::test::Fail;

/// What the goal of a side does: it uses the front entry, and it is or holds an `erase`.
#[derive(Clone, Copy)]
struct Side {
    uses: bool,
    erases: bool,
}

/// A side that leaves all, that uses the front entry, that may take all, and that uses the front entry and may take the rest.
const LEAVES: Side = Side {
    uses: false,
    erases: false,
};

const USES: Side = Side {
    uses: true,
    erases: false,
};

const ERASES: Side = Side {
    uses: false,
    erases: true,
};

const USES_AND_ERASES: Side = Side {
    uses: true,
    erases: true,
};

fn prove_side(rt: &impl Abort, context: &mut Context<u32>, side: Side) -> Result<(), Fail>
    ensures entries { OnOk result (length context.new.present.entries ≡ length context.old.present.entries) }
    ensures kept { OnOk result (context.new.present.kept ≡ context.old.present.kept) }
    ensures next { OnOk result (context.new.present.next ≡ context.old.present.next) }
{
    if side.uses {
        assert!(rt; context.len() > 0);
        let front = context.entry(0);
        assert!(rt; front.live);
        context.pick(front.label)?;
    }
    if side.erases {
        context.erase()?;
    }
    Ok(())
}

/// The answer of the end of `-o`, and the flag after it.
fn close(
    rt: &impl Abort,
    alloc: Global,
    kind: Kind,
    side: Side,
    saved: bool,
) -> Result<(bool, bool), Fail> {
    let mut context = Context::start(alloc, &[])?;
    assert_eq!(rt; context.load(kind, 30)?, 0, "the label");
    prove_side(rt, &mut context, side)?;
    let done = context.close(saved)?;
    Ok((done, context.flag()))
}

#[test]
fn ends_loads(rt: HostRuntime) -> Result<(), Fail> {
    let linear = Kind::Linear;
    let unbounded = Kind::Unbounded;
    for (kind, side, saved, want) in [
        (linear, LEAVES, false, (false, false)),
        (linear, LEAVES, true, (false, false)),
        (linear, USES, false, (true, false)),
        (linear, USES, true, (true, true)),
        (linear, ERASES, false, (true, true)),
        (unbounded, LEAVES, true, (true, false)),
        (unbounded, ERASES, false, (true, true)),
    ] {
        assert_eq!(rt; close(&rt, rt.alloc(), kind, side, saved)?, want);
    }
    Ok(())
}

/// Whether the front entry is live after the end of `&`, and the flag, if both sides agree.
fn join(
    rt: &impl Abort,
    alloc: Global,
    erased: bool,
    first: Side,
    second: Side,
) -> Result<Option<(bool, bool)>, Fail> {
    let mut context = Context::start(alloc, &[(Kind::Linear, 10)])?;
    if erased {
        context.erase()?;
    }
    let saved = context.save()?;
    prove_side(rt, &mut context, first)?;
    let half = context.with_mid(saved)?;
    prove_side(rt, &mut context, second)?;
    if !context.with_end(saved, half)? {
        return Ok(None);
    }
    assert_eq!(rt; context.len(), 1);
    Ok(Some((context.entry(0).live, context.flag())))
}

#[test]
fn ends_both_sides(rt: HostRuntime) -> Result<(), Fail> {
    for (erased, first, second, want) in [
        (false, USES, USES, Some((false, false))),
        (false, LEAVES, LEAVES, Some((true, false))),
        (false, USES, LEAVES, None),
        (false, LEAVES, USES, None),
        (false, USES, ERASES, Some((false, false))),
        (false, LEAVES, USES_AND_ERASES, None),
        (false, ERASES, USES, Some((false, false))),
        (false, USES_AND_ERASES, LEAVES, None),
        (false, ERASES, ERASES, Some((true, true))),
        (false, USES_AND_ERASES, ERASES, Some((false, true))),
        (true, USES, USES, Some((false, true))),
    ] {
        assert_eq!(rt; join(&rt, rt.alloc(), erased, first, second)?, want);
    }
    Ok(())
}

#[test]
fn shows_entries(rt: HostRuntime) -> Result<(), Fail> {
    let context = Context::start(rt.alloc(), &[(Kind::Linear, 10), (Kind::Unbounded, 20)])?;
    assert_eq!(rt; context.len(), 2);
    for (at, kind, live, clause) in [(0, Kind::Linear, true, 10), (1, Kind::Unbounded, false, 20)] {
        assert!(rt; at < context.len());
        let entry = context.entry(at);
        let label = at as u32;
        assert!(rt;
            entry
                == Entry {
                    label,
                    kind,
                    live,
                    clause
                },
            "entry {at}"
        );
    }
    Ok(())
}

#[test]
fn copies(rt: HostRuntime) -> Result<(), Fail> {
    let mut context = Context::start(rt.alloc(), &[(Kind::Linear, 10), (Kind::Unbounded, 20)])?;
    context.erase()?;
    assert!(rt; context.flag());
    assert_eq!(rt; context.load(Kind::Linear, 30)?, 2);
    assert!(rt; !context.flag());
    let saved = context.save()?;
    context.bang()?;
    context.erase()?;
    let mut copy = context.image(context.mark())?;
    copy.bang_end(saved)?;
    assert_state(&rt, &copy, &[true, true, false], false);
    assert_state(&rt, &context, &[false, false, false], true);
    Ok(())
}

/// A call after a mark.
#[derive(Clone, Copy)]
enum Call {
    Load(Kind),
    PickFront,
    Erase,
    Close(bool),
    Save,
    Bang,
    BangEnd,
    WithMid,
    WithEnd,
}

/// Makes a call, in which `saved` was kept before a `&` and `half` by its middle.
fn make_call(
    rt: &impl Abort,
    context: &mut Context<u32>,
    call: Call,
    saved: Saved,
    half: Saved,
) -> Result<(), Fail>
    requires saved { SavedFits saved context.old.present }
    requires half { SavedFits half context.old.present }
    requires next { context.old.present.next < 2 ^ 32 }
    ensures { KeepsMarks context.old context.new }
{
    match call {
        Call::Load(kind) => {
            context.load(kind, 40)?;
        }
        Call::PickFront => {
            assert!(rt; context.len() > 0);
            let front = context.entry(0);
            assert!(rt; front.live);
            context.pick(front.label)?;
        }
        Call::Erase => context.erase()?,
        Call::Close(saved) => {
            assert!(rt; context.len() > 0);
            context.close(saved)?;
        }
        Call::Save => {
            context.save()?;
        }
        Call::Bang => context.bang()?,
        Call::BangEnd => context.bang_end(half)?,
        Call::WithMid => {
            context.with_mid(half)?;
        }
        Call::WithEnd => {
            assert!(rt; context.with_end(saved, half)?);
        }
    }
    Ok(())
}

/// A context in the second side of a `&` whose first side has used the front entry, and what was kept before the `&` and by its
/// middle.
fn second_side(
    rt: &impl Abort,
    alloc: Global,
    erased: bool,
) -> Result<(Context<u32>, Saved, Saved), Fail>
    ensures saved { IfOk result (λ made. SavedFits made.1 made.0.present) }
    ensures half { IfOk result (λ made. SavedFits made.2 made.0.present) }
    ensures next { IfOk result (λ made. made.0.present.next < 2 ^ 32) }
{
    let mut context = Context::start(alloc, &[(Kind::Linear, 10), (Kind::Unbounded, 20)])?;
    let saved = context.save()?;
    prove_side(rt, &mut context, USES)?;
    let half = context.with_mid(saved)?;
    let side = if erased { ERASES } else { LEAVES };
    prove_side(rt, &mut context, side)?;
    Ok((context, saved, half))
}

/// The live marks of a context's entries, the newest in front, and its flag.
fn assert_state(rt: &impl Abort, context: &Context<u32>, live: &[bool], flag: bool) {
    assert_eq!(rt; context.len(), live.len());
    for (i, want) in live.iter().enumerate() {
        assert!(rt; i < context.len());
        assert_eq!(rt; context.entry(i).live, *want, "entry {i}");
    }
    assert_eq!(rt; context.flag(), flag);
}

/// An image at a mark of the second side: it has the live marks of that side, and what its middle kept can be put back.
fn assert_image(
    rt: &impl Abort,
    context: &Context<u32>,
    mark: ContextMark,
    half: Saved,
    erased: bool,
) -> Result<(), Fail>
    requires mark { HasMark mark context.now }
    requires half { SavedFits half (state_at mark context.now) }
{
    let mut image = context.image(mark)?;
    assert_state(rt, &image, &[true, false], erased);
    image.bang_end(half)?;
    assert_state(rt, &image, &[false, false], false);
    Ok(())
}

/// The same of the context itself, which goes back to the mark.
fn assert_undo(
    rt: &impl Abort,
    context: &mut Context<u32>,
    mark: ContextMark,
    half: Saved,
    erased: bool,
) -> Result<(), Fail>
    requires mark { HasMark mark context.old }
    requires half { SavedFits half (state_at mark context.old) }
{
    context.undo(mark);
    assert_state(rt, context, &[true, false], erased);
    context.bang_end(half)?;
    assert_state(rt, context, &[false, false], false);
    Ok(())
}

/// Makes a call after a mark, which gives these live marks and this flag, and goes back to the mark in an image and by `undo`.
fn go_back(
    rt: &impl Abort,
    alloc: Global,
    erased: bool,
    call: Call,
    live: &[bool],
    flag: bool,
) -> Result<(), Fail> {
    let (mut context, saved, half) = second_side(rt, alloc, erased)?;
    assert_state(rt, &context, &[true, false], erased);
    let mark = context.mark();
    make_call(rt, &mut context, call, saved, half)?;
    assert_state(rt, &context, live, flag);
    assert_image(rt, &context, mark, half, erased)?;
    assert_undo(rt, &mut context, mark, half, erased)
}

/// Whether the second side erases, a call after it, and the live marks and the flag that the call gives.
const CALLS: [(bool, Call, &[bool], bool); 11] = [
    (true, Call::Load(Kind::Linear), &[true, true, false], false),
    (
        true,
        Call::Load(Kind::Unbounded),
        &[false, true, false],
        true,
    ),
    (false, Call::PickFront, &[false, false], false),
    (false, Call::Erase, &[true, false], true),
    (true, Call::Close(false), &[false], true),
    (false, Call::Close(true), &[true, false], false),
    (true, Call::Save, &[true, false], false),
    (true, Call::Bang, &[false, false], true),
    (true, Call::BangEnd, &[false, false], false),
    (true, Call::WithMid, &[false, false], false),
    (true, Call::WithEnd, &[false, false], false),
];

#[test]
fn goes_back_after_calls(rt: HostRuntime) -> Result<(), Fail> {
    for (erased, call, live, flag) in CALLS {
        go_back(&rt, rt.alloc(), erased, call, live, flag)?;
    }
    Ok(())
}

#[test]
fn goes_back_by_steps(rt: HostRuntime) -> Result<(), Fail> {
    let mut context = Context::start(rt.alloc(), &[(Kind::Linear, 10)])?;
    let none = context.mark();
    context.load(Kind::Linear, 20)?;
    let loaded = context.mark();
    context.erase()?;
    let erased = context.mark();
    context.close(false)?;
    assert_state(&rt, &context, &[true], true);
    assert_state(&rt, &context.image(none)?, &[true], false);
    assert_state(&rt, &context.image(loaded)?, &[true, true], false);
    assert_state(&rt, &context.image(erased)?, &[true, true], true);
    context.undo(erased);
    context.bang()?;
    context.undo(loaded);
    assert_state(&rt, &context, &[true, true], false);
    context.load(Kind::Linear, 30)?;
    context.undo(none);
    assert_state(&rt, &context, &[true], false);
    Ok(())
}

/// The clauses that are found by a key are these, the newest first.
fn assert_found(rt: &impl Abort, context: &Context<u32>, key: u32, clauses: &[u32]) {
    let mut keyed = context.keyed(key);
    for i in 0..clauses.len() {
        let Some((entry, older)) = context.next_keyed(keyed) else {
            panic!(rt; "{i} entries of key {key}");
        };
        assert_eq!(rt; entry.clause, clauses[i], "entry {i} of key {key}");
        keyed = older;
    }
    assert!(rt; context.next_keyed(keyed).is_none(), "no more of key {key}");
}

#[test]
fn finds_entries_by_their_keys(rt: HostRuntime) -> Result<(), Fail> {
    let mut context = Context::start(rt.alloc(), &[(Kind::Unbounded, 10)])?;
    context.load_keyed(Kind::Unbounded, 20, 1)?;
    context.load(Kind::Linear, 30)?;
    context.load_keyed(Kind::Linear, 40, 2)?;
    assert_found(&rt, &context, 1, &[30, 20]);
    assert_found(&rt, &context, 2, &[40, 30]);
    assert_found(&rt, &context, 0, &[30]);
    assert_found(&rt, &context, 9, &[30]);
    assert!(rt; context.any_live());
    Ok(())
}

#[test]
fn passes_spent_entries(rt: HostRuntime) -> Result<(), Fail> {
    let mut context = Context::start(rt.alloc(), &[])?;
    context.load_keyed(Kind::Linear, 20, 1)?;
    let loaded = context.mark();
    context.bang()?;
    assert!(rt; !context.any_live());
    context.load_keyed(Kind::Linear, 30, 1)?;
    assert_found(&rt, &context, 1, &[30]);
    context.undo(loaded);
    assert_found(&rt, &context, 1, &[20]);
    Ok(())
}
