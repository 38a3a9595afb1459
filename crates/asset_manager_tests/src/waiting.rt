//! A session that waits on one thread, until a session on another lets it go on.

ghost use Rattle.std.specs.Thread.{IsSync};
ghost use Rattle.asset_counts.specs.Pass.{IsOf};

use crate::again::{ROOM, THREE, is_answered, opened};
use crate::asserts::same;
use crate::closing::{close_two, room_for};
use crate::script::first_wrong_line;
use asset_manager::{Manager, Session};
use asset_names::{Fault, Outcome, Reply};
use asset_test_tools::{abort, read};
use std::alloc::Global;
use std::sync::Wait;
use std::sync::atomic::{AtomicU64, Ordering};
use std::test::Fail;
use std::thread;
use std::thread::{Threads, join};

/// How a reader waits.
#[derive(Clone, Copy)]
enum How {
    /// By `call_wait`.
    Asleep,
    /// By `call_turns`.
    ByTurns,
}

/// More turns than a wait takes.
const MANY: u32 = 1_000_000_000;

/// Reads object 1 as 8, and sleeps while that waits. If memory runs out once, it is asked again.
fn sleeps<R: Wait>(rt: &R, manager: &Manager, session: &mut Session) -> Result<Reply, Fault>
    requires { IsOf session.old.of manager.now }
{
    match session.call_wait(rt, manager, read(8, 1)) {
        Err(Fault::NoMemory) => session.call_wait(rt, manager, read(8, 1)),
        answer => answer,
    }
}

/// Reads object 1 as 8, by many asks while that waits. If memory runs out once, it is asked again.
fn turns<R: Wait>(rt: &R, manager: &Manager, session: &mut Session) -> Result<Outcome, Fault>
    requires { IsOf session.old.of manager.now }
{
    match session.call_turns(rt, manager, read(8, 1), MANY) {
        Err(Fault::NoMemory) => session.call_turns(rt, manager, read(8, 1), MANY),
        answer => answer,
    }
}

/// Says that it starts, reads object 1 as 8, and returns whether it was answered by 100.
fn reads_100<R: Wait>(
    rt: &R,
    manager: &Manager,
    session: &mut Session,
    how: How,
    started: &AtomicU64,
) -> bool
    requires { IsOf session.old.of manager.now }
{
    started.store(1, Ordering::SeqCst);
    match how {
        How::Asleep => sleeps(rt, manager, session) == Ok(Reply::Value(100)),
        How::ByTurns => { turns(rt, manager, session) == Ok(Outcome::Answer(Reply::Value(100))) }
    }
}

/// Yields until the reader has said that it starts, at most a million times.
fn reader_starts(started: &AtomicU64) {
    for _ in 0..1_000_000 {
        if started.load(Ordering::SeqCst) == 1 {
            return;
        }
        thread::yield_now();
    }
}

/// Aborts 7 once the reader has asked: it yields a thousand times after the reader has said that it starts, which is
/// much longer than one ask takes.
fn aborts_late<R: Wait>(
    rt: &R,
    manager: &Manager,
    session: &mut Session,
    started: &AtomicU64,
) -> bool
    requires { IsOf session.old.of manager.now }
{
    reader_starts(started);
    for _ in 0..1_000 {
        thread::yield_now();
    }
    is_answered(rt, manager, session, &abort(7), Reply::Aborted)
}

/// Reads on one thread, and aborts the writer on another.
fn goes_on<R: Threads + Wait + Sync>(
    rt: &R,
    manager: &Manager,
    reader: &mut Session,
    writer: &mut Session,
    how: How,
) -> (bool, bool)
    requires reader { IsOf reader.old.of manager.now }
    requires writer { IsOf writer.old.of manager.now }
{
    let started = AtomicU64::new(0);
    join(
        rt,
        || -> bool
            requires { IsSync R.row × IsOf reader.now.of manager.now }
        { reads_100(rt, manager, reader, how, &started) },
        || -> bool
            requires { IsSync R.row × IsOf writer.now.of manager.now }
        { aborts_late(rt, manager, writer, &started) },
    )
}

/// Starts a writer and a reader, which waits, on two threads. Returns the line that went wrong before, and whether both
/// were answered as they should.
fn waits_and_goes_on<R: Threads + Wait + Sync>(
    rt: &R,
    alloc: Global,
    manager: &Manager,
    reader: &mut Session,
    writer: &mut Session,
    how: How,
) -> (Option<usize>, (bool, bool))
    requires reader { IsOf reader.old.of manager.now }
    requires writer { IsOf writer.old.of manager.now }
{
    let starts = "\
        initiate 7: ok\ninitiate 8: ok\nbegin 7: ok\nbegin 8: ok\nwrite 7 1 50: ok\nread 8 1: wait\n";
    let wrong = first_wrong_line(rt, alloc, manager, writer, starts);
    (wrong, goes_on(rt, manager, reader, writer, how))
}

#[test]
fn reader_sleeps_until_the_abort(rt: HostRuntime) -> Result<(), Fail> {
    let alloc: Global = rt.alloc();
    let closing = room_for(alloc, 2)?;
    let (manager, mut writer) = opened(alloc, &THREE, ROOM)?;
    let mut reader = writer.split();
    let asked = waits_and_goes_on(&rt, alloc, &manager, &mut reader, &mut writer, How::Asleep);
    let closed = close_two(manager, closing, reader, writer);
    same(&rt, asked, (None, (true, true)));
    same(&rt, closed, (7, Ok(())));
    Ok(())
}

#[test]
fn reader_turns_until_the_abort(rt: HostRuntime) -> Result<(), Fail> {
    let alloc: Global = rt.alloc();
    let closing = room_for(alloc, 2)?;
    let (manager, mut writer) = opened(alloc, &THREE, ROOM)?;
    let mut reader = writer.split();
    let asked = waits_and_goes_on(&rt, alloc, &manager, &mut reader, &mut writer, How::ByTurns);
    let closed = close_two(manager, closing, reader, writer);
    same(&rt, asked, (None, (true, true)));
    same(&rt, closed, (7, Ok(())));
    Ok(())
}
