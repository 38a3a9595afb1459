//! Four threads that ask thousands of steps on the same objects.

ghost use Rattle.std.specs.Prelude.{◌≡◌, ◌≤◌};
ghost use Rattle.std.specs.Thread.{IsSync};
ghost use Rattle.asset_counts.specs.Pass.{IsOf};

use crate::again::{is_answered, opened, shown};
use crate::asserts::{holds, same};
use crate::closing::{hand_in, room_for};
use crate::script::is_replayed;
use asset_core::{Core, History};
use asset_core_tests::opened as opened_core;
use asset_manager::{AuditFault, Counts, Manager, Session};
use asset_names::{Fault, Ob, Outcome, Reply, Step};
use asset_test_tools::{abort, add, begin, commit, complete, initiate, next, read, write};
use std::alloc::Global;
use std::sync::Wait;
use std::test::Fail;
use std::thread::{Threads, join};

/// The objects that all ask for.
const SHARED: [(Ob, i64); 4] = [(Ob(1), 100), (Ob(2), 200), (Ob(3), 300), (Ob(4), 400)];

/// Room for all entries of a run.
const MUCH_ROOM: usize = 100_000;

/// How many transactions each thread runs.
const ROUNDS: u64 = 500;

/// How many operations each transaction asks for.
const OPERATIONS: u64 = 3;

/// Returns the operation of `t` that a number stands for.
fn drawn(t: u64, number: u64) -> Step {
    let x = 1 + (number >> 20) % 4;
    match (number >> 40) % 3 {
        0 => read(t, x),
        1 => add(t, x, (number % 1_000) as i64),
        _ => write(t, x, (number % 1_000) as i64),
    }
}

/// Asks an operation, at most three times while it waits. If memory runs out once, it is asked again.
fn operate<R: Wait>(
    rt: &R,
    manager: &Manager,
    session: &mut Session,
    step: &Step,
) -> Result<Outcome, Fault>
    requires { IsOf session.old.of manager.now }
    ensures { IsOf session.new.of manager.now }
{
    match session.call_turns(rt, manager, *step, 2) {
        Err(Fault::NoMemory) => session.call_turns(rt, manager, *step, 2),
        answer => answer,
    }
}

/// Asks the operations of `t`, and returns whether none of them waits, or `None` if one is answered by anything else
/// than a value or done.
fn operates<R: Wait>(
    rt: &R,
    manager: &Manager,
    session: &mut Session,
    t: u64,
    seed: u64,
) -> Option<bool>
    requires { IsOf session.old.of manager.now }
    ensures { IsOf session.new.of manager.now }
{
    let mut number = seed;
    let mut all = true;
    for _ in 0..OPERATIONS {
        number = next(number);
        match operate(rt, manager, session, &drawn(t, number)) {
            Ok(Outcome::Answer(Reply::Done)) => {}
            Ok(Outcome::Answer(Reply::Value(_))) => {}
            Ok(Outcome::Wait) => all = false,
            _ => return None,
        }
    }
    Some(all)
}

/// Runs `t`, which commits, or aborts if an operation waits. Returns whether each step was answered as it should be.
fn runs<R: Wait>(rt: &R, manager: &Manager, session: &mut Session, t: u64, seed: u64) -> bool
    requires { IsOf session.old.of manager.now }
    ensures { IsOf session.new.of manager.now }
{
    let started = is_answered(rt, manager, session, &initiate(t), Reply::Done)
        && is_answered(rt, manager, session, &begin(t), Reply::Done);
    match operates(rt, manager, session, t, seed) {
        Some(true) => {
            started
                && is_answered(rt, manager, session, &complete(t), Reply::Done)
                && is_answered(rt, manager, session, &commit(t), Reply::Committed)
        }
        Some(false) => started && is_answered(rt, manager, session, &abort(t), Reply::Aborted),
        None => false,
    }
}

/// Runs many transactions, whose numbers begin at `first`.
fn runs_many<R: Wait>(rt: &R, manager: &Manager, session: &mut Session, first: u64) -> bool
    requires { IsOf session.old.of manager.now }
    ensures { IsOf session.new.of manager.now }
{
    let mut good = true;
    for round in 0..ROUNDS {
        let t = first.wrapping_add(round);
        good = runs(rt, manager, session, t, t) && good;
    }
    good
}

/// Runs many transactions on each of two threads.
fn two_run<R: Threads + Wait + Sync>(
    rt: &R,
    manager: &Manager,
    a: &mut Session,
    b: &mut Session,
    first: u64,
) -> bool
    requires a { IsOf a.old.of manager.now }
    requires b { IsOf b.old.of manager.now }
{
    let (left, right) = join(
        rt,
        || -> bool
            requires { IsSync R.row × IsOf a.now.of manager.now }
        { runs_many(rt, manager, a, first) },
        || -> bool
            requires { IsSync R.row × IsOf b.now.of manager.now }
        { runs_many(rt, manager, b, first.wrapping_add(ROUNDS)) },
    );
    left && right
}

/// Runs many transactions on each of four threads.
fn four_run<R: Threads + Wait + Sync>(
    rt: &R,
    manager: &Manager,
    a: &mut Session,
    b: &mut Session,
    c: &mut Session,
    d: &mut Session,
) -> bool
    requires a { IsOf a.old.of manager.now }
    requires b { IsOf b.old.of manager.now }
    requires c { IsOf c.old.of manager.now }
    requires d { IsOf d.old.of manager.now }
{
    let (left, right) = join(
        rt,
        || -> bool
            requires { IsSync R.row × IsOf a.now.of manager.now × IsOf b.now.of manager.now }
        { two_run(rt, manager, a, b, 0) },
        || -> bool
            requires { IsSync R.row × IsOf c.now.of manager.now × IsOf d.now.of manager.now }
        { two_run(rt, manager, c, d, 1_000_000) },
    );
    left && right
}

/// Opens a facility as the history was opened, and returns whether it gives each of its replies again.
fn is_a_history(alloc: Global, history: &History) -> Result<bool, Fail> {
    let mut core = opened_core(alloc, history.opening(), history.room())?;
    let replayed = is_replayed(&mut core, history);
    Ok(replayed)
}

/// What a run of four threads left.
#[derive(Drop)]
struct Left {
    /// Whether each step was answered as it should be, and all sessions that are wanted were handed in.
    good: bool,
    /// How many calls were told to the four sessions, and how many of them to the last.
    told: [usize; 2],
    /// What the word showed.
    counts: Counts,
    /// How many entries the history has.
    kept: usize,
    /// Whether a facility gives each reply of the history again.
    replayed: bool,
    /// The audit.
    audit: Result<(), AuditFault>,
}

/// Runs four threads, and closes the manager with the four sessions, or with all but the last.
fn left_by_four<R: Threads + Wait + Sync>(rt: &R, alloc: Global, all: bool) -> Result<Left, Fail> {
    let mut closing = room_for(alloc, 4)?;
    let (manager, mut a) = opened(alloc, &SHARED, MUCH_ROOM)?;
    let mut b = a.split();
    let mut c = a.split();
    let mut d = a.split();
    let good = four_run(rt, &manager, &mut a, &mut b, &mut c, &mut d);
    let counts = shown(&manager);
    let last = d.calls().len();
    let others = [a.calls().len(), b.calls().len(), c.calls().len()];
    let told = others[0]
        .saturating_add(others[1])
        .saturating_add(others[2]);
    let three = hand_in(&mut closing, a) & hand_in(&mut closing, b) & hand_in(&mut closing, c);
    let fourth = if all {
        hand_in(&mut closing, d)
    } else {
        drop(d);
        true
    };
    let closed = manager.close(closing);
    let kept = closed.history.len();
    let audit = closed.audit;
    let replayed = is_a_history(alloc, &closed.history);
    drop(closed);
    Ok(Left {
        good: good && three && fourth,
        told: [told.saturating_add(last), last],
        counts,
        kept,
        replayed: replayed?,
        audit,
    })
}

#[test]
fn four_threads_leave_one_history(rt: HostRuntime) -> Result<(), Fail> {
    let Left {
        good,
        told,
        counts,
        kept,
        replayed,
        audit,
    } = left_by_four(&rt, rt.alloc(), true)?;
    same(&rt, (good, replayed, audit), (true, true, Ok(())));
    same(&rt, (told[0], counts.entries), (kept, kept as u64));
    same(&rt, counts.committed.saturating_add(counts.aborted), 2_000);
    holds(&rt, kept >= 8_000);
    Ok(())
}

#[test]
fn one_of_four_sessions_is_missed(rt: HostRuntime) -> Result<(), Fail> {
    let Left {
        good,
        told: [all, last],
        counts: _,
        kept,
        replayed,
        audit,
    } = left_by_four(&rt, rt.alloc(), false)?;
    let told = kept.saturating_sub(last);
    same(&rt, (good, replayed, all), (true, true, kept));
    same(&rt, audit, Err(AuditFault::Missing { told, kept }));
    Ok(())
}
