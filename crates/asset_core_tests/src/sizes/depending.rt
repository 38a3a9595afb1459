//! Three hundred transactions in a chain of abort dependencies, in one class, and with commit dependencies on one source.

use asset_core::Core;
use asset_names::{Kind, Ob, Outcome, Refusal, Reply, Status, Step, Txn};
use asset_test_tools::{abort, begin, commit, complete, depend, initiate};
use std::test::Fail;

/// The first of the three hundred transactions.
const FIRST: u64 = 1_000;

/// The second of them.
const SECOND: u64 = 1_001;

/// One of them, in the middle.
const MIDDLE: u64 = 1_150;

/// The last of them, and one past it.
const LAST: u64 = 1_299;

const END: u64 = 1_300;

/// The source of the commit dependencies.
const SOURCE: u64 = 7;

/// Room for all entries.
const ROOM: usize = 10_000;

/// No objects.
const NONE: [(Ob, i64); 0] = [];

/// Returns whether the step gets this reply.
fn answers(core: &mut Core, step: Step, reply: Reply) -> bool {
    core.step(step) == Ok(Outcome::Answer(reply))
}

/// Asks a step of each transaction from the first on. Returns the first that gets another reply.
fn first_wrong<F: Fn(u64) -> Step>(
    core: &mut Core,
    first: u64,
    step: F,
    reply: Reply,
) -> Option<u64>
    requires { F.IsAlwaysCallable step }
{
    for t in first..END {
        if !answers(core, step(t), reply) {
            return Some(t);
        }
    }
    None
}

/// Asks a commit of each transaction. Returns the first that does not wait.
fn first_not_waiting(core: &mut Core) -> Option<u64> {
    for t in FIRST..END {
        if core.step(commit(t)) != Ok(Outcome::Wait) {
            return Some(t);
        }
    }
    None
}

/// Returns the first transaction that has another status.
fn first_other(core: &Core, first: u64, end: u64, status: Status) -> Option<u64> {
    for t in first..end {
        if core.status(Txn(t)) != status {
            return Some(t);
        }
    }
    None
}

/// Returns the abort dependency of a transaction on the one before it.
fn falls_with_previous(t: u64) -> Step {
    depend(Kind::Ad, t.saturating_sub(1), t)
}

/// Returns the group commit of a transaction with the one before it.
fn joins_previous(t: u64) -> Step {
    depend(Kind::Gc, t.saturating_sub(1), t)
}

/// Returns the commit dependency of a transaction on the source of all.
fn waits_for_source(t: u64) -> Step {
    depend(Kind::Cd, SOURCE, t)
}

/// Returns the first transaction that cannot be initiated or begun.
fn not_started(core: &mut Core) -> [Option<u64>; 2] {
    [
        first_wrong(core, FIRST, initiate, Reply::Done),
        first_wrong(core, FIRST, begin, Reply::Done),
    ]
}

/// Aborts the middle of the chain, and returns the first before it that does not stand, and the first from it on that
/// has not aborted.
fn wrong_after_abort(core: &mut Core) -> Option<[Option<u64>; 2]> {
    let refused = Reply::Refused(Refusal::Cycle);
    if answers(core, depend(Kind::Cd, LAST, FIRST), refused)
        && answers(core, abort(MIDDLE), Reply::Aborted)
    {
        Some([
            first_other(core, FIRST, MIDDLE, Status::Running),
            first_other(core, MIDDLE, END, Status::Aborted),
        ])
    } else {
        None
    }
}

#[test]
fn abort_runs_down_a_chain(rt: HostRuntime) -> Result<(), Fail> {
    let mut core = Core::open(rt.alloc(), &NONE, ROOM)?;
    let not_started = not_started(&mut core);
    let not_tied = first_wrong(&mut core, SECOND, falls_with_previous, Reply::Done);
    let wrong = wrong_after_abort(&mut core);
    drop(core);
    assert_eq!(rt; not_started, [None; 2]);
    assert_eq!(rt; not_tied, None);
    assert_eq!(rt; wrong, Some([None; 2]));
    Ok(())
}

/// Joins all in one class, and completes them. Returns the first that goes wrong of each.
fn wrong_in_class(core: &mut Core) -> [Option<u64>; 3] {
    [
        first_wrong(core, SECOND, joins_previous, Reply::Done),
        first_not_waiting(core),
        first_wrong(core, FIRST, complete, Reply::Done),
    ]
}

/// Commits the class by one of its members. Returns whether it has, with the first that has not committed, and the
/// first that is not answered so.
fn commit_class(core: &mut Core) -> (bool, [Option<u64>; 2]) {
    let committed = answers(core, commit(MIDDLE), Reply::Committed);
    (
        committed,
        [
            first_other(core, FIRST, END, Status::Committed),
            first_wrong(core, FIRST, commit, Reply::Committed),
        ],
    )
}

#[test]
fn class_of_hundreds_commits(rt: HostRuntime) -> Result<(), Fail> {
    let mut core = Core::open(rt.alloc(), &NONE, ROOM)?;
    let not_started = not_started(&mut core);
    let wrong = wrong_in_class(&mut core);
    let committed = commit_class(&mut core);
    drop(core);
    assert_eq!(rt; not_started, [None; 2]);
    assert_eq!(rt; wrong, [None; 3]);
    assert_eq!(rt; committed, (true, [None; 2]));
    Ok(())
}

/// Starts the source. Returns whether it could.
fn start_source(core: &mut Core) -> bool {
    answers(core, initiate(SOURCE), Reply::Done) && answers(core, begin(SOURCE), Reply::Done)
}

/// Ties all to the source, and completes them. Returns the first that goes wrong of each.
fn wrong_behind_source(core: &mut Core) -> [Option<u64>; 3] {
    [
        first_wrong(core, FIRST, waits_for_source, Reply::Done),
        first_wrong(core, FIRST, complete, Reply::Done),
        first_not_waiting(core),
    ]
}

/// Aborts the source. Returns whether it could, with the first that cannot commit then.
fn abort_source(core: &mut Core) -> (bool, Option<u64>) {
    let aborted = answers(core, abort(SOURCE), Reply::Aborted);
    (aborted, first_wrong(core, FIRST, commit, Reply::Committed))
}

#[test]
fn hundreds_wait_for_one_source(rt: HostRuntime) -> Result<(), Fail> {
    let mut core = Core::open(rt.alloc(), &NONE, ROOM)?;
    let source = start_source(&mut core);
    let not_started = not_started(&mut core);
    let wrong = wrong_behind_source(&mut core);
    let ended = abort_source(&mut core);
    drop(core);
    assert!(rt; source);
    assert_eq!(rt; not_started, [None; 2]);
    assert_eq!(rt; wrong, [None; 3]);
    assert_eq!(rt; ended, (true, None));
    Ok(())
}
