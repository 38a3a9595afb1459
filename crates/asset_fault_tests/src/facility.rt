//! Worked histories of a facility while a request for memory is refused: then nothing that the facility shows has changed, and
//! the same step asked again is answered as it is with ample memory.

use asset_core::{Core, OpenFault};
use asset_core_tests::{ROOM, THREE, first_other_entry, opened, parsed, reads};
use asset_names::{Counts, Fault, Ob, Op, Status, Step, Txn};
use std::alloc::Global;
use std::test::Fail;

/// What a facility shows of its counts, of transactions 5 to 9, of objects 1 to 3 and 9, and of who waits for objects 1 to 3.
type Shown = (
    Counts,
    [Status; 5],
    [Option<i64>; 4],
    [Option<(Txn, Op)>; 9],
);

/// Returns what a facility shows.
fn shown(core: &Core) -> Shown {
    let statuses = [
        core.status(Txn(5)),
        core.status(Txn(6)),
        core.status(Txn(7)),
        core.status(Txn(8)),
        core.status(Txn(9)),
    ];
    let values = [
        core.value(Ob(1)),
        core.value(Ob(2)),
        core.value(Ob(3)),
        core.value(Ob(9)),
    ];
    let waiters = [
        core.waiters(Ob(1), 0),
        core.waiters(Ob(1), 1),
        core.waiters(Ob(1), 2),
        core.waiters(Ob(2), 0),
        core.waiters(Ob(2), 1),
        core.waiters(Ob(2), 2),
        core.waiters(Ob(3), 0),
        core.waiters(Ob(3), 1),
        core.waiters(Ob(3), 2),
    ];
    (core.counts(), statuses, values, waiters)
}

/// Returns whether a step may be refused memory if this is its outcome: it takes effect, and is an initiate, an operation, a
/// permit, a delegation or a dependency.
pub(crate) fn may_lack_memory(step: &Step, outcome: &str) -> bool {
    match step {
        Step::Begin { .. }
        | Step::Complete { .. }
        | Step::Commit { .. }
        | Step::Abort { .. }
        | Step::WaitFor { .. } => false,
        _ => outcome != "wait" && !outcome.starts_with("refused"),
    }
}

/// Asks the step of a line, and again if it is refused memory. Returns whether it has the outcome that the line says, and
/// whether the refusal left what the facility shows.
fn plays_line(alloc: Global, core: &mut Core, line: &str) -> bool {
    let Some((step, outcome)) = parsed(line) else {
        return false;
    };
    let before = shown(core);
    match core.step_lent(&step) {
        Err(Fault::NoMemory) => {
            may_lack_memory(&step, outcome)
                && shown(core) == before
                && reads(alloc, core.step_lent(&step), outcome)
        }
        answer => reads(alloc, answer, outcome),
    }
}

/// Plays the lines of a script. Returns the first that went wrong.
fn first_wrong<'a>(alloc: Global, core: &mut Core, script: &'a str) -> Option<&'a str> {
    for line in script.lines() {
        if !plays_line(alloc, core, line) {
            return Some(line);
        }
    }
    None
}

/// Plays a script on a new facility with three objects. Returns whether no line went wrong, and whether its history has exactly
/// the lines that are recorded.
fn plays(alloc: Global, script: &str) -> Result<(bool, bool), OpenFault> {
    let mut core = opened(alloc, &THREE, ROOM)?;
    let right = first_wrong(alloc, &mut core, script).is_none();
    let recorded = first_other_entry(alloc, core.history(), script).is_none();
    Ok((right, recorded))
}

/// Permits between three, of which one is passed on.
const PERMITS: &str = "\
    initiate 7: ok\nbegin 7: ok\ninitiate 8: ok\nbegin 8: ok\ninitiate 9: ok\nbegin 9: ok\n\
    write 7 1 11: ok\nwrite 7 2 22: ok\nwrite 7 3 33: ok\npermit 7 8 rw 1,2: ok\npermit 8 9 r 2,3: ok\n\
    read 9 2: 22\nread 9 1: wait\nwrite 9 2 5: wait\nread 9 3: wait\n";

#[test]
fn permits_are_asked_again(rt: HostRuntime) -> Result<(), Fail> {
    let played = plays(rt.alloc(), PERMITS)?;
    assert_eq!(rt; played, (true, true));
    Ok(())
}

/// Who passed a permit on ends, and the permit with it.
const ENDED_PERMITS: &str = "\
    initiate 7: ok\nbegin 7: ok\ninitiate 8: ok\nbegin 8: ok\ninitiate 9: ok\nbegin 9: ok\n\
    write 7 1 11: ok\nwrite 7 2 22: ok\nwrite 7 3 33: ok\npermit 7 8 rw 1,2: ok\npermit 8 9 r 2,3: ok\n\
    complete 8: ok\ncommit 8: committed\nread 9 2: wait\n";

#[test]
fn permits_end_with_their_members(rt: HostRuntime) -> Result<(), Fail> {
    let played = plays(rt.alloc(), ENDED_PERMITS)?;
    assert_eq!(rt; played, (true, true));
    Ok(())
}

/// What is written is open to anybody who reads, also once it is handed over.
const OPENED: &str = "\
    initiate 7: ok\nbegin 7: ok\ninitiate 8: ok\nbegin 8: ok\ninitiate 9: ok\nbegin 9: ok\n\
    write 7 1 50: ok\nread 8 1: wait\npermit 7 any r 1,2: ok\nread 8 1: 50\nwrite 8 1 60: wait\ndelegate 7 9 1: ok\n\
    abort 7: aborted\nread 8 1: 50\nread 8 2: 200\npermit 7 any r 1: refused ended 7\n";

#[test]
fn open_permits_are_asked_again(rt: HostRuntime) -> Result<(), Fail> {
    let played = plays(rt.alloc(), OPENED)?;
    assert_eq!(rt; played, (true, true));
    Ok(())
}

/// Adds beside each other. One is taken back, one commits, and one is handed over and then taken back.
const ADDED: &str = "\
    initiate 7: ok\nbegin 7: ok\ninitiate 8: ok\nbegin 8: ok\ninitiate 9: ok\nbegin 9: ok\n\
    add 7 1 10: ok\nadd 8 1 -5: ok\nread 9 1: wait\nadd 7 2 30: ok\ndelegate 7 9 2: ok\nabort 7: aborted\n\
    read 9 2: 230\nread 9 1: wait\ncomplete 8: ok\ncommit 8: committed\nread 9 1: 95\nadd 9 1 1: ok\nread 9 1: 96\n\
    add 9 4 1: refused no object 4\nabort 9: aborted\ninitiate 6: ok\nbegin 6: ok\nread 6 1: 95\nread 6 2: 200\n";

#[test]
fn adds_are_asked_again(rt: HostRuntime) -> Result<(), Fail> {
    let played = plays(rt.alloc(), ADDED)?;
    assert_eq!(rt; played, (true, true));
    Ok(())
}

/// Work that is permitted and handed over, one object and then all.
pub(crate) const HANDED_OVER: &str = "\
    initiate 7: ok\nbegin 7: ok\ninitiate 8: ok\nbegin 8: ok\ninitiate 9: ok\nbegin 9: ok\n\
    write 7 1 50: ok\nwrite 8 2 80: ok\npermit 7 9 rw all: ok\ndelegate 7 8 1: ok\nread 7 1: wait\nread 9 1: 50\n\
    read 9 2: wait\ndelegate 7 8 all: ok\nread 9 2: wait\n";

#[test]
fn delegations_are_asked_again(rt: HostRuntime) -> Result<(), Fail> {
    let played = plays(rt.alloc(), HANDED_OVER)?;
    assert_eq!(rt; played, (true, true));
    Ok(())
}

/// What is handed over stands, although its giver aborts.
const STANDS: &str = "\
    initiate 7: ok\nbegin 7: ok\ninitiate 8: ok\nbegin 8: ok\ninitiate 9: ok\nbegin 9: ok\n\
    write 7 1 50: ok\ndelegate 7 8 1: ok\nabort 7: aborted\nread 9 1: wait\ncomplete 8: ok\ncommit 8: committed\n\
    read 9 1: 50\n";

#[test]
fn work_that_was_handed_over_stands(rt: HostRuntime) -> Result<(), Fail> {
    let played = plays(rt.alloc(), STANDS)?;
    assert_eq!(rt; played, (true, true));
    Ok(())
}

/// A write over another's, which aborts first or last.
const OVER: &str = "\
    initiate 7: ok\nbegin 7: ok\ninitiate 8: ok\nbegin 8: ok\ninitiate 9: ok\nbegin 9: ok\n\
    write 7 1 50: ok\npermit 7 8 rw 1: ok\nwrite 8 1 60: ok\nabort 7: aborted\nread 8 1: 60\nabort 8: aborted\n\
    read 9 1: 100\n";

#[test]
fn writes_over_others_are_undone(rt: HostRuntime) -> Result<(), Fail> {
    let played = plays(rt.alloc(), OVER)?;
    assert_eq!(rt; played, (true, true));
    Ok(())
}

/// An abort takes a class and what depends on it.
const DOOMED: &str = "\
    initiate 7: ok\nbegin 7: ok\ninitiate 8: ok\nbegin 8: ok\ninitiate 9: ok\nbegin 9: ok\n\
    depend ad 7 8: ok\ndepend gc 8 9: ok\nabort 7: aborted\ncommit 9: aborted\ncommit 8: aborted\n\
    begin 9: refused ended 9\n";

#[test]
fn aborts_spread(rt: HostRuntime) -> Result<(), Fail> {
    let played = plays(rt.alloc(), DOOMED)?;
    assert_eq!(rt; played, (true, true));
    Ok(())
}

/// A class that commits together.
pub(crate) const TOGETHER: &str = "\
    initiate 7: ok\nbegin 7: ok\ninitiate 8: ok\nbegin 8: ok\ndepend gc 7 8: ok\ncommit 7: wait\ncomplete 7: ok\n\
    commit 7: wait\ncomplete 8: ok\ncommit 7: committed\ncommit 8: committed\nabort 8: refused too late 8\n\
    wait 8: committed\n";

#[test]
fn classes_commit_together(rt: HostRuntime) -> Result<(), Fail> {
    let played = plays(rt.alloc(), TOGETHER)?;
    assert_eq!(rt; played, (true, true));
    Ok(())
}

/// A group commit and an abort dependency that would close a cycle, and a commit that waits.
const CYCLES: &str = "\
    initiate 7: ok\nbegin 7: ok\ninitiate 8: ok\nbegin 8: ok\ndepend cd 7 8: ok\ndepend gc 7 8: refused cycle\n\
    depend ad 8 7: refused cycle\ndepend cd 7 7: refused same\ndepend cd 7 8: ok\ncomplete 8: ok\ncommit 8: wait\n\
    abort 7: aborted\ncommit 8: committed\n";

#[test]
fn cycles_are_refused(rt: HostRuntime) -> Result<(), Fail> {
    let played = plays(rt.alloc(), CYCLES)?;
    assert_eq!(rt; played, (true, true));
    Ok(())
}

/// Three that share nothing: one aborts, one is left, one commits.
pub(crate) const APART: &str = "\
    initiate 7: ok\nbegin 7: ok\ninitiate 8: ok\nbegin 8: ok\ninitiate 9: ok\nbegin 9: ok\n\
    write 7 1 11: ok\nwrite 8 2 22: ok\nread 9 3: 300\nwrite 9 3 33: ok\nabort 7: aborted\nread 9 1: 100\n\
    complete 9: ok\ncommit 9: committed\n";

#[test]
fn transactions_end_apart(rt: HostRuntime) -> Result<(), Fail> {
    let played = plays(rt.alloc(), APART)?;
    assert_eq!(rt; played, (true, true));
    Ok(())
}

/// Refusals of `begin`, `initiate`, `read`, `permit`, `complete` and `delegate`, and steps that wait.
const REFUSALS: &str = "\
    initiate 7: ok\nbegin 7: ok\nbegin 5: refused unknown 5\nbegin 7: refused begun 7\ninitiate 7: refused taken 7\n\
    read 5 9: refused unknown 5\nread 7 9: refused no object 9\npermit 7 5 r 9: refused unknown 5\n\
    permit 5 5 r 9: refused same\ncomplete 7: ok\nread 7 9: refused not running 7\ncomplete 7: refused not running 7\n\
    initiate 6: ok\ndelegate 7 6 9: refused no object 9\ncommit 6: wait\nwait 7: ok\nwait 6: wait\n";

#[test]
fn refusals_take_no_memory(rt: HostRuntime) -> Result<(), Fail> {
    let played = plays(rt.alloc(), REFUSALS)?;
    assert_eq!(rt; played, (true, true));
    Ok(())
}
