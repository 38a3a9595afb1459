//! Openings, worked scripts and counts of a facility, and what is left if memory runs out.

use crate::again::opened;
use crate::opening::{ROOM, THREE};
use crate::script::{first_other_entry, first_wrong_line};
use asset_core::{Core, Counts, OpenFault};
use asset_names::{NoMemory, Ob, Op, Status, Txn, least_double};
use std::alloc::Global;
use std::test::Fail;

const NONE: [(Ob, i64); 0] = [];

/// The greatest capacity.
const MOST_ENTRIES: usize = 1_000_000;

/// Returns why nothing is opened over these objects, if nothing is.
fn fault(alloc: Global, opening: &[(Ob, i64)], capacity: usize) -> Option<OpenFault> {
    opened(alloc, opening, capacity).err()
}

#[test]
fn opening_is_refused_in_order(rt: HostRuntime) {
    let double = [(Ob(1), 1), (Ob(1), 2)];
    for (opening, capacity, expected) in [
        (&double[..], 0, Some(OpenFault::BadCapacity)),
        (&THREE[..], MOST_ENTRIES + 1, Some(OpenFault::BadCapacity)),
        (&double[..], ROOM, Some(OpenFault::DoubleObject(Ob(1)))),
        (&THREE[..], MOST_ENTRIES, None),
    ] {
        assert_eq!(rt; fault(rt.alloc(), opening, capacity), expected);
    }
}

/// Opens the facility over these objects if they are all different, and asks once.
fn opened_distinct(alloc: Global, opening: &[(Ob, i64)]) -> Result<Core, OpenFault> {
    match least_double(opening) {
        Some(x) => Err(OpenFault::DoubleObject(x)),
        None => match Core::open_distinct(alloc, opening, ROOM) {
            Ok(core) => Ok(core),
            Err(NoMemory) => Err(OpenFault::NoMemory),
        },
    }
}

#[test]
fn different_objects_are_opened(rt: HostRuntime) -> Result<(), Fail> {
    let core = opened_distinct(rt.alloc(), &THREE)?;
    let values = (core.value(Ob(1)), core.value(Ob(2)), core.value(Ob(3)));
    drop(core);
    assert_eq!(rt; values, (Some(100), Some(200), Some(300)));
    Ok(())
}

/// Plays a script over these objects. Returns the first line whose step has another outcome, and the first that is not
/// recorded as it says.
fn wrong_lines(
    alloc: Global,
    opening: &[(Ob, i64)],
    capacity: usize,
    script: &str,
) -> Result<[Option<usize>; 2], OpenFault> {
    let mut core = opened(alloc, opening, capacity)?;
    let wrong = first_wrong_line(alloc, &mut core, script);
    let other = first_other_entry(alloc, core.history(), script);
    drop(core);
    Ok([wrong, other])
}

/// Returns the lines that go wrong of a script over three objects, with room for all its entries.
pub(crate) fn wrong_over_three(
    alloc: Global,
    script: &str,
) -> Result<[Option<usize>; 2], OpenFault> {
    wrong_lines(alloc, &THREE, ROOM, script)
}

/// Fills a history with room for one entry.
#[test]
fn begin_of_an_unknown_transaction_is_recorded(rt: HostRuntime) {
    let script = "begin 7: refused unknown 7\nbegin 7: full\n";
    let wrong = wrong_lines(rt.alloc(), &NONE, 1, script);
    assert_eq!(rt; wrong, Ok([None; 2]));
}

/// A transaction that does its work.
const WORKS: &str = "\
    initiate 7: ok\nbegin 7: ok\nread 7 1: 100\nwrite 7 1 50: ok\nread 7 1: 50\n\
    complete 7: ok\nwait 7: ok\n";

/// Returns whether each call shows a transaction before it works, when it has worked, and when it has committed.
fn is_shown(alloc: Global, core: &mut Core) -> bool {
    let before = core.status(Txn(7));
    let wrong = first_wrong_line(alloc, core, WORKS);
    let worked = core.status(Txn(7));
    let values = (core.value(Ob(1)), core.value(Ob(9)));
    let uncommitted = first_wrong_line(alloc, core, "commit 7: committed\n");
    (wrong, uncommitted) == (None, None)
        && values == (Some(50), None)
        && [before, worked, core.status(Txn(7))]
            == [Status::Unknown, Status::Completed, Status::Committed]
}

#[test]
fn one_transaction_is_shown_by_each_call(rt: HostRuntime) -> Result<(), Fail> {
    let mut core = opened(rt.alloc(), &THREE, ROOM)?;
    let shown = is_shown(rt.alloc(), &mut core);
    let history = core.into_history();
    let lens = (history.len(), history.opening().len());
    drop(history);
    assert!(rt; shown);
    assert_eq!(rt; lens, (8, 3));
    Ok(())
}

/// A reader that waits for a writer.
const WAITS: &str = "\
    initiate 7: ok\nbegin 7: ok\ninitiate 8: ok\nbegin 8: ok\nwrite 7 1 50: ok\nread 8 1: wait\n";

/// The reader goes on when the writer has aborted.
const GOES_ON: &str = "abort 7: aborted\nread 8 1: 100\n";

#[test]
fn reader_waits_for_abort(rt: HostRuntime) -> Result<(), Fail> {
    let mut core = opened(rt.alloc(), &THREE, ROOM)?;
    let waits = first_wrong_line(rt.alloc(), &mut core, WAITS);
    let waiters = (core.waiters(Ob(1), 0), core.waiters(Ob(1), 1));
    let goes_on = first_wrong_line(rt.alloc(), &mut core, GOES_ON);
    let left = (core.status(Txn(7)), core.waiters(Ob(1), 0));
    drop(core);
    assert_eq!(rt; [waits, goes_on], [None; 2]);
    assert!(rt; waiters == (Some((Txn(8), Op::Read)), None));
    assert!(rt; left == (Status::Aborted, None));
    Ok(())
}

/// A reader that was initiated first waits for a writer on two objects, after another writer waits on the first of them. Its last
/// request is the one that is pending, and refused requests leave it pending.
const TWO_WAIT: &str = "\
    initiate 7: ok\nbegin 7: ok\ninitiate 8: ok\nbegin 8: ok\ninitiate 9: ok\nbegin 9: ok\n\
    write 9 1 50: ok\nwrite 9 2 60: ok\nwrite 8 1 70: wait\nread 7 2: wait\nread 7 1: wait\n\
    read 7 4: refused no object 4\nwrite 7 4 1: refused no object 4\nbegin 7: refused begun 7\n";

/// The writer goes on at another object, and the reader ends.
const NONE_WAIT: &str = "write 8 3 80: ok\nabort 7: aborted\n";

/// Returns the first three waiters of an object.
fn three_waiters(core: &Core, x: Ob) -> [Option<(Txn, Op)>; 3] {
    [core.waiters(x, 0), core.waiters(x, 1), core.waiters(x, 2)]
}

#[test]
fn two_wait_in_order_of_initiation(rt: HostRuntime) -> Result<(), Fail> {
    let mut core = opened(rt.alloc(), &THREE, ROOM)?;
    let waits = first_wrong_line(rt.alloc(), &mut core, TWO_WAIT);
    let waiters = three_waiters(&core, Ob(1));
    let of_two = three_waiters(&core, Ob(2));
    let ends = first_wrong_line(rt.alloc(), &mut core, NONE_WAIT);
    let left = three_waiters(&core, Ob(1));
    drop(core);
    assert_eq!(rt; [waits, ends], [None; 2]);
    assert!(rt; waiters == [Some((Txn(7), Op::Read)), Some((Txn(8), Op::Write)), None]);
    assert!(rt; of_two == [None; 3]);
    assert!(rt; left == [None; 3]);
    Ok(())
}

/// Entries of each kind that acts on one transaction, but of adds and open permits, with each refusal that such steps can get.
const ENTRIES: &str = "\
    begin 7: refused unknown 7\ninitiate 7: ok\ninitiate 7: refused taken 7\n\
    read 7 1: refused not running 7\nbegin 7: ok\nbegin 7: refused begun 7\n\
    write 7 9 -5: refused no object 9\nwrite 7 1 -5: ok\nread 7 1: -5\ninitiate 8 7: ok\n\
    complete 7: ok\nwait 7: ok\ncommit 7: committed\ncommit 7: committed\nwait 7: committed\n\
    abort 7: refused too late 7\ncomplete 7: refused ended 7\nabort 8: aborted\n\
    commit 8: aborted\nabort 8: aborted\n";

#[test]
fn entries_are_shown_whole(rt: HostRuntime) {
    assert_eq!(rt; wrong_over_three(rt.alloc(), ENTRIES), Ok([None; 2]));
}

/// Permits of a list with a missing object, and of one without.
const PERMITS: &str = "\
    initiate 7: ok\nbegin 7: ok\ninitiate 8: ok\nbegin 8: ok\nwrite 7 1 50: ok\n\
    permit 7 8 rw 4,3: refused no object 4\npermit 7 8 rw 2,1: ok\nwrite 8 1 60: ok\n\
    read 7 1: wait\nabort 7: aborted\nread 8 1: 60\n";

#[test]
fn permits_are_entries_with_their_objects(rt: HostRuntime) {
    assert_eq!(rt; wrong_over_three(rt.alloc(), PERMITS), Ok([None; 2]));
}

/// Delegations of a list with a missing object, of one without, and of all objects.
const DELEGATIONS: &str = "\
    initiate 7: ok\nbegin 7: ok\ninitiate 8: ok\nbegin 8: ok\nwrite 7 1 50: ok\n\
    delegate 7 8 4,3: refused no object 4\ndelegate 7 8 2,1: ok\nwrite 8 1 60: ok\n\
    read 7 1: wait\ndelegate 7 8 all: ok\nabort 7: aborted\nread 8 1: 60\n";

#[test]
fn delegations_are_entries_with_their_objects(rt: HostRuntime) {
    assert_eq!(rt; wrong_over_three(rt.alloc(), DELEGATIONS), Ok([None; 2]));
}

/// Two transactions of one class, which commits, one that aborts, and one that is refused.
const ENDS: &str = "\
    initiate 7: ok\nbegin 7: ok\ncomplete 7: ok\ninitiate 8: ok\nbegin 8: ok\ncomplete 8: ok\n\
    initiate 9: ok\ndepend gc 7 8: ok\ncommit 8: committed\nabort 9: aborted\nbegin 9: refused ended 9\n";

/// Asks the steps of `ENDS`. Returns the counts before and after, and the first line that goes wrong.
fn counts_of_both(alloc: Global, core: &mut Core) -> ([Counts; 2], Option<usize>) {
    let before = core.counts();
    let wrong = first_wrong_line(alloc, core, ENDS);
    ([before, core.counts()], wrong)
}

#[test]
fn entries_and_ends_are_counted(rt: HostRuntime) -> Result<(), Fail> {
    let mut core = opened(rt.alloc(), &THREE, ROOM)?;
    let (counts, wrong) = counts_of_both(rt.alloc(), &mut core);
    drop(core);
    let none = Counts {
        entries: 0,
        committed: 0,
        aborted: 0,
    };
    let some = Counts {
        entries: 11,
        committed: 2,
        aborted: 1,
    };
    assert_eq!(rt; (counts, wrong), ([none, some], None));
    Ok(())
}
