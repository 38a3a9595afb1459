//! Worked scripts, and what is said of their transactions at some points.

use asset_core::{Core, OpenFault};
use asset_core_tests::{ROOM, THREE, first_wrong_line, opened};
use asset_history::History;
use asset_names::{NoMemory, Txn};
use std::alloc::Global;
use std::test::Fail;

/// What is expected of a transaction: the first of its group, and whether a member has committed.
type Row = (u64, Option<u64>, bool);

/// Returns the first row that does not hold.
fn first_other(core: &Core, rows: &[Row]) -> Option<u64> {
    for (t, first, committed) in rows {
        let told = (core.first_of(Txn(*t)), core.group_committed(Txn(*t)));
        if told != (first.map(|n: u64| Txn(n)), *committed) {
            return Some(*t);
        }
    }
    None
}

/// Plays parts of a script, of which each is followed by rows. Returns the first line of a part that is answered otherwise, and the
/// first row that does not hold.
fn first_wrong(
    alloc: Global,
    core: &mut Core,
    parts: &[(&str, &[Row])],
) -> (Option<usize>, Option<u64>) {
    for (script, rows) in parts {
        let line = first_wrong_line(alloc, core, script);
        let row = first_other(core, rows);
        if line.is_some() || row.is_some() {
            return (line, row);
        }
    }
    (None, None)
}

/// Opens a facility over three objects, and plays the parts.
fn played(
    alloc: Global,
    parts: &[(&str, &[Row])],
) -> Result<(Option<usize>, Option<u64>), OpenFault> {
    let mut core = opened(alloc, &THREE, ROOM)?;
    let wrong = first_wrong(alloc, &mut core, parts);
    drop(core);
    Ok(wrong)
}

/// A refused permit joins 7 and 9 before anybody has committed.
const REFUSED_PERMIT: &str = "\
    initiate 7: ok\nbegin 7: ok\ninitiate 9: ok\nbegin 9: ok\nabort 9: aborted\npermit 7 9 r 1: refused ended 9\n";

const COMMIT_OF_7: &str = "complete 7: ok\ncommit 7: committed\n";

#[test]
fn refused_permit_joins_before_the_commit_and_after(rt: HostRuntime) -> Result<(), Fail> {
    let before: [Row; 3] = [(7, Some(7), false), (9, Some(7), false), (8, None, false)];
    let after: [Row; 3] = [(7, Some(7), true), (9, Some(7), true), (8, None, false)];
    let wrong = played(
        rt.alloc(),
        &[(REFUSED_PERMIT, &before), (COMMIT_OF_7, &after)],
    )?;
    assert_eq!(rt; wrong, (None, None));
    Ok(())
}

/// Three transactions that share nothing: 7 aborts, 9 commits.
const THREE_GROUPS: &str = "\
    initiate 7: ok\nbegin 7: ok\ninitiate 8: ok\nbegin 8: ok\ninitiate 9: ok\nbegin 9: ok\n\
    write 7 1 11: ok\nwrite 8 2 22: ok\nread 9 3: 300\nwrite 9 3 33: ok\nabort 7: aborted\nread 9 1: 100\n\
    complete 9: ok\ncommit 9: committed\n";

#[test]
fn three_groups_stay_apart(rt: HostRuntime) -> Result<(), Fail> {
    let rows: [Row; 4] = [
        (7, Some(7), false),
        (8, Some(8), false),
        (9, Some(9), true),
        (55, None, false),
    ];
    let wrong = played(rt.alloc(), &[(THREE_GROUPS, &rows)])?;
    assert_eq!(rt; wrong, (None, None));
    Ok(())
}

/// 7 writes an object, opens it, and 8 reads it.
const OPENED: &str = "\
    initiate 7: ok\nbegin 7: ok\ninitiate 8: ok\nbegin 8: ok\ninitiate 9: ok\nbegin 9: ok\n\
    write 7 1 50: ok\npermit 7 any r 1: ok\n";

const READ_BY_8: &str = "read 8 1: 50\nread 9 2: 200\n";

const COMMIT_OF_8: &str = "abort 7: aborted\ncomplete 8: ok\ncommit 8: committed\n";

#[test]
fn open_permit_joins_with_who_operates_later(rt: HostRuntime) -> Result<(), Fail> {
    let opened: [Row; 3] = [
        (7, Some(7), false),
        (8, Some(8), false),
        (9, Some(9), false),
    ];
    let met: [Row; 3] = [
        (7, Some(7), false),
        (8, Some(7), false),
        (9, Some(9), false),
    ];
    let committed: [Row; 3] = [(7, Some(7), true), (8, Some(7), true), (9, Some(9), false)];
    let wrong = played(
        rt.alloc(),
        &[
            (OPENED, &opened),
            (READ_BY_8, &met),
            (COMMIT_OF_8, &committed),
        ],
    )?;
    assert_eq!(rt; wrong, (None, None));
    Ok(())
}

/// 7, 8 and 9 write an object in turn, each after the one before has committed; 9 opens it.
const WRITTEN_IN_TURN: &str = "\
    initiate 7: ok\nbegin 7: ok\nwrite 7 1 50: ok\ncomplete 7: ok\ncommit 7: committed\n\
    initiate 8: ok\nbegin 8: ok\nwrite 8 1 60: ok\ncomplete 8: ok\ncommit 8: committed\n\
    initiate 9: ok\nbegin 9: ok\nwrite 9 1 70: ok\n";

const OPENED_BY_9: &str = "permit 9 any rw 1: ok\n";

#[test]
fn open_permit_joins_with_all_who_operated_before(rt: HostRuntime) -> Result<(), Fail> {
    let apart: [Row; 3] = [(7, Some(7), true), (8, Some(8), true), (9, Some(9), false)];
    let met: [Row; 3] = [(7, Some(7), true), (8, Some(7), true), (9, Some(7), true)];
    let wrong = played(
        rt.alloc(),
        &[(WRITTEN_IN_TURN, &apart), (OPENED_BY_9, &met)],
    )?;
    assert_eq!(rt; wrong, (None, None));
    Ok(())
}

/// 7 and 8 open an object that nobody has operated on, and 9 opens another; then 9 reads the first.
const OPENED_BY_TWO: &str = "\
    initiate 7: ok\nbegin 7: ok\ninitiate 8: ok\nbegin 8: ok\ninitiate 9: ok\nbegin 9: ok\n\
    permit 7 any rw 1: ok\npermit 8 any rw 1: ok\npermit 9 any r 2: ok\n";

const READ_BY_9: &str = "read 9 1: 100\n";

#[test]
fn openers_are_joined_once_somebody_operates(rt: HostRuntime) -> Result<(), Fail> {
    let apart: [Row; 3] = [
        (7, Some(7), false),
        (8, Some(8), false),
        (9, Some(9), false),
    ];
    let met: [Row; 3] = [
        (7, Some(7), false),
        (8, Some(7), false),
        (9, Some(7), false),
    ];
    let wrong = played(rt.alloc(), &[(OPENED_BY_TWO, &apart), (READ_BY_9, &met)])?;
    assert_eq!(rt; wrong, (None, None));
    Ok(())
}

/// A parent is not acted on, a refused open permit joins nobody, and a dependency on an unknown transaction joins it.
const OTHERS: &str = "\
    initiate 7: ok\nbegin 7: ok\ninitiate 8 7: ok\nbegin 8: ok\nread 8 1: 100\npermit 5 any r 1: refused unknown 5\n\
    depend cd 6 8: refused unknown 6\nwait 4: refused unknown 4\n";

#[test]
fn whoever_a_step_acts_on_has_a_group(rt: HostRuntime) -> Result<(), Fail> {
    let rows: [Row; 6] = [
        (7, Some(7), false),
        (8, Some(8), false),
        (5, Some(5), false),
        (6, Some(8), false),
        (4, Some(4), false),
        (3, None, false),
    ];
    let wrong = played(rt.alloc(), &[(OTHERS, &rows)])?;
    assert_eq!(rt; wrong, (None, None));
    Ok(())
}

/// Returns an empty history like the one that a script leaves. If memory runs out once, it is asked again.
fn emptied(alloc: Global, script: &str) -> Result<(History, Option<usize>), OpenFault> {
    let mut core = opened(alloc, &THREE, ROOM)?;
    let wrong = first_wrong_line(alloc, &mut core, script);
    let history = core.into_history();
    let empty = match history.empty_like() {
        Err(NoMemory) => history.empty_like(),
        empty => empty,
    };
    drop(history);
    match empty {
        Ok(empty) => Ok((empty, wrong)),
        Err(NoMemory) => Err(OpenFault::NoMemory),
    }
}

#[test]
fn empty_history_knows_nobody(rt: HostRuntime) -> Result<(), Fail> {
    let (empty, wrong) = emptied(rt.alloc(), WRITTEN_IN_TURN)?;
    let told = (empty.first_of(Txn(7)), empty.group_committed(Txn(7)));
    let names = empty.groups().len();
    drop(empty);
    assert_eq!(rt; wrong, None);
    assert_eq!(rt; told, (None, false));
    assert_eq!(rt; names, 0);
    Ok(())
}
