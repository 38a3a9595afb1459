//! Dependencies as entries of the facility, and what is left if memory runs out.

use crate::again::opened;
use crate::facility::wrong_over_three;
use crate::opening::{ROOM, THREE};
use crate::script::{first_other_entry, first_wrong_line};
use asset_names::{Ob, Op, Status, Txn};
use std::test::Fail;

/// Dependencies of each kind, with each refusal that they can get.
const DEPENDENCIES: &str = "\
    depend cd 5 6: refused unknown 5\ninitiate 7: ok\ndepend cd 7 6: refused unknown 6\n\
    depend gc 7 7: refused same\ninitiate 8: ok\ninitiate 9: ok\ndepend ad 7 8: ok\n\
    depend gc 8 9: ok\ndepend cd 9 7: refused cycle\ndepend gc 9 8: ok\nabort 9: aborted\n\
    depend ad 7 8: refused ended 8\ndepend cd 9 7: refused ended 9\n\
    depend gc 8 9: refused ended 8\nabort 8: aborted\nbegin 7: ok\ninitiate 6: ok\n\
    depend cd 7 6: ok\ncomplete 7: ok\ncommit 7: committed\ndepend ad 7 6: refused ended 7\n\
    depend gc 6 7: refused ended 7\n";

#[test]
fn dependencies_are_entries(rt: HostRuntime) {
    assert_eq!(rt; wrong_over_three(rt.alloc(), DEPENDENCIES), Ok([None; 2]));
}

/// Dependencies of the greatest name, of the one before it, and of the least.
const GREAT_NAMES: &str = "\
    depend cd 18446744073709551615 18446744073709551614: refused unknown 18446744073709551615\n\
    initiate 18446744073709551615: ok\n\
    depend ad 18446744073709551615 18446744073709551614: refused unknown 18446744073709551614\n\
    initiate 0: ok\n\
    depend gc 0 18446744073709551615: ok\n\
    depend ad 18446744073709551615 0: refused cycle\n\
    initiate 18446744073709551614: ok\n\
    depend ad 18446744073709551615 18446744073709551614: ok\n\
    depend cd 0 18446744073709551614: ok\n\
    abort 18446744073709551615: aborted\n\
    depend cd 18446744073709551614 0: refused ended 18446744073709551614\n";

#[test]
fn great_names_are_tied(rt: HostRuntime) {
    assert_eq!(rt; wrong_over_three(rt.alloc(), GREAT_NAMES), Ok([None; 2]));
}

/// Abort and commit dependencies are made while a reader waits, and a commit waits for its sources.
const TIED: &str = "\
    initiate 7: ok\nbegin 7: ok\ninitiate 8: ok\nbegin 8: ok\ninitiate 9: ok\nbegin 9: ok\n\
    write 7 1 50: ok\nread 9 1: wait\ncomplete 8: ok\ndepend ad 7 8: ok\ncommit 8: wait\n\
    depend cd 8 9: ok\ndepend cd 7 9: ok\ncommit 8: wait\ncomplete 7: ok\ncommit 8: wait\n";

/// The source aborts, and with it one of its dependents.
const ENDED: &str = "\
    abort 7: aborted\nread 9 1: 100\ncommit 8: aborted\ncomplete 9: ok\ncommit 9: committed\n";

#[test]
fn dependencies_are_done(rt: HostRuntime) -> Result<(), Fail> {
    let mut core = opened(rt.alloc(), &THREE, ROOM)?;
    let tied = first_wrong_line(rt.alloc(), &mut core, TIED);
    let other = first_other_entry(rt.alloc(), core.history(), TIED);
    let waiter = core.waiters(Ob(1), 0);
    let ended = first_wrong_line(rt.alloc(), &mut core, ENDED);
    drop(core);
    assert_eq!(rt; [tied, other, ended], [None; 3]);
    assert!(rt; waiter == Some((Txn(9), Op::Read)));
    Ok(())
}

/// Three transactions end together; a dependency between two that are of one class already is made too.
const CLASS: &str = "\
    initiate 7: ok\nbegin 7: ok\ninitiate 8: ok\nbegin 8: ok\ninitiate 9: ok\nbegin 9: ok\n\
    write 7 1 50: ok\ndepend gc 7 8: ok\ndepend gc 9 8: ok\ndepend gc 7 9: ok\n\
    complete 7: ok\ncomplete 8: ok\ncommit 7: wait\ncomplete 9: ok\ncommit 8: committed\n\
    commit 7: committed\nwait 9: committed\nabort 9: refused too late 9\n";

#[test]
fn class_of_three_is_made(rt: HostRuntime) -> Result<(), Fail> {
    let mut core = opened(rt.alloc(), &THREE, ROOM)?;
    let wrong = first_wrong_line(rt.alloc(), &mut core, CLASS);
    let other = first_other_entry(rt.alloc(), core.history(), CLASS);
    let statuses = [
        core.status(Txn(7)),
        core.status(Txn(8)),
        core.status(Txn(9)),
    ];
    let value = core.value(Ob(1));
    drop(core);
    assert_eq!(rt; [wrong, other], [None; 2]);
    assert!(rt; statuses == [Status::Committed; 3]);
    assert_eq!(rt; value, Some(50));
    Ok(())
}
