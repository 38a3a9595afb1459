//! Objects that several groups use from one side before somebody uses them from the other.

use crate::drawn::groups_of;
use crate::many::{DONE, READ, all_are, first_other, one_asks, played};
use asset_core::Core;
use asset_deletion::Groups;
use asset_names::{Ob, Op, Ops, Outcome, Reply, Txn};
use asset_test_tools::{commit, complete, permit_any, read, write};
use std::test::Fail;

const COMMITTED: Outcome = Outcome::Answer(Reply::Committed);

/// A transaction writes an object and commits.
fn writes(core: &mut Core, t: u64, x: u64) -> bool {
    one_asks(core, t, write(t, x, 100), DONE)
        && all_are(core, &[(complete(t), DONE), (commit(t), COMMITTED)])
}

/// A transaction lets anybody read an object.
fn opens(core: &mut Core, t: u64, x: u64) -> bool {
    one_asks(core, t, permit_any(t, &[Ob(x)], Ops::only(Op::Read)), DONE)
}

/// Transactions 1 to 300 write object 1 and 2,001 to 2,300 object 2, one after another, and then 5,000 opens object 1.
fn hundreds_write(core: &mut Core) -> Option<u64> {
    for t in 1..301 {
        if !writes(core, t, 1) || !writes(core, t + 2_000, 2) {
            return Some(t);
        }
    }
    if opens(core, 5_000, 1) {
        None
    } else {
        Some(5_000)
    }
}

#[test]
fn hundreds_who_wrote_an_object_meet_its_opener(rt: HostRuntime) -> Result<(), Fail> {
    let (history, wrong) = played(rt.alloc(), hundreds_write)?;
    let found = groups_of(rt.alloc(), &history);
    drop(history);
    let found = found?;
    let pairs = [
        (1, 300, true),
        (1, 5_000, true),
        (150, 151, true),
        (300, 5_000, true),
        (1, 2_001, false),
        (2_001, 2_002, false),
        (2_299, 2_300, false),
    ];
    let other = first_other(&found, &pairs);
    let count = found.count();
    drop(found);
    assert_eq!(rt; (wrong, other), (None, None));
    assert_eq!(rt; count, 301);
    Ok(())
}

/// Each of objects 1 to 100 is written by three, whose names are above by 1,000, 2,000 and 3,000, in three rounds; then the
/// transaction of its number opens it.
fn each_is_written_and_then_opened(core: &mut Core) -> Option<u64> {
    for round in 1..4 {
        for x in 1..101 {
            if !writes(core, x + 1_000 * round, x) {
                return Some(x);
            }
        }
    }
    for x in 1..101 {
        if !opens(core, x, x) {
            return Some(x);
        }
    }
    None
}

/// Each of objects 1 to 100 is opened by three, whose names are as above; then the transaction of its number reads it.
fn each_is_opened_and_then_read(core: &mut Core) -> Option<u64> {
    for round in 1..4 {
        for x in 1..101 {
            if !opens(core, x + 1_000 * round, x) {
                return Some(x);
            }
        }
    }
    for x in 1..101 {
        if !one_asks(core, x, read(x, x), READ) {
            return Some(x);
        }
    }
    None
}

/// Returns the first of objects 1 to 100 whose four users are not of one group, or are of one with a user of the next object.
fn first_apart(found: &Groups) -> Option<u64> {
    for x in 1..101 {
        for round in 1..4 {
            let user = Txn(x + 1_000 * round);
            let next = Txn(x + 1 + 1_000 * round);
            if !found.same(Txn(x), user) || found.same(user, next) {
                return Some(x);
            }
        }
    }
    None
}

#[test]
fn each_object_that_was_written_meets_its_opener(rt: HostRuntime) -> Result<(), Fail> {
    let (history, wrong) = played(rt.alloc(), each_is_written_and_then_opened)?;
    let found = groups_of(rt.alloc(), &history);
    drop(history);
    let found = found?;
    let apart = first_apart(&found);
    let count = found.count();
    drop(found);
    assert_eq!(rt; (wrong, apart), (None, None));
    assert_eq!(rt; count, 100);
    Ok(())
}

#[test]
fn each_object_that_was_opened_meets_its_reader(rt: HostRuntime) -> Result<(), Fail> {
    let (history, wrong) = played(rt.alloc(), each_is_opened_and_then_read)?;
    let found = groups_of(rt.alloc(), &history);
    drop(history);
    let found = found?;
    let apart = first_apart(&found);
    let count = found.count();
    drop(found);
    assert_eq!(rt; (wrong, apart), (None, None));
    assert_eq!(rt; count, 100);
    Ok(())
}
