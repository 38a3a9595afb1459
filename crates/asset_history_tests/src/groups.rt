//! Groups of worked histories, of a long one, and of drawn ones beside a plain list.

use crate::histories::{left_by, played};
use asset_core::Core;
use asset_core_tests::ask;
use asset_deletion::{Groups, groups};
use asset_history::History;
use asset_names::{Kind, NoMemory, Outcome, Refusal, Reply, Txn};
use asset_test_tools::{depend, join_in, label_in, next};
use std::alloc::Global;
use std::test::Fail;

/// How many transactions there are beside the plain list, and how many dependencies are drawn.
const NAMES: usize = 40;

const DRAWN: usize = 30;

/// How many transactions are joined backwards.
const MANY: u64 = 4_000;

/// Returns the groups of the history. If memory runs out once, they are looked for again.
fn groups_of(alloc: Global, history: &History) -> Result<Groups, NoMemory> {
    match groups(alloc, history) {
        Ok(found) => Ok(found),
        Err(NoMemory) => groups(alloc, history),
    }
}

/// A commit after a dependency, an abort, and a dependency on an unknown transaction, which is refused.
const TWO_GROUPS: &str = "\
    initiate 7: ok\nbegin 7: ok\ninitiate 8: ok\ndepend cd 7 8: ok\ncomplete 7: ok\n\
    commit 7: committed\ndepend ad 5 9: refused unknown 5\ninitiate 9: ok\nabort 9: aborted\n";

/// Returns the first name that is not the expected one at its index, with nothing after the last.
fn first_other_name(found: &Groups, names: &[u64]) -> Option<usize> {
    for (index, name) in names.iter().enumerate() {
        if found.name(index) != Some(Txn(*name)) {
            return Some(index);
        }
    }
    if found.name(names.len()) == None {
        None
    } else {
        Some(names.len())
    }
}

/// Returns the first transaction whose group is not the expected one, or is dead or alive unexpectedly.
fn first_other_group(found: &Groups, rows: &[(u64, Option<usize>, bool)]) -> Option<u64> {
    for (t, group, dead) in rows {
        if found.of(Txn(*t)) != *group || found.is_dead(Txn(*t)) != *dead {
            return Some(*t);
        }
    }
    None
}

/// Returns whether the groups are those of 7 and 8, and of 9 and 5.
fn two_groups_are_shown(found: &Groups) -> bool {
    let rows = [
        (7, Some(0), false),
        (8, Some(0), false),
        (9, Some(1), true),
        (5, Some(1), true),
        (55, None, false),
    ];
    let same = [(8, 7, true), (8, 9, false), (55, 55, false)];
    for (t, u, alike) in same {
        if found.same(Txn(t), Txn(u)) != alike {
            return false;
        }
    }
    found.count() == 2
        && first_other_name(found, &[7, 8, 5, 9]) == None
        && first_other_group(found, &rows) == None
}

#[test]
fn groups_of_a_history_are_shown(rt: HostRuntime) -> Result<(), Fail> {
    let (history, wrong) = left_by(rt.alloc(), TWO_GROUPS)?;
    let found = groups_of(rt.alloc(), &history);
    drop(history);
    let found = found?;
    let shown = two_groups_are_shown(&found);
    drop(found);
    assert_eq!(rt; wrong, None);
    assert!(rt; shown);
    Ok(())
}

/// Plays refused dependencies, of which each joins a transaction with the one before it, the last transaction first. Returns
/// the first that is not refused.
fn many_are_joined_backwards(core: &mut Core) -> Option<u64> {
    for below in 1..MANY {
        let t = MANY - below;
        let refused = Outcome::Answer(Reply::Refused(Refusal::Unknown(Txn(t))));
        if ask(core, &depend(Kind::Gc, t, t - 1)) != Ok(refused) {
            return Some(t);
        }
    }
    None
}

/// Returns the first transaction that is not of the first group, or whose group is not dead.
fn first_outside(found: &Groups) -> Option<u64> {
    for t in 0..MANY {
        if found.of(Txn(t)) != Some(0) || !found.is_dead(Txn(t)) {
            return Some(t);
        }
    }
    None
}

#[test]
fn thousands_joined_backwards_are_one_group(rt: HostRuntime) -> Result<(), Fail> {
    let (history, unrefused) = played(rt.alloc(), MANY as usize, many_are_joined_backwards)?;
    let found = groups_of(rt.alloc(), &history);
    drop(history);
    let found = found?;
    let outside = first_outside(&found);
    let first = found.name(0);
    let count = found.count();
    drop(found);
    assert_eq!(rt; (unrefused, outside), (None, None));
    assert!(rt; first == Some(Txn(MANY - 1)) && count == 1);
    Ok(())
}

/// Returns the two transactions that a number stands for.
fn drawn(number: u64) -> (usize, usize) {
    (
        (number >> 40) as usize % NAMES,
        (number >> 30) as usize % NAMES,
    )
}

/// Plays dependencies that are drawn and refused. Returns the first number that met a fault.
fn dependencies_are_drawn(core: &mut Core) -> Option<u64> {
    let mut number = 1;
    for _ in 0..DRAWN {
        number = next(number);
        let (a, b) = drawn(number);
        if ask(core, &depend(Kind::Cd, a as u64, b as u64)).is_err() {
            return Some(number);
        }
    }
    None
}

/// Notes that a step acts on the transaction.
fn set_used(used: &mut [bool], t: usize) {
    if let Some(slot) = used.get_mut(t) {
        *slot = true;
    }
}

/// Returns the first two transactions that are of one group and not both used with one label in the list, or the other way
/// round.
fn first_other_pair(found: &Groups, list: &[usize], used: &[bool]) -> Option<(u64, u64)> {
    for a in 0..NAMES {
        for b in 0..NAMES {
            let both = used.get(a) == Some(&true) && used.get(b) == Some(&true);
            let same = both && label_in(list, a) == label_in(list, b);
            if found.same(Txn(a as u64), Txn(b as u64)) != same {
                return Some((a as u64, b as u64));
            }
        }
    }
    None
}

/// Returns the first two transactions whose groups differ from the labels of a plain list.
fn first_difference(found: &Groups) -> Option<(u64, u64)> {
    let mut list = [0; NAMES];
    for (t, label) in list.iter_mut().enumerate() {
        *label = t;
    }
    let mut used = [false; NAMES];
    let mut number = 1;
    for _ in 0..DRAWN {
        number = next(number);
        let (a, b) = drawn(number);
        join_in(&mut list, a, b);
        set_used(&mut used, a);
        set_used(&mut used, b);
    }
    first_other_pair(found, &list, &used)
}

#[test]
fn groups_agree_with_a_plain_list(rt: HostRuntime) -> Result<(), Fail> {
    let (history, fault) = played(rt.alloc(), DRAWN, dependencies_are_drawn)?;
    let found = groups_of(rt.alloc(), &history);
    drop(history);
    let found = found?;
    let difference = first_difference(&found);
    drop(found);
    assert_eq!(rt; fault, None);
    assert_eq!(rt; difference, None);
    Ok(())
}
