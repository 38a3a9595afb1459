//! Whether those who committed share something after drawn steps with open permits, beside a comparison of every two entries.

use crate::drawn::{begin_all, opens_for};
use asset_core::{Core, OpenFault};
use asset_core_tests::{ask, opened};
use asset_history::History;
use asset_names::{NoMemory, Ob, Reply, Step, Txn, actor, partner, takes_effect};
use asset_serial::committed_share_nothing;
use asset_test_tools::{commit, complete, next, ops_of, permit_any, read, write};
use std::alloc::Global;
use std::test::Fail;

/// The objects, one for each transaction.
const OBJECTS: [(Ob, i64); 6] = [
    (Ob(0), 100),
    (Ob(1), 200),
    (Ob(2), 300),
    (Ob(3), 400),
    (Ob(4), 500),
    (Ob(5), 600),
];

/// How many transactions there are, how many steps are drawn, and room for all of them.
const NAMES: u64 = 6;

const DRAWN: u64 = 14;

const ROOM: usize = 60;

/// How many histories are drawn.
const HISTORIES: u64 = 60;

/// Returns the step that a number stands for: mostly on the object of its transaction, and seldom on another one.
fn drawn(number: u64) -> Step {
    let t = (number >> 40) % NAMES;
    let x = if (number >> 20) % 6 == 0 {
        (number >> 24) % NAMES
    } else {
        t
    };
    match (number >> 50) % 6 {
        0 | 1 => read(t, x),
        2 => write(t, x, (number % 1_000) as i64),
        _ => permit_any(t, &[Ob(x)], ops_of(number)),
    }
}

/// Begins all transactions and plays drawn steps; then half of the transactions complete and commit. Some wait. Returns the
/// first number that met a fault.
fn steps_are_drawn(core: &mut Core, seed: u64) -> Option<u64> {
    if let Some(t) = begin_all(core, NAMES) {
        return Some(t);
    }
    let mut number = seed;
    for _ in 0..DRAWN {
        number = next(number);
        if ask(core, &drawn(number)).is_err() {
            return Some(number);
        }
    }
    for t in 0..NAMES / 2 {
        if ask(core, &complete(t)).is_err() || ask(core, &commit(t)).is_err() {
            return Some(t);
        }
    }
    None
}

/// Returns the history that drawn steps leave, and the first number that met a fault.
fn drawn_history(alloc: Global, seed: u64) -> Result<(History, Option<u64>), OpenFault> {
    let mut core = opened(alloc, &OBJECTS, ROOM)?;
    let fault = steps_are_drawn(&mut core, seed);
    Ok((core.into_history(), fault))
}

/// Returns whether the transaction's own commit was answered.
fn has_committed(history: &History, t: Txn) -> bool {
    for index in 0..history.len() {
        if history.entry(index) == Some((Step::Commit { t }, Reply::Committed)) {
            return true;
        }
    }
    false
}

/// Returns whether two transactions are different, and one of them has committed.
fn share(history: &History, t: Txn, u: Txn) -> bool {
    t != u && (has_committed(history, t) || has_committed(history, u))
}

/// Returns whether two entries took effect and meet by an open permit.
fn meet(one: &(Step, Reply), other: &(Step, Reply)) -> bool {
    takes_effect(&one.0, one.1)
        && takes_effect(&other.0, other.1)
        && (opens_for(&one.0, &other.0) || opens_for(&other.0, &one.0))
}

/// Returns whether the entry of this index joins a committed transaction with another one, by itself or with an older entry.
fn entry_shares(history: &History, index: usize) -> bool {
    let Some(entry) = history.entry(index) else {
        return false;
    };
    if share(history, actor(&entry.0), partner(&entry.0)) {
        return true;
    }
    for older in 0..index {
        match history.entry(older) {
            Some(other) if meet(&entry, &other) => {
                if share(history, actor(&entry.0), actor(&other.0)) {
                    return true;
                }
            }
            _ => {}
        }
    }
    false
}

/// Returns whether some entry does.
fn some_share(history: &History) -> bool {
    for index in 0..history.len() {
        if entry_shares(history, index) {
            return true;
        }
    }
    false
}

/// Returns whether those who committed shared nothing. If memory runs out once, it is asked again.
pub(crate) fn share_nothing(alloc: Global, history: &History) -> Result<bool, NoMemory> {
    match committed_share_nothing(alloc, history) {
        Ok(nothing) => Ok(nothing),
        Err(NoMemory) => committed_share_nothing(alloc, history),
    }
}

#[test]
fn sharing_by_drawn_open_permits_agrees(rt: HostRuntime) -> Result<(), Fail> {
    let mut sharing = 0;
    for seed in 1..=HISTORIES {
        let (history, fault) = drawn_history(rt.alloc(), seed)?;
        let nothing = share_nothing(rt.alloc(), &history);
        let some = some_share(&history);
        drop(history);
        let nothing = nothing?;
        assert_eq!(rt; fault, None);
        assert!(rt; nothing != some, "seed {seed}");
        sharing = u64::saturating_add(sharing, u64::from(some));
    }
    assert!(rt; 10 < sharing && sharing < 50, "{sharing} share something");
    Ok(())
}
