//! Five thousand transactions live at once.

use crate::asserts::same;
use crate::trans::{begin, complete, end, initiate, shows};
use asset_names::{End, Status, Txn};
use asset_trans::Trans;

/// How many transactions live at once.
const LIVE: usize = 5_000;

/// Initiates each transaction. Returns the first that is not shown as Initiated.
fn first_not_initiated(trans: &mut Trans) -> Option<usize> {
    for n in 0..LIVE {
        let t = n as u64;
        let initiated = initiate(trans, Txn(t), None) == Ok(true);
        if !initiated || !shows(trans, t, Status::Initiated, 2 * (n + 1), n + 1) {
            return Some(n);
        }
    }
    None
}

/// Begins each transaction. Returns the first that is not shown as Running.
fn first_not_begun(trans: &mut Trans) -> Option<usize> {
    for n in 0..LIVE {
        let t = n as u64;
        if !begin(trans, Txn(t)) || !shows(trans, t, Status::Running, 2 * LIVE, LIVE) {
            return Some(n);
        }
    }
    None
}

/// Completes each transaction. Returns the first that is not shown as Completed.
fn first_not_completed(trans: &mut Trans) -> Option<usize> {
    for n in 0..LIVE {
        let t = n as u64;
        let owed = 2 * LIVE - (n + 1);
        if !complete(trans, Txn(t)) || !shows(trans, t, Status::Completed, owed, LIVE) {
            return Some(n);
        }
    }
    None
}

/// Commits each transaction. Returns the first that is not shown as Committed.
fn first_not_committed(trans: &mut Trans) -> Option<usize> {
    for n in 0..LIVE {
        let t = n as u64;
        let left = LIVE - (n + 1);
        let committed = end(trans, Txn(t), End::Committed);
        if !committed || !shows(trans, t, Status::Committed, left, left) {
            return Some(n);
        }
    }
    None
}

/// Returns the first transaction that goes wrong at each stage of its life.
fn wrong_ones(trans: &mut Trans) -> [Option<usize>; 4] {
    [
        first_not_initiated(trans),
        first_not_begun(trans),
        first_not_completed(trans),
        first_not_committed(trans),
    ]
}

#[test]
fn five_thousand_transactions_live(rt: HostRuntime) {
    let mut trans = Trans::new(rt.alloc());
    let wrong = wrong_ones(&mut trans);
    let ended = (trans.ended(End::Committed), trans.ended(End::Aborted));
    drop(trans);
    same(&rt, wrong, [None; 4]);
    same(&rt, ended, (LIVE, 0));
}
