//! Each public call on worked values, and what is left if memory runs out.

use asset_names::{End, NoMemory, Status, Txn};
use asset_trans::{Trans, TransRow};

/// How many transactions are initiated if memory runs out once.
const COUNT: u64 = 20;

/// Returns the seat that the tests give a transaction.
fn seat_for(t: Txn) -> usize {
    t.0 as usize % 100 + 3
}

/// Initiates a transaction if it is Unknown, and returns whether it was.
pub(crate) fn initiate(trans: &mut Trans, t: Txn, parent: Option<Txn>) -> Result<bool, NoMemory> {
    match trans.status(t) {
        Status::Unknown => {
            trans.initiate_at(t, parent, seat_for(t))?;
            Ok(true)
        }
        _ => Ok(false),
    }
}

/// Initiates as `initiate` does. If memory runs out, nothing has changed, and the same call is made again.
fn initiate_again(trans: &mut Trans, t: Txn, parent: Option<Txn>) -> Result<bool, NoMemory> {
    let before = (trans.owed(), trans.live_count());
    match initiate(trans, t, parent) {
        Ok(initiated) => Ok(initiated),
        Err(NoMemory) => {
            let now = (trans.owed(), trans.live_count());
            if trans.status(t) == Status::Unknown && now == before {
                initiate(trans, t, parent)
            } else {
                Ok(false)
            }
        }
    }
}

/// Begins a transaction if it is Initiated, and returns whether it was.
pub(crate) fn begin(trans: &mut Trans, t: Txn) -> bool {
    match trans.status(t) {
        Status::Initiated => {
            trans.begin(t);
            true
        }
        _ => false,
    }
}

/// Completes a transaction if it is Running, and returns whether it was.
pub(crate) fn complete(trans: &mut Trans, t: Txn) -> bool {
    match trans.status(t) {
        Status::Running => {
            trans.complete(t);
            true
        }
        _ => false,
    }
}

/// Ends a transaction if it is live, and returns whether it was.
pub(crate) fn end(trans: &mut Trans, t: Txn, how: End) -> bool {
    if trans.status(t).is_live() {
        trans.end(t, how);
        true
    } else {
        false
    }
}

/// Returns whether `t` has this status, and `live` transactions are owed `owed` entries.
pub(crate) fn shows(trans: &Trans, t: u64, status: Status, owed: usize, live: usize) -> bool {
    trans.status(Txn(t)) == status && trans.owed() == owed && trans.live_count() == live
}

/// Returns whether each change of the one transaction, 7, is shown, up to its commit.
fn changes_are_shown(trans: &mut Trans) -> bool {
    initiate_again(trans, Txn(7), None) == Ok(true)
        && shows(trans, 7, Status::Initiated, 2, 1)
        && begin(trans, Txn(7))
        && shows(trans, 7, Status::Running, 2, 1)
        && complete(trans, Txn(7))
        && shows(trans, 7, Status::Completed, 1, 1)
        && end(trans, Txn(7), End::Committed)
        && shows(trans, 7, Status::Committed, 0, 0)
        && !end(trans, Txn(7), End::Aborted)
}

#[test]
fn statuses_and_what_is_owed(rt: HostRuntime) {
    let mut trans = Trans::new(rt.alloc());
    let shown = changes_are_shown(&mut trans);
    drop(trans);
    assert!(rt; shown);
}

/// Returns whether 8 has its parent, 7, which is no transaction, and can abort.
fn parent_stands(trans: &mut Trans) -> bool {
    initiate_again(trans, Txn(8), Some(Txn(7))) == Ok(true)
        && trans.parent(Txn(8)) == Some(Txn(7))
        && trans.parent(Txn(7)) == None
        && trans.status(Txn(9)) == Status::Unknown
        && end(trans, Txn(8), End::Aborted)
        && trans.status(Txn(8)) == Status::Aborted
}

#[test]
fn parent_is_recorded(rt: HostRuntime) {
    let mut trans = Trans::new(rt.alloc());
    let recorded = parent_stands(&mut trans);
    drop(trans);
    assert!(rt; recorded);
}

/// Returns whether the rows of 7, which has ended, and of 8, its child, hold the seats that they were given, and that of 9,
/// which is unknown, none.
fn seats_stand(trans: &mut Trans) -> bool {
    let child = TransRow {
        status: Status::Initiated,
        parent: Some(Txn(7)),
        seat: 11,
    };
    let ended = TransRow {
        status: Status::Aborted,
        parent: None,
        seat: 10,
    };
    initiate_again(trans, Txn(7), None) == Ok(true)
        && initiate_again(trans, Txn(8), Some(Txn(7))) == Ok(true)
        && end(trans, Txn(7), End::Aborted)
        && (trans.seat(Txn(7)), trans.seat(Txn(8)), trans.seat(Txn(9))) == (10, 11, 0)
        && trans.find(Txn(7)) == Some(ended)
        && trans.find(Txn(8)) == Some(child)
        && trans.find(Txn(9)) == None
}

#[test]
fn rows_hold_their_seats(rt: HostRuntime) {
    let mut trans = Trans::new(rt.alloc());
    let held = seats_stand(&mut trans);
    drop(trans);
    assert!(rt; held);
}

/// Initiates a transaction without a seat, and returns its row. If memory runs out, the same call is made again.
fn row_without_a_seat(trans: &mut Trans, t: Txn, parent: Option<Txn>) -> Option<TransRow> {
    'asked: for _ in 0..2 {
        match trans.status(t) {
            Status::Unknown => {
                let _done = trans.initiate(t, parent);
            }
            _ => {}
        }
    }
    trans.find(t)
}

#[test]
fn row_without_a_seat_says_zero(rt: HostRuntime) {
    let mut trans = Trans::new(rt.alloc());
    let row = row_without_a_seat(&mut trans, Txn(7), Some(Txn(8)));
    drop(trans);
    let expected = TransRow {
        status: Status::Initiated,
        parent: Some(Txn(8)),
        seat: 0,
    };
    assert_eq!(rt; row, Some(expected));
}

/// Returns whether `COUNT` transactions are initiated, one after another, and none twice.
fn all_are_initiated(trans: &mut Trans) -> bool {
    let mut alike = true;
    for t in 0..COUNT {
        alike = initiate_again(trans, Txn(t), None) == Ok(true)
            && trans.status(Txn(t)) == Status::Initiated
            && alike;
    }
    alike
        && (trans.owed(), trans.live_count()) == (40, 20)
        && initiate(trans, Txn(7), None) == Ok(false)
}

#[test]
fn out_of_memory_changes_nothing(rt: HostRuntime) {
    let mut trans = Trans::new(rt.alloc());
    let initiated = all_are_initiated(&mut trans);
    drop(trans);
    assert!(rt; initiated);
}

/// Returns how many have committed and how many have aborted.
fn ended(trans: &Trans) -> (usize, usize) {
    (trans.ended(End::Committed), trans.ended(End::Aborted))
}

/// Returns how many have ended in each way before anybody is there, and after one commit and two aborts among five.
fn counts_of_ends(trans: &mut Trans) -> Option<[(usize, usize); 2]> {
    let before = ended(trans);
    for t in 1..6 {
        if initiate_again(trans, Txn(t), None) != Ok(true) {
            return None;
        }
    }
    for (t, how) in [(2, End::Aborted), (4, End::Committed), (5, End::Aborted)] {
        if !end(trans, Txn(t), how) {
            return None;
        }
    }
    Some([before, ended(trans)])
}

#[test]
fn ended_transactions_are_counted(rt: HostRuntime) {
    let mut trans = Trans::new(rt.alloc());
    let counts = counts_of_ends(&mut trans);
    drop(trans);
    assert_eq!(rt; counts, Some([(0, 0), (1, 2)]));
}
