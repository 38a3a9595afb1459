//! A hundred locks on one object, a hundred who wait for it, and a hundred locks of one transaction.

use crate::locks::ask_once;
use asset_locks::{Asked, LockState, Locks};
use asset_names::{Ob, Op, Txn};
use asset_permits::Permits;

/// The first of a hundred readers.
const FIRST_READER: u64 = 1_000;

/// One past the last of them.
const END_OF_READERS: u64 = 1_100;

/// The first of a hundred writers.
const FIRST_WRITER: u64 = 2_000;

/// One past the last of them.
const END_OF_WRITERS: u64 = 2_100;

/// How many writers there are, and how many objects one transaction holds.
const HUNDRED: usize = 100;

/// Lets each reader ask to read 1. Returns the first that does not get a lock, or is shown with another.
fn first_reader_without(locks: &mut Locks, permits: &mut Permits) -> Option<u64> {
    for t in FIRST_READER..END_OF_READERS {
        let asked = ask_once(locks, t, 1, Op::Read, permits);
        let held = (locks.held_by(Txn(t), 0), locks.held_by(Txn(t), 1));
        if asked != Ok(Asked::Granted) || held != (Some(Ob(1)), None) {
            return Some(t);
        }
    }
    None
}

/// Returns the first reader whose lock on 1 does not stand.
fn first_reader_not_shown(locks: &Locks) -> Option<u64> {
    for t in FIRST_READER..END_OF_READERS {
        if locks.status(Txn(t), Ob(1)) != Some(LockState::Granted) {
            return Some(t);
        }
    }
    None
}

/// Lets each writer ask to write 1. Returns the first that does not wait.
fn first_writer_not_waiting(locks: &mut Locks, permits: &mut Permits) -> Option<u64> {
    for t in FIRST_WRITER..END_OF_WRITERS {
        if ask_once(locks, t, 1, Op::Write, permits) != Ok(Asked::Pending) {
            return Some(t);
        }
    }
    None
}

/// Returns the first writer that is not among the waiters for 1 in its turn.
fn first_waiter_not_shown(locks: &Locks) -> Option<u64> {
    for i in 0..HUNDRED {
        let t = FIRST_WRITER + i as u64;
        if locks.waiters(Ob(1), i) != Some((Txn(t), Op::Write)) {
            return Some(t);
        }
    }
    None
}

/// Releases each reader. Returns the first before whose release 1 is free for a writer.
fn first_too_early(locks: &mut Locks, permits: &mut Permits) -> Option<u64> {
    for t in FIRST_READER..END_OF_READERS {
        if locks.is_free(Txn(FIRST_WRITER), Ob(1), Op::Write, permits) {
            return Some(t);
        }
        locks.release(Txn(t));
    }
    None
}

/// Returns the first reader or writer that goes wrong, from the first lock to the release of all readers.
fn wrong_ones(locks: &mut Locks, permits: &mut Permits) -> [Option<u64>; 5] {
    [
        first_reader_without(locks, permits),
        first_reader_not_shown(locks),
        first_writer_not_waiting(locks, permits),
        first_waiter_not_shown(locks),
        first_too_early(locks, permits),
    ]
}

/// Returns whether the first writer goes on, and the second is then the first that waits.
fn writer_goes_on(locks: &mut Locks, permits: &mut Permits) -> bool {
    let last = locks.waiters(Ob(1), HUNDRED - 1);
    let none = locks.waiters(Ob(1), HUNDRED);
    let asked = ask_once(locks, FIRST_WRITER, 1, Op::Write, permits);
    let next = locks.waiters(Ob(1), 0);
    last == Some((Txn(END_OF_WRITERS - 1), Op::Write))
        && none == None
        && asked == Ok(Asked::Granted)
        && next == Some((Txn(FIRST_WRITER + 1), Op::Write))
}

#[test]
fn hundred_readers_share_an_object(rt: HostRuntime) {
    let mut permits = Permits::new(rt.alloc());
    let mut locks = Locks::new(rt.alloc());
    let wrong = wrong_ones(&mut locks, &mut permits);
    let goes_on = writer_goes_on(&mut locks, &mut permits);
    drop(locks);
    drop(permits);
    assert_eq!(rt; wrong, [None; 5]);
    assert!(rt; goes_on);
}

/// Lets 7 ask to write each object. Returns the first on which it does not get a lock.
fn first_not_granted(locks: &mut Locks, permits: &mut Permits) -> Option<usize> {
    for i in 0..HUNDRED {
        if ask_once(locks, 7, i as u64, Op::Write, permits) != Ok(Asked::Granted) {
            return Some(i);
        }
    }
    None
}

/// Returns the first object that 7 is not shown to hold, or that is free for 8.
fn first_not_held(locks: &Locks, permits: &mut Permits) -> Option<usize> {
    for i in 0..HUNDRED {
        let x = Ob(i as u64);
        let state = locks.status(Txn(7), x);
        let free = locks.is_free(Txn(8), x, Op::Read, permits);
        if locks.held_by(Txn(7), i) != Some(x) || state != Some(LockState::Granted) || free {
            return Some(i);
        }
    }
    None
}

/// Returns the first object that 7 is still shown to hold, or that is not free for 8.
fn first_not_free(locks: &Locks, permits: &mut Permits) -> Option<usize> {
    for i in 0..HUNDRED {
        let x = Ob(i as u64);
        let state = locks.status(Txn(7), x);
        let free = locks.is_free(Txn(8), x, Op::Write, permits);
        if locks.held_by(Txn(7), i) != None || state != None || !free {
            return Some(i);
        }
    }
    None
}

/// Returns the first object that goes wrong, as 7 gets its locks, holds them, and is released.
fn wrong_objects(locks: &mut Locks, permits: &mut Permits) -> [Option<usize>; 3] {
    let not_granted = first_not_granted(locks, permits);
    let not_held = first_not_held(locks, permits);
    locks.release(Txn(7));
    [not_granted, not_held, first_not_free(locks, permits)]
}

#[test]
fn one_transaction_holds_a_hundred_objects(rt: HostRuntime) {
    let mut permits = Permits::new(rt.alloc());
    let mut locks = Locks::new(rt.alloc());
    let wrong = wrong_objects(&mut locks, &mut permits);
    drop(locks);
    drop(permits);
    assert_eq!(rt; wrong, [None; 3]);
}
