//! Three hundred locks of one transaction that go to another, some by a list of objects and the others by all.

ghost use Rattle.std.specs.Prelude.{◌<◌};

use crate::handing::hand;
use crate::locks::ask_once;
use asset_locks::{Asked, LockState, Locks};
use asset_names::{Ob, ObList, ObSet, Op, Txn};
use asset_permits::Permits;
use asset_test_tools::listed;

/// How many objects 7 locks.
const LOCKED: usize = 300;

/// Every twentieth of them.
const TWENTIETHS: [Ob; 15] = [
    Ob(0),
    Ob(20),
    Ob(40),
    Ob(60),
    Ob(80),
    Ob(100),
    Ob(120),
    Ob(140),
    Ob(160),
    Ob(180),
    Ob(200),
    Ob(220),
    Ob(240),
    Ob(260),
    Ob(280),
];

/// How many they are, and how many are left.
const LISTED: usize = 15;

const OTHERS: usize = 285;

/// Lets 7 ask to write each object. Returns the first on which it does not get a lock.
fn first_not_granted(locks: &mut Locks, permits: &mut Permits) -> Option<usize> {
    for i in 0..LOCKED {
        if ask_once(locks, 7, i as u64, Op::Write, permits) != Ok(Asked::Granted) {
            return Some(i);
        }
    }
    None
}

/// Returns the object at the index among those that are not twentieths.
fn other(i: usize) -> Ob
    requires { i < 300 }
{
    Ob((i + 1 + i / 19) as u64)
}

/// Returns whether the object is what the transaction holds at the index, by a granted lock.
fn is_held(locks: &Locks, t: u64, i: usize, x: Ob) -> bool {
    locks.held_by(Txn(t), i) == Some(x) && locks.status(Txn(t), x) == Some(LockState::Granted)
}

/// Returns the first index at which 8 does not hold the twentieth there.
fn first_not_listed(locks: &Locks) -> Option<usize> {
    for (i, x) in TWENTIETHS.iter().enumerate() {
        if !is_held(locks, 8, i, *x) {
            return Some(i);
        }
    }
    None
}

/// Returns the first index at which 7 does not hold another object there.
fn first_not_kept(locks: &Locks) -> Option<usize> {
    for i in 0..OTHERS {
        if !is_held(locks, 7, i, other(i)) {
            return Some(i);
        }
    }
    None
}

/// Returns the first index at which 8 does not hold another object behind the twentieths.
fn first_not_moved(locks: &Locks) -> Option<usize> {
    for i in 0..OTHERS {
        if !is_held(locks, 8, LISTED + i, other(i)) {
            return Some(i);
        }
    }
    None
}

/// Hands each object over by itself. Returns the first that 8 does not hold then, in this order, or that 7 still holds.
fn first_not_handed(locks: &mut Locks) -> Option<usize> {
    for i in 0..LOCKED {
        let x = Ob(i as u64);
        let one = ObSet::Listed(ObList::one(x));
        let handed = hand(locks, 7, 8, &one) && is_held(locks, 8, i, x);
        if !handed || locks.status(Txn(7), x) != None {
            return Some(i);
        }
    }
    None
}

/// Hands the twentieths over. Returns whether it could, with the first index that goes wrong of each.
fn hand_listed(locks: &mut Locks) -> (bool, [Option<usize>; 2]) {
    let handed = hand(locks, 7, 8, &listed(&TWENTIETHS))
        && locks.held_by(Txn(7), OTHERS) == None
        && locks.held_by(Txn(8), LISTED) == None;
    (handed, [first_not_listed(locks), first_not_kept(locks)])
}

/// Hands the others over. Returns whether it could, with the first index that goes wrong of each.
fn hand_others(locks: &mut Locks) -> (bool, [Option<usize>; 2]) {
    let handed = hand(locks, 7, 8, &ObSet::All)
        && locks.held_by(Txn(7), 0) == None
        && locks.held_by(Txn(8), LOCKED) == None;
    (handed, [first_not_listed(locks), first_not_moved(locks)])
}

#[test]
fn three_hundred_locks_are_handed_over(rt: HostRuntime) {
    let mut permits = Permits::new(rt.alloc());
    let mut locks = Locks::new(rt.alloc());
    let not_granted = first_not_granted(&mut locks, &mut permits);
    let listed = hand_listed(&mut locks);
    let others = hand_others(&mut locks);
    drop(locks);
    drop(permits);
    assert_eq!(rt; not_granted, None);
    assert_eq!(rt; listed, (true, [None; 2]));
    assert_eq!(rt; others, (true, [None; 2]));
}

#[test]
fn locks_go_over_one_by_one(rt: HostRuntime) {
    let mut permits = Permits::new(rt.alloc());
    let mut locks = Locks::new(rt.alloc());
    let not_granted = first_not_granted(&mut locks, &mut permits);
    let not_handed = first_not_handed(&mut locks);
    let left = locks.held_by(Txn(7), 0);
    drop(locks);
    drop(permits);
    assert_eq!(rt; not_granted, None);
    assert_eq!(rt; not_handed, None);
    assert_eq!(rt; left, None);
}
