//! Locks that go from one transaction to another, on worked values, and what is left if memory runs out.

use crate::locks::ask;
use asset_locks::{Asked, LockState, Locks};
use asset_names::{NoMemory, Ob, ObList, ObSet, Op, Ops, Txn};
use asset_permits::Permits;
use asset_test_tools::listed;
use std::alloc::Global;

/// Enrols both, and hands the locks of the giver on the objects over to the taker.
fn hand_once(locks: &mut Locks, giver: u64, taker: u64, objects: &ObSet) -> Result<(), NoMemory> {
    locks.enrol(Txn(giver))?;
    locks.enrol(Txn(taker))?;
    locks.hand_over(Txn(giver), Txn(taker), objects);
    Ok(())
}

/// Hands locks over as `hand_once` does, and returns whether it could. If memory runs out once, the same call is made
/// again.
pub(crate) fn hand(locks: &mut Locks, giver: u64, taker: u64, objects: &ObSet) -> bool {
    match hand_once(locks, giver, taker, objects) {
        Ok(()) => true,
        Err(NoMemory) => hand_once(locks, giver, taker, objects) == Ok(()),
    }
}

/// Asks for an operation, and returns whether it is granted.
fn takes(locks: &mut Locks, permits: &mut Permits, t: u64, x: u64, op: Op) -> bool {
    ask(locks, t, x, op, permits) == Ok(Asked::Granted)
}

/// Asks for an operation, and returns whether the request waits.
fn waits(locks: &mut Locks, permits: &mut Permits, t: u64, x: u64, op: Op) -> bool {
    ask(locks, t, x, op, permits) == Ok(Asked::Pending)
}

/// Adds a permit of the giver for the taker to read and write all objects, and returns whether it could. If memory runs out
/// once, the same call is made again.
fn permit(permits: &mut Permits, giver: u64, taker: u64) -> bool {
    let ops = Ops::only(Op::Read).with(Op::Write);
    match permits.add(Txn(giver), Txn(taker), ObSet::All, ops) {
        Ok(()) => true,
        Err(NoMemory) => permits.add(Txn(giver), Txn(taker), ObSet::All, ops) == Ok(()),
    }
}

/// Returns whether the object is free for the transaction.
fn is_free(locks: &Locks, permits: &mut Permits, t: u64, x: u64, op: Op) -> bool {
    locks.is_free(Txn(t), Ob(x), op, permits)
}

/// Returns whether the transaction has no lock on the object.
fn has_none(locks: &Locks, t: u64, x: u64) -> bool {
    locks.status(Txn(t), Ob(x)) == None
}

/// Returns whether the lock of the transaction on the object is granted.
fn is_granted(locks: &Locks, t: u64, x: u64) -> bool {
    locks.status(Txn(t), Ob(x)) == Some(LockState::Granted)
}

/// Returns whether the lock of the transaction on the object is suspended.
fn is_suspended(locks: &Locks, t: u64, x: u64) -> bool {
    locks.status(Txn(t), Ob(x)) == Some(LockState::Suspended)
}

/// Returns whether the transaction holds these objects, in this order, and no other.
fn holds(locks: &Locks, t: u64, objects: &[Ob]) -> bool {
    for (i, x) in objects.iter().enumerate() {
        if locks.held_by(Txn(t), i) != Some(*x) {
            return false;
        }
    }
    locks.held_by(Txn(t), objects.len()) == None
}

/// Returns whether the two locks on 1, by a permit, become one that is suspended, and is granted again when it is asked
/// for.
fn joined_lock_is_suspended(locks: &mut Locks, permits: &mut Permits) -> bool {
    takes(locks, permits, 7, 1, Op::Write)
        && permit(permits, 7, 8)
        && takes(locks, permits, 8, 1, Op::Write)
        && is_suspended(locks, 7, 1)
        && is_granted(locks, 8, 1)
        && hand(locks, 7, 8, &listed(&[Ob(1)]))
        && holds(locks, 7, &[])
        && holds(locks, 8, &[Ob(1)])
        && is_suspended(locks, 8, 1)
        && !is_free(locks, permits, 9, 1, Op::Read)
        && takes(locks, permits, 8, 1, Op::Read)
        && is_granted(locks, 8, 1)
}

/// Returns whether the granted lock of 8 goes back to 7, by whose permit it was granted, and the one lock is suspended.
fn granted_lock_goes_back(locks: &mut Locks, permits: &mut Permits) -> bool {
    permit(permits, 7, 8)
        && takes(locks, permits, 7, 1, Op::Write)
        && takes(locks, permits, 8, 1, Op::Write)
        && is_suspended(locks, 7, 1)
        && is_granted(locks, 8, 1)
        && hand(locks, 8, 7, &ObSet::All)
        && is_suspended(locks, 7, 1)
        && has_none(locks, 8, 1)
}

/// Returns whether the lock of 8, which only read, blocks a reader when it has the write of 7 too.
fn joined_lock_carries_both(locks: &mut Locks, permits: &mut Permits) -> bool {
    takes(locks, permits, 7, 1, Op::Read)
        && takes(locks, permits, 8, 1, Op::Read)
        && permit(permits, 8, 7)
        && takes(locks, permits, 7, 1, Op::Write)
        && hand(locks, 7, 8, &ObSet::All)
        && has_none(locks, 7, 1)
        && is_suspended(locks, 8, 1)
        && !is_free(locks, permits, 9, 1, Op::Read)
        && !is_free(locks, permits, 9, 1, Op::Write)
}

/// Returns whether two locks that read become one that reads, and leaves a reader free.
fn joined_readers_only_read(locks: &mut Locks, permits: &mut Permits) -> bool {
    takes(locks, permits, 7, 1, Op::Read)
        && takes(locks, permits, 8, 1, Op::Read)
        && hand(locks, 7, 8, &ObSet::All)
        && holds(locks, 8, &[Ob(1)])
        && is_suspended(locks, 8, 1)
        && is_free(locks, permits, 9, 1, Op::Read)
        && !is_free(locks, permits, 9, 1, Op::Write)
        && !is_free(locks, permits, 7, 1, Op::Write)
}

/// Returns whether 9, which holds nothing, gets a suspended lock of 7 on 1 and a granted one on 2 as they are.
fn moved_lock_keeps_its_state(locks: &mut Locks, permits: &mut Permits) -> bool {
    takes(locks, permits, 7, 1, Op::Write)
        && takes(locks, permits, 7, 2, Op::Write)
        && permit(permits, 7, 8)
        && takes(locks, permits, 8, 1, Op::Write)
        && hand(locks, 7, 9, &ObSet::All)
        && has_none(locks, 7, 1)
        && has_none(locks, 7, 2)
        && is_suspended(locks, 9, 1)
        && is_granted(locks, 9, 2)
        && is_granted(locks, 8, 1)
        && !is_free(locks, permits, 7, 2, Op::Read)
}

/// Returns whether what 9 holds comes before what 7 gives it, twice, in the order of 7.
fn moved_locks_come_last(locks: &mut Locks, permits: &mut Permits) -> bool {
    takes(locks, permits, 7, 1, Op::Write)
        && takes(locks, permits, 7, 2, Op::Write)
        && takes(locks, permits, 7, 3, Op::Write)
        && takes(locks, permits, 9, 4, Op::Write)
        && hand(locks, 7, 9, &listed(&[Ob(3), Ob(1)]))
        && holds(locks, 7, &[Ob(2)])
        && holds(locks, 9, &[Ob(4), Ob(1), Ob(3)])
        && hand(locks, 7, 9, &ObSet::All)
        && holds(locks, 7, &[])
        && holds(locks, 9, &[Ob(4), Ob(1), Ob(3), Ob(2)])
}

/// Returns whether the requests of 9 and 8 for 1 wait as before when 9 has the lock of 7, until 9 asks again.
fn waiters_stay(locks: &mut Locks, permits: &mut Permits) -> bool {
    takes(locks, permits, 7, 1, Op::Write)
        && waits(locks, permits, 9, 1, Op::Read)
        && waits(locks, permits, 8, 1, Op::Write)
        && hand(locks, 7, 9, &ObSet::All)
        && locks.waiters(Ob(1), 0) == Some((Txn(9), Op::Read))
        && locks.waiters(Ob(1), 1) == Some((Txn(8), Op::Write))
        && locks.waiters(Ob(1), 2) == None
        && takes(locks, permits, 9, 1, Op::Read)
        && locks.waiters(Ob(1), 0) == Some((Txn(8), Op::Write))
        && locks.waiters(Ob(1), 1) == None
}

/// Returns whether nothing changes when 7 hands its locks to itself, and those on 3, where it has none, to 8.
fn nothing_is_handed(locks: &mut Locks, permits: &mut Permits) -> bool {
    takes(locks, permits, 7, 1, Op::Write)
        && takes(locks, permits, 7, 2, Op::Read)
        && hand(locks, 7, 7, &ObSet::All)
        && hand(locks, 7, 8, &listed(&[Ob(3)]))
        && holds(locks, 7, &[Ob(1), Ob(2)])
        && is_granted(locks, 7, 1)
        && is_granted(locks, 7, 2)
        && holds(locks, 8, &[])
        && is_free(locks, permits, 8, 2, Op::Read)
        && !is_free(locks, permits, 8, 2, Op::Write)
}

/// Returns whether the transaction holds these objects of the set, unless memory runs out.
fn are_held_once(
    locks: &Locks,
    alloc: Global,
    t: u64,
    objects: &ObSet,
    held: &[Ob],
) -> Result<bool, NoMemory> {
    let among = locks.held_among(alloc, Txn(t), objects)?;
    Ok(among.as_slice() == held)
}

/// Returns whether the transaction holds these objects of the set. If memory runs out once, the same call is made
/// again.
fn are_held(locks: &Locks, alloc: Global, t: u64, objects: &ObSet, held: &[Ob]) -> bool {
    match are_held_once(locks, alloc, t, objects, held) {
        Ok(same) => same,
        Err(NoMemory) => are_held_once(locks, alloc, t, objects, held) == Ok(true),
    }
}

/// Returns whether the objects of a set that 7 holds come in its own order, and 9, which is not enrolled, holds none.
fn held_objects_are_listed(locks: &mut Locks, permits: &mut Permits, alloc: Global) -> bool {
    takes(locks, permits, 7, 2, Op::Write)
        && takes(locks, permits, 7, 3, Op::Read)
        && takes(locks, permits, 7, 1, Op::Write)
        && are_held(
            locks,
            alloc,
            7,
            &listed(&[Ob(1), Ob(2), Ob(4)]),
            &[Ob(2), Ob(1)],
        )
        && are_held(locks, alloc, 7, &ObSet::All, &[Ob(2), Ob(3), Ob(1)])
        && are_held(locks, alloc, 7, &listed(&[Ob(3)]), &[Ob(3)])
        && are_held(locks, alloc, 7, &listed(&[Ob(4)]), &[])
        && are_held(locks, alloc, 9, &ObSet::All, &[])
}

#[test]
fn suspended_after_joining(rt: HostRuntime) {
    let mut permits = Permits::new(rt.alloc());
    let mut locks = Locks::new(rt.alloc());
    let suspended = joined_lock_is_suspended(&mut locks, &mut permits);
    drop(locks);
    drop(permits);
    assert!(rt; suspended);
}

#[test]
fn suspended_after_a_granted_lock_goes_back(rt: HostRuntime) {
    let mut permits = Permits::new(rt.alloc());
    let mut locks = Locks::new(rt.alloc());
    let suspended = granted_lock_goes_back(&mut locks, &mut permits);
    drop(locks);
    drop(permits);
    assert!(rt; suspended);
}

#[test]
fn reader_that_is_joined_with_a_writer_writes(rt: HostRuntime) {
    let mut permits = Permits::new(rt.alloc());
    let mut locks = Locks::new(rt.alloc());
    let carries = joined_lock_carries_both(&mut locks, &mut permits);
    drop(locks);
    drop(permits);
    assert!(rt; carries);
}

#[test]
fn readers_that_are_joined_only_read(rt: HostRuntime) {
    let mut permits = Permits::new(rt.alloc());
    let mut locks = Locks::new(rt.alloc());
    let reads = joined_readers_only_read(&mut locks, &mut permits);
    drop(locks);
    drop(permits);
    assert!(rt; reads);
}

#[test]
fn state_moves_with_the_lock(rt: HostRuntime) {
    let mut permits = Permits::new(rt.alloc());
    let mut locks = Locks::new(rt.alloc());
    let kept = moved_lock_keeps_its_state(&mut locks, &mut permits);
    drop(locks);
    drop(permits);
    assert!(rt; kept);
}

#[test]
fn locks_are_handed_over_in_order(rt: HostRuntime) {
    let mut permits = Permits::new(rt.alloc());
    let mut locks = Locks::new(rt.alloc());
    let in_order = moved_locks_come_last(&mut locks, &mut permits);
    drop(locks);
    drop(permits);
    assert!(rt; in_order);
}

#[test]
fn waiters_stay_as_locks_are_handed_over(rt: HostRuntime) {
    let mut permits = Permits::new(rt.alloc());
    let mut locks = Locks::new(rt.alloc());
    let stayed = waiters_stay(&mut locks, &mut permits);
    drop(locks);
    drop(permits);
    assert!(rt; stayed);
}

#[test]
fn nothing_is_handed_over_to_oneself(rt: HostRuntime) {
    let mut permits = Permits::new(rt.alloc());
    let mut locks = Locks::new(rt.alloc());
    let unchanged = nothing_is_handed(&mut locks, &mut permits);
    drop(locks);
    drop(permits);
    assert!(rt; unchanged);
}

#[test]
fn held_among_a_set(rt: HostRuntime) {
    let mut permits = Permits::new(rt.alloc());
    let mut locks = Locks::new(rt.alloc());
    let alike = held_objects_are_listed(&mut locks, &mut permits, rt.alloc());
    drop(locks);
    drop(permits);
    assert!(rt; alike);
}
