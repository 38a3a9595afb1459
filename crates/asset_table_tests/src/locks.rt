//! Locks on worked values, and what is left if memory runs out.

use asset_locks::{Asked, LockState, Locks};
use asset_names::{NoMemory, Ob, ObSet, Op, Ops, Txn};
use asset_permits::Permits;
use std::alloc::Global;

/// Enrols a transaction, unless it is enrolled, and asks for an operation under these permits.
pub(crate) fn ask_once(
    locks: &mut Locks,
    t: u64,
    x: u64,
    op: Op,
    permits: &mut Permits,
) -> Result<Asked, NoMemory> {
    locks.enrol(Txn(t))?;
    locks.ask(Txn(t), Ob(x), op, permits)
}

/// Enrols a transaction. If memory runs out once, the same call is made again.
fn enrol(locks: &mut Locks, t: u64) -> Result<(), NoMemory> {
    match locks.enrol(Txn(t)) {
        Ok(()) => Ok(()),
        Err(NoMemory) => locks.enrol(Txn(t)),
    }
}

/// Asks as `ask_once` does. If memory runs out once, the same call is made again.
pub(crate) fn ask(
    locks: &mut Locks,
    t: u64,
    x: u64,
    op: Op,
    permits: &mut Permits,
) -> Result<Asked, NoMemory> {
    match ask_once(locks, t, x, op, permits) {
        Ok(asked) => Ok(asked),
        Err(NoMemory) => ask_once(locks, t, x, op, permits),
    }
}

/// A table in which 7, 9 and 8 are enrolled, in this order, once it is filled. At first nobody permits anything.
#[derive(Drop)]
struct Three {
    locks: Locks,
    permits: Permits,
}

impl Three {
    /// Returns a table with nobody in it.
    fn new(alloc: Global) -> Three {
        Three {
            locks: Locks::new(alloc),
            permits: Permits::new(alloc),
        }
    }

    /// Enrols 7, 9 and 8, and lets 7 do an operation on 1. Returns whether it could.
    fn fill(&mut self, op: Op) -> bool {
        for t in [7, 9, 8] {
            if enrol(&mut self.locks, t) != Ok(()) {
                return false;
            }
        }
        ask(&mut self.locks, 7, 1, op, &mut self.permits) == Ok(Asked::Granted)
    }

    fn eight_asks(&mut self, x: u64, op: Op) -> Result<Asked, NoMemory> {
        ask(&mut self.locks, 8, x, op, &mut self.permits)
    }

    fn nine_asks(&mut self, x: u64, op: Op) -> Result<Asked, NoMemory> {
        ask(&mut self.locks, 9, x, op, &mut self.permits)
    }

    fn is_free_for_seven(&mut self, op: Op) -> bool {
        self.locks.is_free(Txn(7), Ob(1), op, &mut self.permits)
    }

    fn is_free_for_eight(&mut self, op: Op) -> bool {
        self.locks.is_free(Txn(8), Ob(1), op, &mut self.permits)
    }

    /// Adds a permit of 7 for 8 to read and write all objects. If memory runs out once, the same call is made again.
    fn seven_permits_eight(&mut self) -> Result<(), NoMemory> {
        let ops = Ops::only(Op::Read).with(Op::Write);
        match self.permits.add(Txn(7), Txn(8), ObSet::All, ops) {
            Ok(()) => Ok(()),
            Err(NoMemory) => self.permits.add(Txn(7), Txn(8), ObSet::All, ops),
        }
    }

    /// Returns whether 8 waits for 7, the writer.
    fn eight_waits(&mut self) -> bool {
        self.eight_asks(1, Op::Read) == Ok(Asked::Pending)
            && self.locks.waiters(Ob(1), 0) == Some((Txn(8), Op::Read))
            && self.locks.waiters(Ob(1), 1) == None
            && self.locks.status(Txn(7), Ob(1)) == Some(LockState::Granted)
            && self.locks.status(Txn(8), Ob(1)) == None
            && self.locks.held_by(Txn(7), 0) == Some(Ob(1))
            && self.locks.held_by(Txn(7), 1) == None
            && !self.is_free_for_eight(Op::Read)
    }

    /// Returns whether 8 gets its lock when 7 is released.
    fn eight_goes_on(&mut self) -> bool {
        self.locks.release(Txn(7));
        self.is_free_for_eight(Op::Read)
            && self.eight_asks(1, Op::Read) == Ok(Asked::Granted)
            && self.locks.waiters(Ob(1), 0) == None
    }

    /// Returns whether 9, which was enrolled before 8, comes before it.
    fn nine_comes_first(&mut self) -> bool {
        self.eight_asks(1, Op::Write) == Ok(Asked::Pending)
            && self.nine_asks(1, Op::Write) == Ok(Asked::Pending)
            && self.locks.waiters(Ob(1), 0) == Some((Txn(9), Op::Write))
            && self.locks.waiters(Ob(1), 1) == Some((Txn(8), Op::Write))
            && self.locks.waiters(Ob(2), 0) == None
    }

    /// Returns whether a second enrolment of 9 leaves what 9 holds, its request, and its turn before 8.
    fn nine_stays_enrolled(&mut self) -> bool {
        self.nine_asks(2, Op::Write) == Ok(Asked::Granted)
            && self.eight_asks(1, Op::Write) == Ok(Asked::Pending)
            && self.nine_asks(1, Op::Write) == Ok(Asked::Pending)
            && self.locks.enrol(Txn(9)) == Ok(())
            && self.locks.held_by(Txn(9), 0) == Some(Ob(2))
            && self.locks.status(Txn(9), Ob(2)) == Some(LockState::Granted)
            && self.locks.waiters(Ob(1), 0) == Some((Txn(9), Op::Write))
            && self.locks.waiters(Ob(1), 1) == Some((Txn(8), Op::Write))
    }

    /// Returns whether two readers hold one object, and 8 holds another, which is listed once for two operations.
    fn readers_share(&mut self) -> bool {
        self.eight_asks(1, Op::Read) == Ok(Asked::Granted)
            && self.locks.status(Txn(7), Ob(1)) == Some(LockState::Granted)
            && self.eight_asks(2, Op::Read) == Ok(Asked::Granted)
            && self.eight_asks(2, Op::Write) == Ok(Asked::Granted)
            && self.locks.held_by(Txn(8), 0) == Some(Ob(1))
            && self.locks.held_by(Txn(8), 1) == Some(Ob(2))
            && self.locks.held_by(Txn(8), 2) == None
    }

    /// Returns whether 8, whom 7 permits, suspends the lock of 7, and 9 still waits.
    fn eight_suspends_seven(&mut self) -> bool {
        self.seven_permits_eight() == Ok(())
            && self.eight_asks(1, Op::Write) == Ok(Asked::Granted)
            && self.locks.status(Txn(7), Ob(1)) == Some(LockState::Suspended)
            && self.locks.status(Txn(8), Ob(1)) == Some(LockState::Granted)
            && !self.is_free_for_seven(Op::Read)
            && self.nine_asks(1, Op::Read) == Ok(Asked::Pending)
    }
}

#[test]
fn waiter_goes_on_after_release(rt: HostRuntime) {
    let mut three = Three::new(rt.alloc());
    let goes_on = three.fill(Op::Write) && three.eight_waits() && three.eight_goes_on();
    drop(three);
    assert!(rt; goes_on);
}

#[test]
fn waiters_come_in_order_of_enrolment(rt: HostRuntime) {
    let mut three = Three::new(rt.alloc());
    let in_order = three.fill(Op::Read) && three.nine_comes_first();
    drop(three);
    assert!(rt; in_order);
}

#[test]
fn enrolled_transaction_is_not_enrolled_again(rt: HostRuntime) {
    let mut three = Three::new(rt.alloc());
    let unchanged = three.fill(Op::Write) && three.nine_stays_enrolled();
    drop(three);
    assert!(rt; unchanged);
}

#[test]
fn readers_share_an_object(rt: HostRuntime) {
    let mut three = Three::new(rt.alloc());
    let shared = three.fill(Op::Read) && three.readers_share();
    drop(three);
    assert!(rt; shared);
}

#[test]
fn permitted_writer_suspends_the_giver(rt: HostRuntime) {
    let mut three = Three::new(rt.alloc());
    let suspended = three.fill(Op::Write) && three.eight_suspends_seven();
    drop(three);
    assert!(rt; suspended);
}
