//! Locks beside a plain table that does the same by scanning, and locks past any small number.

use crate::locks::ask_once;
use asset_locks::{Asked, LockState, Locks};
use asset_names::{NoMemory, Ob, ObSet, Op, Ops, Txn};
use asset_permits::Permits;
use asset_test_tools::{next, op_of};
use std::test::Fail;

/// How many transactions and objects there are beside the table, and how many calls are drawn.
const NAMES: u64 = 6;

const OBJECTS: u64 = 4;

const CALLS: usize = 3_000;

/// How many transactions read one object, and how many objects one transaction writes.
const MANY: u64 = 300;

/// All operations.
const ALL: [Op; 3] = [Op::Read, Op::Write, Op::Add];

/// A lock of the plain table.
#[derive(Clone, Copy)]
struct PlainLock {
    owner: u64,
    object: u64,
    ops: Ops,
    granted: bool,
}

/// A request of the plain table that waits.
#[derive(Clone, Copy)]
struct PlainRequest {
    name: u64,
    object: u64,
    op: Op,
}

/// The plain table: the transactions in order of enrolment, the requests that wait, and the locks in order of first grant.
#[derive(Drop)]
struct PlainTable {
    names: Vec<u64>,
    requests: Vec<PlainRequest>,
    locks: Vec<PlainLock>,
}

/// Returns whether `u` allows `t` everything: of two transactions one permits the other.
fn allows(u: u64, t: u64) -> bool {
    u == t || (u == 0 && t == 1)
}

/// Returns whether one of the operations is in conflict with `op`: two go together if both read or both add.
fn conflicts(ops: Ops, op: Op) -> bool {
    ALL.iter()
        .any(|one| ops.has(*one) && (*one != op || op == Op::Write))
}

/// Returns whether `x` is free for `t` to do `op`.
fn is_free(table: &PlainTable, t: u64, x: u64, op: Op) -> bool {
    !table.locks.iter().any(|one| one.object == x
        && !allows(one.owner, t)
        && conflicts(one.ops, op))
}

/// Returns the state of the lock of `t` on `x`, if it has one.
fn status_of(table: &PlainTable, t: u64, x: u64) -> Option<LockState> {
    match table
        .locks
        .iter()
        .find(|one| one.owner == t && one.object == x)
    {
        Some(one) if one.granted => Some(LockState::Granted),
        Some(_) => Some(LockState::Suspended),
        None => None,
    }
}

/// Returns the object at the index among those that `t` holds.
fn held_of(table: &PlainTable, t: u64, index: usize) -> Option<Ob> {
    let mut held = table.locks.iter().filter(|one| one.owner == t);
    Some(Ob(held.nth(index)?.object))
}

/// Returns the operation with which a transaction waits for `x`, if it does.
fn request_of(table: &PlainTable, name: u64, x: u64) -> Option<Op> {
    let mut requests = table.requests.iter();
    let found = requests.find(|request| request.name == name && request.object == x)?;
    Some(found.op)
}

/// Returns the waiter at the index among those that wait for `x`.
fn waiter_of(table: &PlainTable, x: u64, index: usize) -> Option<(Txn, Op)> {
    let mut before = index;
    for name in &table.names {
        if let Some(op) = request_of(table, *name, x) {
            if before == 0 {
                return Some((Txn(*name), op));
            }
            before -= 1;
        }
    }
    None
}

/// Enrols a transaction that is not enrolled.
fn enrol_plainly(table: &mut PlainTable, t: u64) -> Result<(), Fail> {
    if !table.names.contains(&t) {
        table.names.push(t)?;
    }
    Ok(())
}

/// Takes a transaction away, with its locks and its request.
fn release_plainly(table: &mut PlainTable, t: u64) {
    table.names.retain(|name| *name != t);
    table.requests.retain(|request| request.name != t);
    table.locks.retain(|one| one.owner != t);
}

/// Grants `op` on `x` to `t`, and suspends the locks of others in conflict.
fn grant_plainly(table: &mut PlainTable, t: u64, x: u64, op: Op) -> Result<(), Fail> {
    if status_of(table, t, x) == None {
        table.locks.push(PlainLock {
            owner: t,
            object: x,
            ops: Ops::only(op),
            granted: true,
        })?;
    }
    let mut ops = Ops::only(op);
    for one in table.locks.iter_mut() {
        if one.owner == t && one.object == x {
            one.granted = true;
            one.ops = one.ops.with(op);
            ops = one.ops;
        }
    }
    for one in table.locks.iter_mut() {
        if one.object == x
            && one.owner != t
            && ALL.iter().any(|by| ops.has(*by) && conflicts(one.ops, *by))
        {
            one.granted = false;
        }
    }
    Ok(())
}

/// Asks for `op` on `x` for `t`.
fn ask_plainly(table: &mut PlainTable, t: u64, x: u64, op: Op) -> Result<Asked, Fail> {
    table.requests.retain(|request| request.name != t);
    if is_free(table, t, x, op) {
        grant_plainly(table, t, x, op)?;
        return Ok(Asked::Granted);
    }
    table.requests.push(PlainRequest {
        name: t,
        object: x,
        op,
    })?;
    Ok(Asked::Pending)
}

/// Returns whether `x` is free for the same operations of `t`.
fn same_free(locks: &Locks, permits: &mut Permits, table: &PlainTable, t: u64, x: u64) -> bool {
    for op in &ALL {
        if locks.is_free(Txn(t), Ob(x), *op, permits) != is_free(table, t, x, *op) {
            return false;
        }
    }
    true
}

/// Returns whether the locks show of one transaction what the table does.
fn agrees_on(locks: &Locks, permits: &mut Permits, table: &PlainTable, t: u64) -> bool {
    for x in 0..OBJECTS {
        let at = locks.held_by(Txn(t), x as usize) == held_of(table, t, x as usize);
        let state = locks.status(Txn(t), Ob(x)) == status_of(table, t, x);
        let free = same_free(locks, permits, table, t, x);
        if !(at && state && free) {
            return false;
        }
    }
    locks.held_by(Txn(t), OBJECTS as usize) == None
}

/// Returns whether the same transactions wait for the object.
fn same_waiters(locks: &Locks, table: &PlainTable, x: u64) -> bool {
    for index in 0..NAMES as usize {
        if locks.waiters(Ob(x), index) != waiter_of(table, x, index) {
            return false;
        }
    }
    locks.waiters(Ob(x), NAMES as usize) == None
}

/// Returns whether the locks show what the table does.
fn agrees(locks: &Locks, permits: &mut Permits, table: &PlainTable) -> bool {
    for t in 0..NAMES {
        if !agrees_on(locks, permits, table, t) {
            return false;
        }
    }
    for x in 0..OBJECTS {
        if !same_waiters(locks, table, x) {
            return false;
        }
    }
    true
}

/// Enrols a transaction. If memory runs out once, nothing has changed, and the same call is made again.
fn enrol(
    locks: &mut Locks,
    permits: &mut Permits,
    table: &PlainTable,
    t: u64,
) -> Result<(), NoMemory> {
    match locks.enrol(Txn(t)) {
        Err(NoMemory) if agrees(locks, permits, table) => locks.enrol(Txn(t)),
        enrolled => enrolled,
    }
}

/// Asks as `ask_once` does for one who is enrolled. If memory runs out once, nothing has changed, and it asks again.
fn ask(
    locks: &mut Locks,
    permits: &mut Permits,
    table: &PlainTable,
    t: u64,
    x: u64,
    op: Op,
) -> Result<Asked, NoMemory> {
    match ask_once(locks, t, x, op, permits) {
        Err(NoMemory) if agrees(locks, permits, table) => ask_once(locks, t, x, op, permits),
        asked => asked,
    }
}

/// Makes the call that a number stands for, on locks and the table. Returns whether both answered the same.
fn call(
    locks: &mut Locks,
    permits: &mut Permits,
    table: &mut PlainTable,
    number: u64,
) -> Result<bool, Fail> {
    let t = (number >> 40) % NAMES;
    let x = (number >> 30) % OBJECTS;
    let op = op_of(number >> 20);
    let kind = (number >> 50) % 8;
    if kind == 0 {
        locks.release(Txn(t));
        release_plainly(table, t);
        return Ok(true);
    }
    enrol(locks, permits, table, t)?;
    enrol_plainly(table, t)?;
    if kind == 1 {
        return Ok(true);
    }
    let asked = ask(locks, permits, table, t, x, op)?;
    Ok(asked == ask_plainly(table, t, x, op)?)
}

/// Draws calls, and returns the first after which locks and table differ, or that both answer differently.
fn first_difference(
    locks: &mut Locks,
    permits: &mut Permits,
    table: &mut PlainTable,
) -> Result<Option<usize>, Fail> {
    let mut number: u64 = 42;
    for i in 0..CALLS {
        number = next(number);
        if !call(locks, permits, table, number)? || !agrees(locks, permits, table) {
            return Ok(Some(i));
        }
    }
    Ok(None)
}

/// Lets 1 do everything that 0 may do. If memory runs out once, the same call is made again.
fn permit(permits: &mut Permits) -> Result<(), NoMemory> {
    let ops = Ops::with_add(true, true);
    match permits.add(Txn(0), Txn(1), ObSet::All, ops) {
        Ok(()) => Ok(()),
        Err(NoMemory) => permits.add(Txn(0), Txn(1), ObSet::All, ops),
    }
}

#[test]
fn locks_agree_with_a_plain_table(rt: HostRuntime) -> Result<(), Fail> {
    let mut locks = Locks::new(rt.alloc());
    let mut permits = Permits::new(rt.alloc());
    let mut table = PlainTable {
        names: Vec::new(rt.alloc()),
        requests: Vec::new(rt.alloc()),
        locks: Vec::new(rt.alloc()),
    };
    let permitted = permit(&mut permits);
    let difference = first_difference(&mut locks, &mut permits, &mut table);
    drop(locks);
    drop(permits);
    drop(table);
    assert_eq!(rt; permitted, Ok(()));
    assert_eq!(rt; difference?, None);
    Ok(())
}

/// Returns whether each of many transactions is granted a read of one object.
fn all_read(locks: &mut Locks, permits: &mut Permits) -> Result<bool, NoMemory> {
    for t in 0..MANY {
        if ask_once(locks, t, 7, Op::Read, permits)? != Asked::Granted {
            return Ok(false);
        }
    }
    Ok(true)
}

/// Returns whether a writer of the object waits until each of the readers is released, in order of enrolment.
fn writer_waits_for_all(locks: &mut Locks, permits: &mut Permits) -> bool {
    for t in 0..MANY {
        let reads = locks.status(Txn(t), Ob(7)) == Some(LockState::Granted);
        if !reads || locks.is_free(Txn(MANY), Ob(7), Op::Write, permits) {
            return false;
        }
        locks.release(Txn(t));
    }
    locks.is_free(Txn(MANY), Ob(7), Op::Write, permits)
}

/// Returns whether one transaction is granted writes of many objects, and holds them in this order.
fn one_writes_many(locks: &mut Locks, permits: &mut Permits) -> Result<bool, NoMemory> {
    for x in 0..MANY {
        if ask_once(locks, 5, x, Op::Write, permits)? != Asked::Granted {
            return Ok(false);
        }
    }
    for x in 0..MANY {
        let held = locks.held_by(Txn(5), x as usize) == Some(Ob(x));
        if !held || locks.status(Txn(5), Ob(x)) != Some(LockState::Granted) {
            return Ok(false);
        }
    }
    locks.release(Txn(5));
    Ok(locks.held_by(Txn(5), 0) == None)
}

#[test]
fn many_locks_stand(rt: HostRuntime) {
    let mut locks = Locks::new(rt.alloc());
    let mut permits = Permits::new(rt.alloc());
    let read = all_read(&mut locks, &mut permits);
    let waited = writer_waits_for_all(&mut locks, &mut permits);
    let wrote = one_writes_many(&mut locks, &mut permits);
    drop(locks);
    drop(permits);
    assert_eq!(rt; read, Ok(true));
    assert!(rt; waited);
    assert_eq!(rt; wrote, Ok(true));
}
