//! Worked rows as calls of the tables, which answer for no refusal, and what is left if memory runs out.

use asset_ends::{Tables, Tried};
use asset_names::{End, NoMemory, Ob, ObList, ObSet, Op, Ops, Status, Txn};
use asset_objects::ObjectsFault;
use std::alloc::Global;
use std::test::Fail;

/// Three objects with 100, 200 and 300.
const THREE: [(Ob, i64); 3] = [(Ob(1), 100), (Ob(2), 200), (Ob(3), 300)];

/// Opens the tables of these objects. If memory runs out once, the same call is made again.
fn open(alloc: Global) -> Result<Tables, ObjectsFault> {
    match Tables::open(alloc, &THREE) {
        Ok(tables) => Ok(tables),
        Err(_) => Tables::open(alloc, &THREE),
    }
}

/// Returns whether a worked row goes on the tables as it should.
pub(crate) fn goes<P: Fn(&mut Tables) -> bool + Drop>(
    alloc: Global,
    row: P,
) -> Result<bool, ObjectsFault>
    requires { P.IsAlwaysCallable row }
{
    let mut tables = open(alloc)?;
    let works = row(&mut tables);
    drop(tables);
    Ok(works)
}

/// Initiates a transaction if it is Unknown, and returns whether it was.
fn initiate_once(tables: &mut Tables, t: u64) -> Result<bool, NoMemory> {
    match tables.status(Txn(t)) {
        Status::Unknown => {
            tables.initiate(Txn(t), None)?;
            Ok(true)
        }
        _ => Ok(false),
    }
}

/// Begins a transaction if it is Initiated, and returns whether it was.
fn begin(tables: &mut Tables, t: u64) -> bool {
    match tables.status(Txn(t)) {
        Status::Initiated => {
            tables.begin(Txn(t));
            true
        }
        _ => false,
    }
}

/// Starts a transaction, and returns whether it was new. If memory runs out once, nothing has changed, and the same call
/// is made again.
fn start(tables: &mut Tables, t: u64) -> bool {
    let initiated = match initiate_once(tables, t) {
        Ok(initiated) => initiated,
        Err(NoMemory) => {
            tables.status(Txn(t)) == Status::Unknown && initiate_once(tables, t) == Ok(true)
        }
    };
    initiated && begin(tables, t)
}

/// Reads if the transaction runs and the object exists: the value, or `None` if the request waits or is not made.
fn read_once(tables: &mut Tables, t: u64, x: u64) -> Result<Option<i64>, NoMemory> {
    let exists = tables.number(Ob(x)).is_some();
    match tables.status(Txn(t)) {
        Status::Running if exists => tables.read(Txn(t), Ob(x)),
        _ => Ok(None),
    }
}

/// Reads as `read_once` does. If memory runs out once, the same call is made again.
pub(crate) fn read(tables: &mut Tables, t: u64, x: u64) -> Option<i64> {
    match read_once(tables, t, x) {
        Ok(read) => read,
        Err(NoMemory) => match read_once(tables, t, x) {
            Ok(read) => read,
            Err(NoMemory) => None,
        },
    }
}

/// Writes if the transaction runs and the object exists, and returns whether it wrote.
fn write_once(tables: &mut Tables, t: u64, x: u64, v: i64) -> Result<bool, NoMemory> {
    let exists = tables.number(Ob(x)).is_some();
    match tables.status(Txn(t)) {
        Status::Running if exists => tables.write(Txn(t), Ob(x), v),
        _ => Ok(false),
    }
}

/// Writes as `write_once` does. If memory runs out once, the same call is made again.
pub(crate) fn write(tables: &mut Tables, t: u64, x: u64, v: i64) -> bool {
    match write_once(tables, t, x, v) {
        Ok(written) => written,
        Err(NoMemory) => write_once(tables, t, x, v) == Ok(true),
    }
}

/// Completes a transaction if it runs, and commits it if it is live. Returns whether it has committed.
fn commit(tables: &mut Tables, t: u64) -> bool {
    if let Status::Running = tables.status(Txn(t)) {
        tables.complete(Txn(t));
    }
    tables.status(Txn(t)).is_live() && tables.try_commit(Txn(t)) == Tried::Committed
}

/// Aborts a transaction if it is live, and returns whether it was.
pub(crate) fn abort(tables: &mut Tables, t: u64) -> bool {
    if tables.status(Txn(t)).is_live() {
        tables.abort(Txn(t));
        true
    } else {
        false
    }
}

/// Lets the taker read and write all objects if both are live, and returns whether they are.
fn permit_once(tables: &mut Tables, giver: u64, taker: u64) -> Result<bool, NoMemory> {
    let ops = Ops::only(Op::Read).with(Op::Write);
    if tables.status(Txn(giver)).is_live() && tables.status(Txn(taker)).is_live() {
        tables.permit(Txn(giver), Txn(taker), ObSet::All, ops)?;
        Ok(true)
    } else {
        Ok(false)
    }
}

/// Permits as `permit_once` does. If memory runs out once, the same call is made again.
fn permit(tables: &mut Tables, giver: u64, taker: u64) -> bool {
    match permit_once(tables, giver, taker) {
        Ok(permitted) => permitted,
        Err(NoMemory) => permit_once(tables, giver, taker) == Ok(true),
    }
}

/// Hands over what the giver did if both are live, and returns whether they are.
fn delegate_once(
    tables: &mut Tables,
    giver: u64,
    taker: u64,
    obs: &ObSet,
) -> Result<bool, NoMemory> {
    if tables.status(Txn(giver)).is_live() && tables.status(Txn(taker)).is_live() {
        tables.delegate(Txn(giver), Txn(taker), obs)?;
        Ok(true)
    } else {
        Ok(false)
    }
}

/// What the tables show of transactions 7, 8 and 9 and of object 1.
#[derive(Clone, Copy, PartialEq)]
struct Seen {
    statuses: (Status, Status, Status),
    value: Option<i64>,
    waiter: Option<(Txn, Op)>,
    free: (bool, bool, bool),
}

/// Looks at what the tables show.
fn look(tables: &mut Tables) -> Seen {
    Seen {
        statuses: (
            tables.status(Txn(7)),
            tables.status(Txn(8)),
            tables.status(Txn(9)),
        ),
        value: tables.value(Ob(1)),
        waiter: tables.waiters(Ob(1), 0),
        free: (
            tables.is_free(Txn(7), Ob(1), Op::Write),
            tables.is_free(Txn(8), Ob(1), Op::Write),
            tables.is_free(Txn(9), Ob(1), Op::Write),
        ),
    }
}

/// Delegates as `delegate_once` does. If memory runs out once, the tables show what they did before, and the same call is
/// made again.
fn delegate(tables: &mut Tables, giver: u64, taker: u64, obs: &ObSet) -> bool {
    let before = look(tables);
    match delegate_once(tables, giver, taker, obs) {
        Ok(delegated) => delegated,
        Err(NoMemory) => {
            look(tables) == before && delegate_once(tables, giver, taker, obs) == Ok(true)
        }
    }
}

/// Returns whether one transaction reads, writes over what it read, and commits.
fn one_transaction(tables: &mut Tables) -> bool {
    start(tables, 7)
        && read(tables, 7, 1) == Some(100)
        && write(tables, 7, 1, 50)
        && read(tables, 7, 1) == Some(50)
        && tables.owed() == 2
        && commit(tables, 7)
        && tables.status(Txn(7)) == Status::Committed
        && tables.value(Ob(1)) == Some(50)
        && tables.owed() == 0
        && (tables.ended(End::Committed), tables.ended(End::Aborted)) == (1, 0)
}

/// Starts transactions 7, 8 and 9, and returns whether they are new.
pub(crate) fn start_three(tables: &mut Tables) -> bool {
    start(tables, 7) && start(tables, 8) && start(tables, 9)
}

/// Returns whether a write that a permit let through stands as its giver aborts, and goes with its own writer.
fn cooperating_write(tables: &mut Tables) -> bool {
    start_three(tables)
        && write(tables, 7, 1, 50)
        && !write(tables, 8, 1, 60)
        && tables.waiters(Ob(1), 0) == Some((Txn(8), Op::Write))
        && permit(tables, 7, 8)
        && write(tables, 8, 1, 60)
        && abort(tables, 7)
        && read(tables, 8, 1) == Some(60)
        && abort(tables, 8)
        && read(tables, 9, 1) == Some(100)
}

/// Returns whether a write that was handed over follows the transaction that took it, and the permit with it.
fn delegated_write(tables: &mut Tables) -> bool {
    start_three(tables)
        && write(tables, 7, 1, 50)
        && permit(tables, 7, 9)
        && delegate(tables, 7, 8, &ObSet::Listed(ObList::one(Ob(1))))
        && read(tables, 9, 1) == Some(50)
        && abort(tables, 7)
        && tables.value(Ob(1)) == Some(50)
        && commit(tables, 9)
        && commit(tables, 8)
        && tables.value(Ob(1)) == Some(50)
}

/// Returns whether a write that was handed over outlives its writer, and another reads it once its taker has committed.
fn write_outlives_its_writer(tables: &mut Tables) -> bool {
    start_three(tables)
        && write(tables, 7, 1, 50)
        && delegate(tables, 7, 8, &ObSet::Listed(ObList::one(Ob(1))))
        && abort(tables, 7)
        && read(tables, 9, 1) == None
        && tables.waiters(Ob(1), 0) == Some((Txn(9), Op::Read))
        && commit(tables, 8)
        && read(tables, 9, 1) == Some(50)
}

/// Returns whether a transaction that handed nothing over goes on as before, and one that is its own taker does too.
fn empty_delegations(tables: &mut Tables) -> bool {
    start_three(tables)
        && write(tables, 7, 1, 50)
        && delegate(tables, 8, 9, &ObSet::All)
        && delegate(tables, 7, 7, &ObSet::All)
        && read(tables, 7, 1) == Some(50)
        && read(tables, 8, 1) == None
        && !delegate(tables, 7, 6, &ObSet::All)
        && abort(tables, 7)
        && read(tables, 8, 1) == Some(100)
}

#[test]
fn one_transaction_on_the_tables(rt: HostRuntime) -> Result<(), Fail> {
    let works = goes(rt.alloc(), one_transaction)?;
    assert!(rt; works);
    Ok(())
}

#[test]
fn cooperating_write_on_the_tables(rt: HostRuntime) -> Result<(), Fail> {
    let works = goes(rt.alloc(), cooperating_write)?;
    assert!(rt; works);
    Ok(())
}

#[test]
fn delegated_write_on_the_tables(rt: HostRuntime) -> Result<(), Fail> {
    let works = goes(rt.alloc(), delegated_write)?;
    assert!(rt; works);
    Ok(())
}

#[test]
fn write_outlives_its_writer_on_the_tables(rt: HostRuntime) -> Result<(), Fail> {
    let works = goes(rt.alloc(), write_outlives_its_writer)?;
    assert!(rt; works);
    Ok(())
}

#[test]
fn delegations_that_move_nothing_on_the_tables(rt: HostRuntime) -> Result<(), Fail> {
    let works = goes(rt.alloc(), empty_delegations)?;
    assert!(rt; works);
    Ok(())
}
