//! Dependencies made on the tables, and what is left if memory runs out.

use crate::tables::{abort, goes, read, start_three, write};
use asset_ends::{Tables, Tried};
use asset_names::{Kind, NoMemory, Ob, Op, Status, Txn};
use std::test::Fail;

/// Makes `b` depend on `a` if both are live and no cycle is closed, and returns whether it does from then on.
fn depend_once(tables: &mut Tables, kind: Kind, a: u64, b: u64) -> Result<bool, NoMemory> {
    if tables.status(Txn(a)).is_live()
        && tables.status(Txn(b)).is_live()
        && !tables.would_cycle(kind, Txn(a), Txn(b))
    {
        tables.depend(kind, Txn(a), Txn(b))?;
        Ok(true)
    } else {
        Ok(false)
    }
}

/// Returns whether a live transaction may commit with its class, and `None` of any other.
fn may_commit(tables: &mut Tables, t: u64) -> Option<bool> {
    if tables.status(Txn(t)).is_live() {
        Some(tables.may_commit(Txn(t)))
    } else {
        None
    }
}

/// What the tables show of transactions 7, 8 and 9 and of object 1.
#[derive(Clone, Copy, PartialEq)]
struct Seen {
    statuses: (Status, Status, Status),
    value: Option<i64>,
    waiter: Option<(Txn, Op)>,
    cycles: (bool, bool, bool, bool),
    commits: (Option<bool>, Option<bool>, Option<bool>),
}

/// Looks at what the tables show.
fn look(tables: &mut Tables) -> Seen {
    Seen {
        statuses: (
            tables.status(Txn(7)),
            tables.status(Txn(8)),
            tables.status(Txn(9)),
        ),
        value: tables.value(Ob(1)),
        waiter: tables.waiters(Ob(1), 0),
        cycles: (
            tables.would_cycle(Kind::Cd, Txn(8), Txn(7)),
            tables.would_cycle(Kind::Ad, Txn(9), Txn(8)),
            tables.would_cycle(Kind::Cd, Txn(9), Txn(7)),
            tables.would_cycle(Kind::Gc, Txn(7), Txn(8)),
        ),
        commits: (
            may_commit(tables, 7),
            may_commit(tables, 8),
            may_commit(tables, 9),
        ),
    }
}

/// Makes a dependency as `depend_once` does. If memory runs out once, the tables show what they did before, and the same
/// call is made again.
fn depend(tables: &mut Tables, kind: Kind, a: u64, b: u64) -> bool {
    let before = look(tables);
    match depend_once(tables, kind, a, b) {
        Ok(depends) => depends,
        Err(NoMemory) => look(tables) == before && depend_once(tables, kind, a, b) == Ok(true),
    }
}

/// Completes a transaction if it runs, and returns whether it did.
fn complete(tables: &mut Tables, t: u64) -> bool {
    if let Status::Running = tables.status(Txn(t)) {
        tables.complete(Txn(t));
        true
    } else {
        false
    }
}

/// Commits a transaction with its class if it is live and they may, and returns whether they have committed.
fn commit(tables: &mut Tables, t: u64) -> bool {
    tables.status(Txn(t)).is_live() && tables.try_commit(Txn(t)) == Tried::Committed
}

/// Returns whether the transactions 7, 8 and 9 have these statuses.
fn have(tables: &Tables, seven: Status, eight: Status, nine: Status) -> bool {
    tables.status(Txn(7)) == seven
        && tables.status(Txn(8)) == eight
        && tables.status(Txn(9)) == nine
}

/// Returns whether a commit waits until its source has aborted.
fn commit_waits(tables: &mut Tables) -> bool {
    start_three(tables)
        && depend(tables, Kind::Cd, 7, 8)
        && complete(tables, 8)
        && may_commit(tables, 8) == Some(false)
        && !commit(tables, 8)
        && have(tables, Status::Running, Status::Completed, Status::Running)
        && abort(tables, 7)
        && may_commit(tables, 8) == Some(true)
        && commit(tables, 8)
        && have(tables, Status::Aborted, Status::Committed, Status::Running)
}

/// Returns whether the members of a class commit at once when all have completed, and what they hold is free then.
fn class_commits(tables: &mut Tables) -> bool {
    start_three(tables)
        && write(tables, 7, 1, 50)
        && write(tables, 8, 2, 80)
        && depend(tables, Kind::Gc, 7, 8)
        && complete(tables, 7)
        && !commit(tables, 7)
        && !commit(tables, 8)
        && read(tables, 9, 1) == None
        && complete(tables, 8)
        && tables.owed() == 4
        && commit(tables, 7)
        && have(
            tables,
            Status::Committed,
            Status::Committed,
            Status::Running,
        )
        && tables.owed() == 2
        && !abort(tables, 8)
        && read(tables, 9, 1) == Some(50)
        && read(tables, 9, 2) == Some(80)
}

/// Returns whether an abort takes an abort dependent with its class, and all that they wrote.
fn abort_spreads(tables: &mut Tables) -> bool {
    start_three(tables)
        && write(tables, 7, 1, 50)
        && write(tables, 8, 2, 80)
        && write(tables, 9, 3, 90)
        && depend(tables, Kind::Ad, 7, 8)
        && depend(tables, Kind::Gc, 8, 9)
        && tables.owed() == 6
        && abort(tables, 7)
        && have(tables, Status::Aborted, Status::Aborted, Status::Aborted)
        && tables.owed() == 0
        && tables.value(Ob(1)) == Some(100)
        && tables.value(Ob(2)) == Some(200)
        && tables.value(Ob(3)) == Some(300)
        && !depend(tables, Kind::Cd, 7, 8)
}

/// Returns whether an abort leaves its sources and its commit dependents alone.
fn abort_stays(tables: &mut Tables) -> bool {
    start_three(tables)
        && write(tables, 7, 1, 50)
        && write(tables, 8, 2, 80)
        && write(tables, 9, 3, 90)
        && depend(tables, Kind::Ad, 7, 8)
        && depend(tables, Kind::Cd, 8, 9)
        && abort(tables, 8)
        && have(tables, Status::Running, Status::Aborted, Status::Running)
        && tables.value(Ob(1)) == Some(50)
        && tables.value(Ob(2)) == Some(200)
        && tables.value(Ob(3)) == Some(90)
}

/// Returns whether a dependency would close a cycle.
fn cycle(tables: &mut Tables, kind: Kind, a: u64, b: u64) -> bool {
    tables.would_cycle(kind, Txn(a), Txn(b))
}

/// Returns whether one that was never initiated would close a cycle with itself alone, and not by a group commit.
fn stranger_closes_its_own_cycle(tables: &mut Tables) -> bool {
    let (stranger, other) = (Txn(99), Txn(98));
    tables.would_cycle(Kind::Cd, stranger, stranger)
        && tables.would_cycle(Kind::Ad, stranger, stranger)
        && !tables.would_cycle(Kind::Gc, stranger, stranger)
        && !tables.would_cycle(Kind::Cd, stranger, other)
}

/// Returns whether cycles are seen through a class, and no longer once their source has ended; and that of a stranger too.
fn cycles_show(tables: &mut Tables) -> bool {
    start_three(tables)
        && !cycle(tables, Kind::Cd, 7, 8)
        && cycle(tables, Kind::Ad, 7, 7)
        && !cycle(tables, Kind::Gc, 7, 7)
        && depend(tables, Kind::Gc, 8, 9)
        && depend(tables, Kind::Ad, 7, 8)
        && depend(tables, Kind::Gc, 9, 8)
        && cycle(tables, Kind::Cd, 8, 9)
        && cycle(tables, Kind::Cd, 9, 7)
        && cycle(tables, Kind::Gc, 7, 9)
        && !cycle(tables, Kind::Cd, 7, 9)
        && !depend(tables, Kind::Ad, 9, 7)
        && complete(tables, 7)
        && commit(tables, 7)
        && !cycle(tables, Kind::Cd, 9, 7)
        && cycle(tables, Kind::Cd, 8, 9)
        && have(tables, Status::Committed, Status::Running, Status::Running)
        && stranger_closes_its_own_cycle(tables)
}

#[test]
fn commit_dependency_on_the_tables(rt: HostRuntime) -> Result<(), Fail> {
    let works = goes(rt.alloc(), commit_waits)?;
    assert!(rt; works);
    Ok(())
}

#[test]
fn group_commit_on_the_tables(rt: HostRuntime) -> Result<(), Fail> {
    let works = goes(rt.alloc(), class_commits)?;
    assert!(rt; works);
    Ok(())
}

#[test]
fn abort_spreads_on_the_tables(rt: HostRuntime) -> Result<(), Fail> {
    let works = goes(rt.alloc(), abort_spreads)?;
    assert!(rt; works);
    Ok(())
}

#[test]
fn abort_stays_where_nothing_leads_on_the_tables(rt: HostRuntime) -> Result<(), Fail> {
    let works = goes(rt.alloc(), abort_stays)?;
    assert!(rt; works);
    Ok(())
}

#[test]
fn cycles_on_the_tables(rt: HostRuntime) -> Result<(), Fail> {
    let works = goes(rt.alloc(), cycles_show)?;
    assert!(rt; works);
    Ok(())
}
