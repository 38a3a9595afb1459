//! Open permits as calls of the tables, which answer for no refusal.

use crate::steps::{first_other_outcome, open_tables};
use asset_ends::Tables;
use asset_names::{NoMemory, Ob, ObList, Op, Ops, Outcome, Reply, Status, Txn};
use asset_test_tools::{abort, begin, complete, initiate, read, write};
use std::test::Fail;

/// Two objects.
const TWO: [(Ob, i64); 2] = [(Ob(1), 100), (Ob(2), 200)];

/// Lets anybody do an operation on an object if the giver is live, and returns whether it did.
fn permit_once(tables: &mut Tables, giver: u64, x: u64, op: Op) -> Result<bool, NoMemory> {
    if tables.status(Txn(giver)).is_live() {
        tables.permit_any(Txn(giver), ObList::one(Ob(x)), Ops::only(op))?;
        Ok(true)
    } else {
        Ok(false)
    }
}

/// Permits as `permit_once` does. If memory runs out once, the same call is made again.
fn permit(tables: &mut Tables, giver: u64, x: u64, op: Op) -> bool {
    match permit_once(tables, giver, x, op) {
        Ok(permitted) => permitted,
        Err(NoMemory) => permit_once(tables, giver, x, op) == Ok(true),
    }
}

/// Starts transactions 7, 8 and 9, of which 7 writes object 1. Returns whether all is done.
fn seven_writes(tables: &mut Tables) -> bool {
    let done = Outcome::Answer(Reply::Done);
    let steps = [
        (initiate(7), done),
        (begin(7), done),
        (initiate(8), done),
        (begin(8), done),
        (initiate(9), done),
        (begin(9), done),
        (write(7, 1, 50), done),
        (read(8, 1), Outcome::Wait),
    ];
    first_other_outcome(tables, &steps).is_none()
}

/// Reads what 7 has opened, and asks for what it has not; then 7 aborts. Returns the first step that has another outcome.
fn others_read(tables: &mut Tables) -> Option<usize> {
    let steps = [
        (read(8, 1), Outcome::Answer(Reply::Value(50))),
        (write(8, 1, 60), Outcome::Wait),
        (read(9, 2), Outcome::Answer(Reply::Value(200))),
        (abort(7), Outcome::Answer(Reply::Aborted)),
        (complete(8), Outcome::Answer(Reply::Done)),
        (write(9, 1, 70), Outcome::Wait),
        (abort(8), Outcome::Answer(Reply::Aborted)),
        (write(9, 1, 70), Outcome::Answer(Reply::Done)),
    ];
    first_other_outcome(tables, &steps)
}

/// Returns whether 7 may open an object, the first step after that which has another outcome, and whether 7 may open one
/// after its end.
fn opens(tables: &mut Tables) -> (bool, Option<usize>, bool) {
    let opened = seven_writes(tables) && permit(tables, 7, 1, Op::Read);
    let wrong = others_read(tables);
    let late = permit(tables, 7, 1, Op::Read);
    (opened, wrong, late)
}

#[test]
fn open_permit_of_the_tables_lets_anybody_read(rt: HostRuntime) -> Result<(), Fail> {
    let mut tables = open_tables(rt.alloc(), &TWO)?;
    let shown = opens(&mut tables);
    let (value, status) = (tables.value(Ob(1)), tables.status(Txn(9)));
    drop(tables);
    assert_eq!(rt; shown, (true, None, false));
    assert_eq!(rt; value, Some(70));
    assert_eq!(rt; status, Status::Running);
    Ok(())
}
