//! Adds as calls of the tables, which answer for no refusal.

use crate::steps::{first_other_outcome, open_tables};
use asset_ends::Tables;
use asset_names::{NoMemory, Ob, Outcome, Reply, Status, Txn};
use asset_test_tools::{abort, begin, commit, complete, initiate, read};
use std::test::Fail;

/// One object with 100.
const ONE: [(Ob, i64); 1] = [(Ob(1), 100)];

/// Adds if the transaction runs and the object exists, and returns whether it did.
fn add_once(tables: &mut Tables, t: u64, x: u64, d: i64) -> Result<bool, NoMemory> {
    let exists = tables.number(Ob(x)).is_some();
    match tables.status(Txn(t)) {
        Status::Running if exists => tables.add(Txn(t), Ob(x), d),
        _ => Ok(false),
    }
}

/// Adds as `add_once` does. If memory runs out once, the value is as before, and the same call is made again.
fn add(tables: &mut Tables, t: u64, x: u64, d: i64) -> bool {
    let before = tables.value(Ob(x));
    match add_once(tables, t, x, d) {
        Ok(added) => added,
        Err(NoMemory) => { tables.value(Ob(x)) == before && add_once(tables, t, x, d) == Ok(true) }
    }
}

/// Starts transactions 7, 8 and 9. Returns whether they are new.
fn start_three(tables: &mut Tables) -> bool {
    let done = Outcome::Answer(Reply::Done);
    let steps = [
        (initiate(7), done),
        (begin(7), done),
        (initiate(8), done),
        (begin(8), done),
        (initiate(9), done),
        (begin(9), done),
    ];
    first_other_outcome(tables, &steps).is_none()
}

/// Ends 8 by a commit and 7 by an abort, and reads between them. Returns the first step that has another outcome.
fn ends(tables: &mut Tables) -> Option<usize> {
    let steps = [
        (read(9, 1), Outcome::Wait),
        (complete(8), Outcome::Answer(Reply::Done)),
        (commit(8), Outcome::Answer(Reply::Committed)),
        (read(7, 1), Outcome::Answer(Reply::Value(112))),
        (abort(7), Outcome::Answer(Reply::Aborted)),
        (read(9, 1), Outcome::Answer(Reply::Value(107))),
    ];
    first_other_outcome(tables, &steps)
}

/// Returns whether both adds are granted, whether an add to no object is not, and the first step of the ends that has
/// another outcome.
fn two_adders(tables: &mut Tables) -> (bool, bool, Option<usize>) {
    let added = start_three(tables) && add(tables, 7, 1, 5) && add(tables, 8, 1, 7);
    let wrong = ends(tables);
    let refused = !add(tables, 9, 2, 1);
    (added, refused, wrong)
}

#[test]
fn adds_of_the_tables_go_together(rt: HostRuntime) -> Result<(), Fail> {
    let mut tables = open_tables(rt.alloc(), &ONE)?;
    let shown = two_adders(&mut tables);
    let value = tables.value(Ob(1));
    drop(tables);
    assert_eq!(rt; shown, (true, true, None));
    assert_eq!(rt; value, Some(107));
    Ok(())
}
