//! Adds to objects, on worked values and by hundreds of transactions.

use crate::objects::{TWO, opened, shows, write};
use asset_names::{NoMemory, Ob, ObSet, Txn};
use asset_objects::Objects;
use std::test::Fail;

/// How many transactions add to one object, each once.
const MANY: u64 = 300;

/// Reserves an update, and adds to an object if it exists.
pub(crate) fn add_once(objects: &mut Objects, t: u64, x: u64, d: i64) -> Result<(), NoMemory> {
    if objects.value(Ob(x)).is_some() {
        objects.reserve_write()?;
        objects.add(Txn(t), Ob(x), d);
    }
    Ok(())
}

/// Adds as `add_once` does. If memory runs out, nothing has changed, and the same call is made again.
fn add(objects: &mut Objects, t: u64, x: u64, d: i64) -> Result<(), NoMemory> {
    let before = objects.value(Ob(x));
    match add_once(objects, t, x, d) {
        Err(NoMemory) if objects.value(Ob(x)) == before => add_once(objects, t, x, d),
        added => added,
    }
}

/// Returns whether 7 and 8 add to one object, 8 for good, and the undo of 7 leaves what 8 added.
fn two_add(objects: &mut Objects) -> bool {
    let begun = add(objects, 7, 1, 5) == Ok(()) && add(objects, 8, 1, 7) == Ok(());
    let before = shows(objects, 112, 200);
    objects.settle(Txn(8));
    let between = shows(objects, 112, 200);
    objects.undo(Txn(7));
    begun && before && between && shows(objects, 107, 200)
}

#[test]
fn adds_commute(rt: HostRuntime) -> Result<(), Fail> {
    let mut objects = opened(rt.alloc(), &TWO)?;
    let commute = two_add(&mut objects);
    drop(objects);
    assert!(rt; commute);
    Ok(())
}

/// Returns whether 1 more than the greatest value is the least one, and the undo of the add is exact.
fn wraps(objects: &mut Objects) -> bool {
    let begun = write(objects, 7, 1, i64::MAX) == Ok(()) && add(objects, 8, 1, 1) == Ok(());
    let between = shows(objects, i64::MIN, 200);
    objects.undo(Txn(8));
    begun && between && shows(objects, i64::MAX, 200)
}

#[test]
fn add_wraps(rt: HostRuntime) -> Result<(), Fail> {
    let mut objects = opened(rt.alloc(), &TWO)?;
    let wrapped = wraps(&mut objects);
    drop(objects);
    assert!(rt; wrapped);
    Ok(())
}

/// Returns whether an add of 8 that stands for good outlives the write of 7 over which it was made.
fn outlives(objects: &mut Objects) -> bool {
    let begun = write(objects, 7, 1, 50) == Ok(()) && add(objects, 8, 1, 3) == Ok(());
    objects.settle(Txn(8));
    let between = shows(objects, 53, 200);
    objects.undo(Txn(7));
    begun && between && shows(objects, 103, 200)
}

#[test]
fn add_over_permitted_write(rt: HostRuntime) -> Result<(), Fail> {
    let mut objects = opened(rt.alloc(), &TWO)?;
    let outlived = outlives(&mut objects);
    drop(objects);
    assert!(rt; outlived);
    Ok(())
}

/// Returns whether the add of 7 stands when a write of 8 over it is undone.
fn is_uncovered(objects: &mut Objects) -> bool {
    let begun = add(objects, 7, 1, 5) == Ok(()) && write(objects, 8, 1, 60) == Ok(());
    let between = shows(objects, 60, 200);
    objects.undo(Txn(8));
    begun && between && shows(objects, 105, 200)
}

#[test]
fn write_over_add(rt: HostRuntime) -> Result<(), Fail> {
    let mut objects = opened(rt.alloc(), &TWO)?;
    let uncovered = is_uncovered(&mut objects);
    drop(objects);
    assert!(rt; uncovered);
    Ok(())
}

/// Returns whether an add that is undone under a write of 8 is gone when that write is undone too.
fn before_image_is_mended(objects: &mut Objects) -> bool {
    let begun = add(objects, 7, 1, 5) == Ok(())
        && write(objects, 8, 1, 60) == Ok(())
        && add(objects, 9, 1, 4) == Ok(());
    objects.undo(Txn(7));
    let between = shows(objects, 64, 200);
    objects.undo(Txn(8));
    let add_of_9 = shows(objects, 104, 200);
    objects.undo(Txn(9));
    begun && between && add_of_9 && shows(objects, 100, 200)
}

#[test]
fn add_in_a_before_image_is_undone(rt: HostRuntime) -> Result<(), Fail> {
    let mut objects = opened(rt.alloc(), &TWO)?;
    let mended = before_image_is_mended(&mut objects);
    drop(objects);
    assert!(rt; mended);
    Ok(())
}

/// Returns whether adds of 7 are those of 8 once they were handed over.
fn are_handed(objects: &mut Objects) -> bool {
    let begun = add(objects, 7, 1, 5) == Ok(()) && add(objects, 7, 2, 6) == Ok(());
    objects.hand_over(Txn(7), Txn(8), &ObSet::All);
    objects.undo(Txn(7));
    let between = shows(objects, 105, 206);
    objects.undo(Txn(8));
    begun && between && shows(objects, 100, 200)
}

#[test]
fn adds_move_with_their_owner(rt: HostRuntime) -> Result<(), Fail> {
    let mut objects = opened(rt.alloc(), &TWO)?;
    let handed = are_handed(&mut objects);
    drop(objects);
    assert!(rt; handed);
    Ok(())
}

/// Lets `MANY` transactions add 1 to the first object, each once.
fn add_many(objects: &mut Objects) -> Result<(), NoMemory> {
    for t in 0..MANY {
        add(objects, t, 1, 1)?;
    }
    Ok(())
}

/// Returns whether the adds of every third transaction are gone when those were undone and the others settled. The first of all
/// ends last, so that adds for good stand over one that may go.
fn every_third_goes(objects: &mut Objects) -> bool {
    let begun = add_many(objects) == Ok(());
    for t in 1..MANY {
        if t % 3 == 0 {
            objects.undo(Txn(t));
        } else {
            objects.settle(Txn(t));
        }
    }
    let between = shows(objects, 301, 200);
    objects.undo(Txn(0));
    begun && between && shows(objects, 300, 200) && objects.visits() == 1
}

#[test]
fn hundreds_add_to_one_object(rt: HostRuntime) -> Result<(), Fail> {
    let mut objects = opened(rt.alloc(), &TWO)?;
    let gone = every_third_goes(&mut objects);
    drop(objects);
    assert!(rt; gone);
    Ok(())
}
