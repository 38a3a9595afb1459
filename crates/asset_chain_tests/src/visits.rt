//! How many records ends visit on worked values, and seats of transactions whose writes are dropped by others.

use crate::objects::{TWO, opened, shows, write};
use asset_names::{NoMemory, Ob, ObList, ObSet, Txn};
use asset_objects::Objects;
use std::test::Fail;

/// How many transactions write one after another, and lose their write as the last of them settles.
const MANY: u64 = 300;

/// Lets 7 and then 8 write to the first object, and 7 to the second.
fn write_three(objects: &mut Objects) -> Result<(), NoMemory> {
    write(objects, 7, 1, 10)?;
    write(objects, 8, 1, 20)?;
    write(objects, 7, 2, 5)
}

/// Undoes the transaction, and returns how many records that visited.
fn undo(objects: &mut Objects, t: u64) -> usize {
    objects.undo(Txn(t));
    objects.visits()
}

/// Returns whether undo visits each record that goes, and those beside it among those of its object and its owner.
fn are_taken_back(objects: &mut Objects) -> bool {
    let begun = write_three(objects) == Ok(());
    let nobody = undo(objects, 9);
    let both = undo(objects, 7);
    let between = shows(objects, 20, 200);
    let last = undo(objects, 8);
    begun && nobody == 0 && both == 4 && between && last == 1 && shows(objects, 100, 200)
}

#[test]
fn writes_are_taken_back(rt: HostRuntime) -> Result<(), Fail> {
    let mut objects = opened(rt.alloc(), &TWO)?;
    let taken = are_taken_back(&mut objects);
    drop(objects);
    assert!(rt; taken);
    Ok(())
}

/// Returns whether settle visits what goes with the write, and the others stand.
fn are_settled(objects: &mut Objects) -> bool {
    let begun = write_three(objects) == Ok(());
    objects.settle(Txn(9));
    let nobody = objects.visits();
    objects.settle(Txn(8));
    let both = objects.visits();
    let between = shows(objects, 20, 5);
    let last = undo(objects, 7);
    begun && nobody == 0 && both == 4 && between && last == 1 && shows(objects, 20, 200)
}

#[test]
fn writes_are_settled(rt: HostRuntime) -> Result<(), Fail> {
    let mut objects = opened(rt.alloc(), &TWO)?;
    let settled = are_settled(&mut objects);
    drop(objects);
    assert!(rt; settled);
    Ok(())
}

/// Lets `MANY` transactions write to the first object, each once, and the last of them settle, so that none of the others has
/// a write any more. Then 7 writes to both objects.
fn settle_over_many(objects: &mut Objects) -> Result<(), NoMemory> {
    for t in 1_000..1_000 + MANY {
        write(objects, t, 1, 50)?;
    }
    objects.settle(Txn(999 + MANY));
    write(objects, 7, 1, 60)?;
    write(objects, 7, 2, 70)
}

/// Returns whether a write can be handed over, and an end of one who lost its write changes nothing, after such a settling.
fn seats_are_left(objects: &mut Objects, first: &ObSet) -> bool {
    let begun = settle_over_many(objects) == Ok(());
    let lost = undo(objects, 1_000);
    let between = shows(objects, 60, 70);
    objects.hand_over(Txn(7), Txn(1_001), first);
    objects.hand_over(Txn(7), Txn(5_000), &ObSet::All);
    objects.undo(Txn(1_001));
    let first_gone = shows(objects, 50, 70);
    objects.undo(Txn(5_000));
    begun && lost == 0 && between && first_gone && shows(objects, 50, 200)
}

#[test]
fn who_lost_its_writes_leaves_its_seat(rt: HostRuntime) -> Result<(), Fail> {
    let first = ObSet::Listed(ObList::of(&[Ob(1)])?);
    let mut objects = opened(rt.alloc(), &TWO)?;
    let left = seats_are_left(&mut objects, &first);
    drop(objects);
    assert!(rt; left);
    Ok(())
}
