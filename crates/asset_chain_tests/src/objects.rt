//! Openings, writes and ends on worked values, and what is left if memory runs out.

use crate::asserts::same;
use asset_names::{NoMemory, Ob, Txn, least_double};
use asset_objects::{Objects, ObjectsFault};
use std::alloc::Global;
use std::test::Fail;

pub(crate) const TWO: [(Ob, i64); 2] = [(Ob(1), 100), (Ob(2), 200)];

/// Reserves a write, and writes to an object if it exists.
pub(crate) fn write_once(objects: &mut Objects, t: u64, x: u64, v: i64) -> Result<(), NoMemory> {
    if objects.value(Ob(x)).is_some() {
        objects.reserve_write()?;
        objects.write(Txn(t), Ob(x), v);
    }
    Ok(())
}

/// Writes as `write_once` does. If memory runs out, nothing has changed, and the same call is made again.
pub(crate) fn write(objects: &mut Objects, t: u64, x: u64, v: i64) -> Result<(), NoMemory> {
    let before = objects.value(Ob(x));
    match write_once(objects, t, x, v) {
        Err(NoMemory) if objects.value(Ob(x)) == before => write_once(objects, t, x, v),
        written => written,
    }
}

/// Opens these objects. If memory runs out once, they are opened again.
pub(crate) fn opened(alloc: Global, opening: &[(Ob, i64)]) -> Result<Objects, ObjectsFault> {
    match Objects::open(alloc, opening) {
        Err(ObjectsFault::NoMemory) => Objects::open(alloc, opening),
        opened => opened,
    }
}

/// Lets 7 and then 8 write to the first object.
fn write_twice(objects: &mut Objects) -> Result<(), NoMemory> {
    write(objects, 7, 1, 50)?;
    write(objects, 8, 1, 60)
}

/// Returns whether the two objects have these values.
pub(crate) fn shows(objects: &Objects, first: i64, second: i64) -> bool {
    objects.value(Ob(1)) == Some(first)
        && objects.value(Ob(2)) == Some(second)
        && objects.value(Ob(9)) == None
}

#[test]
fn opening_values_are_shown(rt: HostRuntime) -> Result<(), Fail> {
    let objects = opened(rt.alloc(), &TWO)?;
    let shown = shows(&objects, 100, 200);
    drop(objects);
    assert!(rt; shown);
    Ok(())
}

/// Returns why these objects are not opened, if they are not.
fn fault(alloc: Global, opening: &[(Ob, i64)]) -> Option<ObjectsFault> {
    opened(alloc, opening).err()
}

#[test]
fn double_object_is_refused(rt: HostRuntime) -> Result<(), Fail> {
    let double = [(Ob(1), 1), (Ob(1), 2)];
    let twice = ObjectsFault::DoubleObject(Ob(1));
    same(&rt, fault(rt.alloc(), &double), Some(twice));
    let text = format!(in rt.alloc(); "{twice}")?;
    same(&rt, text.as_str(), "object 1 was given twice");
    Ok(())
}

/// Returns whether undo of 7 mends the record of 8, which wrote later.
fn undo_mends(objects: &mut Objects) -> bool {
    let begun = write_twice(objects) == Ok(());
    let before = shows(objects, 60, 200);
    objects.undo(Txn(7));
    let between = shows(objects, 60, 200);
    objects.undo(Txn(8));
    begun && before && between && shows(objects, 100, 200)
}

#[test]
fn undo_mends_the_later_record(rt: HostRuntime) -> Result<(), Fail> {
    let mut objects = opened(rt.alloc(), &TWO)?;
    let mended = undo_mends(&mut objects);
    drop(objects);
    assert!(rt; mended);
    Ok(())
}

/// Returns whether nothing of 7 is left to undo when 8, which wrote later, has settled.
fn settle_drops(objects: &mut Objects) -> bool {
    let begun = write_twice(objects) == Ok(());
    objects.settle(Txn(8));
    let between = shows(objects, 60, 200);
    objects.undo(Txn(7));
    begun && between && shows(objects, 60, 200)
}

#[test]
fn settle_drops_earlier_records(rt: HostRuntime) -> Result<(), Fail> {
    let mut objects = opened(rt.alloc(), &TWO)?;
    let dropped = settle_drops(&mut objects);
    drop(objects);
    assert!(rt; dropped);
    Ok(())
}

/// Returns whether undo of 7 takes its writes to both objects away, however they were mixed.
fn undo_takes_all(objects: &mut Objects) -> bool {
    let begun = write_twice(objects) == Ok(());
    let written = write(objects, 7, 2, 1) == Ok(())
        && write(objects, 7, 1, 2) == Ok(())
        && write(objects, 7, 2, 3) == Ok(());
    let between = shows(objects, 2, 3);
    objects.undo(Txn(7));
    begun && written && between && shows(objects, 60, 200)
}

#[test]
fn undo_of_several_objects(rt: HostRuntime) -> Result<(), Fail> {
    let mut objects = opened(rt.alloc(), &TWO)?;
    let undone = undo_takes_all(&mut objects);
    drop(objects);
    assert!(rt; undone);
    Ok(())
}

/// Opens these objects if they are all different, and asks once.
fn opened_distinct(alloc: Global, opening: &[(Ob, i64)]) -> Result<Objects, ObjectsFault> {
    match least_double(opening) {
        Some(x) => Err(ObjectsFault::DoubleObject(x)),
        None => match Objects::open_distinct(alloc, opening) {
            Ok(objects) => Ok(objects),
            Err(NoMemory) => Err(ObjectsFault::NoMemory),
        },
    }
}

#[test]
fn different_objects_are_opened(rt: HostRuntime) -> Result<(), Fail> {
    let objects = opened_distinct(rt.alloc(), &TWO)?;
    let shown = shows(&objects, 100, 200);
    drop(objects);
    assert!(rt; shown);
    Ok(())
}

/// Reserves a write before 7 and 8 end, and lets 9 write to the first object after that.
fn write_after_ends_once(objects: &mut Objects) -> Result<(), NoMemory> {
    objects.reserve_write()?;
    objects.undo(Txn(7));
    objects.settle(Txn(8));
    if objects.value(Ob(1)).is_some() {
        objects.write(Txn(9), Ob(1), 70);
    }
    Ok(())
}

/// Writes as `write_after_ends_once` does. If memory runs out once, the same call is made again.
fn write_after_ends(objects: &mut Objects) -> Result<(), NoMemory> {
    match write_after_ends_once(objects) {
        Ok(()) => Ok(()),
        Err(NoMemory) => write_after_ends_once(objects),
    }
}

/// Returns whether 9 writes with a reservation from before the ends of 7 and 8, and can be undone.
fn reservation_stands(objects: &mut Objects) -> bool {
    let begun = write_twice(objects) == Ok(());
    let written = write_after_ends(objects) == Ok(()) && shows(objects, 70, 200);
    objects.undo(Txn(9));
    begun && written && shows(objects, 60, 200)
}

#[test]
fn reservation_outlives_ends(rt: HostRuntime) -> Result<(), Fail> {
    let mut objects = opened(rt.alloc(), &TWO)?;
    let stands = reservation_stands(&mut objects);
    drop(objects);
    assert!(rt; stands);
    Ok(())
}

/// Returns whether a write that runs out of memory changes nothing, and can be asked again.
fn write_is_asked_again(objects: &mut Objects) -> bool {
    let reserved = match objects.reserve_write() {
        Ok(()) => true,
        Err(NoMemory) => shows(objects, 100, 200) && objects.reserve_write() == Ok(()),
    };
    reserved && write(objects, 7, 1, 50) == Ok(()) && shows(objects, 50, 200)
}

#[test]
fn out_of_memory_changes_nothing(rt: HostRuntime) -> Result<(), Fail> {
    let mut objects = opened(rt.alloc(), &TWO)?;
    let written = write_is_asked_again(&mut objects);
    drop(objects);
    assert!(rt; written);
    Ok(())
}
