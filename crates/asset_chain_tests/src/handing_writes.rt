//! Writes that become another transaction's, on worked values, and what is left if memory runs out.

use crate::asserts::same;
use crate::objects::{TWO, opened, shows, write};
use asset_names::{NoMemory, Ob, ObList, ObSet, Txn};
use asset_objects::Objects;
use std::test::Fail;

/// How often one write is handed over, and how often 7 writes to an object that it writes many times.
const MANY: u64 = 300;

/// How often another writes to each object.
const OTHERS: u64 = 2_000;

/// Lets 7 write 50 to the first object and 60 to the second.
fn write_both(objects: &mut Objects) -> Result<(), NoMemory> {
    write(objects, 7, 1, 50)?;
    write(objects, 7, 2, 60)
}

/// Returns whether undo of 7 leaves the write that 8 took over on the first object, and undo of 8 takes it back.
fn undo_follows_the_owner(objects: &mut Objects, first: &ObSet) -> bool {
    let begun = write_both(objects) == Ok(());
    objects.hand_over(Txn(7), Txn(8), first);
    let kept = shows(objects, 50, 60);
    objects.undo(Txn(7));
    let between = shows(objects, 50, 200);
    objects.undo(Txn(8));
    begun && kept && between && shows(objects, 100, 200)
}

#[test]
fn records_move_with_their_owner(rt: HostRuntime) -> Result<(), Fail> {
    let first = ObSet::Listed(ObList::of(&[Ob(1)])?);
    let mut objects = opened(rt.alloc(), &TWO)?;
    let followed = undo_follows_the_owner(&mut objects, &first);
    drop(objects);
    assert!(rt; followed);
    Ok(())
}

/// Returns whether the one write of 7 stands at undo of 7 when 8 has taken all over, and goes at undo of 8.
fn one_write_is_taken_over(objects: &mut Objects) -> bool {
    let begun = write(objects, 7, 1, 50) == Ok(());
    objects.hand_over(Txn(7), Txn(8), &ObSet::All);
    objects.undo(Txn(7));
    let between = shows(objects, 50, 200);
    objects.undo(Txn(8));
    begun && between && shows(objects, 100, 200)
}

#[test]
fn one_write_is_undone_by_its_taker(rt: HostRuntime) -> Result<(), Fail> {
    let mut objects = opened(rt.alloc(), &TWO)?;
    let undone = one_write_is_taken_over(&mut objects);
    drop(objects);
    assert!(rt; undone);
    Ok(())
}

/// Returns whether settle of 8 makes the write final that 8 took over on the first object, and no other.
fn settle_follows_the_owner(objects: &mut Objects, first: &ObSet) -> bool {
    let begun = write_both(objects) == Ok(());
    objects.hand_over(Txn(7), Txn(8), first);
    objects.settle(Txn(8));
    objects.undo(Txn(7));
    let between = shows(objects, 50, 200);
    objects.undo(Txn(8));
    begun && between && shows(objects, 50, 200)
}

#[test]
fn writes_settle_with_their_owner(rt: HostRuntime) -> Result<(), Fail> {
    let first = ObSet::Listed(ObList::of(&[Ob(1)])?);
    let mut objects = opened(rt.alloc(), &TWO)?;
    let settled = settle_follows_the_owner(&mut objects, &first);
    drop(objects);
    assert!(rt; settled);
    Ok(())
}

#[test]
fn objects_that_do_not_exist_are_passed_over(rt: HostRuntime) -> Result<(), Fail> {
    let listed = ObSet::Listed(ObList::of(&[Ob(9), Ob(1), Ob(0)])?);
    let mut objects = opened(rt.alloc(), &TWO)?;
    let followed = undo_follows_the_owner(&mut objects, &listed);
    drop(objects);
    assert!(rt; followed);
    Ok(())
}

/// Returns whether a hand-over to oneself, and one from a transaction that wrote nothing, change nothing.
fn hand_over_to_oneself(objects: &mut Objects) -> bool {
    let begun = write_both(objects) == Ok(());
    objects.hand_over(Txn(7), Txn(7), &ObSet::All);
    objects.hand_over(Txn(8), Txn(9), &ObSet::All);
    let between = shows(objects, 50, 60);
    objects.undo(Txn(8));
    objects.undo(Txn(9));
    let kept = shows(objects, 50, 60);
    objects.undo(Txn(7));
    begun && between && kept && shows(objects, 100, 200)
}

#[test]
fn nothing_changes_for_oneself(rt: HostRuntime) -> Result<(), Fail> {
    let mut objects = opened(rt.alloc(), &TWO)?;
    let same = hand_over_to_oneself(&mut objects);
    drop(objects);
    assert!(rt; same);
    Ok(())
}

/// Returns whether the taker keeps its own write beside those that it takes over.
fn taker_keeps_its_own(objects: &mut Objects) -> bool {
    let begun = write_both(objects) == Ok(());
    let written = write(objects, 8, 1, 70) == Ok(());
    objects.hand_over(Txn(7), Txn(8), &ObSet::All);
    objects.undo(Txn(7));
    let between = shows(objects, 70, 60);
    objects.undo(Txn(8));
    begun && written && between && shows(objects, 100, 200)
}

#[test]
fn taker_has_its_own_writes_too(rt: HostRuntime) -> Result<(), Fail> {
    let mut objects = opened(rt.alloc(), &TWO)?;
    let kept = taker_keeps_its_own(&mut objects);
    drop(objects);
    assert!(rt; kept);
    Ok(())
}

/// Returns whether the write to the first object goes from one transaction to the next, `MANY` times, and undo of the last takes
/// it back.
fn pass_along(objects: &mut Objects, first: &ObSet) -> bool {
    let begun = write_both(objects) == Ok(());
    for t in 7..MANY + 7 {
        objects.hand_over(Txn(t), Txn(t + 1), first);
    }
    objects.undo(Txn(MANY + 6));
    let kept = shows(objects, 50, 60);
    objects.undo(Txn(MANY + 7));
    let between = shows(objects, 100, 60);
    objects.undo(Txn(7));
    begun && kept && between && shows(objects, 100, 200)
}

#[test]
fn a_write_goes_from_one_to_the_next(rt: HostRuntime) -> Result<(), Fail> {
    let first = ObSet::Listed(ObList::of(&[Ob(1)])?);
    let mut objects = opened(rt.alloc(), &TWO)?;
    let passed = pass_along(&mut objects, &first);
    drop(objects);
    assert!(rt; passed);
    Ok(())
}

/// Lets 7 write `MANY` times to each object, and 9 once to the second at last.
fn write_many(objects: &mut Objects) -> Result<(), NoMemory> {
    for _ in 0..MANY {
        write(objects, 7, 1, 1)?;
        write(objects, 7, 2, 2)?;
    }
    write(objects, 9, 2, 3)
}

/// Returns whether the writes of 7, which are many, are handed over at once and taken back.
fn many_are_handed_over(objects: &mut Objects) -> bool {
    let begun = write_both(objects) == Ok(());
    let written = write_many(objects) == Ok(());
    objects.hand_over(Txn(7), Txn(8), &ObSet::All);
    objects.undo(Txn(7));
    let kept = shows(objects, 1, 3);
    objects.undo(Txn(8));
    let between = shows(objects, 100, 3);
    objects.undo(Txn(9));
    begun && written && kept && between && shows(objects, 100, 200)
}

#[test]
fn many_writes_are_handed_over(rt: HostRuntime) -> Result<(), Fail> {
    let mut objects = opened(rt.alloc(), &TWO)?;
    let handed = many_are_handed_over(&mut objects);
    drop(objects);
    assert!(rt; handed);
    Ok(())
}

/// Reserves a write, hands everything of 7 over to 9, and lets 8 write to the first object after that.
fn write_after_hand_over_once(objects: &mut Objects) -> Result<(), NoMemory> {
    objects.reserve_write()?;
    objects.hand_over(Txn(7), Txn(9), &ObSet::All);
    if objects.value(Ob(1)).is_some() {
        objects.write(Txn(8), Ob(1), 70);
    }
    Ok(())
}

/// Returns whether 8 writes with a reservation from before a hand-over to one who never wrote.
fn reservation_stands(objects: &mut Objects) -> bool {
    let begun = write_both(objects) == Ok(());
    let written = match write_after_hand_over_once(objects) {
        Ok(()) => true,
        Err(NoMemory) => write_after_hand_over_once(objects) == Ok(()),
    };
    objects.undo(Txn(9));
    let between = shows(objects, 70, 200);
    objects.undo(Txn(8));
    begun && written && between && shows(objects, 100, 200)
}

#[test]
fn reservation_outlives_hand_overs(rt: HostRuntime) -> Result<(), Fail> {
    let mut objects = opened(rt.alloc(), &TWO)?;
    let stands = reservation_stands(&mut objects);
    drop(objects);
    assert!(rt; stands);
    Ok(())
}

/// Lets 7 write to the first object and 8 to both, `OTHERS` times each; hands the set of 7 over to 9. Returns the visits.
fn visits_beside_others(objects: &mut Objects, set: &ObSet) -> Result<usize, NoMemory> {
    write(objects, 7, 1, 50)?;
    for _ in 0..OTHERS {
        write(objects, 8, 1, 1)?;
        write(objects, 8, 2, 2)?;
    }
    objects.hand_over(Txn(7), Txn(9), set);
    Ok(objects.visits())
}

#[test]
fn hand_over_visits_the_records_of_the_giver(rt: HostRuntime) -> Result<(), Fail> {
    let first = ObSet::Listed(ObList::of(&[Ob(1)])?);
    let mut objects = opened(rt.alloc(), &TWO)?;
    let all = visits_beside_others(&mut objects, &ObSet::All);
    drop(objects);
    let mut objects = opened(rt.alloc(), &TWO)?;
    let one = visits_beside_others(&mut objects, &first);
    drop(objects);
    same(&rt, all?, 1);
    same(&rt, one?, 1);
    Ok(())
}

/// Lets 7 write once to the first object and `MANY` times to the second; hands the first to 8 and back. Returns the visits
/// of the two hand-overs.
fn visits_to_and_fro(objects: &mut Objects, first: &ObSet) -> Result<(usize, usize), NoMemory> {
    write(objects, 7, 1, 50)?;
    for _ in 0..MANY {
        write(objects, 7, 2, 2)?;
    }
    objects.hand_over(Txn(7), Txn(8), first);
    let there = objects.visits();
    objects.hand_over(Txn(8), Txn(7), first);
    Ok((there, objects.visits()))
}

#[test]
fn hand_over_visits_the_records_of_the_object_if_they_are_fewer(
    rt: HostRuntime,
) -> Result<(), Fail> {
    let first = ObSet::Listed(ObList::of(&[Ob(1)])?);
    let mut objects = opened(rt.alloc(), &TWO)?;
    let visits = visits_to_and_fro(&mut objects, &first);
    drop(objects);
    assert_eq!(rt; visits?, (2, 2));
    Ok(())
}

/// Hands all writes of 7 over to 8, which has one, and then nothing from 7. Returns the visits of both.
fn visits_of_all(objects: &mut Objects) -> Result<(usize, usize), NoMemory> {
    write_both(objects)?;
    write(objects, 8, 1, 70)?;
    objects.hand_over(Txn(7), Txn(8), &ObSet::All);
    let all = objects.visits();
    objects.hand_over(Txn(7), Txn(8), &ObSet::All);
    Ok((all, objects.visits()))
}

#[test]
fn hand_over_visits_what_stands_beside(rt: HostRuntime) -> Result<(), Fail> {
    let mut objects = opened(rt.alloc(), &TWO)?;
    let visits = visits_of_all(&mut objects);
    drop(objects);
    assert_eq!(rt; visits?, (5, 0));
    Ok(())
}
