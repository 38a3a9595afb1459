//! Objects beside a plain list of updates that does the same by scanning, and how many records an end or a hand-over visits.

use crate::adds::add_once;
use crate::asserts::same;
use crate::objects::write_once;
use asset_names::{NoMemory, Ob, ObList, ObSet, Txn};
use asset_objects::Objects;
use asset_test_tools::next;
use std::test::Fail;

/// The objects beside the list, and their opening values.
const OPENING: [(Ob, i64); 4] = [
    (Ob(0), 1_000),
    (Ob(1), 1_001),
    (Ob(2), 1_002),
    (Ob(3), 1_003),
];

/// How many transactions there are beside the list, and how many calls are drawn.
const OWNERS: u64 = 5;

const CALLS: usize = 3_000;

/// How many writes of another stand on another object.
const OTHERS: i64 = 1_000;

/// What an update of the plain list did.
#[derive(Clone, Copy)]
enum Did {
    Wrote(i64),
    Added(i64),
}

/// An update of the plain list: its object, its owner unless it is nobody's, and what it did.
#[derive(Clone, Copy)]
struct Plain {
    object: u64,
    owner: Option<u64>,
    did: Did,
}

/// The plain list: the value below the updates of each object, and the updates that stand, oldest first.
#[derive(Drop)]
struct PlainObjects {
    bases: Vec<i64>,
    updates: Vec<Plain>,
}

/// Returns the value after an update.
fn after(value: i64, did: Did) -> i64 {
    match did {
        Did::Wrote(written) => written,
        Did::Added(amount) => value.wrapping_add(amount),
    }
}

/// Returns the value of an object: the one below with the updates in order.
fn value_of(list: &PlainObjects, object: u64) -> Option<i64> {
    let mut value = list.bases.get(object as usize).copied()?;
    for one in list.updates.iter() {
        if one.object == object {
            value = after(value, one.did);
        }
    }
    Some(value)
}

/// Returns how many updates are somebody's.
fn owned(list: &PlainObjects) -> usize {
    list.updates
        .iter()
        .filter(|one| one.owner.is_some())
        .count()
}

/// Returns whether an update is nobody's add to the object.
fn is_nobodys(one: &Plain, object: u64) -> bool {
    one.object == object && one.owner.is_none()
}

/// Returns whether an update is a write of the object.
fn is_write(one: &Plain, object: u64) -> bool {
    one.object == object && matches!(one.did, Did::Wrote(_))
}

/// Makes adds of nobody to the object that no write stands before part of the value below.
fn sink(list: &mut PlainObjects, object: u64) -> Option<()> {
    let end = list.updates.len();
    let first = list
        .updates
        .iter()
        .position(|one| is_write(one, object))
        .unwrap_or(end);
    let mut base = list.bases.get(object as usize).copied()?;
    for one in list.updates.iter().take(first) {
        if is_nobodys(one, object) {
            base = after(base, one.did);
        }
    }
    *list.bases.get_mut(object as usize)? = base;
    let mut index: usize = 0;
    list.updates.retain(|one| {
        let goes = index < first && is_nobodys(one, object);
        index = index.saturating_add(1);
        !goes
    });
    Some(())
}

/// Does so on each object.
fn sink_all(list: &mut PlainObjects) {
    for object in 0..OPENING.len() {
        let _ = sink(list, object as u64);
    }
}

/// Takes the updates of the owner away; returns how many there were.
fn undo_plainly(list: &mut PlainObjects, owner: u64) -> usize {
    let before = list.updates.len();
    list.updates.retain(|one| one.owner != Some(owner));
    let gone = before - list.updates.len();
    sink_all(list);
    gone
}

/// Makes the newest write of the owner to the object, if there is one, the value below the updates, and drops it with all
/// before it on the object.
fn settle_on(list: &mut PlainObjects, owner: u64, object: u64) -> Option<()> {
    let newest = list
        .updates
        .iter()
        .rposition(|one| one.owner == Some(owner) && is_write(one, object))?;
    let written = after(0, list.updates.get(newest)?.did);
    *list.bases.get_mut(object as usize)? = written;
    let mut index: usize = 0;
    list.updates.retain(|one| {
        let goes = index <= newest && one.object == object;
        index = index.saturating_add(1);
        !goes
    });
    Some(())
}

/// Settles the updates of the owner on each object; returns how many of somebody went or became nobody's.
fn settle_plainly(list: &mut PlainObjects, owner: u64) -> usize {
    let before = owned(list);
    for object in 0..OPENING.len() {
        let _ = settle_on(list, owner, object as u64);
    }
    for one in list.updates.iter_mut() {
        if one.owner == Some(owner) {
            one.owner = None;
        }
    }
    let gone = before.saturating_sub(owned(list));
    sink_all(list);
    gone
}

/// Returns whether each object has the value of the list.
fn same_values(objects: &Objects, list: &PlainObjects) -> bool {
    OPENING
        .iter()
        .all(|pair| objects.value(pair.0) == value_of(list, pair.0.0))
}

/// Returns whether the visits are at least as many as the records that went, at most about four times as many, and none if none
/// went.
fn within(visits: usize, gone: usize) -> bool {
    gone <= visits && visits / 4 <= gone && (gone > 0 || visits == 0)
}

/// Returns the set that a number stands for: all objects, one object, or that one and the next.
fn set_of(number: u64, object: u64) -> Result<ObSet, Fail> {
    match number % 3 {
        0 => Ok(ObSet::All),
        1 => Ok(ObSet::Listed(ObList::of(&[Ob(object)])?)),
        _ => Ok(ObSet::Listed(ObList::of(&[Ob(object), Ob(object.saturating_add(1))])?)),
    }
}

/// Hands the giver's updates on the objects of the set over; returns how many the giver had, and how many went over.
fn hand_over_plainly(
    list: &mut PlainObjects,
    giver: u64,
    taker: u64,
    objects: &ObSet,
) -> (usize, usize) {
    let mut owned: usize = 0;
    let mut handed: usize = 0;
    for one in list.updates.iter_mut() {
        if one.owner == Some(giver) {
            owned = owned.saturating_add(1);
            if objects.has(Ob(one.object)) {
                handed = handed.saturating_add(1);
                one.owner = Some(taker);
            }
        }
    }
    (owned, handed)
}

/// Returns whether a hand-over visited some record if one went over, and at most four for each that the giver had.
fn within_handed(visits: usize, (owned, handed): (usize, usize)) -> bool {
    visits / 4 <= owned && (visits > 0 || handed == 0)
}

/// Makes the hand-over that a number stands for, on objects and the list. Returns whether the visits are within bounds.
fn hand_over(
    objects: &mut Objects,
    list: &mut PlainObjects,
    number: u64,
    giver: u64,
    object: u64,
) -> Result<bool, Fail> {
    let taker = (number >> 20) % OWNERS;
    let set = set_of(number, object)?;
    objects.hand_over(Txn(giver), Txn(taker), &set);
    let plainly = hand_over_plainly(list, giver, taker, &set);
    Ok(giver == taker || within_handed(objects.visits(), plainly))
}

/// Appends an update to the list.
fn note(list: &mut PlainObjects, owner: u64, object: u64, did: Did) -> Result<(), Fail> {
    let owner = Some(owner);
    list.updates.push(Plain { object, owner, did })?;
    Ok(())
}

/// Makes the call that a number stands for, on objects and the list. Returns whether both show the same after it.
fn call(objects: &mut Objects, list: &mut PlainObjects, number: u64) -> Result<bool, Fail> {
    let owner = (number >> 30) % OWNERS;
    let object = (number >> 40) % 4;
    let value = (number % 1_000) as i64;
    let counted = match (number >> 50) % 8 {
        0 => {
            objects.undo(Txn(owner));
            within(objects.visits(), undo_plainly(list, owner))
        }
        1 => {
            objects.settle(Txn(owner));
            within(objects.visits(), settle_plainly(list, owner))
        }
        2 => hand_over(objects, list, number, owner, object)?,
        3 | 4 => {
            write_once(objects, owner, object, value)?;
            note(list, owner, object, Did::Wrote(value))?;
            true
        }
        _ => {
            add_once(objects, owner, object, value)?;
            note(list, owner, object, Did::Added(value))?;
            true
        }
    };
    Ok(counted && same_values(objects, list))
}

/// Draws calls, and returns the first after which objects and list differ.
fn first_difference(objects: &mut Objects, list: &mut PlainObjects) -> Result<Option<usize>, Fail> {
    for pair in OPENING {
        list.bases.push(pair.1)?;
    }
    let mut number = 1;
    for i in 0..CALLS {
        number = next(number);
        if !call(objects, list, number)? {
            return Ok(Some(i));
        }
    }
    Ok(None)
}

#[test]
fn objects_agree_with_a_plain_list(rt: HostRuntime) -> Result<(), Fail> {
    let mut objects = Objects::open(rt.alloc(), &OPENING)?;
    let mut list = PlainObjects {
        bases: Vec::new(rt.alloc()),
        updates: Vec::new(rt.alloc()),
    };
    let difference = first_difference(&mut objects, &mut list);
    drop(objects);
    drop(list);
    assert_eq!(rt; difference?, None);
    Ok(())
}

/// Lets 8 write `others` times to object 1, and then 7 and 8 write to object 0; undoes 7.
fn undo_beside(objects: &mut Objects, others: i64) -> Result<usize, NoMemory> {
    for value in 0..others {
        write_once(objects, 8, 1, value)?;
    }
    write_once(objects, 7, 0, 1)?;
    write_once(objects, 8, 0, 2)?;
    objects.undo(Txn(7));
    Ok(objects.visits())
}

/// Returns how many records the undo of 7 visits, which wrote to one object before 8 did, with so many writes of 8 on
/// another object.
fn visits_beside(rt: &HostRuntime, others: i64) -> Result<usize, Fail> {
    let mut objects = Objects::open(rt.alloc(), &OPENING)?;
    let visits = undo_beside(&mut objects, others);
    drop(objects);
    Ok(visits?)
}

#[test]
fn undo_visits_a_record_and_those_beside_it(rt: HostRuntime) -> Result<(), Fail> {
    same(&rt, visits_beside(&rt, 0)?, 2);
    same(&rt, visits_beside(&rt, OTHERS)?, 2);
    Ok(())
}

/// Lets 8 write `others` times to object 1, and then 7 and 8 write to object 0; settles 8 on both.
fn settle_beside(objects: &mut Objects, others: i64) -> Result<(usize, usize), NoMemory> {
    let before = objects.visits();
    undo_beside(objects, others)?;
    objects.settle(Txn(8));
    Ok((before, objects.visits()))
}

#[test]
fn settle_visits_what_goes(rt: HostRuntime) -> Result<(), Fail> {
    let mut objects = Objects::open(rt.alloc(), &OPENING)?;
    let visits = settle_beside(&mut objects, 2);
    drop(objects);
    assert_eq!(rt; visits?, (0, 6));
    Ok(())
}
