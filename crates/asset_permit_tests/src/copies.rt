//! Copies of permits, on worked values, beside a plain list that copies by its words, and what is left if memory runs
//! out.

use asset_names::{NoMemory, Ob, ObList, ObSet, Op, Ops, SetFault, Txn};
use asset_permits::Permits;
use asset_test_tools::ops_of;
use std::alloc::Global;
use std::test::Fail;

/// The transactions of the worked values: the first of them, and how many there are.
const FIRST: u64 = 7;

const COUNT: u64 = 3;

/// How many transactions and objects there are beside the plain list, and how many of the objects are moved.
const NAMES: u64 = 8;

const OBJECTS: u64 = 70;

const MOVED: usize = 60;

/// Who gives the permits that are copied, and who gets the copies.
const GIVER: u64 = 1;

const RECEIVER: u64 = 2;

/// Returns the set of two objects.
fn two(first: u64, second: u64) -> Result<ObSet, SetFault> {
    Ok(ObSet::Listed(ObList::of(&[Ob(first), Ob(second)])?))
}

/// Returns a bit for each pair of transactions of the worked values, whether the one allows the other.
fn shown_for(permits: &mut Permits, x: u64, op: Op) -> u64 {
    let mut bits: u64 = 0;
    for u in FIRST..FIRST + COUNT {
        for t in FIRST..FIRST + COUNT {
            bits = bits << 1 | u64::from(permits.allows(Txn(u), Txn(t), Ob(x), op));
        }
    }
    bits
}

/// Returns all that permits show of the transactions and objects of the worked values.
fn shown(permits: &mut Permits) -> [u64; 6] {
    [
        shown_for(permits, 1, Op::Read),
        shown_for(permits, 2, Op::Read),
        shown_for(permits, 3, Op::Read),
        shown_for(permits, 1, Op::Write),
        shown_for(permits, 2, Op::Write),
        shown_for(permits, 3, Op::Write),
    ]
}

/// Adds a permit, and returns whether it could. If memory runs out, nothing has changed and the same call is made
/// again.
fn add(permits: &mut Permits, giver: u64, taker: u64, objects: &ObSet, ops: Ops) -> bool {
    let before = shown(permits);
    match permits.add(Txn(giver), Txn(taker), *objects, ops) {
        Ok(()) => true,
        Err(NoMemory) => {
            shown(permits) == before && permits.add(Txn(giver), Txn(taker), *objects, ops) == Ok(())
        }
    }
}

/// Copies permits, and returns whether it could. If memory runs out, nothing has changed and the same call is made
/// again.
fn copy(permits: &mut Permits, giver: u64, receiver: u64, moved: &[Ob]) -> bool {
    let before = shown(permits);
    match permits.copy_for(Txn(giver), Txn(receiver), moved) {
        Ok(()) => true,
        Err(NoMemory) => {
            shown(permits) == before && permits.copy_for(Txn(giver), Txn(receiver), moved) == Ok(())
        }
    }
}

/// Returns whether a transaction allows another to read an object.
fn reads(permits: &mut Permits, u: u64, t: u64, x: u64) -> bool {
    permits.allows(Txn(u), Txn(t), Ob(x), Op::Read)
}

/// Returns whether a transaction allows another to write an object.
fn writes(permits: &mut Permits, u: u64, t: u64, x: u64) -> bool {
    permits.allows(Txn(u), Txn(t), Ob(x), Op::Write)
}

/// Returns whether 8 gets a copy of the permit of 7 for 9 on all objects, on the moved one alone, which stays when 7
/// ends.
fn copied_on_one_object(permits: &mut Permits) -> bool {
    add(permits, 7, 9, &ObSet::All, Ops::only(Op::Write))
        && copy(permits, 7, 8, &[Ob(2)])
        && writes(permits, 8, 9, 2)
        && !reads(permits, 8, 9, 2)
        && !writes(permits, 8, 9, 1)
        && !writes(permits, 8, 9, 3)
        && !writes(permits, 9, 8, 2)
        && !writes(permits, 7, 8, 2)
        && writes(permits, 7, 9, 3)
        && is_kept_without(permits, 7)
}

/// Returns whether 8 lets 9 write 2, and no other object, when a transaction has ended.
fn is_kept_without(permits: &mut Permits, ended: u64) -> bool {
    permits.drop_all(Txn(ended));
    writes(permits, 8, 9, 2) && !writes(permits, 8, 9, 1) && !writes(permits, 7, 9, 2)
}

#[test]
fn copied_for_one_object(rt: HostRuntime) {
    let mut permits = Permits::new(rt.alloc());
    let copied = copied_on_one_object(&mut permits);
    drop(permits);
    assert!(rt; copied);
}

/// Returns whether 6 gets a copy of the permit of 7 for 8 on 1 and 2, on 1 alone.
fn copied_on_one_of_two(permits: &mut Permits) -> bool {
    let (Ok(low), Ok(high)) = (two(1, 2), two(2, 3)) else {
        return false;
    };
    let both = Ops::only(Op::Read).with(Op::Write);
    add(permits, 7, 8, &low, both)
        && add(permits, 8, 9, &high, Ops::only(Op::Read))
        && copy(permits, 7, 6, &[Ob(1)])
        && writes(permits, 6, 8, 1)
        && !writes(permits, 6, 8, 2)
}

#[test]
fn copied_for_one_of_two_listed_objects(rt: HostRuntime) {
    let mut permits = Permits::new(rt.alloc());
    let copied = copied_on_one_of_two(&mut permits);
    drop(permits);
    assert!(rt; copied);
}

/// Returns whether copies of what 7 gives nobody, of what an unknown transaction gives, and on no objects change
/// nothing.
fn nothing_copied(permits: &mut Permits) -> bool {
    let added = add(permits, 9, 7, &ObSet::All, Ops::only(Op::Read));
    let before = shown(permits);
    added
        && copy(permits, 7, 8, &[Ob(1), Ob(2)])
        && copy(permits, 5, 8, &[Ob(1)])
        && copy(permits, 9, 8, &[])
        && shown(permits) == before
        && reads(permits, 9, 7, 1)
}

#[test]
fn giver_without_permits_has_no_copies(rt: HostRuntime) {
    let mut permits = Permits::new(rt.alloc());
    let unchanged = nothing_copied(&mut permits);
    drop(permits);
    assert!(rt; unchanged);
}

/// Returns whether copies for 7 itself change nothing, and go with it.
fn copied_for_oneself(permits: &mut Permits) -> bool {
    let Ok(both) = two(1, 2) else {
        return false;
    };
    let added = add(permits, 7, 8, &both, Ops::only(Op::Read))
        && add(permits, 8, 9, &ObSet::All, Ops::only(Op::Read));
    let before = shown(permits);
    let same = copy(permits, 7, 7, &[Ob(1), Ob(3)]) && shown(permits) == before;
    permits.drop_all(Txn(7));
    added && same && !reads(permits, 7, 8, 1) && !reads(permits, 7, 9, 1) && reads(permits, 8, 9, 1)
}

#[test]
fn giver_that_is_the_receiver_gets_nothing_new(rt: HostRuntime) {
    let mut permits = Permits::new(rt.alloc());
    let same = copied_for_oneself(&mut permits);
    drop(permits);
    assert!(rt; same);
}

/// Returns whether a second call adds nothing to the copies, which go all at once with the transaction that gives them.
fn copied_twice(permits: &mut Permits) -> bool {
    let (Ok(low), Ok(high)) = (two(1, 2), two(2, 3)) else {
        return false;
    };
    let added = add(permits, 7, 9, &low, Ops::only(Op::Read))
        && add(permits, 7, 9, &high, Ops::only(Op::Write))
        && copy(permits, 7, 8, &[Ob(3), Ob(2)]);
    let once = shown(permits);
    let again = copy(permits, 7, 8, &[Ob(3), Ob(2)]) && shown(permits) == once;
    let right = reads(permits, 8, 9, 2)
        && writes(permits, 8, 9, 2)
        && writes(permits, 8, 9, 3)
        && !reads(permits, 8, 9, 3)
        && !reads(permits, 8, 9, 1);
    permits.drop_all(Txn(8));
    added && again && right && !reads(permits, 8, 9, 2) && writes(permits, 7, 9, 3)
}

#[test]
fn second_call_adds_no_copies(rt: HostRuntime) {
    let mut permits = Permits::new(rt.alloc());
    let same = copied_twice(&mut permits);
    drop(permits);
    assert!(rt; same);
}

/// Returns whether a copy may lead back to the transaction that gives it, and the next call copies it on: 7 permits 8,
/// and 8 takes over from 7, and 9 from 8.
fn copied_back(permits: &mut Permits) -> bool {
    add(permits, 7, 8, &ObSet::All, Ops::only(Op::Read))
        && copy(permits, 7, 8, &[Ob(1)])
        && copy(permits, 8, 9, &[Ob(1)])
        && reads(permits, 9, 8, 1)
        && !reads(permits, 8, 9, 1)
        && !reads(permits, 9, 8, 2)
}

#[test]
fn copy_that_leads_back_is_copied_on(rt: HostRuntime) {
    let mut permits = Permits::new(rt.alloc());
    let back = copied_back(&mut permits);
    drop(permits);
    assert!(rt; back);
}

/// A permit of a plain list, on all objects if it names none, and else on the two that it names, which may be one.
#[derive(Clone, Copy)]
struct Plain {
    giver: u64,
    taker: u64,
    objects: Option<(u64, u64)>,
    ops: Ops,
}

impl Plain {
    /// Returns whether the two are the same.
    fn is_same(&self, other: &Plain) -> bool {
        (self.giver, self.taker, self.objects) == (other.giver, other.taker, other.objects)
            && self.ops == other.ops
    }

    /// Returns whether the permit has the object.
    fn has(&self, x: u64) -> bool {
        match self.objects {
            None => true,
            Some((low, high)) => x == low || x == high,
        }
    }

    /// Returns whether the permit has the object and the operation.
    fn covers(&self, x: u64, op: Op) -> bool {
        self.ops.has(op) && self.has(x)
    }

    /// Returns the copy that the receiver gives on one object.
    fn cut(&self, receiver: u64, x: u64) -> Plain {
        Plain {
            giver: receiver,
            taker: self.taker,
            objects: Some((x, x)),
            ops: self.ops,
        }
    }

    /// Returns the set of objects of the permit.
    fn set(&self) -> Result<ObSet, SetFault> {
        match self.objects {
            None => Ok(ObSet::All),
            Some((low, high)) if low == high => Ok(ObSet::Listed(ObList::one(Ob(low)))),
            Some((low, high)) => two(low, high),
        }
    }
}

/// Appends the permit to the list, unless the same one is there.
fn push_new(list: &mut Vec<Plain>, plain: Plain) -> Result<(), Fail> {
    if !list.iter().any(|one| one.is_same(&plain)) {
        list.push(plain)?;
    }
    Ok(())
}

/// Adds a permit to permits and to the list.
fn give(permits: &mut Permits, list: &mut Vec<Plain>, plain: Plain) -> Result<(), Fail> {
    permits.add(Txn(plain.giver), Txn(plain.taker), plain.set()?, plain.ops)?;
    push_new(list, plain)
}

/// Returns the permit of the giver that a number below 300 stands for.
fn given(giver: u64, number: u64) -> Plain {
    let (one, other) = (1 + number % OBJECTS, 1 + (number % 300) * 7 % OBJECTS);
    Plain {
        giver,
        taker: number % NAMES,
        objects: if number % 50 == 0 {
            None
        } else {
            Some((one.min(other), one.max(other)))
        },
        ops: ops_of(number),
    }
}

/// Appends a copy of each of the giver's permits in the list that have the object.
fn copies_on(
    copies: &mut Vec<Plain>,
    list: &[Plain],
    (giver, receiver): (u64, u64),
    x: u64,
) -> Result<(), Fail> {
    for one in list {
        if one.giver == giver && one.has(x) {
            copies.push(one.cut(receiver, x))?;
        }
    }
    Ok(())
}

/// Copies the giver's permits on the moved objects for the receiver, in the list.
fn copy_plain(
    alloc: Global,
    list: &mut Vec<Plain>,
    both: (u64, u64),
    moved: &[Ob],
) -> Result<(), Fail> {
    let mut copies = Vec::new(alloc);
    for x in moved {
        copies_on(&mut copies, list, both, x.0)?;
    }
    for one in &copies {
        push_new(list, *one)?;
    }
    Ok(())
}

/// Returns whom a transaction lets do the operation on the object by the list, a bit for each.
fn reached(list: &[Plain], from: u64, x: u64, op: Op) -> u64 {
    let mut met = 1 << (from % NAMES);
    for _ in 0..NAMES {
        for one in list {
            if one.covers(x, op) && met >> (one.giver % NAMES) & 1 == 1 {
                met |= 1 << (one.taker % NAMES);
            }
        }
    }
    met
}

/// Returns whether a transaction allows each other one what the list says.
fn agrees_from(permits: &mut Permits, list: &[Plain], u: u64, x: u64, op: Op) -> bool {
    let met = reached(list, u, x, op);
    let mut alike = true;
    for t in 0..NAMES {
        let allowed = permits.allows(Txn(u), Txn(t), Ob(x), op);
        alike = alike && allowed == (met >> t & 1 == 1);
    }
    alike
}

/// Returns the first object on which permits and list differ.
fn first_difference(permits: &mut Permits, list: &[Plain]) -> Option<u64> {
    for x in 0..=OBJECTS {
        for u in 0..NAMES {
            let read = agrees_from(permits, list, u, x, Op::Read);
            let write = agrees_from(permits, list, u, x, Op::Write);
            let add = agrees_from(permits, list, u, x, Op::Add);
            if !read || !write || !add {
                return Some(x);
            }
        }
    }
    None
}

/// Gives 300 permits of the giver, and of the receiver one that is such a copy and one that is none.
fn give_all(permits: &mut Permits, list: &mut Vec<Plain>) -> Result<(), Fail> {
    for number in 0..300 {
        give(permits, list, given(GIVER, number))?;
    }
    give(permits, list, given(GIVER, 4).cut(RECEIVER, 5))?;
    give(permits, list, given(RECEIVER, 11))
}

/// Returns 60 objects, the greatest first.
fn sixty() -> [Ob; MOVED] {
    let mut moved = [Ob(0); MOVED];
    for (i, x) in moved.iter_mut().enumerate() {
        *x = Ob(60u64.saturating_sub(i as u64));
    }
    moved
}

/// Ends a transaction, in permits and the list.
fn end(permits: &mut Permits, list: &mut Vec<Plain>, t: u64) {
    permits.drop_all(Txn(t));
    list.retain(|one| one.giver != t && one.taker != t);
}

/// Copies 300 permits on 60 objects twice, and ends the giver and then the receiver. Returns the first object on which
/// permits and list differ after one of these calls.
fn copied_many(
    alloc: Global,
    permits: &mut Permits,
    list: &mut Vec<Plain>,
) -> Result<[Option<u64>; 4], Fail> {
    let moved = sixty();
    give_all(permits, list)?;
    permits.copy_for(Txn(GIVER), Txn(RECEIVER), &moved)?;
    copy_plain(alloc, list, (GIVER, RECEIVER), &moved)?;
    let copied = first_difference(permits, list);
    permits.copy_for(Txn(GIVER), Txn(RECEIVER), &moved)?;
    let again = first_difference(permits, list);
    end(permits, list, GIVER);
    let without = first_difference(permits, list);
    end(permits, list, RECEIVER);
    Ok([copied, again, without, first_difference(permits, list)])
}

#[test]
fn copies_agree_with_a_plain_list(rt: HostRuntime) -> Result<(), Fail> {
    let mut permits = Permits::new(rt.alloc());
    let mut list = Vec::new(rt.alloc());
    let differences = copied_many(rt.alloc(), &mut permits, &mut list);
    drop(permits);
    drop(list);
    assert_eq!(rt; differences?, [None, None, None, None]);
    Ok(())
}
