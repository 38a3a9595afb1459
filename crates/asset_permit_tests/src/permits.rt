//! Permits on worked values, beside a plain list that does the same by scanning, and what is left if memory runs out.

use asset_names::{NoMemory, Ob, ObList, ObSet, Op, Ops, SetFault, Txn};
use asset_permits::Permits;
use asset_test_tools::{next, ops_of};
use std::test::Fail;

/// How many transactions and objects there are beside the plain list, and how many calls are drawn, without open permits and
/// with some.
const NAMES: u64 = 5;

const OBJECTS: u64 = 3;

const CALLS: usize = 3_000;

const OPEN_CALLS: usize = 400;

/// A bit for each of the transactions.
const EVERYBODY: u64 = 0b11111;

/// Returns the set of two objects.
fn two(first: u64, second: u64) -> Result<ObSet, SetFault> {
    Ok(ObSet::Listed(ObList::of(&[Ob(first), Ob(second)])?))
}

/// Adds a permit to read, and to write if `write` says so.
fn add_once(
    permits: &mut Permits,
    u: u64,
    t: u64,
    objects: &ObSet,
    write: bool,
) -> Result<(), NoMemory> {
    let reads = Ops::only(Op::Read);
    let ops = if write { reads.with(Op::Write) } else { reads };
    permits.add(Txn(u), Txn(t), *objects, ops)
}

/// Adds a permit as `add_once` does, and returns whether it could. If memory runs out, nothing has changed and the
/// same call is made again.
fn add(permits: &mut Permits, u: u64, t: u64, objects: &ObSet, write: bool) -> bool {
    let before = reads(permits, u, t, 2);
    match add_once(permits, u, t, objects, write) {
        Ok(()) => true,
        Err(NoMemory) => {
            reads(permits, u, t, 2) == before && add_once(permits, u, t, objects, write) == Ok(())
        }
    }
}

/// Lets 7 permit 8 to read and write 1 and 2, and 8 permit 9 to read 2 and 3.
fn permit_both(permits: &mut Permits) -> Result<bool, SetFault> {
    let (low, high) = (two(1, 2)?, two(2, 3)?);
    Ok(add(permits, 7, 8, &low, true) && add(permits, 8, 9, &high, false))
}

/// Returns whether a transaction allows another to read an object.
fn reads(permits: &mut Permits, u: u64, t: u64, x: u64) -> bool {
    permits.allows(Txn(u), Txn(t), Ob(x), Op::Read)
}

/// Returns whether a transaction allows another to write an object.
fn writes(permits: &mut Permits, u: u64, t: u64, x: u64) -> bool {
    permits.allows(Txn(u), Txn(t), Ob(x), Op::Write)
}

/// Returns whether a chain lets its end do what each of its permits has, and no more.
fn chain_allows(permits: &mut Permits) -> bool {
    permit_both(permits) == Ok(true)
        && reads(permits, 7, 9, 2)
        && !writes(permits, 7, 9, 2)
        && !reads(permits, 7, 9, 1)
        && writes(permits, 7, 7, 1)
        && !reads(permits, 9, 7, 2)
}

#[test]
fn chain_allows_what_each_permit_has(rt: HostRuntime) {
    let mut permits = Permits::new(rt.alloc());
    let allowed = chain_allows(&mut permits);
    drop(permits);
    assert!(rt; allowed);
}

/// Returns whether nothing is left of a chain when its middle has ended, and 7 can permit 9 by itself.
fn chain_ends(permits: &mut Permits) -> bool {
    let both = permit_both(permits);
    permits.drop_all(Txn(8));
    both == Ok(true)
        && !reads(permits, 7, 9, 2)
        && !reads(permits, 7, 8, 2)
        && !reads(permits, 8, 9, 2)
        && add(permits, 7, 9, &ObSet::All, true)
        && writes(permits, 7, 9, 4)
}

#[test]
fn chain_ends_with_its_members(rt: HostRuntime) {
    let mut permits = Permits::new(rt.alloc());
    let ended = chain_ends(&mut permits);
    drop(permits);
    assert!(rt; ended);
}

/// Returns whether a chain may come back to its start.
fn chain_comes_back(permits: &mut Permits) -> bool {
    permit_both(permits) == Ok(true)
        && add(permits, 9, 7, &ObSet::All, false)
        && reads(permits, 9, 8, 2)
        && !reads(permits, 9, 6, 2)
}

#[test]
fn chain_may_come_back(rt: HostRuntime) {
    let mut permits = Permits::new(rt.alloc());
    let back = chain_comes_back(&mut permits);
    drop(permits);
    assert!(rt; back);
}

/// Returns whether a permit that is given twice goes with its giver.
fn twice_given_goes(permits: &mut Permits) -> bool {
    let (both, Ok(same)) = (permit_both(permits), two(2, 1)) else {
        return false;
    };
    let stands = add(permits, 7, 8, &same, true) && reads(permits, 7, 9, 2);
    permits.drop_all(Txn(7));
    both == Ok(true) && stands && !reads(permits, 7, 8, 2) && reads(permits, 8, 9, 3)
}

#[test]
fn permit_is_given_twice(rt: HostRuntime) {
    let mut permits = Permits::new(rt.alloc());
    let gone = twice_given_goes(&mut permits);
    drop(permits);
    assert!(rt; gone);
}

/// A permit of a plain list, to anybody if it is open. Its set of objects is said by a number.
#[derive(Clone, Copy)]
struct Plain {
    giver: u64,
    taker: u64,
    set: u64,
    ops: Ops,
    open: bool,
}

impl Plain {
    /// Returns whether the two are the same.
    fn is_same(&self, other: &Plain) -> bool {
        (self.giver, self.taker, self.set) == (other.giver, other.taker, other.set)
            && self.ops == other.ops
            && self.open == other.open
    }

    /// Returns whether the permit has the object and the operation.
    fn covers(&self, x: u64, op: Op) -> bool {
        let has_object = match self.set {
            0 => true,
            1 => x == 1,
            2 => x == 2,
            _ => x < 3,
        };
        has_object && self.ops.has(op)
    }
}

/// Returns the set of objects that a number stands for.
fn set_of(number: u64) -> Result<ObSet, NoMemory> {
    let list = match number {
        0 => return Ok(ObSet::All),
        1 => ObList::of(&[Ob(1)]),
        2 => ObList::of(&[Ob(2)]),
        _ => ObList::of(&[Ob(1), Ob(2)]),
    };
    match list {
        Ok(list) => Ok(ObSet::Listed(list)),
        Err(_) => Err(NoMemory),
    }
}

/// Returns who allows whom to do the operation on the object, a bit for each pair.
fn shown_for(permits: &mut Permits, x: u64, op: Op) -> u64 {
    let mut bits: u64 = 0;
    for u in 0..NAMES {
        for t in 0..NAMES {
            bits = bits << 1 | u64::from(permits.allows(Txn(u), Txn(t), Ob(x), op));
        }
    }
    bits
}

/// Returns all that permits show of the transactions and objects in play.
fn shown(permits: &mut Permits) -> [u64; 9] {
    [
        shown_for(permits, 1, Op::Read),
        shown_for(permits, 2, Op::Read),
        shown_for(permits, OBJECTS, Op::Read),
        shown_for(permits, 1, Op::Write),
        shown_for(permits, 2, Op::Write),
        shown_for(permits, OBJECTS, Op::Write),
        shown_for(permits, 1, Op::Add),
        shown_for(permits, 2, Op::Add),
        shown_for(permits, OBJECTS, Op::Add),
    ]
}

/// Returns whom a transaction lets do the operation on the object by the list, a bit for each.
fn reached(list: &[Plain], from: u64, x: u64, op: Op) -> u64 {
    let mut met = 1 << (from % NAMES);
    for _ in 0..NAMES {
        for one in list {
            if one.covers(x, op) && met >> (one.giver % NAMES) & 1 == 1 {
                met |= if one.open {
                    EVERYBODY
                } else {
                    1 << (one.taker % NAMES)
                };
            }
        }
    }
    met
}

/// Returns who allows whom by the list, as `shown_for` returns it.
fn plain_for(list: &[Plain], x: u64, op: Op) -> u64 {
    let mut bits: u64 = 0;
    for u in 0..NAMES {
        let met = reached(list, u, x, op);
        for t in 0..NAMES {
            bits = bits << 1 | met >> t & 1;
        }
    }
    bits
}

/// Returns whether the permits show what the list shows.
fn agrees(permits: &mut Permits, list: &[Plain]) -> bool {
    shown(permits)
        == [
            plain_for(list, 1, Op::Read),
            plain_for(list, 2, Op::Read),
            plain_for(list, OBJECTS, Op::Read),
            plain_for(list, 1, Op::Write),
            plain_for(list, 2, Op::Write),
            plain_for(list, OBJECTS, Op::Write),
            plain_for(list, 1, Op::Add),
            plain_for(list, 2, Op::Add),
            plain_for(list, OBJECTS, Op::Add),
        ]
}

/// Adds a permit. If memory runs out, nothing that shows has changed, and the same call is made again.
fn add_plain(permits: &mut Permits, plain: &Plain) -> Result<(), NoMemory> {
    let (giver, taker) = (Txn(plain.giver), Txn(plain.taker));
    let (objects, ops) = (set_of(plain.set)?, plain.ops);
    let before = shown(permits);
    match add_set(permits, giver, taker, objects, ops, plain.open) {
        Err(NoMemory) if shown(permits) == before => {
            add_set(permits, giver, taker, objects, ops, plain.open)
        }
        added => added,
    }
}

/// Adds a permit for the taker, or for anybody if it is open; one on all objects is never open.
fn add_set(
    permits: &mut Permits,
    giver: Txn,
    taker: Txn,
    objects: ObSet,
    ops: Ops,
    open: bool,
) -> Result<(), NoMemory> {
    match objects {
        ObSet::Listed(list) if open => permits.add_any(giver, list, ops),
        _ => permits.add(giver, taker, objects, ops),
    }
}

/// Makes the call that a number stands for, on permits and the list. Some permits are open if `opens` says so.
fn call(
    permits: &mut Permits,
    list: &mut Vec<Plain>,
    number: u64,
    opens: bool,
) -> Result<(), Fail> {
    let giver = (number >> 40) % NAMES;
    if (number >> 50) % 10 == 0 {
        permits.drop_all(Txn(giver));
        list.retain(|one| one.giver != giver && one.taker != giver);
        return Ok(());
    }
    let set = (number >> 36) % 4;
    let open = opens && set > 0 && (number >> 20) % 8 == 0;
    let plain = Plain {
        giver,
        taker: if open { giver } else { (number >> 30) % NAMES },
        set,
        ops: ops_of(number >> 38),
        open,
    };
    add_plain(permits, &plain)?;
    if !list.iter().any(|one| one.is_same(&plain)) {
        list.push(plain)?;
    }
    Ok(())
}

/// Draws calls, and returns the first after which permits and list differ.
fn first_difference(
    permits: &mut Permits,
    list: &mut Vec<Plain>,
    calls: usize,
    opens: bool,
) -> Result<Option<usize>, Fail> {
    let mut number = 1;
    for i in 0..calls {
        number = next(number);
        call(permits, list, number, opens)?;
        if !agrees(permits, list) {
            return Ok(Some(i));
        }
    }
    Ok(None)
}

#[test]
fn permits_agree_with_a_plain_list(rt: HostRuntime) -> Result<(), Fail> {
    let mut permits = Permits::new(rt.alloc());
    let mut list = Vec::new(rt.alloc());
    let difference = first_difference(&mut permits, &mut list, CALLS, false);
    drop(permits);
    drop(list);
    assert_eq!(rt; difference?, None);
    Ok(())
}

#[test]
fn open_permits_agree_with_a_plain_list(rt: HostRuntime) -> Result<(), Fail> {
    let mut permits = Permits::new(rt.alloc());
    let mut list = Vec::new(rt.alloc());
    let difference = first_difference(&mut permits, &mut list, OPEN_CALLS, true);
    drop(permits);
    drop(list);
    assert_eq!(rt; difference?, None);
    Ok(())
}
