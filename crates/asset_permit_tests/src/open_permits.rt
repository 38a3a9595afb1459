//! Permits to anybody, on worked values, and what is left if memory runs out.

use asset_names::{NoMemory, Ob, ObList, ObSet, Op, Ops, Txn};
use asset_permits::Permits;

/// Returns who of 6 to 9 allows whom to read and to write an object, a bit for each pair and operation.
fn shown_for(permits: &mut Permits, x: u64) -> u64 {
    let mut bits: u64 = 0;
    for u in 6..10 {
        for t in 6..10 {
            bits = bits << 1 | u64::from(permits.allows(Txn(u), Txn(t), Ob(x), Op::Read));
            bits = bits << 1 | u64::from(permits.allows(Txn(u), Txn(t), Ob(x), Op::Write));
        }
    }
    bits
}

/// Returns all that permits show of 6 to 9 and of objects 1 and 2.
fn shown(permits: &mut Permits) -> [u64; 2] {
    [shown_for(permits, 1), shown_for(permits, 2)]
}

/// Lets anybody read the objects, and returns whether it could. If memory runs out, nothing has changed and the same call is
/// made again.
fn open(permits: &mut Permits, giver: u64, objects: &[Ob]) -> bool {
    let Ok(list) = ObList::of(objects) else {
        return false;
    };
    let before = shown(permits);
    match permits.add_any(Txn(giver), list, Ops::only(Op::Read)) {
        Ok(()) => true,
        Err(NoMemory) => {
            shown(permits) == before
                && permits.add_any(Txn(giver), list, Ops::only(Op::Read)) == Ok(())
        }
    }
}

/// Lets the taker do the operations on all objects, and returns whether it could, as `open` does.
fn add(permits: &mut Permits, giver: u64, taker: u64, ops: Ops) -> bool {
    let before = shown(permits);
    match permits.add(Txn(giver), Txn(taker), ObSet::All, ops) {
        Ok(()) => true,
        Err(NoMemory) => {
            shown(permits) == before
                && permits.add(Txn(giver), Txn(taker), ObSet::All, ops) == Ok(())
        }
    }
}

/// Copies permits of 7 for 8, and returns whether it could, as `open` does.
fn copy(permits: &mut Permits, moved: &[Ob]) -> bool {
    let before = shown(permits);
    match permits.copy_for(Txn(7), Txn(8), moved) {
        Ok(()) => true,
        Err(NoMemory) => {
            shown(permits) == before && permits.copy_for(Txn(7), Txn(8), moved) == Ok(())
        }
    }
}

/// Returns whether a transaction allows another to read an object.
fn reads(permits: &mut Permits, u: u64, t: u64, x: u64) -> bool {
    permits.allows(Txn(u), Txn(t), Ob(x), Op::Read)
}

/// Returns whether a transaction allows another to write an object.
fn writes(permits: &mut Permits, u: u64, t: u64, x: u64) -> bool {
    permits.allows(Txn(u), Txn(t), Ob(x), Op::Write)
}

/// Returns whether 7 lets strangers read object 1, and nothing else, and nobody once it has ended.
fn strangers_read(permits: &mut Permits) -> bool {
    let opened = open(permits, 7, &[Ob(1)])
        && reads(permits, 7, 8, 1)
        && reads(permits, 7, 9, 1)
        && !writes(permits, 7, 8, 1)
        && !reads(permits, 7, 8, 2)
        && !reads(permits, 8, 7, 1)
        && !reads(permits, 8, 9, 1)
        && writes(permits, 7, 7, 1);
    permits.drop_all(Txn(7));
    opened && !reads(permits, 7, 8, 1) && !reads(permits, 7, 9, 1)
}

#[test]
fn stranger_is_let_by_an_open_permit(rt: HostRuntime) {
    let mut permits = Permits::new(rt.alloc());
    let read = strangers_read(&mut permits);
    drop(permits);
    assert!(rt; read);
}

/// Returns whether a chain of permits to an opener lets a stranger do what each of them has.
fn chain_to_opener(permits: &mut Permits) -> bool {
    let both = Ops::only(Op::Read).with(Op::Write);
    let opened = add(permits, 6, 8, both) && add(permits, 8, 7, both) && open(permits, 7, &[Ob(1)]);
    let allowed = reads(permits, 6, 9, 1)
        && !writes(permits, 6, 9, 1)
        && !reads(permits, 6, 9, 2)
        && writes(permits, 6, 7, 2)
        && !reads(permits, 9, 6, 1);
    permits.drop_all(Txn(8));
    opened && allowed && !reads(permits, 6, 9, 1) && reads(permits, 7, 9, 1)
}

#[test]
fn chain_leads_to_an_opener(rt: HostRuntime) {
    let mut permits = Permits::new(rt.alloc());
    let led = chain_to_opener(&mut permits);
    drop(permits);
    assert!(rt; led);
}

/// Returns whether 8 lets anybody read object 2, which moved to it, and no other, when 7 lets anybody read both.
fn copied_on_one(permits: &mut Permits) -> bool {
    open(permits, 7, &[Ob(1), Ob(2)])
        && copy(permits, &[Ob(2), Ob(3)])
        && reads(permits, 8, 9, 2)
        && reads(permits, 8, 7, 2)
        && !writes(permits, 8, 9, 2)
        && !reads(permits, 8, 9, 1)
        && !reads(permits, 8, 9, 3)
        && reads(permits, 7, 9, 1)
        && reads(permits, 7, 8, 2)
}

/// Returns whether the copy stays when 7 ends, and goes when 8 ends.
fn copy_is_the_receivers(permits: &mut Permits) -> bool {
    permits.drop_all(Txn(7));
    let stays = reads(permits, 8, 9, 2) && !reads(permits, 7, 9, 2) && !reads(permits, 7, 9, 1);
    permits.drop_all(Txn(8));
    stays && !reads(permits, 8, 9, 2) && open(permits, 9, &[Ob(1)]) && reads(permits, 9, 6, 1)
}

#[test]
fn open_permit_is_copied_for_one_object(rt: HostRuntime) {
    let mut permits = Permits::new(rt.alloc());
    let copied = copied_on_one(&mut permits) && copy_is_the_receivers(&mut permits);
    drop(permits);
    assert!(rt; copied);
}

/// Returns whether a permit of 7 to itself, which a copy makes, lets no stranger do anything.
fn own_permit_is_closed(permits: &mut Permits) -> bool {
    add(permits, 7, 8, Ops::only(Op::Read))
        && copy(permits, &[Ob(1)])
        && !reads(permits, 8, 9, 1)
        && !reads(permits, 7, 9, 1)
        && reads(permits, 7, 8, 1)
}

#[test]
fn permit_to_oneself_is_not_open(rt: HostRuntime) {
    let mut permits = Permits::new(rt.alloc());
    let closed = own_permit_is_closed(&mut permits);
    drop(permits);
    assert!(rt; closed);
}
