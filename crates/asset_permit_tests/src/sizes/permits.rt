//! Two hundred permits of one giver, two hundred for one taker, and a chain of two hundred.

use asset_names::{NoMemory, Ob, ObList, ObSet, Op, Ops, Txn};
use asset_permits::Permits;
use asset_test_tools::{END, FIRST, ONE, Side, pair};

/// One of them, in the middle.
const MIDDLE: u64 = 1_100;

/// Adds a permit to read and write one object.
fn add(permits: &mut Permits, giver: u64, taker: u64, x: u64) -> Result<(), NoMemory> {
    match ObList::of(&[Ob(x)]) {
        Ok(list) => {
            let ops = Ops::only(Op::Read).with(Op::Write);
            permits.add(Txn(giver), Txn(taker), ObSet::Listed(list), ops)
        }
        Err(_) => Err(NoMemory),
    }
}

/// Adds a permit for each of the others, on the object of the same number. Returns the first that is not added.
fn first_not_added(permits: &mut Permits, side: Side) -> Option<u64> {
    for t in FIRST..END {
        let (giver, taker) = pair(side, t);
        if add(permits, giver, taker, t) != Ok(()) {
            return Some(t);
        }
    }
    None
}

/// Returns the first of the others, but `dropped`, whose permit does not allow just what it says, or `dropped` if
/// its permit still does.
fn first_wrong(permits: &mut Permits, side: Side, dropped: u64) -> Option<u64> {
    for t in FIRST..END {
        let (giver, taker) = pair(side, t);
        let allowed = permits.allows(Txn(giver), Txn(taker), Ob(t), Op::Write);
        let elsewhere = permits.allows(Txn(giver), Txn(taker), Ob(t + 1), Op::Write);
        let back = permits.allows(Txn(taker), Txn(giver), Ob(t), Op::Read);
        if allowed == (t == dropped) || elsewhere || back {
            return Some(t);
        }
    }
    None
}

/// Returns the first of the others whose permit still allows something.
fn first_left(permits: &mut Permits, side: Side) -> Option<u64> {
    for t in FIRST..END {
        let (giver, taker) = pair(side, t);
        if permits.allows(Txn(giver), Txn(taker), Ob(t), Op::Read) {
            return Some(t);
        }
    }
    None
}

/// Returns the first transaction that is wrong after the permits were added, and then after one of the others and
/// 7 have ended.
fn wrong_ones(permits: &mut Permits, side: Side) -> [Option<u64>; 4] {
    let not_added = first_not_added(permits, side);
    let not_allowed = first_wrong(permits, side, END);
    permits.drop_all(Txn(MIDDLE));
    let after_one = first_wrong(permits, side, MIDDLE);
    permits.drop_all(Txn(ONE));
    [not_added, not_allowed, after_one, first_left(permits, side)]
}

#[test]
fn one_giver_permits_two_hundred(rt: HostRuntime) {
    let mut permits = Permits::new(rt.alloc());
    let wrong = wrong_ones(&mut permits, Side::Giver);
    drop(permits);
    assert_eq!(rt; wrong, [None; 4]);
}

#[test]
fn two_hundred_permit_one_taker(rt: HostRuntime) {
    let mut permits = Permits::new(rt.alloc());
    let wrong = wrong_ones(&mut permits, Side::Taker);
    drop(permits);
    assert_eq!(rt; wrong, [None; 4]);
}

/// Lets each of the others permit the next one to read and write object 1. Returns the first that cannot.
fn first_not_linked(permits: &mut Permits) -> Option<u64> {
    for t in FIRST..END {
        if add(permits, t, t + 1, 1) != Ok(()) {
            return Some(t);
        }
    }
    None
}

/// Returns whether the first of the chain allows the last to write object 1, and not the other way round.
fn chain_leads(permits: &mut Permits) -> bool {
    permits.allows(Txn(FIRST), Txn(END), Ob(1), Op::Write)
        && !permits.allows(Txn(END), Txn(FIRST), Ob(1), Op::Write)
        && !permits.allows(Txn(FIRST), Txn(END), Ob(2), Op::Write)
}

/// Returns whether the chain leads to its end, searched from its start, and from its end once its start gives more
/// permits than its end takes; and no longer once its middle has ended.
fn chain_leads_both_ways(permits: &mut Permits) -> bool {
    let forwards = chain_leads(permits);
    let more = add(permits, FIRST, ONE, 1) == Ok(());
    let backwards = chain_leads(permits);
    permits.drop_all(Txn(MIDDLE));
    forwards
        && more
        && backwards
        && !permits.allows(Txn(FIRST), Txn(END), Ob(1), Op::Write)
        && permits.allows(Txn(FIRST), Txn(MIDDLE - 1), Ob(1), Op::Write)
        && permits.allows(Txn(MIDDLE + 1), Txn(END), Ob(1), Op::Write)
}

#[test]
fn chain_of_two_hundred_is_searched(rt: HostRuntime) {
    let mut permits = Permits::new(rt.alloc());
    let not_linked = first_not_linked(&mut permits);
    let leads = chain_leads_both_ways(&mut permits);
    drop(permits);
    assert_eq!(rt; not_linked, None);
    assert!(rt; leads);
}
