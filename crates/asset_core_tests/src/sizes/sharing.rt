//! Two hundred permits of one giver, and two hundred for one taker, and what they let read in a facility.

use asset_core::Core;
use asset_names::{Ob, Outcome, Reply, Step};
use asset_test_tools::{END, FIRST, ONE, Side, begin, initiate, pair, permit, read, write};
use std::test::Fail;

/// Room for all entries.
const ROOM: usize = 10_000;

/// A transaction that nobody permits anything.
const STRANGER: u64 = 8;

/// Returns an object for each of the two hundred, of its number and at 0.
fn objects() -> [(Ob, i64); 200] {
    let mut opening = [(Ob(0), 0); 200];
    for (i, pair) in opening.iter_mut().enumerate() {
        *pair = (Ob(FIRST + i as u64), 0);
    }
    opening
}

/// Returns whether the step gets this reply.
fn answers(core: &mut Core, step: Step, reply: Reply) -> bool {
    core.step(step) == Ok(Outcome::Answer(reply))
}

/// Starts a transaction. Returns whether it could.
fn start(core: &mut Core, t: u64) -> bool {
    answers(core, initiate(t), Reply::Done) && answers(core, begin(t), Reply::Done)
}

/// Lets the giver write an object, and the taker read it. Returns whether both could, and another has to wait.
fn share(core: &mut Core, giver: u64, taker: u64, x: u64) -> bool {
    let lent = permit(giver, taker, &[Ob(x)], (true, false));
    answers(core, write(giver, x, 50), Reply::Done)
        && core.step(read(taker, x)) == Ok(Outcome::Wait)
        && answers(core, lent, Reply::Done)
        && answers(core, read(taker, x), Reply::Value(50))
        && core.step(read(STRANGER, x)) == Ok(Outcome::Wait)
}

/// Shares an object with each of the others. Returns the first with which it goes wrong.
fn first_wrong(core: &mut Core, side: Side) -> Option<u64> {
    for t in FIRST..END {
        let (giver, taker) = pair(side, t);
        if !start(core, t) || !share(core, giver, taker, t) {
            return Some(t);
        }
    }
    None
}

/// Reads and writes each object again for its taker. Returns the first that it may not read, or may write.
fn first_wrong_again(core: &mut Core, side: Side) -> Option<u64> {
    for t in FIRST..END {
        let (_, taker) = pair(side, t);
        let reads = answers(core, read(taker, t), Reply::Value(50));
        if !reads || core.step(write(taker, t, 60)) != Ok(Outcome::Wait) {
            return Some(t);
        }
    }
    None
}

/// Returns the transactions with which it goes wrong first, at first and when all permits stand.
fn wrong_ones(core: &mut Core, side: Side) -> Option<[Option<u64>; 2]> {
    if start(core, ONE) && start(core, STRANGER) {
        Some([first_wrong(core, side), first_wrong_again(core, side)])
    } else {
        None
    }
}

#[test]
fn one_giver_permits_two_hundred(rt: HostRuntime) -> Result<(), Fail> {
    let mut core = Core::open(rt.alloc(), &objects(), ROOM)?;
    let wrong = wrong_ones(&mut core, Side::Giver);
    drop(core);
    assert_eq!(rt; wrong, Some([None; 2]));
    Ok(())
}

#[test]
fn two_hundred_permit_one_taker(rt: HostRuntime) -> Result<(), Fail> {
    let mut core = Core::open(rt.alloc(), &objects(), ROOM)?;
    let wrong = wrong_ones(&mut core, Side::Taker);
    drop(core);
    assert_eq!(rt; wrong, Some([None; 2]));
    Ok(())
}
