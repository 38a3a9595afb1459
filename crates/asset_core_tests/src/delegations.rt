//! The facility and the reference agree on delegations, with permits to chains before and after them, and on a script of
//! several hundred steps.

ghost use Rattle.std.specs.Prelude.{◌<◌};

use crate::opening::ROOM;
use crate::reference::first_difference;
use asset_names::{Ob, Ops, Step};
use asset_test_tools::{
    abort, add, begin, commit, complete, delegate, initiate, next, ops_of, permit, permit_any,
    permit_ops, read, wait, write,
};
use std::alloc::Global;
use std::test::Fail;

/// How many scripts are generated, and how many steps each has after its first ten.
const SCRIPTS: u64 = 1_000;

const STEPS: usize = 20;

/// How many rounds the long script has.
const ROUNDS: u64 = 12;

/// A seed of the long script by which copied permits decide several answers.
const COPYING: u64 = 1_884;

/// Room for more entries than the long script has.
const LONG_ROOM: usize = 1_000;

/// Five transactions begin.
pub(crate) const FIVE: &str = "\
    initiate 5\nbegin 5\ninitiate 6\nbegin 6\ninitiate 7\nbegin 7\ninitiate 8\nbegin 8\n\
    initiate 9\nbegin 9\n";

/// After five have begun, 7, which permits 8, which permits 9, hands an object to 6, which permits 5.
const CHAIN_MOVES: &str = "\
    initiate 5\nbegin 5\ninitiate 6\nbegin 6\ninitiate 7\nbegin 7\ninitiate 8\nbegin 8\n\
    initiate 9\nbegin 9\n\
    permit 7 8 rw 1,2\npermit 8 9 r all\nwrite 7 1 11\nwrite 7 2 22\ndelegate 7 6 1\n\
    permit 6 5 rw 1\npermit 7 5 r 2,1\nread 9 1\nread 9 2\nread 5 1\nread 7 1\nabort 7\n\
    read 9 1\nread 9 2\n";

/// After five have begun, a write goes from 7 to 8, back to 7 and on to 9, and comes to an end there.
const WRITE_GOES_ROUND: &str = "\
    initiate 5\nbegin 5\ninitiate 6\nbegin 6\ninitiate 7\nbegin 7\ninitiate 8\nbegin 8\n\
    initiate 9\nbegin 9\n\
    write 7 1 11\ndelegate 7 8 1,3\nwrite 7 1 12\npermit 8 7 w 1\nwrite 7 1 13\n\
    delegate 8 7 all\nabort 8\nread 9 1\npermit 7 6 rw all\ndelegate 7 9 1\nread 6 1\n\
    complete 7\ncommit 7\nabort 9\nread 6 1\n";

/// After five have begun, copies of permits come to lead back to who gives them, and are copied on.
const PERMITS_COME_BACK: &str = "\
    initiate 5\nbegin 5\ninitiate 6\nbegin 6\ninitiate 7\nbegin 7\ninitiate 8\nbegin 8\n\
    initiate 9\nbegin 9\n\
    write 5 1 11\npermit 5 6 rw 1\npermit 5 7 r all\ndelegate 5 6 all\ndelegate 6 8 1\n\
    read 6 1\nread 7 1\nread 5 1\nabort 5\ndelegate 8 9 all\nwrite 6 1 5\nread 7 1\n";

#[test]
fn facility_agrees_on_delegations(rt: HostRuntime) -> Result<(), Fail> {
    for script in [CHAIN_MOVES, WRITE_GOES_ROUND, PERMITS_COME_BACK] {
        let difference = first_difference(rt.alloc(), script, &[], ROOM)?;
        assert_eq!(rt; difference, None, "in {script:?}");
    }
    Ok(())
}

/// Returns the step of transactions that share that a number stands for: operations, permits, delegations and ends of
/// `count` transactions from `first` on, on the objects from 1 to `objects`.
fn shared(number: u64, first: u64, count: u64, objects: u64) -> Step
    requires transactions { 0 < count }
    requires objects { 0 < objects }
{
    let t = first.saturating_add((number >> 40) % count);
    let taker = first.saturating_add((number >> 30) % count);
    let x = ((number >> 20) % objects).saturating_add(1);
    let y = ((number >> 10) % objects).saturating_add(1);
    let ops = (number % 3 != 0, number % 3 != 1);
    let with_add = Ops::with_add(number % 2 == 0, number % 3 == 0);
    match (number >> 50) % 43 {
        0..=7 => read(t, x),
        8..=15 => write(t, x, (number % 1000) as i64),
        16..=20 => permit(t, taker, &[Ob(x)], ops),
        21 => permit(t, taker, &[], ops),
        22..=26 => delegate(t, taker, &[Ob(x)]),
        27 => delegate(t, taker, &[Ob(x), Ob(y)]),
        28 => delegate(t, taker, &[]),
        29 => complete(t),
        30 => commit(t),
        31 => abort(t),
        32..=36 => add(t, x, (number % 1000) as i64 - 500),
        40 => permit_any(t, &[Ob(x), Ob(y)], with_add),
        41 | 42 => permit_any(t, &[Ob(x)], ops_of(number)),
        _ => permit_ops(t, taker, &[Ob(x)], with_add),
    }
}

/// Draws the steps of a script from a seed on, and leaves the seed of the next script.
fn generated(seed: &mut u64) -> [Step; STEPS] {
    let mut steps = [begin(5); STEPS];
    for step in steps.iter_mut() {
        *seed = next(*seed);
        *step = shared(*seed, 5, 5, 2);
    }
    steps
}

#[test]
fn facility_agrees_on_generated_delegations(rt: HostRuntime) -> Result<(), Fail> {
    let mut seed = 7;
    for script in 0..SCRIPTS {
        let steps = generated(&mut seed);
        let difference = first_difference(rt.alloc(), FIVE, &steps, ROOM)?;
        assert_eq!(rt; difference, None, "script {script}");
    }
    Ok(())
}

/// Returns the steps that initiate and begin three transactions.
fn begun([one, two, three]: [u64; 3]) -> [Step; 6] {
    [
        initiate(one),
        begin(one),
        initiate(two),
        begin(two),
        initiate(three),
        begin(three),
    ]
}

/// Draws the work of the three transactions from the first on.
fn worked(first: u64, seed: &mut u64) -> [Step; 20] {
    let mut steps = [begin(first); 20];
    for step in steps.iter_mut() {
        *seed = next(*seed);
        *step = shared(*seed, first, 3, 2);
    }
    steps
}

/// Returns the end of a transaction, which the seed chooses.
fn ending(t: u64, seed: u64) -> Step {
    if seed >> 40 & 1 == t & 1 {
        abort(t)
    } else {
        commit(t)
    }
}

/// Returns the steps that complete and end three transactions, and ask whether they have ended.
fn ended([one, two, three]: [u64; 3], seed: u64) -> [Step; 9] {
    [
        complete(one),
        complete(two),
        complete(three),
        ending(one, seed),
        ending(two, seed),
        ending(three, seed),
        wait(one),
        wait(two),
        wait(three),
    ]
}

/// Appends the steps of a round of the long script: three transactions begin, work and share, and end.
fn push_round(steps: &mut Vec<Step>, first: u64, seed: &mut u64) -> Result<(), Fail> {
    let three = [first, first.saturating_add(1), first.saturating_add(2)];
    steps.extend_from_slice(&begun(three))?;
    steps.extend_from_slice(&worked(first, seed))?;
    steps.extend_from_slice(&ended(three, *seed))?;
    Ok(())
}

/// Returns the steps of all rounds. Each has transactions of its own.
fn all_rounds(alloc: Global) -> Result<Vec<Step>, Fail> {
    let mut steps = Vec::new(alloc);
    let mut seed = COPYING;
    for round in 0..ROUNDS {
        push_round(&mut steps, round.saturating_mul(10), &mut seed)?;
    }
    Ok(steps)
}

#[test]
fn facility_agrees_on_a_long_script(rt: HostRuntime) -> Result<(), Fail> {
    let steps = all_rounds(rt.alloc())?;
    let difference = first_difference(rt.alloc(), "", &steps, LONG_ROOM);
    let count = steps.len();
    drop(steps);
    assert_eq!(rt; difference?, None);
    assert!(rt; count > 400);
    Ok(())
}
