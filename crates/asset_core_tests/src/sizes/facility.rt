//! Large histories, with each answer known beforehand.

use asset_core::{Core, History};
use asset_names::{Fault, Ob, Outcome, Reply, Status, Step, Txn};
use asset_test_tools::{begin, commit, complete, initiate, read, write};
use std::test::Fail;

/// How many transactions live at once.
const LIVE: u64 = 5_000;

/// Room for four entries of each of them, and no more.
const FOUR_EACH: usize = 20_000;

/// How often 7 and 8 each write a value and read it back.
const ROUNDS: u32 = 26_000;

/// How many entries come before the rounds.
const STARTS: usize = 4;

/// How many entries stand in the end: four of each round, and four before and after all rounds.
const ENTRIES: usize = 104_008;

/// Two objects.
const TWO: [(Ob, i64); 2] = [(Ob(1), 100), (Ob(2), 200)];

/// Returns whether the step gets this reply.
fn answers(core: &mut Core, step: Step, reply: Reply) -> bool {
    core.step(step) == Ok(Outcome::Answer(reply))
}

/// Asks a step of each transaction. Returns the first that gets another reply, or shows another status after it.
fn first_wrong<F: Fn(u64) -> Step>(
    core: &mut Core,
    step: F,
    reply: Reply,
    status: Status,
) -> Option<u64>
    requires { F.IsAlwaysCallable step }
{
    for t in 0..LIVE {
        if !answers(core, step(t), reply) || core.status(Txn(t)) != status {
            return Some(t);
        }
    }
    None
}

/// Returns the first transaction that goes wrong at each stage of its life.
fn wrong_ones(core: &mut Core) -> [Option<u64>; 4] {
    [
        first_wrong(core, initiate, Reply::Done, Status::Initiated),
        first_wrong(core, begin, Reply::Done, Status::Running),
        first_wrong(core, complete, Reply::Done, Status::Completed),
        first_wrong(core, commit, Reply::Committed, Status::Committed),
    ]
}

#[test]
fn five_thousand_transactions_live(rt: HostRuntime) -> Result<(), Fail> {
    let mut core = Core::open(rt.alloc(), &TWO, FOUR_EACH)?;
    let wrong = wrong_ones(&mut core);
    let last = core.step(begin(LIVE));
    drop(core);
    assert_eq!(rt; wrong, [None; 4]);
    assert_eq!(rt; last, Err(Fault::Full));
    Ok(())
}

/// Returns the four steps of a round with their replies: 7 writes `n` to object 1 and 8 writes its negative to
/// object 2, and each reads it back.
fn round(n: u32) -> [(Step, Reply); 4] {
    let v = i64::from(n);
    [
        (write(7, 1, v), Reply::Done),
        (write(8, 2, -v), Reply::Done),
        (read(7, 1), Reply::Value(v)),
        (read(8, 2), Reply::Value(-v)),
    ]
}

/// Asks the steps. Returns whether each gets its reply.
fn plays(core: &mut Core, script: &[(Step, Reply)]) -> bool {
    let mut alike = true;
    for (step, reply) in script {
        alike = answers(core, *step, *reply) && alike;
    }
    alike
}

/// Starts 7 and 8. Returns whether both could.
fn start_both(core: &mut Core) -> bool {
    answers(core, initiate(7), Reply::Done)
        && answers(core, initiate(8), Reply::Done)
        && answers(core, begin(7), Reply::Done)
        && answers(core, begin(8), Reply::Done)
}

/// Plays the rounds. Returns the first in which a step gets another reply.
fn first_wrong_round(core: &mut Core) -> Option<u32> {
    for n in 0..ROUNDS {
        if !plays(core, &round(n)) {
            return Some(n);
        }
    }
    None
}

/// Commits 7 and 8. Returns whether both could.
fn commit_both(core: &mut Core) -> bool {
    answers(core, complete(7), Reply::Done)
        && answers(core, complete(8), Reply::Done)
        && answers(core, commit(7), Reply::Committed)
        && answers(core, commit(8), Reply::Committed)
}

/// Returns whether the entries of a round stand in the history.
fn stands(history: &History, n: u32) -> bool {
    let mut alike = true;
    for (i, entry) in round(n).iter().enumerate() {
        let index = (STARTS + 4 * n as usize).saturating_add(i);
        alike = alike && history.entry(index) == Some(*entry);
    }
    alike
}

/// Returns the first round that does not stand in the history.
fn first_lost_round(history: &History) -> Option<u32> {
    for n in 0..ROUNDS {
        if !stands(history, n) {
            return Some(n);
        }
    }
    None
}

#[test]
fn hundred_thousand_entries_stand(rt: HostRuntime) -> Result<(), Fail> {
    let mut core = Core::open(rt.alloc(), &TWO, ENTRIES)?;
    let started = start_both(&mut core);
    let wrong = first_wrong_round(&mut core);
    let committed = commit_both(&mut core);
    let lost = first_lost_round(core.history());
    let values = (core.value(Ob(1)), core.value(Ob(2)));
    let len = core.history().len();
    drop(core);
    assert!(rt; started && committed);
    assert_eq!(rt; (wrong, lost), (None, None));
    assert_eq!(rt; values, (Some(25_999), Some(-25_999)));
    assert_eq!(rt; len, ENTRIES);
    Ok(())
}
