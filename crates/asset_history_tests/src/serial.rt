//! Histories of those who committed, one after another, on worked values and on drawn steps.
ghost use Rattle.std.specs.Prelude.{◌↔◌, IfOk, IsTrue};
ghost use Rattle.asset_laws.specs.Serial.{CommittedShareNothing};

use crate::histories::{first_other_answer, left_by, played};
use asset_core::Core;
use asset_core_tests::{ask, opened};
use asset_history::History;
use asset_names::{NoMemory, Ob, Reply, Step, Txn};
use asset_serial::{committed_share_nothing, serial};
use asset_test_tools::{abort, add, begin, commit, complete, initiate, next, read, write};
use std::alloc::Global;
use std::test::Fail;

/// How many transactions there are among drawn steps, how many steps are drawn, and room for all of them.
const NAMES: u64 = 30;

const DRAWN: usize = 700;

const DRAWN_ROOM: usize = 900;

/// Returns whether those who committed shared nothing. If memory runs out once, it is asked again.
fn share_nothing(alloc: Global, history: &History) -> Result<bool, NoMemory>
    ensures { IfOk result (λ nothing. IsTrue nothing ↔ CommittedShareNothing history.now.entries) }
{
    match committed_share_nothing(alloc, history) {
        Ok(nothing) => Ok(nothing),
        Err(NoMemory) => committed_share_nothing(alloc, history),
    }
}

/// Returns the serial history. If memory runs out once, it is made again.
fn made_serial(alloc: Global, history: &History) -> Result<History, NoMemory>
    requires { CommittedShareNothing history.now.entries }
{
    match serial(alloc, history) {
        Ok(left) => Ok(left),
        Err(NoMemory) => serial(alloc, history),
    }
}

/// Returns the serial history, if those who committed shared nothing.
fn serial_of(alloc: Global, history: &History) -> Result<Option<History>, NoMemory> {
    if share_nothing(alloc, history)? {
        Ok(Some(made_serial(alloc, history)?))
    } else {
        Ok(None)
    }
}

/// Returns the transaction that commits at the index, if the entry is an answered commit.
fn committed_at(history: &History, index: usize) -> Option<Txn> {
    match history.entry(index) {
        Some((Step::Commit { t }, Reply::Committed)) => Some(t),
        _ => None,
    }
}

/// Returns the transaction that commits at the index for the first time.
fn first_committed_at(history: &History, index: usize) -> Option<Txn> {
    let found = committed_at(history, index);
    for i in 0..index {
        if committed_at(history, i) == found {
            return None;
        }
    }
    found
}

/// Returns the value of an object after the entry at the index, of which only a write or an add of the transaction counts.
fn value_after(history: &History, index: usize, writer: Txn, object: Ob, before: i64) -> i64 {
    match history.entry(index) {
        Some((Step::Write { t, x, v }, Reply::Done)) if t == writer && x == object => v,
        Some((Step::Add { t, x, d }, Reply::Done)) if t == writer && x == object => {
            before.wrapping_add(d)
        }
        _ => before,
    }
}

/// Returns the value that the transaction alone leaves in the object.
fn left_alone(history: &History, writer: Txn, object: Ob, before: i64) -> i64 {
    let mut value = before;
    for i in 0..history.len() {
        value = value_after(history, i, writer, object, value);
    }
    value
}

/// Returns the value of an object that those who committed left, in the order of their commits.
fn committed_value(history: &History, object: Ob, opening: i64) -> i64 {
    let mut value = opening;
    for i in 0..history.len() {
        value = match first_committed_at(history, i) {
            Some(t) => left_alone(history, t, object, value),
            None => value,
        };
    }
    value
}

/// Returns the first object of three whose value is not the one that those who committed left.
fn first_other_value(core: &Core, history: &History) -> Option<Ob> {
    for (x, opening) in [(1, 100), (2, 200), (3, 300)] {
        if core.value(Ob(x)) != Some(committed_value(history, Ob(x), opening)) {
            return Some(Ob(x));
        }
    }
    None
}

/// Where a serial history and its run differ from what they should be: how many entries it has and whether it has the room
/// of the history, the first of them that a fresh facility answers otherwise, and the first object with another value then.
type Serial = (usize, bool, Option<usize>, Option<Ob>);

/// Returns where the serial history differs.
fn run_alone(alloc: Global, history: &History, left: &History) -> Result<Serial, Fail> {
    let mut core = opened(alloc, left.opening(), left.room())?;
    let other = first_other_answer(&mut core, left);
    let value = first_other_value(&core, history);
    drop(core);
    Ok((left.len(), left.room() == history.room(), other, value))
}

/// Makes the serial history, and returns where it differs, or `None` if those who committed shared something.
fn run_serially(alloc: Global, history: &History) -> Result<Option<Serial>, Fail> {
    match serial_of(alloc, history)? {
        Some(left) => {
            let run = run_alone(alloc, history, &left);
            drop(left);
            Ok(Some(run?))
        }
        None => Ok(None),
    }
}

/// Plays a script, and returns the first line that has another outcome, and where its serial history differs.
fn played_serially(alloc: Global, script: &str) -> Result<(Option<usize>, Option<Serial>), Fail> {
    let (history, wrong) = left_by(alloc, script)?;
    let run = run_serially(alloc, &history);
    drop(history);
    Ok((wrong, run?))
}

/// Two transactions take turns. 8 commits first, and is then asked to commit and to begin again; 7 writes over what 8 left.
const TURNS: &str = "\
    initiate 7: ok\nbegin 7: ok\ninitiate 8: ok\nbegin 8: ok\nwrite 7 2 70: ok\n\
    write 8 1 80: ok\nbegin 8: refused begun 8\ncomplete 8: ok\ncommit 8: committed\n\
    write 7 1 71: ok\ncommit 8: committed\ncomplete 7: ok\ncommit 7: committed\n\
    begin 8: refused ended 8\n";

#[test]
fn transactions_that_take_turns_run_one_after_another(rt: HostRuntime) -> Result<(), Fail> {
    let run = played_serially(rt.alloc(), TURNS)?;
    assert_eq!(rt; run, (None, Some((14, true, None, None))));
    Ok(())
}

/// Transactions of which none commits.
const NOBODY: &str = "\
    initiate 7: ok\nbegin 7: ok\nwrite 7 2 70: ok\ninitiate 8: ok\npermit 7 8 rw all: ok\n\
    abort 7: aborted\n";

#[test]
fn nothing_is_left_if_nobody_commits(rt: HostRuntime) -> Result<(), Fail> {
    let run = played_serially(rt.alloc(), NOBODY)?;
    assert_eq!(rt; run, (None, Some((0, true, None, None))));
    Ok(())
}

/// A transaction commits, and is refused a permit for an unknown one.
const REFUSED_PERMIT: &str = "\
    initiate 7: ok\nbegin 7: ok\npermit 7 8 r all: refused unknown 8\ncomplete 7: ok\n\
    commit 7: committed\n";

#[test]
fn refused_permit_is_sharing(rt: HostRuntime) -> Result<(), Fail> {
    let run = played_serially(rt.alloc(), REFUSED_PERMIT)?;
    assert_eq!(rt; run, (None, None));
    Ok(())
}

/// Returns the step of one transaction that a number stands for.
fn drawn(number: u64) -> Step {
    let t = (number >> 40) % NAMES;
    let x = 1 + (number >> 20) % 3;
    match (number >> 50) % 15 {
        0 => initiate(t),
        1 => begin(t),
        2 | 3 => read(t, x),
        4 | 5 | 6 => write(t, x, (number >> 44) as i64),
        11 | 12 | 13 => add(t, x, (number >> 44) as i64),
        7 | 8 => complete(t),
        9 | 10 => commit(t),
        _ => abort(t),
    }
}

/// Plays drawn steps of transactions that share nothing. Some wait, and many are refused. Returns the first number that met
/// a fault.
fn steps_are_drawn(core: &mut Core) -> Option<u64> {
    for t in 0..NAMES {
        if ask(core, &initiate(t)).is_err() || ask(core, &begin(t)).is_err() {
            return Some(t);
        }
    }
    let mut number = 11;
    for _ in 0..DRAWN {
        number = next(number);
        if ask(core, &drawn(number)).is_err() {
            return Some(number);
        }
    }
    None
}

/// Some of the entries are in the serial history, and not all.
#[test]
fn drawn_transactions_run_one_after_another(rt: HostRuntime) -> Result<(), Fail> {
    let (history, fault) = played(rt.alloc(), DRAWN_ROOM, steps_are_drawn)?;
    let run = run_serially(rt.alloc(), &history);
    let entries = history.len();
    drop(history);
    let (len, room, other, value) = run?.ok_or("shared")?;
    assert_eq!(rt; fault, None);
    assert_eq!(rt; (room, other, value), (true, None, None));
    assert!(rt; 0 < len && len < entries);
    Ok(())
}
