//! Drawn models beside another client of the same facility, each end compared with statuses and values. An end by `NoMemory`
//! comes only if an allocation is made to fail: the test counts the entries, so that not all models end so.

use crate::asserts::same;
use crate::parts::part;
use asset_core::Core;
use asset_core_tests::{THREE, opened};
use asset_models::{
    Act, ModelEnd, Part, atomic, contingent, cooperating, distributed, nested, saga,
};
use asset_names::{Fault, Ob, Status, Txn};
use asset_test_tools::{abort, add, begin, commit, complete, initiate, listed, next, read, write};
use std::alloc::Global;
use std::test::Fail;

/// How many models are drawn.
const ROUNDS: u64 = 600;

/// Room for all entries of a run.
const MUCH_ROOM: usize = 100_000;

/// Returns the act that a number stands for. Object 4 does not exist.
fn drawn_act(number: u64) -> Act {
    let x = Ob(1 + (number >> 20) % 4);
    match (number >> 40) % 10 {
        0 => Act::GiveUp,
        1 | 2 | 3 => Act::Read(x),
        4 | 5 => Act::Add(x, (number % 1_000) as i64 - 500),
        _ => Act::Write(x, (number % 1_000) as i64),
    }
}

/// Returns a part with two acts that a number stands for.
pub(crate) fn drawn_part(alloc: Global, t: u64, number: u64) -> Part {
    let second = next(number);
    part(alloc, t, &[drawn_act(number), drawn_act(second)])
}

/// Returns the values of the three objects.
pub(crate) fn values(core: &Core) -> [Option<i64>; 3] {
    [core.value(Ob(1)), core.value(Ob(2)), core.value(Ob(3))]
}

/// Lets another client's transaction read, write or add to an object, and commit or go on.
pub(crate) fn other_acts(core: &mut Core, t: u64, number: u64) {
    let x = 1 + (number >> 24) % 3;
    let _initiated = core.step(initiate(t));
    let _begun = core.step(begin(t));
    let _asked = match (number >> 32) % 3 {
        0 => core.step(read(t, x)),
        1 => core.step(add(t, x, (number % 500) as i64)),
        _ => core.step(write(t, x, (number % 500) as i64)),
    };
    if (number >> 36) % 2 == 0 {
        let _completed = core.step(complete(t));
        let _committed = core.step(commit(t));
    }
}

/// Returns the value that the acts leave in an object, over the value before.
fn left_by(acts: &[Act], x: Ob, before: Option<i64>) -> Option<i64> {
    let mut value = before;
    for act in acts {
        value = match *act {
            Act::Write(y, v) if y == x => Some(v),
            Act::Add(y, d) if y == x => value.map(|v| v.wrapping_add(d)),
            _ => value,
        };
    }
    value
}

/// Returns whether one transaction ended as `atomic` answered: its writes and adds stand if it committed, nothing has changed if it
/// aborted, and it runs if it stopped.
fn atomic_is_told(alloc: Global, core: &mut Core, t: u64, number: u64) -> bool {
    let only = drawn_part(alloc, t, number);
    let before = values(core);
    let end = atomic(core, &only, 1);
    let status = core.status(Txn(t));
    match end {
        Ok(ModelEnd::Committed) => {
            let left = [
                left_by(&only.acts, Ob(1), before[0]),
                left_by(&only.acts, Ob(2), before[1]),
                left_by(&only.acts, Ob(3), before[2]),
            ];
            status == Status::Committed && values(core) == left
        }
        Ok(ModelEnd::Aborted) => status == Status::Aborted && values(core) == before,
        Ok(ModelEnd::Stopped(_)) => status == Status::Running,
        Err(Fault::NoMemory) => true,
        _ => false,
    }
}

/// Returns whether two alternatives ended as `contingent` answered.
fn contingent_is_told(alloc: Global, core: &mut Core, t: u64, number: u64) -> bool {
    let second = t.wrapping_add(1);
    let parts = [
        drawn_part(alloc, t, number),
        drawn_part(alloc, second, next(next(number))),
    ];
    let before = values(core);
    let end = contingent(core, &parts, 1);
    let statuses = (core.status(Txn(t)), core.status(Txn(second)));
    match end {
        Ok(ModelEnd::Committed) => {
            statuses == (Status::Committed, Status::Unknown)
                || statuses == (Status::Aborted, Status::Committed)
        }
        Ok(ModelEnd::Aborted) => {
            statuses == (Status::Aborted, Status::Aborted) && values(core) == before
        }
        Ok(ModelEnd::Stopped(_)) => {
            statuses == (Status::Running, Status::Unknown)
                || statuses == (Status::Aborted, Status::Running)
        }
        Err(Fault::NoMemory) => true,
        _ => false,
    }
}

/// Returns whether two parts ended in one way, as `distributed` or `cooperating` answered.
fn both_are_told(alloc: Global, core: &mut Core, t: u64, number: u64, shares: bool) -> bool {
    let second = t.wrapping_add(1);
    let parts = [
        drawn_part(alloc, t, number),
        drawn_part(alloc, second, next(next(number))),
    ];
    let before = values(core);
    let end = if shares {
        cooperating(core, &parts[0], &parts[1], listed(&[]), 1)
    } else {
        distributed(core, &parts, 1)
    };
    let statuses = (core.status(Txn(t)), core.status(Txn(second)));
    match end {
        Ok(ModelEnd::Committed) => statuses == (Status::Committed, Status::Committed),
        Ok(ModelEnd::Aborted) => {
            statuses == (Status::Aborted, Status::Aborted) && values(core) == before
        }
        Ok(ModelEnd::Stopped(_)) => statuses == (Status::Running, Status::Running),
        Err(Fault::NoMemory) => true,
        _ => false,
    }
}

/// Returns whether a parent and its child ended as `nested` answered. A child that fails does not stop its parent.
fn nested_is_told(alloc: Global, core: &mut Core, t: u64, number: u64) -> bool {
    let second = t.wrapping_add(1);
    let parent = drawn_part(alloc, t, number);
    let child = drawn_part(alloc, second, next(next(number)));
    let before = values(core);
    let end = nested(core, &parent, &[child], 1);
    let statuses = (core.status(Txn(t)), core.status(Txn(second)));
    match end {
        Ok(ModelEnd::Committed) => {
            statuses == (Status::Committed, Status::Committed)
                || statuses == (Status::Committed, Status::Aborted)
        }
        Ok(ModelEnd::Aborted) => {
            statuses == (Status::Aborted, Status::Unknown) && values(core) == before
        }
        Ok(ModelEnd::Stopped(_)) => statuses.0 == Status::Running,
        Err(Fault::NoMemory) => true,
        _ => false,
    }
}

/// Returns whether the transactions of two pairs ended as `saga` answered. The second parts have no acts.
fn saga_is_told(alloc: Global, core: &mut Core, t: u64, number: u64) -> bool {
    let second = t.wrapping_add(1);
    let undo = t.wrapping_add(2);
    let pairs = [
        (drawn_part(alloc, t, number), part(alloc, undo, &[])),
        (
            drawn_part(alloc, second, next(next(number))),
            part(alloc, t.wrapping_add(3), &[]),
        ),
    ];
    let end = saga(core, &pairs, 1);
    let statuses = [
        core.status(Txn(t)),
        core.status(Txn(second)),
        core.status(Txn(undo)),
    ];
    match end {
        Ok(ModelEnd::Committed) => {
            statuses == [Status::Committed, Status::Committed, Status::Unknown]
        }
        Ok(ModelEnd::Undone) => {
            statuses == [Status::Aborted, Status::Unknown, Status::Unknown]
                || statuses == [Status::Committed, Status::Aborted, Status::Committed]
        }
        Ok(ModelEnd::Stopped(_)) => {
            statuses[0] == Status::Running || statuses[1] == Status::Running
        }
        Err(Fault::NoMemory) => true,
        _ => false,
    }
}

/// Runs a drawn model, and returns whether its end is told as it is.
fn is_told(alloc: Global, core: &mut Core, t: u64, number: u64) -> bool {
    match (number >> 50) % 6 {
        0 => atomic_is_told(alloc, core, t, number),
        1 => contingent_is_told(alloc, core, t, number),
        2 => both_are_told(alloc, core, t, number, true),
        3 => both_are_told(alloc, core, t, number, false),
        4 => nested_is_told(alloc, core, t, number),
        _ => saga_is_told(alloc, core, t, number),
    }
}

/// Runs drawn models, each while a transaction of another client holds an object or has committed, and ends what is left of
/// the round. Returns the first round whose model is told wrongly.
fn first_wrong_round(alloc: Global, core: &mut Core) -> Option<u64> {
    let mut number: u64 = 1;
    for round in 0..ROUNDS {
        number = next(number);
        let t = round.wrapping_mul(8);
        let other = t.wrapping_add(7);
        other_acts(core, other, number);
        number = next(number);
        if !is_told(alloc, core, t, number) {
            return Some(round);
        }
        for left in 0..8 {
            let _ended = core.step(abort(t.wrapping_add(left)));
        }
    }
    None
}

#[test]
fn drawn_models_are_told_as_they_ended(rt: HostRuntime) -> Result<(), Fail> {
    let alloc: Global = rt.alloc();
    let mut core = opened(alloc, &THREE, MUCH_ROOM)?;
    let wrong = first_wrong_round(alloc, &mut core);
    let steps = core.history().len();
    drop(core.into_history());
    same(&rt, wrong, None);
    same(&rt, steps > 5_000, true);
    Ok(())
}
