//! Drawn steps, and the groups that are kept after each beside plain ones; at the end beside those that are found for the history.

use crate::plain::{NAMES, Plain};
use asset_core::{Core, OpenFault};
use asset_core_tests::{ask, opened};
use asset_deletion::{Groups, groups};
use asset_history::History;
use asset_names::{Kind, NoMemory, Ob, Step, Txn};
use asset_test_tools::{
    abort, add, begin, commit, complete, delegate, depend, initiate, next, ops_of, permit,
    permit_any, read, write,
};
use std::alloc::Global;
use std::test::Fail;

/// The objects, one for each four transactions.
const OBJECTS: [(Ob, i64); 6] = [
    (Ob(1), 100),
    (Ob(2), 200),
    (Ob(3), 300),
    (Ob(4), 400),
    (Ob(5), 500),
    (Ob(6), 600),
];

/// How many steps are drawn, and room for all of them.
const DRAWN: u64 = 200;

const ROOM: usize = 400;

/// Returns the object that a number stands for: mostly that of its transaction, and seldom another one.
fn object_of(number: u64, t: u64) -> u64 {
    if (number >> 20) % 8 == 0 {
        (number >> 24) % 6 + 1
    } else {
        t / 4 + 1
    }
}

/// Returns the step that a number stands for.
fn drawn(number: u64) -> Step {
    let t = (number >> 40) % NAMES;
    let x = object_of(number, t);
    let near = t / 2 * 2;
    match (number >> 50) % 16 {
        0 | 1 | 2 => read(t, x),
        3 | 4 => write(t, x, (number % 1_000) as i64),
        5 => add(t, x, (number % 1_000) as i64),
        6 | 7 => permit_any(t, &[Ob(x)], ops_of(number)),
        8 => permit_any(t, &[Ob(x), Ob(7)], ops_of(number)),
        9 | 10 => complete(t),
        11 | 12 => commit(t),
        13 => abort(t),
        14 => delegate(t, near, &[Ob(x)]),
        _ => permit(t, near, &[Ob(x)], (true, false)),
    }
}

/// Asks a step, and notes its entry if it has one. Returns whether the kept groups are the plain ones afterwards.
fn agrees_after(core: &mut Core, plain: &mut Plain, step: &Step) -> bool {
    let before = core.history().len();
    if ask(core, step).is_err() {
        return false;
    }
    if before < core.history().len() {
        plain.note_newest(core.history());
    }
    plain.first_other(core).is_none()
}

/// Initiates and begins all transactions. Returns the first that met a fault.
fn begin_all(core: &mut Core, plain: &mut Plain) -> Option<u64> {
    for t in 0..NAMES {
        if ask(core, &initiate(t)).is_err() || ask(core, &begin(t)).is_err() {
            return Some(t);
        }
    }
    plain.first_other(core)
}

/// Begins all transactions, and plays drawn steps. Returns the first transaction or step after which the groups differ, and how many
/// groups there are if none is.
fn steps_agree(core: &mut Core, seed: u64) -> (Option<u64>, usize) {
    let mut plain = Plain::new();
    if let Some(t) = begin_all(core, &mut plain) {
        return (Some(t), 0);
    }
    let mut number = seed;
    for turn in 0..DRAWN {
        number = next(number);
        if !agrees_after(core, &mut plain, &drawn(number)) {
            return (Some(turn), 0);
        }
    }
    (None, plain.count())
}

/// Plays drawn steps on a facility, and returns its history too.
fn played(alloc: Global, seed: u64) -> Result<(History, (Option<u64>, usize)), OpenFault> {
    let mut core = opened(alloc, &OBJECTS, ROOM)?;
    let played = steps_agree(&mut core, seed);
    Ok((core.into_history(), played))
}

/// Returns the groups of the history. If memory runs out once, they are looked for again.
fn groups_of(alloc: Global, history: &History) -> Result<Groups, NoMemory> {
    match groups(alloc, history) {
        Ok(found) => Ok(found),
        Err(NoMemory) => groups(alloc, history),
    }
}

/// Returns the first transaction of which the groups and the history say different things.
fn first_difference(found: &Groups, history: &History) -> Option<u64> {
    for t in 0..NAMES {
        let Some(first) = history.first_of(Txn(t)) else {
            return Some(t);
        };
        if !found.same(first, Txn(t)) || found.is_dead(Txn(t)) == history.group_committed(Txn(t)) {
            return Some(t);
        }
    }
    None
}

#[test]
fn kept_groups_agree_with_plain_ones_after_every_step(rt: HostRuntime) -> Result<(), Fail> {
    for seed in 1..7 {
        let (history, (other, count)) = played(rt.alloc(), seed)?;
        let found = groups_of(rt.alloc(), &history);
        let difference = match &found {
            Ok(found) => first_difference(found, &history),
            Err(NoMemory) => None,
        };
        let kept = history.groups().len();
        drop(history);
        drop(found?);
        assert_eq!(rt; other, None);
        assert_eq!(rt; difference, None);
        assert_eq!(rt; kept, NAMES as usize);
        assert!(rt; 1 < count && count < NAMES as usize, "{count} groups");
    }
    Ok(())
}

/// Returns a dependency of a drawn kind between drawn transactions.
fn dependency(number: u64) -> Step {
    let kind = match number % 3 {
        0 => Kind::Cd,
        1 => Kind::Ad,
        _ => Kind::Gc,
    };
    depend(kind, (number >> 40) % NAMES, (number >> 30) % NAMES)
}

#[test]
fn dependencies_are_kept_as_they_come(rt: HostRuntime) -> Result<(), Fail> {
    let mut core = opened(rt.alloc(), &OBJECTS, ROOM)?;
    let mut plain = Plain::new();
    let mut other = begin_all(&mut core, &mut plain);
    let mut number = 11;
    for _ in 0..12 {
        number = next(number);
        if !agrees_after(&mut core, &mut plain, &dependency(number)) {
            other = Some(number);
        }
    }
    drop(core);
    assert_eq!(rt; other, None);
    assert!(rt; plain.count() < NAMES as usize);
    Ok(())
}
