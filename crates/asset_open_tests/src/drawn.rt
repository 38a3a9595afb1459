//! Drawn steps with open permits: their groups beside labels that every two entries join, and what is left without dead groups.

use asset_core::{Core, OpenFault};
use asset_core_tests::{ask, opened};
use asset_deletion::{Groups, groups, without_dead};
use asset_history::History;
use asset_names::{NoMemory, Ob, Outcome, Reply, Step, Txn, actor, partner, takes_effect};
use asset_test_tools::{
    abort, add, begin, commit, complete, delegate, initiate, join_in, label_in, next, ops_of,
    permit_any, read, write,
};
use std::alloc::Global;
use std::test::Fail;

/// The objects, one for each two transactions.
const OBJECTS: [(Ob, i64); 12] = [
    (Ob(1), 100),
    (Ob(2), 200),
    (Ob(3), 300),
    (Ob(4), 400),
    (Ob(5), 500),
    (Ob(6), 600),
    (Ob(7), 700),
    (Ob(8), 800),
    (Ob(9), 900),
    (Ob(10), 1_000),
    (Ob(11), 1_100),
    (Ob(12), 1_200),
];

/// How many transactions there are, how many steps are drawn, and room for all of them.
const NAMES: u64 = 24;

const DRAWN: u64 = 240;

const ROOM: usize = 400;

/// Returns the step that a number stands for: mostly on the object of its transaction, and seldom on another one.
fn drawn(number: u64) -> Step {
    let t = (number >> 40) % NAMES;
    let own = t / 2 + 1;
    let x = if (number >> 20) % 8 == 0 {
        (number >> 24) % 12 + 1
    } else {
        own
    };
    match (number >> 50) % 12 {
        0 | 1 => read(t, x),
        2 | 3 => write(t, x, (number % 1_000) as i64),
        4 => add(t, x, (number % 1_000) as i64),
        5 | 6 | 7 => permit_any(t, &[Ob(x)], ops_of(number)),
        8 => complete(t),
        9 => commit(t),
        10 => abort(t),
        _ => delegate(t, t / 2 * 2, &[Ob(x)]),
    }
}

/// Initiates and begins the transactions below `count`. Returns the first that met a fault.
pub(crate) fn begin_all(core: &mut Core, count: u64) -> Option<u64> {
    for t in 0..count {
        if ask(core, &initiate(t)).is_err() || ask(core, &begin(t)).is_err() {
            return Some(t);
        }
    }
    None
}

/// Begins all transactions, and plays drawn steps. Some wait, and some are refused. Returns the first number that met a fault.
fn steps_are_drawn(core: &mut Core, seed: u64) -> Option<u64> {
    if let Some(t) = begin_all(core, NAMES) {
        return Some(t);
    }
    let mut number = seed;
    for _ in 0..DRAWN {
        number = next(number);
        if ask(core, &drawn(number)).is_err() {
            return Some(number);
        }
    }
    None
}

/// Returns the history that drawn steps leave, and the first number that met a fault.
fn drawn_history(alloc: Global, seed: u64) -> Result<(History, Option<u64>), OpenFault> {
    let mut core = opened(alloc, &OBJECTS, ROOM)?;
    let fault = steps_are_drawn(&mut core, seed);
    Ok((core.into_history(), fault))
}

/// Returns the groups of the history. If memory runs out once, they are looked for again.
pub(crate) fn groups_of(alloc: Global, history: &History) -> Result<Groups, NoMemory> {
    match groups(alloc, history) {
        Ok(found) => Ok(found),
        Err(NoMemory) => groups(alloc, history),
    }
}

/// Returns what is left without all dead groups. If memory runs out once, it is asked again.
fn left_undead(alloc: Global, history: &History) -> Result<History, NoMemory> {
    match without_dead(alloc, history) {
        Ok(left) => Ok(left),
        Err(NoMemory) => without_dead(alloc, history),
    }
}

/// Returns the object that a step operates on, if it is an operation.
fn object_of(step: &Step) -> Option<Ob> {
    match *step {
        Step::Read { x, .. } | Step::Write { x, .. } | Step::Add { x, .. } => Some(x),
        _ => None,
    }
}

/// Returns whether a step is an open permit of an object that another one operates on.
pub(crate) fn opens_for(step: &Step, other: &Step) -> bool {
    match (step, object_of(other)) {
        (Step::PermitAny { obs, .. }, Some(x)) => obs.has(x),
        _ => false,
    }
}

/// Joins two transactions in the list of labels.
fn join(list: &mut [usize], a: Txn, b: Txn) {
    join_in(list, a.0 as usize, b.0 as usize);
}

/// Joins two entries in the list of labels, if they took effect and meet by an open permit.
fn join_met(list: &mut [usize], one: &(Step, Reply), other: &(Step, Reply)) {
    let both = takes_effect(&one.0, one.1) && takes_effect(&other.0, other.1);
    if both && (opens_for(&one.0, &other.0) || opens_for(&other.0, &one.0)) {
        join(list, actor(&one.0), actor(&other.0));
    }
}

/// Joins the entry of this index in the list of labels with each older one that it meets, and its own two transactions.
fn join_entry(list: &mut [usize], history: &History, index: usize) {
    let Some(entry) = history.entry(index) else {
        return;
    };
    join(list, actor(&entry.0), partner(&entry.0));
    for older in 0..index {
        if let Some(other) = history.entry(older) {
            join_met(list, &entry, &other);
        }
    }
}

/// Returns the first two transactions whose groups differ from the labels, and how many groups the labels make.
fn first_difference(found: &Groups, history: &History) -> (Option<(u64, u64)>, usize) {
    let mut list = [0; NAMES as usize];
    for (t, label) in list.iter_mut().enumerate() {
        *label = t;
    }
    for index in 0..history.len() {
        join_entry(&mut list, history, index);
    }
    let mut count = 0;
    for t in 0..NAMES as usize {
        count = usize::saturating_add(count, usize::from(label_in(&list, t) == t));
    }
    for a in 0..NAMES {
        for b in 0..NAMES {
            let same = label_in(&list, a as usize) == label_in(&list, b as usize);
            if found.same(Txn(a), Txn(b)) != same {
                return (Some((a, b)), count);
            }
        }
    }
    (None, count)
}

/// Returns the first entry of what is left that a fresh facility answers otherwise.
fn first_other_answer(core: &mut Core, left: &History) -> Option<usize> {
    for index in 0..left.len() {
        match left.entry(index) {
            Some((step, reply)) if ask(core, &step) == Ok(Outcome::Answer(reply)) => {}
            _ => return Some(index),
        }
    }
    None
}

/// Returns the same, once such a facility is opened.
fn first_other_replay(alloc: Global, left: &History) -> Result<Option<usize>, OpenFault> {
    let mut core = opened(alloc, &OBJECTS, ROOM)?;
    let other = first_other_answer(&mut core, left);
    drop(core);
    Ok(other)
}

#[test]
fn groups_of_drawn_open_permits_agree_with_labels(rt: HostRuntime) -> Result<(), Fail> {
    for seed in 1..5 {
        let (history, fault) = drawn_history(rt.alloc(), seed)?;
        let found = groups_of(rt.alloc(), &history);
        let shown = match &found {
            Ok(found) => first_difference(found, &history),
            Err(NoMemory) => (None, 0),
        };
        drop(history);
        drop(found?);
        assert_eq!(rt; fault, None);
        assert_eq!(rt; shown.0, None);
        assert!(rt;
            1 < shown.1 && shown.1 < NAMES as usize,
            "{} groups",
            shown.1
        );
    }
    Ok(())
}

#[test]
fn what_is_left_of_drawn_open_permits_is_answered_alike(rt: HostRuntime) -> Result<(), Fail> {
    for seed in 1..5 {
        let (history, fault) = drawn_history(rt.alloc(), seed)?;
        let left = left_undead(rt.alloc(), &history);
        let whole = history.len();
        drop(history);
        let left = left?;
        let other = first_other_replay(rt.alloc(), &left);
        let len = left.len();
        drop(left);
        assert_eq!(rt; fault, None);
        assert_eq!(rt; other?, None);
        assert!(rt; 0 < len && len < whole, "{len} of {whole} are left");
    }
    Ok(())
}
