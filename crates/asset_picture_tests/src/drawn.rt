//! Pictures of drawn histories, whose shapes are counted beside a plain search over the entries.
use crate::drawing::{parts, picture_of, played};
use crate::sizes::count;
use asset_core::Core;
use asset_core_tests::ask;
use asset_history::History;
use asset_names::{Kind, NoMemory, Ob, Reply, Step, Txn};
use asset_sources::{Source, source};
use asset_test_tools::{
    abort, add, begin, commit, complete, delegate, depend, initiate, next, ops_of, permit,
    permit_any, read, write,
};
use std::alloc::Global;
use std::test::Fail;

/// How many steps are drawn, of how many transactions.
const DRAWN: usize = 180;

const NAMES: u64 = 9;

/// Returns the step that a number stands for.
fn step_of(number: u64) -> Step {
    let t = (number >> 40) % NAMES;
    let u = (number >> 30) % NAMES;
    let x = (number >> 20) % 3 + 1;
    match (number >> 10) % 14 {
        0 => initiate(t),
        1 => begin(t),
        2 => complete(t),
        3 => commit(t),
        4 => abort(t),
        5 => permit(t, u, &[Ob(x)], (true, true)),
        6 => delegate(t, u, &[Ob(x)]),
        13 => permit_any(t, &[Ob(x)], ops_of(number)),
        7 => depend(Kind::Ad, t, u),
        8 => write(t, x, x as i64),
        12 => add(t, x, x as i64),
        9 => depend(Kind::Cd, t, u),
        _ => read(t, x),
    }
}

/// Starts the first four transactions, and asks the drawn steps. Returns the first number that met a fault.
fn steps_are_drawn(core: &mut Core) -> Option<u64> {
    for t in 0..NAMES / 2 {
        if ask(core, &initiate(t)).is_err() || ask(core, &begin(t)).is_err() {
            return Some(t);
        }
    }
    let mut number = 1;
    for _ in 0..DRAWN {
        number = next(number);
        if ask(core, &step_of(number)).is_err() {
            return Some(number);
        }
    }
    None
}

/// Returns how many reads, writes, adds and arrows an entry has; a read has an arrow if its source is an entry. The ring of an
/// open permit counts as an arrow.
fn row_of(step: &Step, reply: &Reply, from_entry: bool) -> [usize; 4] {
    match (step, reply) {
        (Step::Read { .. }, Reply::Value(_)) => [1, 0, 0, usize::from(from_entry)],
        (Step::Write { .. }, Reply::Done) => [0, 1, 0, 0],
        (Step::Add { .. }, Reply::Done) => [0, 0, 1, 0],
        (Step::Permit { .. }, Reply::Done) => [0, 0, 0, 1],
        (Step::PermitAny { .. }, Reply::Done) => [0, 0, 0, 1],
        (Step::Delegate { .. }, Reply::Done) => [0, 0, 0, 1],
        (Step::Depend { .. }, Reply::Done) => [0, 0, 0, 1],
        _ => [0, 0, 0, 0],
    }
}

/// Returns whether the source of an entry is an entry. If memory runs out once, it is looked for again.
fn has_source(alloc: Global, history: &History, index: usize) -> bool {
    let found = match source(alloc, history, index) {
        Err(NoMemory) => source(alloc, history, index),
        found => found,
    };
    match found {
        Ok(Some(Source::Entry(_))) => true,
        _ => false,
    }
}

/// Returns how many reads, writes, adds and arrows the picture of a history has, by a plain search.
fn searched(alloc: Global, history: &History) -> [usize; 4] {
    let mut all = [0; 4];
    for i in 0..history.len() {
        if let Some((step, reply)) = history.entry(i) {
            let row = row_of(&step, &reply, has_source(alloc, history, i));
            all[0] = usize::saturating_add(all[0], row[0]);
            all[1] = usize::saturating_add(all[1], row[1]);
            all[2] = usize::saturating_add(all[2], row[2]);
            all[3] = usize::saturating_add(all[3], row[3]);
        }
    }
    all
}

/// Returns how many transactions some step acts on.
fn used(history: &History) -> usize {
    let mut found = 0;
    for t in 0..NAMES {
        if is_used(history, Txn(t)) {
            found = usize::saturating_add(found, 1);
        }
    }
    found
}

/// Returns whether some step acts on the transaction.
fn is_used(history: &History, t: Txn) -> bool {
    for i in 0..history.len() {
        if let Some((a, b)) = history.acted_on(i) {
            if a == t || b == t {
                return true;
            }
        }
    }
    false
}

/// Returns how many reads, writes, adds and arrows a picture has, and how many lanes.
fn shown(picture: &Result<String, NoMemory>) -> Option<([usize; 4], usize)> {
    match picture {
        Ok(picture) => {
            let (_, shapes) = parts(picture)?;
            let row = [
                count(shapes, "<circle r='5'/>"),
                count(shapes, "<rect x='-5'"),
                count(shapes, "<path d='M-6 0H6M0-6V6'"),
                count(shapes, "<path class='arrow"),
            ];
            Some((row, count(shapes, "<text class='name'")))
        }
        Err(NoMemory) => None,
    }
}

#[test]
fn shapes_are_those_of_a_plain_search(rt: HostRuntime) -> Result<(), Fail> {
    let (history, fault) = played(rt.alloc(), steps_are_drawn)?;
    let picture = picture_of(rt.alloc(), &history);
    let expected = (searched(rt.alloc(), &history), used(&history));
    let entries = history.len();
    drop(history);
    let found = shown(&picture);
    drop(picture);
    assert_eq!(rt; fault, None);
    assert!(rt;
        entries > 100 && entries <= 200,
        "the steps leave another picture"
    );
    assert_eq!(rt; found, Some(expected));
    Ok(())
}
