//! Thousands of names, and hundreds of objects that are opened.

use asset_core::{Core, OpenFault};
use asset_core_tests::{THREE, ask, opened};
use asset_names::{Kind, Ob, Ops, Outcome, Refusal, Reply, Step, Txn};
use asset_test_tools::{
    begin, commit, complete, depend, initiate, ops_of, permit_any, read, write,
};
use std::alloc::{AllocError, Global};
use std::test::Fail;

/// How many transactions are joined one after another.
const NAMES: u64 = 4_000;

/// How many objects are opened.
const OBJECTS: u64 = 300;

/// Plays refused dependencies, of which each joins a transaction with the one before it, the last first. Returns the first that is
/// not refused.
fn many_are_joined(core: &mut Core) -> Option<u64> {
    for t in 1..NAMES {
        let refused = Outcome::Answer(Reply::Refused(Refusal::Unknown(Txn(NAMES - t))));
        if ask(core, &depend(Kind::Gc, NAMES - t, NAMES - t - 1)) != Ok(refused) {
            return Some(t);
        }
    }
    None
}

/// Returns the first transaction whose group does not begin with the last.
fn first_outside(core: &Core) -> Option<u64> {
    for t in 0..NAMES {
        if core.first_of(Txn(t)) != Some(Txn(NAMES - 1)) || core.group_committed(Txn(t)) {
            return Some(t);
        }
    }
    None
}

#[test]
fn thousands_have_one_first(rt: HostRuntime) -> Result<(), Fail> {
    let mut core = opened(rt.alloc(), &THREE, NAMES as usize)?;
    let unrefused = many_are_joined(&mut core);
    let outside = first_outside(&core);
    let beyond = core.first_of(Txn(NAMES));
    drop(core);
    assert_eq!(rt; (unrefused, outside), (None, None));
    assert_eq!(rt; beyond, None);
    Ok(())
}

/// Returns the objects below a count, each with the value 1. If memory runs out once, they are listed again.
fn objects(alloc: Global, count: u64) -> Result<Vec<(Ob, i64)>, AllocError> {
    match listed(alloc, count) {
        Ok(objects) => Ok(objects),
        Err(AllocError) => listed(alloc, count),
    }
}

/// Returns the objects below a count, each with the value 1.
fn listed(alloc: Global, count: u64) -> Result<Vec<(Ob, i64)>, AllocError> {
    let mut objects = Vec::with_capacity(alloc, count as usize)?;
    for x in 0..count {
        objects.push((Ob(x), 1))?;
    }
    Ok(objects)
}

/// Returns whether a step is answered so.
fn is_answered(core: &mut Core, step: &Step, reply: Reply) -> bool {
    ask(core, step) == Ok(Outcome::Answer(reply))
}

/// Has each object written twice, each time by a transaction of its own, which commits. Returns the first that is answered otherwise.
fn are_written(core: &mut Core) -> Option<u64> {
    for t in 0..2 * OBJECTS {
        let done = is_answered(core, &initiate(t), Reply::Done)
            && is_answered(core, &begin(t), Reply::Done)
            && is_answered(core, &write(t, t % OBJECTS, t as i64), Reply::Done)
            && is_answered(core, &complete(t), Reply::Done)
            && is_answered(core, &commit(t), Reply::Committed);
        if !done {
            return Some(t);
        }
    }
    None
}

/// Opens each object by one transaction, and returns the first that is answered otherwise.
fn are_opened(core: &mut Core, t: u64, ops: Ops) -> Option<u64> {
    for x in 0..OBJECTS {
        if !is_answered(core, &permit_any(t, &[Ob(x)], ops), Reply::Done) {
            return Some(x);
        }
    }
    None
}

/// Returns the first of 600 writers whose group does not begin with `first` if its object is below `count`, or with itself otherwise.
fn first_other(core: &Core, count: u64, first: u64) -> Option<u64> {
    for x in 0..2 * OBJECTS {
        let expected = if x % OBJECTS < count { first } else { x };
        if core.first_of(Txn(x)) != Some(Txn(expected)) {
            return Some(x);
        }
    }
    None
}

/// Writes each object twice and opens it, as three facts: what was answered otherwise, who is not of his own group before, and who is
/// not of the first one afterwards.
fn met(alloc: Global) -> Result<(Option<u64>, Option<u64>, Option<u64>), OpenFault> {
    let Ok(opening) = objects(alloc, OBJECTS) else {
        return Err(OpenFault::NoMemory);
    };
    let core = opened(alloc, &opening, 8_000);
    drop(opening);
    let mut core = core?;
    let wrong = are_written(&mut core);
    let apart = first_other(&core, 0, 0);
    let opener = 2 * OBJECTS;
    let begun = is_answered(&mut core, &initiate(opener), Reply::Done)
        && is_answered(&mut core, &begin(opener), Reply::Done);
    let opened = are_opened(&mut core, opener, ops_of(1));
    let joined = first_other(&core, OBJECTS, 0);
    let read = is_answered(
        &mut core,
        &read(opener, 5),
        Reply::Value(OBJECTS as i64 + 5),
    );
    drop(core);
    if begun && read {
        Ok((wrong.or(opened), apart, joined))
    } else {
        Ok((Some(opener), apart, joined))
    }
}

#[test]
fn opener_of_hundreds_of_objects_is_joined_with_all_writers(rt: HostRuntime) -> Result<(), Fail> {
    let (wrong, apart, joined) = met(rt.alloc())?;
    assert_eq!(rt; wrong, None);
    assert_eq!(rt; apart, None);
    assert_eq!(rt; joined, None);
    Ok(())
}
