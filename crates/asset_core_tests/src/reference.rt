//! The facility and the reference give the same answers, on worked histories and on generated scripts.

use crate::again::{ask, opened};
use crate::opening::{ROOM, THREE};
use crate::script::step_of;
use asset_core::Core;
use asset_names::{Fault, Ob, Ops, Outcome, Reply, Step, Txn};
use asset_reference::{answer, status_after, value_if_any};
use asset_test_tools::{
    abort, add, begin, commit, complete, delegate, initiate, next, ops_of, permit, permit_any,
    permit_ops, read, wait, write,
};
use std::alloc::Global;
use std::test::Fail;

/// How many scripts are generated.
const SCRIPTS: u64 = 2_000;

/// How many steps a generated script has.
const STEPS: usize = 24;

/// The transactions of all scripts are below this number.
const NAMES: u64 = 113;

/// Room for fewer entries than a generated script has.
const LITTLE_ROOM: usize = 10;

/// Returns how many entries the transactions are owed after these.
fn owed(entries: &[(Step, Reply)]) -> usize {
    let mut owed: usize = 0;
    for t in 5..10 {
        owed = owed.saturating_add(status_after(entries, Txn(t)).owed());
    }
    owed
}

/// Returns whether the facility shows what the entries give of the transactions and objects that the scripts use. The last of
/// these objects does not exist.
fn shows(core: &Core, entries: &[(Step, Reply)]) -> bool {
    for t in 0..NAMES {
        if core.status(Txn(t)) != status_after(entries, Txn(t)) {
            return false;
        }
    }
    for x in 1..5 {
        if core.value(Ob(x)) != value_if_any(&THREE, entries, Ob(x)) {
            return false;
        }
    }
    core.history().len() == entries.len()
}

/// Returns what the reference answers to a step over a history with room for `capacity` entries. Appends the answer
/// to the entries, unless the step waits or finds no room.
fn expected(
    entries: &mut Vec<(Step, Reply)>,
    step: Step,
    capacity: usize,
) -> Result<Result<Outcome, Fault>, Fail> {
    match answer(&THREE, entries, &step) {
        Outcome::Wait => Ok(Ok(Outcome::Wait)),
        Outcome::Answer(reply) => {
            entries.push((step, reply))?;
            if entries.len().saturating_add(owed(entries)) > capacity {
                entries.pop();
                return Ok(Err(Fault::Full));
            }
            Ok(Ok(Outcome::Answer(reply)))
        }
    }
}

/// Returns whether facility and reference answer a step alike.
fn agree_on(
    core: &mut Core,
    entries: &mut Vec<(Step, Reply)>,
    step: &Step,
    capacity: usize,
) -> Result<bool, Fail> {
    let answer = expected(entries, *step, capacity)?;
    Ok(ask(core, step) == answer)
}

/// Returns the number of the first step, from 1 on, that facility and reference answer differently, or one past the last if
/// they show something else then. The steps of the script come first.
fn first_other(
    core: &mut Core,
    entries: &mut Vec<(Step, Reply)>,
    script: &str,
    steps: &[Step],
    capacity: usize,
) -> Result<Option<usize>, Fail> {
    let mut number: usize = 1;
    for line in script.lines() {
        let step = step_of(line).ok_or("a bad line")?;
        if !agree_on(core, entries, &step, capacity)? {
            return Ok(Some(number));
        }
        number = number.saturating_add(1);
    }
    for step in steps {
        if !agree_on(core, entries, step, capacity)? {
            return Ok(Some(number));
        }
        number = number.saturating_add(1);
    }
    Ok(if shows(core, entries) {
        None
    } else {
        Some(number)
    })
}

/// Returns the number of the first step of a script, and then of steps, at which facility and reference differ.
pub(crate) fn first_difference(
    alloc: Global,
    script: &str,
    steps: &[Step],
    capacity: usize,
) -> Result<Option<usize>, Fail> {
    let mut core = opened(alloc, &THREE, capacity)?;
    let mut entries = Vec::new(alloc);
    let difference = first_other(&mut core, &mut entries, script, steps, capacity);
    drop(entries);
    drop(core);
    difference
}

/// Returns the step that a number stands for.
fn drawn(number: u64) -> Step {
    let t = 5 + (number >> 40) % 5;
    let x = 1 + (number >> 20) % 4;
    let taker = 5 + (number >> 30) % 5;
    match (number >> 50) % 22 {
        0 | 1 => initiate(t),
        2 | 3 => begin(t),
        4 | 5 => read(t, x),
        6 | 7 => write(t, x, (number % 1000) as i64),
        8 => complete(t),
        9 => commit(t),
        10 => abort(t),
        11 => wait(t),
        12 | 13 => permit(t, taker, &[Ob(x)], (number % 3 != 0, number % 3 != 1)),
        17 | 18 => add(t, x, (number % 1000) as i64 - 500),
        19 => permit_ops(
            t,
            taker,
            &[Ob(x)],
            Ops::with_add(number % 2 == 0, number % 3 == 0),
        ),
        14 => permit(t, taker, &[], (true, true)),
        20 | 21 => permit_any(t, &[Ob(x)], ops_of(number)),
        15 => delegate(t, taker, &[Ob(x)]),
        _ => delegate(t, taker, &[]),
    }
}

/// A reader waits for a writer, which aborts.
const ONE_WAITS: &str = "\
    initiate 7\nbegin 7\ninitiate 8\nbegin 8\nwrite 7 1 50\nread 8 1\nabort 7\nread 8 1\n";

/// A committed write stands under one that is aborted.
const ONE_ABORTS_OVER_ANOTHER: &str = "\
    initiate 7\nbegin 7\nwrite 7 1 50\ncomplete 7\ncommit 7\ninitiate 8\nbegin 8\n\
    write 8 1 60\nabort 8\ninitiate 9\nbegin 9\nread 9 1\n";

/// A transaction ends when there is room for its end alone.
const ENDS_FIND_ROOM: &str = "\
    initiate 7\nbegin 7\nread 7 1\ncomplete 7\nabort 7\ninitiate 8\ncommit 7\n";

/// Steps that are refused by status, and steps between them.
const REFUSED_BY_STATUS: &str = "\
    begin 5\ninitiate 7\nread 7 4\nbegin 7\nbegin 7\ninitiate 7\nread 5 4\nread 7 4\n\
    complete 7\nwrite 7 4 1\ncomplete 7\ncommit 7\nbegin 7\nabort 7\ncommit 6\n";

#[test]
fn facility_agrees_on_worked_histories(rt: HostRuntime) -> Result<(), Fail> {
    for (script, capacity) in [
        (ONE_WAITS, ROOM),
        (ONE_ABORTS_OVER_ANOTHER, ROOM),
        (ENDS_FIND_ROOM, 4),
        (ENDS_FIND_ROOM, 3),
        (REFUSED_BY_STATUS, ROOM),
    ] {
        let difference = first_difference(rt.alloc(), script, &[], capacity)?;
        assert_eq!(rt; difference, None, "in {script:?}");
    }
    Ok(())
}

/// A chain of permits leads from 7 to 8 and 9, until ends break it.
const CHAIN_OF_THREE: &str = "\
    initiate 7\nbegin 7\ninitiate 8\nbegin 8\ninitiate 9\nbegin 9\nwrite 7 1 11\n\
    write 7 2 22\nwrite 7 3 33\npermit 7 8 rw 2,1\npermit 8 9 r 3,2\nread 9 2\nread 9 1\n\
    write 9 2 5\nread 9 3\nwrite 8 1 5\nread 7 1\ncomplete 8\ncommit 8\nread 9 2\n\
    abort 7\nread 9 1\n";

/// Permits that are refused, and permits between them.
const REFUSED_PERMITS: &str = "\
    permit 5 5 r 4\npermit 5 6 r 4\ninitiate 5\npermit 5 6 r 4\ninitiate 6\n\
    permit 5 6 r 4,1\nabort 6\npermit 5 6 w all\nabort 5\npermit 5 6 w all\n";

#[test]
fn facility_agrees_on_permits(rt: HostRuntime) -> Result<(), Fail> {
    for script in [CHAIN_OF_THREE, REFUSED_PERMITS] {
        let difference = first_difference(rt.alloc(), script, &[], ROOM)?;
        assert_eq!(rt; difference, None, "in {script:?}");
    }
    Ok(())
}

/// Draws the steps of a script from a seed on, and leaves the seed of the next script.
fn generated(seed: &mut u64) -> [Step; STEPS] {
    let mut steps = [begin(5); STEPS];
    for step in steps.iter_mut() {
        *seed = next(*seed);
        *step = drawn(*seed);
    }
    steps
}

#[test]
fn facility_agrees_on_generated_scripts(rt: HostRuntime) -> Result<(), Fail> {
    let alloc = rt.alloc();
    let mut seed = 1;
    for script in 0..SCRIPTS {
        let steps = generated(&mut seed);
        let capacity = if script % 3 == 0 { LITTLE_ROOM } else { ROOM };
        let difference = first_difference(alloc, "", &steps, capacity)?;
        assert_eq!(rt; difference, None, "script {script}");
    }
    Ok(())
}
