//! Three hundred transactions that add to one object at once, with ample memory. No call is made again, so one that runs out of
//! memory fails its test.

use asset_core::Core;
use asset_names::{Ob, Outcome, Reply, Step};
use asset_test_tools::{abort, add, begin, commit, complete, initiate, read};
use std::test::Fail;

/// One past the last of them. The first is 1.
const END: u64 = 301;

/// Somebody who reads what they add.
const READER: u64 = 1_000;

/// Room for all their entries.
const ROOM: usize = 4_000;

/// The value in the end: the opening 100, and 22,650, the sum of the even numbers from 2 to 300.
const COMMITTED: i64 = 22_750;

/// What each of them asks in turn.
#[derive(Clone, Copy, Debug, PartialEq)]
enum Phase {
    Initiate,
    Begin,
    Add,
    Complete,
    End,
}

/// Returns the step of a transaction: each adds its own number, and those with even numbers commit.
fn step_in(phase: Phase, t: u64) -> Step {
    match phase {
        Phase::Initiate => initiate(t),
        Phase::Begin => begin(t),
        Phase::Add => add(t, 1, (t % 1_000) as i64),
        Phase::Complete => complete(t),
        Phase::End if t % 2 == 0 => commit(t),
        Phase::End => abort(t),
    }
}

/// Returns the reply to it.
fn reply_in(phase: Phase, t: u64) -> Reply {
    match phase {
        Phase::End if t % 2 == 0 => Reply::Committed,
        Phase::End => Reply::Aborted,
        _ => Reply::Done,
    }
}

/// Asks the steps of a phase. Returns the first transaction whose step gets another reply.
fn first_wrong(core: &mut Core, phase: Phase) -> Option<u64> {
    for t in 1..END {
        if core.step(step_in(phase, t)) != Ok(Outcome::Answer(reply_in(phase, t))) {
            return Some(t);
        }
    }
    None
}

/// Asks the steps of these phases. Returns the first phase in which a step gets another reply.
fn first_wrong_phase(core: &mut Core, phases: &[Phase]) -> Option<Phase> {
    for phase in phases {
        if first_wrong(core, *phase).is_some() {
            return Some(*phase);
        }
    }
    None
}

/// Returns the outcome of a read of somebody else.
fn outcome_of_read(core: &mut Core) -> Option<Outcome> {
    core.step(read(READER, 1)).ok()
}

/// Returns the first phase that goes wrong, and what a reader is answered before and after the ends.
fn all_add(core: &mut Core) -> (Option<Phase>, Option<Outcome>, Option<Outcome>) {
    let _initiated = core.step(initiate(READER));
    let _begun = core.step(begin(READER));
    let phases = [Phase::Initiate, Phase::Begin, Phase::Add, Phase::Complete];
    let wrong = first_wrong_phase(core, &phases);
    let before = outcome_of_read(core);
    let ends = first_wrong_phase(core, &[Phase::End]);
    (wrong.or(ends), before, outcome_of_read(core))
}

#[test]
fn three_hundred_add_at_once(rt: HostRuntime) -> Result<(), Fail> {
    let mut core = Core::open(rt.alloc(), &[(Ob(1), 100)], ROOM)?;
    let shown = all_add(&mut core);
    let value = core.value(Ob(1));
    drop(core);
    let after = Some(Outcome::Answer(Reply::Value(COMMITTED)));
    assert_eq!(rt; shown, (None, Some(Outcome::Wait), after));
    assert_eq!(rt; value, Some(COMMITTED));
    Ok(())
}
