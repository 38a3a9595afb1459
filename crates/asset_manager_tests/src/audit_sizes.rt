//! The audit of histories that are longer than a wide window of numbers, with ample memory. No call is made again, so one
//! that runs out of memory fails its test.

use crate::told::{Told, push_calls};
use asset_audit::{AuditFault, audit};
use asset_core::{Core, OpenFault};
use asset_history::History;
use asset_names::{Reply, Step};
use asset_test_tools::begin;
use std::alloc::{AllocError, Global};
use std::test::Fail;

/// How many entries there are, how many sessions, and how many entries each of them is told.
const ENTRIES: usize = 263_000;

const SESSIONS: usize = 200;

const EACH: usize = ENTRIES / SESSIONS;

/// The first number of the second window.
const SECOND: usize = 262_144;

/// Returns a facility with a long history: each step begins another transaction that nobody initiated, and is refused.
fn long(alloc: Global) -> Result<Core, OpenFault> {
    let mut core = Core::open(alloc, &[], ENTRIES)?;
    for t in 0..ENTRIES as u64 {
        let _answer = core.step(begin(t));
    }
    Ok(core)
}

/// Returns the calls of session after session, each of which was told one entry of as many as there are sessions.
fn interleaved(alloc: Global, history: &History) -> Result<Vec<(usize, Step, Reply)>, AllocError> {
    let mut calls = Vec::with_capacity(alloc, ENTRIES)?;
    for session in 0..SESSIONS {
        push_calls(&mut calls, history, session, SESSIONS)?;
    }
    Ok(calls)
}

/// Returns what the audit finds if each session has this many of the calls.
fn found_in(
    alloc: Global,
    history: &History,
    calls: &[(usize, Step, Reply)],
    each: usize,
) -> Result<Result<(), AuditFault>, AllocError> {
    let mut lists = Vec::new(alloc);
    for part in calls.chunks(each.max(1)) {
        lists.push(Told { calls: part })?;
    }
    Ok(audit(history, &lists))
}

/// Returns where the call of the number stands among those of all sessions.
fn place_of(number: usize) -> usize {
    (number % SESSIONS) * EACH + number / SESSIONS
}

/// Puts the call at one place in the other, if there are both.
fn repeat(calls: &mut [(usize, Step, Reply)], place: usize, other: usize) {
    if place < calls.len() && other < calls.len() {
        calls[place] = calls[other];
    }
}

/// Returns what the audit finds if the session that was told the number `told` was told the entry `other` in its place.
fn found_with(
    alloc: Global,
    history: &History,
    told: usize,
    other: usize,
) -> Result<Result<(), AuditFault>, AllocError> {
    let mut calls = interleaved(alloc, history)?;
    repeat(&mut calls, place_of(told), place_of(other));
    found_in(alloc, history, &calls, EACH)
}

/// Returns what the audit finds in a long history with the entry `other` told in the place of `told`.
fn found_long(alloc: Global, told: usize, other: usize) -> Result<Result<(), AuditFault>, Fail> {
    let core = long(alloc)?;
    let found = found_with(alloc, core.history(), told, other);
    drop(core);
    Ok(found?)
}

/// Returns the fault at a call.
fn differs(session: usize, number: usize) -> Result<(), AuditFault> {
    Err(AuditFault::Differs { session, number })
}

#[test]
fn many_sessions_agree(rt: HostRuntime) -> Result<(), Fail> {
    assert_eq!(rt; found_long(rt.alloc(), 0, 0)?, Ok(()));
    Ok(())
}

/// Session 144 was told the entry of session 143 before its own.
#[test]
fn last_number_of_a_window_is_seen_twice(rt: HostRuntime) -> Result<(), Fail> {
    assert_eq!(rt;
        found_long(rt.alloc(), SECOND, SECOND - 1)?,
        differs(144, SECOND - 1)
    );
    Ok(())
}

/// Session 143 was told the entry of session 144 after its own.
#[test]
fn first_number_of_a_window_is_seen_twice(rt: HostRuntime) -> Result<(), Fail> {
    assert_eq!(rt;
        found_long(rt.alloc(), SECOND - 1, SECOND)?,
        differs(144, SECOND)
    );
    Ok(())
}

#[test]
fn last_number_of_all_is_seen_twice(rt: HostRuntime) -> Result<(), Fail> {
    assert_eq!(rt;
        found_long(rt.alloc(), ENTRIES - 2, ENTRIES - 1)?,
        differs(199, ENTRIES - 1)
    );
    Ok(())
}

/// Returns what the audit finds if one session was told everything but the last entry.
fn found_without_the_last(alloc: Global) -> Result<Result<(), AuditFault>, Fail> {
    let core = long(alloc)?;
    let found = found_but_last(alloc, core.history());
    drop(core);
    Ok(found?)
}

fn found_but_last(alloc: Global, history: &History) -> Result<Result<(), AuditFault>, AllocError> {
    let mut calls = Vec::with_capacity(alloc, ENTRIES)?;
    push_calls(&mut calls, history, 0, 1)?;
    let told = calls.len().saturating_sub(1);
    found_in(alloc, history, &calls[..told], told)
}

#[test]
fn last_entry_is_missing(rt: HostRuntime) -> Result<(), Fail> {
    let expected = AuditFault::Missing {
        told: ENTRIES - 1,
        kept: ENTRIES,
    };
    assert_eq!(rt; found_without_the_last(rt.alloc())?, Err(expected));
    Ok(())
}
