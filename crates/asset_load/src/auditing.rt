//! The audit of a long history.

ghost use Rattle.std.specs.Prelude.{◌≡◌};

use crate::asking::ROOM;
use crate::request::Request;
use crate::timing::{Took, moment, since};
use asset_audit::{Calls, audit};
use asset_core::{Core, History};
use asset_names::{Reply, Step, Txn};
use std::alloc::{AllocError, Global};
use std::time::Clock;

/// What one session was told.
#[derive(Clone, Copy)]
struct Told<'a> {
    calls: &'a [(usize, Step, Reply)],
}

impl<'a> Calls for Told<'a> {
    ghost listed = { λ told. told.calls.now };

    fn calls(&self) -> &[(usize, Step, Reply)] {
        self.calls
    }
}

/// Appends the call that is recorded at the number.
fn push_call(
    calls: &mut Vec<(usize, Step, Reply)>,
    history: &History,
    number: usize,
) -> Result<(), AllocError> {
    match history.entry(number) {
        Some((step, reply)) => calls.extend_from_slice(&[(number, step, reply)]),
        None => Ok(()),
    }
}

/// Appends each call of a session that was told one entry of `apart`, from the number `first` on.
fn push_calls(
    calls: &mut Vec<(usize, Step, Reply)>,
    history: &History,
    first: usize,
    apart: usize,
) -> Result<(), AllocError> {
    let mut number = first;
    for _ in 0..history.len() {
        if number >= history.len() {
            return Ok(());
        }
        push_call(calls, history, number)?;
        number = number.saturating_add(apart);
    }
    Ok(())
}

/// Returns the calls of `sessions` sessions that took turns, one session after another.
fn calls_of(
    alloc: Global,
    history: &History,
    sessions: usize,
) -> Result<Vec<(usize, Step, Reply)>, AllocError> {
    let mut calls = Vec::with_capacity(alloc, history.len())?;
    for session in 0..sessions {
        push_calls(&mut calls, history, session, sessions)?;
    }
    Ok(calls)
}

/// Returns the lists of the sessions, each of which has as many calls.
fn lists_of<'a>(
    alloc: Global,
    calls: &'a [(usize, Step, Reply)],
    sessions: usize,
) -> Result<Vec<Told<'a>>, AllocError> {
    let mut lists = Vec::new(alloc);
    let each = calls.len() / sessions.max(1);
    for part in calls.chunks(each.max(1)) {
        lists.push(Told { calls: part })?;
    }
    Ok(lists)
}

/// Takes the time of the audit of sessions that took turns, and leaves whether their lists and the history agree.
fn time_audit<R: Clock>(rt: &R, alloc: Global, history: &History, sessions: usize) -> Option<Took> {
    let calls = calls_of(alloc, history, sessions).ok()?;
    let lists = lists_of(alloc, &calls, sessions).ok()?;
    let start = moment(rt);
    let agrees = audit(history, &lists).is_ok();
    since(rt, start, agrees as u64)
}

/// Fills a history with refused steps, audits the lists of the sessions against it, and leaves whether they agree.
pub fn audited<R: Clock>(rt: &R, alloc: Global, request: &Request) -> Option<Took> {
    let mut core = Core::open(alloc, &[], ROOM).ok()?;
    for t in 0..request.count {
        let _answer = core.step(Step::Begin { t: Txn(t) });
    }
    let history = core.into_history();
    let took = time_audit(rt, alloc, &history, request.sessions);
    drop(history);
    took
}
