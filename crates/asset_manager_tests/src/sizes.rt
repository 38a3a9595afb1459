//! Many sessions and many calls.

ghost use Rattle.asset_counts.specs.Pass.{IsOf};

use crate::again::{THREE, is_answered, opened, shown};
use crate::asserts::{holds, same};
use crate::closing::{close_one, hand_in, room_for};
use asset_manager::{Counts, Manager, Session};
use asset_names::{Outcome, Refusal, Reply, Step, Txn};
use asset_test_tools::{begin, commit, complete, initiate, read, write};
use std::sync::Wait;
use std::test::Fail;

/// How many sessions ask.
const SESSIONS: usize = 300;

/// Runs a transaction of six steps by a session. It reads what it wrote.
fn runs<R: Wait>(rt: &R, manager: &Manager, session: &mut Session, t: u64) -> bool
    requires { IsOf session.old.of manager.now }
    ensures { IsOf session.new.of manager.now }
{
    is_answered(rt, manager, session, &initiate(t), Reply::Done)
        && is_answered(rt, manager, session, &begin(t), Reply::Done)
        && is_answered(rt, manager, session, &write(t, 1, 7), Reply::Done)
        && is_answered(rt, manager, session, &read(t, 1), Reply::Value(7))
        && is_answered(rt, manager, session, &complete(t), Reply::Done)
        && is_answered(rt, manager, session, &commit(t), Reply::Committed)
}

/// Runs a transaction by each of many sessions that are split off the first, and hands these in.
fn many_run<R: Wait>(
    rt: &R,
    manager: &Manager,
    first: &mut Session,
    closing: &mut Vec<Session>,
) -> bool
    requires { IsOf first.old.of manager.now }
    ensures { IsOf first.new.of manager.now }
{
    let mut good = true;
    for t in 0..SESSIONS {
        let mut session = first.split();
        good = runs(rt, manager, &mut session, t as u64) && good;
        good = hand_in(closing, session) && good;
    }
    good
}

#[test]
fn three_hundred_sessions_are_audited(rt: HostRuntime) -> Result<(), Fail> {
    let mut closing = room_for(rt.alloc(), SESSIONS + 1)?;
    let (manager, mut first) = opened(rt.alloc(), &THREE, 2_000)?;
    let good = many_run(&rt, &manager, &mut first, &mut closing);
    let counts = shown(&manager);
    let closed = close_one(manager, closing, first);
    let expected = Counts {
        entries: 1_800,
        committed: 300,
        aborted: 0,
    };
    holds(&rt, good);
    same(&rt, counts, expected);
    same(&rt, closed, (1_800, Ok(())));
    Ok(())
}

/// How many calls one session makes.
const CALLS: usize = 5_000;

/// Begins an unknown transaction many times, and returns how often it is refused.
fn refused_often<R: Wait>(rt: &R, manager: &Manager, session: &mut Session) -> usize
    requires { IsOf session.old.of manager.now }
{
    let mut refused: usize = 0;
    for _ in 0..CALLS {
        let unknown = Reply::Refused(Refusal::Unknown(Txn(7)));
        if is_answered(rt, manager, session, &begin(7), unknown) {
            refused = refused.saturating_add(1);
        }
    }
    refused
}

/// Returns the number of the entry of the last call.
fn last_number(session: &Session) -> Option<usize> {
    match session.calls().last() {
        Some(call) => Some(call.0),
        None => None,
    }
}

#[test]
fn five_thousand_calls_are_listed(rt: HostRuntime) -> Result<(), Fail> {
    let closing = room_for(rt.alloc(), 1)?;
    let (manager, mut session) = opened(rt.alloc(), &THREE, CALLS)?;
    let refused = refused_often(&rt, &manager, &mut session);
    let listed = (session.calls().len(), last_number(&session));
    let closed = close_one(manager, closing, session);
    same(&rt, refused, CALLS);
    same(&rt, listed, (CALLS, Some(CALLS - 1)));
    same(&rt, closed, (CALLS, Ok(())));
    Ok(())
}
