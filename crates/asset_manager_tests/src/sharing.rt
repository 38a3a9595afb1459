//! Sessions that ask with whom a transaction has come to share.

ghost use Rattle.asset_counts.specs.Pass.{IsOf};

use crate::again::{ROOM, THREE, opened, reserved};
use crate::asserts::{holds, same};
use crate::closing::{close_two, room_for};
use crate::script::first_wrong_line;
use asset_manager::{Manager, Session};
use asset_names::Txn;
use std::alloc::Global;
use std::sync::Wait;
use std::test::Fail;

/// Returns what a session is told of a transaction: the first of its group, and whether a member has committed.
fn told_of<R: Wait>(rt: &R, manager: &Manager, session: &Session, t: Txn) -> (Option<Txn>, bool)
    requires { IsOf session.now.of manager.now }
{
    (
        session.first_of(rt, manager, t),
        session.group_committed(rt, manager, t),
    )
}

/// Returns what a session is told of 7, 8 and 55.
fn told<R: Wait>(rt: &R, manager: &Manager, session: &Session) -> [(Option<Txn>, bool); 3]
    requires { IsOf session.now.of manager.now }
{
    [
        told_of(rt, manager, session, Txn(7)),
        told_of(rt, manager, session, Txn(8)),
        told_of(rt, manager, session, Txn(55)),
    ]
}

/// Has 7 and 8, each asked for by a session of its own, come to share; then 7 commits. Returns what the second session is told before
/// they share, once they do, and once 7 has committed, and the lines that went wrong.
fn share<R: Wait>(
    rt: &R,
    alloc: Global,
    manager: &Manager,
    first: &mut Session,
    second: &mut Session,
) -> ([[(Option<Txn>, bool); 3]; 3], [Option<usize>; 4])
    requires first { IsOf first.old.of manager.now }
    requires second { IsOf second.old.of manager.now }
{
    let begun = first_wrong_line(
        rt,
        alloc,
        manager,
        first,
        "initiate 7: ok\nbegin 7: ok\nwrite 7 1 50: ok\n",
    );
    let also = first_wrong_line(rt, alloc, manager, second, "initiate 8: ok\nbegin 8: ok\n");
    let apart = told(rt, manager, second);
    let permitted = first_wrong_line(rt, alloc, manager, first, "permit 7 8 r 1: ok\n");
    let shared = told(rt, manager, second);
    let ended = first_wrong_line(
        rt,
        alloc,
        manager,
        first,
        "complete 7: ok\ncommit 7: committed\n",
    );
    let committed = told(rt, manager, second);
    ([apart, shared, committed], [begun, also, permitted, ended])
}

#[test]
fn session_is_told_who_shares(rt: HostRuntime) -> Result<(), Fail> {
    let alloc: Global = rt.alloc();
    let closing = room_for(alloc, 2)?;
    let (manager, mut first) = opened(alloc, &THREE, ROOM)?;
    let mut second = first.split();
    let room = reserved(&mut first, 6).is_ok() && reserved(&mut second, 2).is_ok();
    let (facts, wrong) = share(&rt, alloc, &manager, &mut first, &mut second);
    let closed = close_two(manager, closing, first, second);
    let seven = Some(Txn(7));
    let apart = [(seven, false), (Some(Txn(8)), false), (None, false)];
    let shared = [(seven, false), (seven, false), (None, false)];
    let committed = [(seven, true), (seven, true), (None, false)];
    holds(&rt, room);
    same(&rt, wrong, [None; 4]);
    same(&rt, facts, [apart, shared, committed]);
    same(&rt, closed, (8, Ok(())));
    Ok(())
}
