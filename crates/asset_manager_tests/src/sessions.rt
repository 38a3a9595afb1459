//! Sessions of one manager that ask in turn, and the manager when it is closed.

ghost use Rattle.asset_counts.specs.Pass.{IsOf};

use crate::again::{ROOM, THREE, opened, reserved, shown};
use crate::asserts::same;
use crate::closing::{close_one, close_two, hand_in, room_for};
use crate::script::first_wrong_line;
use asset_manager::{AuditFault, Counts, Manager, OpenFault, Session};
use asset_names::{Fault, Ob, Outcome, Reply};
use asset_test_tools::{begin, initiate, read};
use std::alloc::Global;
use std::sync::Wait;
use std::test::Fail;

/// Makes room for four calls in each list, and asks ten steps: two by the first session, four by `b`, and then four by
/// `a`. Returns whether there was room, and the lines of the three scripts that went wrong.
fn asks_ten<R: Wait>(
    rt: &R,
    alloc: Global,
    manager: &Manager,
    first: &mut Session,
    a: &mut Session,
    b: &mut Session,
) -> (bool, [Option<usize>; 3])
    requires first { IsOf first.old.of manager.now }
    requires a { IsOf a.old.of manager.now }
    requires b { IsOf b.old.of manager.now }
{
    let room = reserved(first, 4).is_ok() && reserved(a, 4).is_ok() && reserved(b, 4).is_ok();
    let starts = "initiate 7: ok\ninitiate 8: ok\n";
    let of_8 = "begin 8: ok\nwrite 8 2 250: ok\ncomplete 8: ok\ncommit 8: committed\n";
    let of_7 = "begin 7: ok\nwrite 7 1 150: ok\ncomplete 7: ok\ncommit 7: committed\n";
    let wrong = [
        first_wrong_line(rt, alloc, manager, first, starts),
        first_wrong_line(rt, alloc, manager, b, of_8),
        first_wrong_line(rt, alloc, manager, a, of_7),
    ];
    (room, wrong)
}

/// Closes a manager with three sessions, as `close_one` does.
fn close_three(
    manager: Manager,
    mut closing: Vec<Session>,
    first: Session,
    second: Session,
    third: Session,
) -> (usize, Result<(), AuditFault>) {
    let _handed = hand_in(&mut closing, first);
    close_two(manager, closing, second, third)
}

/// What the ten steps leave in the word, after two commits.
const TEN: Counts = Counts {
    entries: 10,
    committed: 2,
    aborted: 0,
};

#[test]
fn ten_calls_are_all_in_the_history(rt: HostRuntime) -> Result<(), Fail> {
    let alloc: Global = rt.alloc();
    let closing = room_for(alloc, 3)?;
    let (manager, mut first) = opened(alloc, &THREE, ROOM)?;
    let mut a = first.split();
    let mut b = first.split();
    let asked = asks_ten(&rt, alloc, &manager, &mut first, &mut a, &mut b);
    let counts = shown(&manager);
    let lens = [first.calls().len(), a.calls().len(), b.calls().len()];
    let closed = close_three(manager, closing, first, a, b);
    same(&rt, asked, (true, [None; 3]));
    same(&rt, (counts, lens), (TEN, [2, 4, 4]));
    same(&rt, closed, (10, Ok(())));
    Ok(())
}

#[test]
fn session_kept_back_is_missed(rt: HostRuntime) -> Result<(), Fail> {
    let alloc: Global = rt.alloc();
    let closing = room_for(alloc, 2)?;
    let (manager, mut first) = opened(alloc, &THREE, ROOM)?;
    let mut a = first.split();
    let mut b = first.split();
    let asked = asks_ten(&rt, alloc, &manager, &mut first, &mut a, &mut b);
    drop(b);
    let closed = close_two(manager, closing, first, a);
    same(&rt, asked, (true, [None; 3]));
    same(
        &rt,
        closed,
        (10, Err(AuditFault::Missing { told: 6, kept: 10 })),
    );
    Ok(())
}

/// Asks four times at most whether 8 may read 1, and again if memory ran out once.
fn asks_four_times<R: Wait>(
    rt: &R,
    manager: &Manager,
    session: &mut Session,
) -> Result<Outcome, Fault>
    requires { IsOf session.old.of manager.now }
    ensures { IsOf session.new.of manager.now }
{
    match session.call_turns(rt, manager, read(8, 1), 3) {
        Err(Fault::NoMemory) => session.call_turns(rt, manager, read(8, 1), 3),
        answered => answered,
    }
}

/// Asks a read that waits by four asks, and returns whether it did, how long the three lists are then, and the lines
/// that went wrong before and after. The writer aborts, and the reader goes on.
fn asks_a_wait<R: Wait>(
    rt: &R,
    alloc: Global,
    manager: &Manager,
    first: &mut Session,
    a: &mut Session,
    b: &mut Session,
) -> (bool, [usize; 3], [Option<usize>; 4])
    requires first { IsOf first.old.of manager.now }
    requires a { IsOf a.old.of manager.now }
    requires b { IsOf b.old.of manager.now }
{
    let starts = "initiate 7: ok\ninitiate 8: ok\nbegin 7: ok\nbegin 8: ok\n";
    let started = first_wrong_line(rt, alloc, manager, first, starts);
    let written = first_wrong_line(rt, alloc, manager, a, "write 7 1 50: ok\n");
    let waits = asks_four_times(rt, manager, b) == Ok(Outcome::Wait);
    let lens = [first.calls().len(), a.calls().len(), b.calls().len()];
    let ended = first_wrong_line(rt, alloc, manager, a, "abort 7: aborted\n");
    let gone_on = first_wrong_line(rt, alloc, manager, b, "read 8 1: 100\n");
    (waits, lens, [started, written, ended, gone_on])
}

#[test]
fn four_asks_wait_and_list_nothing(rt: HostRuntime) -> Result<(), Fail> {
    let alloc: Global = rt.alloc();
    let closing = room_for(alloc, 3)?;
    let (manager, mut first) = opened(alloc, &THREE, ROOM)?;
    let mut a = first.split();
    let mut b = first.split();
    let asked = asks_a_wait(&rt, alloc, &manager, &mut first, &mut a, &mut b);
    let closed = close_three(manager, closing, first, a, b);
    same(&rt, asked, (true, [4, 1, 0], [None; 4]));
    same(&rt, closed, (7, Ok(())));
    Ok(())
}

/// Closes a manager whose session made no call, and returns whether its history is empty, has room for this many
/// entries and is audited as right.
fn is_empty_when_closed(
    manager: Manager,
    mut closing: Vec<Session>,
    session: Session,
    capacity: usize,
) -> bool {
    let handed = hand_in(&mut closing, session);
    let closed = manager.close(closing);
    let is_empty = closed.history.is_empty() && closed.history.room() == capacity;
    handed && is_empty && closed.audit == Ok(())
}

/// Opens a manager and closes it at once, and returns why it was not opened, if it was not.
fn opens(alloc: Global, opening: &[(Ob, i64)], capacity: usize) -> Result<bool, OpenFault> {
    match room_for(alloc, 1) {
        Ok(closing) => match opened(alloc, opening, capacity) {
            Ok((manager, session)) => {
                Ok(is_empty_when_closed(manager, closing, session, capacity))
            }
            Err(fault) => Err(fault),
        },
        Err(_) => Err(OpenFault::NoMemory),
    }
}

#[test]
fn opening_is_refused_in_order(rt: HostRuntime) {
    let double = [(Ob(1), 1), (Ob(1), 2)];
    for (opening, capacity, expected) in [
        (&double[..], 0, Err(OpenFault::BadCapacity)),
        (&THREE[..], 1_000_001, Err(OpenFault::BadCapacity)),
        (&double[..], 10, Err(OpenFault::DoubleObject(Ob(1)))),
        (&THREE[..], 1, Ok(true)),
        (&THREE[..], 1_000_000, Ok(true)),
    ] {
        assert_eq!(rt; opens(rt.alloc(), opening, capacity), expected);
    }
}

/// Asks by one session, splits another off, looks at it and takes it in again. Returns the line that went wrong,
/// whether the new one had no calls and no room for one, and whether the first has its calls then.
fn splits_and_joins<R: Wait>(
    rt: &R,
    alloc: Global,
    manager: &Manager,
    first: &mut Session,
) -> (Option<usize>, bool, bool)
    requires { IsOf first.old.of manager.now }
{
    let wrong = first_wrong_line(rt, alloc, manager, first, "initiate 7: ok\nbegin 7: ok\n");
    let other = first.split();
    let is_empty = other.calls().is_empty() && other.has_room(0) && !other.has_room(1);
    first.join(other);
    let listed = match first.calls() {
        [one, two] => {
            *one == (0, initiate(7), Reply::Done) && *two == (1, begin(7), Reply::Done)
        }
        _ => false,
    };
    (wrong, is_empty, listed)
}

#[test]
fn split_session_is_joined(rt: HostRuntime) -> Result<(), Fail> {
    let alloc: Global = rt.alloc();
    let closing = room_for(alloc, 1)?;
    let (manager, mut first) = opened(alloc, &THREE, ROOM)?;
    let asked = splits_and_joins(&rt, alloc, &manager, &mut first);
    let closed = close_one(manager, closing, first);
    same(&rt, asked, (None, true, true));
    same(&rt, closed, (2, Ok(())));
    Ok(())
}

/// Asks what is refused and what finds no room, by a session whose list has room for four calls.
fn asks_without_room<R: Wait>(
    rt: &R,
    alloc: Global,
    manager: &Manager,
    first: &mut Session,
) -> (bool, Option<usize>, [bool; 2])
    requires { IsOf first.old.of manager.now }
{
    let room = reserved(first, 4).is_ok();
    let script =
        "begin 7: refused unknown 7\ninitiate 7: ok\ninitiate 8: full\nbegin 7: ok\nread 7 1: full\n";
    let wrong = first_wrong_line(rt, alloc, manager, first, script);
    (room, wrong, [first.has_room(1), first.calls().len() == 3])
}

/// The history has room for five entries: of three, two more are owed to the one transaction.
#[test]
fn refusal_is_listed_and_a_fault_is_not(rt: HostRuntime) -> Result<(), Fail> {
    let alloc: Global = rt.alloc();
    let closing = room_for(alloc, 1)?;
    let (manager, mut first) = opened(alloc, &THREE, 5)?;
    let asked = asks_without_room(&rt, alloc, &manager, &mut first);
    let closed = close_one(manager, closing, first);
    same(&rt, asked, (true, None, [true; 2]));
    same(&rt, closed, (3, Ok(())));
    Ok(())
}
