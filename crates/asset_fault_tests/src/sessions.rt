//! Two sessions of one manager that ask in turn while a request for memory is refused: at every point the lists and the book
//! agree, a fault leaves both, and the step asked again is answered as it is with ample memory.

ghost use Rattle.asset_counts.specs.Pass.{IsOf};

use crate::facility::{APART, HANDED_OVER, TOGETHER, may_lack_memory};
use asset_core_tests::{parsed, reads};
use asset_manager::{AuditFault, Counts, Manager, Session};
use asset_manager_tests::{ROOM, THREE, close_one, close_two, opened, reserved, room_for, shown};
use asset_names::{Fault, NoMemory, Outcome, Reply, Step};
use asset_test_tools::initiate;
use std::alloc::Global;
use std::sync::Wait;
use std::test::Fail;

/// Returns the counts of the book, if both lists have as many calls together as it has entries.
fn agreed(manager: &Manager, first: &Session, second: &Session) -> Option<Counts> {
    let counts = shown(manager);
    let told = first.calls().len() as u128 + second.calls().len() as u128;
    if told == counts.entries as u128 {
        Some(counts)
    } else {
        None
    }
}

/// Asks a step that is lent: once, or at most twice while it waits.
fn ask<R: Wait>(
    rt: &R,
    manager: &Manager,
    session: &mut Session,
    step: &Step,
    by_turns: bool,
) -> Result<Outcome, Fault>
    requires { IsOf session.old.of manager.now }
    ensures { IsOf session.new.of manager.now }
{
    if by_turns {
        session.call_turns_lent(rt, manager, step, 1)
    } else {
        session.call_lent(rt, manager, step)
    }
}

/// Asks the step of a line, and again if it is refused memory. Returns whether it has the outcome that the line says, and
/// whether the refusal left the book and both lists. If the list has room, only a step that takes memory may be refused it.
fn plays_line<R: Wait>(
    rt: &R,
    alloc: Global,
    manager: &Manager,
    asking: &mut Session,
    other: &Session,
    line: &str,
    by_turns: bool,
) -> bool
    requires { IsOf asking.old.of manager.now }
    ensures { IsOf asking.new.of manager.now }
{
    let Some((step, outcome)) = parsed(line) else {
        return false;
    };
    let may_lack = !asking.has_room(1) || may_lack_memory(&step, outcome);
    let before = agreed(manager, asking, other);
    match ask(rt, manager, asking, &step, by_turns) {
        Err(Fault::NoMemory) => {
            may_lack
                && agreed(manager, asking, other) == before
                && reads(alloc, ask(rt, manager, asking, &step, by_turns), outcome)
        }
        answer => reads(alloc, answer, outcome),
    }
}

/// Plays the lines of a script by two sessions in turn, of which the second asks by turns. Returns whether each line went
/// right, and the lists and the book agreed after it.
fn plays_lines<R: Wait>(
    rt: &R,
    alloc: Global,
    manager: &Manager,
    first: &mut Session,
    second: &mut Session,
    script: &str,
) -> bool
    requires first { IsOf first.old.of manager.now }
    requires second { IsOf second.old.of manager.now }
{
    let mut is_first = true;
    for line in script.lines() {
        let right = if is_first {
            plays_line(rt, alloc, manager, first, second, line, false)
        } else {
            plays_line(rt, alloc, manager, second, first, line, true)
        };
        if !right || agreed(manager, first, second).is_none() {
            return false;
        }
        is_first = !is_first;
    }
    true
}

/// What a test sees: whether each line went right, how many entries the history has, and the audit with both sessions.
type Seen = (bool, (usize, Result<(), AuditFault>));

/// Plays a script by two sessions of a new manager, whose lists get room for `room` calls first.
fn plays<R: Wait>(rt: &R, alloc: Global, script: &str, room: usize) -> Result<Seen, Fail> {
    let closing = room_for(alloc, 2)?;
    let (manager, mut first) = opened(alloc, &THREE, ROOM)?;
    let mut second = first.split();
    let made = reserved(&mut first, room).is_ok() && reserved(&mut second, room).is_ok();
    let right = made && plays_lines(rt, alloc, &manager, &mut first, &mut second, script);
    Ok((right, close_two(manager, closing, first, second)))
}

#[test]
fn two_sessions_hand_work_over(rt: HostRuntime) -> Result<(), Fail> {
    let seen = plays(&rt, rt.alloc(), HANDED_OVER, 0)?;
    assert_eq!(rt; seen, (true, (12, Ok(()))));
    Ok(())
}

#[test]
fn two_sessions_with_room_hand_work_over(rt: HostRuntime) -> Result<(), Fail> {
    let seen = plays(&rt, rt.alloc(), HANDED_OVER, 8)?;
    assert_eq!(rt; seen, (true, (12, Ok(()))));
    Ok(())
}

#[test]
fn two_sessions_commit_a_class(rt: HostRuntime) -> Result<(), Fail> {
    let seen = plays(&rt, rt.alloc(), TOGETHER, 8)?;
    assert_eq!(rt; seen, (true, (11, Ok(()))));
    Ok(())
}

#[test]
fn two_sessions_ask_apart(rt: HostRuntime) -> Result<(), Fail> {
    let seen = plays(&rt, rt.alloc(), APART, 0)?;
    assert_eq!(rt; seen, (true, (14, Ok(()))));
    Ok(())
}

/// Asks a step by a session that sleeps while it waits, which this step does not. Returns whether it is done. If memory runs out
/// once, it is asked again.
fn is_done<R: Wait>(rt: &R, manager: &Manager, session: &mut Session, step: &Step) -> bool
    requires { IsOf session.old.of manager.now }
    ensures { IsOf session.new.of manager.now }
{
    let asked = match session.call_wait_lent(rt, manager, step) {
        Err(Fault::NoMemory) => session.call_wait_lent(rt, manager, step),
        asked => asked,
    };
    asked == Ok(Reply::Done)
}

/// Asks a session for room that no machine has. Returns whether it is refused, and the session goes on with what it had.
fn asks_too_much<R: Wait>(rt: &R, manager: &Manager, session: &mut Session) -> bool
    requires { IsOf session.old.of manager.now }
{
    let made = reserved(session, 4).is_ok();
    let refused = session.reserve(usize::MAX) == Err(NoMemory);
    let kept = session.has_room(4) && session.calls().is_empty();
    let goes_on = is_done(rt, manager, session, &initiate(7));
    made && refused && kept && goes_on
}

#[test]
fn room_that_no_machine_has_is_refused(rt: HostRuntime) -> Result<(), Fail> {
    let closing = room_for(rt.alloc(), 1)?;
    let (manager, mut session) = opened(rt.alloc(), &THREE, ROOM)?;
    let refused = asks_too_much(&rt, &manager, &mut session);
    let closed = close_one(manager, closing, session);
    assert_eq!(rt; (refused, closed), (true, (1, Ok(()))));
    Ok(())
}
