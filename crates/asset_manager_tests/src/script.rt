//! Scripts of steps with the outcome of each, as text, asked by a session; and histories asked again of a facility.

ghost use Rattle.asset_counts.specs.Pass.{IsOf};

use crate::again::call;
use asset_core::{Core, History};
use asset_core_tests::{ask, parsed, reads};
use asset_manager::{Manager, Session};
use asset_names::Outcome;
use std::alloc::Global;
use std::sync::Wait;

/// Asks the step of a line, and returns whether it has the outcome that the line says.
fn plays_line<R: Wait>(
    rt: &R,
    alloc: Global,
    manager: &Manager,
    session: &mut Session,
    line: &str,
) -> bool
    requires { IsOf session.old.of manager.now }
    ensures { IsOf session.new.of manager.now }
{
    match parsed(line) {
        Some((step, expected)) => reads(alloc, call(rt, manager, session, &step), expected),
        None => false,
    }
}

/// Asks the steps of a script up to the first that has another outcome, and returns the number of its line, from 1 on.
pub fn first_wrong_line<R: Wait>(
    rt: &R,
    alloc: Global,
    manager: &Manager,
    session: &mut Session,
    script: &str,
) -> Option<usize>
    requires { IsOf session.old.of manager.now }
    ensures { IsOf session.new.of manager.now }
{
    for (before, line) in script.lines().enumerate() {
        if !plays_line(rt, alloc, manager, session, line) {
            return Some(before.saturating_add(1));
        }
    }
    None
}

/// Asks the steps of a history of a facility, in order, and returns whether each has the reply that the history has. If
/// memory runs out once, the step is asked again.
pub fn is_replayed(core: &mut Core, history: &History) -> bool {
    for index in 0..history.len() {
        let Some((step, reply)) = history.entry(index) else {
            return false;
        };
        if ask(core, &step) != Ok(Outcome::Answer(reply)) {
            return false;
        }
    }
    true
}
