//! The steps of one transaction, and the facilities that they are asked of.

ghost use Rattle.asset_counts.specs.Pass.{IsOf};

use asset_core::Core;
use asset_manager::{Manager, Session};
use asset_names::{Ob, Outcome, Reply, Step, Txn};
use std::sync::Wait;

/// How many steps a transaction has.
pub const STEPS: usize = 6;

/// The greatest capacity.
pub const ROOM: usize = 1_000_000;

/// The objects that the threads write.
pub const OBJECTS: [(Ob, i64); 4] = [(Ob(1), 1), (Ob(2), 2), (Ob(3), 3), (Ob(4), 4)];

/// Returns a step of the transaction `t`, which writes and reads `x`: each index below 6 is one of its steps, in order.
pub fn step_at(index: usize, t: u64, x: u64) -> Step {
    let t = Txn(t);
    match index {
        0 => Step::Initiate { t, parent: None },
        1 => Step::Begin { t },
        2 => Step::Write { t, x: Ob(x), v: 50 },
        3 => Step::Read { t, x: Ob(x) },
        4 => Step::Complete { t },
        _ => Step::Commit { t },
    }
}

/// Returns whether the session runs a transaction. It sleeps while a step waits.
pub fn run_one<R: Wait>(rt: &R, manager: &Manager, session: &mut Session, t: u64, x: u64) -> bool
    requires { IsOf session.old.of manager.now }
    ensures { IsOf session.new.of manager.now }
{
    for index in 0..STEPS {
        match session.call_wait(rt, manager, step_at(index, t, x)) {
            Ok(Reply::Refused(_)) => return false,
            Ok(_) => {}
            Err(_) => return false,
        }
    }
    true
}

/// Returns whether the core runs a transaction.
pub fn run_alone(core: &mut Core, t: u64) -> bool {
    for index in 0..STEPS {
        match core.step(step_at(index, t, 1)) {
            Ok(Outcome::Answer(_)) => {}
            Ok(Outcome::Wait) => return false,
            Err(_) => return false,
        }
    }
    true
}
