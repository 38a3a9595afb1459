//! An example, whose first function README has word for word, and what it does.

// The example begins here.
ghost use Rattle.asset_counts.specs.Pass.{IsOf};

use crate::asserts::{holds, same};
use asset_core::Core;
use asset_manager::{Manager, Session};
use asset_names::{Fault, Ob, Outcome, Reply, Step, Txn};
use std::sync::Wait;

fn write_fifty(core: &mut Core, t: Txn) -> Result<Outcome, Fault> {
    match core.step(Step::Write { t, x: Ob(1), v: 50 })? {
        Outcome::Answer(Reply::Done) => {}
        other => return Ok(other), // a wait (ask again later), or a refusal
    }
    core.step(Step::Complete { t })?;
    core.step(Step::Commit { t }) // `Outcome::Answer(Reply::Committed)`
}

fn write_sixty<R: Wait>(rt: &R, of: &Manager, by: &mut Session, t: Txn) -> Result<Outcome, Fault>
    requires { IsOf by.old.of of.now }
{
    by.call_wait(rt, of, Step::Write { t, x: Ob(1), v: 60 })?; // sleeps while others hold object 1
    by.call(rt, of, Step::Complete { t })?;
    by.call(rt, of, Step::Commit { t })
}
// The example ends here.

/// Runs a transaction that writes as the example does. Returns what its commit was answered, and the value afterwards.
fn run_example(core: &mut Core) -> Result<(Outcome, Option<i64>), Fault> {
    let t = Txn(7);
    core.step(Step::Initiate { t, parent: None })?;
    core.step(Step::Begin { t })?;
    let ended = write_fifty(core, t)?;
    Ok((ended, core.value(Ob(1))))
}

#[test]
fn example_of_the_readme_commits(rt: HostRuntime) {
    let Ok(mut core) = Core::open(rt.alloc(), &[(Ob(1), 100)], 10_000) else {
        return holds(&rt, false);
    };
    let ran = run_example(&mut core);
    drop(core);
    let committed = Outcome::Answer(Reply::Committed);
    same(&rt, ran, Ok((committed, Some(50))));
}

/// Runs a transaction that writes as the second function of the example does. Returns what its commit was answered, and how
/// many calls were recorded.
fn run_session<R: Wait>(rt: &R, of: &Manager, by: &mut Session) -> Result<(Outcome, usize), Fault>
    requires { IsOf by.old.of of.now }
{
    let t = Txn(7);
    by.call(rt, of, Step::Initiate { t, parent: None })?;
    by.call(rt, of, Step::Begin { t })?;
    let ended = write_sixty(rt, of, by, t)?;
    Ok((ended, by.calls().len()))
}

#[test]
fn example_of_the_readme_commits_by_a_session(rt: HostRuntime) {
    let Ok((manager, mut session)) = Manager::open(rt.alloc(), &[(Ob(1), 100)], 10_000) else {
        return holds(&rt, false);
    };
    let ran = run_session(&rt, &manager, &mut session);
    let committed = Outcome::Answer(Reply::Committed);
    same(&rt, ran, Ok((committed, 5)));
}
