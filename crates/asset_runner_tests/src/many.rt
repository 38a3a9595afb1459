//! Two hundred jobs on eight workers, which share ten objects, give up, wait in vain, and run children.

ghost use Rattle.std.specs.Prelude.{◌≡◌, Some};
ghost use Rattle.asset_bodies.specs.Working.{IsSame, Working, Worked};

use crate::gates::Holding;
use crate::running::{MUCH_ROOM, alone, initiated, told};
use asset_core_tests::opened as opened_core;
use asset_manager::{AuditFault, History, Manager};
use asset_manager_tests::is_replayed;
use asset_names::{Ob, Outcome, Txn};
use asset_runner::{Body, Finished, JobEnd, Plan, Report, Tx};
use asset_test_tools::next;
use std::alloc::Global;
use std::sync::{Arc, Wait};
use std::test::Fail;
use std::thread::Threads;

/// How many jobs there are.
const JOBS: usize = 200;

/// What is added to the name of a job for that of its child.
const CHILD: u64 = 1_000;

/// The objects that all share.
const TEN: [(Ob, i64); 10] = [
    (Ob(0), 0),
    (Ob(1), 0),
    (Ob(2), 0),
    (Ob(3), 0),
    (Ob(4), 0),
    (Ob(5), 0),
    (Ob(6), 0),
    (Ob(7), 0),
    (Ob(8), 0),
    (Ob(9), 0),
];

/// Reads one of the objects and writes another, and returns whether both were answered.
fn operates<R: Wait>(rt: &R, tx: &mut Tx, seed: u64) -> bool
    ensures { IsSame tx.old tx.new }
{
    let number = next(seed);
    let read = tx.read(rt, Ob((number >> 20) % 10));
    let written = tx.write(rt, Ob((number >> 40) % 10), 1);
    matches!(
        (read, written),
        (Ok(Outcome::Answer(_)), Ok(Outcome::Answer(_)))
    )
}

/// Operates, and is done, or gives up if an operation waited in vain.
fn operates_and_ends<R: Wait>(rt: &R, tx: Tx, seed: u64) -> Finished
    ensures { result.of ≡ Some tx.manager }
{
    let mut tx = tx;
    if operates(rt, &mut tx, seed) {
        tx.done(rt)
    } else {
        tx.give_up(rt)
    }
}

/// Does what a job with this number does: each fifth runs a child, and each seventh gives up.
fn works<R: Wait>(rt: &R, tx: Tx, number: u64, child: Body) -> Finished
    requires ready { (tx : Working) → pre child tx }
    requires same { (tx : Working) (f : Worked) → post child tx f → f.of ≡ Some tx.manager }
    ensures { result.of ≡ Some tx.manager }
{
    if number % 7 == 3 {
        return tx.give_up(rt);
    }
    if number % 5 == 0 {
        let (tx, end) = tx.run_child(rt, Txn(number.wrapping_add(CHILD)), child);
        drop(end);
        return operates_and_ends(rt, tx, number);
    }
    operates_and_ends(rt, tx, number)
}

/// Returns whether a job with this number may end so: each seventh gives up.
fn may_end_so(number: u64, end: JobEnd) -> bool {
    end == JobEnd::Aborted || (end == JobEnd::Committed && number % 7 != 3)
}

/// Returns whether each job is there once, and ended as it may, and some have committed.
fn each_ended_once(ends: &[(Txn, JobEnd)]) -> bool {
    if ends.len() != JOBS {
        return false;
    }
    let mut committed = false;
    for (place, end) in ends.iter().enumerate() {
        if end.0.0 != place as u64 || !may_end_so(place as u64, end.1) {
            return false;
        }
        if end.1 == JobEnd::Committed {
            committed = true;
        }
    }
    committed
}

/// Opens a facility as the history was opened, and returns whether it gives each of its replies again.
fn is_a_history(alloc: Global, history: &History) -> Result<bool, Fail> {
    let mut core = opened_core(alloc, history.opening(), history.room())?;
    let replayed = is_replayed(&mut core, history);
    drop(core.into_history());
    Ok(replayed)
}

/// Runs a plan, and returns whether each job ended once and some committed, whether a facility gives each reply of the history again,
/// and the audit.
fn runs_all<R: Threads + Wait + Sync>(
    rt: &R,
    alloc: Global,
    manager: Arc<Manager, Global>,
    plan: Plan,
) -> Result<(bool, bool, Result<(), AuditFault>), Fail> {
    let (report, cause) = told(plan.run(rt, 8, &Holding::back(None)));
    let Report {
        ends,
        left,
        sessions,
    } = report;
    let once = cause.is_none() && left.is_empty() && each_ended_once(&ends);
    drop(ends);
    drop(left);
    let closed = alone(manager)?.close(sessions);
    let audit = closed.audit;
    let replayed = is_a_history(alloc, &closed.history);
    drop(closed);
    Ok((once, replayed?, audit))
}

#[test]
fn two_hundred_jobs_end_once(rt: HostRuntime) -> Result<(), Fail> {
    let alloc = rt.alloc();
    let (manager, session) = Manager::open(alloc, &TEN, MUCH_ROOM)?;
    let manager = Arc::new(alloc, manager)?;
    let mut plan = Plan::new(alloc, Arc::try_clone(&manager)?, session, Some(3));
    let mut refused: usize = 0;
    for number in 0..JOBS as u64 {
        let made: Result<Box<_>, _> = Box::new(
            alloc,
            move |tx: Tx| -> Finished
                ensures { result.of ≡ Some tx.manager }
            {
                let child: Body = match Box::new(alloc, move |tx: Tx| {
                    operates_and_ends(&rt, tx, number.wrapping_add(CHILD))
                }) {
                    Ok(child) => child,
                    Err(_) => return tx.give_up(&rt),
                };
                works(&rt, tx, number, child)
            },
        );
        let body: Body = match made {
            Ok(body) => body,
            Err(_) => continue,
        };
        if initiated(&rt, &mut plan, number, body).is_some() {
            refused = refused.saturating_add(1);
        }
    }
    let left = runs_all(&rt, alloc, manager, plan)?;
    assert_eq!(rt; (refused, left), (0, (true, true, Ok(()))));
    Ok(())
}
