//! Two jobs on two workers, of whom any may meet that memory runs out once. The test itself ends early only if the box of a
//! body finds none.

ghost use Rattle.std.specs.Prelude.{◌≡◌, Some};
ghost use Rattle.asset_bodies.specs.Working.{Working, Worked};

use crate::bodies::{Work, does};
use crate::gates::Holding;
use crate::running::{Setting, alone, open_manager, told};
use asset_manager::{AuditFault, Manager};
use asset_names::Txn;
use asset_runner::{Body, Cause, InitFault, Job, JobEnd, Plan, Report, RunCause, Tx};
use std::alloc::Global;
use std::sync::{Arc, Wait};
use std::test::Fail;
use std::thread::Threads;

/// What an initiation comes to: it is accepted, or its body comes back, and why.
enum Initiated {
    Accepted,
    Back(Body, Cause),
}

/// Initiates a job once.
fn initiate_once<R: Wait>(rt: &R, plan: &mut Plan, t: u64, body: Body) -> Initiated
    requires ready { (tx : Working) → pre body tx }
    requires same { (tx : Working) (f : Worked) → post body tx f → f.of ≡ Some tx.manager }
{
    match plan.initiate(rt, Txn(t), None, body) {
        Ok(()) => Initiated::Accepted,
        Err(InitFault { body, cause }) => Initiated::Back(body, cause),
    }
}

/// Returns whether a job was accepted. One that was not has its body, which goes, and came back because memory ran out.
fn is_accepted(initiated: Initiated) -> Option<bool> {
    match initiated {
        Initiated::Accepted => Some(true),
        Initiated::Back(_body, Cause::NoMemory) => Some(false),
        Initiated::Back(_body, _cause) => None,
    }
}

/// Returns whether exactly the jobs that were accepted ended as committed or were left, in order.
fn are_accepted(ends: &[(Txn, JobEnd)], left: &[Job], accepted: &[u64]) -> bool {
    let mut end: usize = 0;
    let mut job: usize = 0;
    for t in accepted {
        if end < ends.len() && ends[end].0.0 == *t && ends[end].1 == JobEnd::Committed {
            end += 1;
        } else if job < left.len() && left[job].name.0 == *t {
            job += 1;
        } else {
            return false;
        }
    }
    end == ends.len() && job == left.len()
}

/// Runs a plan on two workers. Returns whether exactly these jobs ended or were left, that some were left only if memory ran
/// out, and the audit with all sessions.
fn run_two<R: Threads + Wait + Sync>(
    rt: &R,
    manager: Arc<Manager, Global>,
    plan: Plan,
    accepted: &[u64],
) -> Result<(bool, bool, Result<(), AuditFault>), Fail> {
    let (report, cause) = told(plan.run(rt, 2, &Holding::back(None)));
    let Report {
        ends,
        left,
        sessions,
    } = report;
    let once = are_accepted(&ends, &left, accepted);
    let explained = match cause {
        None => left.is_empty(),
        Some(cause) => cause == RunCause::NoMemory,
    };
    drop(ends);
    drop(left);
    let audit = alone(manager)?.close(sessions).audit;
    Ok((once, explained, audit))
}

#[test]
fn accepted_jobs_end_or_are_left(rt: HostRuntime) -> Result<(), Fail> {
    let alloc = rt.alloc();
    let seven: Body = Box::new(alloc, move |tx: Tx| does(&rt, tx, Work::Writes(1, 150)))?;
    let eight: Body = Box::new(alloc, move |tx: Tx| does(&rt, tx, Work::Writes(2, 250)))?;
    let Setting {
        manager,
        shared,
        session,
        other: _,
    } = open_manager(alloc)?;
    let mut plan = Plan::new(alloc, shared, session, Some(1_000));
    let first = is_accepted(initiate_once(&rt, &mut plan, 7, seven));
    let second = is_accepted(initiate_once(&rt, &mut plan, 8, eight));
    let accepted: &[u64] = match (first, second) {
        (Some(true), Some(true)) => &[7, 8],
        (Some(true), Some(false)) => &[7],
        (Some(false), Some(true)) => &[8],
        (_, _) => &[],
    };
    let left = run_two(&rt, manager, plan, accepted)?;
    assert_eq!(rt; left, (true, true, Ok(())));
    assert!(rt; !accepted.is_empty());
    Ok(())
}
