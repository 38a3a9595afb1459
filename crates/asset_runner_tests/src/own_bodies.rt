//! Jobs that are left, each with its own body: a body keeps a number of its own, which is free once the body goes.

ghost use Rattle.std.specs.Prelude.{◌≡◌, Some};

use crate::bodies::{Work, does};
use crate::gates::Holding;
use crate::running::{initiated, open_plan, told};
use asset_runner::{Body, Finished, Job, Plan, Report, Tx};
use std::alloc::{AllocError, Global};
use std::sync::{Arc, Wait};
use std::test::Fail;
use std::thread::Threads;

/// How many jobs there are.
const JOBS: u64 = 3;

/// Returns a number for each job.
fn numbers_of_all(alloc: Global) -> Result<Vec<Arc<u64, Global>>, AllocError> {
    let mut numbers = Vec::new(alloc);
    for t in 0..JOBS {
        let number = Arc::new(alloc, t)?;
        numbers.push(number)?;
    }
    Ok(numbers)
}

/// Is done, and lets the number go.
fn keeps<R: Wait>(rt: &R, tx: Tx, _number: Arc<u64, Global>) -> Finished
    ensures { result.of ≡ Some tx.manager }
{
    does(rt, tx, Work::Nothing)
}

/// Returns whether the number is the name of the job, and only its body kept it.
fn is_kept_by(job: Job, number: Arc<u64, Global>) -> bool {
    let name = job.name.0;
    drop(job);
    match Arc::try_unwrap(number) {
        Ok(number) => number == name,
        Err(_kept) => false,
    }
}

/// Runs a plan without workers, and returns whether all jobs are left, in order, each with the body that keeps its number.
fn keep_their_own<R: Threads + Wait + Sync>(
    rt: &R,
    plan: Plan,
    numbers: Vec<Arc<u64, Global>>,
) -> bool {
    let (report, _cause) = told(plan.run(rt, 0, &Holding::back(None)));
    let Report {
        ends: _,
        left,
        sessions: _,
    } = report;
    let mut kept = left.len() == numbers.len();
    for (job, number) in left.into_iter().zip(numbers) {
        kept = is_kept_by(job, number) && kept;
    }
    kept
}

#[test]
fn jobs_that_are_left_have_their_own_bodies(rt: HostRuntime) -> Result<(), Fail> {
    let alloc = rt.alloc();
    let numbers = numbers_of_all(alloc)?;
    let mut plan = open_plan(alloc)?;
    for (name, number) in numbers.iter().enumerate() {
        let Ok(number) = Arc::try_clone(number) else {
            continue;
        };
        let made: Result<Box<_>, _> = Box::new(alloc, move |tx: Tx| keeps(&rt, tx, number));
        let body: Body = match made {
            Ok(body) => body,
            Err(_) => continue,
        };
        let _ = initiated(&rt, &mut plan, name as u64, body);
    }
    assert!(rt; keep_their_own(&rt, plan, numbers));
    Ok(())
}
