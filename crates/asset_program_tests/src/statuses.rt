//! The exit status of each end.

use crate::asserts::same;
use asset_job_runs::{JobsStop, end_jobs};
use asset_manager::AuditFault;
use asset_program::{status_of_answer, status_of_run};
use asset_requests::{Answer, ArgumentsFault};
use asset_scripts::{Device, RunEnd, ScriptFault};
use std::alloc::Global;
use std::process::Abort;

#[test]
fn status_says_how_a_run_ended(rt: HostRuntime) {
    for (ended, expected) in [
        (Ok(RunEnd::Finished), 0),
        (Ok(RunEnd::BadLine(3)), 2),
        (Ok(RunEnd::Shared), 1),
        (Err(ScriptFault::Read), 1),
        (Err(ScriptFault::Write), 1),
        (Err(ScriptFault::NoMemory), 1),
    ] {
        assert_eq!(rt; status_of_run(ended), expected);
    }
}

#[test]
fn status_says_what_was_answered(rt: HostRuntime) {
    let text = String::new(rt.alloc());
    same(&rt, status_of_answer(&Answer::Help(text)), 0);
    let text = String::new(rt.alloc());
    same(&rt, status_of_answer(&Answer::Refusal(text)), 2);
    same(
        &rt,
        status_of_answer(&Answer::Fault(ArgumentsFault::NotText)),
        2,
    );
    same(
        &rt,
        status_of_answer(&Answer::Fault(ArgumentsFault::NoMemory)),
        1,
    );
}

/// How a run of jobs ended: with which audit, or why not.
type Ended = Result<Result<(), AuditFault>, JobsStop>;

/// Ends jobs, and adds what is written and what is said to these bytes. Returns the exit status.
fn ended_with(alloc: Global, ended: Ended, written: &mut Vec<u8>, complaints: &mut Vec<u8>) -> u8 {
    let mut output = Device::new(written);
    end_jobs(alloc, ended, &mut output, complaints)
}

/// Asserts what jobs that ended so say to the errors, with status 1 and nothing on the output.
fn expect_one(rt: &(impl Abort + AllocGlobal), ended: Ended, errors: &str) {
    let mut written = Vec::new(rt.alloc());
    let mut complaints = Vec::new(rt.alloc());
    let status = ended_with(rt.alloc(), ended, &mut written, &mut complaints);
    let said = [&complaints, &written].map(|bytes| str::from_utf8(bytes).ok());
    assert_eq!(rt; (status, said), (1, [Some(errors), Some("")]));
}

#[test]
fn fault_of_jobs_goes_to_the_errors(rt: HostRuntime) {
    for (stop, errors) in [
        (JobsStop::Read, "asset: read fault\n"),
        (JobsStop::Write, "asset: write fault\n"),
        (JobsStop::NoMemory, "asset: no memory\n"),
        (JobsStop::InUse, "asset: manager in use\n"),
    ] {
        expect_one(&rt, Err(stop), errors);
    }
}

#[test]
fn audit_that_is_not_ok_says_nothing_to_the_errors(rt: HostRuntime) {
    let fault = AuditFault::Missing { told: 6, kept: 10 };
    expect_one(&rt, Ok(Err(fault)), "");
}
