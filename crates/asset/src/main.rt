//! The program `asset`: it runs the script that comes on standard input, and writes the transcript or a report to
//! standard output; or it says why lines are bad, holds a conversation, or runs the jobs of a job script.
#![tactic(auto)]

use asset_arguments::{read_arguments, requested};
use asset_bodies::Tx;
use asset_job_runs::{JobsStop, add_job, begin_jobs, end_jobs, finish_jobs};
use asset_jobs::do_acts;
use asset_program::{Next, do_asked};
use asset_runner::Plan;
use asset_scripts::Device;
use std::process::ExitCode;

#[tactic(auto, unfolding(asset_program::specs::Doing::LeadsTo))]
fn main(rt: HostRuntime) -> ExitCode {
    let alloc = rt.alloc();
    let mut input = Device::new(rt.stdin());
    let mut output = Device::new(rt.stdout());
    let mut reasons = Device::new(rt.stderr());
    let mut errors = rt.stderr();
    let asked = requested(alloc, &read_arguments(&rt));
    let request = match do_asked(
        alloc,
        asked,
        &mut input,
        &mut output,
        &mut reasons,
        &mut errors,
    ) {
        Next::Jobs(request) => request,
        Next::Exit(status) => return ExitCode::from(status),
    };
    let begun = match begin_jobs(alloc, request, &mut input) {
        Ok(begun) => begun,
        Err(stop) => return ExitCode::from(end_jobs(alloc, Err(stop), &mut output, &mut errors)),
    };
    let limits = begun.limits;
    let mut plan = Plan::new(alloc, begun.theirs, begun.session, Some(limits.turns));
    let room = plan.reserve(begun.names.len());
    let mut added = room.map_err(|_| JobsStop::NoMemory);
    'jobs: for (t, acts) in begun.jobs {
        if added.is_ok() {
            let operations = acts.len();
            added = match Box::new(alloc, move |tx: Tx| do_acts(&rt, tx, acts.as_slice())) {
                Ok(body) => add_job(&rt, &mut plan, t, operations, body),
                Err(_) => Err(JobsStop::NoMemory),
            };
        }
    }
    let ended = match added {
        Ok(()) => finish_jobs(&rt, begun.manager, plan, &begun.names, limits, &mut output),
        Err(stop) => Err(stop),
    };
    ExitCode::from(end_jobs(alloc, ended, &mut output, &mut errors))
}
