//! Takes the lines of a job script.

ghost use Rattle.std.specs.Prelude.{◌≡◌, ◌+◌, ◌^◌, ◌<◌, ◌≤◌, cond, None, Some, Ok, length, IfOk, IfErr, OnOk};
ghost use Rattle.asset_scripts.specs.Transfers.{input_limit};
ghost use Rattle.asset_grammar.specs.Lines.{lines};
ghost use Rattle.asset_jobs.specs.Jobs.{empty, jobs_of, said_from, with_line};
ghost use Rattle.asset_jobs.specs.Reads.{FailsToSay};
ghost use Rattle.asset_jobs.specs.Scripts.{script_of, so_far};

use crate::drafts::Draft;
use crate::faults::JobsFault;
use crate::scripts::JobScript;
use asset_grammar::{JobLine, ScriptLines};
use asset_names::{NoMemory, Ob};
use asset_scripts::OpeningObjects;
use std::alloc::Global;

/// Adds an object to the opening, if there is no job yet and it is not there. Returns whether it was added.
fn take_object(
    opening: &mut OpeningObjects,
    jobs: &Draft,
    object: (Ob, i64),
) -> Result<bool, NoMemory>
    ensures { IfOk result (λ good. with_line (so_far opening.old jobs.now) (JobLine.Object object) ≡ cond good (Some (so_far opening.new jobs.now)) None) }
{
    if !jobs.is_empty() {
        return Ok(false);
    }
    match opening.add(object) {
        Ok(added) => Ok(added),
        Err(_) => Err(NoMemory),
    }
}

/// Takes one line. Returns whether it is good.
fn take_line(
    alloc: Global,
    opening: &mut OpeningObjects,
    jobs: &mut Draft,
    line: JobLine,
) -> Result<bool, NoMemory>
    ensures { IfOk result (λ good. with_line (so_far opening.old jobs.old) line ≡ cond good (Some (so_far opening.new jobs.new)) None) }
{
    match line {
        JobLine::Blank => Ok(true),
        JobLine::Object(object) => take_object(opening, jobs, object),
        JobLine::Job(t) => jobs.add(alloc, t),
        JobLine::Act(act) => jobs.push_act(act),
        JobLine::Bad => Ok(false),
    }
}

/// Takes all lines up to the first bad one, over no objects and no jobs. It fails if there is one, or if memory runs out.
fn take_lines(
    alloc: Global,
    opening: &mut OpeningObjects,
    jobs: &mut Draft,
    bytes: &[u8],
) -> Result<(), JobsFault>
    requires empty { so_far opening.old jobs.old ≡ empty }
    requires few { length (lines bytes.now) + 1 < 2 ^ 64 }
    ensures says { OnOk result (jobs_of bytes.now ≡ Ok (so_far opening.new jobs.new)) }
    ensures fails { IfErr result (FailsToSay bytes.now) }
{
    let mut left = ScriptLines::new(bytes);
    let mut number = 1;
    'lines: while let Some(line) = left.next_job_line() {
        match take_line(alloc, opening, jobs, line) {
            Ok(true) => {}
            Ok(false) => return Err(JobsFault::BadLine(number)),
            Err(NoMemory) => return Err(JobsFault::NoMemory),
        }
        number += 1;
    }
    Ok(())
}

/// Returns the script that the bytes say.
pub(crate) fn parse_jobs(alloc: Global, bytes: &[u8]) -> Result<JobScript, JobsFault>
    requires { length bytes.now ≤ input_limit }
    ensures says { IfOk result (λ script. jobs_of bytes.now ≡ Ok (script_of script)) }
    ensures fails { IfErr result (FailsToSay bytes.now) }
{
    let mut opening = OpeningObjects::new(alloc);
    let mut jobs = Draft::new(alloc);
    match take_lines(alloc, &mut opening, &mut jobs, bytes) {
        Ok(()) => Ok(JobScript {
            opening: opening.into_pairs(),
            jobs: jobs.into_jobs(),
        }),
        Err(fault) => Err(fault),
    }
}
