//! How a run of jobs ends.

ghost use Rattle.std.specs.Prelude.{◌≡◌};
ghost use Rattle.asset_job_runs.specs.JobsEnd.{EndsJobs, EndsStopped, SaysBadLine, stop_status};
ghost use Rattle.asset_job_runs.specs.declared.jobs_end.JobsStop.TheVariants.{NoMemory};

use asset_audit::AuditFault;
use asset_jobs::JobsFault;
use asset_printing::push_bad_line;
use asset_scripts::{Device, ScriptFault, write_all};
use std::alloc::{AllocError, Global};
use std::io::Write;
use thiserror::Error;

/// Why jobs were not run to their end.
#[derive(Clone, Copy, Debug, PartialEq, Eq, Error)]
pub enum JobsStop {
    /// The line of this number is bad, and no job was run.
    #[error("line {0}: bad command")]
    BadLine(u64),
    /// The reader failed or gave too much.
    #[error("read fault")]
    Read,
    /// The writer failed.
    #[error("write fault")]
    Write,
    /// Memory ran out.
    #[error("no memory")]
    NoMemory,
    /// A number that the arguments give is out of range.
    #[error("a number is out of range")]
    OutOfRange,
    /// Somebody else still has the manager.
    #[error("manager in use")]
    InUse,
}

impl From<JobsFault> for JobsStop {
    ghost use Rattle.asset_job_runs.specs.JobsEnd.{stop_of_read};

    ghost from_gives = { λ fault stop. stop ≡ stop_of_read fault };

    fn from(fault: JobsFault) -> JobsStop {
        match fault {
            JobsFault::BadLine(number) => JobsStop::BadLine(number),
            JobsFault::Read => JobsStop::Read,
            JobsFault::NoMemory => JobsStop::NoMemory,
        }
    }
}

impl From<ScriptFault> for JobsStop {
    ghost use Rattle.asset_job_runs.specs.JobsEnd.{stop_of_write};

    ghost from_gives = { λ fault stop. stop ≡ stop_of_write fault };

    fn from(fault: ScriptFault) -> JobsStop {
        match fault {
            ScriptFault::Read => JobsStop::Read,
            ScriptFault::Write => JobsStop::Write,
            ScriptFault::NoMemory => JobsStop::NoMemory,
        }
    }
}

impl From<AllocError> for JobsStop {
    ghost from_gives = { λ _ stop. stop ≡ NoMemory };

    fn from(_error: AllocError) -> JobsStop {
        JobsStop::NoMemory
    }
}

/// Says to the errors why jobs were not run to their end. Returns the exit status.
#[tactic(auto, unfolding(crate::specs::JobsEnd::stop_status))]
fn say_stop<E: Write>(stop: JobsStop, errors: &mut E) -> u8
    ensures { result ≡ stop_status stop }
{
    let _ = writeln!(errors, "asset: {stop}");
    match stop {
        JobsStop::BadLine(_) => 2,
        JobsStop::OutOfRange => 2,
        JobsStop::Read => 1,
        JobsStop::Write => 1,
        JobsStop::NoMemory => 1,
        JobsStop::InUse => 1,
    }
}

/// Writes that a line is bad. Returns the exit status; at a fault, says it to the errors.
fn say_bad_line<W: Write, E: Write>(
    alloc: Global,
    number: u64,
    output: &mut Device<W>,
    errors: &mut E,
) -> u8
    ensures { SaysBadLine W.contents number output.old output.new result }
{
    let mut text = String::new(alloc);
    match push_bad_line(&mut text, number) {
        Ok(()) => match write_all(output, text.as_bytes()) {
            Ok(()) => 2,
            Err(_) => say_stop(JobsStop::Write, errors),
        },
        Err(_) => say_stop(JobsStop::NoMemory, errors),
    }
}

/// Says why jobs were not run to their end: a bad line to the output, and a fault to the errors. Returns the exit status.
#[tactic(auto, unfolding(crate::specs::JobsEnd::EndsStopped))]
fn end_stopped<W: Write, E: Write>(
    alloc: Global,
    stop: JobsStop,
    output: &mut Device<W>,
    errors: &mut E,
) -> u8
    ensures { EndsStopped W.contents stop output.old output.new result }
{
    match stop {
        JobsStop::BadLine(number) => say_bad_line(alloc, number, output, errors),
        _ => say_stop(stop, errors),
    }
}

/// Returns the exit status of jobs that were run, by their audit, or of jobs that were not. A bad line goes to the output,
/// and a fault to the errors; what was run is written before.
#[tactic(auto, unfolding(crate::specs::JobsEnd::EndsJobs))]
pub fn end_jobs<W: Write, E: Write>(
    alloc: Global,
    ended: Result<Result<(), AuditFault>, JobsStop>,
    output: &mut Device<W>,
    errors: &mut E,
) -> u8
    ensures { EndsJobs W.contents ended output.old output.new result }
{
    match ended {
        Ok(Ok(())) => 0,
        Ok(Err(_)) => 1,
        Err(stop) => end_stopped(alloc, stop, output, errors),
    }
}
