//! Reads a job script.

ghost use Rattle.std.specs.Prelude.{◌≡◌, false, Ok, IfErr, IfOk, OnOk};
ghost use Rattle.asset_scripts.specs.Device.{IsUnused};
ghost use Rattle.asset_jobs.specs.Reads.{FailsToRead, GaveScript};
ghost use Rattle.asset_jobs.specs.Scripts.{script_of};

use crate::faults::JobsFault;
use crate::parsing::parse_jobs;
use crate::scripts::JobScript;
use asset_scripts::{Device, ScriptFault, read_all};
use std::alloc::Global;
use std::io::Read;

/// Reads the job script that the reader gives, all of it.
///
/// Answers `BadLine` with the number of the first bad line; `Read` only if the reader failed, gave more than 67,108,864
/// bytes or was asked 134,217,728 times; and `NoMemory` if memory runs out.
///
/// Requires a device that was asked nothing. Holds the whole input in memory, and takes time nearly in proportion to it.
pub fn read_jobs<R: Read>(alloc: Global, input: &mut Device<R>) -> Result<JobScript, JobsFault>
    requires { IsUnused input.old }
    ensures sound { OnOk result (input.new.failed ≡ false) }
    ensures script { IfOk result (λ script. GaveScript R.remaining input.old input.new (Ok (script_of script))) }
    ensures fault { IfErr result (FailsToRead R.remaining input.old input.new) }
{
    match read_all(alloc, input) {
        Ok(bytes) => parse_jobs(alloc, &bytes),
        Err(ScriptFault::Read) => Err(JobsFault::Read),
        Err(_) => Err(JobsFault::NoMemory),
    }
}
