//! Does what the arguments ask for, or hands it back if that is to run jobs, whose bodies the caller boxes.

ghost use Rattle.asset_scripts.specs.Device.{IsUnused};
ghost use Rattle.asset_program.specs.Doing.{LeadsTo};

use crate::conversing::converse;
use crate::program::{run_check, run_program};
use asset_requests::{Answer, Asked, JobsRequest};
use asset_scripts::Device;
use std::alloc::Global;
use std::io::{Read, Write};

/// What the caller does next.
#[derive(Clone, Copy, Debug, PartialEq, Eq)]
pub enum Next {
    /// It runs the jobs that the reader gives.
    Jobs(JobsRequest),
    /// It exits with this status.
    Exit(u8),
}

/// Does what the arguments ask for, by what `requested` answered: runs a script, checks one, holds a conversation, or
/// shows the answer in place of them. Each goes to the devices as `run_program`, `run_check` and `converse` say; only a conversation has
/// reasons. Jobs are handed back, and then nothing is read or written.
///
/// Requires devices that were asked nothing.
#[tactic(auto, unfolding(crate::specs::Doing::LeadsTo, crate::specs::Doing::Ends))]
pub fn do_asked<R: Read, W: Write, E: Write, F: Write>(
    alloc: Global,
    asked: Result<Asked, Answer>,
    input: &mut Device<R>,
    output: &mut Device<W>,
    reasons: &mut Device<E>,
    errors: &mut F,
) -> Next
    requires unused_input { IsUnused input.old }
    requires unused_output { IsUnused output.old }
    ensures { LeadsTo R.remaining W.contents E.contents asked input.old input.new output.old output.new reasons.old reasons.new result }
{
    match asked {
        Ok(Asked::Script(request)) => {
            Next::Exit(run_program(alloc, &Ok(request), input, output, errors))
        }
        Ok(Asked::Check) => Next::Exit(run_check(alloc, input, output, errors)),
        Ok(Asked::Shell(requested)) => {
            Next::Exit(converse(alloc, requested, input, output, reasons, errors))
        }
        Ok(Asked::Jobs(request)) => Next::Jobs(request),
        Err(answer) => Next::Exit(run_program(alloc, &Err(answer), input, output, errors)),
    }
}
