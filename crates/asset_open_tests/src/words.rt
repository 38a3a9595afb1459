//! Scripts that are run for each word.
ghost use Rattle.asset_core.specs.OpenFaults.{IsCapacity};

use asset_cli::{Work, run_for};
use asset_scripts::{Device, RunEnd, ScriptFault};
use std::alloc::Global;

/// The capacity of the history.
const ROOM: usize = 100_000;

/// Runs a script for a work, and adds to these bytes what it writes.
fn run(
    alloc: Global,
    work: Work,
    script: &[u8],
    capacity: usize,
    written: &mut Vec<u8>,
) -> Result<RunEnd, ScriptFault>
    requires { IsCapacity capacity }
{
    let mut input = Device::new(script);
    let mut output = Device::new(written);
    run_for(alloc, &mut input, &mut output, capacity, work)
}

/// Returns whether a script that is run for a work writes this text, and how the run ends.
fn writes_once(
    alloc: Global,
    work: Work,
    script: &str,
    text: &str,
) -> Result<(bool, RunEnd), ScriptFault> {
    let mut written = Vec::new(alloc);
    let ended = run(alloc, work, script.as_bytes(), ROOM, &mut written);
    let same = written.as_slice() == text.as_bytes();
    drop(written);
    Ok((same, ended?))
}

/// Returns whether a script that is run for a work writes this text and ends so. If memory runs out once, it is run again.
pub fn writes(alloc: Global, work: Work, script: &str, text: &str, end: RunEnd) -> bool {
    let ended = match writes_once(alloc, work, script, text) {
        Ok(ended) => Ok(ended),
        Err(_) => writes_once(alloc, work, script, text),
    };
    ended == Ok((true, end))
}

/// Returns the first of the works for which a script does not write the text beside it to its end.
pub fn first_other_work(alloc: Global, script: &str, texts: &[(Work, &str)]) -> Option<Work> {
    for (work, text) in texts {
        if !writes(alloc, *work, script, text, RunEnd::Finished) {
            return Some(*work);
        }
    }
    None
}
