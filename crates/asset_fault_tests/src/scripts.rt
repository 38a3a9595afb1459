//! Runs scripts between a reader and a writer that take no memory.

use asset_cli::{Report, Work, run_for};
use asset_scripts::{Device, RunEnd, ScriptFault};
use asset_test_tools::{Reader, Writer};
use std::alloc::Global;

/// What a script is run for, in the order in which a row has its texts.
pub(crate) const WORDS: [Work; 6] = [
    Work::Run,
    Work::Report(Report::Pruned),
    Work::Report(Report::Groups),
    Work::Sources,
    Work::Report(Report::Serial),
    Work::Steps,
];

/// How a run ended, which devices failed, how many bytes of the wanted text were not written, and whether those that were
/// written begin that text.
#[derive(Clone, Copy)]
pub(crate) struct Left {
    pub(crate) end: Result<RunEnd, ScriptFault>,
    pub(crate) failed: (bool, bool),
    pub(crate) missing: usize,
    pub(crate) same: bool,
}

/// Runs a script between a reader and a writer.
pub(crate) fn run(alloc: Global, work: Work, reader: Reader<'_>, mut writer: Writer<'_>) -> Left {
    let mut input = Device::new(reader);
    let mut output = Device::new(&mut writer);
    let end = run_for(alloc, &mut input, &mut output, 10_000, work);
    let failed = (input.failed(), output.failed());
    drop(output);
    Left {
        end,
        failed,
        missing: writer.wanted.len(),
        same: writer.same,
    }
}

/// Returns whether a run ended so, with the whole text written and nothing else.
pub(crate) fn is_whole(left: &Left, end: RunEnd) -> bool {
    left.end == Ok(end) && left.failed == (false, false) && left.missing == 0 && left.same
}

/// Returns whether a run met this fault, with all but `missing` bytes written.
pub(crate) fn is_stopped(left: &Left, fault: ScriptFault, missing: usize) -> bool {
    left.end == Err(fault) && left.missing == missing && left.same
}
