//! Checks scripts between a reader and a writer that take no memory.

use asset_check::check_script;
use asset_scripts::{Device, RunEnd, ScriptFault};
use asset_test_tools::{Reader, Writer, taking, whole};
use std::alloc::Global;

/// How a check ended, which devices failed, how many bytes of the wanted text were not written, and whether those that were
/// written begin that text.
#[derive(Clone, Copy)]
pub(crate) struct Left {
    pub(crate) end: Result<RunEnd, ScriptFault>,
    pub(crate) failed: (bool, bool),
    pub(crate) missing: usize,
    pub(crate) same: bool,
}

/// Checks a script between a reader and a writer.
pub(crate) fn check(alloc: Global, reader: Reader<'_>, mut writer: Writer<'_>) -> Left {
    let mut input = Device::new(reader);
    let mut output = Device::new(&mut writer);
    let end = check_script(alloc, &mut input, &mut output);
    let failed = (input.failed(), output.failed());
    drop(output);
    Left {
        end,
        failed,
        missing: writer.wanted.len(),
        same: writer.same,
    }
}

/// Returns whether a check ended so, with the whole text written and nothing else.
pub(crate) fn is_whole(left: &Left, end: RunEnd) -> bool {
    left.end == Ok(end) && left.failed == (false, false) && left.missing == 0 && left.same
}

/// Returns whether a check met this fault, with all but `missing` bytes written.
pub(crate) fn is_stopped(left: &Left, fault: ScriptFault, missing: usize) -> bool {
    left.end == Err(fault) && left.missing == missing && left.same
}

/// Returns whether a check of a script writes this text and ends so.
pub(crate) fn gives(alloc: Global, script: &[u8], text: &str, end: RunEnd) -> bool {
    let left = check(alloc, whole(script), taking(text));
    is_whole(&left, end)
}
