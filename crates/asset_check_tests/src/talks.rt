//! Holds conversations between a reader and two writers that take no memory.

ghost use Rattle.asset_core.specs.OpenFaults.{IsCapacity};

use asset_scripts::{Device, RunEnd, ScriptFault};
use asset_shell::run_shell;
use asset_test_tools::{Reader, Writer};
use std::alloc::Global;

/// How a conversation ended, which devices failed, how many bytes of the wanted replies and reasons were not written, and whether
/// those that were written begin them.
#[derive(Clone, Copy)]
pub(crate) struct Left {
    pub(crate) end: Result<RunEnd, ScriptFault>,
    pub(crate) failed: (bool, bool, bool),
    pub(crate) missing: (usize, usize),
    pub(crate) same: bool,
}

/// Holds a conversation.
pub(crate) fn talk(
    alloc: Global,
    reader: Reader<'_>,
    mut replies: Writer<'_>,
    mut reasons: Writer<'_>,
    capacity: usize,
) -> Left
    requires { IsCapacity capacity }
{
    let mut input = Device::new(reader);
    let mut output = Device::new(&mut replies);
    let mut errors = Device::new(&mut reasons);
    let end = run_shell(alloc, &mut input, &mut output, &mut errors, capacity);
    let failed = (input.failed(), output.failed(), errors.failed());
    drop(output);
    drop(errors);
    Left {
        end,
        failed,
        missing: (replies.wanted.len(), reasons.wanted.len()),
        same: replies.same && reasons.same,
    }
}

/// Returns whether a conversation ended so, with all replies and reasons written and nothing else.
pub(crate) fn is_whole(left: &Left, end: RunEnd) -> bool {
    left.end == Ok(end)
        && left.failed == (false, false, false)
        && left.missing == (0, 0)
        && left.same
}
