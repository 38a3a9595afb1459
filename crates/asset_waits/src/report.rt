//! The whole report.

ghost use Rattle.std.specs.Prelude.{◌≡◌, ◌++◌, OnOk, string_bytes};
ghost use Rattle.asset_names.specs.Steps.{applied};
ghost use Rattle.asset_waits.specs.Texts.{report_text};

use crate::arrows::wait_arrows;
use crate::deadlocks::push_deadlocks;
use crate::live::live_names;
use crate::waiters::push_waiters;
use asset_core::Core;
use asset_names::NoMemory;
use std::alloc::Global;

/// Appends who waits for whom at the end of the history. Each live transaction has a line with its status, in order of
/// initiation. One that runs and has a pending request then has a line for each who blocks that request, with the
/// operations by which it holds the object, or one line if nobody does any more. One that has completed has a line for each
/// member of its class that has not, and for each live source outside it. At last each deadlock has a line that names those
/// who wait for each other in it, directly or through others, in order of initiation.
///
/// It answers `NoMemory` if memory runs out, and a part of the text may have been appended then. The facility stays the same.
/// It goes over the entries once, and asks of each live transaction twice for whom it waits.
pub fn push_waits(alloc: Global, core: &mut Core, text: &mut String) -> Result<(), NoMemory>
    ensures text { OnOk result (string_bytes text.new ≡ string_bytes text.old ++ report_text (applied core.old.history.entries) core.old.pending) }
    ensures same { core.new ≡ core.old }
{
    let names = live_names(alloc, core)?;
    push_waiters(alloc, core, text, names.as_slice())?;
    let arrows = wait_arrows(alloc, core, &names)?;
    push_deadlocks(alloc, text, names.as_slice(), &arrows)
}
