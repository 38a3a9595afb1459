//! A conversation over any reader and writers.

ghost use Rattle.std.specs.Prelude.{◌≡◌};
ghost use Rattle.asset_core.specs.OpenFaults.{IsCapacity};
ghost use Rattle.asset_program.specs.Converse.{Converses, Talks};

use crate::program::{say_fault, say_range};
use asset_requests::capacity_or_default;
use asset_scripts::Device;
use asset_shell::run_shell;
use std::alloc::Global;
use std::io::{Read, Write};

/// Holds a conversation over a history with room for `capacity` entries. Says a fault to the errors. Returns the exit status.
fn talk<R: Read, W: Write, E: Write, F: Write>(
    alloc: Global,
    capacity: usize,
    input: &mut Device<R>,
    output: &mut Device<W>,
    reasons: &mut Device<E>,
    errors: &mut F,
) -> u8
    requires capacity { IsCapacity capacity }
    ensures { Talks R.remaining W.contents E.contents capacity input.old input.new output.old output.new reasons.old reasons.new result }
{
    let ended = run_shell(alloc, input, output, reasons, capacity);
    say_fault(ended, errors)
}

/// Holds a conversation, over a history with room for as many entries as are requested, or 10,000: answers each line that the reader
/// gives before it is asked for more. Answers go to the output, and why a line is bad to the reasons. Says a fault, or that the
/// request is out of range, to the errors. Returns the exit status: 0 if no line was bad.
#[tactic(auto, unfolding(crate::specs::Converse::Converses))]
pub fn converse<R: Read, W: Write, E: Write, F: Write>(
    alloc: Global,
    requested: Option<u32>,
    input: &mut Device<R>,
    output: &mut Device<W>,
    reasons: &mut Device<E>,
    errors: &mut F,
) -> u8
    ensures { Converses R.remaining W.contents E.contents requested input.old input.new output.old output.new reasons.old reasons.new result }
{
    match capacity_or_default(requested) {
        Some(capacity) => talk(alloc, capacity, input, output, reasons, errors),
        None => say_range(errors),
    }
}
