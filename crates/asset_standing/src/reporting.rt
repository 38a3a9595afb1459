//! The report of who waits for whom when a script has ended.
ghost use Rattle.std.specs.Prelude.{◌≡◌, ◌++◌, false, IfOk, OnOk, IfErr, string_bytes};
ghost use Rattle.asset_core.specs.OpenFaults.{IsCapacity};
ghost use Rattle.asset_scripts.specs.Device.{IsUnused};
ghost use Rattle.asset_scripts.specs.Runs.{WroteAll, Stops};
ghost use Rattle.asset_names.specs.Steps.{applied};
ghost use Rattle.asset_waits.specs.Texts.{report_text};
ghost use Rattle.asset_standing.specs.Waited.{waited};

use crate::standing::{Stood, stand};
use asset_core::Core;
use asset_printing::push_bad_line;
use asset_scripts::{Device, Render, RunEnd, ScriptFault, render_all};
use asset_waits::push_waits;
use std::alloc::Global;
use std::io::{Read, Write};

/// Appends the report of what stands, and drops the facility.
fn push_report(alloc: Global, core: Core, text: &mut String) -> Result<RunEnd, ScriptFault>
    ensures text { OnOk result (string_bytes text.new ≡ string_bytes text.old ++ report_text (applied core.history.entries) core.pending) }
    ensures end { IfOk result (λ end. end ≡ RunEnd.Finished) }
    ensures memory { IfErr result (λ fault. fault ≡ ScriptFault.NoMemory) }
{
    let mut core = core;
    let pushed = push_waits(alloc, &mut core, text);
    drop(core);
    match pushed {
        Ok(()) => Ok(RunEnd::Finished),
        Err(_) => Err(ScriptFault::NoMemory),
    }
}

/// The report of who waits for whom when a script has ended, over a history with room for `capacity` entries.
#[derive(Drop)]
struct Waits {
    capacity: usize,
    ghost within: { IsCapacity capacity },
}

impl Render for Waits {
    ghost use Rattle.asset_standing.specs.Waited.{waited};

    ghost transcript = { λ waits bytes. waited bytes waits.capacity };

    fn render(
        &self,
        alloc: Global,
        bytes: &[u8],
        text: &mut String,
    ) -> Result<RunEnd, ScriptFault> {
        match stand(alloc, bytes, self.capacity) {
            Ok(Stood::Finished(core)) => push_report(alloc, core, text),
            Ok(Stood::BadLine(number)) => {
                push_bad_line(text, number)?;
                Ok(RunEnd::BadLine(number))
            }
            Err(fault) => Err(fault),
        }
    }
}

/// Runs the script that the reader gives, over a history with room for `capacity` entries, and writes who waits for whom when
/// it has ended: a line for each live transaction with its status, the lines of what it waits for and because of whom, and a
/// line for each deadlock: those who wait for each other, directly or through others. On `Ok` the report on all bytes that
/// the reader gave was written, and nothing else; a bad line is all that is written, if there is one.
///
/// Answers `Read` only if the reader failed, gave more than 67,108,864 bytes or was asked 134,217,728 times; `Write` only if the
/// writer failed, and then a prefix of the report was written; and `NoMemory` if memory runs out. After `Read` and `NoMemory`
/// nothing was written.
///
/// Requires a capacity from 1 to 1,000,000, and devices that were asked nothing. Holds the whole input and the whole report in
/// memory, and writes nothing before the input has ended.
pub fn waits_script<R: Read, W: Write>(
    alloc: Global,
    input: &mut Device<R>,
    output: &mut Device<W>,
    capacity: usize,
) -> Result<RunEnd, ScriptFault>
    requires capacity { IsCapacity capacity }
    requires unused_input { IsUnused input.old }
    requires unused_output { IsUnused output.old }
    ensures sound_input { OnOk result (input.new.failed ≡ false) }
    ensures sound_output { OnOk result (output.new.failed ≡ false) }
    ensures wrote { IfOk result (WroteAll R.remaining W.contents (λ bytes. waited bytes capacity) input.old input.new output.old output.new) }
    ensures stopped { IfErr result (Stops R.remaining W.contents (λ bytes. waited bytes capacity) input.old input.new output.old output.new) }
{
    render_all(alloc, input, output, &Waits { capacity })
}
