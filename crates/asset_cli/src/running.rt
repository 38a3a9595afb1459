//! Runs scripts, each for a work.
ghost use Rattle.std.specs.Prelude.{◌≡◌, ℕ, true, false, List, OnOk, IfOk, IfErr};
ghost use Rattle.asset_core.specs.OpenFaults.{IsCapacity};
ghost use Rattle.asset_scripts.specs.Device.{IsUnused};
ghost use Rattle.asset_scripts.specs.declared.prints.Prints.TheVariants.{Replies, Listing};
ghost use Rattle.asset_scripts.specs.Transcript.{transcript};
ghost use Rattle.asset_scripts.specs.Runs.{WroteAll, Stops};
ghost use Rattle.asset_cli.specs.Reporting.{grouped, pictured, pruned, reported, serialized, sourced, transcript_of};
ghost use Rattle.asset_cli.specs.Again.{PrunedRunsAgain, SerialRunsAgain};

use crate::reporting::{Report, Run, Work};
use asset_scripts::{Device, RunEnd, ScriptFault, render_all};
use std::alloc::Global;
use std::io::{Read, Write};

/// Runs the script that the reader gives, and writes what the work gives of it: its transcript, or a report on the history
/// that it leaves. What `run_script` says of faults and requires holds here too.
pub fn run_for<R: Read, W: Write>(
    alloc: Global,
    input: &mut Device<R>,
    output: &mut Device<W>,
    capacity: usize,
    work: Work,
) -> Result<RunEnd, ScriptFault>
    requires capacity { IsCapacity capacity }
    requires unused_input { IsUnused input.old }
    requires unused_output { IsUnused output.old }
    ensures sound_input { OnOk result (input.new.failed ≡ false) }
    ensures sound_output { OnOk result (output.new.failed ≡ false) }
    ensures wrote { IfOk result (WroteAll R.remaining W.contents (λ bytes. transcript_of work bytes capacity) input.old input.new output.old output.new) }
    ensures stopped { IfErr result (Stops R.remaining W.contents (λ bytes. transcript_of work bytes capacity) input.old input.new output.old output.new) }
{
    render_all(alloc, input, output, &Run { work, capacity })
}

/// Runs the script that the reader gives, over a history with room for `capacity` entries, and writes its
/// transcript. On `Ok` the transcript of all bytes that the reader gave was written, and nothing else; it
/// ends at the first bad line, if there is one.
///
/// Answers `Read` only if the reader failed, gave more than 67,108,864 bytes or was asked 134,217,728
/// times; `Write` only if the writer failed, and then a prefix of the transcript was written; and
/// `NoMemory` if memory runs out. After `Read` and `NoMemory` nothing was written.
///
/// Requires a capacity from 1 to 1,000,000, and devices that were asked nothing. Holds the whole input and
/// the whole transcript in memory, and writes nothing before the input has ended.
pub fn run_script<R: Read, W: Write>(
    alloc: Global,
    input: &mut Device<R>,
    output: &mut Device<W>,
    capacity: usize,
) -> Result<RunEnd, ScriptFault>
    requires capacity { IsCapacity capacity }
    requires unused_input { IsUnused input.old }
    requires unused_output { IsUnused output.old }
    ensures sound_input { OnOk result (input.new.failed ≡ false) }
    ensures sound_output { OnOk result (output.new.failed ≡ false) }
    ensures wrote { IfOk result (WroteAll R.remaining W.contents (λ bytes. transcript Replies bytes capacity) input.old input.new output.old output.new) }
    ensures stopped { IfErr result (Stops R.remaining W.contents (λ bytes. transcript Replies bytes capacity) input.old input.new output.old output.new) }
{
    run_for(alloc, input, output, capacity, Work::Run)
}

/// Runs the script that the reader gives, and writes a line for each step: the number of its line, the number of the entry that
/// it becomes or `-` if it becomes none, the step, and the line that `run_script` writes for it. It ends at the first bad line, as
/// `run_script` does. What `run_script` says of faults and requires holds here too.
pub fn steps_script<R: Read, W: Write>(
    alloc: Global,
    input: &mut Device<R>,
    output: &mut Device<W>,
    capacity: usize,
) -> Result<RunEnd, ScriptFault>
    requires capacity { IsCapacity capacity }
    requires unused_input { IsUnused input.old }
    requires unused_output { IsUnused output.old }
    ensures sound_input { OnOk result (input.new.failed ≡ false) }
    ensures sound_output { OnOk result (output.new.failed ≡ false) }
    ensures wrote { IfOk result (WroteAll R.remaining W.contents (λ bytes. transcript Listing bytes capacity) input.old input.new output.old output.new) }
    ensures stopped { IfErr result (Stops R.remaining W.contents (λ bytes. transcript Listing bytes capacity) input.old input.new output.old output.new) }
{
    run_for(alloc, input, output, capacity, Work::Steps)
}

/// Runs the script that the reader gives, and writes the script that is left without its dead groups: the objects, and the
/// steps that were answered and are of no dead group. Run again, over a history with room for its entries, it gets the replies
/// that they had. If a line is bad, the line that says so is all that is written. What `run_script` says of faults and requires
/// holds here too.
pub fn prune_script<R: Read, W: Write>(
    alloc: Global,
    input: &mut Device<R>,
    output: &mut Device<W>,
    capacity: usize,
) -> Result<RunEnd, ScriptFault>
    requires capacity { IsCapacity capacity }
    requires unused_input { IsUnused input.old }
    requires unused_output { IsUnused output.old }
    ensures sound_input { OnOk result (input.new.failed ≡ false) }
    ensures sound_output { OnOk result (output.new.failed ≡ false) }
    ensures wrote { IfOk result (WroteAll R.remaining W.contents (λ bytes. reported pruned bytes capacity) input.old input.new output.old output.new) }
    ensures stopped { IfErr result (Stops R.remaining W.contents (λ bytes. reported pruned bytes capacity) input.old input.new output.old output.new) }
    ensures again { (bytes : List ℕ) → PrunedRunsAgain bytes capacity }
{
    run_for(alloc, input, output, capacity, Work::Report(Report::Pruned))
}

/// Runs the script that the reader gives, and writes a line for each group of the history that it leaves, in order of number:
/// the number, `committed` if a member has committed and `dead` if none has, and the members in order of first use. If a line
/// is bad, the line that says so is all that is written. What `run_script` says of faults and requires holds here too.
pub fn groups_script<R: Read, W: Write>(
    alloc: Global,
    input: &mut Device<R>,
    output: &mut Device<W>,
    capacity: usize,
) -> Result<RunEnd, ScriptFault>
    requires capacity { IsCapacity capacity }
    requires unused_input { IsUnused input.old }
    requires unused_output { IsUnused output.old }
    ensures sound_input { OnOk result (input.new.failed ≡ false) }
    ensures sound_output { OnOk result (output.new.failed ≡ false) }
    ensures wrote { IfOk result (WroteAll R.remaining W.contents (λ bytes. reported grouped bytes capacity) input.old input.new output.old output.new) }
    ensures stopped { IfErr result (Stops R.remaining W.contents (λ bytes. reported grouped bytes capacity) input.old input.new output.old output.new) }
{
    run_for(alloc, input, output, capacity, Work::Report(Report::Groups))
}

/// Runs the script that the reader gives, and writes the script of those who committed, one after another in the order of their
/// commits: the objects, and the steps of each that were answered. Run again, over a history with room for its entries, it gets
/// the replies that they had, and leaves what they left. If those who committed shared something with anybody, the line
/// `shared` is written instead, and the run ends with `Shared`. If a line is bad, the line that says so is all that is written.
/// What `run_script` says of faults and requires holds here too.
pub fn serial_script<R: Read, W: Write>(
    alloc: Global,
    input: &mut Device<R>,
    output: &mut Device<W>,
    capacity: usize,
) -> Result<RunEnd, ScriptFault>
    requires capacity { IsCapacity capacity }
    requires unused_input { IsUnused input.old }
    requires unused_output { IsUnused output.old }
    ensures sound_input { OnOk result (input.new.failed ≡ false) }
    ensures sound_output { OnOk result (output.new.failed ≡ false) }
    ensures wrote { IfOk result (WroteAll R.remaining W.contents (λ bytes. reported serialized bytes capacity) input.old input.new output.old output.new) }
    ensures stopped { IfErr result (Stops R.remaining W.contents (λ bytes. reported serialized bytes capacity) input.old input.new output.old output.new) }
    ensures again { (bytes : List ℕ) → SerialRunsAgain bytes capacity }
{
    run_for(alloc, input, output, capacity, Work::Report(Report::Serial))
}

/// Runs the script that the reader gives, and writes a picture of the history that it leaves, as an SVG: a lane for each
/// transaction with a mark for each operation, or a table of the transactions if there are more than 200 entries. If a line is
/// bad, the line that says so is all that is written. What `run_script` says of faults and requires holds here too.
pub fn picture_script<R: Read, W: Write>(
    alloc: Global,
    input: &mut Device<R>,
    output: &mut Device<W>,
    capacity: usize,
) -> Result<RunEnd, ScriptFault>
    requires capacity { IsCapacity capacity }
    requires unused_input { IsUnused input.old }
    requires unused_output { IsUnused output.old }
    ensures sound_input { OnOk result (input.new.failed ≡ false) }
    ensures sound_output { OnOk result (output.new.failed ≡ false) }
    ensures wrote { IfOk result (WroteAll R.remaining W.contents (λ bytes. reported pictured bytes capacity) input.old input.new output.old output.new) }
    ensures stopped { IfErr result (Stops R.remaining W.contents (λ bytes. reported pictured bytes capacity) input.old input.new output.old output.new) }
{
    run_for(
        alloc,
        input,
        output,
        capacity,
        Work::Report(Report::Picture),
    )
}

/// Runs the script that the reader gives, and writes a line for each read that was answered by a value: the number of its entry
/// from 0, the read, the value, and its source: the number of the entry with the last write in the value, or `opening` if there
/// is none. Adds in the value are not told. If a line is bad, the line that says so is all that is written. What `run_script`
/// says of faults and requires holds here too.
pub fn sources_script<R: Read, W: Write>(
    alloc: Global,
    input: &mut Device<R>,
    output: &mut Device<W>,
    capacity: usize,
) -> Result<RunEnd, ScriptFault>
    requires capacity { IsCapacity capacity }
    requires unused_input { IsUnused input.old }
    requires unused_output { IsUnused output.old }
    ensures sound_input { OnOk result (input.new.failed ≡ false) }
    ensures sound_output { OnOk result (output.new.failed ≡ false) }
    ensures wrote { IfOk result (WroteAll R.remaining W.contents (λ bytes. reported sourced bytes capacity) input.old input.new output.old output.new) }
    ensures stopped { IfErr result (Stops R.remaining W.contents (λ bytes. reported sourced bytes capacity) input.old input.new output.old output.new) }
{
    run_for(alloc, input, output, capacity, Work::Sources)
}
