//! Takes a script from a reader to a writer: reads all of it, makes a text of it, and writes that.
ghost use Rattle.std.specs.Prelude.{◌≡◌, false, OnOk, IfOk, IfErr};
ghost use Rattle.asset_scripts.specs.Device.{IsUnused};
ghost use Rattle.asset_scripts.specs.Runs.{WroteAll, Stops};

use crate::device::Device;
use crate::ends::RunEnd;
use crate::faults::ScriptFault;
use crate::reading::read_all;
use crate::writing::write_all;
use std::alloc::Global;
use std::io::{Read, Write};

/// A way to make a text of the bytes of a script.
pub trait Render {
    ghost use Rattle.std.specs.Prelude.{◌≡◌, ℕ, ◌≤◌, List, length, IfOk, IfErr, string_bytes};
    ghost use Rattle.asset_scripts.specs.Renders.{Renders};
    ghost use Rattle.asset_scripts.specs.Transcript.{Transcript};
    ghost use Rattle.asset_scripts.specs.Transfers.{input_limit};

    /// The text that is made of bytes, and how the run ends.
    ghost transcript: { Self → List ℕ → Transcript };

    /// Appends what is made of the bytes, at most 67,108,864, to the text. Returns how the run ends. Answers `NoMemory` if memory
    /// runs out, and no other fault; a part may have been appended then.
    fn render(&self, alloc: Global, bytes: &[u8], text: &mut String) -> Result<RunEnd, ScriptFault>
        requires limit { length bytes.now ≤ input_limit }
        ensures rendered { IfOk result (λ end. Renders (string_bytes text.old) (transcript self.now bytes.now) (string_bytes text.new) end) }
        ensures memory { IfErr result (λ fault. fault ≡ ScriptFault.NoMemory) };
}

/// Reads the script that the reader gives, and writes what is made of it. On `Ok` that was written of all bytes that the reader
/// gave, and nothing else.
///
/// Answers `Read` only if the reader failed, gave more than 67,108,864 bytes or was asked 134,217,728 times; `Write` only if the
/// writer failed, and then a prefix was written; and `NoMemory` if memory runs out. After `Read` and `NoMemory` nothing was
/// written.
///
/// Requires devices that were asked nothing. Holds the whole input and all that it writes in memory, and writes nothing before
/// the input has ended.
pub fn render_all<R: Read, W: Write, M: Render>(
    alloc: Global,
    input: &mut Device<R>,
    output: &mut Device<W>,
    renderer: &M,
) -> Result<RunEnd, ScriptFault>
    requires unused_input { IsUnused input.old }
    requires unused_output { IsUnused output.old }
    ensures sound_input { OnOk result (input.new.failed ≡ false) }
    ensures sound_output { OnOk result (output.new.failed ≡ false) }
    ensures wrote { IfOk result (WroteAll R.remaining W.contents (M.transcript renderer.now) input.old input.new output.old output.new) }
    ensures stopped { IfErr result (Stops R.remaining W.contents (M.transcript renderer.now) input.old input.new output.old output.new) }
{
    let bytes = read_all(alloc, input)?;
    let mut text = String::new(alloc);
    let end = renderer.render(alloc, &bytes, &mut text)?;
    write_all(output, text.as_bytes())?;
    Ok(end)
}
