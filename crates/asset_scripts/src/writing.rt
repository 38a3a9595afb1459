//! Writes a whole text.
ghost use Rattle.std.specs.Prelude.{◌≡◌, true, OnOk, OnErr, IfErr};
ghost use Rattle.std.specs.Io.KnownBytes.{Appends};
ghost use Rattle.asset_scripts.specs.Transfers.{TookPrefix};

use crate::device::Device;
use crate::faults::ScriptFault;
use std::io::Write;

/// Writes all of the text, offering the writer what is left until it has taken everything. If the writer
/// fails, a prefix of the text was written.
pub fn write_all<W: Write>(output: &mut Device<W>, text: &[u8]) -> Result<(), ScriptFault>
    ensures took { OnOk result
        (Appends (W.contents output.old.inner) (W.contents output.new.inner) text.now) }
    ensures sound { OnOk result (output.new.failed ≡ output.old.failed) }
    ensures prefix { OnErr result (TookPrefix W.contents output.old output.new text.now) }
    ensures failed { OnErr result (output.new.failed ≡ true) }
    ensures writes_only { IfErr result (λ fault. fault ≡ ScriptFault.Write) }
{
    let mut rest = text;
    'offers: while !rest.is_empty() {
        let Some(count) = output.write(rest) else {
            return Err(ScriptFault::Write);
        };
        rest = &rest[count..];
    }
    Ok(())
}
