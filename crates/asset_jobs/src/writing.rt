//! Writes how jobs ended.

ghost use Rattle.std.specs.Prelude.{◌≡◌, IfErr, OnOk};
ghost use Rattle.std.specs.Io.KnownBytes.{Appends};
ghost use Rattle.asset_jobs.specs.Reads.{FailsToWrite};
ghost use Rattle.asset_jobs.specs.Texts.{jobs_text};

use crate::rows::{JobText, push_jobs};
use asset_audit::AuditFault;
use asset_names::{Counts, Txn};
use asset_scripts::{Device, ScriptFault, write_all};
use std::alloc::Global;
use std::io::Write;

/// Writes a line for each job, in order, and then a line for the audit: the counts if it found nothing, or what it found.
/// Nothing is written before the text is whole.
///
/// Answers `Write` only if the writer failed, and then a prefix of the text was written; and `NoMemory` if memory runs out,
/// and then nothing was.
pub fn write_jobs<W: Write>(
    alloc: Global,
    output: &mut Device<W>,
    rows: &[(Txn, JobText)],
    audit: &Result<(), AuditFault>,
    counts: Counts,
) -> Result<(), ScriptFault>
    ensures wrote { OnOk result (Appends (W.contents output.old.inner) (W.contents output.new.inner) (jobs_text rows.now audit.now counts)) }
    ensures sound { OnOk result (output.new.failed ≡ output.old.failed) }
    ensures stopped { IfErr result (FailsToWrite W.contents output.old output.new (jobs_text rows.now audit.now counts)) }
{
    let mut text = String::new(alloc);
    match push_jobs(&mut text, rows, audit, counts) {
        Ok(()) => write_all(output, text.as_bytes()),
        Err(_) => Err(ScriptFault::NoMemory),
    }
}
