//! How jobs ended, and the lines that say it. If memory runs out, a part of a line may have been appended to the text.

ghost use Rattle.std.specs.Prelude.{◌≡◌, ◌++◌, OnOk, flat_map, string_bytes};
ghost use Rattle.asset_jobs.specs.Texts.{audit_line, counts_line, end_text, fault_line, jobs_text, row_line};

use asset_audit::AuditFault;
use asset_names::{Counts, Txn};
use std::alloc::AllocError;

/// How a job ended.
#[derive(Clone, Copy, Debug, PartialEq, Eq)]
pub enum JobText {
    /// It committed.
    Committed,
    /// It aborted.
    Aborted,
    /// Neither was answered.
    Unsettled,
    /// Its body was not called.
    NotBegun,
}

/// Returns the words of an end.
#[tactic(auto, unfolding(crate::specs::Texts::end_text))]
fn words_of(end: JobText) -> &'static str
    ensures { result.now ≡ end_text end }
{
    match end {
        JobText::Committed => "committed",
        JobText::Aborted => "aborted",
        JobText::Unsettled => "unsettled",
        JobText::NotBegun => "not begun",
    }
}

/// Appends the line of a job.
#[tactic(auto, unfolding(crate::specs::Texts::row_line, asset_printing::specs::Texts::line_end))]
fn push_row(text: &mut String, row: (Txn, JobText)) -> Result<(), AllocError>
    ensures { OnOk result (string_bytes text.new ≡ string_bytes text.old ++ row_line row) }
{
    writeln!(text, "job {} {}", row.0.0, words_of(row.1))
}

/// Appends the lines of the jobs, in order.
fn push_rows(text: &mut String, rows: &[(Txn, JobText)]) -> Result<(), AllocError>
    ensures { OnOk result (string_bytes text.new ≡ string_bytes text.old ++ flat_map row_line rows.now) }
{
    'rows: for row in rows {
        push_row(text, *row)?;
    }
    Ok(())
}

/// Appends the line of an audit that found nothing.
#[tactic(auto, unfolding(crate::specs::Texts::counts_line, asset_printing::specs::Texts::line_end))]
fn push_counts(text: &mut String, counts: Counts) -> Result<(), AllocError>
    ensures { OnOk result (string_bytes text.new ≡ string_bytes text.old ++ counts_line counts) }
{
    writeln!(
        text,
        "audit ok entries {} committed {} aborted {}",
        counts.entries, counts.committed, counts.aborted
    )
}

/// Appends the line of what an audit found.
#[tactic(auto, unfolding(crate::specs::Texts::fault_line, asset_printing::specs::Texts::line_end))]
fn push_fault(text: &mut String, fault: AuditFault) -> Result<(), AllocError>
    ensures { OnOk result (string_bytes text.new ≡ string_bytes text.old ++ fault_line fault) }
{
    match fault {
        AuditFault::Differs { session, number } => {
            writeln!(text, "audit differs {session} {number}")
        }
        AuditFault::Missing { told, kept } => writeln!(text, "audit missing {told} {kept}"),
    }
}

/// Appends the line of an audit.
#[tactic(auto, unfolding(crate::specs::Texts::audit_line))]
fn push_audit(
    text: &mut String,
    audit: &Result<(), AuditFault>,
    counts: Counts,
) -> Result<(), AllocError>
    ensures { OnOk result (string_bytes text.new ≡ string_bytes text.old ++ audit_line audit.now counts) }
{
    match audit {
        Ok(()) => push_counts(text, counts),
        Err(fault) => push_fault(text, *fault),
    }
}

/// Appends the lines of the jobs, in order, and then that of the audit.
#[tactic(auto, unfolding(crate::specs::Texts::jobs_text))]
pub(crate) fn push_jobs(
    text: &mut String,
    rows: &[(Txn, JobText)],
    audit: &Result<(), AuditFault>,
    counts: Counts,
) -> Result<(), AllocError>
    ensures { OnOk result (string_bytes text.new ≡ string_bytes text.old ++ jobs_text rows.now audit.now counts) }
{
    push_rows(text, rows)?;
    push_audit(text, audit, counts)
}
