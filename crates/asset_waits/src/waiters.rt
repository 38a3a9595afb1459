//! The lines of live transactions.

ghost use Rattle.std.specs.Prelude.{◌≡◌, ◌++◌, OnOk, string_bytes};
ghost use Rattle.asset_names.specs.Steps.{applied};
ghost use Rattle.asset_waits.specs.Words.{status_word};
ghost use Rattle.asset_waits.specs.Texts.{status_line, waits_text, waiter_text, waiters_text};

use crate::commits::push_commit;
use crate::requests::push_request;
use asset_core::Core;
use asset_names::{NoMemory, Status, Txn};
use std::alloc::{AllocError, Global};

/// Returns the word of a status.
#[tactic(auto, unfolding(crate::specs::Words::status_word))]
fn status_word(status: Status) -> &'static str
    ensures { result.now ≡ status_word status }
{
    match status {
        Status::Unknown => "unknown",
        Status::Initiated => "initiated",
        Status::Running => "running",
        Status::Completed => "completed",
        Status::Committed => "committed",
        Status::Aborted => "aborted",
    }
}

/// Appends the line of a transaction with its status.
#[tactic(auto, unfolding(crate::specs::Texts::status_line, crate::specs::Words::pieces))]
fn push_status(text: &mut String, status: Status, t: Txn) -> Result<(), AllocError>
    ensures { OnOk result (string_bytes text.new ≡ string_bytes text.old ++ status_line status t.0) }
{
    let word = status_word(status);
    write!(text, "{} {word}\n", t.0)
}

/// Appends what a transaction of this status waits for, or answers `NoMemory` if memory runs out.
#[tactic(auto, unfolding(crate::specs::Texts::waits_text))]
fn push_waits_of(
    alloc: Global,
    core: &mut Core,
    text: &mut String,
    status: Status,
    t: Txn,
) -> Result<(), NoMemory>
    ensures text { OnOk result (string_bytes text.new ≡ string_bytes text.old ++ waits_text status (applied core.old.history.entries) core.old.pending t.0) }
    ensures same { core.new ≡ core.old }
{
    match status {
        Status::Running => push_request(alloc, core, text, t),
        Status::Completed => push_commit(alloc, core, text, t),
        Status::Unknown | Status::Initiated | Status::Committed | Status::Aborted => Ok(()),
    }
}

/// Appends the lines of a transaction: its status, and what it waits for. It answers `NoMemory` if memory runs out.
fn push_waiter(alloc: Global, core: &mut Core, text: &mut String, t: Txn) -> Result<(), NoMemory>
    ensures text { OnOk result (string_bytes text.new ≡ string_bytes text.old ++ waiter_text (applied core.old.history.entries) core.old.pending t.0) }
    ensures same { core.new ≡ core.old }
{
    let status = core.status(t);
    match push_status(text, status, t) {
        Ok(()) => push_waits_of(alloc, core, text, status, t),
        Err(_) => Err(NoMemory),
    }
}

/// Appends the lines of these transactions, or answers `NoMemory` if memory runs out.
pub(crate) fn push_waiters(
    alloc: Global,
    core: &mut Core,
    text: &mut String,
    names: &[u64],
) -> Result<(), NoMemory>
    ensures text { OnOk result (string_bytes text.new ≡ string_bytes text.old ++ waiters_text (applied core.old.history.entries) core.old.pending names.now) }
    ensures same { core.new ≡ core.old }
{
    'names: for n in names {
        push_waiter(alloc, core, text, Txn(*n))?;
    }
    Ok(())
}
