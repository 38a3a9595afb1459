//! The sources of what was read, a line each.

ghost use Rattle.std.specs.Prelude.{◌≡◌, ◌+◌, ◌<◌, ◌++◌, OnOk, Some, length, reverse, slice_get, string_bytes};
ghost use Rattle.asset_names.specs.Steps.{Entry};
ghost use Rattle.asset_sources.specs.Sourced.{source_at};
ghost use Rattle.asset_reports.specs.Sources.{source_word, found_text, read_text, source_text, sources_text};

use asset_history::History;
use asset_names::{NoMemory, Step, Txn};
use asset_printing::{push_next_number, push_next_value, push_number, push_step};
use asset_sources::{Source, SourceWalk};
use std::alloc::{AllocError, Global};

/// Appends where a value comes from, after a space.
#[tactic(auto, unfolding(crate::specs::Sources::source_word))]
fn push_word(text: &mut String, source: Source) -> Result<(), AllocError>
    ensures { OnOk result (string_bytes text.new ≡ string_bytes text.old ++ source_word source) }
{
    match source {
        Source::Opening => text.push_str(" opening"),
        Source::Entry(number) => {
            text.push_str(" entry")?;
            push_next_number(text, number as u64)
        }
    }
}

/// Appends the value that was read, after a space, where it comes from, and the end of the line.
#[tactic(auto, unfolding(crate::specs::Sources::found_text))]
fn push_found(text: &mut String, v: i64, source: Source) -> Result<(), AllocError>
    ensures { OnOk result (string_bytes text.new ≡ string_bytes text.old ++ found_text v source) }
{
    push_next_value(text, v)?;
    push_word(text, source)?;
    text.push_str("\n")
}

/// Appends the line of a read, which is the entry of this number and got this value.
#[tactic(auto, unfolding(crate::specs::Sources::read_text))]
fn push_read(
    text: &mut String,
    number: usize,
    step: &Step,
    v: i64,
    source: Source,
) -> Result<(), AllocError>
    ensures { OnOk result (string_bytes text.new ≡ string_bytes text.old ++ read_text number step.now v source) }
{
    push_number(text, number as u64)?;
    text.push_str(" ")?;
    push_step(text, step)?;
    push_found(text, v, source)
}

/// Passes the next entry, which has the number `index`, and appends its line, if it is a read that was answered by a value. Its step
/// is read into the slot.
#[tactic(auto, unfolding(crate::specs::Sources::read_line))]
fn push_line(
    text: &mut String,
    walk: &mut SourceWalk,
    index: usize,
    step: &mut Step,
) -> Result<(), NoMemory>
    requires there { index < length walk.old.history.entries }
    requires next { walk.old.passed ≡ index }
    ensures history { walk.new.history ≡ walk.old.history }
    ensures passed { OnOk result (walk.new.passed ≡ walk.old.passed + 1) }
    ensures text { OnOk result ((entry : Entry) → slice_get (reverse walk.old.history.entries) index ≡ Some entry →
        string_bytes text.new ≡ string_bytes text.old ++ source_text index entry.0 entry.1 (source_at walk.old.history.entries index)) }
{
    match walk.pass(step)? {
        Some((v, source)) => match push_read(text, index, step, v, source) {
            Ok(()) => Ok(()),
            Err(_) => Err(NoMemory),
        },
        None => Ok(()),
    }
}

/// Appends the lines of all entries that are reads that were answered by a value, by a walk that has passed none.
fn push_all(text: &mut String, walk: &mut SourceWalk) -> Result<(), NoMemory>
    requires first { walk.old.passed ≡ 0 }
    ensures { OnOk result (string_bytes text.new ≡ string_bytes text.old ++ sources_text walk.old.history.entries) }
{
    let mut step = Step::Commit { t: Txn(0) };
    'entries: for i in 0..walk.len() {
        push_line(text, walk, i, &mut step)?;
    }
    Ok(())
}

/// Appends a line for each read of the history that was answered by a value: the number of its entry, from 0, the read, the
/// value, and its source: which entry made the last write in it, or the opening if there is none. It takes the history and drops it,
/// and answers `NoMemory` if memory runs out.
pub fn push_sources(alloc: Global, history: History, text: &mut String) -> Result<(), NoMemory>
    ensures { OnOk result (string_bytes text.new ≡ string_bytes text.old ++ sources_text history.entries) }
{
    let mut walk = SourceWalk::of(alloc, history)?;
    let pushed = push_all(text, &mut walk);
    drop(walk);
    pushed
}
