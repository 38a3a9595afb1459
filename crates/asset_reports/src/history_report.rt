//! A history as a script.

ghost use Rattle.std.specs.Prelude.{◌≡◌, ◌++◌, ◌∷◌, [], cond, OnOk, Some, reverse, slice_get, string_bytes};
ghost use Rattle.asset_names.specs.Steps.{Entry};
ghost use Rattle.asset_names.specs.Groups.{actor, without};
ghost use Rattle.asset_history.specs.Named.{names_of};
ghost use Rattle.asset_deletion.specs.Grouping.{grouping_of, dead_in};
ghost use Rattle.asset_printing.specs.Printed.{step_text};
ghost use Rattle.asset_reports.specs.Reports.{opening_line, opening_text, steps_text, history_text, pruned_text};

use asset_deletion::{Groups, groups};
use asset_history::History;
use asset_names::{NoMemory, Ob, Step, Txn};
use asset_printing::{push_object, push_step};
use std::alloc::{AllocError, Global};

/// Appends the line of an object with its value.
#[tactic(auto, unfolding(crate::specs::Reports::opening_line))]
fn push_object_line(text: &mut String, given: (Ob, i64)) -> Result<(), AllocError>
    ensures { OnOk result (string_bytes text.new ≡ string_bytes text.old ++ opening_line given) }
{
    push_object(text, given.0, given.1)?;
    text.push_str("\n")
}

/// Appends the lines of an opening.
fn push_opening(text: &mut String, opening: &[(Ob, i64)]) -> Result<(), AllocError>
    ensures { OnOk result (string_bytes text.new ≡ string_bytes text.old ++ opening_text opening.now) }
{
    'objects: for given in opening {
        push_object_line(text, *given)?;
    }
    Ok(())
}

/// Appends the line of the step of the entry at the index, if there is one. The step is read into the slot.
fn push_step_at(
    text: &mut String,
    history: &History,
    index: usize,
    step: &mut Step,
) -> Result<(), AllocError>
    ensures { OnOk result ((entry : Entry) → slice_get (reverse history.now.entries) index ≡ Some entry →
        string_bytes text.new ≡ string_bytes text.old ++ (step_text entry.0 ++ 10 ∷ [])) }
{
    match history.entry_into(index, step) {
        Some(_) => {
            push_step(text, step)?;
            text.push_str("\n")
        }
        None => Ok(()),
    }
}

/// Appends the lines of the steps of all entries.
fn push_steps(text: &mut String, history: &History) -> Result<(), AllocError>
    ensures { OnOk result (string_bytes text.new ≡ string_bytes text.old ++ steps_text history.now.entries) }
{
    let mut step = Step::Commit { t: Txn(0) };
    'entries: for i in 0..history.len() {
        push_step_at(text, history, i, &mut step)?;
    }
    Ok(())
}

/// Appends a history as a script: its opening as object lines, and then its entries as step lines.
#[tactic(auto, unfolding(crate::specs::Reports::history_text))]
pub(crate) fn push_history(text: &mut String, history: &History) -> Result<(), AllocError>
    ensures { OnOk result (string_bytes text.new ≡ string_bytes text.old ++ history_text history.now.opening history.now.entries) }
{
    push_opening(text, history.opening())?;
    push_steps(text, history)
}

/// Appends the line of the step of the entry at the index, if its group is not dead. The step is read into the slot.
fn push_undead_at(
    text: &mut String,
    history: &History,
    groups: &Groups,
    index: usize,
    step: &mut Step,
) -> Result<(), AllocError>
    ensures { OnOk result ((entry : Entry) → slice_get (reverse history.now.entries) index ≡ Some entry →
        string_bytes text.new ≡ string_bytes text.old ++ cond (dead_in groups.now (actor entry.0).0) [] (step_text entry.0 ++ 10 ∷ [])) }
{
    match history.acted_on(index) {
        Some((t, _)) => {
            if groups.is_dead(t) {
                return Ok(());
            }
            push_step_at(text, history, index, step)
        }
        None => Ok(()),
    }
}

/// Appends the lines of the steps of all entries whose group is not dead.
fn push_undead(text: &mut String, history: &History, groups: &Groups) -> Result<(), AllocError>
    requires { groups.now ≡ grouping_of history.now.entries }
    ensures { OnOk result (string_bytes text.new ≡ string_bytes text.old ++ steps_text (without history.now.entries (names_of history.now.entries))) }
{
    let mut step = Step::Commit { t: Txn(0) };
    'entries: for i in 0..history.len() {
        push_undead_at(text, history, groups, i, &mut step)?;
    }
    Ok(())
}

/// Appends a history without the dead ones of its groups as a script.
#[tactic(auto, unfolding(crate::specs::Reports::pruned_text, crate::specs::Reports::history_text))]
fn push_left(text: &mut String, history: &History, groups: &Groups) -> Result<(), AllocError>
    requires { groups.now ≡ grouping_of history.now.entries }
    ensures { OnOk result (string_bytes text.new ≡ string_bytes text.old ++ pruned_text history.now) }
{
    push_opening(text, history.opening())?;
    push_undead(text, history, groups)
}

/// Appends a history without its dead groups as a script. Run again, over a history with room for its entries, the
/// script gets the replies that its steps had (law `printed_scripts_run_again` of `asset_cli`). It answers `NoMemory`
/// if memory runs out, and takes time that is nearly in proportion to the entries.
pub fn push_pruned(alloc: Global, history: &History, text: &mut String) -> Result<(), NoMemory>
    ensures { OnOk result (string_bytes text.new ≡ string_bytes text.old ++ pruned_text history.now) }
{
    let groups = groups(alloc, history)?;
    let pushed = push_left(text, history, &groups);
    drop(groups);
    match pushed {
        Ok(()) => Ok(()),
        Err(_) => Err(NoMemory),
    }
}
