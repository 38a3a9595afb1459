//! The lines of cycles of waits.

ghost use Rattle.std.specs.Prelude.{◌≡◌, ◌++◌, length, OnOk, string_bytes};
ghost use Rattle.asset_cycles.specs.Cyclic.{AreBelow, cycle_labels};
ghost use Rattle.asset_waits.specs.Words.{name_word};
ghost use Rattle.asset_waits.specs.Texts.{member_word, members_text, deadlock_line, label_line, deadlocks_text};

use asset_cycles::Cycles;
use asset_names::NoMemory;
use std::alloc::{AllocError, Global};

/// Appends the name at the place after a space, if there is one.
fn push_member(text: &mut String, names: &[u64], place: usize) -> Result<(), AllocError>
    ensures { OnOk result (string_bytes text.new ≡ string_bytes text.old ++ member_word names.now place) }
{
    match names.get(place) {
        Some(n) => write!(text, " {n}"),
        None => Ok(()),
    }
}

/// Appends the names at the places, each after a space.
fn push_members(text: &mut String, names: &[u64], places: &[usize]) -> Result<(), AllocError>
    ensures { OnOk result (string_bytes text.new ≡ string_bytes text.old ++ members_text names.now places.now) }
{
    'places: for place in places {
        push_member(text, names, *place)?;
    }
    Ok(())
}

/// Appends the line of a cycle of waits, by the places of its names.
#[tactic(auto, unfolding(crate::specs::Texts::deadlock_line))]
fn push_line(text: &mut String, names: &[u64], places: &[usize]) -> Result<(), AllocError>
    ensures { OnOk result (string_bytes text.new ≡ string_bytes text.old ++ deadlock_line names.now places.now) }
{
    text.push_str("deadlock")?;
    push_members(text, names, places)?;
    text.push_str("\n")
}

/// Appends the line of the cycle with the label.
#[tactic(auto, unfolding(crate::specs::Texts::label_line))]
fn push_label(
    text: &mut String,
    names: &[u64],
    cycles: &Cycles,
    label: usize,
) -> Result<(), AllocError>
    ensures { OnOk result (string_bytes text.new ≡ string_bytes text.old ++ label_line names.now cycles.now label) }
{
    push_line(text, names, cycles.members(label))
}

/// Appends the lines of all cycles.
fn push_cycles(text: &mut String, names: &[u64], cycles: &Cycles) -> Result<(), AllocError>
    ensures { OnOk result (string_bytes text.new ≡ string_bytes text.old ++ deadlocks_text names.now cycles.now) }
{
    'labels: for label in cycles.labels() {
        push_label(text, names, cycles, *label)?;
    }
    Ok(())
}

/// Appends a line for each cycle of these waits between the places of names, or answers `NoMemory` if memory runs out.
pub(crate) fn push_deadlocks(
    alloc: Global,
    text: &mut String,
    names: &[u64],
    waits: &[(usize, usize)],
) -> Result<(), NoMemory>
    requires { AreBelow waits.now (length names.now) }
    ensures { OnOk result (string_bytes text.new ≡ string_bytes text.old ++ deadlocks_text names.now (cycle_labels waits.now (length names.now))) }
{
    match Cycles::of(alloc, names.len(), waits) {
        Ok(cycles) => match push_cycles(text, names, &cycles) {
            Ok(()) => Ok(()),
            Err(_) => Err(NoMemory),
        },
        Err(_) => Err(NoMemory),
    }
}
