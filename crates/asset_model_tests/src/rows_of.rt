//! What a model leaves in a facility.

use asset_core::{Core, OpenFault};
use asset_core_tests::{ROOM, THREE, opened, parsed, reads};
use asset_history::History;
use asset_manager_tests::is_replayed;
use asset_models::ModelEnd;
use asset_names::{Fault, Ob, Outcome, Status, Txn};
use std::alloc::Global;

/// How a model ended, how many of the expected lines its history lacks, and the values and statuses that it left.
#[derive(Clone, Copy, Debug, PartialEq, Eq)]
pub struct Row {
    /// How the model ended.
    pub end: Result<ModelEnd, Fault>,
    /// How many lines the history lacks at its end, or `None` if an entry is not as its line says.
    pub missing: Option<usize>,
    /// The values of objects 1, 2 and 3.
    pub values: [Option<i64>; 3],
    /// The statuses of the transactions that were asked for.
    pub statuses: [Status; 3],
}

/// Returns whether an entry of the history is as its line says, as `write 7 1 50: ok`.
fn is_entry(alloc: Global, history: &History, index: usize, line: &str) -> bool {
    match (parsed(line), history.entry(index)) {
        (Some((step, expected)), Some((asked, reply))) => {
            step == asked && reads(alloc, Ok(Outcome::Answer(reply)), expected)
        }
        _ => false,
    }
}

/// Returns how many of the lines the history lacks at its end, or `None` if an entry is not as its line says.
pub fn missing_lines(alloc: Global, history: &History, lines: &str) -> Option<usize> {
    let len = history.len();
    let mut seen: usize = 0;
    let mut missing: usize = 0;
    for line in lines.lines() {
        if seen < len {
            if !is_entry(alloc, history, seen, line) {
                return None;
            }
            seen = seen.saturating_add(1);
        } else {
            missing = missing.saturating_add(1);
        }
    }
    if seen == len { Some(missing) } else { None }
}

/// Returns what a model left in a facility: how it ended, how the history compares with these lines, and the statuses of
/// three transactions. The facility is dropped.
pub fn row_of(
    alloc: Global,
    core: Core,
    end: Result<ModelEnd, Fault>,
    lines: &str,
    [first, second, third]: [u64; 3],
) -> Row {
    let missing = missing_lines(alloc, core.history(), lines);
    let values = [core.value(Ob(1)), core.value(Ob(2)), core.value(Ob(3))];
    let statuses = [
        core.status(Txn(first)),
        core.status(Txn(second)),
        core.status(Txn(third)),
    ];
    drop(core.into_history());
    Row {
        end,
        missing,
        values,
        statuses,
    }
}

/// Returns what a model left of which there is this history, as `row_of` does: the lines are compared with the history, and the
/// values and statuses are those of a facility that is asked the history again. An answer that differs counts as an entry that is not
/// as its line says.
pub fn row_of_history(
    alloc: Global,
    history: &History,
    end: Result<ModelEnd, Fault>,
    lines: &str,
    names: [u64; 3],
) -> Result<Row, OpenFault> {
    let mut core = opened(alloc, &THREE, ROOM)?;
    let replayed = is_replayed(&mut core, history);
    let mut row = row_of(alloc, core, end, lines, names);
    row.missing = if replayed {
        missing_lines(alloc, history, lines)
    } else {
        None
    };
    Ok(row)
}
