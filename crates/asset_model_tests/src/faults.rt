//! Two models over a `Core`, whose histories end with the models' last calls if an allocation fails: `rt try --test
//! --fail-alloc N` makes it fail. With ample memory the whole row is done.

use crate::counting::Counting;
use crate::parts::part;
use crate::rows::{NESTED, SAGA};
use crate::rows_of::missing_lines;
use asset_core::OpenFault;
use asset_core_tests::{ROOM, THREE, opened};
use asset_history::History;
use asset_models::{Act, ModelEnd, nested, saga};
use asset_names::{Fault, Ob, Reply, Step};
use std::alloc::Global;
use std::test::Fail;

/// How a model ended, how many lines of its row the history lacks, and whether the history has as many entries as the model
/// was answered, and ends with its last answer.
#[derive(Clone, Copy)]
struct Left {
    end: Result<ModelEnd, Fault>,
    missing: Option<usize>,
    ends_with_its_last: bool,
}

/// Returns the last entry.
fn last_entry(history: &History) -> Option<(Step, Reply)> {
    match history.len() {
        0 => None,
        len => history.entry(len - 1),
    }
}

/// Returns what a model left in a facility, which is dropped.
fn left_of(alloc: Global, counting: Counting, end: Result<ModelEnd, Fault>, lines: &str) -> Left {
    let Counting {
        core,
        asks: _,
        answers,
        last,
    } = counting;
    let history = core.history();
    let missing = missing_lines(alloc, history, lines);
    let ends_with_its_last = history.len() == answers && last_entry(history) == last;
    drop(core.into_history());
    Left {
        end,
        missing,
        ends_with_its_last,
    }
}

/// Returns whether a model did its whole row and ended so, or ended by a fault before the last line.
fn is_whole_or_cut(left: &Left, end: &ModelEnd) -> bool {
    match (left.end, left.missing) {
        (Err(Fault::NoMemory), Some(lines)) => left.ends_with_its_last && lines > 0,
        (ended, missing) => left.ends_with_its_last && ended == Ok(*end) && missing == Some(0),
    }
}

/// Runs a parent and its child. Returns whether it did its whole row, or ended by a fault with its last call.
fn is_nested_whole_or_cut(alloc: Global) -> Result<bool, OpenFault> {
    let mut counting = Counting::new(opened(alloc, &THREE, ROOM)?);
    let parent = part(alloc, 7, &[Act::Write(Ob(1), 50)]);
    let child = part(alloc, 8, &[Act::Read(Ob(1)), Act::Write(Ob(2), 80)]);
    let end = nested(&mut counting, &parent, &[child], 2);
    let left = left_of(alloc, counting, end, NESTED);
    Ok(is_whole_or_cut(&left, &ModelEnd::Committed))
}

#[test]
fn nested_ends_with_its_last_call(rt: HostRuntime) -> Result<(), Fail> {
    let seen = is_nested_whole_or_cut(rt.alloc())?;
    assert!(rt; seen);
    Ok(())
}

/// Runs a saga of two pairs, whose second transaction gives up. Returns whether it did its whole row, or ended by a fault with
/// its last call.
fn is_saga_whole_or_cut(alloc: Global) -> Result<bool, OpenFault> {
    let mut counting = Counting::new(opened(alloc, &THREE, ROOM)?);
    let first = part(alloc, 7, &[Act::Write(Ob(1), 50)]);
    let undo_first = part(alloc, 17, &[Act::Write(Ob(1), 100)]);
    let second = part(alloc, 8, &[Act::GiveUp]);
    let undo_second = part(alloc, 18, &[]);
    let pairs = [(first, undo_first), (second, undo_second)];
    let end = saga(&mut counting, &pairs, 2);
    let left = left_of(alloc, counting, end, SAGA);
    Ok(is_whole_or_cut(&left, &ModelEnd::Undone))
}

#[test]
fn saga_ends_with_its_last_call(rt: HostRuntime) -> Result<(), Fail> {
    let seen = is_saga_whole_or_cut(rt.alloc())?;
    assert!(rt; seen);
    Ok(())
}
