//! A history with the sources of what was read in it, beside the history and its sources.

use crate::sources::{DRAWN, DRAWN_ROOM, all_sources, step_of};
use asset_core::Core;
use asset_core_tests::{THREE, ask, first_wrong_line, opened};
use asset_history::History;
use asset_names::{NoMemory, Reply, Step};
use asset_sources::{Source, Trace};
use asset_test_tools::{next, read};
use std::alloc::Global;
use std::test::Fail;

/// Room for the seven entries of one transaction, and no more.
const LITTLE_ROOM: usize = 7;

/// Asks the drawn steps.
fn ask_drawn(core: &mut Core) {
    let mut number = 7;
    for draw in 0..DRAWN {
        number = next(number);
        let _answer = ask(core, &step_of(draw, number));
    }
}

/// Returns the history of the drawn steps.
pub(crate) fn drawn_history(alloc: Global) -> Result<History, Fail> {
    let mut core = opened(alloc, &THREE, DRAWN_ROOM)?;
    ask_drawn(&mut core);
    Ok(core.into_history())
}

/// Returns the trace of the drawn steps. If memory runs out once, they are asked again.
pub(crate) fn drawn_trace(alloc: Global) -> Result<Trace, Fail> {
    match Trace::of(alloc, drawn_history(alloc)?) {
        Ok(trace) => Ok(trace),
        Err(NoMemory) => Ok(Trace::of(alloc, drawn_history(alloc)?)?),
    }
}

/// Returns the read of the entry at the index with its value and its source, by the history and its sources.
fn read_in(
    history: &History,
    found: &[Option<Source>],
    index: usize,
) -> Option<(Step, i64, Source)> {
    let (step, reply) = history.entry(index)?;
    let source = (*found.get(index)?)?;
    match reply {
        Reply::Value(v) => Some((step, v, source)),
        _ => None,
    }
}

/// Returns the first entry of which the trace tells something else than the history and its sources, which may be one past
/// the last, and how many reads it tells before that.
fn first_other_read(
    trace: &Trace,
    history: &History,
    found: &[Option<Source>],
) -> (Option<usize>, usize) {
    let mut told: usize = 0;
    for index in 0..=history.len() {
        let expected = read_in(history, found, index);
        if trace.read(index) != expected {
            return (Some(index), told);
        }
        if expected.is_some() {
            told = told.saturating_add(1);
        }
    }
    (None, told)
}

/// Returns the first entry of which the trace tells something else than the history, and how many reads it tells before that.
fn compared(
    alloc: Global,
    trace: &Trace,
    history: &History,
) -> Result<(Option<usize>, usize), NoMemory> {
    let found = all_sources(alloc, history)?;
    let other = first_other_read(trace, history, &found);
    drop(found);
    Ok(other)
}

/// Compares the trace of the drawn steps with their history.
fn compared_drawn(
    alloc: Global,
    history: &History,
) -> Result<((Option<usize>, usize), bool), Fail> {
    let trace = drawn_trace(alloc)?;
    let read = compared(alloc, &trace, history);
    let same = trace.len() == history.len();
    drop(trace);
    Ok((read?, same))
}

#[test]
fn drawn_steps_are_traced(rt: HostRuntime) -> Result<(), Fail> {
    let history = drawn_history(rt.alloc())?;
    let shown = compared_drawn(rt.alloc(), &history);
    drop(history);
    let ((other, told), same) = shown?;
    assert_eq!(rt; other, None);
    assert!(rt; same && told > 100);
    Ok(())
}

/// One transaction fills the history.
const FILLED: &str = "\
    initiate 7: ok\nbegin 7: ok\nread 7 2: 200\nwrite 7 2 -5: ok\nread 7 2: -5\nread 7 2: full\n\
    complete 7: ok\ncommit 7: committed\nbegin 8: full\n";

/// Returns the first entry of which the trace of that transaction tells something else than its two reads.
fn first_wrong_read(trace: &Trace) -> Option<usize> {
    let first = Some((read(7, 2), 200, Source::Opening));
    let second = Some((read(7, 2), -5, Source::Entry(3)));
    for index in 0..=LITTLE_ROOM {
        let expected = match index {
            2 => first,
            4 => second,
            _ => None,
        };
        if trace.read(index) != expected {
            return Some(index);
        }
    }
    None
}

/// Returns the history of that transaction, and the first line that has another outcome.
fn filled(alloc: Global) -> Result<(History, Option<usize>), Fail> {
    let mut core = opened(alloc, &THREE, LITTLE_ROOM)?;
    let wrong = first_wrong_line(alloc, &mut core, FILLED);
    Ok((core.into_history(), wrong))
}

/// Returns the trace of that transaction, and the first line that has another outcome. If memory runs out once, it is played
/// again.
fn filled_trace(alloc: Global) -> Result<(Trace, Option<usize>), Fail> {
    let (history, wrong) = filled(alloc)?;
    match Trace::of(alloc, history) {
        Ok(trace) => Ok((trace, wrong)),
        Err(NoMemory) => Ok((Trace::of(alloc, filled(alloc)?.0)?, wrong)),
    }
}

#[test]
fn full_history_is_traced(rt: HostRuntime) -> Result<(), Fail> {
    let (trace, wrong) = filled_trace(rt.alloc())?;
    let read = first_wrong_read(&trace);
    let len = trace.len();
    drop(trace);
    assert_eq!(rt; (wrong, read), (None, None));
    assert_eq!(rt; len, LITTLE_ROOM);
    Ok(())
}
