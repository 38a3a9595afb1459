//! Scripts of steps with the outcome of each, as text: a line for each step, as `read 8 1: wait`.

use crate::again::ask;
use asset_core::Core;
use asset_grammar::{Said, ScriptLines};
use asset_history::History;
use asset_names::{Fault, Outcome, Step, Txn};
use asset_printing::{push_full, push_outcome};
use std::alloc::{AllocError, Global};

/// Returns the step that a line of a script asks for.
pub(crate) fn step_of(line: &str) -> Option<Step> {
    let mut step = Step::Commit { t: Txn(0) };
    match ScriptLines::new(line.as_bytes()).next_line(&mut step) {
        Some(Said::Ask) => Some(step),
        _ => None,
    }
}

/// Appends the line that answers a step.
fn push_answer(text: &mut String, answer: Result<Outcome, Fault>) -> Result<(), AllocError> {
    match answer {
        Ok(outcome) => push_outcome(text, outcome),
        Err(Fault::Full) => push_full(text),
        Err(Fault::NoMemory) => text.push_str("no memory\n"),
    }
}

/// Returns whether the answer is printed as this text.
fn reads_once(alloc: Global, answer: Result<Outcome, Fault>, expected: &str) -> bool {
    let mut text = String::new(alloc);
    push_answer(&mut text, answer) == Ok(()) && text.as_str().lines().next() == Some(expected)
}

/// Returns whether the answer is printed as this text. If memory runs out once, it is printed again.
pub fn reads(alloc: Global, answer: Result<Outcome, Fault>, expected: &str) -> bool {
    reads_once(alloc, answer, expected) || reads_once(alloc, answer, expected)
}

/// Returns the step of a line and the text of its outcome.
pub fn parsed(line: &str) -> Option<(Step, &str)> {
    let (asked, expected) = line.split_once(": ")?;
    Some((step_of(asked)?, expected))
}

/// Asks the step of a line. Returns whether it has the outcome that the line says.
fn plays_line(alloc: Global, core: &mut Core, line: &str) -> bool {
    match parsed(line) {
        Some((step, expected)) => reads(alloc, ask(core, &step), expected),
        None => false,
    }
}

/// Asks the steps of a script up to the first that has another outcome. Returns the number of its line, from 1 on.
pub fn first_wrong_line(alloc: Global, core: &mut Core, script: &str) -> Option<usize> {
    for (before, line) in script.lines().enumerate() {
        if !plays_line(alloc, core, line) {
            return Some(before.saturating_add(1));
        }
    }
    None
}

/// Returns whether the entry at the index is what a line says.
fn is_entry(alloc: Global, history: &History, index: usize, line: &str) -> bool {
    match (history.entry(index), parsed(line)) {
        (Some((step, reply)), Some((asked, expected))) => {
            step == asked && reads(alloc, Ok(Outcome::Answer(reply)), expected)
        }
        _ => false,
    }
}

/// Returns whether a line says that its step is recorded.
fn is_recorded(line: &str) -> bool {
    !(line.ends_with(": wait") || line.ends_with(": full"))
}

/// Returns the number of the first line, from 1 on, that is not recorded as it says, or one past the last if something else
/// is recorded. The history has the entries of the script alone.
pub fn first_other_entry(alloc: Global, history: &History, script: &str) -> Option<usize> {
    let mut index: usize = 0;
    let mut number: usize = 1;
    for line in script.lines() {
        if is_recorded(line) {
            if !is_entry(alloc, history, index, line) {
                return Some(number);
            }
            index = index.saturating_add(1);
        }
        number = number.saturating_add(1);
    }
    if index == history.len() {
        None
    } else {
        Some(number)
    }
}
