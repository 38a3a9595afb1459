//! What a line says, by both parsers.

use crate::plain::{PlainLine, parse, split_line};
use asset_grammar::{Said, ScriptLines};
use asset_names::{Ob, Step, Txn};

/// Returns a step for a slot before the first line is read.
pub(crate) fn no_step() -> Step {
    Step::Commit { t: Txn(0) }
}

/// Reads the first line of a text into the slot. A text that is empty says nothing.
fn read_first(text: &[u8], step: &mut Step) -> Said {
    ScriptLines::new(text)
        .next_line(step)
        .unwrap_or(Said::Blank)
}

/// Returns whether what was said, with the slot, is what the plain parser returns of the line.
fn agrees(said: Said, step: &Step, line: &[u8]) -> bool {
    match (said, parse(line)) {
        (Said::Blank, PlainLine::Blank) => true,
        (Said::Object(given), PlainLine::Object(expected)) => given == expected,
        (Said::Ask, PlainLine::Ask(expected)) => *step == expected,
        (Said::Bad, PlainLine::Bad) => true,
        _ => false,
    }
}

/// Returns whether the cursor over a script says of each of its lines what the plain parser says, and then ends. A line is a
/// script, too.
pub(crate) fn is_same(script: &[u8]) -> bool {
    let mut step = no_step();
    let mut lines = ScriptLines::new(script);
    let mut left = script;
    for _ in 0..=script.len() {
        let Some((line, rest)) = split_line(left) else {
            return matches!(lines.next_line(&mut step), None);
        };
        match lines.next_line(&mut step) {
            Some(said) => {
                if !agrees(said, &step, line) {
                    return false;
                }
            }
            None => return false,
        }
        left = rest;
    }
    false
}

/// Returns whether both parsers say that a line is bad.
pub(crate) fn is_bad(line: &[u8]) -> bool {
    let mut step = no_step();
    matches!(read_first(line, &mut step), Said::Bad) && is_same(line)
}

/// Returns whether both parsers say that a line says nothing.
pub(crate) fn is_blank(line: &[u8]) -> bool {
    let mut step = no_step();
    matches!(read_first(line, &mut step), Said::Blank) && is_same(line)
}

/// Returns whether both parsers say that a line asks for the step.
pub(crate) fn asks(line: &[u8], expected: &Step) -> bool {
    let mut step = no_step();
    matches!(read_first(line, &mut step), Said::Ask) && step == *expected && is_same(line)
}

/// Returns whether both parsers say that a line adds an object with this value.
pub(crate) fn adds(line: &[u8], x: u64, v: i64) -> bool {
    let mut step = no_step();
    match read_first(line, &mut step) {
        Said::Object(given) => given == (Ob(x), v) && is_same(line),
        _ => false,
    }
}
