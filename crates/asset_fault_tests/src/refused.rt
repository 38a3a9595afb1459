//! Scripts that are run for each word while a request for memory is refused: the text is whole, or nothing of it is written
//! and the run ends with that fault; and run again it is whole.

ghost use Rattle.std.specs.Prelude.{◌<◌};

use crate::rows::{ROWS, Row};
use crate::scripts::{Left, WORDS, is_stopped, is_whole, run};
use asset_scripts::ScriptFault;
use asset_test_tools::{taking, whole};
use std::alloc::Global;

/// Runs the script of a row for a word.
fn run_row(alloc: Global, row: &Row, word: usize) -> Left
    requires { word < 6 }
{
    let (text, _end) = row.texts[word];
    run(alloc, WORDS[word], whole(row.script), taking(text))
}

/// Returns whether the run for a word is whole, at once or after one that was refused memory and wrote nothing.
fn is_whole_or_refused(alloc: Global, row: &Row, word: usize) -> bool
    requires { word < 6 }
{
    let (text, end) = row.texts[word];
    let mut left = run_row(alloc, row, word);
    if is_stopped(&left, ScriptFault::NoMemory, text.len()) {
        left = run_row(alloc, row, word);
    }
    is_whole(&left, end)
}

/// Returns whether this is so of each row.
fn are_whole_or_refused(alloc: Global, word: usize) -> bool
    requires { word < 6 }
{
    for row in ROWS {
        if !is_whole_or_refused(alloc, &row, word) {
            return false;
        }
    }
    true
}

#[test]
fn scripts_are_whole_or_refused(rt: HostRuntime) {
    assert!(rt; are_whole_or_refused(rt.alloc(), 0));
}

#[test]
fn pruned_scripts_are_whole_or_refused(rt: HostRuntime) {
    assert!(rt; are_whole_or_refused(rt.alloc(), 1));
}

#[test]
fn groups_are_whole_or_refused(rt: HostRuntime) {
    assert!(rt; are_whole_or_refused(rt.alloc(), 2));
}

#[test]
fn sources_are_whole_or_refused(rt: HostRuntime) {
    assert!(rt; are_whole_or_refused(rt.alloc(), 3));
}

#[test]
fn serial_scripts_are_whole_or_refused(rt: HostRuntime) {
    assert!(rt; are_whole_or_refused(rt.alloc(), 4));
}

#[test]
fn listings_are_whole_or_refused(rt: HostRuntime) {
    assert!(rt; are_whole_or_refused(rt.alloc(), 5));
}
