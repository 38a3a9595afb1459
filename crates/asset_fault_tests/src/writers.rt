//! Writers that fail at each write, take nothing, or take one byte at a time, by each word: a prefix is written.

ghost use Rattle.std.specs.Prelude.{◌<◌};

use crate::rows::{ROWS, Row};
use crate::scripts::{Left, WORDS, is_stopped, is_whole, run};
use asset_cli::Work;
use asset_scripts::{RunEnd, ScriptFault};
use asset_test_tools::{taking_pieces, whole};
use std::alloc::Global;

/// Runs the script of a row for a word. The writer takes three bytes at a time, for `calls` times; then it fails, or takes
/// nothing. If memory runs out once, the script is run again.
fn run_row(alloc: Global, row: &Row, word: usize, calls: usize, takes_nothing: bool) -> Left
    requires { word < 6 }
{
    let (text, _end) = row.texts[word];
    let writer = taking_pieces(text, 3, calls, takes_nothing);
    let left = run(alloc, WORDS[word], whole(row.script), writer);
    if !is_stopped(&left, ScriptFault::NoMemory, text.len()) {
        return left;
    }
    let writer = taking_pieces(text, 3, calls, takes_nothing);
    run(alloc, WORDS[word], whole(row.script), writer)
}

/// Returns whether a writer that fails at each write leaves a prefix, by a word.
fn is_cut_at_each_write(alloc: Global, row: &Row, word: usize, takes_nothing: bool) -> bool
    requires { word < 6 }
{
    let (text, _end) = row.texts[word];
    for calls in 0..text.len().div_ceil(3) {
        let left = run_row(alloc, row, word, calls, takes_nothing);
        let missing = text.len().saturating_sub(calls.saturating_mul(3));
        if !(is_stopped(&left, ScriptFault::Write, missing) && left.failed == (false, true)) {
            return false;
        }
    }
    true
}

/// Returns whether this is so of each row.
fn are_cut_at_each_write(alloc: Global, word: usize, takes_nothing: bool) -> bool
    requires { word < 6 }
{
    for row in ROWS {
        if !is_cut_at_each_write(alloc, &row, word, takes_nothing) {
            return false;
        }
    }
    true
}

#[test]
fn writer_fails_at_each_write(rt: HostRuntime) {
    for word in 0..6usize {
        assert!(rt; are_cut_at_each_write(rt.alloc(), word, false), "at {word}");
    }
}

#[test]
fn writer_takes_nothing_at_each_write(rt: HostRuntime) {
    for word in 0..6usize {
        assert!(rt; are_cut_at_each_write(rt.alloc(), word, true), "at {word}");
    }
}

/// Runs a script for a work. The writer takes one byte at a time, and exactly as many as the text has.
fn run_by_bytes(alloc: Global, work: Work, script: &[u8], text: &str) -> Left {
    let writer = taking_pieces(text, 1, text.len(), false);
    run(alloc, work, whole(script), writer)
}

/// Returns whether the whole text goes to a writer that takes one byte at a time. If memory runs out once, the script is run
/// again.
fn is_taken(alloc: Global, work: Work, script: &[u8], text: &str, end: RunEnd) -> bool {
    let mut left = run_by_bytes(alloc, work, script, text);
    if is_stopped(&left, ScriptFault::NoMemory, text.len()) {
        left = run_by_bytes(alloc, work, script, text);
    }
    is_whole(&left, end)
}

/// Returns whether each row is written whole byte by byte, by a word.
fn rows_are_taken(alloc: Global, word: usize) -> bool
    requires { word < 6 }
{
    for row in ROWS {
        let (text, end) = row.texts[word];
        if !is_taken(alloc, WORDS[word], row.script, text, end) {
            return false;
        }
    }
    true
}

#[test]
fn texts_go_byte_by_byte(rt: HostRuntime) {
    for word in 0..6usize {
        assert!(rt; rows_are_taken(rt.alloc(), word), "at {word}");
    }
}
