//! Readers that fail after each byte of a script, by each of six words, or never end, by each of them but `run`: nothing is
//! written. Then scripts that come byte by byte.

ghost use Rattle.std.specs.Prelude.{◌<◌};

use crate::rows::{ONE, ROWS};
use crate::scripts::{Left, WORDS, is_stopped, is_whole, run};
use asset_cli::{Report, Work};
use asset_scripts::{RunEnd, ScriptFault};
use asset_test_tools::{by_pieces, endless, failing, taking};
use std::alloc::Global;

/// A text that no run writes.
const OTHER: &str = "something";

/// Returns whether a run met a fault of its reader, and wrote nothing.
fn is_unread(left: &Left) -> bool {
    is_stopped(left, ScriptFault::Read, OTHER.len())
}

/// Runs a script for a word, with a reader that fails after these bytes, given at most `piece` at a time. If memory runs out
/// once, it is run again.
fn run_cut(alloc: Global, work: Work, before: &[u8], piece: usize) -> Left {
    let mut left = run(alloc, work, failing(before, piece), taking(OTHER));
    if is_stopped(&left, ScriptFault::NoMemory, OTHER.len()) {
        left = run(alloc, work, failing(before, piece), taking(OTHER));
    }
    left
}

/// Returns whether each cut of a transaction's script is a fault of the reader, by a word.
fn cuts_are_unread(alloc: Global, work: Work) -> bool {
    for length in 0..=ONE.script.len() {
        let left = run_cut(alloc, work, &ONE.script[..length], 7);
        if !(is_unread(&left) && left.failed == (true, false)) {
            return false;
        }
    }
    true
}

#[test]
fn reader_fails_after_each_byte(rt: HostRuntime) {
    for work in WORDS {
        assert!(rt; cuts_are_unread(rt.alloc(), work), "at {work:?}");
    }
}

/// Returns whether a reader that fails after a script whose first line is bad is a fault of the reader, by a word.
fn bad_line_is_not_looked_at(alloc: Global, work: Work) -> bool {
    let left = run_cut(alloc, work, b"begin\n", 1);
    is_unread(&left) && left.failed == (true, false)
}

#[test]
fn reader_that_fails_hides_a_bad_line(rt: HostRuntime) {
    for work in WORDS {
        assert!(rt; bad_line_is_not_looked_at(rt.alloc(), work), "at {work:?}");
    }
}

/// Returns whether a comment without an end is a fault of the reader, although it did not fail.
fn comment_is_given_up(alloc: Global, work: Work) -> bool {
    let mut left = run(alloc, work, endless(), taking(OTHER));
    if is_stopped(&left, ScriptFault::NoMemory, OTHER.len()) {
        left = run(alloc, work, endless(), taking(OTHER));
    }
    is_unread(&left) && left.failed == (false, false)
}

#[test]
fn comment_without_an_end_is_given_up_in_pruning(rt: HostRuntime) {
    assert!(rt; comment_is_given_up(rt.alloc(), Work::Report(Report::Pruned)));
}

#[test]
fn comment_without_an_end_is_given_up_in_grouping(rt: HostRuntime) {
    assert!(rt; comment_is_given_up(rt.alloc(), Work::Report(Report::Groups)));
}

#[test]
fn comment_without_an_end_is_given_up_in_tracing(rt: HostRuntime) {
    assert!(rt; comment_is_given_up(rt.alloc(), Work::Sources));
}

#[test]
fn comment_without_an_end_is_given_up_in_serializing(rt: HostRuntime) {
    assert!(rt; comment_is_given_up(rt.alloc(), Work::Report(Report::Serial)));
}

#[test]
fn comment_without_an_end_is_given_up_in_listing(rt: HostRuntime) {
    assert!(rt; comment_is_given_up(rt.alloc(), Work::Steps));
}

/// Returns whether a script that comes byte by byte is read whole. If memory runs out once, it is run again.
fn is_read(alloc: Global, work: Work, script: &[u8], text: &str, end: RunEnd) -> bool {
    let mut left = run(alloc, work, by_pieces(script, 1), taking(text));
    if is_stopped(&left, ScriptFault::NoMemory, text.len()) {
        left = run(alloc, work, by_pieces(script, 1), taking(text));
    }
    is_whole(&left, end)
}

/// Returns whether each row is read whole byte by byte, by a word.
fn rows_are_read(alloc: Global, word: usize) -> bool
    requires { word < 6 }
{
    for row in ROWS {
        let (text, end) = row.texts[word];
        if !is_read(alloc, WORDS[word], row.script, text, end) {
            return false;
        }
    }
    true
}

#[test]
fn scripts_come_byte_by_byte(rt: HostRuntime) {
    for word in 0..6usize {
        assert!(rt; rows_are_read(rt.alloc(), word), "at {word}");
    }
}
