//! Devices that fail, and memory that runs out.

use crate::checks::{Left, check, is_stopped, is_whole};
use asset_scripts::{RunEnd, ScriptFault};
use asset_test_tools::{failing, taking, taking_pieces, whole};
use std::alloc::Global;

/// A script with two bad lines.
const SCRIPT: &[u8] = b"object 1 5\nobject 1 6\nbegin 7\nread 7 x\n";

/// What is printed of it.
const TEXT: &str = "line 2: object 1 given twice\nline 4: not a number: x\n";

/// Checks the script. The writer takes three bytes at a time, for `calls` times; then it fails, or takes nothing. If memory runs out
/// once, the script is checked again.
fn check_again(alloc: Global, calls: usize, takes_nothing: bool) -> Left {
    let writer = taking_pieces(TEXT, 3, calls, takes_nothing);
    let left = check(alloc, whole(SCRIPT), writer);
    if !is_stopped(&left, ScriptFault::NoMemory, TEXT.len()) {
        return left;
    }
    let writer = taking_pieces(TEXT, 3, calls, takes_nothing);
    check(alloc, whole(SCRIPT), writer)
}

/// Returns whether a writer that fails at each write leaves a prefix.
fn is_cut_at_each_write(alloc: Global, takes_nothing: bool) -> bool {
    for calls in 0..TEXT.len().div_ceil(3) {
        let left = check_again(alloc, calls, takes_nothing);
        let missing = TEXT.len().saturating_sub(calls.saturating_mul(3));
        if !(is_stopped(&left, ScriptFault::Write, missing) && left.failed == (false, true)) {
            return false;
        }
    }
    true
}

#[test]
fn writer_fails_at_each_write(rt: HostRuntime) {
    assert!(rt; is_cut_at_each_write(rt.alloc(), false));
    assert!(rt; is_cut_at_each_write(rt.alloc(), true));
}

/// Checks the first bytes of the script, after which the reader fails.
fn check_broken(alloc: Global, count: usize) -> Left {
    let (given, _) = SCRIPT.split_at(count.min(SCRIPT.len()));
    check(alloc, failing(given, 5), taking(TEXT))
}

/// Returns whether a reader that fails after these bytes is told of, and nothing is written. If memory runs out once, they are checked
/// again.
fn is_stopped_after(alloc: Global, count: usize) -> bool {
    let mut left = check_broken(alloc, count);
    if is_stopped(&left, ScriptFault::NoMemory, TEXT.len()) {
        left = check_broken(alloc, count);
    }
    is_stopped(&left, ScriptFault::Read, TEXT.len()) && left.failed == (true, false)
}

#[test]
fn reader_fails_after_each_byte(rt: HostRuntime) {
    for count in 0..=SCRIPT.len() {
        assert!(rt; is_stopped_after(rt.alloc(), count), "after {count}");
    }
}

/// Returns whether the check is whole, at once or after one that was refused memory and wrote nothing.
fn is_whole_or_refused(alloc: Global) -> bool {
    let mut left = check(alloc, whole(SCRIPT), taking(TEXT));
    if is_stopped(&left, ScriptFault::NoMemory, TEXT.len()) {
        left = check(alloc, whole(SCRIPT), taking(TEXT));
    }
    is_whole(&left, RunEnd::BadLine(2))
}

#[test]
fn checks_are_whole_or_refused(rt: HostRuntime) {
    assert!(rt; is_whole_or_refused(rt.alloc()));
}
