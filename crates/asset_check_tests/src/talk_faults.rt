//! Readers and writers that fail, and memory that runs out.

use crate::talks::{Left, is_whole, talk};
use asset_scripts::{RunEnd, ScriptFault};
use asset_test_tools::{failing, taking, taking_pieces, whole};
use std::alloc::Global;

/// A conversation with two bad lines.
const SCRIPT: &[u8] = b"initiate 7\nbegin\nbegin 7\nread 7\n";

/// Its replies.
const REPLIES: &str = "ok\nline 2: bad command\nok\nline 4: bad command\n";

/// The reasons of its bad lines.
const REASONS: &str = "line 2: begin wants t\nline 4: read wants t x\n";

/// Holds the conversation with a writer of replies and one of reasons, which take this many pieces of three bytes; then they fail, or
/// take nothing.
fn talk_to(alloc: Global, replies: usize, reasons: usize) -> Left {
    let replies = taking_pieces(REPLIES, 3, replies, replies % 2 == 0);
    let reasons = taking_pieces(REASONS, 3, reasons, reasons % 2 == 0);
    talk(alloc, whole(SCRIPT), replies, reasons, 100)
}

/// Holds the conversation as `talk_to` does. If memory runs out once, it is held again.
fn talk_again(alloc: Global, replies: usize, reasons: usize) -> Left {
    let left = talk_to(alloc, replies, reasons);
    if left.end == Err(ScriptFault::NoMemory) && left.same {
        return talk_to(alloc, replies, reasons);
    }
    left
}

/// Returns whether a conversation met a fault of a writer, these devices failed, and all but these many bytes of replies and of reasons
/// were written.
fn is_cut(left: &Left, failed: (bool, bool, bool), missing: (usize, usize)) -> bool {
    left.end == Err(ScriptFault::Write)
        && left.failed == failed
        && left.missing == missing
        && left.same
}

#[test]
fn writer_of_replies_fails_at_each_write(rt: HostRuntime) {
    for calls in 0..REPLIES.len().div_ceil(3) {
        let left = talk_again(rt.alloc(), calls, usize::MAX);
        let missing = REPLIES.len().saturating_sub(calls.saturating_mul(3));
        let failed = (false, true, false);
        assert!(rt;
            is_cut(&left, failed, (missing, REASONS.len())),
            "at {calls}"
        );
    }
}

#[test]
fn writer_of_reasons_fails_at_each_write(rt: HostRuntime) {
    for calls in 0..REASONS.len().div_ceil(3) {
        let left = talk_again(rt.alloc(), usize::MAX, calls);
        let missing = REASONS.len().saturating_sub(calls.saturating_mul(3));
        let failed = (false, false, true);
        assert!(rt; is_cut(&left, failed, (0, missing)), "at {calls}");
    }
}

/// Holds the conversation with a reader that fails after the bytes of the script.
fn talk_broken(alloc: Global) -> Left {
    talk(
        alloc,
        failing(SCRIPT, 5),
        taking(REPLIES),
        taking(REASONS),
        100,
    )
}

/// Returns whether each complete line was answered, and the fault told of, if a reader fails after the bytes of the script. If memory
/// runs out once, the conversation is held again.
fn is_answered_before_fault(alloc: Global) -> bool {
    let mut left = talk_broken(alloc);
    if left.end == Err(ScriptFault::NoMemory) && left.same {
        left = talk_broken(alloc);
    }
    left.end == Err(ScriptFault::Read)
        && left.missing == (0, 0)
        && left.same
        && left.failed == (true, false, false)
}

#[test]
fn reader_fails_after_the_last_line(rt: HostRuntime) {
    assert!(rt; is_answered_before_fault(rt.alloc()));
}

#[test]
fn conversations_are_whole_or_refused(rt: HostRuntime) {
    let mut left = talk(
        rt.alloc(),
        whole(SCRIPT),
        taking(REPLIES),
        taking(REASONS),
        100,
    );
    if left.end == Err(ScriptFault::NoMemory) && left.same {
        left = talk(
            rt.alloc(),
            whole(SCRIPT),
            taking(REPLIES),
            taking(REASONS),
            100,
        );
    }
    assert!(rt; is_whole(&left, RunEnd::BadLine(2)));
}
