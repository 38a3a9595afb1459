//! Conversations with what is replied and which reasons are given, by pieces of any size.

use crate::talks::{is_whole, talk};
use asset_scripts::RunEnd;
use asset_test_tools::{after_comment, by_pieces, taking};
use std::alloc::Global;

/// A conversation: what comes, what is replied, the reasons of bad lines, and how it ends.
pub(crate) struct Row {
    pub(crate) script: &'static [u8],
    pub(crate) replies: &'static str,
    pub(crate) reasons: &'static str,
    pub(crate) end: RunEnd,
}

/// Conversations over a history with room for six entries.
pub(crate) const ROWS: [Row; 5] = [
    Row {
        script: b"",
        replies: "",
        reasons: "",
        end: RunEnd::Finished,
    },
    Row {
        script: b"object 1 100\n# said\n\ninitiate 7\nbegin 7\nread 7 1\nread 8 1\n",
        replies: "ok\nok\n100\nrefused unknown 8\n",
        reasons: "",
        end: RunEnd::Finished,
    },
    Row {
        script: b"initiate 7\nbegin 7\ninitiate 8",
        replies: "ok\nok\nfull\n",
        reasons: "",
        end: RunEnd::Finished,
    },
    Row {
        script: b"inita 7\nobject 1 5\nobject 1 6\ninitiate 7\nobject 2 5\nbegin 7\nread 7\nread 7 1",
        replies: "line 1: bad command\nline 3: bad command\nok\nline 5: bad command\nok\nline 7: bad command\n5\n",
        reasons: "line 1: unknown word inita\nline 3: object 1 given twice\nline 5: object after a step\nline 7: read wants t x\n",
        end: RunEnd::BadLine(1),
    },
    Row {
        script: b"\n\n# said\nbegin 7\r\nwait 7 ",
        replies: "line 4: bad command\nline 5: bad command\n",
        reasons: "line 4: carriage return before the end\nline 5: space at the end\n",
        end: RunEnd::BadLine(4),
    },
];

/// Returns whether a conversation that comes by pieces of this size is held as the row says.
fn is_held(alloc: Global, row: &Row, piece: usize) -> bool {
    let reader = by_pieces(row.script, piece);
    let left = talk(alloc, reader, taking(row.replies), taking(row.reasons), 6);
    is_whole(&left, row.end)
}

#[test]
fn conversations_are_held_byte_by_byte(rt: HostRuntime) {
    for (index, row) in ROWS.iter().enumerate() {
        assert!(rt; is_held(rt.alloc(), row, 1), "at {index}");
    }
}

#[test]
fn conversations_are_held_by_pieces(rt: HostRuntime) {
    for piece in [2usize, 7, 20, 65_536] {
        for (index, row) in ROWS.iter().enumerate() {
            assert!(rt; is_held(rt.alloc(), row, piece), "at {index} by {piece}");
        }
    }
}

/// Returns whether a comment of this size, and then a script, has these replies and reasons.
fn comment_gives(alloc: Global, size: usize, script: &[u8], replies: &str, reasons: &str) -> bool {
    let reader = after_comment(size, script, 1_000);
    let left = talk(alloc, reader, taking(replies), taking(reasons), 100);
    left.missing == (0, 0) && left.same && left.failed == (false, false, false)
}

#[test]
fn long_line_is_bad_and_the_conversation_goes_on(rt: HostRuntime) {
    let bad = "line 1: bad command\nok\n";
    let why = "line 1: more than 4096 bytes\n";
    assert!(rt; comment_gives(rt.alloc(), 4096, b"\ninitiate 7\n", "ok\n", ""));
    assert!(rt; comment_gives(rt.alloc(), 4097, b"\ninitiate 7\n", bad, why));
    assert!(rt; comment_gives(rt.alloc(), 300_000, b"\ninitiate 7\n", bad, why));
    assert!(rt; comment_gives(rt.alloc(), 300_000, b"", "line 1: bad command\n", why));
}
