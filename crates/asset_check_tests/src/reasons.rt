//! Each reason, by lines that have it.

use crate::checks::{check, gives, is_whole};
use asset_scripts::RunEnd;
use asset_test_tools::{after_comment, taking};
use std::alloc::Global;

/// Lines with what is printed of each if it is the only one.
const BAD: [(&[u8], &str); 66] = [
    (b"inita 7", "line 1: unknown word inita\n"),
    (b"Read 7 1", "line 1: capital letter in Read\n"),
    (b"read 7", "line 1: read wants t x\n"),
    (b"begin", "line 1: begin wants t\n"),
    (b"begin 7 8", "line 1: begin wants t\n"),
    (b"initiate", "line 1: initiate wants t or t p\n"),
    (b"initiate 1 2 3", "line 1: initiate wants t or t p\n"),
    (b"write 7 1", "line 1: write wants t x v\n"),
    (b"add 7 1", "line 1: add wants t x d\n"),
    (b"adds 7 1 2", "line 1: unknown word adds\n"),
    (b"permit 7 8 r", "line 1: permit wants t u ops set\n"),
    (b"permit 7 any r", "line 1: permit wants t u ops set\n"),
    (b"permit 7 any r all", "line 1: not a number: all\n"),
    (b"permit 7 anyone r 1", "line 1: not a number: anyone\n"),
    (b"permit any 7 r 1", "line 1: not a number: any\n"),
    (b"delegate 7 8", "line 1: delegate wants t u set\n"),
    (b"depend 7 8", "line 1: depend wants kind t u\n"),
    (b"complete", "line 1: complete wants t\n"),
    (b"commit 1 2", "line 1: commit wants t\n"),
    (b"abort 1 2", "line 1: abort wants t\n"),
    (b"wait", "line 1: wait wants t\n"),
    (b"object 1", "line 1: object wants x v\n"),
    (b"read 7 1\r", "line 1: carriage return before the end\n"),
    (b"\r", "line 1: carriage return before the end\n"),
    (b"read\t7 1", "line 1: tab\n"),
    (
        b"\xef\xbb\xbfread 7 1",
        "line 1: byte order mark at the start\n",
    ),
    (b"read  7 1", "line 1: two spaces in a row\n"),
    (b" read 7 1", "line 1: space at the start\n"),
    (b" # said", "line 1: space at the start\n"),
    (b"read 7 1 ", "line 1: space at the end\n"),
    (b" ", "line 1: spaces alone\n"),
    (b"   ", "line 1: spaces alone\n"),
    (b"begin 7 # now", "line 1: comment after a step\n"),
    (b"permit 7 8 r 1, 2", "line 1: space beside a comma\n"),
    (b"permit 7 8 r 1 ,2", "line 1: space beside a comma\n"),
    (b"permit 7 8 wr 1", "line 1: wr is written rw\n"),
    (b"permit 7 8 ar 1", "line 1: unknown operations ar\n"),
    (b"permit 7 8 rwaa 1", "line 1: unknown operations rwaa\n"),
    (b"permit 7 8 rx 1", "line 1: unknown operations rx\n"),
    (b"depend CD 7 8", "line 1: unknown kind CD\n"),
    (b"depend cd 7 x", "line 1: not a number: x\n"),
    (b"read 07 1", "line 1: leading zero in 07\n"),
    (b"read 7 00", "line 1: leading zero in 00\n"),
    (b"read +5 1", "line 1: plus sign in +5\n"),
    (b"read -5 1", "line 1: not a number: -5\n"),
    (
        b"read 7 18446744073709551616",
        "line 1: number out of range\n",
    ),
    (b"object 1 -0", "line 1: zero with a minus sign\n"),
    (b"write 7 1 +5", "line 1: plus sign in +5\n"),
    (b"add 7 1 +5", "line 1: plus sign in +5\n"),
    (b"add 7 1 -0", "line 1: zero with a minus sign\n"),
    (b"write 7 1 -07", "line 1: leading zero in -07\n"),
    (
        b"write 7 1 9223372036854775808",
        "line 1: value out of range\n",
    ),
    (
        b"write 7 1 -9223372036854775809",
        "line 1: value out of range\n",
    ),
    (
        b"write 7 1 99999999999999999999",
        "line 1: value out of range\n",
    ),
    (b"write 7 1 --5", "line 1: not a value: --5\n"),
    (b"write 7 1 -", "line 1: not a value: -\n"),
    (b"object 1 5.0", "line 1: not a value: 5.0\n"),
    (
        b"delegate 7 8 1,,2",
        "line 1: comma without an object on each side\n",
    ),
    (b"delegate 7 8 ,1", "line 1: space beside a comma\n"),
    (
        b"delegate 7 8 1,",
        "line 1: comma without an object on each side\n",
    ),
    (b"delegate 7 8 1,02", "line 1: leading zero in 02\n"),
    (b"delegate 7 8 ALL", "line 1: not a number: ALL\n"),
    (b"delegate 7 8 2,1,2", "line 1: object twice in a set\n"),
    (
        b"delegate 7 8 1,2,3,4,5,6,7,8,9,10,11,12,13,14,15,16,17",
        "line 1: more than 16 objects in a set\n",
    ),
    (
        b"aaaaaaaaaabbbbbbbbbbccccccccccddddddddddeeeee 7",
        "line 1: unknown word aaaaaaaaaabbbbbbbbbbccccccccccdddddddddd\n",
    ),
    (b"\xffx\x00 7", "line 1: unknown word ?x?\n"),
];

/// Lines that are not bad.
const GOOD: [&[u8]; 19] = [
    b"",
    b"# any text\r",
    b"#\t",
    b"object 18446744073709551615 9223372036854775807",
    b"object 0 -9223372036854775808",
    b"initiate 7",
    b"initiate 7 8",
    b"read 7 0",
    b"write 7 1 -1",
    b"add 7 1 -1",
    b"add 7 18446744073709551615 9223372036854775807",
    b"permit 7 8 rw all",
    b"permit 7 8 a 1",
    b"permit 7 8 rwa 1,2",
    b"permit 7 any rw 2,1",
    b"delegate 7 8 16,15,14,13,12,11,10,9,8,7,6,5,4,3",
    b"delegate 7 8 1,2,3,4,5,6,7,8,9,10,11,12,13,14,15,16",
    b"depend gc 7 8",
    b"wait 7",
];

#[test]
fn bad_lines_have_their_reasons(rt: HostRuntime) {
    for (line, text) in BAD {
        assert!(rt; gives(rt.alloc(), line, text, RunEnd::BadLine(1)), "{text}");
    }
}

#[test]
fn good_lines_have_none(rt: HostRuntime) {
    for (index, line) in GOOD.iter().enumerate() {
        assert!(rt; gives(rt.alloc(), line, "", RunEnd::Finished), "at {index}");
    }
}

/// Returns whether a comment of this size gives this text and ends so.
fn comment_gives(alloc: Global, size: usize, text: &str, end: RunEnd) -> bool {
    let left = check(alloc, after_comment(size, b"", 1_000), taking(text));
    is_whole(&left, end)
}

#[test]
fn long_line_is_named(rt: HostRuntime) {
    let text = "line 1: more than 4096 bytes\n";
    assert!(rt; comment_gives(rt.alloc(), 4096, "", RunEnd::Finished));
    assert!(rt; comment_gives(rt.alloc(), 4097, text, RunEnd::BadLine(1)));
    assert!(rt; comment_gives(rt.alloc(), 100_000, text, RunEnd::BadLine(1)));
}
