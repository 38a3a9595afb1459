//! Listings: the steps of a script with their replies beside them.
use crate::memory::{Call, expect_call, expect_report};
use asset_scripts::RunEnd;
use std::test::Fail;

/// A wait and a refusal among the steps. An object line, a comment and an empty line are counted, and not listed.
const WAITS: &str = "\
    object 1 100\n\
    # 7 writes, and 8 has to wait for it.\n\
    initiate 7\n\
    begin 7\n\
    initiate 8\n\
    begin 8\n\
    write 7 1 50\n\
    read 8 1\n\
    \n\
    abort 7\n\
    read 8 1\n\
    begin 8\n";

/// Its listing.
const WAITS_LISTED: &str = "\
    3       0       initiate 7                      ok\n\
    4       1       begin 7                         ok\n\
    5       2       initiate 8                      ok\n\
    6       3       begin 8                         ok\n\
    7       4       write 7 1 50                    ok\n\
    8       -       read 8 1                        wait\n\
    10      5       abort 7                         aborted\n\
    11      6       read 8 1                        100\n\
    12      7       begin 8                         refused begun 8\n";

#[test]
fn listing_has_numbers_steps_and_replies(rt: HostRuntime) -> Result<(), Fail> {
    let script = WAITS.as_bytes();
    expect_report(&rt, Call::Steps, script, WAITS_LISTED, RunEnd::Finished)
}

/// A step for which there is no room becomes no entry.
#[test]
fn listing_of_a_full_history(rt: HostRuntime) -> Result<(), Fail> {
    let listing = "\
        1       0       initiate 7                      ok\n\
        2       -       begin 7                         full\n\
        3       -       initiate 8                      full\n";
    let script = b"initiate 7\nbegin 7\ninitiate 8\n";
    expect_call(&rt, Call::Steps, script, 3, listing, RunEnd::Finished)
}

#[test]
fn listing_ends_at_a_bad_line(rt: HostRuntime) -> Result<(), Fail> {
    let listing = "1       0       initiate 7                      ok\nline 2: bad command\n";
    let script = b"initiate 7\nbegin\nbegin 7\n";
    expect_report(&rt, Call::Steps, script, listing, RunEnd::BadLine(2))
}

#[test]
fn listing_of_no_steps_is_empty(rt: HostRuntime) -> Result<(), Fail> {
    expect_report(&rt, Call::Steps, b"object 1 100\n", "", RunEnd::Finished)?;
    expect_report(
        &rt,
        Call::Steps,
        b"object 1 100\nbegin",
        "line 2: bad command\n",
        RunEnd::BadLine(2),
    )
}

/// Sixteen objects, permitted all at once, which is a step that is longer than its column; and two that are not in order.
const LONG: &str = "\
    object 1000000001 0\nobject 1000000002 0\nobject 1000000003 0\nobject 1000000004 0\n\
    object 1000000005 0\nobject 1000000006 0\nobject 1000000007 0\nobject 1000000008 0\n\
    object 1000000009 0\nobject 1000000010 0\nobject 1000000011 0\nobject 1000000012 0\n\
    object 1000000013 0\nobject 1000000014 0\nobject 1000000015 0\nobject 1000000016 0\n\
    initiate 7\n\
    initiate 8\n\
    permit 7 8 rw 1000000001,1000000002,1000000003,1000000004,1000000005,1000000006,1000000007,1000000008,1000000009,1000000010,1000000011,1000000012,1000000013,1000000014,1000000015,1000000016\n\
    permit 7 8 r 1000000002,1000000001\n";

/// Its listing. The objects of a set are in order.
const LONG_LISTED: &str = "\
    17      0       initiate 7                      ok\n\
    18      1       initiate 8                      ok\n\
    19      2       permit 7 8 rw 1000000001,1000000002,1000000003,1000000004,1000000005,1000000006,1000000007,1000000008,1000000009,1000000010,1000000011,1000000012,1000000013,1000000014,1000000015,1000000016 ok\n\
    20      3       permit 7 8 r 1000000001,1000000002 ok\n";

#[test]
fn listing_of_long_steps(rt: HostRuntime) -> Result<(), Fail> {
    let script = LONG.as_bytes();
    expect_report(&rt, Call::Steps, script, LONG_LISTED, RunEnd::Finished)
}
