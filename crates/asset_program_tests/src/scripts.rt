//! What the program writes of scripts.

use crate::running::expect;

/// A transaction that fills a history of four entries.
const FULL: &[u8] = b"initiate 7\nbegin 7\ninitiate 8\ncomplete 7\ncommit 7\n";

#[test]
fn capacity_is_used(rt: HostRuntime) {
    let text = "ok\nok\nfull\nok\ncommitted\n";
    expect(&rt, &["run", "--cap", "4"], FULL, (text, "", 0));
}

#[test]
fn no_argument_is_run_with_room(rt: HostRuntime) {
    let text = "ok\nok\nok\nok\ncommitted\n";
    expect(&rt, &[], FULL, (text, "", 0));
    expect(&rt, &["run"], FULL, (text, "", 0));
}

#[test]
fn bad_line_ends_with_two(rt: HostRuntime) {
    let text = "ok\nline 2: bad command\n";
    expect(&rt, &["run"], b"initiate 7\nbegin\n", (text, "", 2));
}

/// Two transactions that share nothing: 7 commits, and 8 does not.
const TWO: &[u8] =
    b"object 1 100\ninitiate 7\nbegin 7\ninitiate 8\nbegin 8\nwrite 7 1 50\ncomplete 7\ncommit 7\nabort 8\n";

#[test]
fn reports_are_written(rt: HostRuntime) {
    let left = "object 1 100\ninitiate 7\nbegin 7\nwrite 7 1 50\ncomplete 7\ncommit 7\n";
    expect(&rt, &["prune"], TWO, (left, "", 0));
    expect(&rt, &["groups"], TWO, ("0 committed 7\n1 dead 8\n", "", 0));
    expect(&rt, &["serial"], TWO, (left, "", 0));
    let script = b"object 1 100\ninitiate 7\nbegin 7\nread 7 1\nwrite 7 1 50\nread 7 1\n";
    let sources = "2 read 7 1 100 opening\n4 read 7 1 50 entry 3\n";
    expect(&rt, &["sources"], script, (sources, "", 0));
}

#[test]
fn steps_are_listed_with_their_replies(rt: HostRuntime) {
    let listing = "\
        1       0       initiate 7                      ok\n\
        2       1       begin 7                         ok\n\
        3       -       initiate 8                      full\n\
        4       2       complete 7                      ok\n\
        5       3       commit 7                        committed\n";
    expect(&rt, &["steps", "--cap", "4"], FULL, (listing, "", 0));
    let bad = "1       0       initiate 7                      ok\nline 2: bad command\n";
    expect(&rt, &["steps"], b"initiate 7\nbegin\n", (bad, "", 2));
}

#[test]
fn who_waits_is_written(rt: HostRuntime) {
    expect(&rt, &["waits"], FULL, ("8 initiated\n", "", 0));
    expect(&rt, &["waits", "--cap", "4"], FULL, ("", "", 0));
    expect(
        &rt,
        &["waits"],
        b"initiate 7\nbegin\n",
        ("line 2: bad command\n", "", 2),
    );
}

#[test]
fn shared_work_ends_serial_with_one(rt: HostRuntime) {
    let script = b"initiate 7\nbegin 7\npermit 7 8 r all\ncomplete 7\ncommit 7\n";
    expect(&rt, &["serial"], script, ("shared\n", "", 1));
}

#[test]
fn words_use_the_capacity(rt: HostRuntime) {
    let left = "initiate 7\nbegin 7\ncomplete 7\ncommit 7\n";
    expect(&rt, &["prune", "--cap", "4"], FULL, (left, "", 0));
    expect(
        &rt,
        &["groups", "--cap", "4"],
        FULL,
        ("0 committed 7\n", "", 0),
    );
    expect(&rt, &["groups"], FULL, ("0 committed 7\n1 dead 8\n", "", 0));
}

#[test]
fn bad_line_is_all_that_a_word_writes(rt: HostRuntime) {
    for word in ["prune", "groups", "sources", "serial"] {
        let text = "line 2: bad command\n";
        expect(&rt, &[word], b"initiate 7\nbegin\n", (text, "", 2));
    }
}
