//! Whole scripts, with the text that answers each and how its run ends.
use crate::memory::{ITS_TEXT, ONE_TRANSACTION, expect, expect_with_room};
use asset_scripts::RunEnd;
use std::alloc::{AllocError, Global};
use std::test::Fail;

#[test]
fn one_transaction(rt: HostRuntime) -> Result<(), Fail> {
    expect(&rt, ONE_TRANSACTION, ITS_TEXT, RunEnd::Finished)
}

#[test]
fn empty_script(rt: HostRuntime) -> Result<(), Fail> {
    expect(&rt, b"", "", RunEnd::Finished)
}

#[test]
fn object_after_step(rt: HostRuntime) -> Result<(), Fail> {
    let script = b"object 1 100\ninitiate 7\nobject 2 5\n";
    expect(&rt, script, "ok\nline 3: bad command\n", RunEnd::BadLine(3))
}

#[test]
fn missing_word(rt: HostRuntime) -> Result<(), Fail> {
    let script = b"initiate 7\nbegin";
    expect(&rt, script, "ok\nline 2: bad command\n", RunEnd::BadLine(2))
}

#[test]
fn number_too_large(rt: HostRuntime) -> Result<(), Fail> {
    let script = b"initiate 18446744073709551616\n";
    expect(&rt, script, "line 1: bad command\n", RunEnd::BadLine(1))
}

#[test]
fn cut_in_a_number(rt: HostRuntime) -> Result<(), Fail> {
    let script = b"object 1 100\nobject 2 200\nobject 3 300\ninitiate 7\nbegin 7\nread 7 1\n\
        write 7 1 5";
    expect(&rt, script, "ok\nok\n100\nok\n", RunEnd::Finished)
}

#[test]
fn cut_after_a_space(rt: HostRuntime) -> Result<(), Fail> {
    let script = b"object 1 100\nobject 2 200\nobject 3 300\ninitiate 7\nbegin 7\nread 7 1\n\
        write 7 1 50\nread 7 1\ncomplete 7\ncommit ";
    let text = "ok\nok\n100\nok\n50\nok\nline 10: bad command\n";
    expect(&rt, script, text, RunEnd::BadLine(10))
}

#[test]
fn carriage_return(rt: HostRuntime) -> Result<(), Fail> {
    let script = b"initiate 7\r\n";
    expect(&rt, script, "line 1: bad command\n", RunEnd::BadLine(1))
}

/// Returns a comment of `length` bytes, and then a step.
fn after_comment(alloc: Global, length: usize) -> Result<Vec<u8>, AllocError> {
    let mut script = vec![in alloc; b'#'; length]?;
    script.extend_from_slice(b"\ninitiate 7\n")?;
    Ok(script)
}

#[test]
fn longest_comment(rt: HostRuntime) -> Result<(), Fail> {
    let script = after_comment(rt.alloc(), 4096)?;
    expect(&rt, &script, "ok\n", RunEnd::Finished)
}

#[test]
fn comment_too_long(rt: HostRuntime) -> Result<(), Fail> {
    let script = after_comment(rt.alloc(), 4097)?;
    expect(&rt, &script, "line 1: bad command\n", RunEnd::BadLine(1))
}

/// A child commits while its parent still runs.
#[test]
fn child_commits_before_its_parent(rt: HostRuntime) -> Result<(), Fail> {
    let script = b"initiate 7\nbegin 7\ninitiate 8 7\nbegin 8\ncomplete 8\ncommit 8\n";
    expect(
        &rt,
        script,
        "ok\nok\nok\nok\nok\ncommitted\n",
        RunEnd::Finished,
    )
}

/// One transaction, as it is answered if nobody else works.
#[test]
fn pruned_runs_alike(rt: HostRuntime) -> Result<(), Fail> {
    let script = b"object 1 100\nobject 2 200\nobject 3 300\ninitiate 9\nbegin 9\nread 9 3\n\
        write 9 3 33\nread 9 1\ncomplete 9\ncommit 9\n";
    let text = "ok\nok\n300\nok\n100\nok\ncommitted\n";
    expect(&rt, script, text, RunEnd::Finished)
}

#[test]
fn reader_waits_for_abort(rt: HostRuntime) -> Result<(), Fail> {
    let script = b"object 1 100\nobject 2 200\nobject 3 300\ninitiate 7\nbegin 7\ninitiate 8\n\
        begin 8\nwrite 7 1 50\nread 8 1\nabort 7\nread 8 1\n";
    let text = "ok\nok\nok\nok\nok\nwait\naborted\n100\n";
    expect(&rt, script, text, RunEnd::Finished)
}

#[test]
fn room_is_owed(rt: HostRuntime) -> Result<(), Fail> {
    let script = b"object 1 100\nobject 2 200\nobject 3 300\ninitiate 7\nbegin 7\nread 7 1\n\
        complete 7\nabort 7\ninitiate 8\ncommit 7\n";
    let text = "ok\nok\nfull\nok\naborted\nfull\nfull\n";
    expect_with_room(&rt, script, 4, text, RunEnd::Finished)
}

#[test]
fn no_room_to_begin(rt: HostRuntime) -> Result<(), Fail> {
    let script = b"object 1 100\nobject 2 200\nobject 3 300\ninitiate 7\nbegin 7\nabort 7\n";
    let text = "ok\nfull\naborted\n";
    expect_with_room(&rt, script, 3, text, RunEnd::Finished)
}

#[test]
fn endings_are_answered(rt: HostRuntime) -> Result<(), Fail> {
    let script = b"initiate 7\nwait 7\nbegin 7\ncomplete 7\nwait 7\ncommit 7\nabort 7\nwait 7\n\
        initiate 8\nabort 8\nwait 8\ncommit 8\nabort 8\nbegin 8\nwait 9\n";
    let text = "ok\nwait\nok\nok\nok\ncommitted\nrefused too late 7\ncommitted\n\
        ok\naborted\naborted\naborted\naborted\nrefused ended 8\nrefused unknown 9\n";
    expect(&rt, script, text, RunEnd::Finished)
}
