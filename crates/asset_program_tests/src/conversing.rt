//! Checks and conversations by the program.

use crate::asserts::same;
use crate::running::expect;
use asset_program::{converse, run_check};
use asset_scripts::Device;
use std::alloc::Global;
use std::process::Abort;

/// Checks a script. Returns the exit status.
fn check(alloc: Global, script: &[u8], written: &mut Vec<u8>, complaints: &mut Vec<u8>) -> u8 {
    let mut input = Device::new(script);
    let mut output = Device::new(written);
    run_check(alloc, &mut input, &mut output, complaints)
}

/// Asserts what a check writes, and its exit status. If memory runs out once, it is made again.
fn expect_check(rt: &(impl Abort + AllocGlobal), script: &[u8], text: &str, status: u8) {
    let mut written = Vec::new(rt.alloc());
    let mut complaints = Vec::new(rt.alloc());
    let mut ended = check(rt.alloc(), script, &mut written, &mut complaints);
    if ended == 1 {
        written.clear();
        ended = check(rt.alloc(), script, &mut written, &mut complaints);
    }
    same(rt, str::from_utf8(&written).ok(), Some(text));
    same(rt, ended, status);
}

#[test]
fn check_of_a_good_script_is_silent(rt: HostRuntime) {
    expect_check(&rt, b"object 1 100\ninitiate 7\nbegin 7\n", "", 0);
}

#[test]
fn check_names_bad_lines_and_ends_with_two(rt: HostRuntime) {
    let script = b"object 1 100\ninita 7\ninitiate 7\nobject 2 5\n";
    let text = "line 2: unknown word inita\nline 4: object after a step\n";
    expect_check(&rt, script, text, 2);
}

/// Holds a conversation. Returns the exit status.
fn talk(
    alloc: Global,
    requested: Option<u32>,
    lines: &[u8],
    answers: &mut Vec<u8>,
    told: &mut Vec<u8>,
    complaints: &mut Vec<u8>,
) -> u8 {
    let mut input = Device::new(lines);
    let mut output = Device::new(answers);
    let mut reasons = Device::new(told);
    converse(
        alloc,
        requested,
        &mut input,
        &mut output,
        &mut reasons,
        complaints,
    )
}

/// Asserts what a conversation answers, which reasons it tells, what it complains of, and its exit status.
fn expect_talk(
    rt: &(impl Abort + AllocGlobal),
    requested: Option<u32>,
    lines: &[u8],
    (answers, reasons, complaint): (&str, &str, &str),
    status: u8,
) {
    let mut said = Vec::new(rt.alloc());
    let mut told = Vec::new(rt.alloc());
    let mut complaints = Vec::new(rt.alloc());
    let ended = talk(
        rt.alloc(),
        requested,
        lines,
        &mut said,
        &mut told,
        &mut complaints,
    );
    same(rt, ended, status);
    same(rt, str::from_utf8(&said).ok(), Some(answers));
    same(rt, str::from_utf8(&told).ok(), Some(reasons));
    same(rt, str::from_utf8(&complaints).ok(), Some(complaint));
}

#[test]
fn conversation_goes_on_after_a_bad_line(rt: HostRuntime) {
    let lines = b"object 1 100\ninitiate 7\nbegn 7\nbegin 7\nread 7 1\n";
    let answers = "ok\nline 3: bad command\nok\n100\n";
    let reasons = "line 3: unknown word begn\n";
    expect_talk(&rt, None, lines, (answers, reasons, ""), 2);
}

#[test]
fn conversation_uses_the_capacity(rt: HostRuntime) {
    let lines = b"initiate 7\nbegin 7\ninitiate 8\ncomplete 7\ncommit 7\n";
    expect_talk(
        &rt,
        Some(4),
        lines,
        ("ok\nok\nfull\nok\ncommitted\n", "", ""),
        0,
    );
}

#[test]
fn capacity_of_a_conversation_is_in_range(rt: HostRuntime) {
    let complaint = "asset: a capacity is a number from 1 to 1000000\n";
    expect_talk(&rt, Some(0), b"initiate 7\n", ("", "", complaint), 2);
}

#[test]
fn words_check_and_converse(rt: HostRuntime) {
    let lines = b"object 1 100\ninita 7\ninitiate 7\n";
    let reasons = "line 2: unknown word inita\n";
    expect(&rt, &["check"], lines, (reasons, "", 2));
    let answers = "line 2: bad command\nok\n";
    expect(&rt, &["shell"], lines, (answers, "", 2));
}
