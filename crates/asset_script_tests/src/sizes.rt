//! Scripts past 64 KiB and 100,000 lines. Each is run once, and not again if memory runs out.
use crate::memory::expect_at_once;
use asset_scripts::RunEnd;
use std::test::Fail;

/// How many lines of one kind a script has.
const LINES: u64 = 120_000;

/// The capacity of the history, with room for each line.
const ROOM: usize = 130_000;

#[test]
fn many_refusals(rt: HostRuntime) -> Result<(), Fail> {
    let mut script = String::new(rt.alloc());
    let mut text = String::new(rt.alloc());
    for t in 0..LINES {
        writeln!(script, "begin {t}")?;
        writeln!(text, "refused unknown {t}")?;
    }
    expect_at_once(
        &rt,
        script.as_bytes(),
        ROOM,
        text.as_str(),
        RunEnd::Finished,
    )
}

#[test]
fn many_reads(rt: HostRuntime) -> Result<(), Fail> {
    let mut script = String::from_str(rt.alloc(), "object 1 100\ninitiate 7\nbegin 7\n")?;
    let mut text = String::from_str(rt.alloc(), "ok\nok\n")?;
    for _ in 0..LINES {
        script.push_str("read 7 1\n")?;
        text.push_str("100\n")?;
    }
    expect_at_once(
        &rt,
        script.as_bytes(),
        ROOM,
        text.as_str(),
        RunEnd::Finished,
    )
}

#[test]
fn many_objects(rt: HostRuntime) -> Result<(), Fail> {
    let mut script = String::new(rt.alloc());
    for x in 0..LINES {
        writeln!(script, "object {x} -1{x}")?;
    }
    script.push_str("initiate 7\nbegin 7\nread 7 0\nread 7 119999\nread 7 120000\n")?;
    let text = "ok\nok\n-10\n-1119999\nrefused no object 120000\n";
    expect_at_once(&rt, script.as_bytes(), 10, text, RunEnd::Finished)
}

#[test]
fn bad_line_after_many(rt: HostRuntime) -> Result<(), Fail> {
    let mut script = String::new(rt.alloc());
    for _ in 0..LINES {
        script.push_str("#\n")?;
    }
    script.push_str("begin\n")?;
    let text = "line 120001: bad command\n";
    expect_at_once(&rt, script.as_bytes(), ROOM, text, RunEnd::BadLine(120_001))
}
