//! Many transactions that wait.
use crate::reports::report;
use asset_scripts::RunEnd;
use std::alloc::{AllocError, Global};
use std::test::Fail;

/// How many transactions wait.
const MANY: u64 = 300;

/// Appends lines that begin the transactions from 1 to this one, and an object for each.
fn begin_all(script: &mut String, count: u64) -> Result<(), AllocError> {
    for t in 1..=count {
        writeln!(script, "object {t} 0")?;
    }
    for t in 1..=count {
        writeln!(script, "initiate {t}")?;
        writeln!(script, "begin {t}")?;
    }
    Ok(())
}

/// Returns a script in which each transaction holds its object and waits for that of the next, and the last one for the object
/// of `last`, if there is one.
fn ring(alloc: Global, count: u64, last: Option<u64>) -> Result<String, AllocError> {
    let mut script = String::new(alloc);
    begin_all(&mut script, count)?;
    for t in 1..=count {
        writeln!(script, "write {t} {t} 1")?;
    }
    for t in 1..count {
        writeln!(script, "write {t} {} 2", t.saturating_add(1))?;
    }
    if let Some(x) = last {
        writeln!(script, "write {count} {x} 2")?;
    }
    Ok(script)
}

/// Returns a script in which all read one object, and the last one would write it.
fn crowd(alloc: Global, count: u64) -> Result<String, AllocError> {
    let mut script = String::new(alloc);
    begin_all(&mut script, count)?;
    for t in 1..=count {
        writeln!(script, "read {t} 1")?;
    }
    writeln!(script, "write {count} 1 2")?;
    Ok(script)
}

/// Returns the script of the ring, which is made again if memory runs out once.
fn made(alloc: Global, last: Option<u64>) -> Result<String, AllocError> {
    match ring(alloc, MANY, last) {
        Ok(script) => Ok(script),
        Err(_) => ring(alloc, MANY, last),
    }
}

/// Returns the script of the crowd, which is made again if memory runs out once.
fn made_crowd(alloc: Global) -> Result<String, AllocError> {
    match crowd(alloc, MANY) {
        Ok(script) => Ok(script),
        Err(_) => crowd(alloc, MANY),
    }
}

/// Returns the report on a script.
fn reported(alloc: Global, script: &str) -> Result<Vec<u8>, Fail> {
    let mut written = Vec::new(alloc);
    let end = report(alloc, script.as_bytes(), &mut written);
    if end == Ok(RunEnd::Finished) {
        Ok(written)
    } else {
        Err("no report")?
    }
}

#[test]
fn ring_of_hundreds_is_one_deadlock(rt: HostRuntime) -> Result<(), Fail> {
    let script = made(rt.alloc(), Some(1))?;
    let written = reported(rt.alloc(), &script)?;
    let text = str::from_utf8(&written)?;
    assert_eq!(rt; text.matches(" holds it by write\n").count(), 300);
    assert_eq!(rt; text.matches("deadlock 1 2 3 ").count(), 1);
    assert_eq!(rt; text.matches("deadlock").count(), 1);
    assert!(rt; text.ends_with(" 298 299 300\n"));
    Ok(())
}

#[test]
fn row_of_hundreds_is_no_deadlock(rt: HostRuntime) -> Result<(), Fail> {
    let script = made(rt.alloc(), None)?;
    let written = reported(rt.alloc(), &script)?;
    let text = str::from_utf8(&written)?;
    assert_eq!(rt; text.matches(" holds it by write\n").count(), 299);
    assert_eq!(rt; text.matches("deadlock").count(), 0);
    Ok(())
}

#[test]
fn writer_waits_for_hundreds_of_readers(rt: HostRuntime) -> Result<(), Fail> {
    let script = made_crowd(rt.alloc())?;
    let written = reported(rt.alloc(), &script)?;
    let text = str::from_utf8(&written)?;
    assert_eq!(rt; text.matches("300 waits to write 1: ").count(), 299);
    assert_eq!(rt; text.matches(" holds it by read\n").count(), 299);
    assert_eq!(rt; text.matches("300 waits to write 1: 300 ").count(), 0);
    Ok(())
}
