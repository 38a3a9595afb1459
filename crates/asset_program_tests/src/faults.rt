//! Readers and writers that fail, and arguments that could not be read.

use crate::asserts::same;
use crate::running::{list, run_over};
use asset_program::Next;
use asset_requests::ArgumentsFault;
use asset_scripts::ScriptFault;
use asset_test_tools::{failing, taking_pieces};
use std::process::Abort;
use std::test::Fail;

/// A script of one step.
const SCRIPT: &[u8] = b"initiate 7\n";

#[test]
fn failing_reader_ends_with_one(rt: HostRuntime) -> Result<(), Fail> {
    let arguments = Ok(list(rt.alloc(), &["run"])?);
    let mut written = Vec::new(rt.alloc());
    let mut complaints = Vec::new(rt.alloc());
    let next = run_over(
        rt.alloc(),
        &arguments,
        failing(b"", 1),
        &mut written,
        &mut complaints,
    );
    same(&rt, (next, written.len()), (Next::Exit(1), 0));
    let said = str::from_utf8(&complaints).ok();
    same(&rt, said, Some("asset: read fault\n"));
    Ok(())
}

/// Asserts what the program says with these arguments if its writer fails, and its exit status.
fn expect_without_output(
    rt: &(impl Abort + AllocGlobal),
    texts: &[&str],
    errors: &str,
    status: u8,
) -> Result<(), Fail> {
    let arguments = Ok(list(rt.alloc(), texts)?);
    let mut complaints = Vec::new(rt.alloc());
    let writer = taking_pieces("", 1, 0, false);
    let next = run_over(rt.alloc(), &arguments, SCRIPT, writer, &mut complaints);
    let came = (next, str::from_utf8(&complaints).ok());
    assert_eq!(rt; came, (Next::Exit(status), Some(errors)), "at {texts:?}");
    Ok(())
}

#[test]
fn failing_writer_ends_with_one(rt: HostRuntime) -> Result<(), Fail> {
    expect_without_output(&rt, &["run"], "asset: write fault\n", 1)
}

#[test]
fn help_needs_no_writer_that_works(rt: HostRuntime) -> Result<(), Fail> {
    expect_without_output(&rt, &["--help"], "", 0)
}

/// Asserts what the program does if its arguments could not be read.
fn expect_unread(rt: &(impl Abort + AllocGlobal), fault: ArgumentsFault, errors: &str, status: u8) {
    let arguments = Err(fault);
    let mut written = Vec::new(rt.alloc());
    let mut complaints = Vec::new(rt.alloc());
    let next = run_over(
        rt.alloc(),
        &arguments,
        SCRIPT,
        &mut written,
        &mut complaints,
    );
    same(rt, (next, written.len()), (Next::Exit(status), 0));
    same(rt, str::from_utf8(&complaints).ok(), Some(errors));
}

#[test]
fn arguments_that_could_not_be_read(rt: HostRuntime) {
    let not_text = "asset: an argument is not valid UTF-8\n";
    expect_unread(&rt, ArgumentsFault::NotText, not_text, 2);
    expect_unread(&rt, ArgumentsFault::NoMemory, "asset: no memory\n", 1);
}

#[test]
fn memory_fault_in_text(rt: HostRuntime) -> Result<(), Fail> {
    let text = ScriptFault::NoMemory.to_string(rt.alloc())?;
    assert_eq!(rt; text.as_str(), "no memory");
    Ok(())
}
