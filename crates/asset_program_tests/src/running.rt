//! How a test runs the program.

use asset_arguments::requested;
use asset_program::{Next, do_asked};
use asset_requests::ArgumentsFault;
use asset_scripts::Device;
use std::alloc::{AllocError, Global};
use std::io;
use std::process::Abort;

/// Returns the program's name and these arguments.
pub(crate) fn list(alloc: Global, texts: &[&str]) -> Result<Vec<String>, AllocError> {
    let mut arguments = Vec::new(alloc);
    arguments.push(String::from_str(alloc, "asset")?)?;
    for text in texts {
        arguments.push(String::from_str(alloc, text)?)?;
    }
    Ok(arguments)
}

/// Runs the program over this reader and this writer, and adds what it says to the complaints. Drops the reasons of a
/// conversation. Returns what the caller does next.
pub(crate) fn run_over<R: io::Read + Drop, W: io::Write + Drop>(
    alloc: Global,
    arguments: &Result<Vec<String>, ArgumentsFault>,
    input: R,
    output: W,
    complaints: &mut Vec<u8>,
) -> Next {
    let asked = requested(alloc, arguments);
    let mut told = Vec::new(alloc);
    let mut input = Device::new(input);
    let mut output = Device::new(output);
    let mut reasons = Device::new(&mut told);
    do_asked(
        alloc,
        asked,
        &mut input,
        &mut output,
        &mut reasons,
        complaints,
    )
}

/// Runs the program with these arguments on a script. Returns what the caller does next, if memory sufficed for the arguments.
pub(crate) fn run(
    alloc: Global,
    texts: &[&str],
    script: &[u8],
    written: &mut Vec<u8>,
    complaints: &mut Vec<u8>,
) -> Result<Next, AllocError> {
    let arguments = Ok(list(alloc, texts)?);
    Ok(run_over(alloc, &arguments, script, written, complaints))
}

/// Asserts what the program writes to its output and to its errors, and its exit status.
pub(crate) fn expect(
    rt: &(impl Abort + AllocGlobal),
    texts: &[&str],
    script: &[u8],
    (output, errors, status): (&str, &str, u8),
) {
    let mut written = Vec::new(rt.alloc());
    let mut complaints = Vec::new(rt.alloc());
    let next = run(rt.alloc(), texts, script, &mut written, &mut complaints);
    let said = [&complaints, &written].map(|bytes| str::from_utf8(bytes).ok());
    let wanted = (Ok(Next::Exit(status)), [Some(errors), Some(output)]);
    assert_eq!(rt; (next, said), wanted, "at {texts:?}");
}
