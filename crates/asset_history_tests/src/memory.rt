//! Scripts whose bytes and whose reports stand in memory.
ghost use Rattle.asset_core.specs.OpenFaults.{IsCapacity};
ghost use Rattle.asset_scripts.specs.Device.{IsUnused};

use asset_cli::{groups_script, prune_script, run_script, serial_script, sources_script};
use asset_scripts::{Device, RunEnd, ScriptFault};
use std::alloc::Global;
use std::process::Abort;
use std::test::Fail;

/// The capacity of the history if a test names none.
const ROOM: usize = 10_000;

/// Room for the entries of a long script.
const MUCH_ROOM: usize = 100_000;

/// What a script is run for.
#[derive(Clone, Copy, Debug)]
pub enum Call {
    Run,
    Prune,
    Groups,
    Serial,
    Sources,
}

/// Runs the script that the device gives for what the call gives, and writes that to the other device.
fn run_between(
    alloc: Global,
    call: Call,
    input: &mut Device<&[u8]>,
    output: &mut Device<&mut Vec<u8>>,
    capacity: usize,
) -> Result<RunEnd, ScriptFault>
    requires capacity { IsCapacity capacity }
    requires unused_input { IsUnused input.old }
    requires unused_output { IsUnused output.old }
{
    match call {
        Call::Run => run_script(alloc, input, output, capacity),
        Call::Prune => prune_script(alloc, input, output, capacity),
        Call::Groups => groups_script(alloc, input, output, capacity),
        Call::Serial => serial_script(alloc, input, output, capacity),
        Call::Sources => sources_script(alloc, input, output, capacity),
    }
}

/// Runs a script for what the call gives, and adds to these bytes what it writes.
fn run(
    alloc: Global,
    call: Call,
    script: &[u8],
    capacity: usize,
    written: &mut Vec<u8>,
) -> Result<RunEnd, ScriptFault>
    requires { IsCapacity capacity }
{
    let mut input = Device::new(script);
    let mut output = Device::new(written);
    run_between(alloc, call, &mut input, &mut output, capacity)
}

/// Runs a script, and puts what it writes into empty bytes. If memory runs out once, what is written is a prefix of the text,
/// and the script is run again.
fn run_again(
    alloc: Global,
    call: Call,
    script: &[u8],
    capacity: usize,
    text: &str,
    written: &mut Vec<u8>,
) -> Result<RunEnd, ScriptFault>
    requires { IsCapacity capacity }
{
    match run(alloc, call, script, capacity, written) {
        Err(_) if text.as_bytes().starts_with(written.as_slice()) => {
            written.clear();
            run(alloc, call, script, capacity, written)
        }
        ended => ended,
    }
}

/// Asserts what a call writes of a script over a history with room for `capacity` entries, and how the run ends.
fn expect_call(
    rt: &(impl Abort + AllocGlobal),
    call: Call,
    script: &[u8],
    capacity: usize,
    text: &str,
    end: RunEnd,
) -> Result<(), Fail>
    requires { IsCapacity capacity }
{
    let mut written = Vec::new(rt.alloc());
    let ended = run_again(rt.alloc(), call, script, capacity, text, &mut written);
    let came = (ended, str::from_utf8(&written).ok());
    assert_eq!(rt; came, (Ok(end), Some(text)), "by {call:?}");
    Ok(())
}

/// Asserts what a call writes of a script, and how the run ends.
pub fn expect_report(
    rt: &(impl Abort + AllocGlobal),
    call: Call,
    script: &[u8],
    text: &str,
    end: RunEnd,
) -> Result<(), Fail> {
    expect_call(rt, call, script, ROOM, text, end)
}

/// Asserts what a call writes of a script that runs to its end. It is run once, and not again if memory runs out.
pub fn expect_report_at_once(
    rt: &(impl Abort + AllocGlobal),
    call: Call,
    script: &[u8],
    text: &str,
) -> Result<(), Fail> {
    let mut written = Vec::new(rt.alloc());
    let ended = run(rt.alloc(), call, script, MUCH_ROOM, &mut written);
    assert_eq!(rt; ended, Ok(RunEnd::Finished), "by {call:?}");
    assert!(rt;
        written.as_slice() == text.as_bytes(),
        "other text by {call:?}"
    );
    Ok(())
}

/// Asserts what a script writes and how its run ends.
pub fn expect(
    rt: &(impl Abort + AllocGlobal),
    script: &[u8],
    text: &str,
    end: RunEnd,
) -> Result<(), Fail> {
    expect_call(rt, Call::Run, script, ROOM, text, end)
}
