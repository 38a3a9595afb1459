//! Reports on scripts.
use asset_scripts::{Device, RunEnd, ScriptFault};
use asset_standing::waits_script;
use std::alloc::Global;
use std::process::Abort;
use std::test::Fail;

/// Writes the report on a script to these bytes.
fn report_once(alloc: Global, script: &[u8], written: &mut Vec<u8>) -> Result<RunEnd, ScriptFault> {
    let mut input = Device::new(script);
    let mut output = Device::new(written);
    waits_script(alloc, &mut input, &mut output, 10_000)
}

/// Writes the report on a script to these bytes. If memory runs out once, for the report or for the bytes, it is asked for again.
pub(crate) fn report(
    alloc: Global,
    script: &[u8],
    written: &mut Vec<u8>,
) -> Result<RunEnd, ScriptFault> {
    match report_once(alloc, script, written) {
        Err(ScriptFault::NoMemory | ScriptFault::Write) => {
            written.clear();
            report_once(alloc, script, written)
        }
        ended => ended,
    }
}

/// Expects that a script has this report.
pub(crate) fn expect_report(
    rt: &(impl Abort + AllocGlobal),
    script: &str,
    text: &str,
    end: RunEnd,
) -> Result<(), Fail> {
    let mut written = Vec::new(rt.alloc());
    let ended = report(rt.alloc(), script.as_bytes(), &mut written);
    assert_eq!(rt; ended, Ok(end), "at {script}");
    assert_eq!(rt; str::from_utf8(&written)?, text, "at {script}");
    Ok(())
}
