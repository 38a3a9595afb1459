//! What is answered when a reader or a writer fails in mid-stream.
use crate::memory::{ITS_TEXT, ONE_TRANSACTION};
use asset_cli::run_script;
use asset_scripts::{Device, RunEnd, ScriptFault};
use asset_test_tools::{endless, failing, taking_pieces};
use std::alloc::Global;
use std::test::Fail;

/// Returns whether what the reader gives and the writer takes in pieces is read and written whole.
fn is_read_and_written_whole(alloc: Global) -> bool {
    let mut writer = taking_pieces("refused unknown 7\n", 3, 6, false);
    let mut input = Device::new(&b"begin 7\n"[..]);
    let mut output = Device::new(&mut writer);
    let end = run_script(alloc, &mut input, &mut output, 10_000);
    let asked = (input.asked(), output.asked());
    let failed = input.failed() || output.failed();
    drop(output);
    end == Ok(RunEnd::Finished)
        && asked == (2, 6)
        && !failed
        && writer.same
        && writer.wanted.is_empty()
}

#[test]
fn reads_and_writes_everything(rt: HostRuntime) {
    assert!(rt; is_read_and_written_whole(rt.alloc()));
}

/// Returns whether a run writes nothing and answers Read if its reader fails after these bytes.
fn failing_reader_answers_read(alloc: Global, before: &[u8]) -> bool {
    let mut written = Vec::new(alloc);
    let mut input = Device::new(failing(before, 3));
    let mut output = Device::new(&mut written);
    let end = run_script(alloc, &mut input, &mut output, 10_000);
    end == Err(ScriptFault::Read) && input.failed() && written.is_empty()
}

#[test]
fn reader_fails_after_each_byte(rt: HostRuntime) {
    for length in 0..=ONE_TRANSACTION.len() {
        assert!(rt;
            failing_reader_answers_read(rt.alloc(), &ONE_TRANSACTION[..length]),
            "after {length} bytes"
        );
    }
}

#[test]
fn reader_fails_past_one_piece(rt: HostRuntime) -> Result<(), Fail> {
    let comment = vec![in rt.alloc(); b'#'; 70_000]?;
    assert!(rt; failing_reader_answers_read(rt.alloc(), &comment));
    Ok(())
}

/// Returns whether a run writes nothing and answers Read if its reader never ends.
fn endless_reader_answers_read(alloc: Global) -> bool {
    let mut written = Vec::new(alloc);
    let mut input = Device::new(endless());
    let mut output = Device::new(&mut written);
    let end = run_script(alloc, &mut input, &mut output, 10_000);
    end == Err(ScriptFault::Read) && !input.failed() && input.asked() == 1025 && written.is_empty()
}

#[test]
fn endless_reader_is_given_up(rt: HostRuntime) {
    assert!(rt; endless_reader_answers_read(rt.alloc()));
}

/// Returns whether a run whose writer fails after `calls` requests has written what was taken until then,
/// and answers Write if that is not the whole text.
fn failing_writer_answers_write(alloc: Global, calls: usize) -> bool {
    let missing = ITS_TEXT.len().saturating_sub(calls.saturating_mul(3));
    let fails = missing > 0;
    let mut writer = taking_pieces(ITS_TEXT, 3, calls, false);
    let mut input = Device::new(ONE_TRANSACTION);
    let mut output = Device::new(&mut writer);
    let end = run_script(alloc, &mut input, &mut output, 10_000);
    let failed = output.failed();
    drop(output);
    let expected = if fails {
        Err(ScriptFault::Write)
    } else {
        Ok(RunEnd::Finished)
    };
    end == expected && failed == fails && writer.same && writer.wanted.len() == missing
}

#[test]
fn writer_fails_at_each_write(rt: HostRuntime) {
    for calls in 0..=10usize {
        assert!(rt;
            failing_writer_answers_write(rt.alloc(), calls),
            "after {calls} writes"
        );
    }
}

#[test]
fn writer_that_takes_nothing_has_failed(rt: HostRuntime) {
    let mut input = Device::new(ONE_TRANSACTION);
    let mut output = Device::new(taking_pieces(ITS_TEXT, 3, 0, true));
    let end = run_script(rt.alloc(), &mut input, &mut output, 10_000);
    assert_eq!(rt; end, Err(ScriptFault::Write));
    assert!(rt; output.failed());
    assert_eq!(rt; output.asked(), 1);
}
