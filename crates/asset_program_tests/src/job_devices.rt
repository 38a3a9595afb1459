//! What is answered when a reader or a writer of a job script fails in mid-stream.

use crate::asserts::{holds, same};
use asset_jobs::{JobText, JobsFault, read_jobs, write_jobs};
use asset_names::{Counts, Txn};
use asset_scripts::{Device, ScriptFault};
use asset_test_tools::{endless, failing, taking_pieces};
use std::alloc::Global;

/// Two jobs that write an object each.
const TWO_JOBS: &[u8] = b"object 1 100\nobject 2 200\njob 7\nwrite 1 150\njob 8\nwrite 2 250\n";

/// Returns whether reading answers Read if the reader fails after these bytes.
fn failing_reader_answers_read(alloc: Global, before: &[u8]) -> bool {
    let mut input = Device::new(failing(before, 3));
    let fault = match read_jobs(alloc, &mut input) {
        Ok(_script) => None,
        Err(fault) => Some(fault),
    };
    fault == Some(JobsFault::Read) && input.failed()
}

#[test]
fn reader_fails_after_each_byte(rt: HostRuntime) {
    for length in 0..=TWO_JOBS.len() {
        assert!(rt;
            failing_reader_answers_read(rt.alloc(), &TWO_JOBS[..length]),
            "after {length} bytes"
        );
    }
}

#[test]
fn endless_reader_is_given_up(rt: HostRuntime) {
    let mut input = Device::new(endless());
    let fault = match read_jobs(rt.alloc(), &mut input) {
        Ok(_script) => None,
        Err(fault) => Some(fault),
    };
    same(&rt, fault, Some(JobsFault::Read));
    holds(&rt, !input.failed());
}

const ROWS: [(Txn, JobText); 2] = [(Txn(7), JobText::Committed), (Txn(8), JobText::NotBegun)];

const COUNTS: Counts = Counts {
    entries: 5,
    committed: 1,
    aborted: 0,
};

/// The text of these rows and counts.
const TEXT: &str = "job 7 committed\njob 8 not begun\naudit ok entries 5 committed 1 aborted 0\n";

/// Returns whether writing has written what was taken until the writer failed after `calls` requests, and answers Write if
/// that is not the whole text.
fn failing_writer_answers_write(alloc: Global, calls: usize) -> bool {
    let missing = TEXT.len().saturating_sub(calls.saturating_mul(3));
    let fails = missing > 0;
    let mut writer = taking_pieces(TEXT, 3, calls, false);
    let mut output = Device::new(&mut writer);
    let end = write_jobs(alloc, &mut output, &ROWS, &Ok(()), COUNTS);
    let failed = output.failed();
    drop(output);
    let expected = if fails {
        Err(ScriptFault::Write)
    } else {
        Ok(())
    };
    end == expected && failed == fails && writer.same && writer.wanted.len() == missing
}

#[test]
fn writer_fails_at_each_write(rt: HostRuntime) {
    for calls in 0..=26usize {
        assert!(rt;
            failing_writer_answers_write(rt.alloc(), calls),
            "after {calls} writes"
        );
    }
}
