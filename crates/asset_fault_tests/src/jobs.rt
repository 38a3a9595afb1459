//! Job scripts and how they ended, while a request for memory is refused or a device fails.

use asset_jobs::{JobAct, JobScript, JobText, JobsFault, read_jobs, write_jobs};
use asset_names::{Counts, Ob, Txn};
use asset_scripts::{Device, ScriptFault};
use asset_test_tools::{Reader, Writer, by_pieces, taking, whole};
use std::alloc::Global;

/// Two jobs over two objects, of which one gives up.
const TWO_JOBS: &[u8] =
    b"object 1 100\nobject 2 200\njob 7\nread 1\nadd 1 -150\njob 8\nwrite 2 -250\ngive up\n";

/// Reads a script from a reader that takes no memory.
fn read(alloc: Global, reader: Reader<'_>) -> Result<JobScript, JobsFault> {
    let mut input = Device::new(reader);
    read_jobs(alloc, &mut input)
}

/// Returns whether a script is the two jobs.
fn is_two_jobs(script: &JobScript) -> bool {
    let of_7 = [JobAct::Read(Ob(1)), JobAct::Add(Ob(1), -150)];
    let of_8 = [JobAct::Write(Ob(2), -250), JobAct::GiveUp];
    if script.jobs.len() != 2 {
        return false;
    }
    let first = &script.jobs[0];
    let second = &script.jobs[1];
    script.opening.as_slice() == [(Ob(1), 100), (Ob(2), 200)].as_slice()
        && first.0 == Txn(7)
        && first.1.as_slice() == of_7.as_slice()
        && second.0 == Txn(8)
        && second.1.as_slice() == of_8.as_slice()
}

/// Returns whether a script says the two jobs. If memory runs out once, it is read again.
fn reads_two_jobs(alloc: Global, piece: usize) -> bool {
    let read_once = match read(alloc, by_pieces(TWO_JOBS, piece)) {
        Err(JobsFault::NoMemory) => read(alloc, whole(TWO_JOBS)),
        read_once => read_once,
    };
    match read_once {
        Ok(script) => is_two_jobs(&script),
        Err(_) => false,
    }
}

#[test]
fn jobs_are_read_or_refused(rt: HostRuntime) {
    assert!(rt; reads_two_jobs(rt.alloc(), 65_536));
}

#[test]
fn jobs_come_byte_by_byte(rt: HostRuntime) {
    assert!(rt; reads_two_jobs(rt.alloc(), 1));
}

/// Returns the fault at which a script is read. If memory runs out once, it is read again.
fn fault_of(alloc: Global, script: &[u8]) -> Option<JobsFault> {
    let read_once = match read(alloc, whole(script)) {
        Err(JobsFault::NoMemory) => read(alloc, whole(script)),
        read_once => read_once,
    };
    match read_once {
        Ok(_script) => None,
        Err(fault) => Some(fault),
    }
}

#[test]
fn broken_jobs_are_named(rt: HostRuntime) {
    let rows: [(&[u8], Option<JobsFault>); 5] = [
        (b"job 7\nwrite 1 5", None),
        (b"job 7\nwrite 1 ", Some(JobsFault::BadLine(2))),
        (b"job 7\r\n", Some(JobsFault::BadLine(1))),
        (b"job 7\njob", Some(JobsFault::BadLine(2))),
        (b"job 7\njob 8\nobject 1 1\n", Some(JobsFault::BadLine(3))),
    ];
    for (script, fault) in rows {
        assert_eq!(rt; fault_of(rt.alloc(), script), fault);
    }
}

/// How the jobs ended.
const ROWS: [(Txn, JobText); 4] = [
    (Txn(7), JobText::Committed),
    (Txn(8), JobText::Aborted),
    (Txn(9), JobText::Unsettled),
    (Txn(10), JobText::NotBegun),
];

const COUNTS: Counts = Counts {
    entries: 9,
    committed: 1,
    aborted: 1,
};

/// The text of these rows and counts.
const TEXT: &str =
    "job 7 committed\njob 8 aborted\njob 9 unsettled\njob 10 not begun\naudit ok entries 9 committed 1 aborted 1\n";

/// Writes how the jobs ended. Returns the fault, if there is one, how many bytes of the text were not written, and whether the
/// others begin the text.
fn write_rows(alloc: Global, mut writer: Writer<'_>) -> (Result<(), ScriptFault>, usize, bool) {
    let mut output = Device::new(&mut writer);
    let end = write_jobs(alloc, &mut output, &ROWS, &Ok(()), COUNTS);
    drop(output);
    (end, writer.wanted.len(), writer.same)
}

/// Returns a writer that takes `piece` bytes at a time, for `calls` times, and then fails or takes nothing.
fn taking_pieces(piece: usize, calls: usize, takes_nothing: bool) -> Writer<'static> {
    let mut writer = taking(TEXT);
    writer.piece = piece;
    writer.calls = calls;
    writer.takes_nothing = takes_nothing;
    writer
}

/// Writes how the jobs ended by one byte at a time, for `calls` times. If memory runs out once, nothing was written, and it is
/// written again.
fn write_again(
    alloc: Global,
    calls: usize,
    takes_nothing: bool,
) -> (Result<(), ScriptFault>, usize, bool) {
    let written = write_rows(alloc, taking_pieces(1, calls, takes_nothing));
    if written == (Err(ScriptFault::NoMemory), TEXT.len(), true) {
        write_rows(alloc, taking_pieces(1, calls, takes_nothing))
    } else {
        written
    }
}

/// Returns whether a writer that takes one byte at a time, and then fails or takes nothing, leaves a prefix.
fn is_cut_at_each_byte(alloc: Global, takes_nothing: bool) -> bool {
    for calls in 0..TEXT.len() {
        let missing = TEXT.len() - calls;
        if write_again(alloc, calls, takes_nothing) != (Err(ScriptFault::Write), missing, true) {
            return false;
        }
    }
    true
}

#[test]
fn writer_fails_at_each_byte(rt: HostRuntime) {
    assert!(rt; is_cut_at_each_byte(rt.alloc(), false));
}

#[test]
fn writer_takes_nothing_at_each_byte(rt: HostRuntime) {
    assert!(rt; is_cut_at_each_byte(rt.alloc(), true));
}

#[test]
fn ends_are_written_or_refused(rt: HostRuntime) {
    let written = write_again(rt.alloc(), TEXT.len(), false);
    assert_eq!(rt; written, (Ok(()), 0, true));
}
