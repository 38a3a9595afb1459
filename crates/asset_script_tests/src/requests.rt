//! Readers and writers that count their own calls: each request is made once, and none after a failure.
use crate::memory::{ITS_TEXT, ONE_TRANSACTION};
use asset_cli::run_script;
use asset_scripts::{Device, RunEnd, ScriptFault};
use std::alloc::Global;
use std::io::{self, ErrorKind};

/// Gives its bytes three at a time. Fails at the call `failing`, and would go on after it.
#[derive(Drop)]
struct Reader<'a> {
    left: &'a [u8],
    calls: u64,
    failing: u64,
    kind: ErrorKind,
}

impl io::Read for Reader<'_> {
    fn read(&mut self, buf: &mut [u8]) -> io::Result<usize> {
        self.calls = self.calls.saturating_add(1);
        if self.calls == self.failing {
            return Err(io::Error::from(self.kind));
        }
        let count = self.left.len().min(buf.len()).min(3);
        let (piece, rest) = self.left.split_at(count);
        buf[..count].copy_from_slice(piece);
        self.left = rest;
        Ok(count)
    }
}

/// Takes three bytes at a time. Fails at the call `failing`, or takes nothing there if it has no kind of
/// failure, and would go on after it.
#[derive(Drop)]
struct Writer<'a> {
    taken: &'a mut Vec<u8>,
    calls: u64,
    failing: u64,
    kind: Option<ErrorKind>,
}

impl io::Write for Writer<'_> {
    fn write(&mut self, buf: &[u8]) -> io::Result<usize> {
        self.calls = self.calls.saturating_add(1);
        if self.calls == self.failing {
            return match self.kind {
                Some(kind) => Err(io::Error::from(kind)),
                None => Ok(0),
            };
        }
        let count = buf.len().min(3);
        self.taken.extend_from_slice(&buf[..count])?;
        Ok(count)
    }

    fn flush(&mut self) -> io::Result<()> {
        Ok(())
    }
}

/// What a device says of its calls, and what its reader or writer counted.
#[derive(Clone, Copy, Debug, PartialEq, Eq)]
struct Calls {
    asked: u64,
    counted: u64,
    failed: bool,
}

/// Returns the calls if `count` of them were made, of which the last one failed or none did.
fn calls_of(count: u64, failed: bool) -> Calls {
    Calls {
        asked: count,
        counted: count,
        failed,
    }
}

/// Runs a transaction with a reader and a writer that fail at these calls, and returns how it ends and
/// the calls of both.
fn run(
    alloc: Global,
    reader: &mut Reader<'_>,
    writer: &mut Writer<'_>,
) -> (Result<RunEnd, ScriptFault>, Calls, Calls) {
    let mut input = Device::new(&mut *reader);
    let mut output = Device::new(&mut *writer);
    let end = run_script(alloc, &mut input, &mut output, 10_000);
    let read = (input.asked(), input.failed());
    let written = (output.asked(), output.failed());
    let of_reader = Calls {
        asked: read.0,
        counted: reader.calls,
        failed: read.1,
    };
    let of_writer = Calls {
        asked: written.0,
        counted: writer.calls,
        failed: written.1,
    };
    (end, of_reader, of_writer)
}

/// Returns how many pieces of at most three bytes a text of `length` bytes has.
fn pieces(length: usize) -> u64 {
    length.div_ceil(3) as u64
}

/// Returns how many requests read the whole transaction: its pieces, and the end.
fn requests() -> u64 {
    pieces(ONE_TRANSACTION.len()).saturating_add(1)
}

/// Returns whether each request is made once, and the end is asked for once.
fn asks_once(alloc: Global) -> bool {
    let mut taken = Vec::new(alloc);
    let mut reader = Reader {
        left: ONE_TRANSACTION,
        calls: 0,
        failing: 0,
        kind: ErrorKind::Other,
    };
    let mut writer = Writer {
        taken: &mut taken,
        calls: 0,
        failing: 0,
        kind: None,
    };
    let (end, of_reader, of_writer) = run(alloc, &mut reader, &mut writer);
    end == Ok(RunEnd::Finished)
        && of_reader == calls_of(requests(), false)
        && of_writer == calls_of(pieces(ITS_TEXT.len()), false)
        && taken.as_slice() == ITS_TEXT.as_bytes()
}

#[test]
fn each_request_is_made_once(rt: HostRuntime) {
    assert!(rt; asks_once(rt.alloc()));
}

/// Returns whether a reader that fails at this call is not asked again, and the writer is not asked at all.
fn reader_is_left(alloc: Global, failing: u64, kind: ErrorKind) -> bool {
    let mut taken = Vec::new(alloc);
    let mut reader = Reader {
        left: ONE_TRANSACTION,
        calls: 0,
        failing,
        kind,
    };
    let mut writer = Writer {
        taken: &mut taken,
        calls: 0,
        failing: 0,
        kind: None,
    };
    let (end, of_reader, of_writer) = run(alloc, &mut reader, &mut writer);
    end == Err(ScriptFault::Read)
        && of_reader == calls_of(failing, true)
        && of_writer == calls_of(0, false)
        && taken.is_empty()
}

#[test]
fn failed_reader_is_not_asked_again(rt: HostRuntime) {
    for kind in [
        ErrorKind::Other,
        ErrorKind::Interrupted,
        ErrorKind::WouldBlock,
    ] {
        for failing in 1..=requests() {
            assert!(rt;
                reader_is_left(rt.alloc(), failing, kind),
                "at call {failing}"
            );
        }
    }
}

/// Returns whether a writer that fails at this call, or takes nothing there, is not asked again.
fn writer_is_left(alloc: Global, failing: u64, kind: Option<ErrorKind>) -> bool {
    let text = ITS_TEXT.as_bytes();
    let mut taken = Vec::new(alloc);
    let mut reader = Reader {
        left: ONE_TRANSACTION,
        calls: 0,
        failing: 0,
        kind: ErrorKind::Other,
    };
    let mut writer = Writer {
        taken: &mut taken,
        calls: 0,
        failing,
        kind,
    };
    let (end, of_reader, of_writer) = run(alloc, &mut reader, &mut writer);
    let prefix = text
        .len()
        .min(3 * failing.saturating_sub(1).min(100) as usize);
    end == Err(ScriptFault::Write)
        && of_reader == calls_of(requests(), false)
        && of_writer == calls_of(failing, true)
        && taken.as_slice() == &text[..prefix]
}

#[test]
fn failed_writer_is_not_asked_again(rt: HostRuntime) {
    for kind in [None, Some(ErrorKind::Other), Some(ErrorKind::Interrupted)] {
        for failing in 1..=pieces(ITS_TEXT.len()) {
            assert!(rt;
                writer_is_left(rt.alloc(), failing, kind),
                "at call {failing}"
            );
        }
    }
}
