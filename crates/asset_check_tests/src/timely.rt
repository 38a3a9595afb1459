//! A reader that looks, whenever it is asked, whether the replies to all lines so far were written.

use asset_scripts::Device;
use asset_shell::run_shell;
use std::alloc::Global;
use std::cell::Cell;
use std::io;

/// Gives pieces of text. Before each of them, and before the end, so many bytes have to be written.
#[derive(Drop)]
struct TimelyReader<'a> {
    pieces: &'a [(&'a [u8], usize)],
    given: usize,
    written: &'a Cell<usize>,
    late: &'a Cell<bool>,
}

impl io::Read for TimelyReader<'_> {
    fn read(&mut self, buf: &mut [u8]) -> io::Result<usize> {
        let Some((piece, before)) = self.pieces.get(self.given) else {
            return Ok(0);
        };
        self.given = self.given.saturating_add(1);
        if self.written.get() != *before {
            self.late.set(true);
        }
        let count = piece.len().min(buf.len());
        buf[..count].copy_from_slice(&piece[..count]);
        Ok(count)
    }
}

/// Counts the bytes that it is given.
#[derive(Drop)]
struct CountingWriter<'a> {
    written: &'a Cell<usize>,
}

impl io::Write for CountingWriter<'_> {
    fn write(&mut self, buf: &[u8]) -> io::Result<usize> {
        self.written
            .set(self.written.get().saturating_add(buf.len()));
        Ok(buf.len())
    }

    fn flush(&mut self) -> io::Result<()> {
        Ok(())
    }
}

/// Pieces of a conversation, each with how many bytes of replies and reasons are written before it is asked for.
const PIECES: [(&[u8], usize); 6] = [
    (b"object 1 5\nini", 0),
    (b"tiate 7\n", 0),
    (b"begin 7\nread 7 1\nre", 3),
    (b"ad", 8),
    (b" 7\n", 8),
    (b"", 51),
];

/// Returns whether each reply and each reason was written before the reader was asked again, and all 51 bytes were in the end.
fn is_timely(alloc: Global) -> bool {
    let written = Cell::new(0);
    let late = Cell::new(false);
    let mut input = Device::new(TimelyReader {
        pieces: &PIECES,
        given: 0,
        written: &written,
        late: &late,
    });
    let mut output = Device::new(CountingWriter { written: &written });
    let mut errors = Device::new(CountingWriter { written: &written });
    let end = run_shell(alloc, &mut input, &mut output, &mut errors, 100);
    end.is_ok() && !late.get() && written.get() == 51
}

#[test]
fn replies_come_before_the_next_request(rt: HostRuntime) {
    assert!(rt; is_timely(rt.alloc()));
}
