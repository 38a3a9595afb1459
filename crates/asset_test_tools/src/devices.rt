//! A reader and a writer that take no memory, and fail where they are told to.

use std::io;

/// Gives `comment` times `#` and then the bytes that are left, at most `piece` at a time. Then it ends, or fails.
#[derive(Drop)]
pub struct Reader<'a> {
    pub comment: usize,
    pub left: &'a [u8],
    pub piece: usize,
    pub fails: bool,
}

/// Returns a reader that gives `comment` times `#` and then a script, at most `piece` bytes at a time.
pub fn after_comment(comment: usize, script: &[u8], piece: usize) -> Reader<'_> {
    Reader {
        comment,
        left: script,
        piece,
        fails: false,
    }
}

/// Returns a reader that gives a script, at most `piece` bytes at a time.
pub fn by_pieces(script: &[u8], piece: usize) -> Reader<'_> {
    after_comment(0, script, piece)
}

/// Returns a reader that gives a script at once.
pub fn whole(script: &[u8]) -> Reader<'_> {
    by_pieces(script, 65_536)
}

/// Returns a reader that gives `#` for ever.
pub fn endless() -> Reader<'static> {
    after_comment(usize::MAX, b"", 65_536)
}

/// Returns a reader that gives these bytes, at most `piece` at a time, and then fails.
pub fn failing(before: &[u8], piece: usize) -> Reader<'_> {
    Reader {
        comment: 0,
        left: before,
        piece,
        fails: true,
    }
}

impl io::Read for Reader<'_> {
    fn read(&mut self, buf: &mut [u8]) -> io::Result<usize> {
        let most = buf.len().min(self.piece);
        if self.comment > 0 {
            let count = most.min(self.comment);
            buf[..count].fill(b'#');
            self.comment -= count;
            return Ok(count);
        }
        let count = most.min(self.left.len());
        if count == 0 && self.fails {
            return Err(io::Error::from(io::ErrorKind::Other));
        }
        let (given, rest) = self.left.split_at(count);
        buf[..count].copy_from_slice(given);
        self.left = rest;
        Ok(count)
    }
}

/// Compares what it is given with the text that is wanted, at most `piece` bytes at a time. Once it has been asked `calls`
/// times it fails, or takes nothing. `wanted` has what is still missing, and `same` says whether all that it took was wanted.
#[derive(Drop)]
pub struct Writer<'a> {
    pub wanted: &'a [u8],
    pub same: bool,
    pub piece: usize,
    pub calls: usize,
    pub takes_nothing: bool,
}

/// Returns a writer that takes at most `piece` bytes of the text at a time, for `calls` times; then it fails, or takes nothing.
pub fn taking_pieces(text: &str, piece: usize, calls: usize, takes_nothing: bool) -> Writer<'_> {
    Writer {
        wanted: text.as_bytes(),
        same: true,
        piece,
        calls,
        takes_nothing,
    }
}

/// Returns a writer that takes everything at once.
pub fn taking(text: &str) -> Writer<'_> {
    taking_pieces(text, usize::MAX, usize::MAX, false)
}

impl io::Write for Writer<'_> {
    fn write(&mut self, buf: &[u8]) -> io::Result<usize> {
        if self.calls == 0 {
            return if self.takes_nothing {
                Ok(0)
            } else {
                Err(io::Error::from(io::ErrorKind::Other))
            };
        }
        self.calls -= 1;
        let count = buf.len().min(self.piece);
        if self.wanted.starts_with(&buf[..count]) {
            self.wanted = &self.wanted[count..];
        } else {
            self.same = false;
        }
        Ok(count)
    }

    fn flush(&mut self) -> io::Result<()> {
        Ok(())
    }
}
