//! A reader of lines, and a writer that allocates no memory. Both fail at a given call.
use std::io;
use std::io::{Error, ErrorKind as IoErrorKind, Read, Write};

/// A file of lines: its front, a middle, how often the middle is repeated, and its end.
pub type Lines<'a> = (&'a str, &'a str, usize, &'a str);

/// A reader of a file of lines that returns at most `size` bytes at a time. It fails once, with `kind`, at the call
/// numbered `until_failure`, from 1; never if that is 0.
#[derive(Drop)]
pub struct LinesReader<'a> {
    /// The unread rest of the present part.
    bytes: &'a [u8],
    middle: &'a [u8],
    /// How many more times the middle is read.
    times: usize,
    end: &'a [u8],
    pub size: usize,
    pub until_failure: u64,
    pub kind: IoErrorKind,
}

impl<'a> LinesReader<'a> {
    /// A reader that returns as many bytes as are requested and left in the present part, and never fails.
    pub fn new((front, middle, times, end): Lines<'a>) -> LinesReader<'a> {
        LinesReader {
            bytes: front.as_bytes(),
            middle: middle.as_bytes(),
            times: if middle.is_empty() { 0 } else { times },
            end: end.as_bytes(),
            size: usize::MAX,
            until_failure: 0,
            kind: IoErrorKind::Other,
        }
    }

    /// Moves to the next part if the present one has been read.
    fn turn_page(&mut self) {
        if self.bytes.is_empty() {
            if self.times > 0 {
                self.times -= 1;
                self.bytes = self.middle;
            } else {
                self.bytes = self.end;
                self.end = &[];
            }
        }
    }
}

impl Read for LinesReader<'_> {
    fn read(&mut self, buf: &mut [u8]) -> io::Result<usize> {
        if self.until_failure == 1 {
            self.until_failure = 0;
            return Err(Error::from(self.kind));
        }
        self.until_failure = self.until_failure.saturating_sub(1);
        self.turn_page();
        let most = self.size.min(buf.len());
        let mut all = self.bytes;
        let n = all.read(&mut buf[..most])?;
        self.bytes = all;
        Ok(n)
    }
}

/// The call at which a writer fails.
#[derive(Clone, Copy, Debug, PartialEq)]
pub enum Fails {
    Never,
    /// A write with this number, counted from 1, and all later ones.
    Write(u64),
    /// Each flush.
    Flush,
}

const ROOM: usize = 0x2000;

/// A writer into an array of `ROOM` bytes, which allocates no memory. Once the array is full, a write accepts 0 bytes.
#[derive(Drop)]
pub struct ArrayWriter {
    bytes: [u8; ROOM],
    len: usize,
    until_failure: u64,
    keeps: bool,
}

impl ArrayWriter {
    /// An empty writer that fails as `fails` says; `Write(0)` never fails.
    pub fn new(fails: Fails) -> ArrayWriter {
        ArrayWriter {
            bytes: [0; ROOM],
            len: 0,
            until_failure: match fails {
                Fails::Write(call) => call,
                Fails::Never | Fails::Flush => 0,
            },
            keeps: fails == Fails::Flush,
        }
    }

    /// The bytes that were written.
    pub fn text(&self) -> &[u8] {
        self.bytes.get(..self.len).unwrap_or(&[])
    }
}

impl Write for ArrayWriter {
    fn write(&mut self, buf: &[u8]) -> io::Result<usize> {
        if self.until_failure == 1 {
            return Err(Error::from(IoErrorKind::Other));
        }
        self.until_failure = self.until_failure.saturating_sub(1);
        let Some(room) = self.bytes.get_mut(self.len..) else {
            return Err(Error::from(IoErrorKind::Other));
        };
        let n = room.len().min(buf.len());
        room[..n].copy_from_slice(&buf[..n]);
        self.len = self.len.saturating_add(n);
        Ok(n)
    }

    fn flush(&mut self) -> io::Result<()> {
        if self.keeps {
            return Err(Error::from(IoErrorKind::Other));
        }
        Ok(())
    }
}
