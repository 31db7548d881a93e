//! A reader that remembers the last lines that were read.
ghost use Rattle.std.specs.Prelude.{◌≡◌};

use std::alloc::Global;
use std::io;
use tora_lines::Input;

/// The length in bytes of a piece whose line ends are counted in a `u8`.
const PIECE: usize = 128;

/// How many line ends a piece of at most `PIECE` bytes has.
fn ends_in_piece(piece: &[u8]) -> u8 {
    let mut ends = 0u8;
    for byte in piece {
        ends = ends.wrapping_add(u8::from(*byte == b'\n'));
    }
    ends
}

/// How many line ends some bytes have. Every read is counted, and sums of bytes without a branch take a twentieth of
/// the time of `filter` and `count`.
fn line_ends(bytes: &[u8]) -> u64 {
    let mut ends = 0u64;
    for piece in bytes.chunks(PIECE) {
        ends = ends.saturating_add(u64::from(ends_in_piece(piece)));
    }
    ends
}

/// The bytes of the last read, preceded by the beginning of their first line from earlier reads.
#[derive(Drop)]
struct LastLines {
    bytes: Vec<u8>,
    /// The number of the first of these lines, from 1.
    first: u64,
    /// Whether bytes are missing, because memory ran out.
    is_lossy: bool,
}

impl LastLines {
    /// The line with this number, without its LF, as far as it was read; `None` if it is not stored or bytes are
    /// missing. An empty piece after the last LF is not a line.
    fn line(&self, number: u64) -> Option<&[u8]> {
        if self.is_lossy || number < self.first {
            return None;
        }
        let ahead = usize::try_from(number - self.first).ok()?;
        let mut lines = self
            .bytes
            .as_slice()
            .split(|byte| *byte == b'\n')
            .skip(ahead);
        let line = lines.next()?;
        if line.is_empty() && lines.next().is_none() {
            return None;
        }
        Some(line)
    }

    /// Forgets the complete lines, and appends bytes to the rest.
    fn keep(&mut self, more: &[u8]) {
        let ends = line_ends(self.bytes.as_slice());
        self.first = self.first.saturating_add(ends);
        if let Some(at) = self.bytes.iter().rposition(|byte| *byte == b'\n') {
            let len = self.bytes.len();
            if at < len {
                self.bytes.as_mut_slice().copy_within(at + 1..len, 0);
                self.bytes.truncate(len - at - 1);
            }
        }
        if self.bytes.extend_from_slice(more).is_err() {
            self.is_lossy = true;
        }
    }
}

/// A reader that passes on the reads of another one, and remembers the last lines.
#[derive(Drop)]
pub struct Recent<R> {
    reader: R,
    lines: LastLines,
}

impl<R> Recent<R> {
    /// A reader with no reads yet.
    pub fn new(alloc: Global, reader: R) -> Recent<R>
        ensures { result.reader ≡ reader }
    {
        Recent {
            reader,
            lines: LastLines {
                bytes: Vec::new(alloc),
                first: 1,
                is_lossy: false,
            },
        }
    }

    /// Whether bytes are missing, because memory ran out.
    pub fn is_lossy(&self) -> bool {
        self.lines.is_lossy
    }

    /// The line with this number, counted from 1, without its LF, as far as it was read. `None` if its LF came before
    /// the last read, if it has not begun, or if `is_lossy`.
    pub fn line(&self, number: u64) -> Option<&[u8]> {
        self.lines.line(number)
    }
}

impl<R: Input> Input for Recent<R> {
    ghost remaining = { λ r. R.remaining r.reader };

    ghost did_read = { λ old given new. R.did_read old.reader given new.reader };

    fn get_some(&mut self, buf: &mut [u8]) -> io::Result<usize> {
        let n = self.reader.get_some(buf)?;
        if let Some(given) = buf.get(..n) {
            self.lines.keep(given);
        }
        Ok(n)
    }
}
