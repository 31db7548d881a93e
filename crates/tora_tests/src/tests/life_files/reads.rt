//! A reader that returns one byte per call, is interrupted, and then fails.
ghost use Rattle.std.specs.Prelude.{◌≡◌};

use super::super::sees::{ends, same_at, same_bytes, sees_at};
use std::io::{self, ErrorKind};
use std::process::Abort;
use tora_life::{ReadFrom, read_whole};

/// A reader of five bytes that returns one byte per call. Every second call is interrupted. All calls fail from the
/// call with the number `fails_from` on, counted from 1.
#[derive(Drop)]
struct Dripping {
    bytes: [u8; 5],
    calls: u64,
    fails_from: u64,
}

impl ReadFrom for Dripping {
    ghost use Rattle.std.specs.Prelude.{true};

    ghost tells = { λ r. true };

    ghost bytes = { λ r. r.bytes };

    ghost did_read_at = { λ r at buf answer bytes after. Unit {0} };

    fn read_from(&mut self, at: u64, buf: &mut [u8]) -> io::Result<usize> {
        self.calls = self.calls.saturating_add(1);
        if self.calls >= self.fails_from {
            return Err(io::Error::from(ErrorKind::PermissionDenied));
        }
        if self.calls % 2 == 0 {
            return Err(io::Error::from(ErrorKind::Interrupted));
        }
        if at >= 5 || buf.is_empty() {
            return Ok(0);
        }
        buf[0] = self.bytes[at as usize];
        Ok(1)
    }
}

/// A reader of the bytes 1 to 5 that fails from its call `fails_from` on, counted from 1.
fn five_bytes(fails_from: u64) -> Dripping {
    Dripping {
        bytes: [1, 2, 3, 4, 5],
        calls: 0,
        fails_from,
    }
}

/// A read from the reader of five bytes: the number of the call from which on the reader fails, the offset and the
/// length of the read, and the result: how many bytes are read, and the buffer afterwards, which had seven bytes of 9.
/// `None` if the read fails.
const READS: &[(u64, usize, usize, Option<(usize, &[u8])>)] = &[
    (100, 1, 7, Some((4, &[2, 3, 4, 5, 9, 9, 9]))),
    (100, 0, 3, Some((3, &[1, 2, 3, 9, 9, 9, 9]))),
    (100, 5, 3, Some((0, &[9, 9, 9, 9, 9, 9, 9]))),
    (4, 0, 3, None),
];

/// Makes each read of `rows`, whose fields are as in `READS`, by `read_whole` from a new reader of five bytes, and
/// checks its result.
fn each_reads(rt: &impl Abort, rows: &[(u64, usize, usize, Option<(usize, &[u8])>)]) {
    for (at, (fails_from, place, size, wanted)) in rows.iter().enumerate() {
        let mut buffer = [9u8; 7];
        let Some(part) = buffer.get_mut(..*size) else {
            ends(rt, "seven bytes at most are read")
        };
        let read = read_whole(&mut five_bytes(*fails_from), *place, part);
        match wanted {
            Some((count, bytes)) => {
                same_at(rt, &read.ok(), &Some(*count), "how many bytes", &at);
                same_bytes(rt, &buffer, bytes, "the bytes");
            }
            None => sees_at(rt, read.is_err(), "a failure is told", &at),
        }
    }
}

#[test]
fn short_and_interrupted_reads_are_gone_on_with(rt: HostRuntime) {
    each_reads(&rt, READS);
}
