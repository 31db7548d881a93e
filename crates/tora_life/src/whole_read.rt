//! Reads the bytes of a file until none is left or the buffer is full.
ghost use Rattle.std.specs.Prelude.{◌≡◌, ◌<◌, ◌≤◌, ◌^◌, ℕ, Bool, List, Result, length, IfOk, OnErr, IsTrue};
ghost use Rattle.std.specs.declared.io.Error.{Error};
ghost use Rattle.tora_life.specs.Disk.{IsRead, IsReadInPart};
ghost use Rattle.tora_life.specs.WholeRead.{ReadsWhole};

use std::fs::File;
use std::io::{self, ErrorKind};
use std::os::unix::fs::FileExt;

/// A source of bytes, read from any offset on. One read may return fewer bytes than are left and fit.
///
/// Contracts may see the bytes, but not those of a file of the operating system. They always see the calls.
pub trait ReadFrom {
    /// Whether contracts see the bytes.
    ghost tells: { Self → Bool };

    /// The bytes that can be read.
    ghost bytes: { Self → List ℕ };

    /// Whether this read was made: old reader, offset, old buffer, result, new buffer, new reader.
    ghost did_read_at: { Self → ℕ → List ℕ → Result ℕ Error → List ℕ → Self → Type 0 };

    /// Reads some of the bytes from the offset `at` on into the front of `buf`; at least one, if there is one and it
    /// fits. Returns their count, 0 if none is left or `buf` is empty. The rest of `buf` is unchanged.
    ///
    /// # Errors
    ///
    /// Those of the operating system, among them `Interrupted`. Then nothing was read.
    fn read_from(&mut self, at: u64, buf: &mut [u8]) -> io::Result<usize>
        ensures call { did_read_at self.old at buf.old result buf.new self.new }
        ensures tells { tells self.new ≡ tells self.old }
        ensures same { bytes self.new ≡ bytes self.old }
        ensures long { IsTrue (tells self.old) → length (bytes self.old) < 2 ^ 64 }
        ensures count { IfOk result (λ n. n ≤ length buf.old) }
        ensures read { IsTrue (tells self.old) → IfOk result (λ n. IsReadInPart (bytes self.old) at buf.old n buf.new) }
        ensures err { IsTrue (tells self.old) → OnErr result (buf.new ≡ buf.old) };
}

impl ReadFrom for File {
    ghost use Rattle.std.specs.Prelude.{[], false};

    ghost tells = { λ f. false };

    ghost bytes = { λ f. [] };

    ghost did_read_at = { λ f at buf answer bytes after. Unit {0} };

    fn read_from(&mut self, at: u64, buf: &mut [u8]) -> io::Result<usize> {
        self.read_at(buf, at)
    }
}

/// Reads from the offset `at` on until the buffer is full or nothing is left, and returns how many bytes were read. A
/// read with the error `Interrupted` is repeated.
///
/// # Errors
///
/// The first other error of a read, or `Other` after 2^64 - 1 reads. Then `buf` may hold some of the bytes.
pub fn read_whole<F: ReadFrom>(reader: &mut F, at: usize, buf: &mut [u8]) -> io::Result<usize>
    ensures count { IfOk result (λ n. n ≤ length buf.old) }
    ensures read { IsTrue (F.tells reader.old) → IfOk result (λ n. IsRead (F.bytes reader.old) at buf.old n buf.new) }
    ensures calls { ReadsWhole F.did_read_at at reader.old buf.old result reader.new buf.new }
{
    let mut count = 0;
    for _ in 0..u64::MAX {
        let place = (at as u64).saturating_add(count as u64);
        match reader.read_from(place, &mut buf[count..]) {
            Ok(0) => return Ok(count),
            Ok(n) => count += n,
            Err(error) if error.kind() == ErrorKind::Interrupted => {}
            Err(error) => return Err(error),
        }
    }
    Err(io::Error::from(ErrorKind::Other))
}
