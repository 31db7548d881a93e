//! Readers whose reads can be described in contracts.
ghost use Rattle.std.specs.Prelude.{ℕ, List, Option};
ghost use Rattle.std.specs.Io.{ReadsAtMost};
ghost use Rattle.std.specs.Io.KnownBytes.{ReadConsumes};
ghost use Rattle.tora_lines.specs.Reads.{Given, given_by, Gives};

use std::io;
use std::io::Read;

/// A reader whose reads can be described in contracts. Every `Read` is an `Input`. A type that passes on the data of
/// another reader can implement `Input` in place of `Read`, with the reads of that reader as its `did_read`.
pub trait Input {
    /// The bytes that later reads will return, if they are known.
    ghost remaining: { Self → Option (List ℕ) };

    /// Whether a read can return this and lead from the first reader to the second.
    ghost did_read: { Self → Given → Self → Type 0 };

    /// Reads some bytes into the front of `buf`, and returns how many: at least one, unless the input is at its end or
    /// `buf` is empty. Errors, `Interrupted` included, are those of the reader.
    fn get_some(&mut self, buf: &mut [u8]) -> io::Result<usize>
        ensures call { did_read self.old (given_by result buf.new) self.new }
        ensures bound { ReadsAtMost result buf.new }
        ensures bytes { ReadConsumes (remaining self.old) (remaining self.new) result buf.new };
}

impl<R: Read> Input for R {
    ghost remaining = { λ reader. R.remaining reader };

    ghost did_read = { λ old given new. Gives (R.remaining old) given (R.remaining new) };

    fn get_some(&mut self, buf: &mut [u8]) -> io::Result<usize> {
        self.read(buf)
    }
}
