//! Writers whose calls can be described in contracts.
ghost use Rattle.std.specs.Prelude.{◌≡◌, ℕ, Bool, true, is_ok, List, OnOk};
ghost use Rattle.std.specs.Io.KnownBytes.{Appends, Keeps};

use std::io;
use std::io::Write;

/// A writer whose calls can be described in contracts. Every `Write` is an `Output`.
pub trait Output: Write {
    /// Whether a write of these bytes, with this success, can lead from the first writer to the second.
    ghost did_write: { Self → List ℕ → Bool → Self → Type 0 };

    /// Whether a flush with this success can lead from the first writer to the second.
    ghost did_flush: { Self → Bool → Self → Type 0 };

    /// Writes all of `bytes`. After an error any part of them may have been written.
    fn put_all(&mut self, bytes: &[u8]) -> io::Result<()>
        ensures call { did_write self.old bytes.now (is_ok result) self.new }
        ensures bytes { OnOk result (Appends (Self.contents self.old) (Self.contents self.new) bytes.now) };

    /// Flushes the writer.
    fn hand_on(&mut self) -> io::Result<()>
        ensures call { did_flush self.old (is_ok result) self.new }
        ensures bytes { Keeps (Self.contents self.old) (Self.contents self.new) };
}

impl<W: Write> Output for W {
    ghost did_write = { λ old bytes ok new. ok ≡ true → Appends (W.contents old) (W.contents new) bytes };

    ghost did_flush = { λ old ok new. Keeps (W.contents old) (W.contents new) };

    fn put_all(&mut self, bytes: &[u8]) -> io::Result<()> {
        self.write_all(bytes)
    }

    fn hand_on(&mut self) -> io::Result<()> {
        self.flush()
    }
}
