//! The writer of a trace.
ghost use Rattle.std.specs.Prelude.{◌≡◌, false, true, is_some};
ghost use Rattle.std.specs.Io.KnownBytes.{Appends, Keeps};
ghost use Rattle.tora_script.specs.TraceOuts.{IsPut, IsHandedOn};

use std::io;
use tora_lines::Output;

/// A writer that is no longer used after it fails, and why it failed.
#[derive(Drop)]
pub struct TraceOut<W> {
    pub writer: W,
    /// The clock, in ticks, of the last write that did not fail; 0 before the first.
    pub clock: u64,
    failure: Option<io::Error>,
}

impl<W: Output> TraceOut<W> {
    /// A writer that has not failed, with the clock 0.
    pub fn new(writer: W) -> TraceOut<W>
        ensures writer { result.writer ≡ writer }
        ensures clock { result.clock ≡ 0 }
        ensures failure { is_some result.failure ≡ false }
    {
        TraceOut {
            writer,
            clock: 0,
            failure: None,
        }
    }

    /// Writes bytes at a clock, in ticks, unless the writer has failed. If the write fails, the error is stored, and
    /// the clock stays.
    pub fn put(&mut self, now: u64, bytes: &[u8])
        ensures call { IsPut W.did_write self.old bytes.now self.new }
        ensures clock { is_some self.new.failure ≡ false → self.new.clock ≡ now }
        ensures bytes { is_some self.new.failure ≡ false → Appends (W.contents self.old.writer)
            (W.contents self.new.writer) bytes.now }
    {
        if self.failure.is_some() {
            return;
        }
        if let Err(error) = self.writer.put_all(bytes) {
            self.failure = Some(error);
            return;
        }
        self.clock = now;
    }

    /// Marks the writer as failed, because memory ran out.
    pub fn fail(&mut self)
        ensures { is_some self.new.failure ≡ true }
    {
        self.failure = Some(io::Error::from(io::ErrorKind::OutOfMemory));
    }

    /// Flushes the writer, unless it has failed.
    pub fn flush(&mut self)
        ensures call { IsHandedOn W.did_flush self.old self.new }
        ensures bytes { Keeps (W.contents self.old.writer) (W.contents self.new.writer) }
    {
        if self.failure.is_some() {
            return;
        }
        if let Err(error) = self.writer.hand_on() {
            self.failure = Some(error);
        }
    }

    /// Why the writer failed, if it did.
    pub fn failure(&self) -> Option<&io::Error>
        ensures { is_some result ≡ is_some self.now.failure }
    {
        self.failure.as_ref()
    }
}
