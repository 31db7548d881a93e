//! The state between two lines of a file, and the output of the line before.
ghost use Rattle.std.specs.Prelude.{◌≡◌, ◌≤◌, [], length, string_bytes, IfOk};
ghost use Rattle.tora_lines.specs.LineText.{ending};
ghost use Rattle.tora_lines.specs.Engine.{Kind};
ghost use Rattle.tora_lines.specs.Session.{TakesLine};

use crate::words::LineError;
use std::alloc::{AllocError, Global};

/// The most bytes of a line, without its LF.
pub const LONGEST_LINE: usize = 4096;

/// A kind of line-based file: the state between two of its lines.
pub trait FileKind: Drop {
    ghost kind: { Kind Self };

    /// Processes a line of at most 4,096 bytes, without its LF, and writes its output to `text`, which is empty before.
    /// The error is `Fault` if the line is a fault, and `Memory` if memory ran out. After an error the engine uses
    /// neither the state nor `text`.
    fn take(&mut self, alloc: Global, line: &[u8], text: &mut String) -> Result<(), LineError>
        requires short { length line.now ≤ LONGEST_LINE }
        requires empty { string_bytes text.old ≡ [] }
        ensures { TakesLine kind self.old line.now self.new (string_bytes text.new) result };

    /// The input ends where the line `number` would come. `None` if the file may end there, otherwise the number of the
    /// line to report as the fault.
    fn end(&self, alloc: Global, number: u64) -> Result<Option<u64>, AllocError>
        ensures { IfOk result (λ fault. kind.text self.now number [] ≡ ending fault) };
}

/// The state between two lines, and the output of the line before.
#[derive(Drop)]
pub struct Session<K> {
    pub state: K,
    pub text: String,
}

impl<K: FileKind> Session<K> {
    /// A session before the first line.
    pub fn new(alloc: Global, state: K) -> Session<K>
        ensures { result.state ≡ state }
    {
        Session {
            state,
            text: String::new(alloc),
        }
    }

    /// Processes a line, and stores its output in `text`. The error is `Fault` if the line is a fault, as one of more
    /// than 4,096 bytes is, and `Memory` if memory ran out.
    pub fn take(&mut self, alloc: Global, line: &[u8]) -> Result<(), LineError>
        ensures { TakesLine K.kind self.old.state line.now self.new.state (string_bytes self.new.text) result }
    {
        if line.len() > LONGEST_LINE {
            return Err(LineError::Fault);
        }
        self.text.clear();
        self.state.take(alloc, line, &mut self.text)
    }
}
