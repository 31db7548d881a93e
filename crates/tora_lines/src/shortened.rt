//! Lines of any length: one of more than 4,096 bytes is processed as an empty line.
ghost use Rattle.std.specs.Prelude.{◌≡◌, ◌≢◌, ◌+◌, ◌^◌, ◌<◌, ◌≤◌, ◌++◌, ◌∷◌, [], ℕ, List, length, OnOk, IfOk, IfErr};
ghost use Rattle.std.specs.Prelude.{IfSome, Ok, true, false};
ghost use Rattle.std.specs.Io.KnownBytes.{IsAtEnd};
ghost use Rattle.tora_lines.specs.Reads.{IsReadSo, IsUnwritten};
ghost use Rattle.tora_lines.specs.Engine.{IsOpen, IsWholeText, IsFrontOfText};
ghost use Rattle.tora_lines.specs.Shortened.{shortened, shortened_text_of, Holds, TakesBytes, WritesText};

use crate::ended::{Ended, ReplayError};
use crate::engine::{CHUNK, MOST_READS, answer, close, fault, read_some, zeros};
use crate::input::Input;
use crate::output::Output;
use crate::session::{FileKind, LONGEST_LINE, Session};
use std::alloc::{AllocError, Global};
use std::io::ErrorKind;

/// The line that is being read: its first bytes, at most 4,096, and whether it has more.
#[derive(Drop)]
pub struct Held {
    bytes: Vec<u8>,
    is_too_long: bool,
}

impl Held {
    /// A line with no bytes read yet.
    fn new(alloc: Global) -> Result<Held, AllocError>
        ensures { IfOk result (λ held. Holds held []) }
    {
        let bytes = Vec::with_capacity(alloc, LONGEST_LINE)?;
        Ok(Held {
            bytes,
            is_too_long: false,
        })
    }

    /// Whether no byte of the line was read.
    fn is_empty(&self) -> bool
        ensures none { result ≡ true → (text : List ℕ) → Holds self.now text → text ≡ [] }
        ensures some { result ≡ false → (text : List ℕ) → Holds self.now text → 0 < length text }
    {
        self.bytes.is_empty() && !self.is_too_long
    }

    /// Adds the next byte of the line. After 4,096 bytes it is not stored, and the line counts as too long.
    fn push(&mut self, byte: u8) -> Result<(), AllocError>
        ensures { OnOk result ((text : List ℕ) → Holds self.old text → Holds self.new (text ++ byte ∷ [])) }
    {
        if self.bytes.len() >= LONGEST_LINE {
            self.is_too_long = true;
            return Ok(());
        }
        self.bytes.push(byte)?;
        Ok(())
    }

    /// The line, or an empty one if it has more than 4,096 bytes.
    fn shortened(&self) -> &[u8]
        ensures { (text : List ℕ) → Holds self.now text → result.now ≡ shortened text }
    {
        if self.is_too_long {
            &[]
        } else {
            self.bytes.as_slice()
        }
    }

    /// Begins the next line.
    fn clear(&mut self)
        ensures { Holds self.new [] }
    {
        self.bytes.clear();
        self.is_too_long = false;
    }
}

/// Processes each line whose LF is among these bytes, and stores the rest in `held`. Returns false if a line is a
/// fault; `number` is then its number.
fn take_bytes<K: FileKind, W: Output>(
    alloc: Global,
    session: &mut Session<K>,
    number: &mut u64,
    writer: &mut W,
    held: &mut Held,
    bytes: &[u8],
) -> Result<bool, ReplayError>
    requires { number.old + length bytes.now < 2 ^ 64 }
    ensures text { (text : List ℕ) → Holds held.old text → IsOpen text →
        TakesBytes K.kind session.old.state number.old text bytes.now (W.contents writer.old) (W.contents writer.new)
        session.new.state number.new held.new result }
    ensures count { number.new ≤ number.old + length bytes.now }
    ensures failed { IfErr result (λ e. e ≡ ReplayError.Write → IsUnwritten W.did_write writer.new) }
{
    for byte in bytes {
        if *byte == b'\n' {
            if !answer(alloc, session, writer, held.shortened())? {
                return Ok(false);
            }
            held.clear();
            *number += 1;
        } else if held.push(*byte).is_err() {
            return Err(ReplayError::Memory);
        }
    }
    Ok(true)
}

/// Processes the last line, which has no LF, unless it is empty, and ends the input as `close` does. If the line is a
/// fault, writes `fault N` and returns `Fault(N)`.
fn finish_held<K: FileKind, W: Output>(
    alloc: Global,
    session: &mut Session<K>,
    number: u64,
    writer: &mut W,
    held: &Held,
) -> Result<Ended, ReplayError>
    requires { number + 1 < 2 ^ 64 }
    ensures text { (text : List ℕ) → Holds held.now text → IsOpen text →
        WritesText (shortened_text_of K.kind session.old.state number text) (W.contents writer.old)
        (W.contents writer.new) result }
    ensures failed { IfErr result (λ e. e ≡ ReplayError.Write → IsUnwritten W.did_write writer.new) }
{
    if held.is_empty() {
        return close(alloc, session, number, writer);
    }
    if answer(alloc, session, writer, held.shortened())? {
        close(alloc, session, number + 1, writer)
    } else {
        fault(alloc, number, writer)
    }
}

/// Reads lines as `read_lines` does, but processes a line of more than 4,096 bytes as an empty line, which may be a
/// fault.
///
/// # Errors
/// Those of `read_lines`.
pub fn read_shortened_lines<K: FileKind, R: Input, W: Output>(
    alloc: Global,
    state: K,
    reader: &mut R,
    writer: &mut W,
) -> Result<Ended, ReplayError>
    // The written text is the output of the whole input, and the input ends as the result says.
    ensures whole { IfOk result (λ ended. IfSome (R.remaining reader.old) (λ input.
        IsWholeText (shortened_text_of K.kind state 1) input (W.contents writer.old) (W.contents writer.new) ended)) }
    ensures at_end { result ≡ Ok Ended.Whole → IsAtEnd (R.remaining reader.new) }
    // The written text is a prefix of the output of the lines that were read.
    ensures begun { IfErr result (λ e. e ≢ ReplayError.Write →
        IsFrontOfText (shortened_text_of K.kind state 1) (R.remaining reader.old) (R.remaining reader.new)
        (W.contents writer.old) (W.contents writer.new)) }
    ensures reads { IsReadSo R.did_read reader.old reader.new result }
    ensures failed { IfErr result (λ e. e ≡ ReplayError.Write → IsUnwritten W.did_write writer.new) }
{
    let mut session = Session::new(alloc, state);
    let mut number = 1u64;
    let Ok(mut held) = Held::new(alloc) else {
        return Err(ReplayError::Memory);
    };
    let Ok(mut chunk) = zeros(alloc, CHUNK) else {
        return Err(ReplayError::Memory);
    };
    for _ in 0..MOST_READS {
        match read_some(reader, &mut chunk) {
            Ok(n) => {
                if n == 0 {
                    return finish_held(alloc, &mut session, number, writer, &held);
                }
                let bytes = &chunk.as_slice()[..n];
                let goes = take_bytes(alloc, &mut session, &mut number, writer, &mut held, bytes)?;
                if !goes {
                    return fault(alloc, number, writer);
                }
            }
            Err(e) => {
                if e.kind() != ErrorKind::Interrupted {
                    return Err(ReplayError::Read);
                }
            }
        }
    }
    Err(ReplayError::Read)
}
