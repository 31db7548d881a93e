//! The engine: it reads lines and writes the output for each.
ghost use Rattle.std.specs.Prelude.{◌≡◌, ◌≢◌, ◌+◌, ◌-◌, ◌^◌, ◌<◌, ◌≤◌, ◌++◌, [], length, drop, OnOk, IfOk, IfErr};
ghost use Rattle.std.specs.Prelude.{IfSome, None, Ok, true, vec_len, ℕ, List, Some};
ghost use Rattle.std.specs.Io.KnownBytes.{Appends, IsAtEnd, ReadConsumes};
ghost use Rattle.tora_lines.specs.LineText.{faulty};
ghost use Rattle.tora_lines.specs.Reads.{given_by, IsReadSo, IsUnwritten};
ghost use Rattle.tora_lines.specs.Engine.{text_of, IsOpen, Answers, Keeps, Drains, TakesChunk, Finishes, Ends};
ghost use Rattle.tora_lines.specs.Engine.{IsWholeText, IsFrontOfText};

use crate::ended::{Ended, ReplayError};
use crate::input::Input;
use crate::output::Output;
use crate::session::{FileKind, LONGEST_LINE, Session};
use crate::text::numbered;
use crate::words::{LineError, place};
use std::alloc::{AllocError, Global};
use std::io::ErrorKind;
use std::{io, mem};

/// The most reads of one input, interrupted ones included. If none of them finds the end, the error is `Read`.
pub const MOST_READS: u64 = 0x1_0000_0000;

/// The size in bytes of the buffer for one read.
pub const CHUNK: usize = 0x1_0000;

/// Writes a whole text. Any error of the writer becomes `Write`.
fn put<W: Output>(writer: &mut W, text: &[u8]) -> Result<(), ReplayError>
    ensures ok { OnOk result (Appends (W.contents writer.old) (W.contents writer.new) text.now) }
    ensures err { IfErr result (λ e. e ≡ ReplayError.Write) }
    ensures failed { IfErr result (λ e. e ≡ ReplayError.Write → IsUnwritten W.did_write writer.new) }
{
    match writer.put_all(text) {
        Ok(()) => Ok(()),
        Err(_) => Err(ReplayError::Write),
    }
}

/// Processes one line, given without its LF, and writes its output. Returns false, and writes nothing, if the line is a
/// fault, as each line of more than 4,096 bytes is. The error is `Memory` or `Write`.
pub fn answer<K: FileKind, W: Output>(
    alloc: Global,
    session: &mut Session<K>,
    writer: &mut W,
    line: &[u8],
) -> Result<bool, ReplayError>
    ensures text { Answers K.kind session.old.state line.now session.new.state (W.contents writer.old)
        (W.contents writer.new) result }
    ensures failed { IfErr result (λ e. e ≡ ReplayError.Write → IsUnwritten W.did_write writer.new) }
{
    match session.take(alloc, line) {
        Ok(()) => {
            put(writer, session.text.as_bytes())?;
            Ok(true)
        }
        Err(LineError::Fault) => Ok(false),
        Err(LineError::Memory) => Err(ReplayError::Memory),
    }
}

/// Processes the complete lines of the text. Returns how many bytes follow the last LF, or `None` if a line is a fault.
/// `number` is that of the text's first line, and becomes that of the first line that was not processed.
fn drain<K: FileKind, W: Output>(
    alloc: Global,
    session: &mut Session<K>,
    number: &mut u64,
    writer: &mut W,
    text: &[u8],
) -> Result<Option<usize>, ReplayError>
    requires { number.old + length text.now < 2 ^ 64 }
    ensures text { Drains K.kind session.old.state number.old text.now (W.contents writer.old) (W.contents writer.new)
        session.new.state number.new result }
    ensures failed { IfErr result (λ e. e ≡ ReplayError.Write → IsUnwritten W.did_write writer.new) }
{
    let mut rest = text;
    while let Some(at) = place(b'\n', rest) {
        if !answer(alloc, session, writer, &rest[..at])? {
            return Ok(None);
        }
        *number += 1;
        rest = &rest[at + 1..];
    }
    Ok(Some(rest.len()))
}

/// Appends bytes to the pending part of a line. Returns false, and appends nothing, if the line would have more than
/// 4,096 bytes.
fn keep(pending: &mut Vec<u8>, bytes: &[u8]) -> Result<bool, ReplayError>
    requires { vec_len pending.old ≤ LONGEST_LINE }
    ensures { Keeps pending.old.items bytes.now pending.new.items result }
{
    if bytes.len() > LONGEST_LINE - pending.len() {
        return Ok(false);
    }
    match pending.extend_from_slice(bytes) {
        Ok(()) => Ok(true),
        Err(_) => Err(ReplayError::Memory),
    }
}

/// Processes the line that consists of the pending bytes and `end`. Returns true if it was processed; then no bytes are
/// pending. Returns false if the line is a fault, as one of more than 4,096 bytes is.
fn end_line<K: FileKind, W: Output>(
    alloc: Global,
    session: &mut Session<K>,
    writer: &mut W,
    pending: &mut Vec<u8>,
    end: &[u8],
) -> Result<bool, ReplayError>
    requires { vec_len pending.old ≤ LONGEST_LINE }
    ensures line { Answers K.kind session.old.state (pending.old.items ++ end.now) session.new.state
        (W.contents writer.old) (W.contents writer.new) result }
    ensures empty { result ≡ Ok true → (pending.new.items ≡ []) × (vec_len pending.new ≡ 0) }
    ensures failed { IfErr result (λ e. e ≡ ReplayError.Write → IsUnwritten W.did_write writer.new) }
{
    if !keep(pending, end)? {
        return Ok(false);
    }
    let taken = answer(alloc, session, writer, pending.as_slice())?;
    pending.clear();
    Ok(taken)
}

/// Processes the complete lines of a text that begins where a line begins, and keeps the rest as pending. Returns false
/// if a line is a fault, as a rest of more than 4,096 bytes is.
fn take_rest<K: FileKind, W: Output>(
    alloc: Global,
    session: &mut Session<K>,
    number: &mut u64,
    writer: &mut W,
    pending: &mut Vec<u8>,
    text: &[u8],
) -> Result<bool, ReplayError>
    requires room { number.old + length text.now < 2 ^ 64 }
    requires empty { pending.old.items ≡ [] }
    requires len { vec_len pending.old ≡ 0 }
    ensures text { TakesChunk K.kind session.old.state number.old text.now (W.contents writer.old)
        (W.contents writer.new)
        session.new.state number.new pending.new.items result }
    ensures failed { IfErr result (λ e. e ≡ ReplayError.Write → IsUnwritten W.did_write writer.new) }
{
    let Some(left) = drain(alloc, session, number, writer, text)? else {
        return Ok(false);
    };
    keep(pending, &text[text.len() - left..])
}

/// Processes the complete lines of the pending bytes and the new chunk, and keeps the rest as pending. Returns false if
/// a line is a fault, as a rest of more than 4,096 bytes is.
fn take_chunk<K: FileKind, W: Output>(
    alloc: Global,
    session: &mut Session<K>,
    number: &mut u64,
    writer: &mut W,
    pending: &mut Vec<u8>,
    chunk: &[u8],
) -> Result<bool, ReplayError>
    requires room { number.old + length pending.old.items + length chunk.now < 2 ^ 64 }
    requires is_open { IsOpen pending.old.items }
    requires short { vec_len pending.old ≤ LONGEST_LINE }
    ensures text { TakesChunk K.kind session.old.state number.old (pending.old.items ++ chunk.now)
        (W.contents writer.old) (W.contents writer.new)
        session.new.state number.new pending.new.items result }
    ensures failed { IfErr result (λ e. e ≡ ReplayError.Write → IsUnwritten W.did_write writer.new) }
{
    let Some(at) = place(b'\n', chunk) else {
        return keep(pending, chunk);
    };
    if !end_line(alloc, session, writer, pending, &chunk[..at])? {
        return Ok(false);
    }
    *number += 1;
    take_rest(alloc, session, number, writer, pending, &chunk[at + 1..])
}

/// Writes `fault N` for the line with number N, and returns `Ended::Fault(N)`. The error is `Memory` or `Write`.
pub fn fault<W: Output>(alloc: Global, number: u64, writer: &mut W) -> Result<Ended, ReplayError>
    ensures text { Ends (faulty number) (W.contents writer.old) (W.contents writer.new) result }
    ensures failed { IfErr result (λ e. e ≡ ReplayError.Write → IsUnwritten W.did_write writer.new) }
{
    let mut text = String::new(alloc);
    if numbered(&mut text, "fault ", number).is_err() {
        return Err(ReplayError::Memory);
    }
    put(writer, text.as_bytes())?;
    Ok(Ended::Fault(number))
}

/// Ends an input whose next line would have this number. Returns `Whole`, or, if the file must not end here, writes
/// `fault N` and returns `Fault(N)`, with the N of `FileKind::end`.
pub fn close<K: FileKind, W: Output>(
    alloc: Global,
    session: &Session<K>,
    number: u64,
    writer: &mut W,
) -> Result<Ended, ReplayError>
    ensures text { Ends (K.kind.text session.now.state number [])
        (W.contents writer.old) (W.contents writer.new) result }
    ensures failed { IfErr result (λ e. e ≡ ReplayError.Write → IsUnwritten W.did_write writer.new) }
{
    match session.state.end(alloc, number) {
        Ok(None) => Ok(Ended::Whole),
        Ok(Some(line)) => fault(alloc, line, writer),
        Err(_) => Err(ReplayError::Memory),
    }
}

/// Processes the last line, which has no LF, unless it is empty, and ends the input as `close` does. If the line is a
/// fault, writes `fault N` and returns `Fault(N)`.
fn finish<K: FileKind, W: Output>(
    alloc: Global,
    session: &mut Session<K>,
    number: u64,
    writer: &mut W,
    last: &[u8],
) -> Result<Ended, ReplayError>
    requires is_open { IsOpen last.now }
    requires room { number + 1 < 2 ^ 64 }
    ensures text { Finishes K.kind session.old.state number last.now (W.contents writer.old) (W.contents writer.new)
        result }
    ensures failed { IfErr result (λ e. e ≡ ReplayError.Write → IsUnwritten W.did_write writer.new) }
{
    if last.is_empty() {
        return close(alloc, session, number, writer);
    }
    if answer(alloc, session, writer, last)? {
        close(alloc, session, number + 1, writer)
    } else {
        fault(alloc, number, writer)
    }
}

/// A list of `size` zero bytes.
pub fn zeros(alloc: Global, size: usize) -> Result<Vec<u8>, AllocError>
    ensures { IfOk result (λ v. vec_len v ≡ size) }
{
    vec![in alloc; 0u8; size]
}

/// Reads once into the front of `chunk`, whose length stays. Returns the number of bytes, 0 at the end of the input.
/// Errors, `Interrupted` included, are passed on.
pub fn read_some<R: Input>(reader: &mut R, chunk: &mut Vec<u8>) -> io::Result<usize>
    ensures call { R.did_read reader.old (given_by result chunk.new.items) reader.new }
    ensures len { vec_len chunk.new ≡ vec_len chunk.old }
    ensures bound { IfOk result (λ n. n ≤ vec_len chunk.new) }
    ensures bytes { ReadConsumes (R.remaining reader.old) (R.remaining reader.new) result chunk.new.items }
{
    reader.get_some(chunk.as_mut_slice())
}

/// Reads the lines of a file to the end of the input or to the first fault, and writes the output of each line. A fault
/// is not an error: `fault N` is written, and the result is `Ended::Fault(N)`.
///
/// # Errors
/// `Memory` if memory ran out; `Read` if a read failed, or 2^32 reads did not reach the end of the input (an
/// interrupted read is repeated, and counts); `Write` if a write failed. At `Memory` and `Read` the outputs of whole
/// lines were written, never a part of one.
pub fn read_lines<K: FileKind, R: Input, W: Output>(
    alloc: Global,
    state: K,
    reader: &mut R,
    writer: &mut W,
) -> Result<Ended, ReplayError>
    // The written text is the output of the whole input, and the input ends as the result says.
    ensures whole { IfOk result (λ ended. IfSome (R.remaining reader.old) (λ input.
        IsWholeText (text_of K.kind state 1) input (W.contents writer.old) (W.contents writer.new) ended)) }
    ensures at_end { result ≡ Ok Ended.Whole → IsAtEnd (R.remaining reader.new) }
    // The written text is a prefix of the output of the lines that were read.
    ensures begun { IfErr result (λ e. e ≢ ReplayError.Write →
        IsFrontOfText (text_of K.kind state 1) (R.remaining reader.old) (R.remaining reader.new) (W.contents writer.old)
        (W.contents writer.new)) }
    ensures reads { IsReadSo R.did_read reader.old reader.new result }
    ensures failed { IfErr result (λ e. e ≡ ReplayError.Write → IsUnwritten W.did_write writer.new) }
{
    let mut session = Session::new(alloc, state);
    read_session(alloc, &mut session, reader, writer)
}

/// Reads the lines of a file as `read_lines` does, for a program that exits afterwards: to save time, the memory of the
/// state is not freed.
///
/// # Errors
/// Those of `read_lines`.
pub fn read_last_lines<K: FileKind, R: Input, W: Output>(
    alloc: Global,
    state: K,
    reader: &mut R,
    writer: &mut W,
) -> Result<Ended, ReplayError>
    ensures whole { IfOk result (λ ended. IfSome (R.remaining reader.old) (λ input.
        IsWholeText (text_of K.kind state 1) input (W.contents writer.old) (W.contents writer.new) ended)) }
    ensures at_end { result ≡ Ok Ended.Whole → IsAtEnd (R.remaining reader.new) }
    ensures begun { IfErr result (λ e. e ≢ ReplayError.Write →
        IsFrontOfText (text_of K.kind state 1) (R.remaining reader.old) (R.remaining reader.new) (W.contents writer.old)
        (W.contents writer.new)) }
    ensures reads { IsReadSo R.did_read reader.old reader.new result }
    ensures failed { IfErr result (λ e. e ≡ ReplayError.Write → IsUnwritten W.did_write writer.new) }
{
    let mut session = Session::new(alloc, state);
    let ended = read_session(alloc, &mut session, reader, writer);
    mem::forget(session);
    ended
}

/// Reads the lines of a file as `read_lines` does, in a session that no line has changed yet. The caller keeps the
/// session.
///
/// # Errors
/// Those of `read_lines`.
fn read_session<K: FileKind, R: Input, W: Output>(
    alloc: Global,
    session: &mut Session<K>,
    reader: &mut R,
    writer: &mut W,
) -> Result<Ended, ReplayError>
    // The written text is the output of the whole input, and the input ends as the result says.
    ensures whole { IfOk result (λ ended. IfSome (R.remaining reader.old) (λ input.
        IsWholeText (text_of K.kind session.old.state 1) input (W.contents writer.old) (W.contents writer.new) ended)) }
    ensures at_end { result ≡ Ok Ended.Whole → IsAtEnd (R.remaining reader.new) }
    // The written text is a prefix of the output of the lines that were read.
    ensures begun { IfErr result (λ e. e ≢ ReplayError.Write →
        IsFrontOfText (text_of K.kind session.old.state 1) (R.remaining reader.old) (R.remaining reader.new)
        (W.contents writer.old) (W.contents writer.new)) }
    ensures reads { IsReadSo R.did_read reader.old reader.new result }
    ensures failed { IfErr result (λ e. e ≡ ReplayError.Write → IsUnwritten W.did_write writer.new) }
{
    let mut number = 1u64;
    let Ok(mut pending) = Vec::with_capacity(alloc, LONGEST_LINE) else {
        return Err(ReplayError::Memory);
    };
    let Ok(mut chunk) = zeros(alloc, CHUNK) else {
        return Err(ReplayError::Memory);
    };
    for _ in 0..MOST_READS {
        match read_some(reader, &mut chunk) {
            Ok(n) => {
                if n == 0 {
                    return finish(alloc, session, number, writer, pending.as_slice());
                }
                let goes = take_chunk(
                    alloc,
                    session,
                    &mut number,
                    writer,
                    &mut pending,
                    &chunk.as_slice()[..n],
                )?;
                if !goes {
                    return fault(alloc, number, writer);
                }
            }
            Err(e) => {
                if e.kind() != ErrorKind::Interrupted {
                    return Err(ReplayError::Read);
                }
            }
        }
    }
    Err(ReplayError::Read)
}
