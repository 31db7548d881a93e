//! `tora key`: a new key.
ghost use Rattle.std.specs.Prelude.{◌≡◌, ◌⊎◌, ◌++◌, ◌∷◌, [], List, ℕ, length, string_bytes, IfOk};
ghost use Rattle.std.specs.Io.KnownBytes.{Appends};
ghost use Rattle.std.specs.Process.{exit_status};
ghost use Rattle.hex.specs.Hex.{encode_lower};
ghost use Rattle.tora_simulate.specs.Flushing.{FailedWriting};

use crate::{INPUT, MEMORY, stop};
use std::alloc::{AllocError, Global};
use std::process::ExitCode;
use std::random::RandomSource;
use tora_keyed::KEY;
use tora_lines::Output;
use tora_simulate::write_through;

/// The line of a key: its digits and a line feed.
fn line_of(alloc: Global, key: &[u8]) -> Result<String, AllocError>
    ensures { IfOk result (λ line. string_bytes line ≡ encode_lower key.now ++ 10 ∷ []) }
{
    let mut line = hex::encode(alloc, key)?;
    line.push('\n')?;
    Ok(line)
}

/// Writes a new key, 64 hexadecimal digits from the random numbers of the operating system, and LF. The status is 0; 1
/// if there are no random numbers or writing failed; 5 if memory ran out.
pub fn run<T: RandomSource + AllocGlobal + Eprint, W: Output>(rt: &T, writer: &mut W) -> ExitCode
    ensures key { exit_status result ≡ 0 → (key : List ℕ) × (length key ≡ 32)
        × Appends (W.contents writer.old) (W.contents writer.new) (encode_lower key ++ 10 ∷ []) }
    // Otherwise nothing was written, or a write or a flush failed.
    ensures failed { (exit_status result ≡ 0)
        ⊎ ((((exit_status result ≡ 1) ⊎ (exit_status result ≡ 5)) × (writer.new ≡ writer.old))
        ⊎ ((exit_status result ≡ 1) × FailedWriting W.did_write W.did_flush writer.new)) }
{
    let mut key = [0; KEY];
    let Ok(()) = rt.fill_bytes(&mut key) else {
        return stop(rt, INPUT, "the system provides no random numbers");
    };
    let Ok(line) = line_of(rt.alloc(), &key) else {
        return stop(rt, MEMORY, "memory");
    };
    match write_through(writer, line.as_bytes()) {
        Ok(()) => ExitCode::SUCCESS,
        Err(_) => stop(rt, INPUT, "input"),
    }
}
