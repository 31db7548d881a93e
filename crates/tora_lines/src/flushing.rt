//! Flushing the output at the end.
ghost use Rattle.std.specs.Prelude.{◌≡◌, Bool};
ghost use Rattle.std.specs.Io.KnownBytes.{Keeps};
ghost use Rattle.tora_lines.specs.Flushing.{after_flush};

use crate::ended::{Ended, ReplayError};
use crate::output::Output;

/// Flushes the writer, and returns `ended`; but if the flush fails and `ended` is no error, the error is `Write`.
pub fn flushed<W: Output>(
    writer: &mut W,
    ended: Result<Ended, ReplayError>,
) -> Result<Ended, ReplayError>
    ensures bytes { Keeps (W.contents writer.old) (W.contents writer.new) }
    ensures call { (ok : Bool) × W.did_flush writer.old ok writer.new × (result ≡ after_flush ok ended) }
{
    match writer.hand_on() {
        Ok(()) => ended,
        Err(_) => match ended {
            Ok(_) => Err(ReplayError::Write),
            Err(error) => Err(error),
        },
    }
}
