//! How a received datagram is passed to the link end.
ghost use Rattle.std.specs.Prelude.{◌≡◌};
ghost use Rattle.tora_frame.specs.FrameGrammar.{frame_reading};
ghost use Rattle.tora_neighbour.specs.Intake.{intake_of, after_reading};
ghost use Rattle.tora_neighbour.specs.Tally.{counted};

use crate::tally::Tally;
use tora_arq::{LinkEnd, Verdict};
use tora_frame::{FrameError, Packets, decode_into};

/// The result of passing a datagram to a link end.
#[derive(Clone, Copy, Debug, PartialEq, Eq, Hash)]
pub enum Intake {
    /// The bytes are not a frame, for this reason. The end did not receive it.
    Bad(FrameError),
    /// The bytes are a frame, and this is the end's verdict on it.
    Seen(Verdict),
}

/// Passes a datagram of any bytes to the end at the tick `now`, in units of 100 ms.
///
/// If the bytes are a frame, the effect on the end is that of `LinkEnd::on_frame`; otherwise the end is unchanged.
/// Exactly one count of the tally rises by 1, unless it is 2^64 - 1. It takes no memory.
pub fn take_in(end: &mut LinkEnd, tally: &mut Tally, datagram: &[u8], now: u64) -> Intake
    ensures intake { result ≡ intake_of end.old.settings end.old.state now (frame_reading datagram.now) }
    ensures end { end.new
        ≡ record end.old { state = after_reading end.old.settings end.old.state now (frame_reading datagram.now) } }
    ensures tally { tally.new ≡ counted result tally.old }
{
    let mut packets = Packets::new();
    let intake = match decode_into(datagram, &mut packets) {
        Ok(frame) => Intake::Seen(end.on_borrowed_frame(&frame, now)),
        Err(error) => Intake::Bad(error),
    };
    tally.add(intake);
    intake
}
