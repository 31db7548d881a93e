//! How a link end receives a frame.
use std::fmt;

/// The verdict of a link end on a frame.
#[derive(Clone, Copy, Debug, PartialEq, Eq, Hash)]
pub enum Verdict {
    /// The frame brought something new, or is a HELLO that is neither `Stale`, `Foreign` nor `Busy`.
    Accepted,
    /// A DATA frame of packets that were all accepted before, or an ACK whose count did not grow and that bound no
    /// session.
    Repeated,
    /// A DATA frame whose packets all come early: a packet with a smaller number is missing.
    Ahead,
    /// The end is closed; or the frame is of an older session of the peer; or it does not carry the end's own number
    /// back, and is neither a HELLO at an unbound end nor of a newer session at a bound end. Nothing changes.
    Stale,
    /// The frame is not from the peer to this node, is of version 2 at an end of version 1, has an update of a node
    /// other than the peer, or acknowledges packets that were not transmitted. Nothing changes.
    Foreign,
    /// Fewer than `PLACES_OF_A_FRAME` (34) places for events are free, so the end did not take the frame. Nothing
    /// changes.
    Busy,
}

/// A verdict in one lowercase word.
impl fmt::Display for Verdict {
    ghost use Rattle.std.specs.Prelude.{Some};
    ghost use Rattle.tora_arq.specs.Texts.{written_verdict};

    ghost output = { λ v. Some (written_verdict v) };

    fn fmt<W: fmt::Write>(&self, f: &mut fmt::Formatter<W>) -> fmt::Result {
        match self {
            Verdict::Accepted => f.write_str("accepted"),
            Verdict::Repeated => f.write_str("repeated"),
            Verdict::Ahead => f.write_str("ahead"),
            Verdict::Stale => f.write_str("stale"),
            Verdict::Foreign => f.write_str("foreign"),
            Verdict::Busy => f.write_str("busy"),
        }
    }
}
