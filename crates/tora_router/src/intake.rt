//! How a router received a datagram.
use tora_arq::Verdict;
use tora_frame::FrameError;

/// The outcome of a datagram at a router.
#[derive(Clone, Copy, Debug, PartialEq, Eq)]
pub enum Intake {
    /// The node that sent the datagram is not a neighbour. Nothing changes.
    NoNeighbour,
    /// The bytes of the datagram are not a frame, for this reason. The link end did not see it.
    Bad(FrameError),
    /// The datagram is a frame, with this verdict of the link end.
    Seen(Verdict),
}
