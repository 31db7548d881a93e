//! The frames of a neighbour link and their bytes.
//!
//! A frame names its version, its sender and its receiver, and carries two session numbers: the sender's, and the one
//! that the sender heard from the receiver. A HELLO has no other content. DATA frames carry numbered packets, and DATA
//! and ACK frames carry a count of accepted packets. In version 1 a DATA frame carries one packet, in version 2 one to
//! sixteen. Numbers are in network byte order. No call of this crate takes memory.
//!
//! ```rust
//! let header = Header { version: Version::Two, sender: 1, receiver: 2, life: 5, heard: 9 };
//! let frame = Frame::ack(header, 3); // three packets of this session were accepted
//! let bytes = encode(&frame);
//! assert_eq!(rt; bytes.len(), 36);
//! assert_eq!(rt; decode(&bytes), Ok(frame));
//! ```
#![tactic(auto)]

ghost use Rattle.std.specs.Prelude.{◌≡◌};
ghost use Rattle.tora_frame.specs.FrameGrammar.{frame_error_number};

mod borrowed;
mod decoding;
mod encoding;
mod layout;
mod limit_values;
mod packets;
mod parts;

pub use borrowed::{BorrowedBody, BorrowedFrame};
pub use decoding::{decode, decode_into, one_frame_spelling};
pub use encoding::{LONGEST_FRAME, encode, encode_into, longest_frame};
pub use limit_values::limits_have_their_values;
pub use parts::{Body, Frame, GREATEST_NUMBER, Header, MOST_PACKETS, Packets, Version};
use thiserror::Error;
use tora_packet::PacketError;

/// Why bytes are not a frame.
#[derive(Clone, Copy, Debug, PartialEq, Eq, Hash, Error)]
pub enum FrameError {
    /// There are fewer than 28 bytes, or fewer than the payload length says.
    #[error("too few bytes")]
    Short,
    /// There are bytes after the frame.
    #[error("too many bytes")]
    Long,
    /// The version is neither 1 nor 2.
    #[error("the version is not 1 or 2")]
    Version,
    /// The kind is not 1 (HELLO), 2 (DATA) or 3 (ACK).
    #[error("the kind is not 1, 2 or 3")]
    Kind,
    /// The kind does not have this payload length in this version.
    #[error("the payload length is none that the kind has")]
    Length,
    /// The sender or the receiver is 0, or the two are equal.
    #[error("the sender or the receiver is 0, or the two are equal")]
    Id,
    /// The sender's session number is not 1 to 2^62, the one that it heard is above 2^62, or that one is 0 in a DATA
    /// frame or an ACK.
    #[error("a life is out of its range")]
    Life,
    /// The number of the first packet is not 1 to 2^62, or the count of accepted packets is above 2^62.
    #[error("a number or a count is out of its range")]
    Number,
    /// A packet in the frame is refused for this reason; `Long` also if bytes are left after the last packet.
    #[error("the packet is refused: {0}")]
    Packet(#[source] PacketError),
    /// The number of packets in a frame of version 2 is 0 or above 16, is not followed by three zero bytes, or makes
    /// the number of the last packet exceed 2^62.
    #[error("how many packets there are is out of its range")]
    Count,
}

impl FrameError {
    /// The number of the error as texts print it: 1 `Short`, 2 `Long`, 3 `Version`, 4 `Kind`, 5 `Length`, 6 `Id`,
    /// 7 `Life`, 8 `Number`, 9 `Packet`, 10 `Count`.
    pub fn number(self) -> u8
        ensures { result ≡ frame_error_number self }
    {
        match self {
            FrameError::Short => 1,
            FrameError::Long => 2,
            FrameError::Version => 3,
            FrameError::Kind => 4,
            FrameError::Length => 5,
            FrameError::Id => 6,
            FrameError::Life => 7,
            FrameError::Number => 8,
            FrameError::Packet(_) => 9,
            FrameError::Count => 10,
        }
    }
}
