//! The layout of frames in bytes: kinds and lengths.

use crate::MOST_PACKETS;
use tora_packet::{LONGEST_PACKET, SHORTEST_PACKET};

/// The kind byte of a HELLO, byte 1 of the frame.
pub(crate) const HELLO: u8 = 1;

/// The kind byte of a DATA frame.
pub(crate) const DATA: u8 = 2;

/// The kind byte of an ACK.
pub(crate) const ACK: u8 = 3;

/// The length of the header in bytes.
pub(crate) const HEADER_LENGTH: usize = 28;

/// The bytes of a DATA frame of version 1 between its header and its packet: the packet number and the count of
/// accepted packets.
pub(crate) const PACKET_HEAD: usize = 16;

/// The bytes of a DATA frame of version 2 between its header and its packets: the first packet number, the count of
/// accepted packets, the number of packets in the frame, and three zeros.
pub(crate) const BATCH_HEAD: usize = 20;

/// The offset of the packet in a DATA frame of version 1, in bytes.
pub(crate) const PACKET_OFFSET: usize = HEADER_LENGTH + PACKET_HEAD;

/// The offset of the packets in a DATA frame of version 2, in bytes.
pub(crate) const BATCH_OFFSET: usize = HEADER_LENGTH + BATCH_HEAD;

/// The shortest payload of a DATA frame of version 2 in bytes: with one packet of the shortest kind.
pub(crate) const SHORTEST_BATCH: usize = BATCH_HEAD + SHORTEST_PACKET;

/// The longest payload of a DATA frame of version 2 in bytes: with `MOST_PACKETS` packets of the longest kind.
pub(crate) const LONGEST_BATCH: usize = BATCH_HEAD + MOST_PACKETS * LONGEST_PACKET;
