//! The limits of lanes (queues).
use tora_core::MOST_NEIGHBOURS;
use tora_seat::{MOST_CARGOES, MOST_ITEMS};

/// The most links of a node.
pub const MOST_LINKS: usize = MOST_NEIGHBOURS;

/// How many items the queue into the core can hold.
pub const CORE_LANE_ROOM: usize = MOST_ITEMS;

/// How many outbound messages the queue to a neighbour can hold.
pub const OUT_LANE_ROOM: usize = MOST_CARGOES;

/// The most items that one seat can put, and the most outbound messages that can be sent through one queue to a
/// neighbour, since the queues were made: 2^61. Every put or send after that fails.
pub const MOST_IN_ALL: u64 = 1 << 61;
