//! The configuration of a node, read from a TOML text.
//!
//! ```toml
//! node = 1
//! dests = [4]
//! life_dir = "n1"
//!
//! [[link]]
//! peer = 2
//! local = 4012
//! remote = 4021
//! ```
//!
//! Each of these keys is required, `link` at least once, and every other key except `erasure` and `key_file` is a
//! fault. `erasure` is "plain" or "remembered", and "plain" by default. `node`, `peer` and each of `dests` are whole
//! numbers from 1 to 2^32 - 1; ports are from 1 to 65535. No two links have the same peer or the same local port, and
//! no peer is the node itself. Too many links or destinations, and a repeated destination, are faults.
//!
//! `local` and `remote` may also be addresses as texts, such as `"10.0.0.1:7001"` and `"[::1]:7001"`; a number is a
//! port of 127.0.0.1. A link may have a `key_file`, the path of a file with a key, and one that leaves the loopback
//! must have one. `read_config` reads everything except these, and only the port of an address; `read_endpoints` reads
//! the addresses and the paths.

mod addresses;
mod endpoints;
mod fault;
mod numbers;
mod reading;
mod reason;
mod values;

pub use endpoints::{LinkEndpoint, read_endpoints};
pub use fault::{ConfigError, Place};
pub use reading::read_config;
pub use reason::Reason;
use tora_core::Erasure;
use tora_height::Id;

/// A link to a neighbour, over UDP.
#[derive(Clone, Copy, Debug, PartialEq, Eq, Hash)]
pub struct LinkConfig {
    /// The neighbour, not 0.
    pub peer: Id,
    /// The node's port, 1 to 65535.
    pub local: u16,
    /// The neighbour's port, 1 to 65535.
    pub remote: u16,
}

/// The configuration of a node.
#[derive(Debug, Drop)]
pub struct NodeConfig {
    /// The node, not 0.
    pub node: Id,
    /// The destinations of its table, each once and not 0, in the order of the text.
    pub dests: Vec<Id>,
    /// The directory of the node's life files, as written in the text.
    pub life_dir: String,
    /// How the node treats erased levels.
    pub erasure: Erasure,
    /// Its links, at least one, by ascending peer.
    pub links: Vec<LinkConfig>,
}
