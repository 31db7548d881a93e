//! Neighbour links whose datagrams have tags.
//!
//! A `LinkWire` wraps another wire. Without a key, it passes each call on. With a key, it appends a tag to each
//! datagram that it sends, and it delivers a received datagram only if its tag is right, without the tag. Only someone
//! who knows the key can make a right tag (this is assumed of HMAC-SHA-256). A datagram that was tagged once may arrive
//! any number of times and in any order, as the prefix law allows.
#![tactic(auto)]

mod key_file;
mod limit_values;
mod link_wire;
mod noticed_wire;

pub use key_file::{KEY, LONGEST_KEY_FILE, key_in, overwrite};
pub use limit_values::limits_have_their_values;
pub use link_wire::LinkWire;
pub use tora_key::Key;
