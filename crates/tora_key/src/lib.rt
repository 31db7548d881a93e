//! The key of a neighbour link, and its tags.
//!
//! A tag is the first 16 bytes of the HMAC-SHA-256 of a datagram (RFC 2104 and FIPS 198-1), computed with the digest of
//! the crate `sha2`.
#![tactic(auto)]

mod key;
mod laws;
mod limit_values;
mod sealing;

pub use key::{Key, TAG, hmac, is_same};
pub use laws::keyed_links_give_what_was_tagged;
pub use limit_values::limits_have_their_values;
