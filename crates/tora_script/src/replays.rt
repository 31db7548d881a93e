//! The replay of one node: it reads a file of inputs and writes what the node sends.
//!
//! ```rust
//! let ended = replay(alloc, &mut reader, &mut writer)?;
//! ```
mod answer;
mod cause;
mod line;
mod packet_word;
mod parse;
mod replaying;

pub use cause::{ReplayCause, replay_cause};
pub use parse::{replay_first_lines_are_read_as_written, replay_lines_are_read_as_written};
pub use replaying::{ReplayFile, replay, replay_fault_is_the_first, replay_with};
