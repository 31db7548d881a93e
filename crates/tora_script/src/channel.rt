//! The channel of a simulation: which datagrams are lost, how many rounds each takes, and which arrive twice.
//!
//! ```rust
//! let parts = channel_parts(b"loss=0.1,delay=1-3")?;
//! let copies = parts.channel(7).copies(place);
//! ```
mod channel;
mod line;
mod look_up;
mod parts;
mod table;
mod table_text;

pub use channel::{Channel, Copies, Place};
pub use line::ChannelLine;
pub use parts::{Parts, channel_parts};
pub use table::ChannelTable;
pub use table_text::{LineCause, TableError, channel_line, channel_table};
