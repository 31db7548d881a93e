//! Line-based files: the words of a line, and the engine that reads lines, writes the text printed for each, and
//! reports how the file ended.
//!
//! A kind of file (`FileKind`) is defined by the state between two of its lines. The engine passes it one line after
//! another, and writes its text for each line by one call. The engine stops at the end of the input, at the first fault
//! or at an error. A line of more than 4,096 bytes is a fault; `read_shortened_lines` treats it as an empty line.
//!
//! ```rust
//! let ended = read_lines(alloc, state, &mut reader, &mut writer)?;
//! let ended = flushed(&mut writer, Ok(ended))?; // `Ended::Whole`, or `Ended::Fault(N)` if line N is the first fault
//! ```
#![tactic(auto)]

mod ended;
mod engine;
mod flushing;
mod fronts;
mod input;
mod limit_values;
mod output;
mod session;
mod shortened;
mod text;
pub mod words;

pub use ended::{Ended, ReplayError};
pub use engine::{MOST_READS, read_last_lines, read_lines};
pub use flushing::flushed;
pub use fronts::{after, behind};
pub use input::Input;
pub use limit_values::limits_have_their_values;
pub use output::Output;
pub use session::{FileKind, LONGEST_LINE};
pub use shortened::read_shortened_lines;
pub use text::numbered;
pub use words::{LineError, numbers_are_read_as_printed};
