//! The simulation that the program runs: the lines of a file in `tora_sim::Sim` (`simulate`), and the command `sim`
//! (`sim_command`) with its exit status (`status`).
//!
//! ```rust
//! let ended = simulate(alloc, &mut reader, &mut writer)?;
//! ```
#![tactic(auto)]

mod flushing;
mod paths;
mod recent;
mod reporting;
pub mod sim_command;
mod simulated;
mod statuses;

pub use flushing::{simulate_last_and_flush, simulate_report_and_flush, write_through};
pub use paths::{Opened, Paths, bytes_at, text_at};
pub use recent::Recent;
pub use reporting::{report, report_at};
pub use simulated::{simulate, simulate_with};
pub use statuses::{INPUT, LIFE, MEMORY, SOCKET, USAGE, status, stop};
