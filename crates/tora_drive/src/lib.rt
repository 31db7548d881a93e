//! External control: a simulated world that another program controls. It sends the lines of a simulation file one by
//! one; each answer says what the line sent and changed.
//!
//! The engine runs over any simulator (`Driven`), such as `tora_sim::Sim`. `docs/formats.md`, "External control",
//! defines the lines.
//!
//! ```rust
//! let setup = DriveSetup { options: WorldOptions::within(Limits::STANDARD), times: Times::STANDARD };
//! let ended = drive_in::<Sim, R, W>(alloc, setup, &mut reader, &mut writer)?;
//!
//! let mut drive: Drive<Sim> = Drive::new(alloc, setup);
//! drive.answer(alloc, b"dests 2", &mut text)?; // the text is `ok` and LF
//! ```
#![tactic(auto)]

mod answer;
mod cause;
mod drive;
mod drive_state;
mod driven;
mod driving;
mod event_lines;
mod laws;
mod line;
mod needs;
mod one_line;
mod performing;
mod recorded;
mod records;
mod sent_line;
mod setup;
mod stepping;
mod taken;
mod taking;

pub use cause::Cause;
pub use drive::Drive;
pub use driven::Driven;
pub use driving::drive_in;
pub use laws::{
    drives_are_runs_of_events, long_lines_change_no_drive, recorded_drives_are_drives,
    recorded_lines_stand_for_lines,
};
pub use line::{DriveLine, drive_line, says_notice};
pub use recorded::{Recording, drive_recorded};
pub use records::Route;
pub use setup::DriveSetup;
