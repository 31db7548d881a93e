//! The trace of a simulation: a record for each need, `part` and `mend`, for each link that a core steps up or down,
//! for each packet that it broadcasts, for each route that changes, and for the datagrams of each round.
//!
//! The caller reports what happens, and takes the text of the records. The module does no input and no output.
mod core_copy;
mod counts;
mod ends;
mod lives;
mod names;
mod packets;
mod route;
mod text;
mod trace;

pub use text::{HeightText, HopText};
pub use trace::Trace;
