//! The tests of the program: of its files of lines, the replay, the simulation, its trace, the drive, the configuration
//! of a node, links with keys, and the commands.
//!
//! Each module tests public names of `tora_lines`, `tora_script`, `tora_simulate`, `tora_drive`, `tora_keyed` or
//! `tora_commands`. A crate with tests of its own is proved a second time with them, so the tests have a crate of their
//! own, which no other crate uses.
#![tactic(auto)]

#[cfg(test)]
mod tests;
