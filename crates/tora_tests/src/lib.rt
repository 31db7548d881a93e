//! The tests of the heights, packets, cores, frames, link ends, seats, routers and simulators, and of life files and
//! keys.
//!
//! Each module with tests is about the public names of one crate: `tora_height`, `tora_packet`, `tora_core`,
//! `tora_frame`, `tora_arq`, `tora_seat`, `tora_router`, `tora_sim`, `tora_life` or `tora_key`. A crate with tests of
//! its own is proved a second time with them, so the tests have a crate of their own, which no other crate uses.
#![tactic(auto)]

#[cfg(test)]
mod tests;
