//! The tests, a module for each subject, and what they share.
mod lanes;
mod neighbours;
mod nodes;
mod sees;
mod waking;
