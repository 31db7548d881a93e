//! The result of serving an item.
use tora_core::StepError;

/// The result of serving an item.
#[derive(Clone, Copy, Debug, PartialEq, Eq, Hash)]
pub enum Answer {
    /// The core refused no input, and the caller has nothing to do.
    Nothing,
    /// The core refused an input, for this cause.
    Refused(StepError),
    /// The item was `Show` or `Status`: the caller has to print what it asks for.
    Show,
    /// The item was `Quit`: the caller has to end the core.
    Quit,
}
