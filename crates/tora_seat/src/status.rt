//! Which status of the core a program requests.

/// Which status of the core a program requests.
#[derive(Clone, Copy, Debug, PartialEq, Eq, Hash)]
pub enum Status {
    /// The whole state, once, as a line of JSON.
    Json,
    /// Each change of a height or a next hop from now on.
    Watch,
}
