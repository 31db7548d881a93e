//! The kinds of calls that can be made to fail.

/// The kinds of calls that can be made to fail.
#[derive(Clone, Copy, Debug, PartialEq, Eq)]
pub enum Call {
    /// The next send of a node fails, and the datagram is not sent.
    SendLost,
    /// The next send of a node fails, but the datagram is sent.
    SendGone,
    /// The next receive of a node fails: no link end sees the datagram that is delivered.
    Receive,
    /// The next read of each life file of a node fails.
    Read,
    /// The next write of each life file of a node fails.
    Write,
    /// The next sync of each life file of a node fails.
    Sync,
}
