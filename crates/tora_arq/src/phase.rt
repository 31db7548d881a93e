//! Whether a link end is open.
use crate::Life;

/// Whether a link end is open, and in which session.
#[derive(Clone, Copy, Debug, PartialEq, Eq, Hash)]
pub enum Phase {
    /// Closed: no session is open, also before the first one.
    Closed,
    /// Open with an own session number, 1 to 2^62, and not bound.
    Unbound(u64),
    /// Open and bound to a session.
    Bound(Life),
}
