//! Waking the thread of a neighbour.

/// Wakes a neighbour's thread that waits for its wire, so that it takes the outbound messages in its queue.
///
/// No contract depends on it: if a call does nothing, an outbound message stays in the queue until the wire's wait
/// ends, and none is lost.
pub trait Wake {
    /// Ends the current wait, or the next one if there is none. It does not wait.
    fn wake(&self);

    /// Wakes the thread because the core has ended, and takes no more items from its queue. It does not wait.
    fn end(&self) {
        self.wake();
    }
}

/// Wakes nobody, for a wire that cannot be woken.
impl Wake for () {
    fn wake(&self) {}
}
