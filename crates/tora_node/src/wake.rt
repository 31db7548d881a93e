//! Waking the threads of the neighbours.
use tora_neighbour::Wake;
use tora_seat::{Cargo, OutLanes};

/// Signals to all wakers that the core has ended.
pub(crate) fn end_all<K: Wake>(wakers: &[K]) {
    for waker in wakers {
        waker.end();
    }
}

/// The queues from a core to its neighbours. Putting a message into one wakes the thread of that neighbour.
///
/// For contracts these are the queues `lanes`.
#[derive(Drop)]
pub struct WakingLanes<O, K> {
    /// The queues.
    pub lanes: O,
    /// The wakers of the threads, in the order of the queues. A thread without a waker is not woken.
    pub wakers: Vec<K>,
}

impl<O: OutLanes, K: Wake> OutLanes for WakingLanes<O, K> {
    ghost count = { λ l. O.count l.lanes };

    ghost did_offer = { λ before place cargo put after. O.did_offer before.lanes place cargo put after.lanes };

    fn offer(&mut self, place: usize, cargo: Cargo) -> bool {
        let put = self.lanes.offer(place, cargo);
        if put {
            if let Some(waker) = self.wakers.get(place) {
                waker.wake();
            }
        }
        put
    }
}
