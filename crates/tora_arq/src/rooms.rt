//! The room that a link end makes before a call that queues something.
ghost use Rattle.std.specs.Prelude.{◌≡◌, ◌<◌, ◌≤◌, ◌+◌, ◌-◌, ◌⊎◌, length, IfSome, OnOk};
ghost use Rattle.tora_frame.specs.BorrowedFrames.{body_of};
ghost use Rattle.tora_arq.specs.Rooms.{HasFrameRoom, HasLists, HasNextRoom};
ghost use Rattle.tora_arq.specs.StateView.{state_in};

use crate::phase::Phase;
use crate::state::State;
use crate::{EVENT_PLACES, HELD_PLACES, QUEUE_PLACES};
use std::alloc::AllocError;
use tora_frame::{BorrowedBody, BorrowedFrame};

impl State {
    /// How many packets a frame delivers at most; `None` if one of them may have to be held.
    fn next_packets(&self, body: BorrowedBody<'_>) -> Option<usize>
        ensures most { IfSome result (λ count. count ≤ HELD_PLACES) }
        ensures next { IfSome result (λ count. HasNextRoom (length self.now.events.items + count) (body_of body.entry)
            (state_in self.now) self.now.phase) }
    {
        let BorrowedBody::Data(number, _, packets) = body else {
            return Some(0);
        };
        match self.phase {
            Phase::Closed => Some(0),
            Phase::Unbound(_) => None,
            Phase::Bound(_) => {
                if self.held.is_empty()
                    && number.saturating_sub(1) <= self.accepted
                    && packets.len() <= HELD_PLACES
                {
                    Some(packets.len())
                } else {
                    None
                }
            }
        }
    }

    /// Makes room for `count` more events, one more for `Up`, and one more for the event that the session ended
    /// (`Down`).
    ///
    /// # Errors
    /// Out of memory; nothing changes then.
    #[inline(always)]
    pub fn make_event_room(&mut self, count: usize) -> Result<(), AllocError>
        requires { count ≤ HELD_PLACES }
        ensures state { state_in self.new ≡ state_in self.old }
        ensures more { self.old.events.capacity ≤ self.new.events.capacity }
        ensures room { OnOk result (length self.old.events.items + count + 1 < self.new.events.capacity) }
    {
        self.events.make_room(self.events.len() + count + 2)?;
        Ok(())
    }

    /// Makes room for all that a frame may queue, and for the event that the session ended.
    ///
    /// # Errors
    /// Out of memory; nothing changes then except the room.
    pub fn make_frame_room(&mut self, frame: &BorrowedFrame<'_>) -> Result<(), AllocError>
        ensures state { state_in self.new ≡ state_in self.old }
        ensures more { self.old.events.capacity ≤ self.new.events.capacity }
        ensures room { OnOk result (HasLists self.new.events.capacity self.new.held.capacity
            ⊎ HasFrameRoom (self.new.events.capacity - 1) frame.now (state_in self.old)) }
    {
        match self.next_packets(frame.body()) {
            Some(count) => self.make_event_room(count)?,
            None => self.make_whole_room()?,
        }
        Ok(())
    }

    /// Makes room for the greatest number of events and of out-of-order packets.
    ///
    /// # Errors
    /// Out of memory; nothing changes then except the room.
    #[inline(never)]
    fn make_whole_room(&mut self) -> Result<(), AllocError>
        ensures state { state_in self.new ≡ state_in self.old }
        ensures more { self.old.events.capacity ≤ self.new.events.capacity }
        ensures room { OnOk result (HasLists self.new.events.capacity self.new.held.capacity) }
    {
        self.events.make_room(EVENT_PLACES)?;
        self.held.make_room(HELD_PLACES)?;
        Ok(())
    }

    /// Makes room for one more unacknowledged packet, unless the queue has its greatest length.
    ///
    /// # Errors
    /// Out of memory; nothing changes then.
    pub fn make_packet_room(&mut self) -> Result<(), AllocError>
        ensures state { state_in self.new ≡ state_in self.old }
        ensures more { self.old.events.capacity ≤ self.new.events.capacity }
        ensures room { OnOk result (length self.new.queue.items < QUEUE_PLACES
            → length self.new.queue.items < self.new.queue.capacity) }
    {
        let places = (self.queue.len() + 1).min(QUEUE_PLACES);
        self.queue.make_room(places)?;
        Ok(())
    }
}
