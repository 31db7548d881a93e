//! The queue of a link end's events.
ghost use Rattle.std.specs.Prelude.{◌≡◌, ◌<◌, ◌≤◌, ◌-◌, ◌^◌, [], ◌∷◌, ◌++◌, length, drop, slice_get, is_some, nat_lt};
ghost use Rattle.std.specs.Prelude.{IfOk, OnErr, OnOk};
ghost use Rattle.circular_buffer.specs.Buffer.{buffer};

use crate::rings::{make_room, push};
use crate::{EVENT_PLACES, LinkEvent, PLACES_OF_A_FRAME};
use circular_buffer::HeapCircularBuffer;
use std::alloc::{AllocError, Global};
use std::marker::Model;
use tora_packet::Packet;

/// Events in the order in which they came, and the places for them.
#[derive(Debug, Drop)]
pub struct EventQueue {
    ring: HeapCircularBuffer<LinkEvent>,
}

impl Model for EventQueue {
    ghost use Rattle.circular_buffer.specs.Buffer.{Buffer};
    ghost use Rattle.tora_arq.specs.declared.link_event.LinkEvent.{LinkEvent};

    ghost Value = { Buffer LinkEvent };

    ghost view = { λ q. q.ring };
}

impl EventQueue {
    /// An empty queue with room for this many events. Fails only if memory runs out.
    pub fn new(alloc: Global, places: usize) -> Result<EventQueue, AllocError>
        ensures { IfOk result (λ q. q ≡ buffer [] places) }
    {
        let ring = HeapCircularBuffer::with_capacity(alloc, places)?;
        Ok(EventQueue { ring })
    }

    /// How many events are in the queue.
    #[inline(always)]
    pub fn len(&self) -> usize
        ensures length { result ≡ length self.now.items }
        ensures within { result < 2 ^ 63 }
    {
        self.ring.len()
    }

    /// Whether an event is in the queue.
    #[inline(always)]
    pub fn has_first(&self) -> bool
        ensures { result ≡ is_some (slice_get self.now.items 0) }
    {
        self.len() > 0
    }

    /// Whether fewer than `PLACES_OF_A_FRAME` of the `EVENT_PLACES` are free: then the verdict on a frame is `Busy`,
    /// unless it is `Foreign`.
    #[inline(always)]
    pub fn is_busy(&self) -> bool
        ensures { result ≡ nat_lt (EVENT_PLACES - length self.now.items) PLACES_OF_A_FRAME }
    {
        EVENT_PLACES.saturating_sub(self.len()) < PLACES_OF_A_FRAME
    }

    /// Makes room for this many events in all.
    ///
    /// # Errors
    /// Out of memory; nothing changes then.
    #[inline(always)]
    pub fn make_room(&mut self, places: usize) -> Result<(), AllocError>
        ensures items { self.new.items ≡ self.old.items }
        ensures more { self.old.capacity ≤ self.new.capacity }
        ensures room { OnOk result (places ≤ self.new.capacity) }
        ensures same { OnErr result (self.new ≡ self.old) }
    {
        make_room(&mut self.ring, places)
    }

    /// Appends an event. There must be a free place.
    pub fn push(&mut self, event: LinkEvent)
        requires { length self.old.items < self.old.capacity }
        ensures { self.new ≡ buffer (self.old.items ++ event ∷ []) self.old.capacity }
    {
        // For the proof: the checker must see the type of packets here.
        let _none: Option<Packet> = None;
        push(&mut self.ring, event);
    }

    /// The oldest event, which stays in the queue; `None` if there is none.
    pub fn first(&self) -> Option<LinkEvent>
        ensures { result ≡ slice_get self.now.items 0 }
    {
        self.ring.front().copied()
    }

    /// Removes and returns the oldest event; `None` if there is none.
    pub fn pop(&mut self) -> Option<LinkEvent>
        ensures value { result ≡ slice_get self.old.items 0 }
        ensures rest { self.new ≡ buffer (drop 1 self.old.items) self.old.capacity }
    {
        self.ring.pop_front()
    }
}
