//! Packets of the peer that arrived out of order.
ghost use Rattle.std.specs.Prelude.{◌≡◌, ◌<◌, ◌≤◌, ◌==◌, [], length, drop, IfOk, IfNone, OnErr, OnOk, OnSome};
ghost use Rattle.circular_buffer.specs.Buffer.{buffer};
ghost use Rattle.tora_arq.specs.Held.{hold_at, padded, first_held};

use crate::WINDOW;
use crate::rings::{make_room, push, set};
use circular_buffer::HeapCircularBuffer;
use std::alloc::{AllocError, Global};
use std::marker::Model;
use tora_packet::Packet;

/// Packets that arrived out of order, by place, and the room for them. The first place is that of the next packet to
/// deliver.
#[derive(Debug, Drop)]
pub struct HeldPackets {
    ring: HeapCircularBuffer<Option<Packet>>,
}

impl Model for HeldPackets {
    ghost use Rattle.std.specs.Prelude.{Option};
    ghost use Rattle.circular_buffer.specs.Buffer.{Buffer};
    ghost use Rattle.tora_packet.specs.declared.Packet.{Packet};

    ghost Value = { Buffer (Option Packet) };

    ghost view = { λ h. h.ring };
}

impl HeldPackets {
    /// No packets, with room for this many. Fails only if memory runs out.
    pub fn new(alloc: Global, places: usize) -> Result<HeldPackets, AllocError>
        ensures { IfOk result (λ h. h ≡ buffer [] places) }
    {
        let ring = HeapCircularBuffer::with_capacity(alloc, places)?;
        Ok(HeldPackets { ring })
    }

    /// Whether there is no place; then no packet is held.
    pub fn is_empty(&self) -> bool
        ensures { result ≡ (length self.now.items == 0) }
    {
        self.ring.is_empty()
    }

    /// Removes all places and their packets; the room for them stays.
    pub fn clear(&mut self)
        ensures { self.new ≡ buffer [] self.old.capacity }
    {
        self.ring.clear();
    }

    /// Makes room for this many places in all.
    ///
    /// # Errors
    /// Out of memory; nothing changes then.
    pub fn make_room(&mut self, places: usize) -> Result<(), AllocError>
        ensures items { self.new.items ≡ self.old.items }
        ensures more { self.old.capacity ≤ self.new.capacity }
        ensures room { OnOk result (places ≤ self.new.capacity) }
        ensures same { OnErr result (self.new ≡ self.old) }
    {
        make_room(&mut self.ring, places)
    }

    /// Appends empty places until there are this many.
    #[tactic(auto, using(crate::proofs::HeldLemmas::padded_more, crate::proofs::HeldLemmas::padded_all))]
    fn pad(&mut self, places: usize)
        requires { places ≤ self.old.capacity }
        ensures { self.new ≡ buffer (padded places self.old.items) self.old.capacity }
    {
        for _ in self.ring.len()..places {
            push(&mut self.ring, None);
        }
    }

    /// Holds a packet at a place, unless a packet is held there already.
    #[tactic(auto, using(crate::proofs::HeldLemmas::hold_empty, crate::proofs::HeldLemmas::hold_taken, crate::proofs::HeldLemmas::padded_within))]
    pub fn hold(&mut self, place: usize, packet: Packet)
        requires room { place < self.old.capacity }
        requires near { place < WINDOW }
        ensures { self.new ≡ buffer (hold_at place packet self.old.items) self.old.capacity }
    {
        self.pad(place + 1);
        let Some(slot) = self.ring.get(place) else {
            unreachable!()
        };
        if slot.is_none() {
            set(&mut self.ring, place, Some(packet));
        }
    }

    /// Removes the first place and returns its packet; `None`, and no change, if no packet is held there.
    pub fn take_first(&mut self) -> Option<Packet>
        ensures packet { result ≡ first_held self.old.items }
        ensures some { OnSome result (self.new ≡ buffer (drop 1 self.old.items) self.old.capacity) }
        ensures none { IfNone result (self.new ≡ self.old) }
    {
        let packet = (*self.ring.front()?)?;
        self.ring.pop_front();
        Some(packet)
    }
}
