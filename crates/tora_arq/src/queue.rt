//! The send queue of a link end.
ghost use Rattle.std.specs.Prelude.{◌≡◌, ◌<◌, ◌≤◌, ◌+◌, ◌^◌, ℕ, [], ◌∷◌, ◌++◌, ◌-◌, length, take, drop, min, slice_get};
ghost use Rattle.std.specs.Prelude.{slice_set, Some, IfOk, IfNone, IfSome, IsTrue, MatchOption, OnErr, OnOk, is_some};
ghost use Rattle.std.specs.Prelude.{option_map, ◌||◌};
ghost use Rattle.circular_buffer.specs.Buffer.{buffer};
ghost use Rattle.tora_arq.specs.Settings.{ticks_passed};
ghost use Rattle.tora_arq.specs.SendQueue.{untried, retried, is_retry_time, is_ready, is_given_up, has_given_up};
ghost use Rattle.tora_arq.specs.SendQueue.{ready_run, first_due, AreLate, IsFirstReady};
ghost use Rattle.tora_arq.specs.EndRange.{AreUntried};
ghost use Rattle.tora_arq.specs.NextDue.{has_begun, is_packet_due};

use crate::queued_packet::QueuedPacket;
use crate::settings::{earlier, tick_behind, ticks_passed};
use crate::{Times, WINDOW, rings};
use circular_buffer::HeapCircularBuffer;
use std::alloc::{AllocError, Global};
use std::marker::Model;
use tora_frame::{MOST_PACKETS, Packets};
use tora_packet::Packet;

/// The submitted packets that are not acknowledged, in order, and the room for them.
#[derive(Debug, Drop)]
pub struct SendQueue {
    ring: HeapCircularBuffer<QueuedPacket>,
}

impl Model for SendQueue {
    ghost use Rattle.circular_buffer.specs.Buffer.{Buffer};
    ghost use Rattle.tora_arq.specs.declared.queued_packet.QueuedPacket.{QueuedPacket};

    ghost Value = { Buffer QueuedPacket };

    ghost view = { λ q. q.ring };
}

impl SendQueue {
    /// An empty queue with room for this many packets. Fails only if memory runs out.
    pub fn new(alloc: Global, places: usize) -> Result<SendQueue, AllocError>
        ensures { IfOk result (λ q. q ≡ buffer [] places) }
    {
        let ring = HeapCircularBuffer::with_capacity(alloc, places)?;
        Ok(SendQueue { ring })
    }

    /// How many packets are in the queue.
    #[inline(always)]
    pub fn len(&self) -> usize
        ensures len { result ≡ length self.now.items }
        ensures within { (result ≤ self.now.capacity) × (result < 2 ^ 63) }
    {
        self.ring.len()
    }

    /// Makes room for this many packets in all.
    ///
    /// # Errors
    /// Out of memory; nothing changes then.
    #[inline(always)]
    pub fn make_room(&mut self, places: usize) -> Result<(), AllocError>
        ensures items { self.new.items ≡ self.old.items }
        ensures more { self.old.capacity ≤ self.new.capacity }
        ensures room { OnOk result (places ≤ self.new.capacity) }
        ensures same { OnErr result (self.new ≡ self.old) }
    {
        rings::make_room(&mut self.ring, places)
    }

    /// Appends a packet that was never transmitted.
    pub fn push(&mut self, packet: Packet)
        requires { length self.old.items < self.old.capacity }
        ensures { self.new ≡ buffer (self.old.items ++ untried packet ∷ []) self.old.capacity }
    {
        rings::push(&mut self.ring, QueuedPacket::untried(packet));
    }

    /// Removes the first `count` packets, or all if there are fewer.
    pub fn remove_first(&mut self, count: u64)
        ensures { self.new ≡ buffer (drop count self.old.items) self.old.capacity }
    {
        let len = self.len();
        let count = usize::try_from(count).unwrap_or(len).min(len);
        rings::remove_first(&mut self.ring, count);
    }

    /// Removes all packets; the room for them stays.
    pub fn clear(&mut self)
        ensures { self.new ≡ buffer [] self.old.capacity }
    {
        self.ring.clear();
    }

    /// How many packets are within the window. The packets beyond it were never transmitted.
    fn within_window(&self) -> usize
        ensures { result ≡ min WINDOW (length self.now.items) }
    {
        self.len().min(WINDOW as usize)
    }

    /// The packet at the index `place`, counted from 0.
    fn packet_at(&self, place: usize) -> QueuedPacket
        requires { place < length self.now.items }
        ensures { slice_get self.now.items place ≡ Some result }
    {
        rings::at(&self.ring, place)
    }

    /// Replaces the packet at the index `place`.
    fn set(&mut self, place: usize, packet: QueuedPacket)
        requires { place < length self.old.items }
        ensures { self.new ≡ buffer (slice_set self.old.items place packet) self.old.capacity }
    {
        // For the proof: the checker must see the type of packets here.
        let _none: Option<Packet> = None;
        rings::set(&mut self.ring, place, packet);
    }

    /// Whether a packet was transmitted `tries` times, the last time at least `retry` ticks ago. It reads at most a
    /// window of packets.
    #[tactic(auto, using(crate::proofs::QueueLemmas::given_up_at, crate::proofs::QueueLemmas::none_given_up_here))]
    pub fn has_given_up(&self, times: &Times, now: u64) -> bool
        requires tries { 0 < times.now.tries }
        requires untried { AreUntried (drop WINDOW self.now.items) }
        ensures { result ≡ has_given_up times.now now self.now.items }
    {
        for place in 0..self.within_window() {
            if self.packet_at(place).is_given_up(times, now) {
                return true;
            }
        }
        false
    }

    /// How many packets are before the first due packet within the window, and that packet; `None` if none is due. It
    /// reads at most a window of packets.
    fn first_ready(&self, times: &Times, now: u64) -> Option<(usize, QueuedPacket)>
        ensures first { MatchOption result (AreLate times.now now WINDOW self.now.items) (λ r.
            IsFirstReady times.now now WINDOW self.now.items r.0 r.1) }
        ensures room { IfSome result (λ r. r.1.tries + 1 < 2 ^ 64) }
    {
        for place in 0..self.within_window() {
            let packet = self.packet_at(place);
            if packet.is_ready(times, now) {
                return Some((place, packet));
            }
        }
        None
    }

    /// Whether a packet within the window is due.
    pub fn is_due(&self, times: &Times, now: u64) -> bool
        ensures { (most number : ℕ) → result ≡ is_some (first_due times.now now most number WINDOW self.now.items) }
    {
        match self.first_ready(times, now) {
            Some(_) => true,
            None => false,
        }
    }

    /// The first tick at which a packet within the window is due or is given up: 0 if one was never transmitted; `None`
    /// if there is none below 2^64. It reads at most a window of packets.
    #[inline(never)]
    pub fn due_tick(&self, times: &Times) -> Option<u64>
        requires retry { 0 < times.now.retry }
        requires tries { 0 < times.now.tries }
        requires untried { AreUntried (drop WINDOW self.now.items) }
        ensures { (most number tick : ℕ) → tick < 2 ^ 64 → has_begun result tick
            ≡ is_some (first_due times.now tick most number WINDOW self.now.items) || has_given_up times.now tick
            self.now.items }
    {
        let mut first = None;
        for place in 0..self.within_window() {
            first = earlier(first, self.packet_at(place).due_tick(times));
        }
        first
    }

    /// Appends to `packets` the packets from the index `place` up to `end`, which is not included, stopping at the
    /// first that is not due. They count as transmitted at `now`.
    fn take_run(&mut self, times: &Times, now: u64, place: usize, end: usize, packets: &mut Packets)
        requires within { end ≤ length self.old.items }
        requires most { end ≤ place + MOST_PACKETS }
        requires empty { packets.old.items ≡ [] }
        ensures packets { packets.new.items ≡ (ready_run times.now now (end - place)
            (drop place self.old.items)).packets }
        ensures queue { self.new.items ≡ take place self.old.items
            ++ (ready_run times.now now (end - place) (drop place self.old.items)).queue }
        ensures room { self.new.capacity ≡ self.old.capacity }
    {
        for at in place..end {
            let packet = self.packet_at(at);
            if !packet.is_ready(times, now) {
                return;
            }
            packets.push(packet.packet);
            self.set(at, packet.retried(now));
        }
    }

    /// Replaces the content of `packets` by the first due packet of the window and the due packets that follow it
    /// directly, at most `most` in all. They count as transmitted at `now`.
    ///
    /// The result is the index of the first of them; `None` if no packet is due, and then the queue is unchanged.
    pub fn take_due(
        &mut self,
        times: &Times,
        now: u64,
        most: usize,
        packets: &mut Packets,
    ) -> Option<usize>
        requires { (0 < most) × (most ≤ MOST_PACKETS) }
        ensures due { (number : ℕ) → first_due times.now now most number WINDOW self.old.items
            ≡ option_map (λ place. record {
              number = number + place;
              packets = packets.new.items;
              queue = self.new.items;
            }) result }
        ensures room { self.new.capacity ≡ self.old.capacity }
        ensures none { IfNone result (self.new ≡ self.old) }
        ensures some { IfSome result (λ place. (0 < length packets.new.items) × (length packets.new.items ≤ most)
            × (place + length packets.new.items ≤ length self.old.items)) }
    {
        let Some((place, _)) = self.first_ready(times, now) else {
            return None;
        };
        let end = self.within_window().min(place + most);
        packets.clear();
        self.take_run(times, now, place, end, packets);
        Some(place)
    }
}
