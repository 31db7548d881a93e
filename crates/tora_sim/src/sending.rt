//! The sending of the frames of a link end, one after another.
ghost use Rattle.std.specs.Prelude.{◌≡◌, ◌<◌, true, false, length};
ghost use Rattle.tora_sim.specs.Keyed.{IsFirst};
ghost use Rattle.tora_sim.specs.Links.{is_at};
ghost use Rattle.tora_sim.specs.Nodes.{is_of, sending_of};
ghost use Rattle.tora_sim.specs.Store.{world_of};
ghost use Rattle.tora_sim.specs.Sending.{IsOver};
ghost use Rattle.tora_sim.specs.Steps.{Does, IsDone, Repeats};
ghost use Rattle.tora_world.specs.declared.event.Event.TheVariants.{Transmit};
ghost use Rattle.tora_frame.specs.FrameParts.{IsHeader, frame_of};
ghost use Rattle.tora_frame.specs.declared.parts.Body.TheVariants.{Hello};
ghost use Rattle.tora_world.specs.World.{with_datagram};
ghost use Rattle.tora_sim.specs.Datagrams.{HasRoom};

use crate::SimError;
use crate::deadlines::{set_deadline, short};
use crate::end_keys::{place, place_near};
use crate::nodes::{NodeSlot, Sending, node_near};
use crate::places::{far_end_at, home_at};
use crate::sim::Sim;
use crate::store::Datagrams;
use std::alloc::AllocError;
use tora_arq::{calls_keep_an_end, data_frames_are_what_was_submitted};
use tora_frame::{BorrowedFrame, Header};
use tora_height::Id;

impl Sim {
    /// Sends the first due frame of the end of node `n` towards `k`, unless the send is armed to lose it.
    ///
    /// # Errors
    /// In this order: `NoNode` if there is no such link; `NotPossible` if no frame is due; `Memory`. Nothing changes
    /// then.
    pub(crate) fn transmit(&mut self, n: Id, k: Id) -> Result<(), SimError>
        ensures { Does self.old (Transmit n k) result self.new }
    {
        let Some(at) = place(&self.links, &self.keys, n, k) else {
            return Err(SimError::NoNode);
        };
        let Some(home) = node_near(&self.nodes, home_at(&self.places, at), n) else {
            return Err(SimError::NoNode);
        };
        self.transmit_at(n, k, at, home)
    }

    /// `transmit` for the end of node `_n` towards `_k`, whose index is `at`; the node's index is `home`. It is never
    /// inlined, so that the loop that sends HELLOs has registers of its own.
    #[inline(never)]
    pub(crate) fn transmit_at(
        &mut self,
        _n: Id,
        _k: Id,
        at: usize,
        home: usize,
    ) -> Result<(), SimError>
        requires end { IsFirst (is_at _n _k) self.old.links at }
        requires node { IsFirst (is_of _n) self.old.nodes home }
        ensures done { Does self.old (Transmit _n _k) result self.new }
        ensures end { IsFirst (is_at _n _k) self.new.links at }
        ensures node { IsFirst (is_of _n) self.new.nodes home }
    {
        if self.datagrams.reserve(at).is_err() {
            if !self.links[at].has_frame_due(self.clock) {
                return Err(SimError::NotPossible);
            }
            return Err(SimError::Memory);
        }
        data_frames_are_what_was_submitted();
        calls_keep_an_end();
        let Some(frame) = self.links[at].send(self.clock, &mut self.buffers.packets) else {
            return Err(SimError::NotPossible);
        };
        let far_end = far_end_at(&self.places, at);
        note_sent(
            &mut self.nodes[home],
            &mut self.datagrams,
            at,
            far_end,
            &frame,
        );
        Ok(())
    }

    /// Repeats `Transmit` at the end of node `n` towards `k` until it is refused, at most `most` times. Returns whether
    /// it happened at all; `false` also if there is no such link. The end and its node are looked up once.
    ///
    /// `place` is the index of the link end among `ends`. If another end is there, the end is searched for.
    ///
    /// # Errors
    /// Memory ran out for a frame that is due, or no more datagrams can be stored. The earlier frames were sent.
    #[inline(always)]
    pub fn transmit_all(
        &mut self,
        place: usize,
        n: Id,
        k: Id,
        most: u64,
    ) -> Result<bool, AllocError>
        ensures { Repeats self.old most (Transmit n k) result self.new }
    {
        let Some(at) = place_near(&self.links, &self.keys, place, n, k) else {
            return Ok(false);
        };
        let Some(home) = node_near(&self.nodes, home_at(&self.places, at), n) else {
            return Ok(false);
        };
        self.transmit_from(n, k, at, home, most)
    }

    /// Whether the end at the index `at` is known to have no frame due. If no frame was `sent` yet, the answer is
    /// `false` without a check. If the answer is `true`, the new deadline of the end is stored.
    #[inline(always)]
    fn is_over(&mut self, at: usize, sent: bool) -> bool
        requires { at < length self.old.links }
        ensures same { self.new ≡ self.old }
        ensures over { result ≡ true → IsOver self.old at }
    {
        if !sent {
            return false;
        }
        let until = self.links[at].deadline();
        if self.clock >= until {
            return false;
        }
        set_deadline(&mut self.deadlines, at, short(until));
        true
    }

    /// Sends the first due frame of an end, if the idle fields of the end (`LinkSlot::steady`) show that it is a HELLO,
    /// as most frames are, and returns whether it did. Otherwise nothing changes.
    #[inline(always)]
    fn transmit_hello(&mut self, _n: Id, _k: Id, at: usize, home: usize) -> bool
        requires end { IsFirst (is_at _n _k) self.old.links at }
        requires node { IsFirst (is_of _n) self.old.nodes home }
        ensures done { result ≡ true → IsDone (world_of self.old) (Transmit _n _k) (world_of self.new) }
        ensures same { result ≡ false → self.new ≡ self.old }
        ensures end { IsFirst (is_at _n _k) self.new.links at }
        ensures node { IsFirst (is_of _n) self.new.nodes home }
    {
        if self.datagrams.reserve(at).is_err() {
            return false;
        }
        data_frames_are_what_was_submitted();
        let Some(header) = self.links[at].send_hello(self.clock) else {
            return false;
        };
        let far_end = far_end_at(&self.places, at);
        note_hello(
            &mut self.nodes[home],
            &mut self.datagrams,
            at,
            far_end,
            &header,
        );
        true
    }

    /// `transmit` for the end at the index `at`. If the idle fields of the end show that a HELLO is due, it is sent
    /// without a look at the other fields of the end.
    #[inline(always)]
    fn transmit_first(&mut self, n: Id, k: Id, at: usize, home: usize) -> Result<(), SimError>
        requires end { IsFirst (is_at n k) self.old.links at }
        requires node { IsFirst (is_of n) self.old.nodes home }
        ensures done { Does self.old (Transmit n k) result self.new }
        ensures end { IsFirst (is_at n k) self.new.links at }
        ensures node { IsFirst (is_of n) self.new.nodes home }
    {
        if self.transmit_hello(n, k, at, home) {
            return Ok(());
        }
        self.transmit_at(n, k, at, home)
    }

    /// `transmit_all` for the end at the index `at`, whose node has the index `home`.
    #[inline(always)]
    fn transmit_from(
        &mut self,
        n: Id,
        k: Id,
        at: usize,
        home: usize,
        most: u64,
    ) -> Result<bool, AllocError>
        requires end { IsFirst (is_at n k) self.old.links at }
        requires node { IsFirst (is_of n) self.old.nodes home }
        ensures { Repeats self.old most (Transmit n k) result self.new }
    {
        let mut some = false;
        for _ in 0..most {
            if self.is_over(at, some) {
                return Ok(some);
            }
            match self.transmit_first(n, k, at, home) {
                Ok(()) => some = true,
                Err(SimError::Memory) => return Err(AllocError),
                Err(SimError::NoNode) => return Ok(some),
                Err(SimError::NoDatagram) => return Ok(some),
                Err(SimError::NotPossible) => return Ok(some),
            }
        }
        Ok(some)
    }
}

/// Appends a datagram that a node sent from its link end at the index `end`, unless the send is armed to lose it. A
/// send that was armed is no longer armed. `far_end` is a guess at the index of the receiving end.
#[inline(always)]
pub fn note_sent(
    node: &mut NodeSlot,
    datagrams: &mut Datagrams,
    end: usize,
    far_end: u32,
    frame: &BorrowedFrame<'_>,
)
    requires { HasRoom datagrams.old }
    ensures node { node.new ≡ record node.old { sending = Sending.Goes } }
    ensures datagrams { datagrams.new.items
        ≡ with_datagram (sending_of node.old.sending) datagrams.old.items frame.now }
{
    match node.sending() {
        Sending::Goes => datagrams.push(end, far_end, frame),
        Sending::IsLost => node.arm_sending(Sending::Goes),
        Sending::IsGone => {
            datagrams.push(end, far_end, frame);
            node.arm_sending(Sending::Goes);
        }
    }
}

/// Appends a HELLO with this header, as `note_sent` appends any frame.
#[inline(always)]
pub fn note_hello(
    node: &mut NodeSlot,
    datagrams: &mut Datagrams,
    end: usize,
    far_end: u32,
    header: &Header,
)
    requires room { HasRoom datagrams.old }
    requires valid { IsHeader header.now }
    ensures node { node.new ≡ record node.old { sending = Sending.Goes } }
    ensures datagrams { datagrams.new.items ≡ with_datagram (sending_of node.old.sending) datagrams.old.items
        (frame_of header.now Hello) }
{
    match node.sending() {
        Sending::Goes => datagrams.push_hello(end, far_end, header),
        Sending::IsLost => node.arm_sending(Sending::Goes),
        Sending::IsGone => {
            datagrams.push_hello(end, far_end, header);
            node.arm_sending(Sending::Goes);
        }
    }
}
