//! A stored link end, in the form in which HELLOs are handled fast.
ghost use Rattle.std.specs.Prelude.{◌≡◌, true, false, IfSome, IfNone, Some, is_some};
ghost use Rattle.tora_arq.specs.LinkEnd.{after_frame, after_tick, after_transmit, frame_due};
ghost use Rattle.tora_frame.specs.FrameParts.{IsHeader, frame_of};
ghost use Rattle.tora_frame.specs.declared.parts.Body.{Body};
ghost use Rattle.tora_sim.specs.Links.{with_state};
ghost use Rattle.tora_sim.specs.Quiet.{IsDeadline};
ghost use Rattle.tora_sim.specs.SteadyLinks.{IsKept, is_none, shown};

use crate::links::LinkParts;
use std::marker::Model;
use tora_arq::Steady;
use tora_frame::{BorrowedBody, BorrowedFrame, Header, Packets};

/// One end of a link. An end is idle if it is open, has no event, no outbound message and no unacknowledged packet, and
/// owes only regular HELLOs. The few fields of an idle end that a HELLO reads (its idle fields) may be stored here, and
/// all others are in a box. So the ends are close together in memory, and most HELLOs read one or two cache lines.
#[derive(Drop)]
pub struct LinkSlot {
    /// The idle fields if they are stored here; `is_none` if they are in `parts`, as always for an end that is not
    /// idle.
    pub(crate) steady: Steady,
    pub(crate) parts: Box<LinkParts>,
}

impl Model for LinkSlot {
    ghost use Rattle.tora_sim.specs.Links.{LinkView};
    ghost use Rattle.tora_sim.specs.SteadyLinks.{IsKept, shown};

    ghost Value = { LinkView };

    ghost view = { λ s. shown s.steady s.parts.value };

    ghost invariant = { λ s. IsKept s.steady s.parts.value };
}

/// Writes the idle fields back into the parts, if they are stored; afterwards none are stored.
#[inline(always)]
pub fn wake(steady: &mut Steady, parts: &mut LinkParts)
    requires { IsKept steady.old parts.old }
    ensures parts { parts.new ≡ shown steady.old parts.old }
    ensures none { is_none steady.new ≡ true }
{
    if steady.is_none() {
        return;
    }
    parts.resume(steady);
    steady.own = 0;
}

/// Stores the idle fields, if the end is idle.
#[inline(always)]
pub fn keep(steady: &mut Steady, parts: &mut LinkParts)
    requires { is_none steady.old ≡ true }
    ensures same { parts.new ≡ parts.old }
    ensures shown { shown steady.new parts.old ≡ parts.old }
    ensures kept { IsKept steady.new parts.old }
{
    if let Some(kept) = parts.steady() {
        *steady = kept;
    }
}

/// Whether there is a frame, and it carries packets.
#[inline(always)]
fn has_packets(frame: &Option<BorrowedFrame<'_>>) -> bool {
    match frame {
        Some(frame) => match frame.body() {
            BorrowedBody::Data(..) => true,
            BorrowedBody::Hello => false,
            BorrowedBody::Ack(_) => false,
        },
        None => false,
    }
}

impl LinkSlot {
    /// An end with these parts.
    pub fn new(parts: Box<LinkParts>) -> LinkSlot
        ensures { result ≡ parts.value }
    {
        LinkSlot {
            steady: Steady::none(),
            parts,
        }
    }

    /// Whether a frame is due at the tick `now`.
    pub fn has_frame_due(&self, now: u64) -> bool
        ensures { result ≡ is_some (frame_due self.now.settings self.now.state now) }
    {
        if self.steady.is_none() {
            return self.parts.has_frame_due(now);
        }
        self.steady.has_frame_due(now)
    }

    /// Returns the first frame due at the tick `now`, which counts as sent; `None` if no frame is due. Its packets are
    /// in `packets`, which is overwritten.
    #[inline(always)]
    pub fn send<'a>(&mut self, now: u64, packets: &'a mut Packets) -> Option<BorrowedFrame<'a>>
        ensures frame { result ≡ frame_due self.old.settings self.old.state now }
        ensures state { self.new ≡ with_state self.old (after_transmit self.old.settings self.old.state now) }
    {
        wake(&mut self.steady, &mut *self.parts);
        let frame = self.parts.send(now, packets);
        // an end that sent packets waits for their acknowledgement, so it is not idle
        if !has_packets(&frame) {
            keep(&mut self.steady, &mut *self.parts);
        }
        frame
    }

    /// Sends the HELLO that is due at an end whose idle fields are stored, and returns its header. `None` if none are
    /// stored or no frame is due; nothing changes then.
    #[inline(always)]
    pub fn send_hello(&mut self, now: u64) -> Option<Header>
        ensures frame { IfSome result (λ header. frame_due self.old.settings self.old.state now
            ≡ Some (frame_of header Body.Hello)) }
        ensures state { IfSome result (λ _. self.new ≡ with_state self.old
            (after_transmit self.old.settings self.old.state now)) }
        ensures valid { IfSome result (λ header. IsHeader header) }
        ensures none { IfNone result (self.new ≡ self.old) }
    {
        if self.steady.is_none() {
            return None;
        }
        self.steady.send_hello(now)
    }

    /// Handles a frame, and returns the tick before which the end then has nothing to do; 0 if it has something to do
    /// at once. `None` if memory runs out; nothing changes then.
    #[inline(always)]
    pub fn receive_and_look(&mut self, frame: &BorrowedFrame<'_>, now: u64) -> Option<u64>
        ensures state { IfSome result (λ _. self.new ≡ with_state self.old
            (after_frame self.old.settings self.old.state frame.now now)) }
        ensures idle { IfSome result (λ until. IsDeadline until self.new) }
        ensures none { IfNone result (self.new ≡ self.old) }
    {
        wake(&mut self.steady, &mut *self.parts);
        let until = self.parts.receive_and_look(frame, now)?;
        // An end that has something to do at once is not idle.
        if until > 0 {
            keep(&mut self.steady, &mut *self.parts);
        }
        Some(until)
    }

    /// Handles a HELLO, given by its header, and returns the same as `receive_and_look`.
    #[inline(always)]
    pub fn receive_hello_and_look(&mut self, header: &Header, now: u64) -> Option<u64>
        requires { IsHeader header.now }
        ensures state { IfSome result (λ _. self.new ≡ with_state self.old
            (after_frame self.old.settings self.old.state (frame_of header.now Body.Hello) now)) }
        ensures idle { IfSome result (λ until. IsDeadline until self.new) }
        ensures none { IfNone result (self.new ≡ self.old) }
    {
        if let Some(until) = self.hear(header, now) {
            return Some(until);
        }
        // The header is copied: if its address were passed on, each HELLO would be written to memory first.
        self.receive_first_hello(*header, now)
    }

    /// Handles a HELLO that says nothing new by the idle fields alone, and returns the tick before which the end has
    /// nothing to do. `None` if the end itself must handle the HELLO; nothing changes then.
    #[inline(always)]
    fn hear(&mut self, header: &Header, now: u64) -> Option<u64>
        ensures state { IfSome result (λ _. self.new ≡ with_state self.old
            (after_frame self.old.settings self.old.state (frame_of header.now Body.Hello) now)) }
        ensures idle { IfSome result (λ until. IsDeadline until self.new) }
        ensures none { IfNone result (self.new ≡ self.old) }
    {
        if self.steady.is_none() {
            return None;
        }
        if !self.steady.on_hello(header, now) {
            return None;
        }
        Some(self.steady.deadline())
    }

    /// `receive_hello_and_look` for an end that is not idle, or for a HELLO that says something new.
    #[inline(never)]
    fn receive_first_hello(&mut self, header: Header, now: u64) -> Option<u64>
        requires { IsHeader header }
        ensures state { IfSome result (λ _. self.new ≡ with_state self.old
            (after_frame self.old.settings self.old.state (frame_of header Body.Hello) now)) }
        ensures idle { IfSome result (λ until. IsDeadline until self.new) }
        ensures none { IfNone result (self.new ≡ self.old) }
    {
        wake(&mut self.steady, &mut *self.parts);
        let until = self.parts.receive_hello_and_look(&header, now)?;
        // An end that has something to do at once is not idle.
        if until > 0 {
            keep(&mut self.steady, &mut *self.parts);
        }
        Some(until)
    }

    /// Passes the tick `now` to the end.
    #[inline(always)]
    pub fn tick(&mut self, now: u64)
        ensures { self.new ≡ with_state self.old (after_tick self.old.settings self.old.state now) }
    {
        if self.is_calm(now) {
            return;
        }
        self.tick_parts(now);
    }

    /// Whether the idle fields show that this tick changes nothing.
    #[inline(always)]
    fn is_calm(&self, now: u64) -> bool
        ensures { result ≡ true → after_tick self.now.settings self.now.state now ≡ self.now.state }
    {
        !self.steady.is_none() && self.steady.is_calm(now)
    }

    /// Ticks an end whose idle fields do not show that the tick changes nothing.
    #[inline(never)]
    fn tick_parts(&mut self, now: u64)
        ensures { self.new ≡ with_state self.old (after_tick self.old.settings self.old.state now) }
    {
        wake(&mut self.steady, &mut *self.parts);
        self.parts.tick(now);
    }

    /// The tick before which the end has nothing to do; 0 if it has something to do at once.
    #[inline(always)]
    pub fn deadline(&self) -> u64
        ensures { IsDeadline result self.now }
    {
        if self.steady.is_none() {
            return self.parts.deadline();
        }
        self.steady.deadline()
    }
}
