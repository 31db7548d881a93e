//! Delivery of datagrams.
ghost use Rattle.tora_sim.specs.Steps.{Repeats, Does, IsDone};
ghost use Rattle.tora_world.specs.declared.event.Event.TheVariants.{Deliver};
ghost use Rattle.std.specs.Prelude.{◌≡◌, true, false, Some, IfSome};
ghost use Rattle.tora_frame.specs.FrameParts.{IsHeader, frame_of};
ghost use Rattle.tora_frame.specs.declared.parts.Body.TheVariants.{Hello};
ghost use Rattle.tora_sim.specs.Store.{numbered, world_of};

use crate::SimError;
use crate::deadlines::{set_deadline, short};
use crate::end_keys::place_near;
use crate::nodes::node_near;
use crate::places::home_at;
use crate::sim::Sim;
use crate::store::Datagrams;
use std::alloc::AllocError;
use tora_frame::{BorrowedFrame, Header};

impl Sim {
    /// Delivers the datagram with the number `i`, counted from 1, unless the receive is armed to fail, and stores the
    /// new deadline of the receiving end.
    ///
    /// # Errors
    /// In this order: `NoDatagram` if there is no such datagram; `Memory`. Nothing changes then.
    #[inline(always)]
    pub(crate) fn deliver(&mut self, i: u64) -> Result<(), SimError>
        ensures { Does self.old (Deliver i) result self.new }
    {
        if self.deliver_hello(i) {
            return Ok(());
        }
        self.deliver_frame(i)
    }

    /// Delivers a datagram if it is a HELLO and the receive isn't armed, and returns whether it did. Otherwise nothing
    /// changes.
    #[inline(always)]
    fn deliver_hello(&mut self, i: u64) -> bool
        ensures done { result ≡ true → IsDone (world_of self.old) (Deliver i) (world_of self.new) }
        ensures same { result ≡ false → self.new ≡ self.old }
    {
        let Some((header, guess)) = numbered_hello(&self.datagrams, i) else {
            return false;
        };
        let Some(home) = node_near(&self.nodes, home_at(&self.places, guess), header.receiver)
        else {
            return false;
        };
        if self.nodes[home].receive() {
            return false;
        }
        let Some(at) = place_near(
            &self.links,
            &self.keys,
            guess,
            header.receiver,
            header.sender,
        ) else {
            return false;
        };
        let Some(until) = self.links[at].receive_hello_and_look(&header, self.clock) else {
            return false;
        };
        set_deadline(&mut self.deadlines, at, short(until));
        true
    }

    /// Delivers a datagram of any kind, as `deliver` does.
    #[inline(never)]
    fn deliver_frame(&mut self, i: u64) -> Result<(), SimError>
        ensures { Does self.old (Deliver i) result self.new }
    {
        let far_end = numbered_far_end(&self.datagrams, i);
        let Some(frame) = numbered(&self.datagrams, i) else {
            return Err(SimError::NoDatagram);
        };
        let header = frame.header();
        let Some(home) = node_near(&self.nodes, home_at(&self.places, far_end), header.receiver)
        else {
            return Err(SimError::NoDatagram);
        };
        if self.nodes[home].receive() {
            self.nodes[home].arm_receive(false);
            return Ok(());
        }
        let Some(at) = place_near(
            &self.links,
            &self.keys,
            far_end,
            header.receiver,
            header.sender,
        ) else {
            return Err(SimError::NoDatagram);
        };
        let Some(until) = self.links[at].receive_and_look(&frame, self.clock) else {
            return Err(SimError::Memory);
        };
        set_deadline(&mut self.deadlines, at, short(until));
        Ok(())
    }

    /// Delivers the datagram with the number `i`, counted from 1, `most` times. Returns `false` if there is no such
    /// datagram or `most` is 0.
    ///
    /// # Errors
    /// Memory ran out at the end that handles the frame. The earlier deliveries have happened.
    #[inline(always)]
    pub fn deliver_all(&mut self, i: u64, most: u64) -> Result<bool, AllocError>
        ensures { Repeats self.old most (Deliver i) result self.new }
    {
        let mut some = false;
        for _ in 0..most {
            match self.deliver(i) {
                Ok(()) => some = true,
                Err(SimError::Memory) => return Err(AllocError),
                Err(SimError::NoNode) => return Ok(some),
                Err(SimError::NoDatagram) => return Ok(some),
                Err(SimError::NotPossible) => return Ok(some),
            }
        }
        Ok(some)
    }
}

/// The datagram with this number, counted from 1; `None` if there is no such datagram.
#[inline(always)]
pub fn numbered(datagrams: &Datagrams, i: u64) -> Option<BorrowedFrame<'_>>
    ensures { result ≡ numbered i datagrams.now.items }
{
    let place = usize::try_from(i).ok()?.checked_sub(1)?;
    datagrams.get(place)
}

/// The header of a HELLO, given by its number from 1, and a guess at the index of the link end that receives it. `None`
/// if there is no such datagram, or it is not a HELLO.
#[inline(always)]
fn numbered_hello(datagrams: &Datagrams, i: u64) -> Option<(Header, usize)>
    ensures hello { IfSome result (λ told. numbered i datagrams.now.items ≡ Some (frame_of told.0 Hello)) }
    ensures valid { IfSome result (λ told. IsHeader told.0) }
{
    let number = usize::try_from(i).ok()?;
    let (header, far_end) = datagrams.hello(number.checked_sub(1)?)?;
    Some((header, far_end as usize))
}

/// A guess at the index of the link end that receives a datagram, given by its number from 1; 0 if there is no such
/// datagram.
#[inline(always)]
fn numbered_far_end(datagrams: &Datagrams, i: u64) -> usize {
    match usize::try_from(i) {
        Ok(number) => datagrams.far_end(number.saturating_sub(1)),
        Err(_) => 0,
    }
}
