//! The queue to a neighbour's thread.
ghost use Rattle.std.specs.Prelude.{◌≡◌, ◌+◌, ◌<◌, ◌≤◌, ◌++◌, ◌∷◌, [], List, length, IsOk, IsErr, OnOk, IfOk};
ghost use Rattle.std.specs.Prelude.{IfErr, IfSome, IfNone};
ghost use Rattle.tora_lane.specs.Out.{AreEndsOf, with_sent};
ghost use Rattle.tora_seat.specs.declared.cargo.Cargo.{Cargo};
ghost use mathlib.Core.List.{IsPrefix};

use crate::limits::{MOST_IN_ALL, OUT_LANE_ROOM};
use rtrb::{Consumer, Producer, PushError, RingBuffer};
use std::alloc::{AllocError, Global};
use std::marker::Model;
use tora_seat::Cargo;

/// The core's end of the queue to a neighbour. Contracts see all that it has sent, oldest first.
#[derive(Drop)]
pub struct OutPut {
    producer: Producer<Cargo>,
    count: u64,
}

impl Model for OutPut {
    ghost use Rattle.std.specs.Prelude.{◌≡◌, ◌+◌, ◌≤◌, length};
    ghost use Rattle.rtrb.specs.Ring.{sent, known_free};
    ghost use Rattle.tora_lane.specs.declared.limits.TheConstants.{MOST_IN_ALL, OUT_LANE_ROOM};
    ghost use Rattle.tora_lane.specs.Out.{SendEnd, send_end};

    ghost Value = { SendEnd };

    ghost view = { λ o. send_end o.producer };

    ghost invariant = { λ o. (OUT_LANE_ROOM ≤ known_free o.producer + length (sent o.producer))
        × (o.count ≡ length (sent o.producer)) × (o.count ≤ MOST_IN_ALL) };
}

/// The neighbour's end of the queue from the core. Contracts see all that it has received, oldest first, and the
/// messages after these that it has already seen in the queue.
#[derive(Drop)]
pub struct OutTake {
    consumer: Consumer<Cargo>,
}

impl Model for OutTake {
    ghost use Rattle.tora_lane.specs.Out.{ReceiveEnd, receive_end};

    ghost Value = { ReceiveEnd };

    ghost view = { λ o. receive_end o.consumer };
}

/// How many outbound messages went through a queue to a neighbour, and how many are left in it.
#[derive(Clone, Copy, Debug, PartialEq, Eq, Hash)]
pub struct OutEnd {
    /// How many outbound messages were sent.
    pub sent: u64,
    /// How many of them were received.
    pub received: u64,
    /// How many of them are left in the queue.
    pub waiting: u64,
}

// Makes an empty queue to a neighbour: the core's end and the neighbour's end.
pub(crate) fn out_lane(alloc: Global) -> Result<(OutPut, OutTake), AllocError>
    ensures { IfOk result (λ r. AreEndsOf r.0 r.1 × (r.0.sent ≡ []) × (r.1.received ≡ []) × (r.1.found ≡ [])) }
{
    let (producer, consumer) = RingBuffer::new(alloc, OUT_LANE_ROOM)?;
    let put = OutPut { producer, count: 0 };
    Ok((put, OutTake { consumer }))
}

impl OutPut {
    /// Puts an outbound message at the back of the queue. It never waits, and takes no memory.
    ///
    /// # Errors
    ///
    /// The message is returned, and nothing changes, if this end sees no free slot in the queue, or once `MOST_IN_ALL`
    /// messages were sent. The first `OUT_LANE_ROOM` messages are never returned.
    pub fn send(&mut self, cargo: Cargo) -> Result<(), Cargo>
        ensures put { OnOk result (self.new ≡ with_sent self.old cargo) }
        ensures back { IfErr result (λ c. (c ≡ cargo) × (self.new ≡ self.old)) }
        ensures room { length self.old.sent < OUT_LANE_ROOM → IsOk result }
        ensures spent { MOST_IN_ALL ≤ length self.old.sent → IsErr result }
    {
        if self.count >= MOST_IN_ALL {
            return Err(cargo);
        }
        match self.producer.push(cargo) {
            Ok(()) => {
                self.count += 1;
                Ok(())
            }
            Err(PushError::Full(back)) => Err(back),
        }
    }
}

impl OutTake {
    /// Takes the oldest outbound message, or returns `None` if it sees none. It never waits, and takes no memory.
    ///
    /// It looks into the queue only after it has taken all messages that it saw before, and then sees all that are
    /// visible to this thread. No clause says when a message that another thread has sent becomes visible.
    pub fn take(&mut self) -> Option<Cargo>
        ensures lane { self.new.ring ≡ self.old.ring }
        ensures taken { IfSome result (λ c. self.new.received ≡ self.old.received ++ c ∷ []) }
        ensures found { IfSome result (λ c. IsPrefix self.old.found (c ∷ self.new.found)) }
        ensures none { IfNone result ((self.new.received ≡ self.old.received) × (self.old.found ≡ [])
            × (self.new.found ≡ [])) }
    {
        match self.consumer.pop() {
            Ok(cargo) => Some(cargo),
            Err(_) => None,
        }
    }
}

/// Closes a queue to a neighbour after the threads of its two ends, `put` and `take`, have ended. Returns the counts of
/// its outbound messages. The messages received, followed by those left in the queue, are all that were sent. Messages
/// that were seen but not received are the first ones left.
pub fn settle_out(put: OutPut, take: OutTake) -> OutEnd
    requires { AreEndsOf put take }
    ensures { (waiting : List Cargo) × (take.received ++ waiting ≡ put.sent) × IsPrefix take.found waiting
        × (result.sent ≡ length put.sent) × (result.received ≡ length take.received)
        × (result.waiting ≡ length waiting) }
{
    let OutPut {
        mut producer,
        count,
    } = put;
    let OutTake { mut consumer } = take;
    let waiting = consumer.slots_beside(&mut producer) as u64;
    OutEnd {
        sent: count,
        received: count - waiting,
        waiting,
    }
}
