//! Laws about the definitions of the lanes (queues).
ghost use Rattle.tora_lane.specs.Offering.{OffersAreSent};

/// After a sequence of offers, each queue to a neighbour has sent what it had sent before, followed by the outbound
/// messages that were put for its neighbour, in order, and nothing else.
pub fn what_was_offered_was_sent()
    ensures { OffersAreSent }
{}
