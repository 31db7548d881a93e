//! Why a core is refused, and whether a packet may come from a neighbour.
ghost use Rattle.std.specs.Prelude.{◌≡◌, ◌≤◌, IfNone, length};
ghost use Rattle.tora_core.specs.CoreRun.{core_refusal_within, is_from};
ghost use Rattle.tora_core.specs.Limits.{most_destinations, most_neighbours};
ghost use Rattle.tora_packet.specs.AnyPacket.{IsPacket};

use crate::errors::CoreError;
use crate::numbers::{has_number, has_repeat};
use crate::{CoreLimits, GREATEST_NEIGHBOURS, MOST_DESTINATIONS};
use tora_height::Id;
use tora_packet::Packet;

/// Why a core with these neighbours and destinations cannot be made within the limits, apart from lack of memory;
/// `None` if it can. In this order: `TooMany`, `Repeated`, `OwnId`.
pub fn core_refusal(
    limits: CoreLimits,
    me: Id,
    neighbours: &[Id],
    destinations: &[Id],
) -> Option<CoreError>
    ensures value { result ≡ core_refusal_within (most_neighbours limits) (most_destinations limits) me neighbours.now
        destinations.now }
    ensures few_neighbours { IfNone result (length neighbours.now ≤ GREATEST_NEIGHBOURS) }
    ensures few_destinations { IfNone result (length destinations.now ≤ MOST_DESTINATIONS) }
{
    if neighbours.len() > limits.most_neighbours()
        || destinations.len() > limits.most_destinations()
    {
        return Some(CoreError::TooMany);
    }
    if has_repeat(neighbours) || has_repeat(destinations) {
        return Some(CoreError::Repeated);
    }
    if has_number(me, neighbours) {
        return Some(CoreError::OwnId);
    }
    None
}

/// Whether neighbour `k` may send this packet: `false` only for an update with the height of another node.
pub fn is_from(k: Id, packet: &Packet) -> bool
    ensures value { result ≡ is_from k packet.now }
    ensures valid { IsPacket packet.now }
{
    let _destination = packet.destination();
    match packet {
        Packet::Qry(_) => true,
        Packet::Upd(update) => update.height().id() == k,
        Packet::Clr(_) => true,
    }
}
