//! The codes that calls return.
ghost use Rattle.std.specs.Prelude.{◌≡◌, ◌<◌};
ghost use Rattle.tora_c.specs.Codes.{core_code, intake_code, packet_code, refused_code, router_code, verdict_code};

use tora_arq::Verdict;
use tora_core::{CoreError, StepError};
use tora_packet::PacketError;
use tora_router::{Intake, RouterError};

/// The call succeeded.
pub const OK: u32 = 0;

/// Memory ran out.
pub const MEMORY: u32 = 1;

/// There are more neighbours or destinations than the greatest limits allow: 255 and 64.
pub const TOO_MANY: u32 = 2;

/// A neighbour or a destination is named twice.
pub const REPEATED: u32 = 3;

/// The node itself is among its neighbours.
pub const OWN_ID: u32 = 4;

/// The handle is null.
pub const NULL: u32 = 5;

/// The number of the node, of a neighbour or of a destination is 0.
pub const ZERO: u32 = 6;

/// The number of a choice of limits or of erasure is unknown.
pub const CHOICE: u32 = 7;

/// There is nothing to return: the height is NULL, there is no next hop, no packet has this index, no datagram is due,
/// or no change is left to poll.
pub const ABSENT: u32 = 8;

/// The buffer is too short. The length that is needed was written.
pub const ROOM: u32 = 9;

/// The table does not have the destination, or the link to the neighbour is not up.
pub const UNKNOWN: u32 = 10;

/// The node is no neighbour.
pub const UNKNOWN_NEIGHBOUR: u32 = 11;

/// The first session number of a router, `first_life`, is 0 or above 2^62.
pub const LIFE: u32 = 16;

/// The code of a refused input is this plus the number of its cause.
pub const REFUSED: u32 = 10;

/// The code of bytes that are not a packet is this plus the number of the error.
pub const NO_PACKET: u32 = 20;

/// The outcome of a datagram that is not a frame is this plus the number of the error.
pub const NO_FRAME: u32 = 10;

/// The outcome of a datagram from a node that is not a neighbour.
pub const NO_NEIGHBOUR: u32 = 30;

/// Why a core is refused, as a code from 1 to 4.
pub fn core_code(error: CoreError) -> u32
    ensures { result ≡ core_code error }
{
    u32::from(error.number())
}

/// Why an input is refused, as a code from 11 to 15.
pub fn refused_code(error: StepError) -> u32
    ensures { result ≡ refused_code error }
{
    REFUSED + u32::from(error.number())
}

/// Why bytes are not a packet, as a code from 21 to 26.
pub fn packet_code(error: PacketError) -> u32
    ensures { result ≡ packet_code error }
{
    NO_PACKET + u32::from(error.number())
}

/// Why a router is refused, as a code. A node with the number 0 and a time of 0 have the same code.
pub fn router_code(error: RouterError) -> u32
    ensures value { result ≡ router_code error }
    ensures above { OK < result }
{
    match error {
        RouterError::Id => ZERO,
        RouterError::Times => ZERO,
        RouterError::Life => LIFE,
        RouterError::TooMany => TOO_MANY,
        RouterError::Repeated => REPEATED,
        RouterError::OwnId => OWN_ID,
        RouterError::Memory => MEMORY,
    }
}

/// The verdict on a frame, as a number from 1 to 6.
fn verdict_code(verdict: Verdict) -> u32
    ensures { result ≡ verdict_code verdict }
{
    match verdict {
        Verdict::Accepted => 1,
        Verdict::Repeated => 2,
        Verdict::Ahead => 3,
        Verdict::Stale => 4,
        Verdict::Foreign => 5,
        Verdict::Busy => 6,
    }
}

/// The outcome of a datagram: 1 to 6 for a verdict, 11 to 20 for bytes that are not a frame, 30 for a node that is not
/// a neighbour.
pub fn intake_code(intake: Intake) -> u32
    ensures { result ≡ intake_code intake }
{
    match intake {
        Intake::NoNeighbour => NO_NEIGHBOUR,
        Intake::Bad(error) => NO_FRAME + u32::from(error.number()),
        Intake::Seen(verdict) => verdict_code(verdict),
    }
}
