//! TORA's control packets and their bytes.
//!
//! A query (QRY) asks for a route. An update (UPD) announces a height. A clear (CLR) erases a reflected reference level
//! after a partition. Numbers are in network byte order. No call of this crate takes memory.
//!
//! ```rust
//! let height = Height::new(0, 0, 0, 1, 3)?;
//! let packet = Packet::Upd(Update::new(4, height)?);
//! let bytes = encode(&packet);
//! assert_eq!(rt; bytes.len(), 32);
//! assert_eq!(rt; decode(&bytes), Ok(packet));
//! ```
#![tactic(auto)]

ghost use Rattle.std.specs.Prelude.{◌≡◌, ◌==◌, Ok, Err, MatchBool};
ghost use Rattle.tora_packet.specs.AnyPacket.{IsPacket, destination_of};
ghost use Rattle.tora_packet.specs.PacketGrammar.{packet_error_number};

mod decoding;
mod encoding;
mod kinds;
mod lengths;
mod limit_values;

pub use decoding::{decode, one_packet_spelling};
pub use encoding::{append, encode};
pub use kinds::{Clear, Query, Update};
pub use lengths::{
    CLEAR_LENGTH, LONGEST_PACKET, QUERY_LENGTH, SHORTEST_PACKET, UPDATE_LENGTH, cut_packet,
    encoded_length, is_packet_length,
};
pub use limit_values::limits_have_their_values;
use std::fmt;
use thiserror::Error;
use tora_height::Id;

/// Why bytes or parts are not a packet.
#[derive(Clone, Copy, Debug, PartialEq, Eq, Hash, Error)]
pub enum PacketError {
    /// There are fewer than 2 bytes, or fewer than the kind has.
    #[error("too few bytes")]
    Short,
    /// There are bytes after the packet.
    #[error("too many bytes")]
    Long,
    /// The version is not 1.
    #[error("the version is not 1")]
    Version,
    /// The kind is not 1 (QRY), 2 (UPD) or 3 (CLR).
    #[error("the kind is not 1, 2 or 3")]
    Kind,
    /// A byte that has to be zero is not zero.
    #[error("a byte that has to be zero is not")]
    Reserved,
    /// The destination is 0; an update's height is out of range, is the destination's own, or has a delta below 1 at
    /// level (0,0,0); or a clear's `tau` or `oid` is out of range.
    #[error("the destination, the height or the level is out of range")]
    Height,
}

impl PacketError {
    /// The number of the error as texts print it: 1 `Short`, 2 `Long`, 3 `Version`, 4 `Kind`, 5 `Reserved`, 6 `Height`.
    pub fn number(self) -> u8
        ensures { result ≡ packet_error_number self }
    {
        match self {
            PacketError::Short => 1,
            PacketError::Long => 2,
            PacketError::Version => 3,
            PacketError::Kind => 4,
            PacketError::Reserved => 5,
            PacketError::Height => 6,
        }
    }
}

/// A control packet (draft-ietf-manet-tora-spec-04, section 3.6; the layouts are this project's choice).
#[derive(Clone, Copy, Debug, PartialEq, Eq, Hash)]
pub enum Packet {
    /// A route request.
    Qry(Query),
    /// The height of the sender.
    Upd(Update),
    /// An order to erase a reflected level.
    Clr(Clear),
}

impl Packet {
    /// The query for a destination.
    ///
    /// # Errors
    /// `Height` if `destination` is 0.
    pub fn qry(destination: Id) -> Result<Packet, PacketError>
        ensures { MatchBool (destination == 0)
            (result ≡ Err PacketError.Height) (result ≡ Ok (Packet.Qry destination)) }
    {
        match Query::new(destination) {
            Ok(query) => Ok(Packet::Qry(query)),
            Err(error) => Err(error),
        }
    }

    /// The destination that the packet is about.
    pub fn destination(&self) -> Id
        ensures value { result ≡ destination_of self.now }
        ensures valid { IsPacket self.now }
    {
        match self {
            Packet::Qry(query) => query.destination(),
            Packet::Upd(update) => update.destination(),
            Packet::Clr(clear) => clear.destination(),
        }
    }
}

/// Writes a packet as `QRY 4`, `UPD 4 (0,0,0,1,3)` or `CLR 4 7,3`: the destination, and the height, or the level's
/// `tau,oid`.
impl fmt::Display for Packet {
    ghost use Rattle.std.specs.Prelude.{Some};
    ghost use Rattle.tora_packet.specs.PacketText.{written_packet};

    ghost output = { λ p. Some (written_packet p) };

    fn fmt<W: fmt::Write>(&self, f: &mut fmt::Formatter<W>) -> fmt::Result {
        match self {
            Packet::Qry(query) => {
                let d = query.destination();
                write!(f, "QRY {d}")
            }
            Packet::Upd(update) => {
                let d = update.destination();
                let height = update.height();
                write!(f, "UPD {d} {height}")
            }
            Packet::Clr(clear) => {
                let d = clear.destination();
                let tau = clear.tau();
                let oid = clear.oid();
                write!(f, "CLR {d} {tau},{oid}")
            }
        }
    }
}

/// The query for destination 1: a placeholder for types that require a default.
impl Default for Packet {
    ghost use Rattle.tora_packet.specs.declared.Packet.TheVariants.{Qry};
    ghost use Rattle.std.specs.Prelude.{◌≡◌};

    ghost is_default = { λ p. p ≡ Qry 1 };

    fn default() -> Packet {
        Packet::Qry(Query::of(1))
    }
}
