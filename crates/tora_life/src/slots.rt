//! The two slots of a life file, in bytes and on a disk.
ghost use Rattle.std.specs.Prelude.{◌≡◌};
ghost use Rattle.tora_life.specs.LifeFile.{slot_bound, slot_of};

use crate::lengths::SLOT_LENGTH;

/// Slot 0, the bytes 0 to 15, and slot 1, the bytes 16 to 31.
#[derive(Clone, Copy, Debug, PartialEq, Eq, Hash)]
pub enum Slot {
    First,
    Second,
}

impl Slot {
    ghost use Rattle.tora_life.specs.Calls.{place_of};

    /// The offset at which the slot begins.
    pub fn place(self) -> usize
        ensures { result ≡ place_of self }
    {
        match self {
            Slot::First => 0,
            Slot::Second => SLOT_LENGTH,
        }
    }
}

/// The bound in a slot: 8 bytes in network byte order, followed by their bitwise complement. It is 0 if the second half
/// is not the complement, or if there are fewer than 16 bytes.
#[tactic(auto, unfolding(crate::specs::LifeFile::slot_bound, crate::specs::LifeFile::number_of))]
pub fn bound_of(slot: &[u8]) -> u64
    ensures { result ≡ slot_bound slot.now }
{
    let Some((bound, rest)) = slot.split_first_chunk::<8>() else {
        return 0;
    };
    let Some((complement, _)) = rest.split_first_chunk::<8>() else {
        return 0;
    };
    let bound = u64::from_be_bytes(*bound);
    if u64::from_be_bytes(*complement) == u64::MAX - bound {
        bound
    } else {
        0
    }
}

/// The bytes of a slot with this bound.
#[tactic(auto, unfolding(crate::specs::LifeFile::slot_of))]
pub fn slot_bytes(bound: u64) -> [u8; 16]
    ensures { result ≡ slot_of bound }
{
    let mut slot = [0u8; 16];
    slot[..8].copy_from_slice(&bound.to_be_bytes());
    slot[8..].copy_from_slice(&(u64::MAX - bound).to_be_bytes());
    slot
}
