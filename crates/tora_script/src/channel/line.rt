//! A line of a channel file.
ghost use Rattle.std.specs.Prelude.{◌≡◌};
ghost use Rattle.tora_script.specs.TableOrder.{key_at, key_of};

use crate::channel::parts::Parts;
use tora_height::Id;

/// A line of a channel file: the parts that the link of two nodes has from a round on, in both directions.
#[derive(Clone, Copy, Debug, PartialEq, Eq)]
pub struct ChannelLine {
    /// The first round, counted from 0, with these parts.
    pub round: u64,
    /// The lower of the two nodes.
    pub low: Id,
    /// The higher of the two nodes.
    pub high: Id,
    pub parts: Parts,
}

/// The sort key of a line: by link, then by round.
pub fn key(low: Id, high: Id, round: u64) -> u128
    ensures { result ≡ key_at low high round }
{
    let link = u128::from(low) * 0x1_0000_0000 + u128::from(high);
    link * 0x1_0000_0000_0000_0000 + u128::from(round)
}

impl ChannelLine {
    /// The sort key of the line.
    pub fn key(&self) -> u128
        ensures { result ≡ key_of self.now }
    {
        key(self.low, self.high, self.round)
    }
}
