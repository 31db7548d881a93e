//! A channel, and its effect on a datagram.
ghost use Rattle.std.specs.Prelude.{◌≡◌, true, Some, None};
ghost use Rattle.tora_script.specs.declared.channel.channel.Place.{Place as AnyPlace};
ghost use Rattle.tora_script.specs.Channel.{generator_at, delay_by, is_among, is_clear, copies_of};

use rand_chacha::ChaCha8Rng;
use rand_core::SeedableRng;
use rand_core::utils::NextWord;
use tora_height::Id;

/// The number of parts in a whole: shares are in millionths.
pub(crate) const PARTS: u32 = 1_000_000;

/// The effect of a channel on datagrams: each is lost or not, arrives after a number of rounds, and may arrive twice.
#[derive(Clone, Copy, Debug, PartialEq, Eq)]
pub struct Channel {
    /// The seed of the random numbers.
    pub seed: u64,
    /// How many of a million datagrams are lost on average; all from 1,000,000 on.
    pub loss: u32,
    /// How many of a million datagrams that are not lost arrive twice on average; all from 1,000,000 on.
    pub repeat: u32,
    /// The least delay in rounds; 0 means the pass in which the datagram was sent.
    pub least: u32,
    /// The greatest delay in rounds; if it is less than `least`, every delay is `least`.
    pub most: u32,
}

/// Identifies a datagram: the round in which it was sent, its sender and receiver, and how many datagrams went that way
/// before it in that round.
#[derive(Clone, Copy, Debug, PartialEq, Eq)]
pub struct Place {
    pub round: u64,
    pub sender: Id,
    pub receiver: Id,
    pub before: u64,
}

/// After how many rounds a datagram arrives, and after how many it arrives again; 0 is the pass in which it was sent.
/// `first` is `None` if it is lost, and `second` is `None` if it does not arrive again.
#[derive(Clone, Copy, Debug, PartialEq, Eq)]
pub struct Copies {
    pub first: Option<u64>,
    pub second: Option<u64>,
}

/// The random generator for a datagram.
#[tactic(auto, unfolding(crate::specs::Channel::generator_at))]
fn generator(seed: u64, place: Place) -> ChaCha8Rng
    ensures { result ≡ generator_at seed place }
{
    let direction = u64::from(place.sender) * 0x1_0000_0000 + u64::from(place.receiver);
    let block = u128::from(place.round) * 1024 + u128::from(place.before);
    let mut words = ChaCha8Rng::seed_from_u64(seed);
    words.set_stream(direction);
    words.set_word_pos(block * 16);
    words
}

/// Whether a random word modulo 1,000,000 is below `share`.
fn is_among(word: u32, share: u32) -> bool
    ensures { result ≡ is_among word share }
{
    word % PARTS < share
}

impl Channel {
    /// The channel over which every datagram arrives exactly once, without delay.
    pub const CLEAR: Channel = Channel {
        seed: 0,
        loss: 0,
        repeat: 0,
        least: 0,
        most: 0,
    };

    /// Whether nothing is lost, late or repeated.
    #[tactic(auto, unfolding(crate::specs::Channel::copies_of))]
    pub fn is_clear(&self) -> bool
        ensures value { result ≡ is_clear self.now }
        ensures copies { result ≡ true → (place : AnyPlace) → copies_of self.now place ≡ record {
          first = Some 0;
          second = None;
        } }
    {
        self.loss == 0 && self.repeat == 0 && self.least == 0 && self.most == 0
    }

    /// The delay in rounds that a random word gives.
    fn delay(&self, word: u32) -> u64
        ensures { result ≡ delay_by self.now word }
    {
        let range = u64::from(self.most.saturating_sub(self.least)) + 1;
        u64::from(self.least) + u64::from(word) % range
    }

    /// After how many rounds the datagram with this `Place` arrives. The result depends only on the channel and the
    /// place.
    #[tactic(auto, unfolding(crate::specs::Channel::copies_of))]
    pub fn copies(&self, place: Place) -> Copies
        ensures { result ≡ copies_of self.now place }
    {
        let mut words = generator(self.seed, place);
        let is_lost = is_among(words.next_word(), self.loss);
        let first = self.delay(words.next_word());
        let comes_twice = is_among(words.next_word(), self.repeat);
        let second = self.delay(words.next_word());
        if is_lost {
            return Copies {
                first: None,
                second: None,
            };
        }
        Copies {
            first: Some(first),
            second: if comes_twice { Some(second) } else { None },
        }
    }
}
