//! Why a session ended.
ghost use Rattle.std.specs.Prelude.{◌≡◌};
ghost use Rattle.tora_arq.specs.Lives.{reason_number};

use std::fmt;

/// Why a session ended.
#[derive(Clone, Copy, Debug, PartialEq, Eq, Hash)]
pub enum Reason {
    /// No frame of the peer came for `silent` ticks, or a packet was not acknowledged `retry` ticks after its last try.
    Silent,
    /// A frame of the peer came with a greater session number: the peer began a newer session.
    NewPeer,
    /// A packet was submitted while `QUEUE_PLACES` (256) packets were not acknowledged.
    Full,
    /// The node called `cut`.
    Cut,
    /// A packet was submitted after 2^62 packets in the session.
    Spent,
}

/// A reason in lowercase words.
impl fmt::Display for Reason {
    ghost use Rattle.std.specs.Prelude.{Some};
    ghost use Rattle.tora_arq.specs.Texts.{written_reason};

    ghost output = { λ r. Some (written_reason r) };

    fn fmt<W: fmt::Write>(&self, f: &mut fmt::Formatter<W>) -> fmt::Result {
        match self {
            Reason::Silent => f.write_str("silent"),
            Reason::NewPeer => f.write_str("new peer"),
            Reason::Full => f.write_str("full"),
            Reason::Cut => f.write_str("cut"),
            Reason::Spent => f.write_str("spent"),
        }
    }
}

impl Reason {
    /// The number of the reason as texts print it: 1 `Silent`, 2 `NewPeer`, 3 `Full`, 4 `Cut`, 5 `Spent`.
    pub fn number(self) -> u8
        ensures { result ≡ reason_number self }
    {
        match self {
            Reason::Silent => 1,
            Reason::NewPeer => 2,
            Reason::Full => 3,
            Reason::Cut => 4,
            Reason::Spent => 5,
        }
    }
}
