//! A session of a link.
ghost use Rattle.std.specs.Prelude.{◌≡◌};
ghost use Rattle.tora_arq.specs.Lives.{is_same_life, reversed};

use std::fmt;

/// A session of a link, named by two numbers, one of each end, from 1 to 2^62.
///
/// The other end writes the same session with the two numbers exchanged.
#[derive(Clone, Copy, Debug, PartialEq, Eq, Hash)]
pub struct Life {
    /// The number of this end.
    pub own: u64,
    /// The number of the other end.
    pub peer: u64,
}

impl Life {
    /// The session as the other end writes it.
    pub fn reversed(self) -> Life
        ensures { result ≡ reversed self }
    {
        Life {
            own: self.peer,
            peer: self.own,
        }
    }

    /// Whether `other` is the same session: both have the same `own` and the same `peer`.
    pub(crate) fn is_same(self, other: Life) -> bool
        ensures { result ≡ is_same_life other self }
    {
        self.own == other.own && self.peer == other.peer
    }
}

/// A session as `OWN/PEER`.
impl fmt::Display for Life {
    ghost use Rattle.std.specs.Prelude.{Some};
    ghost use Rattle.tora_arq.specs.Texts.{written_life};

    ghost output = { λ life. Some (written_life life) };

    fn fmt<W: fmt::Write>(&self, f: &mut fmt::Formatter<W>) -> fmt::Result {
        let own = self.own;
        let peer = self.peer;
        write!(f, "{own}/{peer}")
    }
}
