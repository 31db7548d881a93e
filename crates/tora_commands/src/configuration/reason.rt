//! Why a value is refused.
use std::fmt;
use std::fmt::{Display, Formatter};

/// Why the value of a key is refused.
#[derive(Clone, Copy, Debug, PartialEq, Eq, Hash)]
pub enum Reason {
    /// The key is missing, or `link` is an empty list.
    Missing,
    /// The value is not a whole number; at `local` and `remote`, it is not the text of an address with a port above 0
    /// either.
    NoNumber,
    /// The value is a whole number, but not from 1 to 2^32 - 1.
    NoId,
    /// The value is a whole number, but not from 1 to 65535.
    NoPort,
    /// The value is not a text.
    NoText,
    /// The text is neither `plain` nor `remembered`.
    NoErasure,
    /// The value is not a list.
    NoList,
    /// The value is not a table.
    NoTable,
    /// An earlier destination, or this key of an earlier link, has the same value.
    Repeated,
    /// The peer of a link is the node itself.
    OwnId,
    /// `key_file` is missing, and an address of the link is not on the loopback.
    Unkeyed,
}

impl Reason {
    ghost use Rattle.std.specs.Prelude.{◌≡◌};
    ghost use Rattle.tora_commands.specs.ConfigReasonText.{reason_text};

    /// The text of this reason.
    fn words(self) -> &'static str
        ensures { result.now ≡ reason_text self }
    {
        match self {
            Reason::Missing => "is missing",
            Reason::NoNumber => "is no whole number",
            Reason::NoId => "is not from 1 to 4294967295",
            Reason::NoPort => "is not from 1 to 65535",
            Reason::NoText => "is no text",
            Reason::NoErasure => "is neither `plain` nor `remembered`",
            Reason::NoList => "is no list",
            Reason::NoTable => "is no table",
            Reason::Repeated => "is repeated",
            Reason::OwnId => "is the node itself",
            Reason::Unkeyed => "is missing, and the link leaves the loopback",
        }
    }
}

impl Display for Reason {
    ghost use Rattle.std.specs.Prelude.{Some};
    ghost use Rattle.tora_commands.specs.ConfigReasonText.{reason_text};

    ghost output = { λ reason. Some (reason_text reason) };

    fn fmt<W: fmt::Write>(&self, f: &mut Formatter<W>) -> fmt::Result {
        f.write_str(self.words())
    }
}
