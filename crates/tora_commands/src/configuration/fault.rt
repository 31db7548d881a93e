//! Why a text is not a configuration.
use crate::configuration::reason::Reason;
use std::alloc::{AllocError, AllocFailed};
use std::fmt;
use std::fmt::{Display, Formatter};
use thiserror::Error;
use tora_core::CoreError;

/// A key of a configuration. Links and destinations are counted from 1, in the order of the text.
#[derive(Clone, Copy, Debug, PartialEq, Eq, Hash)]
pub enum Place {
    /// The key `node`.
    Node,
    /// The key `dests`.
    Dests,
    /// The destination with this number.
    Dest(usize),
    /// The key `life_dir`.
    LifeDir,
    /// The key `erasure`.
    Erasure,
    /// The key `link`.
    Links,
    /// The link with this number.
    Link(usize),
    /// `peer` of the link with this number.
    Peer(usize),
    /// `local` of the link with this number.
    Local(usize),
    /// `remote` of the link with this number.
    Remote(usize),
    /// `key_file` of the link with this number.
    KeyFile(usize),
}

impl Place {
    ghost use Rattle.std.specs.Prelude.{◌≡◌, ◌++◌};
    ghost use Rattle.tora_commands.specs.ConfigFaultText.{place_text, number_text};

    /// The name of this key and, for a link or a destination, its number.
    fn words(self) -> (&'static str, Option<usize>)
        ensures { place_text self ≡ result.0.now ++ number_text result.1 }
    {
        match self {
            Place::Node => ("`node`", None),
            Place::Dests => ("`dests`", None),
            Place::Dest(n) => ("`dests`, number ", Some(n)),
            Place::LifeDir => ("`life_dir`", None),
            Place::Erasure => ("`erasure`", None),
            Place::Links => ("`link`", None),
            Place::Link(n) => ("`link`, number ", Some(n)),
            Place::Peer(n) => ("`peer` of link ", Some(n)),
            Place::Local(n) => ("`local` of link ", Some(n)),
            Place::Remote(n) => ("`remote` of link ", Some(n)),
            Place::KeyFile(n) => ("`key_file` of link ", Some(n)),
        }
    }
}

impl Display for Place {
    ghost use Rattle.std.specs.Prelude.{Some};
    ghost use Rattle.tora_commands.specs.ConfigFaultText.{place_text};

    ghost output = { λ place. Some (place_text place) };

    fn fmt<W: fmt::Write>(&self, f: &mut Formatter<W>) -> fmt::Result {
        match self.words() {
            (words, None) => f.write_str(words),
            (words, Some(n)) => write!(f, "{words}{n}"),
        }
    }
}

/// Why a text is not a configuration.
#[derive(Debug, Drop, Error)]
pub enum ConfigError {
    /// Memory ran out.
    #[error("out of memory")]
    Memory,
    /// The text is not TOML.
    #[error("the configuration is no TOML: {0}")]
    Syntax(toml::de::Error),
    /// The table of the configuration has this key, which is unknown.
    #[error("`{0}` is no key of a configuration")]
    UnknownKey(String),
    /// The link with this number, from 1 on, has this key, which is unknown.
    #[error("`{1}` of link {0} is no key of a link")]
    UnknownLinkKey(usize, String),
    /// A key is missing, or its value is refused.
    #[error("{0} {1}")]
    Value(Place, Reason),
    /// The core refuses these links or destinations, for this cause. `read_config` returns it only with `TooMany`.
    #[error("there is no such node: {0}")]
    Core(CoreError),
}

impl From<AllocError> for ConfigError {
    ghost use Rattle.std.specs.Prelude.{◌≡◌};
    ghost use Rattle.tora_commands.specs.declared.configuration.fault.ConfigError.TheVariants.{Memory};

    ghost from_gives = { λ _ e. e ≡ Memory };

    fn from(_error: AllocError) -> ConfigError {
        ConfigError::Memory
    }
}

impl<T: Drop> From<AllocFailed<T>> for ConfigError {
    ghost use Rattle.std.specs.Prelude.{◌≡◌};
    ghost use Rattle.tora_commands.specs.declared.configuration.fault.ConfigError.TheVariants.{Memory};

    ghost from_gives = { λ _ e. e ≡ Memory };

    fn from(_error: AllocFailed<T>) -> ConfigError {
        ConfigError::Memory
    }
}
