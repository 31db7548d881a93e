//! Why a link end can't be made, or why a call of a `GrowingEnd` fails.
use std::fmt;
use thiserror::Error;

/// Why a link end can't be made, or why a call of a `GrowingEnd` fails.
#[derive(Clone, Copy, Debug, PartialEq, Eq, Hash, Error)]
pub enum ArqError {
    /// There is not enough memory for the queues of the link end.
    Memory,
}

/// The cause in words.
impl fmt::Display for ArqError {
    ghost use Rattle.std.specs.Prelude.{Some, codes};

    ghost output = { λ _. Some (codes "out of memory") };

    fn fmt<W: fmt::Write>(&self, f: &mut fmt::Formatter<W>) -> fmt::Result {
        match self {
            ArqError::Memory => f.write_str("out of memory"),
        }
    }
}
