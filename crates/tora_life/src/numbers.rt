//! The numbers of an open life file.
ghost use Rattle.std.specs.Prelude.{◌≡◌, ◌+◌, ◌<◌, ◌≤◌};

use crate::lengths::SLOT_LENGTH;
use crate::slots::{Slot, bound_of};
use thiserror::Error;

/// Why a life file did not open, or did not draw a number.
#[derive(Clone, Copy, Debug, PartialEq, Eq, Hash, Error)]
pub enum LifeError {
    /// A call of the disk failed. After a draw with this error, the file draws no number until it is opened again.
    #[error("the disk failed")]
    Disk,
    /// An earlier draw returned `Disk`. Nothing changes.
    #[error("an earlier draw failed: the file is to be opened again")]
    Failed,
    /// All numbers up to the file's value are drawn, and 16 more would exceed 2^62. Nothing changes.
    #[error("no number is left")]
    Spent,
    /// The file is longer than the 64 bytes of its two slots and its tag, or has a tag of another kind. Nothing was
    /// written.
    #[error("the file is no life file")]
    Damaged,
    /// The file has the tag of another node or of another peer. Nothing was written.
    #[error("the file is of another node or peer")]
    Foreign,
}

impl LifeError {
    ghost use Rattle.tora_life.specs.Errors.{life_error_number};

    /// The number of the error: 1 `Disk`, 2 `Failed`, 3 `Spent`, 4 `Damaged`, 5 `Foreign`.
    pub fn number(self) -> u8
        ensures { result ≡ life_error_number self }
    {
        match self {
            LifeError::Disk => 1,
            LifeError::Failed => 2,
            LifeError::Spent => 3,
            LifeError::Damaged => 4,
            LifeError::Foreign => 5,
        }
    }
}

/// The greatest number that may be drawn, 2^62.
pub const LAST_NUMBER: u64 = 1 << 62;

/// How many numbers a write reserves.
pub const RESERVED: u64 = 16;

/// The numbers of an open life file: the bounds in its two slots, the last number drawn (the file's value if none was
/// drawn since it was opened), and whether a draw has returned `Disk`.
#[derive(Clone, Copy, Debug)]
pub struct Numbers {
    pub first: u64,
    pub second: u64,
    pub drawn: u64,
    pub failed: bool,
}

impl Numbers {
    ghost use Rattle.std.specs.Prelude.{◌≡◌, ◌+◌, ◌<◌, ◌≤◌};
    ghost use Rattle.tora_life.specs.Numbers.{value_of, lesser_slot, reserved, numbers_of};

    /// The numbers of a file with these bytes.
    pub fn read(bytes: &[u8]) -> Numbers
        ensures { result ≡ numbers_of bytes.now }
    {
        let (front, back) = bytes.split_at(bytes.len().min(SLOT_LENGTH));
        let first = bound_of(front);
        let second = bound_of(&back[..back.len().min(SLOT_LENGTH)]);
        Numbers {
            first,
            second,
            drawn: first.max(second),
            failed: false,
        }
    }

    /// The value of the file: the greater of the two bounds.
    pub fn value(self) -> u64
        ensures { result ≡ value_of self }
    {
        self.first.max(self.second)
    }

    /// The slot with the smaller bound; the first one at a tie.
    pub fn lesser(self) -> Slot
        ensures { result ≡ lesser_slot self }
    {
        if self.first <= self.second {
            Slot::First
        } else {
            Slot::Second
        }
    }

    /// The numbers after sixteen more are reserved: the lesser slot has the bound `value` + 16, which must be at most
    /// 2^62. The last number drawn stays.
    pub fn with_more(self) -> Numbers
        requires { value_of self + RESERVED ≤ LAST_NUMBER }
        ensures { result ≡ reserved self }
    {
        let bound = self.value() + RESERVED;
        match self.lesser() {
            Slot::First => Numbers {
                first: bound,
                ..self
            },
            Slot::Second => Numbers {
                second: bound,
                ..self
            },
        }
    }
}
