//! A height as C reads it.
ghost use Rattle.std.specs.Prelude.{◌≡◌};
ghost use Rattle.tora_c.specs.Readers.{entry_code, parts_after, parts_of};

use crate::codes::{ABSENT, OK, UNKNOWN};
use tora_height::{Entry, Height};

/// The five parts of a height, as `tora_height` of the header.
#[derive(Clone, Copy, Debug)]
#[repr(C)]
pub struct HeightParts {
    /// When the reference level was defined, in ticks of 100 ms; 0 for the level of the destination.
    pub tau: u64,
    /// The node that defined the reference level; 0 exactly if `tau` is 0.
    pub oid: u32,
    /// 0 for an original level, 1 for a reflected one.
    pub r: u32,
    /// The order within the level.
    pub delta: i32,
    /// The node whose height it is.
    pub id: u32,
}

/// The five parts of a height.
fn parts_of(height: &Height) -> HeightParts
    ensures { result ≡ parts_of height.now }
{
    HeightParts {
        tau: height.tau(),
        oid: height.oid(),
        r: u32::from(height.r()),
        delta: height.delta(),
        id: height.id(),
    }
}

/// Writes a height and returns `OK`. `UNKNOWN` for `None`, and `ABSENT` for the height NULL; then nothing is written.
pub fn write_entry(entry: Option<Entry>, out: &mut HeightParts) -> u32
    ensures code { result ≡ entry_code entry }
    ensures parts { out.new ≡ parts_after entry out.old }
{
    match entry {
        None => UNKNOWN,
        Some(None) => ABSENT,
        Some(Some(height)) => {
            *out = parts_of(&height);
            OK
        }
    }
}
