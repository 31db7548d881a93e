//! Heights of TORA, and their order.
//!
//! A height is a quintuple (tau, oid, r, delta, id). Its first three parts are its reference level. TORA directs each
//! link from the higher of two heights to the lower one. No call of this crate takes memory.
//!
//! ```rust
//! let own = Height::new(0, 0, 0, 2, 2)?;
//! let neighbour = Height::new(0, 0, 0, 1, 3)?;
//! assert!(rt; neighbour < own);
//! assert_eq!(rt; status(Some(own), Some(neighbour)), Direction::Down);
//! assert_eq!(rt; own.level(), neighbour.level());
//! ```
#![tactic(auto)]

ghost use Rattle.std.specs.Prelude.{◌≡◌, ◌↔◌, ◌<◌, ◌^◌, None};
ghost use Rattle.std.specs.Cmp.{IsTotalOrder};
ghost use Rattle.std.specs.declared.cmp.Ordering.TheVariants.{Less, Equal};
ghost use Rattle.tora_height.specs.Height.{Quintuple, IsHeight, height_fault};
ghost use Rattle.tora_height.specs.HeightOrder.{IsLower, IsLowerLevel, level_cmp, height_cmp, link_status};
ghost use Rattle.tora_height.specs.declared.level.Level.{Level as AnyLevel};

mod direction;
mod height;
mod height_error;
mod level;

pub use direction::Direction;
pub use height::Height;
pub use height_error::HeightError;
pub use level::Level;
use std::cmp::Ordering;

/// The number of a node, from 1 to 2^32 - 1.
pub type Id = u32;

/// The greatest time tag of a height: 2^62 ticks of 100 ms.
pub const GREATEST_TAU: u64 = 0x4000_0000_0000_0000;

/// The greatest delta, 2^30; the least is its negative.
pub const GREATEST_DELTA: i32 = 0x4000_0000;

/// A height as a node knows it; `None` is NULL, the absent height.
pub type Entry = Option<Height>;

/// The direction of the link to a neighbour, from the own height and the neighbour's
/// (draft-ietf-manet-tora-spec-04, section 3.3).
///
/// `Undirected` if the entry is NULL or the heights are equal; `Down` if the entry is lower, or if only the own height
/// is NULL; `Up` if the entry is higher.
pub fn status(own: Entry, entry: Entry) -> Direction
    ensures { result ≡ link_status own entry }
{
    match (own, entry) {
        (_, None) => Direction::Undirected,
        (None, Some(_)) => Direction::Down,
        (Some(own), Some(entry)) => match entry.height_cmp(&own) {
            Ordering::Less => Direction::Down,
            Ordering::Equal => Direction::Undirected,
            Ordering::Greater => Direction::Up,
        },
    }
}

/// Heights and reference levels are totally ordered, part by part, and two that compare as equal are equal.
pub fn heights_are_totally_ordered()
    ensures total { IsTotalOrder height_cmp }
    ensures lower { (a b : Quintuple) → (height_cmp a b ≡ Less) ↔ IsLower a b }
    ensures same { (a b : Quintuple) → height_cmp a b ≡ Equal → a ≡ b }
    ensures level_total { IsTotalOrder level_cmp }
    ensures level_lower { (a b : AnyLevel) → (level_cmp a b ≡ Less) ↔ IsLowerLevel a b }
    ensures level_same { (a b : AnyLevel) → level_cmp a b ≡ Equal → a ≡ b }
{}

/// `Height::new` refuses five parts exactly if they are not a height: a part is out of range, exactly one of `tau` and
/// `oid` is 0, or `delta` is negative at level (0,0,0).
pub fn ranges_are_tested()
    ensures accepted { (h : Quintuple) → IsHeight h → height_fault h ≡ None }
    ensures refused { (h : Quintuple) → h.oid < 2 ^ 32 → h.id < 2 ^ 32 → height_fault h ≡ None → IsHeight h }
{}
