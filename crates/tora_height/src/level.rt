//! A reference level.
use std::fmt;

/// A reference level: the first three parts of a height (Park and Corson 1997, section 3.1). The level of a `Height` is
/// in the ranges below; the type `Level` checks nothing.
///
/// Levels are ordered by `tau`, then `oid`, then `r`; the derived `Ord` does this.
#[derive(Clone, Copy, Debug, PartialEq, Eq, PartialOrd, Ord, Hash)]
pub struct Level {
    /// The time tag: when the level was defined, in ticks of 100 ms, 0 to 2^62.
    pub tau: u64,
    /// The node that defined the level; 0 exactly if `tau` is 0.
    pub oid: u32,
    /// The reflection bit: 0 for an original level, 1 for a reflected one.
    pub r: u8,
}

/// Writes a reference level as `tau,oid,r`.
impl fmt::Display for Level {
    ghost use Rattle.std.specs.Prelude.{Some};
    ghost use Rattle.tora_height.specs.HeightText.{written_level};

    ghost output = { λ l. Some (written_level l) };

    fn fmt<W: fmt::Write>(&self, f: &mut fmt::Formatter<W>) -> fmt::Result {
        let tau = self.tau;
        let oid = self.oid;
        let r = self.r;
        write!(f, "{tau},{oid},{r}")
    }
}
