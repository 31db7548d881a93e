//! A height.
use crate::{GREATEST_DELTA, GREATEST_TAU, HeightError, Id, Level};
use std::cmp::Ordering;
use std::fmt;
use std::marker::Model;

/// A height whose parts are in range (Park and Corson 1997, section 3.1; the ranges are this project's choice).
///
/// Heights are ordered lexicographically by their five parts; the derived `Ord` does this.
#[derive(Clone, Copy, Debug, PartialEq, Eq, PartialOrd, Ord, Hash)]
pub struct Height {
    tau: u64,
    oid: u32,
    r: u8,
    delta: i32,
    id: Id,
}

impl Model for Height {
    ghost use Rattle.tora_height.specs.Height.{Quintuple, IsHeight, quintuple};

    ghost Value = { Quintuple };

    ghost view = { λ h. quintuple h.tau h.oid h.r h.delta h.id };

    ghost invariant = { λ h. IsHeight (quintuple h.tau h.oid h.r h.delta h.id) };

    ghost inverse = { λ q. record { tau = q.tau; oid = q.oid; r = q.r; delta = q.delta; id = q.id } };
}

impl Height {
    ghost use Rattle.std.specs.Prelude.{◌≡◌, ◌<◌, None, Ok, Err, MatchOption, IfOk};
    ghost use Rattle.std.specs.Ordering.{is_lt};
    ghost use Rattle.tora_height.specs.Height.{IsHeight, IsLevel, quintuple, destination_height, level_of};
    ghost use Rattle.tora_height.specs.Height.{height_fault};
    ghost use Rattle.tora_height.specs.HeightOrder.{level_cmp, height_cmp};

    /// The height with these parts.
    ///
    /// `tau` is a time in ticks of 100 ms, `oid` the node that defined the level, `r` its reflection bit, `delta` the
    /// order within the level, and `id` the node whose height it is.
    ///
    /// # Errors
    /// In this order: `Tau` if `tau` is above 2^62; `Delta` if `delta` is not within -2^30 to 2^30; `Level` if `r` is
    /// above 1, exactly one of `tau` and `oid` is 0, or `delta` is negative at level (0,0,0); `Id` if `id` is 0.
    #[tactic(auto, unfolding(crate::specs::Height::height_fault))]
    pub fn new(tau: u64, oid: u32, r: u8, delta: i32, id: Id) -> Result<Height, HeightError>
        ensures exact { MatchOption (height_fault (quintuple tau oid r delta id))
            (result ≡ Ok (quintuple tau oid r delta id)) (λ e. result ≡ Err e) }
        ensures ranges { IfOk result IsHeight }
    {
        if tau > GREATEST_TAU {
            return Err(HeightError::Tau);
        }
        if delta < -GREATEST_DELTA || delta > GREATEST_DELTA {
            return Err(HeightError::Delta);
        }
        if r > 1 || (tau == 0) != (oid == 0) || (tau == 0 && r == 0 && delta < 0) {
            return Err(HeightError::Level);
        }
        if id == 0 {
            return Err(HeightError::Id);
        }
        Ok(Height {
            tau,
            oid,
            r,
            delta,
            id,
        })
    }

    /// The height of every destination for itself: (0,0,0,0,`destination`) (Park and Corson 1997, section 3.1).
    /// `destination` is not 0.
    pub fn zero(destination: Id) -> Height
        requires { 0 < destination }
        ensures { result ≡ destination_height destination }
    {
        Height {
            tau: 0,
            oid: 0,
            r: 0,
            delta: 0,
            id: destination,
        }
    }

    /// The time tag of the reference level, in ticks of 100 ms, 0 to 2^62.
    pub fn tau(&self) -> u64
        ensures value { result ≡ self.now.tau }
        ensures ranges { IsHeight self.now }
    {
        self.tau
    }

    /// The node that defined the reference level; 0 exactly if `tau` is 0.
    pub fn oid(&self) -> u32
        ensures value { result ≡ self.now.oid }
        ensures ranges { IsHeight self.now }
    {
        self.oid
    }

    /// The reflection bit of the reference level, 0 or 1.
    pub fn r(&self) -> u8
        ensures value { result ≡ self.now.r }
        ensures ranges { IsHeight self.now }
    {
        self.r
    }

    /// The order within the reference level, -2^30 to 2^30: of two heights at one level, the one with less delta is
    /// lower.
    pub fn delta(&self) -> i32
        ensures value { result ≡ self.now.delta }
        ensures ranges { IsHeight self.now }
    {
        self.delta
    }

    /// The node whose height it is.
    pub fn id(&self) -> Id
        ensures value { result ≡ self.now.id }
        ensures ranges { IsHeight self.now }
    {
        self.id
    }

    /// The reference level.
    pub fn level(&self) -> Level
        ensures value { result ≡ level_of self.now }
        ensures ranges { IsLevel result }
    {
        Level {
            tau: self.tau,
            oid: self.oid,
            r: self.r,
        }
    }

    /// Compares two heights by their reference levels only.
    pub fn level_cmp(&self, other: &Height) -> Ordering
        ensures { result ≡ level_cmp (level_of self.now) (level_of other.now) }
    {
        self.level().cmp(&other.level())
    }

    /// Compares two heights like the derived `Ord`.
    pub fn height_cmp(&self, other: &Height) -> Ordering
        ensures { result ≡ height_cmp self.now other.now }
    {
        self.cmp(other)
    }

    /// Whether this height is lower than the other.
    pub fn is_lower(&self, other: &Height) -> bool
        ensures { result ≡ is_lt (height_cmp self.now other.now) }
    {
        self < other
    }
}

/// Writes a height as `(tau,oid,r,delta,id)`.
impl fmt::Display for Height {
    ghost use Rattle.std.specs.Prelude.{Some};
    ghost use Rattle.tora_height.specs.HeightText.{written_height};

    ghost output = { λ h. Some (written_height h) };

    fn fmt<W: fmt::Write>(&self, f: &mut fmt::Formatter<W>) -> fmt::Result {
        let level = self.level();
        let delta = self.delta;
        let id = self.id;
        write!(f, "({level},{delta},{id})")
    }
}
