//! The three kinds of packet.
ghost use Rattle.std.specs.Prelude.{◌≡◌, ◌==◌, ◌||◌, Ok, Err, IfOk, MatchBool};
ghost use Rattle.tora_height.specs.Height.{IsHeight};
ghost use Rattle.tora_packet.specs.PacketParts.{IsId, IsUpdate, IsClear, update_of, clear_of, is_bad_update};
ghost use Rattle.tora_packet.specs.PacketParts.{is_bad_clear};

use crate::PacketError;
use std::marker::Model;
use tora_height::{GREATEST_TAU, Height, Id};

/// A query: a route to a destination is needed.
#[derive(Clone, Copy, Debug, PartialEq, Eq, Hash)]
pub struct Query {
    destination: Id,
}

impl Model for Query {
    ghost use Rattle.std.specs.Prelude.{ℕ};
    ghost use Rattle.tora_packet.specs.PacketParts.{IsId};

    ghost Value = { ℕ };

    ghost view = { λ q. q.destination };

    ghost invariant = { λ q. IsId q.destination };

    ghost inverse = { λ n. record { destination = n } };
}

impl Query {
    /// The query for a destination.
    ///
    /// # Errors
    /// `Height` if `destination` is 0.
    pub fn new(destination: Id) -> Result<Query, PacketError>
        ensures exact { MatchBool (destination == 0) (result ≡ Err PacketError.Height) (result ≡ Ok destination) }
        ensures valid { IfOk result IsId }
    {
        if destination == 0 {
            return Err(PacketError::Height);
        }
        Ok(Query { destination })
    }

    /// The query for a destination that is not 0.
    pub fn of(destination: Id) -> Query
        requires { IsId destination }
        ensures { result ≡ destination }
    {
        Query { destination }
    }

    /// The destination to which a route is needed.
    pub fn destination(&self) -> Id
        ensures value { result ≡ self.now }
        ensures valid { IsId self.now }
    {
        self.destination
    }
}

/// An update: the height of the sending node, which is not the destination.
#[derive(Clone, Copy, Debug, PartialEq, Eq, Hash)]
pub struct Update {
    destination: Id,
    height: Height,
}

impl Model for Update {
    ghost use Rattle.tora_packet.specs.PacketParts.{UpdateParts, IsUpdate, update_of};

    ghost Value = { UpdateParts };

    ghost view = { λ u. update_of u.destination u.height };

    ghost invariant = { λ u. IsUpdate (update_of u.destination u.height) };

    ghost inverse = { λ p. record { destination = p.destination; height = p.height } };
}

impl Update {
    /// The update of a height.
    ///
    /// # Errors
    /// `Height` if `destination` is 0 or the height's own node, or if `delta` is below 1 at level (0,0,0).
    #[tactic(auto, using(tora_height::proofs::Ranges::height_has_no_fault), unfolding(crate::specs::PacketParts::is_bad_update))]
    pub fn new(destination: Id, height: Height) -> Result<Update, PacketError>
        ensures exact { MatchBool ((destination == 0) || is_bad_update destination height)
            (result ≡ Err PacketError.Height) (result ≡ Ok (update_of destination height)) }
        ensures valid { IfOk result IsUpdate }
    {
        let id = height.id();
        if destination == 0 || id == destination {
            return Err(PacketError::Height);
        }
        let (tau, r, delta) = (height.tau(), height.r(), height.delta());
        if tau == 0 && r == 0 && delta < 1 {
            return Err(PacketError::Height);
        }
        Ok(Update {
            destination,
            height,
        })
    }

    /// The update of a height, without checks: the caller ensures what `new` checks.
    pub fn of(destination: Id, height: Height) -> Update
        requires { IsUpdate (update_of destination height) }
        ensures { result ≡ update_of destination height }
    {
        Update {
            destination,
            height,
        }
    }

    /// The destination for which the sender has this height.
    pub fn destination(&self) -> Id
        ensures value { result ≡ self.now.destination }
        ensures valid { IsUpdate self.now }
    {
        self.destination
    }

    /// The height of the sender.
    pub fn height(&self) -> Height
        ensures value { result ≡ self.now.height }
        ensures valid { IsUpdate self.now }
    {
        self.height
    }
}

/// A clear: it erases the reflected level (`tau`, `oid`, 1).
#[derive(Clone, Copy, Debug, PartialEq, Eq, Hash)]
pub struct Clear {
    destination: Id,
    tau: u64,
    oid: Id,
}

impl Model for Clear {
    ghost use Rattle.tora_packet.specs.PacketParts.{ClearParts, IsClear, clear_of};

    ghost Value = { ClearParts };

    ghost view = { λ c. clear_of c.destination c.tau c.oid };

    ghost invariant = { λ c. IsClear (clear_of c.destination c.tau c.oid) };

    ghost inverse = { λ p. record { destination = p.destination; tau = p.tau; oid = p.oid } };
}

impl Clear {
    /// The clear of a reflected level. `tau` is the level's time tag in ticks of 100 ms, `oid` the node that defined
    /// it.
    ///
    /// # Errors
    /// `Height` if `destination`, `tau` or `oid` is 0, or if `tau` is above 2^62.
    #[tactic(auto, unfolding(crate::specs::PacketParts::is_bad_clear))]
    pub fn new(destination: Id, tau: u64, oid: Id) -> Result<Clear, PacketError>
        ensures exact { MatchBool ((destination == 0) || is_bad_clear tau oid)
            (result ≡ Err PacketError.Height) (result ≡ Ok (clear_of destination tau oid)) }
        ensures valid { IfOk result IsClear }
    {
        if destination == 0 || tau == 0 || tau > GREATEST_TAU || oid == 0 {
            return Err(PacketError::Height);
        }
        Ok(Clear {
            destination,
            tau,
            oid,
        })
    }

    /// The clear of a reflected level, without checks: the caller ensures what `new` checks.
    pub fn of(destination: Id, tau: u64, oid: Id) -> Clear
        requires { IsClear (clear_of destination tau oid) }
        ensures { result ≡ clear_of destination tau oid }
    {
        Clear {
            destination,
            tau,
            oid,
        }
    }

    /// The destination for which heights at the level are erased.
    pub fn destination(&self) -> Id
        ensures value { result ≡ self.now.destination }
        ensures valid { IsClear self.now }
    {
        self.destination
    }

    /// The time tag of the level, in ticks of 100 ms, 1 to 2^62.
    pub fn tau(&self) -> u64
        ensures value { result ≡ self.now.tau }
        ensures valid { IsClear self.now }
    {
        self.tau
    }

    /// The node that defined the level.
    pub fn oid(&self) -> Id
        ensures value { result ≡ self.now.oid }
        ensures valid { IsClear self.now }
    {
        self.oid
    }
}
