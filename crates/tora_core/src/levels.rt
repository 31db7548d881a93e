//! How a node gets and loses its height for a destination (Park and Corson 1997, section 3). It joins one above its
//! lowest neighbour. When it loses its last downstream link, it defines, propagates or reflects a reference level, or
//! gives up its height.
ghost use Rattle.std.specs.Prelude.{◌≡◌, ◌<◌, Some, pos};
ghost use Rattle.tora_height.specs.Height.{IsLevel, quintuple};
ghost use Rattle.tora_core.specs.Heights.{fitted_height, fresh_time};
ghost use Rattle.tora_core.specs.Rules.{query_broadcast, update_broadcast, joined_height, after_join, new_level};
ghost use Rattle.tora_core.specs.Rules.{after_erase, after_link_loss, after_update_loss, propagated_level};
ghost use Rattle.tora_core.specs.Rules.{reflected_level};

use crate::destination::{Broadcast, Destination};
use crate::erasure::erased_after;
use crate::rows::{all_at, greatest_level, least_delta, time_after_all};
use tora_height::{Entry, Height, Id, Level};

/// A computed height, or NULL if a part of it is out of range.
fn fitted(tau: u64, oid: Id, r: u8, delta: i32, id: Id) -> Entry
    ensures { result ≡ fitted_height (quintuple tau oid r delta id) }
{
    Height::new(tau, oid, r, delta, id).ok()
}

impl Destination {
    /// Broadcasts a query: from now on a route is required.
    pub(crate) fn broadcast_query(&mut self) -> Option<Broadcast>
        ensures view { self.new.view ≡ (query_broadcast self.old.view).view }
        ensures broadcast { result ≡ (query_broadcast self.old.view).broadcast }
        ensures neighbours { self.new.neighbours ≡ self.old.neighbours }
    {
        self.flag = true;
        Some(Broadcast::Query)
    }

    /// Broadcasts the own height in an update, and marks every neighbour whose link is up. `None`, and no change, if
    /// the height is NULL.
    pub(crate) fn broadcast_update(&mut self) -> Option<Broadcast>
        ensures view { self.new.view ≡ (update_broadcast self.old.view).view }
        ensures broadcast { result ≡ (update_broadcast self.old.view).broadcast }
        ensures neighbours { self.new.neighbours ≡ self.old.neighbours }
    {
        let height = self.links.own()?;
        self.links.tell_all();
        Some(Broadcast::Update(height))
    }

    /// Sets the own height to the least entry with delta + 1 and the own number, unsets the flag, and broadcasts the
    /// height. If every entry is NULL or that height is out of range, the height is NULL, and nothing is broadcast.
    #[tactic(auto, unfolding(crate::specs::Rules::after_join))]
    pub(crate) fn join(&mut self) -> Option<Broadcast>
        ensures view { self.new.view ≡ (after_join self.old.view).view }
        ensures broadcast { result ≡ (after_join self.old.view).broadcast }
        ensures neighbours { self.new.neighbours ≡ self.old.neighbours }
    {
        let own = self.joined_height();
        self.links.set_own(own);
        self.flag = false;
        self.broadcast_update()
    }

    /// The height that `join` sets: the least entry with delta + 1 and the own number. NULL if every entry is NULL or
    /// the height is out of range.
    fn joined_height(&self) -> Entry
        ensures { result ≡ joined_height self.now.view }
    {
        match self.links.least() {
            None => None,
            Some(low) => fitted(low.tau(), low.oid(), low.r(), low.delta() + 1, self.me),
        }
    }

    /// Reacts to the loss of the last downstream link by a link failure or a clear (case 1): defines a level, or, if
    /// every entry is NULL, gives up the height without a broadcast.
    #[tactic(auto, unfolding(crate::specs::Rules::after_link_loss))]
    pub(crate) fn after_link_loss(&mut self, now: u64) -> Option<Broadcast>
        ensures view { self.new.view ≡ (after_link_loss self.old.view now).view }
        ensures broadcast { result ≡ (after_link_loss self.old.view now).broadcast }
        ensures neighbours { self.new.neighbours ≡ self.old.neighbours }
    {
        if self.links.are_null() {
            self.links.set_own(None);
            return None;
        }
        self.define_level(now)
    }

    /// Reacts to the loss of the last downstream link by an update (cases 2 to 5). If every entry is NULL, gives up the
    /// height without a broadcast.
    #[tactic(auto, unfolding(crate::specs::Rules::after_update_loss))]
    pub(crate) fn after_update_loss(&mut self, now: u64) -> Option<Broadcast>
        ensures view { self.new.view ≡ (after_update_loss self.old.view now).view }
        ensures broadcast { result ≡ (after_update_loss self.old.view now).broadcast }
        ensures neighbours { self.new.neighbours ≡ self.old.neighbours }
    {
        let Some(level) = greatest_level(self.links.places()) else {
            self.links.set_own(None);
            return None;
        };
        if !all_at(level, self.links.places()) {
            return self.propagate(level);
        }
        if level.r == 0 {
            return self.reflect(level);
        }
        if level.oid == self.me {
            return self.erase(level);
        }
        self.define_level(now)
    }

    /// The greatest of the tick `now`, 1, and one more than each `tau` of the own height, of the entries, and of the
    /// level that the node defined last.
    fn fresh_time(&self, now: u64) -> u64
        ensures { result ≡ fresh_time self.now.view now }
    {
        let own = match self.links.own() {
            None => 0,
            Some(height) => height.tau() + 1,
        };
        let known = own.max(time_after_all(self.links.places()));
        let later = (self.last + 1).max(known);
        now.max(1u64.max(later))
    }

    /// Defines a new reference level at the fresh time and broadcasts the height. If the time is above 2^62, the height
    /// becomes NULL, and nothing is broadcast.
    #[tactic(auto, unfolding(crate::specs::Rules::new_level))]
    fn define_level(&mut self, now: u64) -> Option<Broadcast>
        ensures view { self.new.view ≡ (new_level self.old.view now).view }
        ensures broadcast { result ≡ (new_level self.old.view now).broadcast }
        ensures neighbours { self.new.neighbours ≡ self.old.neighbours }
    {
        let time = self.fresh_time(now);
        self.links.set_own(fitted(time, self.me, 0, 0, self.me));
        if let Some(height) = self.links.own() {
            self.last = height.tau();
        }
        self.broadcast_update()
    }

    /// Sets the height to `level`, the greatest level of the entries, with one less than the least delta at it, and
    /// broadcasts it. If that delta is out of range, the height becomes NULL, and nothing is broadcast.
    fn propagate(&mut self, level: Level) -> Option<Broadcast>
        ensures view { self.new.view ≡ (propagated_level self.old.view level).view }
        ensures broadcast { result ≡ (propagated_level self.old.view level).broadcast }
        ensures neighbours { self.new.neighbours ≡ self.old.neighbours }
    {
        let own = match least_delta(level, self.links.places()) {
            None => None,
            Some(delta) => fitted(level.tau, level.oid, level.r, delta - 1, self.me),
        };
        self.links.set_own(own);
        self.broadcast_update()
    }

    /// Sets the height to the reflection of `level`, the level of all entries, with delta 0, and broadcasts it.
    fn reflect(&mut self, level: Level) -> Option<Broadcast>
        requires { IsLevel level }
        ensures view { self.new.view ≡ (reflected_level self.old.view level).view }
        ensures broadcast { result ≡ (reflected_level self.old.view level).broadcast }
        ensures neighbours { self.new.neighbours ≡ self.old.neighbours }
    {
        self.links.set_own(reflected(level, self.me));
        self.broadcast_update()
    }

    /// Gives up the height and every entry except that of the destination, and broadcasts a clear of `level`, which is
    /// a reflected level. Under `Erasure::Remembered` the level is remembered.
    #[tactic(auto, unfolding(crate::specs::Rules::after_erase))]
    pub(crate) fn erase(&mut self, level: Level) -> Option<Broadcast>
        ensures view { self.new.view ≡ (after_erase self.old.view level.tau level.oid).view }
        ensures broadcast { result ≡ (after_erase self.old.view level.tau level.oid).broadcast }
        ensures neighbours { self.new.neighbours ≡ self.old.neighbours }
    {
        self.links.set_own(None);
        self.links.erase_all(self.destination);
        let erased = Level {
            tau: level.tau,
            oid: level.oid,
            r: 1,
        };
        self.erased = erased_after(self.erasure, self.erased, erased);
        Some(Broadcast::Clear(level.tau, level.oid))
    }
}

/// The height of a node that reflects a level.
fn reflected(level: Level, me: Id) -> Entry
    requires level { IsLevel level }
    requires me { 0 < me }
    ensures { result ≡ Some (quintuple level.tau level.oid 1 (pos 0) me) }
{
    fitted(level.tau, level.oid, 1, 0, me)
}
