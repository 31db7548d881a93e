//! The reaction of a view to an input (Park and Corson 1997, section 3): first its rows change, and then the rule of
//! the input is applied.
ghost use Rattle.std.specs.Prelude.{◌≡◌, ◌≢◌, ◌==◌, ◌<◌, None, Some, MatchBool, true};
ghost use Rattle.std.specs.List.{AllByRecursion};
ghost use Rattle.tora_height.specs.Height.{destination_height};
ghost use Rattle.tora_packet.specs.PacketParts.{IsId};
ghost use Rattle.tora_core.specs.declared.Input.{Input};
ghost use Rattle.tora_core.specs.declared.rows.Row.{Row};
ghost use Rattle.tora_core.specs.Numbers.{has_number};
ghost use Rattle.tora_core.specs.Links.{IsOnlyPlace};
ghost use Rattle.tora_core.specs.View.{up_neighbours};
ghost use Rattle.tora_core.specs.Rules.{on_need, on_query, on_update, on_outdated, on_taken_update, on_clear};
ghost use Rattle.tora_core.specs.Rules.{on_heard_clear, on_packet, cleared_level, outcome_of};

use crate::destination::{Broadcast, Destination};
use crate::rows::is_entry_at;
use tora_height::{Entry, Height, Id, Level};
use tora_packet::{Clear, Packet};

impl Destination {
    /// Reacts to the need of a route to the destination.
    pub(crate) fn react_to_need(&mut self) -> Option<Broadcast>
        ensures view { self.new.view ≡ (outcome_of self.old.view (Input.Need self.old.view.destination) 0).view }
        ensures broadcast { result ≡ (outcome_of self.old.view (Input.Need self.old.view.destination) 0).broadcast }
        ensures neighbours { self.new.neighbours ≡ self.old.neighbours }
    {
        if self.is_own() { None } else { self.on_need() }
    }

    /// Reacts to a packet about the destination from the neighbour `k`, which is at `place` among the neighbours.
    pub(crate) fn react_to_packet(
        &mut self,
        k: Id,
        place: usize,
        packet: &Packet,
        now: u64,
    ) -> Option<Broadcast>
        requires place { IsOnlyPlace k place self.old.neighbours }
        requires up { has_number k (up_neighbours self.old.view) ≡ true }
        ensures view { self.new.view ≡ (outcome_of self.old.view (Input.Packet k packet.now) now).view }
        ensures broadcast { result ≡ (outcome_of self.old.view (Input.Packet k packet.now) now).broadcast }
        ensures neighbours { self.new.neighbours ≡ self.old.neighbours }
    {
        if self.is_own() {
            None
        } else {
            self.on_packet(k, place, packet, now)
        }
    }

    /// Reacts to the link to neighbour `k`, which is at `place` among the neighbours, coming up.
    pub(crate) fn react_to_link_up(&mut self, k: Id, place: usize) -> Option<Broadcast>
        requires place { IsOnlyPlace k place self.old.neighbours }
        requires down { AllByRecursion (λ (row : Row). row.neighbour ≢ k) self.old.view.rows }
        requires neighbour { IsId k }
        ensures view { self.new.view ≡ (outcome_of self.old.view (Input.LinkUp k) 0).view }
        ensures broadcast { result ≡ (outcome_of self.old.view (Input.LinkUp k) 0).broadcast }
        ensures neighbours { self.new.neighbours ≡ self.old.neighbours }
    {
        self.links
            .insert(k, place, first_entry(self.me, self.destination, k));
        if self.is_own() || !self.flag {
            None
        } else if k == self.destination {
            self.join()
        } else {
            self.broadcast_query()
        }
    }

    /// Reacts to the link to neighbour `k`, which is at `place` among the neighbours, going down: removes the
    /// neighbour's row.
    pub(crate) fn react_to_link_down(&mut self, k: Id, place: usize, now: u64) -> Option<Broadcast>
        requires { IsOnlyPlace k place self.old.neighbours }
        ensures view { self.new.view ≡ (outcome_of self.old.view (Input.LinkDown k) now).view }
        ensures broadcast { result ≡ (outcome_of self.old.view (Input.LinkDown k) now).broadcast }
        ensures neighbours { self.new.neighbours ≡ self.old.neighbours }
    {
        self.links.remove(k, place);
        if self.is_own() || !self.lacks_downstream() {
            None
        } else {
            self.after_link_loss(now)
        }
    }

    /// Reacts to a packet from the neighbour `k`, which is at `place` among the neighbours, by the rule of its kind.
    fn on_packet(&mut self, k: Id, place: usize, packet: &Packet, now: u64) -> Option<Broadcast>
        requires place { IsOnlyPlace k place self.old.neighbours }
        requires up { has_number k (up_neighbours self.old.view) ≡ true }
        ensures view { self.new.view ≡ (on_packet self.old.view k packet.now now).view }
        ensures broadcast { result ≡ (on_packet self.old.view k packet.now now).broadcast }
        ensures neighbours { self.new.neighbours ≡ self.old.neighbours }
    {
        match packet {
            Packet::Qry(_) => self.on_query(k, place),
            Packet::Upd(update) => self.on_update(k, place, update.height(), now),
            Packet::Clr(clear) => self.on_clear(k, cleared_level(clear), now),
        }
    }

    /// Broadcasts a query if every entry is NULL and no route is required yet; otherwise nothing changes.
    fn on_need(&mut self) -> Option<Broadcast>
        ensures view { self.new.view ≡ (on_need self.old.view).view }
        ensures broadcast { result ≡ (on_need self.old.view).broadcast }
        ensures neighbours { self.new.neighbours ≡ self.old.neighbours }
    {
        if self.links.are_null() && !self.flag {
            self.broadcast_query()
        } else {
            None
        }
    }

    /// Reacts to a query from `k`. Without a downstream neighbour: broadcasts a query, unless a route is already
    /// required. With one: joins if the height is NULL; otherwise broadcasts the height, unless `k` has the mark.
    fn on_query(&mut self, k: Id, place: usize) -> Option<Broadcast>
        requires place { IsOnlyPlace k place self.old.neighbours }
        requires up { has_number k (up_neighbours self.old.view) ≡ true }
        ensures view { self.new.view ≡ (on_query self.old.view k).view }
        ensures broadcast { result ≡ (on_query self.old.view k).broadcast }
        ensures neighbours { self.new.neighbours ≡ self.old.neighbours }
    {
        if !self.has_downstream() {
            if !self.flag {
                self.broadcast_query()
            } else {
                None
            }
        } else if self.links.own().is_none() {
            self.join()
        } else if !self.links.is_told(k, place) {
            self.broadcast_update()
        } else {
            None
        }
    }

    /// Reacts to an update with this height from `k`: by `on_outdated` if the height is outdated, and otherwise by
    /// `on_taken_update`.
    fn on_update(&mut self, k: Id, place: usize, height: Height, now: u64) -> Option<Broadcast>
        requires place { IsOnlyPlace k place self.old.neighbours }
        requires up { has_number k (up_neighbours self.old.view) ≡ true }
        ensures view { self.new.view ≡ (on_update self.old.view k height now).view }
        ensures broadcast { result ≡ (on_update self.old.view k height now).broadcast }
        ensures neighbours { self.new.neighbours ≡ self.old.neighbours }
    {
        if self.is_outdated(height) {
            self.on_outdated(k, now)
        } else {
            self.on_taken_update(k, place, height, now)
        }
    }

    /// Reacts to an update that counts as older than the clear of its level: removes the entry of its sender `k`,
    /// unless `k` is the destination. If there is a height and then no neighbour is downstream, reacts as to a link
    /// failure.
    fn on_outdated(&mut self, k: Id, now: u64) -> Option<Broadcast>
        ensures view { self.new.view ≡ (on_outdated self.old.view k now).view }
        ensures broadcast { result ≡ (on_outdated self.old.view k now).broadcast }
        ensures neighbours { self.new.neighbours ≡ self.old.neighbours }
    {
        self.links.withdraw(self.destination, k);
        if self.lacks_downstream() {
            self.after_link_loss(now)
        } else {
            None
        }
    }

    /// Stores the height as the entry of `k`. Then joins if a route is required; if not, and if there is a height and
    /// no neighbour is downstream, reacts by `after_update_loss`.
    fn on_taken_update(
        &mut self,
        k: Id,
        place: usize,
        height: Height,
        now: u64,
    ) -> Option<Broadcast>
        requires place { IsOnlyPlace k place self.old.neighbours }
        requires up { has_number k (up_neighbours self.old.view) ≡ true }
        ensures view { self.new.view ≡ (on_taken_update self.old.view k height now).view }
        ensures broadcast { result ≡ (on_taken_update self.old.view k height now).broadcast }
        ensures neighbours { self.new.neighbours ≡ self.old.neighbours }
    {
        self.links.set_entry(k, place, height);
        if self.flag {
            self.join()
        } else if self.lacks_downstream() {
            self.after_update_loss(now)
        } else {
            None
        }
    }

    /// Reacts to a clear of a level from `k`: notes it by `hear_clear`, and then applies `on_heard_clear`.
    fn on_clear(&mut self, k: Id, level: Level, now: u64) -> Option<Broadcast>
        ensures view { self.new.view ≡ (on_clear self.old.view k level now).view }
        ensures broadcast { result ≡ (on_clear self.old.view k level now).broadcast }
        ensures neighbours { self.new.neighbours ≡ self.old.neighbours }
    {
        self.hear_clear(k, level);
        self.on_heard_clear(level, now)
    }

    /// Reacts by `erase` if the own height is at the level. Otherwise removes the entries at it, except that of the
    /// destination; if there is a height and then no neighbour is downstream, reacts as to a link failure.
    fn on_heard_clear(&mut self, level: Level, now: u64) -> Option<Broadcast>
        ensures view { self.new.view ≡ (on_heard_clear self.old.view level now).view }
        ensures broadcast { result ≡ (on_heard_clear self.old.view level now).broadcast }
        ensures neighbours { self.new.neighbours ≡ self.old.neighbours }
    {
        if is_entry_at(level, self.links.own()) {
            return self.erase(level);
        }
        self.links.clear_level(self.destination, level);
        if self.lacks_downstream() {
            self.after_link_loss(now)
        } else {
            None
        }
    }
}

/// The reflected level that a clear erases.
fn cleared_level(clear: &Clear) -> Level
    ensures { result ≡ cleared_level clear.now.tau clear.now.oid }
{
    Level {
        tau: clear.tau(),
        oid: clear.oid(),
        r: 1,
    }
}

/// The first entry of a neighbour whose link came up: the zero height if it is the destination, and otherwise NULL.
fn first_entry(me: Id, destination: Id, k: Id) -> Entry
    requires { 0 < k }
    ensures { MatchBool (me == destination) (result ≡ None)
        (MatchBool (k == destination) (result ≡ Some (destination_height k)) (result ≡ None)) }
{
    if me == destination {
        None
    } else if k == destination {
        Some(Height::zero(k))
    } else {
        None
    }
}
