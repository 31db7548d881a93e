//! The view that a node has of one destination: its state, its inputs and its broadcasts (Park and Corson 1997, section
//! 3). `reactions` has the effects of inputs on the rows, and `levels` how the node gets and loses its height.
ghost use Rattle.std.specs.Prelude.{◌≡◌, ◌==◌, ◌<◌, ◌≤◌, IfOk, IfSome, option_map, length, true};
ghost use Rattle.tora_packet.specs.PacketParts.{IsId};
ghost use Rattle.tora_core.specs.Links.{IsOnlyPlace};
ghost use Rattle.tora_core.specs.Numbers.{IsAscending, has_number};
ghost use Rattle.tora_core.specs.Table.{first_in};
ghost use Rattle.tora_core.specs.View.{downstream_count, up_neighbours, has_downstream, lacks_downstream, next_hop_of};
ghost use Rattle.tora_core.specs.CoreRun.{entry_in};
ghost use Rattle.tora_core.specs.declared.Input.{Input};
ghost use Rattle.tora_core.specs.Kept.{IsKept, MakesPacket, MayCome};
ghost use Rattle.tora_core.specs.Rules.{packet_of, packet_sent, view_after};

use crate::GREATEST_NEIGHBOURS;
use crate::erasure::Erasure;
use crate::links::Links;
use crate::rows::Row;
use std::alloc::{AllocError, Global};
use std::marker::Model;
use tora_height::{Entry, Height, Id, Level};
use tora_packet::{Clear, Packet, Query, Update};

/// A broadcast about a destination, from which a packet is made.
#[derive(Clone, Copy, Debug, PartialEq, Eq, Hash)]
pub enum Broadcast {
    /// A route is required.
    Query,
    /// The node reports its own height.
    Update(Height),
    /// The time tag and the originator of the reflected level that is erased.
    Clear(u64, Id),
}

/// The view that a node has of one destination.
#[derive(Debug, Drop)]
pub struct Destination {
    pub(crate) me: Id,
    pub(crate) destination: Id,
    pub(crate) flag: bool,
    pub(crate) links: Links,
    pub(crate) last: u64,
    pub(crate) erasure: Erasure,
    pub(crate) erased: Option<Level>,
}

impl Model for Destination {
    ghost use Rattle.std.specs.Prelude.{◌≤◌, ◌^◌};
    ghost use Rattle.tora_packet.specs.PacketParts.{IsId};
    ghost use Rattle.tora_core.specs.Table.{TableView};

    ghost Value = { TableView };

    ghost view = { λ d. record {
      view = record {
        me = d.me;
        destination = d.destination;
        height = d.links.own;
        flag = d.flag;
        rows = d.links.rows;
        last = d.last;
        erasure = d.erasure;
        erased = d.erased;
      };
      neighbours = d.links.neighbours;
    } };

    ghost invariant = { λ d. IsId d.me × (d.last ≤ 2 ^ 62) };
}

impl Destination {
    /// A new view of a destination, with a place for each of these neighbours, which are in ascending order.
    ///
    /// # Errors
    /// Out of memory.
    pub fn new(
        alloc: Global,
        erasure: Erasure,
        me: Id,
        destination: Id,
        neighbours: &[Id],
    ) -> Result<Destination, AllocError>
        requires me { 0 < me }
        requires destination { 0 < destination }
        requires few { length neighbours.now ≤ GREATEST_NEIGHBOURS }
        requires ascending { IsAscending neighbours.now }
        ensures { IfOk result (λ first. first ≡ first_in neighbours.now erasure me destination) }
    {
        let own = if me == destination {
            Some(Height::zero(destination))
        } else {
            None
        };
        Ok(Destination {
            me,
            destination,
            flag: false,
            links: Links::new(alloc, own, neighbours)?,
            last: 0,
            erasure,
            erased: None,
        })
    }

    /// The destination of the view.
    pub fn destination(&self) -> Id
        ensures { result ≡ self.now.view.destination }
    {
        self.destination
    }

    /// The node's own height; `None` for NULL.
    pub fn height(&self) -> Entry
        ensures { result ≡ self.now.view.height }
    {
        self.links.own()
    }

    /// Whether a route to the destination is required.
    pub fn flag(&self) -> bool
        ensures { result ≡ self.now.view.flag }
    {
        self.flag
    }

    /// A copy of the rows.
    ///
    /// # Errors
    /// Out of memory.
    pub fn rows(&self, alloc: Global) -> Result<Vec<Row>, AllocError>
        ensures { IfOk result (λ rows. rows.items ≡ self.now.view.rows) }
    {
        self.links.rows(alloc)
    }

    /// How many neighbours are downstream.
    pub fn downstream(&self) -> u32
        ensures { result ≡ downstream_count self.now.view }
    {
        self.links.downstream()
    }

    /// The entry of a neighbour whose link is up: `Some(None)` if the entry is NULL; `None` if the link is not up.
    pub fn entry(&self, k: Id) -> Option<Entry>
        ensures { result ≡ entry_in k self.now.view }
    {
        self.links.entry(k)
    }

    /// The downstream neighbour with the lowest entry; `None` if no neighbour is downstream.
    pub fn next_hop(&self) -> Option<Id>
        ensures { result ≡ next_hop_of self.now.view }
    {
        self.links.next_hop()
    }

    /// A route to the destination is needed. Returns the packet to broadcast, if there is one. The result does not
    /// depend on the tick.
    pub fn need(&mut self) -> Option<Packet>
        requires kept { IsKept self.old.view }
        ensures view { self.new.view ≡ view_after self.old.view (Input.Need self.old.view.destination) 0 }
        ensures packet { result ≡ packet_sent self.old.view (Input.Need self.old.view.destination) 0 }
        ensures neighbours { self.new.neighbours ≡ self.old.neighbours }
    {
        let destination = self.destination;
        let broadcast = self.react_to_need();
        packet_to_send(destination, broadcast)
    }

    /// Like `need`, for a packet about the destination from the neighbour `k`, which is at `place` among the
    /// neighbours.
    pub fn packet(&mut self, k: Id, place: usize, packet: &Packet, now: u64) -> Option<Packet>
        requires kept { IsKept self.old.view }
        requires place { IsOnlyPlace k place self.old.neighbours }
        requires up { has_number k (up_neighbours self.old.view) ≡ true }
        requires may { MayCome self.old.view (Input.Packet k packet.now) }
        ensures view { self.new.view ≡ view_after self.old.view (Input.Packet k packet.now) now }
        ensures packet { result ≡ packet_sent self.old.view (Input.Packet k packet.now) now }
        ensures neighbours { self.new.neighbours ≡ self.old.neighbours }
    {
        let destination = self.destination;
        let broadcast = self.react_to_packet(k, place, packet, now);
        packet_to_send(destination, broadcast)
    }

    /// Like `need`, when the link to neighbour `k`, which is at `place` among the neighbours, comes up. The result does
    /// not depend on the tick.
    pub fn link_up(&mut self, k: Id, place: usize) -> Option<Packet>
        requires kept { IsKept self.old.view }
        requires place { IsOnlyPlace k place self.old.neighbours }
        requires may { MayCome self.old.view (Input.LinkUp k) }
        requires neighbour { IsId k }
        ensures view { self.new.view ≡ view_after self.old.view (Input.LinkUp k) 0 }
        ensures packet { result ≡ packet_sent self.old.view (Input.LinkUp k) 0 }
        ensures neighbours { self.new.neighbours ≡ self.old.neighbours }
    {
        let destination = self.destination;
        let broadcast = self.react_to_link_up(k, place);
        packet_to_send(destination, broadcast)
    }

    /// Like `need`, when the link to neighbour `k`, which is at `place` among the neighbours, goes down.
    pub fn link_down(&mut self, k: Id, place: usize, now: u64) -> Option<Packet>
        requires kept { IsKept self.old.view }
        requires place { IsOnlyPlace k place self.old.neighbours }
        ensures view { self.new.view ≡ view_after self.old.view (Input.LinkDown k) now }
        ensures packet { result ≡ packet_sent self.old.view (Input.LinkDown k) now }
        ensures neighbours { self.new.neighbours ≡ self.old.neighbours }
    {
        let destination = self.destination;
        let broadcast = self.react_to_link_down(k, place, now);
        packet_to_send(destination, broadcast)
    }

    /// Whether the node is the destination. Then only the set of neighbours changes in its view.
    pub(crate) fn is_own(&self) -> bool
        ensures { result ≡ (self.now.view.me == self.now.view.destination) }
    {
        self.me == self.destination
    }

    /// Whether some neighbour is downstream.
    pub(crate) fn has_downstream(&self) -> bool
        ensures { result ≡ has_downstream self.now.view }
    {
        self.links.has_downstream()
    }

    /// Whether there is a height, and no neighbour is downstream.
    pub(crate) fn lacks_downstream(&self) -> bool
        ensures { result ≡ lacks_downstream self.now.view }
    {
        self.links.own().is_some() && !self.has_downstream()
    }
}

/// The packet of a broadcast, if there is one.
fn packet_to_send(destination: Id, broadcast: Option<Broadcast>) -> Option<Packet>
    requires { IfSome broadcast (MakesPacket destination) }
    ensures { result ≡ option_map (packet_of destination) broadcast }
{
    match broadcast {
        None => None,
        Some(broadcast) => Some(packet_of(destination, broadcast)),
    }
}

/// The packet that a broadcast sends.
fn packet_of(destination: Id, broadcast: Broadcast) -> Packet
    requires { MakesPacket destination broadcast }
    ensures { result ≡ packet_of destination broadcast }
{
    match broadcast {
        Broadcast::Query => Packet::Qry(Query::of(destination)),
        Broadcast::Update(height) => Packet::Upd(Update::of(destination, height)),
        Broadcast::Clear(tau, oid) => Packet::Clr(Clear::of(destination, tau, oid)),
    }
}
