//! The queue into the core: a port for each seat, and the core's port.
ghost use Rattle.std.specs.Prelude.{◌≡◌, ◌+◌, ◌<◌, ◌≤◌, ◌++◌, ◌∷◌, [], true, false, List, length, IsErr, OnOk};
ghost use Rattle.std.specs.Prelude.{OnErr, IfOk};
ghost use Rattle.crossbeam_channel.specs.Ends.{sends_on};
ghost use Rattle.tora_lane.specs.LaneRule.{items_of};
ghost use Rattle.tora_lane.specs.Ports.{IsPortOf, IsChannelOf, new_item, new_port, new_core};
ghost use Rattle.tora_seat.specs.declared.item.Item.{Item};

use crate::limits::{CORE_LANE_ROOM, MOST_IN_ALL};
use crate::rule::{LaneRule, LaneView, NewSeat, Puts, Settles, Takes};
use crossbeam_channel::{Pass, RuledReceiver, RuledSender, bounded_with};
use std::alloc::{AllocError, Global};
use std::marker::Model;
use std::sync::Wait;
use thiserror::Error;
use tora_seat::{Item, What};

/// From `put`: the core's port has ended, or this port has put `MOST_IN_ALL` items. From `take`: the ports of all seats
/// have ended, and no item is left. A port that has returned `Gone` returns it at every later call.
#[derive(Clone, Copy, Debug, PartialEq, Eq, Hash, Error)]
#[error("the lane has ended")]
pub struct Gone;

pub(crate) type Sender = RuledSender<Item, LaneView, LaneRule>;

type Receiver = RuledReceiver<Item, LaneView, LaneRule>;

type LanePass = Pass<Item, LaneView>;

/// The port of one seat of the queue into the core. Contracts see its queue, its seat, all that it has put, and whether
/// it has returned `Gone`.
#[derive(Drop)]
pub struct InPort {
    sender: Sender,
    pass: LanePass,
    seat: usize,
    count: u64,
    gone: bool,
}

impl Model for InPort {
    ghost use Rattle.std.specs.Prelude.{◌≡◌, ◌≤◌, length};
    ghost use Rattle.crossbeam_channel.specs.Claims.{IsSeatAt};
    ghost use Rattle.crossbeam_channel.specs.Ends.{sends_on};
    ghost use Rattle.tora_lane.specs.declared.limits.TheConstants.{MOST_IN_ALL};
    ghost use Rattle.tora_lane.specs.declared.rule.LaneView.TheVariants.{Seat};
    ghost use Rattle.tora_lane.specs.Ports.{InEnd, lane_of, lane_view, own_of};

    ghost Value = { InEnd };

    ghost view = { λ p. record {
      lane = lane_of p.pass;
      seat = p.seat;
      put = own_of (lane_view p.pass);
      gone = p.gone;
    } };

    ghost invariant = { λ p. IsSeatAt (sends_on p.sender) p.pass
        × (lane_view p.pass ≡ Seat p.seat (own_of (lane_view p.pass))) × (p.count ≡ length (own_of (lane_view p.pass)))
        × (p.count ≤ MOST_IN_ALL) };
}

/// The core's port of the queue into the core. Contracts see its queue, the count of seats, all that it has taken, and
/// whether it has returned `Gone`.
#[derive(Drop)]
pub struct CorePort {
    receiver: Receiver,
    pass: LanePass,
    counts: Vec<u64>,
    gone: bool,
}

impl Model for CorePort {
    ghost use Rattle.std.specs.Prelude.{◌≡◌, ◌<◌, ℕ, length, slice_index};
    ghost use Rattle.crossbeam_channel.specs.Claims.{IsSeatAt};
    ghost use Rattle.crossbeam_channel.specs.Ends.{receives_on};
    ghost use Rattle.tora_lane.specs.declared.rule.LaneView.TheVariants.{Core};
    ghost use Rattle.tora_lane.specs.LaneRule.{items_of};
    ghost use Rattle.tora_lane.specs.Ports.{CoreEnd, lane_of, lane_view, took_of, known_of};

    ghost Value = { CoreEnd };

    ghost view = { λ p. record {
      lane = lane_of p.pass;
      seats = length p.counts.items;
      taken = took_of (lane_view p.pass);
      gone = p.gone;
    } };

    ghost invariant = { λ p. IsSeatAt (receives_on p.receiver) p.pass
        × (lane_view p.pass ≡ Core (length p.counts.items) (took_of (lane_view p.pass)) (known_of (lane_view p.pass)))
        × ((s : ℕ) → s < length p.counts.items → slice_index p.counts.items s
        ≡ length (items_of s (took_of (lane_view p.pass)))) };
}

/// The core's port after it has ended: the ports of seats can still be closed. Contracts see what they saw of the port.
#[derive(Drop)]
pub struct Settling {
    pass: LanePass,
    counts: Vec<u64>,
    gone: bool,
}

impl Model for Settling {
    ghost use Rattle.std.specs.Prelude.{◌≡◌, ◌<◌, ℕ, [], length, slice_index};
    ghost use Rattle.tora_lane.specs.declared.rule.LaneView.TheVariants.{Core};
    ghost use Rattle.tora_lane.specs.LaneRule.{items_of};
    ghost use Rattle.tora_lane.specs.Ports.{CoreEnd, lane_of, lane_view, took_of, known_of};

    ghost Value = { CoreEnd };

    ghost view = { λ p. record {
      lane = lane_of p.pass;
      seats = length p.counts.items;
      taken = took_of (lane_view p.pass);
      gone = p.gone;
    } };

    ghost invariant = { λ p. (p.pass.me.1 ≡ []) × (lane_view p.pass
        ≡ Core (length p.counts.items) (took_of (lane_view p.pass)) (known_of (lane_view p.pass)))
        × ((s : ℕ) → s < length p.counts.items → slice_index p.counts.items s
        ≡ length (items_of s (took_of (lane_view p.pass)))) };
}

/// How many items a seat has put, when its port is closed: `put` is `taken` plus `left`.
#[derive(Clone, Copy, Debug, PartialEq, Eq, Hash)]
pub struct Settled {
    /// The seat.
    pub seat: usize,
    /// How many items it has put.
    pub put: u64,
    /// How many of them the core has taken.
    pub taken: u64,
    /// How many of them are left in the queue.
    pub left: u64,
}

impl InPort {
    /// Puts an item at the back of the queue into the core, with the next number of the seat. It may wait, for instance
    /// while the queue is full.
    ///
    /// `now` is the tick of 100 ms at which it is put.
    ///
    /// # Errors
    ///
    /// `Gone` if the core's port has ended, or if the seat has put `MOST_IN_ALL` items. Then nothing is put.
    pub fn put<R: Wait>(&mut self, rt: &R, now: u64, what: What) -> Result<(), Gone>
        ensures lane { (self.new.lane ≡ self.old.lane) × (self.new.seat ≡ self.old.seat) }
        ensures put { OnOk result (self.new.put ≡ self.old.put ++ new_item self.old.seat (length self.old.put + 1) now
            what ∷ []) }
        ensures open { OnOk result (self.new.gone ≡ false) }
        ensures gone { OnErr result ((self.new.put ≡ self.old.put) × (self.new.gone ≡ true)) }
        ensures stays { self.old.gone ≡ true → IsErr result }
        ensures most { MOST_IN_ALL ≤ length self.old.put → IsErr result }
    {
        if self.gone || self.count >= MOST_IN_ALL {
            self.gone = true;
            return Err(Gone);
        }
        let item = Item {
            seat: self.seat,
            number: self.count + 1,
            now,
            what,
        };
        match self.sender.send_as::<Puts, R>(rt, &mut self.pass, item) {
            Ok(()) => {
                self.count += 1;
                Ok(())
            }
            Err(_) => {
                self.gone = true;
                Err(Gone)
            }
        }
    }
}

// Makes an empty queue into the core, without a seat: the core's port, and the sender with which ports are made.
pub(crate) fn core_lane(alloc: Global) -> Result<(CorePort, Sender), AllocError>
    ensures { IfOk result (λ r. (r.0 ≡ new_core r.0.lane 0) × IsChannelOf r.0.lane (sends_on r.1)) }
{
    let (sender, receiver, pass) = bounded_with::<Item, LaneView, LaneRule, Global>(
        alloc,
        CORE_LANE_ROOM,
    )?;
    let core = CorePort {
        receiver,
        pass,
        counts: Vec::new(alloc),
        gone: false,
    };
    Ok((core, sender))
}

impl CorePort {
    // Makes the port of the next seat. It is called before any item is taken.
    pub(crate) fn new_seat(&mut self, sender: &Sender) -> Result<InPort, AllocError>
        requires channel { IsChannelOf self.old.lane (sends_on sender.now) }
        requires empty { self.old.taken ≡ [] }
        ensures { IfOk result (λ p. (self.new ≡ record self.old { seats = self.old.seats + 1 })
            × (p ≡ new_port self.old.lane self.old.seats)) }
    {
        self.counts.reserve(1)?;
        let theirs = sender.try_clone()?;
        let seat = self.counts.len();
        let pass = sender.another::<NewSeat>(&mut self.pass);
        self.counts.push_reserved(0);
        Ok(InPort {
            sender: theirs,
            pass,
            seat,
            count: 0,
            gone: false,
        })
    }

    /// Takes the first item of the queue into the core, which has the next number of its seat. It may wait, for
    /// instance while the queue is empty.
    ///
    /// # Errors
    ///
    /// `Gone` if the ports of all seats have ended and no item is left. Then nothing is taken.
    pub fn take<R: Wait>(&mut self, rt: &R) -> Result<Item, Gone>
        ensures lane { (self.new.lane ≡ self.old.lane) × (self.new.seats ≡ self.old.seats) }
        ensures taken { IfOk result (λ x. (self.new.taken ≡ self.old.taken ++ x ∷ []) × (x.seat < self.old.seats)
            × (x.number ≡ length (items_of x.seat self.old.taken) + 1)) }
        ensures open { OnOk result (self.new.gone ≡ false) }
        ensures gone { OnErr result ((self.new.taken ≡ self.old.taken) × (self.new.gone ≡ true)) }
        ensures stays { self.old.gone ≡ true → IsErr result }
    {
        if self.gone {
            return Err(Gone);
        }
        match self.receiver.recv_as::<Takes, R>(rt, &mut self.pass) {
            Ok(item) => {
                self.counts[item.seat] = item.number;
                Ok(item)
            }
            Err(_) => {
                self.gone = true;
                Err(Gone)
            }
        }
    }

    /// Closes the port of a seat whose thread has ended, and returns the counts of its items. The items that the core
    /// took from this seat, followed by those left in the queue, are all that the seat put.
    pub fn settle<R: Wait>(&mut self, _rt: &R, port: InPort) -> Settled
        requires { IsPortOf self.old port }
        ensures same { self.new ≡ self.old }
        ensures settled { (left : List Item) × (items_of port.seat self.old.taken ++ left ≡ port.put)
            × (result.seat ≡ port.seat) × (result.put ≡ length port.put)
            × (result.taken ≡ length (items_of port.seat self.old.taken)) × (result.left ≡ length left) }
    {
        let InPort {
            sender,
            pass,
            seat,
            count,
            gone: _,
        } = port;
        sender.absorb::<Settles>(&mut self.pass, pass);
        sender.learn_as::<Settles>(&mut self.pass);
        let taken = self.counts[seat];
        Settled {
            seat,
            put: count,
            taken,
            left: count - taken,
        }
    }

    /// Ends the port. No item is taken after this, and every put that waits or follows returns `Gone`. Contracts still
    /// see the items that were taken.
    pub fn end(self) -> Settling
        ensures { result ≡ self }
    {
        let CorePort {
            receiver: _,
            pass,
            counts,
            gone,
        } = self;
        Settling { pass, counts, gone }
    }
}

impl Settling {
    /// Closes the port of a seat whose thread has ended, and returns the counts of its items.
    pub fn settle(&mut self, port: InPort) -> Settled
        requires { IsPortOf self.old port }
        ensures same { self.new ≡ self.old }
        ensures settled { (left : List Item) × (items_of port.seat self.old.taken ++ left ≡ port.put)
            × (result.seat ≡ port.seat) × (result.put ≡ length port.put)
            × (result.taken ≡ length (items_of port.seat self.old.taken)) × (result.left ≡ length left) }
    {
        let InPort {
            sender,
            pass,
            seat,
            count,
            gone: _,
        } = port;
        sender.absorb::<Settles>(&mut self.pass, pass);
        sender.learn_as::<Settles>(&mut self.pass);
        let taken = self.counts[seat];
        let left = count - taken;
        Settled {
            seat,
            put: count,
            taken,
            left,
        }
    }
}
