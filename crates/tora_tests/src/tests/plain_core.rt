//! A plain implementation of the rules: for each destination it stores a row for each neighbour, and searches the rows
//! at each step. The tests compare the core with it.
use std::alloc::{AllocError, Global};
use tora_core::{Input, StepError};
use tora_height::Id;
use tora_packet::{Packet, Update};
use view::{PlainView, view_of};

mod view;

/// A reference level: tau, oid and r.
pub type Level = (u64, u32, u8);

/// A height, compared from left to right: its reference level, its delta and its id.
pub type Parts = (Level, i64, Id);

/// A packet to broadcast: a query with its destination, an update with its destination and height, or a clear with its
/// destination, tau and oid.
#[derive(Clone, Copy, Debug, PartialEq, Eq)]
pub enum Told {
    Query(Id),
    Update(Id, Parts),
    Clear(Id, u64, u32),
}

/// The core of a node: each neighbour with whether its link is up, and the views of the destinations in ascending
/// order.
#[derive(Drop)]
pub struct Plain {
    links: Vec<(Id, bool)>,
    views: Vec<PlainView>,
}

/// The `Told` for a packet.
pub fn told_by(packet: &Packet) -> Told {
    match packet {
        Packet::Qry(query) => Told::Query(query.destination()),
        Packet::Upd(update) => Told::Update(update.destination(), parts_of(update)),
        Packet::Clr(clear) => Told::Clear(clear.destination(), clear.tau(), clear.oid()),
    }
}

/// The parts of the height in an update.
fn parts_of(update: &Update) -> Parts {
    let height = update.height();
    let level = (height.tau(), height.oid(), height.r());
    (level, i64::from(height.delta()), height.id())
}

impl Plain {
    /// A core with no link up, which remembers erased levels if `remembers`. Both lists must be in ascending order. The
    /// error says that memory ran out.
    pub fn new(
        alloc: Global,
        remembers: bool,
        me: Id,
        neighbours: &[Id],
        destinations: &[Id],
    ) -> Result<Plain, AllocError> {
        let mut links = Vec::new(alloc);
        for k in neighbours {
            links.push((*k, false))?;
        }
        let mut views = Vec::new(alloc);
        for destination in destinations {
            views.push(view_of(alloc, remembers, me, *destination, neighbours)?)?;
        }
        Ok(Plain { links, views })
    }

    /// Whether the table has the destination.
    fn knows(&self, destination: Id) -> bool {
        for view in self.views.iter() {
            if view.destination == destination {
                return true;
            }
        }
        false
    }

    /// Whether the link to a neighbour is up; `None` if there is no such neighbour.
    fn is_up(&self, k: Id) -> Option<bool> {
        for (neighbour, is_up) in self.links.iter() {
            if *neighbour == k {
                return Some(*is_up);
            }
        }
        None
    }

    /// Sets whether the link to neighbour `k` is up. Nothing happens if there is no such neighbour.
    fn set_up(&mut self, k: Id, up: bool) {
        for (neighbour, is_up) in self.links.iter_mut() {
            if *neighbour == k {
                *is_up = up;
            }
        }
    }

    /// Why the input is refused: `UnknownDestination` for a need, and otherwise the first of `UnknownNeighbour`,
    /// `NotUp`, `AlreadyUp` and `WrongSender` that applies; `None` if it is not refused.
    fn refusal(&self, input: &Input) -> Option<StepError> {
        let (k, wants_up) = match input {
            Input::Need(d) if self.knows(*d) => return None,
            Input::Need(_) => return Some(StepError::UnknownDestination),
            Input::LinkUp(k) => (*k, false),
            Input::LinkDown(k) => (*k, true),
            Input::Packet(k, _) => (*k, true),
        };
        let Some(is_up) = self.is_up(k) else {
            return Some(StepError::UnknownNeighbour);
        };
        if wants_up && !is_up {
            return Some(StepError::NotUp);
        }
        if is_up && !wants_up {
            return Some(StepError::AlreadyUp);
        }
        match input {
            Input::Packet(_, Packet::Upd(update)) if parts_of(update).2 != k => {
                Some(StepError::WrongSender)
            }
            _ => None,
        }
    }

    /// Steps an input at tick `now`, and returns the packets to broadcast, or why the input is refused. The outer error
    /// says that memory ran out.
    pub fn step(
        &mut self,
        alloc: Global,
        input: &Input,
        now: u64,
    ) -> Result<Result<Vec<Told>, StepError>, AllocError> {
        if let Some(error) = self.refusal(input) {
            return Ok(Err(error));
        }
        let mut sends = Vec::new(alloc);
        for view in self.views.iter_mut() {
            if let Some(told) = view.step(input, now) {
                sends.push(told)?;
            }
        }
        match input {
            Input::LinkUp(k) => self.set_up(*k, true),
            Input::LinkDown(k) => self.set_up(*k, false),
            _ => {}
        }
        Ok(Ok(sends))
    }

    /// The text of the table, as `Core::show` writes it; the error says that memory ran out.
    pub fn show(&self, alloc: Global) -> Result<String, AllocError> {
        let mut text = String::new(alloc);
        for view in self.views.iter() {
            view.write(&mut text)?;
        }
        Ok(text)
    }
}
