//! The state of the plain implementation for one destination, and the rules on it.
use super::{Level, Parts, Told, parts_of};
use std::alloc::{AllocError, Global};
use tora_core::Input;
use tora_height::{GREATEST_DELTA, GREATEST_TAU, Id};
use tora_packet::Packet;

/// The state for one neighbour. `entry` is `None` if it is NULL or the link is down. `told` says whether an update was
/// broadcast since the link last changed and, if erased levels are remembered, since the neighbour's last clear.
#[derive(Clone, Copy)]
struct PlainRow {
    neighbour: Id,
    is_up: bool,
    entry: Option<Parts>,
    told: bool,
}

/// The state for one destination, with a row for each neighbour in ascending order. `flag` says whether a route is
/// required; `last` is the time of the level that the node defined last, 0 at first.
#[derive(Drop)]
pub struct PlainView {
    me: Id,
    pub destination: Id,
    height: Option<Parts>,
    flag: bool,
    rows: Vec<PlainRow>,
    last: u64,
    /// Whether erased levels are remembered, and the last one that was erased.
    remembers: bool,
    erased: Option<Level>,
}

/// The height of a destination for itself.
fn zero(destination: Id) -> Parts {
    ((0, 0, 0), 0, destination)
}

/// The height with these parts; `None` if tau or delta is out of range.
fn fit(level: Level, delta: i64, id: Id) -> Option<Parts> {
    let most = i64::from(GREATEST_DELTA);
    if level.0 <= GREATEST_TAU && delta <= most && delta >= -most {
        Some((level, delta, id))
    } else {
        None
    }
}

impl PlainView {
    /// The lowest entry; `None` if each is NULL.
    fn least(&self) -> Option<Parts> {
        let mut least: Option<Parts> = None;
        for row in self.rows.iter() {
            if let Some(entry) = row.entry {
                if least.is_none_or(|low| entry < low) {
                    least = Some(entry);
                }
            }
        }
        least
    }

    /// Of the entries at the greatest reference level, the first with the least delta; `None` if each entry is NULL.
    fn greatest(&self) -> Option<Parts> {
        let mut greatest: Option<Parts> = None;
        for row in self.rows.iter() {
            if let Some(entry) = row.entry {
                let is_greater = match greatest {
                    None => true,
                    Some(most) => entry.0 > most.0 || (entry.0 == most.0 && entry.1 < most.1),
                };
                if is_greater {
                    greatest = Some(entry);
                }
            }
        }
        greatest
    }

    /// Whether an entry is below the node's height; each entry is below NULL.
    fn is_below(&self, entry: Parts) -> bool {
        match self.height {
            None => true,
            Some(own) => entry < own,
        }
    }

    /// The neighbour with the lowest entry; `None` if there is no entry, or the lowest is not below the node's height.
    fn next_hop(&self) -> Option<Id> {
        let low = self.least()?;
        if self.is_below(low) {
            Some(low.2)
        } else {
            None
        }
    }

    fn lacks_down(&self) -> bool {
        self.height.is_some() && self.next_hop().is_none()
    }

    fn query(&mut self) -> Option<Told> {
        self.flag = true;
        Some(Told::Query(self.destination))
    }

    fn tell(&mut self) -> Option<Told> {
        let height = self.height?;
        for row in self.rows.iter_mut() {
            row.told = true;
        }
        Some(Told::Update(self.destination, height))
    }

    /// Sets the node's height to these parts, or to NULL if they are out of range. Returns the update to broadcast;
    /// `None` for NULL.
    fn take(&mut self, level: Level, delta: i64) -> Option<Told> {
        self.height = fit(level, delta, self.me);
        self.tell()
    }

    fn join(&mut self) -> Option<Told> {
        self.flag = false;
        self.height = None;
        let (level, delta, _) = self.least()?;
        self.take(level, delta.saturating_add(1))
    }

    fn define(&mut self, now: u64) -> Option<Told> {
        let mut time = now.max(1).max(self.last.saturating_add(1));
        if let Some((level, _, _)) = self.height {
            time = time.max(level.0.saturating_add(1));
        }
        if let Some((level, _, _)) = self.greatest() {
            time = time.max(level.0.saturating_add(1));
        }
        let told = self.take((time, self.me, 0), 0);
        if told.is_some() {
            self.last = time;
        }
        told
    }

    fn after_link_loss(&mut self, now: u64) -> Option<Told> {
        if self.least().is_none() {
            self.height = None;
            return None;
        }
        self.define(now)
    }

    fn after_update_loss(&mut self, now: u64) -> Option<Told> {
        let (Some(low), Some(most)) = (self.least(), self.greatest()) else {
            self.height = None;
            return None;
        };
        let ((tau, oid, r), delta, _) = most;
        if low.0 != most.0 {
            return self.take(most.0, delta.saturating_sub(1));
        }
        if r == 0 {
            return self.take((tau, oid, 1), 0);
        }
        if oid == self.me {
            return self.erase(tau, oid);
        }
        self.define(now)
    }

    /// Sets the node's height and each entry to NULL, except the entry of the destination, notes the level (`tau`,
    /// `oid`, 1) as erased, and returns the clear to broadcast.
    fn erase(&mut self, tau: u64, oid: u32) -> Option<Told> {
        self.height = None;
        self.erased = Some((tau, oid, 1));
        for row in self.rows.iter_mut() {
            if row.neighbour != self.destination {
                row.entry = None;
            }
        }
        Some(Told::Clear(self.destination, tau, oid))
    }

    /// Sets the state for a neighbour.
    fn put(&mut self, k: Id, is_up: bool, entry: Option<Parts>, told: bool) {
        for row in self.rows.iter_mut() {
            if row.neighbour == k {
                row.is_up = is_up;
                row.entry = entry;
                row.told = told;
            }
        }
    }

    fn link_up(&mut self, k: Id) -> Option<Told> {
        let is_destination = k == self.destination;
        let entry = if is_destination { Some(zero(k)) } else { None };
        self.put(k, true, entry, false);
        if self.me == self.destination || !self.flag {
            None
        } else if is_destination {
            self.join()
        } else {
            self.query()
        }
    }

    fn link_down(&mut self, k: Id, now: u64) -> Option<Told> {
        self.put(k, false, None, false);
        if self.me == self.destination || !self.lacks_down() {
            None
        } else {
            self.after_link_loss(now)
        }
    }

    fn need(&mut self) -> Option<Told> {
        if self.me != self.destination && !self.flag && self.least().is_none() {
            self.query()
        } else {
            None
        }
    }

    fn packet(&mut self, k: Id, packet: &Packet, now: u64) -> Option<Told> {
        if self.me == self.destination {
            return None;
        }
        match packet {
            Packet::Qry(_) => self.on_query(k),
            Packet::Upd(update) => self.on_update(k, parts_of(update), now),
            Packet::Clr(clear) => self.on_clear(k, clear.tau(), clear.oid(), now),
        }
    }

    fn on_query(&mut self, k: Id) -> Option<Told> {
        if self.next_hop().is_none() {
            return if self.flag { None } else { self.query() };
        }
        if self.height.is_none() {
            return self.join();
        }
        for row in self.rows.iter() {
            if row.neighbour == k && row.told {
                return None;
            }
        }
        self.tell()
    }

    /// Sets the entry of a neighbour to NULL, unless that neighbour is the destination.
    fn withdraw(&mut self, k: Id) {
        for row in self.rows.iter_mut() {
            if row.neighbour == k && k != self.destination {
                row.entry = None;
            }
        }
    }

    fn after_loss(&mut self, now: u64) -> Option<Told> {
        if self.lacks_down() {
            self.after_link_loss(now)
        } else {
            None
        }
    }

    fn on_update(&mut self, k: Id, entry: Parts, now: u64) -> Option<Told> {
        if self.remembers && self.erased == Some(entry.0) {
            self.withdraw(k);
            return self.after_loss(now);
        }
        for row in self.rows.iter_mut() {
            if row.neighbour == k {
                row.entry = Some(entry);
            }
        }
        if self.flag {
            self.join()
        } else if self.lacks_down() {
            self.after_update_loss(now)
        } else {
            None
        }
    }

    fn on_clear(&mut self, k: Id, tau: u64, oid: u32, now: u64) -> Option<Told> {
        let level = (tau, oid, 1);
        self.erased = Some(level);
        if self.remembers {
            self.withdraw(k);
            for row in self.rows.iter_mut() {
                if row.neighbour == k {
                    row.told = false;
                }
            }
        }
        if self.height.is_some_and(|own| own.0 == level) {
            return self.erase(tau, oid);
        }
        for row in self.rows.iter_mut() {
            let is_at = row.entry.is_some_and(|entry| entry.0 == level);
            if is_at && row.neighbour != self.destination {
                row.entry = None;
            }
        }
        self.after_loss(now)
    }

    /// Steps an input that is not refused, and returns the packet to broadcast; `None` if there is none, also because
    /// the input is about another destination.
    pub fn step(&mut self, input: &Input, now: u64) -> Option<Told> {
        match input {
            Input::LinkUp(k) => self.link_up(*k),
            Input::LinkDown(k) => self.link_down(*k, now),
            Input::Need(d) if *d == self.destination => self.need(),
            Input::Packet(k, packet) if packet.destination() == self.destination => {
                self.packet(*k, packet, now)
            }
            _ => None,
        }
    }

    /// Appends the lines of this destination to the text of the table; the error says that memory ran out.
    pub fn write(&self, text: &mut String) -> Result<(), AllocError> {
        let destination = self.destination;
        write!(text, "to {destination} height ")?;
        write_parts(text, self.height)?;
        let flag = u8::from(self.flag);
        match self.next_hop() {
            None => writeln!(text, " flag {flag} hop -")?,
            Some(hop) => writeln!(text, " flag {flag} hop {hop}")?,
        }
        for row in self.rows.iter() {
            if !row.is_up {
                continue;
            }
            let neighbour = row.neighbour;
            write!(text, "via {neighbour} ")?;
            write_parts(text, row.entry)?;
            let direction = match row.entry {
                Some(entry) if self.is_below(entry) => "down",
                Some(entry) if self.height != Some(entry) => "up",
                _ => "none",
            };
            writeln!(text, " {direction}")?;
        }
        Ok(())
    }
}

/// The view of a destination, with no link up.
pub fn view_of(
    alloc: Global,
    remembers: bool,
    me: Id,
    destination: Id,
    neighbours: &[Id],
) -> Result<PlainView, AllocError> {
    let mut rows = Vec::new(alloc);
    for k in neighbours {
        rows.push(PlainRow {
            neighbour: *k,
            is_up: false,
            entry: None,
            told: false,
        })?;
    }
    let height = if destination == me {
        Some(zero(me))
    } else {
        None
    };
    Ok(PlainView {
        me,
        destination,
        height,
        flag: false,
        rows,
        last: 0,
        remembers,
        erased: None,
    })
}

fn write_parts(text: &mut String, parts: Option<Parts>) -> Result<(), AllocError> {
    match parts {
        None => write!(text, "-"),
        Some(parts) => {
            let ((tau, oid, r), delta, id) = parts;
            write!(text, "({tau},{oid},{r}")?;
            write!(text, ",{delta},{id})")
        }
    }
}
