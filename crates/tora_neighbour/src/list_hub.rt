//! A hub over lists, for tests.
ghost use Rattle.std.specs.Prelude.{◌≡◌, [], false, IfOk};

use crate::hub::{Hub, Put};
use std::alloc::{AllocError, Global};
use std::marker::Model;
use std::sync::Wait;
use tora_lane::{Cargo, Gone, What};

/// For tests only: a hub that returns given outbound messages in order, and stores up to a given number of items. If it
/// is full, a put returns `Gone`, and so does every later put.
#[derive(Drop)]
pub struct ListHub {
    kept: Vec<Put>,
    room: usize,
    cargoes: Vec<Cargo>,
    next: usize,
    gone: bool,
}

impl Model for ListHub {
    ghost use Rattle.std.specs.Prelude.{◌≤◌, take, drop, length, vec_capacity};
    ghost use Rattle.tora_neighbour.specs.ListHub.{ListHubView};

    ghost Value = { ListHubView };

    ghost view = { λ h. record {
      puts = h.kept.items;
      room = h.room;
      takes = take h.next h.cargoes.items;
      cargoes = drop h.next h.cargoes.items;
      gone = h.gone;
    } };

    ghost invariant = { λ h. (length h.kept.items ≤ h.room) × (h.room ≤ vec_capacity h.kept)
        × (h.next ≤ length h.cargoes.items) };
}

impl ListHub {
    /// A hub that returns these outbound messages and stores up to `room` items. It allocates room for them at once.
    ///
    /// # Errors
    /// Out of memory.
    pub fn new(alloc: Global, room: usize, cargoes: Vec<Cargo>) -> Result<ListHub, AllocError>
        ensures { IfOk result
            (λ h. h ≡ record { puts = []; room = room; takes = []; cargoes = cargoes.items; gone = false }) }
    {
        Ok(ListHub {
            kept: Vec::with_capacity(alloc, room)?,
            room,
            cargoes,
            next: 0,
            gone: false,
        })
    }

    /// The items that were put, oldest first.
    pub fn kept(&self) -> &[Put]
        ensures { result.now ≡ self.now.puts }
    {
        self.kept.as_slice()
    }
}

impl Hub for ListHub {
    ghost use Rattle.tora_neighbour.specs.ListHub.{PutsInList, TakesFromList};

    ghost puts = { λ h. h.puts };

    ghost takes = { λ h. h.takes };

    ghost gone = { λ h. h.gone };

    ghost did_put = { λ h now what answer after. PutsInList h now what answer after };

    ghost did_take = { λ h answer after. TakesFromList h answer after };

    fn put<R: Wait>(&mut self, _rt: &R, now: u64, what: What) -> Result<(), Gone> {
        if self.gone || self.kept.len() >= self.room {
            self.gone = true;
            return Err(Gone);
        }
        self.kept.push_reserved(Put { now, what });
        Ok(())
    }

    fn take<R: Wait>(&mut self, _rt: &R) -> Option<Cargo> {
        if self.next >= self.cargoes.len() {
            return None;
        }
        let cargo = self.cargoes[self.next];
        self.next += 1;
        Some(cargo)
    }
}
