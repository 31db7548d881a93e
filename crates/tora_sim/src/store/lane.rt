//! The outbound queue (`Lane`): the queue of outbound messages (`Cargo`) from a core to a link end, with all that it
//! ever held.
ghost use Rattle.std.specs.Prelude.{◌≡◌, ◌<◌, ◌≤◌, ◌⊎◌, ◌+◌, ◌++◌, ◌∷◌, [], true, suc, Some, length, nat_lt, slice_get};
ghost use Rattle.std.specs.Prelude.{take, OnOk, IfOk};
ghost use Rattle.tora_seat.specs.declared.TheConstants.{MOST_CARGOES};
ghost use Rattle.tora_world.specs.Lists.{packets_of, parcels_in};
ghost use Rattle.tora_sim.specs.Lane.{AreOthersAsWhole, Fits, has_place_in};

use crate::store::inline_cargoes::InlineCargoes;
use crate::store::kept_cargoes::KeptCargoes;
use crate::store::packets::{count_kept, count_put, list_kept, list_put};
use crate::store::pool::Pool;
use std::alloc::{AllocError, Global};
use std::marker::Model;
use tora_arq::Life;
use tora_packet::Packet;
use tora_seat::{Cargo, MOST_CARGOES};

/// The outbound queue from a core to a link end, with all outbound messages that were ever put into it.
///
/// Messages that have left the queue are compressed before the next turn of the node's core, when memory may be
/// requested. A few waiting messages are stored inline; only a queue with more has a list.
#[derive(Drop)]
pub struct Lane {
    /// How many of `cargoes` have left the queue.
    taken: usize,
    /// The last outbound messages that were put; those that have left the queue come first.
    cargoes: InlineCargoes,
    /// The outbound messages before `cargoes`, all of which have left the queue.
    past: KeptCargoes,
}

impl Model for Lane {
    ghost use Rattle.std.specs.Prelude.{◌≤◌, length};
    ghost use Rattle.tora_sim.specs.Lane.{LaneView, lane_of};

    ghost Value = { LaneView };

    ghost view = { λ l. lane_of l.past.items l.cargoes l.taken };

    ghost invariant = { λ l. l.taken ≤ length l.cargoes.items };
}

impl Lane {
    /// An empty outbound queue.
    pub fn new(alloc: Global) -> Lane
        ensures put { result.put ≡ [] }
        ensures pulled { result.pulled ≡ 0 }
    {
        Lane {
            past: KeptCargoes::new(alloc),
            cargoes: InlineCargoes::new(alloc),
            taken: 0,
        }
    }

    /// Whether an outbound message waits.
    pub fn has_cargo(&self) -> bool
        ensures { result ≡ nat_lt self.now.pulled (length self.now.put) }
    {
        self.taken < self.cargoes.len()
    }

    /// Whether fewer than `MOST_CARGOES` outbound messages wait.
    pub fn has_place(&self) -> bool
        ensures { result ≡ has_place_in self.now }
    {
        self.cargoes.len() - self.taken < MOST_CARGOES
    }

    /// The first outbound message that waits, which stays in the queue. One must wait.
    pub fn next(&self) -> Cargo
        requires { self.now.pulled < length self.now.put }
        ensures { slice_get self.now.put self.now.pulled ≡ Some result }
    {
        self.cargoes.at(self.taken)
    }

    /// Removes and returns the first outbound message that waits. One must wait.
    pub fn take(&mut self) -> Cargo
        requires { self.old.pulled < length self.old.put }
        ensures cargo { slice_get self.old.put self.old.pulled ≡ Some result }
        ensures lane { self.new ≡ record self.old { pulled = suc self.old.pulled } }
    {
        let cargo = self.cargoes.at(self.taken);
        self.taken += 1;
        cargo
    }

    /// Removes all outbound messages that wait.
    pub fn take_all(&mut self)
        ensures { self.new ≡ record self.old { pulled = length self.old.put } }
    {
        self.taken = self.cargoes.len();
    }

    /// Compresses the outbound messages that have left the queue. If the queue has a list, allocates room there for
    /// `MOST_CARGOES` messages, or frees it if it is empty.
    ///
    /// # Errors
    /// Memory ran out.
    pub fn make_room(&mut self) -> Result<(), AllocError>
        ensures put { self.new.put ≡ self.old.put }
        ensures pulled { self.new.pulled ≡ self.old.pulled }
        ensures room { OnOk result ((self.new.room ≡ 0) ⊎ (self.new.pulled + MOST_CARGOES ≤ self.new.room)) }
    {
        keep_taken(&mut self.past, &mut self.cargoes, &mut self.taken)?;
        self.cargoes.reserve()
    }

    /// Puts an outbound message at the back. Fewer than `MOST_CARGOES` must wait. The queue must have room in its list,
    /// or no list and a whole list in the pool `pool` at the index `spare`, which it takes when its inline places are
    /// full.
    #[inline(always)]
    pub fn put(&mut self, cargo: Cargo, pool: &mut Pool, spare: usize)
        requires room { Fits self.old.pulled self.old.room pool.old spare }
        requires place { has_place_in self.old ≡ true }
        ensures put { self.new.put ≡ self.old.put ++ cargo ∷ [] }
        ensures pulled { self.new.pulled ≡ self.old.pulled }
        ensures room { Fits self.new.pulled self.new.room pool.new spare }
        ensures others { AreOthersAsWhole pool.old pool.new spare }
    {
        self.cargoes.push(&cargo, pool, spare);
    }

    /// How many packets of a session were ever put into the queue.
    pub fn sent_count(&self, life: Life) -> usize
        ensures { result ≡ length (packets_of life (parcels_in self.now.put)) }
    {
        count_kept(&self.past, life) + count_put(self.cargoes.as_slice(), life)
    }

    /// The packets of a session that were ever put into the queue, in order.
    ///
    /// # Errors
    /// Memory ran out.
    pub fn sent(&self, alloc: Global, life: Life) -> Result<Vec<Packet>, AllocError>
        ensures { IfOk result (λ v. v.items ≡ packets_of life (parcels_in self.now.put)) }
    {
        let mut packets = Vec::new(alloc);
        list_kept(&mut packets, &self.past, life)?;
        list_put(&mut packets, self.cargoes.as_slice(), life)?;
        Ok(packets)
    }
}

/// Compresses the outbound messages that have left a queue. If memory runs out, only the first of them are compressed.
///
/// # Errors
/// Memory ran out.
fn keep_taken(
    past: &mut KeptCargoes,
    cargoes: &mut InlineCargoes,
    taken: &mut usize,
) -> Result<(), AllocError>
    requires { taken.old ≤ length cargoes.old.items }
    ensures inline_items { cargoes.old.places ≡ 0 → cargoes.new.places ≡ 0 }
    ensures all { past.new.items ++ cargoes.new.items ≡ past.old.items ++ cargoes.old.items }
    ensures pulled { length past.new.items + taken.new ≡ length past.old.items + taken.old }
    ensures within { taken.new ≤ length cargoes.new.items }
    ensures done { OnOk result (taken.new ≡ 0) }
{
    if *taken == 0 {
        return Ok(());
    }
    let kept = keep_first(past, &cargoes.as_slice()[..*taken]);
    cargoes.drop_first(kept);
    *taken -= kept;
    if *taken == 0 { Ok(()) } else { Err(AllocError) }
}

/// Appends outbound messages until memory runs out, and returns how many it appended.
fn keep_first(past: &mut KeptCargoes, cargoes: &[Cargo]) -> usize
    ensures kept { past.new.items ≡ past.old.items ++ take result cargoes.now }
    ensures within { result ≤ length cargoes.now }
{
    for place in 0..cargoes.len() {
        if past.reserve().is_err() {
            return place;
        }
        past.push(&cargoes[place]);
    }
    cargoes.len()
}
