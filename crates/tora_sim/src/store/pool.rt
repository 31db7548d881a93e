//! A pool of empty lists for outbound queues whose inline places are full.
ghost use Rattle.std.specs.Prelude.{◌≡◌, ◌<◌, ◌≤◌, ◌+◌, [], length, vec_capacity, slice_index, OnOk};
ghost use Rattle.tora_seat.specs.declared.TheConstants.{MOST_CARGOES};
ghost use Rattle.tora_sim.specs.declared.store.inline_cargoes.TheConstants.{INLINE_CARGOES};
ghost use Rattle.tora_sim.specs.Lane.{IsWhole, AreWhole, AreOthersAsWhole};

use crate::store::inline_cargoes::INLINE_CARGOES;
use std::alloc::{AllocError, Global};
use std::marker::Model;
use std::mem;
use tora_seat::{Cargo, MOST_CARGOES};

/// An empty list in a pool.
#[derive(Drop)]
pub struct Spare {
    list: Vec<Cargo>,
}

impl Model for Spare {
    ghost use Rattle.std.specs.Prelude.{◌≡◌, ℕ, [], vec_capacity};

    ghost Value = { ℕ };

    ghost view = { λ s. vec_capacity s.list };

    ghost invariant = { λ s. s.list.items ≡ [] };
}

impl Spare {
    /// A list without memory.
    fn new(alloc: Global) -> Spare {
        Spare {
            list: Vec::new(alloc),
        }
    }

    /// Allocates room for all messages that an outbound queue can hold, and for the inline ones.
    ///
    /// # Errors
    /// Memory ran out.
    fn make_whole(&mut self) -> Result<(), AllocError>
        ensures { OnOk result (MOST_CARGOES + INLINE_CARGOES ≤ self.new) }
    {
        self.list.reserve_exact(MOST_CARGOES + INLINE_CARGOES)
    }

    /// Takes the list, and leaves an empty one without memory.
    fn take(&mut self) -> Vec<Cargo>
        ensures items { result.items ≡ [] }
        ensures places { vec_capacity result ≡ self.old }
    {
        let alloc = *self.list.allocator();
        mem::replace(&mut self.list, Vec::new(alloc))
    }
}

/// Empty lists for the outbound queues of the node that is served, one for each neighbour. A queue that needs a list
/// takes that of its neighbour, and frees it when it is empty before a turn of the core. Missing lists are allocated
/// before the next turn, so serving an item needs no memory, and only queues that held many messages have a list.
#[derive(Drop)]
pub struct Pool {
    lists: Vec<Spare>,
    /// This many of the first lists are known to have the room that `Spare::make_whole` allocates.
    whole: usize,
}

impl Model for Pool {
    ghost use Rattle.std.specs.Prelude.{◌≤◌, ℕ, List, length};
    ghost use Rattle.tora_sim.specs.Lane.{AreWhole};

    ghost Value = { List ℕ };

    ghost view = { λ s. s.lists.items };

    ghost invariant = { λ s. (s.whole ≤ length s.lists.items) × AreWhole s.lists.items s.whole };
}

impl Pool {
    /// An empty pool.
    pub fn new(alloc: Global) -> Pool {
        Pool {
            lists: Vec::new(alloc),
            whole: 0,
        }
    }

    /// Makes the first `count` lists whole: each has room for all messages that an outbound queue can hold.
    ///
    /// # Errors
    /// Memory ran out.
    #[inline(always)]
    pub fn make_whole(&mut self, count: usize) -> Result<(), AllocError>
        ensures { OnOk result (AreWhole self.new count) }
    {
        if count <= self.whole {
            return Ok(());
        }
        self.make_more(count)
    }

    /// `make_whole` for lists that are not known to be whole.
    ///
    /// # Errors
    /// Memory ran out.
    #[inline(never)]
    fn make_more(&mut self, count: usize) -> Result<(), AllocError>
        ensures { OnOk result (AreWhole self.new count) }
    {
        make_all(&mut self.lists, self.whole, count)?;
        self.whole = count;
        Ok(())
    }

    /// Takes the list at an index, which must be whole, and leaves an empty list without memory there.
    pub fn take(&mut self, place: usize) -> Vec<Cargo>
        requires { IsWhole self.old place }
        ensures items { result.items ≡ [] }
        ensures places { MOST_CARGOES + INLINE_CARGOES ≤ vec_capacity result }
        ensures others { AreOthersAsWhole self.old self.new place }
    {
        self.whole = self.whole.min(place);
        self.lists[place].take()
    }
}

/// Makes the lists from the index `from` to below `count` whole.
///
/// # Errors
/// Memory ran out.
fn make_all(lists: &mut Vec<Spare>, from: usize, count: usize) -> Result<(), AllocError>
    requires within { from ≤ length lists.old.items }
    requires whole { AreWhole lists.old.items from }
    ensures all { OnOk result (AreWhole lists.new.items count) }
    ensures many { OnOk result (count ≤ length lists.new.items) }
    ensures within { from ≤ length lists.new.items }
    ensures kept { AreWhole lists.new.items from }
{
    for place in from..count {
        make_one(lists, place)?;
    }
    Ok(())
}

/// Makes the list at an index whole; appends it first if it is the next one.
///
/// # Errors
/// Memory ran out.
fn make_one(lists: &mut Vec<Spare>, place: usize) -> Result<(), AllocError>
    requires { place ≤ length lists.old.items }
    ensures whole { OnOk result (IsWhole lists.new.items place) }
    ensures within { OnOk result (place < length lists.new.items) }
    ensures more { length lists.old.items ≤ length lists.new.items }
    ensures others { AreOthersAsWhole lists.old.items lists.new.items place }
{
    if place == lists.len() {
        let alloc = *lists.allocator();
        lists.push(Spare::new(alloc))?;
    }
    lists[place].make_whole()
}
