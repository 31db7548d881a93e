//! Outbound messages (`Cargo`) in order: a few inline, or more in a list.
ghost use Rattle.std.specs.Prelude.{◌≡◌, ◌<◌, ◌≤◌, ◌+◌, ◌⊎◌, ◌^◌, ◌-◌, ◌++◌, ◌∷◌, [], length, drop, take, vec_len};
ghost use Rattle.std.specs.Prelude.{vec_capacity, slice_get, slice_set, Some, IfOk, OnOk};
ghost use Rattle.tora_seat.specs.declared.TheConstants.{MOST_CARGOES};
ghost use Rattle.tora_sim.specs.declared.store.inline_cargoes.TheConstants.{INLINE_CARGOES};
ghost use Rattle.tora_sim.specs.Lane.{IsWhole, AreOthersAsWhole};

use crate::store::kept_cargoes::append;
use crate::store::pool::Pool;
use std::alloc::{AllocError, Global};
use std::marker::Model;
use tora_arq::Life;
use tora_seat::{Cargo, MOST_CARGOES};

/// The number of inline places.
pub const INLINE_CARGOES: usize = 4;

/// Outbound messages in the order in which they were put: up to `INLINE_CARGOES` inline, or all in a list. If there is
/// none left before a turn of the core, the memory of the list is freed, and the next messages are stored inline.
#[derive(Drop)]
pub struct InlineCargoes {
    /// Whether the outbound messages are in the list.
    is_wide: bool,
    /// The number of inline messages, if there is no list.
    count: usize,
    list: Vec<Cargo>,
    cells: [Cargo; INLINE_CARGOES],
}

impl Model for InlineCargoes {
    ghost use Rattle.std.specs.Prelude.{◌≡◌, ◌<◌, ◌≤◌, [], true, false, length, vec_capacity};
    ghost use Rattle.tora_sim.specs.declared.store.inline_cargoes.TheConstants.{INLINE_CARGOES};
    ghost use Rattle.tora_sim.specs.Lane.{CargoesView, cargoes_in};

    ghost Value = { CargoesView };

    ghost view = { λ c. cargoes_in c.is_wide c.count c.cells c.list.items (vec_capacity c.list) };

    ghost invariant = { λ c. (c.count ≤ INLINE_CARGOES) × (length c.cells ≡ INLINE_CARGOES)
        × (c.is_wide ≡ true → 0 < vec_capacity c.list) × (c.is_wide ≡ false → c.list.items ≡ []) };
}

impl InlineCargoes {
    /// An empty list.
    pub fn new(alloc: Global) -> InlineCargoes
        ensures items { result.items ≡ [] }
        ensures places { result.places ≡ 0 }
    {
        InlineCargoes {
            count: 0,
            cells: [Cargo::Cut(Life { own: 0, peer: 0 }); INLINE_CARGOES],
            is_wide: false,
            list: Vec::new(alloc),
        }
    }

    /// The outbound messages, in order.
    #[inline(always)]
    pub fn as_slice(&self) -> &[Cargo]
        ensures items { result.now ≡ self.now.items }
        ensures most { length result.now < 2 ^ 63 }
    {
        if self.is_wide {
            return self.list.as_slice();
        }
        &self.cells[..self.count]
    }

    /// The outbound message at an index, which must be below `len`.
    #[inline(always)]
    pub fn at(&self, place: usize) -> Cargo
        requires { place < length self.now.items }
        ensures cargo { slice_get self.now.items place ≡ Some result }
        ensures most { length self.now.items < 2 ^ 63 }
    {
        self.as_slice()[place]
    }

    /// The number of outbound messages.
    #[inline(always)]
    pub fn len(&self) -> usize
        ensures len { result ≡ length self.now.items }
        ensures most { result < 2 ^ 63 }
    {
        if self.is_wide {
            return self.list.len();
        }
        self.count
    }

    /// Removes the first `count` outbound messages. There must be as many.
    pub fn drop_first(&mut self, count: usize)
        requires { count ≤ length self.old.items }
        ensures items { self.new.items ≡ drop count self.old.items }
        ensures places { self.new.places ≡ self.old.places }
    {
        if self.is_wide {
            self.list.drain(..count);
            return;
        }
        drop_cells(&mut self.cells, self.count, count);
        self.count -= count;
    }

    /// If the outbound messages are in a list, allocates room for `MOST_CARGOES` in all. An empty list is freed, and
    /// the next messages are stored inline again.
    ///
    /// # Errors
    /// Memory ran out.
    pub fn reserve(&mut self) -> Result<(), AllocError>
        ensures items { self.new.items ≡ self.old.items }
        ensures inline_items { self.old.places ≡ 0 → self.new.places ≡ 0 }
        ensures places { OnOk result ((self.new.places ≡ 0) ⊎ (MOST_CARGOES ≤ self.new.places)) }
    {
        if !self.is_wide {
            return Ok(());
        }
        if self.list.is_empty() {
            let alloc = *self.list.allocator();
            self.count = 0;
            self.is_wide = false;
            self.list = Vec::new(alloc);
            return Ok(());
        }
        let needed = MOST_CARGOES.saturating_sub(self.list.len());
        self.list.reserve(needed)
    }

    /// Appends an outbound message: inline or to the list. If the inline places are full, all messages move to the list
    /// that the pool `pool` has at the index `place`.
    #[inline(always)]
    pub fn push(&mut self, cargo: &Cargo, pool: &mut Pool, place: usize)
        requires { ((self.old.places ≡ 0) × IsWhole pool.old place) ⊎ (length self.old.items < self.old.places) }
        ensures items { self.new.items ≡ self.old.items ++ cargo.now ∷ [] }
        ensures places { ((self.new.places ≡ self.old.places) × (pool.new ≡ pool.old))
            ⊎ ((length self.old.items ≤ INLINE_CARGOES) × (MOST_CARGOES + INLINE_CARGOES ≤ self.new.places)) }
        ensures others { AreOthersAsWhole pool.old pool.new place }
    {
        if self.is_wide {
            append(&mut self.list, cargo);
            return;
        }
        if self.count < INLINE_CARGOES {
            set_cell(&mut self.cells, self.count, cargo);
            self.count += 1;
            return;
        }
        self.list = listed(&self.cells, pool, place);
        self.is_wide = true;
        append(&mut self.list, cargo);
    }
}

/// Replaces the outbound message at an index.
#[inline(always)]
fn set_cell(cells: &mut [Cargo; INLINE_CARGOES], at: usize, cargo: &Cargo)
    requires { at < INLINE_CARGOES }
    ensures { cells.new ≡ slice_set cells.old at cargo.now }
{
    cells[at] = *cargo;
}

/// Moves the outbound messages from the index `first` to below `count` to the front.
fn drop_cells(cells: &mut [Cargo; INLINE_CARGOES], count: usize, first: usize)
    requires first { first ≤ count }
    requires count { count ≤ INLINE_CARGOES }
    ensures cells { take (count - first) cells.new ≡ drop first (take count cells.old) }
    ensures many { length cells.new ≡ INLINE_CARGOES }
{
    if first < count {
        cells.copy_within(first..count, 0);
    }
}

/// All inline messages, in the list that the pool has at an index.
#[inline(never)]
fn listed(cells: &[Cargo; INLINE_CARGOES], pool: &mut Pool, place: usize) -> Vec<Cargo>
    requires { IsWhole pool.old place }
    ensures items { result.items ≡ cells.now }
    ensures places { MOST_CARGOES + INLINE_CARGOES ≤ vec_capacity result }
    ensures others { AreOthersAsWhole pool.old pool.new place }
{
    let mut list = pool.take(place);
    for at in 0..INLINE_CARGOES {
        append(&mut list, &cells[at]);
    }
    list
}
