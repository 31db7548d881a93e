//! A list of compressed outbound messages, the last few of which are stored inline.
ghost use Rattle.std.specs.Prelude.{◌≡◌, ◌<◌, ◌≤◌, ◌+◌, ◌^◌, ◌++◌, ◌∷◌, [], length, take, slice_get, slice_set};
ghost use Rattle.std.specs.Prelude.{vec_len, vec_capacity, OnOk};
ghost use Rattle.tora_sim.specs.declared.store.kept_list.TheConstants.{INLINE_KEPT};

use crate::store::kept_cargoes::KeptCargo;
use std::alloc::{AllocError, Global};
use std::marker::Model;

/// The number of inline places of a list.
pub const INLINE_KEPT: usize = 4;

/// The least number of places by which a short list grows.
const FIRST_LISTED: usize = 12;

/// From this length on, a list grows by the rule of `Vec`.
const LONG_LIST: usize = 64;

/// From this length on, 2^62, the list does not grow.
const MOST_LISTED: usize = 0x4000_0000_0000_0000;

/// Compressed outbound messages in order of arrival. The last few are inline and move into the list together, so only
/// every fourth message touches the list's memory.
#[derive(Drop)]
pub struct KeptList {
    /// The number of inline messages.
    count: usize,
    inline_items: [KeptCargo; INLINE_KEPT],
    list: Vec<KeptCargo>,
}

/// The least number of places by which a list of `count` outbound messages grows. A short list doubles, so that it
/// moves less often.
fn more_of(count: usize) -> usize
    ensures { INLINE_KEPT ≤ result }
{
    if count < LONG_LIST {
        count.max(FIRST_LISTED)
    } else {
        INLINE_KEPT
    }
}

impl Model for KeptList {
    ghost use Rattle.std.specs.Prelude.{◌≡◌, ◌<◌, ◌≤◌, ◌+◌, ◌++◌, ◌-◌, length, take};
    ghost use Rattle.tora_sim.specs.declared.store.kept_list.TheConstants.{INLINE_KEPT, MOST_LISTED};
    ghost use Rattle.tora_sim.specs.KeptCargoes.{KeptItems};

    ghost Value = { KeptItems };

    ghost view = { λ l. record {
      items = l.list.items ++ take l.count l.inline_items;
      places = INLINE_KEPT - l.count;
    } };

    ghost invariant = { λ l. (l.count ≤ INLINE_KEPT) × (length l.inline_items ≡ INLINE_KEPT)
        × (length l.list.items < MOST_LISTED + INLINE_KEPT) };
}

impl KeptList {
    /// An empty list.
    pub fn new(alloc: Global) -> KeptList
        ensures { result.items ≡ [] }
    {
        KeptList {
            list: Vec::new(alloc),
            count: 0,
            inline_items: [KeptCargo::Cut(0); INLINE_KEPT],
        }
    }

    /// The number of outbound messages.
    #[inline(always)]
    pub fn len(&self) -> usize
        ensures len { result ≡ length self.now.items }
        ensures most { result < 2 ^ 63 }
    {
        self.list.len() + self.count
    }

    /// Makes room for one more outbound message. If no inline place is free, the inline messages move into the list.
    ///
    /// # Errors
    /// Memory ran out, or the list has 2^62 messages.
    #[inline(always)]
    pub fn reserve(&mut self) -> Result<(), AllocError>
        ensures items { self.new.items ≡ self.old.items }
        ensures room { OnOk result (0 < self.new.places) }
    {
        if self.count < INLINE_KEPT {
            return Ok(());
        }
        self.put_away()
    }

    /// Moves the inline messages into the list.
    ///
    /// # Errors
    /// Memory ran out, or the list has 2^62 messages.
    #[inline(never)]
    fn put_away(&mut self) -> Result<(), AllocError>
        requires { self.old.places ≡ 0 }
        ensures items { self.new.items ≡ self.old.items }
        ensures room { OnOk result (0 < self.new.places) }
    {
        if self.list.len() >= MOST_LISTED {
            return Err(AllocError);
        }
        self.list.reserve(more_of(self.list.len()))?;
        append_all(&mut self.list, &self.inline_items);
        self.count = 0;
        Ok(())
    }

    /// Appends an outbound message. There must be room for it.
    #[inline(always)]
    pub fn push(&mut self, kept: KeptCargo)
        requires { 0 < self.old.places }
        ensures { self.new.items ≡ self.old.items ++ kept ∷ [] }
    {
        set_inline(&mut self.inline_items, self.count, kept);
        self.count += 1;
    }

    /// The outbound message at the index `place`, counted from 0; `None` past the last one.
    pub fn get(&self, place: usize) -> Option<KeptCargo>
        ensures { result ≡ slice_get self.now.items place }
    {
        let first = self.list.len();
        if place < first {
            return self.list.get(place).copied();
        }
        inline_at(&self.inline_items, self.count, place - first)
    }
}

/// Writes an outbound message to the inline place at the index `at`.
#[inline(always)]
fn set_inline(inline_items: &mut [KeptCargo; INLINE_KEPT], at: usize, kept: KeptCargo)
    requires { at < INLINE_KEPT }
    ensures { inline_items.new ≡ slice_set inline_items.old at kept }
{
    inline_items[at] = kept;
}

/// The inline message at the index `at`; `None` if `at` is not below `count`.
fn inline_at(inline_items: &[KeptCargo; INLINE_KEPT], count: usize, at: usize) -> Option<KeptCargo>
    requires { count ≤ INLINE_KEPT }
    ensures { result ≡ slice_get (take count inline_items.now) at }
{
    inline_items[..count].get(at).copied()
}

/// Appends all inline messages to a list.
fn append_all(list: &mut Vec<KeptCargo>, inline_items: &[KeptCargo; INLINE_KEPT])
    requires { vec_len list.old + INLINE_KEPT ≤ vec_capacity list.old }
    ensures { list.new.items ≡ list.old.items ++ inline_items.now }
{
    for at in 0..INLINE_KEPT {
        list.push_reserved(inline_items[at]);
    }
}
