//! Ring buffers that can grow.
ghost use Rattle.std.specs.Prelude.{◌≡◌, ◌<◌, ◌≤◌, ◌∷◌, ◌++◌, [], length, drop, slice_get, slice_set, Some, OnErr};
ghost use Rattle.std.specs.Prelude.{OnOk};
ghost use Rattle.circular_buffer.specs.Buffer.{buffer};

use circular_buffer::HeapCircularBuffer;
use std::alloc::AllocError;

/// The fewest places that a ring has after it has grown.
const FEWEST_PLACES: usize = 4;

/// The item at a place.
#[inline(always)]
pub fn at<T: Copy + Drop>(ring: &HeapCircularBuffer<T>, place: usize) -> T
    requires { place < length ring.now.items }
    ensures { slice_get ring.now.items place ≡ Some result }
{
    let Some(item) = ring.get(place) else {
        unreachable!()
    };
    *item
}

/// Appends an item.
#[inline(always)]
pub fn push<T: Drop>(ring: &mut HeapCircularBuffer<T>, item: T)
    requires { length ring.old.items < ring.old.capacity }
    ensures { ring.new ≡ buffer (ring.old.items ++ item ∷ []) ring.old.capacity }
{
    let Ok(()) = ring.try_push_back(item) else {
        unreachable!()
    };
}

/// Replaces the item at an index.
pub fn set<T: Drop>(ring: &mut HeapCircularBuffer<T>, place: usize, item: T)
    requires { place < length ring.old.items }
    ensures { ring.new ≡ buffer (slice_set ring.old.items place item) ring.old.capacity }
{
    let Some(slot) = ring.get_mut(place) else {
        unreachable!()
    };
    *slot = item;
}

/// Removes the first `count` items.
pub fn remove_first<T: Drop>(ring: &mut HeapCircularBuffer<T>, count: usize)
    requires { count ≤ length ring.old.items }
    ensures { ring.new ≡ buffer (drop count ring.old.items) ring.old.capacity }
{
    let left = ring.len() - count;
    ring.truncate_front(left);
}

/// Makes room for this many items in all. A ring with less room gets twice its places, or `places` if that is more, and
/// at least `FEWEST_PLACES`.
///
/// # Errors
/// Out of memory; nothing changes then.
#[inline(always)]
pub fn make_room<T: Drop>(ring: &mut HeapCircularBuffer<T>, places: usize) -> Result<(), AllocError>
    ensures items { ring.new.items ≡ ring.old.items }
    ensures more { ring.old.capacity ≤ ring.new.capacity }
    ensures room { OnOk result (places ≤ ring.new.capacity) }
    ensures same { OnErr result (ring.new ≡ ring.old) }
{
    if places <= ring.capacity() {
        return Ok(());
    }
    grow(ring, places)
}

/// As `make_room`, if the room has to grow. It is a separate function because growing is rare.
#[inline(never)]
fn grow<T: Drop>(ring: &mut HeapCircularBuffer<T>, places: usize) -> Result<(), AllocError>
    requires { ring.old.capacity < places }
    ensures items { ring.new.items ≡ ring.old.items }
    ensures more { ring.old.capacity ≤ ring.new.capacity }
    ensures room { OnOk result (places ≤ ring.new.capacity) }
    ensures same { OnErr result (ring.new ≡ ring.old) }
{
    let twice = 2 * ring.capacity();
    ring.resize(places.max(twice).max(FEWEST_PLACES))
}
