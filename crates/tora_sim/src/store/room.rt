//! Room in lists that get few items.
ghost use Rattle.std.specs.Prelude.{◌≡◌, ◌<◌, vec_len, vec_capacity, OnOk};

use std::alloc::AllocError;

/// Makes room for one more item. The first item gets room for itself alone, since most of these lists stay that short.
///
/// # Errors
/// Memory ran out.
pub fn reserve_one<T: Drop>(items: &mut Vec<T>) -> Result<(), AllocError>
    ensures items { items.new.items ≡ items.old.items }
    ensures room { OnOk result (vec_len items.new < vec_capacity items.new) }
{
    if items.is_empty() {
        items.reserve_exact(1)
    } else {
        items.reserve(1)
    }
}
