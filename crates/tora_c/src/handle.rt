//! A box as a raw pointer, for a struct that a caller in C holds.
//!
//! C cannot hold a `Box`, but it can hold a struct with a pointer. A `RawBox` is such a pointer, with the allocator
//! that frees its block. It owns the value of the box, and contracts see that value. Its pointer is never null.
ghost use Rattle.std.specs.Prelude.{◌≡◌};
ghost use Rattle.std_alloc.specs.Box.Ownership.{box_owns};

use std::alloc::Allocator;
use std::marker::Model;

/// The pointer of a box, and the allocator of its block. It owns the block and the value there.
pub struct RawBox<T, A: Allocator> {
    pub pointer: *mut T,
    pub allocator: A,
    pub ghost value: { T },
}

impl<T, A: Allocator> Model for RawBox<T, A> {
    ghost also_owns = { λ raw. box_owns (A.dealloc_token raw.allocator) T.row raw.pointer raw.value };
}

impl<T: Drop, A: Allocator> RawBox<T, A> {
    /// Takes a box apart into its pointer and its allocator.
    pub fn of(boxed: Box<T, A>) -> RawBox<T, A>
        ensures { result.value ≡ boxed.value }
    {
        let (pointer, allocator) = Box::into_raw_with_allocator(boxed);
        RawBox { pointer, allocator }
    }

    /// The box with this pointer and this allocator.
    pub fn into_box(self) -> Box<T, A>
        ensures { result.value ≡ self.value }
    {
        let RawBox { pointer, allocator } = self;
        unsafe { Box::from_raw(allocator, pointer) }
    }
}
