//! Values in blocks of their own.
ghost use Rattle.std.specs.Prelude.{◌≡◌, IfErr, IfOk};

use crate::codes::MEMORY;
use std::alloc::Global;

/// A value in a heap block of its own. The error is `MEMORY`.
pub fn boxed<T: Drop>(alloc: Global, value: T) -> Result<Box<T, Global>, u32>
    ensures value { IfOk result (λ b. b.value ≡ value) }
    ensures memory { IfErr result (λ code. code ≡ MEMORY) }
{
    match Box::new(alloc, value) {
        Ok(value) => Ok(value),
        Err(_) => Err(MEMORY),
    }
}
