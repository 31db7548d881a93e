//! Which of sixteen deadlines have come, by one comparison of all of them.
ghost use Rattle.std.specs.Prelude.{◌≡◌, ◌+◌, ◌≤◌, length};
ghost use Rattle.tora_sim.specs.Deadlines.{due_bits};

use crate::deadlines::short;
use std::simd::prelude::*;

/// A bit for each of the 16 ticks from the index `first` on, the lowest for the first: it is set if the tick has come.
#[inline(always)]
pub fn due_bits(ticks: &[u32], first: usize, now: u64) -> u16
    requires { first + 16 ≤ length ticks.now }
    ensures { result ≡ due_bits now first ticks.now }
{
    let near = u32x16::from_slice(&ticks[first..]);
    near.simd_le(u32x16::splat(short(now))).to_bitmask() as u16
}
