//! A bit for each pair of nodes below 1,024: whether the two are parted.
ghost use Rattle.std.specs.Prelude.{◌≡◌, ◌<◌, ◌≤◌, ℕ, true, false, cond, length, OnOk};
ghost use Rattle.tora_script.specs.Pairs.{pair_eq};
ghost use Rattle.tora_script.specs.PairBits.{word_of, place_of, has_bit};

use std::alloc::AllocError;
use tora_height::Id;

/// Nodes below this number have bits.
pub const SMALL: Id = 1024;

/// The number of bits in a word.
const BITS: Id = 64;

/// The number of words in the row of a lower node.
const ROW: usize = 16;

/// The number of words of all rows, once they are allocated.
const WORDS: usize = 16_384;

/// The index of the word with the bit of a lower and a higher node.
#[inline(always)]
fn word_of(key: (Id, Id)) -> usize
    ensures { result ≡ word_of key }
{
    key.0 as usize * ROW + (key.1 / BITS) as usize
}

/// The place of the bit in its word.
#[inline(always)]
fn place_of(key: (Id, Id)) -> Id
    ensures { result ≡ place_of key }
{
    key.1 % BITS
}

/// Whether the bit of a lower node and a higher node below 1,024 is set; false if the bits are not allocated. For a
/// higher node from 1,024 on, the bit that is read may belong to another pair.
#[inline(always)]
pub fn has_bit(words: &Vec<u64>, key: (Id, Id)) -> bool
    ensures { result ≡ has_bit words.now.items key }
{
    let at = word_of(key);
    if at < words.len() {
        (words[at] >> place_of(key)) & 1 == 1
    } else {
        false
    }
}

/// Allocates the memory for the bits, unless it is allocated already or the higher node has no bits.
///
/// # Errors
/// Memory ran out. The bits do not change, with or without an error.
pub fn make_bits(words: &mut Vec<u64>, key: (Id, Id)) -> Result<(), AllocError>
    ensures same { (other : ℕ × ℕ) → has_bit words.new.items other ≡ has_bit words.old.items other }
    ensures many { OnOk result (key.1 < 1024 → 16384 ≤ length words.new.items) }
{
    if key.1 < SMALL && words.len() < WORDS {
        words.resize(WORDS, 0)?;
    }
    Ok(())
}

/// Sets the bit of a lower node and a higher node, if the higher is below 1,024.
pub fn set_bit(words: &mut Vec<u64>, key: (Id, Id))
    requires ordered { key.0 ≤ key.1 }
    requires many { key.1 < 1024 → 16384 ≤ length words.old.items }
    ensures { (other : ℕ × ℕ) → other.1 < 1024 → has_bit words.new.items other
        ≡ cond (pair_eq key other) true (has_bit words.old.items other) }
{
    if key.1 < SMALL {
        let at = word_of(key);
        words[at] |= 1 << place_of(key);
    }
}

/// Clears the bit of a lower node and a higher node, if the higher is below 1,024 and the bits are allocated.
pub fn clear_bit(words: &mut Vec<u64>, key: (Id, Id))
    ensures { (other : ℕ × ℕ) → other.1 < 1024 → has_bit words.new.items other
        ≡ cond (pair_eq key other) false (has_bit words.old.items other) }
{
    let at = word_of(key);
    if key.1 < SMALL && at < words.len() {
        words[at] &= !(1 << place_of(key));
    }
}
