//! The words of a line.
ghost use Rattle.std.specs.Prelude.{◌≡◌, ℕ, List, ◌+◌, ◌*◌, ◌^◌, ◌<◌, ◌≤◌, ◌==◌, length, Option, Some, None, IfSome};
ghost use Rattle.std.specs.Prelude.{IfOk, All, take, drop, nat_lt, if◌then◌else◌, true, false};
ghost use Rattle.std.specs.Option.{option_map};
ghost use Rattle.std.specs.List.{position, list_all};
ghost use Rattle.std.specs.Fmt.{decimal};
ghost use Rattle.std.specs.Char.{is_ascii_digit};
ghost use Rattle.tora_lines.specs.Words.{cut, value_from, number_of, id_of, list_of, ids_of, split, is_dash};
ghost use Rattle.tora_lines.specs.Gives.{Gives};
ghost use Rattle.tora_lines.specs.declared.words.LineError.TheVariants.{Memory};

use std::alloc::{AllocError, AllocFailed, Global};
use tora_height::Id;

/// Why a line was not processed: memory ran out, or the line is a fault.
#[derive(Clone, Copy, Debug, PartialEq, Eq)]
pub enum LineError {
    Memory,
    Fault,
}

impl From<AllocError> for LineError {
    ghost from_gives = { λ _ e. e ≡ Memory };

    fn from(_e: AllocError) -> LineError {
        LineError::Memory
    }
}

impl<T: Drop> From<AllocFailed<T>> for LineError {
    ghost from_gives = { λ _ e. e ≡ Memory };

    fn from(_e: AllocFailed<T>) -> LineError {
        LineError::Memory
    }
}

/// The index of the first `separator` in the text; `None` if there is none.
pub fn place(separator: u8, text: &[u8]) -> Option<usize>
    ensures { result ≡ position (λ x. x == separator) text.now }
{
    text.iter().position(|x| *x == separator)
}

/// The parts of the text before and after the first `separator`; `None` if there is none.
#[tactic(auto, unfolding(crate::specs::Words::cut))]
pub fn cut(separator: u8, text: &[u8]) -> Option<(&[u8], &[u8])>
    ensures parts { option_map (λ parts. (parts.0.now, parts.1.now)) result ≡ cut separator text.now }
    ensures shorter { IfSome result (λ parts. length parts.1.now < length text.now) }
{
    let at = place(separator, text)?;
    if at >= text.len() {
        return None;
    }
    Some((&text[..at], &text[at + 1..]))
}

/// The number that decimal digits spell, 0 for no digits; `None` if it is 2^64 or more.
fn value(text: &[u8]) -> Option<u64>
    requires { list_all is_ascii_digit text.now ≡ true }
    ensures { result ≡ (if nat_lt (value_from 0 text.now) (2 ^ 64) then Some (value_from 0 text.now) else None) }
{
    let mut value = 0u64;
    for c in text {
        let digit = u64::from(*c - b'0');
        value = value.checked_mul(10)?.checked_add(digit)?;
    }
    Some(value)
}

/// Whether each byte of the text is a decimal digit; also `true` for an empty text.
fn is_all_digits(text: &[u8]) -> bool
    ensures { result ≡ list_all is_ascii_digit text.now }
{
    text.iter().all(|c| c.is_ascii_digit())
}

/// The number below 2^64 that the text spells in decimal digits, without a leading zero, but `0` is read. `None` for
/// any other text.
#[tactic(auto, unfolding(crate::specs::Words::number_of))]
pub fn number(text: &[u8]) -> Option<u64>
    ensures { result ≡ number_of text.now }
{
    if text.is_empty() || !is_all_digits(text) {
        return None;
    }
    if text[0] == b'0' && text.len() > 1 {
        return None;
    }
    value(text)
}

/// The node number that the text spells, from 1 to 2^32 - 1, in decimal digits without a leading zero. `None` for any
/// other text.
#[tactic(auto, unfolding(crate::specs::Words::id_of))]
pub fn id(text: &[u8]) -> Option<Id>
    ensures value { result ≡ id_of text.now }
    ensures positive { IfSome result (λ n. 0 < n) }
{
    let n = number(text)?;
    if 0 < n && n < 0x1_0000_0000 {
        Some(n as u32)
    } else {
        None
    }
}

/// One or more ids, separated by commas. The error is `Fault` for any other text, and `Memory` if memory ran out.
fn ids(alloc: Global, text: &[u8]) -> Result<Vec<Id>, LineError>
    ensures value { Gives (λ v. v.items) result (ids_of (split 44 text.now)) }
    ensures positive { IfOk result (λ v. All (λ n. 0 < n) v.items) }
{
    let mut ids = Vec::new(alloc);
    let mut rest = text;
    while let Some((piece, after)) = cut(b',', rest) {
        let Some(n) = id(piece) else {
            return Err(LineError::Fault);
        };
        ids.push(n)?;
        rest = after;
    }
    let Some(n) = id(rest) else {
        return Err(LineError::Fault);
    };
    ids.push(n)?;
    Ok(ids)
}

/// Whether the text is the one byte `-`.
pub fn is_dash(text: &[u8]) -> bool
    ensures { result ≡ is_dash text.now }
{
    text.len() == 1 && text[0] == b'-'
}

/// A list of ids, separated by commas and in any order, or `-` for the empty list. The error is `Fault` for any other
/// text, and `Memory` if memory ran out.
#[tactic(auto, unfolding(crate::specs::Words::list_of))]
pub fn list(alloc: Global, text: &[u8]) -> Result<Vec<Id>, LineError>
    ensures value { Gives (λ v. v.items) result (list_of text.now) }
    ensures positive { IfOk result (λ v. All (λ n. 0 < n) v.items) }
{
    if is_dash(text) {
        return Ok(Vec::new(alloc));
    }
    ids(alloc, text)
}

/// A text is read as a number exactly if it is the printed form of that number.
pub fn numbers_are_read_as_printed()
    ensures prints { (text : List ℕ) (n : ℕ) → number_of text ≡ Some n → (text ≡ decimal n) × (n < 2 ^ 64) }
    ensures again { (n : ℕ) → n < 2 ^ 64 → number_of (decimal n) ≡ Some n }
{}
