//! The nodes of a trace, and the index of each.
ghost use Rattle.std.specs.Prelude.{◌≡◌, ◌==◌, ⊤, MatchBool, IfOk, nat_lt};
ghost use Rattle.std.specs.List.{position};
ghost use Rattle.std.specs.List.Sorted.{IsStrictlyIncreasing};

use std::alloc::{AllocError, Global};
use std::marker::Model;
use tora_core::numbers::place_of;
use tora_height::Id;

/// The nodes of a trace, in the order in which they were given.
#[derive(Drop)]
pub struct Names {
    nodes: Vec<Id>,
    /// Whether each number is less than the next. If so, an index is found by binary search.
    is_rising: bool,
}

impl Model for Names {
    ghost use Rattle.std.specs.Prelude.{ℕ, List, ⊤, MatchBool};
    ghost use Rattle.std.specs.List.Sorted.{IsStrictlyIncreasing};

    ghost Value = { List ℕ };

    ghost view = { λ s. s.nodes.items };

    ghost invariant = { λ s. MatchBool s.is_rising (IsStrictlyIncreasing s.nodes.items) ⊤ };
}

impl Names {
    /// A list of these nodes, in the given order.
    ///
    /// # Errors
    /// Out of memory.
    pub fn new(alloc: Global, nodes: &[Id]) -> Result<Names, AllocError>
        ensures { IfOk result (λ names. names ≡ nodes.now) }
    {
        let is_rising = is_rising(nodes);
        let nodes = Vec::from_slice(alloc, nodes)?;
        Ok(Names { nodes, is_rising })
    }

    /// The index of a node, counted from 0; the first one, if it occurs twice. `None` if it does not occur.
    pub fn place(&self, n: Id) -> Option<usize>
        ensures { result ≡ position (λ m. m == n) self.now }
    {
        place_among(&self.nodes, self.is_rising, n)
    }
}

/// Whether `a` is less than `b`.
pub fn is_less(a: Id, b: Id) -> bool
    ensures { result ≡ nat_lt a b }
{
    a < b
}

/// Whether each number is less than the next.
fn is_rising(numbers: &[Id]) -> bool
    ensures { MatchBool result (IsStrictlyIncreasing numbers.now) ⊤ }
{
    for i in 1..numbers.len() {
        if !is_less(numbers[i - 1], numbers[i]) {
            return false;
        }
    }
    true
}

/// The first index of a number; `None` if it does not occur. `is_rising` says that each number is less than the next.
fn place_among(numbers: &[Id], is_rising: bool, n: Id) -> Option<usize>
    requires { MatchBool is_rising (IsStrictlyIncreasing numbers.now) ⊤ }
    ensures { result ≡ position (λ m. m == n) numbers.now }
{
    if is_rising {
        place_by_halves(numbers, n)
    } else {
        place_of(n, numbers)
    }
}

/// The index of a number in a list in which each number is less than the next; `None` if it does not occur.
fn place_by_halves(numbers: &[Id], n: Id) -> Option<usize>
    requires { IsStrictlyIncreasing numbers.now }
    ensures { result ≡ position (λ m. m == n) numbers.now }
{
    numbers.binary_search(&n).ok()
}
