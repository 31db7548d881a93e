//! The link ends of a node among those of all nodes.
ghost use Rattle.std.specs.Prelude.{◌≡◌, ◌≤◌, ⊤, [], MatchBool, drop, length, take};
ghost use Rattle.tora_script.specs.NodeEnds.{AreByNode};
ghost use Rattle.tora_script.specs.Trace.{neighbours_in};

use crate::trace::names::is_less;
use tora_height::Id;

/// Whether the ends are in ascending order of nodes.
pub fn are_by_node(ends: &[(Id, Id)]) -> bool
    ensures { MatchBool result (AreByNode ends.now) ⊤ }
{
    for i in 1..ends.len() {
        if is_less(ends[i].0, ends[i - 1].0) {
            return false;
        }
    }
    true
}

/// A part of the ends that has all ends of node `n`. It has no others if the ends are in ascending order of nodes.
pub fn ends_of(ends: &[(Id, Id)], is_by_node: bool, n: Id) -> &[(Id, Id)]
    requires { MatchBool is_by_node (AreByNode ends.now) ⊤ }
    ensures { neighbours_in result.now n ≡ neighbours_in ends.now n }
{
    if is_by_node {
        ends_by_halves(ends, n)
    } else {
        ends
    }
}

/// The ends of a node, if all ends are in ascending order of nodes.
fn ends_by_halves(ends: &[(Id, Id)], n: Id) -> &[(Id, Id)]
    requires { AreByNode ends.now }
    ensures { neighbours_in result.now n ≡ neighbours_in ends.now n }
{
    let first = count_before(ends, n);
    let (_, rest) = ends.split_at(first);
    let count = count_up_to(rest, n);
    let (own, _) = rest.split_at(count);
    own
}

/// The number of ends before those of a node.
fn count_before(ends: &[(Id, Id)], n: Id) -> usize
    requires { AreByNode ends.now }
    ensures bound { result ≤ length ends.now }
    ensures none { neighbours_in (take result ends.now) n ≡ [] }
{
    ends.partition_point(|end| end.0 < n)
}

/// How many of the first ends are of node `n` or nodes below it.
fn count_up_to(ends: &[(Id, Id)], n: Id) -> usize
    requires { AreByNode ends.now }
    ensures bound { result ≤ length ends.now }
    ensures none { neighbours_in (drop result ends.now) n ≡ [] }
{
    ends.partition_point(|end| end.0 <= n)
}
