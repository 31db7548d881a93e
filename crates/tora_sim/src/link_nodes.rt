//! The nodes of links, and the neighbours of a node.
ghost use Rattle.std.specs.Prelude.{◌≡◌, ◌<◌, ◌≤◌, ◌-◌, true, MatchOption, MatchBool, length, nat_lt, if◌then◌else◌};
ghost use Rattle.tora_core.specs.Numbers.{ascending, has_number};
ghost use Rattle.tora_world.specs.Topology.{nodes_in, with_node, different_neighbours, other_ends};
ghost use Rattle.tora_sim.specs.Topologies.{link_in, links_in, is_named, with_end};

use arrayvec::ArrayVec;
use tora_core::GREATEST_NEIGHBOURS;
use tora_core::numbers::{has_number, insert_number};
use tora_height::Id;
use tora_world::GREATEST_NODES;

/// The most nodes at the other ends of a node's links: one more than its neighbours within any limits, because a link
/// of the node to itself names the node.
const MOST_ENDS: usize = GREATEST_NEIGHBOURS + 1;

/// Whether a link names this node.
pub fn is_named(n: Id, links: &[(Id, Id)]) -> bool
    ensures { result ≡ is_named n links.now }
{
    links.iter().any(|link| link.0 == n || link.1 == n)
}

/// Whether a link names this node. It builds no list of the nodes.
pub fn names_node(n: Id, links: &[(Id, Id)]) -> bool
    ensures { result ≡ has_number n (nodes_in (links_in links.now)) }
{
    is_named(n, links)
}

/// The neighbours of a node, in ascending order.
pub fn neighbours_of(links: &[(Id, Id)], n: Id) -> ArrayVec<Id, GREATEST_NEIGHBOURS>
    requires { length (other_ends n (links_in links.now)) ≤ GREATEST_NEIGHBOURS }
    ensures { result.items ≡ ascending (other_ends n (links_in links.now)) }
{
    let mut neighbours = ArrayVec::new();
    for link in links {
        if link.0 == n {
            insert_number(&mut neighbours, link.1);
        } else if link.1 == n {
            insert_number(&mut neighbours, link.0);
        }
    }
    neighbours
}

/// The nodes that links name, in ascending order; `None` if there are more than `GREATEST_NODES`.
pub fn nodes_of(links: &[(Id, Id)]) -> Option<ArrayVec<Id, GREATEST_NODES>>
    ensures { MatchOption result (GREATEST_NODES < length (nodes_in (links_in links.now))) (λ nodes.
        nodes.items ≡ nodes_in (links_in links.now)) }
{
    let mut nodes = ArrayVec::new();
    let mut left = links.len();
    while left > 0 {
        left -= 1;
        let (a, b) = links[left];
        if !put(&mut nodes, b) {
            return None;
        }
        if !put(&mut nodes, a) {
            return None;
        }
    }
    Some(nodes)
}

/// Whether a node has more than `most` neighbours.
pub fn has_many_neighbours(most: usize, n: Id, links: &[(Id, Id)]) -> bool
    requires { most ≤ GREATEST_NEIGHBOURS }
    ensures { result ≡ nat_lt most (length (different_neighbours n (links_in links.now))) }
{
    let mut ends: ArrayVec<Id, MOST_ENDS> = ArrayVec::new();
    let mut left = links.len();
    while left > 0 {
        left -= 1;
        if !put_end(&mut ends, n, links[left]) {
            return true;
        }
    }
    count_others(n, ends.as_slice()) > most
}

/// How many of these nodes, which all differ, are not node `n`.
pub fn count_others(n: Id, ends: &[Id]) -> usize
    ensures { result ≡ (if has_number n ends.now then length ends.now - 1 else length ends.now) }
{
    if has_number(n, ends) {
        ends.len().saturating_sub(1)
    } else {
        ends.len()
    }
}

/// Adds the other end of a link to an ascending list, if it is a link of node `n` and the list does not have that end.
/// Returns `false`, and adds nothing, if there is no room for it.
pub fn put_end<const N: usize>(ends: &mut ArrayVec<Id, N>, n: Id, link: (Id, Id)) -> bool
    ensures { MatchBool result (ends.new.items ≡ with_end n (link_in link) ends.old.items)
        (N < length (with_end n (link_in link) ends.old.items)) }
{
    if link.0 == n {
        put(ends, link.1)
    } else if link.1 == n {
        put(ends, link.0)
    } else {
        true
    }
}

/// Adds a number to an ascending list, unless the list has it. Returns `false`, and adds nothing, if there is no room
/// for it.
pub fn put<const N: usize>(numbers: &mut ArrayVec<Id, N>, n: Id) -> bool
    ensures { MatchBool result (numbers.new.items ≡ with_node n numbers.old.items)
        (N < length (with_node n numbers.old.items)) }
{
    if is_among(n, numbers.as_slice()) {
        return true;
    }
    if numbers.is_full() {
        return false;
    }
    insert_number(numbers, n);
    true
}

/// Whether a number is in a list. A binary search comes first; if it fails, every number is compared.
pub fn is_among(n: Id, numbers: &[Id]) -> bool
    ensures { result ≡ has_number n numbers.now }
{
    is_found(n, numbers) || has_number(n, numbers)
}

/// Whether a binary search finds a number.
pub fn is_found(n: Id, numbers: &[Id]) -> bool
    ensures { result ≡ true → has_number n numbers.now ≡ true }
{
    match numbers.binary_search(&n) {
        Ok(at) => numbers[at] == n,
        Err(_) => false,
    }
}
