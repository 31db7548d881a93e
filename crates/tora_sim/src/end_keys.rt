//! The keys of link ends, and the search for an end by its key.
ghost use Rattle.std.specs.Prelude.{◌≡◌, IfSome, IfNone, None, Some, MatchResult, find, map, slice_get};
ghost use Rattle.tora_sim.specs.Links.{is_at, is_key, key_of, AreRising, AreRisingKeys};
ghost use Rattle.tora_sim.specs.Keyed.{IsFirst};

use crate::SimError;
use crate::link_slot::LinkSlot;
use std::alloc::Global;
use tora_height::Id;

/// The keys of the link ends, in their order.
///
/// # Errors
/// `Memory`.
pub fn keys_of(alloc: Global, links: &[LinkSlot]) -> Result<Vec<(Id, Id)>, SimError>
    ensures { MatchResult result (λ keys. keys.items ≡ map key_of links.now) (λ e. e ≡ SimError.Memory) }
{
    let mut keys = Vec::new(alloc);
    for link in links {
        match keys.push(link.key()) {
            Ok(()) => {}
            Err(_) => return Err(SimError::Memory),
        }
    }
    Ok(keys)
}

/// Whether a key names the end of node `n` towards `k`.
#[inline(always)]
pub fn is_key(key: (Id, Id), n: Id, k: Id) -> bool
    ensures { result ≡ is_key n k key }
{
    key.0 == n && key.1 == k
}

/// The index of the end of node `n` towards `k`, by the keys of the ends; `None` if there is no such end.
pub fn place(_links: &Vec<LinkSlot>, keys: &Vec<(Id, Id)>, n: Id, k: Id) -> Option<usize>
    requires rising { AreRising _links.now.items }
    requires keys { keys.now.items ≡ map key_of _links.now.items }
    ensures first { IfSome result (λ i. IsFirst (is_at n k) _links.now.items i) }
    ensures none { IfNone result (find (is_at n k) _links.now.items ≡ None) }
{
    let ends = keys.as_slice();
    search(ends, n, k)
}

/// The index of the end of node `n` towards `k`; `None` if there is no such end. The ends are searched only if that end
/// is not at the index `at`.
#[inline(always)]
pub fn place_near(
    links: &Vec<LinkSlot>,
    keys: &Vec<(Id, Id)>,
    at: usize,
    n: Id,
    k: Id,
) -> Option<usize>
    requires rising { AreRising links.now.items }
    requires keys { keys.now.items ≡ map key_of links.now.items }
    ensures first { IfSome result (λ i. IsFirst (is_at n k) links.now.items i) }
    ensures none { IfNone result (find (is_at n k) links.now.items ≡ None) }
{
    let ends = keys.as_slice();
    match stands_at(ends, at, n, k) {
        Some(at) => Some(at),
        None => place(links, keys, n, k),
    }
}

/// The index `at` if the end of node `n` towards `k` is there; otherwise `None`.
#[inline(always)]
fn stands_at(keys: &[(Id, Id)], at: usize, n: Id, k: Id) -> Option<usize>
    ensures { IfSome result (λ i. slice_get keys.now i ≡ Some (n, k)) }
{
    match keys.get(at) {
        Some(key) => { if is_key(*key, n, k) { Some(at) } else { None } }
        None => None,
    }
}

/// The index of the end of node `n` towards `k`, found by a binary search; `None` if there is no such end.
fn search(keys: &[(Id, Id)], n: Id, k: Id) -> Option<usize>
    requires { AreRisingKeys keys.now }
    ensures first { IfSome result (λ i. slice_get keys.now i ≡ Some (n, k)) }
    ensures none { IfNone result (find (is_key n k) keys.now ≡ None) }
{
    keys.binary_search(&(n, k)).ok()
}
