//! The next hops that the host polled last.
ghost use Rattle.std.specs.Prelude.{◌≡◌, ℕ, IfNone, IfSome};
ghost use Rattle.tora_router.specs.declared.change.Change.{Change as Changed};
ghost use Rattle.tora_router.specs.Links.{at_place, first_in};
ghost use Rattle.tora_router.specs.Router.{is_same_hop, hop_change, hop_told};

use crate::change::Change;
use tora_core::Core;
use tora_height::Id;

/// The next hop to a destination that the host polled last. `told` is `None` if there was no next hop then, or if the
/// host has polled none yet.
#[derive(Clone, Copy, Debug, PartialEq, Eq)]
pub struct Hop {
    pub destination: Id,
    pub told: Option<Id>,
}

/// Whether two next hops are the same.
fn is_same_hop(one: Option<Id>, two: Option<Id>) -> bool
    ensures { result ≡ is_same_hop one two }
{
    match (one, two) {
        (None, None) => true,
        (None, Some(_)) => false,
        (Some(_), None) => false,
        (Some(j), Some(k)) => j == k,
    }
}

impl Hop {
    /// Returns the next hop if it differs from the one polled last, and marks it as polled; otherwise `None`.
    fn poll(&mut self, core: &Core) -> Option<Change>
        ensures change { result ≡ hop_change core.now self.old }
        ensures none { IfNone result (self.new ≡ self.old) }
        ensures some { IfSome result (λ _. self.new ≡ hop_told core.now self.old) }
    {
        let hop = core.next_hop(self.destination);
        if is_same_hop(self.told, hop) {
            return None;
        }
        self.told = hop;
        Some(Change::NextHop(self.destination, hop))
    }
}

/// Returns the next hop of the first destination whose next hop differs from the one polled last, with the index of the
/// destination, and marks it as polled. `None` if there is no such destination; nothing changes then.
pub fn poll_hops(hops: &mut Vec<Hop>, core: &Core) -> Option<(usize, Change)>
    ensures first { result ≡ first_in (hop_change core.now) hops.old.items }
    ensures none { IfNone result (hops.new.items ≡ hops.old.items) }
    ensures some { IfSome result (λ (found : ℕ × Changed). hops.new.items
        ≡ at_place (hop_told core.now) found.0 hops.old.items) }
{
    for place in 0..hops.len() {
        if let Some(change) = hops[place].poll(core) {
            return Some((place, change));
        }
    }
    None
}
