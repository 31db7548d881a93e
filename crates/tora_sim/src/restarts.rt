//! Restarts of a node.
ghost use Rattle.std.specs.Prelude.{◌≡◌, ◌+◌, ◌≤◌, ℕ, length, IfOk, IfErr};
ghost use Rattle.tora_sim.specs.Links.{AreChanged};
ghost use Rattle.tora_sim.specs.Restarts.{AreFresh, restarted};

use crate::SimError;
use crate::link_slot::LinkSlot;
use std::alloc::Global;
use tora_arq::GrowingEnd;

/// A new, closed link end for each of the `count` ends from the index `first` on, in their order.
///
/// # Errors
/// `Memory`.
pub fn new_ends(
    alloc: Global,
    links: &Vec<LinkSlot>,
    first: usize,
    count: usize,
) -> Result<Vec<GrowingEnd>, SimError>
    requires { first + count ≤ length links.now.items }
    ensures fresh { IfOk result (λ ends. AreFresh links.now.items first count ends.items) }
    ensures as_many { IfOk result (λ ends. length ends.items ≡ count) }
    ensures memory { IfErr result (λ e. e ≡ SimError.Memory) }
{
    let Ok(mut ends) = Vec::with_capacity(alloc, count) else {
        return Err(SimError::Memory);
    };
    for place in 0..count {
        let at = first + place;
        match links[at].new_end(alloc) {
            Ok(end) => ends.push_reserved(end),
            Err(error) => return Err(error),
        }
    }
    Ok(ends)
}

/// Restarts the link ends from the index `first` on, as `LinkSlot::restart` does: each is replaced by one of `ends`,
/// its outbound queue is emptied, and its life file is opened after a crash of its disk. Afterwards `ends` has the old
/// ends.
pub fn restart_ends(
    links: &mut Vec<LinkSlot>,
    first: usize,
    ends: &mut Vec<GrowingEnd>,
    torn: Option<[u8; 16]>,
)
    requires within { first + length ends.old.items ≤ length links.old.items }
    requires fresh { AreFresh links.old.items first (length ends.old.items) ends.old.items }
    ensures { AreChanged (restarted torn) links.old.items links.new.items first (length ends.old.items) }
{
    let count = ends.len();
    for place in 0..count {
        let at = first + place;
        links[at].restart(&mut ends[place], torn);
    }
}
