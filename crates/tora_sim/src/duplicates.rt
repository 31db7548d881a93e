//! Links that are named twice.
ghost use Rattle.std.specs.Prelude.{◌≡◌};
ghost use Rattle.tora_world.specs.Topology.{is_same_link, has_link, has_repeated_link};
ghost use Rattle.tora_sim.specs.Topologies.{link_in, links_in};

use crate::link_keys::are_known_apart;
use tora_height::Id;

/// Whether some link is named twice, either way round.
///
/// If the keys of the links do not show that all links differ, each link is compared with all later ones.
pub fn has_repeated_link(links: &[(Id, Id)]) -> bool
    ensures { result ≡ has_repeated_link (links_in links.now) }
{
    if are_known_apart(links) {
        return false;
    }
    some_link_stands_again(links)
}

/// Whether some link is named again later, either way round. Each link is compared with all later ones.
fn some_link_stands_again(links: &[(Id, Id)]) -> bool
    ensures { result ≡ has_repeated_link (links_in links.now) }
{
    let mut left = links.len();
    while left > 0 {
        left -= 1;
        if has_link(links[left], &links[left + 1..]) {
            return true;
        }
    }
    false
}

/// Whether the link `x` is among the links, either way round.
fn has_link(x: (Id, Id), links: &[(Id, Id)]) -> bool
    ensures { result ≡ has_link (link_in x) (links_in links.now) }
{
    links.iter().any(|link| is_same_link(x, *link))
}

/// Whether two links have the same two nodes, either way round.
fn is_same_link(x: (Id, Id), y: (Id, Id)) -> bool
    ensures { result ≡ is_same_link (link_in x) (link_in y) }
{
    (x.0 == y.0 && x.1 == y.1) || (x.0 == y.1 && x.1 == y.0)
}
