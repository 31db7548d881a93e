//! The parts of a new router.
ghost use Rattle.std.specs.Prelude.{◌≡◌, ◌<◌, ◌≤◌, ◌^◌, All, IfNone, IfOk, IfSome, false, map};
ghost use Rattle.tora_arq.specs.Settings.{IsTimes};
ghost use Rattle.tora_core.specs.Kept.{IsCore};
ghost use Rattle.tora_core.specs.Numbers.{has_number};
ghost use Rattle.tora_router.specs.Refusals.{early_refusal, has_no_time};
ghost use Rattle.tora_router.specs.Router.{new_link, new_hop};

use crate::hop::Hop;
use crate::link::new_link;
use crate::links::Links;
use crate::{Config, GREATEST_LIFE, RouterError};
use std::alloc::{AllocError, Global};
use tora_arq::Times;
use tora_core::Core;
use tora_height::Id;

/// Whether one of these numbers is 0.
fn has_zero(numbers: &[Id]) -> bool
    ensures value { result ≡ has_number 0 numbers.now }
    ensures none { result ≡ false → All (λ n. 0 < n) numbers.now }
{
    numbers.iter().any(|n| *n == 0)
}

/// Whether one of the times is 0.
fn has_no_time(times: Times) -> bool
    ensures value { result ≡ has_no_time times }
    ensures none { result ≡ false → IsTimes times }
{
    let no_hearing = times.hello == 0 || times.silent == 0;
    let no_try = times.retry == 0 || times.tries == 0;
    no_hearing || no_try
}

/// Why a router is refused: `Id`, `Times` or `Life`, the first that applies. `None` if none does; the core checks the
/// other causes.
pub fn early_refusal(
    config: &Config,
    neighbours: &[Id],
    destinations: &[Id],
    first_life: u64,
) -> Option<RouterError>
    ensures value { result ≡ early_refusal config.now neighbours.now destinations.now first_life }
    ensures me { IfNone result (0 < config.now.me) }
    ensures neighbours { IfNone result (All (λ n. 0 < n) neighbours.now) }
    ensures destinations { IfNone result (All (λ n. 0 < n) destinations.now) }
    ensures times { IfNone result (IsTimes config.now.times) }
{
    let no_neighbour = has_zero(neighbours);
    let no_destination = has_zero(destinations);
    if config.me == 0 || (no_neighbour || no_destination) {
        return Some(RouterError::Id);
    }
    if has_no_time(config.times) {
        return Some(RouterError::Times);
    }
    if first_life == 0 || GREATEST_LIFE < first_life {
        return Some(RouterError::Life);
    }
    None
}

/// A link for each neighbour of a core; `None` if memory runs out.
pub fn new_links(alloc: Global, core: &Core, times: Times) -> Option<Links>
    requires { IsTimes times }
    ensures { IfSome result (λ links. links ≡ map (new_link core.now.me times) core.now.neighbours) }
{
    let me = core.me();
    let mut list = Vec::new(alloc);
    for peer in core.neighbours() {
        let link = new_link(alloc, me, *peer, times)?;
        let Ok(()) = list.push(link) else {
            return None;
        };
    }
    Some(Links::of(list))
}

/// The `Hop` of a destination whose next hop was not polled yet.
fn new_hop(destination: Id) -> Hop
    ensures { result ≡ new_hop destination }
{
    Hop {
        destination,
        told: None,
    }
}

/// The `Hop` of each destination, of which none was polled yet.
///
/// # Errors
/// Memory ran out.
pub fn new_hops(alloc: Global, destinations: &[Id]) -> Result<Vec<Hop>, AllocError>
    ensures { IfOk result (λ hops. hops.items ≡ map new_hop destinations.now) }
{
    destinations.iter().map(|d| new_hop(*d)).collect(alloc)
}
