//! The last recorded route to a destination, and its changes.
ghost use Rattle.std.specs.Prelude.{◌≡◌, ◌++◌, IfOk, OnOk, map, string_bytes};
ghost use Rattle.tora_script.specs.TraceRecords.{route_record};
ghost use Rattle.tora_script.specs.CoreCopies.{known_height, is_same_height, is_same_hop, is_changed};
ghost use Rattle.tora_script.specs.CoreCopies.{route_of, route_told, routes_told, route_change, route_changes};

use crate::trace::text::{HeightText, HopText};
use std::alloc::{AllocError, Global};
use std::cmp::Ordering;
use tora_core::Core;
use tora_height::{Entry, Id};

/// The last recorded route of a node to a destination.
#[derive(Clone, Copy, Debug)]
pub struct Route {
    pub destination: Id,
    /// The node's own height; NULL if the table does not have the destination.
    pub height: Entry,
    /// The node's next hop; `None` if it has none.
    pub hop: Option<Id>,
}

/// The height for a destination; NULL if the table does not have it.
fn known_height(height: Option<Entry>) -> Entry
    ensures { result ≡ known_height height }
{
    match height {
        None => None,
        Some(entry) => entry,
    }
}

/// Whether two heights are equal, or both are NULL.
fn is_same_height(a: Entry, b: Entry) -> bool
    ensures { result ≡ is_same_height a b }
{
    match (a, b) {
        (None, None) => true,
        (None, Some(_)) => false,
        (Some(_), None) => false,
        (Some(a), Some(b)) => match a.height_cmp(&b) {
            Ordering::Less => false,
            Ordering::Equal => true,
            Ordering::Greater => false,
        },
    }
}

/// Whether two next hops are the same node, or both are none.
fn is_same_hop(a: Option<Id>, b: Option<Id>) -> bool
    ensures { result ≡ is_same_hop a b }
{
    match (a, b) {
        (None, None) => true,
        (None, Some(_)) => false,
        (Some(_), None) => false,
        (Some(a), Some(b)) => a == b,
    }
}

/// The route of a core to a destination.
fn route_of(core: &Core, d: Id) -> Route
    ensures { result ≡ route_of core.now d }
{
    Route {
        destination: d,
        height: known_height(core.height(d)),
        hop: core.next_hop(d),
    }
}

/// The routes of a core to destinations.
pub fn routes_to(alloc: Global, core: &Core, destinations: &[Id]) -> Result<Vec<Route>, AllocError>
    ensures { IfOk result (λ routes. routes.items ≡ map (route_of core.now) destinations.now) }
{
    destinations
        .iter()
        .map(|d| route_of(core, *d))
        .collect::<Vec<Route>>(alloc)
}

/// Whether the route of a core differs from the last recorded one.
fn is_changed(core: &Core, told: &Route) -> bool
    ensures { result ≡ is_changed core.now told.now }
{
    let d = told.destination;
    !(is_same_height(told.height, known_height(core.height(d)))
        && is_same_hop(told.hop, core.next_hop(d)))
}

/// Appends the record of a route to a text.
#[tactic(auto, unfolding(crate::specs::TraceRecords::route_record))]
fn write_route(out: &mut String, now: u64, n: Id, route: &Route) -> Result<(), AllocError>
    ensures { OnOk result (string_bytes out.new ≡ string_bytes out.old
        ++ route_record now n route.now.destination route.now.height route.now.hop) }
{
    let d = route.destination;
    let height = HeightText(route.height);
    let hop = HopText(route.hop);
    write!(out, "{now} route {n} {d}")?;
    writeln!(out, " {height} {hop}")
}

/// Appends the record of a route to a text, if it differs from the last recorded one.
#[tactic(auto, unfolding(crate::specs::CoreCopies::route_change))]
fn write_change(out: &mut String, now: u64, core: &Core, told: &Route) -> Result<(), AllocError>
    ensures { OnOk result (string_bytes out.new ≡ string_bytes out.old ++ route_change now core.now told.now) }
{
    if !is_changed(core, told) {
        return Ok(());
    }
    let route = route_of(core, told.destination);
    write_route(out, now, core.me(), &route)
}

/// Appends the records of those routes of the core to a text that differ from the last recorded ones, `routes`.
pub fn write_routes(
    out: &mut String,
    now: u64,
    core: &Core,
    routes: &[Route],
) -> Result<(), AllocError>
    ensures { OnOk result (string_bytes out.new ≡ string_bytes out.old ++ route_changes now core.now routes.now) }
{
    for told in routes {
        write_change(out, now, core, told)?;
    }
    Ok(())
}

/// Replaces a recorded route by the core's present one.
#[tactic(auto, unfolding(crate::specs::CoreCopies::route_told))]
fn note_route(core: &Core, told: &mut Route)
    ensures { told.new ≡ route_told core.now told.old }
{
    let d = told.destination;
    *told = route_of(core, d);
}

/// Replaces the recorded routes by the core's present ones.
pub fn note_routes(core: &Core, routes: &mut [Route])
    ensures { routes.new ≡ routes_told core.now routes.old }
{
    for told in routes.iter_mut() {
        note_route(core, told);
    }
}
