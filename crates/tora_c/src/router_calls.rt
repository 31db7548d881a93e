//! The calls that make and free a router, and report events to it.
ghost use Rattle.std.specs.Prelude.{◌≡◌, ◌⊎◌, ◌<◌, IfErr, IfOk, MatchOption, None, OnOk, Some, option_map};
ghost use Rattle.tora_frame.specs.FrameGrammar.{frame_reading};
ghost use Rattle.tora_router.specs.Refusals.{router_refusal};
ghost use Rattle.tora_router.specs.Router.{after_cut, after_datagram, after_need, after_tick, first_router, router_of};
ghost use Rattle.tora_c.specs.Codes.{router_code};
ghost use Rattle.tora_c.specs.RouterHeld.{configured, cut_code, datagram_intake, held_router, need_code};
ghost use Rattle.tora_c.specs.RouterHeld.{new_router_refusal, of_held};

use crate::boxes::boxed;
use crate::codes::{
    CHOICE, MEMORY, NULL, OK, UNKNOWN_NEIGHBOUR, intake_code, refused_code, router_code,
};
use crate::core_node::erasure_of;
use crate::router_handle::RouterHandle;
use crate::router_parts::{TimesParts, times_of};
use std::alloc::Global;
use tora_core::CoreLimits;
use tora_router::{Config, Router};

/// The configuration of a router within the greatest limits; `None` if `choice` is no choice of erasure.
fn configured(me: u32, choice: u32, times: &TimesParts) -> Option<Config>
    ensures { result ≡ configured me choice times.now }
{
    let erasure = erasure_of(choice)?;
    Some(Config {
        me,
        times: times_of(times),
        erasure,
        limits: CoreLimits::GREATEST,
    })
}

/// A new router. The error is the code of the refusal (`router_code`).
fn made(
    alloc: Global,
    config: &Config,
    neighbours: &[u32],
    destinations: &[u32],
    first_life: u64,
) -> Result<Router, u32>
    ensures made { IfOk result (λ r.
        router_of r ≡ first_router config.now neighbours.now destinations.now first_life) }
    ensures accepted { OnOk result (router_refusal config.now neighbours.now destinations.now first_life ≡ None) }
    ensures refused { MatchOption (router_refusal config.now neighbours.now destinations.now first_life)
        (IfErr result (λ code. code ≡ MEMORY)) (λ e. result ≡ Err (router_code e)) }
    ensures above { IfErr result (λ code. OK < code) }
{
    match Router::new(alloc, config, neighbours, destinations, first_life) {
        Ok(router) => Ok(router),
        Err(error) => Err(router_code(error)),
    }
}

/// Replaces the router at `router` by a new one of node `me`, whose links are all closed. Their sessions get the
/// numbers `first_life` (1 to 2^62) and those above it. `erasure` is 0 for `Plain` and 1 for `Remembered`.
///
/// Codes in this order: `CHOICE`, `ZERO`, `LIFE`, `TOO_MANY`, `REPEATED`, `OWN_ID`, `MEMORY`; then the old router
/// stays.
#[unsafe(no_mangle)]
pub extern "C" fn tora_router_new(
    alloc: Global,
    router: &mut RouterHandle,
    me: u32,
    neighbours: &[u32],
    destinations: &[u32],
    erasure: u32,
    times: &TimesParts,
    first_life: u64,
) -> u32
    ensures made { result ≡ OK → MatchOption (configured me erasure times.now) ⊥ (λ config.
        held_router router.new.held ≡ Some (first_router config neighbours.now destinations.now first_life)) }
    ensures kept { ¬ (result ≡ OK) → router.new.held ≡ router.old.held }
    ensures code { MatchOption (new_router_refusal me neighbours.now destinations.now erasure times.now first_life)
        ((result ≡ OK) ⊎ (result ≡ MEMORY)) (λ code. result ≡ code) }
{
    let Some(config) = configured(me, erasure, times) else {
        return CHOICE;
    };
    let node = match made(alloc, &config, neighbours, destinations, first_life) {
        Ok(node) => node,
        Err(code) => return code,
    };
    match boxed(alloc, node) {
        Ok(node) => {
            router.put(alloc, node);
            OK
        }
        Err(code) => code,
    }
}

/// Frees the router, and sets the handle to null.
#[unsafe(no_mangle)]
pub extern "C" fn tora_router_free(alloc: Global, router: &mut RouterHandle)
    ensures { router.new.held ≡ None }
{
    if let Some(node) = router.take(alloc) {
        drop(node);
    }
}

/// Passes bytes that came from node `peer` at the tick `now` to the router. `intake` receives the outcome, a number of
/// `intake_code`. `NULL` for a null handle.
#[unsafe(no_mangle)]
pub extern "C" fn tora_router_datagram(
    alloc: Global,
    router: &mut RouterHandle,
    peer: u32,
    bytes: &[u8],
    now: u64,
    intake: &mut u32,
) -> u32
    ensures code { result ≡ of_held (λ r. OK) router.old.held NULL }
    ensures router { held_router router.new.held ≡ option_map (after_datagram peer now (frame_reading bytes.now))
        (held_router router.old.held) }
    ensures intake { intake.new ≡ of_held (datagram_intake peer bytes.now now) router.old.held intake.old }
{
    let Some(mut node) = router.take(alloc) else {
        return NULL;
    };
    *intake = intake_code(node.on_datagram(peer, bytes, now));
    router.put(alloc, node);
    OK
}

/// Passes the tick `now` to the router: each closed link opens with the next session number, and sessions that have
/// timed out end. `NULL` for a null handle.
#[unsafe(no_mangle)]
pub extern "C" fn tora_router_tick(alloc: Global, router: &mut RouterHandle, now: u64) -> u32
    ensures code { result ≡ of_held (λ r. OK) router.old.held NULL }
    ensures router { held_router router.new.held ≡ option_map (after_tick now) (held_router router.old.held) }
{
    let Some(mut node) = router.take(alloc) else {
        return NULL;
    };
    node.on_tick(now);
    router.put(alloc, node);
    OK
}

/// Reports that a route to destination `d` is needed at the tick `now`. `NULL` for a null handle, 15 if the table does
/// not have `d`.
#[unsafe(no_mangle)]
pub extern "C" fn tora_router_need(
    alloc: Global,
    router: &mut RouterHandle,
    d: u32,
    now: u64,
) -> u32
    ensures code { result ≡ of_held (need_code d now) router.old.held NULL }
    ensures router { held_router router.new.held ≡ option_map (after_need d now) (held_router router.old.held) }
{
    let Some(mut node) = router.take(alloc) else {
        return NULL;
    };
    let answer = node.need(d, now);
    router.put(alloc, node);
    match answer {
        Ok(()) => OK,
        Err(error) => refused_code(error),
    }
}

/// Reports that the link to neighbour `peer` was lost at the tick `now`: its session ends, if it has one. `NULL` for a
/// null handle, `UNKNOWN_NEIGHBOUR` if `peer` is no neighbour.
#[unsafe(no_mangle)]
pub extern "C" fn tora_router_cut(
    alloc: Global,
    router: &mut RouterHandle,
    peer: u32,
    now: u64,
) -> u32
    ensures code { result ≡ of_held (cut_code peer) router.old.held NULL }
    ensures router { held_router router.new.held ≡ option_map (after_cut peer now) (held_router router.old.held) }
{
    let Some(mut node) = router.take(alloc) else {
        return NULL;
    };
    let is_neighbour = node.cut(peer, now);
    router.put(alloc, node);
    if is_neighbour { OK } else { UNKNOWN_NEIGHBOUR }
}
