//! The calls that poll the datagrams and the changes of a router.
ghost use Rattle.std.specs.Prelude.{◌≡◌, option_map};
ghost use Rattle.tora_router.specs.Router.{after_poll_change, change_in, router_of};
ghost use Rattle.tora_c.specs.RouterHeld.{after_poll, code_of_some, held_router, of_held, poll_code, polled_bytes};
ghost use Rattle.tora_c.specs.RouterHeld.{polled_change, polled_length, polled_peer};

use crate::codes::{ABSENT, NULL, OK, ROOM};
use crate::router_handle::RouterHandle;
use crate::router_parts::{ChangeParts, change_parts};
use std::alloc::Global;
use tora_frame::LONGEST_FRAME;
use tora_router::Router;

/// Writes the next datagram of a router. `ROOM` if `bytes` is shorter than `LONGEST_FRAME`, which `len` receives, even
/// if no datagram is due; `ABSENT` if none is due.
fn poll(router: &mut Router, now: u64, peer: &mut u32, bytes: &mut [u8], len: &mut usize) -> u32
    ensures code { result ≡ poll_code now bytes.old (router_of router.old) }
    ensures router { router_of router.new ≡ after_poll now bytes.old (router_of router.old) }
    ensures peer { peer.new ≡ polled_peer now bytes.old peer.old (router_of router.old) }
    ensures bytes { bytes.new ≡ polled_bytes now bytes.old (router_of router.old) }
    ensures len { len.new ≡ polled_length now bytes.old len.old (router_of router.old) }
{
    if bytes.len() < LONGEST_FRAME {
        *len = LONGEST_FRAME;
        return ROOM;
    }
    match router.poll_datagram(now, bytes) {
        Some((to, count)) => {
            *peer = to;
            *len = count;
            OK
        }
        None => ABSENT,
    }
}

/// Writes the next datagram to be sent at the tick `now`, its length in bytes, and the neighbour that it is for. It
/// counts as sent. `NULL` for a null handle; `ROOM` if `bytes` is shorter than `LONGEST_FRAME`, which `len` receives,
/// even if no datagram is due; `ABSENT` if none is due.
#[unsafe(no_mangle)]
pub extern "C" fn tora_router_poll_datagram(
    alloc: Global,
    router: &mut RouterHandle,
    now: u64,
    peer: &mut u32,
    bytes: &mut [u8],
    len: &mut usize,
) -> u32
    ensures code { result ≡ of_held (poll_code now bytes.old) router.old.held NULL }
    ensures router { held_router router.new.held ≡ option_map (after_poll now bytes.old) (held_router router.old.held) }
    ensures peer { peer.new ≡ of_held (polled_peer now bytes.old peer.old) router.old.held peer.old }
    ensures bytes { bytes.new ≡ of_held (polled_bytes now bytes.old) router.old.held bytes.old }
    ensures len { len.new ≡ of_held (polled_length now bytes.old len.old) router.old.held len.old }
{
    let Some(mut node) = router.take(alloc) else {
        return NULL;
    };
    let code = poll(&mut node, now, peer, bytes, len);
    router.put(alloc, node);
    code
}

/// Writes the next change that the host has not polled yet. `NULL` for a null handle, `ABSENT` if there is none.
#[unsafe(no_mangle)]
pub extern "C" fn tora_router_poll_change(
    alloc: Global,
    router: &mut RouterHandle,
    change: &mut ChangeParts,
) -> u32
    ensures code { result ≡ of_held (λ r. code_of_some (change_in r)) router.old.held NULL }
    ensures router { held_router router.new.held ≡ option_map after_poll_change (held_router router.old.held) }
    ensures change { change.new ≡ of_held (polled_change change.old) router.old.held change.old }
{
    let Some(mut node) = router.take(alloc) else {
        return NULL;
    };
    let found = node.poll_change();
    router.put(alloc, node);
    match found {
        Some(it) => {
            *change = change_parts(it);
            OK
        }
        None => ABSENT,
    }
}
