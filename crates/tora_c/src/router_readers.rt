//! The calls that read a router without changing it.
ghost use Rattle.std.specs.Prelude.{◌≡◌, ◌⊎◌, MatchOption, None, length};
ghost use Rattle.tora_core.specs.CoreRun.{entry_of, flag_of, height_of, hop_of};
ghost use Rattle.tora_core.specs.Numbers.{has_number};
ghost use Rattle.tora_core.specs.ShowText.{show_text};
ghost use Rattle.tora_router.specs.Router.{IsNextDue, router_of};
ghost use Rattle.tora_c.specs.Readers.{bit, held_entry_code, held_number, held_number_code, held_parts, room_code};
ghost use Rattle.tora_c.specs.Readers.{written};
ghost use Rattle.tora_c.specs.RouterHeld.{of_held, tally_after, tally_code};

use crate::buffers::write;
use crate::codes::{ABSENT, MEMORY, NULL, OK, UNKNOWN_NEIGHBOUR};
use crate::heights::{HeightParts, write_entry};
use crate::router_handle::RouterHandle;
use crate::router_parts::{TallyParts, tally_parts};
use std::alloc::Global;

/// Writes the tick from which on a datagram is due or a tick changes something, unless another call changes the router:
/// 0 if at once, 2^64 - 1 if never. `NULL` for a null handle.
#[unsafe(no_mangle)]
pub extern "C" fn tora_router_next_due(
    alloc: Global,
    router: &mut RouterHandle,
    tick: &mut u64,
) -> u32
    ensures same { router.new.held ≡ router.old.held }
    ensures code { result ≡ of_held (λ r. OK) router.old.held NULL }
    ensures tick { MatchOption router.old.held (tick.new ≡ tick.old) (λ r. IsNextDue (router_of r) tick.new) }
{
    let Some(node) = router.take(alloc) else {
        return NULL;
    };
    *tick = node.next_due();
    router.put(alloc, node);
    OK
}

/// Writes the next session number: this one and those above it were given to no link. `NULL` for a null handle.
#[unsafe(no_mangle)]
pub extern "C" fn tora_router_next_life(
    alloc: Global,
    router: &mut RouterHandle,
    life: &mut u64,
) -> u32
    ensures same { router.new.held ≡ router.old.held }
    ensures code { result ≡ of_held (λ r. OK) router.old.held NULL }
    ensures life { life.new ≡ of_held (λ r. r.next_life) router.old.held life.old }
{
    let Some(node) = router.take(alloc) else {
        return NULL;
    };
    *life = node.next_life();
    router.put(alloc, node);
    OK
}

/// Writes the node's own height for destination `d`. `NULL` for a null handle, `UNKNOWN` if the table does not have
/// `d`, `ABSENT` if the height is NULL; then nothing is written.
#[unsafe(no_mangle)]
pub extern "C" fn tora_router_height(
    alloc: Global,
    router: &mut RouterHandle,
    d: u32,
    height: &mut HeightParts,
) -> u32
    ensures same { router.new.held ≡ router.old.held }
    ensures code { result ≡ held_entry_code (λ r. height_of r.seat.core d) router.old.held }
    ensures height { height.new ≡ held_parts (λ r. height_of r.seat.core d) router.old.held height.old }
{
    let Some(node) = router.take(alloc) else {
        return NULL;
    };
    let entry = node.height(d);
    router.put(alloc, node);
    write_entry(entry, height)
}

/// Writes the height that neighbour `k` sent for destination `d`. `NULL` for a null handle, `UNKNOWN` if the table does
/// not have `d` or the link to `k` is not up, `ABSENT` if the height is NULL; then nothing is written.
#[unsafe(no_mangle)]
pub extern "C" fn tora_router_entry(
    alloc: Global,
    router: &mut RouterHandle,
    d: u32,
    k: u32,
    height: &mut HeightParts,
) -> u32
    ensures same { router.new.held ≡ router.old.held }
    ensures code { result ≡ held_entry_code (λ r. entry_of r.seat.core d k) router.old.held }
    ensures height { height.new ≡ held_parts (λ r. entry_of r.seat.core d k) router.old.held height.old }
{
    let Some(node) = router.take(alloc) else {
        return NULL;
    };
    let entry = node.entry(d, k);
    router.put(alloc, node);
    write_entry(entry, height)
}

/// Writes the next hop to destination `d`. `NULL` for a null handle, `ABSENT` if there is none or the table does not
/// have `d`; then nothing is written.
#[unsafe(no_mangle)]
pub extern "C" fn tora_router_next_hop(
    alloc: Global,
    router: &mut RouterHandle,
    d: u32,
    hop: &mut u32,
) -> u32
    ensures same { router.new.held ≡ router.old.held }
    ensures code { result ≡ held_number_code (λ r. hop_of r.seat.core d) router.old.held }
    ensures hop { hop.new ≡ held_number (λ r. hop_of r.seat.core d) router.old.held hop.old }
{
    let Some(node) = router.take(alloc) else {
        return NULL;
    };
    let next = node.next_hop(d);
    router.put(alloc, node);
    match next {
        Some(k) => {
            *hop = k;
            OK
        }
        None => ABSENT,
    }
}

/// Writes 1 if a route to destination `d` is required, and otherwise 0, also if the table does not have `d`. `NULL` for
/// a null handle.
#[unsafe(no_mangle)]
pub extern "C" fn tora_router_flag(
    alloc: Global,
    router: &mut RouterHandle,
    d: u32,
    flag: &mut u32,
) -> u32
    ensures same { router.new.held ≡ router.old.held }
    ensures code { result ≡ of_held (λ r. OK) router.old.held NULL }
    ensures flag { flag.new ≡ of_held (λ r. bit (flag_of r.seat.core d)) router.old.held flag.old }
{
    let Some(node) = router.take(alloc) else {
        return NULL;
    };
    *flag = u32::from(node.flag(d));
    router.put(alloc, node);
    OK
}

/// Writes 1 if the link to neighbour `k` is up, and otherwise 0, also if `k` is no neighbour. `NULL` for a null handle.
#[unsafe(no_mangle)]
pub extern "C" fn tora_router_is_up(
    alloc: Global,
    router: &mut RouterHandle,
    k: u32,
    up: &mut u32,
) -> u32
    ensures same { router.new.held ≡ router.old.held }
    ensures code { result ≡ of_held (λ r. OK) router.old.held NULL }
    ensures up { up.new ≡ of_held (λ r. bit (has_number k r.seat.core.up)) router.old.held up.old }
{
    let Some(node) = router.take(alloc) else {
        return NULL;
    };
    *up = u32::from(node.core().is_up(k));
    router.put(alloc, node);
    OK
}

/// Writes the counts of the datagrams of neighbour `k`, by outcome. `NULL` for a null handle, `UNKNOWN_NEIGHBOUR` if
/// `k` is no neighbour; then nothing is written.
#[unsafe(no_mangle)]
pub extern "C" fn tora_router_tally(
    alloc: Global,
    router: &mut RouterHandle,
    k: u32,
    tally: &mut TallyParts,
) -> u32
    ensures same { router.new.held ≡ router.old.held }
    ensures code { result ≡ of_held (tally_code k) router.old.held NULL }
    ensures tally { tally.new ≡ of_held (tally_after k tally.old) router.old.held tally.old }
{
    let Some(node) = router.take(alloc) else {
        return NULL;
    };
    let found = node.tally(k);
    router.put(alloc, node);
    match found {
        Some(it) => {
            *tally = tally_parts(it);
            OK
        }
        None => UNKNOWN_NEIGHBOUR,
    }
}

/// Writes the core of the router as text, as `Core::show` has it, and its length in bytes to `len`. `NULL` for a null
/// handle, `MEMORY`, `ROOM` if `text` is too short. At `ROOM` only `len` is written, and at the others nothing.
#[unsafe(no_mangle)]
pub extern "C" fn tora_router_show(
    alloc: Global,
    router: &mut RouterHandle,
    text: &mut [u8],
    len: &mut usize,
) -> u32
    ensures same { router.new.held ≡ router.old.held }
    ensures null { router.old.held ≡ None → result ≡ NULL }
    ensures kept { (result ≡ NULL) ⊎ (result ≡ MEMORY) → (text.new ≡ text.old) × (len.new ≡ len.old) }
    ensures text { MatchOption router.old.held (Unit {0}) (λ r. (result ≡ MEMORY)
        ⊎ ((result ≡ room_code (show_text r.seat.core) text.old)
        × (text.new ≡ written (show_text r.seat.core) text.old) × (len.new ≡ length (show_text r.seat.core)))) }
{
    let Some(node) = router.take(alloc) else {
        return NULL;
    };
    let shown = node.show(alloc);
    router.put(alloc, node);
    match shown {
        Ok(shown) => write(shown.as_bytes(), text, len),
        Err(_) => MEMORY,
    }
}
