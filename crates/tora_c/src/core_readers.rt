//! The calls that read a core without changing it.
ghost use Rattle.std.specs.Prelude.{◌≡◌, ◌⊎◌, MatchOption, None, Some, length, option_map};
ghost use Rattle.tora_packet.specs.PacketGrammar.{packet_spelling};
ghost use Rattle.tora_core.specs.CoreRun.{entry_of, flag_of, height_of, hop_of};
ghost use Rattle.tora_core.specs.Numbers.{has_number};
ghost use Rattle.tora_core.specs.ShowText.{show_text};
ghost use Rattle.tora_c.specs.Readers.{bit, held_entry_code, held_number, held_number_code, held_parts, room_code};
ghost use Rattle.tora_c.specs.Readers.{sent_at, written};

use crate::buffers::write;
use crate::codes::{ABSENT, MEMORY, NULL, OK};
use crate::core_handle::CoreHandle;
use crate::heights::{HeightParts, write_entry};
use std::alloc::Global;
use tora_packet::encode;

/// Writes the node's own height for destination `d`. `NULL` for a null handle, `UNKNOWN` if the table does not have
/// `d`, `ABSENT` if the height is NULL; then nothing is written.
#[unsafe(no_mangle)]
pub extern "C" fn tora_core_height(
    alloc: Global,
    core: &mut CoreHandle,
    d: u32,
    height: &mut HeightParts,
) -> u32
    ensures same { core.new.held ≡ core.old.held }
    ensures code { result ≡ held_entry_code (λ n. height_of n.core d) core.old.held }
    ensures height { height.new ≡ held_parts (λ n. height_of n.core d) core.old.held height.old }
{
    let Some(node) = core.take(alloc) else {
        return NULL;
    };
    let entry = node.core.height(d);
    core.put(alloc, node);
    write_entry(entry, height)
}

/// Writes the height that neighbour `k` sent for destination `d`. `NULL` for a null handle, `UNKNOWN` if the table does
/// not have `d` or the link to `k` is not up, `ABSENT` if the height is NULL; then nothing is written.
#[unsafe(no_mangle)]
pub extern "C" fn tora_core_entry(
    alloc: Global,
    core: &mut CoreHandle,
    d: u32,
    k: u32,
    height: &mut HeightParts,
) -> u32
    ensures same { core.new.held ≡ core.old.held }
    ensures code { result ≡ held_entry_code (λ n. entry_of n.core d k) core.old.held }
    ensures height { height.new ≡ held_parts (λ n. entry_of n.core d k) core.old.held height.old }
{
    let Some(node) = core.take(alloc) else {
        return NULL;
    };
    let entry = node.core.entry(d, k);
    core.put(alloc, node);
    write_entry(entry, height)
}

/// Writes the next hop to destination `d`. `NULL` for a null handle, `ABSENT` if there is none or the table does not
/// have `d`; then nothing is written.
#[unsafe(no_mangle)]
pub extern "C" fn tora_core_next_hop(
    alloc: Global,
    core: &mut CoreHandle,
    d: u32,
    hop: &mut u32,
) -> u32
    ensures same { core.new.held ≡ core.old.held }
    ensures code { result ≡ held_number_code (λ n. hop_of n.core d) core.old.held }
    ensures hop { hop.new ≡ held_number (λ n. hop_of n.core d) core.old.held hop.old }
{
    let Some(node) = core.take(alloc) else {
        return NULL;
    };
    let next = node.core.next_hop(d);
    core.put(alloc, node);
    match next {
        Some(k) => {
            *hop = k;
            OK
        }
        None => ABSENT,
    }
}

/// Writes 1 if a route to destination `d` is required, and otherwise 0, also if the table does not have `d`. `NULL` for
/// a null handle.
#[unsafe(no_mangle)]
pub extern "C" fn tora_core_flag(
    alloc: Global,
    core: &mut CoreHandle,
    d: u32,
    flag: &mut u32,
) -> u32
    ensures same { core.new.held ≡ core.old.held }
    ensures code { MatchOption core.old.held (result ≡ NULL) (λ _. result ≡ OK) }
    ensures flag { MatchOption core.old.held (flag.new ≡ flag.old) (λ n. flag.new ≡ bit (flag_of n.core d)) }
{
    let Some(node) = core.take(alloc) else {
        return NULL;
    };
    *flag = u32::from(node.core.flag(d));
    core.put(alloc, node);
    OK
}

/// Writes 1 if the link to neighbour `k` is up, and otherwise 0, also if `k` is no neighbour. `NULL` for a null handle.
#[unsafe(no_mangle)]
pub extern "C" fn tora_core_is_up(alloc: Global, core: &mut CoreHandle, k: u32, up: &mut u32) -> u32
    ensures same { core.new.held ≡ core.old.held }
    ensures code { MatchOption core.old.held (result ≡ NULL) (λ _. result ≡ OK) }
    ensures up { MatchOption core.old.held (up.new ≡ up.old) (λ n. up.new ≡ bit (has_number k n.core.up)) }
{
    let Some(node) = core.take(alloc) else {
        return NULL;
    };
    *up = u32::from(node.core.is_up(k));
    core.put(alloc, node);
    OK
}

/// Writes how many packets the last accepted step broadcast; 0 before the first step. `NULL` for a null handle.
#[unsafe(no_mangle)]
pub extern "C" fn tora_core_sent_count(
    alloc: Global,
    core: &mut CoreHandle,
    count: &mut usize,
) -> u32
    ensures same { core.new.held ≡ core.old.held }
    ensures code { MatchOption core.old.held (result ≡ NULL) (λ _. result ≡ OK) }
    ensures count { MatchOption core.old.held (count.new ≡ count.old) (λ n. count.new ≡ length n.sent) }
{
    let Some(node) = core.take(alloc) else {
        return NULL;
    };
    *count = node.sent().len();
    core.put(alloc, node);
    OK
}

/// Writes the bytes of a packet that the last accepted step broadcast, and their count to `len`. `place` is the index
/// of the packet, from 0. `NULL` for a null handle, `ABSENT` if no packet has this index, `ROOM` if `bytes` is too
/// short. At `ROOM` only `len` is written, and at the others nothing.
#[unsafe(no_mangle)]
pub extern "C" fn tora_core_sent(
    alloc: Global,
    core: &mut CoreHandle,
    place: usize,
    bytes: &mut [u8],
    len: &mut usize,
) -> u32
    ensures same { core.new.held ≡ core.old.held }
    ensures null { core.old.held ≡ None → result ≡ NULL }
    ensures sent { MatchOption (option_map (λ n. sent_at n place) core.old.held) ((bytes.new ≡ bytes.old)
        × (len.new ≡ len.old)) (λ sent.
        MatchOption sent ((result ≡ ABSENT) × (bytes.new ≡ bytes.old) × (len.new ≡ len.old)) (λ packet.
        (result ≡ room_code (packet_spelling packet) bytes.old) × (bytes.new
        ≡ written (packet_spelling packet) bytes.old) × (len.new ≡ length (packet_spelling packet)))) }
{
    let Some(node) = core.take(alloc) else {
        return NULL;
    };
    let packet = node.sent().get(place).copied();
    core.put(alloc, node);
    match packet {
        Some(packet) => write(encode(&packet).as_slice(), bytes, len),
        None => ABSENT,
    }
}

/// Writes the whole core as text, as `Core::show` has it, and its length in bytes to `len`. `NULL` for a null handle,
/// `MEMORY`, `ROOM` if `text` is too short. At `ROOM` only `len` is written, and at the others nothing.
#[unsafe(no_mangle)]
pub extern "C" fn tora_core_show(
    alloc: Global,
    core: &mut CoreHandle,
    text: &mut [u8],
    len: &mut usize,
) -> u32
    ensures same { core.new.held ≡ core.old.held }
    ensures null { core.old.held ≡ None → result ≡ NULL }
    ensures kept { (result ≡ NULL) ⊎ (result ≡ MEMORY) → (text.new ≡ text.old) × (len.new ≡ len.old) }
    ensures text { MatchOption core.old.held (Unit {0}) (λ n. (result ≡ MEMORY)
        ⊎ ((result ≡ room_code (show_text n.core) text.old)
        × (text.new ≡ written (show_text n.core) text.old) × (len.new ≡ length (show_text n.core)))) }
{
    let Some(node) = core.take(alloc) else {
        return NULL;
    };
    let shown = node.core.show(alloc);
    core.put(alloc, node);
    match shown {
        Ok(shown) => write(shown.as_bytes(), text, len),
        Err(_) => MEMORY,
    }
}
