//! The calls that make, free and step a core.
ghost use Rattle.std.specs.Prelude.{◌≡◌, ◌⊎◌, IfErr, IfOk, MatchOption, None, OnOk, Some};
ghost use Rattle.tora_core.specs.declared.Input.{Input};
ghost use Rattle.tora_c.specs.CoreNode.{bytes_after, bytes_code, erasure_of, first_node, held_after, held_code};
ghost use Rattle.tora_c.specs.CoreNode.{new_refusal};

use crate::boxes::boxed;
use crate::codes::{MEMORY, NULL, OK, packet_code};
use crate::core_handle::CoreHandle;
use crate::core_node::CoreNode;
use std::alloc::Global;
use tora_core::Input;
use tora_packet::decode;

/// Replaces the core at `core` by a new one of node `me`, with no link up. `erasure` is 0 for `Plain` and 1 for
/// `Remembered`. Codes in this order: `CHOICE`, `ZERO`, `TOO_MANY`, `REPEATED`, `OWN_ID`, `MEMORY`; then the old core
/// stays.
#[unsafe(no_mangle)]
pub extern "C" fn tora_core_new(
    alloc: Global,
    core: &mut CoreHandle,
    me: u32,
    neighbours: &[u32],
    destinations: &[u32],
    erasure: u32,
) -> u32
    ensures made { result ≡ OK → MatchOption (erasure_of erasure) ⊥ (λ e.
        core.new.held ≡ Some (first_node e me neighbours.now destinations.now)) }
    ensures kept { ¬ (result ≡ OK) → core.new.held ≡ core.old.held }
    ensures code { MatchOption (new_refusal me neighbours.now destinations.now erasure) ((result ≡ OK)
        ⊎ (result ≡ MEMORY)) (λ code. result ≡ code) }
{
    let node = match CoreNode::new(alloc, me, neighbours, destinations, erasure) {
        Ok(node) => node,
        Err(code) => return code,
    };
    match boxed(alloc, node) {
        Ok(node) => {
            core.put(alloc, node);
            OK
        }
        Err(code) => code,
    }
}

/// Frees the core, and sets the handle to null.
#[unsafe(no_mangle)]
pub extern "C" fn tora_core_free(alloc: Global, core: &mut CoreHandle)
    ensures { core.new.held ≡ None }
{
    if let Some(node) = core.take(alloc) {
        drop(node);
    }
}

/// A copy of a core in a heap block of its own. The error is `MEMORY`.
fn cloned(alloc: Global, node: &CoreNode) -> Result<Box<CoreNode, Global>, u32>
    ensures value { IfOk result (λ b. b.value ≡ node.now) }
    ensures memory { IfErr result (λ code. code ≡ MEMORY) }
{
    match node.try_clone(alloc) {
        Ok(second) => boxed(alloc, second),
        Err(code) => Err(code),
    }
}

/// Replaces the core at `out` by a copy of `core`. `NULL` if `core` is null, `MEMORY`; then the core at `out` stays.
#[unsafe(no_mangle)]
pub extern "C" fn tora_core_clone(alloc: Global, core: &mut CoreHandle, out: &mut CoreHandle) -> u32
    ensures same { core.new.held ≡ core.old.held }
    ensures made { result ≡ OK → out.new.held ≡ core.old.held }
    ensures kept { ¬ (result ≡ OK) → out.new.held ≡ out.old.held }
    ensures code { MatchOption core.old.held (result ≡ NULL) (λ _. (result ≡ OK) ⊎ (result ≡ MEMORY)) }
{
    let Some(node) = core.take(alloc) else {
        return NULL;
    };
    let second = cloned(alloc, &node);
    core.put(alloc, node);
    match second {
        Ok(second) => {
            out.put(alloc, second);
            OK
        }
        Err(code) => code,
    }
}

/// Steps the core with an input at the tick `now`, and returns `OK` or the code of the refusal (`refused_code`); `NULL`
/// for a null handle. A refused input changes nothing.
fn step(alloc: Global, core: &mut CoreHandle, input: Input, now: u64) -> u32
    ensures code { result ≡ held_code core.old.held input }
    ensures held { core.new.held ≡ held_after core.old.held input now }
{
    let Some(mut node) = core.take(alloc) else {
        return NULL;
    };
    let code = node.step(input, now);
    core.put(alloc, node);
    code
}

/// Reports that the link to neighbour `k` came up at the tick `now`. `NULL` for a null handle, 11 if `k` is no
/// neighbour, 12 if the link is already up.
#[unsafe(no_mangle)]
pub extern "C" fn tora_core_link_up(alloc: Global, core: &mut CoreHandle, k: u32, now: u64) -> u32
    ensures code { result ≡ held_code core.old.held (Input.LinkUp k) }
    ensures held { core.new.held ≡ held_after core.old.held (Input.LinkUp k) now }
{
    step(alloc, core, Input::LinkUp(k), now)
}

/// Reports that the link to neighbour `k` went down at the tick `now`. `NULL` for a null handle, 11 if `k` is no
/// neighbour, 13 if the link is not up.
#[unsafe(no_mangle)]
pub extern "C" fn tora_core_link_down(alloc: Global, core: &mut CoreHandle, k: u32, now: u64) -> u32
    ensures code { result ≡ held_code core.old.held (Input.LinkDown k) }
    ensures held { core.new.held ≡ held_after core.old.held (Input.LinkDown k) now }
{
    step(alloc, core, Input::LinkDown(k), now)
}

/// Reports that a route to destination `d` is needed at the tick `now`. `NULL` for a null handle, 15 if the table does
/// not have `d`.
#[unsafe(no_mangle)]
pub extern "C" fn tora_core_need(alloc: Global, core: &mut CoreHandle, d: u32, now: u64) -> u32
    ensures code { result ≡ held_code core.old.held (Input.Need d) }
    ensures held { core.new.held ≡ held_after core.old.held (Input.Need d) now }
{
    step(alloc, core, Input::Need(d), now)
}

/// Reports that these bytes came from neighbour `k` at the tick `now`. `NULL` for a null handle, 21 to 26 if they are
/// not a packet (`packet_code`), 11 if `k` is no neighbour, 13 if its link is not up, 14 if the height in an update is
/// not the height of `k`.
#[unsafe(no_mangle)]
pub extern "C" fn tora_core_packet(
    alloc: Global,
    core: &mut CoreHandle,
    k: u32,
    bytes: &[u8],
    now: u64,
) -> u32
    ensures code { result ≡ bytes_code core.old.held k bytes.now }
    ensures held { core.new.held ≡ bytes_after core.old.held k bytes.now now }
{
    let Some(mut node) = core.take(alloc) else {
        return NULL;
    };
    let code = match decode(bytes) {
        Ok(packet) => node.step(Input::Packet(k, packet), now),
        Err(error) => packet_code(error),
    };
    core.put(alloc, node);
    code
}
