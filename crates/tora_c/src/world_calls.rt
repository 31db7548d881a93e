//! The calls that make and free a driven world, pass it a line, and read the answer.
ghost use Rattle.std.specs.Prelude.{◌≡◌, ◌⊎◌, MatchOption, None, Some, length, option_map};
ghost use Rattle.tora_c.specs.Readers.{room_code, written};
ghost use Rattle.tora_c.specs.RouterParts.{times_of};
ghost use Rattle.tora_c.specs.WorldHeld.{after_line, anew, first_world, held_world, options_of, world_view};

use crate::boxes::boxed;
use crate::buffers::write;
use crate::codes::{CHOICE, MEMORY, NULL, OK};
use crate::router_parts::{TimesParts, times_of};
use crate::world_handle::WorldHandle;
use crate::world_node::{WorldNode, options_of};
use std::alloc::Global;
use tora_drive::DriveSetup;

/// Replaces the world at `world` by a new one that has taken no line. `limits` is 0 for `STANDARD` and 1 for
/// `GREATEST`, `erasure` 0 for `Plain` and 1 for `Remembered`; `CHOICE` for other numbers, then `MEMORY`. Then the old
/// world stays.
#[unsafe(no_mangle)]
pub extern "C" fn tora_world_new(
    alloc: Global,
    world: &mut WorldHandle,
    limits: u32,
    erasure: u32,
    times: &TimesParts,
) -> u32
    ensures made { result ≡ OK →
        MatchOption (options_of limits erasure) ⊥
        (λ o. held_world world.new.held ≡ Some (first_world (record { options = o; times = times_of times.now }))) }
    ensures kept { ¬ (result ≡ OK) → world.new.held ≡ world.old.held }
    ensures code { MatchOption (options_of limits erasure) (result ≡ CHOICE)
        (λ _. (result ≡ OK) ⊎ (result ≡ MEMORY)) }
{
    let Some(options) = options_of(limits, erasure) else {
        return CHOICE;
    };
    let setup = DriveSetup {
        options,
        times: times_of(times),
    };
    let node = WorldNode::new(alloc, setup);
    match boxed(alloc, node) {
        Ok(node) => {
            world.put(alloc, node);
            OK
        }
        Err(code) => code,
    }
}

/// Frees the world, and sets the handle to null.
#[unsafe(no_mangle)]
pub extern "C" fn tora_world_free(alloc: Global, world: &mut WorldHandle)
    ensures { world.new.held ≡ None }
{
    if let Some(node) = world.take(alloc) {
        drop(node);
    }
}

/// Passes a line, without its LF, to the world, stores the answer, and writes the answer's length in bytes to `len`.
/// `NULL` for a null handle. `MEMORY`: the world is as it was made, without an answer.
#[unsafe(no_mangle)]
pub extern "C" fn tora_world_line(
    alloc: Global,
    world: &mut WorldHandle,
    line: &[u8],
    len: &mut usize,
) -> u32
    ensures code { MatchOption world.old.held (result ≡ NULL) (λ _. (result ≡ OK) ⊎ (result ≡ MEMORY)) }
    ensures null { world.old.held ≡ None → world.new.held ≡ None }
    ensures done { result ≡ OK →
        held_world world.new.held ≡ option_map (after_line line.now) (held_world world.old.held) }
    ensures memory { result ≡ MEMORY →
        held_world world.new.held ≡ option_map anew (held_world world.old.held) }
    ensures len { result ≡ OK → MatchOption (held_world world.new.held) ⊥ (λ w. len.new ≡ length w.answer) }
    ensures kept { ¬ (result ≡ OK) → len.new ≡ len.old }
{
    let Some(mut node) = world.take(alloc) else {
        return NULL;
    };
    let code = node.take_line(alloc, line);
    if code == OK {
        *len = node.answer.len();
    }
    world.put(alloc, node);
    code
}

/// Writes the answer to the last line, empty before the first one, and its length in bytes to `len`. `NULL` for a null
/// handle, `ROOM` if `text` is too short. At `ROOM` only `len` is written, and at `NULL` nothing.
#[unsafe(no_mangle)]
pub extern "C" fn tora_world_answer(
    alloc: Global,
    world: &mut WorldHandle,
    text: &mut [u8],
    len: &mut usize,
) -> u32
    ensures same { world.new.held ≡ world.old.held }
    ensures code { MatchOption (held_world world.old.held) (result ≡ NULL)
        (λ w. result ≡ room_code w.answer text.old) }
    ensures text { MatchOption (held_world world.old.held) (text.new ≡ text.old)
        (λ w. text.new ≡ written w.answer text.old) }
    ensures len { MatchOption (held_world world.old.held) (len.new ≡ len.old)
        (λ w. len.new ≡ length w.answer) }
{
    let Some(node) = world.take(alloc) else {
        return NULL;
    };
    let code = write(node.answer.as_bytes(), text, len);
    world.put(alloc, node);
    code
}
