//! TORA for C and other languages. `include/tora.h` is the header.
//!
//! C holds a core, a router or a world by a handle: a struct with one pointer, which is null at first. Each call checks
//! its arguments, returns a code, and changes nothing unless the code is `OK`. There are two exceptions: at `ROOM` the
//! length that is needed is written, and if memory runs out for a line of a world, the world is as it was made. A call
//! that frees returns nothing, and `tora_abi_version` a version.
//!
//! C must ensure two things only: each pointer leads to what its type says, and no two calls use one handle at once.
#![tactic(auto)]

ghost use Rattle.std.specs.Prelude.{◌≡◌, length};
ghost use Rattle.tora_c.specs.Readers.{room_code, written};
ghost use Rattle.tora_c.specs.Version.{version_text};

mod boxes;
mod buffers;
mod codes;
mod core_calls;
mod core_handle;
mod core_node;
mod core_readers;
mod handle;
mod heights;
mod limit_values;
mod router_calls;
mod router_handle;
mod router_parts;
mod router_polls;
mod router_readers;
mod world_calls;
mod world_handle;
mod world_node;

use buffers::write;

/// The version of the calls and of the structs. It rises if one is removed or changed, and not if one is added.
const ABI_VERSION: u32 = 1;

/// The version of the library.
const VERSION: &str = "1.0.0-dev";

/// The version of the calls and of the structs.
#[unsafe(no_mangle)]
pub extern "C" fn tora_abi_version() -> u32
    ensures { result ≡ ABI_VERSION }
{
    ABI_VERSION
}

/// Writes the version of the library as text to `text`, and its length in bytes to `len`. `ROOM` if `text` is shorter;
/// then only the length is written.
#[unsafe(no_mangle)]
pub extern "C" fn tora_version(text: &mut [u8], len: &mut usize) -> u32
    ensures code { result ≡ room_code version_text text.old }
    ensures text { text.new ≡ written version_text text.old }
    ensures len { len.new ≡ length version_text }
{
    write(VERSION.as_bytes(), text, len)
}

#[cfg(test)]
mod tests {
    use crate::codes::{ABSENT, CHOICE, NULL, OK, ROOM};
    use crate::core_calls::{
        tora_core_clone, tora_core_free, tora_core_link_up, tora_core_need, tora_core_new,
    };
    use crate::core_handle::CoreHandle;
    use crate::core_readers::{tora_core_sent_count, tora_core_show};
    use crate::router_calls::{
        tora_router_datagram, tora_router_free, tora_router_need, tora_router_new, tora_router_tick,
    };
    use crate::router_handle::RouterHandle;
    use crate::router_parts::{ChangeParts, TimesParts};
    use crate::router_polls::{tora_router_poll_change, tora_router_poll_datagram};
    use crate::router_readers::{tora_router_next_hop, tora_router_next_life};
    use crate::world_calls::{tora_world_answer, tora_world_free, tora_world_line, tora_world_new};
    use crate::world_handle::WorldHandle;
    use std::alloc::Global;
    use tora_frame::LONGEST_FRAME;

    // Consumes a handle, and frees its core, if it has one. A handle has no `Drop`.
    fn let_go(alloc: Global, handle: CoreHandle) {
        if let Some(raw) = handle.into_raw(alloc) {
            drop(raw.into_box());
        }
    }

    // Consumes a handle, and frees its router, if it has one.
    fn let_router_go(alloc: Global, handle: RouterHandle) {
        if let Some(raw) = handle.into_raw(alloc) {
            drop(raw.into_box());
        }
    }

    // Consumes a handle, and frees its world, if it has one.
    fn let_world_go(alloc: Global, handle: WorldHandle) {
        if let Some(raw) = handle.into_raw(alloc) {
            drop(raw.into_box());
        }
    }

    // Passes one datagram of a router to its only neighbour. Returns whether one was due.
    fn carry(alloc: Global, from: &mut RouterHandle, to: &mut RouterHandle, sender: u32) -> bool {
        let (mut peer, mut len, mut intake) = (0, 0, 0);
        let mut bytes = [0; LONGEST_FRAME];
        if tora_router_poll_datagram(alloc, from, 1, &mut peer, &mut bytes, &mut len) != OK {
            return false;
        }
        let Some(datagram) = bytes.get(..len) else {
            return false;
        };
        let _ = tora_router_datagram(alloc, to, sender, datagram, 1, &mut intake);
        true
    }

    // Times that all stand for the standard values.
    fn standard() -> TimesParts {
        TimesParts {
            hello: 0,
            silent: 0,
            retry: 0,
            tries: 0,
        }
    }

    // The answer of a router that is asked for a change, and the parts of the change.
    fn poll_change(alloc: Global, router: &mut RouterHandle) -> (u32, u32, u32, u32, u32) {
        let mut change = ChangeParts {
            kind: 0,
            node: 0,
            hop: 0,
            reason: 0,
        };
        let code = tora_router_poll_change(alloc, router, &mut change);
        (code, change.kind, change.node, change.hop, change.reason)
    }

    #[test]
    fn a_clone_shows_the_same(rt: HostRuntime) {
        let alloc = rt.alloc();
        let (mut core, mut second) = (CoreHandle::null(), CoreHandle::null());
        let (mut count, mut len) = (0, 0);
        let early = tora_core_need(alloc, &mut core, 4, 1);
        let made = tora_core_new(alloc, &mut core, 3, &[2], &[4], 0);
        let up = tora_core_link_up(alloc, &mut core, 2, 1);
        let need = tora_core_need(alloc, &mut core, 4, 1);
        let cloned = tora_core_clone(alloc, &mut core, &mut second);
        tora_core_free(alloc, &mut core);
        let mut text = [0; 64];
        let counted = tora_core_sent_count(alloc, &mut second, &mut count);
        let short = tora_core_show(alloc, &mut second, &mut [], &mut len);
        let shown = tora_core_show(alloc, &mut second, &mut text, &mut len);
        tora_core_free(alloc, &mut second);
        let late = tora_core_need(alloc, &mut second, 4, 1);
        let_go(alloc, core);
        let_go(alloc, second);
        assert_eq!(rt; (early, late), (NULL, NULL));
        assert_eq!(rt; (made, up, need, cloned), (OK, OK, OK, OK));
        assert_eq!(rt; (counted, short, shown), (OK, ROOM, OK));
        assert_eq!(rt; (count, len), (1, 40));
        assert!(rt; text.starts_with(b"to 4 height - flag 1 hop -\nvia 2 - none\n"));
    }

    #[test]
    fn two_routers_find_a_route(rt: HostRuntime) {
        let alloc = rt.alloc();
        let (mut one, mut two) = (RouterHandle::null(), RouterHandle::null());
        let times = standard();
        let (mut hop, mut life, mut is_still) = (0, 0, false);
        let early = tora_router_tick(alloc, &mut one, 1);
        let made = tora_router_new(alloc, &mut one, 1, &[2], &[2], 0, &times, 7);
        let other = tora_router_new(alloc, &mut two, 2, &[1], &[2], 0, &times, 1);
        let _ = tora_router_tick(alloc, &mut one, 1);
        let _ = tora_router_tick(alloc, &mut two, 1);
        let need = tora_router_need(alloc, &mut one, 2, 1);
        for _ in 0..40 {
            let there = carry(alloc, &mut one, &mut two, 1);
            let back = carry(alloc, &mut two, &mut one, 2);
            is_still = !there && !back;
        }
        let found = tora_router_next_hop(alloc, &mut one, 2, &mut hop);
        let lives = tora_router_next_life(alloc, &mut one, &mut life);
        let first = poll_change(alloc, &mut one);
        let second = poll_change(alloc, &mut one);
        let third = poll_change(alloc, &mut one);
        tora_router_free(alloc, &mut one);
        let late = tora_router_tick(alloc, &mut one, 2);
        let_router_go(alloc, one);
        let_router_go(alloc, two);
        assert_eq!(rt; (early, made, other, need), (NULL, OK, OK, OK));
        assert_eq!(rt; (found, hop, lives, life), (OK, 2, OK, 8));
        assert_eq!(rt; (first, second), ((OK, 1, 2, 0, 0), (OK, 3, 2, 2, 0)));
        assert_eq!(rt; (third, late), ((ABSENT, 0, 0, 0, 0), NULL));
        assert!(rt; is_still);
    }

    #[test]
    fn a_world_answers_lines(rt: HostRuntime) {
        let alloc = rt.alloc();
        let mut world = WorldHandle::null();
        let times = standard();
        let (mut len, mut text) = (0, [0; 64]);
        let early = tora_world_line(alloc, &mut world, b"dests 2", &mut len);
        let none = tora_world_new(alloc, &mut world, 2, 0, &times);
        let made = tora_world_new(alloc, &mut world, 1, 1, &times);
        let first = tora_world_line(alloc, &mut world, b"dests 2", &mut len);
        let second = tora_world_line(alloc, &mut world, b"link 1 2", &mut len);
        let fault = tora_world_line(alloc, &mut world, b"link 1 3\n", &mut len);
        let step = tora_world_line(alloc, &mut world, b"step", &mut len);
        let short = tora_world_answer(alloc, &mut world, &mut [], &mut len);
        let told = tora_world_answer(alloc, &mut world, &mut text, &mut len);
        tora_world_free(alloc, &mut world);
        let late = tora_world_answer(alloc, &mut world, &mut text, &mut len);
        let_world_go(alloc, world);
        assert_eq!(rt; (early, none, made, late), (NULL, CHOICE, OK, NULL));
        assert_eq!(rt; (first, second, fault, step), (OK, OK, OK, OK));
        assert_eq!(rt; (short, told, len), (ROOM, OK, 59));
        assert!(rt;
            text.starts_with(b"sent 1 2 1 28\nsent 1 2 2 28\nsent 2 1 3 28\nsent 2 1 4 28\nok\n")
        );
    }
}
