//! A driven world that C holds by a pointer.
ghost use Rattle.std.specs.Prelude.{◌≡◌, MatchOption, None, Option, Some};
ghost use Rattle.tora_c.specs.declared.world_node.WorldNode.{WorldNode};
ghost use Rattle.tora_c.specs.Held.{coded_held, owned};
ghost use Rattle.tora_c.specs.contracts.world_node.WorldNode.{the_row};

use crate::handle::RawBox;
use crate::world_node::WorldNode;
use std::alloc::Global;
use std::marker::Model;
use std::mem::replace;
use std::ptr::null_mut;

/// The pointer to a driven world, or null, as `tora_world` of the header.
#[repr(C)]
pub struct WorldHandle {
    at: *mut u8,
    ghost held: { Option WorldNode } by { coded_held the_row },
}

impl Model for WorldHandle {
    ghost also_owns = { λ handle. owned the_row handle.at handle.held };
}

impl WorldHandle {
    /// A null handle.
    pub fn null() -> WorldHandle
        ensures { result.held ≡ None }
    {
        WorldHandle { at: null_mut() }
    }

    /// The handle of this block.
    fn of(raw: RawBox<WorldNode, Global>) -> WorldHandle
        ensures { result.held ≡ Some raw.value }
    {
        let RawBox {
            pointer,
            allocator: _,
        } = raw;
        WorldHandle {
            at: pointer as *mut u8,
        }
    }

    /// The block, unless the handle is null.
    pub fn into_raw(self, alloc: Global) -> Option<RawBox<WorldNode, Global>>
        ensures { MatchOption result (self.held ≡ None) (λ raw. self.held ≡ Some raw.value) }
    {
        let WorldHandle { at } = self;
        if at.is_null() {
            return None;
        }
        Some(RawBox {
            pointer: at as *mut WorldNode,
            allocator: alloc,
        })
    }

    /// Takes the world out of the handle, which is null afterwards. `None` if it was null before.
    pub fn take(&mut self, alloc: Global) -> Option<Box<WorldNode, Global>>
        ensures null { self.new.held ≡ None }
        ensures node { MatchOption result (self.old.held ≡ None) (λ node. self.old.held ≡ Some node.value) }
    {
        match replace(self, WorldHandle::null()).into_raw(alloc) {
            Some(raw) => Some(raw.into_box()),
            None => None,
        }
    }

    /// Puts a world into the handle, and frees the one that the handle held, if there was one.
    pub fn put(&mut self, alloc: Global, node: Box<WorldNode, Global>)
        ensures { self.new.held ≡ Some node.value }
    {
        let old = replace(self, WorldHandle::of(RawBox::of(node)));
        if let Some(raw) = old.into_raw(alloc) {
            drop(raw.into_box());
        }
    }
}
