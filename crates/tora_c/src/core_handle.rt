//! A core that C holds by a pointer.
ghost use Rattle.std.specs.Prelude.{◌≡◌, MatchOption, None, Option, Some};
ghost use Rattle.tora_c.specs.CoreNode.{NodeView};
ghost use Rattle.tora_c.specs.Held.{coded_held, owned};
ghost use Rattle.tora_c.specs.contracts.core_node.CoreNode.{the_row};

use crate::core_node::CoreNode;
use crate::handle::RawBox;
use std::alloc::Global;
use std::marker::Model;
use std::mem::replace;
use std::ptr::null_mut;

/// The pointer to a core, or null, as `tora_core` of the header.
#[repr(C)]
pub struct CoreHandle {
    at: *mut u8,
    ghost held: { Option NodeView } by { coded_held the_row },
}

impl Model for CoreHandle {
    ghost also_owns = { λ handle. owned the_row handle.at handle.held };
}

impl CoreHandle {
    /// A null handle.
    pub fn null() -> CoreHandle
        ensures { result.held ≡ None }
    {
        CoreHandle { at: null_mut() }
    }

    /// The handle of this block.
    fn of(raw: RawBox<CoreNode, Global>) -> CoreHandle
        ensures { result.held ≡ Some raw.value }
    {
        let RawBox {
            pointer,
            allocator: _,
        } = raw;
        CoreHandle {
            at: pointer as *mut u8,
        }
    }

    /// The block, unless the handle is null.
    pub fn into_raw(self, alloc: Global) -> Option<RawBox<CoreNode, Global>>
        ensures { MatchOption result (self.held ≡ None) (λ raw. self.held ≡ Some raw.value) }
    {
        let CoreHandle { at } = self;
        if at.is_null() {
            return None;
        }
        Some(RawBox {
            pointer: at as *mut CoreNode,
            allocator: alloc,
        })
    }

    /// Takes the core out of the handle, which is null afterwards. `None` if it was null before.
    pub fn take(&mut self, alloc: Global) -> Option<Box<CoreNode, Global>>
        ensures null { self.new.held ≡ None }
        ensures node { MatchOption result (self.old.held ≡ None) (λ node. self.old.held ≡ Some node.value) }
    {
        match replace(self, CoreHandle::null()).into_raw(alloc) {
            Some(raw) => Some(raw.into_box()),
            None => None,
        }
    }

    /// Puts a core into the handle, and frees the one that the handle held, if there was one.
    pub fn put(&mut self, alloc: Global, node: Box<CoreNode, Global>)
        ensures { self.new.held ≡ Some node.value }
    {
        let old = replace(self, CoreHandle::of(RawBox::of(node)));
        if let Some(raw) = old.into_raw(alloc) {
            drop(raw.into_box());
        }
    }
}
