//! A router that C holds by a pointer.
ghost use Rattle.std.specs.Prelude.{◌≡◌, MatchOption, None, Option, Some};
ghost use Rattle.tora_router.specs.Router.{RouterView};
ghost use Rattle.tora_router.specs.contracts.router.Router.{the_row};
ghost use Rattle.tora_c.specs.Held.{coded_held, owned};

use crate::handle::RawBox;
use std::alloc::Global;
use std::marker::Model;
use std::mem::replace;
use std::ptr::null_mut;
use tora_router::Router;

/// The pointer to a router, or null, as `tora_router` of the header.
#[repr(C)]
pub struct RouterHandle {
    at: *mut u8,
    ghost held: { Option RouterView } by { coded_held the_row },
}

impl Model for RouterHandle {
    ghost also_owns = { λ handle. owned the_row handle.at handle.held };
}

impl RouterHandle {
    /// A null handle.
    pub fn null() -> RouterHandle
        ensures { result.held ≡ None }
    {
        RouterHandle { at: null_mut() }
    }

    /// The handle of this block.
    fn of(raw: RawBox<Router, Global>) -> RouterHandle
        ensures { result.held ≡ Some raw.value }
    {
        let RawBox {
            pointer,
            allocator: _,
        } = raw;
        RouterHandle {
            at: pointer as *mut u8,
        }
    }

    /// The block, unless the handle is null.
    pub fn into_raw(self, alloc: Global) -> Option<RawBox<Router, Global>>
        ensures { MatchOption result (self.held ≡ None) (λ raw. self.held ≡ Some raw.value) }
    {
        let RouterHandle { at } = self;
        if at.is_null() {
            return None;
        }
        Some(RawBox {
            pointer: at as *mut Router,
            allocator: alloc,
        })
    }

    /// Takes the router out of the handle, which is null afterwards. `None` if it was null before.
    pub fn take(&mut self, alloc: Global) -> Option<Box<Router, Global>>
        ensures null { self.new.held ≡ None }
        ensures router { MatchOption result (self.old.held ≡ None) (λ router. self.old.held ≡ Some router.value) }
    {
        match replace(self, RouterHandle::null()).into_raw(alloc) {
            Some(raw) => Some(raw.into_box()),
            None => None,
        }
    }

    /// Puts a router into the handle, and frees the one that the handle held, if there was one.
    pub fn put(&mut self, alloc: Global, router: Box<Router, Global>)
        ensures { self.new.held ≡ Some router.value }
    {
        let old = replace(self, RouterHandle::of(RawBox::of(router)));
        if let Some(raw) = old.into_raw(alloc) {
            drop(raw.into_box());
        }
    }
}
