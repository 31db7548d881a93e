//! A second core with the state of a first.
ghost use Rattle.std.specs.Prelude.{◌≡◌, ◌≤◌, IfErr, IfOk, vec_capacity};

use crate::destination::Destination;
use crate::errors::CoreError;
use crate::links::Links;
use crate::node::Core;
use std::alloc::{AllocError, Global};
use tora_height::Id;

impl Links {
    /// A copy of the rows and of the values stored with them.
    ///
    /// # Errors
    /// Out of memory.
    fn try_clone(&self, alloc: Global) -> Result<Links, AllocError>
        ensures { IfOk result (λ links. links ≡ self.now) }
    {
        let places = Vec::from_slice(alloc, self.places.as_slice())?;
        let up = Vec::from_slice(alloc, self.up.as_slice())?;
        let directions = Vec::from_slice(alloc, self.directions.as_slice())?;
        Ok(Links {
            own: self.own,
            places,
            up,
            directions,
            downstream: self.downstream,
            least: self.least,
        })
    }
}

impl Destination {
    /// A copy of the view.
    ///
    /// # Errors
    /// Out of memory.
    fn try_clone(&self, alloc: Global) -> Result<Destination, AllocError>
        ensures { IfOk result (λ view. view ≡ self.now) }
    {
        Ok(Destination {
            me: self.me,
            destination: self.destination,
            flag: self.flag,
            links: self.links.try_clone(alloc)?,
            last: self.last,
            erasure: self.erasure,
            erased: self.erased,
        })
    }
}

/// Copies of the views.
///
/// # Errors
/// Out of memory.
fn copied_views(alloc: Global, views: &[Destination]) -> Result<Vec<Destination>, AllocError>
    ensures { IfOk result (λ copies. copies.items ≡ views.now) }
{
    let mut copies = Vec::with_capacity(alloc, views.len())?;
    for view in views {
        copies.push(view.try_clone(alloc)?)?;
    }
    Ok(copies)
}

/// A copy of a list of numbers, with room for `room` numbers.
///
/// # Errors
/// Out of memory.
fn with_room(alloc: Global, room: usize, numbers: &[Id]) -> Result<Vec<Id>, AllocError>
    ensures items { IfOk result (λ list. list.items ≡ numbers.now) }
    ensures room { IfOk result (λ list. room ≤ vec_capacity list) }
{
    let mut list = Vec::with_capacity(alloc, room)?;
    list.extend_from_slice(numbers)?;
    Ok(list)
}

impl Core {
    /// A second core with the same state. A change of one does not affect the other.
    ///
    /// # Errors
    /// `Memory`.
    pub fn try_clone(&self, alloc: Global) -> Result<Core, CoreError>
        ensures value { IfOk result (λ core. core ≡ self.now) }
        ensures memory { IfErr result (λ e. e ≡ CoreError.Memory) }
    {
        let Ok(neighbours) = Vec::from_slice(alloc, self.neighbours.as_slice()) else {
            return Err(CoreError::Memory);
        };
        let Ok(up) = with_room(alloc, self.neighbours.len(), self.up.as_slice()) else {
            return Err(CoreError::Memory);
        };
        let Ok(views) = copied_views(alloc, self.views.as_slice()) else {
            return Err(CoreError::Memory);
        };
        let Ok(destinations) = self.destinations.clone() else {
            return Err(CoreError::Memory);
        };
        Ok(Core {
            me: self.me,
            erasure: self.erasure,
            neighbours,
            up,
            destinations,
            views,
            hints: self.hints,
        })
    }
}
