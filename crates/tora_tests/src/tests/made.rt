//! The heights, packets and cores of the tests.
ghost use Rattle.std.specs.Prelude.{◌≡◌, ◌<◌, true, All};

use std::alloc::{AllocError, Global};
use std::process::Abort;
use tora_core::{Core, CoreError, CoreLimits};
use tora_height::{Entry, Height, Id};
use tora_packet::{Clear, Packet, Update};

/// The height with these parts; the test fails if they are not in range.
pub fn height(rt: &impl Abort, tau: u64, oid: Id, r: u8, delta: i32, id: Id) -> Height {
    Height::new(tau, oid, r, delta, id).expect(rt, "a height")
}

/// The query for a destination; the test fails if that is 0.
pub fn query_for(rt: &impl Abort, destination: Id) -> Packet {
    Packet::qry(destination).expect(rt, "a query")
}

/// The query for destination `number`, or for 2^32 - 1 if `number` is greater; the test fails if it is 0.
pub fn query_of(rt: &impl Abort, number: u64) -> Packet {
    query_for(rt, Id::try_from(number).unwrap_or(Id::MAX))
}

/// The update for destination 4 with the height of these parts; the test fails if there is no such update.
pub fn update(rt: &impl Abort, tau: u64, oid: Id, r: u8, delta: i32, id: Id) -> Packet {
    Packet::Upd(Update::new(4, height(rt, tau, oid, r, delta, id)).expect(rt, "an update"))
}

/// The clear for destination 4 of the reference level (`tau`, `oid`, 1); the test fails if there is no such clear.
pub fn clear(rt: &impl Abort, tau: u64, oid: Id) -> Packet {
    Packet::Clr(Clear::new(4, tau, oid).expect(rt, "a clear"))
}

/// The parts of a height: tau, oid, r, delta and id.
pub type Parts = (u64, Id, u8, i32, Id);

/// The height with these parts as an entry; NULL if `parts` is `None`. The test fails if the parts are not in range.
pub fn entry_of(rt: &impl Abort, parts: Option<Parts>) -> Entry {
    let (tau, oid, r, delta, id) = parts?;
    Some(height(rt, tau, oid, r, delta, id))
}

/// The numbers of neighbours or of destinations: listed ones, or a count of consecutive ones from the first on.
#[derive(Clone, Copy)]
pub enum Numbers {
    These(&'static [Id]),
    Counted(Id, u32),
}

/// The numbers as a vector; the error says that memory ran out.
pub fn list_of(alloc: Global, numbers: Numbers) -> Result<Vec<Id>, AllocError> {
    match numbers {
        Numbers::These(numbers) => Vec::from_slice(alloc, numbers),
        Numbers::Counted(first, count) => {
            let mut list = Vec::new(alloc);
            for i in 0..count {
                list.push(first.saturating_add(i))?;
            }
            Ok(list)
        }
    }
}

/// Whether no number is 0.
pub fn are_numbers(numbers: &[Id]) -> bool
    ensures { result ≡ true → All (λ n. 0 < n) numbers.now }
{
    for n in numbers {
        if *n == 0 {
            return false;
        }
    }
    true
}

/// The core of node `me` with these neighbours and destinations, or the error of `Core::new`. The test fails if a
/// number is 0.
pub fn core_of(
    rt: &impl Abort,
    alloc: Global,
    me: Id,
    neighbours: &[Id],
    destinations: &[Id],
) -> Result<Core, CoreError> {
    let neighbours_are = are_numbers(neighbours);
    let destinations_are = are_numbers(destinations);
    assert!(rt; me > 0 && neighbours_are && destinations_are);
    Core::new(alloc, me, neighbours, destinations)
}

/// The core of node `me` with these limits, neighbours and destinations, or the error of `Core::with_limits`. The test
/// fails if a number is 0.
pub fn core_within(
    rt: &impl Abort,
    alloc: Global,
    limits: CoreLimits,
    me: Id,
    neighbours: &[Id],
    destinations: &[Id],
) -> Result<Core, CoreError> {
    let neighbours_are = are_numbers(neighbours);
    let destinations_are = are_numbers(destinations);
    assert!(rt; me > 0 && neighbours_are && destinations_are);
    Core::with_limits(alloc, limits, me, neighbours, destinations)
}
