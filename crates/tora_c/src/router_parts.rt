//! The times, changes and tallies of a router as C reads them.
ghost use Rattle.std.specs.Prelude.{◌≡◌, ◌<◌};
ghost use Rattle.tora_arq.specs.Settings.{IsTimes};
ghost use Rattle.tora_c.specs.RouterParts.{change_parts, next_hop_parts, or_standard, tally_parts, times_of};

use tora_arq::Times;
use tora_router::{Change, Tally};

/// The times of the links of a router or a world, with the fields of `Times`, as `tora_times` of the header. `tries` is
/// a count, the others are in ticks of 100 ms. A field of 0 means the standard value: 10, 50, 5 and 8.
#[derive(Clone, Copy, Debug)]
#[repr(C)]
pub struct TimesParts {
    pub hello: u64,
    pub silent: u64,
    pub retry: u64,
    pub tries: u64,
}

/// A change, as `tora_change` of the header. Fields that its kind does not use are 0.
#[derive(Clone, Copy, Debug)]
#[repr(C)]
pub struct ChangeParts {
    /// 1 for a link that is up, 2 for one that is down, 3 for a next hop.
    pub kind: u32,
    /// The neighbour of the link, or for a next hop the destination.
    pub node: u32,
    /// The next hop; 0 if there is none, and for a link.
    pub hop: u32,
    /// Why the link is down, as `Reason::number` gives it, from 1 to 5; otherwise 0.
    pub reason: u32,
}

/// The counts of a neighbour's datagrams by outcome, as `tora_tally` of the header: six verdicts on frames, and `bad`
/// for bytes that are not a frame. A count stops at 2^64 - 1.
#[derive(Clone, Copy, Debug)]
#[repr(C)]
pub struct TallyParts {
    pub accepted: u64,
    pub repeated: u64,
    pub ahead: u64,
    pub stale: u64,
    pub foreign: u64,
    pub busy: u64,
    pub bad: u64,
}

/// A field, or the standard value if it is 0.
fn or_standard(part: u64, standard: u64) -> u64
    requires { 0 < standard }
    ensures value { result ≡ or_standard part standard }
    ensures above { 0 < result }
{
    if part == 0 { standard } else { part }
}

/// The times that these parts give, none of which is 0.
pub fn times_of(parts: &TimesParts) -> Times
    ensures value { result ≡ times_of parts.now }
    ensures above { IsTimes result }
{
    Times {
        hello: or_standard(parts.hello, Times::STANDARD.hello),
        silent: or_standard(parts.silent, Times::STANDARD.silent),
        retry: or_standard(parts.retry, Times::STANDARD.retry),
        tries: or_standard(parts.tries, Times::STANDARD.tries),
    }
}

/// The next hop to a destination as parts.
fn next_hop_parts(destination: u32, hop: Option<u32>) -> ChangeParts
    ensures { result ≡ next_hop_parts destination hop }
{
    ChangeParts {
        kind: 3,
        node: destination,
        hop: hop.unwrap_or(0),
        reason: 0,
    }
}

/// A change as parts.
pub fn change_parts(change: Change) -> ChangeParts
    ensures { result ≡ change_parts change }
{
    match change {
        Change::LinkUp(k) => ChangeParts {
            kind: 1,
            node: k,
            hop: 0,
            reason: 0,
        },
        Change::LinkDown(k, reason) => ChangeParts {
            kind: 2,
            node: k,
            hop: 0,
            reason: u32::from(reason.number()),
        },
        Change::NextHop(d, hop) => next_hop_parts(d, hop),
    }
}

/// A tally as parts.
pub fn tally_parts(tally: Tally) -> TallyParts
    ensures { result ≡ tally_parts tally }
{
    TallyParts {
        accepted: tally.accepted,
        repeated: tally.repeated,
        ahead: tally.ahead,
        stale: tally.stale,
        foreign: tally.foreign,
        busy: tally.busy,
        bad: tally.bad,
    }
}
