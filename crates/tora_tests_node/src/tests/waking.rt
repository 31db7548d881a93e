//! Wires that wait for a datagram and for a wake-up at once.
use super::sees::{same, same_at, sees, there};
use std::alloc::Global;
use std::net::{IpAddr, Ipv4Addr, Ipv6Addr, Net, SocketAddr};
use std::process::Abort;
use std::test::Fail;
use std::time::Clock;
use tora_neighbour::{NodeClock, SocketWaker, Wake, WakingWire, Wire, WireError};

/// A wire, and the waker that ends its waits.
pub(super) type Woken<'a, R> = (WakingWire<'a, &'a R>, SocketWaker<'a, &'a R>);

/// Two wires to each other with these clocks, on two free ports of this address: one of the 500 ports from `from` on,
/// and the port 500 above it. `None` if no such two ports can be bound.
pub(super) fn woken_pair<'a, R: Net + Clock>(
    rt: &'a R,
    alloc: Global,
    (one, two): (&'a NodeClock<&'a R>, &'a NodeClock<&'a R>),
    at: IpAddr,
    from: u16,
) -> Option<(Woken<'a, R>, Woken<'a, R>)> {
    for n in 0..500u16 {
        let port = SocketAddr::new(at, from.saturating_add(n));
        let other = SocketAddr::new(at, from.saturating_add(n).saturating_add(500));
        let Ok(first) = WakingWire::bind(rt, alloc, one, port, other) else {
            continue;
        };
        let Ok(second) = WakingWire::bind(rt, alloc, two, other, port) else {
            continue;
        };
        return Some((first, second));
    }
    None
}

/// Receives once for each row, into 4 bytes, and checks the result: the length of the datagram, at most 4, or `None` if
/// there is none.
fn receives<W: Wire>(
    rt: &impl Abort,
    wire: &mut W,
    rows: &[Result<Option<usize>, WireError>],
    what: &str,
) {
    let mut buffer = [0u8; 4];
    for wanted in rows {
        same_at(rt, &wire.receive(&mut buffer), wanted, what, wanted);
    }
}

/// Sends datagrams of 3, 0 and 6 bytes from the first wire. Checks that the second returns them by one receive each,
/// the last one cut to 4 bytes, and then none twice. Then the same for one datagram in the other direction.
fn three_come<R: Clock + Abort>(rt: &R, (first, second): (Woken<'_, R>, Woken<'_, R>)) {
    let (mut first, _waker) = first;
    let (mut second, _other) = second;
    for datagram in [&[1, 2, 3][..], &[], &[4, 5, 6, 7, 8, 9]] {
        same(rt, &first.send(datagram), &Ok(()), "a send");
    }
    let rows = [Ok(Some(3)), Ok(Some(0)), Ok(Some(4)), Ok(None), Ok(None)];
    receives(rt, &mut second, &rows, "what came");
    same(rt, &second.send(&[1]), &Ok(()), "a send back");
    receives(rt, &mut first, &[Ok(Some(1)), Ok(None)], "what came back");
}

/// One receive returns one datagram, over 127.0.0.1 and over ::1. The second address is skipped if no ports of it can
/// be bound, as in a system without it.
#[test]
fn datagrams_that_came_are_given_one_a_receive(rt: HostRuntime) {
    let alloc = rt.alloc();
    let clock = NodeClock::new(&rt);
    let clocks = (&clock, &clock);
    let v4 = woken_pair(&rt, alloc, clocks, IpAddr::V4(Ipv4Addr::LOCALHOST), 45_400);
    three_come(&rt, there(&rt, v4, "a pair of free ports"));
    if let Some(pair) = woken_pair(&rt, alloc, clocks, IpAddr::V6(Ipv6Addr::LOCALHOST), 45_400) {
        three_come(&rt, pair);
    }
}

/// A thousand waits, each of which a wake-up ends; without one, each would last until the end of a tick.
#[test]
fn wake_ups_end_waits(rt: HostRuntime) {
    let clock = NodeClock::new(&rt);
    let here = IpAddr::V4(Ipv4Addr::LOCALHOST);
    let v4 = woken_pair(&rt, rt.alloc(), (&clock, &clock), here, 46_400);
    let ((mut wire, waker), _other) = there(&rt, v4, "a pair of free ports");
    let mut buffer = [0u8; 4];
    for _ in 0..1000 {
        waker.wake();
        same(
            &rt,
            &wire.receive(&mut buffer),
            &Ok(None),
            "a wait that was ended",
        );
    }
}

#[test]
fn an_address_that_is_taken_is_not_bound(rt: HostRuntime) -> Result<(), Fail> {
    let any = SocketAddr::new(IpAddr::V4(Ipv4Addr::LOCALHOST), 0);
    let clock = NodeClock::new(&rt);
    let (first, _waker) = WakingWire::bind(&rt, rt.alloc(), &clock, any, any)?;
    let taken = first.local_addr()?;
    let second = WakingWire::bind(&rt, rt.alloc(), &clock, taken, any);
    sees(&rt, second.is_err(), "an address that is taken");
    Ok(())
}
