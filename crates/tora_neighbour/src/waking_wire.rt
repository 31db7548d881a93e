//! A wire over UDP between two addresses, and its waker.
ghost use Rattle.std.specs.Prelude.{◌≡◌, ◌≤◌, ◌+◌, ◌-◌, ◌^◌, ◌↔◌, min, true, false, [], length, IfOk, IfSome, IsTrue};
ghost use Rattle.tora_neighbour.specs.WakingWire.{IsLost, Takes, Waits};

use crate::clock::SystemClock;
use crate::node_clock::NodeClock;
use crate::waited_socket::{PolledSocket, WaitedSocket};
use crate::wake::Wake;
use crate::wire::{Wire, WireError};
use mio::Waker;
use std::alloc::Global;
use std::io;
use std::io::ErrorKind;
use std::marker::Model;
use std::net::{Net, SocketAddr};

/// Wakes the wire with which it was made, and reports the core's end to the node's clock. A failed wake-up is ignored.
#[derive(Drop)]
pub struct SocketWaker<'a, R> {
    waker: Waker,
    clock: &'a NodeClock<R>,
}

impl<'a, R: SystemClock> Wake for SocketWaker<'a, R> {
    fn wake(&self) {
        let _ = self.waker.wake();
    }

    fn end(&self) {
        self.clock.end();
        self.wake();
    }
}

/// A wire over a UDP socket between two addresses. Contracts do not see its datagrams. It does not check the sender of
/// a datagram.
///
/// A receive returns a datagram that has come, without waiting. If there is none, it waits for a datagram or a wake-up,
/// at most until the clock's next tick of 100 ms, and not at all once the node's core has ended. If the wait ends
/// without a datagram, the receive returns none. A datagram of no bytes is a datagram too.
///
/// A send never waits. It fails if fewer bytes are sent than were given. If the system has no room for the datagram, or
/// has no route to the other end, for instance because an interface is down, the datagram is lost and the send
/// succeeds. Any other error of the system is a failed call.
#[derive(Drop)]
pub struct WakingWire<'a, R, S = PolledSocket> {
    socket: S,
    remote: SocketAddr,
    clock: &'a NodeClock<R>,
    /// Whether the socket may still hold a datagram for which no event will be reported.
    has_more: bool,
    failures: u64,
}

impl<'a, R, S> Model for WakingWire<'a, R, S> {
    ghost use Rattle.tora_neighbour.specs.WakingWire.{WireView};

    ghost Value = { WireView S };

    ghost view = { λ w. record { socket = w.socket; remote = w.remote; has_more = w.has_more; failures = w.failures } };
}

/// Whether a datagram that the system did not send for this reason counts as lost in the network: the system has no
/// room for it now, or has no route to the other end now.
fn is_lost(kind: ErrorKind) -> bool
    ensures { IsTrue result ↔ IsLost kind }
{
    matches!(
        kind,
        ErrorKind::WouldBlock
            | ErrorKind::HostUnreachable
            | ErrorKind::NetworkUnreachable
            | ErrorKind::NetworkDown
    )
}

impl<'a, R: SystemClock> WakingWire<'a, R> {
    /// Binds a socket to the local address; the wire sends to the remote one. The socket is not connected. `clock` is
    /// the node's clock: it says when a tick begins, and the waker reports the core's end to it. Only this call takes
    /// memory.
    pub fn bind<N: Net>(
        net: &N,
        alloc: Global,
        clock: &'a NodeClock<R>,
        local: SocketAddr,
        remote: SocketAddr,
    ) -> io::Result<(WakingWire<'a, R>, SocketWaker<'a, R>)>
        ensures failures { IfOk result (λ made. made.0.failures ≡ 0) }
        ensures remote { IfOk result (λ made. made.0.remote ≡ remote) }
        ensures has_more { IfOk result (λ made. made.0.has_more ≡ true) }
    {
        let (socket, waker) = PolledSocket::bind(net, alloc, local)?;
        let wire = WakingWire {
            socket,
            remote,
            clock,
            has_more: true,
            failures: 0,
        };
        Ok((wire, SocketWaker { waker, clock }))
    }

    /// The address of the socket, with the port that the system chose if 0 was requested.
    pub fn local_addr(&self) -> io::Result<SocketAddr> {
        self.socket.local_addr()
    }
}

impl<'a, R: SystemClock, S: WaitedSocket> WakingWire<'a, R, S> {
    /// Counts a failed call.
    fn count(&mut self)
        ensures { self.new ≡ record self.old { failures = min (self.old.failures + 1) (2 ^ 64 - 1) } }
    {
        self.failures = self.failures.saturating_add(1);
    }

    /// Receives a datagram that has come, without waiting; `None` if there is none, or if the call was interrupted.
    fn take(&mut self, buf: &mut [u8]) -> Result<Option<usize>, WireError>
        ensures takes { Takes S.did_receive_from self.old result buf.new self.new }
        ensures count { IfOk result (λ n. IfSome n (λ k. k ≤ length buf.old)) }
    {
        match self.socket.receive_datagram(buf) {
            Ok((count, _)) => Ok(Some(count)),
            Err(error) => match error.kind() {
                ErrorKind::WouldBlock => {
                    self.has_more = false;
                    Ok(None)
                }
                ErrorKind::Interrupted => Ok(None),
                _ => {
                    self.count();
                    Err(WireError)
                }
            },
        }
    }

    /// Waits for a datagram or a wake-up, at most until the next tick, and then receives a datagram if one may have
    /// come. `None` if none came.
    fn wait(&mut self, buf: &mut [u8]) -> Result<Option<usize>, WireError>
        ensures waits { Waits S.did_receive_from S.did_wait self.old result buf.new self.new }
        ensures count { IfOk result (λ n. IfSome n (λ k. k ≤ length buf.old)) }
    {
        let longest = self.clock.until_next_tick();
        match self.socket.wait(longest) {
            Ok(true) => {
                self.has_more = true;
                self.take(buf)
            }
            Ok(false) => Ok(None),
            Err(_) => {
                self.count();
                Err(WireError)
            }
        }
    }
}

impl<'a, R: SystemClock, S: WaitedSocket> Wire for WakingWire<'a, R, S> {
    ghost use Rattle.tora_neighbour.specs.WakingWire.{SendsTo, ReceivesFrom};

    ghost tells = { λ w. false };

    ghost coming = { λ w. [] };

    ghost tries = { λ w. [] };

    ghost failures = { λ w. w.failures };

    ghost did_send = { λ w bytes answer after. SendsTo S.did_send_to w bytes answer after };

    ghost did_receive = { λ w answer buffer after. ReceivesFrom S.did_receive_from S.did_wait w answer buffer after };

    fn send(&mut self, bytes: &[u8]) -> Result<(), WireError> {
        match self.socket.send_datagram(bytes, self.remote) {
            Ok(count) => {
                if count == bytes.len() {
                    return Ok(());
                }
                self.count();
                Err(WireError)
            }
            Err(error) => {
                if is_lost(error.kind()) {
                    return Ok(());
                }
                self.count();
                Err(WireError)
            }
        }
    }

    fn receive(&mut self, buf: &mut [u8]) -> Result<Option<usize>, WireError> {
        if self.has_more {
            let taken = self.take(buf);
            if self.has_more {
                return taken;
            }
        }
        self.wait(buf)
    }
}
