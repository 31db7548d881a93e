//! Sockets that can wait, with calls that contracts see.
ghost use Rattle.std.specs.Prelude.{◌≤◌, ℕ, Bool, List, Result, IfOk, length};
ghost use Rattle.std.specs.declared.io.Error.{Error};
ghost use Rattle.std.specs.declared.net.SocketAddr.{SocketAddr as Address};

use mio::net::UdpSocket;
use mio::{Events, Interest, Poll, Token, Waker};
use std::alloc::Global;
use std::io;
use std::net::{Net, SocketAddr};
use std::time::Duration;

/// The token of the socket at the poller.
const SOCKET: Token = Token(0);

/// The token of the wake-up at the poller.
const WAKE_UP: Token = Token(1);

/// The most events of one wait: one for the socket and one for the wake-up.
const MOST_EVENTS: usize = 2;

/// A socket for datagrams that can wait. Contracts see each call: its arguments, its result, and the socket after it.
/// Only a real call gives evidence of a call.
pub trait WaitedSocket {
    /// A send: old socket, bytes, address, result, new socket.
    ghost did_send_to: { Self → List ℕ → Address → Result ℕ Error → Self → Type 0 };

    /// A receive: old socket, old buffer, result, new buffer, new socket.
    ghost did_receive_from: { Self → List ℕ → Result (ℕ × Address) Error → List ℕ → Self → Type 0 };

    /// A wait: old socket, whether a datagram may have come, new socket.
    ghost did_wait: { Self → Result Bool Error → Self → Type 0 };

    /// Sends a datagram to an address, and returns how many of its bytes were sent.
    fn send_datagram(&mut self, bytes: &[u8], to: SocketAddr) -> io::Result<usize>
        ensures { did_send_to self.old bytes.now to result self.new };

    /// Receives a datagram into the front of a buffer, cut to the buffer's size, and returns the count of bytes and the
    /// sender. It does not wait: if there is no datagram, the error is `WouldBlock`.
    fn receive_datagram(&mut self, buf: &mut [u8]) -> io::Result<(usize, SocketAddr)>
        ensures call { did_receive_from self.old buf.old result buf.new self.new }
        ensures count { IfOk result (λ came. came.0 ≤ length buf.old) };

    /// Waits for a datagram or a wake-up, at most `longest`. Returns whether a datagram may have come; `false` if only
    /// a wake-up came, or nothing.
    fn wait(&mut self, longest: Duration) -> io::Result<bool>
        ensures { did_wait self.old result self.new };
}

/// A UDP socket with a poller, which waits for a datagram or a wake-up.
#[derive(Drop)]
pub struct PolledSocket {
    poll: Poll,
    events: Events,
    socket: UdpSocket,
}

impl PolledSocket {
    /// Binds the socket to an address. The waker ends a wait of this socket.
    pub(crate) fn bind<N: Net>(
        net: &N,
        alloc: Global,
        local: SocketAddr,
    ) -> io::Result<(PolledSocket, Waker)> {
        let mut socket = UdpSocket::bind(net, local)?;
        let poll = Poll::new(net)?;
        let events = Events::with_capacity(alloc, MOST_EVENTS)?;
        poll.registry()
            .register(&mut socket, SOCKET, Interest::READABLE)?;
        let waker = Waker::new(poll.registry(), WAKE_UP)?;
        let polled = PolledSocket {
            poll,
            events,
            socket,
        };
        Ok((polled, waker))
    }

    /// The address of the socket, with the port that the system chose if 0 was requested.
    pub fn local_addr(&self) -> io::Result<SocketAddr> {
        self.socket.local_addr()
    }
}

impl WaitedSocket for PolledSocket {
    ghost did_send_to = { λ socket bytes to answer after. Unit {0} };

    ghost did_receive_from = { λ socket buffer answer bytes after. Unit {0} };

    ghost did_wait = { λ socket answer after. Unit {0} };

    fn send_datagram(&mut self, bytes: &[u8], to: SocketAddr) -> io::Result<usize> {
        self.socket.send_to(bytes, to)
    }

    fn receive_datagram(&mut self, buf: &mut [u8]) -> io::Result<(usize, SocketAddr)> {
        self.socket.recv_from(buf)
    }

    fn wait(&mut self, longest: Duration) -> io::Result<bool> {
        self.poll.poll(&mut self.events, Some(longest))?;
        Ok(self.events.iter().any(|event| event.token() == SOCKET))
    }
}
