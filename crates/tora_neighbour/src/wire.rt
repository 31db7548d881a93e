//! Wires: what carries the datagrams of a link.
ghost use Rattle.std.specs.Prelude.{◌≡◌, ◌++◌, ◌∷◌, [], ◌≤◌, ℕ, Bool, Option, Result, List, IsTrue, IfOk, IfSome};
ghost use Rattle.std.specs.Prelude.{length};
ghost use Rattle.tora_neighbour.specs.declared.wire.WireError.{WireError};
ghost use Rattle.tora_neighbour.specs.Datagrams.{failures_after, IsReceived};

use thiserror::Error;

/// A call of a wire failed. The wire has counted it.
#[derive(Clone, Copy, Debug, PartialEq, Eq, Hash, Error)]
#[error("a call of the wire failed")]
pub struct WireError;

/// A way for datagrams to and from one neighbour. Datagrams may be lost, repeated and reordered.
///
/// A wire may make its datagrams visible to contracts, as `MemWire` does. It may stop doing so at any call, and then
/// never does again. Each wire counts its failed calls; the count stops at 2^64 - 1.
pub trait Wire {
    /// Whether contracts see the datagrams.
    ghost tells: { Self → Bool };

    /// The datagrams that are not yet received, next one first.
    ghost coming: { Self → List (List ℕ) };

    /// The datagrams that were passed to `send`, oldest first, including those of failed sends.
    ghost tries: { Self → List (List ℕ) };

    /// The count of failed calls; it stops at 2^64 - 1.
    ghost failures: { Self → ℕ };

    /// A send: old wire, bytes, result, new wire.
    ghost did_send: { Self → List ℕ → Result (Unit {0}) WireError → Self → Type 0 };

    /// A receive: old wire, result, new buffer, new wire.
    ghost did_receive: { Self → Result (Option ℕ) WireError → List ℕ → Self → Type 0 };

    /// Sends a datagram. If the call fails, the datagram may nevertheless have been sent.
    fn send(&mut self, bytes: &[u8]) -> Result<(), WireError>
        ensures call { did_send self.old bytes.now result self.new }
        ensures failures { failures self.new ≡ failures_after result (failures self.old) }
        ensures tells { IsTrue (tells self.new) → IsTrue (tells self.old) }
        ensures tried { IsTrue (tells self.new) → tries self.new ≡ tries self.old ++ bytes.now ∷ [] }
        ensures coming { IsTrue (tells self.new) → coming self.new ≡ coming self.old };

    /// Receives a datagram into the front of `buf`, cut to the size of `buf`, and returns how many bytes it wrote;
    /// `None` if there is no datagram. A failed call receives nothing.
    fn receive(&mut self, buf: &mut [u8]) -> Result<Option<usize>, WireError>
        ensures call { did_receive self.old result buf.new self.new }
        ensures failures { failures self.new ≡ failures_after result (failures self.old) }
        ensures tells { IsTrue (tells self.new) → IsTrue (tells self.old) }
        ensures tries { IsTrue (tells self.new) → tries self.new ≡ tries self.old }
        ensures count { IfOk result (λ n. IfSome n (λ k. k ≤ length buf.old)) }
        ensures came { IsTrue (tells self.new)
            → IsReceived (coming self.old) (length buf.old) result buf.new (coming self.new) };
}

/// A borrowed wire: each call is a call of the wire itself, and its owner has it back when the link has ended.
impl<W: Wire> Wire for &mut W {
    ghost tells = { λ w. W.tells w.now };

    ghost coming = { λ w. W.coming w.now };

    ghost tries = { λ w. W.tries w.now };

    ghost failures = { λ w. W.failures w.now };

    ghost did_send = { λ w bytes answer after. W.did_send w.now bytes answer after.now };

    ghost did_receive = { λ w answer buffer after. W.did_receive w.now answer buffer after.now };

    fn send(&mut self, bytes: &[u8]) -> Result<(), WireError> {
        Wire::send(&mut **self, bytes)
    }

    fn receive(&mut self, buf: &mut [u8]) -> Result<Option<usize>, WireError> {
        Wire::receive(&mut **self, buf)
    }
}
