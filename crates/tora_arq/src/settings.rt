//! The settings of a link end, and arithmetic with ticks.
ghost use Rattle.std.specs.Prelude.{◌≡◌, ℕ, ◌^◌, ◌<◌, ◌||◌, nat_le};
ghost use Rattle.std.specs.List.{list_any};
ghost use Rattle.tora_frame.specs.FrameParts.{IsFrame, frame_of};
ghost use Rattle.tora_frame.specs.declared.parts.Body.{Body};
ghost use Rattle.tora_frame.specs.BorrowedFrames.{body_of};
ghost use Rattle.tora_arq.specs.Settings.{ticks_passed};
ghost use Rattle.tora_arq.specs.LinkEnd.{is_foreign, is_unknown, is_update_of_another, has_update_of_another};
ghost use Rattle.tora_arq.specs.NextDue.{has_begun};
ghost use Rattle.tora_arq.specs.StateView.{settings_in};

use crate::Times;
use tora_frame::{BorrowedBody, BorrowedFrame, Header, Version};
use tora_height::Id;
use tora_packet::Packet;

/// The newest version that a link end speaks, its node, the node at the other end, and its times.
#[derive(Clone, Copy, Debug, PartialEq, Eq, Hash)]
pub struct Settings {
    pub version: Version,
    pub me: Id,
    pub peer: Id,
    pub times: Times,
}

/// How many ticks have passed since an earlier tick; 0 if the clock went back.
pub fn ticks_passed(earlier: u64, now: u64) -> u64
    ensures { result ≡ ticks_passed earlier now }
{
    now.saturating_sub(earlier)
}

/// The tick that is `ticks` ticks after an earlier one; `None` if it does not fit into 64 bits.
pub fn tick_behind(earlier: u64, ticks: u64) -> Option<u64>
    requires { 0 < ticks }
    ensures { (tick : ℕ) → tick < 2 ^ 64 → has_begun result tick ≡ nat_le ticks (ticks_passed earlier tick) }
{
    earlier.checked_add(ticks)
}

/// The earlier of two ticks, where `None` means never; `None` if both are.
pub fn earlier(first: Option<u64>, second: Option<u64>) -> Option<u64>
    ensures { (tick : ℕ) → has_begun result tick ≡ has_begun first tick || has_begun second tick }
{
    match (first, second) {
        (Some(a), Some(b)) => Some(a.min(b)),
        (Some(a), None) => Some(a),
        (None, other) => other,
    }
}

/// Whether the packet is an update with the height of a node other than the sender.
fn is_update_of_another(sender: Id, packet: &Packet) -> bool
    ensures { result ≡ is_update_of_another sender packet.now }
{
    match packet {
        Packet::Qry(_) => false,
        Packet::Upd(update) => update.height().id() != sender,
        Packet::Clr(_) => false,
    }
}

/// Whether one of the packets is an update with the height of a node other than the sender.
fn is_any_of_another(sender: Id, packets: &[Packet]) -> bool
    ensures { result ≡ list_any (is_update_of_another sender) packets.now }
{
    for packet in packets {
        if is_update_of_another(sender, packet) {
            return true;
        }
    }
    false
}

/// Whether a frame has an update with the height of a node other than the sender; `false` for HELLO and ACK.
fn has_update_of_another(sender: Id, body: BorrowedBody<'_>) -> bool
    ensures { result ≡ has_update_of_another sender (body_of body.entry) }
{
    match body {
        BorrowedBody::Hello => false,
        BorrowedBody::Data(_, _, packets) => is_any_of_another(sender, packets),
        BorrowedBody::Ack(_) => false,
    }
}

/// Whether a frame is of version 2 and the end speaks only version 1.
fn is_unknown(newest: Version, version: Version) -> bool
    ensures { result ≡ is_unknown newest version }
{
    match newest {
        Version::One => match version {
            Version::One => false,
            Version::Two => true,
        },
        Version::Two => false,
    }
}

impl Settings {
    /// Whether a HELLO with this header is not from the peer to this node, or is of a version that the end does not
    /// speak.
    pub fn is_foreign_hello(&self, header: &Header) -> bool
        ensures { result ≡ is_foreign (settings_in self.now) (frame_of header.now Body.Hello) }
    {
        header.sender != self.peer
            || header.receiver != self.me
            || is_unknown(self.version, header.version)
    }

    /// Whether the frame is not from the peer to this node, is of a version that the end does not speak, or has an
    /// update of another node than the peer.
    pub fn is_foreign(&self, frame: &BorrowedFrame<'_>) -> bool
        ensures value { result ≡ is_foreign (settings_in self.now) frame.now }
        ensures valid { IsFrame frame.now }
    {
        let header = frame.header();
        header.sender != self.peer
            || header.receiver != self.me
            || is_unknown(self.version, header.version)
            || has_update_of_another(header.sender, frame.body())
    }
}
