//! The lines that report what a line changed in a world.
ghost use Rattle.std.specs.Prelude.{◌≡◌, ◌<◌, ◌≤◌, ◌+◌, ◌-◌, ◌++◌, ◌∷◌, [], codes, OnOk, IfOk, length, string_bytes};
ghost use Rattle.std.specs.Prelude.{if◌then◌else◌};
ghost use Rattle.tora_drive.specs.Records.{sent_line, sent_of, sent_from, is_same_hop, hop_line, routes_at, routes_of};
ghost use Rattle.std.specs.List.{flat_map};
ghost use Rattle.std.specs.Fmt.{decimal};
ghost use Rattle.tora_frame.specs.FrameGrammar.{frame_spelling, data_head_length, packets_length};
ghost use Rattle.tora_drive.specs.DriveText.{bytes_line, may_change_hops};

use crate::driven::Driven;
use crate::line::DriveLine;
use crate::sent_line::write_line;
use std::alloc::{AllocError, Global};
use tora_frame::{
    BorrowedBody, BorrowedFrame, Frame, LONGEST_FRAME, MOST_PACKETS, Version, encode,
};
use tora_height::Id;
use tora_packet::{Packet, encoded_length};
use tora_script::{HopText, Running, SimulationLine, Simulator};
use tora_world::Event;

/// The length of a HELLO in bytes.
const HELLO_LENGTH: usize = 28;

/// The length of an ACK in bytes.
const ACK_LENGTH: usize = 36;

/// The offset in bytes of the packet in a DATA frame of version 1.
const PACKET_OFFSET: usize = 44;

/// The offset in bytes of the first packet in a DATA frame of version 2.
const BATCH_OFFSET: usize = 48;

/// The next hop of a node to a destination before a line.
#[derive(Clone, Copy, Debug)]
pub struct Route {
    pub node: Id,
    pub destination: Id,
    /// `None` if the node had no next hop.
    pub hop: Option<Id>,
}

/// The offset in bytes after these packets, which follow one another from offset `place` on.
fn length_behind(place: usize, packets: &[Packet]) -> usize
    requires place { place ≤ BATCH_OFFSET }
    requires many { length packets.now ≤ MOST_PACKETS }
    ensures { result ≡ place + packets_length packets.now }
{
    let mut len = place;
    for packet in packets {
        len += encoded_length(packet);
    }
    len
}

/// The length of a DATA frame with these packets in bytes.
fn data_length(version: Version, packets: &[Packet]) -> usize
    requires { length packets.now ≤ MOST_PACKETS }
    ensures { result ≡ 28 + data_head_length version + packets_length packets.now }
{
    match version {
        Version::One => length_behind(PACKET_OFFSET, packets),
        Version::Two => length_behind(BATCH_OFFSET, packets),
    }
}

/// The length of a frame in bytes.
fn length_of(frame: &BorrowedFrame<'_>) -> usize
    ensures { result ≡ length (frame_spelling frame.now) }
{
    match frame.body() {
        BorrowedBody::Hello => HELLO_LENGTH,
        BorrowedBody::Data(_, _, packets) => data_length(frame.header().version, packets),
        BorrowedBody::Ack(_) => ACK_LENGTH,
    }
}

/// Appends `sent A B ID LENGTH` to a text.
#[tactic(auto, unfolding(crate::specs::Records::sent_line))]
fn write_datagram(out: &mut String, i: u64, frame: &BorrowedFrame<'_>) -> Result<(), AllocError>
    ensures { OnOk result (string_bytes out.new ≡ string_bytes out.old ++ sent_line i frame.now) }
{
    let header = *frame.header();
    write_line(out, header.sender, header.receiver, i, length_of(frame))
}

/// Appends the line `sent A B ID LENGTH` of the datagram with this number, from 1, to a text; nothing if there is no
/// such datagram.
fn write_sent_one<S: Driven>(out: &mut String, sim: &S, i: u64) -> Result<(), AllocError>
    requires { 0 < i }
    ensures { OnOk result (string_bytes out.new ≡ string_bytes out.old ++ sent_of (S.world sim.now) (i)) }
{
    match sim.borrowed_frame(i) {
        Some(frame) => write_datagram(out, i, &frame),
        None => Ok(()),
    }
}

/// Appends a line `sent A B ID LENGTH` to a text for each datagram with a number above `first`, in ascending order.
pub fn write_sent<S: Driven>(out: &mut String, sim: &S, first: u64) -> Result<(), AllocError>
    ensures { OnOk result (string_bytes out.new ≡ string_bytes out.old
        ++ sent_from (S.world sim.now) (first) (length (S.world sim.now).datagrams - first)) }
{
    for i in first..sim.datagrams() {
        write_sent_one(out, sim, i + 1)?;
    }
    Ok(())
}

/// Appends the next hops of a node to a list.
fn put_routes<S: Simulator>(
    routes: &mut Vec<Route>,
    sim: &S,
    n: Id,
    dests: &[Id],
) -> Result<(), AllocError>
    ensures { OnOk result (routes.new.items ≡ routes.old.items ++ routes_at (S.world sim.now) dests.now n) }
{
    for d in dests {
        routes.push(Route {
            node: n,
            destination: *d,
            hop: sim.next_hop(n, *d),
        })?;
    }
    Ok(())
}

/// Appends `bytes ID` and hexadecimal digits to a text.
fn write_digits(out: &mut String, i: u64, digits: &str) -> Result<(), AllocError>
    ensures { OnOk result (string_bytes out.new ≡ string_bytes out.old ++ codes "bytes " ++ decimal i ++ codes " "
        ++ digits.now ++ 10 ∷ []) }
{
    writeln!(out, "bytes {i} {digits}")
}

/// Appends `bytes ID HEX` to a text.
#[tactic(auto, unfolding(crate::specs::DriveText::bytes_line))]
pub fn write_frame(out: &mut String, i: u64, frame: &Frame) -> Result<(), AllocError>
    ensures { OnOk result (string_bytes out.new ≡ string_bytes out.old ++ bytes_line i frame.now) }
{
    let bytes = encode(frame);
    let mut room = [0; 2 * LONGEST_FRAME];
    let digits = &mut room[..2 * bytes.len()];
    let Ok(()) = hex::encode_to_slice(bytes.as_slice(), digits) else {
        unreachable!()
    };
    let Ok(digits) = str::from_utf8(digits) else {
        unreachable!()
    };
    write_digits(out, i, digits)
}

/// The next hops of nodes to destinations.
fn routes<S: Simulator>(
    alloc: Global,
    sim: &S,
    nodes: &[Id],
    dests: &[Id],
) -> Result<Vec<Route>, AllocError>
    ensures { IfOk result (λ v. v.items ≡ routes_of (S.world sim.now) nodes.now dests.now) }
{
    let mut routes = Vec::new(alloc);
    for n in nodes {
        put_routes(&mut routes, sim, *n, dests)?;
    }
    Ok(routes)
}

/// The next hops of all nodes to all destinations.
pub fn routes_in<S: Driven>(alloc: Global, running: &Running<S>) -> Result<Vec<Route>, AllocError>
    ensures { IfOk result (λ v. v.items ≡ routes_of (S.world running.now.sim) running.now.nodes.items
        running.now.dests.items) }
{
    routes(alloc, &running.sim, &running.nodes, &running.dests)
}

/// Whether a line may change a next hop: it lets a core take items, or restarts a node.
fn may_change_hops(line: &DriveLine) -> bool
    ensures { result ≡ may_change_hops line.now }
{
    match line {
        DriveLine::Script(SimulationLine::Happens(Event::CoreTurn(_))) => true,
        DriveLine::Script(SimulationLine::Happens(Event::Restart(_, _))) => true,
        DriveLine::Script(SimulationLine::Rounds(_)) => true,
        DriveLine::Step => true,
        _ => false,
    }
}

/// The next hops of all nodes to all destinations before a line that may change one; an empty list for another line.
pub fn routes_before<S: Driven>(
    alloc: Global,
    running: &Running<S>,
    line: &DriveLine,
) -> Result<Vec<Route>, AllocError>
    ensures { IfOk result (λ v. v.items ≡ (if may_change_hops line.now then routes_of (S.world running.now.sim)
        running.now.nodes.items running.now.dests.items else [])) }
{
    if may_change_hops(line) {
        routes_in(alloc, running)
    } else {
        Ok(Vec::new(alloc))
    }
}

/// Whether two next hops are the same node, or both are none.
fn is_same_hop(a: Option<Id>, b: Option<Id>) -> bool
    ensures { result ≡ is_same_hop a b }
{
    match (a, b) {
        (None, None) => true,
        (None, Some(_)) => false,
        (Some(_), None) => false,
        (Some(a), Some(b)) => a == b,
    }
}

/// Appends `hop N D K` to a text if the next hop has changed.
#[tactic(auto, unfolding(crate::specs::Records::hop_line))]
fn write_hop<S: Simulator>(out: &mut String, sim: &S, route: &Route) -> Result<(), AllocError>
    ensures { OnOk result (string_bytes out.new ≡ string_bytes out.old ++ hop_line (S.world sim.now) route.now) }
{
    let (n, d) = (route.node, route.destination);
    let next = sim.next_hop(n, d);
    if is_same_hop(route.hop, next) {
        return Ok(());
    }
    let hop = HopText(next);
    writeln!(out, "hop {n} {d} {hop}")
}

/// Appends a line `hop N D K` to a text for each of these next hops that has changed since.
pub fn write_hops<S: Simulator>(
    out: &mut String,
    sim: &S,
    routes: &[Route],
) -> Result<(), AllocError>
    ensures { OnOk result (string_bytes out.new ≡ string_bytes out.old
        ++ flat_map (hop_line (S.world sim.now)) routes.now) }
{
    for route in routes {
        write_hop(out, sim, route)?;
    }
    Ok(())
}
