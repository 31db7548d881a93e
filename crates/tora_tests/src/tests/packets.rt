//! The packets of the document on formats as bytes, bytes that are refused, and the texts of packets and errors.
use super::carried::Parts;
use super::sees::{bytes_of, prints, prints_each, same, same_at};
use std::alloc::Global;
use std::process::Abort;
use tora_packet::*;

/// Decodes `bytes`, and checks that the result is `wanted`; `what` names the row.
fn reads(rt: &impl Abort, bytes: &[u8], wanted: &Result<Packet, PacketError>, what: &str) {
    same_at(rt, &decode(bytes), wanted, "the packet", &what);
}

/// Checks that a packet for destination 4 is encoded as the bytes with these hexadecimal digits, that the length
/// functions agree with them, and that decoding them gives the packet.
fn spells(rt: &impl Abort, alloc: Global, packet: Packet, digits: &str) {
    let bytes = bytes_of(rt, alloc, digits);
    let out = encode(&packet);
    same_at(rt, &out.as_slice(), &bytes.as_slice(), "the bytes", &digits);
    same_at(rt, &packet.destination(), &4, "the destination", &digits);
    let len = encoded_length(&packet);
    same_at(rt, &len, &bytes.len(), "the length", &digits);
    same_at(rt, &is_packet_length(len), &true, "of packets", &digits);
    reads(rt, &bytes, &Ok(packet), digits);
}

/// Cuts the first packet off the bytes with the hexadecimal digits `digits`, and checks that it has the digits `first`
/// and that `behind` bytes follow it.
fn cuts(rt: &impl Abort, alloc: Global, digits: &str, first: &str, behind: usize) {
    let bytes = bytes_of(rt, alloc, digits);
    let wanted = bytes_of(rt, alloc, first);
    let (front, rest) = cut_packet(&bytes);
    same_at(rt, &front, &wanted.as_slice(), "the first", &digits);
    same_at(rt, &rest.len(), &behind, "behind it", &digits);
}

const VECTORS: &[(Parts, &str)] = &[
    (Parts::Query(4), "0101000000000004"),
    (
        Parts::Update(0, 0, 0, 1, 3),
        "0102000000000004000000000000000000000000000000000000000100000003",
    ),
    (
        Parts::Update(0, 0, 0, 2, 2),
        "0102000000000004000000000000000000000000000000000000000200000002",
    ),
    (
        Parts::Update(7, 3, 0, 0, 3),
        "0102000000000004000000000000000700000003000000000000000000000003",
    ),
    (
        Parts::Update(7, 3, 0, -1, 2),
        "010200000000000400000000000000070000000300000000ffffffff00000002",
    ),
    (
        Parts::Update(7, 3, 1, -1, 2),
        "010200000000000400000000000000070000000301000000ffffffff00000002",
    ),
    (
        Parts::Update(8, 2, 0, 0, 2),
        "0102000000000004000000000000000800000002000000000000000000000002",
    ),
    (
        Parts::Update(10, 2, 0, 0, 2),
        "0102000000000004000000000000000a00000002000000000000000000000002",
    ),
    (
        Parts::Update(0, 0, 0, 1073741824, 3),
        "0102000000000004000000000000000000000000000000004000000000000003",
    ),
    (
        Parts::Clear(7, 3),
        "0103000000000004000000000000000700000003",
    ),
    (
        Parts::Clear(7, 9),
        "0103000000000004000000000000000700000009",
    ),
];

#[test]
fn packet_vectors(rt: HostRuntime) {
    for (parts, text) in VECTORS {
        spells(&rt, rt.alloc(), parts.packet(&rt), text);
    }
}

/// Hexadecimal digits of bytes, those of the part that `cut_packet` cuts off, and how many bytes follow it. Bytes that
/// are too few for their kind, or of no known version or kind, are one part.
const FIRST: &[(&str, &str, usize)] = &[
    ("", "", 0),
    ("01010000000000040103", "0101000000000004", 2),
    (
        "010300000000000400000000000000070000000301",
        "0103000000000004000000000000000700000003",
        1,
    ),
    ("0102000000000004", "0102000000000004", 0),
    ("0109000000000004", "0109000000000004", 0),
    ("0201000000000004ff", "0201000000000004ff", 0),
];

#[test]
fn first_packets_are_cut_off(rt: HostRuntime) {
    for (digits, first, behind) in FIRST {
        cuts(&rt, rt.alloc(), digits, first, *behind);
    }
}

/// Hexadecimal digits of bytes that are not a packet, the error of `decode`, and the number of that error.
const REFUSED: &[(&str, PacketError, u8)] = &[
    ("", PacketError::Short, 1),
    ("02", PacketError::Short, 1),
    ("01010000000000", PacketError::Short, 1),
    ("010100000000000400", PacketError::Long, 2),
    (
        "0102000000000004000000000000000000000000000100000000000100000003",
        PacketError::Reserved,
        5,
    ),
    (
        "010200000000000400000000000000000000000000000000ffffffff00000003",
        PacketError::Height,
        6,
    ),
];

#[test]
fn refused_packets(rt: HostRuntime) {
    for (text, error, number) in REFUSED {
        let bytes = bytes_of(&rt, rt.alloc(), text);
        reads(&rt, &bytes, &Err(*error), text);
        same_at(&rt, &error.number(), number, "its number", text);
    }
}

#[test]
fn the_default_packet_is_the_query_for_one(rt: HostRuntime) {
    same(&rt, &Ok(Packet::default()), &Packet::qry(1), "the default");
}

#[test]
fn example_of_the_documentation(rt: HostRuntime) {
    let packet = Parts::Update(0, 0, 0, 1, 3).packet(&rt);
    let bytes = encode(&packet);
    same(&rt, &bytes.len(), &32, "the length");
    reads(&rt, &bytes, &Ok(packet), "the example");
}

const TEXTS: &[(Parts, &str)] = &[
    (Parts::Query(4), "QRY 4"),
    (Parts::Update(0, 0, 0, 1, 3), "UPD 4 (0,0,0,1,3)"),
    (Parts::Clear(7, 3), "CLR 4 7,3"),
];

#[test]
fn packets_are_printed_in_words(rt: HostRuntime) {
    for (parts, text) in TEXTS {
        prints(&rt, rt.alloc(), &parts.packet(&rt), text);
    }
}

const CAUSES: &[(PacketError, &str)] = &[
    (PacketError::Short, "too few bytes"),
    (PacketError::Long, "too many bytes"),
    (PacketError::Version, "the version is not 1"),
    (PacketError::Kind, "the kind is not 1, 2 or 3"),
    (PacketError::Reserved, "a byte that has to be zero is not"),
    (
        PacketError::Height,
        "the destination, the height or the level is out of range",
    ),
];

#[test]
fn errors_are_printed_with_their_cause(rt: HostRuntime) {
    prints_each(&rt, rt.alloc(), CAUSES);
}
