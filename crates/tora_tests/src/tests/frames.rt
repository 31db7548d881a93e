//! The byte vectors of the document on formats, and the refused frames.
mod changed;

use super::carried::{Carried, Parts, frame_of, packets_of};
use super::sees::{bytes_of, prints_each, same, same_at};
use arrayvec::ArrayVec;
use std::alloc::Global;
use std::fmt::Debug;
use std::process::Abort;
use tora_frame::{
    Body, BorrowedBody, BorrowedFrame, Frame, FrameError, GREATEST_NUMBER, Header, LONGEST_FRAME,
    MOST_PACKETS, Packets, Version, decode, decode_into, encode, encode_into,
};
use tora_packet::PacketError;

/// The header of a frame of version 1 from node 1 (session number 5) to node 2, before a HELLO of node 2 has come.
const FIRST: Header = Header {
    version: Version::One,
    sender: 1,
    receiver: 2,
    life: 5,
    heard: 0,
};

/// The header of a frame of version 1 from node 1 (session number 5) to node 2 (session number 9).
const FROM_ONE: Header = Header {
    version: Version::One,
    sender: 1,
    receiver: 2,
    life: 5,
    heard: 9,
};

/// The header of a frame of version 1 from node 2 (session number 9) to node 1 (session number 5).
const FROM_TWO: Header = Header {
    version: Version::One,
    sender: 2,
    receiver: 1,
    life: 9,
    heard: 5,
};

/// As `FIRST`, of version 2.
const NEW_FIRST: Header = Header {
    version: Version::Two,
    ..FIRST
};

/// As `FROM_ONE`, of version 2.
const NEW_FROM_ONE: Header = Header {
    version: Version::Two,
    ..FROM_ONE
};

/// As `FROM_TWO`, of version 2.
const NEW_FROM_TWO: Header = Header {
    version: Version::Two,
    ..FROM_TWO
};

/// The query for destination 4, and the clear for 4 of the reference level (7,3,1).
const QUERY_AND_CLEAR: &[Parts] = &[Parts::Query(4), Parts::Clear(7, 3)];

/// The header, the content and the hexadecimal digits of each frame of the document on formats, and of more frames from
/// its tables: in version 1 DATA frames with an update and with a clear; in version 2 a HELLO, an ACK, and a DATA frame
/// with an update.
const VECTORS: &[(Header, Carried, &str)] = &[
    (
        FIRST,
        Carried::Hello,
        "01010000000000010000000200000000000000050000000000000000",
    ),
    (
        FROM_TWO,
        Carried::Hello,
        "01010000000000020000000100000000000000090000000000000005",
    ),
    (
        FROM_ONE,
        Carried::Data(1, 0, &[Parts::Query(4)]),
        "0102001800000001000000020000000000000005000000000000000900000000000000010000000000000000\
         0101000000000004",
    ),
    (
        FROM_TWO,
        Carried::Ack(1),
        "010300080000000200000001000000000000000900000000000000050000000000000001",
    ),
    (
        FROM_ONE,
        Carried::Data(2, 3, &[Parts::Update(7, 3, 1, -1, 2)]),
        "0102003000000001000000020000000000000005000000000000000900000000000000020000000000000003\
         010200000000000400000000000000070000000301000000ffffffff00000002",
    ),
    (
        FROM_TWO,
        Carried::Data(7, 1, &[Parts::Clear(7, 3)]),
        "0102002400000002000000010000000000000009000000000000000500000000000000070000000000000001\
         0103000000000004000000000000000700000003",
    ),
    (NEW_FROM_ONE, Carried::Data(1, 0, QUERY_AND_CLEAR), BATCH),
    (
        NEW_FIRST,
        Carried::Hello,
        "02010000000000010000000200000000000000050000000000000000",
    ),
    (
        NEW_FROM_TWO,
        Carried::Ack(1),
        "020300080000000200000001000000000000000900000000000000050000000000000001",
    ),
    (
        NEW_FROM_ONE,
        Carried::Data(2, 3, &[Parts::Update(7, 3, 1, -1, 2)]),
        "0202003400000001000000020000000000000005000000000000000900000000000000020000000000000003\
         01000000010200000000000400000000000000070000000301000000ffffffff00000002",
    ),
];

/// The hexadecimal digits of a DATA frame of version 2 with a query and a clear.
const BATCH: &str =
    "0202003000000001000000020000000000000005000000000000000900000000000000010000000000000000\
     0200000001010000000000040103000000000004000000000000000700000003";

/// Decodes `bytes`, and checks that the result is `wanted`; `place` names the row.
fn reads<P: Debug>(rt: &impl Abort, bytes: &[u8], wanted: &Result<Frame, FrameError>, place: &P) {
    same_at(rt, &decode(bytes), wanted, "the frame", place);
}

/// Checks that a frame is encoded as the bytes with these hexadecimal digits, and that decoding them gives the frame.
fn spells(rt: &impl Abort, alloc: Global, frame: Frame, digits: &str) {
    let bytes = bytes_of(rt, alloc, digits);
    let out = encode(&frame);
    same_at(rt, &out.as_slice(), &bytes.as_slice(), "the bytes", &digits);
    reads(rt, &bytes, &Ok(frame), &digits);
}

/// Encodes a frame, and checks that it has `len` bytes, and that decoding them gives the frame.
fn reads_back(rt: &impl Abort, frame: Frame, len: usize) {
    let bytes = encode(&frame);
    same(rt, &bytes.len(), &len, "the length");
    reads(rt, &bytes, &Ok(frame), &len);
}

#[test]
fn frame_vectors(rt: HostRuntime) {
    for (header, carried, text) in VECTORS {
        let frame = frame_of(&rt, *header, *carried);
        spells(&rt, rt.alloc(), frame, text);
    }
    let ack = frame_of(&rt, FROM_TWO, Carried::Ack(1));
    same(&rt, ack.header(), &FROM_TWO, "the header");
    same(&rt, ack.body(), &Body::Ack(1), "the body");
}

/// Encodes a frame into `out`, and checks that the bytes are those with these hexadecimal digits. Decodes them, with
/// `packets` as the buffer for the packets, and checks that this gives the frame.
fn spells_into(
    rt: &impl Abort,
    alloc: Global,
    frame: &Frame,
    digits: &str,
    out: &mut ArrayVec<u8, LONGEST_FRAME>,
    packets: &mut Packets,
) {
    let bytes = bytes_of(rt, alloc, digits);
    encode_into(&frame.borrowed(), out);
    same_at(rt, &out.as_slice(), &bytes.as_slice(), "the bytes", &digits);
    match decode_into(&bytes, packets) {
        Ok(read) => {
            same_at(rt, read.header(), frame.header(), "the header", &digits);
            same_at(rt, &read.to_frame(), frame, "the frame", &digits);
        }
        Err(error) => same_at(rt, &error.number(), &0, "the error", &digits),
    }
}

#[test]
fn kept_buffers_hold_one_frame_after_another(rt: HostRuntime) {
    let mut packets = Packets::new();
    let mut out = encode(&frame_of(&rt, FIRST, Carried::Hello));
    for (header, carried, text) in VECTORS {
        let frame = frame_of(&rt, *header, *carried);
        spells_into(&rt, rt.alloc(), &frame, text, &mut out, &mut packets);
    }
}

/// Checks that `data` is a DATA frame whose first packet has the number 1, with 0 packets accepted, and that its
/// packets are `packets`.
fn carries(rt: &impl Abort, data: &BorrowedFrame<'_>, packets: &Packets) {
    match data.body() {
        BorrowedBody::Data(1, 0, borrowed) => {
            same(rt, &borrowed, &packets.as_slice(), "the borrowed packets");
        }
        other => same_at(rt, &false, &true, "a DATA body", &other),
    }
}

#[test]
fn borrowed_frames_are_the_frames_of_the_same_parts(rt: HostRuntime) {
    let packets = packets_of(&rt, QUERY_AND_CLEAR);
    assert_eq!(&rt; packets.len(), 2);
    let data = BorrowedFrame::data(NEW_FROM_ONE, 1, 0, packets.as_slice());
    carries(&rt, &data, &packets);
    let rows = [
        (
            data.to_frame(),
            NEW_FROM_ONE,
            Carried::Data(1, 0, QUERY_AND_CLEAR),
        ),
        (
            BorrowedFrame::hello(NEW_FIRST).to_frame(),
            NEW_FIRST,
            Carried::Hello,
        ),
        (
            BorrowedFrame::ack(NEW_FROM_TWO, 1).to_frame(),
            NEW_FROM_TWO,
            Carried::Ack(1),
        ),
    ];
    for (frame, header, carried) in &rows {
        same(&rt, frame, &frame_of(&rt, *header, *carried), "the frame");
    }
}

/// Decodes `bytes`, and checks that they are refused with `error`, and that this error has the number `number`; `place`
/// names the row.
fn refuses<P: Debug>(rt: &impl Abort, bytes: &[u8], error: FrameError, number: u8, place: &P) {
    reads(rt, bytes, &Err(error), place);
    same_at(rt, &error.number(), &number, "its number", place);
}

/// Hexadecimal digits of bytes that are not a frame, the error of `decode`, and the number of that error.
const REFUSED: &[(&str, FrameError, u8)] = &[
    ("", FrameError::Short, 1),
    (
        "010100000000000100000002000000000000000500000000000000",
        FrameError::Short,
        1,
    ),
    (
        "0101000000000001000000020000000000000005000000000000000000",
        FrameError::Long,
        2,
    ),
    (
        "03010000000000010000000200000000000000050000000000000000",
        FrameError::Version,
        3,
    ),
    (
        "01040000000000010000000200000000000000050000000000000000",
        FrameError::Kind,
        4,
    ),
    (
        "01010001000000010000000200000000000000050000000000000000",
        FrameError::Length,
        5,
    ),
    (
        "01010000000000010000000100000000000000050000000000000000",
        FrameError::Id,
        6,
    ),
    (
        "01010000000000010000000200000000000000000000000000000000",
        FrameError::Life,
        7,
    ),
    (
        "01020018000000010000000200000000000000050000000000000009\
         00000000000000000000000000000000\
         0101000000000004",
        FrameError::Number,
        8,
    ),
    (
        "01020018000000010000000200000000000000050000000000000009\
         00000000000000010000000000000000\
         0201000000000004",
        FrameError::Packet(PacketError::Version),
        9,
    ),
];

#[test]
fn refused_frames(rt: HostRuntime) {
    for (text, error, number) in REFUSED {
        let bytes = bytes_of(&rt, rt.alloc(), text);
        refuses(&rt, &bytes, *error, *number, text);
    }
}

/// A change of one byte of `BATCH`: its index, its new value, the error of `decode`, and the number of that error.
const FAULTS: &[(usize, u8, FrameError, u8)] = &[
    (44, 0, FrameError::Count, 10),
    (44, 1, FrameError::Packet(PacketError::Long), 9),
    (44, 3, FrameError::Packet(PacketError::Short), 9),
    (44, 17, FrameError::Count, 10),
    (45, 1, FrameError::Count, 10),
    (46, 1, FrameError::Count, 10),
    (47, 1, FrameError::Count, 10),
    (0, 3, FrameError::Version, 3),
    (0, 1, FrameError::Packet(PacketError::Version), 9),
    (3, 27, FrameError::Length, 5),
    (2, 2, FrameError::Length, 5),
    (56, 2, FrameError::Packet(PacketError::Version), 9),
    (48, 2, FrameError::Packet(PacketError::Version), 9),
    (50, 1, FrameError::Packet(PacketError::Reserved), 9),
];

#[test]
fn batch_frame_vector_and_its_faults(rt: HostRuntime) {
    for (at, value, error, number) in FAULTS {
        let mut bytes = bytes_of(&rt, rt.alloc(), BATCH);
        let byte = bytes.get_mut(*at).expect(&rt, "a byte");
        *byte = *value;
        refuses(&rt, &bytes, *error, *number, &(*at, *value));
    }
}

/// The hexadecimal digits of a DATA frame with two packets, of which the first has the greatest number, 2^62, and the
/// second would have a greater one.
const ONE_PACKET_MORE: &str =
    "0202003000000001000000020000000000000005000000000000000940000000000000000000000000000000\
     0200000001010000000000040103000000000004000000000000000700000003";

#[test]
fn last_number_of_a_batch_is_in_its_range(rt: HostRuntime) {
    let carried = Carried::Data(GREATEST_NUMBER - 1, 0, QUERY_AND_CLEAR);
    let frame = frame_of(&rt, NEW_FROM_ONE, carried);
    reads_back(&rt, frame, 76);
    let bytes = bytes_of(&rt, rt.alloc(), ONE_PACKET_MORE);
    refuses(&rt, &bytes, FrameError::Count, 10, &"one packet more");
}

/// As many packets as a frame can have (16), each of the longest kind, an update.
const MOST: &[Parts] = &[Parts::Update(7, 3, 1, -1, 2); MOST_PACKETS];

#[test]
fn longest_frame_is_read(rt: HostRuntime) {
    let frame = frame_of(&rt, NEW_FROM_TWO, Carried::Data(1, 0, MOST));
    reads_back(&rt, frame, LONGEST_FRAME);
}

#[test]
fn example_of_the_documentation(rt: HostRuntime) {
    let header = Header {
        version: Version::Two,
        sender: 1,
        receiver: 2,
        life: 5,
        heard: 9,
    };
    reads_back(&rt, Frame::ack(header, 3), 36);
}

const CAUSES: &[(FrameError, &str)] = &[
    (FrameError::Short, "too few bytes"),
    (FrameError::Long, "too many bytes"),
    (FrameError::Version, "the version is not 1 or 2"),
    (FrameError::Kind, "the kind is not 1, 2 or 3"),
    (
        FrameError::Length,
        "the payload length is none that the kind has",
    ),
    (
        FrameError::Id,
        "the sender or the receiver is 0, or the two are equal",
    ),
    (FrameError::Life, "a life is out of its range"),
    (
        FrameError::Number,
        "a number or a count is out of its range",
    ),
    (
        FrameError::Packet(PacketError::Kind),
        "the packet is refused: the kind is not 1, 2 or 3",
    ),
    (
        FrameError::Count,
        "how many packets there are is out of its range",
    ),
];

#[test]
fn errors_are_printed_with_their_cause(rt: HostRuntime) {
    prints_each(&rt, rt.alloc(), CAUSES);
}
