//! Frames, with the packets of all of them in one list.
ghost use Rattle.std.specs.Prelude.{◌≡◌, ◌<◌, ◌≤◌, ◌+◌, ◌∷◌, ◌++◌, [], length, slice_get, slice_range};
ghost use Rattle.std.specs.Prelude.{vec_len, vec_capacity, OnOk};
ghost use Rattle.tora_frame.specs.FrameParts.{IsFrame, batch};
ghost use Rattle.tora_frame.specs.declared.parts.Body.TheVariants as Carries;
ghost use Rattle.tora_sim.specs.declared.store.kept_hellos.TheConstants.{FIRST_HELLO};
ghost use Rattle.tora_sim.specs.Datagrams.{DatagramList, HasRoom, IsKept, IsMore, IsWithin, body_in, frame_in};

use crate::store::kept_hellos::FIRST_HELLO;
use std::alloc::{AllocError, Global};
use std::marker::Model;
use tora_frame::{BorrowedBody, BorrowedFrame, Header, MOST_PACKETS};
use tora_packet::Packet;

/// The most frames, and the most packets, that are stored: the index of each frame is below the places of HELLOs.
const MOST_KEPT: usize = FIRST_HELLO as usize;

/// The body of a stored frame, without the packets of a DATA frame.
#[derive(Drop)]
pub enum KeptBody {
    /// A HELLO.
    Hello,
    /// A DATA frame: the number of its packets, the index of the first among all stored packets, the number of the
    /// first in its session, and the count of packets accepted.
    Data(u8, u32, u64, u64),
    /// An ACK frame: the count of packets accepted.
    Ack(u64),
}

/// A stored frame.
#[derive(Drop)]
pub struct KeptFrame {
    header: Header,
    /// A guess at the index of the receiving link end; whoever uses it checks which end is there.
    far_end: u32,
    body: KeptBody,
}

/// Stored frames, in order of arrival.
#[derive(Drop)]
pub struct KeptFrames {
    frames: Vec<KeptFrame>,
    packets: Vec<Packet>,
}

impl Model for KeptFrames {
    ghost use Rattle.std.specs.List.{AllByRecursion};
    ghost use Rattle.tora_sim.specs.Datagrams.{DatagramList, IsKept, kept_list};

    ghost Value = { DatagramList };

    ghost view = { λ d. kept_list d.frames d.packets };

    ghost invariant = { λ d. AllByRecursion (IsKept d.packets.items) d.frames.items };
}

impl KeptFrames {
    /// An empty list of frames.
    pub fn new(alloc: Global) -> KeptFrames
        ensures { result.items ≡ [] }
    {
        KeptFrames {
            frames: Vec::new(alloc),
            packets: Vec::new(alloc),
        }
    }

    /// Makes room for one more frame.
    ///
    /// # Errors
    /// Memory ran out, or no more frames or packets can be stored.
    #[inline(always)]
    pub fn reserve(&mut self) -> Result<(), AllocError>
        ensures items { self.new.items ≡ self.old.items }
        ensures room { OnOk result (HasRoom self.new) }
    {
        if self.frames.len() >= MOST_KEPT {
            return Err(AllocError);
        }
        if self.packets.len() + MOST_PACKETS > MOST_KEPT {
            return Err(AllocError);
        }
        self.frames.reserve(1)?;
        self.packets.reserve(MOST_PACKETS)
    }

    /// Appends a frame, and returns its index. `far_end` is a guess at the index of the receiving link end. There must
    /// be room for the frame.
    #[inline(never)]
    pub fn push(&mut self, far_end: u32, frame: &BorrowedFrame<'_>) -> u32
        requires { HasRoom self.old }
        ensures items { self.new.items ≡ self.old.items ++ frame.now ∷ [] }
        ensures place { result ≡ length self.old.items }
        ensures low { result < FIRST_HELLO }
    {
        let place = self.frames.len() as u32;
        let body = keep_body(&mut self.packets, frame);
        let header = *frame.header();
        self.frames.push_reserved(KeptFrame {
            header,
            far_end,
            body,
        });
        place
    }

    /// The frame at the index `place`, without copying its packets; `None` if there is none.
    #[inline(always)]
    pub fn get(&self, place: usize) -> Option<BorrowedFrame<'_>>
        ensures { result ≡ slice_get self.now.items place }
    {
        let Some(kept) = self.frames.get(place) else {
            return None;
        };
        Some(frame_of(&self.packets, kept))
    }

    /// A guess at the index of the link end that receives the frame at the index `place`; 0 if there is no such frame.
    #[inline(always)]
    pub fn far_end(&self, place: usize) -> u32 {
        match self.frames.get(place) {
            Some(kept) => kept.far_end,
            None => 0,
        }
    }
}

/// Stores the packets of a frame, and returns its body.
fn keep_body(packets: &mut Vec<Packet>, frame: &BorrowedFrame<'_>) -> KeptBody
    requires places { vec_len packets.old + 16 ≤ vec_capacity packets.old }
    requires numbers { vec_len packets.old + 16 ≤ FIRST_HELLO }
    ensures body { body_in packets.new.items result ≡ frame.now.body }
    ensures within { IsWithin packets.new.items result }
    ensures more { IsMore packets.old.items packets.new.items }
    ensures valid { IsFrame frame.now }
{
    match frame.body() {
        BorrowedBody::Hello => KeptBody::Hello,
        BorrowedBody::Data(number, count, carried) => keep_data(packets, number, count, carried),
        BorrowedBody::Ack(count) => KeptBody::Ack(count),
    }
}

/// Stores the packets of a DATA frame, and returns its body.
fn keep_data(packets: &mut Vec<Packet>, number: u64, count: u64, carried: &[Packet]) -> KeptBody
    requires many { length carried.now ≤ 16 }
    requires places { vec_len packets.old + 16 ≤ vec_capacity packets.old }
    requires numbers { vec_len packets.old + 16 ≤ FIRST_HELLO }
    ensures body { body_in packets.new.items result ≡ Carries.Data number count (batch carried.now) }
    ensures within { IsWithin packets.new.items result }
    ensures more { IsMore packets.old.items packets.new.items }
{
    let many = carried.len() as u8;
    let from = packets.len() as u32;
    append(packets, carried);
    KeptBody::Data(many, from, number, count)
}

/// Appends packets. There must be room for them.
fn append(packets: &mut Vec<Packet>, carried: &[Packet])
    requires { vec_len packets.old + length carried.now ≤ vec_capacity packets.old }
    ensures { packets.new.items ≡ packets.old.items ++ carried.now }
{
    for packet in carried {
        packets.push_reserved(*packet);
    }
}

/// The frame that is stored as `kept`.
#[inline(always)]
fn frame_of<'a>(packets: &'a [Packet], kept: &KeptFrame) -> BorrowedFrame<'a>
    requires { IsKept packets.now kept.now }
    ensures { result ≡ frame_in packets.now kept.now }
{
    let header = kept.header;
    match &kept.body {
        KeptBody::Hello => BorrowedFrame::hello(header),
        KeptBody::Data(many, from, number, count) => {
            let from = *from as usize;
            let many = usize::from(*many);
            BorrowedFrame::data(header, *number, *count, &packets[from..from + many])
        }
        KeptBody::Ack(count) => BorrowedFrame::ack(header, *count),
    }
}
