//! The datagrams that were sent.
ghost use Rattle.std.specs.Prelude.{◌≡◌, ◌<◌, ◌≤◌, ◌∷◌, ◌++◌, [], true, false, length, option_map, slice_get, Some};
ghost use Rattle.std.specs.Prelude.{IfSome, OnOk};
ghost use Rattle.tora_frame.specs.FrameParts.{IsHeader, frame_of};
ghost use Rattle.tora_frame.specs.declared.parts.Body.{Body};
ghost use Rattle.tora_sim.specs.declared.store.kept_hellos.TheConstants.{MOST_HELLOS};
ghost use Rattle.tora_sim.specs.Datagrams.{DatagramList, HasRoom, way_of};
ghost use Rattle.tora_sim.specs.SentFrames.{hello_at};

use crate::store::kept_frames::KeptFrames;
use crate::store::kept_hellos::{KeptHello, MOST_HELLOS, hello_at, place_of};
use std::alloc::{AllocError, Global};
use std::marker::Model;
use tora_frame::{BorrowedBody, BorrowedFrame, Header};
use tora_height::Id;

/// All datagrams that were ever sent, in order.
///
/// Most of them are HELLOs that repeat the last HELLO of their link end. Such a HELLO is stored once, and each datagram
/// is the place of its frame, in four bytes.
#[derive(Drop)]
pub struct Datagrams {
    /// The frames that are no HELLOs.
    frames: KeptFrames,
    kept: Vec<KeptHello>,
    /// For each datagram the place of its frame: below `FIRST_HELLO` an index in `frames`, otherwise that of a HELLO.
    places: Vec<u32>,
    /// For each link end a guess at the index of its last HELLO.
    hellos: Vec<u32>,
}

impl Model for Datagrams {
    ghost use Rattle.std.specs.Prelude.{◌≤◌, length};
    ghost use Rattle.tora_sim.specs.declared.store.kept_hellos.TheConstants.{MOST_HELLOS};
    ghost use Rattle.tora_sim.specs.Datagrams.{DatagramList};
    ghost use Rattle.tora_sim.specs.SentFrames.{AreWithin, sent_list};

    ghost Value = { DatagramList };

    ghost view = { λ d. sent_list d.frames d.kept d.places };

    ghost invariant = { λ d. AreWithin d.frames.items d.kept.items d.places.items
        × (length d.kept.items ≤ MOST_HELLOS) };
}

impl Datagrams {
    /// An empty list of datagrams.
    pub fn new(alloc: Global) -> Datagrams
        ensures { result.items ≡ [] }
    {
        Datagrams {
            frames: KeptFrames::new(alloc),
            kept: Vec::new(alloc),
            places: Vec::new(alloc),
            hellos: Vec::new(alloc),
        }
    }

    /// The number of datagrams.
    pub fn len(&self) -> usize
        ensures { result ≡ length self.now.items }
    {
        self.places.len()
    }

    /// Makes room for one more datagram of the link end with this index.
    ///
    /// # Errors
    /// Memory ran out, or no more frames, HELLOs or packets can be stored.
    #[inline(always)]
    pub fn reserve(&mut self, end: usize) -> Result<(), AllocError>
        ensures items { self.new.items ≡ self.old.items }
        ensures room { OnOk result (HasRoom self.new) }
    {
        if end >= self.hellos.len() {
            self.hellos.resize(end.saturating_add(1), 0)?;
        }
        if self.kept.len() >= MOST_HELLOS as usize {
            return Err(AllocError);
        }
        self.frames.reserve()?;
        self.kept.reserve(1)?;
        self.places.reserve(1)
    }

    /// Appends a datagram from the link end at the index `end`. `far_end` is a guess at the index of the receiving link
    /// end. There must be room for the datagram.
    #[inline(always)]
    pub fn push(&mut self, end: usize, far_end: u32, frame: &BorrowedFrame<'_>)
        requires { HasRoom self.old }
        ensures { self.new.items ≡ self.old.items ++ frame.now ∷ [] }
    {
        match frame.body() {
            BorrowedBody::Hello => self.push_hello(end, far_end, frame.header()),
            BorrowedBody::Data(..) => self.push_frame(far_end, frame),
            BorrowedBody::Ack(_) => self.push_frame(far_end, frame),
        }
    }

    /// Appends a datagram as a new frame.
    #[inline(always)]
    fn push_frame(&mut self, far_end: u32, frame: &BorrowedFrame<'_>)
        requires { HasRoom self.old }
        ensures { self.new.items ≡ self.old.items ++ frame.now ∷ [] }
    {
        let place = self.frames.push(far_end, frame);
        self.places.push_reserved(place);
    }

    /// Appends a HELLO with this header from the link end at the index `end`. `far_end` is a guess at the index of the
    /// receiving link end. There must be room for the datagram.
    #[inline(always)]
    pub fn push_hello(&mut self, end: usize, far_end: u32, header: &Header)
        requires room { HasRoom self.old }
        requires valid { IsHeader header.now }
        ensures { self.new.items ≡ self.old.items ++ frame_of header.now Body.Hello ∷ [] }
    {
        match found_hello(&self.kept, &self.hellos, end, header) {
            Some(place) => self.places.push_reserved(place),
            None => self.push_new_hello(end, far_end, header),
        }
    }

    /// Appends a HELLO that is not stored yet.
    #[inline(never)]
    fn push_new_hello(&mut self, end: usize, far_end: u32, header: &Header)
        requires room { HasRoom self.old }
        requires valid { IsHeader header.now }
        ensures { self.new.items ≡ self.old.items ++ frame_of header.now Body.Hello ∷ [] }
    {
        let index = self.kept.len() as u32;
        self.kept.push_reserved(KeptHello::new(header, far_end));
        self.places.push_reserved(place_of(index, header.version));
        note_hello(&mut self.hellos, end, index);
    }

    /// The datagram at the index `place`, counted from 0, without copying its packets; `None` if there is none.
    #[inline(always)]
    pub fn get(&self, place: usize) -> Option<BorrowedFrame<'_>>
        ensures { result ≡ slice_get self.now.items place }
    {
        let Some(at) = place_at(&self.places, place) else {
            return None;
        };
        match hello_at(&self.kept, at) {
            Some((header, _far_end)) => Some(BorrowedFrame::hello(header)),
            None => self.frames.get(at as usize),
        }
    }

    /// The header of the datagram at the index `place`, and a guess at the index of the link end that receives it.
    /// `None` if there is no such datagram, or it is not a HELLO.
    #[inline(always)]
    pub fn hello(&self, place: usize) -> Option<(Header, u32)>
        ensures hello { IfSome result (λ told. slice_get self.now.items place ≡ Some (frame_of told.0 Body.Hello)) }
        ensures valid { IfSome result (λ told. IsHeader told.0) }
    {
        let Some(at) = place_at(&self.places, place) else {
            return None;
        };
        hello_at(&self.kept, at)
    }

    /// A guess at the index of the link end that receives the datagram at the index `place`; 0 if there is no such
    /// datagram.
    #[inline(always)]
    pub fn far_end(&self, place: usize) -> usize {
        let Some(at) = place_at(&self.places, place) else {
            return 0;
        };
        match hello_at(&self.kept, at) {
            Some((_header, far_end)) => far_end as usize,
            None => self.frames.far_end(at as usize) as usize,
        }
    }

    /// The sender and the receiver of the datagram at the index `place`; `None` if there is no such datagram.
    #[inline(always)]
    pub fn way(&self, place: usize) -> Option<(Id, Id)>
        ensures { result ≡ option_map way_of (slice_get self.now.items place) }
    {
        let Some(frame) = self.get(place) else {
            return None;
        };
        let header = frame.header();
        Some((header.sender, header.receiver))
    }
}

/// The place of the frame of the datagram at the index `at`; `None` if there is no such datagram.
#[inline(always)]
fn place_at(places: &Vec<u32>, at: usize) -> Option<u32>
    ensures { result ≡ slice_get places.now.items at }
{
    places.get(at).copied()
}

/// The place of the HELLO with this header, if it repeats the last HELLO of the link end, in the same or the other
/// version; otherwise `None`.
#[inline(always)]
fn found_hello(kept: &Vec<KeptHello>, hellos: &[u32], end: usize, header: &Header) -> Option<u32>
    requires { length kept.now.items ≤ MOST_HELLOS }
    ensures { IfSome result (λ place. hello_at kept.now.items place ≡ Some header.now) }
{
    let Some(index) = hellos.get(end).copied() else {
        return None;
    };
    let Some(hello) = kept.get(index as usize) else {
        return None;
    };
    let is_same = hello.header(header.version) == *header;
    if is_same {
        Some(place_of(index, header.version))
    } else {
        None
    }
}

/// Stores the index of the last HELLO of the link end.
fn note_hello(hellos: &mut Vec<u32>, end: usize, index: u32) {
    if end < hellos.len() {
        hellos[end] = index;
    }
}
