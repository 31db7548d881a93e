//! The HELLOs that were sent, each once for both versions.
ghost use Rattle.std.specs.Prelude.{◌≡◌, ◌<◌, List, option_map, slice_get, IfSome};
ghost use Rattle.tora_frame.specs.declared.parts.Header.{Header as AnyHeader};
ghost use Rattle.tora_frame.specs.declared.parts.Version.TheVariants.{One};
ghost use Rattle.tora_frame.specs.FrameParts.{IsHeader};
ghost use Rattle.tora_sim.specs.SentFrames.{hello_at, in_version};

use std::marker::Model;
use tora_frame::{Header, Version};
use tora_height::Id;

/// The place of the first HELLO among the places of datagrams; other frames have lower places.
pub const FIRST_HELLO: u32 = 0x8000_0000;

/// The most HELLOs that are stored. The places of version 2 follow this many places of version 1.
pub const MOST_HELLOS: u32 = 0x4000_0000;

/// A stored HELLO, without its version, which its place tells.
#[derive(Drop)]
pub struct KeptHello {
    sender: Id,
    receiver: Id,
    /// A guess at the index of the receiving link end; whoever uses it checks which end is there.
    far_end: u32,
    life: u64,
    heard: u64,
}

impl Model for KeptHello {
    ghost use Rattle.tora_frame.specs.declared.parts.Header.{Header};
    ghost use Rattle.tora_frame.specs.declared.parts.Version.TheVariants.{One};
    ghost use Rattle.tora_frame.specs.FrameParts.{IsHeader};

    ghost Value = { Header };

    ghost view = { λ h. record {
      version = One;
      sender = h.sender;
      receiver = h.receiver;
      life = h.life;
      heard = h.heard;
    } };

    ghost invariant = { λ h. IsHeader (record {
      version = One;
      sender = h.sender;
      receiver = h.receiver;
      life = h.life;
      heard = h.heard;
    }) };
}

impl KeptHello {
    /// A HELLO with this header. `far_end` is a guess at the index of the receiving link end.
    pub fn new(header: &Header, far_end: u32) -> KeptHello
        requires { IsHeader header.now }
        ensures { result ≡ in_version One header.now }
    {
        KeptHello {
            sender: header.sender,
            receiver: header.receiver,
            far_end,
            life: header.life,
            heard: header.heard,
        }
    }

    /// The header of the HELLO in a version.
    #[inline(always)]
    pub fn header(&self, version: Version) -> Header
        ensures value { result ≡ in_version version self.now }
        ensures valid { IsHeader result }
    {
        Header {
            version,
            sender: self.sender,
            receiver: self.receiver,
            life: self.life,
            heard: self.heard,
        }
    }
}

/// The place of the HELLO with this index in a version.
#[inline(always)]
pub fn place_of(index: u32, version: Version) -> u32
    requires { index < MOST_HELLOS }
    ensures { (kept : List AnyHeader) → hello_at kept result ≡ option_map (in_version version) (slice_get kept index) }
{
    match version {
        Version::One => FIRST_HELLO + index,
        Version::Two => FIRST_HELLO + MOST_HELLOS + index,
    }
}

/// The header of the HELLO at a place, and the guess at its receiving end; `None` at the place of another frame.
#[inline(always)]
pub fn hello_at(kept: &Vec<KeptHello>, place: u32) -> Option<(Header, u32)>
    ensures header { option_map (λ told. told.0) result ≡ hello_at kept.now.items place }
    ensures valid { IfSome result (λ told. IsHeader told.0) }
{
    if place < FIRST_HELLO {
        return None;
    }
    let number = place - FIRST_HELLO;
    if number < MOST_HELLOS {
        return hello_of(kept, number, Version::One);
    }
    hello_of(kept, number - MOST_HELLOS, Version::Two)
}

/// The header of the HELLO with this index in a version, and the guess at its receiving end; `None` if there is no such
/// index.
#[inline(always)]
fn hello_of(kept: &Vec<KeptHello>, index: u32, version: Version) -> Option<(Header, u32)>
    ensures header { option_map (λ told. told.0) result
        ≡ option_map (in_version version) (slice_get kept.now.items index) }
    ensures valid { IfSome result (λ told. IsHeader told.0) }
{
    let Some(hello) = kept.get(index as usize) else {
        return None;
    };
    Some((hello.header(version), hello.far_end))
}
