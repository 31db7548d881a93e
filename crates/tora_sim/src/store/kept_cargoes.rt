//! Outbound messages (`Cargo`) in compressed form.
ghost use Rattle.std.specs.Prelude.{◌≡◌, ◌<◌, ◌-◌, ◌^◌, ◌∷◌, ◌++◌, [], List, slice_get, length, vec_len, vec_capacity};
ghost use Rattle.std.specs.Prelude.{IfOk, IfSome, OnOk, IsTrue, ◌↔◌};
ghost use Rattle.tora_arq.specs.declared.life.Life.{Life as AnyLife};
ghost use Rattle.tora_sim.specs.declared.store.kept_cargoes.Origin.{Origin as AnyOrigin};
ghost use Rattle.tora_height.specs.Height.{IsHeight, quintuple};
ghost use Rattle.tora_sim.specs.Datagrams.{IsMore};
ghost use Rattle.tora_sim.specs.KeptCargoes.{HasOrigin, IsKeptCargo, IsLastOrigin, IsOrigin, IsShort, apart_in};
ghost use Rattle.tora_sim.specs.KeptCargoes.{cargo_in, origin_at, tau_of};

use crate::store::kept_list::KeptList;
use crate::store::reserve_one;
use std::alloc::{AllocError, Global};
use std::marker::Model;
use tora_arq::Life;
use tora_height::{Height, Id};
use tora_packet::{Packet, Query, Update};
use tora_seat::Cargo;

/// The most outbound messages that are stored uncompressed: the index of each fits 32 bits.
const MOST_APART: usize = 0x1_0000_0000;

/// The first time tag that has more than 24 bits.
const FIRST_LONG: u64 = 0x100_0000;

/// The number of origins that a list has room for at first. Most lists with an origin get a few: one for each session.
const FIRST_ORIGINS: usize = 4;

/// The value of `KeptCargoes::last` before the first outbound message.
const NO_ORIGIN: Origin = Origin {
    life: Life { own: 0, peer: 0 },
    id: 0,
};

/// The session of an outbound message and, for an update, the node in its height.
#[derive(Clone, Copy)]
pub struct Origin {
    life: Life,
    /// The node in the height of an update; any node for another message.
    id: Id,
}

/// A compressed outbound message, in 12 bytes.
#[derive(Clone, Copy)]
pub enum KeptCargo {
    /// A cut: the index of its origin.
    Cut(u16),
    /// A query: the index of its origin, and its destination.
    Qry(u16, u32),
    /// An update: the reflection bit, the index of the origin, the destination, the node that defined the reference
    /// level, the low 16 and the high 8 bits of the time tag in ticks of 100 ms, and the offset within the level. The
    /// origin has the node of the height.
    Upd(u8, u16, u16, u16, u16, u8, i8),
    /// A clear, or an outbound message with numbers that are too large for the other variants: its index among the
    /// uncompressed messages.
    Apart(u32),
}

const _: () = prove!(size_of::<KeptCargo>() == 12);

/// Compressed outbound messages, in order of arrival.
#[derive(Drop)]
pub struct KeptCargoes {
    /// Whether room was made for one more outbound message.
    spare: bool,
    /// The last origin in `origins`. Most outbound messages have it, so `origins` is not read for them.
    last: Origin,
    origins: Vec<Origin>,
    cargoes: KeptList,
    apart: Vec<Cargo>,
}

impl Model for KeptCargoes {
    ghost use Rattle.std.specs.Prelude.{◌≡◌, ◌<◌, ◌^◌, true, map, vec_len, vec_capacity};
    ghost use Rattle.std.specs.List.{AllByRecursion};
    ghost use Rattle.tora_sim.specs.KeptCargoes.{CargoList, IsKeptCargo, IsLastOrigin, cargo_in, one_if};

    ghost Value = { CargoList };

    ghost view = { λ s. record {
      items = map (cargo_in s.origins.items s.apart.items) s.cargoes.items;
      places = one_if s.spare;
    } };

    ghost invariant = { λ s. AllByRecursion (IsKeptCargo s.origins.items s.apart.items) s.cargoes.items
        × (s.spare ≡ true → (0 < s.cargoes.places) × (vec_len s.origins < vec_capacity s.origins)
        × (vec_len s.apart < vec_capacity s.apart) × (vec_len s.apart < 2 ^ 32))
        × IsLastOrigin s.last s.origins.items };
}

impl KeptCargoes {
    /// An empty list.
    pub fn new(alloc: Global) -> KeptCargoes
        ensures { result.items ≡ [] }
    {
        KeptCargoes {
            cargoes: KeptList::new(alloc),
            origins: Vec::new(alloc),
            apart: Vec::new(alloc),
            spare: false,
            last: NO_ORIGIN,
        }
    }

    /// The number of outbound messages.
    pub fn len(&self) -> usize
        ensures len { result ≡ length self.now.items }
        ensures most { result < 2 ^ 63 }
    {
        self.cargoes.len()
    }

    /// Makes room for one more outbound message.
    ///
    /// # Errors
    /// Memory ran out, or no more outbound messages can be stored: 2^62 in all, 2^32 uncompressed.
    pub fn reserve(&mut self) -> Result<(), AllocError>
        ensures items { self.new.items ≡ self.old.items }
        ensures room { OnOk result (0 < self.new.places) }
    {
        if self.spare {
            return Ok(());
        }
        if self.apart.len() >= MOST_APART {
            return Err(AllocError);
        }
        self.cargoes.reserve()?;
        reserve_origin(&mut self.origins)?;
        reserve_one(&mut self.apart)?;
        self.spare = true;
        Ok(())
    }

    /// Appends an outbound message. There must be room for it.
    pub fn push(&mut self, cargo: &Cargo)
        requires { 0 < self.old.places }
        ensures { self.new ≡ record self.old {
          items = self.old.items ++ cargo.now ∷ [];
          places = self.old.places - 1;
        } }
    {
        self.spare = false;
        let number = number_of(&mut self.origins, &mut self.last, cargo);
        let kept = keep(&mut self.apart, number, cargo);
        self.cargoes.push(kept);
    }

    /// The outbound message at the index `place`, counted from 0; `None` past the last one.
    pub fn get(&self, place: usize) -> Option<Cargo>
        ensures { result ≡ slice_get self.now.items place }
    {
        let Some(kept) = self.cargoes.get(place) else {
            return None;
        };
        Some(cargo_of(&self.origins, &self.apart, &kept))
    }
}

/// Makes room for one more origin, or for the first few.
///
/// # Errors
/// Memory ran out.
#[inline(always)]
fn reserve_origin(origins: &mut Vec<Origin>) -> Result<(), AllocError>
    ensures items { origins.new.items ≡ origins.old.items }
    ensures room { OnOk result (vec_len origins.new < vec_capacity origins.new) }
{
    if origins.is_empty() {
        origins.reserve_exact(FIRST_ORIGINS)
    } else {
        origins.reserve(1)
    }
}

/// Whether an outbound message has this origin.
fn has_origin(cargo: &Cargo, origin: &Origin) -> bool
    ensures { IsTrue result ↔ IsOrigin cargo.now origin.now }
{
    match cargo {
        Cargo::Packet(life, Packet::Upd(update)) => {
            origin.id == update.height().id() && origin.life == *life
        }
        Cargo::Packet(life, _) => origin.life == *life,
        Cargo::Cut(life) => origin.life == *life,
    }
}

/// An origin for an outbound message. If the message is not an update, the origin has the node of the origin `last`.
fn origin_of(cargo: &Cargo, last: &Origin) -> Origin
    ensures { IsOrigin cargo.now result }
{
    let (life, id) = match cargo {
        Cargo::Packet(life, Packet::Upd(update)) => (*life, update.height().id()),
        Cargo::Packet(life, _) => (*life, last.id),
        Cargo::Cut(life) => (*life, last.id),
    };
    Origin { life, id }
}

/// The index of the last origin, if the outbound message has that origin; otherwise `None`.
fn last_number(origins: &[Origin], last: &Origin, cargo: &Cargo) -> Option<usize>
    requires { IsLastOrigin last.now origins.now }
    ensures { IfSome result (λ number. HasOrigin origins.now number cargo.now) }
{
    let Some(number) = origins.len().checked_sub(1) else {
        return None;
    };
    let is_same = has_origin(cargo, last);
    if is_same { Some(number) } else { None }
}

/// The index of an outbound message's origin. A new origin is appended, unless the message has the last one.
fn number_of(origins: &mut Vec<Origin>, last: &mut Origin, cargo: &Cargo) -> usize
    requires places { vec_len origins.old < vec_capacity origins.old }
    requires last { IsLastOrigin last.old origins.old.items }
    ensures is { HasOrigin origins.new.items result cargo.now }
    ensures more { IsMore origins.old.items origins.new.items }
    ensures last { IsLastOrigin last.new origins.new.items }
{
    if let Some(number) = last_number(origins, last, cargo) {
        return number;
    }
    let number = origins.len();
    let origin = origin_of(cargo, last);
    origins.push_reserved(origin);
    *last = origin;
    number
}

/// Stores an outbound message whose origin has this index: compressed, or appended to the uncompressed messages.
fn keep(apart: &mut Vec<Cargo>, number: usize, cargo: &Cargo) -> KeptCargo
    requires places { vec_len apart.old < vec_capacity apart.old }
    requires numbers { vec_len apart.old < 2 ^ 32 }
    ensures value { (origins : List AnyOrigin) → HasOrigin origins number cargo.now
        → cargo_in origins apart.new.items result ≡ cargo.now }
    ensures within { (origins : List AnyOrigin) → HasOrigin origins number cargo.now
        → IsKeptCargo origins apart.new.items result }
    ensures more { IsMore apart.old.items apart.new.items }
{
    if let Some(kept) = short(number, cargo) {
        return kept;
    }
    let place = apart.len() as u32;
    append(apart, cargo);
    KeptCargo::Apart(place)
}

/// An outbound message in compressed form; `None` if it is a clear, or if its numbers are too large.
fn short(number: usize, cargo: &Cargo) -> Option<KeptCargo>
    ensures { IfSome result (IsShort number cargo.now) }
{
    let origin = u16::try_from(number).ok()?;
    match cargo {
        Cargo::Packet(_, Packet::Qry(query)) => Some(KeptCargo::Qry(origin, query.destination())),
        Cargo::Packet(_, Packet::Upd(update)) => short_update(origin, update),
        Cargo::Packet(_, Packet::Clr(_)) => None,
        Cargo::Cut(_) => Some(KeptCargo::Cut(origin)),
    }
}

/// An update in compressed form, with this index of its origin; `None` if its numbers are too large.
fn short_update(origin: u16, update: &Update) -> Option<KeptCargo>
    ensures { IfSome result (λ kept.
        (life : AnyLife) → IsShort origin (Cargo.Packet life (Packet.Upd update.now)) kept) }
{
    let destination = u16::try_from(update.destination()).ok()?;
    let height = update.height();
    let (low, high) = short_tau(height.tau())?;
    let oid = u16::try_from(height.oid()).ok()?;
    let delta = i8::try_from(height.delta()).ok()?;
    Some(KeptCargo::Upd(height.r(), origin, destination, oid, low, high, delta))
}

/// The low 16 and the high 8 bits of a time tag; `None` if it has more than 24 bits.
fn short_tau(tau: u64) -> Option<(u16, u8)>
    ensures { IfSome result (λ parts. tau_of parts.0 parts.1 ≡ tau) }
{
    if tau >= FIRST_LONG {
        return None;
    }
    Some(((tau % 65536) as u16, (tau / 65536) as u8))
}

/// The time tag with these low 16 and high 8 bits.
fn long_tau(low: u16, high: u8) -> u64
    ensures { result ≡ tau_of low high }
{
    65536 * u64::from(high) + u64::from(low)
}

/// The origin at an index; `NO_ORIGIN` if there is none.
fn origin_at(origins: &[Origin], number: u16) -> Origin
    ensures { result ≡ origin_at origins.now number }
{
    match origins.get(usize::from(number)) {
        Some(origin) => *origin,
        None => NO_ORIGIN,
    }
}

/// The uncompressed outbound message at an index; a cut of the session 0/0 if there is none.
fn apart_at(apart: &[Cargo], place: u32) -> Cargo
    ensures { result ≡ apart_in (slice_get apart.now place) }
{
    match apart.get(place as usize) {
        Some(cargo) => *cargo,
        None => Cargo::Cut(Life { own: 0, peer: 0 }),
    }
}

/// The outbound message that is stored as `kept`.
fn cargo_of(origins: &[Origin], apart: &[Cargo], kept: &KeptCargo) -> Cargo
    requires { IsKeptCargo origins.now apart.now kept.now }
    ensures { result ≡ cargo_in origins.now apart.now kept.now }
{
    match kept {
        KeptCargo::Cut(origin) => Cargo::Cut(origin_at(origins, *origin).life),
        KeptCargo::Qry(origin, destination) => {
            let life = origin_at(origins, *origin).life;
            Cargo::Packet(life, Packet::Qry(Query::of(*destination)))
        }
        KeptCargo::Upd(r, origin, destination, oid, low, high, delta) => {
            let origin = origin_at(origins, *origin);
            let height = height_of(
                long_tau(*low, *high),
                u32::from(*oid),
                *r,
                i32::from(*delta),
                origin.id,
            );
            let update = Update::of(u32::from(*destination), height);
            Cargo::Packet(origin.life, Packet::Upd(update))
        }
        KeptCargo::Apart(place) => apart_at(apart, *place),
    }
}

/// The height with these parts.
#[tactic(auto, using(tora_height::proofs::Ranges::height_has_no_fault))]
fn height_of(tau: u64, oid: u32, r: u8, delta: i32, id: Id) -> Height
    requires { IsHeight (quintuple tau oid r delta id) }
    ensures { result ≡ quintuple tau oid r delta id }
{
    match Height::new(tau, oid, r, delta, id) {
        Ok(height) => height,
        Err(_) => unreachable!(),
    }
}

/// Appends an outbound message. There must be room for it.
pub fn append(cargoes: &mut Vec<Cargo>, cargo: &Cargo)
    requires { vec_len cargoes.old < vec_capacity cargoes.old }
    ensures items { cargoes.new.items ≡ cargoes.old.items ++ cargo.now ∷ [] }
    ensures capacity { vec_capacity cargoes.new ≡ vec_capacity cargoes.old }
{
    // In two cases, because the prover does not prove a push of `*cargo`.
    match cargo {
        Cargo::Packet(life, packet) => cargoes.push_reserved(Cargo::Packet(*life, *packet)),
        Cargo::Cut(life) => cargoes.push_reserved(Cargo::Cut(*life)),
    }
}
