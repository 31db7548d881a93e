//! The packets of one session among outbound messages.
ghost use Rattle.std.specs.Prelude.{◌≡◌, ◌<◌, ◌≤◌, ◌^◌, ◌++◌, ◌∷◌, [], length, option_to_list, slice_get, OnOk, Some};
ghost use Rattle.tora_seat.specs.declared.cargo.Cargo.{Cargo as AnyCargo};
ghost use Rattle.tora_world.specs.Lists.{packets_of, parcels_in};

use crate::store::kept_cargoes::KeptCargoes;
use std::alloc::AllocError;
use tora_arq::Life;
use tora_packet::Packet;
use tora_seat::Cargo;

/// The packet of an outbound message; `None` if the message is a cut or belongs to another session.
fn packet_put(cargo: &Cargo, life: Life) -> Option<Packet>
    ensures { option_to_list result ≡ packets_of life (parcels_in (cargo.now ∷ [])) }
{
    match cargo {
        Cargo::Packet(other, packet) => { if *other == life { Some(*packet) } else { None } }
        Cargo::Cut(_) => None,
    }
}

/// How many packets of a session are among outbound messages.
pub fn count_put(put: &[Cargo], life: Life) -> usize
    ensures count { result ≡ length (packets_of life (parcels_in put.now)) }
    ensures few { result ≤ length put.now }
{
    let mut count = 0;
    for cargo in put {
        if packet_put(cargo, life).is_some() {
            count += 1;
        }
    }
    count
}

/// Appends the packets of a session that are among outbound messages.
///
/// # Errors
/// Memory ran out.
pub fn list_put(packets: &mut Vec<Packet>, put: &[Cargo], life: Life) -> Result<(), AllocError>
    ensures { OnOk result (packets.new.items ≡ packets.old.items ++ packets_of life (parcels_in put.now)) }
{
    for cargo in put {
        match packet_put(cargo, life) {
            Some(packet) => packets.push(packet)?,
            None => {}
        }
    }
    Ok(())
}

/// The packet of the outbound message at an index; `None` if the message is a cut or belongs to another session.
fn packet_kept(kept: &KeptCargoes, place: usize, life: Life) -> Option<Packet>
    requires { place < length kept.now.items }
    ensures { (cargo : AnyCargo) → slice_get kept.now.items place ≡ Some cargo
        → option_to_list result ≡ packets_of life (parcels_in (cargo ∷ [])) }
{
    match kept.get(place) {
        Some(cargo) => packet_put(&cargo, life),
        None => None,
    }
}

/// How many packets of a session are among compressed outbound messages.
pub fn count_kept(kept: &KeptCargoes, life: Life) -> usize
    ensures count { result ≡ length (packets_of life (parcels_in kept.now.items)) }
    ensures few { result < 2 ^ 63 }
{
    let mut count = 0;
    for place in 0..kept.len() {
        if packet_kept(kept, place, life).is_some() {
            count += 1;
        }
    }
    count
}

/// Appends the packets of a session that are among compressed outbound messages.
///
/// # Errors
/// Memory ran out.
pub fn list_kept(
    packets: &mut Vec<Packet>,
    kept: &KeptCargoes,
    life: Life,
) -> Result<(), AllocError>
    ensures { OnOk result (packets.new.items ≡ packets.old.items ++ packets_of life (parcels_in kept.now.items)) }
{
    for place in 0..kept.len() {
        match packet_kept(kept, place, life) {
            Some(packet) => packets.push(packet)?,
            None => {}
        }
    }
    Ok(())
}
